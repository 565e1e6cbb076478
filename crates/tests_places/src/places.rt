//! Places of one store, with its writer in a thread.
//!
//! A test is a table of connections (`Row`), which `play` serves in a run of a store. Those of a queue that ends early and of gates open store
//! and queue themselves (`ending`, `gates`).

mod ahead;
mod ending;
mod faults;
mod gates;
mod given;
mod kept;
mod known;
mod peers;
mod runs;
mod sweeping;
