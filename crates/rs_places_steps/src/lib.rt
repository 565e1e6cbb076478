//! Turns, gates and the steps of clients, each made by whichever thread has time: [`run_places`]. A client has a turn, which gives it its
//! connections ([`Turn`]), and a gate with a line of its own ([`LineGate`]) to a store that others use too. Whoever makes the steps, a
//! thread of each client or a few threads for all ([`Runner`](rs_places_pool::Runner)), the contract is the same: all its connections were
//! served, in their order, each as its session's replies to what was read, and then its line was closed.
//!
//! The types of a client's stages (`stages`) keep what was served so far, and what it began with, wherever it is (`begun`); the steps
//! (`stages::steps`) lead from one to the next. Its end comes in a cell by which it is known whose end it is (`end_cell`).
//!
//! `specs/` says what it is that connections were served, one after the other (`Serving`, `Visits`), and what they saw of one history
//! (`Within`). The crate needs no `rs_intake_line`, so what serves clients is proved beside the lines.
#![tactic(auto)]

mod begun;
mod end_cell;
mod ended;
mod fault;
mod gates;
mod run;
mod stages;
mod task;
mod turn;

pub use ended::EndedConnection;
pub use fault::StoreFault;
pub use gates::{FreeGate, LineGate, StoreGate};
pub use run::run_places;
pub use turn::{Connection, FreeTurn, PlaceEnd, PlacesEnd, Turn};
