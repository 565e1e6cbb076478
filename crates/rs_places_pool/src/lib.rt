//! Many clients, served in steps by a thread for each or by a pool of a few threads ([`Runner`]).
//!
//! In the pool each client is in a lane. A [`Watch`] tells which clients of a lane have something to do. A thread of the lane reads these,
//! and makes the steps of each ([`Client`]) until it has nothing to do. Those that have changes are served one after the other, by a thread
//! that sleeps once until the writer has replied to all. If a thread is held up, another one goes on. All is proved to be safe, and no more:
//! that each client is served until it is done is for tests to show. What is known of a client is for its own type to say.
#![tactic(auto)]

mod client;
mod client_queue;
mod each;
mod lane;
mod lane_clients;
mod pool;
mod runner;
mod threads;
mod watch;

pub use client::Client;
pub use runner::Runner;
pub use watch::{NoWatch, Watch};
