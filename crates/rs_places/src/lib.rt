//! Clients of a store, each with a line of its own to the writer: the gate of a client, which hands changes over by the line, and reads by
//! a seat of its own or by one that others use too ([`SharedGate`], [`Seats`]); and the run of a whole store: its writer and its clients,
//! from the first connection to the last ([`run_store`]), also one that keeps on disk what it publishes ([`run_kept_store`]). The contract of a
//! run is one statement, for every server.
#![tactic(auto)]

mod counting;
mod kept;
mod seats;
mod settling;
mod shared_gate;
mod store;

pub use kept::{KeptEnd, run_kept_store};
pub use seats::Seats;
pub use shared_gate::SharedGate;
pub use store::{StoreEnd, open_gates, run_store};
