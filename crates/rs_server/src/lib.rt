//! Connections: bytes in, bytes out.
//!
//! [`serve`] reads the packets of one client, runs its session over a gate to the store, and writes and
//! flushes the replies. The reader and the writer are [`Counted`], and a [`Clock`] tells the times.
//! A [`CountedGate`] counts what its gate refuses. A [`Serving`] is such a connection for a thread that serves several.
//!
//! However the input is split into reads, the bytes written are exactly the replies of the session to the
//! packets decoded from it; if a write or an allocation fails, a prefix of them. [`Served`] says how the
//! connection ended, and [`ServeFault`] what failed. The bytes determine the packets
//! ([`inputs_law`]).
//!
//! What holds along a run of the session (`Run`, `rs_session`) are contracts of functions that do nothing. The list of the gate only grows,
//! so what was acknowledged stays ([`growth_law`], [`stored_of_run`]). The gate sends to the store just the session's retained publications,
//! in order ([`sent_of_run`]). What the session keeps is within its limits ([`limits_law`]). Its PUBLISH replies are the messages that its
//! SUBSCRIBEs queued, in order, each once or dropped ([`replay_of_run`]).
//!
//! The contracts do not say that a call returns, or that memory is available. docs/SESSION.md has the rules in words.
#![tactic(auto)]

mod assigned;
mod clock;
mod connection;
mod counted;
mod counted_gate;
mod law;
mod plan;
mod read_size;
mod run_laws;
mod serving;
mod writing;

pub use clock::{Clock, Moments};
pub use connection::{ConnectionId, Served, serve};
pub use counted::Counted;
pub use counted_gate::{CountedGate, Refusals, Tally};
pub use law::inputs_law;
pub use run_laws::{growth_law, limits_law, replay_of_run, sent_of_run, stored_of_run};
pub use serving::Serving;
pub use writing::ServeFault;
