//! One client's session over a gate to the store (sections 3 and 4 of OASIS MQTT Version 5.0).
//!
//! A `Session` takes a packet, or a fault in its place, and gives the replies: at most one of its own, and then the retained
//! messages that wait, as far as the client's Receive Maximum and Maximum Packet Size allow. It reaches the store by a
//! `Gate`; `LocalGate` keeps one of its own. docs/SESSION.md has the rules in words.
//!
//! The contracts promise: each input takes one row of the table of the session (`on_input`), over every gate; no other
//! change than that of its PUBLISH is handed to the gate; what waits is sent as the window gives it (`next_reply`). What holds
//! along a run of inputs is promised by `rs_server`.
#![tactic(auto)]

mod ahead;
mod gate;
mod incoming;
mod local;
mod open;
mod phase;
mod reason;
mod session;
mod subscriptions;

pub use gate::Gate;
pub use incoming::Incoming;
pub use local::LocalGate;
pub use phase::{Closing, Input, Step};
pub use session::Session;
pub use subscriptions::MAX_SUBSCRIPTIONS;
