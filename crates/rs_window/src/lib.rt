//! The replay of retained messages to one client: packet identifiers, the quota, and what waits to be sent (OASIS MQTT
//! Version 5.0, sections 4.3, 4.4, 4.6 and 4.9). docs/SESSION.md has the rules in words.
//!
//! [`Window::queue`] appends messages to what waits, [`Window::next`] gives the first that is to be sent at a given time, and the
//! acknowledgements give identifiers back. [`Inbound`] has those of QoS 2 packets that were received, in use until they are released.
//!
//! Contracts promise that each call is one step on what the identifiers wait for and on the list of what waits; a refused call
//! changes nothing. [`replay_law`] promises of every list of calls that each queued message is given once, in order, or was
//! dropped because it had expired or was too long for the client; that no identifier is given while it waits for an
//! acknowledgement; and that no more identifiers wait for one than the client allows. `next`, the acknowledgements and all
//! calls of [`Inbound`] take no memory.
#![tactic(auto)]

mod fault;
mod identifiers;
mod inbound;
mod law;
mod waiting;
mod window;

pub use fault::{Ack, WindowFault};
pub use identifiers::Kind;
pub use inbound::Inbound;
pub use law::replay_law;
pub use waiting::{MAX_WAITING, Waiting};
pub use window::{MAX_QUOTA, Outgoing, Window};
