//! Retained messages, and the entries of the store's history.
//!
//! A PUBLISH with RETAIN 1 sets its topic's message or clears it ([`Operation::of`]). [`Message::remaining`] says how much
//! time a message has left. An [`Entry`] of the history is one operation and its [`Origin`].
//!
//! A topic and its message are one block ([`Found`]), made once for each PUBLISH. All that hold them share it by one count: the
//! entry and its copies, a store, an answer, what waits to be sent, and the reply that carries it. A message owns no bytes: its
//! payload and its texts are parts of the bytes that its packet was decoded from. So a message keeps the bytes of its packet in
//! memory, and no others. A caller that decodes from a buffer with several packets copies the packet first.
#![tactic(auto)]

mod entry;
mod fault;
mod found;
mod limits;
mod message;
mod places;
mod qos;
mod same;

pub use entry::{Entry, MAX_LINES, MAX_PLACES, Operation, Origin};
pub use fault::SubmitFault;
pub use found::Found;
pub use limits::MAX_PACKET_SIZE;
pub use message::{Message, Remaining};
pub use places::{LineCount, PlaceCount};
pub use qos::Qos;
pub use rs_packet_property::Properties;
pub use same::is_same;
