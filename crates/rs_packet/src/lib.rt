//! The packets of MQTT 5.0 (OASIS, sections 2 and 3): those that a client sends, read, and the replies of the server, written.
//!
//! `decode` gives the packet that some bytes begin with, and `needed_len` says how many bytes to collect before `decode` is called
//! again. `encode` writes a `Reply`, `encode_parts` does not copy a long payload, and `encoded_len` says how long it gets. Nothing is kept
//! from one call to the next, no packet of more than `MAX_PACKET_SIZE` bytes is read, and texts and payloads that were read share the bytes
//! that they were read from.
//!
//! Promised by contracts: `decode` answers a packet exactly if a prefix of the bytes encodes one by the grammar of the standard, and
//! the first fault from left to right if there is one; only out of memory may come instead of these answers. A fault stays, whatever
//! bytes follow, and at most one prefix of some bytes encodes a packet (`one_packet_law`). `encode` gives the one encoding of a reply;
//! the encodings are prefix-free, and none is of two replies (`wire_law`). `publish_len` says how long a PUBLISH is before it is
//! made. docs/WIRE.md has the rules in words.
#![tactic(auto)]

mod decoding;
mod encoding;
mod filters;
mod header;
mod limits;
mod masks;
mod packet;
mod reply;

pub use decoding::{decode, one_packet_law, wire_law};
pub use encoding::{encode, encode_parts, encoded_len, publish_len};
pub use header::needed_len;
pub use limits::RECEIVE_MAXIMUM;
pub use packet::{
    Acknowledgement, Connect, Decoded, Options, Packet, PacketId, Publish, RetainHandling,
    Subscribe, Unsubscribe,
};
pub use reply::{Codes, ConnackAccepted, PublishReply, Reply};
pub use rs_message::Qos;
pub use rs_packet_field::PacketFault;
pub use rs_packet_property::{MAX_REMAINING_LENGTH, Properties, PropertyFields, SubscriptionId};
