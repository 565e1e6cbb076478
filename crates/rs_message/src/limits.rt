//! How long a packet that is read may be, and so a message.

/// The Maximum Packet Size of the server, in bytes (3.2.2.3.6): no longer packet is read.
pub const MAX_PACKET_SIZE: u32 = 262_144;

const _: () = prove!(MAX_PACKET_SIZE == 262_144);
