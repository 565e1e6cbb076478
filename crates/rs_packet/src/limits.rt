//! The limits of the server that a CONNACK announces.

/// The Receive Maximum that a CONNACK announces (3.2.2.3.3): how many PUBLISH packets of QoS 2 a client may have sent and not yet
/// released by a PUBREL. One of QoS 1 is acknowledged at once and does not count.
pub const RECEIVE_MAXIMUM: u16 = 16;

const _: () = prove!(RECEIVE_MAXIMUM == 16);
