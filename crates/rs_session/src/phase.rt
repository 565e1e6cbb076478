//! The phases of a session, and what it is given.

use crate::open::Open;
use rs_packet::{Packet, PacketFault};

/// How a session ended.
#[derive(Clone, Copy, Debug, PartialEq, Eq)]
pub enum Closing {
    /// The client sent DISCONNECT.
    ByClient,
    /// A CONNACK or a DISCONNECT with this Reason Code was due. It is sent, unless the client's Maximum Packet Size forbids
    /// it.
    ByServer(u8),
    /// The server ended it without a reply.
    Dropped,
}

/// The phase of a session.
#[derive(Drop)]
pub enum Phase {
    /// No CONNECT was accepted yet.
    Before,
    /// A CONNECT was accepted.
    Open(Open),
    /// The session is over.
    Ended(Closing),
}

/// Whether a session goes on.
#[derive(Clone, Copy, Debug, PartialEq, Eq)]
pub enum Step {
    /// It takes another input, once `next_reply` gave none.
    Go,
    /// It is over: the replies that are left are one CONNACK or DISCONNECT at most.
    End,
}

/// What a session is given: a packet, or a fault in its place.
#[derive(Debug, Drop)]
pub enum Input {
    /// A packet that was decoded.
    Whole(Packet),
    /// Why there is none.
    Broken(PacketFault),
}
