//! What one failing read, write or flush comes to, over any gate: a connection publishes and fails, and the next one by the same gate
//! reads.

use crate::packets::{REPLAYED, SUBSCRIBED};
use crate::streams::Call;
use rs_server::{ServeFault, Served};

/// What the first connection sends: CONNECT (16 bytes), a retained PUBLISH of QoS 1 (11 bytes), DISCONNECT.
pub const FIRST: &[u8] =
    b"\x10\x0E\x00\x04MQTT\x05\x02\x00\x3C\x00\x00\x01a\x33\x09\x00\x03a/b\x00\x01\x00x\xE0\x00";

/// What it is answered behind CONNACK (15 bytes): PUBACK (4 bytes).
pub const FIRST_REPLIES: &[u8] = b"\x40\x02\x00\x01";

/// What the second one sends: CONNECT, SUBSCRIBE.
pub const SECOND: &[u8] =
    b"\x10\x0E\x00\x04MQTT\x05\x02\x00\x3C\x00\x00\x01a\x82\x09\x00\x01\x00\x00\x03a/#\x00";

/// How a connection ends.
pub type ServeResult = Result<Served, ServeFault>;

const READ: ServeResult = Err(ServeFault::Read);

const WRITE: ServeResult = Err(ServeFault::Write);

const CLOSED: ServeResult = Ok(Served::ClientClosed);

/// Calls of the first connection, of which one fails in each run, and what then comes of both connections.
pub struct Fault {
    /// A call of this kind fails.
    pub call: Call,
    /// The number of the first call that may, from 1 on. A byte goes by each call.
    pub first: usize,
    /// The number of the last one.
    pub last: usize,
    /// How the first connection ends.
    pub ends: ServeResult,
    /// How many bytes of its replies are written if the first of these calls fails, one more for each later write.
    pub written: usize,
    /// Whether the PUBLISH is kept.
    pub is_kept: bool,
}

pub const FAULTS: &[Fault] = &[
    Fault {
        call: Call::Read,
        first: 1,
        last: 16,
        ends: READ,
        written: 0,
        is_kept: false,
    },
    Fault {
        call: Call::Read,
        first: 17,
        last: 27,
        ends: READ,
        written: 15,
        is_kept: false,
    },
    Fault {
        call: Call::Read,
        first: 28,
        last: 29,
        ends: READ,
        written: 19,
        is_kept: true,
    },
    Fault {
        call: Call::Read,
        first: 30,
        last: 31,
        ends: CLOSED,
        written: 19,
        is_kept: true,
    },
    Fault {
        call: Call::Write,
        first: 1,
        last: 15,
        ends: WRITE,
        written: 0,
        is_kept: false,
    },
    Fault {
        call: Call::Write,
        first: 16,
        last: 19,
        ends: WRITE,
        written: 15,
        is_kept: true,
    },
    Fault {
        call: Call::Write,
        first: 20,
        last: 20,
        ends: CLOSED,
        written: 19,
        is_kept: true,
    },
    Fault {
        call: Call::Flush,
        first: 1,
        last: 1,
        ends: WRITE,
        written: 15,
        is_kept: false,
    },
    Fault {
        call: Call::Flush,
        first: 2,
        last: 2,
        ends: WRITE,
        written: 19,
        is_kept: true,
    },
    Fault {
        call: Call::Flush,
        first: 3,
        last: 3,
        ends: CLOSED,
        written: 19,
        is_kept: true,
    },
];

/// How many bytes of CONNACK and of the replies behind it are written to the first connection if the call of this number fails.
pub fn first_written(fault: &Fault, at: usize) -> usize {
    let more = if fault.call == Call::Write {
        at.saturating_sub(fault.first)
    } else {
        0
    };
    fault.written.saturating_add(more)
}

/// What is written to the second one behind CONNACK.
pub fn second_replies(fault: &Fault) -> &'static [u8] {
    if fault.is_kept { REPLAYED } else { SUBSCRIBED }
}
