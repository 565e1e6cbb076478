//! What an acknowledgement does, and the faults of a window.

ghost use Rattle.std.specs.Prelude.{◌≡◌};
ghost use Rattle.rs_window.specs.Codes.{code_of};

use crate::waiting::MAX_WAITING;
use rs_packet::RECEIVE_MAXIMUM;
use thiserror::Error;

/// What an acknowledgement did (4.3.2, 4.3.3).
#[derive(Clone, Copy, Debug, PartialEq, Eq)]
pub enum Ack {
    /// The identifier is free, and the quota is one greater (4.9).
    Freed,
    /// The PUBREC had a reason code below 0x80: a PUBREL is due (4.3.3).
    Released,
    /// The identifier is not in use; nothing changed.
    Unknown,
}

/// Why a window, or the table of inbound identifiers, refuses a call. A refused call changes nothing.
#[derive(Clone, Copy, Debug, PartialEq, Eq, Error)]
pub enum WindowFault {
    /// 50: more than [`MAX_WAITING`](crate::MAX_WAITING) messages would wait.
    #[error("more than {} messages would wait for this client; subscribe to fewer topics at a time", MAX_WAITING)]
    TooManyWaiting = 50,
    /// 51: out of memory for the messages that would wait.
    #[error("there is no memory for the messages that would wait; subscribe again later")]
    NoMemory = 51,
    /// 52: the identifier waits for another acknowledgement (4.3.2, 4.3.3).
    #[error("the packet identifier waits for another acknowledgement; answer QoS 1 by PUBACK, QoS 2 by PUBREC and then PUBCOMP")]
    WrongKind = 52,
    /// 53: [`RECEIVE_MAXIMUM`](rs_packet::RECEIVE_MAXIMUM) other identifiers are in use (3.3.4).
    #[error("{} messages of QoS 2 are not yet released; send PUBREL for one of them first", RECEIVE_MAXIMUM)]
    TooManyHeld = 53,
}

impl WindowFault {
    /// The number of the fault, 50 to 53.
    pub fn code(&self) -> u8
        ensures { result ≡ code_of self.now }
    {
        *self as u8
    }
}
