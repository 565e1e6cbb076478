//! Why bytes do not begin with a record.

ghost use Rattle.std.specs.Prelude.{◌≡◌};
ghost use Rattle.rs_journal_record.specs.declared.fault.RecordFault.TheVariants.{NoMemory};

use std::alloc::{AllocError, AllocFailed};
use thiserror::Error;

/// The first fault of the bytes of a record, from left to right.
#[derive(Clone, Copy, Debug, PartialEq, Eq, Error)]
pub enum RecordFault {
    /// The bytes end before the record does.
    #[error("the last record is not whole: drop it, or restore the rest from a copy")]
    Truncated,
    /// The first byte is no kind of operation.
    #[error("a record is of an unknown kind: read it with the version that wrote it")]
    UnknownKind,
    /// A field has a value that no operation has: no text, topic name, QoS or flag, an empty payload, or a message that is too large.
    #[error("a record is damaged: restore it from a copy")]
    Malformed,
    /// Memory was refused.
    #[error("memory ran out while a record was read: free memory and try again")]
    NoMemory,
}

impl From<AllocError> for RecordFault {
    ghost from_gives = { λ _ e. e ≡ NoMemory };

    fn from(_e: AllocError) -> RecordFault {
        RecordFault::NoMemory
    }
}

impl<T: Drop> From<AllocFailed<T>> for RecordFault {
    ghost from_gives = { λ _ e. e ≡ NoMemory };

    fn from(_e: AllocFailed<T>) -> RecordFault {
        RecordFault::NoMemory
    }
}
