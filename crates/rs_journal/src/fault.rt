//! Why a journal is not opened, read or written.

ghost use Rattle.std.specs.Prelude.{◌≡◌};
ghost use Rattle.rs_journal.specs.declared.fault.ReadFault.TheVariants.{NoMemory};
ghost use Rattle.rs_journal.specs.Opening.{fault_of, fault_of_record};

use crate::pages::OpenFault;
use rs_journal_record::RecordFault;
use sqlite_pager::Error;
use std::alloc::AllocError;
use thiserror::Error as ErrorMessage;

/// Why operations are not read. The files stand for what they did.
#[derive(Clone, Copy, Debug, ErrorMessage)]
pub enum ReadFault {
    /// The files were not opened.
    #[error(transparent)]
    Open(OpenFault),
    /// An operation is not whole, or none. No crash leaves that.
    #[error("the journal is damaged; restore its files from a copy, or move them away to begin with none")]
    Damaged,
    /// Memory was refused.
    #[error("memory ran out while the journal was read; try again later")]
    NoMemory,
    /// A call of the files failed.
    #[error("the journal cannot be read: {0}; start again, and look at its disk if that does not help")]
    Disk(Error),
}

/// Why operations are not kept.
#[derive(Clone, Copy, Debug, ErrorMessage)]
pub enum WriteFault {
    /// None of those that were not committed is kept, and no crash brings one back.
    #[error("the journal keeps none of the last changes: {0}; free space or memory and try again")]
    Refused(Error),
    /// They are kept, all or none, and the journal is closed: the next opening tells.
    #[error("the journal failed and may keep the last changes or not: {0}; start again")]
    Doubtful(Error),
}

impl From<AllocError> for ReadFault {
    ghost from_gives = { λ _ r. r ≡ NoMemory };

    fn from(_e: AllocError) -> ReadFault {
        ReadFault::NoMemory
    }
}

impl From<Error> for ReadFault {
    ghost from_gives = { λ e r. r ≡ fault_of e };

    fn from(error: Error) -> ReadFault {
        match error {
            Error::OutOfMemory => ReadFault::NoMemory,
            other => ReadFault::Disk(other),
        }
    }
}

impl From<RecordFault> for ReadFault {
    ghost from_gives = { λ e r. r ≡ fault_of_record e };

    fn from(fault: RecordFault) -> ReadFault {
        match fault {
            RecordFault::NoMemory => ReadFault::NoMemory,
            _ => ReadFault::Damaged,
        }
    }
}
