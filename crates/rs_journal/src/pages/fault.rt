//! Why a stream is not opened.

ghost use Rattle.std.specs.Prelude.{◌≡◌};
ghost use Rattle.rs_journal.specs.OpenFaults.{fault_of};
ghost use Rattle.rs_journal.specs.declared.pages.fault.OpenFault.TheVariants.{NoMemory, Disk};
ghost use Rattle.sqlite_wal.specs.declared.error.Error.TheVariants.{Io};

use sqlite_disk::{Disk, Files};
use sqlite_pager::Error;
use std::alloc::AllocError;
use std::io;
use thiserror::Error as ErrorMessage;

/// Why the stream of two files cannot be opened. Only after `Damaged`, `NoMemory` and `Disk` may they have changed: what no commit of the
/// log ends may be overwritten, and files of which nothing was made may be made in part.
#[derive(Clone, Copy, Debug, ErrorMessage)]
pub enum OpenFault {
    /// The files are of another program, or damaged in their heads.
    #[error("the files are not those of a retained store; name another folder, or move them away")]
    Foreign,
    /// They are of another version of this form.
    #[error("the files have version {0} of their form and this program reads version 1; use the program that wrote them")]
    Version(u8),
    /// The head has two numbers, or a page has a number that no page can have there.
    #[error("the files are damaged; restore them from a copy, or move them away to begin with none")]
    Damaged,
    /// The file of pages is empty or was missing, and the log is not.
    #[error("the file of pages is empty and its log, which ends in -wal, is not; restore both from a copy, or move the log away to begin with none")]
    LoneLog,
    /// What stands in the place of the log is none.
    #[error("the file whose name ends in -wal is no log of a retained store; move it away, or restore both files from a copy")]
    ForeignLog,
    /// Memory was refused.
    #[error("memory ran out while the files were read; try again later")]
    NoMemory,
    /// A call of the files failed, or they are larger than they can be.
    #[error("the files cannot be read or written: {0}; look at their disk and permissions, and start again")]
    Disk(Error),
}

impl From<AllocError> for OpenFault {
    ghost from_gives = { λ _ r. r ≡ NoMemory };

    fn from(_e: AllocError) -> OpenFault {
        OpenFault::NoMemory
    }
}

impl From<io::Error> for OpenFault {
    ghost from_gives = { λ e r. r ≡ Disk (Io e) };

    fn from(error: io::Error) -> OpenFault {
        OpenFault::Disk(Error::Io(error))
    }
}

impl From<Error> for OpenFault {
    ghost from_gives = { λ e r. r ≡ fault_of e };

    fn from(error: Error) -> OpenFault {
        fault_from(error)
    }
}

/// What the error of a pager means when files are opened.
pub(crate) fn fault_from(error: Error) -> OpenFault
    ensures { result ≡ fault_of error }
{
    match error {
        Error::OutOfMemory => OpenFault::NoMemory,
        Error::Corrupt => OpenFault::Foreign,
        other => OpenFault::Disk(other),
    }
}

/// Files that are given back because they were not opened.
#[derive(Drop)]
pub struct NotOpened<D: Disk, F> {
    /// Why.
    pub fault: F,
    pub files: Files<D>,
}
