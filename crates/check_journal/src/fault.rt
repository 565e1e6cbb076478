//! Why a command is not done.

use rs_journal::{Error, OpenError, ReadFault, WriteFault};
use std::alloc::{AllocError, AllocFailed};
use std::io;

/// Of a journal, which is answered, or of the shell, which ends then.
#[derive(Clone, Copy, Debug)]
pub enum Fault {
    Open(OpenError),
    Read(ReadFault),
    Write(WriteFault),
    Checkpoint(Error),
    Words,
    NoMemory,
    Io,
}

impl Fault {
    /// Whether a journal refused the command.
    pub fn is_answered(self) -> bool {
        !matches!(self, Fault::Words | Fault::NoMemory | Fault::Io)
    }

    /// What is said on standard error.
    pub fn text(self) -> &'static str {
        match self {
            Fault::Words => "give commands as the head of src/main.rt has them",
            Fault::NoMemory => "out of memory",
            _ => "the clock, the input or the output failed",
        }
    }

    /// The exit status.
    pub fn status(self) -> u8 {
        match self {
            Fault::Words => 2,
            _ => 1,
        }
    }
}

impl From<OpenError> for Fault {
    fn from(error: OpenError) -> Fault {
        Fault::Open(error)
    }
}

impl From<ReadFault> for Fault {
    fn from(fault: ReadFault) -> Fault {
        Fault::Read(fault)
    }
}

impl From<WriteFault> for Fault {
    fn from(fault: WriteFault) -> Fault {
        Fault::Write(fault)
    }
}

impl From<Error> for Fault {
    fn from(error: Error) -> Fault {
        Fault::Checkpoint(error)
    }
}

impl From<AllocError> for Fault {
    fn from(_error: AllocError) -> Fault {
        Fault::NoMemory
    }
}

impl<T: Drop> From<AllocFailed<T>> for Fault {
    fn from(_error: AllocFailed<T>) -> Fault {
        Fault::NoMemory
    }
}

impl From<io::Error> for Fault {
    fn from(error: io::Error) -> Fault {
        match error.kind() {
            io::ErrorKind::OutOfMemory => Fault::NoMemory,
            _ => Fault::Io,
        }
    }
}
