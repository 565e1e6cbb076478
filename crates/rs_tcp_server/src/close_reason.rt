//! How a connection ended, in the words of the log.

use rs_metrics::End;
use rs_server::{ServeFault, Served};
use std::fmt;
use std::fmt::{Display, Formatter};

/// How a connection ended, for an operator.
#[derive(Clone, Copy, Debug, PartialEq, Eq)]
pub(crate) enum CloseReason {
    /// It was served to its end.
    Served(Served),
    /// Reading failed, or no byte came for too long.
    ReadFailed,
    /// Writing failed, or no byte was taken for too long.
    WriteFailed,
    /// Memory was refused.
    NoMemory,
}

impl CloseReason {
    /// How a connection ended that was served so. `unwritten` tells that the last read failed because what waited could not be
    /// written.
    pub(crate) fn new(served: Result<Served, ServeFault>, unwritten: bool) -> CloseReason {
        match served {
            Ok(served) => CloseReason::Served(served),
            Err(ServeFault::Read) if unwritten => CloseReason::WriteFailed,
            Err(ServeFault::Read) => CloseReason::ReadFailed,
            Err(ServeFault::Write) => CloseReason::WriteFailed,
            Err(ServeFault::NoMemory) => CloseReason::NoMemory,
        }
    }

    /// What is counted of it.
    pub(crate) fn counted(&self) -> End {
        match self {
            CloseReason::Served(Served::ClientClosed) => End::ClientDisconnected,
            CloseReason::Served(Served::EndOfInput) => End::EndOfInput,
            CloseReason::Served(Served::CutInput) => End::CutInput,
            CloseReason::Served(Served::ServerClosed(_)) => End::ClosedWithCode,
            CloseReason::Served(Served::Dropped) => End::ClosedSilently,
            CloseReason::ReadFailed => End::ReadFailed,
            CloseReason::WriteFailed => End::WriteFailed,
            CloseReason::NoMemory => End::OutOfMemory,
        }
    }

    /// Whether nothing more can be read or written.
    pub(crate) fn is_failed(&self) -> bool {
        matches!(self, CloseReason::ReadFailed | CloseReason::WriteFailed)
    }
}

impl Display for CloseReason {
    fn fmt<W: fmt::Write>(&self, f: &mut Formatter<W>) -> fmt::Result {
        match self {
            CloseReason::Served(Served::ClientClosed) => f.write_str("client disconnected"),
            CloseReason::Served(Served::EndOfInput) => f.write_str("end of input"),
            CloseReason::Served(Served::CutInput) => f.write_str("input cut inside a packet"),
            CloseReason::Served(Served::ServerClosed(code)) => write!(
                f,
                "closed by the server with 0x{code:02X}"
            ),
            CloseReason::Served(Served::Dropped) => f.write_str(
                "closed by the server without a reply",
            ),
            CloseReason::ReadFailed => f.write_str("the read failed or was idle"),
            CloseReason::WriteFailed => f.write_str("the write failed or was idle"),
            CloseReason::NoMemory => f.write_str("out of memory"),
        }
    }
}
