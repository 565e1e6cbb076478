//! Why no client is served.

use rs_journal::{OpenError, ReadFault};
use rs_places_steps::StoreFault;
use std::alloc::AllocError;
use std::io;
use std::io::ErrorKind;
use thiserror::Error;

/// Why a [`Server`](crate::Server) serves no client.
#[derive(Debug, Drop, Error)]
pub enum ListenFault {
    /// The address is not an address, is in use, or may not be bound, or descriptors to watch clients were refused.
    #[error("the address cannot be listened on: {0}")]
    Address(io::Error),
    /// The address for metrics is not an address, is in use, or may not be bound.
    #[error("the address for metrics cannot be listened on: {0}")]
    Metrics(io::Error),
    /// More messages are given than topics may hold one.
    #[error("more topics are given than the store may hold; raise the limit")]
    TooManyTopics,
    /// The folder does not keep the messages.
    #[error("{0}")]
    Keep(KeepFault),
    /// Memory was refused.
    #[error("out of memory")]
    NoMemory,
    /// The thread of the store's writer, that of the first client, that for metrics or that which syncs cannot be started.
    #[error("no thread can be started")]
    NoThread,
}

/// Why a folder does not keep the messages of a server.
#[derive(Debug, Drop, Error)]
pub enum KeepFault {
    /// The folder is missing, and cannot be made.
    #[error("the folder cannot be made: {0}")]
    Folder(io::Error),
    /// Its files cannot be made or opened.
    #[error("the files in the folder cannot be opened: {0}")]
    Files(io::Error),
    /// Another process has them.
    #[error("another server keeps its messages in the folder; stop it, or name another folder")]
    InUse,
    /// Beside them is one that another program left.
    #[error("the file retained-journal in the folder is not rstored's; move it away")]
    Foreign,
    /// They are damaged, of another version or another program, or cannot be read.
    #[error("{0}")]
    Unread(ReadFault),
    /// They keep messages of more topics than may hold one.
    #[error("the folder keeps {kept} topics and the store may hold {limit}; raise --topics")]
    TooManyTopics {
        /// How many they keep.
        kept: usize,
        /// How many may hold a message.
        limit: u32,
    },
    /// They keep messages that count more bytes than they may.
    #[error("the messages in the folder count {kept} bytes and may count {limit}; raise --memory")]
    TooManyBytes {
        /// How many they count.
        kept: u64,
        /// How many they may count.
        limit: u64,
    },
    /// The clock cannot be read.
    #[error("the clock cannot be read: {0}")]
    Clock(io::Error),
    /// Memory was refused.
    #[error("out of memory")]
    NoMemory,
}

impl From<AllocError> for KeepFault {
    fn from(_: AllocError) -> KeepFault {
        KeepFault::NoMemory
    }
}

impl From<OpenError> for KeepFault {
    fn from(error: OpenError) -> KeepFault {
        match error {
            OpenError::Io(error) if error.kind() == ErrorKind::OutOfMemory => KeepFault::NoMemory,
            OpenError::Io(error) => KeepFault::Files(error),
            OpenError::OutOfMemory => KeepFault::NoMemory,
            OpenError::Busy => KeepFault::InUse,
            OpenError::HotJournal => KeepFault::Foreign,
        }
    }
}

impl From<KeepFault> for ListenFault {
    fn from(fault: KeepFault) -> ListenFault {
        ListenFault::Keep(fault)
    }
}

impl From<AllocError> for ListenFault {
    fn from(_: AllocError) -> ListenFault {
        ListenFault::NoMemory
    }
}

/// Why the system refused the address, or descriptors.
impl From<io::Error> for ListenFault {
    fn from(error: io::Error) -> ListenFault {
        if error.kind() == ErrorKind::OutOfMemory {
            ListenFault::NoMemory
        } else {
            ListenFault::Address(error)
        }
    }
}

impl From<StoreFault> for ListenFault {
    fn from(fault: StoreFault) -> ListenFault {
        match fault {
            StoreFault::NoMemory => ListenFault::NoMemory,
            StoreFault::TooManyTopics => ListenFault::TooManyTopics,
            StoreFault::NoThread => ListenFault::NoThread,
        }
    }
}
