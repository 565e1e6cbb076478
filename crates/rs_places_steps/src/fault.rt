//! The fault of [`run_places`](crate::run_places), and of `run_store` of `rs_places` above it.

use rs_version::OpenFault;
use std::alloc::AllocError;
use thiserror::Error;

/// Why a store was not run.
#[derive(Clone, Copy, Debug, PartialEq, Eq, Error)]
pub enum StoreFault {
    /// Memory was refused.
    #[error("out of memory")]
    NoMemory,
    /// More messages are given than topics may hold one.
    #[error("more topics are given than the store may hold; raise the limit")]
    TooManyTopics,
    /// The writer's thread, or the first one for connections, cannot be started.
    #[error("no thread can be started")]
    NoThread,
}

impl From<AllocError> for StoreFault {
    fn from(_: AllocError) -> StoreFault {
        StoreFault::NoMemory
    }
}

impl From<OpenFault> for StoreFault {
    fn from(fault: OpenFault) -> StoreFault {
        match fault {
            OpenFault::TooManyTopics => StoreFault::TooManyTopics,
            OpenFault::NoMemory => StoreFault::NoMemory,
        }
    }
}
