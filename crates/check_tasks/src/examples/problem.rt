//! Why the examples are not served to their end.

use std::alloc::{AllocError, AllocFailed};
use std::io;
use thiserror::Error;

/// What differs from the file.
#[derive(Clone, Copy, Debug)]
pub enum Part {
    Replies,
    Flushes,
    End,
    Store,
    Prefix,
    Cleared,
}

#[derive(Clone, Copy, Debug, Error)]
pub enum Problem {
    #[error("the file cannot be read, or the output cannot be written")]
    Io,
    #[error("out of memory")]
    NoMemory,
    #[error("a word of the file cannot be read")]
    Word,
    #[error("line {0} of the file cannot be read")]
    Line(u64),
    #[error("the example of line {line}, cut at {cut}: {part:?}")]
    Differs { line: u64, cut: usize, part: Part },
}

impl From<AllocError> for Problem {
    fn from(_error: AllocError) -> Problem {
        Problem::NoMemory
    }
}

impl<T: Drop> From<AllocFailed<T>> for Problem {
    fn from(_error: AllocFailed<T>) -> Problem {
        Problem::NoMemory
    }
}

impl From<io::Error> for Problem {
    fn from(_error: io::Error) -> Problem {
        Problem::Io
    }
}
