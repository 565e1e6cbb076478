//! A stream of bytes in two files, in pages: what is pushed becomes durable by a commit, all or none.

mod checking;
mod extent;
mod fault;
mod form;
mod opening;
mod stream;

pub use fault::{NotOpened, OpenFault};
pub(crate) use stream::PageStream;
