//! Operations kept on disk, so that whatever a crash leaves is a prefix of what was written, with all that was committed. And the disks of
//! such files.
//!
//! A [`Journal`] is a stream of bytes in the pages of two files (`pages`): what is pushed becomes durable by a commit, all or none.
//! [`OpenFiles`] opens real files. A journal over them syncs at each commit. Over [`Switched`] it does while a [`Switch`] is on: now and
//! then, or only for what needs it. There the clauses tell what a kill of the process leaves, and no more.
#![tactic(auto)]

mod disk;
mod fault;
mod files;
mod journal;
mod law;
mod pages;
mod reading;
mod retained;
mod sink;
mod switched;

pub use disk::JournalDisk;
pub use fault::{ReadFault, WriteFault};
pub use files::OpenFiles;
pub use journal::Journal;
pub use law::{image_law, journal_law, restart_law};
pub use pages::{NotOpened, OpenFault};
pub use retained::Retained;
pub use sink::OperationSink;
pub use sqlite_pager::Error;
pub use sqlite_std_file::OpenError;
pub use switched::{Switch, Switched};
