//! What is told of commits.

use rs_journal::{Error, WriteFault};

/// What is told of a writer's commits, and what may forbid them. No contract speaks of it.
pub trait CommitWatch: Drop {
    /// Whether a commit may be made. If not, the change is refused, as after a sync that failed elsewhere.
    fn may_commit(&mut self) -> bool;

    /// A commit begins.
    fn begins(&mut self);

    /// It has ended. `page_count` is that of the journal now.
    fn ends(&mut self, outcome: &CommitOutcome, page_count: u32);

    /// The journal was shortened from so many pages, or, at an error, was not.
    fn shortened(&mut self, before: u32, outcome: &CommitOutcome, page_count: u32);
}

/// How a commit ended.
#[derive(Clone, Copy, Debug)]
pub enum CommitOutcome {
    /// All of it is kept.
    Kept,
    /// Nothing of it is kept. The next one may succeed.
    Refused(Error),
    /// It is kept or not, as the next opening tells. No more commits are made.
    Doubtful(Error),
}

impl CommitOutcome {
    /// What this result of a call of a journal means.
    pub(crate) fn of(done: &Result<(), WriteFault>) -> CommitOutcome {
        match done {
            Ok(()) => CommitOutcome::Kept,
            Err(WriteFault::Refused(error)) => CommitOutcome::Refused(*error),
            Err(WriteFault::Doubtful(error)) => CommitOutcome::Doubtful(*error),
        }
    }
}
