//! What the log tells of what the store lacks.

use crate::journal_log::JournalLog;
use log::{Log, info, warn};
use rs_intake_line::{Fullness, Lack};
use std::sync::Arc;
use std::sync::atomic::{AtomicU64, Ordering};

/// What the log was told of the store. All turns share it, and whichever sees a change first writes the line.
#[derive(Drop)]
pub struct FullLog {
    fullness: Arc<Fullness>,
    // That of the journal, if there is one.
    journal: Option<JournalLog>,
    // What the store lacked by the last line.
    told: Fullness,
    // The time of the last line.
    last: AtomicU64,
}

impl FullLog {
    /// No line was written yet. With a journal it tells of that, too.
    pub fn new(fullness: Arc<Fullness>, journal: Option<JournalLog>) -> FullLog {
        FullLog {
            fullness,
            journal,
            told: Fullness::new(),
            last: AtomicU64::new(u64::MAX),
        }
    }

    /// Writes a line if the store has come to lack topics or memory, or takes messages again, but at most one a second. What is not told
    /// then is told later, if it is still so. The same of a journal.
    ///
    /// A change that the journal refuses is to the store as one for which there is no memory. So nothing is told of memory while the journal
    /// refuses.
    pub(crate) fn update<H: Log>(&self, rt: &H, time: u64) {
        let lack = self.fullness.lack();
        let is_of_journal = self.update_journal(rt, time);
        if self.told.lack() == lack || (is_of_journal && lack == Lack::Memory) {
            return;
        }
        if self.last.swap(time, Ordering::SeqCst) == time {
            return;
        }
        let before = self.told.swap(lack);
        if before != lack {
            tell(rt, time, before, lack);
        }
    }
}

impl FullLog {
    /// Writes the line of the journal, if one is due, and tells whether it refuses changes.
    fn update_journal<H: Log>(&self, rt: &H, time: u64) -> bool {
        let Some(journal) = &self.journal else {
            return false;
        };
        journal.update(rt, time);
        journal.is_lacking()
    }
}

/// Writes the line that says what the store lacks, or what it lacks no more.
fn tell<H: Log>(rt: &H, time: u64, before: Lack, lack: Lack) {
    match (before, lack) {
        (_, Lack::Topics) => {
            warn!(rt; target: "rstored", "{time} the store is full: a message for a new topic was refused");
        }
        (_, Lack::Memory) => {
            warn!(rt; target: "rstored", "{time} the store has no memory left: a message was refused");
        }
        (Lack::Topics, Lack::Nothing) => {
            info!(rt; target: "rstored", "{time} the store may take new topics again: topics were cleared, or their messages expired");
        }
        (Lack::Nothing | Lack::Memory, Lack::Nothing) => {
            info!(rt; target: "rstored", "{time} the store takes messages again");
        }
    }
}
