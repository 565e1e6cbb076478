//! What the log tells of a journal.

use crate::journal_state::{Condition, JournalState, Shortening};
use crate::journal_watch::PAGE_BYTES;
use log::{Log, info, warn};
use std::sync::Arc;
use std::sync::atomic::{AtomicU8, AtomicU64, Ordering};

/// What the log was told of a journal. All turns share it, and whichever sees a change first writes the line.
#[derive(Drop)]
pub struct JournalLog {
    state: Arc<JournalState>,
    // What was told last, by its number.
    told: AtomicU8,
    // How many shortenings were told, or passed over.
    shortenings: AtomicU64,
    // The time of the last line.
    last: AtomicU64,
}

/// What the log tells of a condition.
#[derive(Clone, Copy, PartialEq, Eq)]
enum Tale {
    Taking,
    Refusing,
    Failed,
}

impl Tale {
    fn of(condition: Condition) -> Tale {
        match condition {
            Condition::Taking | Condition::Recovered => Tale::Taking,
            Condition::Refusing => Tale::Refusing,
            Condition::Failed => Tale::Failed,
        }
    }
}

impl JournalLog {
    /// No line was written yet.
    pub(crate) fn new(state: Arc<JournalState>) -> JournalLog {
        JournalLog {
            state,
            told: AtomicU8::new(Tale::Taking as u8),
            shortenings: AtomicU64::new(0),
            last: AtomicU64::new(u64::MAX),
        }
    }

    /// Whether it refuses changes, or did so until the last one: those that lack memory may lack the disk.
    pub(crate) fn is_lacking(&self) -> bool {
        self.state.condition() != Condition::Taking
    }

    /// Writes a line if the journal has come to refuse changes, or takes them again, or was shortened, but at most one a second. What is not
    /// told then is told later, if it is still so.
    pub(crate) fn update<H: Log>(&self, rt: &H, time: u64) {
        let tale = Tale::of(self.state.condition());
        let shortenings = self.state.shortenings();
        let is_told = self.told.load(Ordering::SeqCst) == tale as u8;
        if is_told && self.shortenings.load(Ordering::SeqCst) == shortenings {
            return;
        }
        if self.last.swap(time, Ordering::SeqCst) == time {
            return;
        }
        if self.told.swap(tale as u8, Ordering::SeqCst) != tale as u8 {
            self.tell(rt, time, tale);
        } else if self.shortenings.swap(shortenings, Ordering::SeqCst) != shortenings {
            tell_of(rt, time, self.state.shortening());
        }
    }

    /// Writes the line that says whether the journal takes changes.
    fn tell<H: Log>(&self, rt: &H, time: u64, tale: Tale) {
        match tale {
            Tale::Taking => {
                info!(rt; target: "rstored", "{time} the disk takes changes again");
            }
            Tale::Refusing => {
                let reason = self.state.refusal();
                warn!(rt; target: "rstored", "{time} the disk refuses changes: {reason}");
            }
            Tale::Failed => {
                let reason = self.state.failure();
                warn!(rt; target: "rstored", "{time} the disk failed, and changes are refused until a restart: {reason}");
            }
        }
    }
}

/// Writes the line that says how the journal was shortened.
fn tell_of<H: Log>(rt: &H, time: u64, shortening: Shortening) {
    let before = shortening.before.saturating_mul(PAGE_BYTES);
    let after = shortening.after.saturating_mul(PAGE_BYTES);
    match shortening.refused {
        None => {
            info!(rt; target: "rstored", "{time} the journal was shortened from {before} to {after} bytes");
        }
        Some(reason) => {
            warn!(rt; target: "rstored", "{time} the journal has {before} bytes and could not be shortened: {reason}");
        }
    }
}
