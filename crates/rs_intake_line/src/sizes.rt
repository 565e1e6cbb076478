//! How large jobs are.

ghost use Rattle.std.specs.Prelude.{◌≤◌};
ghost use Rattle.rs_intake_queue.specs.declared.job.TheConstants.{MAX_CHANGES};

use rs_intake_queue::MAX_CHANGES;
use rs_message::{Operation, Qos};
use std::sync::atomic::{AtomicU32, Ordering};

/// How many changes a line has ahead at most while other clients wait for replies.
const FEW_CHANGES: usize = 64;

/// For so many jobs of clients that do not wait this holds after a job of one that waits.
const FEW_FOR: u32 = 64;

/// Whether clients wait for the replies to their jobs. While some do, the jobs of others are small, since theirs are put between these.
///
/// Nothing is exact: what two lines note at the same time may count once.
#[derive(Drop)]
pub(crate) struct JobSizes {
    // How many jobs of clients that do not wait are still to be small.
    small: AtomicU32,
}

impl JobSizes {
    /// The first jobs are small: it is not known yet whether clients wait.
    pub(crate) fn new() -> JobSizes {
        JobSizes {
            small: AtomicU32::new(FEW_FOR),
        }
    }

    /// These changes are sent as a job.
    pub(crate) fn note_job(&self, changes: &Vec<Operation>) {
        if let Some(first) = changes.first() {
            self.note(first);
        }
    }

    /// This change is submitted. It is a job of its own if nothing is ahead of its line.
    pub(crate) fn note_submit(&self, ahead: usize, change: &Operation) {
        if ahead == 0 {
            self.note(change);
        }
    }

    /// A job is sent, with this change first.
    fn note(&self, first: &Operation) {
        let before = self.small.load(Ordering::SeqCst);
        let now = if is_waited_for(first) {
            FEW_FOR
        } else {
            before.saturating_sub(1)
        };
        // Mostly nothing changes. A write would take the number from the caches of all other lines.
        if now != before {
            self.small.store(now, Ordering::SeqCst);
        }
    }

    /// How many changes a line has ahead at most.
    pub(crate) fn most(&self) -> usize
        ensures { result ≤ MAX_CHANGES }
    {
        if self.small.load(Ordering::SeqCst) > 0 {
            FEW_CHANGES
        } else {
            MAX_CHANGES
        }
    }
}

/// Whether the client waits for the reply to this change, because only so many of its publications may be unacknowledged (4.9).
fn is_waited_for(change: &Operation) -> bool {
    match change {
        Operation::Set(found) => found.message().qos() != Qos::AtMostOnce,
        // Of what QoS it was published is not kept.
        Operation::Clear(_) | Operation::Sweep(_) => false,
    }
}
