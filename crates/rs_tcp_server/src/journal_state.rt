//! How a journal fares, for whoever wants to tell of it.

use rs_journal::Error;
use rs_journal_writer::CommitOutcome;
use rs_metrics::{JournalMeter, JournalNumbers};
use std::fmt::{Display, Formatter};
use std::sync::atomic::{AtomicBool, AtomicU8, AtomicU64, Ordering};
use std::{fmt, io};

/// Whether the journal takes changes.
#[derive(Clone, Copy, Debug, PartialEq, Eq)]
pub(crate) enum Condition {
    /// It took the last one, and the one before.
    Taking,
    /// It took the last one, and refused the one before.
    Recovered,
    /// It refused the last one.
    Refusing,
    /// It takes no more: what is on the disk is not known.
    Failed,
}

/// A condition by its number.
fn condition_of(number: u8) -> Condition {
    if number == Condition::Recovered as u8 {
        Condition::Recovered
    } else if number == Condition::Refusing as u8 {
        Condition::Refusing
    } else {
        Condition::Taking
    }
}

/// Why the system refused something, as a number that threads can share: that of the system, or one of those below.
#[derive(Clone, Copy)]
pub(crate) struct Reason(u64);

const NO_MEMORY: u64 = 1 << 32;

const NO_NUMBERS: u64 = NO_MEMORY + 1;

const OTHER: u64 = NO_MEMORY + 2;

impl From<Error> for Reason {
    fn from(error: Error) -> Reason {
        match error {
            Error::Io(error) => Reason::from(error),
            Error::OutOfMemory => Reason(NO_MEMORY),
            Error::Full => Reason(NO_NUMBERS),
            _ => Reason(OTHER),
        }
    }
}

impl From<io::Error> for Reason {
    fn from(error: io::Error) -> Reason {
        match error.raw_os_error() {
            Some(code) => Reason(u64::from(code.unsigned_abs())),
            None => Reason(OTHER),
        }
    }
}

impl Display for Reason {
    fn fmt<W: fmt::Write>(&self, f: &mut Formatter<W>) -> fmt::Result {
        match self.0 {
            NO_MEMORY => f.write_str("out of memory"),
            NO_NUMBERS => f.write_str("the journal is full"),
            code => match i32::try_from(code) {
                Ok(code) => write!(f, "{}", io::Error::from_raw_os_error(code)),
                Err(_) => f.write_str("the files cannot be read or written"),
            },
        }
    }
}

/// The last time that the journal was shortened, or was not.
#[derive(Clone, Copy)]
pub(crate) struct Shortening {
    /// How many pages it had.
    pub(crate) before: u64,
    /// How many it has.
    pub(crate) after: u64,
    /// Why it was not, if it was not.
    pub(crate) refused: Option<Reason>,
}

/// How a journal fares. The writer's thread keeps it up, and the thread that syncs, if there is one. Whoever has it may look at any time, and
/// waits for nobody.
#[derive(Drop)]
pub struct JournalState {
    meter: JournalMeter,
    // A condition by its number: what the writer's thread knows.
    condition: AtomicU8,
    // Whether a sync failed, or a commit is in doubt. It stays so.
    failed: AtomicBool,
    // Why the last change was refused, and why it failed.
    refusal: AtomicU64,
    failure: AtomicU64,
    // Whether something was written since the last sync by a thread of its own.
    written: AtomicBool,
    // How often it was shortened, or was not, and of the last time the pages before and behind, and 0 or the reason.
    shortened: AtomicU64,
    before: AtomicU64,
    after: AtomicU64,
    not_shortened: AtomicU64,
}

impl JournalState {
    /// It takes changes.
    pub(crate) fn new(meter: JournalMeter) -> JournalState {
        JournalState {
            meter,
            condition: AtomicU8::new(Condition::Taking as u8),
            failed: AtomicBool::new(false),
            refusal: AtomicU64::new(0),
            failure: AtomicU64::new(0),
            written: AtomicBool::new(false),
            shortened: AtomicU64::new(0),
            before: AtomicU64::new(0),
            after: AtomicU64::new(0),
            not_shortened: AtomicU64::new(0),
        }
    }

    /// Whether it takes changes.
    pub(crate) fn condition(&self) -> Condition {
        if self.has_failed() {
            return Condition::Failed;
        }
        condition_of(self.condition.load(Ordering::SeqCst))
    }

    /// Whether it takes no more changes.
    pub(crate) fn has_failed(&self) -> bool {
        self.failed.load(Ordering::SeqCst)
    }

    /// Why the last change that it refused was refused.
    pub(crate) fn refusal(&self) -> Reason {
        Reason(self.refusal.load(Ordering::SeqCst))
    }

    /// Why it takes no more changes.
    pub(crate) fn failure(&self) -> Reason {
        Reason(self.failure.load(Ordering::SeqCst))
    }

    /// It takes no more changes, for this reason. Only the first counts.
    pub(crate) fn fail(&self, reason: Reason) {
        if self.has_failed() {
            return;
        }
        self.failure.store(reason.0, Ordering::SeqCst);
        self.failed.store(true, Ordering::SeqCst);
        self.meter.set_refusing();
    }

    fn set(&self, condition: Condition) {
        self.condition.store(condition as u8, Ordering::SeqCst);
    }

    /// A commit begins: whatever came of those before was told to whoever asked for them.
    pub(crate) fn begin(&self) {
        if condition_of(self.condition.load(Ordering::SeqCst)) == Condition::Recovered {
            self.set(Condition::Taking);
        }
    }

    /// A commit ended so.
    pub(crate) fn end(&self, outcome: &CommitOutcome) {
        self.written.store(true, Ordering::SeqCst);
        match outcome {
            CommitOutcome::Kept => {
                if self.condition() == Condition::Refusing {
                    self.set(Condition::Recovered);
                }
            }
            // The disk is not to blame.
            CommitOutcome::Refused(Error::OutOfMemory) => {}
            // A sync that failed while the log was copied has closed it.
            CommitOutcome::Refused(Error::Closed) => self.fail(Reason::from(Error::Closed)),
            CommitOutcome::Refused(error) => {
                self.refusal.store(Reason::from(*error).0, Ordering::SeqCst);
                self.set(Condition::Refusing);
            }
            CommitOutcome::Doubtful(error) => self.fail(Reason::from(*error)),
        }
    }

    /// Whether something was written since the last call.
    pub(crate) fn take_written(&self) -> bool {
        self.written.swap(false, Ordering::SeqCst)
    }

    /// The journal was shortened from so many pages to so many, or was not.
    pub(crate) fn shorten(&self, before: u32, outcome: &CommitOutcome, after: u32) {
        self.written.store(true, Ordering::SeqCst);
        let refused = match outcome {
            CommitOutcome::Kept => 0,
            CommitOutcome::Refused(error) => Reason::from(*error).0,
            CommitOutcome::Doubtful(error) => {
                self.fail(Reason::from(*error));
                return;
            }
        };
        self.before.store(u64::from(before), Ordering::SeqCst);
        self.after.store(u64::from(after), Ordering::SeqCst);
        self.not_shortened.store(refused, Ordering::SeqCst);
        self.shortened.fetch_add(1, Ordering::SeqCst);
    }

    /// How often it was shortened, or was not.
    pub(crate) fn shortenings(&self) -> u64 {
        self.shortened.load(Ordering::SeqCst)
    }

    /// The last time of these.
    pub(crate) fn shortening(&self) -> Shortening {
        let refused = self.not_shortened.load(Ordering::SeqCst);
        Shortening {
            before: self.before.load(Ordering::SeqCst),
            after: self.after.load(Ordering::SeqCst),
            refused: if refused == 0 {
                None
            } else {
                Some(Reason(refused))
            },
        }
    }

    /// Shows these numbers, if there are metrics.
    pub(crate) fn show(&self, numbers: JournalNumbers) {
        let is_refusing = match self.condition() {
            Condition::Taking | Condition::Recovered => false,
            Condition::Refusing | Condition::Failed => true,
        };
        self.meter.set(JournalNumbers {
            is_refusing,
            ..numbers
        });
        // It may have failed meanwhile.
        if self.has_failed() {
            self.meter.set_refusing();
        }
    }
}
