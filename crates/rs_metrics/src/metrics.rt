//! The numbers of a running server.

ghost use Rattle.std.specs.Prelude.{◌≡◌, IfOk, vec_len};
ghost use Rattle.rs_metrics.specs.declared.metrics.TheConstants.{SHARDS};

use crate::counter::{COUNTERS, Counter, End, FilterOutcome, Outcome, Qos};
use crate::snapshot::{JournalNumbers, Limits, Snapshot};
use std::alloc::{AllocError, Global};
use std::array;
use std::sync::atomic::{AtomicBool, AtomicU64, Ordering};

/// How many shards there are. A line counts in that of its number, so that few threads write to the same memory.
pub const SHARDS: usize = 64;

const _: () = prove!(SHARDS == 64);

/// The numbers of some lines.
#[derive(Drop)]
struct Shard {
    counts: [AtomicU64; COUNTERS],
    // The line of the processor's cache that ends here has nothing of the next shard.
    _apart: [u64; 7],
}

impl Shard {
    fn new() -> Shard {
        Shard {
            counts: array::from_fn(|_| AtomicU64::new(0)),
            _apart: [0; 7],
        }
    }

    fn add(&self, counter: Counter, more: u64) {
        self.counts[counter.index()].fetch_add(more, Ordering::SeqCst);
    }

    /// Adds its numbers to these.
    fn add_to(&self, sums: &mut [u64; COUNTERS]) {
        for (sum, count) in sums.iter_mut().zip(&self.counts) {
            *sum = sum.wrapping_add(count.load(Ordering::SeqCst));
        }
    }
}

/// What a journal did and is.
#[derive(Drop)]
struct ShownJournal {
    is_there: AtomicBool,
    commits: AtomicU64,
    micros: AtomicU64,
    written: AtomicU64,
    size: AtomicU64,
    is_refusing: AtomicBool,
}

impl ShownJournal {
    fn new() -> ShownJournal {
        ShownJournal {
            is_there: AtomicBool::new(false),
            commits: AtomicU64::new(0),
            micros: AtomicU64::new(0),
            written: AtomicU64::new(0),
            size: AtomicU64::new(0),
            is_refusing: AtomicBool::new(false),
        }
    }

    fn set(&self, numbers: JournalNumbers) {
        let JournalNumbers {
            commits,
            micros,
            written,
            size,
            is_refusing,
        } = numbers;
        self.commits.store(commits, Ordering::SeqCst);
        self.micros.store(micros, Ordering::SeqCst);
        self.written.store(written, Ordering::SeqCst);
        self.size.store(size, Ordering::SeqCst);
        self.is_refusing.store(is_refusing, Ordering::SeqCst);
        self.is_there.store(true, Ordering::SeqCst);
    }

    /// The numbers, if there is a journal.
    fn numbers(&self) -> Option<JournalNumbers> {
        if !self.is_there.load(Ordering::SeqCst) {
            return None;
        }
        Some(JournalNumbers {
            commits: self.commits.load(Ordering::SeqCst),
            micros: self.micros.load(Ordering::SeqCst),
            written: self.written.load(Ordering::SeqCst),
            size: self.size.load(Ordering::SeqCst),
            is_refusing: self.is_refusing.load(Ordering::SeqCst),
        })
    }
}

/// What only the writer of the store knows.
#[derive(Drop)]
struct Shown {
    topics: AtomicU64,
    bytes: AtomicU64,
    version: AtomicU64,
    taken: AtomicU64,
    is_taking: AtomicBool,
    journal: ShownJournal,
    _apart: [u64; 7],
}

impl Shown {
    fn new() -> Shown {
        Shown {
            topics: AtomicU64::new(0),
            bytes: AtomicU64::new(0),
            version: AtomicU64::new(0),
            taken: AtomicU64::new(0),
            is_taking: AtomicBool::new(false),
            journal: ShownJournal::new(),
            _apart: [0; 7],
        }
    }
}

/// What a running server counts. Threads share it by reference, as by an `Arc`. Each number goes on at 0 after [`u64::MAX`].
///
/// A line is the number of a client's way to the writer, from 1 on. Whoever counts names its own line, so that threads of different lines do
/// not slow each other down; a wrong line gives the same sums.
#[derive(Drop)]
pub struct Metrics {
    shards: Vec<Shard>,
    limits: Limits,
    started: u64,
    // Elsewhere, so that whoever counts need not fetch what the writer has written meanwhile.
    shown: Box<Shown>,
    ghost full: { vec_len shards ≡ SHARDS },
}

impl Metrics {
    /// Nothing is counted, and the writer takes no changes yet. `started` is the server's start, in whole seconds since 1970.
    ///
    /// # Errors
    ///
    /// If memory is refused.
    pub fn new(alloc: Global, limits: Limits, started: u64) -> Result<Metrics, AllocError> {
        Ok(Metrics {
            shards: empty_shards(alloc)?,
            limits,
            started,
            shown: Box::new(alloc, Shown::new()).map_err(|_| AllocError)?,
        })
    }

    fn add(&self, line: u16, counter: Counter, more: u64) {
        self.shards[usize::from(line) % SHARDS].add(counter, more);
    }

    /// A connection of the line began.
    pub fn count_opened(&self, line: u16) {
        self.add(line, Counter::Opened, 1);
    }

    /// A connection of the line ended.
    pub fn count_ended(&self, line: u16, end: End) {
        self.add(line, Counter::Ended(end), 1);
    }

    /// A packet was received.
    pub fn count_packet_in(&self, line: u16) {
        self.add(line, Counter::PacketsIn, 1);
    }

    /// A packet was written.
    pub fn count_packet_out(&self, line: u16) {
        self.add(line, Counter::PacketsOut, 1);
    }

    /// So many bytes were read.
    pub fn add_bytes_in(&self, line: u16, bytes: u64) {
        self.add(line, Counter::BytesIn, bytes);
    }

    /// So many bytes were written.
    pub fn add_bytes_out(&self, line: u16, bytes: u64) {
        self.add(line, Counter::BytesOut, bytes);
    }

    /// A message for a topic, and what became of it.
    pub fn count_set(&self, line: u16, qos: Qos, outcome: Outcome) {
        self.add(line, Counter::Set(qos, outcome), 1);
    }

    /// A message without a payload, which clears a topic, and what became of it.
    pub fn count_clear(&self, line: u16, outcome: Outcome) {
        self.add(line, Counter::Clear(outcome), 1);
    }

    /// A filter, and what became of it.
    pub fn count_filter(&self, line: u16, outcome: FilterOutcome) {
        self.add(line, Counter::Filter(outcome), 1);
    }

    /// So many messages were in the answers to filters.
    pub fn add_replayed(&self, line: u16, messages: u64) {
        self.add(line, Counter::Replayed, messages);
    }

    /// The line sends so many changes to the writer. Called before it sends them, so that no change is taken that was not sent.
    pub fn add_sent(&self, line: u16, changes: u64) {
        self.add(line, Counter::Sent, changes);
    }

    /// So many changes of those that were [added](Metrics::add_sent) were not sent after all.
    pub fn take_back_sent(&self, line: u16, changes: u64) {
        self.add(line, Counter::Sent, 0u64.wrapping_sub(changes));
    }

    /// How many changes the writer took, of all lines, since the start.
    pub fn set_taken(&self, changes: u64) {
        self.shown.taken.store(changes, Ordering::SeqCst);
    }

    /// How many topics hold a message.
    pub fn set_topics(&self, topics: u64) {
        self.shown.topics.store(topics, Ordering::SeqCst);
    }

    /// How many bytes the retained messages count.
    pub fn set_bytes(&self, bytes: u64) {
        self.shown.bytes.store(bytes, Ordering::SeqCst);
    }

    /// How many entries the history has.
    pub fn set_version(&self, version: u64) {
        self.shown.version.store(version, Ordering::SeqCst);
    }

    /// Whether the writer takes changes.
    pub fn set_taking(&self, is_taking: bool) {
        self.shown.is_taking.store(is_taking, Ordering::SeqCst);
    }

    /// Whether the writer takes changes.
    pub fn is_taking(&self) -> bool {
        self.shown.is_taking.load(Ordering::SeqCst)
    }

    /// There is a journal, and these are its numbers.
    pub fn set_journal(&self, numbers: JournalNumbers) {
        self.shown.journal.set(numbers);
    }

    /// The journal refuses changes from now on.
    pub fn set_journal_refusing(&self) {
        self.shown.journal.is_refusing.store(true, Ordering::SeqCst);
    }

    /// All numbers, summed up. `resident` is the memory that the process has, in bytes, if the system tells it.
    ///
    /// What is counted meanwhile may be in it or not. There are never fewer connections that began than ended, nor fewer changes that were
    /// sent than taken.
    pub fn snapshot(&self, resident: Option<u64>) -> Snapshot {
        let taken = self.shown.taken.load(Ordering::SeqCst);
        let mut counts = [0; COUNTERS];
        for shard in &self.shards {
            shard.add_to(&mut counts);
        }
        Snapshot {
            counts,
            limits: self.limits,
            started: self.started,
            topics: self.shown.topics.load(Ordering::SeqCst),
            bytes: self.shown.bytes.load(Ordering::SeqCst),
            version: self.shown.version.load(Ordering::SeqCst),
            taken,
            is_taking: self.is_taking(),
            resident,
            journal: self.shown.journal.numbers(),
        }
    }
}

fn empty_shards(alloc: Global) -> Result<Vec<Shard>, AllocError>
    ensures { IfOk result (λ shards. vec_len shards ≡ SHARDS) }
{
    let mut shards = Vec::with_capacity(alloc, SHARDS)?;
    for made in 0..SHARDS {
        shards.push(Shard::new()).map_err(AllocError::from)?;
    }
    Ok(shards)
}
