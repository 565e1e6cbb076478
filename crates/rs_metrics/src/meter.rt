//! What counts for one line, or for the writer of the store.

use crate::counter::{End, FilterOutcome, Outcome, Qos};
use crate::metrics::Metrics;
use crate::snapshot::JournalNumbers;
use std::alloc::AllocError;
use std::sync::Arc;

/// A change that a client asked for, as far as it is counted.
#[derive(Clone, Copy)]
pub enum Change {
    /// A message for a topic, of this quality of service.
    Set(Qos),
    /// A message without a payload, which clears a topic.
    Clear,
}

/// Counts for one line, if there are metrics.
#[derive(Drop)]
pub struct Meter {
    metrics: Option<Arc<Metrics>>,
    line: u16,
}

impl Meter {
    /// Counts nothing.
    pub fn none() -> Meter {
        Meter {
            metrics: None,
            line: 0,
        }
    }

    /// Counts for this line, if there are metrics.
    ///
    /// # Errors
    ///
    /// [`AllocError`] if they have too many owners.
    pub fn new(metrics: &Option<Arc<Metrics>>, line: u16) -> Result<Meter, AllocError> {
        Ok(Meter {
            metrics: share(metrics)?,
            line,
        })
    }

    /// Another one that counts for the same line.
    ///
    /// # Errors
    ///
    /// [`AllocError`] if the metrics have too many owners.
    pub fn again(&self) -> Result<Meter, AllocError> {
        Meter::new(&self.metrics, self.line)
    }

    /// A connection began.
    pub fn count_opened(&self) {
        if let Some(metrics) = &self.metrics {
            metrics.count_opened(self.line);
        }
    }

    /// A connection ended.
    pub fn count_ended(&self, end: End) {
        if let Some(metrics) = &self.metrics {
            metrics.count_ended(self.line, end);
        }
    }

    /// A packet was received.
    pub fn count_packet_in(&self) {
        if let Some(metrics) = &self.metrics {
            metrics.count_packet_in(self.line);
        }
    }

    /// A packet was written.
    pub fn count_packet_out(&self) {
        if let Some(metrics) = &self.metrics {
            metrics.count_packet_out(self.line);
        }
    }

    /// So many bytes were read.
    pub fn add_bytes_in(&self, bytes: usize) {
        if let Some(metrics) = &self.metrics {
            metrics.add_bytes_in(self.line, bytes as u64);
        }
    }

    /// So many bytes were written.
    pub fn add_bytes_out(&self, bytes: usize) {
        if let Some(metrics) = &self.metrics {
            metrics.add_bytes_out(self.line, bytes as u64);
        }
    }

    /// A change, and what became of it.
    pub fn count_change(&self, change: Change, outcome: Outcome) {
        if let Some(metrics) = &self.metrics {
            match change {
                Change::Set(qos) => metrics.count_set(self.line, qos, outcome),
                Change::Clear => metrics.count_clear(self.line, outcome),
            }
        }
    }

    /// A filter, and what became of it. So many messages were in its answer.
    pub fn count_filter(&self, outcome: FilterOutcome, messages: usize) {
        if let Some(metrics) = &self.metrics {
            metrics.count_filter(self.line, outcome);
            metrics.add_replayed(self.line, messages as u64);
        }
    }

    /// The line sends so many changes to the writer ([`Metrics::add_sent`]).
    pub fn add_sent(&self, changes: u64) {
        if let Some(metrics) = &self.metrics {
            metrics.add_sent(self.line, changes);
        }
    }

    /// So many changes were not sent after all ([`Metrics::take_back_sent`]).
    pub fn take_back_sent(&self, changes: u64) {
        if let Some(metrics) = &self.metrics {
            metrics.take_back_sent(self.line, changes);
        }
    }
}

/// Shows what only the writer of the store knows, if there are metrics.
#[derive(Drop)]
pub struct WriterMeter {
    metrics: Option<Arc<Metrics>>,
}

impl WriterMeter {
    /// Of these metrics.
    pub fn new(metrics: Option<Arc<Metrics>>) -> WriterMeter {
        WriterMeter { metrics }
    }

    /// Whether it shows anything.
    pub fn is_needed(&self) -> bool {
        self.metrics.is_some()
    }

    /// Whether the writer takes changes.
    pub fn set_taking(&self, is_taking: bool) {
        if let Some(metrics) = &self.metrics {
            metrics.set_taking(is_taking);
        }
    }

    /// How many changes the writer took since the start.
    pub fn set_taken(&self, changes: u64) {
        if let Some(metrics) = &self.metrics {
            metrics.set_taken(changes);
        }
    }

    /// How many entries the published history has, how many topics hold a message after it, and how many bytes these messages count.
    pub fn set_content(&self, version: u64, topics: u64, bytes: u64) {
        if let Some(metrics) = &self.metrics {
            metrics.set_version(version);
            metrics.set_topics(topics);
            metrics.set_bytes(bytes);
        }
    }
}

/// Shows what a journal did and is, if there are metrics.
#[derive(Drop)]
pub struct JournalMeter {
    metrics: Option<Arc<Metrics>>,
}

impl JournalMeter {
    /// Of these metrics.
    pub fn new(metrics: Option<Arc<Metrics>>) -> JournalMeter {
        JournalMeter { metrics }
    }

    /// There is a journal, and these are its numbers.
    pub fn set(&self, numbers: JournalNumbers) {
        if let Some(metrics) = &self.metrics {
            metrics.set_journal(numbers);
        }
    }

    /// The journal refuses changes from now on.
    pub fn set_refusing(&self) {
        if let Some(metrics) = &self.metrics {
            metrics.set_journal_refusing();
        }
    }
}

/// Another owner of the metrics, if there are any.
///
/// # Errors
///
/// [`AllocError`] if they have too many owners.
pub fn share(metrics: &Option<Arc<Metrics>>) -> Result<Option<Arc<Metrics>>, AllocError> {
    match metrics {
        Some(metrics) => Ok(Some(Arc::try_clone(metrics)?)),
        None => Ok(None),
    }
}
