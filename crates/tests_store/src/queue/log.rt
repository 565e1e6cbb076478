//! What became of the changes of the places of a run, in plain values.

use rs_message::{Entry, Found};
use rs_version::Snapshot;
use std::alloc::Global;

/// The outcome of a submit.
#[derive(Drop)]
pub(crate) struct Outcome {
    /// Of the receipt, or 0.
    pub(crate) number: u64,
    /// Of the fault, or 0.
    pub(crate) code: u8,
    /// Of the receipt.
    pub(crate) entry: Option<Entry>,
}

/// What a place read.
#[derive(Drop)]
pub(crate) struct Reading {
    /// What the version has to be at least, by what the place knew.
    pub(crate) least: u64,
    pub(crate) version: u64,
    pub(crate) found: Vec<Found>,
}

/// What a place did, and the outcomes.
#[derive(Drop)]
pub(crate) struct Log {
    pub(crate) place: u16,
    pub(crate) outcomes: Vec<Outcome>,
    pub(crate) readings: Vec<Reading>,
    /// The longest version that the place knows.
    pub(crate) known: u64,
    /// Whether each step was made.
    pub(crate) is_whole: bool,
    /// Whether the line was handed on, and fewer replies came than were ahead.
    pub(crate) misses_replies: bool,
    /// Of the line, once it is closed: its last serial, and how many jobs the queue took.
    pub(crate) serial: u64,
    pub(crate) sent: u64,
}

impl Log {
    pub(crate) fn new(alloc: Global, place: u16) -> Log {
        Log {
            place,
            outcomes: Vec::new(alloc),
            readings: Vec::new(alloc),
            known: 0,
            is_whole: false,
            misses_replies: false,
            serial: 0,
            sent: 0,
        }
    }

    /// `None` if memory is refused.
    pub(crate) fn add_outcome(&mut self, outcome: Outcome) -> Option<()> {
        self.known = self.known.max(outcome.number);
        self.outcomes.push(outcome).ok()
    }

    /// `None` if memory is refused.
    pub(crate) fn add_reading(&mut self, snapshot: Snapshot) -> Option<()> {
        let Snapshot { version, found } = snapshot;
        let reading = Reading {
            least: self.known,
            version,
            found,
        };
        self.known = version;
        self.readings.push(reading).ok()
    }
}

/// What the writer did, and whether all is settled.
#[derive(Clone, Copy)]
pub(crate) struct Totals {
    pub(crate) taken: u64,
    pub(crate) refused: u64,
    pub(crate) holds_none: bool,
    pub(crate) version: u64,
    /// Whether it is settled without any line.
    pub(crate) without_lines: bool,
    /// What is settled by the ends of all lines.
    pub(crate) settled: Option<u64>,
}

/// What a run came to.
#[derive(Drop)]
pub(crate) struct Ran {
    /// From the last place to the first.
    pub(crate) logs: Vec<Log>,
    /// `None` if the writer took no job.
    pub(crate) totals: Option<Totals>,
}

/// Whether the line of a place was handed on, and fewer replies came than were ahead.
pub(crate) fn misses_replies(ran: &Ran) -> bool {
    for log in &ran.logs {
        if log.misses_replies {
            return true;
        }
    }
    false
}

/// What the writer did, if each place took all its steps, no entry is held, and nothing is settled without the lines.
pub(crate) fn totals_of(ran: &Ran) -> Option<Totals> {
    for log in &ran.logs {
        if !log.is_whole {
            return None;
        }
    }
    let totals = ran.totals?;
    if !totals.holds_none || totals.without_lines {
        return None;
    }
    Some(totals)
}

/// Whether the writer took so many jobs, refused so many of them, and published this version.
pub(crate) fn has_totals(ran: &Ran, taken: u64, refused: u64, version: u64) -> bool {
    match totals_of(ran) {
        Some(totals) => {
            totals.taken == taken && totals.refused == refused && totals.version == version
        }
        None => false,
    }
}

/// Whether so many jobs are settled, and the queue took them from the lines.
pub(crate) fn is_settled(ran: &Ran, jobs: u64) -> bool {
    let mut sent = 0u64;
    for log in &ran.logs {
        sent = sent.saturating_add(log.sent);
    }
    match ran.totals {
        Some(totals) => totals.settled == Some(jobs) && sent == jobs,
        None => false,
    }
}
