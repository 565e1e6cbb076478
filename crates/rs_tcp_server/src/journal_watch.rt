//! What watches the commits of a journal.

use crate::journal_state::JournalState;
use rs_journal_writer::{CommitOutcome, CommitWatch};
use rs_metrics::JournalNumbers;
use std::sync::Arc;
use std::time::{Clock, Instant};

/// How many bytes a page of a journal has.
pub(crate) const PAGE_BYTES: u64 = 1_024;

/// The numbers of a journal of so many pages that is not used yet.
pub(crate) fn first_numbers(pages: u32) -> JournalNumbers {
    JournalNumbers {
        commits: 0,
        micros: 0,
        written: 0,
        size: u64::from(pages) * PAGE_BYTES,
        is_refusing: false,
    }
}

/// Counts the commits of a journal, and tells how it fares.
#[derive(Drop)]
pub struct JournalWatch<H: Clock> {
    rt: H,
    state: Arc<JournalState>,
    numbers: JournalNumbers,
    // How many pages it had by the last call.
    pages: u32,
    // When the commit began that is under way. None if the clock cannot be read.
    began: Option<Instant>,
}

impl<H: Clock> JournalWatch<H> {
    /// Of a journal of so many pages.
    pub(crate) fn new(rt: H, state: Arc<JournalState>, pages: u32) -> JournalWatch<H> {
        JournalWatch {
            rt,
            state,
            numbers: first_numbers(pages),
            pages,
            began: None,
        }
    }

    /// How many microseconds the commit took that is under way, or none if the clock cannot be read.
    fn micros(&self) -> u64 {
        let Some(began) = &self.began else {
            return 0;
        };
        match began.elapsed(&self.rt) {
            Ok(took) => u64::try_from(took.as_micros()).unwrap_or(0),
            Err(_) => 0,
        }
    }

    /// The journal has so many pages, and so many were written.
    fn note_pages(&mut self, pages: u32, written: u32) {
        let bytes = u64::from(written) * PAGE_BYTES;
        self.numbers.written = self.numbers.written.saturating_add(bytes);
        self.numbers.size = u64::from(pages) * PAGE_BYTES;
        self.pages = pages;
    }
}

impl<H: Clock + Copy> CommitWatch for JournalWatch<H> {
    fn may_commit(&mut self) -> bool {
        !self.state.has_failed()
    }

    fn begins(&mut self) {
        self.state.begin();
        self.began = Instant::now(&self.rt).ok();
    }

    /// A commit writes whole pages behind those that there are.
    fn ends(&mut self, outcome: &CommitOutcome, page_count: u32) {
        self.numbers.micros = self.numbers.micros.saturating_add(self.micros());
        let written = match outcome {
            CommitOutcome::Kept => {
                self.numbers.commits = self.numbers.commits.saturating_add(1);
                page_count.saturating_sub(self.pages)
            }
            CommitOutcome::Refused(_) | CommitOutcome::Doubtful(_) => 0,
        };
        self.note_pages(page_count, written);
        self.state.end(outcome);
        self.state.show(self.numbers);
    }

    fn shortened(&mut self, before: u32, outcome: &CommitOutcome, page_count: u32) {
        let written = match outcome {
            // And the page that says where they begin.
            CommitOutcome::Kept => page_count.saturating_add(1),
            CommitOutcome::Refused(_) | CommitOutcome::Doubtful(_) => 0,
        };
        self.note_pages(page_count, written);
        self.state.shorten(before, outcome, page_count);
        self.state.show(self.numbers);
    }
}
