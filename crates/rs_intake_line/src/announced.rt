//! What a line sent and did not submit yet.

ghost use Rattle.std.specs.Prelude.{◌≡◌, ◌≢◌, ◌+◌, ◌<◌, ◌≤◌, ◌^◌, ◌∷◌, ◌++◌, [], List, length, take, false, IfSome, MatchBool, MatchOption};
ghost use Rattle.std.specs.List.{AllByRecursion};
ghost use Rattle.rs_message.specs.Messages.{is_sweep};
ghost use Rattle.rs_message.specs.declared.entry.Entry.{Entry};
ghost use Rattle.rs_message.specs.declared.entry.TheConstants.{MAX_LINES};
ghost use Rattle.rs_intake_queue.specs.Changes.{numbered};
ghost use Rattle.rs_intake_queue.specs.declared.job.TheConstants.{MAX_CHANGES};
ghost use Rattle.rs_intake_line.specs.Waiting.{listed};
ghost use Rattle.rs_intake_line.specs.declared.announced.Waiting.TheVariants.{One};

use rs_intake_queue::{Changes, prepare, prepare_next};
use rs_message::{Entry, Operation};
use std::alloc::Global;
use std::collections::VecDeque;
use std::marker::Model;

/// Entries that wait, in their order. One alone takes no block of memory.
#[derive(Drop)]
pub enum Waiting {
    /// One, or none.
    One(Option<Entry>),
    /// Any number of them.
    Many(VecDeque<Entry>),
}

impl Waiting {
    /// How many there are.
    fn len(&self) -> usize
        ensures { result ≡ length (listed self.now) }
    {
        match self {
            Waiting::One(Some(_)) => 1,
            Waiting::One(None) => 0,
            Waiting::Many(entries) => entries.len(),
        }
    }
}

/// The entries that were sent ahead and are not submitted yet. Contracts see a list.
#[derive(Drop)]
pub struct Ahead {
    entries: Waiting,
    // How many entries the last job had.
    last: usize,
}

impl Model for Ahead {
    ghost use Rattle.std.specs.Prelude.{List};
    ghost use Rattle.rs_message.specs.declared.entry.Entry.{Entry};
    ghost use Rattle.rs_intake_line.specs.Waiting.{listed};

    ghost Value = { List Entry };

    ghost view = { λ a. listed a.entries };
}

/// Appends them. Whether there was memory for that; if not, nothing changed.
fn append_to(entries: &mut VecDeque<Entry>, more: Waiting) -> bool
    ensures { MatchBool result (entries.new.items ≡ entries.old.items ++ listed more) (entries.new.items ≡ entries.old.items) }
{
    match more {
        Waiting::One(None) => true,
        Waiting::One(Some(entry)) => entries.push_back(entry).is_ok(),
        Waiting::Many(more) => {
            let mut more = more;
            entries.append(&mut more).is_ok()
        }
    }
}

/// The first, and the others behind it, in one block of memory. `None` if memory was refused, and then the first is where it was.
fn join_behind(alloc: Global, first: &mut Option<Entry>, more: Waiting) -> Option<VecDeque<Entry>>
    ensures { MatchOption result (first.new ≡ first.old) (λ all. all.items ≡ listed (One first.old) ++ listed more) }
{
    let mut all = VecDeque::with_capacity(alloc, more.len().saturating_add(1)).ok()?;
    if !append_to(&mut all, more) {
        return None;
    }
    if let Some(entry) = first.take() {
        if let Err(refused) = all.push_front(entry) {
            *first = Some(refused.value);
            return None;
        }
    }
    Some(all)
}

impl Ahead {
    /// Nothing is ahead.
    pub(crate) fn empty() -> Ahead
        ensures { result ≡ [] }
    {
        Ahead {
            entries: Waiting::One(None),
            last: 0,
        }
    }

    /// This entry alone. Takes no memory.
    fn one(entry: Entry) -> Ahead
        ensures { result ≡ entry ∷ [] }
    {
        Ahead {
            entries: Waiting::One(Some(entry)),
            last: 1,
        }
    }

    /// These entries.
    fn many(entries: VecDeque<Entry>) -> Ahead
        ensures { result ≡ entries.items }
    {
        let last = entries.len();
        Ahead {
            entries: Waiting::Many(entries),
            last,
        }
    }

    /// How many there are.
    pub(crate) fn len(&self) -> usize
        ensures { result ≡ length self.now }
    {
        self.entries.len()
    }

    /// Whether there is none.
    pub(crate) fn is_empty(&self) -> bool
        ensures { MatchBool result (self.now ≡ []) (self.now ≢ []) }
    {
        self.len() == 0
    }

    /// The first.
    pub(crate) fn first(&self) -> Option<&Entry>
        ensures { MatchOption result (self.now ≡ []) (λ first. (rest : List Entry) × (self.now ≡ first.now ∷ rest)) }
    {
        match &self.entries {
            Waiting::One(entry) => entry.as_ref(),
            Waiting::Many(entries) => entries.front(),
        }
    }

    /// Takes the first.
    pub(crate) fn pop(&mut self) -> Option<Entry>
        ensures { MatchOption result ((self.old ≡ []) × (self.new ≡ [])) (λ first. self.old ≡ first ∷ self.new) }
    {
        match &mut self.entries {
            Waiting::One(entry) => entry.take(),
            Waiting::Many(entries) => entries.pop_front(),
        }
    }

    /// Whether all are of the job that was sent last.
    pub(crate) fn is_one_job(&self) -> bool {
        self.len() <= self.last
    }

    /// Appends those of a further job. Takes no memory if nothing is ahead. Whether there was memory for that; if not, nothing changed.
    pub(crate) fn append(&mut self, more: Ahead, alloc: Global) -> bool
        ensures { MatchBool result (self.new ≡ self.old ++ more) (self.new ≡ self.old) }
    {
        if self.is_empty() {
            *self = more;
            return true;
        }
        let Ahead { entries, last } = more;
        let has_memory = match &mut self.entries {
            Waiting::One(first) => match join_behind(alloc, first, entries) {
                Some(all) => {
                    self.entries = Waiting::Many(all);
                    true
                }
                None => false,
            },
            Waiting::Many(all) => append_to(all, entries),
        };
        if has_memory {
            self.last = last;
        }
        has_memory
    }

    /// The first `count` alone.
    pub(crate) fn truncate(&mut self, count: usize)
        ensures { self.new ≡ take count self.old }
    {
        match &mut self.entries {
            Waiting::One(entry) => {
                if count == 0 {
                    *entry = None;
                }
            }
            Waiting::Many(entries) => entries.truncate(count),
        }
    }
}

/// The entries of this place that do this under the serials behind this one, as one job, and a copy of them, which is ahead once the job
/// was sent. `None` if no serials are left for all, or memory is refused or short.
pub(crate) fn announce(
    alloc: Global,
    place: u16,
    serial: u64,
    changes: Vec<Operation>,
) -> Option<(Changes, Ahead)>
    requires place { (0 < place) × (place ≤ MAX_LINES) }
    requires plain { AllByRecursion (λ o. is_sweep o ≡ false) changes.items }
    requires some { 0 < length changes.items }
    requires few { length changes.items ≤ MAX_CHANGES }
    ensures job { IfSome result (λ r. r.0 ≡ numbered place serial changes.items) }
    ensures ahead { IfSome result (λ r. r.1 ≡ numbered place serial changes.items) }
    ensures small { IfSome result (λ r. serial + length r.1 < 2 ^ 64) }
{
    if changes.len() > 1 {
        let (job, entries) = prepare(alloc, place, serial, changes)?;
        return Some((job, Ahead::many(entries)));
    }
    let mut changes = changes;
    let Some(change) = changes.pop() else {
        unreachable!()
    };
    let (job, entry) = prepare_next(alloc, place, serial, change)?;
    Some((job, Ahead::one(entry)))
}
