//! Jobs that the writer takes one behind the other, and is made ready for together.

ghost use Rattle.std.specs.Prelude.{◌≡◌, ◌+◌, ◌<◌, ◌≤◌, ◌⊎◌, ◌∷◌, ◌++◌, [], true, length, vec_capacity, IfOk, MatchOption, if◌then◌else◌, option_to_list};
ghost use Rattle.rs_message.specs.declared.entry.Entry.{Entry};
ghost use Rattle.rs_intake_queue.specs.Changes.{AreOfOneJob, place_of_all};
ghost use Rattle.rs_intake_queue.specs.QueueRule.{ends_of, entries_in, entries_of};
ghost use Rattle.rs_intake_queue.specs.declared.job.Job.TheVariants.{Put};
ghost use Rattle.rs_intake_queue.specs.declared.job.TheConstants.{MAX_CHANGES};
ghost use Rattle.rs_intake.specs.Together.{AreParts, jobs_of};
ghost use Rattle.rs_intake.specs.declared.together.TheConstants.{MAX_TOGETHER};

use rs_intake_line::{LineName, WriterReply};
use rs_intake_queue::{Changes, Entries, Job, MAX_CHANGES};
use rs_message::Entry;
use std::alloc::{AllocError, Global};
use std::collections::VecDeque;
use std::marker::Model;

/// The most changes that the writer is made ready for at once.
pub const MAX_TOGETHER: usize = 1_024;

const _: () = prove!(MAX_TOGETHER == 1_024);

/// A job among others: its place, how many changes it has, and memory for the replies to them. Contracts see the place and the number.
#[derive(Drop)]
pub struct Part<N: LineName> {
    place: u16,
    count: usize,
    // It is empty. A reply alone takes no memory.
    reserved: Vec<WriterReply<N>>,
}

impl<N: LineName> Model for Part<N> {
    ghost use Rattle.std.specs.Prelude.{◌≡◌, ◌≤◌, ◌⊎◌, [], vec_capacity};
    ghost use Rattle.rs_intake.specs.Together.{PartValue};

    ghost Value = { PartValue };

    ghost view = { λ p. record { place = p.place; count = p.count } };

    ghost invariant = { λ p. (p.reserved.items ≡ []) × ((p.count ≡ 1) ⊎ (p.count ≤ vec_capacity p.reserved)) };
}

/// Memory for so many replies, unless it is one.
fn reserve<N: LineName>(alloc: Global, count: usize) -> Result<Vec<WriterReply<N>>, AllocError>
    ensures { IfOk result (λ v. (v.items ≡ []) × ((count ≡ 1) ⊎ (count ≤ vec_capacity v))) }
{
    if count == 1 {
        return Ok(Vec::new(alloc));
    }
    Vec::with_capacity(alloc, count)
}

impl<N: LineName> Part<N> {
    /// Of this place, with so many changes.
    fn new(alloc: Global, place: u16, count: usize) -> Result<Part<N>, AllocError>
        ensures { IfOk result (λ part. (part.place ≡ place) × (part.count ≡ count)) }
    {
        let reserved = reserve(alloc, count)?;
        Ok(Part {
            place,
            count,
            reserved,
        })
    }

    pub fn place(&self) -> u16
        ensures { result ≡ self.now.place }
    {
        self.place
    }

    /// How many changes it has.
    pub fn count(&self) -> usize
        ensures { result ≡ self.now.count }
    {
        self.count
    }

    /// The memory for the replies, unless it has one change.
    pub fn into_reserved(self) -> Vec<WriterReply<N>>
        ensures { (result.items ≡ []) × ((self.count ≡ 1) ⊎ (self.count ≤ vec_capacity result)) }
    {
        self.reserved
    }
}

/// Adds the changes of a job behind those of others. If memory is refused, it gives them back.
fn push<N: LineName>(
    alloc: Global,
    parts: &mut VecDeque<Part<N>>,
    entries: &mut VecDeque<Entry>,
    changes: Changes,
) -> Option<Changes>
    ensures changes { AreOfOneJob changes }
    ensures pushed { MatchOption result
        ((parts.new.items ≡ parts.old.items ++ record { place = place_of_all changes; count = length changes } ∷ [])
        × (entries.new.items ≡ entries.old.items ++ changes))
        (λ back. (back ≡ changes) × (parts.new.items ≡ parts.old.items) × (entries.new.items ≡ entries.old.items)) }
{
    let count = changes.len();
    let Ok(part) = Part::new(alloc, changes.place(), count) else {
        return Some(changes);
    };
    if parts.reserve(1).is_err() || entries.reserve(count).is_err() {
        return Some(changes);
    }
    parts.push_back_reserved(part);
    match changes.into_entries() {
        Entries::One(entry) => entries.push_back_reserved(entry),
        Entries::Many(changes) => {
            let Ok(()) = entries.append(&mut VecDeque::from_vec(changes)) else {
                unreachable!()
            };
        }
    }
    None
}

/// How many changes the job has, if it is one of changes.
fn changes_in(job: &Option<Job>) -> usize
    ensures number { result ≡ length (entries_of (option_to_list job.now)) }
    ensures few { result ≤ MAX_CHANGES }
{
    match job {
        Some(Job::Put(changes)) => changes.len(),
        Some(Job::End(_)) | None => 0,
    }
}

/// Whether there is a job that is an End.
fn is_end(job: &Option<Job>) -> bool
    ensures { length (ends_of (option_to_list job.now)) ≡ (if result then 1 else 0) }
{
    match job {
        Some(Job::End(_)) => true,
        Some(Job::Put(_)) | None => false,
    }
}

/// Jobs that were taken one behind the other. Contracts see them as a list, and whether more may come behind them.
#[derive(Drop)]
pub struct Gathered<N: LineName> {
    alloc: Global,
    parts: VecDeque<Part<N>>,
    // All changes of the parts, in their order.
    entries: VecDeque<Entry>,
    // The last job, if it is an End, or if memory was refused to add it to the parts.
    last: Option<Job>,
}

impl<N: LineName> Model for Gathered<N> {
    ghost use Rattle.std.specs.Prelude.{◌++◌, is_none, option_to_list};
    ghost use Rattle.rs_intake.specs.Together.{AreParts, GatheredValue, jobs_of};

    ghost Value = { GatheredValue };

    ghost view = { λ g. record { jobs = jobs_of g.parts.items g.entries.items ++ option_to_list g.last; is_open = is_none g.last } };

    ghost invariant = { λ g. AreParts g.parts.items g.entries.items };
}

impl<N: LineName> Gathered<N> {
    /// No job.
    pub fn new(alloc: Global) -> Gathered<N>
        ensures jobs { result.jobs ≡ [] }
        ensures open { result.is_open ≡ true }
    {
        Gathered {
            alloc,
            parts: VecDeque::new(alloc),
            entries: VecDeque::new(alloc),
            last: None,
        }
    }

    /// Adds a job. It is the last if it is an End, or if memory for it is refused.
    pub fn add(&mut self, job: Job)
        requires open { self.old.is_open ≡ true }
        ensures jobs { self.new.jobs ≡ self.old.jobs ++ job ∷ [] }
        ensures few { length (entries_in job) ≤ MAX_CHANGES }
    {
        match job {
            Job::Put(changes) => {
                let back = push(self.alloc, &mut self.parts, &mut self.entries, changes);
                if let Some(changes) = back {
                    self.last = Some(Job::Put(changes));
                }
            }
            Job::End(place) => self.last = Some(Job::End(place)),
        }
    }

    /// How many changes they have.
    pub fn len(&self) -> usize
        ensures { result ≡ length (entries_of self.now.jobs) }
    {
        self.entries.len() + changes_in(&self.last)
    }

    /// Whether one more job may come behind them, with however many changes.
    pub fn has_room(&self) -> bool
        ensures open { result ≡ true → self.now.is_open ≡ true }
        ensures few { result ≡ true → length (entries_of self.now.jobs) + MAX_CHANGES ≤ MAX_TOGETHER }
    {
        self.last.is_none() && self.entries.len() <= MAX_TOGETHER - MAX_CHANGES
    }

    /// Whether the last of them is an End.
    pub fn has_end(&self) -> bool
        ensures { length (ends_of self.now.jobs) ≡ (if result then 1 else 0) }
    {
        is_end(&self.last)
    }

    /// The jobs that are put together, all their changes, and a job behind them.
    pub fn into_parts(self) -> (VecDeque<Part<N>>, VecDeque<Entry>, Option<Job>)
        ensures parts { AreParts result.0.items result.1.items }
        ensures jobs { self.jobs ≡ jobs_of result.0.items result.1.items ++ option_to_list result.2 }
    {
        let Gathered {
            alloc: _,
            parts,
            entries,
            last,
        } = self;
        (parts, entries, last)
    }
}
