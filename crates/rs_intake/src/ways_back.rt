//! The ways back to all lines: the writer puts a job, and sends the replies to its line.

ghost use Rattle.std.specs.Prelude.{◌≡◌, ℕ, ◌+◌, ◌-◌, ◌<◌, ◌≤◌, ◌||◌, ◌∷◌, ◌++◌, [], List, true, false, drop, length, take, vec_capacity, Decides, option_to_list};
ghost use Rattle.std.specs.List.{AllByRecursion};
ghost use Rattle.rs_message.specs.Messages.{is_sweep};
ghost use Rattle.rs_message.specs.declared.entry.Entry.{Entry};
ghost use Rattle.rs_store.specs.History.{SerialsRise, extended};
ghost use Rattle.rs_version.specs.Writer.{IsNextOf, IsReadyFor, kept_of};
ghost use Rattle.rs_intake.specs.declared.ways_back.TheConstants.{MANY_JOBS};
ghost use Rattle.rs_intake_queue.specs.Changes.{AreOfOneJob, place_of_all};
ghost use Rattle.rs_intake_queue.specs.QueueRule.{IsPlaced, entries_of};
ghost use Rattle.rs_intake.specs.Together.{AreParts, jobs_of};
ghost use Rattle.rs_intake.specs.Writers.{AreJobsDone};
ghost use Rattle.rs_intake_line.specs.Done.{AreReplied, IsBehindHeld, IsDone, IsOutcome, IsPut, ReplyValue, is_held};
ghost use Rattle.rs_intake_line.specs.Sending.{AreSentNext, AreSentTo, AreToPut, ArePut};
ghost use Rattle.rs_intake_line.specs.Sweeps.{IsKeptFrom};
ghost use Rattle.rs_intake_queue.specs.declared.job.TheConstants.{MAX_CHANGES};

use crate::together::{Gathered, Part};
use rs_intake_line::{
    FullnessWriter, LineName, MessageSize, ReplySender, WayEnd, WriterReplies, WriterReply,
};
use rs_intake_queue::{Changes, Entries, Job, MAX_CHANGES};
use rs_message::Entry;
use rs_version::StoreWriter;
use std::alloc::Global;
use std::collections::VecDeque;
use std::mem;
use std::sync::Wait;

/// Puts a change, and makes the reply to its line. A Sweep may have been appended before the change, or without it.
fn reply_to<N: LineName, S: StoreWriter<N>>(writer: &mut S, entry: Entry) -> WriterReply<N>
    requires no_sweep { is_sweep entry.operation ≡ false }
    requires rises { SerialsRise (extended (kept_of (S.written writer.old)) entry) }
    requires next { IsNextOf (S.ready writer.old) entry }
    ensures ready { S.ready writer.new ≡ drop 1 (S.ready writer.old) }
    ensures done { IsDone N.limit (kept_of (S.written writer.old)) entry result.outcome (kept_of (S.written writer.new)) }
    ensures origin { result.origin ≡ entry.origin }
    ensures put { IsPut N.limit (S.written writer.old) entry result.outcome (S.written writer.new) }
{
    let origin = entry.origin;
    let outcome = writer.put(entry);
    WriterReply { origin, outcome }
}

/// Puts the next change of a job, unless one before it is held: then it is refused, or held, too. `has_held` is whether one is held.
fn reply_to_next<N: LineName, S: StoreWriter<N>>(
    writer: &mut S,
    entry: Entry,
    has_held: &mut bool,
) -> WriterReply<N>
    requires no_sweep { is_sweep entry.operation ≡ false }
    requires rises { SerialsRise (extended (kept_of (S.written writer.old)) entry) }
    requires next { IsNextOf (S.ready writer.old) entry }
    ensures ready { S.ready writer.new ≡ drop 1 (S.ready writer.old) }
    ensures done { IsDone N.limit (kept_of (S.written writer.old)) entry result.outcome (kept_of (S.written writer.new)) }
    ensures origin { result.origin ≡ entry.origin }
    ensures outcome { IsOutcome N.limit (S.written writer.old) entry result.outcome (S.written writer.new) }
    ensures behind { has_held.old ≡ true → IsBehindHeld S.most_held result.outcome }
    ensures held { has_held.new ≡ (has_held.old || is_held result.outcome) }
{
    if *has_held {
        let origin = entry.origin;
        let outcome = Err(writer.pass_over(entry));
        return WriterReply { origin, outcome };
    }
    let reply = reply_to(writer, entry);
    *has_held = reply.is_held();
    reply
}

/// Puts the first `count` of the changes that are left of a job, one after the other, and makes a reply to each. `has_held` is whether a
/// change of the job is held, before and after. `reserved` has the capacity for the replies. The result is also how many changes are
/// refused.
fn reply_to_first<N: LineName, S: StoreWriter<N>>(
    writer: &mut S,
    rest: &mut VecDeque<Entry>,
    has_held: &mut bool,
    reserved: Vec<WriterReply<N>>,
    count: usize,
) -> (Vec<WriterReply<N>>, u64)
    requires reserved { (reserved.items ≡ []) × (count ≤ vec_capacity reserved) }
    requires there { count ≤ length rest.old.items }
    requires left { AreToPut N.limit (kept_of (S.written writer.old)) rest.old.items }
    requires ready { (n : ℕ) × (count ≤ n) × IsReadyFor (S.ready writer.old) (take n rest.old.items) }
    ensures ready { (n : ℕ) → count ≤ n → IsReadyFor (S.ready writer.old) (take n rest.old.items)
        → IsReadyFor (S.ready writer.new) (take (n - count) rest.new.items) }
    ensures put { ArePut N.limit S.most_held (S.written writer.old) has_held.old rest.old.items result.0.items result.1 has_held.new rest.new.items
        (S.written writer.new) }
    ensures left { AreToPut N.limit (kept_of (S.written writer.new)) rest.new.items }
    ensures count { (length rest.new.items + count ≡ length rest.old.items) × (length result.0.items ≡ count) }
    ensures refused { result.1 + length rest.new.items ≤ length rest.old.items }
{
    let mut replies = reserved;
    let mut refused = 0u64;
    while replies.len() < count {
        let Some(entry) = rest.pop_front() else {
            unreachable!()
        };
        // For the proof: this call says that the serial is not 0.
        let _serial = entry.origin.serial();
        let reply = reply_to_next(writer, entry, has_held);
        refused += reply.refused_count();
        let Ok(()) = replies.push(reply) else {
            unreachable!()
        };
    }
    (replies, refused)
}

/// Makes the next `at_once` changes of a job ready, or all that are left, and puts them. If there is no memory for the replies, nothing is
/// put, and each change that is left has that as its reply.
fn next_replies<N: LineName, S: StoreWriter<N>>(
    alloc: Global,
    writer: &mut S,
    rest: &mut VecDeque<Entry>,
    has_held: &mut bool,
    at_once: MessageSize,
) -> (WriterReplies<N>, u64)
    requires some { 0 < length rest.old.items }
    requires left { AreToPut N.limit (kept_of (S.written writer.old)) rest.old.items }
    requires ready { S.ready writer.old ≡ [] }
    ensures ready { S.ready writer.new ≡ [] }
    ensures put { ArePut N.limit S.most_held (S.written writer.old) has_held.old rest.old.items result.0 result.1 has_held.new rest.new.items
        (S.written writer.new) }
    ensures left { AreToPut N.limit (kept_of (S.written writer.new)) rest.new.items }
    ensures many { length rest.new.items ≤ length rest.old.items - at_once }
    ensures some { 0 < length result.0 }
    ensures refused { result.1 + length rest.new.items ≤ length rest.old.items }
{
    let count = rest.len().min(at_once.get());
    let Ok(reserved) = Vec::with_capacity(alloc, count) else {
        let changes = mem::replace(rest, VecDeque::new(alloc));
        let refused = changes.len() as u64;
        return (WriterReplies::of_refused(alloc, changes), refused);
    };
    writer.make_ready(rest, count);
    let (replies, refused) = reply_to_first(writer, rest, has_held, reserved, count);
    (WriterReplies::new(alloc, replies), refused)
}

/// Puts the changes of a job, and sends `at_once` replies in each message. If memory for the replies of one is refused, it refuses all
/// changes that are left, and is the last. The result is how many changes are refused.
fn put_and_send<N: LineName, S: StoreWriter<N>, W: Wait>(
    rt: &W,
    alloc: Global,
    to: &mut ReplySender<N>,
    fullness: &mut FullnessWriter,
    writer: &mut S,
    changes: VecDeque<Entry>,
    at_once: MessageSize,
) -> u64
    requires few { length changes.items ≤ MAX_CHANGES }
    requires left { AreToPut N.limit (kept_of (S.written writer.old)) changes.items }
    requires ready { S.ready writer.old ≡ [] }
    ensures ready { S.ready writer.new ≡ [] }
    ensures few { result ≤ MAX_CHANGES }
    ensures replied { (replies : List ReplyValue) × AreReplied N.limit S.most_held (S.written writer.old) changes.items replies result (S.written writer.new)
        × AreSentNext to.old replies to.new }
{
    let mut rest = changes;
    let mut has_held = false;
    let mut refused = 0u64;
    while !rest.is_empty() {
        let (replies, count) = next_replies(alloc, writer, &mut rest, &mut has_held, at_once);
        refused += count;
        replies.show(fullness);
        to.send(rt, replies);
    }
    refused
}

/// Puts a change that is a job of its own, and sends the reply, for which it takes no memory. The result is 1 if the change is refused,
/// else 0.
fn put_alone<N: LineName, S: StoreWriter<N>, W: Wait>(
    rt: &W,
    to: &mut ReplySender<N>,
    fullness: &mut FullnessWriter,
    writer: &mut S,
    entry: Entry,
) -> u64
    requires left { AreToPut N.limit (kept_of (S.written writer.old)) (entry ∷ []) }
    requires ready { S.ready writer.old ≡ [] }
    ensures ready { S.ready writer.new ≡ [] }
    ensures few { result ≤ MAX_CHANGES }
    ensures replied { (replies : List ReplyValue) × AreReplied N.limit S.most_held (S.written writer.old) (entry ∷ []) replies result (S.written writer.new)
        × AreSentNext to.old replies to.new }
{
    // For the proof: this call says that the serial is not 0.
    let _serial = entry.origin.serial();
    let reply = reply_to(writer, entry);
    let refused = reply.refused_count();
    let replies = WriterReplies::one(reply);
    replies.show(fullness);
    to.send(rt, replies);
    refused
}

/// Makes a writer ready for all these changes, if there are any.
fn make_ready_for<N: LineName, S: StoreWriter<N>>(writer: &mut S, changes: &VecDeque<Entry>)
    requires none { S.ready writer.old ≡ [] }
    requires left { AreToPut N.limit (kept_of (S.written writer.old)) changes.now.items }
    ensures same { S.written writer.new ≡ S.written writer.old }
    ensures ready { IsReadyFor (S.ready writer.new) changes.now.items }
{
    if !changes.is_empty() {
        writer.make_ready(changes, changes.len());
    }
}

/// Puts the first of these changes, which is a job of its own, and makes the reply. The second result is 1 if it is refused, else 0.
fn reply_to_one<N: LineName, S: StoreWriter<N>>(
    writer: &mut S,
    rest: &mut VecDeque<Entry>,
) -> (WriterReplies<N>, u64)
    requires some { 0 < length rest.old.items }
    requires left { AreToPut N.limit (kept_of (S.written writer.old)) rest.old.items }
    requires ready { IsReadyFor (S.ready writer.old) rest.old.items }
    ensures ready { IsReadyFor (S.ready writer.new) rest.new.items }
    ensures left { AreToPut N.limit (kept_of (S.written writer.new)) rest.new.items }
    ensures rest { rest.new.items ≡ drop 1 rest.old.items }
    ensures some { 0 < length result.0 }
    ensures refused { result.1 + length rest.new.items ≤ length rest.old.items }
    ensures replied { AreReplied N.limit S.most_held (S.written writer.old) (take 1 rest.old.items) result.0 result.1 (S.written writer.new) }
{
    let Some(entry) = rest.pop_front() else {
        unreachable!()
    };
    // For the proof: this call says that the serial is not 0.
    let _serial = entry.origin.serial();
    let reply = reply_to(writer, entry);
    let refused = reply.refused_count();
    (WriterReplies::one(reply), refused)
}

/// Puts the first of these changes, all those of a job, and makes the replies. The second result is how many of them are refused.
fn reply_to_part<N: LineName, S: StoreWriter<N>>(
    alloc: Global,
    writer: &mut S,
    rest: &mut VecDeque<Entry>,
    part: Part<N>,
) -> (WriterReplies<N>, u64)
    requires some { 0 < part.count }
    requires there { part.count ≤ length rest.old.items }
    requires left { AreToPut N.limit (kept_of (S.written writer.old)) rest.old.items }
    requires ready { IsReadyFor (S.ready writer.old) rest.old.items }
    ensures ready { IsReadyFor (S.ready writer.new) rest.new.items }
    ensures left { AreToPut N.limit (kept_of (S.written writer.new)) rest.new.items }
    ensures rest { rest.new.items ≡ drop part.count rest.old.items }
    ensures some { 0 < length result.0 }
    ensures refused { result.1 + length rest.new.items ≤ length rest.old.items }
    ensures replied { AreReplied N.limit S.most_held (S.written writer.old) (take part.count rest.old.items) result.0 result.1
        (S.written writer.new) }
{
    let count = part.count();
    if count == 1 {
        return reply_to_one(writer, rest);
    }
    let mut has_held = false;
    let reserved = part.into_reserved();
    let (replies, refused) = reply_to_first(writer, rest, &mut has_held, reserved, count);
    (WriterReplies::new(alloc, replies), refused)
}

/// So many jobs of one line in a row tell the line that it is alone: no other waits behind a further job of it.
const MANY_JOBS: u8 = 4;

/// The last jobs that were put and are of one place, one after the other.
#[derive(Drop)]
struct JobRow {
    place: u16,
    // How many jobs, up to the greatest number.
    count: u8,
}

impl JobRow {
    /// Before the first job.
    fn empty() -> JobRow {
        JobRow { place: 0, count: 0 }
    }

    /// Counts a further job, of this place. Whether at least [`MANY_JOBS`] jobs in a row before it were of this place, too.
    fn add(&mut self, place: u16) -> bool
        ensures place { self.new.place ≡ place }
        ensures alone { Decides result ((self.old.place ≡ place) × (MANY_JOBS ≤ self.old.count)) }
    {
        if self.place != place {
            *self = JobRow { place, count: 1 };
            return false;
        }
        let is_alone = self.count >= MANY_JOBS;
        self.count = self.count.saturating_add(1);
        is_alone
    }
}

/// The writer's ends of the ways back to the lines, that of place 1 first. A line learns only what is sent by its way back, and
/// only [`WaysBack::put_job`] and [`WaysBack::put_together`] send.
#[derive(Drop)]
pub struct WaysBack<N: LineName> {
    alloc: Global,
    senders: Vec<ReplySender<N>>,
    // It is empty, and has the capacity for what is left of each.
    ends: Vec<WayEnd<N>>,
    fullness: FullnessWriter,
    row: JobRow,
    ghost reserved: { (ends.items ≡ []) × (length senders.items ≤ vec_capacity ends) },
}

impl<N: LineName> WaysBack<N> {
    pub(crate) fn new(
        alloc: Global,
        senders: Vec<ReplySender<N>>,
        ends: Vec<WayEnd<N>>,
        fullness: FullnessWriter,
    ) -> WaysBack<N>
        requires { (ends.items ≡ []) × (length senders.items ≤ vec_capacity ends) }
        ensures { result.senders ≡ senders }
    {
        WaysBack {
            alloc,
            senders,
            ends,
            fullness,
            row: JobRow::empty(),
        }
    }

    /// Puts the changes of a job, one after the other, and sends the replies to their line, `at_once` in each message, or more if its way back
    /// has space for fewer messages, and nothing to any other. If a send of replies fails, as it does if the line is gone, no more are sent
    /// to this line. The result is how many changes are refused.
    pub(crate) fn put_job<S: StoreWriter<N>, W: Wait>(
        &mut self,
        rt: &W,
        writer: &mut S,
        changes: Changes,
        at_once: usize,
    ) -> u64
        requires place { place_of_all changes ≤ length self.old.senders.items }
        requires rises { (before : List Entry) × IsKeptFrom N.limit before (kept_of (S.written writer.old)) × SerialsRise (before ++ changes) }
        requires ready { S.ready writer.old ≡ [] }
        ensures ready { S.ready writer.new ≡ [] }
        ensures few { result ≤ MAX_CHANGES }
        ensures changes { AreOfOneJob changes }
        ensures replied { (replies : List ReplyValue) × AreReplied N.limit S.most_held (S.written writer.old) changes replies result (S.written writer.new)
            × AreSentTo (place_of_all changes) self.old.senders.items replies self.new.senders.items }
    {
        let place = changes.place();
        let is_alone = self.row.add(place);
        let index = place as usize - 1;
        let to = &mut self.senders[index];
        to.set_alone(is_alone);
        let entries = match changes.into_entries() {
            Entries::One(entry) => {
                return put_alone(rt, to, &mut self.fullness, writer, entry);
            }
            Entries::Many(entries) => entries,
        };
        let entries = VecDeque::from_vec(entries);
        // What is made ready all at once is replied to in one message, for which memory is there before.
        let at_once = if writer.makes_ready_at_once() {
            MAX_CHANGES
        } else {
            at_once
        };
        let at_once = to.message_size(at_once);
        put_and_send(
            rt,
            self.alloc,
            to,
            &mut self.fullness,
            writer,
            entries,
            at_once,
        )
    }

    /// Puts the changes of the first of the jobs that are left, and sends the replies to their line, in one message, and nothing to any other.
    fn put_part<S: StoreWriter<N>, W: Wait>(
        &mut self,
        rt: &W,
        writer: &mut S,
        rest: &mut VecDeque<Entry>,
        part: Part<N>,
    ) -> u64
        requires place { (0 < part.place) × (part.place ≤ length self.old.senders.items) }
        requires some { 0 < part.count }
        requires there { part.count ≤ length rest.old.items }
        requires left { AreToPut N.limit (kept_of (S.written writer.old)) rest.old.items }
        requires ready { IsReadyFor (S.ready writer.old) rest.old.items }
        ensures ready { IsReadyFor (S.ready writer.new) rest.new.items }
        ensures left { AreToPut N.limit (kept_of (S.written writer.new)) rest.new.items }
        ensures rest { rest.new.items ≡ drop part.count rest.old.items }
        ensures refused { result + length rest.new.items ≤ length rest.old.items }
        ensures replied { (replies : List ReplyValue) × AreReplied N.limit S.most_held (S.written writer.old) (take part.count rest.old.items)
            replies result (S.written writer.new) × AreSentTo part.place self.old.senders.items replies self.new.senders.items }
    {
        let place = part.place();
        let is_alone = self.row.add(place);
        let index = place as usize - 1;
        let way = &mut self.senders[index];
        way.set_alone(is_alone);
        let (replies, refused) = reply_to_part(self.alloc, writer, rest, part);
        replies.show(&mut self.fullness);
        way.send(rt, replies);
        refused
    }

    /// Puts the changes of these jobs, one job after the other, and sends the replies to each to its line. The result is how many changes are
    /// refused.
    fn put_parts<S: StoreWriter<N>, W: Wait>(
        &mut self,
        rt: &W,
        writer: &mut S,
        parts: VecDeque<Part<N>>,
        entries: VecDeque<Entry>,
    ) -> u64
        requires parts { AreParts parts.items entries.items }
        requires placed { AllByRecursion (IsPlaced (length self.old.senders.items)) (jobs_of parts.items entries.items) }
        requires left { AreToPut N.limit (kept_of (S.written writer.old)) entries.items }
        requires ready { IsReadyFor (S.ready writer.old) entries.items }
        ensures ready { S.ready writer.new ≡ [] }
        ensures refused { result ≤ length entries.items }
        ensures done { AreJobsDone N.limit S.most_held (S.written writer.old) self.old.senders.items (jobs_of parts.items entries.items) result
            (S.written writer.new) self.new.senders.items }
    {
        let mut parts = parts;
        let mut rest = entries;
        let mut refused = 0u64;
        while !parts.is_empty() {
            let Some(part) = parts.pop_front() else {
                unreachable!()
            };
            refused += self.put_part(rt, writer, &mut rest, part);
        }
        refused
    }

    /// Puts the changes of a job, if it has any, as [`put_job`](WaysBack::put_job) does.
    fn put_last<S: StoreWriter<N>, W: Wait>(
        &mut self,
        rt: &W,
        writer: &mut S,
        last: Option<Job>,
    ) -> u64
        requires placed { AllByRecursion (IsPlaced (length self.old.senders.items)) (option_to_list last) }
        requires rises { (before : List Entry) × IsKeptFrom N.limit before (kept_of (S.written writer.old))
            × SerialsRise (before ++ entries_of (option_to_list last)) }
        requires ready { S.ready writer.old ≡ [] }
        ensures ready { S.ready writer.new ≡ [] }
        ensures few { result ≤ MAX_CHANGES }
        ensures done { AreJobsDone N.limit S.most_held (S.written writer.old) self.old.senders.items (option_to_list last) result
            (S.written writer.new) self.new.senders.items }
    {
        match last {
            Some(Job::Put(changes)) => self.put_job(rt, writer, changes, MAX_CHANGES),
            Some(Job::End(_)) | None => 0,
        }
    }

    /// Makes the writer ready for the changes of these jobs all at once. Then it puts them, one job after the other, and sends the replies
    /// to each to its line, in one message. A job for which memory was refused is put alone, behind the others. The result is how many
    /// changes are refused.
    pub(crate) fn put_together<S: StoreWriter<N>, W: Wait>(
        &mut self,
        rt: &W,
        writer: &mut S,
        jobs: Gathered<N>,
    ) -> u64
        requires placed { AllByRecursion (IsPlaced (length self.old.senders.items)) jobs.jobs }
        requires rises { (before : List Entry) × IsKeptFrom N.limit before (kept_of (S.written writer.old))
            × SerialsRise (before ++ entries_of jobs.jobs) }
        requires ready { S.ready writer.old ≡ [] }
        ensures ready { S.ready writer.new ≡ [] }
        ensures done { AreJobsDone N.limit S.most_held (S.written writer.old) self.old.senders.items jobs.jobs result
            (S.written writer.new) self.new.senders.items }
    {
        let (parts, entries, last) = jobs.into_parts();
        make_ready_for(writer, &entries);
        let refused = self.put_parts(rt, writer, parts, entries);
        refused + self.put_last(rt, writer, last)
    }

    /// The allocator for what is taken.
    pub(crate) fn alloc(&self) -> Global {
        self.alloc
    }

    /// What is left of each way back. The lines learn that nothing more comes. Takes no memory.
    pub(crate) fn end(self) -> Vec<WayEnd<N>>
        ensures { result.items ≡ self.senders.items }
    {
        let WaysBack {
            alloc: _,
            senders,
            mut ends,
            fullness: _fullness,
            row: _,
        } = self;
        for sender in senders {
            let Ok(()) = ends.push(sender.end()) else {
                unreachable!()
            };
        }
        ends
    }
}
