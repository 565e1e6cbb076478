//! A writer at its queue, and the steps that it makes.

ghost use Rattle.std.specs.Prelude.{◌≡◌, ◌+◌, ◌<◌, ◌≤◌, ◌^◌, ◌⊎◌, [], length, map, replicate, take, IfNone, IfSome, MatchBool, Some};
ghost use Rattle.crossbeam_channel.specs.Ends.{receives_on};
ghost use Rattle.rs_version.specs.Copies.{listed};
ghost use Rattle.rs_version.specs.First.{AreOwn};
ghost use Rattle.rs_version.specs.Writer.{kept_of};
ghost use Rattle.rs_intake_line.specs.Done.{untold};
ghost use Rattle.rs_intake.specs.Causes.{HaveEnded, IsCause};
ghost use Rattle.rs_intake.specs.declared.cause.Cause.TheVariants.{MostTaken};
ghost use Rattle.rs_intake_line.specs.Names.{IsQueue};
ghost use Rattle.rs_intake.specs.Writers.{IsStepBefore, IsUnderWay};
ghost use Rattle.rs_intake_queue.specs.declared.job.TheConstants.{MAX_CHANGES};
ghost use Rattle.rs_intake_line.specs.declared.reply.TheConstants.{FEW_REPLIES};

use crate::cause::Cause;
use crate::gathering::gather;
use crate::taken::Taken;
use crate::ways_back::WaysBack;
use rs_intake_line::{FEW_REPLIES, LineName, WayEnd};
use rs_intake_queue::{Job, JobReceiver, MAX_CHANGES, Patience, Polls};
use rs_message::Origin;
use rs_metrics::WriterMeter;
use rs_version::StoreWriter;
use std::marker::Model;
use std::snapshot::Snapshot;
use std::sync::Wait;

/// The writer's end of the queue, from which nothing was taken.
#[derive(Drop)]
pub struct Queue<N: LineName> {
    receiver: JobReceiver,
    received: Taken<N>,
    ways: WaysBack<N>,
    patience: Patience,
    meter: WriterMeter,
    ghost queue: { IsQueue N.queue (receives_on receiver) },
    ghost new: { (received.entries ≡ []) × (received.ends ≡ []) },
    ghost lines: { ways.senders.items ≡ replicate N.places untold },
}

impl<N: LineName> Queue<N> {
    pub(crate) fn new(
        receiver: JobReceiver,
        received: Taken<N>,
        ways: WaysBack<N>,
        polls: Polls,
        meter: WriterMeter,
    ) -> Queue<N>
        requires queue { IsQueue N.queue (receives_on receiver) }
        requires new { (received.entries ≡ []) × (received.ends ≡ []) }
        requires lines { ways.senders.items ≡ replicate N.places untold }
    {
        Queue {
            receiver,
            received,
            ways,
            patience: Patience::new(polls.writer),
            meter,
        }
    }
}

/// What [`run_writer`](crate::run_writer) leaves.
#[derive(Drop)]
pub struct Ended<N: LineName, S: StoreWriter<N>> {
    /// The writer.
    pub writer: S,
    /// How many entries were taken, with the jobs that asked for them.
    pub taken: u64,
    /// How many of them were not appended.
    pub refused: u64,
    /// The origin of the first entry that is held: appended, and not published.
    pub held: Option<Origin>,
    /// What was taken.
    pub received: Taken<N>,
    /// Why the loop ended.
    pub cause: Cause,
    /// What is left of the ways back to the lines, that to place 1 first.
    pub ways: Vec<WayEnd<N>>,
    pub ghost counted: { taken ≡ length received.entries },
}

impl<N: LineName, S: StoreWriter<N>> Ended<N, S> {
    fn new(
        writer: S,
        taken: u64,
        refused: u64,
        received: Taken<N>,
        cause: Cause,
        ways: Vec<WayEnd<N>>,
    ) -> Ended<N, S>
        requires { taken ≡ length received.entries }
        ensures values { (result.writer ≡ writer) × (result.taken ≡ taken) × (result.refused ≡ refused) }
        ensures held { listed result.held ≡ take 1 (map (λ e. e.origin) (S.written writer).held) }
        ensures few { length (S.written writer).held ≤ S.most_held }
        ensures received { (result.received ≡ received) × (result.cause ≡ cause) × (result.ways ≡ ways) }
    {
        // For the proof: this call says how many entries are held at most.
        let _count = writer.held_count();
        let held = writer.held();
        Ended {
            writer,
            taken,
            refused,
            held,
            received,
            cause,
            ways,
        }
    }
}

/// Whether no further job may be taken: at least so many entries were, or one more job could have more than can be counted.
pub(crate) fn has_most(taken: u64, most: u64) -> bool
    ensures { MatchBool result ((most ≤ taken) ⊎ (2 ^ 64 ≤ taken + MAX_CHANGES)) ((taken < most) × (taken + MAX_CHANGES < 2 ^ 64)) }
{
    taken >= most || taken > u64::MAX - MAX_CHANGES as u64
}

/// How many replies the writer sends in one message: few if it had to wait for the job, so that the line reads them while the writer goes
/// on. If the job was there already, others may wait behind it, and each message may wake a line, which costs more than a put.
fn replies_at_once(patience: &Patience) -> usize
    ensures { FEW_REPLIES ≤ result }
{
    if patience.has_waited() {
        FEW_REPLIES
    } else {
        MAX_CHANGES
    }
}

/// Shows what the writer has published, and how many changes it took.
fn show<N: LineName, S: StoreWriter<N>>(meter: &WriterMeter, writer: &S, taken: u64) {
    if meter.is_needed() {
        meter.set_content(
            writer.tell().version(),
            u64::from(writer.topics()),
            writer.bytes(),
        );
        meter.set_taken(taken);
    }
}

/// A writer at its queue. It takes one job at a time, or some that wait. Contracts see what it kept when it began, what it published and holds, what it took,
/// what it sent by the ways back, and how many entries it took and refused.
///
/// At every moment what it keeps came of what it kept when it began by the outcomes of just what it took, and these outcomes were sent to
/// the lines, unless a send failed (`IsUnderWay`).
#[derive(Drop)]
pub struct JobWriter<N: LineName, S: StoreWriter<N>> {
    // The writer when it began.
    began: Snapshot<S>,
    writer: S,
    receiver: JobReceiver,
    received: Taken<N>,
    ways: WaysBack<N>,
    patience: Patience,
    meter: WriterMeter,
    taken: u64,
    refused: u64,
    // How many places have not ended.
    left: u16,
}

impl<N: LineName, S: StoreWriter<N>> Model for JobWriter<N, S> {
    ghost use Rattle.std.specs.Prelude.{◌≡◌, ◌+◌, [], length};
    ghost use Rattle.crossbeam_channel.specs.Ends.{receives_on};
    ghost use Rattle.rs_version.specs.Writer.{kept_of};
    ghost use Rattle.rs_intake_line.specs.Names.{IsQueue};
    ghost use Rattle.rs_intake.specs.Writers.{IsUnderWay, WriterValue};

    ghost Value = { WriterValue };

    ghost view = { λ w. record { first = kept_of (S.written w.began.value); writer = S.written w.writer; received = w.received; ways = w.ways.senders.items; taken = w.taken; refused = w.refused } };

    ghost invariant = { λ w. IsQueue N.queue (receives_on w.receiver)
        × IsUnderWay N.limit N.places record { first = kept_of (S.written w.began.value); writer = S.written w.writer; received = w.received; ways = w.ways.senders.items; taken = w.taken; refused = w.refused }
        × (w.left + length w.received.ends ≡ N.places) × (S.ready w.writer ≡ []) };
}

impl<N: LineName, S: StoreWriter<N>> JobWriter<N, S> {
    /// A writer that kept nothing yet but what its store began with, at a queue from which nothing was taken.
    pub fn new(queue: Queue<N>, mut writer: S) -> JobWriter<N, S>
        requires own { AreOwn (kept_of (S.written writer)) }
        requires ready { S.ready writer ≡ [] }
        ensures first { result.first ≡ kept_of (S.written writer) }
        ensures writer { result.writer ≡ S.written writer }
        ensures received { (result.received.entries ≡ []) × (result.received.ends ≡ []) }
        ensures ways { result.ways ≡ replicate N.places untold }
        ensures counts { (result.taken ≡ 0) × (result.refused ≡ 0) }
        ensures under_way { IsUnderWay N.limit N.places result }
    {
        let Queue {
            receiver,
            received,
            ways,
            patience,
            meter,
        } = queue;
        let left = received.places();
        meter.set_taking(true);
        show(&meter, &writer, 0);
        // For the proof: this call says that the kept list is legal.
        writer.note_covered(&writer.tell());
        JobWriter {
            began: Snapshot::of(&writer),
            writer,
            receiver,
            received,
            ways,
            patience,
            meter,
            taken: 0,
            refused: 0,
            left,
        }
    }

    /// How many entries were taken.
    pub fn taken(&self) -> u64
        ensures taken { result ≡ self.now.taken }
        ensures under_way { IsUnderWay N.limit N.places self.now }
    {
        self.taken
    }

    /// Waits for the oldest job, and takes it. It puts its changes, one after the other, and sends the job's line a reply to each. Behind a
    /// change that is held the others of the job are refused, or held, too.
    ///
    /// If the writer is better made ready at once, it takes the jobs that are there behind the first, too: as long as they have at most
    /// [`MAX_TOGETHER`](crate::MAX_TOGETHER) changes with one more job, and up to an End. It makes the writer ready for all of them together,
    /// and then puts and answers one job after the other.
    ///
    /// The result is why no step can follow, if none can: each place has ended, with these jobs; or no job was taken, since at least `most`
    /// entries were taken before, or so many that one more job could have more than can be counted, or since the receive failed.
    pub fn step<W: Wait>(&mut self, rt: &W, most: u64) -> Option<Cause>
        ensures step { IsStepBefore N.limit S.most_held N.places result self.old self.new }
        ensures cause { IfSome result (λ cause. IsCause N.places most self.new.received cause) }
        ensures more { IfNone result (HaveEnded N.places self.new.received.ends → HaveEnded N.places self.old.received.ends) }
        ensures most { most ≤ self.old.taken → result ≡ Some MostTaken }
        ensures under_way { IsUnderWay N.limit N.places self.new }
    {
        if has_most(self.taken, most) {
            return Some(Cause::MostTaken);
        }
        if self.writer.makes_ready_at_once() {
            return self.step_together(rt, most);
        }
        match self.received.next(rt, &self.receiver, &mut self.patience) {
            Ok(Job::Put(changes)) => {
                self.taken += changes.len() as u64;
                let at_once = replies_at_once(&self.patience);
                let count = self.ways.put_job(rt, &mut self.writer, changes, at_once);
                self.refused += count;
                show(&self.meter, &self.writer, self.taken);
                None
            }
            Ok(Job::End(_)) => {
                self.left -= 1;
                if self.left == 0 {
                    Some(Cause::AllEnded)
                } else {
                    None
                }
            }
            Err(gone) => Some(Cause::QueueGone(gone)),
        }
    }

    /// The same for a writer that is made ready at once, before as many are taken as may be: it takes further jobs that are there, too, and
    /// makes the writer ready for all of them together.
    fn step_together<W: Wait>(&mut self, rt: &W, most: u64) -> Option<Cause>
        requires few { self.old.taken + MAX_CHANGES < 2 ^ 64 }
        ensures step { IsStepBefore N.limit S.most_held N.places result self.old self.new }
        ensures cause { IfSome result (λ cause. IsCause N.places most self.new.received cause) }
        ensures more { IfNone result (HaveEnded N.places self.new.received.ends → HaveEnded N.places self.old.received.ends) }
        ensures under_way { IsUnderWay N.limit N.places self.new }
    {
        let gathered = gather(
            rt,
            self.ways.alloc(),
            &mut self.received,
            &self.receiver,
            &mut self.patience,
            self.taken,
            most,
        );
        let jobs = match gathered {
            Ok(jobs) => jobs,
            Err(gone) => return Some(Cause::QueueGone(gone)),
        };
        let has_end = jobs.has_end();
        self.taken += jobs.len() as u64;
        let count = self.ways.put_together(rt, &mut self.writer, jobs);
        self.refused += count;
        show(&self.meter, &self.writer, self.taken);
        if !has_end {
            return None;
        }
        self.left -= 1;
        if self.left == 0 {
            Some(Cause::AllEnded)
        } else {
            None
        }
    }

    /// Ends the ways back. Before that it tries once more to publish a held entry, of which no clause speaks.
    pub fn end(self, cause: Cause) -> Ended<N, S>
        ensures received { (result.received ≡ self.received) × (result.cause ≡ cause) × (result.ways.items ≡ self.ways) }
        ensures counts { (result.taken ≡ self.taken) × (result.refused ≡ self.refused) }
        ensures kept { kept_of (S.written result.writer) ≡ kept_of self.writer }
        ensures held { listed result.held ≡ take 1 (map (λ e. e.origin) (S.written result.writer).held) }
        ensures few { length (S.written result.writer).held ≤ S.most_held }
        ensures idle { S.ready result.writer ≡ [] }
        ensures under_way { IsUnderWay N.limit N.places self }
    {
        let JobWriter {
            began: _began,
            mut writer,
            receiver: _receiver,
            received,
            ways,
            patience: _,
            meter,
            taken,
            refused,
            left: _,
        } = self;
        drop(writer.release());
        meter.set_taking(false);
        Ended::new(writer, taken, refused, received, cause, ways.end())
    }
}
