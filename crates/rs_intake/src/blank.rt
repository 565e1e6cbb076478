//! A queue before it has a name.

ghost use Rattle.std.specs.Prelude.{◌≡◌, ◌+◌, ◌<◌, ◌≤◌, [], true, false, IfOk};
ghost use Rattle.crossbeam_channel.specs.Claims.{view as known_by};
ghost use Rattle.crossbeam_channel.specs.Ends.{sends_on};
ghost use Rattle.rs_message.specs.declared.entry.TheConstants.{MAX_LINES};
ghost use Rattle.rs_intake_line.specs.Names.{IsQueue, IsIn};
ghost use Rattle.rs_intake_line.specs.Done.{untold};
ghost use Rattle.rs_intake_line.specs.Lines.{new_line, new_lines};
ghost use Rattle.rs_intake_queue.specs.declared.job.TheConstants.{MAX_CHANGES};
ghost use Rattle.rs_intake_line.specs.declared.reply.TheConstants.{FEW_REPLIES};

use crate::taken::Taken;
use crate::ways_back::WaysBack;
use crate::writer::Queue;
use crossbeam_channel::{Pass, bounded_with};
use rs_intake_line::{
    FEW_REPLIES, Fullness, FullnessWriter, Intake, LineName, LineSender, ReplySender, SeatLine,
    way_back,
};
use rs_intake_queue::steps::cut;
use rs_intake_queue::{Job, JobReceiver, JobSender, MAX_CHANGES, PassView, Polls, QueueRule};
use rs_message::{LineCount, MAX_PLACES};
use rs_metrics::{Meter, Metrics, WriterMeter};
use std::alloc::{AllocError, Global};
use std::marker::Model;
use std::sync::Arc;

/// A queue without lines, before it has a name. Contracts see which one it is, and for how many lines, whose numbers are their places.
#[derive(Drop)]
pub struct BlankQueue {
    sender: JobSender,
    receiver: JobReceiver,
    pass: Pass<Job, PassView>,
    lines: LineCount,
    fullness: Arc<Fullness>,
    polls: Polls,
    metrics: Option<Arc<Metrics>>,
    alloc: Global,
}

impl Model for BlankQueue {
    ghost use Rattle.std.specs.Prelude.{◌≡◌};
    ghost use Rattle.crossbeam_channel.specs.Claims.{view as known_by, IsSeatAt};
    ghost use Rattle.crossbeam_channel.specs.Ends.{sends_on, receives_on};
    ghost use Rattle.rs_intake_queue.specs.QueueRule.{taker};
    ghost use Rattle.rs_intake_line.specs.Names.{Unnamed, name_of};

    ghost Value = { Unnamed };

    ghost view = { λ b. record { name = name_of (sends_on b.sender); places = b.lines } };

    ghost invariant = { λ b. IsSeatAt (sends_on b.sender) b.pass × (receives_on b.receiver ≡ sends_on b.sender)
        × (known_by b.pass ≡ taker) };
}

/// A queue for so many lines, which holds as many jobs.
///
/// # Errors
///
/// [`AllocError`] if memory is refused.
pub fn blank_queue(alloc: Global, lines: LineCount) -> Result<BlankQueue, AllocError>
    ensures { IfOk result (λ b. b.places ≡ lines) }
{
    let (sender, receiver, pass) = bounded_with::<Job, PassView, QueueRule, Global>(
        alloc,
        lines.get() as usize,
    )?;
    let fullness = Arc::new(alloc, Fullness::new()).map_err(|_| AllocError)?;
    Ok(BlankQueue {
        sender,
        receiver,
        pass,
        lines,
        fullness,
        polls: Polls::untimed(),
        metrics: None,
        alloc,
    })
}

/// How many replies each message to a line has at least, but the last one to a job. If there are more lines than places, a thread serves
/// many of them, each with a job of few changes: then all replies to a job are one message, and each way back is small.
fn fewest_replies(lines: u16) -> usize
    ensures { (FEW_REPLIES ≤ result) × (result ≤ MAX_CHANGES) }
{
    if lines > u16::from(MAX_PLACES) {
        MAX_CHANGES
    } else {
        FEW_REPLIES
    }
}

/// The line of the next place, and the writer's way back to it.
fn line<N: LineName>(
    alloc: Global,
    sender: &JobSender,
    pass: &mut Pass<Job, PassView>,
    place: u16,
    polls: Polls,
    fewest: usize,
    meter: Meter,
) -> Result<(SeatLine<N>, ReplySender<N>), AllocError>
    requires queue { IsQueue N.queue (sends_on sender.now) × IsIn N.queue pass.old }
    requires pass { ((known_by pass.old).takes ≡ true) × ((known_by pass.old).sends ≡ false) × ((known_by pass.old).known ≡ [])
        × ((known_by pass.old).made + 1 ≡ place) }
    requires place { (place ≤ N.places) × (N.places ≤ MAX_LINES) }
    requires fewest { (FEW_REPLIES ≤ fewest) × (fewest ≤ MAX_CHANGES) }
    ensures line { IfOk result (λ r. r.0 ≡ new_line place) }
    ensures told { IfOk result (λ r. r.1 ≡ untold) }
    ensures queue { IfOk result (λ _. IsIn N.queue pass.new) }
    ensures pass { IfOk result (λ _. ((known_by pass.new).takes ≡ true) × ((known_by pass.new).sends ≡ false)
        × ((known_by pass.new).known ≡ []) × ((known_by pass.new).entries ≡ (known_by pass.old).entries)
        × ((known_by pass.new).ends ≡ (known_by pass.old).ends) × ((known_by pass.new).made ≡ place)) }
{
    let (to, from) = way_back(alloc, polls, fewest)?;
    let own = sender.try_clone()?;
    let line = LineSender::new(place, own, cut(sender, pass), meter);
    Ok((SeatLine::new(alloc, line, from), to))
}

impl BlankQueue {
    /// Whether its store is full, for whoever wants to tell of it.
    ///
    /// # Errors
    ///
    /// [`AllocError`] if it has too many owners.
    pub fn fullness(&self) -> Result<Arc<Fullness>, AllocError> {
        Arc::try_clone(&self.fullness)
    }

    /// The same queue, whose ends poll so often before they sleep.
    pub fn with_polls(self, polls: Polls) -> BlankQueue
        ensures { result ≡ self }
    {
        let BlankQueue {
            sender,
            receiver,
            pass,
            lines,
            fullness,
            polls: _,
            metrics,
            alloc,
        } = self;
        BlankQueue {
            sender,
            receiver,
            pass,
            lines,
            fullness,
            polls,
            metrics,
            alloc,
        }
    }

    /// The same queue, whose lines and whose writer count there what passes. Without metrics they count nothing.
    pub fn with_metrics(self, metrics: Option<Arc<Metrics>>) -> BlankQueue
        ensures { result ≡ self }
    {
        let BlankQueue {
            sender,
            receiver,
            pass,
            lines,
            fullness,
            polls,
            metrics: _before,
            alloc,
        } = self;
        BlankQueue {
            sender,
            receiver,
            pass,
            lines,
            fullness,
            polls,
            metrics,
            alloc,
        }
    }

    /// The way to the writer, the lines of the places from 1 on, which have sent nothing, and the writer's end of the queue, under a name
    /// that names this queue.
    ///
    /// # Errors
    ///
    /// [`AllocError`] if memory is refused.
    #[tactic(auto, using(crate::proofs::Opening::new_lines_more))]
    pub fn open<N: LineName>(self) -> Result<(Intake<N>, Vec<SeatLine<N>>, Queue<N>), AllocError>
        requires { (self.name ≡ N.queue) × (self.places ≡ N.places) }
        ensures { IfOk result (λ r. r.1.items ≡ new_lines self.places) }
    {
        let BlankQueue {
            sender,
            receiver,
            mut pass,
            lines,
            fullness,
            polls,
            metrics,
            alloc,
        } = self;
        let count = lines.get();
        let fewest = fewest_replies(count);
        let mut lines = Vec::new(alloc);
        let mut replies = Vec::new(alloc);
        for before in 0..count {
            let meter = Meter::new(&metrics, before + 1)?;
            let (line, to) = line::<N>(
                alloc,
                &sender,
                &mut pass,
                before + 1,
                polls,
                fewest,
                meter,
            )?;
            lines.push(line).map_err(|_| AllocError)?;
            replies.push(to).map_err(|_| AllocError)?;
        }
        let ends = Vec::with_capacity(alloc, count as usize)?;
        let queue = Queue::new(
            receiver,
            Taken::new(count, pass),
            WaysBack::new(alloc, replies, ends, FullnessWriter::new(fullness)),
            polls,
            WriterMeter::new(metrics),
        );
        Ok((Intake::new(), lines, queue))
    }
}
