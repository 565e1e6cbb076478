//! The way back from the writer to a line.

ghost use Rattle.std.specs.Prelude.{◌≡◌, ◌+◌, ◌*◌, ◌<◌, ◌≤◌, ◌∷◌, ◌++◌, [], List, length, IfErr, IfOk, MatchOption, MatchResult, map};
ghost use Rattle.rs_intake_line.specs.Done.{ReplyValue, is_held, is_refused, refused_reply, refused_in, untold};
ghost use Rattle.rs_intake_line.specs.Sending.{AreSentNext};
ghost use Rattle.rs_intake_line.specs.declared.reply.TheConstants.{FEW_REPLIES};
ghost use Rattle.rs_intake_queue.specs.declared.job.TheConstants.{MAX_CHANGES};

use crate::fullness::FullnessWriter;
use crossbeam_channel::protocol::{Lesson, Outcome, Protocol, Split};
use crossbeam_channel::{Pass, RuledReceiver, RuledSender, bounded_with};
use rs_intake_queue::{Gone, MAX_CHANGES, Patience, Polls, receive, send};
use rs_message::{Entry, Origin};
use rs_version::{PutFault, Receipt, StoreName};
use std::alloc::{AllocError, Global};
use std::collections::{LinkedList, VecDeque};
use std::marker::Model;
use std::sync::Wait;

/// How many replies one message has if the writer had to wait for their job: the line reads them while the writer puts the next changes.
/// No message has fewer, but the last one to a job.
pub const FEW_REPLIES: usize = 8;

/// The reply of the writer to a change.
#[derive(Drop)]
pub struct WriterReply<N: StoreName> {
    /// The origin of the change.
    pub origin: Origin,
    /// What became of the change: the receipt, or why there is none.
    pub outcome: Result<Receipt<N>, PutFault>,
}

impl<N: StoreName> Model for WriterReply<N> {
    ghost use Rattle.rs_intake_line.specs.Done.{ReplyValue};

    ghost Value = { ReplyValue };

    ghost view = { λ r. record { origin = r.origin; outcome = r.outcome } };
}

impl<N: StoreName> WriterReply<N> {
    /// Whether the change is not kept. One that is held is kept.
    pub fn is_refused(&self) -> bool
        ensures { result ≡ is_refused self.now.outcome }
    {
        match &self.outcome {
            Ok(_) | Err(PutFault::Held) => false,
            Err(PutFault::Full | PutFault::NoMemory | PutFault::Stale) => true,
        }
    }

    /// 1 if the change is not kept, else 0.
    pub fn refused_count(&self) -> u64
        ensures { result ≡ refused_in (self.now.outcome ∷ []) }
    {
        if self.is_refused() { 1 } else { 0 }
    }

    /// Whether the change is held: it is kept, and not published yet.
    pub fn is_held(&self) -> bool
        ensures { result ≡ is_held self.now.outcome }
    {
        match &self.outcome {
            Err(PutFault::Held) => true,
            Ok(_) | Err(PutFault::Full | PutFault::NoMemory | PutFault::Stale) => false,
        }
    }
}

/// Replies in their order. One alone takes no block of memory.
#[derive(Drop)]
pub enum Replies<N: StoreName> {
    /// One, or none.
    One(Option<WriterReply<N>>),
    /// Any number of them. Behind the others, those that say that memory was refused. If there is none for any other reply, they are entries
    /// of the job.
    Many(VecDeque<WriterReply<N>>, VecDeque<Entry>),
}

/// The replies of the writer to changes of one job that are next to each other, in their order. Contracts see a list of replies.
#[derive(Drop)]
pub struct WriterReplies<N: StoreName> {
    replies: Replies<N>,
    // Whether the writer's last jobs were all of their line.
    is_alone: bool,
}

impl<N: StoreName> Model for WriterReplies<N> {
    ghost use Rattle.std.specs.Prelude.{List};
    ghost use Rattle.rs_intake_line.specs.Done.{ReplyValue};
    ghost use Rattle.rs_intake_line.specs.Messages.{listed};

    ghost Value = { List ReplyValue };

    ghost view = { λ r. listed r.replies };
}

/// Takes the first of what is made, or else of what is refused.
fn next_of<N: StoreName>(
    made: &mut VecDeque<WriterReply<N>>,
    refused: &mut VecDeque<Entry>,
) -> Option<WriterReply<N>>
    ensures { MatchOption result
        ((made.old.items ++ map refused_reply refused.old.items ≡ []) × (made.new.items ++ map refused_reply refused.new.items ≡ []))
        (λ reply. made.old.items ++ map refused_reply refused.old.items
        ≡ reply ∷ (made.new.items ++ map refused_reply refused.new.items)) }
{
    if let Some(reply) = made.pop_front() {
        return Some(reply);
    }
    match refused.pop_front() {
        Some(change) => Some(WriterReply {
            origin: change.origin,
            // Refused: the memory for these replies.
            outcome: Err(PutFault::NoMemory),
        }),
        None => None,
    }
}

impl<N: StoreName> WriterReplies<N> {
    /// No replies.
    fn empty() -> WriterReplies<N>
        ensures { result ≡ [] }
    {
        WriterReplies {
            replies: Replies::One(None),
            is_alone: false,
        }
    }

    /// This reply alone. Takes no memory.
    pub fn one(reply: WriterReply<N>) -> WriterReplies<N>
        ensures { result ≡ reply ∷ [] }
    {
        WriterReplies {
            replies: Replies::One(Some(reply)),
            is_alone: false,
        }
    }

    /// These replies.
    pub fn new(alloc: Global, replies: Vec<WriterReply<N>>) -> WriterReplies<N>
        ensures { result ≡ replies.items }
    {
        WriterReplies {
            replies: Replies::Many(VecDeque::from_vec(replies), VecDeque::new(alloc)),
            is_alone: false,
        }
    }

    /// Tells what the outcomes say of what the store lacks.
    pub fn show(&self, fullness: &mut FullnessWriter) {
        match &self.replies {
            Replies::One(Some(reply)) => fullness.note(&reply.outcome),
            Replies::One(None) => {}
            Replies::Many(made, refused) => {
                for reply in made.iter() {
                    fullness.note(&reply.outcome);
                }
                if !refused.is_empty() {
                    // Refused: the memory for these replies.
                    let outcome: Result<Receipt<N>, PutFault> = Err(PutFault::NoMemory);
                    fullness.note(&outcome);
                }
            }
        }
    }

    /// A reply to each of these changes, that memory was refused. Takes no memory.
    pub fn of_refused(alloc: Global, changes: VecDeque<Entry>) -> WriterReplies<N>
        ensures { result ≡ map refused_reply changes.items }
    {
        WriterReplies {
            replies: Replies::Many(VecDeque::new(alloc), changes),
            is_alone: false,
        }
    }

    /// Takes the first reply.
    fn next(&mut self) -> Option<WriterReply<N>>
        ensures { MatchOption result ((self.old ≡ []) × (self.new ≡ [])) (λ reply. self.old ≡ reply ∷ self.new) }
    {
        match &mut self.replies {
            Replies::One(reply) => reply.take(),
            Replies::Many(made, refused) => next_of(made, refused),
        }
    }
}

/// What a pass of a way back knows: the replies that it sent or received. No value of it is made.
pub struct WayPass<N: StoreName> {
    pub sends: bool,
    pub receives: bool,
    pub replies: LinkedList<WriterReply<N>>,
}

impl<N: StoreName> Model for WayPass<N> {
    ghost use Rattle.rs_intake_line.specs.ReplyRule.{WayView};

    ghost Value = { WayView };

    ghost view = { λ p. record { sends = p.sends; receives = p.receives; replies = p.replies } };
}

/// The rule of a way back: what the line received, followed by what the way back holds, is what the writer's end sent. A message has
/// replies to changes of one job.
pub struct ReplyRule;

impl<N: StoreName> Protocol<WriterReplies<N>, WayPass<N>> for ReplyRule {
    ghost use Rattle.rs_intake_line.specs.ReplyRule.{Replies, both_ends};

    ghost holds = { Replies };

    ghost first = { both_ends };
}

/// A send or a receive: the replies join those before them.
struct Counting;

impl<N: StoreName> Outcome<WriterReplies<N>, WayPass<N>> for Counting {
    ghost use Rattle.rs_intake_line.specs.ReplyRule.{Counts};

    ghost then = { Counts };
}

impl<N: StoreName> Lesson<WriterReplies<N>, WayPass<N>> for Counting {
    ghost fact = { λ v items. Unit {0} };
}

/// The line's pass, which is cut off the writer's.
struct Halves;

impl<N: StoreName> Split<WayPass<N>> for Halves {
    ghost use Rattle.rs_intake_line.specs.ReplyRule.{receiving_end, sending_end};

    ghost left = { sending_end };

    ghost right = { receiving_end };
}

/// How many replies a message has, but the last one to a job: so many that the way back has space for all messages to the jobs that are
/// under way. Contracts see it as a number.
#[derive(Clone, Copy)]
pub struct MessageSize {
    size: usize,
}

impl Model for MessageSize {
    ghost use Rattle.std.specs.Prelude.{ℕ, ◌≤◌};
    ghost use Rattle.rs_intake_line.specs.declared.reply.TheConstants.{FEW_REPLIES};

    ghost Value = { ℕ };

    ghost view = { λ s. s.size };

    ghost invariant = { λ s. FEW_REPLIES ≤ s.size };

    ghost inverse = { λ n. record { size = n } };
}

impl MessageSize {
    /// The number.
    pub fn get(self) -> usize
        ensures { result ≡ self }
    {
        self.size
    }
}

/// The writer's end. Contracts see the replies that were sent, and the send that failed. Behind that one nothing is sent.
#[derive(Drop)]
pub struct ReplySender<N: StoreName> {
    to: RuledSender<WriterReplies<N>, WayPass<N>, ReplyRule>,
    pass: Pass<WriterReplies<N>, WayPass<N>>,
    gone: Option<Gone>,
    // How many replies each message has at least, but the last one to a job.
    fewest: usize,
    // What the next messages say.
    is_alone: bool,
}

impl<N: StoreName> Model for ReplySender<N> {
    ghost use Rattle.std.specs.Prelude.{◌≡◌, ◌≤◌, true, false};
    ghost use Rattle.crossbeam_channel.specs.Claims.{view as known_by, IsSeatAt};
    ghost use Rattle.crossbeam_channel.specs.Ends.{sends_on};
    ghost use Rattle.rs_intake_line.specs.Done.{Told};
    ghost use Rattle.rs_intake_line.specs.declared.reply.TheConstants.{FEW_REPLIES};

    ghost Value = { Told };

    ghost view = { λ s. record { sent = (known_by s.pass).replies; gone = s.gone } };

    ghost invariant = { λ s. IsSeatAt (sends_on s.to) s.pass × ((known_by s.pass).sends ≡ true) × ((known_by s.pass).receives ≡ false)
        × (FEW_REPLIES ≤ s.fewest) };
}

/// What is left of the writer's end, once it sends no more. Contracts see the replies that were sent, and the send that failed.
#[derive(Drop)]
pub struct WayEnd<N: StoreName> {
    pass: Pass<WriterReplies<N>, WayPass<N>>,
    gone: Option<Gone>,
}

impl<N: StoreName> Model for WayEnd<N> {
    ghost use Rattle.std.specs.Prelude.{◌≡◌, true};
    ghost use Rattle.crossbeam_channel.specs.Claims.{view as known_by};
    ghost use Rattle.rs_intake_line.specs.Done.{Told};

    ghost Value = { Told };

    ghost view = { λ e. record { sent = (known_by e.pass).replies; gone = e.gone } };

    ghost invariant = { λ e. (known_by e.pass).sends ≡ true };
}

/// The line's end. Contracts see the replies that were taken from it, and those that came and were not taken yet.
#[derive(Drop)]
pub struct ReplyReceiver<N: StoreName> {
    from: RuledReceiver<WriterReplies<N>, WayPass<N>, ReplyRule>,
    pass: Pass<WriterReplies<N>, WayPass<N>>,
    polls: Polls,
    patience: Patience,
    came: WriterReplies<N>,
    // What the last message said.
    is_alone: bool,
}

impl<N: StoreName> Model for ReplyReceiver<N> {
    ghost use Rattle.std.specs.Prelude.{◌≡◌, ◌++◌, true, false};
    ghost use Rattle.crossbeam_channel.specs.Claims.{view as known_by, IsSeatAt};
    ghost use Rattle.crossbeam_channel.specs.Ends.{receives_on};
    ghost use Rattle.rs_intake_queue.specs.Parts.{before};
    ghost use Rattle.rs_intake_line.specs.ReplyRule.{Heard};

    ghost Value = { Heard };

    ghost view = { λ r. record { heard = before (known_by r.pass).replies r.came; came = r.came } };

    ghost invariant = { λ r. IsSeatAt (receives_on r.from) r.pass × ((known_by r.pass).receives ≡ true) × ((known_by r.pass).sends ≡ false)
        × ((known_by r.pass).replies ≡ before (known_by r.pass).replies r.came ++ r.came) };
}

/// How many messages the replies to the jobs under way are at most, if all but the last to each job have at least so many replies. The
/// replies to two jobs, together to at most [`MAX_CHANGES`] changes, may be one message more than those to one job of as many.
fn most_messages(fewest: usize) -> usize
    requires { 0 < fewest }
    ensures { (0 < result) × (MAX_CHANGES ≤ result * fewest) }
{
    MAX_CHANGES.div_ceil(fewest) + 1
}

/// The two ends of the way back to one line, by which nothing was sent. No message that is sent by it has to have fewer replies than this,
/// but the last one to a job.
///
/// It has space for all messages with replies to the jobs under way. A line has at most [`MAX_CHANGES`] changes ahead, of at most two jobs,
/// and sends no further job before it has taken the replies to all changes that are not ahead. So the writer waits for no line.
pub fn way_back<N: StoreName>(
    alloc: Global,
    polls: Polls,
    fewest: usize,
) -> Result<(ReplySender<N>, ReplyReceiver<N>), AllocError>
    requires { (FEW_REPLIES ≤ fewest) × (fewest ≤ MAX_CHANGES) }
    ensures { IfOk result (λ r. (r.0 ≡ untold) × (r.1.heard ≡ []) × (r.1.came ≡ [])) }
{
    let (to, from, mut pass) = bounded_with::<WriterReplies<N>, WayPass<N>, ReplyRule, Global>(
        alloc,
        most_messages(fewest),
    )?;
    let other = to.another::<Halves>(&mut pass);
    Ok((
        ReplySender {
            to,
            pass,
            gone: None,
            fewest,
            is_alone: false,
        },
        ReplyReceiver {
            from,
            pass: other,
            polls,
            patience: Patience::new(polls.line),
            came: WriterReplies::empty(),
            is_alone: false,
        },
    ))
}

impl<N: StoreName> ReplySender<N> {
    /// So many replies, or more if the way back has space for fewer messages.
    pub fn message_size(&self, wanted: usize) -> MessageSize
        ensures { wanted ≤ result }
    {
        MessageSize {
            size: wanted.max(self.fewest),
        }
    }

    /// The messages from now on say whether the writer's last jobs were all of this line.
    pub fn set_alone(&mut self, is_alone: bool)
        ensures { self.new ≡ self.old }
    {
        self.is_alone = is_alone;
    }

    /// Sends the replies. If the line is gone, or was for a send before, they are dropped. Takes no memory.
    pub fn send<R: Wait>(&mut self, rt: &R, replies: WriterReplies<N>)
        requires { 0 < length replies }
        ensures { AreSentNext self.old replies self.new }
    {
        if self.gone.is_some() {
            return;
        }
        let replies = WriterReplies {
            replies: replies.replies,
            is_alone: self.is_alone,
        };
        let sent = send::<WriterReplies<N>, WayPass<N>, ReplyRule, Counting, R>(
            rt,
            &self.to,
            &mut self.pass,
            replies,
        );
        self.gone = sent.err();
    }

    /// Gives the end up. The line learns that nothing more comes.
    pub fn end(self) -> WayEnd<N>
        ensures { result ≡ self }
    {
        let ReplySender {
            to: _to,
            pass,
            gone,
            fewest: _,
            is_alone: _,
        } = self;
        WayEnd { pass, gone }
    }
}

impl<N: StoreName> ReplyReceiver<N> {
    /// It polls less from now on, as that of a line whose client shares its threads.
    pub fn share(&mut self)
        ensures { self.new ≡ self.old }
    {
        self.patience = Patience::new(self.polls.shared);
    }

    /// Whether the last message said that the writer's last jobs were all of this line.
    pub(crate) fn is_alone(&self) -> bool {
        self.is_alone
    }

    /// Takes the next reply that came.
    fn take(&mut self) -> Option<WriterReply<N>>
        ensures { MatchOption result ((self.old.came ≡ []) × (self.new.came ≡ []) × (self.new.heard ≡ self.old.heard))
            (λ reply. (self.new.heard ≡ self.old.heard ++ reply ∷ []) × (self.old.came ≡ reply ∷ self.new.came)) }
    {
        self.came.next()
    }

    /// Waits for a message, if none is there.
    ///
    /// # Errors
    ///
    /// [`Gone`] if the receive failed, as it does once the writer is gone and no message is left.
    fn wait_message<R: Wait>(&mut self, rt: &R) -> Result<(), Gone>
        requires { self.old.came ≡ [] }
        ensures heard { self.new.heard ≡ self.old.heard }
        ensures came { IfErr result (λ _. self.new.came ≡ []) }
    {
        let replies = receive::<WriterReplies<N>, WayPass<N>, ReplyRule, Counting, R>(
            rt,
            &self.from,
            &mut self.pass,
            &mut self.patience,
        )?;
        self.is_alone = replies.is_alone;
        self.came = replies;
        Ok(())
    }

    /// The next reply, for which it waits if none has come that was not taken.
    ///
    /// # Errors
    ///
    /// [`Gone`] if the receive failed, as it does once the writer is gone and no reply is left.
    pub fn wait<R: Wait>(&mut self, rt: &R) -> Result<WriterReply<N>, Gone>
        ensures heard { MatchResult result (λ reply. self.new.heard ≡ self.old.heard ++ reply ∷ [])
            (λ _. (self.old.came ≡ []) × (self.new.heard ≡ self.old.heard)) }
        ensures came { (more : List ReplyValue) × (self.new.heard ++ self.new.came ≡ self.old.heard ++ self.old.came ++ more) }
        ensures none { IfErr result (λ _. self.new.came ≡ []) }
    {
        if let Some(reply) = self.take() {
            return Ok(reply);
        }
        // The rule of the way back does not say that each message has a reply.
        for _ in rt.forever() {
            self.wait_message(rt)?;
            if let Some(reply) = self.take() {
                return Ok(reply);
            }
        }
        unreachable!()
    }

    /// Takes all replies that came, and drops them.
    fn skip(&mut self)
        ensures { (self.new.heard ≡ self.old.heard ++ self.old.came) × (self.new.came ≡ []) }
    {
        self.came = WriterReplies::empty();
    }

    /// Waits for the next `count` replies, and drops them.
    ///
    /// # Errors
    ///
    /// [`Gone`] if a receive failed, as it does once the writer is gone and fewer are left. Those are dropped.
    fn wait_for<R: Wait>(&mut self, rt: &R, count: usize) -> Result<(), Gone>
        ensures heard { (more : List ReplyValue) × (self.new.heard ++ self.new.came ≡ self.old.heard ++ self.old.came ++ more) }
        ensures waited { IfOk result (λ _. length self.new.heard ≡ length self.old.heard + count) }
        ensures fewer { IfErr result (λ _. (length self.new.heard < length self.old.heard + count) × (self.new.came ≡ [])) }
    {
        for _number in 0..count {
            drop(self.wait(rt)?);
        }
        Ok(())
    }

    /// Waits for the next `count` replies, and drops them and all others that came with them.
    ///
    /// # Errors
    ///
    /// [`Gone`] if a receive failed, as it does once the writer is gone and fewer are left. Those are dropped.
    pub fn drop_next<R: Wait>(&mut self, rt: &R, count: usize) -> Result<(), Gone>
        ensures heard { (more : List ReplyValue) × (self.new.heard ≡ self.old.heard ++ self.old.came ++ more) }
        ensures came { self.new.came ≡ [] }
        ensures waited { IfOk result (λ _. length self.old.heard + count ≤ length self.new.heard) }
        ensures fewer { IfErr result (λ _. length self.new.heard < length self.old.heard + count) }
    {
        let waited = self.wait_for(rt, count);
        self.skip();
        waited
    }
}
