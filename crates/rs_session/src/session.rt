//! One client's session.

mod connect;

ghost use Rattle.std.specs.Prelude.{◌≡◌, ◌≢◌, ◌<◌, ◌≤◌, ◌⊎◌, ◌++◌, ℕ, List, [], false, Some, None, IfSome, MatchBool, length};
ghost use Rattle.std.specs.List.{All};
ghost use Rattle.rs_message.specs.declared.entry.Entry.{Entry};
ghost use Rattle.rs_packet.specs.declared.packet.Packet.{Packet};
ghost use Rattle.rs_packet.specs.declared.packet.Publish.{Publish};
ghost use Rattle.rs_packet.specs.declared.reply.Reply.{Reply};
ghost use Rattle.rs_message.specs.Messages.{is_sweep};
ghost use Rattle.rs_session.specs.Pending.{LeavesPending};
ghost use Rattle.rs_session.specs.Gate.{Grows, GrowsAnswering};
ghost use Rattle.rs_session.specs.Points.{given_at};
ghost use Rattle.rs_session.specs.Reasons.{reason_value};
ghost use Rattle.rs_session.specs.Run.{replies_left};
ghost use Rattle.rs_session.specs.State.{session_at, state_of, due_of, gate_of, closing_of, is_open, step_of, fresh, ended, waiting_of, within, IsGiven, IsReplayed};
ghost use Rattle.rs_session.specs.declared.open.Open.{Open};
ghost use Rattle.rs_session.specs.Steps.{NoSerialUsed};
ghost use Rattle.rs_session.specs.Table.{Answers, due_for, state_after};

use crate::gate::Gate;
use crate::incoming::Incoming;
use crate::open::{Effect, fault_reason};
use crate::phase::{Closing, Input, Phase, Step};
use crate::reason::ReasonCode;
use rs_message::Operation;
use rs_packet::{Packet, PacketFault, Reply, encoded_len};
use rs_topic::Text;
use std::alloc::Global;

/// One client's session over a gate to the store. Each input is followed by calls of `next_reply`
/// until it gives none.
#[derive(Drop)]
pub struct Session<G> {
    alloc: Global,
    gate: G,
    phase: Phase,
    assigned: Text,
    due: Option<Reply>,
}

impl<G: Gate> Session<G> {
    /// A session before its CONNECT. `assigned` is the identifier of a client that gives none (3.1.3.1, 3.2.2.3.7).
    pub fn new(alloc: Global, gate: G, assigned: Text) -> Session<G>
        ensures state { state_of result ≡ fresh assigned }
        ensures due { due_of result ≡ None }
        ensures gate { gate_of result ≡ gate }
    {
        Session {
            alloc,
            gate,
            phase: Phase::Before,
            assigned,
            due: None,
        }
    }

    /// Handles a packet at this time, once the reply that was due is taken. `now` is in seconds. A session that has
    /// ended stays as it is.
    pub fn on_packet(&mut self, packet: Packet, now: u64) -> Step
        requires { due_of self.old ≡ None }
        ensures row { GrowsAnswering G.stands G.mark (gate_of self.old) (gate_of self.new) (λ seen answered list.
            Answers (given_at (Input.Whole packet) now) (session_at G.mark self.old seen) answered (due_of self.new)
            (session_at G.mark self.new list)) }
        ensures step { result ≡ step_of (state_of self.new).phase }
        ensures over { (closing : Closing) → (state_of self.old).phase ≡ Phase.Ended closing → self.new ≡ self.old }
        ensures pending { LeavesPending (given_at (Input.Whole packet) now) (G.pending (gate_of self.old)) (G.pending (gate_of self.new))
            ((G.mark (gate_of self.new) ≡ G.mark (gate_of self.old)) × (step_of (state_of self.new).phase ≡ Step.End)) }
        ensures certain { (p : Publish) (o : Open) → packet ≡ Packet.Publish p → (state_of self.old).phase ≡ Phase.Open o
            → NoSerialUsed (G.stands (gate_of self.old)) (G.pending (gate_of self.old)) (G.mark (gate_of self.old))
            (G.mark (gate_of self.new))
            → (state_of self.new).phase ≢ Phase.Ended (Closing.ByServer (reason_value ReasonCode.QuotaExceeded)) }
    {
        self.on_input(Incoming::new(Input::Whole(packet), now))
    }

    /// Handles a fault instead of a packet, once the reply that was due is taken. The session ends: with a DISCONNECT and its
    /// Reason Code (4.13), or, before an accepted CONNECT, with a CONNACK of 0x84 for another protocol version (3.1.2.2) and
    /// else without a reply. A session that has ended stays as it is.
    pub fn on_fault(&mut self, fault: PacketFault) -> Step
        requires { due_of self.old ≡ None }
        ensures row { (now : ℕ) → GrowsAnswering G.stands G.mark (gate_of self.old) (gate_of self.new) (λ seen answered list.
            Answers (given_at (Input.Broken fault) now) (session_at G.mark self.old seen) answered (due_of self.new)
            (session_at G.mark self.new list)) }
        ensures step { result ≡ step_of (state_of self.new).phase }
        ensures over { (closing : Closing) → (state_of self.old).phase ≡ Phase.Ended closing → self.new ≡ self.old }
        ensures pending { G.pending (gate_of self.new) ≡ G.pending (gate_of self.old) }
    {
        match &self.phase {
            Phase::Before => self.first_fault(fault),
            Phase::Open(open) => {
                let maximum = open.window.packet_maximum();
                self.conclude(Effect::Closes(fault_reason(fault)), maximum);
            }
            Phase::Ended(_) => {}
        }
        self.step()
    }

    /// Handles a packet, or a fault in its place, as `on_packet` or `on_fault` does, with its change, if that was made before. If changes
    /// were expected and this has the first of them, the rest is expected then, or nothing is, or nothing was sent and the session has
    /// ended.
    pub fn on_input(&mut self, incoming: Incoming) -> Step
        requires due { due_of self.old ≡ None }
        ensures row { GrowsAnswering G.stands G.mark (gate_of self.old) (gate_of self.new) (λ seen answered list.
            Answers incoming (session_at G.mark self.old seen) answered (due_of self.new) (session_at G.mark self.new list)) }
        ensures step { result ≡ step_of (state_of self.new).phase }
        ensures over { (closing : Closing) → (state_of self.old).phase ≡ Phase.Ended closing → self.new ≡ self.old }
        ensures pending { LeavesPending incoming (G.pending (gate_of self.old)) (G.pending (gate_of self.new))
            ((G.mark (gate_of self.new) ≡ G.mark (gate_of self.old)) × (step_of (state_of self.new).phase ≡ Step.End)) }
        ensures certain { (p : Publish) (o : Open) → incoming.input ≡ Input.Whole (Packet.Publish p)
            → (state_of self.old).phase ≡ Phase.Open o
            → NoSerialUsed (G.stands (gate_of self.old)) (G.pending (gate_of self.old)) (G.mark (gate_of self.old))
            (G.mark (gate_of self.new))
            → (state_of self.new).phase ≢ Phase.Ended (Closing.ByServer (reason_value ReasonCode.QuotaExceeded)) }
    {
        match &mut self.phase {
            Phase::Before => self.first_input(incoming),
            Phase::Open(open) => {
                let maximum = open.window.packet_maximum();
                let effect = open.handle(self.alloc, &mut self.gate, incoming);
                self.conclude(effect, maximum);
            }
            Phase::Ended(_) => {}
        }
        self.step()
    }

    /// The next reply. `now` is the time of the input, in seconds. None if no reply is left. Each call that gives a reply
    /// leaves fewer.
    pub fn next_reply(&mut self, now: u64) -> Option<Reply>
        ensures given { IsGiven now (due_of self.old) (state_of self.old) result
            (due_of self.new) (state_of self.new) }
        ensures gate { gate_of self.new ≡ gate_of self.old }
        ensures fewer { IfSome result (λ _.
            replies_left (due_of self.new) (state_of self.new) < replies_left (due_of self.old) (state_of self.old)) }
    {
        match self.due.take() {
            Some(reply) => Some(reply),
            None => next_waiting(&mut self.phase, now),
        }
    }

    /// How many changes the gate takes at once ([`Gate::most_expected`]). 0 if the session is not open.
    pub fn most_expected(&self) -> usize
        ensures { result ≤ G.most }
    {
        if self.is_open() {
            return self.gate.most_expected();
        }
        0
    }

    /// Whether the gate is better told of further changes while some are pending ([`Gate::runs_ahead`]).
    pub fn runs_ahead(&self) -> bool {
        self.gate.runs_ahead()
    }

    /// How many changes were expected and are not submitted yet ([`Gate::pending_count`]).
    pub fn pending_count(&self) -> usize
        ensures { result ≡ length (G.pending (gate_of self.now)) }
    {
        self.gate.pending_count()
    }

    /// Whether some change was expected and is not submitted yet ([`Gate::has_pending`]).
    pub fn has_pending(&self) -> bool
        ensures { MatchBool result (G.pending (gate_of self.now) ≢ []) (G.pending (gate_of self.now) ≡ []) }
    {
        self.gate.has_pending()
    }

    /// Tells the gate which changes come next behind those that are pending ([`Gate::expect`]), if the session is open: those of the
    /// inputs that it will be given, in their order. None is a Sweep.
    pub fn expect(&mut self, changes: Vec<Operation>)
        requires { All (λ operation. is_sweep operation ≡ false) changes.items }
        ensures state { state_of self.new ≡ state_of self.old }
        ensures due { due_of self.new ≡ due_of self.old }
        ensures list { Grows (G.stands (gate_of self.old)) (G.stands (gate_of self.new)) (λ seen list. list ≡ seen) }
        ensures mark { G.mark (gate_of self.new) ≡ G.mark (gate_of self.old) }
        ensures pending { (G.pending (gate_of self.new) ≡ G.pending (gate_of self.old) ++ changes.items)
            ⊎ (G.pending (gate_of self.new) ≡ G.pending (gate_of self.old)) }
    {
        if self.is_open() {
            self.gate.expect(changes);
        }
    }

    /// Whether it accepted a CONNECT and has not ended.
    pub fn is_open(&self) -> bool
        ensures { result ≡ is_open (state_of self.now).phase }
    {
        match self.phase {
            Phase::Open(_) => true,
            _ => false,
        }
    }

    /// How it ended, if it has.
    pub fn closing(&self) -> Option<Closing>
        ensures { result ≡ closing_of (state_of self.now).phase }
    {
        match self.phase {
            Phase::Ended(closing) => Some(closing),
            _ => None,
        }
    }

    /// The gate, which the next connection at its place takes.
    pub fn into_gate(self) -> G
        ensures { result ≡ gate_of self }
    {
        let Session {
            alloc: _,
            gate,
            phase: _,
            assigned: _,
            due: _,
        } = self;
        gate
    }

    fn step(&self) -> Step
        ensures { result ≡ step_of (state_of self.now).phase }
    {
        match self.phase {
            Phase::Ended(_) => Step::End,
            _ => Step::Go,
        }
    }

    /// What an effect leaves due and open, for a client that takes packets of at most `maximum` bytes.
    fn conclude(&mut self, effect: Effect, maximum: u32)
        requires { self.old.due ≡ None }
        ensures due { self.new.due ≡ due_for maximum effect }
        ensures state { (o : Open) → self.old.phase ≡ Phase.Open o → state_of self.new ≡ state_after effect (state_of self.old) o }
        ensures gate { self.new.gate ≡ self.old.gate }
    {
        match effect {
            Effect::Replies(None) => {}
            Effect::Replies(Some(reply)) => self.due = within(maximum, reply),
            Effect::Closes(code) => {
                let code = code.code();
                self.due = within(maximum, Reply::Disconnect(code));
                self.end(Closing::ByServer(code));
            }
            Effect::Leaves => self.end(Closing::ByClient),
        }
    }

    fn end(&mut self, closing: Closing)
        ensures state { state_of self.new ≡ ended (state_of self.old) closing }
        ensures due { self.new.due ≡ self.old.due }
        ensures gate { self.new.gate ≡ self.old.gate }
    {
        self.phase = Phase::Ended(closing);
    }
}

/// The next message that waits, as a reply. Only an open session has any.
fn next_waiting(phase: &mut Phase, now: u64) -> Option<Reply>
    ensures given { IsReplayed now phase.old result phase.new }
    ensures fewer { IfSome result (λ _. length (waiting_of phase.new) < length (waiting_of phase.old)) }
{
    match phase {
        Phase::Open(open) => match open.window.next(now) {
            Some(publish) => Some(publish.reply()),
            None => None,
        },
        _ => None,
    }
}

/// The reply, if the client takes so long a packet (3.1.2.11.4).
fn within(maximum: u32, reply: Reply) -> Option<Reply>
    ensures { result ≡ within maximum reply }
{
    if encoded_len(&reply) <= maximum as usize {
        return Some(reply);
    }
    None
}
