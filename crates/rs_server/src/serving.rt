//! A connection while it is served: packets are read, and the session's replies are written.

ghost use Rattle.std.specs.Prelude.{◌≡◌, ◌≢◌, ◌<◌, ◌-◌, ◌^◌, ◌++◌, [], ℕ, Option, List, None, IfErr, IfOk, IfSome, MatchBool};
ghost use Rattle.std.specs.Io.KnownBytes.{Consumes, IsAtEnd};
ghost use Rattle.rs_message.specs.declared.entry.Entry.{Entry};
ghost use Rattle.rs_message.specs.declared.entry.Operation.{Operation};
ghost use Rattle.rs_session.specs.Pending.{LeavesPending};
ghost use Rattle.rs_session.specs.Points.{Point};
ghost use Rattle.rs_session.specs.State.{session_at, state_of, due_of, gate_of, closing_of, step_of, State};
ghost use Rattle.rs_server.specs.Clock.{TellsInOrder};
ghost use Rattle.rs_server.specs.Counts.{inner_of, failures_of};
ghost use Rattle.rs_server.specs.Writing.{IsWriteCause, Writes};
ghost use Rattle.rs_server.specs.Conversation.{AppendsReplies, IsEnd, IsReadCause, MakesExchange, assigned_of, gate_view, start, served_as};
ghost use Rattle.rs_server.specs.Serving.{CausesEnd, GoesOn, HandlesAll, IsBeingHandled, IsRead, IsUnderway, IsWriteEnd, Reads, ReadsSome, Waits, session_of, transfer_from};

use crate::assigned::assigned_client;
use crate::clock::Clock;
use crate::connection::{ConnectionId, Served};
use crate::counted::Counted;
use crate::plan::plan;
use crate::read_size::{MIN_READ, ReadSize};
use crate::writing::{ServeFault, write_replies};
use bytes::BytesMut;
use rs_packet::needed_len;
use rs_session::{Closing, Gate, Incoming, Session, Step};
use std::alloc::Global;
use std::collections::VecDeque;
use std::io::{Read, Write};
use std::sync::Wait;

/// How many changes are announced at least, if what was read is handled at once and none are pending: one alone goes as fast by its
/// `submit`.
const LEAST_TOGETHER: usize = 2;

/// A connection while it is served: its session, and what was read of a packet that is not whole yet.
///
/// [`serve`](crate::serve) has a thread that waits for each read. Whoever serves several connections on one thread keeps such a value for
/// each, [`read`](Serving::read)s those that have something to read, and then [`handle`](Serving::handle)s them. `read` announces the
/// changes of a connection, which its gate may send to the store at once, and `handle` waits for the replies to these. So the store works
/// on the changes of those that were read while others are read.
#[derive(Drop)]
pub struct Serving<G> {
    session: Session<G>,
    buffered: BytesMut,
    size: ReadSize,
    planned: VecDeque<Incoming>,
    handled: u64,
}

impl<G: Gate> Serving<G> {
    /// A connection of which nothing was read. A client that gives no identifier is assigned one that names the place and the number of
    /// `id` (3.2.2.3.7).
    ///
    /// # Errors
    ///
    /// The gate, if memory is refused.
    pub fn new(alloc: Global, gate: G, id: ConnectionId) -> Result<Serving<G>, G>
        ensures waits { IfOk result Waits }
        ensures underway { IfOk result (λ serving. (seen : List Entry) (unread written : Option (List ℕ)) (told : Option (ℕ → ℕ))
            → G.stands gate seen
            → IsUnderway (start (assigned_of id.place id.number) seen (G.mark gate)) (G.pending gate) G.most
            (gate_view G.stands G.mark G.pending) (transfer_from unread unread written written told told) serving) }
        ensures refused { IfErr result (λ same. same ≡ gate) }
    {
        let Ok(assigned) = assigned_client(alloc, id) else {
            return Err(gate);
        };
        Ok(Serving {
            session: Session::new(alloc, gate, assigned),
            buffered: BytesMut::new(alloc),
            size: ReadSize::new(),
            planned: VecDeque::new(alloc),
            handled: 0,
        })
    }

    /// The gate, and how many inputs were handled: packets, and a fault in place of one.
    pub fn into_parts(self) -> (G, u64)
        ensures { result.0 ≡ gate_of (session_of self) }
    {
        let Serving {
            session,
            buffered: _buffered,
            size: _,
            planned: _planned,
            handled,
        } = self;
        (session.into_gate(), handled)
    }

    /// Reads once, handles all packets that are whole then, and writes and flushes all replies. How the connection ended; `None` if it goes
    /// on, and then the next packet is not whole yet.
    ///
    /// # Errors
    ///
    /// As [`serve`](crate::serve).
    pub(crate) fn go_on<H: Wait, R: Read, W: Write, C: Clock>(
        &mut self,
        rt: &H,
        alloc: Global,
        reader: &mut Counted<R>,
        writer: &mut Counted<W>,
        clock: &mut C,
    ) -> Option<Result<Served, ServeFault>>
        requires reader_can_rise { failures_of reader.old < 2 ^ 64 - 1 }
        requires writer_can_rise { failures_of writer.old < 2 ^ 64 - 1 }
        requires waits { Waits self.old }
        ensures underway { (from : Point State) (first : List Operation) (unread written : Option (List ℕ)) (told : Option (ℕ → ℕ))
            → IsUnderway from first G.most (gate_view G.stands G.mark G.pending)
            (transfer_from unread (R.remaining (inner_of reader.old)) written (W.contents (inner_of writer.old)) told (C.moments clock.old))
            self.old
            → GoesOn result from first G.most (gate_view G.stands G.mark G.pending)
            (transfer_from unread (R.remaining (inner_of reader.new)) written (W.contents (inner_of writer.new)) told (C.moments clock.new))
            self.new }
        ensures some { result ≡ None → ReadsSome (R.remaining (inner_of reader.old)) (R.remaining (inner_of reader.new)) }
        ensures waits { result ≡ None → Waits self.new }
        ensures cause { CausesEnd result (failures_of reader.old) (failures_of reader.new) (failures_of writer.old) (failures_of writer.new) }
    {
        match self.read_with(alloc, reader, clock, LEAST_TOGETHER) {
            None => self.handle(rt, alloc, writer, clock),
            Some(end) => Some(end),
        }
    }

    /// Whether some change was announced and is not submitted yet.
    pub fn has_pending(&self) -> bool
        ensures { MatchBool result (G.pending (gate_of self.now.session) ≢ []) (G.pending (gate_of self.now.session) ≡ []) }
    {
        self.session.has_pending()
    }

    /// Reads once, and plans what is whole then: its changes are announced to the gate, also if there is only one. How the connection
    /// ended; `None` if it goes on: then some bytes were read, [`handle`](Serving::handle) follows, and nothing is read before.
    ///
    /// # Errors
    ///
    /// As [`serve`](crate::serve), but for those of the writer.
    pub fn read<R: Read, C: Clock>(
        &mut self,
        alloc: Global,
        reader: &mut Counted<R>,
        clock: &mut C,
    ) -> Option<Result<Served, ServeFault>>
        requires reader_can_rise { failures_of reader.old < 2 ^ 64 - 1 }
        requires waits { Waits self.old }
        ensures read { (from : Point State) (first : List Operation) (unread written more : Option (List ℕ)) (told : Option (ℕ → ℕ))
            → IsUnderway from first G.most (gate_view G.stands G.mark G.pending)
            (transfer_from unread (R.remaining (inner_of reader.old)) written more told (C.moments clock.old)) self.old
            → Reads result from first G.most (gate_view G.stands G.mark G.pending)
            (transfer_from unread (R.remaining (inner_of reader.new)) written more told (C.moments clock.new)) self.new }
        ensures some { result ≡ None → ReadsSome (R.remaining (inner_of reader.old)) (R.remaining (inner_of reader.new)) }
        ensures waits { Waits self.new }
        ensures cause { (failures : ℕ) → CausesEnd result (failures_of reader.old) (failures_of reader.new) failures failures }
    {
        self.read_with(alloc, reader, clock, 1)
    }

    /// Handles all packets that are whole, and writes and flushes all replies. How the connection ended; `None` if it goes on, and then the
    /// next packet is not whole yet.
    ///
    /// # Errors
    ///
    /// As [`serve`](crate::serve), but for those of the reader.
    pub fn handle<H: Wait, W: Write, C: Clock>(
        &mut self,
        rt: &H,
        alloc: Global,
        writer: &mut Counted<W>,
        clock: &mut C,
    ) -> Option<Result<Served, ServeFault>>
        requires writer_can_rise { failures_of writer.old < 2 ^ 64 - 1 }
        requires waits { Waits self.old }
        ensures handled { (from : Point State) (first : List Operation) (unread rest written : Option (List ℕ)) (told : Option (ℕ → ℕ))
            → IsRead from first G.most (gate_view G.stands G.mark G.pending)
            (transfer_from unread rest written (W.contents (inner_of writer.old)) told (C.moments clock.old)) self.old
            → GoesOn result from first G.most (gate_view G.stands G.mark G.pending)
            (transfer_from unread rest written (W.contents (inner_of writer.new)) told (C.moments clock.new)) self.new }
        ensures waits { result ≡ None → Waits self.new }
        ensures cause { (failures : ℕ) → CausesEnd result failures failures (failures_of writer.old) (failures_of writer.new) }
    {
        let end = handle_all(
            rt,
            alloc,
            writer,
            &mut self.session,
            &mut self.buffered,
            &mut self.planned,
            &mut self.handled,
            clock,
        );
        give_back(alloc, &mut self.buffered, &mut self.planned);
        end
    }

    /// Reads once, and plans what is whole then. Changes are announced if there are `least` of them.
    fn read_with<R: Read, C: Clock>(
        &mut self,
        alloc: Global,
        reader: &mut Counted<R>,
        clock: &mut C,
        least: usize,
    ) -> Option<Result<Served, ServeFault>>
        requires reader_can_rise { failures_of reader.old < 2 ^ 64 - 1 }
        requires waits { Waits self.old }
        ensures read { (from : Point State) (first : List Operation) (unread written more : Option (List ℕ)) (told : Option (ℕ → ℕ))
            → IsUnderway from first G.most (gate_view G.stands G.mark G.pending)
            (transfer_from unread (R.remaining (inner_of reader.old)) written more told (C.moments clock.old)) self.old
            → Reads result from first G.most (gate_view G.stands G.mark G.pending)
            (transfer_from unread (R.remaining (inner_of reader.new)) written more told (C.moments clock.new)) self.new }
        ensures some { result ≡ None → ReadsSome (R.remaining (inner_of reader.old)) (R.remaining (inner_of reader.new)) }
        ensures waits { Waits self.new }
        ensures cause { (failures : ℕ) → CausesEnd result (failures_of reader.old) (failures_of reader.new) failures failures }
    {
        match read_more(reader, &mut self.buffered, &mut self.size) {
            Ok(None) => {}
            Ok(Some(served)) => return Some(Ok(served)),
            Err(fault) => return Some(Err(fault)),
        }
        // A gate that takes no changes is told none, and then nothing is decoded before it is handled.
        if self.session.most_expected() == 0 {
            return None;
        }
        match plan(
            alloc,
            &mut self.session,
            &mut self.buffered,
            &mut self.planned,
            clock,
            least,
        ) {
            Ok(()) => None,
            Err(fault) => Some(Err(fault)),
        }
    }
}

/// Handles all packets that are whole, counts them, and writes all replies. How the connection ended; `None` if it goes on, and then none
/// is whole.
fn handle_all<H: Wait, W: Write, G: Gate, C: Clock>(
    rt: &H,
    alloc: Global,
    writer: &mut Counted<W>,
    session: &mut Session<G>,
    buffered: &mut BytesMut,
    planned: &mut VecDeque<Incoming>,
    handled: &mut u64,
    clock: &mut C,
) -> Option<Result<Served, ServeFault>>
    requires writer_can_rise { failures_of writer.old < 2 ^ 64 - 1 }
    requires none_due { due_of session.old ≡ None }
    requires goes_on { closing_of (state_of session.old).phase ≡ None }

    // Extends every conversation that led to the state before.
    ensures handled { (from : Point State) (first : List Operation) (unread rest written : Option (List ℕ)) (told : Option (ℕ → ℕ))
        → IsBeingHandled from first G.most (gate_view G.stands G.mark G.pending (gate_of session.old)) (state_of session.old)
        (transfer_from unread rest written (W.contents (inner_of writer.old)) told (C.moments clock.old))
        planned.old.items buffered.old.items
        → HandlesAll result from first G.most (gate_view G.stands G.mark G.pending (gate_of session.new)) (state_of session.new)
        (transfer_from unread rest written (W.contents (inner_of writer.new)) told (C.moments clock.new))
        planned.new.items buffered.new.items }
    ensures due { due_of session.new ≡ None }
    ensures goes_on { result ≡ None → closing_of (state_of session.new).phase ≡ None }
    ensures cause { IsWriteEnd result (failures_of writer.old) (failures_of writer.new) }
{
    for _ in rt.forever() {
        if let Err(fault) = plan(alloc, session, buffered, planned, clock, LEAST_TOGETHER) {
            return Some(Err(fault));
        }
        let Some(next) = planned.pop_front() else {
            return None;
        };
        *handled = handled.saturating_add(1);
        if let Err(fault) = make_exchange(alloc, session, writer, next) {
            return Some(Err(fault));
        }
        if let Some(served) = served_as(session.closing()) {
            return Some(Ok(served));
        }
    }
    unreachable!()
}

/// Gives back the memory of what was read and of what was planned, if nothing is left of it: a client that is waited for keeps neither.
fn give_back(alloc: Global, buffered: &mut BytesMut, planned: &mut VecDeque<Incoming>)
    ensures buffered { buffered.new.items ≡ buffered.old.items }
    ensures planned { planned.new.items ≡ planned.old.items }
{
    if buffered.is_empty() {
        *buffered = BytesMut::new(alloc);
    }
    if planned.is_empty() {
        *planned = VecDeque::new(alloc);
    }
}

/// Makes room behind what is buffered for so many bytes, or, if that is refused, for the few that a small read takes. For how many there
/// is room; `None` if there is none.
fn make_room(buffered: &mut BytesMut, wanted: usize) -> Option<usize>
    requires { 0 < wanted }
    ensures same { buffered.new.items ≡ buffered.old.items }
    ensures room { IfSome result (λ _. 0 < buffered.new.spare) }
{
    if buffered.reserve(wanted).is_ok() {
        return Some(wanted);
    }
    let few = wanted.min(MIN_READ);
    match buffered.reserve(few) {
        Ok(()) => Some(few),
        Err(_) => None,
    }
}

/// Reads once and appends to what is buffered.
fn read_more<R: Read>(
    reader: &mut Counted<R>,
    buffered: &mut BytesMut,
    size: &mut ReadSize,
) -> Result<Option<Served>, ServeFault>
    requires { failures_of reader.old < 2 ^ 64 - 1 }
    ensures bytes { (more : List ℕ) × (buffered.new.items ≡ buffered.old.items ++ more)
        × Consumes (R.remaining (inner_of reader.old)) (R.remaining (inner_of reader.new)) more }
    ensures end { IsEnd result buffered.old.items buffered.new.items (IsAtEnd (R.remaining (inner_of reader.new))) }
    ensures cause { IsReadCause result (failures_of reader.old) (failures_of reader.new) }
{
    let len = buffered.len();
    let wanted = size.bytes_to_ask(len, needed_len(buffered.as_slice()));
    let Some(asked) = make_room(buffered, wanted) else {
        // Refused: both tries of `make_room` were.
        return Err(ServeFault::NoMemory);
    };
    let Ok(n) = reader.read_into(buffered) else {
        return Err(ServeFault::Read);
    };
    size.adapt(len, asked, n);
    if n > 0 {
        return Ok(None);
    }
    if buffered.is_empty() {
        return Ok(Some(Served::EndOfInput));
    }
    Ok(Some(Served::CutInput))
}

/// One exchange of the session: hands over an input, and writes all replies to it.
fn make_exchange<G: Gate, W: Write>(
    alloc: Global,
    session: &mut Session<G>,
    writer: &mut Counted<W>,
    incoming: Incoming,
) -> Result<(), ServeFault>
    requires writer_can_rise { failures_of writer.old < 2 ^ 64 - 1 }
    requires none_due { due_of session.old ≡ None }
    requires goes_on { closing_of (state_of session.old).phase ≡ None }
    ensures exchange { (seen : List Entry) → G.stands (gate_of session.old) seen
        → MakesExchange (session_at G.mark session.old seen) incoming
        (gate_view G.stands G.mark G.pending (gate_of session.new)) (state_of session.new)
        (Writes result (W.contents (inner_of writer.old)) (W.contents (inner_of writer.new))) }
    ensures pending { LeavesPending incoming (G.pending (gate_of session.old)) (G.pending (gate_of session.new))
        ((G.mark (gate_of session.new) ≡ G.mark (gate_of session.old)) × (step_of (state_of session.new).phase ≡ Step.End)) }
    ensures due { due_of session.new ≡ None }
    ensures cause { IsWriteCause result (failures_of writer.old) (failures_of writer.new) }
{
    let now = incoming.time();
    // Whether the session goes on is asked after its last reply is written.
    let _step = session.on_input(incoming);
    write_replies(alloc, session, writer, now)
}

/// How the connection of a session with this closing ended.
fn served_as(closing: Option<Closing>) -> Option<Served>
    ensures { result ≡ served_as closing }
{
    match closing? {
        Closing::ByClient => Some(Served::ClientClosed),
        Closing::ByServer(code) => Some(Served::ServerClosed(code)),
        Closing::Dropped => Some(Served::Dropped),
    }
}
