//! A whole store: its writer on a thread of its own, and its clients, each with a line of its own, from the first connection to the
//! settlement.

ghost use Rattle.std.specs.Prelude.{◌≡◌, ◌≤◌, IfOk, IfSome, [], All, List, length, map, vec_capacity};
ghost use Rattle.rs_message.specs.declared.entry.Entry.{Entry};
ghost use Rattle.rs_places.specs.Gates.{handed_on};
ghost use Rattle.rs_places.specs.Store.{IsRunTo, IsStoreRun, gates_of, new_gates};
ghost use Rattle.rs_places.specs.Writing.{HasWritten};
ghost use Rattle.rs_version.specs.First.{AreOwn, first_of};
ghost use Rattle.rs_version.specs.Writer.{kept_of};

use crate::seats::Seats;
use crate::settling::settle_run;
use crate::shared_gate::SharedGate;
use rs_intake::{BlankQueue, Cause, Ended, Queue, run_writer};
use rs_intake_line::{Intake, LineEnd, LineName, SeatLine};
use rs_message::Found;
use rs_places_pool::{Runner, Watch};
use rs_places_steps::{FreeGate, FreeTurn, PlacesEnd, StoreFault, Turn, run_places};
use rs_version::{Blank, Seat, StoreWriter, Told};
use std::alloc::{AllocError, Global};
use std::marker::{Brand, PhantomData};
use std::snapshot::Snapshot;
use std::sync::{Arc, Wait};
use std::thread::{Promise, PromisedHandle, Threads, spawn_with};

/// What a run of a store leaves.
#[derive(Debug, Drop)]
pub struct StoreEnd<T> {
    /// The turns, in their order.
    pub turns: Vec<T>,
    /// How many threads there were for the clients, or how many lanes that had threads.
    pub threads: usize,
    /// How many entries were published.
    pub version: u64,
    /// How many changes the clients sent to the writer, refused ones too. None if not all are known to be taken.
    pub changes: Option<u64>,
    /// Why the writer ended.
    pub cause: Cause,
}

/// A gate for each line and its seat.
fn own_gates<N: LineName, H: Wait + Copy>(
    rt: H,
    alloc: Global,
    intake: Arc<Intake<N>>,
    seats: Vec<Seat<N>>,
    lines: Vec<SeatLine<N>>,
) -> Result<Vec<FreeGate<SharedGate<N, H>>>, AllocError>
    ensures { IfOk result (λ gates. gates.items ≡ gates_of seats.items lines.items) }
{
    let mut gates = Vec::new(alloc);
    for (seat, line) in seats.into_iter().zip(lines) {
        let intake = Arc::try_clone(&intake)?;
        let gate = SharedGate::new(rt, intake, seat, line);
        let Ok(()) = gates.push(FreeGate::new(gate)) else {
            return Err(AllocError);
        };
    }
    Ok(gates)
}

/// A gate for each line. They share the seats, and know the token's list. The first looks first at the first seat, and so on.
fn sharing_gates<N: LineName, H: Wait + Copy>(
    rt: H,
    alloc: Global,
    intake: Arc<Intake<N>>,
    seats: Arc<Seats<N>>,
    known: Told<N>,
    lines: Vec<SeatLine<N>>,
) -> Result<Vec<FreeGate<SharedGate<N, H>>>, AllocError>
    ensures { IfOk result (λ gates. gates.items ≡ map (λ line. handed_on known line) lines.items) }
{
    let mut gates = Vec::new(alloc);
    let mut index = 0usize;
    for line in lines {
        let intake = Arc::try_clone(&intake)?;
        let seats = Arc::try_clone(&seats)?;
        let gate = SharedGate::sharing(rt, intake, seats, index, known.again(), line);
        let Ok(()) = gates.push(FreeGate::new(gate)) else {
            return Err(AllocError);
        };
        index = index.saturating_add(1);
    }
    Ok(gates)
}

/// A gate for each line. If there are as many seats, each gate has one of its own. Otherwise they share the seats.
///
/// # Errors
///
/// [`AllocError`] if memory is refused, or if there are lines and no seat.
pub fn open_gates<N: LineName, H: Wait + Copy>(
    rt: H,
    alloc: Global,
    intake: Intake<N>,
    seats: Vec<Seat<N>>,
    lines: Vec<SeatLine<N>>,
) -> Result<Vec<FreeGate<SharedGate<N, H>>>, AllocError>
    ensures own { IfOk result (λ gates. length seats.items ≡ length lines.items → gates.items ≡ gates_of seats.items lines.items) }
    ensures same { IfOk result (λ gates. (known : List Entry) → All (λ seat. seat ≡ known) seats.items
        → gates.items ≡ map (λ line. handed_on known line) lines.items) }
{
    let intake = Arc::new(alloc, intake).map_err(|_| AllocError)?;
    if seats.len() == lines.len() {
        return own_gates(rt, alloc, intake, seats, lines);
    }
    let Some(first) = seats.first() else {
        // Never: a store has a seat at least.
        return Err(AllocError);
    };
    let known = first.told();
    let seats = Arc::new(alloc, Seats::new(alloc, seats)?).map_err(|_| AllocError)?;
    sharing_gates(rt, alloc, intake, seats, known, lines)
}

/// What the writer's thread promises (`HasWritten`): what it did since it began.
#[derive(Drop)]
struct PutsJobs<N: LineName, S: StoreWriter<N>> {
    // The writer when it began.
    began: Snapshot<S>,
    name: PhantomData<N>,
}

impl<N: LineName, S: StoreWriter<N>> Promise<Ended<N, S>> for PutsJobs<N, S> {
    ghost use Rattle.rs_places.specs.Writing.{HasWritten};
    ghost use Rattle.rs_version.specs.Writer.{kept_of};

    ghost kept_by = { λ promise ended. HasWritten N.limit N.places S.most_held (kept_of (S.written promise.began.value)) (S.written ended.writer)
        (S.ready ended.writer) ended.received ended.ways.items ended.cause };
}

/// Runs the writer's loop, and says what it promises as one fact.
fn put_jobs<N: LineName, S: StoreWriter<N>, W: Wait>(
    rt: &W,
    queue: Queue<N>,
    writer: S,
) -> Ended<N, S>
    requires own { AreOwn (kept_of (S.written writer)) }
    requires ready { S.ready writer ≡ [] }
    ensures { HasWritten N.limit N.places S.most_held (kept_of (S.written writer)) (S.written result.writer) (S.ready result.writer)
        result.received result.ways.items result.cause }
{
    run_writer(rt, queue, writer)
}

/// The writer's thread.
type WriterThread<N, S> = PromisedHandle<Ended<N, S>, PutsJobs<N, S>>;

/// Starts the writer's thread, which runs [`run_writer`]. None if it cannot be started: the writer and the queue are dropped then.
fn start_writer<
    N: LineName + Send + Sync + 'static,
    S: StoreWriter<N> + Send + 'static,
    H: Threads + Wait + Copy + Send + Sync + 'static,
>(rt: H, queue: Queue<N>, writer: S) -> Option<WriterThread<N, S>>
    requires own { AreOwn (kept_of (S.written writer)) }
    requires ready { S.ready writer ≡ [] }
    ensures { IfSome result (λ handle. handle.promise.began.value ≡ writer) }
{
    let began = Snapshot::of(&writer);
    spawn_with(
        &rt,
        PutsJobs {
            began,
            name: PhantomData,
        },
        move ||
            requires own { AreOwn (kept_of (S.written writer)) }
            requires ready { S.ready writer ≡ [] }
            ensures { HasWritten N.limit N.places S.most_held (kept_of (S.written writer)) (S.written result.writer) (S.ready result.writer)
                result.received result.ways.items result.cause }
        { put_jobs(&rt, queue, writer) },
    )
    .ok()
}

/// Runs a store that begins with these messages, one for each topic, of which there may be none: serves a turn for each client, as
/// [`run_places`] does with this runner, with the writer on a thread of its own, and settles. Before any line is used, the writer puts a Set
/// of each message ([`Blank::open_with`]), and each client knows it. Each client has a line of its own, whose number is its place: the first turn goes with place 1, and so on. The
/// clients read by the seats of `blank`. If there are as many as clients, each has one, and otherwise they share them.
///
/// The contract is one statement about the run, `IsStoreRun`: there is one legal history, which came of these Sets by the outcomes of the
/// entries that the writer took, all from these places, and published, but for its last entry, if that is held; all lists that any
/// connection of any client was answered from are prefixes of it; each retained publication that any client was told is stored stands in it
/// once; each client served all connections of its turn, over their own bytes and at their own times; what a client sent are their retained
/// publications, in order; if the writer took the End of each line, all of it was taken; and if the changes are given, it was, once. It says
/// the same whoever serves the clients, and however many seats there are.
///
/// # Errors
///
/// [`StoreFault`]: out of memory, also if the messages count more bytes than they may; more messages than topics may hold one; or no thread
/// can be started. Then no connection was served, but no clause says so.
pub fn run_store<
    T: Turn + Send + Drop + 'static,
    H: Threads + Wait + Copy + Send + Sync + 'static,
    W: Watch<T::In> + Send + Sync + Drop + 'static,
>(
    rt: H,
    alloc: Global,
    blank: Blank,
    given: Vec<Found>,
    queue: BlankQueue,
    turns: Vec<FreeTurn<T>>,
    runner: Runner<W>,
) -> Result<StoreEnd<T>, StoreFault>
where
    T::In: Send + 'static,
    T::Out: Send + 'static,
    T::Time: Send + 'static,
    requires { queue.places ≡ length turns.items }
    ensures { IfOk result (λ end. IsStoreRun 1 blank.limit queue.places (first_of given.items) (map T.connections turns.items) (map T.connections end.turns.items)
        end.version end.changes end.cause) }
{
    run_named::<Brand, T, H, W>(rt, alloc, blank, given, queue, turns, runner)
}

/// Space for what a run leaves, so that nothing is lost at its end.
#[derive(Drop)]
struct EndSpace<N: LineName, T> {
    lines: Vec<LineEnd<N>>,
    turns: Vec<T>,
}

/// What the writer and the clients of a store work with.
#[derive(Drop)]
struct Opened<N: LineName, T, H: Wait + Copy> {
    queue: Queue<N>,
    gates: Vec<FreeGate<SharedGate<N, H>>>,
    space: EndSpace<N, T>,
}

/// Opens the queue, and a gate for each of its lines.
fn open_lines<N: LineName, T: Drop, H: Wait + Copy>(
    rt: H,
    alloc: Global,
    seats: Vec<Seat<N>>,
    queue: BlankQueue,
) -> Result<Opened<N, T, H>, StoreFault>
    requires { (queue.name ≡ N.queue) × (queue.places ≡ N.places) }
    ensures gates { IfOk result (λ o. (known : List Entry) → All (λ seat. seat ≡ known) seats.items
        → o.gates.items ≡ new_gates known N.places) }
    ensures empty { IfOk result (λ o. (o.space.lines.items ≡ []) × (o.space.turns.items ≡ [])) }
    ensures capacity { IfOk result (λ o. (length o.gates.items ≤ vec_capacity o.space.lines)
        × (length o.gates.items ≤ vec_capacity o.space.turns)) }
{
    let (intake, lines, queue) = queue.open::<N>()?;
    let gates = open_gates(rt, alloc, intake, seats, lines)?;
    let lines = Vec::with_capacity(alloc, gates.len())?;
    let turns = Vec::with_capacity(alloc, gates.len())?;
    Ok(Opened {
        queue,
        gates,
        space: EndSpace { lines, turns },
    })
}

/// What the clients of a store work with once its writer runs.
struct Started<N: LineName, S: StoreWriter<N>, T, H: Wait + Copy> {
    writing: WriterThread<N, S>,
    gates: Vec<FreeGate<SharedGate<N, H>>>,
    space: EndSpace<N, T>,
}

/// Opens queue and gates, and starts the writer's thread.
fn start_run<
    N: LineName + Send + Sync + 'static,
    S: StoreWriter<N> + Send + 'static,
    T: Drop,
    H: Threads + Wait + Copy + Send + Sync + 'static,
>(
    rt: H,
    alloc: Global,
    writer: S,
    seats: Vec<Seat<N>>,
    queue: BlankQueue,
) -> Result<Started<N, S, T, H>, StoreFault>
    requires own { AreOwn (kept_of (S.written writer)) }
    requires ready { S.ready writer ≡ [] }
    requires queue { (queue.name ≡ N.queue) × (queue.places ≡ N.places) }
    ensures began { IfOk result (λ s. s.writing.promise.began.value ≡ writer) }
    ensures gates { IfOk result (λ s. (known : List Entry) → All (λ seat. seat ≡ known) seats.items
        → s.gates.items ≡ new_gates known N.places) }
    ensures empty { IfOk result (λ s. (s.space.lines.items ≡ []) × (s.space.turns.items ≡ [])) }
    ensures capacity { IfOk result (λ s. (length s.gates.items ≤ vec_capacity s.space.lines)
        × (length s.gates.items ≤ vec_capacity s.space.turns)) }
{
    // Before any thread starts, so that nothing is lost.
    let Opened {
        queue,
        gates,
        space,
    } = open_lines::<N, T, H>(rt, alloc, seats, queue)?;
    match start_writer(rt, queue, writer) {
        Some(writing) => Ok(Started {
            writing,
            gates,
            space,
        }),
        None => Err(StoreFault::NoThread),
    }
}

/// Serves the clients of a store whose writer runs, waits for its end, and settles.
fn serve_run<
    N: LineName + Send + Sync + 'static,
    S: StoreWriter<N> + Send + 'static,
    T: Turn + Send + Drop + 'static,
    H: Threads + Wait + Copy + Send + Sync + 'static,
    W: Watch<T::In> + Send + Sync + Drop + 'static,
>(
    rt: H,
    alloc: Global,
    started: Started<N, S, T, H>,
    turns: Vec<FreeTurn<T>>,
    runner: Runner<W>,
) -> Result<(StoreEnd<T>, S), StoreFault>
where
    T::In: Send + 'static,
    T::Out: Send + 'static,
    T::Time: Send + 'static,
    requires own { AreOwn (kept_of (S.written started.writing.promise.began.value)) }
    requires gates { started.gates.items ≡ new_gates (kept_of (S.written started.writing.promise.began.value)) N.places }
    requires empty { (started.space.lines.items ≡ []) × (started.space.turns.items ≡ []) }
    requires capacity { (length started.gates.items ≤ vec_capacity started.space.lines)
        × (length started.gates.items ≤ vec_capacity started.space.turns) }
    requires turns { N.places ≡ length turns.items }
    ensures run { IfOk result (λ end. IsRunTo S.most_held N.limit N.places (kept_of (S.written started.writing.promise.began.value))
        (map T.connections turns.items) (map T.connections end.0.turns.items) (S.written end.1) end.0.version end.0.changes end.0.cause) }
    ensures idle { IfOk result (λ end. S.ready end.1 ≡ []) }
{
    let Started {
        writing,
        gates,
        space,
    } = started;
    let served = run_places(rt, alloc, turns, gates, runner);
    // It ends once each line is closed, or all are gone.
    let ended = writing.join(&rt);
    let served = served?;
    let PlacesEnd { ends, threads } = served;
    let EndSpace { lines, turns } = space;
    Ok(settle_run(ends, threads, ended, lines, turns))
}

/// The run of a store whose writer this is, and whose seats know what it keeps: as [`run_store`] says, and the writer at its end.
pub(crate) fn run_writer_of<
    N: LineName + Send + Sync + 'static,
    S: StoreWriter<N> + Send + 'static,
    T: Turn + Send + Drop + 'static,
    H: Threads + Wait + Copy + Send + Sync + 'static,
    W: Watch<T::In> + Send + Sync + Drop + 'static,
>(
    rt: H,
    alloc: Global,
    writer: S,
    seats: Vec<Seat<N>>,
    queue: BlankQueue,
    turns: Vec<FreeTurn<T>>,
    runner: Runner<W>,
) -> Result<(StoreEnd<T>, S), StoreFault>
where
    T::In: Send + 'static,
    T::Out: Send + 'static,
    T::Time: Send + 'static,
    requires own { AreOwn (kept_of (S.written writer)) }
    requires ready { S.ready writer ≡ [] }
    requires seats { All (λ seat. seat ≡ kept_of (S.written writer)) seats.items }
    requires queue { (queue.name ≡ N.queue) × (queue.places ≡ N.places) }
    requires turns { queue.places ≡ length turns.items }
    ensures run { IfOk result (λ end. IsRunTo S.most_held N.limit N.places (kept_of (S.written writer)) (map T.connections turns.items)
        (map T.connections end.0.turns.items) (S.written end.1) end.0.version end.0.changes end.0.cause) }
    ensures idle { IfOk result (λ end. S.ready end.1 ≡ []) }
{
    match start_run::<N, S, T, H>(rt, alloc, writer, seats, queue) {
        Ok(started) => serve_run(rt, alloc, started, turns, runner),
        Err(fault) => Err(fault),
    }
}

fn run_named<
    N: LineName + Send + Sync + 'static,
    T: Turn + Send + Drop + 'static,
    H: Threads + Wait + Copy + Send + Sync + 'static,
    W: Watch<T::In> + Send + Sync + Drop + 'static,
>(
    rt: H,
    alloc: Global,
    blank: Blank,
    given: Vec<Found>,
    queue: BlankQueue,
    turns: Vec<FreeTurn<T>>,
    runner: Runner<W>,
) -> Result<StoreEnd<T>, StoreFault>
where
    T::In: Send + 'static,
    T::Out: Send + 'static,
    T::Time: Send + 'static,
    requires store { (blank.history ≡ N.history) × (blank.limit ≡ N.limit) }
    requires queue { (queue.name ≡ N.queue) × (queue.places ≡ N.places) }
    requires turns { queue.places ≡ length turns.items }
    ensures { IfOk result (λ end. IsStoreRun 1 blank.limit queue.places (first_of given.items) (map T.connections turns.items) (map T.connections end.turns.items)
        end.version end.changes end.cause) }
{
    let (writer, seats) = blank.open_with::<N, H>(rt, given)?;
    match run_writer_of(rt, alloc, writer, seats, queue, turns, runner) {
        Ok((end, _writer)) => Ok(end),
        Err(fault) => Err(fault),
    }
}
