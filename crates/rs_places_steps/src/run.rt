//! The clients of a store, served in steps until all are done.

ghost use Rattle.std.specs.Prelude.{◌≡◌, ◌≤◌, [], length, map, vec_capacity, IfOk};
ghost use Rattle.std.specs.List.{AllZip};
ghost use Rattle.rs_places_steps.specs.Places.{IsPlaceServed, left_at, places_of};
ghost use Rattle.rs_places_steps.specs.Visits.{place_at};
ghost use Rattle.rs_places_steps.specs.Begins.{place_of};

use crate::end_cell::{ClientEnd, client_ends};
use crate::fault::StoreFault;
use crate::gates::{FreeGate, LineGate, StoreGate};
use crate::stages::FreeClient;
use crate::task::Task;
use crate::turn::{FreeTurn, PlaceEnd, PlacesEnd, Turn};
use rs_places_pool::{Runner, Watch};
use std::alloc::{AllocError, Global};
use std::sync::Wait;
use std::thread::{Threads, yield_now};

/// [`PlaceEnd`] for a turn and a gate of these types.
type EndAt<T, G> = PlaceEnd<<G as StoreGate>::Name, <G as LineGate>::End, T>;

/// The client on its way, and what takes its end.
fn make_task<T: Turn + Drop, G: LineGate + Drop>(
    alloc: Global,
    turn: FreeTurn<T>,
    gate: FreeGate<G>,
) -> Result<(Task<T, G>, ClientEnd<T, G>), AllocError>
    ensures { IfOk result (λ made. place_of T.connections G.shared made.1.begun ≡ place_at (T.connections turn) gate) }
{
    let turn = turn.into_turn();
    let gate = gate.into_gate();
    let (end, taken) = client_ends(alloc, &turn, &gate)?;
    Ok((Task::new(FreeClient::new(turn, gate), end), taken))
}

/// Each client on its way, and what takes the end of each.
fn make_tasks<T: Turn + Drop, G: LineGate + Drop>(
    alloc: Global,
    turns: Vec<FreeTurn<T>>,
    gates: Vec<FreeGate<G>>,
) -> Result<(Vec<Task<T, G>>, Vec<ClientEnd<T, G>>), AllocError>
    ensures { IfOk result (λ made. map (λ end. place_of T.connections G.shared end.begun) made.1.items
        ≡ places_of (map T.connections turns.items) gates.items) }
{
    let mut tasks = Vec::with_capacity(alloc, gates.len())?;
    let mut ends = Vec::with_capacity(alloc, gates.len())?;
    for (turn, gate) in turns.into_iter().zip(gates) {
        let (task, end) = make_task(alloc, turn, gate)?;
        tasks.push_reserved(task);
        ends.push_reserved(end);
    }
    Ok((tasks, ends))
}

/// What is left of the client whose end is taken here, once it has come.
fn wait_end<T: Turn + Drop, G: LineGate + Drop, H: Wait>(
    rt: &H,
    end: ClientEnd<T, G>,
) -> EndAt<T, G>
    ensures { IsPlaceServed G.Name.limit (place_of T.connections G.shared end.begun)
        (left_at (T.connections result.turn) result.told (G.closed result.line)) }
{
    let mut end = end;
    // For the proof: the runner returns once all clients are done, so the first round takes the end, but no contract says so.
    for _ in rt.forever() {
        if let Some(done) = end.take() {
            return done.into_end();
        }
        yield_now();
    }
    unreachable!()
}

/// What is left of each client. The caller has reserved the capacity.
fn take_ends<T: Turn + Drop, G: LineGate + Drop, H: Wait>(
    rt: &H,
    comings: Vec<ClientEnd<T, G>>,
    ends: Vec<EndAt<T, G>>,
) -> Vec<EndAt<T, G>>
    requires empty { ends.items ≡ [] }
    requires capacity { length comings.items ≤ vec_capacity ends }
    ensures { AllZip (IsPlaceServed G.Name.limit) (map (λ end. place_of T.connections G.shared end.begun) comings.items)
        (map (λ end. left_at (T.connections end.turn) end.told (G.closed end.line)) result.items) }
{
    let mut ends = ends;
    for coming in comings {
        ends.push_reserved(wait_end(rt, coming));
    }
    ends
}

/// Serves these clients until all are done. How many threads, or lanes with threads, there were: some, if there are clients.
fn serve_tasks<
    T: Turn + Send + Drop + 'static,
    G: LineGate + Send + Drop + 'static,
    H: Threads + Wait + Copy + Send + Sync + 'static,
    W: Watch<T::In> + Send + Sync + Drop + 'static,
>(rt: H, alloc: Global, tasks: Vec<Task<T, G>>, runner: Runner<W>) -> Result<usize, StoreFault>
where
    T::In: Send + 'static,
    T::Out: Send + 'static,
    T::Time: Send + 'static,
    G::Name: Send + Sync + 'static,
    G::End: Send + 'static,
{
    let has_clients = !tasks.is_empty();
    let threads = runner.serve(rt, alloc, tasks)?;
    if threads == 0 && has_clients {
        return Err(StoreFault::NoThread);
    }
    Ok(threads)
}

/// Serves the clients of a store until all are done, by the threads of `runner`. The first turn goes with the first gate, and so on: these
/// are a client, and the line's number is its place. A turn without a gate is dropped, and so is a gate without a turn.
///
/// A client's connections are served one after the other. They are numbered from 1 on; a number that is `u64::MAX` stays. Each is given back
/// to the turn, with how it ended, once the gate is handed on ([`LineGate::hand_on`]). When the turn has no more, the gate is closed. The
/// caller runs the writer meanwhile, and settles.
///
/// Of each client the contract says that all connections that waited were served so, each from what the one before left, over its own bytes
/// and at its own times, and that the turn was told how each ended. Of one connection it says, whatever other clients do meanwhile:
///
/// - What was written are the replies of a session to the packets that the bytes read encode (`run`, `inputs`, `replies`).
/// - Each filter was answered from a legal list (`legal`), of which every list before is a prefix, the one that the gate knew
///   first too. All of them are prefixes of the list that the gate knows after the connection (`lists`).
/// - A retained publication that the client was told is stored stands once in every later list (`stored`).
/// - The exchanges of the session sent the client's retained publications, in their order, each at most once, and each that the client was
///   told is stored (`publications`). Its line sent at most a tail beyond that (`tail_is`):
///   publications that the bytes hold behind the last packet that was handled, or that one, if it sent nothing and ended the session.
/// - The replay sends what the filters were answered, in order, each message once (`sent`).
///
/// Where a thread cannot be started, other threads serve the clients that it was for, as [`Runner`] says, if there are any.
///
/// # Errors
///
/// [`StoreFault`]: out of memory, or no thread can be started for the clients. Then no client was served, and all turns and gates are
/// dropped, but no clause says so.
pub fn run_places<
    T: Turn + Send + Drop + 'static,
    G: LineGate + Send + Drop + 'static,
    H: Threads + Wait + Copy + Send + Sync + 'static,
    W: Watch<T::In> + Send + Sync + Drop + 'static,
>(
    rt: H,
    alloc: Global,
    turns: Vec<FreeTurn<T>>,
    gates: Vec<FreeGate<G>>,
    runner: Runner<W>,
) -> Result<PlacesEnd<G::Name, G::End, T>, StoreFault>
where
    T::In: Send + 'static,
    T::Out: Send + 'static,
    T::Time: Send + 'static,
    G::Name: Send + Sync + 'static,
    G::End: Send + 'static,
    ensures { IfOk result (λ end. AllZip (IsPlaceServed G.Name.limit) (places_of (map T.connections turns.items) gates.items)
        (map (λ end. left_at (T.connections end.turn) end.told (G.closed end.line)) end.ends.items)) }
{
    let (tasks, comings) = make_tasks(alloc, turns, gates)?;
    // Before any thread starts, so that no end is lost.
    let ends = Vec::with_capacity(alloc, comings.len())?;
    let threads = serve_tasks(rt, alloc, tasks, runner)?;
    Ok(PlacesEnd {
        ends: take_ends(&rt, comings, ends),
        threads,
    })
}
