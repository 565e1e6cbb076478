//! The run of a server's store.

ghost use Rattle.std.specs.Prelude.{◌≡◌, List, [], IfOk, length};
ghost use Rattle.rs_journal_writer.specs.declared.kept_writer.TheConstants.{MAX_HELD};
ghost use Rattle.rs_places.specs.Store.{IsStoreRun};
ghost use Rattle.rs_places_steps.specs.Turns.{Connections};
ghost use Rattle.rs_tcp_server.specs.Beginning.{first_in, most_held_in};
ghost use Rattle.rs_version.specs.First.{first_of};

use crate::fault::ListenFault;
use crate::journal_state::JournalState;
use crate::journal_watch::JournalWatch;
use crate::keeping::{Kept, KeptFolder};
use crate::syncing::{Syncing, end_syncing, start_syncing};
use crate::telling::{Telling, end_telling};
use crate::turn::ListenTurn;
use log::Log;
use rs_intake::BlankQueue;
use rs_journal::{Switch, Switched};
use rs_places::{KeptEnd, StoreEnd, run_kept_store, run_store};
use rs_places_pool::Runner;
use rs_places_steps::FreeTurn;
use rs_store::TopicLimit;
use rs_tcp_sockets::SocketWatch;
use rs_version::Blank;
use sqlite_disk::Disk;
use sqlite_std_file::File as DiskFile;
use std::alloc::Global;
use std::fs::File;
use std::sync::{Arc, Wait};
use std::thread::Threads;
use std::time::Clock;

/// Runs the store, which begins with what the folder keeps, if there is one, and ends then the thread that tells its numbers.
pub(crate) fn serve<H: Clock + Log + Threads + Wait + Copy + Send + Sync + 'static>(
    rt: H,
    alloc: Global,
    blank: Blank,
    limit: TopicLimit,
    kept: Option<KeptFolder>,
    state: Arc<JournalState>,
    queue: BlankQueue,
    turns: Vec<FreeTurn<ListenTurn<H>>>,
    runner: Runner<SocketWatch<H>>,
    telling: Option<Telling>,
) -> Result<StoreEnd<ListenTurn<H>>, ListenFault>
    requires limit { limit ≡ blank.limit }
    requires places { queue.places ≡ length turns.items }
    ensures { IfOk result (λ end. (before : List Connections) × (after : List Connections)
        × IsStoreRun (most_held_in kept) blank.limit queue.places (first_in kept) before after end.version end.changes end.cause) }
{
    let end = run_any(rt, alloc, blank, limit, kept, state, queue, turns, runner);
    end_telling(&rt, telling);
    end
}

/// Runs the store by what keeps it.
fn run_any<H: Clock + Log + Threads + Wait + Copy + Send + Sync + 'static>(
    rt: H,
    alloc: Global,
    blank: Blank,
    limit: TopicLimit,
    kept: Option<KeptFolder>,
    state: Arc<JournalState>,
    queue: BlankQueue,
    turns: Vec<FreeTurn<ListenTurn<H>>>,
    runner: Runner<SocketWatch<H>>,
) -> Result<StoreEnd<ListenTurn<H>>, ListenFault>
    requires limit { limit ≡ blank.limit }
    requires places { queue.places ≡ length turns.items }
    ensures { IfOk result (λ end. (before : List Connections) × (after : List Connections)
        × IsStoreRun (most_held_in kept) blank.limit queue.places (first_in kept) before after end.version end.changes end.cause) }
{
    match kept {
        None => run_alone(rt, alloc, blank, queue, turns, runner),
        Some(KeptFolder::Synced(kept)) => run_kept(
            rt, alloc, blank, limit, kept, None, &state, queue, turns, runner,
        ),
        Some(KeptFolder::Switched { kept, switch, log }) => run_switched(
            rt, alloc, blank, limit, kept, switch, log, state, queue, turns, runner,
        ),
    }
}

/// Runs a store that nothing keeps.
fn run_alone<H: Clock + Log + Threads + Wait + Copy + Send + Sync + 'static>(
    rt: H,
    alloc: Global,
    blank: Blank,
    queue: BlankQueue,
    turns: Vec<FreeTurn<ListenTurn<H>>>,
    runner: Runner<SocketWatch<H>>,
) -> Result<StoreEnd<ListenTurn<H>>, ListenFault>
    requires { queue.places ≡ length turns.items }
    ensures { IfOk result (λ end. (before : List Connections) × (after : List Connections)
        × IsStoreRun 1 blank.limit queue.places [] before after end.version end.changes end.cause) }
{
    match run_store(rt, alloc, blank, Vec::new(alloc), queue, turns, runner) {
        Ok(end) => Ok(end),
        Err(fault) => Err(ListenFault::from(fault)),
    }
}

/// Runs the store over a journal that is not synced at each commit. If its log is given, a thread syncs that.
fn run_switched<H: Clock + Log + Threads + Wait + Copy + Send + Sync + 'static>(
    rt: H,
    alloc: Global,
    blank: Blank,
    limit: TopicLimit,
    kept: Kept<Switched<DiskFile>>,
    switch: Switch,
    log: Option<File>,
    state: Arc<JournalState>,
    queue: BlankQueue,
    turns: Vec<FreeTurn<ListenTurn<H>>>,
    runner: Runner<SocketWatch<H>>,
) -> Result<StoreEnd<ListenTurn<H>>, ListenFault>
    requires limit { limit ≡ blank.limit }
    requires places { queue.places ≡ length turns.items }
    ensures { IfOk result (λ end. (before : List Connections) × (after : List Connections)
        × IsStoreRun MAX_HELD blank.limit queue.places (first_of kept) before after end.version end.changes end.cause) }
{
    let syncing = start_if_needed(rt, alloc, log, &state)?;
    // It was on for the opening.
    switch.set(false);
    let switch = Some(switch);
    let end = run_kept(
        rt, alloc, blank, limit, kept, switch, &state, queue, turns, runner,
    );
    end_if_started(&rt, syncing);
    end
}

/// Starts the thread that syncs the log, if there is one to be synced.
fn start_if_needed<H: Clock + Threads + Copy + Send + 'static>(
    rt: H,
    alloc: Global,
    log: Option<File>,
    state: &Arc<JournalState>,
) -> Result<Option<Syncing>, ListenFault> {
    match log {
        Some(log) => {
            let state = Arc::try_clone(state)?;
            Ok(Some(start_syncing(rt, alloc, log, state)?))
        }
        None => Ok(None),
    }
}

fn end_if_started<H: Threads>(rt: &H, syncing: Option<Syncing>) {
    if let Some(syncing) = syncing {
        end_syncing(rt, syncing);
    }
}

/// Runs the store over this journal.
fn run_kept<
    D: Disk + Drop + Send + 'static,
    H: Clock + Log + Threads + Wait + Copy + Send + Sync + 'static,
>(
    rt: H,
    alloc: Global,
    blank: Blank,
    limit: TopicLimit,
    kept: Kept<D>,
    switch: Option<Switch>,
    state: &Arc<JournalState>,
    queue: BlankQueue,
    turns: Vec<FreeTurn<ListenTurn<H>>>,
    runner: Runner<SocketWatch<H>>,
) -> Result<StoreEnd<ListenTurn<H>>, ListenFault>
    requires limit { limit ≡ blank.limit }
    requires places { queue.places ≡ length turns.items }
    ensures { IfOk result (λ end. (before : List Connections) × (after : List Connections)
        × IsStoreRun MAX_HELD blank.limit queue.places (first_of kept) before after end.version end.changes end.cause) }
{
    let (journal, given) = kept.into_parts();
    let watch = JournalWatch::new(rt, Arc::try_clone(state)?, journal.page_count());
    match run_kept_store(
        rt, alloc, blank, limit, journal, given, switch, watch, queue, turns, runner,
    ) {
        Ok(KeptEnd { end, journal: _ }) => Ok(end),
        Err(fault) => Err(ListenFault::from(fault)),
    }
}
