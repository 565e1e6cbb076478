//! A run of a store over connections from memory.

use crate::rows::{Row, put_rows, scripts};
use crate::script::{Counts, Input, Script, free_scripts};
use kit_test::blank_store;
use rs_intake::{Cause, blank_queue};
use rs_message::{Found, LineCount, MAX_LINES, PlaceCount};
use rs_places::{StoreEnd, run_store};
use rs_places_pool::{NoWatch, Runner, Watch};
use rs_places_steps::{FreeTurn, Turn};
use std::alloc::Global;
use std::sync::atomic::Ordering;
use std::sync::{Arc, Wait};
use std::test::Fail;
use std::thread::Threads;

/// What came of a run.
#[derive(Clone, Copy, Debug, PartialEq, Eq)]
pub struct Played {
    /// How many clients had a thread, or how many lanes.
    pub threads: usize,
    /// How many connections went as they had to.
    pub right: u64,
    /// How many jobs were settled.
    pub changes: Option<u64>,
    pub version: u64,
    /// Whether the writer ended because each client had.
    pub is_whole: bool,
}

/// What comes of a run if there were so many threads, each connection went as it had to, and all was settled.
pub fn as_wanted(threads: usize, right: u64, changes: u64, version: u64) -> Played {
    Played {
        threads,
        right,
        changes: Some(changes),
        version,
        is_whole: true,
    }
}

/// What came of a run that left this, and whose turns counted this.
pub fn outcome<T>(end: &StoreEnd<T>, counts: &Counts) -> Played {
    Played {
        threads: end.threads,
        right: counts.right.load(Ordering::SeqCst),
        changes: end.changes,
        version: end.version,
        is_whole: matches!(end.cause, Cause::AllEnded),
    }
}

/// Runs a store of so many topics and seats, with a client for each turn, whom this runner serves. It is empty at first.
pub fn run<
    T: Turn + Send + Drop + 'static,
    R: Threads + Wait + Copy + Send + Sync + 'static,
    W: Watch<T::In> + Send + Sync + Drop + 'static,
>(
    rt: R,
    alloc: Global,
    store: (u32, u8),
    turns: Vec<FreeTurn<T>>,
    counts: &Counts,
    runner: Runner<W>,
) -> Result<Played, Fail>
where
    T::In: Send + 'static,
    T::Out: Send + 'static,
    T::Time: Send + 'static,
{
    run_given(rt, alloc, store, Vec::new(alloc), turns, counts, runner)
}

/// The same of a store that begins with these messages.
pub fn run_given<
    T: Turn + Send + Drop + 'static,
    R: Threads + Wait + Copy + Send + Sync + 'static,
    W: Watch<T::In> + Send + Sync + Drop + 'static,
>(
    rt: R,
    alloc: Global,
    (topics, seats): (u32, u8),
    given: Vec<Found>,
    turns: Vec<FreeTurn<T>>,
    counts: &Counts,
    runner: Runner<W>,
) -> Result<Played, Fail>
where
    T::In: Send + 'static,
    T::Out: Send + 'static,
    T::Time: Send + 'static,
{
    let count = turns.len();
    if count > usize::from(MAX_LINES) {
        return Err(Fail::from("too many clients"));
    }
    let lines = LineCount::new(count as u16).ok_or("no client")?;
    let seats = PlaceCount::new(seats).ok_or("seats")?;
    let blank = blank_store(alloc, topics, seats)?;
    let queue = blank_queue(alloc, lines)?;
    let end = run_store(rt, alloc, blank, given, queue, turns, runner)?;
    Ok(outcome(&end, counts))
}

/// The same with scripts, of which no connection is out.
pub fn run_scripts<
    R: Threads + Wait + Copy + Send + Sync + 'static,
    W: Watch<Input> + Send + Sync + Drop + 'static,
>(
    rt: R,
    alloc: Global,
    store: (u32, u8),
    turns: Vec<Script>,
    counts: &Counts,
    runner: Runner<W>,
) -> Result<Played, Fail> {
    let turns = free_scripts(alloc, turns)?;
    run(rt, alloc, store, turns, counts, runner)
}

/// Runs a store of so many topics and places over these connections, with a thread and a seat for each place.
pub fn play<R: Threads + Wait + Copy + Send + Sync + 'static>(
    rt: R,
    alloc: Global,
    topics: u32,
    places: u8,
    rows: &[Row<'_>],
) -> Result<Played, Fail> {
    play_given(rt, alloc, (topics, places), Vec::new(alloc), rows)
}

/// The same of a store that begins with these messages.
pub fn play_given<R: Threads + Wait + Copy + Send + Sync + 'static>(
    rt: R,
    alloc: Global,
    store: (u32, u8),
    given: Vec<Found>,
    rows: &[Row<'_>],
) -> Result<Played, Fail> {
    let counts = Arc::new(alloc, Counts::new())?;
    let mut turns = scripts(alloc, &counts, store.1)?;
    put_rows(alloc, turns.as_mut_slice(), rows)?;
    let runner = Runner::<NoWatch>::OneEach;
    let turns = free_scripts(alloc, turns)?;
    run_given(rt, alloc, store, given, turns, &counts, runner)
}
