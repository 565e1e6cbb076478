//! A store with its queue: a thread for each place, which follows a script, and one for the writer.

ghost use Rattle.std.specs.Prelude.{◌≡◌, ◌<◌, ◌≤◌, false, All, IfSome};
ghost use Rattle.rs_message.specs.Messages.{is_sweep};
ghost use Rattle.rs_version.specs.First.{AreOwn};
ghost use Rattle.rs_version.specs.Writer.{kept_of};

use super::log::{Log, Outcome, Ran, Totals};
use super::script::{Act, Script, operation_of};
use kit_test::{blank_store, read_all};
use rs_intake::{BlankQueue, Ended, Queue, blank_queue, run_writer, run_writer_for, settle};
use rs_intake_line::{Intake, LineEnd, LineName, SeatLine};
use rs_message::{LineCount, Operation, PlaceCount};
use rs_version::{Blank, Receipt, Seat, StoreWriter, VersionWriter};
use std::alloc::Global;
use std::marker::Brand;
use std::process::Abort;
use std::sync::atomic::{AtomicU64, Ordering};
use std::sync::{Arc, Wait};
use std::test::Fail;
use std::thread::{JoinHandle, Threads, sleep, spawn, yield_now};
use std::time::{Clock, Duration};

/// How often a count is looked at, with a millisecond between two looks.
const LOOKS: u32 = 300_000;

/// How long places have for a submit before a queue is dropped, in milliseconds.
const PAUSE: u64 = 20;

/// What the writer does.
#[derive(Clone, Copy)]
pub(crate) enum Writing {
    /// It takes all jobs.
    All,
    /// It ends after so many jobs.
    Most(u64),
    /// It takes none, and the queue is dropped after a pause.
    Never,
}

#[derive(Clone, Copy)]
pub(crate) struct Setup {
    pub(crate) alloc: Global,
    pub(crate) limit: u32,
    pub(crate) places: u8,
    pub(crate) script: Script,
    pub(crate) writing: Writing,
}

/// What the threads of all places count.
#[derive(Drop)]
struct Counts {
    /// How often a place came to a meeting.
    met: AtomicU64,
    /// How many places have ended.
    ended: AtomicU64,
}

/// What the thread of a place has beside its line and its seat.
#[derive(Drop)]
struct Task {
    alloc: Global,
    places: u8,
    script: Script,
    counts: Arc<Counts>,
}

/// Fails if the count does not come to this after so many looks, since a place that waits for ever can't be joined.
fn check_reaches<R: Clock + Abort>(rt: &R, count: &AtomicU64, wanted: u64) {
    for _ in 0..LOOKS {
        if count.load(Ordering::SeqCst) >= wanted {
            return;
        }
        sleep(rt, Duration::from_millis(1));
    }
    assert!(rt; count.load(Ordering::SeqCst) >= wanted);
}

/// The number after this one in a row of pseudo-random numbers, of which the upper half is used.
fn next_random(state: u64) -> u64 {
    state
        .wrapping_mul(6_364_136_223_846_793_005)
        .wrapping_add(1_442_695_040_888_963_407)
}

/// The first number of a place. No two places share their numbers, whatever the seed.
fn first_random(script: Script, place: u16) -> u64 {
    let seed = match script {
        Script::Random(seed) => seed,
        _ => 0,
    };
    next_random(seed.wrapping_mul(64).wrapping_add(u64::from(place)))
}

/// What a receipt says. `None` if memory is refused.
fn outcome_of<N: LineName>(receipt: &Receipt<N>) -> Option<Outcome> {
    let entry = receipt.entry().copy().ok()?;
    Some(Outcome {
        number: receipt.number(),
        code: 0,
        entry: Some(entry),
    })
}

/// Submits the operation. The seat learns of the receipt.
fn submit<N: LineName, R: Wait>(
    rt: &R,
    line: &mut SeatLine<N>,
    seat: &mut Seat<N>,
    operation: Operation,
) -> Option<Outcome>
    requires { is_sweep operation ≡ false }
{
    match Intake::new().submit(rt, line, operation) {
        Ok(receipt) => {
            seat.learn(receipt.told());
            outcome_of(&receipt)
        }
        Err(fault) => Some(Outcome {
            number: 0,
            code: fault.code(),
            entry: None,
        }),
    }
}

/// The changes of so many steps, from this one on. `None` if memory is refused.
fn changes_of(task: &Task, place: u16, first: u32, count: u32) -> Option<Vec<Operation>>
    ensures { IfSome result (λ changes. All (λ o. is_sweep o ≡ false) changes.items) }
{
    let mut changes = Vec::new(task.alloc);
    for step in first..first.saturating_add(count) {
        let change = operation_of(task.alloc, task.script.act(place, step, 0))?;
        changes.push(change).ok()?;
    }
    Some(changes)
}

/// Does what is due. `None` if memory is refused.
fn take_step<N: LineName, R: Wait + Clock + Abort>(
    rt: &R,
    task: &Task,
    line: &mut SeatLine<N>,
    seat: &mut Seat<N>,
    log: &mut Log,
    act: Act,
) -> Option<()> {
    match act {
        Act::Nothing => Some(()),
        Act::Expect(first, count) => {
            line.expect(rt, changes_of(task, line.place(), first, count)?);
            Some(())
        }
        Act::HandOn => {
            if line.hand_on(rt).is_err() {
                log.misses_replies = true;
            }
            Some(())
        }
        Act::Read(now) => {
            let snapshot = read_all(task.alloc, seat, now).ok()?;
            log.add_reading(snapshot)
        }
        Act::Meet(number) => {
            task.counts.met.fetch_add(1, Ordering::SeqCst);
            let all = u64::from(task.places).saturating_mul(number);
            check_reaches(rt, &task.counts.met, all);
            Some(())
        }
        change => {
            let operation = operation_of(task.alloc, change)?;
            let outcome = submit(rt, line, seat, operation)?;
            log.add_outcome(outcome)
        }
    }
}

/// Takes all steps.
fn follow<N: LineName, R: Wait + Clock + Abort>(
    rt: &R,
    task: &Task,
    line: &mut SeatLine<N>,
    seat: &mut Seat<N>,
    log: &mut Log,
) -> bool {
    let place = line.place();
    let mut state = first_random(task.script, place);
    for step in 0..task.script.steps() {
        state = next_random(state);
        let random = state >> 32;
        if random / 16 % 3 == 0 {
            yield_now();
        }
        let act = task.script.act(place, step, random);
        if take_step(rt, task, line, seat, log, act).is_none() {
            return false;
        }
    }
    true
}

/// The thread of a place: it follows the script, and closes the line.
fn serve<N: LineName, R: Wait + Clock + Abort + Copy>(
    rt: R,
    task: Task,
    line: SeatLine<N>,
    seat: Seat<N>,
) -> (Log, LineEnd<N>) {
    let (mut line, mut seat) = (line, seat);
    let mut log = Log::new(task.alloc, line.place());
    log.is_whole = follow(&rt, &task, &mut line, &mut seat, &mut log);
    log.serial = line.serial();
    let end = line.close(&rt);
    log.sent = end.sent();
    task.counts.ended.fetch_add(1, Ordering::SeqCst);
    (log, end)
}

/// The thread of the writer.
fn write<N: LineName, R: Wait + Clock + Copy>(
    rt: R,
    queue: Queue<N>,
    writer: VersionWriter<N, R>,
    writing: Writing,
) -> Option<Ended<N, VersionWriter<N, R>>>
    requires own { AreOwn (kept_of writer) }
{
    match writing {
        Writing::All => Some(run_writer(&rt, queue, writer)),
        Writing::Most(jobs) => Some(run_writer_for(&rt, queue, writer, jobs)),
        Writing::Never => {
            sleep(&rt, Duration::from_millis(PAUSE));
            drop(queue);
            None
        }
    }
}

fn start_one<
    N: LineName + Send + Sync + 'static,
    R: Threads + Wait + Clock + Abort + Copy + Send + Sync + 'static,
>(rt: R, task: Task, line: SeatLine<N>, seat: Seat<N>) -> Option<JoinHandle<(Log, LineEnd<N>)>> {
    spawn(&rt, move || serve(rt, task, line, seat)).ok()
}

fn task_of(setup: Setup, counts: &Arc<Counts>) -> Option<Task> {
    let counts = Arc::try_clone(counts).ok()?;
    Some(Task {
        alloc: setup.alloc,
        places: setup.places,
        script: setup.script,
        counts,
    })
}

/// A thread for each place, from the last to the first. `None` if memory or a thread is refused.
fn start_all<
    N: LineName + Send + Sync + 'static,
    R: Threads + Wait + Clock + Abort + Copy + Send + Sync + 'static,
>(
    rt: R,
    setup: Setup,
    counts: &Arc<Counts>,
    lines: &mut Vec<SeatLine<N>>,
    seats: &mut Vec<Seat<N>>,
    handles: &mut Vec<JoinHandle<(Log, LineEnd<N>)>>,
) -> Option<()> {
    for _ in 0..setup.places {
        let task = task_of(setup, counts)?;
        let line = lines.pop()?;
        let seat = seats.pop()?;
        handles.push(start_one(rt, task, line, seat)?).ok()?;
    }
    Some(())
}

fn start<
    N: LineName + Send + Sync + 'static,
    R: Threads + Wait + Clock + Abort + Copy + Send + Sync + 'static,
>(
    rt: R,
    setup: Setup,
    counts: &Arc<Counts>,
    lines: Vec<SeatLine<N>>,
    seats: Vec<Seat<N>>,
) -> Option<Vec<JoinHandle<(Log, LineEnd<N>)>>> {
    let (mut lines, mut seats) = (lines, seats);
    let mut handles = Vec::new(setup.alloc);
    match start_all(rt, setup, counts, &mut lines, &mut seats, &mut handles) {
        Some(()) => Some(handles),
        None => None,
    }
}

fn totals_of<N: LineName, S: StoreWriter<N>>(
    alloc: Global,
    ended: Ended<N, S>,
    ends: Vec<LineEnd<N>>,
) -> Totals {
    let mut ended = ended;
    let without_lines = settle(Vec::new(alloc), &mut ended).is_ok();
    Totals {
        taken: ended.taken,
        refused: ended.refused,
        holds_none: ended.held.is_none(),
        version: ended.writer.tell().version(),
        without_lines,
        settled: settle(ends, &mut ended).ok(),
    }
}

/// Waits for the threads of all places. `None` if memory is refused.
fn join_all<N: LineName, R: Threads>(
    rt: &R,
    handles: Vec<JoinHandle<(Log, LineEnd<N>)>>,
    logs: &mut Vec<Log>,
    ends: &mut Vec<LineEnd<N>>,
) -> Option<()> {
    for handle in handles {
        let (log, end) = handle.join(rt);
        logs.push(log).ok()?;
        ends.push(end).ok()?;
    }
    Some(())
}

fn finish<N: LineName, S: StoreWriter<N>, R: Threads + Wait + Copy>(
    rt: &R,
    alloc: Global,
    writer: JoinHandle<Option<Ended<N, S>>>,
    handles: Vec<JoinHandle<(Log, LineEnd<N>)>>,
) -> Ran {
    let (mut logs, mut ends) = (Vec::new(alloc), Vec::new(alloc));
    let joined = join_all(rt, handles, &mut logs, &mut ends);
    let totals = match (joined, writer.join(rt)) {
        (Some(()), Some(ended)) => Some(totals_of(alloc, ended, ends)),
        _ => None,
    };
    Ran { logs, totals }
}

fn run_named<
    N: LineName + Send + Sync + 'static,
    R: Threads + Wait + Clock + Abort + Copy + Send + Sync + 'static,
>(rt: R, blank: Blank, queue: BlankQueue, setup: Setup, counts: &Arc<Counts>) -> Option<Ran>
    requires store { (blank.history ≡ N.history) × (blank.limit ≡ N.limit) }
    requires queue { (queue.name ≡ N.queue) × (queue.places ≡ N.places) }
{
    let (_intake, lines, queue) = queue.open::<N>().ok()?;
    let (writer, seats) = blank.open::<N, R>(rt).ok()?;
    let handles = start(rt, setup, counts, lines, seats)?;
    let writing = setup.writing;
    let writer = spawn(&rt, move || write(rt, queue, writer, writing)).ok()?;
    check_reaches(&rt, &counts.ended, u64::from(setup.places));
    Some(finish(&rt, setup.alloc, writer, handles))
}

/// Runs all threads to their end.
pub(crate) fn run<R: Threads + Wait + Clock + Abort + Copy + Send + Sync + 'static>(
    rt: R,
    setup: Setup,
) -> Result<Ran, Fail> {
    let counts = Arc::new(
        setup.alloc,
        Counts {
            met: AtomicU64::new(0),
            ended: AtomicU64::new(0),
        },
    )?;
    let places = PlaceCount::new(setup.places).ok_or("no places")?;
    let blank = blank_store(setup.alloc, setup.limit, places)?;
    let queue = blank_queue(setup.alloc, LineCount::of_places(places))?;
    let ran = run_named::<Brand, R>(rt, blank, queue, setup, &counts);
    Ok(ran.ok_or("memory or a thread was refused")?)
}
