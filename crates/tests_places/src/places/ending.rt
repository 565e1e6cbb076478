//! A queue that ends: each change is refused then, and filters are still answered.

ghost use Rattle.std.specs.Prelude.{◌≡◌};

use kit_places::{
    CLOSED, Counts, PUBLISHES, SUBSCRIBES, Script, comes, ending, free_scripts, later, plain_row,
    put_rows, scripts,
};
use kit_test::{SUBSCRIBED, blank_store};
use rs_intake::{BlankQueue, Queue, blank_queue};
use rs_intake_line::{LineEnd, LineName};
use rs_message::{LineCount, PlaceCount};
use rs_places::open_gates;
use rs_places_pool::{NoWatch, Runner};
use rs_places_steps::{FreeTurn, PlaceEnd, Turn, run_places};
use rs_server::Served;
use rs_version::{Blank, VersionWriter};
use std::alloc::Global;
use std::marker::Brand;
use std::sync::atomic::Ordering;
use std::sync::{Arc, Wait};
use std::test::Fail;
use std::thread::{Threads, spawn};

/// A DISCONNECT that says that the change may still be made.
const UNCERTAIN: &[u8] = b"\xE0\x01\x97";

/// How many places publish before the queue ends. One more waits until it has ended.
const EARLY: u8 = 63;

/// How many connections there are: three of each early place, and two of the last.
const CONNECTIONS: u64 = 191;

/// Ends the queue once each early place has come to its PUBLISH, and waits until all connections have ended. The version then, if
/// all came so far.
fn end_queue<N: LineName, R: Wait + Copy>(
    counts: Arc<Counts>,
    queue: Queue<N>,
    writer: VersionWriter<N, R>,
) -> Option<u64> {
    let came = comes(&counts.reached, u64::from(EARLY));
    drop(queue);
    if comes(&counts.ended, CONNECTIONS) && came {
        return Some(writer.tell().version());
    }
    None
}

/// How many jobs of these places the queue took.
fn sent_by<N: LineName, T>(ends: &[PlaceEnd<N, LineEnd<N>, T>]) -> u64 {
    let mut sent = 0u64;
    for end in ends {
        sent = sent.saturating_add(end.line.sent());
    }
    sent
}

/// What is left of places whose queue ended: how many there were, how many jobs the queue took, and the version.
type Cut = (usize, u64, Option<u64>);

fn cut_off_named<
    N: LineName + Send + Sync + 'static,
    R: Threads + Wait + Copy + Send + Sync + 'static,
    T: Turn + Send + Drop + 'static,
>(
    rt: R,
    alloc: Global,
    blank: Blank,
    queue: BlankQueue,
    turns: Vec<FreeTurn<T>>,
    counts: Arc<Counts>,
) -> Result<Cut, Fail>
where
    T::In: Send + 'static,
    T::Out: Send + 'static,
    T::Time: Send + 'static,
    requires store { (blank.history ≡ N.history) × (blank.limit ≡ N.limit) }
    requires queue { (queue.name ≡ N.queue) × (queue.places ≡ N.places) }
{
    let (writer, seats) = blank.open::<N, R>(rt)?;
    let (intake, lines, queue) = queue.open::<N>()?;
    let thread = spawn(&rt, move || end_queue(counts, queue, writer))?;
    let gates = open_gates(rt, alloc, intake, seats, lines)?;
    let served = run_places(rt, alloc, turns, gates, Runner::<NoWatch>::OneEach)?;
    let version = thread.join(&rt);
    let sent = sent_by(served.ends.as_slice());
    Ok((served.ends.len(), sent, version))
}

/// Serves these turns, and ends the queue meanwhile.
fn cut_off<R: Threads + Wait + Copy + Send + Sync + 'static, T: Turn + Send + Drop + 'static>(
    rt: R,
    alloc: Global,
    turns: Vec<FreeTurn<T>>,
    counts: Arc<Counts>,
) -> Result<Cut, Fail>
where
    T::In: Send + 'static,
    T::Out: Send + 'static,
    T::Time: Send + 'static,
{
    let places = PlaceCount::new(64).ok_or("64 places")?;
    let blank = blank_store(alloc, 10, places)?;
    let queue = blank_queue(alloc, LineCount::of_places(places))?;
    cut_off_named::<Brand, R, T>(rt, alloc, blank, queue, turns, counts)
}

/// An early place publishes while the queue ends, publishes again, and reads. The last place publishes and reads once one has ended.
fn put_exchanges(alloc: Global, scripts: &mut [Script]) -> Result<(), Fail> {
    let closed = ending(later(EARLY + 1, 1), Ok(Served::ServerClosed(0x83)));
    let reads = later(EARLY + 1, 1);
    let last = [
        plain_row(closed, PUBLISHES, CLOSED),
        plain_row(reads, SUBSCRIBES, SUBSCRIBED),
    ];
    put_rows(alloc, scripts, &last)?;
    for before in 0..EARLY {
        let reads = later(before + 1, 0);
        let uncertain = ending(reads, Ok(Served::ServerClosed(0x97)));
        let closed = ending(reads, Ok(Served::ServerClosed(0x83)));
        let rows = [
            plain_row(uncertain, PUBLISHES, UNCERTAIN),
            plain_row(closed, PUBLISHES, CLOSED),
            plain_row(reads, SUBSCRIBES, SUBSCRIBED),
        ];
        put_rows(alloc, scripts, &rows)?;
    }
    Ok(())
}

/// A queue that ends while all places publish but one, which publishes for the first time after that. Each publication is answered,
/// 0x97 if the queue took it, and else 0x83, as those are which come later. The next connection of each place reads.
#[test]
fn each_place_is_answered_if_the_queue_ends(rt: HostRuntime) -> Result<(), Fail> {
    let alloc = rt.alloc();
    let counts = Arc::new(alloc, Counts::new())?;
    let mut turns = scripts(alloc, &counts, EARLY + 1)?;
    put_exchanges(alloc, turns.as_mut_slice())?;
    let turns = free_scripts(alloc, turns)?;
    let cut = cut_off(rt, alloc, turns, Arc::try_clone(&counts)?)?;
    let right = counts.right.load(Ordering::SeqCst);
    let closed = counts.closed.load(Ordering::SeqCst);
    // 64 connections are right and closed, 64 are right, and each of 63 is one or the other.
    assert!(rt; right.saturating_add(closed) == 255);
    // The change may be made if the queue took it, and only then.
    assert!(rt; cut == (64, right.saturating_sub(128), Some(0)));
    Ok(())
}
