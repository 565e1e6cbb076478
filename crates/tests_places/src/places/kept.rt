//! Runs of one kept store, with a crash behind each.

mod disk;

ghost use Rattle.std.specs.Prelude.{◌≡◌, IfOk, vec_len};
ghost use Rattle.rs_journal_writer.specs.State.{Stores};
ghost use Rattle.rs_version.specs.First.{first_of};

use super::given::{ALL, CLEARED, CLEARS};
use disk::Plain;
use kit_places::{
    Counts, PLAIN, Played, Row, SUBSCRIBES, Script, as_wanted, free_scripts, later, outcome,
    plain_row, put_rows, scripts,
};
use kit_test::SUBSCRIBED;
use rs_intake::blank_queue;
use rs_journal::Journal;
use rs_journal_writer::{CommitOutcome, CommitWatch, load};
use rs_message::{Found, LineCount, PlaceCount};
use rs_places::{KeptEnd, run_kept_store};
use rs_places_pool::{NoWatch, Runner};
use rs_places_steps::FreeTurn;
use rs_store::TopicLimit;
use rs_version::Blank;
use sqlite_disk::{Crash, Files, Memory};
use std::alloc::Global;
use std::sync::{Arc, Wait};
use std::test::Fail;
use std::thread::Threads;

/// Lets each commit be made.
#[derive(Drop)]
struct Unwatched;

impl CommitWatch for Unwatched {
    fn may_commit(&mut self) -> bool {
        true
    }

    fn begins(&mut self) {}

    fn ends(&mut self, _outcome: &CommitOutcome, _page_count: u32) {}

    fn shortened(&mut self, _before: u32, _outcome: &CommitOutcome, _page_count: u32) {}
}

/// The connections of these rows, as those of one client.
fn turns_of(
    alloc: Global,
    counts: &Arc<Counts>,
    rows: &[Row<'_>],
) -> Result<Vec<FreeTurn<Script>>, Fail>
    ensures { IfOk result (λ turns. vec_len turns ≡ 1) }
{
    let mut turns = scripts(alloc, counts, 1)?;
    put_rows(alloc, turns.as_mut_slice(), rows)?;
    let turns = free_scripts(alloc, turns)?;
    if turns.len() != 1 {
        return Err("one client".into());
    }
    Ok(turns)
}

/// The journal of these files, and what it retains.
fn loaded(
    alloc: Global,
    files: Files<Plain<Memory>>,
) -> Result<(Journal<Plain<Memory>>, Vec<Found>), Fail>
    ensures { IfOk result (λ r. Stores r.0 (first_of r.1.items)) }
{
    if !files.may_be_used() {
        return Err("files that may be used".into());
    }
    match load(alloc, files, 5) {
        Ok(kept) => Ok(kept),
        Err(_) => Err("files of a journal".into()),
    }
}

/// Runs the store that this journal keeps, for one client.
fn run_one<R: Threads + Wait + Copy + Send + Sync + 'static>(
    rt: R,
    alloc: Global,
    journal: Journal<Plain<Memory>>,
    given: Vec<Found>,
    turns: Vec<FreeTurn<Script>>,
) -> Result<KeptEnd<Script, Plain<Memory>>, Fail>
    requires one { vec_len turns ≡ 1 }
    requires stored { Stores journal (first_of given.items) }
{
    let limit = TopicLimit::new(7).ok_or("the limit")?;
    let blank = Blank::new(alloc, limit, PlaceCount::new(1).ok_or("a seat")?)?;
    let queue = blank_queue(alloc, LineCount::new(1).ok_or("a line")?)?;
    let runner = Runner::<NoWatch>::OneEach;
    Ok(run_kept_store(
        rt, alloc, blank, limit, journal, given, None, Unwatched, queue, turns, runner,
    )?)
}

/// Runs the store that these files keep, over the connections of one client, and loses behind it what was not synced.
fn play_kept<R: Threads + Wait + Copy + Send + Sync + 'static>(
    rt: R,
    alloc: Global,
    files: Files<Plain<Memory>>,
    rows: &[Row<'_>],
) -> Result<(Played, Files<Plain<Memory>>), Fail> {
    let counts = Arc::new(alloc, Counts::new())?;
    let turns = turns_of(alloc, &counts, rows)?;
    let (journal, given) = loaded(alloc, files)?;
    let kept = run_one(rt, alloc, journal, given, turns)?;
    let played = outcome(&kept.end, &counts);
    let mut files = kept.journal.close();
    files.log.crash();
    files.db.crash();
    Ok((played, files))
}

/// An empty file in memory.
fn empty(alloc: Global) -> Plain<Memory> {
    Plain {
        inner: Memory::new(alloc),
    }
}

/// CONNECT, the three messages of `ALL`, of QoS 1, DISCONNECT.
const SETS: &[u8] =
    b"\x10\x0E\x00\x04MQTT\x05\x02\x00\x3C\x00\x00\x01a\x33\x09\x00\x03a/d\x00\x01\x00z\x33\x09\x00\x03a/b\x00\x02\x00x\x33\x09\x00\x03a/c\x00\x03\x00y\xE0\x00";

/// A PUBACK for each.
const SET: &[u8] = CLEARED;

/// The second run sends what the first acknowledged, and the third none of what the second cleared.
#[test]
fn what_was_acknowledged_is_kept(rt: HostRuntime) -> Result<(), Fail> {
    let alloc = rt.alloc();
    let files = Files {
        log: empty(alloc),
        db: empty(alloc),
    };
    let (played, files) = play_kept(rt, alloc, files, &[plain_row(PLAIN, SETS, SET)])?;
    assert!(rt; played == as_wanted(1, 1, 3, 3));
    let rows = [
        plain_row(PLAIN, SUBSCRIBES, ALL),
        plain_row(later(1, 1), CLEARS, CLEARED),
    ];
    let (played, files) = play_kept(rt, alloc, files, &rows)?;
    assert!(rt; played == as_wanted(1, 2, 3, 6));
    let (played, _files) = play_kept(
        rt,
        alloc,
        files,
        &[plain_row(PLAIN, SUBSCRIBES, SUBSCRIBED)],
    )?;
    assert!(rt; played == as_wanted(1, 1, 0, 0));
    Ok(())
}
