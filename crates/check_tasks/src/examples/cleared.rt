//! Serves an example in a run of a store that began with messages, once another client has cleared them. It must go as over a new store.

use crate::examples::example::{Connection, Example};
use crate::examples::problem::{Part, Problem};
use kit_places::{Counts, Played, Script, ending, free_scripts, later, outcome};
use kit_test::{CONNACK, CONNECT, DISCONNECT, found};
use rs_intake::blank_queue;
use rs_message::{Found, LineCount, PlaceCount, Qos};
use rs_places::run_store;
use rs_places_pool::{NoWatch, Runner};
use rs_version::Blank;
use std::alloc::Global;
use std::sync::{Arc, Wait};
use std::thread::Threads;

/// A topic with a message at first, its clearing of QoS 1, and the PUBACK to that.
struct Row {
    topic: &'static [u8],
    clears: &'static [u8],
    cleared: &'static [u8],
}

const ROWS: &[Row] = &[
    Row {
        topic: b"a/b",
        clears: b"\x33\x08\x00\x03a/b\x00\x01\x00",
        cleared: b"\x40\x02\x00\x01",
    },
    Row {
        topic: b"a",
        clears: b"\x33\x06\x00\x01a\x00\x02\x00",
        cleared: b"\x40\x02\x00\x02",
    },
    Row {
        topic: b"$a",
        clears: b"\x33\x07\x00\x02$a\x00\x03\x00",
        cleared: b"\x40\x02\x00\x03",
    },
];

/// The places of the example and of the client that clears.
const OWN: u8 = 1;

const OTHER: u8 = 2;

/// A message of each of these topics.
fn given(alloc: Global, rows: &[Row]) -> Result<Vec<Found>, Problem> {
    let mut all = Vec::new(alloc);
    for row in rows {
        let found = found(alloc, row.topic, b"x", Qos::AtMostOnce, 0, None);
        all.push(found.ok_or(Problem::NoMemory)?)?;
    }
    Ok(all)
}

/// Lets the client clear these topics before anything else.
fn put_clearing(alloc: Global, script: &mut Script, rows: &[Row]) -> Result<(), Problem> {
    let mut sent = CONNECT.to_vec(alloc)?;
    let mut replies = CONNACK.to_vec(alloc)?;
    for row in rows {
        sent.extend_from_slice(row.clears)?;
        replies.extend_from_slice(row.cleared)?;
    }
    sent.extend_from_slice(DISCONNECT)?;
    Ok(script.put(later(OTHER, 0), sent, replies)?)
}

/// Appends the connection, once that client has left.
fn put(alloc: Global, script: &mut Script, connection: &Connection) -> Result<(), Problem> {
    let course = ending(later(OWN, 1), Ok(connection.ended));
    let moments = connection.moments.as_slice().to_vec(alloc)?;
    let sent = connection.sent.as_slice().to_vec(alloc)?;
    let replies = connection.replies.as_slice().to_vec(alloc)?;
    Ok(script.put_at(course, moments, sent, replies)?)
}

/// What the clients do.
fn script(
    alloc: Global,
    counts: &Arc<Counts>,
    rows: &[Row],
    example: &Example,
) -> Result<Vec<Script>, Problem> {
    let mut own = Script::new(alloc, Arc::try_clone(counts)?, u16::from(OWN));
    for connection in &example.connections {
        put(alloc, &mut own, connection)?;
    }
    let mut other = Script::new(alloc, Arc::try_clone(counts)?, u16::from(OTHER));
    put_clearing(alloc, &mut other, rows)?;
    Ok(vec![in alloc; own, other]?)
}

/// Whether each connection went as it has to, and the store has two entries more for each of these topics.
fn is_right(played: Played, example: &Example, rows: &[Row]) -> bool {
    let connections = (example.connections.len() as u64).saturating_add(1);
    let more = (rows.len() as u64).saturating_mul(2);
    let is_stored = match example.stored {
        Some(stored) => played.version == stored.version.saturating_add(more),
        None => true,
    };
    is_stored && played.right == connections && played.changes.is_some() && played.is_whole
}

fn differs(example: &Example) -> Problem {
    Problem::Differs {
        line: example.line,
        cut: usize::MAX,
        part: Part::Cleared,
    }
}

/// Serves it so. The store begins with at most as many messages as the example lets topics hold one.
pub fn check<H: Wait + Threads + Copy + Send + Sync + 'static>(
    rt: &H,
    alloc: Global,
    example: &Example,
) -> Result<(), Problem> {
    let count = ROWS.len().min(example.limit.get() as usize);
    let rows = &ROWS[..count];
    let counts = Arc::new(alloc, Counts::new())?;
    let turns = free_scripts(alloc, script(alloc, &counts, rows, example)?)?;
    let places = PlaceCount::new(OTHER).ok_or(Problem::NoMemory)?;
    if turns.len() != usize::from(places.get()) {
        return Err(differs(example));
    }
    let blank = Blank::new(alloc, example.limit, places)?;
    let queue = blank_queue(alloc, LineCount::of_places(places))?;
    let given = given(alloc, rows)?;
    let one_each = Runner::<NoWatch>::OneEach;
    let Ok(end) = run_store(*rt, alloc, blank, given, queue, turns, one_each) else {
        return Err(Problem::NoMemory);
    };
    if is_right(outcome(&end, &counts), example, rows) {
        Ok(())
    } else {
        Err(differs(example))
    }
}
