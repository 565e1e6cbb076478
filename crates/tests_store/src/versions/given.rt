//! Stores that begin with messages.

ghost use Rattle.std.specs.Prelude.{◌≡◌};

use crate::versions::steps::{Change, Look, Step, check_steps_behind};
use kit_test::{Naming, blank_store, found, is_shown, topic};
use rs_message::{Found, PlaceCount, Qos};
use rs_version::{Blank, OpenFault, StoreName};
use std::alloc::Global;
use std::marker::Brand;
use std::sync::Wait;
use std::test::Fail;

/// What a store begins with: a topic, when its message came, and how long it lasts.
type Row = (&'static [u8], u64, Option<u32>);

fn given(alloc: Global, rows: &[Row]) -> Option<Vec<Found>> {
    let mut all = Vec::new(alloc);
    for (topic, received, expiry) in rows {
        let found = found(alloc, topic, b"x", Qos::AtLeastOnce, *received, *expiry)?;
        all.push(found).ok()?;
    }
    Some(all)
}

fn blank(alloc: Global, topics: u32, places: u8) -> Result<Blank, Fail> {
    blank_store(alloc, topics, PlaceCount::new(places).ok_or("places")?)
}

/// Each seat knows what was given before it reads, and all messages keep their moments. What has expired makes space, by a Sweep whose serial
/// follows those of what was given. Lines begin with serial 1.
#[test]
fn a_store_begins_with_what_it_is_given(rt: HostRuntime) -> Result<(), Fail> {
    let alloc = rt.alloc();
    let rows: [Row; 3] = [(b"b", 100, None), (b"a", 100, Some(10)), (b"$c", 0, None)];
    let steps = [
        Step::Tells(3),
        Step::HoldsNothing,
        Step::At(0, Look::Knows(3)),
        Step::At(1, Look::Knows(3)),
        Step::At(0, Look::Reads(109, 3, b"a b ")),
        Step::At(1, Look::Reads(110, 3, b"b ")),
        Step::At(1, Look::Finds(b"$c", 110, 3, b"$c ")),
        Step::Put(Change::Set(1, 1, b'd', 109, None), (0, 30)),
        Step::Put(Change::Set(1, 1, b'd', 110, None), (5, 0)),
        Step::Put(Change::Clear(1, 2, b'b'), (6, 0)),
        Step::Put(Change::Set(2, 1, b'e', 110, None), (7, 0)),
        Step::At(0, Look::Learns(3)),
        Step::At(0, Look::Reads(110, 7, b"d e ")),
    ];
    let given = given(alloc, &rows).ok_or("messages")?;
    check_steps_behind(&rt, alloc, blank(alloc, 3, 2)?, given, &steps)
}

/// As many messages as topics may hold one. All of them have expired, and a Sweep comes only before a Set that needs it.
#[test]
fn what_has_expired_is_given_too(rt: HostRuntime) -> Result<(), Fail> {
    let alloc = rt.alloc();
    let rows: [Row; 2] = [(b"a", 0, Some(1)), (b"b", 0, Some(2))];
    let steps = [
        Step::Tells(2),
        Step::At(0, Look::Reads(9, 2, b"")),
        Step::At(0, Look::Reads(1, 2, b"b ")),
        Step::Put(Change::Set(1, 1, b'c', 9, None), (4, 0)),
        Step::At(0, Look::Reads(1, 4, b"c ")),
    ];
    let given = given(alloc, &rows).ok_or("messages")?;
    check_steps_behind(&rt, alloc, blank(alloc, 2, 1)?, given, &steps)
}

/// How many entries a store has that begins with this.
fn begun<N: StoreName, R: Wait>(rt: &R, blank: Blank, given: Vec<Found>) -> Result<u64, OpenFault>
    requires { (blank.history ≡ N.history) × (blank.limit ≡ N.limit) }
{
    let (writer, _seats) = blank.open_with::<N, &R>(rt, given)?;
    Ok(writer.tell().version())
}

/// So many messages of topics that differ.
fn many(alloc: Global, count: u32) -> Result<Vec<Found>, Fail> {
    let mut all = Vec::with_capacity(alloc, count as usize)?;
    let payload = found(alloc, b"a", b"x", Qos::AtMostOnce, 0, None).ok_or("a message")?;
    for number in 0..count {
        let topic = topic(alloc, Naming::Even, u64::from(number)).map_err(|_| "a topic")?;
        all.push(Found::new(alloc, topic, payload.message().copy()?)?)?;
    }
    Ok(all)
}

/// Stores of at most so many topics, and of so many bytes, to which so many are given: how many entries they have, or why they are not
/// opened.
const COUNTS: &[(u32, u64, u32, Result<u64, OpenFault>)] = &[
    (1, u64::MAX, 0, Ok(0)),
    (1, u64::MAX, 1, Ok(1)),
    (1, u64::MAX, 2, Err(OpenFault::TooManyTopics)),
    (1, 361, 1, Err(OpenFault::NoMemory)),
    (1_000, u64::MAX, 1_000, Ok(1_000)),
    (1_000, u64::MAX, 1_001, Err(OpenFault::TooManyTopics)),
];

#[test]
fn at_most_as_many_are_given_as_topics_may_hold_one(rt: HostRuntime) -> Result<(), Fail> {
    let alloc = rt.alloc();
    for (topics, bytes, count, wanted) in COUNTS {
        let given = many(alloc, *count)?;
        let blank = blank(alloc, *topics, 1)?.with_memory(*bytes);
        let begun = begun::<Brand, HostRuntime>(&rt, blank, given);
        assert!(rt; begun == *wanted, "{topics} {count}");
    }
    Ok(())
}

#[test]
fn faults_of_an_opening_have_texts(rt: HostRuntime) {
    let many = "more topics are given than the store may hold; raise the limit";
    assert!(rt; is_shown(rt.alloc(), &OpenFault::TooManyTopics, many));
    assert!(rt; is_shown(rt.alloc(), &OpenFault::NoMemory, "out of memory"));
}
