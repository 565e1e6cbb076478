//! Worked examples of one thread, with ample memory: tables of calls.

mod given;
mod steps;

use kit_test::{blank_store, is_shown};
use rs_message::PlaceCount;
use rs_version::{Blank, PutFault};
use std::alloc::Global;
use std::test::Fail;
use steps::{Change, Look, Step, check_steps};

fn blank(alloc: Global, topics: u32, places: u8) -> Result<Blank, Fail> {
    blank_store(alloc, topics, PlaceCount::new(places).ok_or("places")?)
}

/// One topic may hold a message. A refused put makes no entry, and an older token changes nothing of a seat.
#[test]
fn a_refused_put_makes_no_entry(rt: HostRuntime) -> Result<(), Fail> {
    let alloc = rt.alloc();
    let steps = [
        Step::Put(Change::Set(1, 1, b'a', 0, None), (1, 0)),
        Step::Put(Change::Set(1, 2, b'b', 0, None), (0, 30)),
        Step::Put(Change::Set(1, 1, b'a', 0, None), (0, 31)),
        Step::HoldsNothing,
        Step::Put(Change::Clear(10_000, 1, b'b'), (2, 0)),
        Step::Put(Change::Clear(10_000, 1, b'b'), (0, 31)),
        Step::At(1, Look::Learns(1)),
        Step::At(1, Look::Learns(0)),
        Step::At(1, Look::Reads(0, 2, b"a ")),
    ];
    check_steps(&rt, alloc, blank(alloc, 1, 2)?, &steps)
}

/// Serials beyond 2^24, and about 2^32 and 2^64, which no run counts up to. Each place has its own.
#[test]
fn serials_rise_up_to_the_last(rt: HostRuntime) -> Result<(), Fail> {
    let alloc = rt.alloc();
    let steps = [
        Step::Put(Change::Set(1, 0x0100_0001, b'a', 0, None), (1, 0)),
        Step::Put(Change::Set(1, 0xFFFF_FFFF, b'b', 0, None), (2, 0)),
        Step::Put(Change::Set(1, 0x1_0000_0000, b'c', 0, None), (3, 0)),
        Step::Put(Change::Clear(1, 0xFFFF_FFFF, b'a'), (0, 31)),
        Step::Put(Change::Clear(1, u64::MAX - 1, b'a'), (4, 0)),
        Step::Put(Change::Set(1, u64::MAX, b'd', 0, Some(10)), (5, 0)),
        Step::Put(Change::Set(1, u64::MAX, b'd', 0, None), (0, 31)),
        Step::Put(Change::Clear(2, 1, b'b'), (6, 0)),
        Step::Put(Change::Set(2, u64::MAX, b'e', 0, None), (7, 0)),
        // The Sweep has a serial of the writer's own.
        Step::Put(Change::Set(3, 1, b'f', 20, None), (9, 0)),
        Step::At(0, Look::Learns(7)),
        Step::At(0, Look::Reads(20, 9, b"c e f ")),
    ];
    check_steps(&rt, alloc, blank(alloc, 3, 1)?, &steps)
}

/// A seat's token is of what it knows, and not of what the writer published since.
#[test]
fn a_seat_knows_no_more_than_it_learned(rt: HostRuntime) -> Result<(), Fail> {
    let alloc = rt.alloc();
    let steps = [
        Step::Put(Change::Set(1, 1, b'x', 0, None), (1, 0)),
        Step::At(0, Look::Compares(0, (false, true))),
        Step::At(0, Look::Learns(0)),
        Step::At(0, Look::Compares(0, (true, true))),
        Step::Put(Change::Clear(1, 2, b'x'), (2, 0)),
        Step::Tells(2),
        Step::At(0, Look::Compares(2, (false, true))),
        Step::At(0, Look::Knows(1)),
    ];
    check_steps(&rt, alloc, blank(alloc, 10, 1)?, &steps)
}

/// A seat reads what is published, whether it learned of it or not.
#[test]
fn a_seat_reads_what_is_published_learned_or_not(rt: HostRuntime) -> Result<(), Fail> {
    let alloc = rt.alloc();
    let steps = [
        Step::Put(Change::Set(1, 1, b'x', 0, None), (1, 0)),
        Step::At(0, Look::Learns(0)),
        Step::At(0, Look::Reads(0, 1, b"x ")),
        Step::Tells(1),
        Step::At(0, Look::Learns(1)),
        Step::At(0, Look::Reads(0, 1, b"x ")),
        Step::At(1, Look::Learns(1)),
        Step::At(1, Look::Reads(0, 1, b"x ")),
        Step::At(2, Look::Reads(0, 1, b"x ")),
    ];
    check_steps(&rt, alloc, blank(alloc, 10, 3)?, &steps)
}

/// The Sweep is an entry of its own, so the number of the Set is 2 more. A seat that knows the receipt reads what is left.
#[test]
fn expired_messages_make_space(rt: HostRuntime) -> Result<(), Fail> {
    let alloc = rt.alloc();
    let steps = [
        // `a` is held until 110, and `b` for ever.
        Step::Put(Change::Set(1, 1, b'a', 100, Some(10)), (1, 0)),
        Step::Put(Change::Set(1, 2, b'b', 100, None), (2, 0)),
        Step::Put(Change::Set(1, 3, b'c', 109, None), (0, 30)),
        // It needs no space, so nothing is swept.
        Step::Put(Change::Set(1, 4, b'b', 110, None), (3, 0)),
        Step::Put(Change::Set(1, 5, b'c', 110, None), (5, 0)),
        Step::At(0, Look::Learns(3)),
        Step::At(0, Look::Reads(110, 5, b"b c ")),
        Step::HoldsNothing,
        // Both stay for ever, so no place comes free, and nothing is swept.
        Step::Put(Change::Set(1, 6, b'd', u64::MAX, None), (0, 30)),
        Step::Tells(5),
    ];
    check_steps(&rt, alloc, blank(alloc, 2, 1)?, &steps)
}

/// Each Sweep is of the moment at which the message of its Set came, also where the clock went back.
#[test]
fn each_sweep_is_of_the_moment_of_its_set(rt: HostRuntime) -> Result<(), Fail> {
    let alloc = rt.alloc();
    let steps = [
        Step::Put(Change::Set(1, 1, b'a', 100, Some(10)), (1, 0)),
        Step::Put(Change::Set(1, 2, b'b', 110, Some(10)), (3, 0)),
        Step::Put(Change::Set(1, 3, b'c', 105, None), (0, 30)),
        Step::Put(Change::Set(1, 4, b'c', 119, None), (0, 30)),
        Step::Put(Change::Set(1, 5, b'c', 120, Some(10)), (5, 0)),
        Step::Put(Change::Set(1, 6, b'd', 50, None), (0, 30)),
        Step::Put(Change::Set(1, 7, b'c', 10, Some(1)), (6, 0)),
        Step::Put(Change::Set(1, 8, b'd', 11, Some(1)), (8, 0)),
        Step::Put(Change::Set(1, 9, b'e', 11, None), (0, 30)),
    ];
    check_steps(&rt, alloc, blank(alloc, 1, 1)?, &steps)
}

/// A message without an interval counts 363 bytes here, and one with it 368. What is refused makes no entry, and no Sweep either.
#[test]
fn a_set_is_refused_beyond_the_limit_of_bytes(rt: HostRuntime) -> Result<(), Fail> {
    let alloc = rt.alloc();
    let steps = [
        Step::Put(Change::Set(1, 1, b'a', 100, Some(10)), (1, 0)),
        Step::Put(Change::Set(1, 2, b'b', 100, None), (2, 0)),
        // `a` has expired, but there is space for a topic.
        Step::Put(Change::Set(1, 3, b'c', 120, None), (0, 32)),
        Step::HoldsNothing,
        // What is replaced gives its bytes back, here too few of them.
        Step::Put(Change::Set(1, 3, b'b', 100, Some(10)), (0, 32)),
        Step::Put(Change::Set(1, 3, b'b', 120, None), (3, 0)),
        Step::Put(Change::Clear(1, 4, b'a'), (4, 0)),
        Step::Put(Change::Set(1, 5, b'c', 120, None), (5, 0)),
        Step::At(0, Look::Reads(120, 5, b"b c ")),
    ];
    check_steps(&rt, alloc, blank(alloc, 3, 1)?.with_memory(731), &steps)
}

#[test]
fn faults_of_a_put_have_codes_and_texts(rt: HostRuntime) {
    let rows: [(PutFault, u8, &str); 4] = [
        (
            PutFault::Full,
            30,
            "the store holds as many topics as it may, or has no number left; clear a topic or raise the limit",
        ),
        (
            PutFault::Stale,
            31,
            "the serial is not above the last one of its place; number the entries of a place in rising order",
        ),
        (
            PutFault::NoMemory,
            32,
            "memory was refused, and the entry was not stored; free memory and try again",
        ),
        (
            PutFault::Held,
            33,
            "memory was refused before the entry could be published; it is kept, so free memory and retry it",
        ),
    ];
    for (fault, code, text) in rows {
        assert!(rt; fault.code() == code);
        assert!(rt; is_shown(rt.alloc(), &fault, text));
    }
}
