//! Publications that came in one piece: their changes go to the writer together.

use kit_places::{NONE, PLAIN, PUBLISHES, Row, as_wanted, cut_row, ending, plain_row, play};
use kit_test::{Behavior, Call, SECOND, SUBSCRIBED, ServeResult};
use rs_server::{ServeFault, Served};
use std::test::Fail;

/// CONNECT, three retained PUBLISH of QoS 1.
const THREE: &[u8] =
    b"\x10\x0E\x00\x04MQTT\x05\x02\x00\x3C\x00\x00\x01a\x33\x09\x00\x03a/b\x00\x01\x00x\x33\x09\x00\x03a/c\x00\x02\x00y\x33\x09\x00\x03a/d\x00\x03\x00z";

/// What it is answered behind CONNACK (15 bytes): three PUBACK (4 bytes each).
const THREE_REPLIES: &[u8] = b"\x40\x02\x00\x01\x40\x02\x00\x02\x40\x02\x00\x03";

/// SUBACK, and the three PUBLISH.
const ALL_REPLAYED: &[u8] =
    b"\x90\x04\x00\x01\x00\x00\x31\x07\x00\x03a/b\x00x\x31\x07\x00\x03a/c\x00y\x31\x07\x00\x03a/d\x00z";

const INPUT: ServeResult = Ok(Served::EndOfInput);

const WRITE: ServeResult = Err(ServeFault::Write);

/// Which write fails, if one does; how the first connection ends then; how many bytes of its replies are written; and whether its
/// publications were kept. Once they were announced, all are.
type Fault = (usize, ServeResult, usize, bool);

const FAULTS: &[Fault] = &[
    (0, INPUT, 27, true),
    (1, WRITE, 0, false),
    (2, WRITE, 15, true),
    (3, WRITE, 19, true),
    (4, WRITE, 23, true),
];

/// The connection that publishes three at once, one that reads, and one that publishes. The serial of the last one is above those of
/// the first, else the writer would refuse it.
fn rows(at: usize, ends: ServeResult, written: usize, kept: bool) -> [Row<'static>; 3] {
    let mut course = ending(PLAIN, ends);
    course.behavior = Behavior {
        step: 100,
        call: Call::Write,
        at,
    };
    let first = cut_row(course, THREE, THREE_REPLIES, written);
    let got = if kept { ALL_REPLAYED } else { SUBSCRIBED };
    let second = plain_row(ending(PLAIN, INPUT), SECOND, got);
    let third = plain_row(PLAIN, PUBLISHES, NONE);
    [first, second, third]
}

/// Three publications in one piece, from a client to which some write fails, or none. All are kept if they were announced; the next
/// connection of the place reads them, and the one after it publishes.
#[test]
fn publications_of_one_piece_are_kept_together(rt: HostRuntime) -> Result<(), Fail> {
    for fault in FAULTS {
        let (at, ends, written, kept) = *fault;
        let changes = if kept { 4 } else { 1 };
        let rows = rows(at, ends, written, kept);
        let ran = play(rt, rt.alloc(), 7, 1, &rows)?;
        assert!(rt; ran == as_wanted(1, 3, changes, changes), "{at}");
    }
    Ok(())
}
