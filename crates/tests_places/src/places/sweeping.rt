//! Expired messages make space for new topics.

use kit_places::{NONE, Row, as_wanted, ending, later, play};
use kit_test::{CONNACK, CONNECT};
use rs_server::Served;
use std::alloc::{AllocError, Global};
use std::test::Fail;

/// Of QoS 1 a with a Message Expiry Interval of 10, b, c, and c again; a SUBSCRIBE of #.
const SENT: &[u8] =
    b"\x33\x0C\x00\x01a\x00\x01\x05\x02\x00\x00\x00\x0A1\x33\x07\x00\x01b\x00\x02\x002\x33\x07\x00\x01c\x00\x03\x003\x33\x07\x00\x01c\x00\x04\x003\x82\x07\x00\x05\x00\x00\x01#\x00";

/// The moments of its CONNECT and of these packets.
const MOMENTS: &[u64] = &[0, 100, 100, 109, 110, 110];

/// A PUBACK for each, the third with 0x97 (Quota exceeded), and the SUBACK.
const REPLIES: &[u8] =
    b"\x40\x02\x00\x01\x40\x02\x00\x02\x40\x03\x00\x03\x97\x40\x02\x00\x04\x90\x04\x00\x05\x00\x00";

/// The messages that are left.
const LEFT: &[u8] = b"\x31\x05\x00\x01b\x002\x31\x05\x00\x01c\x003";

/// A SUBSCRIBE of #.
const SUBSCRIBE: &[u8] = b"\x82\x07\x00\x01\x00\x00\x01#\x00";

/// SUBACK.
const GRANTED: &[u8] = b"\x90\x04\x00\x01\x00\x00";

/// A connection of this place that begins once so many have ended, at these moments, until its input ends.
fn row_of<'a>(
    place: u8,
    after: u64,
    moments: &'static [u64],
    sent: [&'a [u8]; 3],
    replies: [&'a [u8]; 2],
) -> Row<'a> {
    let mut course = ending(later(place, after), Ok(Served::EndOfInput));
    course.moments = moments;
    let [first, second, third] = sent;
    let [reply, messages] = replies;
    Row {
        course,
        sent: [CONNECT, first, second, third],
        replies: [CONNACK, reply, messages],
    }
}

/// In a store of two topics, a third finds no space while one has a second left, and takes its place when it has expired. Another
/// place reads the same. Four jobs, of which one was refused, and four entries: of a, of b, the Sweep, and of c.
#[test]
fn an_expired_message_makes_space_for_a_third_topic(rt: HostRuntime) -> Result<(), Fail> {
    let rows = [
        row_of(1, 0, MOMENTS, [SENT, NONE, NONE], [REPLIES, LEFT]),
        row_of(2, 1, AT_110, [SUBSCRIBE, NONE, NONE], [GRANTED, LEFT]),
    ];
    assert!(rt; play(rt, rt.alloc(), 2, 2, &rows)? == as_wanted(2, 2, 4, 4));
    Ok(())
}

/// How many places there are, and topics.
const PLACES: u8 = 64;

const AT_100: &[u64] = &[100];

const AT_109: &[u64] = &[109];

const AT_110: &[u64] = &[110];

/// The topics of the places.
const TOPICS: &[u8] = b"0123456789:;<=>?@ABCDEFGHIJKLMNOPQRSTUVWXYZ[\\]^_`abcdefghijklmno";

/// PUBACK.
const TAKEN: &[u8] = b"\x40\x02\x00\x01";

/// PUBACK with 0x97 (Quota exceeded).
const REFUSED: &[u8] = b"\x40\x03\x00\x01\x97";

/// The rounds of a place. A connection begins once those of the round before have ended at all places. In the first round the place
/// publishes a topic that lasts 10 seconds, in the second and the third another one, which is refused and then taken. In the fourth
/// it reads.
fn rounds<'a>(place: u8, topic: &'a [u8], messages: &'a [u8]) -> [Row<'a>; 4] {
    let first = [
        b"\x33\x0C\x00\x01".as_slice(),
        topic,
        b"\x00\x01\x05\x02\x00\x00\x00\x0Ax".as_slice(),
    ];
    let later = [
        b"\x33\x08\x00\x02n".as_slice(),
        topic,
        b"\x00\x01\x00x".as_slice(),
    ];
    let reads = [SUBSCRIBE, NONE, NONE];
    [
        row_of(place, 0, AT_100, first, [TAKEN, NONE]),
        row_of(place, 64, AT_109, later, [REFUSED, NONE]),
        row_of(place, 128, AT_110, later, [TAKEN, NONE]),
        row_of(place, 192, AT_110, reads, [GRANTED, messages]),
    ]
}

/// The later topics of all places, as they are read.
fn later_messages(alloc: Global) -> Result<Vec<u8>, AllocError> {
    let mut messages = Vec::new(alloc);
    for topic in TOPICS {
        messages.extend_from_slice(&[0x31, 6, 0, 2, b'n', *topic, 0, b'x'])?;
    }
    Ok(messages)
}

fn all_rounds<'a>(alloc: Global, messages: &'a [u8]) -> Result<Vec<Row<'a>>, AllocError> {
    let mut rows = Vec::new(alloc);
    for before in 0..PLACES {
        let at = usize::from(before);
        for row in rounds(before + 1, &TOPICS[at..at + 1], messages) {
            rows.push(row)?;
        }
    }
    Ok(rows)
}

/// 64 places fill the store, find no space for as many other topics while their messages last, and fill it again when they have
/// expired. Each then reads the new ones alone. Three changes of each place, of which one is refused, and one Sweep for all.
#[test]
fn all_places_fill_the_store_again_once_all_has_expired(rt: HostRuntime) -> Result<(), Fail> {
    let alloc = rt.alloc();
    let messages = later_messages(alloc)?;
    let rows = all_rounds(alloc, &messages)?;
    assert!(rt; play(rt, alloc, 64, PLACES, &rows)? == as_wanted(64, 256, 192, 129));
    Ok(())
}
