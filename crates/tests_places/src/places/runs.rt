//! Places on threads of their own.

use kit_places::{
    Counts, NONE, PLAIN, PUBLISHES, Row, SUBSCRIBES, Script, as_wanted, assigned, ending, later,
    plain_row, play, run_scripts, scripts,
};
use kit_test::{CONNACK, CONNECT, REPLAYED, SUBSCRIBED, concat};
use rs_places_pool::{NoWatch, Runner};
use rs_server::Served;
use std::alloc::{AllocError, Global};
use std::sync::Arc;
use std::test::Fail;

/// Each of two connections is held in its SUBSCRIBE until the other has come to its own. One thread for both would not do.
#[test]
fn two_places_serve_at_the_same_time(rt: HostRuntime) -> Result<(), Fail> {
    let mut meeting = PLAIN;
    meeting.together = 2;
    let first = plain_row(meeting, SUBSCRIBES, SUBSCRIBED);
    meeting.place = 2;
    let second = plain_row(meeting, SUBSCRIBES, SUBSCRIBED);
    assert!(rt; play(rt, rt.alloc(), 10, 2, &[first, second])? == as_wanted(2, 2, 0, 0));
    Ok(())
}

/// The next connection of a place is sent what the one before published, and so is that of a place that was told nothing. A third
/// place has no connection, and is served too.
#[test]
fn a_later_connection_is_sent_what_was_published(rt: HostRuntime) -> Result<(), Fail> {
    let rows = [
        plain_row(PLAIN, PUBLISHES, NONE),
        plain_row(PLAIN, SUBSCRIBES, REPLAYED),
        plain_row(later(2, 1), SUBSCRIBES, REPLAYED),
    ];
    assert!(rt; play(rt, rt.alloc(), 10, 3, &rows)? == as_wanted(3, 3, 1, 1));
    Ok(())
}

/// Appends a PUBLISH of QoS 1.
fn put_publish(input: &mut Vec<u8>, topic: u8, id: u8, payload: u8) -> Result<(), AllocError> {
    input.extend_from_slice(b"\x33\x07\x00\x01")?;
    input.extend_from_slice(&[topic, 0, id, 0, payload])
}

/// Appends fifty PUBLISHes of QoS 1 to a topic, whose payloads are the numbers from this one on, and the PUBACKs.
fn publish_fifty(
    topic: u8,
    first: u8,
    input: &mut Vec<u8>,
    output: &mut Vec<u8>,
) -> Result<(), AllocError> {
    for before in 0..50u8 {
        let id = before + 1;
        put_publish(input, topic, id, first.saturating_add(before))?;
        output.extend_from_slice(&[0x40, 0x02, 0, id])?;
    }
    Ok(())
}

/// A CONNECT without a client identifier, fifty PUBLISHes to the topic of the place, and a SUBSCRIBE of it.
fn put_own(alloc: Global, place: u8, number: u8, script: &mut Script) -> Result<(), AllocError> {
    let topic = place.saturating_add(b'/');
    let last = number.saturating_mul(50);
    let mut output = assigned(alloc, u16::from(place), u64::from(number))?;
    let mut input = concat(
        alloc,
        &[b"\x10\x0D\x00\x04MQTT\x05\x02\x00\x3C\x00\x00\x00".as_slice()],
    )?;
    publish_fifty(topic, last.saturating_sub(49), &mut input, &mut output)?;
    input.extend_from_slice(&[0x82, 7, 0, 2, 0, 0, 1, topic, 0, 0xE0, 0])?;
    output.extend_from_slice(&[0x90, 4, 0, 2, 0, 0, 0x31, 5, 0, 1, topic, 0, last])?;
    script.put(later(place, 0), input, output)
}

fn put_all(alloc: Global, scripts: &mut [Script]) -> Result<(), AllocError> {
    let mut place = 0u8;
    for script in scripts {
        place = place.saturating_add(1);
        put_own(alloc, place, 1, script)?;
        put_own(alloc, place, 2, script)?;
    }
    Ok(())
}

/// 64 places with two connections each, whose assigned client identifiers name the place and the number of the connection. Each
/// connection publishes the next numbers and reads the last one back, so the changes of a place are made in its order.
#[test]
fn the_changes_of_each_place_are_made_in_order(rt: HostRuntime) -> Result<(), Fail> {
    let alloc = rt.alloc();
    let counts = Arc::new(alloc, Counts::new())?;
    let mut turns = scripts(alloc, &counts, 64)?;
    put_all(alloc, turns.as_mut_slice())?;
    let runner = Runner::<NoWatch>::OneEach;
    let ran = run_scripts(rt, alloc, (100, 64), turns, &counts, runner)?;
    assert!(rt; ran == as_wanted(64, 128, 6400, 6400));
    Ok(())
}

/// A retained PUBLISH of a, as large as a packet may be, up to its payload.
const HEAD: &[u8] = b"\x31\xFC\xFF\x0F\x00\x01a\x00";

/// It goes from one place to another.
#[test]
fn the_largest_packet_goes_from_place_to_place(rt: HostRuntime) -> Result<(), Fail> {
    let alloc = rt.alloc();
    let payload = vec![in alloc; b'x'; 262_136]?;
    let replies = concat(alloc, &[SUBSCRIBED, HEAD])?;
    let rows = [
        Row {
            course: ending(PLAIN, Ok(Served::EndOfInput)),
            sent: [CONNECT, HEAD, &payload, NONE],
            replies: [CONNACK, NONE, NONE],
        },
        Row {
            course: later(2, 1),
            sent: [SUBSCRIBES, NONE, NONE, NONE],
            replies: [CONNACK, &replies, &payload],
        },
    ];
    assert!(rt; play(rt, alloc, 10, 2, &rows)? == as_wanted(2, 2, 1, 1));
    Ok(())
}

/// CONNECT; of QoS 1 a, b, c, a again, and a clearing of d; DISCONNECT.
const FILLS: &[u8] =
    b"\x10\x0E\x00\x04MQTT\x05\x02\x00\x3C\x00\x00\x01a\x33\x07\x00\x01a\x00\x01\x001\x33\x07\x00\x01b\x00\x02\x002\x33\x07\x00\x01c\x00\x03\x003\x33\x07\x00\x01a\x00\x04\x004\x33\x06\x00\x01d\x00\x05\x00\xE0\x00";

/// A PUBACK for each, the third with 0x97 (Quota exceeded).
const FILLED: &[u8] =
    b"\x40\x02\x00\x01\x40\x02\x00\x02\x40\x03\x00\x03\x97\x40\x02\x00\x04\x40\x02\x00\x05";

/// A store of two topics takes a replacement and a clearing, and no third topic.
#[test]
fn a_full_store_takes_replacements_and_clears(rt: HostRuntime) -> Result<(), Fail> {
    let fills = [plain_row(PLAIN, FILLS, FILLED)];
    assert!(rt; play(rt, rt.alloc(), 2, 1, &fills)? == as_wanted(1, 1, 5, 4));
    Ok(())
}
