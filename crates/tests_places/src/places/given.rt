//! Runs of a store that begins with messages.

use kit_places::{PLAIN, SUBSCRIBES, as_wanted, later, plain_row, play_given};
use kit_test::{SUBSCRIBED, found};
use rs_message::{Found, Qos};
use std::alloc::Global;
use std::test::Fail;

/// The messages `x` of `a/b`, `y` of `a/c` and `z` of `a/d`, which last for ever.
fn three(alloc: Global) -> Option<Vec<Found>> {
    let rows: [(&[u8], &[u8]); 3] = [(b"a/d", b"z"), (b"a/b", b"x"), (b"a/c", b"y")];
    let mut given = Vec::new(alloc);
    for (topic, payload) in rows {
        let found = found(alloc, topic, payload, Qos::AtMostOnce, 0, None)?;
        given.push(found).ok()?;
    }
    Some(given)
}

/// SUBACK, and a PUBLISH of each.
pub const ALL: &[u8] =
    b"\x90\x04\x00\x01\x00\x00\x31\x07\x00\x03a/b\x00x\x31\x07\x00\x03a/c\x00y\x31\x07\x00\x03a/d\x00z";

/// CONNECT, a clearing of each, of QoS 1, DISCONNECT.
pub const CLEARS: &[u8] =
    b"\x10\x0E\x00\x04MQTT\x05\x02\x00\x3C\x00\x00\x01a\x33\x08\x00\x03a/b\x00\x01\x00\x33\x08\x00\x03a/c\x00\x02\x00\x33\x08\x00\x03a/d\x00\x03\x00\xE0\x00";

/// A PUBACK for each.
pub const CLEARED: &[u8] = b"\x40\x02\x00\x01\x40\x02\x00\x02\x40\x02\x00\x03";

/// The first connection of each place is sent what was given, in the order of replay. Then one clears it, and the next are sent nothing.
#[test]
fn what_was_given_is_sent_until_it_is_cleared(rt: HostRuntime) -> Result<(), Fail> {
    let alloc = rt.alloc();
    let rows = [
        plain_row(PLAIN, SUBSCRIBES, ALL),
        plain_row(later(2, 1), SUBSCRIBES, ALL),
        plain_row(later(1, 2), CLEARS, CLEARED),
        plain_row(later(1, 3), SUBSCRIBES, SUBSCRIBED),
        plain_row(later(2, 4), SUBSCRIBES, SUBSCRIBED),
    ];
    let given = three(alloc).ok_or("messages")?;
    assert!(rt; play_given(rt, alloc, (3, 2), given, &rows)? == as_wanted(2, 5, 3, 6));
    Ok(())
}

/// CONNECT, a PUBLISH of b of QoS 1, DISCONNECT.
const ADDS: &[u8] =
    b"\x10\x0E\x00\x04MQTT\x05\x02\x00\x3C\x00\x00\x01a\x33\x07\x00\x01b\x00\x01\x00x\xE0\x00";

/// 0x97: Quota exceeded.
const FULL: &[u8] = b"\x40\x03\x00\x01\x97";

/// What was given counts towards the limit of topics.
#[test]
fn what_was_given_fills_the_store(rt: HostRuntime) -> Result<(), Fail> {
    let alloc = rt.alloc();
    let rows = [
        plain_row(PLAIN, ADDS, FULL),
        plain_row(later(1, 1), SUBSCRIBES, ALL),
    ];
    let given = three(alloc).ok_or("messages")?;
    assert!(rt; play_given(rt, alloc, (3, 1), given, &rows)? == as_wanted(1, 2, 1, 3));
    Ok(())
}
