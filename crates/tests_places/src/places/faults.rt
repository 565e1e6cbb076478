//! One failing read, write or flush, and what the next connections of the place get then.

use kit_places::{NONE, PLAIN, PUBLISHES, Row, as_wanted, cut_row, ending, plain_row, play};
use kit_test::{
    Behavior, FAULTS, FIRST, FIRST_REPLIES, Fault, SECOND, ServeResult, first_written,
    second_replies,
};
use rs_server::Served;
use std::test::Fail;

const CLOSED: ServeResult = Ok(Served::ClientClosed);

/// The connection of which a call fails, one that reads, and one that publishes. A byte goes by each call. The serial of the last one
/// is above that of the first, else the writer would refuse it.
fn rows(fault: &Fault, at: usize) -> [Row<'static>; 3] {
    let mut course = ending(PLAIN, fault.ends);
    course.behavior = Behavior {
        step: 1,
        call: fault.call,
        at,
    };
    let first = cut_row(course, FIRST, FIRST_REPLIES, first_written(fault, at));
    course.behavior.at = 0;
    let reads = ending(course, Ok(Served::EndOfInput));
    let second = plain_row(reads, SECOND, second_replies(fault));
    let third = plain_row(ending(course, CLOSED), PUBLISHES, NONE);
    [first, second, third]
}

#[test]
fn the_next_connections_are_served_after_a_failed_call(rt: HostRuntime) -> Result<(), Fail> {
    for fault in FAULTS {
        let call = fault.call;
        let changes = if fault.is_kept { 2 } else { 1 };
        for at in fault.first..=fault.last {
            let ran = play(rt, rt.alloc(), 7, 1, &rows(fault, at))?;
            assert!(rt; ran == as_wanted(1, 3, changes, changes), "{call:?} {at}");
        }
    }
    Ok(())
}
