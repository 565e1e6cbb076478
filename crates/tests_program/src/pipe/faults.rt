//! One failing read, write or flush, and what a second connection by the same gate gets then, over the
//! program's store and over a bare gate.

use kit_test::{
    Behavior, CONNACK, Call, FAULTS, FIRST, FIRST_REPLIES, Fault, FaultyStream, MapCatalogue,
    SECOND, ServeResult, cut_off, first_written, is_concat, second_replies,
};
use rs_program_pipe::OwnGate;
use rs_server::{ConnectionId, Counted, Moments, Served, serve};
use rs_session::{Gate, LocalGate};
use rs_store::TopicLimit;
use std::alloc::Global;
use std::process::Abort;
use std::sync::Wait;
use std::test::Fail;

const ID: ConnectionId = ConnectionId {
    place: 1,
    number: 1,
};

// Whether the connection ends so and is written this, if its reader behaves so and its writer takes a byte a call. The gate is that of the
// next one.
fn is_served<H: Wait, G: Gate>(
    rt: &H,
    alloc: Global,
    gate: G,
    streams: (&'static [u8], Behavior),
    ends: ServeResult,
    written: [&[u8]; 2],
) -> (bool, G) {
    let (inner, behavior) = streams;
    let mut reader = Counted::new(FaultyStream { inner, behavior });
    let mut writer = Counted::new(FaultyStream {
        inner: Vec::new(alloc),
        behavior: Behavior {
            step: 1,
            ..behavior
        },
    });
    let mut clock = Moments::new(0, Vec::new(alloc));
    let (end, gate, _handled) = serve(rt, alloc, &mut reader, &mut writer, gate, ID, &mut clock);
    let bytes = writer.into_inner().inner;
    (end == ends && is_concat(&bytes, &written), gate)
}

// Whether the two connections go so, if this call of the first one fails.
fn both_are_served<H: Wait, G: Gate + Drop>(
    rt: &H,
    alloc: Global,
    gate: G,
    fault: &Fault,
    behavior: Behavior,
) -> bool {
    let written = cut_off(FIRST_REPLIES, first_written(fault, behavior.at));
    let (first, gate) = is_served(rt, alloc, gate, (FIRST, behavior), fault.ends, written);
    let none = Behavior { at: 0, ..behavior };
    let end = Ok(Served::EndOfInput);
    let got = [CONNACK, second_replies(fault)];
    let (second, _gate) = is_served(rt, alloc, gate, (SECOND, none), end, got);
    first && second
}

fn check_fault<H: Abort + Wait>(
    rt: &H,
    alloc: Global,
    step: usize,
    fault: &Fault,
) -> Result<(), Fail> {
    let call = fault.call;
    for at in fault.first..=fault.last {
        let behavior = Behavior { step, call, at };
        let own = both_are_served(rt, alloc, OwnGate::new(alloc)?, fault, behavior);
        assert!(rt; own, "{call:?} {at}");
        let limit = TopicLimit::new(7).ok_or("the limit")?;
        let gate = LocalGate::<MapCatalogue>::new(alloc, limit)?;
        let bare = both_are_served(rt, alloc, gate, fault, behavior);
        assert!(rt; bare, "bare {call:?} {at}");
    }
    Ok(())
}

#[test]
fn the_next_connection_is_served_after_a_failed_call(rt: HostRuntime) -> Result<(), Fail> {
    for fault in FAULTS {
        check_fault(&rt, rt.alloc(), 1, fault)?;
    }
    Ok(())
}

// If all packets come in one read, those behind the failed write are held, and are not handled.
#[test]
fn what_comes_behind_a_failed_write_is_not_handled(rt: HostRuntime) -> Result<(), Fail> {
    for fault in FAULTS {
        if fault.call != Call::Read {
            check_fault(&rt, rt.alloc(), FIRST.len(), fault)?;
        }
    }
    Ok(())
}
