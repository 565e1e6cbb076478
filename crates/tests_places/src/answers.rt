//! What a gate answers to a filter, with and without a limit.

mod shared;

use kit_test::{MapCatalogue, blank_store, set};
use rs_intake::blank_queue;
use rs_message::{Found, LineCount, PlaceCount};
use rs_program_pipe::OwnGate;
use rs_session::{Gate, LocalGate};
use rs_store::{Catalogue, TopicLimit};
use rs_topic::TopicFilter;
use rs_tree::TreeCatalogue;
use shared::check_shared_gates;
use std::alloc::Global;
use std::marker::Brand;
use std::process::Abort;
use std::sync::Wait;
use std::test::Fail;
use std::thread::Threads;

/// Whether a/b is all that was found, and has x.
fn is_x(found: &[Found]) -> bool {
    match found {
        [one] => {
            one.topic().as_bytes() == b"a/b".as_slice()
                && one.message().payload().as_slice() == b"x".as_slice()
        }
        _ => false,
    }
}

fn sets<G: Gate>(alloc: Global, gate: &mut G) -> bool {
    match set(alloc, b"a/b", b"x") {
        Some(change) => gate.submit(change).is_ok(),
        None => false,
    }
}

/// Whether the message that is kept is answered.
fn answers<G: Gate>(gate: &mut G, all: &TopicFilter) -> bool {
    match gate.answer(all, 0) {
        Ok(found) => is_x(found.as_slice()),
        Err(_) => false,
    }
}

/// Whether it is answered with a limit if there is room for it, and only then.
fn answers_within<G: Gate>(gate: &mut G, all: &TopicFilter) -> bool {
    let is_refused = match gate.answer_within(all, 0, 0) {
        Ok(found) => found.is_none(),
        Err(_) => false,
    };
    match gate.answer_within(all, 0, 1) {
        Ok(Some(found)) => is_refused && is_x(found.as_slice()),
        _ => false,
    }
}

/// Whether a message is taken, and is what the gate then answers, with and without a limit.
fn takes_and_answers<G: Gate>(alloc: Global, gate: &mut G, all: &TopicFilter) -> bool {
    sets(alloc, gate) && answers(gate, all) && answers_within(gate, all)
}

/// A gate of one thread to an empty store for seven topics.
fn local_gate<C: Catalogue>(alloc: Global) -> Result<LocalGate<C>, Fail> {
    let limit = TopicLimit::new(7).ok_or("the limit")?;
    Ok(LocalGate::new(alloc, limit)?)
}

/// Two gates of a store, which have so many seats.
fn check_seats<R: Threads + Wait + Abort + Copy + Send + Sync + 'static>(
    rt: R,
    alloc: Global,
    seats: u8,
    all: &TopicFilter,
) -> Result<(), Fail> {
    let seats = PlaceCount::new(seats).ok_or("seats")?;
    let lines = LineCount::new(2).ok_or("two lines")?;
    let blank = blank_store(alloc, 7, seats)?;
    check_shared_gates::<Brand, R>(rt, alloc, blank, blank_queue(alloc, lines)?, all)
}

#[test]
fn each_gate_answers_what_it_took(rt: HostRuntime) -> Result<(), Fail> {
    let alloc = rt.alloc();
    let all = TopicFilter::read(alloc, b"#")?;
    assert!(rt; takes_and_answers(alloc, &mut local_gate::<MapCatalogue>(alloc)?, &all));
    assert!(rt; takes_and_answers(alloc, &mut local_gate::<TreeCatalogue>(alloc)?, &all));
    assert!(rt; takes_and_answers(alloc, &mut OwnGate::new(alloc)?, &all));
    for seats in [1, 2] {
        check_seats(rt, alloc, seats, &all)?;
    }
    Ok(())
}
