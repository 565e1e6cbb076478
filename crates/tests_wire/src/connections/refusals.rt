//! What a gate refuses is counted. What a connection replies does not change by it.

ghost use Rattle.std.specs.Prelude.{None};

use kit_test::{CONNECT, concat};
use rs_message::{Found, Operation, SubmitFault};
use rs_server::{ConnectionId, Counted, CountedGate, Moments, Refusals, ServeFault, Served, serve};
use rs_session::Gate;
use rs_topic::TopicFilter;
use std::alloc::{AllocError, Global};
use std::process::Abort;
use std::sync::Wait;
use std::test::Fail;

/// What a filter is answered.
#[derive(Clone, Copy)]
enum FilterAnswer {
    Nothing,
    TooLong,
    NoMemory,
}

/// A gate that gives these answers, one after the other, and then takes all. It stands for no list, so it promises nothing of its lists.
#[derive(Drop)]
struct Answering {
    alloc: Global,
    changes: &'static [Result<(), SubmitFault>],
    filters: &'static [FilterAnswer],
}

impl Answering {
    fn filter(&mut self) -> FilterAnswer {
        let Some((first, rest)) = self.filters.split_first() else {
            return FilterAnswer::Nothing;
        };
        self.filters = rest;
        *first
    }
}

impl Gate for Answering {
    ghost stands = { λ _ _. ⊥ };

    ghost mark = { λ _. record { place = 1; serial = 0; sent = None } };

    fn pending_count(&self) -> usize {
        0
    }

    fn submit(&mut self, _operation: Operation) -> Result<(), SubmitFault> {
        let Some((first, rest)) = self.changes.split_first() else {
            return Ok(());
        };
        self.changes = rest;
        *first
    }

    fn answer_within(
        &mut self,
        _filter: &TopicFilter,
        _now: u64,
        _room: usize,
    ) -> Result<Option<Vec<Found>>, AllocError> {
        match self.filter() {
            FilterAnswer::Nothing => Ok(Some(Vec::new(self.alloc))),
            FilterAnswer::TooLong => Ok(None),
            FilterAnswer::NoMemory => Err(AllocError),
        }
    }
}

/// PUBLISH with RETAIN 1 to `a`: at QoS 0, 1 and 2, and again at QoS 0. SUBSCRIBE of `a`, `b` and `c`, and DISCONNECT.
const SENT: &[u8] =
    b"\x31\x05\x00\x01a\x00x\x33\x07\x00\x01a\x00\x63\x00x\x35\x07\x00\x01a\x00\x63\x00x\x31\x05\x00\x01a\x00x\
\x82\x0F\x00\x01\x00\x00\x01a\x00\x00\x01b\x00\x00\x01c\x00\xE0\x00";

/// Nothing is refused.
const NONE: Refusals = Refusals {
    full: 0,
    no_memory: 0,
    unknown: 0,
    filters_no_memory: 0,
    filters_too_long: 0,
};

/// What the gate answers, and what is counted.
const COUNTED: &[(&[Result<(), SubmitFault>], &[FilterAnswer], Refusals)] = &[
    (&[], &[], NONE),
    (
        &[
            Err(SubmitFault::Full),
            Err(SubmitFault::NoMemory),
            Err(SubmitFault::Full),
        ],
        &[FilterAnswer::Nothing],
        Refusals {
            full: 2,
            no_memory: 1,
            ..NONE
        },
    ),
    (
        &[Ok(()), Ok(()), Ok(()), Err(SubmitFault::NoMemory)],
        &[
            FilterAnswer::TooLong,
            FilterAnswer::NoMemory,
            FilterAnswer::TooLong,
        ],
        Refusals {
            no_memory: 1,
            filters_no_memory: 1,
            filters_too_long: 2,
            ..NONE
        },
    ),
    // These faults end the session.
    (
        &[Err(SubmitFault::Full), Err(SubmitFault::Open)],
        &[],
        Refusals {
            full: 1,
            unknown: 1,
            ..NONE
        },
    ),
    (
        &[Err(SubmitFault::Strange)],
        &[],
        Refusals { unknown: 1, ..NONE },
    ),
    (
        &[Err(SubmitFault::Closed)],
        &[],
        Refusals { unknown: 1, ..NONE },
    ),
];

/// How a connection that sends this ends over this gate, what is written, and the gate.
fn served_over<H: Wait, G: Gate>(
    rt: &H,
    alloc: Global,
    sent: &[u8],
    gate: G,
) -> (Result<Served, ServeFault>, Vec<u8>, G) {
    let mut reader = Counted::new(sent);
    let mut writer = Counted::new(Vec::new(alloc));
    let mut clock = Moments::new(0, Vec::new(alloc));
    let id = ConnectionId {
        place: 1,
        number: 1,
    };
    let (served, gate, _handled) = serve(rt, alloc, &mut reader, &mut writer, gate, id, &mut clock);
    (served, writer.into_inner(), gate)
}

fn check_counted<H: Wait + Abort>(
    rt: &H,
    alloc: Global,
    changes: &'static [Result<(), SubmitFault>],
    filters: &'static [FilterAnswer],
    wanted: Refusals,
) -> Result<(), Fail> {
    let plain = Answering {
        alloc,
        changes,
        filters,
    };
    let counted = CountedGate::new(Answering {
        alloc,
        changes,
        filters,
    });
    let sent = concat(alloc, &[CONNECT, SENT])?;
    let (served, written, _gate) = served_over(rt, alloc, sent.as_slice(), plain);
    let (also_served, also_written, gate) = served_over(rt, alloc, sent.as_slice(), counted);
    assert!(rt; also_served == served);
    assert!(rt; also_written.as_slice() == written.as_slice());
    let (_gate, refusals) = gate.into_parts();
    assert!(rt; refusals == wanted);
    Ok(())
}

#[test]
fn what_a_connection_is_refused_is_counted(rt: HostRuntime) -> Result<(), Fail> {
    for (changes, filters, wanted) in COUNTED {
        check_counted(&rt, rt.alloc(), changes, filters, *wanted)?;
    }
    Ok(())
}

#[test]
fn a_filter_with_any_room_is_counted(rt: HostRuntime) -> Result<(), Fail> {
    let alloc = rt.alloc();
    let filter = TopicFilter::read(alloc, b"a")?;
    let mut gate = CountedGate::new(Answering {
        alloc,
        changes: &[],
        filters: &[FilterAnswer::NoMemory, FilterAnswer::Nothing],
    });
    let refused = gate.answer(&filter, 0).is_err();
    assert!(rt; refused);
    let answered = gate.answer(&filter, 0).is_ok();
    assert!(rt; answered);
    let (_gate, refusals) = gate.into_parts();
    assert!(rt;
        refusals
            == Refusals {
                filters_no_memory: 1,
                ..NONE
            }
    );
    Ok(())
}
