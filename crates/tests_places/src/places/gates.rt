//! Gates of one store, held side by side, each with a line of its own: what each is told and answered, before the writer's thread is there
//! and then. They read by a seat each, or share seats.

ghost use Rattle.std.specs.Prelude.{◌≡◌, false, All, IfSome};
ghost use Rattle.rs_message.specs.Messages.{is_sweep};
ghost use Rattle.rs_version.specs.First.{AreOwn};
ghost use Rattle.rs_version.specs.Writer.{kept_of};

use kit_test::{blank_store, set};
use rs_intake::{BlankQueue, Ended, Queue, blank_queue, run_writer, settle};
use rs_intake_line::LineName;
use rs_message::{LineCount, Operation, PlaceCount};
use rs_places::{SharedGate, open_gates};
use rs_places_steps::LineGate;
use rs_session::Gate;
use rs_topic::TopicFilter;
use rs_version::{Blank, VersionWriter};
use std::alloc::Global;
use std::marker::Brand;
use std::sync::Wait;
use std::test::Fail;
use std::thread::{JoinHandle, Threads, spawn};

/// What a client does.
#[derive(Clone, Copy)]
enum Act {
    /// It announces the Sets of the topics from the first number to before the second.
    Expects(u8, u8),
    /// It submits the Set of the topic of this number, and this is the code of the fault, or 0.
    Submits(u8, u8),
    /// It knows so many entries.
    Knows(u64),
    /// It is answered so many messages of all topics, and knows as many entries then.
    Reads(u64),
    /// Its connection ends.
    Ends,
}

use Act::{Ends, Expects, Knows, Reads, Submits};

/// The number of a client, from 0 on, and what it does.
type Step = (usize, Act);

/// Three clients of a store of so many topics. What they do before the writer's thread is started, and then; and how many changes the
/// writer took in the end.
#[derive(Clone, Copy)]
struct Row {
    topics: u32,
    before: &'static [Step],
    then: &'static [Step],
    taken: u64,
}

const CLIENTS: u8 = 3;

/// The Set of the topic of this number. None if memory is refused.
fn change(alloc: Global, number: u8) -> Option<Operation>
    ensures { IfSome result (λ o. is_sweep o ≡ false) }
{
    set(alloc, &[b'a' + number % 16], b"x")
}

/// The Sets of the topics from the first number to before the second. None if memory is refused.
fn changes(alloc: Global, first: u8, end: u8) -> Option<Vec<Operation>>
    ensures { IfSome result (λ changes. All (λ o. is_sweep o ≡ false) changes.items) }
{
    let mut changes = Vec::new(alloc);
    for number in first..end {
        changes.push(change(alloc, number)?).ok()?;
    }
    Some(changes)
}

/// Submits the Set of this topic. The code of the fault, or 0. None if memory is refused.
fn submit<G: Gate>(alloc: Global, gate: &mut G, number: u8) -> Option<u8> {
    match gate.submit(change(alloc, number)?) {
        Ok(()) => Some(0),
        Err(fault) => Some(fault.code()),
    }
}

/// How many messages the gate is answered. None if memory is refused.
fn count<G: Gate>(alloc: Global, gate: &mut G) -> Option<u64> {
    let all = TopicFilter::read(alloc, b"#").ok()?;
    let found = gate.answer(&all, 0).ok()?;
    Some(found.len() as u64)
}

/// Whether it went as it has to.
fn does<N: LineName, R: Wait + Copy>(alloc: Global, gate: &mut SharedGate<N, R>, act: Act) -> bool {
    match act {
        Expects(first, end) => {
            let Some(changes) = changes(alloc, first, end) else {
                return false;
            };
            gate.expect(changes);
            true
        }
        Submits(number, code) => submit(alloc, gate, number) == Some(code),
        Knows(version) => gate.version() == version,
        Reads(messages) => count(alloc, gate) == Some(messages) && gate.version() == messages,
        Ends => {
            gate.hand_on();
            true
        }
    }
}

/// The number of the first step that did not go as it has to.
fn first_wrong<N: LineName, R: Wait + Copy>(
    alloc: Global,
    gates: &mut Vec<SharedGate<N, R>>,
    steps: &[Step],
) -> Option<usize> {
    for (number, step) in steps.iter().enumerate() {
        let (client, act) = *step;
        let Some(gate) = gates.get_mut(client) else {
            return Some(number);
        };
        if !does(alloc, gate, act) {
            return Some(number);
        }
    }
    None
}

fn start_writer<
    N: LineName + Send + Sync + 'static,
    R: Threads + Wait + Copy + Send + Sync + 'static,
>(
    rt: R,
    queue: Queue<N>,
    writer: VersionWriter<N, R>,
) -> Option<JoinHandle<Ended<N, VersionWriter<N, R>>>>
    requires { AreOwn (kept_of writer) }
{
    spawn(&rt, move || run_writer(&rt, queue, writer)).ok()
}

/// What came of a row: the number of the first step that did not go as it has to, before the writer's thread was started and then; how many
/// changes the writer took; and whether these are all that were sent.
#[derive(Clone, Copy, Debug, PartialEq, Eq)]
struct Came {
    before: Option<usize>,
    then: Option<usize>,
    taken: u64,
    is_settled: bool,
}

/// Plays the row. None if memory or a thread is refused.
fn play_named<
    N: LineName + Send + Sync + 'static,
    R: Threads + Wait + Copy + Send + Sync + 'static,
>(rt: R, alloc: Global, blank: Blank, queue: BlankQueue, row: Row) -> Option<Came>
    requires store { (blank.history ≡ N.history) × (blank.limit ≡ N.limit) }
    requires queue { (queue.name ≡ N.queue) × (queue.places ≡ N.places) }
{
    let Ok((writer, seats)) = blank.open::<N, R>(rt) else {
        return None;
    };
    let (intake, lines, queue) = queue.open::<N>().ok()?;
    let mut gates = Vec::new(alloc);
    for gate in open_gates(rt, alloc, intake, seats, lines).ok()? {
        gates.push(gate.into_gate()).ok()?;
    }
    let mut ends = Vec::with_capacity(alloc, gates.len()).ok()?;
    let before = first_wrong(alloc, &mut gates, row.before);
    let writing = start_writer(rt, queue, writer)?;
    let then = first_wrong(alloc, &mut gates, row.then);
    for gate in gates {
        let _ = ends.push(gate.close());
    }
    let mut ended = writing.join(&rt);
    let settled = settle(ends, &mut ended).ok();
    Some(Came {
        before,
        then,
        taken: ended.taken,
        is_settled: settled == Some(ended.taken),
    })
}

/// What came of the row, if the clients read by so many seats.
fn play<R: Threads + Wait + Copy + Send + Sync + 'static>(
    rt: R,
    alloc: Global,
    seats: u8,
    row: Row,
) -> Result<Option<Came>, Fail> {
    let seats = PlaceCount::new(seats).ok_or("seats")?;
    let lines = LineCount::new(u16::from(CLIENTS)).ok_or("lines")?;
    let blank = blank_store(alloc, row.topics, seats)?;
    let queue = blank_queue(alloc, lines)?;
    Ok(play_named::<Brand, R>(rt, alloc, blank, queue, row))
}

const ROWS: &[Row] = &[
    // While the writer stands still, each is answered from what it knows. Then those that announced changes submit them.
    Row {
        topics: 10,
        before: &[
            (0, Reads(0)),
            (0, Expects(0, 3)),
            (0, Reads(0)),
            (1, Expects(3, 4)),
            (2, Reads(0)),
            (1, Reads(0)),
        ],
        then: &[
            (0, Submits(0, 0)),
            (1, Submits(3, 0)),
            (2, Reads(4)),
            (0, Submits(1, 0)),
            (0, Submits(2, 0)),
            (0, Reads(4)),
        ],
        taken: 4,
    },
    // What a client was told is in its answers, also if one that knew less, or more, read before it.
    Row {
        topics: 10,
        before: &[],
        then: &[
            (0, Submits(0, 0)),
            (0, Knows(1)),
            (1, Knows(0)),
            (1, Reads(1)),
            (0, Reads(1)),
            (2, Submits(1, 0)),
            (2, Knows(2)),
            (0, Knows(1)),
            (0, Reads(2)),
            (1, Knows(1)),
            (2, Reads(2)),
            (1, Reads(2)),
        ],
        taken: 2,
    },
    // Each has the outcomes of its own changes, in whichever order they are asked for: the last two topics find the store full.
    Row {
        topics: 2,
        before: &[(2, Expects(0, 1)), (0, Expects(1, 3)), (1, Expects(3, 4))],
        then: &[
            (1, Submits(3, 40)),
            (0, Submits(1, 0)),
            (0, Submits(2, 40)),
            (2, Submits(0, 0)),
            (1, Reads(2)),
        ],
        taken: 4,
    },
    // A connection ends behind the first of three that it announced. All are taken, and the next connection takes no reply of theirs.
    Row {
        topics: 3,
        before: &[(0, Expects(0, 3))],
        then: &[
            (0, Submits(0, 0)),
            (0, Ends),
            (0, Submits(7, 40)),
            (1, Reads(3)),
            (0, Expects(8, 9)),
            (0, Ends),
            (0, Submits(1, 0)),
            (0, Knows(4)),
        ],
        taken: 6,
    },
    // Another change is submitted than was announced: nothing is done.
    Row {
        topics: 10,
        before: &[(0, Expects(0, 1)), (0, Submits(7, 43))],
        then: &[(0, Submits(0, 0)), (0, Reads(1))],
        taken: 1,
    },
    // Lines that are closed with changes ahead.
    Row {
        topics: 10,
        before: &[(0, Expects(0, 3)), (2, Expects(3, 5))],
        then: &[],
        taken: 5,
    },
];

/// By one seat for all, by two, and by a seat for each.
#[test]
fn each_gate_is_told_of_its_own_changes(rt: HostRuntime) -> Result<(), Fail> {
    for (number, row) in ROWS.iter().enumerate() {
        let wanted = Came {
            before: None,
            then: None,
            taken: row.taken,
            is_settled: true,
        };
        for seats in 1..=CLIENTS {
            let came = play(rt, rt.alloc(), seats, *row)?;
            assert!(rt; came == Some(wanted), "row {number}, {seats} seats");
        }
    }
    Ok(())
}
