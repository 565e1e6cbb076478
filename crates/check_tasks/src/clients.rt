//! What clients with a line each, who share a seat, show after memory was refused to what they hand over or ask for, or to the writer.

ghost use Rattle.std.specs.Prelude.{◌≡◌};

use crate::groups::{Group, Grouping, Opened, ROUNDS, blanks, groups, leave, open, start, summed};
use crate::view::View;
use kit_test::{Failure, check};
use rs_intake::BlankQueue;
use rs_intake_line::LineName;
use rs_message::{Operation, SubmitFault};
use rs_places::{SharedGate, open_gates};
use rs_places_steps::LineGate;
use rs_session::Gate;
use rs_topic::TopicFilter;
use rs_version::Blank;
use std::alloc::Global;
use std::collections::VecDeque;
use std::marker::Brand;
use std::sync::Wait;
use std::thread::Threads;

/// What the clients were told: how many changes have receipts, and how often memory was refused: to a submit that made no entry, to one whose
/// entry was held, and to an answer.
#[derive(Clone, Copy)]
struct Book {
    made: u64,
    submit: u64,
    held: u64,
    answer: u64,
}

impl Book {
    /// Takes note of a submit. Returns whether that may be.
    fn note(&mut self, told: Result<(), SubmitFault>) -> bool {
        match told {
            Ok(()) => self.made = self.made.saturating_add(1),
            Err(SubmitFault::NoMemory) => self.submit = self.submit.saturating_add(1),
            Err(SubmitFault::Open) => self.held = self.held.saturating_add(1),
            Err(_) => return false,
        }
        true
    }

    /// Whether a client may read this: each entry has a topic of its own, and is published, but for the last one that is held.
    fn may_read(&self, view: View) -> bool {
        let most = self.made.saturating_add(self.held);
        view.found == view.version && self.made <= view.version && view.version <= most
    }
}

/// What the client reads, or none if memory is refused for it.
fn view<N: LineName, H: Wait + Copy>(
    gate: &mut SharedGate<N, H>,
    all: &TopicFilter,
) -> Option<View> {
    let found = gate.answer(all, 0).ok()?;
    Some(View {
        version: gate.version(),
        found: found.len() as u64,
    })
}

/// The client reads. If memory is refused, it asks again.
fn read<N: LineName, H: Wait + Copy>(
    gate: &mut SharedGate<N, H>,
    all: &TopicFilter,
    book: &mut Book,
) -> Result<(), Failure> {
    if let Some(view) = view(gate, all) {
        return check(book.may_read(view));
    }
    book.answer = book.answer.saturating_add(1);
    match view(gate, all) {
        Some(view) => check(book.may_read(view)),
        None => Err(Failure::NoMemory),
    }
}

/// Each client announces a group of changes: these changes, which are not submitted yet.
fn announce_each<N: LineName, H: Wait + Copy + Drop>(
    alloc: Global,
    gates: &mut Vec<SharedGate<N, H>>,
    groups: &mut VecDeque<Group>,
) -> Result<Vec<Vec<Operation>>, Failure> {
    let mut all = Vec::with_capacity(alloc, gates.len())?;
    for gate in gates.iter_mut() {
        let Some(Group { announced, changes }) = groups.pop_front() else {
            return Err(Failure::Wrong);
        };
        gate.expect(announced);
        all.push(changes)?;
    }
    Ok(all)
}

/// The client submits its changes.
fn submit_all<N: LineName, H: Wait + Copy + Drop>(
    gate: &mut SharedGate<N, H>,
    changes: Vec<Operation>,
    book: &mut Book,
) -> Result<(), Failure> {
    for change in changes {
        if change.is_sweep() {
            return Err(Failure::Wrong);
        }
        check(book.note(gate.submit(change)))?;
    }
    Ok(())
}

/// Each client announces a group, then each submits its own, and then each reads.
fn submit_round<N: LineName, H: Wait + Copy + Drop>(
    alloc: Global,
    gates: &mut Vec<SharedGate<N, H>>,
    groups: &mut VecDeque<Group>,
    all: &TopicFilter,
    book: &mut Book,
) -> Result<(), Failure> {
    let announced = announce_each(alloc, gates, groups)?;
    for (gate, changes) in gates.iter_mut().zip(announced) {
        submit_all(gate, changes, book)?;
    }
    for gate in gates.iter_mut() {
        read(gate, all, book)?;
    }
    Ok(())
}

/// The clients submit the groups, each as many as the others.
fn submit_groups<N: LineName, H: Wait + Copy + Drop>(
    alloc: Global,
    gates: &mut Vec<SharedGate<N, H>>,
    groups: Vec<Group>,
    all: &TopicFilter,
) -> Result<Book, Failure> {
    let mut book = Book {
        made: 0,
        submit: 0,
        held: 0,
        answer: 0,
    };
    let rounds = groups.len() / gates.len().max(1);
    let mut groups = VecDeque::from_vec(groups);
    for _round in 0..rounds {
        submit_round(alloc, gates, &mut groups, all, &mut book)?;
    }
    check(groups.is_empty())?;
    Ok(book)
}

/// The clients submit while the writer works on a thread of its own. Then their lines are closed, and all is settled. How often memory was
/// refused: to a submit that made no entry, to one whose entry was held, and to an answer.
fn tried<H: Wait + Threads + Copy + Send + Sync + 'static, N: LineName + Send + Sync + 'static>(
    rt: H,
    alloc: Global,
    blank: Blank,
    queue: BlankQueue,
    groups: Vec<Group>,
) -> Result<[u64; 3], Failure>
    requires store { (blank.history ≡ N.history) × (blank.limit ≡ N.limit) }
    requires queue { (queue.name ≡ N.queue) × (queue.places ≡ N.places) }
{
    let all = TopicFilter::read(alloc, b"#")?;
    let Opened {
        writer,
        seats,
        intake,
        lines,
        queue,
    } = open::<N, H>(rt, blank, queue)?;
    let mut gates = Vec::new(alloc);
    for gate in open_gates(rt, alloc, intake, seats, lines)? {
        gates.push(gate.into_gate())?;
    }
    let mut ends = Vec::with_capacity(alloc, gates.len())?;
    let writer = start(rt, queue, writer)?;
    let told = submit_groups(alloc, &mut gates, groups, &all);
    for gate in gates {
        let _ = ends.push(gate.close());
    }
    let left = leave(&rt, ends, writer);
    let book = told?;
    check(left.is_of_all(book.made, book.held))?;
    Ok([book.submit, book.held, book.answer])
}

/// So many clients, and how many changes each hands over together.
type Crowd = (u16, u64);

/// The same in a new store.
fn worked<H: Wait + Threads + Copy + Send + Sync + 'static>(
    rt: H,
    alloc: Global,
    (clients, size): Crowd,
) -> Result<[u64; 3], Failure> {
    // They are made before: between two submits, little but what the calls themselves need takes memory.
    let groups = groups(
        alloc,
        Grouping {
            groups: u64::from(ROUNDS) / size.max(1),
            size,
            ends_at_held: false,
        },
    )?;
    let (blank, queue) = blanks(alloc, clients)?;
    tried::<H, Brand>(rt, alloc, blank, queue, groups)
}

/// Two, one by one and in bursts of six; and six, one by one.
const CROWDS: &[Crowd] = &[(2, 1), (2, 6), (6, 1)];

/// Clients submit new topics to a store for each crowd. Returns how often memory was refused in all, to a submit that made no entry, to one
/// whose entry was held, and to an answer.
pub fn work<H: Wait + Threads + Copy + Send + Sync + 'static>(
    rt: &H,
    alloc: Global,
) -> Result<Vec<u64>, Failure> {
    let mut all = Vec::with_capacity(alloc, CROWDS.len())?;
    for crowd in CROWDS {
        all.push(worked(*rt, alloc, *crowd)?)?;
    }
    summed(alloc, all.as_slice())
}
