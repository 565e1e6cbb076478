//! The gates of two lines of one store, held side by side: what they answer to a filter, and what they know.

ghost use Rattle.std.specs.Prelude.{◌≡◌};
ghost use Rattle.rs_version.specs.First.{AreOwn};
ghost use Rattle.rs_version.specs.Writer.{kept_of};

use super::{answers, answers_within, takes_and_answers};
use rs_intake::{BlankQueue, Ended, Queue, run_writer, settle};
use rs_intake_line::LineName;
use rs_places::{SharedGate, open_gates};
use rs_places_steps::{LineGate, StoreGate};
use rs_topic::TopicFilter;
use rs_version::{Blank, Told, VersionWriter};
use std::alloc::Global;
use std::process::Abort;
use std::sync::Wait;
use std::test::Fail;
use std::thread::{JoinHandle, Threads, spawn};

/// Whether so many entries are known to the gate, and what it knows is a prefix of the token's list, and is all of it or not.
fn knows<N: LineName, R: Wait + Copy>(
    gate: &SharedGate<N, R>,
    version: u64,
    told: &Told<N>,
    all: bool,
) -> bool {
    let own = gate.told();
    gate.version() == version && told.reaches(&own) && own.reaches(told) == all
}

/// Another gate than the token's knows a publication once it has read. Before that, what it knows is a prefix of the token's list.
fn reads<N: LineName, R: Wait + Copy>(
    gate: &mut SharedGate<N, R>,
    all: &TopicFilter,
    told: &Told<N>,
) -> bool {
    knows(gate, 0, told, false)
        && answers(gate, all)
        && knows(gate, 1, told, true)
        && answers_within(gate, all)
        && knows(gate, 1, told, true)
}

/// A gate that was told of its publication knows it, and answers it, and another one does so once it has read.
fn both_answer<N: LineName, R: Wait + Copy>(
    alloc: Global,
    gates: &mut [SharedGate<N, R>],
    all: &TopicFilter,
) -> bool {
    let Some(first) = gates.get_mut(0) else {
        return false;
    };
    let answered = first.place() == 1 && takes_and_answers(alloc, first, all);
    let told = first.told();
    let known = told.version() == 1 && knows(first, 1, &told, true);
    let Some(second) = gates.get_mut(1) else {
        return false;
    };
    answered && known && second.place() == 2 && reads(second, all, &told)
}

/// Starts the writer's thread. None if it cannot be started.
fn start_writer<
    N: LineName + Send + Sync + 'static,
    R: Threads + Wait + Abort + Copy + Send + Sync + 'static,
>(
    rt: R,
    queue: Queue<N>,
    writer: VersionWriter<N, R>,
) -> Option<JoinHandle<Ended<N, VersionWriter<N, R>>>>
    requires { AreOwn (kept_of writer) }
{
    spawn(&rt, move || run_writer(&rt, queue, writer)).ok()
}

pub(super) fn check_shared_gates<
    N: LineName + Send + Sync + 'static,
    R: Threads + Wait + Abort + Copy + Send + Sync + 'static,
>(rt: R, alloc: Global, blank: Blank, queue: BlankQueue, all: &TopicFilter) -> Result<(), Fail>
    requires store { (blank.history ≡ N.history) × (blank.limit ≡ N.limit) }
    requires queue { (queue.name ≡ N.queue) × (queue.places ≡ N.places) }
{
    let (writer, seats) = blank.open::<N, R>(rt)?;
    let (intake, lines, queue) = queue.open::<N>()?;
    let writer = start_writer(rt, queue, writer).ok_or("no thread was started")?;
    let mut gates = Vec::new(alloc);
    for gate in open_gates(rt, alloc, intake, seats, lines)? {
        gates.push(gate.into_gate())?;
    }
    assert!(rt; both_answer(alloc, gates.as_mut_slice(), all));
    let mut ends = Vec::new(alloc);
    for gate in gates {
        ends.push(gate.close())?;
    }
    let mut ended = writer.join(&rt);
    assert!(rt; ended.writer.tell().version() == 1);
    assert!(rt; settle(ends, &mut ended).ok() == Some(1));
    Ok(())
}
