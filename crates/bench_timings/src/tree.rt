//! How long the calls of a tree take.

use crate::row::{EARLY, Row, expiring, fill, in_order, nanos, timed};
use kit_test::{Change, Failure, Keeper, Naming, Outcome, check};
use rs_store::{CalmCatalogue, Catalogue, TopicLimit};
use rs_topic::TopicFilter;
use rs_tree::TreeCatalogue;
use std::alloc::Global;
use std::rt::Clock;
use std::time::{Duration, Instant};

/// How many topics share the first two levels.
const BELOW: u32 = 10;

/// How often a filter is answered whose answer is short, and the milliseconds after which that is enough.
const CALLS: u32 = 10_000;

const MILLIS: u64 = 20;

/// One of so many topics finds space while it is timed, and as many find the tree full then.
const PART: u32 = 16;

/// What is done with a tree. Adds that are timed leave so many topics, and so many messages are found.
#[derive(Clone, Copy)]
enum Step {
    Fill(Row),
    Add(Row, u32),
    Answer(&'static [u8], u32),
}

/// Each topic is set, replaced, looked for, and cleared.
fn calls(topics: u32) -> [Step; 7] {
    let set = Row {
        among: topics,
        ..in_order(Naming::Even, topics)
    };
    let replace = Row {
        serial: 1 + u64::from(topics),
        ..set
    };
    let clear = Row {
        serial: 1 + 2 * u64::from(topics),
        changes: (Change::Clear, Change::Clear),
        ..set
    };
    let one = b"00000000000000000000/00000000000000000000/00000000000000000000/x";
    let below = b"00000000000000000000/00000000000000000000/#";
    [
        Step::Add(set, topics),
        Step::Add(replace, topics),
        Step::Answer(b"#", topics),
        Step::Answer(one, 1),
        Step::Answer(below, BELOW.min(topics)),
        Step::Answer(b"+/+/+/x", 1),
        Step::Add(clear, 0),
    ]
}

/// The last Sets find space, as many after them find the tree full and nothing expired, and one sweeps half of it.
fn full(topics: u32) -> [Step; 4] {
    let part = topics / PART;
    let all = topics.saturating_add(part);
    let first = Row {
        to: topics - part,
        among: all.saturating_add(1),
        changes: expiring(0),
        ..in_order(Naming::Even, topics)
    };
    let space = Row {
        from: topics - part,
        to: topics,
        ..first
    };
    let refused = Row {
        from: topics,
        to: all,
        changes: expiring(EARLY - 1),
        wanted: Outcome::Full,
        ..first
    };
    let swept = Row {
        from: all,
        to: all.saturating_add(1),
        changes: expiring(EARLY),
        ..first
    };
    [
        Step::Fill(first),
        Step::Add(space, topics),
        Step::Add(refused, topics),
        Step::Add(swept, topics / 2 + 1),
    ]
}

/// How long one answer to the filter takes, in each of which so many messages must be found.
fn answered<C: Clock>(
    clock: &C,
    tree: &TreeCatalogue,
    filter: &TopicFilter,
    wanted: u32,
) -> Result<Duration, Failure> {
    let enough = Duration::from_millis(MILLIS);
    let start = Instant::now(clock)?;
    for call in 0..CALLS {
        check(tree.answer(filter, 0)?.len() == wanted as usize)?;
        let calls = call + 1;
        // The clock is read seldom, since that takes time, too.
        if calls.is_power_of_two() {
            let took = start.elapsed(clock)?;
            if took >= enough {
                return Ok(took / calls);
            }
        }
    }
    Ok(start.elapsed(clock)? / CALLS)
}

/// Does a step. How long it took, if it is timed.
fn done<C: Clock>(
    clock: &C,
    alloc: Global,
    store: &mut CalmCatalogue<TreeCatalogue>,
    step: &Step,
) -> Result<Option<u64>, Failure> {
    match step {
        Step::Fill(row) => {
            fill(alloc, store, row)?;
            Ok(None)
        }
        Step::Add(row, count) => {
            let took = timed(clock, alloc, store, row)?;
            check(store.count() == u64::from(*count))?;
            Ok(Some(took))
        }
        Step::Answer(text, wanted) => {
            let filter = TopicFilter::read(alloc, text)?;
            let took = answered(clock, store.catalogue(), &filter, *wanted)?;
            Ok(Some(nanos(took)))
        }
    }
}

/// Does the steps in a new tree, and returns how long each took that is timed.
fn all_done<C: Clock>(
    clock: &C,
    alloc: Global,
    limit: TopicLimit,
    steps: &[Step],
) -> Result<Vec<u64>, Failure> {
    let mut times = Vec::new(alloc);
    let mut store: CalmCatalogue<TreeCatalogue> = CalmCatalogue::new(alloc, limit)?;
    for step in steps {
        if let Some(took) = done(clock, alloc, &mut store, step)? {
            times.push(took)?;
        }
    }
    Ok(times)
}

/// What a tree is timed with, or looked at from outside.
#[derive(Clone, Copy)]
pub enum Task {
    /// Times Sets, replacements, answers to `#`, to one topic, to the ten below two levels and to one that is found among all, and
    /// Clears.
    Calls,
    /// Times adds that find space, as many that find the tree full, and one that sweeps half of it.
    Full,
    /// Keeps a message at each topic.
    Keep(Naming),
}

pub fn work<C: Clock>(
    clock: &C,
    alloc: Global,
    task: Task,
    limit: TopicLimit,
) -> Result<Vec<u64>, Failure> {
    let topics = limit.get();
    match task {
        Task::Calls => all_done(clock, alloc, limit, &calls(topics)),
        Task::Full => all_done(clock, alloc, limit, &full(topics)),
        Task::Keep(naming) => {
            all_done(clock, alloc, limit, &[Step::Fill(in_order(naming, topics))])
        }
    }
}
