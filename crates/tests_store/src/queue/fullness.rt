//! What the queue shows of a store that lacks topics or memory.

ghost use Rattle.std.specs.Prelude.{◌≡◌};

use super::script::{Act, operation_of};
use kit_test::blank_store;
use rs_intake::{BlankQueue, blank_queue, run_writer};
use rs_intake_line::{Fullness, Intake, Lack, LineName, SeatLine};
use rs_message::{LineCount, PlaceCount};
use rs_version::Blank;
use std::alloc::Global;
use std::marker::Brand;
use std::sync::Wait;
use std::test::Fail;
use std::thread::{Threads, spawn};

/// Changes of a store of two topics, the code of the fault that each is answered, or 0, and what the store is shown to lack then.
const STEPS: &[(Act, u8, Lack)] = &[
    (Act::Set(*b"a0", *b"00", 0, None), 0, Lack::Nothing),
    // It holds as many topics as it may, and has refused none.
    (Act::Set(*b"b0", *b"01", 0, None), 0, Lack::Nothing),
    (Act::Set(*b"c0", *b"02", 0, None), 40, Lack::Topics),
    // What it holds can be set again.
    (Act::Set(*b"a0", *b"03", 0, Some(10)), 0, Lack::Topics),
    (Act::Set(*b"d0", *b"04", 0, None), 40, Lack::Topics),
    (Act::Clear(*b"b0"), 0, Lack::Nothing),
    (Act::Set(*b"c0", *b"05", 0, None), 0, Lack::Nothing),
    (Act::Set(*b"d0", *b"06", 0, None), 40, Lack::Topics),
    // A Sweep drops the message of a0, which has expired.
    (Act::Set(*b"d0", *b"07", 100, None), 0, Lack::Nothing),
    (Act::Set(*b"e0", *b"08", 100, None), 40, Lack::Topics),
    // What is cleared need not have held a message.
    (Act::Clear(*b"e0"), 0, Lack::Nothing),
    (Act::Set(*b"c0", *b"09", 100, None), 0, Lack::Nothing),
    (Act::Set(*b"e0", *b"10", 100, None), 40, Lack::Topics),
];

/// How many bytes the messages of `SHORT` may count: two topics, of which one has an expiry interval. A topic counts 360 bytes and its name,
/// here 2, and a message its payload, here 2, the length of its properties, here 1, and its expiry interval, 5.
const MEMORY: u64 = 365 + 370;

/// The same of a store that may hold no more than so many bytes.
const SHORT: &[(Act, u8, Lack)] = &[
    (Act::Set(*b"a0", *b"00", 0, None), 0, Lack::Nothing),
    (Act::Set(*b"b0", *b"01", 0, None), 0, Lack::Nothing),
    (Act::Set(*b"c0", *b"02", 0, None), 40, Lack::Topics),
    // A replacement counts only the difference.
    (Act::Set(*b"a0", *b"03", 0, Some(10)), 0, Lack::Topics),
    (Act::Set(*b"b0", *b"04", 0, Some(10)), 41, Lack::Memory),
    // Another lack takes the place of the one before.
    (Act::Set(*b"c0", *b"05", 0, None), 40, Lack::Topics),
    (Act::Set(*b"b0", *b"06", 0, Some(10)), 41, Lack::Memory),
    // Any change that is taken ends a lack of memory.
    (Act::Set(*b"b0", *b"07", 0, None), 0, Lack::Nothing),
    // A Sweep drops the message of a0, which has expired.
    (Act::Set(*b"c0", *b"08", 100, None), 0, Lack::Nothing),
    (Act::Set(*b"b0", *b"09", 100, Some(10)), 0, Lack::Nothing),
    (Act::Set(*b"c0", *b"10", 100, Some(10)), 41, Lack::Memory),
    (Act::Clear(*b"c0"), 0, Lack::Nothing),
    (Act::Set(*b"c0", *b"11", 100, Some(10)), 41, Lack::Memory),
    // What is cleared need not have held a message.
    (Act::Clear(*b"e0"), 0, Lack::Nothing),
    (Act::Set(*b"c0", *b"12", 100, None), 0, Lack::Nothing),
];

/// How many of the changes are answered so and leave the store so. `None` if memory is refused.
fn right_steps<N: LineName, R: Wait>(
    rt: &R,
    alloc: Global,
    line: &mut SeatLine<N>,
    fullness: &Fullness,
    steps: &[(Act, u8, Lack)],
) -> Option<usize> {
    let mut right = 0usize;
    for (act, code, lack) in steps {
        let answered = match Intake::new().submit(rt, line, operation_of(alloc, *act)?) {
            Ok(_) => 0,
            Err(fault) => fault.code(),
        };
        if answered == *code && fullness.lack() == *lack {
            right = right.saturating_add(1);
        }
    }
    Some(right)
}

/// The same over a writer on a thread of its own. `None` if memory or a thread is refused.
fn right_steps_over<
    N: LineName + Send + Sync + 'static,
    R: Threads + Wait + Copy + Send + Sync + 'static,
>(rt: R, alloc: Global, blank: Blank, queue: BlankQueue, steps: &[(Act, u8, Lack)]) -> Option<usize>
    requires store { (blank.history ≡ N.history) × (blank.limit ≡ N.limit) }
    requires queue { (queue.name ≡ N.queue) × (queue.places ≡ N.places) }
{
    let fullness = queue.fullness().ok()?;
    let (_intake, mut lines, queue) = queue.open::<N>().ok()?;
    let (writer, _seats) = blank.open::<N, R>(rt).ok()?;
    let mut line = lines.pop()?;
    let writing = spawn(&rt, move || run_writer(&rt, queue, writer)).ok()?;
    let right = right_steps(&rt, alloc, &mut line, &fullness, steps);
    drop(line.close(&rt));
    drop(writing.join(&rt));
    right
}

/// Whether a store of two topics whose messages may count so many bytes answers these changes so, and is shown to lack what they say.
fn is_right<R: Threads + Wait + Copy + Send + Sync + 'static>(
    rt: R,
    alloc: Global,
    memory: u64,
    steps: &[(Act, u8, Lack)],
) -> Result<bool, Fail> {
    let one = PlaceCount::new(1).ok_or("a place")?;
    let blank = blank_store(alloc, 2, one)?.with_memory(memory);
    let queue = blank_queue(alloc, LineCount::of_places(one))?;
    let right = right_steps_over::<Brand, R>(rt, alloc, blank, queue, steps);
    Ok(right == Some(steps.len()))
}

/// The store lacks topics from a refusal on, until one is cleared or a Sweep makes space.
#[test]
fn topics_are_lacking_until_there_may_be_space(rt: HostRuntime) -> Result<(), Fail> {
    assert!(rt; is_right(rt, rt.alloc(), u64::MAX, STEPS)?);
    Ok(())
}

/// It lacks memory from a refusal on, until a change is taken.
#[test]
fn memory_is_lacking_until_a_change_is_taken(rt: HostRuntime) -> Result<(), Fail> {
    assert!(rt; is_right(rt, rt.alloc(), MEMORY, SHORT)?);
    Ok(())
}
