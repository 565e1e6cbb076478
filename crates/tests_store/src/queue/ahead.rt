//! Jobs of a line that are sent one behind the other, all in one thread with the writer.

ghost use Rattle.std.specs.Prelude.{◌≡◌};

use crate::queue::many::changes_of;
use kit_test::{blank_store, set};
use rs_intake::{BlankQueue, Cause, JobWriter, blank_queue};
use rs_intake_line::{Intake, LineName, SeatLine};
use rs_intake_queue::Polls;
use rs_message::{LineCount, MAX_PLACES, PlaceCount};
use rs_version::{Blank, VersionWriter};
use std::alloc::Global;
use std::marker::Brand;
use std::sync::Wait;
use std::test::Fail;

/// What the first line, the last one or the writer does.
#[derive(Clone, Copy)]
enum Act {
    /// The first line announces so many changes.
    Expect(u64),
    /// The last line announces one change.
    ExpectLast,
    /// The writer takes a job.
    Put,
    /// The first line submits so many changes. Each has a receipt, and their numbers rise.
    Submit(u64),
    /// The first line is handed on, with its replies.
    HandOn,
}

/// An act, how many changes are ahead of the first line behind it, and whether that line runs ahead then.
type Step = (Act, usize, bool);

/// The number of the receipt of one more change. `None` if memory or a receipt is refused.
fn receive<N: LineName, R: Wait>(rt: &R, alloc: Global, line: &mut SeatLine<N>) -> Option<u64> {
    let operation = set(alloc, b"a", b"0")?;
    match Intake::new().submit(rt, line, operation) {
        Ok(receipt) => Some(receipt.number()),
        Err(_) => None,
    }
}

/// Whether the numbers of so many receipts rise. `None` if memory or a receipt is refused.
fn submit<N: LineName, R: Wait>(
    rt: &R,
    alloc: Global,
    line: &mut SeatLine<N>,
    count: u64,
) -> Option<bool> {
    let mut last = 0u64;
    for _number in 0..count {
        let number = receive(rt, alloc, line)?;
        if number <= last {
            return Some(false);
        }
        last = number;
    }
    Some(true)
}

/// The line announces so many changes. `None` if memory is refused.
fn expect<N: LineName, R: Wait>(
    rt: &R,
    alloc: Global,
    line: &mut SeatLine<N>,
    count: u64,
) -> Option<bool> {
    let changes = changes_of(alloc, count)?;
    line.expect(rt, changes);
    Some(true)
}

/// Does what the act says of a line. Whether that succeeds. `None` if memory or a receipt is refused, or there is no line.
fn take_step<N: LineName, R: Wait>(
    rt: &R,
    alloc: Global,
    lines: &mut [SeatLine<N>],
    act: Act,
) -> Option<bool> {
    match act {
        Act::Expect(count) => expect(rt, alloc, lines.first_mut()?, count),
        Act::ExpectLast => expect(rt, alloc, lines.last_mut()?, 1),
        Act::Submit(count) => submit(rt, alloc, lines.first_mut()?, count),
        Act::HandOn => Some(lines.first_mut()?.hand_on(rt).is_ok()),
        Act::Put => None,
    }
}

/// Whether this is seen of the first line.
fn is_ahead<N: LineName>(lines: &[SeatLine<N>], ahead: usize, runs_ahead: bool) -> bool {
    match lines.first() {
        Some(line) => line.ahead_count() == ahead && line.runs_ahead() == runs_ahead,
        None => false,
    }
}

/// How many steps are as they have to be, up to the first that is not.
fn right_steps<N: LineName, R: Wait + Copy>(
    rt: R,
    alloc: Global,
    lines: &mut [SeatLine<N>],
    writer: &mut JobWriter<N, VersionWriter<N, R>>,
    steps: &[Step],
) -> usize {
    let mut right = 0usize;
    for (act, ahead, runs_ahead) in steps {
        let is_done = match act {
            Act::Put => writer.step(&rt, u64::MAX).is_none(),
            _ => take_step(&rt, alloc, lines, *act) == Some(true),
        };
        if !is_done || !is_ahead(lines, *ahead, *runs_ahead) {
            break;
        }
        right = right.saturating_add(1);
    }
    right
}

/// The same of a new store. `None` if memory is refused.
fn right_steps_of<N: LineName, R: Wait + Copy>(
    rt: R,
    alloc: Global,
    blank: Blank,
    queue: BlankQueue,
    steps: &[Step],
) -> Option<usize>
    requires store { (blank.history ≡ N.history) × (blank.limit ≡ N.limit) }
    requires queue { (queue.name ≡ N.queue) × (queue.places ≡ N.places) }
{
    let (_intake, mut lines, queue) = queue.open::<N>().ok()?;
    let (writer, _seats) = blank.open::<N, R>(rt).ok()?;
    let mut writer = JobWriter::new(queue, writer);
    let right = right_steps(rt, alloc, lines.as_mut_slice(), &mut writer, steps);
    drop(writer.end(Cause::AllEnded));
    Some(right)
}

/// How many steps are right at a store with so many lines, whose writer counts as if it had waited for the first two jobs.
fn right<R: Wait + Copy>(rt: R, alloc: Global, lines: u16, steps: &[Step]) -> Result<usize, Fail> {
    let blank = blank_store(alloc, 2, PlaceCount::new(1).ok_or("a place")?)?;
    let lines = LineCount::new(lines).ok_or("lines")?;
    let polls = Polls {
        writer: 0,
        ..Polls::untimed()
    };
    let queue = blank_queue(alloc, lines)?.with_polls(polls);
    Ok(right_steps_of::<Brand, R>(rt, alloc, blank, queue, steps).ok_or("memory")?)
}

/// A job is sent behind another, but no third one, and each change of both has its own receipt. Once the first is submitted, a further one
/// is sent.
const IN_ORDER: &[Step] = &[
    (Act::Expect(3), 3, false),
    (Act::Expect(2), 5, false),
    (Act::Expect(1), 5, false),
    (Act::Put, 5, false),
    (Act::Put, 5, false),
    (Act::Submit(2), 3, false),
    (Act::Expect(1), 3, false),
    (Act::Submit(1), 2, false),
    (Act::Expect(1), 3, false),
    (Act::Put, 3, false),
    (Act::Submit(3), 0, false),
];

/// No reply to either of two jobs is taken for one to a later change once the line is handed on.
const HANDED_ON: &[Step] = &[
    (Act::Expect(3), 3, false),
    (Act::Expect(2), 5, false),
    (Act::Put, 5, false),
    (Act::Put, 5, false),
    (Act::Submit(1), 4, false),
    (Act::HandOn, 0, false),
    (Act::Expect(1), 1, false),
    (Act::Put, 1, false),
    (Act::Submit(1), 0, false),
];

/// A way back has space for as many messages as two jobs can have: here the writer sends eight replies in each. Together the jobs have no
/// more changes than one may have.
const MOST: &[Step] = &[
    (Act::Expect(9), 9, false),
    (Act::Expect(248), 9, false),
    (Act::Expect(247), 256, false),
    (Act::Put, 256, false),
    (Act::Put, 256, false),
    (Act::Submit(256), 0, false),
];

/// If there are more lines than places, all replies to a job are one message, and a way back has space for those to two jobs.
const OF_MANY: &[Step] = &[
    (Act::Expect(3), 3, false),
    (Act::Expect(2), 5, false),
    (Act::Expect(1), 5, false),
    (Act::Put, 5, false),
    (Act::Put, 5, false),
    (Act::Submit(5), 0, false),
];

/// A line runs ahead once the writer has put four jobs of it, one after the other, and then a fifth; and no more once it has put a job of
/// another line. With two jobs ahead it sends no further one.
const ALONE: &[Step] = &[
    (Act::Expect(1), 1, false),
    (Act::Put, 1, false),
    (Act::Submit(1), 0, false),
    (Act::Expect(1), 1, false),
    (Act::Put, 1, false),
    (Act::Submit(1), 0, false),
    (Act::Expect(1), 1, false),
    (Act::Put, 1, false),
    (Act::Submit(1), 0, false),
    (Act::Expect(1), 1, false),
    (Act::Put, 1, false),
    (Act::Submit(1), 0, false),
    (Act::Expect(1), 1, false),
    (Act::Put, 1, false),
    (Act::Submit(1), 0, true),
    (Act::Expect(1), 1, true),
    (Act::Expect(1), 2, false),
    (Act::Put, 2, false),
    (Act::ExpectLast, 2, false),
    (Act::Put, 2, false),
    (Act::Submit(1), 1, true),
    (Act::Submit(1), 0, true),
    (Act::Expect(1), 1, true),
    (Act::Put, 1, true),
    (Act::Put, 1, true),
    (Act::Submit(1), 0, false),
];

/// One more than there are places.
const MANY_LINES: u16 = MAX_PLACES as u16 + 1;

/// With how many lines which steps are made.
const RUNS: &[(u16, &[Step])] = &[
    (2, IN_ORDER),
    (2, HANDED_ON),
    (2, MOST),
    (MANY_LINES, OF_MANY),
    (2, ALONE),
];

#[test]
fn each_line_has_two_jobs_ahead_at_most(rt: HostRuntime) -> Result<(), Fail> {
    for (number, (lines, steps)) in RUNS.iter().enumerate() {
        let right = right(rt, rt.alloc(), *lines, *steps)?;
        assert!(rt; right == steps.len(), "run {number}, at step {right}");
    }
    Ok(())
}
