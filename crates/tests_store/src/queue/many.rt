//! Many lines, all followed by one thread, beside that of the writer.

ghost use Rattle.std.specs.Prelude.{◌≡◌, false, All, IfSome};
ghost use Rattle.rs_message.specs.Messages.{is_sweep};

use kit_test::{blank_store, set};
use rs_intake::{BlankQueue, blank_queue, run_writer, settle};
use rs_intake_line::{Intake, LineEnd, LineName, SeatLine};
use rs_intake_queue::Polls;
use rs_message::{LineCount, MAX_LINES, Operation, PlaceCount};
use rs_version::Blank;
use std::alloc::Global;
use std::marker::Brand;
use std::sync::Wait;
use std::test::Fail;
use std::thread::{Threads, spawn};

/// Which ends of the lines are settled.
#[derive(Clone, Copy)]
enum Ends {
    /// All, in the order of their places.
    InOrder,
    /// All, from the last place to the first.
    Reversed,
    /// All but that of the first place.
    WithoutFirst,
    /// All but that of the last place.
    WithoutLast,
}

/// A run: how many lines there are, how many changes each announces as one job, how often the ends of the queue poll, and which ends are
/// settled.
#[derive(Clone, Copy)]
struct Row {
    lines: u16,
    changes: u64,
    polls: Polls,
    ends: Ends,
    is_settled: bool,
}

/// So many Sets. `None` if memory is refused.
pub(crate) fn changes_of(alloc: Global, count: u64) -> Option<Vec<Operation>>
    ensures { IfSome result (λ changes. All (λ o. is_sweep o ≡ false) changes.items) }
{
    let mut changes = Vec::new(alloc);
    for _number in 0..count {
        changes.push(set(alloc, b"a", b"0")?).ok()?;
    }
    Some(changes)
}

/// Each line announces its changes, as one job, while nobody takes any. `None` if memory is refused.
pub(crate) fn announce<N: LineName, R: Wait>(
    rt: &R,
    alloc: Global,
    lines: &mut Vec<SeatLine<N>>,
    changes: u64,
) -> Option<()> {
    for line in lines.iter_mut() {
        line.expect(rt, changes_of(alloc, changes)?);
        if line.ahead_count() == 0 {
            return None;
        }
    }
    Some(())
}

/// How many of so many changes the line has receipts for. `None` if memory is refused.
fn submit<N: LineName, R: Wait>(
    rt: &R,
    alloc: Global,
    line: &mut SeatLine<N>,
    changes: u64,
) -> Option<u64> {
    let mut made = 0u64;
    for _number in 0..changes {
        let operation = set(alloc, b"a", b"0")?;
        if Intake::new().submit(rt, line, operation).is_ok() {
            made = made.saturating_add(1);
        }
    }
    Some(made)
}

/// The lines submit what they announced and are closed, from the last to the first: so the writer replies to all others before anyone reads
/// it. How many changes have receipts. `None` if memory is refused.
pub(crate) fn finish<N: LineName, R: Wait>(
    rt: &R,
    alloc: Global,
    lines: Vec<SeatLine<N>>,
    changes: u64,
    ends: &mut Vec<LineEnd<N>>,
) -> Option<u64> {
    let mut lines = lines;
    let mut made = 0u64;
    for _line in 0..lines.len() {
        let mut line = lines.pop()?;
        made = made.saturating_add(submit(rt, alloc, &mut line, changes)?);
        ends.push(line.close(rt)).ok()?;
    }
    Some(made)
}

/// The ends are those of the places from the last to the first.
fn arrange<N: LineName>(ends: &mut Vec<LineEnd<N>>, wanted: Ends) {
    match wanted {
        Ends::Reversed => {}
        Ends::InOrder => ends.reverse(),
        Ends::WithoutFirst => drop(ends.pop()),
        Ends::WithoutLast => {
            ends.reverse();
            drop(ends.pop());
        }
    }
}

/// How many changes have receipts, and what is settled. `None` if memory or a thread is refused.
fn run<N: LineName + Send + Sync + 'static, R: Threads + Wait + Copy + Send + Sync + 'static>(
    rt: R,
    alloc: Global,
    blank: Blank,
    queue: BlankQueue,
    row: Row,
) -> Option<(u64, Option<u64>)>
    requires store { (blank.history ≡ N.history) × (blank.limit ≡ N.limit) }
    requires queue { (queue.name ≡ N.queue) × (queue.places ≡ N.places) }
{
    let (_intake, mut lines, queue) = queue.open::<N>().ok()?;
    let (writer, _seats) = blank.open::<N, R>(rt).ok()?;
    announce(&rt, alloc, &mut lines, row.changes)?;
    let writing = spawn(&rt, move || run_writer(&rt, queue, writer)).ok()?;
    let mut ends = Vec::new(alloc);
    let made = finish(&rt, alloc, lines, row.changes, &mut ends);
    let mut ended = writing.join(&rt);
    arrange(&mut ends, row.ends);
    Some((made?, settle(ends, &mut ended).ok()))
}

/// Whether all changes of the row have receipts, and are settled if they have to be.
fn is_right<R: Threads + Wait + Copy + Send + Sync + 'static>(
    rt: R,
    alloc: Global,
    row: Row,
) -> Result<bool, Fail> {
    let blank = blank_store(alloc, 2, PlaceCount::new(1).ok_or("a place")?)?;
    let lines = LineCount::new(row.lines).ok_or("lines")?;
    let queue = blank_queue(alloc, lines)?.with_polls(row.polls);
    let all = u64::from(row.lines).saturating_mul(row.changes);
    Ok(match run::<Brand, R>(rt, alloc, blank, queue, row) {
        Some((made, Some(settled))) => row.is_settled && made == all && settled == all,
        Some((made, None)) => !row.is_settled && made == all,
        None => false,
    })
}

/// The queue of so many lines is full before the first of them is answered.
#[test]
fn ten_thousand_lines_are_answered_and_settle(rt: HostRuntime) -> Result<(), Fail> {
    let row = Row {
        lines: MAX_LINES,
        changes: 1,
        polls: Polls::untimed(),
        ends: Ends::InOrder,
        is_settled: true,
    };
    assert!(rt; is_right(rt, rt.alloc(), row)?);
    Ok(())
}

/// Lines whose replies nobody reads hold up no other. The first two receives of a writer that never polls count as if it had waited, in
/// every schedule: so it sends the first two lines few replies in each message, if there are no more lines than places, which is the most
/// messages that a job can have. It finds the other jobs there, and sends the replies to each in one.
#[test]
fn the_writer_waits_for_no_line(rt: HostRuntime) -> Result<(), Fail> {
    let polls = Polls {
        writer: 0,
        ..Polls::untimed()
    };
    for lines in [2, 3, 64, 65, 100] {
        for changes in [1, 8, 9, 63, 64] {
            let row = Row {
                lines,
                changes,
                polls,
                ends: Ends::InOrder,
                is_settled: true,
            };
            assert!(rt; is_right(rt, rt.alloc(), row)?);
        }
    }
    Ok(())
}

/// The ends of the lines settle in any order, and not if one is missing.
#[test]
fn ends_settle_in_any_order_if_none_is_missing(rt: HostRuntime) -> Result<(), Fail> {
    for (ends, is_settled) in [
        (Ends::InOrder, true),
        (Ends::Reversed, true),
        (Ends::WithoutFirst, false),
        (Ends::WithoutLast, false),
    ] {
        let row = Row {
            lines: 100,
            changes: 1,
            polls: Polls::untimed(),
            ends,
            is_settled,
        };
        assert!(rt; is_right(rt, rt.alloc(), row)?);
    }
    Ok(())
}
