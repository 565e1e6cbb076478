//! What a queue counts, and what its writer shows.

ghost use Rattle.std.specs.Prelude.{◌≡◌};

use crate::queue::many::announce;
use kit_test::blank_store;
use rs_intake::{BlankQueue, JobWriter, blank_queue};
use rs_intake_line::{LineName, SeatLine};
use rs_message::{LineCount, PlaceCount};
use rs_metrics::{Limits, Metrics, Source};
use rs_version::{Blank, VersionWriter};
use std::alloc::Global;
use std::marker::Brand;
use std::sync::{Arc, Wait};
use std::test::Fail;

/// How many lines there are.
const LINES: u16 = 3;

/// What metrics say of a writer and its queue.
#[derive(Clone, Copy, PartialEq, Eq)]
struct Seen {
    waiting: u64,
    topics: u64,
    is_taking: bool,
}

fn look(metrics: &Metrics) -> Seen {
    let snapshot = metrics.snapshot(None);
    Seen {
        waiting: snapshot.number(Source::Waiting).unwrap_or(u64::MAX),
        topics: snapshot.number(Source::Topics).unwrap_or(u64::MAX),
        is_taking: metrics.is_taking(),
    }
}

/// Lets the writer make so many steps, and looks behind each. Whether one of them was its last.
fn step<N: LineName, R: Wait + Copy>(
    rt: R,
    writer: &mut JobWriter<N, VersionWriter<N, R>>,
    metrics: &Metrics,
    seen: &mut Vec<Seen>,
) -> Option<bool> {
    let mut is_last = false;
    for _step in 0..LINES {
        is_last = writer.step(&rt, u64::MAX).is_some();
        seen.push(look(metrics)).ok()?;
    }
    Some(is_last)
}

/// Closes all lines.
fn close<N: LineName, R: Wait>(rt: &R, lines: Vec<SeatLine<N>>) {
    for line in lines {
        drop(line.close(rt));
    }
}

/// Each line announces five changes of one topic, the writer takes them job by job, and each line is closed. `None` if memory is refused.
fn run<N: LineName, R: Wait + Copy>(
    rt: R,
    alloc: Global,
    blank: Blank,
    queue: BlankQueue,
    metrics: &Metrics,
) -> Option<(Vec<Seen>, bool)>
    requires store { (blank.history ≡ N.history) × (blank.limit ≡ N.limit) }
    requires queue { (queue.name ≡ N.queue) × (queue.places ≡ N.places) }
{
    let (_intake, mut lines, queue) = queue.open::<N>().ok()?;
    let (writer, _seats) = blank.open::<N, R>(rt).ok()?;
    let mut seen = Vec::new(alloc);
    announce(&rt, alloc, &mut lines, 5)?;
    seen.push(look(metrics)).ok()?;
    let mut writer = JobWriter::new(queue, writer);
    step(rt, &mut writer, metrics, &mut seen)?;
    close(&rt, lines);
    let is_last = step(rt, &mut writer, metrics, &mut seen)?;
    drop(writer.end(rs_intake::Cause::AllEnded));
    seen.push(look(metrics)).ok()?;
    Some((seen, is_last))
}

/// Changes wait from when they are sent until the writer takes them. The writer takes changes from its start to its end.
#[test]
fn changes_wait_until_they_are_taken(rt: HostRuntime) -> Result<(), Fail> {
    let alloc = rt.alloc();
    let limits = Limits {
        clients: 3,
        topics: 2,
        bytes: None,
    };
    let metrics = Arc::new(alloc, Metrics::new(alloc, limits, 0)?)?;
    let blank = blank_store(alloc, 2, PlaceCount::new(1).ok_or("a place")?)?;
    let lines = LineCount::new(LINES).ok_or("lines")?;
    let queue = blank_queue(alloc, lines)?.with_metrics(Some(Arc::try_clone(&metrics)?));
    let (seen, is_last) = run::<Brand, HostRuntime>(rt, alloc, blank, queue, &metrics).ok_or(
        "memory",
    )?;
    assert!(rt; is_last);
    let wanted = [
        (15, 0, false),
        (10, 1, true),
        (5, 1, true),
        (0, 1, true),
        (0, 1, true),
        (0, 1, true),
        (0, 1, true),
        (0, 1, false),
    ];
    assert!(rt; seen.len() == wanted.len());
    for (seen, (waiting, topics, is_taking)) in seen.iter().zip(wanted) {
        let wanted = Seen {
            waiting,
            topics,
            is_taking,
        };
        assert!(rt; *seen == wanted, "{waiting} {topics} {is_taking}");
    }
    Ok(())
}
