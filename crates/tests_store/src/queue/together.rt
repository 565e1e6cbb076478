//! Jobs that wait are put together by a writer that is better made ready at once.

ghost use Rattle.std.specs.Prelude.{◌≡◌};

use crate::queue::many::{announce, finish};
use kit_test::blank_store;
use rs_intake::{BlankQueue, Cause, JobWriter, blank_queue};
use rs_intake_line::LineName;
use rs_message::{Entry, LineCount, Origin, PlaceCount};
use rs_version::{Blank, PutFault, Receipt, StoreName, StoreWriter, Told, VersionWriter};
use std::alloc::{AllocError, Global};
use std::collections::VecDeque;
use std::marker::Brand;
use std::sync::Wait;
use std::test::Fail;

/// A writer that is better made ready at once. It only counts how often that is done, and for how many changes.
#[derive(Drop)]
struct Counting<N: StoreName, R: Wait + Drop> {
    writer: VersionWriter<N, R>,
    calls: u32,
    changes: usize,
}

impl<N: StoreName, R: Wait + Drop> Counting<N, R> {
    fn new(writer: VersionWriter<N, R>) -> Counting<N, R>
        ensures { result.writer ≡ writer }
    {
        Counting {
            writer,
            calls: 0,
            changes: 0,
        }
    }
}

impl<N: StoreName, R: Wait + Drop> StoreWriter<N> for Counting<N, R> {
    ghost use Rattle.std.specs.Prelude.{[]};

    ghost written = { λ counting. counting.writer };

    ghost most_held = { 1 };

    ghost ready = { λ _. [] };

    fn makes_ready_at_once(&self) -> bool {
        true
    }

    fn make_ready(&mut self, _changes: &VecDeque<Entry>, count: usize) {
        self.calls = self.calls.saturating_add(1);
        self.changes = self.changes.saturating_add(count);
    }

    fn put(&mut self, entry: Entry) -> Result<Receipt<N>, PutFault> {
        self.writer.put(entry)
    }

    fn pass_over(&mut self, _entry: Entry) -> PutFault {
        // Refused: the memory for the entry that is held.
        PutFault::NoMemory
    }

    fn release(&mut self) -> Result<(), AllocError> {
        drop(self.writer.retry()?);
        Ok(())
    }

    fn tell(&self) -> Told<N> {
        self.writer.tell()
    }

    fn note_covered(&mut self, told: &Told<N>) {
        self.writer.note_covered(told);
    }

    fn bytes(&self) -> u64 {
        self.writer.bytes()
    }

    fn topics(&self) -> u32 {
        self.writer.topics()
    }

    fn held(&self) -> Option<Origin> {
        self.writer.held()
    }

    fn held_count(&self) -> usize {
        usize::from(self.writer.held().is_some())
    }
}

/// How many lines announce so many changes each, as one job, and how many steps the writer makes then.
#[derive(Clone, Copy)]
struct Row {
    lines: u16,
    changes: u64,
    steps: u32,
}

/// How many changes were taken by each step, how often the writer was made ready, for how many changes, and how many have receipts.
#[derive(Drop)]
struct Made {
    taken: Vec<u64>,
    calls: u32,
    changes: usize,
    receipts: u64,
}

/// The writer makes its steps once all jobs wait. `None` if memory is refused.
fn run<N: LineName, R: Wait + Copy>(
    rt: R,
    alloc: Global,
    blank: Blank,
    queue: BlankQueue,
    row: Row,
) -> Option<Made>
    requires store { (blank.history ≡ N.history) × (blank.limit ≡ N.limit) }
    requires queue { (queue.name ≡ N.queue) × (queue.places ≡ N.places) }
{
    let (_intake, mut lines, queue) = queue.open::<N>().ok()?;
    let (writer, _seats) = blank.open::<N, R>(rt).ok()?;
    announce(&rt, alloc, &mut lines, row.changes)?;
    let mut writer = JobWriter::new(queue, Counting::new(writer));
    let mut taken = Vec::new(alloc);
    for _step in 0..row.steps {
        drop(writer.step(&rt, u64::MAX));
        taken.push(writer.taken()).ok()?;
    }
    let mut ends = Vec::new(alloc);
    let receipts = finish(&rt, alloc, lines, row.changes, &mut ends)?;
    let ended = writer.end(Cause::AllEnded);
    Some(Made {
        taken,
        calls: ended.writer.calls,
        changes: ended.writer.changes,
        receipts,
    })
}

fn make<R: Wait + Copy>(rt: R, alloc: Global, row: Row) -> Result<Made, Fail> {
    let blank = blank_store(alloc, 2, PlaceCount::new(1).ok_or("a place")?)?;
    let queue = blank_queue(alloc, LineCount::new(row.lines).ok_or("lines")?)?;
    Ok(run::<Brand, R>(rt, alloc, blank, queue, row).ok_or("memory")?)
}

/// The jobs of all lines are taken by one step, for which the writer is made ready once. Each line has its own receipts.
#[test]
fn jobs_that_wait_are_made_ready_together(rt: HostRuntime) -> Result<(), Fail> {
    for changes in [1, 5] {
        let made = make(
            rt,
            rt.alloc(),
            Row {
                lines: 3,
                changes,
                steps: 1,
            },
        )?;
        assert!(rt; made.taken.as_slice() == [3 * changes].as_slice());
        assert!(rt; made.calls == 1 && made.changes as u64 == 3 * changes);
        assert!(rt; made.receipts == 3 * changes);
    }
    Ok(())
}

/// The job after the most changes that are made ready together stays for the next step.
#[test]
fn a_job_that_may_not_fit_stays_for_the_next_step(rt: HostRuntime) -> Result<(), Fail> {
    let made = make(
        rt,
        rt.alloc(),
        Row {
            lines: 5,
            changes: 256,
            steps: 2,
        },
    )?;
    assert!(rt; made.taken.as_slice() == [1_024, 1_280].as_slice());
    assert!(rt; made.calls == 2 && made.changes == 1_280);
    assert!(rt; made.receipts == 1_280);
    Ok(())
}
