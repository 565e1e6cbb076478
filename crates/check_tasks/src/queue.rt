//! What the queue to the writer of a store shows after memory was refused to `submit`, or to the writer for it.

ghost use Rattle.std.specs.Prelude.{◌≡◌};

use crate::groups::{
    Done, Grouping, Opened, Place, blanks, groups, leave, open, refused, start, submit_all, summed,
};
use crate::view::{View, view_of};
use kit_test::Failure;
use rs_intake::{BlankQueue, Ended};
use rs_intake_line::{Intake, LineName, SeatLine};
use rs_message::{Operation, SubmitFault};
use rs_topic::TopicFilter;
use rs_version::{Blank, Seat, StoreWriter, VersionWriter};
use std::alloc::Global;
use std::marker::Brand;
use std::sync::Wait;
use std::thread::{JoinHandle, Threads};

#[derive(Drop)]
struct Open<N: LineName, H: Wait + Copy + Drop> {
    rt: H,
    intake: Intake<N>,
    line: SeatLine<N>,
    seat: Seat<N>,
    all: TopicFilter,
}

impl<N: LineName, H: Wait + Copy + Drop> Place for Open<N, H> {
    /// One change is not announced, as `serve` announces none.
    fn expect(&mut self, changes: Vec<Operation>) {
        if changes.len() > 1 {
            self.line.expect(&self.rt, changes);
        }
    }

    fn submit(&mut self, change: Operation) -> Done {
        match self.intake.submit(&self.rt, &mut self.line, change) {
            Ok(receipt) => {
                self.seat.learn(receipt.told());
                Done::Published(receipt.number())
            }
            Err(SubmitFault::NoMemory) => Done::Refused,
            Err(SubmitFault::Open) => Done::Held,
            Err(_) => Done::Other,
        }
    }

    fn view(&mut self) -> Option<View> {
        view_of(&mut self.seat, &self.all)
    }
}

#[derive(Drop)]
struct Running<N: LineName, S: StoreWriter<N>, H: Wait + Copy + Drop> {
    writer: JoinHandle<Ended<N, S>>,
    place: Open<N, H>,
}

fn run<H: Wait + Threads + Copy + Send + Sync + 'static, N: LineName + Send + Sync + 'static>(
    rt: H,
    blank: Blank,
    queue: BlankQueue,
    all: TopicFilter,
) -> Result<Running<N, VersionWriter<N, H>, H>, Failure>
    requires store { (blank.history ≡ N.history) × (blank.limit ≡ N.limit) }
    requires queue { (queue.name ≡ N.queue) × (queue.places ≡ N.places) }
{
    let Opened {
        writer,
        mut seats,
        intake,
        mut lines,
        queue,
    } = open::<N, H>(rt, blank, queue)?;
    let (Some(line), Some(seat)) = (lines.pop(), seats.pop()) else {
        return Err(Failure::Wrong);
    };
    let writer = start(rt, queue, writer)?;
    Ok(Running {
        writer,
        place: Open {
            rt,
            intake,
            line,
            seat,
            all,
        },
    })
}

/// Submits topics while the writer works on a thread of its own, ends it, and settles. How often memory was refused, as [`refused`] counts
/// it.
fn tried<H: Wait + Threads + Copy + Send + Sync + 'static, N: LineName + Send + Sync + 'static>(
    rt: H,
    alloc: Global,
    blank: Blank,
    queue: BlankQueue,
    all: TopicFilter,
    grouping: Grouping,
) -> Result<[u64; 3], Failure>
    requires store { (blank.history ≡ N.history) × (blank.limit ≡ N.limit) }
    requires queue { (queue.name ≡ N.queue) × (queue.places ≡ N.places) }
{
    // They are made before: between two submits, only what the calls themselves need takes memory.
    let groups = groups(alloc, grouping)?;
    let Running { writer, mut place } = run::<H, N>(rt, blank, queue, all)?;
    let book = submit_all(&mut place, groups, grouping.ends_at_held);
    let Open { line, .. } = place;
    let ends = vec![in alloc; line.close(&rt)]?;
    let left = leave(&rt, ends, writer);
    refused(book?, left)
}

/// The same in a new store.
fn worked<H: Wait + Threads + Copy + Send + Sync + 'static>(
    rt: H,
    alloc: Global,
    grouping: Grouping,
) -> Result<[u64; 3], Failure> {
    let all = TopicFilter::read(alloc, b"#")?;
    let (blank, queue) = blanks(alloc, 1)?;
    tried::<H, Brand>(rt, alloc, blank, queue, all, grouping)
}

/// All topics one by one, and none after one whose entry is held; all of them one by one; all of them, three in a job; all in one job,
/// whose replies are two messages if the writer waited for it.
const GROUPINGS: &[Grouping] = &[
    Grouping {
        groups: 24,
        size: 1,
        ends_at_held: true,
    },
    Grouping {
        groups: 24,
        size: 1,
        ends_at_held: false,
    },
    Grouping {
        groups: 8,
        size: 3,
        ends_at_held: false,
    },
    Grouping {
        groups: 1,
        size: 24,
        ends_at_held: false,
    },
];

/// Submits new topics to a store for each grouping. Returns how often memory was refused in all, in the order of [`refused`].
pub fn work<H: Wait + Threads + Copy + Send + Sync + 'static>(
    rt: &H,
    alloc: Global,
) -> Result<Vec<u64>, Failure> {
    let mut all = Vec::with_capacity(alloc, GROUPINGS.len())?;
    for grouping in GROUPINGS {
        all.push(worked(*rt, alloc, *grouping)?)?;
    }
    summed(alloc, all.as_slice())
}
