//! A store of one seat, with a writer on a thread of its own, and changes that are submitted in groups: what a place was told.

ghost use Rattle.std.specs.Prelude.{◌≡◌, All, IfOk, false};
ghost use Rattle.rs_message.specs.Messages.{is_sweep};
ghost use Rattle.rs_version.specs.First.{AreOwn};
ghost use Rattle.rs_version.specs.Writer.{kept_of};

use crate::view::View;
use kit_test::{Change, Failure, Naming, check, operation};
use rs_intake::{BlankQueue, Ended, Queue, blank_queue, run_writer, settle};
use rs_intake_line::{Intake, LineEnd, LineName, SeatLine};
use rs_message::{LineCount, Operation, PlaceCount};
use rs_store::TopicLimit;
use rs_version::{Blank, Seat, StoreWriter, VersionWriter};
use std::alloc::{AllocError, Global};
use std::sync::Wait;
use std::thread::{JoinHandle, Threads, spawn};

/// How many topics are submitted: so many that the catalogues have to grow more than once.
pub const ROUNDS: u32 = 24;

/// A new store of one seat, and a queue for so many lines.
pub fn blanks(alloc: Global, lines: u16) -> Result<(Blank, BlankQueue), Failure>
    ensures { IfOk result (λ both. both.1.places ≡ lines) }
{
    let limit = TopicLimit::new(ROUNDS).ok_or(Failure::Wrong)?;
    let seat = PlaceCount::new(1).ok_or(Failure::Wrong)?;
    let lines = LineCount::new(lines).ok_or(Failure::Wrong)?;
    let blank = Blank::new(alloc, limit, seat)?;
    Ok((blank, blank_queue(alloc, lines)?))
}

/// A store and its queue, under one name.
#[derive(Drop)]
pub struct Opened<N: LineName, H: Wait + Copy + Drop> {
    pub writer: VersionWriter<N, H>,
    pub seats: Vec<Seat<N>>,
    pub intake: Intake<N>,
    pub lines: Vec<SeatLine<N>>,
    pub queue: Queue<N>,
}

pub fn open<N: LineName, H: Wait + Copy + Drop>(
    rt: H,
    blank: Blank,
    queue: BlankQueue,
) -> Result<Opened<N, H>, AllocError>
    requires store { (blank.history ≡ N.history) × (blank.limit ≡ N.limit) }
    requires queue { (queue.name ≡ N.queue) × (queue.places ≡ N.places) }
    ensures { IfOk result (λ opened. AreOwn (kept_of opened.writer)) }
{
    let (writer, seats) = blank.open::<N, H>(rt)?;
    let (intake, lines, queue) = queue.open::<N>()?;
    Ok(Opened {
        writer,
        seats,
        intake,
        lines,
        queue,
    })
}

/// Starts the writer on a thread of its own.
pub fn start<N: LineName + Send + Sync + 'static, H: Wait + Threads + Copy + Send + Sync + 'static>(
    rt: H,
    queue: Queue<N>,
    writer: VersionWriter<N, H>,
) -> Result<JoinHandle<Ended<N, VersionWriter<N, H>>>, Failure>
    requires { AreOwn (kept_of writer) }
{
    match spawn(&rt, move || run_writer(&rt, queue, writer)) {
        Ok(writer) => Ok(writer),
        Err(_) => Err(Failure::NoMemory),
    }
}

/// What became of a submit.
#[derive(Clone, Copy)]
pub enum Done {
    /// There is a receipt of this number.
    Published(u64),
    /// Memory was refused to the writer, by which the entry is held.
    Held,
    /// Memory was refused, and no entry was made.
    Refused,
    Other,
}

/// A place that submits and reads.
pub trait Place {
    ghost use Rattle.std.specs.Prelude.{◌≡◌, All, false};
    ghost use Rattle.rs_message.specs.Messages.{is_sweep};

    /// Says which changes are submitted next.
    fn expect(&mut self, changes: Vec<Operation>)
        requires { All (λ o. is_sweep o ≡ false) changes.items };

    /// The seat learns the receipt, if there is one.
    fn submit(&mut self, change: Operation) -> Done
        requires { is_sweep change ≡ false };

    fn view(&mut self) -> Option<View>;
}

/// What a place was told: the number of its last receipt, and whether an entry is held behind it; and how often memory was refused: to a
/// submit that made no entry, and to one whose entry was held.
#[derive(Clone, Copy)]
pub struct Book {
    kept: u64,
    is_open: bool,
    submit: u64,
    held: u64,
}

impl Book {
    /// What was held is published before another entry is.
    fn publish(&mut self) {
        self.kept = self.kept.saturating_add(u64::from(self.is_open));
        self.is_open = false;
    }

    /// Takes note of a submit. Returns whether that may be: a receipt has the next number, behind that of an entry that is held.
    fn note(&mut self, done: Done) -> bool {
        match done {
            Done::Published(number) => {
                self.publish();
                self.kept = self.kept.saturating_add(1);
                self.kept == number
            }
            Done::Held => {
                self.publish();
                self.is_open = true;
                self.held = self.held.saturating_add(1);
                true
            }
            Done::Refused => {
                self.submit = self.submit.saturating_add(1);
                true
            }
            Done::Other => false,
        }
    }
}

/// The seat reads as many topics as the number of the last receipt says: none twice, and none of a submit that was refused. If
/// memory is refused, it is asked again.
fn read<P: Place>(place: &mut P, kept: u64) -> Result<(), Failure> {
    let view = match place.view() {
        Some(view) => Some(view),
        None => place.view(),
    };
    match view {
        Some(view) => check(view.version == kept && view.found == kept),
        None => Err(Failure::NoMemory),
    }
}

/// Sets of new topics, which are announced and then submitted. If they are more than one, they are one job.
#[derive(Drop)]
pub struct Group {
    pub announced: Vec<Operation>,
    pub changes: Vec<Operation>,
    ghost plain: { All (λ o. is_sweep o ≡ false) announced.items },
}

/// How many groups are submitted, how many Sets each has, and whether none is behind one with an entry that is held.
#[derive(Clone, Copy)]
pub struct Grouping {
    pub groups: u64,
    pub size: u64,
    pub ends_at_held: bool,
}

/// Submits one of them.
fn submit<P: Place>(place: &mut P, book: &mut Book, change: Operation) -> Result<(), Failure> {
    if change.is_sweep() {
        return Err(Failure::Wrong);
    }
    let done = place.submit(change);
    check(book.note(done))
}

/// Submits all of a group, and then reads.
fn submit_group<P: Place>(place: &mut P, book: &mut Book, group: Group) -> Result<(), Failure> {
    let Group { announced, changes } = group;
    place.expect(announced);
    for change in changes {
        submit(place, book, change)?;
    }
    read(place, book.kept)
}

/// Submits the groups.
pub fn submit_all<P: Place>(
    place: &mut P,
    groups: Vec<Group>,
    ends_at_held: bool,
) -> Result<Book, Failure> {
    let mut book = Book {
        kept: 0,
        is_open: false,
        submit: 0,
        held: 0,
    };
    for group in groups {
        submit_group(place, &mut book, group)?;
        if ends_at_held && book.is_open {
            break;
        }
    }
    Ok(book)
}

/// Sets of so many topics, from this number on.
fn changes(alloc: Global, first: u64, count: u64) -> Result<Vec<Operation>, Failure>
    ensures { IfOk result (λ changes. All (λ o. is_sweep o ≡ false) changes.items) }
{
    let mut changes = Vec::new(alloc);
    for number in first..first.saturating_add(count) {
        changes.push(operation(alloc, Naming::Houses, number, Change::Set(0, None))?)?;
    }
    Ok(changes)
}

pub fn groups(alloc: Global, grouping: Grouping) -> Result<Vec<Group>, Failure> {
    let mut groups = Vec::new(alloc);
    for index in 0..grouping.groups {
        let first = index.saturating_mul(grouping.size);
        let announced = changes(alloc, first, grouping.size)?;
        let changes = changes(alloc, first, grouping.size)?;
        groups.push(Group { announced, changes })?;
    }
    Ok(groups)
}

/// What the writer left: the last version, whether an entry is still held, and whether all that was sent was taken.
#[derive(Clone, Copy)]
pub struct Left {
    version: u64,
    is_held: bool,
    is_settled: bool,
}

impl Left {
    /// Whether this is left once so many changes had receipts, and memory was refused to the writer for so many: all that was sent was taken,
    /// and nothing twice.
    pub fn is_of_all(self, made: u64, held: u64) -> bool {
        // Each entry that was held is published later, but for the last one, if it was refused memory again.
        let kept = made.saturating_add(held);
        self.is_settled && self.version == kept.saturating_sub(u64::from(self.is_held))
    }
}

/// Waits for the writer, and settles what was sent with what it took.
pub fn leave<N: LineName, S: StoreWriter<N>, H: Wait + Threads + Copy>(
    rt: &H,
    ends: Vec<LineEnd<N>>,
    writer: JoinHandle<Ended<N, S>>,
) -> Left {
    let mut ended = writer.join(rt);
    let settled = settle(ends, &mut ended).ok();
    Left {
        version: ended.writer.tell().version(),
        is_held: ended.held.is_some(),
        is_settled: settled == Some(ended.taken),
    }
}

/// How often memory was refused in a run that was told and left this: to a submit that made no entry, to one whose entry was held, and to
/// the last one, whose entry was held and was published when the writer ended. All that was sent was taken, and nothing twice.
pub fn refused(book: Book, left: Left) -> Result<[u64; 3], Failure> {
    // What is still held then was refused twice, and is not published.
    let is_last = book.is_open && !left.is_held;
    let kept = book.kept.saturating_add(u64::from(is_last));
    check(left.is_settled && left.version == kept && (book.is_open || !left.is_held))?;
    Ok([book.submit, book.held, u64::from(is_last)])
}

/// The sums of these counts.
pub fn summed(alloc: Global, all: &[[u64; 3]]) -> Result<Vec<u64>, Failure> {
    let mut sums = Vec::with_capacity(alloc, 3)?;
    for at in 0..3 {
        let mut sum = 0u64;
        for counts in all {
            sum = sum.saturating_add(counts[at]);
        }
        sums.push(sum)?;
    }
    Ok(sums)
}
