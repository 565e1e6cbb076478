//! A store of one thread, and the calls that are made of it.

ghost use Rattle.std.specs.Prelude.{◌≡◌, false, IfSome};
ghost use Rattle.rs_message.specs.Messages.{is_sweep};

use kit_test::{clear, read_all, set_at};
use rs_message::{Entry, Found, Operation, Origin};
use rs_topic::TopicFilter;
use rs_version::{Blank, Receipt, Seat, Snapshot, StoreName, Told, VersionWriter};
use std::alloc::Global;
use std::marker::Brand;
use std::process::Abort;
use std::sync::Wait;
use std::test::Fail;

/// The number of a receipt, or the code of a fault. The other is 0.
type Outcome = (u64, u8);

/// What is put: the place, the serial and the topic.
#[derive(Clone, Copy)]
pub(crate) enum Change {
    /// Of a message that came at this moment, and lasts for so long, or for ever.
    Set(u16, u64, u8, u64, Option<u32>),
    Clear(u16, u64, u8),
}

/// What a seat does. A token goes by its index.
#[derive(Clone, Copy)]
pub(crate) enum Look {
    /// It learns the token.
    Learns(usize),
    /// Its own token is of this version.
    Knows(u64),
    /// Whether its own token reaches the other, and whether the other reaches its own.
    Compares(usize, (bool, bool)),
    /// At this moment it reads this version, and these topics, each with a space behind it.
    Reads(u64, u64, &'static [u8]),
    /// The same for a filter.
    Finds(&'static [u8], u64, u64, &'static [u8]),
}

/// A call, and what it has to answer.
#[derive(Clone, Copy)]
pub(crate) enum Step {
    /// The token of its receipt is kept.
    Put(Change, Outcome),
    /// The writer's token is of this version. It is kept, too.
    Tells(u64),
    /// No entry is held, and a retry publishes none.
    HoldsNothing,
    /// The seat of this index.
    At(usize, Look),
}

fn operation_of(alloc: Global, change: Change) -> Option<Operation>
    ensures { IfSome result (λ o. is_sweep o ≡ false) }
{
    match change {
        Change::Set(_, _, topic, received, expiry) => {
            set_at(alloc, &[topic], b"x", received, expiry)
        }
        Change::Clear(_, _, topic) => clear(alloc, &[topic]),
    }
}

fn entry_of(alloc: Global, change: Change) -> Option<Entry>
    ensures { IfSome result (λ e. is_sweep e.operation ≡ false) }
{
    let (place, serial) = match change {
        Change::Set(place, serial, _, _, _) | Change::Clear(place, serial, _) => (place, serial),
    };
    let origin = Origin::of_line(place, serial)?;
    let operation = operation_of(alloc, change)?;
    Some(Entry { origin, operation })
}

/// Whether the receipt is for the entry of this origin, with the token of the version of its number.
fn is_for<N: StoreName>(receipt: &Receipt<N>, origin: Origin) -> bool {
    receipt.entry().origin == origin && receipt.told().version() == receipt.number()
}

/// The outcome of a put.
fn put<N: StoreName, R: Wait + Drop>(
    writer: &mut VersionWriter<N, R>,
    tokens: &mut Vec<Told<N>>,
    entry: Entry,
) -> Option<Outcome>
    requires { is_sweep entry.operation ≡ false }
{
    let origin = entry.origin;
    match writer.put(entry) {
        Ok(receipt) if is_for(&receipt, origin) => {
            tokens.push(receipt.told()).ok()?;
            Some((receipt.number(), 0))
        }
        Ok(_) => None,
        Err(fault) => Some((0, fault.code())),
    }
}

fn holds_nothing<N: StoreName, R: Wait + Drop>(writer: &mut VersionWriter<N, R>) -> bool {
    match writer.retry() {
        Ok(None) => writer.held().is_none(),
        _ => false,
    }
}

/// The topics that were found, each with a space behind it.
fn topics_of(alloc: Global, found: &Vec<Found>) -> Option<Vec<u8>> {
    let mut topics = Vec::new(alloc);
    for found in found {
        topics.extend_from_slice(found.topic().as_bytes()).ok()?;
        topics.push(b' ').ok()?;
    }
    Some(topics)
}

/// Whether the snapshot is of this version, with these topics.
fn is_of(alloc: Global, snapshot: &Snapshot, version: u64, topics: &[u8]) -> bool {
    match topics_of(alloc, &snapshot.found) {
        Some(found) => snapshot.version == version && found.as_slice() == topics,
        None => false,
    }
}

/// Whether the seat does what it has to. `None` if there is no such token, or memory is refused.
fn is_seen<N: StoreName>(
    alloc: Global,
    seat: &mut Seat<N>,
    tokens: &Vec<Told<N>>,
    look: Look,
) -> Option<bool> {
    match look {
        Look::Learns(token) => {
            seat.learn(tokens.get(token)?.again());
            Some(true)
        }
        Look::Knows(version) => Some(seat.told().version() == version),
        Look::Compares(token, wanted) => {
            let token = tokens.get(token)?;
            let own = seat.told();
            own.note_agrees(token);
            Some(own.reaches(token) == wanted.0 && token.reaches(&own) == wanted.1)
        }
        Look::Reads(now, version, topics) => {
            let snapshot = read_all(alloc, seat, now).ok()?;
            Some(is_of(alloc, &snapshot, version, topics))
        }
        Look::Finds(filter, now, version, topics) => {
            let filter = TopicFilter::read(alloc, filter).ok()?;
            let snapshot = seat.answer(&filter, now).ok()?;
            Some(is_of(alloc, &snapshot, version, topics))
        }
    }
}

/// Whether the call answers what it has to. `None` if there is no such seat or token, or memory is refused.
fn is_answered<N: StoreName, R: Wait + Drop>(
    alloc: Global,
    writer: &mut VersionWriter<N, R>,
    seats: &mut Vec<Seat<N>>,
    tokens: &mut Vec<Told<N>>,
    step: Step,
) -> Option<bool> {
    match step {
        Step::Put(change, wanted) => {
            let outcome = put(writer, tokens, entry_of(alloc, change)?)?;
            Some(outcome.0 == wanted.0 && outcome.1 == wanted.1)
        }
        Step::Tells(version) => {
            tokens.push(writer.tell()).ok()?;
            Some(writer.tell().version() == version)
        }
        Step::HoldsNothing => Some(holds_nothing(writer)),
        Step::At(seat, look) => is_seen(alloc, seats.get_mut(seat)?, tokens, look),
    }
}

/// How many calls answer what they have to, up to the first that does not.
fn answered<N: StoreName, R: Wait + Drop>(
    alloc: Global,
    writer: &mut VersionWriter<N, R>,
    seats: &mut Vec<Seat<N>>,
    steps: &[Step],
) -> usize {
    let mut tokens = Vec::new(alloc);
    let mut count = 0usize;
    for step in steps {
        if is_answered(alloc, writer, seats, &mut tokens, *step) != Some(true) {
            break;
        }
        count = count.saturating_add(1);
    }
    count
}

/// The same for a new store that begins with this. Then the writer ends: `None` if a seat reads thereafter.
fn answered_by<N: StoreName, R: Wait>(
    rt: &R,
    alloc: Global,
    blank: Blank,
    given: Vec<Found>,
    steps: &[Step],
) -> Option<usize>
    requires { (blank.history ≡ N.history) × (blank.limit ≡ N.limit) }
{
    let (mut writer, mut seats) = blank.open_with::<N, &R>(rt, given).ok()?;
    let count = answered(alloc, &mut writer, &mut seats, steps);
    drop(writer);
    for seat in &mut seats {
        if read_all(alloc, seat, 0).is_ok() {
            return None;
        }
    }
    Some(count)
}

/// Makes the calls, one after the other, of a store that is empty at first. Each has to answer what it says.
pub(crate) fn check_steps<R: Wait + Abort>(
    rt: &R,
    alloc: Global,
    blank: Blank,
    steps: &[Step],
) -> Result<(), Fail> {
    check_steps_behind(rt, alloc, blank, Vec::new(alloc), steps)
}

/// The same of a store that begins with this.
pub(crate) fn check_steps_behind<R: Wait + Abort>(
    rt: &R,
    alloc: Global,
    blank: Blank,
    given: Vec<Found>,
    steps: &[Step],
) -> Result<(), Fail> {
    let answered = answered_by::<Brand, R>(rt, alloc, blank, given, steps);
    let count = answered.ok_or("a store whose seats read nothing at its end")?;
    assert!(rt; count == steps.len(), "at step {count}");
    Ok(())
}
