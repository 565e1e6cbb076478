//! Worked examples over both catalogues, and each public call once with ample memory.

ghost use Rattle.std.specs.Prelude.{◌≡◌, false, IfSome};
ghost use Rattle.rs_message.specs.Messages.{is_sweep};

use kit_test::{MapCatalogue, clear, origin, set_at};
use rs_message::{Entry, Found, MAX_LINES, Operation, Origin};
use rs_store::{CalmCatalogue, Catalogue, Messages, Refusal, TopicLimit};
use rs_topic::TopicFilter;
use rs_tree::TreeCatalogue;
use std::alloc::{AllocError, Global};
use std::process::Abort;
use std::test::Fail;

/// An entry: its serial, and what it does.
#[derive(Clone, Copy)]
enum Change {
    /// A Set at place 1: the topic, when the message came, and its interval.
    Set(u64, &'static [u8], u64, Option<u32>),
    /// A Clear at the last place.
    Clear(u64, &'static [u8]),
    /// The writer's Sweep of a moment.
    Sweep(u64, u64),
}

/// What a catalogue says.
#[derive(Clone, Copy)]
enum Fact {
    /// The version, and how many messages it holds.
    Numbers(u64, u32),
    /// The last serial of a place.
    Serial(u16, u64),
    /// The topics that a filter is answered at a given time, each followed by a space.
    Topics(&'static [u8], u64, &'static [u8]),
    /// How many messages are expired at a moment.
    Expired(u64, u32),
    /// From which moment on something is expired.
    Earliest(u64),
}

#[derive(Clone, Copy)]
enum Step {
    /// An entry, and why it is refused, if it is.
    Takes(Change, Option<Refusal>),
    Says(Fact),
}

/// What a Set or a Clear does. `None` at a Sweep.
fn operation_of(alloc: Global, change: Change) -> Option<Operation>
    ensures { IfSome result (λ o. is_sweep o ≡ false) }
{
    match change {
        Change::Set(_, topic, received, expiry) => set_at(alloc, topic, b"x", received, expiry),
        Change::Clear(_, topic) => clear(alloc, topic),
        Change::Sweep(_, _) => None,
    }
}

fn origin_of(change: Change) -> Result<Origin, Fail> {
    match change {
        Change::Set(serial, _, _, _) => origin(1, serial),
        Change::Clear(serial, _) => origin(MAX_LINES, serial),
        Change::Sweep(serial, _) => Ok(Origin::of_writer(serial).ok_or("no serial")?),
    }
}

fn refusal(answer: Result<(), Refusal>) -> Option<Refusal> {
    match answer {
        Ok(()) => None,
        Err(refusal) => Some(refusal),
    }
}

/// Adds a Set or a Clear, or says why it is refused.
fn add<C: Catalogue>(
    alloc: Global,
    store: &mut CalmCatalogue<C>,
    change: Change,
) -> Result<Option<Refusal>, Fail> {
    let origin = origin_of(change)?;
    let operation = operation_of(alloc, change).ok_or("no operation")?;
    Ok(refusal(store.add(Entry { origin, operation })))
}

fn entry_of(alloc: Global, change: Change) -> Result<Entry, Fail> {
    let origin = origin_of(change)?;
    let operation = match change {
        Change::Sweep(_, moment) => Operation::Sweep(moment),
        other => operation_of(alloc, other).ok_or("no operation")?,
    };
    Ok(Entry { origin, operation })
}

/// Applies an entry that is accepted, or says why it is not.
pub fn take<C: Catalogue>(catalogue: &mut C, entry: Entry) -> Result<Option<Refusal>, Fail> {
    match catalogue.accepts(&entry) {
        Ok(()) => {
            catalogue.apply(entry)?;
            Ok(None)
        }
        Err(refusal) => Ok(Some(refusal)),
    }
}

/// Whether these topics were found, each followed by a space.
fn are_of(alloc: Global, found: &Vec<Found>, topics: &[u8]) -> Result<bool, AllocError> {
    let mut all = Vec::new(alloc);
    for one in found {
        all.extend_from_slice(one.topic().as_bytes())?;
        all.push(b' ')?;
    }
    Ok(all.as_slice() == topics)
}

fn answers<C: Catalogue>(
    alloc: Global,
    catalogue: &C,
    filter: &[u8],
    now: u64,
    topics: &[u8],
) -> Result<bool, Fail> {
    let filter = TopicFilter::read(alloc, filter)?;
    let found = catalogue.answer(&filter, now)?;
    Ok(are_of(alloc, &found, topics)?)
}

/// The same of messages that were taken out of a catalogue, without a limit and within a room.
fn are_answered<M: Messages>(
    alloc: Global,
    messages: &M,
    filter: &[u8],
    now: u64,
    topics: &[u8],
) -> Result<bool, Fail> {
    let filter = TopicFilter::read(alloc, filter)?;
    let found = messages.answer(&filter, now)?;
    let is_within = match messages.answer_within(&filter, now, found.len())? {
        Some(within) => are_of(alloc, &within, topics)?,
        None => false,
    };
    let is_beyond = match found.len().checked_sub(1) {
        Some(less) => messages.answer_within(&filter, now, less)?.is_none(),
        None => true,
    };
    Ok(is_within && is_beyond && are_of(alloc, &found, topics)?)
}

fn says<C: Catalogue>(alloc: Global, catalogue: &C, fact: Fact) -> Result<bool, Fail> {
    match fact {
        Fact::Numbers(version, count) => {
            Ok(catalogue.version() == version && catalogue.count() == count)
        }
        Fact::Serial(place, serial) => Ok(catalogue.last_serial(place) == serial),
        Fact::Topics(filter, now, topics) => answers(alloc, catalogue, filter, now, topics),
        Fact::Expired(now, count) => Ok(catalogue.expired_count(now) == count),
        Fact::Earliest(moment) => Ok(catalogue.earliest() == moment),
    }
}

/// Makes the steps in a store, which sweeps by itself.
fn check_in_store<C: Catalogue>(
    rt: &impl Abort,
    alloc: Global,
    store: &mut CalmCatalogue<C>,
    steps: &[Step],
) -> Result<(), Fail> {
    for step in steps {
        let is_so = match *step {
            Step::Takes(change, wanted) => add(alloc, store, change)? == wanted,
            Step::Says(fact) => says(alloc, store.catalogue(), fact)?,
        };
        assert!(rt; is_so);
    }
    Ok(())
}

/// Makes the steps in a catalogue.
fn check_in_catalogue<C: Catalogue>(
    rt: &impl Abort,
    alloc: Global,
    catalogue: &mut C,
    steps: &[Step],
) -> Result<(), Fail> {
    for step in steps {
        let is_so = match *step {
            Step::Takes(change, wanted) => take(catalogue, entry_of(alloc, change)?)? == wanted,
            Step::Says(fact) => says(alloc, catalogue, fact)?,
        };
        assert!(rt; is_so);
    }
    Ok(())
}

/// The catalogue says all of this.
fn check_says_all<C: Catalogue>(
    rt: &impl Abort,
    alloc: Global,
    catalogue: &C,
    facts: &[Fact],
) -> Result<(), Fail> {
    for fact in facts {
        assert!(rt; says(alloc, catalogue, *fact)?);
    }
    Ok(())
}

/// The messages answer all of this. They have no numbers.
fn check_answer_all<M: Messages>(
    rt: &impl Abort,
    alloc: Global,
    messages: &M,
    facts: &[Fact],
) -> Result<(), Fail> {
    for fact in facts {
        if let Fact::Topics(filter, now, topics) = *fact {
            assert!(rt; are_answered(alloc, messages, filter, now, topics)?);
        }
    }
    Ok(())
}

/// Makes the first steps in a store. Then it says what it has to, and so do a copy of its catalogue and its messages once the other steps
/// are made. It is known by the bound alone.
fn check_steps<C: Catalogue + Drop>(
    rt: &impl Abort,
    alloc: Global,
    store: &mut CalmCatalogue<C>,
    steps: [&[Step]; 2],
    facts: &[Fact],
) -> Result<(), Fail> {
    check_in_store(rt, alloc, store, steps[0])?;
    check_says_all(rt, alloc, store.catalogue(), facts)?;
    let copy = store.catalogue().copy()?;
    let messages = store.catalogue().messages()?;
    check_in_store(rt, alloc, store, steps[1])?;
    check_says_all(rt, alloc, &copy, facts)?;
    check_answer_all(rt, alloc, &messages, facts)
}

/// The same in a new store of so many topics.
fn check_store<C: Catalogue + Drop>(
    rt: &impl Abort,
    alloc: Global,
    limit: TopicLimit,
    steps: [&[Step]; 2],
    facts: &[Fact],
) -> Result<(), Fail> {
    let mut store: CalmCatalogue<C> = CalmCatalogue::new(alloc, limit)?;
    check_steps(rt, alloc, &mut store, steps, facts)
}

fn check_stores(
    rt: &impl Abort,
    alloc: Global,
    topics: u32,
    steps: [&[Step]; 2],
    facts: &[Fact],
) -> Result<(), Fail> {
    let limit = TopicLimit::new(topics).ok_or("a limit")?;
    check_store::<MapCatalogue>(rt, alloc, limit, steps, facts)?;
    check_store::<TreeCatalogue>(rt, alloc, limit, steps, facts)
}

/// Makes the steps in new catalogues of so many topics.
fn check_catalogues(
    rt: &impl Abort,
    alloc: Global,
    topics: u32,
    steps: &[Step],
) -> Result<(), Fail> {
    let limit = TopicLimit::new(topics).ok_or("a limit")?;
    check_in_catalogue(rt, alloc, &mut MapCatalogue::new(alloc, limit)?, steps)?;
    check_in_catalogue(rt, alloc, &mut TreeCatalogue::new(alloc, limit)?, steps)
}

const FULL_AND_STALE: &[Step] = &[
    Step::Takes(Change::Set(1, b"a", 100, Some(10)), None),
    Step::Takes(Change::Set(2, b"b", 100, Some(10)), None),
    Step::Takes(Change::Set(3, b"c", 100, Some(10)), Some(Refusal::Full)),
    Step::Takes(Change::Set(2, b"c", 100, Some(10)), Some(Refusal::Stale)),
    Step::Takes(Change::Set(3, b"a", 100, Some(10)), None),
    Step::Takes(Change::Clear(1, b"d"), None),
    Step::Says(Fact::Numbers(4, 2)),
    Step::Says(Fact::Serial(1, 3)),
    Step::Says(Fact::Serial(2, 0)),
    Step::Says(Fact::Serial(10_000, 1)),
    Step::Says(Fact::Serial(10_001, 0)),
    Step::Says(Fact::Serial(u16::MAX, 0)),
];

#[test]
fn a_full_store_and_a_stale_serial_refuse(rt: HostRuntime) -> Result<(), Fail> {
    check_stores(&rt, rt.alloc(), 2, [FULL_AND_STALE, &[]], &[])
}

/// Topics with empty levels, with a level that is a prefix of another, and with a dollar.
const SET_BY_LEVELS: &[Step] = &[
    Step::Takes(Change::Set(1, b"a.b", 100, Some(10)), None),
    Step::Takes(Change::Set(2, b"a/b", 100, Some(10)), None),
    Step::Takes(Change::Set(3, b"$s", 100, Some(10)), None),
    Step::Takes(Change::Set(4, b"a/", 100, Some(10)), None),
    Step::Takes(Change::Set(5, b"/", 100, Some(10)), None),
    Step::Takes(Change::Set(6, b"a", 100, Some(10)), None),
];

const BY_LEVELS: &[Fact] = &[
    Fact::Topics(b"#", 100, b"/ a a/ a/b a.b "),
    Fact::Topics(b"+/#", 100, b"/ a a/ a/b a.b "),
    Fact::Topics(b"+/+", 100, b"/ a/ a/b "),
    Fact::Topics(b"a/#", 100, b"a a/ a/b "),
    Fact::Topics(b"$s/#", 100, b"$s "),
    Fact::Topics(b"$s", 100, b"$s "),
    Fact::Topics(b"+", 100, b"a a.b "),
];

#[test]
fn topics_are_answered_by_levels(rt: HostRuntime) -> Result<(), Fail> {
    check_stores(&rt, rt.alloc(), 10, [SET_BY_LEVELS, &[]], BY_LEVELS)
}

const BEFORE_A_COPY: &[Step] = &[
    Step::Takes(Change::Set(1, b"a.b", 100, Some(10)), None),
    Step::Takes(Change::Set(2, b"a/b", 100, Some(10)), None),
    Step::Takes(Change::Set(3, b"$SYS/x", 100, Some(10)), None),
    Step::Takes(Change::Set(4, b"c", 100, Some(10)), None),
];

const AFTER_A_COPY: &[Step] = &[
    Step::Takes(Change::Clear(1, b"c"), None),
    Step::Says(Fact::Numbers(5, 3)),
];

/// A copy keeps what the first loses, and so do the messages that were taken out of it.
const COPIED: &[Fact] = &[
    Fact::Topics(b"#", 109, b"a/b a.b c "),
    Fact::Topics(b"#", 110, b""),
    Fact::Topics(b"$SYS/#", 100, b"$SYS/x "),
    Fact::Topics(b"a/+", 100, b"a/b "),
    Fact::Numbers(4, 4),
    Fact::Serial(1, 4),
];

#[test]
fn a_copy_keeps_what_the_first_loses(rt: HostRuntime) -> Result<(), Fail> {
    check_stores(&rt, rt.alloc(), 10, [BEFORE_A_COPY, AFTER_A_COPY], COPIED)
}

/// A full store takes a new topic from the moment on at which one has expired, by a Sweep of its own, which has the next serial of the
/// writer, and not before.
const ROOM_MADE: &[Step] = &[
    Step::Takes(Change::Set(1, b"a", 100, Some(10)), None),
    Step::Says(Fact::Numbers(1, 1)),
    Step::Takes(Change::Set(2, b"b", 100, Some(10)), Some(Refusal::Full)),
    Step::Takes(Change::Set(2, b"b", 109, Some(10)), Some(Refusal::Full)),
    Step::Says(Fact::Numbers(1, 1)),
    Step::Takes(Change::Set(2, b"b", 110, Some(10)), None),
    Step::Says(Fact::Numbers(3, 1)),
    Step::Says(Fact::Serial(0, 1)),
    Step::Takes(Change::Set(3, b"c", 119, Some(10)), Some(Refusal::Full)),
    Step::Says(Fact::Numbers(3, 1)),
    Step::Takes(Change::Set(3, b"c", 120, Some(10)), None),
    Step::Says(Fact::Numbers(5, 1)),
    Step::Says(Fact::Serial(0, 2)),
];

#[test]
fn an_expired_message_makes_space(rt: HostRuntime) -> Result<(), Fail> {
    check_stores(&rt, rt.alloc(), 1, [ROOM_MADE, &[]], &[])
}

/// A Sweep is stale with a serial of before, and else accepted, also by a full store.
const SWEEPS_JUDGED: &[Step] = &[
    Step::Takes(Change::Set(1, b"a", 100, Some(10)), None),
    Step::Takes(Change::Sweep(3, 109), None),
    Step::Says(Fact::Numbers(2, 1)),
    Step::Says(Fact::Expired(109, 0)),
    Step::Says(Fact::Expired(110, 1)),
    Step::Takes(Change::Sweep(3, 110), Some(Refusal::Stale)),
    Step::Takes(Change::Sweep(2, 110), Some(Refusal::Stale)),
    Step::Takes(Change::Sweep(4, 110), None),
    Step::Says(Fact::Numbers(3, 0)),
    Step::Says(Fact::Serial(0, 4)),
    Step::Says(Fact::Serial(1, 1)),
];

#[test]
fn a_sweep_is_refused_only_if_it_is_stale(rt: HostRuntime) -> Result<(), Fail> {
    check_catalogues(&rt, rt.alloc(), 1, SWEEPS_JUDGED)
}

/// What is first expired, while messages are set, replaced, cleared and swept.
const FIRST_TO_EXPIRE: &[Step] = &[
    Step::Says(Fact::Earliest(u64::MAX)),
    Step::Says(Fact::Expired(u64::MAX, 0)),
    Step::Takes(Change::Set(1, b"a/b", 100, None), None),
    Step::Says(Fact::Earliest(u64::MAX)),
    Step::Says(Fact::Expired(u64::MAX, 0)),
    Step::Takes(Change::Set(2, b"a", 100, Some(20)), None),
    Step::Says(Fact::Earliest(120)),
    Step::Says(Fact::Expired(119, 0)),
    Step::Says(Fact::Expired(120, 1)),
    Step::Takes(Change::Set(3, b"a/c", 100, Some(10)), None),
    Step::Says(Fact::Earliest(110)),
    Step::Says(Fact::Expired(109, 0)),
    Step::Says(Fact::Expired(110, 1)),
    Step::Takes(Change::Set(4, b"a/c", 100, Some(30)), None),
    Step::Says(Fact::Earliest(120)),
    Step::Says(Fact::Expired(119, 0)),
    Step::Says(Fact::Expired(120, 1)),
    Step::Takes(Change::Clear(1, b"a"), None),
    Step::Says(Fact::Earliest(130)),
    Step::Says(Fact::Expired(129, 0)),
    Step::Says(Fact::Expired(130, 1)),
    Step::Takes(Change::Sweep(1, 130), None),
    Step::Says(Fact::Numbers(6, 1)),
    Step::Says(Fact::Earliest(u64::MAX)),
    Step::Says(Fact::Expired(u64::MAX, 0)),
    Step::Takes(Change::Set(5, b"b", 100, Some(0)), None),
    Step::Says(Fact::Earliest(0)),
    Step::Takes(Change::Sweep(2, 0), None),
    Step::Says(Fact::Numbers(8, 1)),
    Step::Says(Fact::Earliest(u64::MAX)),
    Step::Says(Fact::Expired(u64::MAX, 0)),
];

#[test]
fn the_first_to_expire_is_known(rt: HostRuntime) -> Result<(), Fail> {
    check_catalogues(&rt, rt.alloc(), 10, FIRST_TO_EXPIRE)
}
