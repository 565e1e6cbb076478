//! Worked examples, and each public call once with ample memory.

ghost use Rattle.std.specs.Prelude.{◌≢◌, ◌≤◌, [], length};

use bytes::Bytes;
use kit_test::is_shown;
use rs_message::{
    Entry, Found, LineCount, MAX_LINES, MAX_PLACES, Message, Operation, Origin, PlaceCount,
    Properties, Qos, Remaining, SubmitFault, is_same,
};
use rs_topic::TopicName;
use std::alloc::{AllocError, Global};
use std::test::Fail;

fn received_at_100(payload: &'static [u8], expiry: Option<u32>) -> Message
    requires some { payload.now ≢ [] }
    requires small { length payload.now ≤ 1000 }
{
    Message::new(
        Bytes::from_static(payload),
        Qos::AtLeastOnce,
        100,
        expiry,
        Properties::none(),
    )
}

/// The interval of a message that was received at 100, a moment, and what is left of the interval then.
const LEFT: &[(Option<u32>, u64, Remaining)] = &[
    (Some(10), 100, Remaining::Left(10)),
    (Some(10), 109, Remaining::Left(1)),
    (Some(10), 110, Remaining::Expired),
    (Some(10), 99, Remaining::Left(10)),
    (Some(10), u64::MAX, Remaining::Expired),
    (Some(0), 0, Remaining::Expired),
    (Some(0), 100, Remaining::Expired),
    (None, u64::MAX, Remaining::Forever),
];

fn left_at(expiry: Option<u32>, now: u64) -> Remaining {
    received_at_100(b"x", expiry).remaining(now)
}

#[test]
fn intervals_run_out(rt: HostRuntime) -> Result<(), Fail> {
    for (expiry, now, left) in LEFT {
        assert!(rt; left_at(*expiry, *now) == *left);
    }
    Ok(())
}

#[test]
fn an_origin_has_a_place_and_a_serial(rt: HostRuntime) -> Result<(), Fail> {
    assert!(rt; Origin::new(0, 1).is_none());
    assert!(rt; Origin::new(1, 0).is_none());
    assert!(rt; Origin::new(MAX_PLACES + 1, 1).is_none());
    let origin = Origin::new(MAX_PLACES, u64::MAX).ok_or("it is a place")?;
    assert!(rt; origin.place() == u16::from(MAX_PLACES));
    assert!(rt; origin.serial() == u64::MAX);
    Ok(())
}

#[test]
fn an_origin_of_a_line_has_its_number_as_place(rt: HostRuntime) -> Result<(), Fail> {
    assert!(rt; Origin::of_line(0, 1).is_none());
    assert!(rt; Origin::of_line(1, 0).is_none());
    assert!(rt; Origin::of_line(10_001, 1).is_none());
    for line in [1, 64, 65, 10_000] {
        let origin = Origin::of_line(line, 7).ok_or("it is a line")?;
        assert!(rt; origin.place() == line);
        assert!(rt; origin.serial() == 7);
    }
    assert!(rt; Origin::of_line(64, 1) == Origin::new(64, 1));
    Ok(())
}

#[test]
fn a_place_count_is_1_to_64(rt: HostRuntime) -> Result<(), Fail> {
    assert!(rt; PlaceCount::new(0).is_none());
    assert!(rt; PlaceCount::new(MAX_PLACES + 1).is_none());
    assert!(rt; PlaceCount::new(1).ok_or("the least")?.get() == 1);
    assert!(rt; PlaceCount::new(MAX_PLACES).ok_or("the greatest")?.get() == MAX_PLACES);
    Ok(())
}

#[test]
fn a_line_count_is_1_to_10_000(rt: HostRuntime) -> Result<(), Fail> {
    assert!(rt; LineCount::new(0).is_none());
    assert!(rt; LineCount::new(10_001).is_none());
    assert!(rt; LineCount::new(1).ok_or("the least")?.get() == 1);
    assert!(rt; LineCount::new(MAX_LINES).ok_or("the greatest")?.get() == 10_000);
    let places = PlaceCount::new(MAX_PLACES).ok_or("the most places")?;
    assert!(rt; LineCount::of_places(places).get() == 64);
    Ok(())
}

fn published(
    alloc: Global,
    retain: bool,
    payload: &'static [u8],
    expiry: Option<u32>,
) -> Result<Option<Operation>, Fail>
    requires { length payload.now ≤ 1000 }
{
    let topic = TopicName::read(alloc, b"a/b")?;
    Ok(Operation::of(
        alloc,
        retain,
        topic,
        Bytes::from_static(payload),
        Qos::ExactlyOnce,
        7,
        expiry,
        Properties::none(),
    )?)
}

fn is_x(message: &Message) -> bool {
    message.payload().as_slice() == b"x".as_slice()
        && message.qos() == Qos::ExactlyOnce
        && message.received() == 7
        && message.expiry() == Some(9)
        && message.properties().fields().is_none()
}

/// What a PUBLISH does: nothing, or it clears `a/b`, or it sets it to a message with the payload `x`.
#[derive(Clone, Copy, PartialEq, Eq)]
enum Done {
    Nothing,
    Clears,
    Sets,
}

/// `None` if it does anything else.
fn what_is_done(operation: &Option<Operation>) -> Option<Done> {
    match operation {
        Some(Operation::Clear(topic)) if topic.as_bytes() == b"a/b".as_slice() => Some(
            Done::Clears,
        ),
        Some(Operation::Set(found))
            if found.topic().as_bytes() == b"a/b".as_slice() && is_x(found.message()) => {
            Some(Done::Sets)
        }
        Some(_) => None,
        None => Some(Done::Nothing),
    }
}

fn copy_of(operation: &Option<Operation>) -> Result<Option<Operation>, AllocError> {
    match operation {
        Some(operation) => Ok(Some(operation.copy()?)),
        None => Ok(None),
    }
}

/// Whether a PUBLISH with this RETAIN and payload, and its copy, does what is wanted.
fn does(alloc: Global, retain: bool, payload: &'static [u8], wanted: Done) -> Result<bool, Fail>
    requires { length payload.now ≤ 1000 }
{
    let operation = published(alloc, retain, payload, Some(9))?;
    let copy = copy_of(&operation)?;
    let are_done = what_is_done(&operation) == Some(wanted) && what_is_done(&copy) == Some(wanted);
    Ok(are_done && copy == operation)
}

#[test]
fn retain_and_payload_say_what_is_done(rt: HostRuntime) -> Result<(), Fail> {
    assert!(rt; does(rt.alloc(), false, b"x", Done::Nothing)?);
    assert!(rt; does(rt.alloc(), false, b"", Done::Nothing)?);
    assert!(rt; does(rt.alloc(), true, b"", Done::Clears)?);
    assert!(rt; does(rt.alloc(), true, b"x", Done::Sets)?);
    Ok(())
}

fn cleared(alloc: Global, place: u8, serial: u64) -> Result<Entry, Fail> {
    let origin = Origin::new(place, serial).ok_or("no place or no serial")?;
    let operation = Operation::Clear(TopicName::read(alloc, b"a/b")?);
    Ok(Entry { origin, operation })
}

/// A Set of a/b at place 1.
fn entry_of_set(alloc: Global) -> Result<Entry, Fail> {
    let origin = Origin::new(1, 1).ok_or("1 is a place")?;
    let topic = TopicName::read(alloc, b"a/b")?;
    let found = Found::new(alloc, topic, received_at_100(b"x", Some(10)))?;
    let operation = Operation::Set(found);
    Ok(Entry { origin, operation })
}

/// Whether a copy of an entry equals it, and the entry differs from a Clear of a/b at place 1 with this serial.
fn is_copied(alloc: Global, entry: &Entry, serial: u64) -> Result<bool, Fail> {
    let copy = entry.copy()?;
    let other = cleared(alloc, 1, serial)?;
    Ok(copy == *entry && *entry != other)
}

#[test]
fn a_clear_is_copied(rt: HostRuntime) -> Result<(), Fail> {
    let entry = cleared(rt.alloc(), 1, 1)?;
    assert!(rt; is_copied(rt.alloc(), &entry, 2)?);
    Ok(())
}

#[test]
fn a_set_is_copied(rt: HostRuntime) -> Result<(), Fail> {
    let entry = entry_of_set(rt.alloc())?;
    assert!(rt; is_copied(rt.alloc(), &entry, 1)?);
    Ok(())
}

fn is_received_at_100(message: &Message) -> bool {
    message.payload().as_slice() == b"x".as_slice()
        && message.qos() == Qos::AtLeastOnce
        && message.received() == 100
        && message.expiry() == Some(10)
}

/// Whether a copy of a message that was received at 100 equals it, and differs from one with another interval.
fn is_message_copied() -> Result<bool, AllocError> {
    let message = received_at_100(b"x", Some(10));
    let copy = message.copy()?;
    let other = received_at_100(b"x", Some(11));
    Ok(copy == message && copy != other && is_received_at_100(&copy))
}

#[test]
fn a_message_is_copied(rt: HostRuntime) -> Result<(), Fail> {
    assert!(rt; is_message_copied()?);
    Ok(())
}

/// A topic with a message that was received at 100.
fn found_at_100(alloc: Global, topic: &[u8], expiry: Option<u32>) -> Result<Found, Fail> {
    let topic = TopicName::read(alloc, topic)?;
    Ok(Found::new(alloc, topic, received_at_100(b"x", expiry))?)
}

/// Whether the entry of a/b is the same as one of this topic, with a message that lasts so long.
fn is_same_as(alloc: Global, topic: &[u8], expiry: Option<u32>) -> Result<bool, Fail> {
    let entry = entry_of_set(alloc)?;
    let operation = Operation::Set(found_at_100(alloc, topic, expiry)?);
    let other = Entry {
        origin: entry.origin,
        operation,
    };
    Ok(is_same(&entry, &other))
}

#[test]
fn entries_are_the_same_if_topic_and_message_are(rt: HostRuntime) -> Result<(), Fail> {
    for (topic, expiry, same) in [(b"a/b", 10, true), (b"a/c", 10, false), (b"a/b", 11, false)] {
        assert!(rt; is_same_as(rt.alloc(), topic, Some(expiry))? == same);
    }
    Ok(())
}

/// Whether a copy of a topic with its message equals it, and differs from one of another topic and from one of another message.
fn is_found_copied(alloc: Global) -> Result<bool, Fail> {
    let found = found_at_100(alloc, b"a/b", Some(10))?;
    let copy = found.copy()?;
    Ok(
        copy == found
            && copy != found_at_100(alloc, b"a/c", Some(10))?
            && copy != found_at_100(alloc, b"a/b", Some(11))?,
    )
}

#[test]
fn a_topic_and_its_message_are_copied(rt: HostRuntime) -> Result<(), Fail> {
    assert!(rt; is_found_copied(rt.alloc())?);
    Ok(())
}

/// A message with this payload and interval, which came as late as can be said.
#[tactic(auto, using(rs_message::proofs::Sizes::large_message))]
fn of_payload(alloc: Global, payload: &[u8], expiry: Option<u32>) -> Result<Message, AllocError>
    requires some { payload.now ≢ [] }
    requires fits { length payload.now ≤ 262000 }
{
    let payload = Bytes::copy_from_slice(alloc, payload)?;
    Ok(Message::new(
        payload,
        Qos::ExactlyOnce,
        u64::MAX,
        expiry,
        Properties::none(),
    ))
}

/// A message with the largest payload that the tests send.
fn large_message(alloc: Global) -> Result<Message, Fail> {
    let payload = vec![in alloc; b'x'; 262_000]?;
    if payload.is_empty() || payload.len() > 262_000 {
        return Err(Fail::from("the payload has another size"));
    }
    Ok(of_payload(alloc, &payload, Some(u32::MAX))?)
}

fn is_large(message: &Message) -> bool {
    message.payload().len() == 262_000
        && message.received() == u64::MAX
        && message.expiry() == Some(u32::MAX)
}

#[test]
fn a_large_message_is_copied(rt: HostRuntime) -> Result<(), Fail> {
    let message = large_message(rt.alloc())?;
    let copy = message.copy()?;
    assert!(rt; copy == message && is_large(&copy));
    Ok(())
}

#[test]
fn an_entry_of_a_large_message_is_copied(rt: HostRuntime) -> Result<(), Fail> {
    let origin = Origin::of_line(MAX_LINES, u64::MAX).ok_or("it is a line")?;
    let topic = TopicName::read(rt.alloc(), b"a/b")?;
    let found = Found::new(rt.alloc(), topic, large_message(rt.alloc())?)?;
    let operation = Operation::Set(found);
    let entry = Entry { origin, operation };
    assert!(rt; is_copied(rt.alloc(), &entry, 1)?);
    Ok(())
}

/// Each fault, its number and its text.
const FAULTS: &[(SubmitFault, u8, &str)] = &[
    (
        SubmitFault::Full,
        40,
        "the store holds as many topics as it may, or has no number left; clear a topic or raise the limit",
    ),
    (
        SubmitFault::NoMemory,
        41,
        "memory was refused, and nothing was stored; free memory and try again",
    ),
    (
        SubmitFault::Open,
        42,
        "the store gave no receipt; the change may still be made, once",
    ),
    (
        SubmitFault::Strange,
        43,
        "the store answered for another change, or another was to come first; whether this one was made is not known",
    ),
    (
        SubmitFault::Closed,
        44,
        "the store takes no more changes; start it again",
    ),
];

#[test]
fn faults_have_codes_and_texts(rt: HostRuntime) -> Result<(), Fail> {
    for (fault, code, text) in FAULTS {
        assert!(rt; fault.code() == *code);
        assert!(rt; is_shown(rt.alloc(), fault, text));
    }
    Ok(())
}
