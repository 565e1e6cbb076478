//! Worked examples: what is given, in which order, and with which identifiers.

use kit_test::{found, is_shown};
use rs_message::Found;
use rs_packet::{PacketId, Qos, RECEIVE_MAXIMUM, SubscriptionId, encode};
use rs_window::{Ack, Inbound, MAX_QUOTA, MAX_WAITING, Outgoing, Window, WindowFault};
use std::alloc::Global;
use std::process::Abort;
use std::test::Fail;

/// `count` messages under one topic, at this QoS.
fn many(alloc: Global, topic: &[u8], count: u32, qos: Qos) -> Option<Vec<Found>> {
    let mut all = Vec::new(alloc);
    for _ in 0..count {
        all.push(found(alloc, topic, b"1", qos, 0, None)?).ok()?;
    }
    Some(all)
}

fn id(number: u16) -> Result<PacketId, Fail> {
    Ok(PacketId::new(number).ok_or("0 is no identifier")?)
}

/// A message that is queued, at the granted QoS and with a Subscription Identifier, 0 for none.
#[derive(Clone, Copy)]
struct One {
    topic: &'static [u8],
    payload: &'static [u8],
    qos: Qos,
    expiry: Option<u32>,
    granted: Qos,
    subscription: u32,
}

/// A call of a window.
#[derive(Clone, Copy)]
enum Call {
    /// So many messages of a topic with the payload `1` are queued, published and granted at this QoS.
    Queue(&'static [u8], u32, Qos),
    QueueOne(One),
    /// The next PUBLISH at a given time.
    Next(u64),
    /// So many messages of `a` are given, with the identifiers from 1.
    InOrder(u16),
    /// The next PUBLISH at 9 is these bytes.
    Packet(&'static [u8]),
    /// An acknowledgement of an identifier with its code.
    Puback(u16, u8),
    Pubrec(u16, u8),
    Pubcomp(u16, u8),
}

/// What a call answers. A given PUBLISH is named by its topic, of one byte, and its identifier, 0 if it has none.
#[derive(Clone, Copy, PartialEq, Eq)]
enum Answer {
    Gives(u8, u16),
    Nothing,
    Does(Ack),
    Refuses(WindowFault),
    /// The messages are queued, or what is given is what the call says.
    Done,
    Differs,
}

fn queued(answer: Result<(), WindowFault>) -> Answer {
    match answer {
        Ok(()) => Answer::Done,
        Err(fault) => Answer::Refuses(fault),
    }
}

fn queue_many(
    alloc: Global,
    window: &mut Window,
    topic: &[u8],
    count: u32,
    qos: Qos,
) -> Result<Answer, Fail> {
    let found = many(alloc, topic, count, qos).ok_or("no memory for the messages")?;
    Ok(queued(window.queue(found, qos, None)))
}

fn queue_one(alloc: Global, window: &mut Window, one: &One) -> Result<Answer, Fail> {
    let found = found(alloc, one.topic, one.payload, one.qos, 0, one.expiry).ok_or("no memory")?;
    let mut all = Vec::new(alloc);
    all.push(found)?;
    let subscription = SubscriptionId::new(one.subscription);
    Ok(queued(window.queue(all, one.granted, subscription)))
}

fn given(publish: Option<Outgoing>) -> Answer {
    let Some(publish) = publish else {
        return Answer::Nothing;
    };
    let topic = publish
        .found
        .topic()
        .as_bytes()
        .first()
        .copied()
        .unwrap_or(0);
    Answer::Gives(topic, publish.id.map_or(0, |id| id.get()))
}

fn given_in_order(window: &mut Window, count: u16) -> Answer {
    for number in 0..count {
        if given(window.next(0)) != Answer::Gives(b'a', number + 1) {
            return Answer::Differs;
        }
    }
    Answer::Done
}

fn given_as(alloc: Global, publish: Option<Outgoing>, sent: &[u8]) -> Result<Answer, Fail> {
    let Some(publish) = publish else {
        return Ok(Answer::Nothing);
    };
    let packet = encode(alloc, &publish.reply())?;
    if packet.as_slice() == sent {
        return Ok(Answer::Done);
    }
    Ok(Answer::Differs)
}

fn done(answer: Result<Ack, WindowFault>) -> Answer {
    match answer {
        Ok(ack) => Answer::Does(ack),
        Err(fault) => Answer::Refuses(fault),
    }
}

fn answer_of(alloc: Global, window: &mut Window, call: Call) -> Result<Answer, Fail> {
    match call {
        Call::Queue(topic, count, qos) => queue_many(alloc, window, topic, count, qos),
        Call::QueueOne(one) => queue_one(alloc, window, &one),
        Call::Next(now) => Ok(given(window.next(now))),
        Call::InOrder(count) => Ok(given_in_order(window, count)),
        Call::Packet(sent) => given_as(alloc, window.next(9), sent),
        Call::Puback(number, code) => Ok(done(window.on_puback(id(number)?, code))),
        Call::Pubrec(number, code) => Ok(done(window.on_pubrec(id(number)?, code))),
        Call::Pubcomp(number, code) => Ok(done(window.on_pubcomp(id(number)?, code))),
    }
}

type Row = (Call, Answer);

/// Makes the calls, each of which is answered as its row says.
fn check_calls(
    rt: &impl Abort,
    alloc: Global,
    window: &mut Window,
    rows: &[Row],
) -> Result<(), Fail> {
    for (call, wanted) in rows {
        assert!(rt; answer_of(alloc, window, *call)? == *wanted);
    }
    Ok(())
}

/// The same with new windows, of these two maxima, which are not 0: one whose slots are reserved, and one whose are not.
fn check_window(
    rt: &impl Abort,
    alloc: Global,
    receive_maximum: u16,
    packet_maximum: u32,
    rows: &[Row],
) -> Result<(), Fail> {
    if receive_maximum == 0 || packet_maximum == 0 {
        return Err(Fail::from("a maximum is 0"));
    }
    let mut window = Window::new(alloc, receive_maximum, packet_maximum)?;
    check_calls(rt, alloc, &mut window, rows)?;
    let mut window = Window::idle(alloc, receive_maximum, packet_maximum);
    check_calls(rt, alloc, &mut window, rows)
}

const QUOTA_1_AT_QOS_2: &[Row] = &[
    (Call::Queue(b"a", 1, Qos::ExactlyOnce), Answer::Done),
    (Call::Queue(b"b", 1, Qos::ExactlyOnce), Answer::Done),
    (Call::Queue(b"c", 1, Qos::ExactlyOnce), Answer::Done),
    (Call::Next(0), Answer::Gives(b'a', 1)),
    (Call::Next(0), Answer::Nothing),
    (Call::Pubrec(1, 0x00), Answer::Does(Ack::Released)),
    (Call::Pubrec(1, 0x00), Answer::Does(Ack::Released)),
    (Call::Next(0), Answer::Nothing),
    (
        Call::Puback(1, 0x00),
        Answer::Refuses(WindowFault::WrongKind),
    ),
    (Call::Pubcomp(1, 0x00), Answer::Does(Ack::Freed)),
    (Call::Next(0), Answer::Gives(b'b', 1)),
    (
        Call::Pubcomp(1, 0x00),
        Answer::Refuses(WindowFault::WrongKind),
    ),
    (Call::Pubrec(1, 0x97), Answer::Does(Ack::Freed)),
    (Call::Next(0), Answer::Gives(b'c', 1)),
    (Call::Pubcomp(7, 0x00), Answer::Does(Ack::Unknown)),
];

#[test]
fn one_by_one_at_qos_2(rt: HostRuntime) -> Result<(), Fail> {
    check_window(&rt, rt.alloc(), 1, u32::MAX, QUOTA_1_AT_QOS_2)
}

const EXPIRED: &[Row] = &[
    (Call::Queue(b"a", 1, Qos::AtLeastOnce), Answer::Done),
    (
        Call::QueueOne(One {
            topic: b"b",
            payload: b"2",
            qos: Qos::AtLeastOnce,
            expiry: Some(10),
            granted: Qos::AtLeastOnce,
            subscription: 0,
        }),
        Answer::Done,
    ),
    (
        Call::QueueOne(One {
            topic: b"c",
            payload: b"3",
            qos: Qos::AtMostOnce,
            expiry: None,
            granted: Qos::AtLeastOnce,
            subscription: 0,
        }),
        Answer::Done,
    ),
    (Call::Next(0), Answer::Gives(b'a', 1)),
    (Call::Next(9), Answer::Nothing),
    (Call::Next(10), Answer::Gives(b'c', 0)),
    (Call::Puback(1, 0x00), Answer::Does(Ack::Freed)),
    (Call::Puback(1, 0x00), Answer::Does(Ack::Unknown)),
    (Call::Next(10), Answer::Nothing),
];

#[test]
fn what_expires_behind_the_quota_is_dropped(rt: HostRuntime) -> Result<(), Fail> {
    check_window(&rt, rt.alloc(), 1, u32::MAX, EXPIRED)
}

const TOO_LONG: &[Row] = &[
    (
        Call::QueueOne(One {
            topic: b"a",
            payload: b"12345678901234567890",
            qos: Qos::AtLeastOnce,
            expiry: None,
            granted: Qos::AtLeastOnce,
            subscription: 0,
        }),
        Answer::Done,
    ),
    (Call::Queue(b"b", 1, Qos::AtLeastOnce), Answer::Done),
    (Call::Next(0), Answer::Gives(b'b', 1)),
];

#[test]
fn what_is_too_long_for_the_client_is_dropped(rt: HostRuntime) -> Result<(), Fail> {
    check_window(&rt, rt.alloc(), 1, 10, TOO_LONG)
}

/// A message whose packet is these bytes is given if the client takes as many, and dropped if it takes one byte less.
fn check_sent_as(
    rt: &impl Abort,
    alloc: Global,
    one: One,
    sent: &'static [u8],
) -> Result<(), Fail> {
    let size = sent.len().min(1000) as u32;
    let given = [
        (Call::QueueOne(one), Answer::Done),
        (Call::Packet(sent), Answer::Done),
        (Call::Next(9), Answer::Nothing),
    ];
    check_window(rt, alloc, 65535, size, &given)?;
    check_window(
        rt,
        alloc,
        65535,
        size.saturating_sub(1),
        &[given[0], given[2]],
    )
}

/// Messages with the payload `x`: the topic, the QoS, the interval, the granted QoS, the Subscription Identifier, and the packet.
const PACKETS: &[(&[u8], Qos, Option<u32>, Qos, u32, &[u8])] = &[
    // The lesser of the published and the granted QoS.
    (
        b"a",
        Qos::AtLeastOnce,
        None,
        Qos::AtLeastOnce,
        0,
        b"\x33\x07\x00\x01a\x00\x01\x00x",
    ),
    (
        b"a",
        Qos::AtLeastOnce,
        None,
        Qos::ExactlyOnce,
        0,
        b"\x33\x07\x00\x01a\x00\x01\x00x",
    ),
    (
        b"a",
        Qos::ExactlyOnce,
        None,
        Qos::AtLeastOnce,
        0,
        b"\x33\x07\x00\x01a\x00\x01\x00x",
    ),
    (
        b"a",
        Qos::ExactlyOnce,
        None,
        Qos::ExactlyOnce,
        0,
        b"\x35\x07\x00\x01a\x00\x01\x00x",
    ),
    // One second of an interval of ten is left.
    (
        b"a/b",
        Qos::AtMostOnce,
        Some(10),
        Qos::AtMostOnce,
        0,
        b"\x31\x0c\x00\x03a/b\x05\x02\x00\x00\x00\x01x",
    ),
    // Subscription Identifiers of one byte and of two.
    (
        b"a/b",
        Qos::AtMostOnce,
        None,
        Qos::AtMostOnce,
        1,
        b"\x31\x09\x00\x03a/b\x02\x0b\x01x",
    ),
    (
        b"a/b",
        Qos::AtMostOnce,
        None,
        Qos::AtMostOnce,
        300,
        b"\x31\x0a\x00\x03a/b\x03\x0b\xac\x02x",
    ),
];

#[test]
fn messages_are_sent_at_the_lesser_qos_if_they_fit(rt: HostRuntime) -> Result<(), Fail> {
    for (topic, qos, expiry, granted, subscription, sent) in PACKETS {
        let one = One {
            topic,
            payload: b"x",
            qos: *qos,
            expiry: *expiry,
            granted: *granted,
            subscription: *subscription,
        };
        check_sent_as(&rt, rt.alloc(), one, sent)?;
    }
    Ok(())
}

const MOST_IDENTIFIERS: &[Row] = &[
    (Call::Queue(b"a", 1025, Qos::AtLeastOnce), Answer::Done),
    (Call::InOrder(1024), Answer::Done),
    (Call::Next(0), Answer::Nothing),
    (Call::Puback(2, 0x00), Answer::Does(Ack::Freed)),
    (Call::Next(0), Answer::Gives(b'a', 2)),
    (Call::Next(0), Answer::Nothing),
];

#[test]
fn identifiers_are_given_in_order(rt: HostRuntime) -> Result<(), Fail> {
    check_window(&rt, rt.alloc(), 65535, u32::MAX, MOST_IDENTIFIERS)
}

const FULL_QUEUE: &[Row] = &[
    (
        Call::Queue(b"a", MAX_WAITING as u32, Qos::AtLeastOnce),
        Answer::Done,
    ),
    (Call::Queue(b"b", 0, Qos::AtMostOnce), Answer::Done),
    (
        Call::Queue(b"b", 1, Qos::AtLeastOnce),
        Answer::Refuses(WindowFault::TooManyWaiting),
    ),
    (Call::Next(0), Answer::Gives(b'a', 1)),
    (Call::Queue(b"b", 1, Qos::AtMostOnce), Answer::Done),
];

#[test]
fn no_more_than_the_limit_wait(rt: HostRuntime) -> Result<(), Fail> {
    check_window(&rt, rt.alloc(), 1, u32::MAX, FULL_QUEUE)
}

const TOO_MANY: &[Row] = &[
    (
        Call::Queue(b"a", MAX_WAITING as u32 + 1, Qos::AtMostOnce),
        Answer::Refuses(WindowFault::TooManyWaiting),
    ),
    (Call::Next(0), Answer::Nothing),
];

#[test]
fn more_than_the_limit_at_once_are_refused(rt: HostRuntime) -> Result<(), Fail> {
    check_window(&rt, rt.alloc(), u16::MAX, 1, TOO_MANY)
}

/// A Receive Maximum, and how many messages of QoS 2 a window with it gives.
const QUOTAS: &[(u16, u16)] = &[
    (1, 1),
    (2, 2),
    (MAX_QUOTA - 1, MAX_QUOTA - 1),
    (MAX_QUOTA, MAX_QUOTA),
    (MAX_QUOTA + 1, MAX_QUOTA),
    (40_000, MAX_QUOTA),
    (u16::MAX, MAX_QUOTA),
];

#[test]
fn every_receive_maximum_is_accepted(rt: HostRuntime) -> Result<(), Fail> {
    for (receive_maximum, quota) in QUOTAS {
        let rows = [
            (
                Call::Queue(b"a", u32::from(*quota) + 1, Qos::ExactlyOnce),
                Answer::Done,
            ),
            (Call::InOrder(*quota), Answer::Done),
            (Call::Next(0), Answer::Nothing),
        ];
        check_window(&rt, rt.alloc(), *receive_maximum, u32::MAX, &rows)?;
    }
    Ok(())
}

/// Identifiers freed out of order: the last one freed is given first, and then the one freed before it.
const FREED: &[Row] = &[
    (Call::Queue(b"a", 7, Qos::AtLeastOnce), Answer::Done),
    (Call::InOrder(3), Answer::Done),
    (Call::Puback(1, 0x00), Answer::Does(Ack::Freed)),
    (Call::Puback(3, 0x80), Answer::Does(Ack::Freed)),
    (Call::Next(0), Answer::Gives(b'a', 3)),
    (Call::Next(0), Answer::Gives(b'a', 1)),
    (Call::Next(0), Answer::Nothing),
];

#[test]
fn the_last_freed_identifier_comes_first(rt: HostRuntime) -> Result<(), Fail> {
    check_window(&rt, rt.alloc(), 3, u32::MAX, FREED)
}

/// A window with two messages `a` that wait, and nine more to be queued, for which its queue has to grow.
fn before_a_refusal(alloc: Global) -> Option<(Window, Vec<Found>)> {
    let mut window = Window::new(alloc, 9, u32::MAX).ok()?;
    let first = many(alloc, b"a", 2, Qos::AtMostOnce)?;
    window.queue(first, Qos::AtMostOnce, None).ok()?;
    Some((window, many(alloc, b"b", 9, Qos::AtMostOnce)?))
}

/// It passes with ample memory, and also if any one allocation is refused: a refused `queue` answers `NoMemory`, and then
/// what waited before is given, and nothing of the refused list.
#[test]
fn a_queue_without_memory_changes_nothing(rt: HostRuntime) -> Result<(), Fail> {
    let Some((mut window, later)) = before_a_refusal(rt.alloc()) else {
        return Ok(());
    };
    let first = (Call::Next(0), Answer::Gives(b'a', 0));
    let second = (Call::Next(0), Answer::Gives(b'b', 0));
    let last = (Call::Next(0), Answer::Nothing);
    match window.queue(later, Qos::AtMostOnce, None) {
        Ok(()) => {
            let rows = [
                first, first, second, second, second, second, second, second, second, second,
                second, last,
            ];
            check_calls(&rt, rt.alloc(), &mut window, &rows)
        }
        Err(fault) => {
            assert!(rt; fault == WindowFault::NoMemory);
            check_calls(&rt, rt.alloc(), &mut window, &[first, first, last])
        }
    }
}

#[test]
fn as_many_are_in_use_as_the_receive_maximum(rt: HostRuntime) -> Result<(), Fail> {
    let mut inbound = Inbound::new();
    for number in 0..RECEIVE_MAXIMUM {
        assert!(rt; !inbound.is_full());
        assert!(rt; inbound.begin(id(number + 1)?).is_ok());
    }
    assert!(rt; inbound.is_full());
    assert!(rt; inbound.begin(id(17)?) == Err(WindowFault::TooManyHeld));
    assert!(rt; !inbound.holds(id(17)?));
    assert!(rt; inbound.begin(id(16)?).is_ok());
    assert!(rt; inbound.release(id(3)?));
    assert!(rt; !inbound.release(id(3)?));
    assert!(rt; inbound.begin(id(u16::MAX)?).is_ok());
    assert!(rt; inbound.holds(id(u16::MAX)?));
    Ok(())
}

/// Each fault, its number and its text.
const FAULTS: &[(WindowFault, u8, &str)] = &[
    (
        WindowFault::TooManyWaiting,
        50,
        "more than 100000 messages would wait for this client; subscribe to fewer topics at a time",
    ),
    (
        WindowFault::NoMemory,
        51,
        "there is no memory for the messages that would wait; subscribe again later",
    ),
    (
        WindowFault::WrongKind,
        52,
        "the packet identifier waits for another acknowledgement; answer QoS 1 by PUBACK, QoS 2 by PUBREC and then PUBCOMP",
    ),
    (
        WindowFault::TooManyHeld,
        53,
        "16 messages of QoS 2 are not yet released; send PUBREL for one of them first",
    ),
];

#[test]
fn faults_have_codes_and_texts(rt: HostRuntime) -> Result<(), Fail> {
    for (fault, code, text) in FAULTS {
        assert!(rt; fault.code() == *code);
        assert!(rt; is_shown(rt.alloc(), fault, text));
    }
    Ok(())
}
