//! Large and rare arguments of each function that may answer that memory is out: with memory left none does.

use super::sending::is_sent_as;
use super::{Kept, NOTHING, Shape, is_more, is_shaped, waits};
use bytes::Bytes;
use rs_packet::Qos;
use rs_packet_field::put_varint;
use std::alloc::{AllocError, Global};
use std::test::Fail;

/// A part of the body of a packet.
#[derive(Clone, Copy)]
enum Part {
    Bytes(&'static [u8]),
    /// So many bytes `a`.
    Filled(u32),
    /// A string or binary data of so many bytes `a`, after its length.
    Long(u16),
    /// So many times these bytes.
    Repeated(&'static [u8], u16),
    /// A length, in one to four bytes.
    Length(u32),
    /// So many User Properties, after their length.
    Users(u16),
}

// `k` is `v`.
const USER: &[u8] = &[0x26, 0, 1, 0x6B, 0, 1, 0x76];

fn put_filled(alloc: Global, body: &mut Vec<u8>, count: usize) -> Result<(), AllocError> {
    let filled = vec![in alloc; b'a'; count]?;
    body.extend_from_slice(&filled)
}

fn put_repeated(body: &mut Vec<u8>, bytes: &[u8], count: u16) -> Result<(), AllocError> {
    for _ in 0..count {
        body.extend_from_slice(bytes)?;
    }
    Ok(())
}

// A length that is longer than any here is left out.
fn put_length(body: &mut Vec<u8>, length: usize) -> Result<(), AllocError> {
    if length < 1_000_000 {
        put_varint(body, length)?;
    }
    Ok(())
}

fn put(alloc: Global, body: &mut Vec<u8>, part: Part) -> Result<(), AllocError> {
    match part {
        Part::Bytes(bytes) => body.extend_from_slice(bytes),
        Part::Filled(count) => put_filled(alloc, body, count as usize),
        Part::Long(count) => {
            body.extend_from_slice(&count.to_be_bytes())?;
            put_filled(alloc, body, usize::from(count))
        }
        Part::Repeated(bytes, count) => put_repeated(body, bytes, count),
        Part::Length(length) => put_length(body, length as usize),
        Part::Users(count) => {
            put_length(body, USER.len() * usize::from(count))?;
            put_repeated(body, USER, count)
        }
    }
}

// A packet with this first byte, and a body of these parts.
fn packet(alloc: Global, first: u8, parts: &[Part]) -> Result<Bytes, AllocError> {
    let mut body = Vec::new(alloc);
    for part in parts {
        put(alloc, &mut body, *part)?;
    }
    let mut bytes = vec![in alloc; first]?;
    put_length(&mut bytes, body.len())?;
    bytes.extend_from_slice(&body)?;
    Ok(Bytes::from_vec(bytes)?)
}

/// The first byte of a packet, its body, and what it says.
type Row = (u8, &'static [Part], Shape);

// Whether it is read, and waits for its last byte.
fn is_read(rt: &HostRuntime, row: &Row) -> Result<bool, AllocError> {
    let bytes = packet(rt.alloc(), row.0, row.1)?;
    let waits = match bytes.as_slice() {
        [front @ .., _] => is_more(rt, front),
        [] => false,
    };
    Ok(waits && is_shaped(rt, &bytes, row.2))
}

// Whether it is sent on at QoS 0 as it came.
fn is_sent_on(rt: &HostRuntime, row: &Row) -> Result<bool, AllocError> {
    let bytes = packet(rt.alloc(), row.0, row.1)?;
    Ok(is_sent_as(rt, &bytes, Qos::AtMostOnce, 0, bytes.as_slice()))
}

// A CONNECT up to the length of its properties.
const CONNECT: Part = Part::Bytes(b"\x00\x04MQTT\x05\x02\x00\x3C");
// The same, with a user name, a password, and no properties.
const WITH_PASSWORD: Part = Part::Bytes(b"\x00\x04MQTT\x05\xC2\x00\x3C\x00");

const NO_PROPERTIES: Part = Part::Bytes(&[0]);
// The packet identifier 1.
const ID: Part = Part::Bytes(&[0, 1]);
// The topic `a`.
const TOPIC: Part = Part::Bytes(&[0, 1, 0x61]);
// The filter `a` with the options 00, and without options.
const SUBSCRIBED: &[u8] = &[0, 1, 0x61, 0];

const UNSUBSCRIBED: &[u8] = &[0, 1, 0x61];

// CONNECT packets: long client identifiers, large Receive Maxima, and a long user name and password, which are passed over.
const CONNECTS: &[Row] = &[
    (
        0x10,
        &[CONNECT, NO_PROPERTIES, Part::Long(24)],
        Shape::Connect(true, 60, 0, 0, 24),
    ),
    (
        0x10,
        &[CONNECT, NO_PROPERTIES, Part::Long(65)],
        Shape::Connect(true, 60, 0, 0, 65),
    ),
    (
        0x10,
        &[CONNECT, NO_PROPERTIES, Part::Long(1_025)],
        Shape::Connect(true, 60, 0, 0, 1_025),
    ),
    (
        0x10,
        &[CONNECT, NO_PROPERTIES, Part::Long(65_535)],
        Shape::Connect(true, 60, 0, 0, 65_535),
    ),
    (
        0x10,
        &[CONNECT, Part::Bytes(&[3, 0x21, 4, 0]), Part::Long(1)],
        Shape::Connect(true, 60, 1_024, 0, 1),
    ),
    (
        0x10,
        &[CONNECT, Part::Bytes(&[3, 0x21, 4, 1]), Part::Long(1)],
        Shape::Connect(true, 60, 1_025, 0, 1),
    ),
    (
        0x10,
        &[CONNECT, Part::Bytes(&[3, 0x21, 0x27, 0x10]), Part::Long(1)],
        Shape::Connect(true, 60, 10_000, 0, 1),
    ),
    (
        0x10,
        &[CONNECT, Part::Bytes(&[3, 0x21, 0xFF, 0xFE]), Part::Long(1)],
        Shape::Connect(true, 60, 65_534, 0, 1),
    ),
    (
        0x10,
        &[CONNECT, Part::Bytes(&[3, 0x21, 0xFF, 0xFF]), Part::Long(1)],
        Shape::Connect(true, 60, 65_535, 0, 1),
    ),
    (
        0x10,
        &[
            WITH_PASSWORD,
            Part::Long(24),
            Part::Long(24),
            Part::Long(24),
        ],
        Shape::Connect(true, 60, 0, 0, 24),
    ),
    (
        0x10,
        &[
            WITH_PASSWORD,
            Part::Long(65_535),
            Part::Long(65_535),
            Part::Long(65_535),
        ],
        Shape::Connect(true, 60, 0, 0, 65_535),
    ),
];

// Packets with many User Properties, many filters, and long Reason Strings.
const OTHERS: &[Row] = &[
    (
        0x40,
        &[Part::Bytes(&[0, 1, 0x97]), Part::Users(65)],
        Shape::Acknowledgement(4, 1, 0x97),
    ),
    (
        0x50,
        &[Part::Bytes(&[0, 1, 0x97]), Part::Users(65)],
        Shape::Acknowledgement(5, 1, 0x97),
    ),
    (
        0x62,
        &[Part::Bytes(&[0, 1, 0x97]), Part::Users(65)],
        Shape::Acknowledgement(6, 1, 0x97),
    ),
    (
        0x70,
        &[Part::Bytes(&[0, 1, 0x97]), Part::Users(65)],
        Shape::Acknowledgement(7, 1, 0x97),
    ),
    (
        0x82,
        &[ID, Part::Users(65), Part::Bytes(SUBSCRIBED)],
        Shape::Subscribe(1, 0, 1, false),
    ),
    (
        0xA2,
        &[ID, Part::Users(65), Part::Bytes(UNSUBSCRIBED)],
        Shape::Unsubscribe(1, 1),
    ),
    (
        0xE0,
        &[Part::Bytes(&[4]), Part::Users(65)],
        Shape::Disconnect(4),
    ),
    (
        0x40,
        &[Part::Bytes(&[0, 1, 0x97]), Part::Users(1_000)],
        Shape::Acknowledgement(4, 1, 0x97),
    ),
    (
        0x50,
        &[Part::Bytes(&[0, 1, 0x97]), Part::Users(1_000)],
        Shape::Acknowledgement(5, 1, 0x97),
    ),
    (
        0x62,
        &[Part::Bytes(&[0, 1, 0x97]), Part::Users(1_000)],
        Shape::Acknowledgement(6, 1, 0x97),
    ),
    (
        0x70,
        &[Part::Bytes(&[0, 1, 0x97]), Part::Users(1_000)],
        Shape::Acknowledgement(7, 1, 0x97),
    ),
    (
        0x82,
        &[ID, Part::Users(1_000), Part::Bytes(SUBSCRIBED)],
        Shape::Subscribe(1, 0, 1, false),
    ),
    (
        0xA2,
        &[ID, Part::Users(1_000), Part::Bytes(UNSUBSCRIBED)],
        Shape::Unsubscribe(1, 1),
    ),
    (
        0xE0,
        &[Part::Bytes(&[4]), Part::Users(1_000)],
        Shape::Disconnect(4),
    ),
    (
        0x82,
        &[ID, NO_PROPERTIES, Part::Repeated(SUBSCRIBED, 9)],
        Shape::Subscribe(1, 0, 9, false),
    ),
    (
        0xA2,
        &[ID, NO_PROPERTIES, Part::Repeated(UNSUBSCRIBED, 9)],
        Shape::Unsubscribe(1, 9),
    ),
    (
        0x82,
        &[ID, NO_PROPERTIES, Part::Repeated(SUBSCRIBED, 257)],
        Shape::Subscribe(1, 0, 257, false),
    ),
    (
        0xA2,
        &[ID, NO_PROPERTIES, Part::Repeated(UNSUBSCRIBED, 257)],
        Shape::Unsubscribe(1, 257),
    ),
    (
        0x82,
        &[ID, NO_PROPERTIES, Part::Repeated(SUBSCRIBED, 17_000)],
        Shape::Subscribe(1, 0, 17_000, false),
    ),
    (
        0xA2,
        &[ID, NO_PROPERTIES, Part::Repeated(UNSUBSCRIBED, 17_000)],
        Shape::Unsubscribe(1, 17_000),
    ),
    (
        0xE0,
        &[
            Part::Bytes(&[4]),
            Part::Length(27),
            Part::Bytes(&[0x1F]),
            Part::Long(24),
        ],
        Shape::Disconnect(4),
    ),
    (
        0xE0,
        &[
            Part::Bytes(&[4]),
            Part::Length(65_538),
            Part::Bytes(&[0x1F]),
            Part::Long(65_535),
        ],
        Shape::Disconnect(4),
    ),
];

// A Content Type, a Response Topic and Correlation Data that begin with `a`.
const LONG_TEXTS: Kept = Kept(None, Some(b'a'), Some(b'a'), Some(b'a'), 0);

// PUBLISH packets: many User Properties, long payloads, and a long topic, Content Type, Response Topic and Correlation Data.
const PUBLISHES: &[Row] = &[
    (
        0x31,
        &[TOPIC, Part::Users(64), Part::Filled(1)],
        Shape::Publish(true, 0, 0, 0, None, 1, Kept(None, None, None, None, 64)),
    ),
    (
        0x31,
        &[TOPIC, Part::Users(65), Part::Filled(1)],
        Shape::Publish(true, 0, 0, 0, None, 1, Kept(None, None, None, None, 65)),
    ),
    (
        0x31,
        &[TOPIC, Part::Users(1_000), Part::Filled(1)],
        Shape::Publish(true, 0, 0, 0, None, 1, Kept(None, None, None, None, 1_000)),
    ),
    (
        0x31,
        &[TOPIC, Part::Users(10_000), Part::Filled(1)],
        Shape::Publish(true, 0, 0, 0, None, 1, Kept(None, None, None, None, 10_000)),
    ),
    (
        0x31,
        &[TOPIC, NO_PROPERTIES, Part::Filled(65_535)],
        Shape::Publish(true, 0, 0, 0, None, 65_535, NOTHING),
    ),
    (
        0x31,
        &[TOPIC, NO_PROPERTIES, Part::Filled(65_536)],
        Shape::Publish(true, 0, 0, 0, None, 65_536, NOTHING),
    ),
    (
        0x31,
        &[TOPIC, NO_PROPERTIES, Part::Filled(65_537)],
        Shape::Publish(true, 0, 0, 0, None, 65_537, NOTHING),
    ),
    (
        0x31,
        &[TOPIC, NO_PROPERTIES, Part::Filled(262_136)],
        Shape::Publish(true, 0, 0, 0, None, 262_136, NOTHING),
    ),
    (
        0x31,
        &[
            Part::Long(24),
            Part::Length(81),
            Part::Bytes(&[3]),
            Part::Long(24),
            Part::Bytes(&[8]),
            Part::Long(24),
            Part::Bytes(&[9]),
            Part::Long(24),
            Part::Filled(1),
        ],
        Shape::Publish(true, 0, 0, 0, None, 1, LONG_TEXTS),
    ),
    (
        0x31,
        &[
            Part::Long(257),
            Part::Length(780),
            Part::Bytes(&[3]),
            Part::Long(257),
            Part::Bytes(&[8]),
            Part::Long(257),
            Part::Bytes(&[9]),
            Part::Long(257),
            Part::Filled(1),
        ],
        Shape::Publish(true, 0, 0, 0, None, 1, LONG_TEXTS),
    ),
    (
        0x31,
        &[
            Part::Long(40_000),
            Part::Length(120_009),
            Part::Bytes(&[3]),
            Part::Long(40_000),
            Part::Bytes(&[8]),
            Part::Long(40_000),
            Part::Bytes(&[9]),
            Part::Long(40_000),
            Part::Filled(1),
        ],
        Shape::Publish(true, 0, 0, 0, None, 1, LONG_TEXTS),
    ),
    (
        0x31,
        &[
            Part::Long(65_531),
            Part::Length(196_602),
            Part::Bytes(&[3]),
            Part::Long(65_531),
            Part::Bytes(&[8]),
            Part::Long(65_531),
            Part::Bytes(&[9]),
            Part::Long(65_531),
            Part::Filled(1),
        ],
        Shape::Publish(true, 0, 0, 0, None, 1, LONG_TEXTS),
    ),
];

// Topics of 127 slashes, which have 128 levels, and of one level more.
const LEVELS: &[Row] = &[
    (
        0x31,
        &[
            Part::Bytes(&[0, 127]),
            Part::Repeated(b"/", 127),
            NO_PROPERTIES,
        ],
        Shape::Publish(true, 0, 0, 0, None, 0, NOTHING),
    ),
    (
        0x31,
        &[
            Part::Bytes(&[0, 128]),
            Part::Repeated(b"/", 128),
            NO_PROPERTIES,
        ],
        Shape::Publish(true, 0, 0, 7, None, 0, NOTHING),
    ),
];

#[test]
fn large_packets_are_decoded(rt: HostRuntime) -> Result<(), Fail> {
    for rows in [CONNECTS, OTHERS, PUBLISHES, LEVELS] {
        for row in rows {
            assert!(rt; is_read(&rt, row)?);
        }
    }
    Ok(())
}

#[test]
fn large_messages_are_sent_on(rt: HostRuntime) -> Result<(), Fail> {
    for row in PUBLISHES {
        assert!(rt; is_sent_on(&rt, row)?);
    }
    Ok(())
}

// Whether more is wanted of each proper front.
fn is_waited_for(rt: &HostRuntime, row: &Row) -> Result<bool, AllocError> {
    let bytes = packet(rt.alloc(), row.0, row.1)?;
    Ok(waits(rt, bytes.as_slice()))
}

#[test]
fn each_front_of_a_packet_of_many_levels_waits_for_more(rt: HostRuntime) -> Result<(), Fail> {
    for row in LEVELS {
        assert!(rt; is_waited_for(&rt, row)?);
    }
    Ok(())
}
