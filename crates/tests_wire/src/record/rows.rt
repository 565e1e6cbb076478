//! Operations with their records, written out by hand.

use crate::record::samples::{Plain, clear, set};
use rs_message::{Operation, Qos};
use std::alloc::Global;

/// An operation as plain data.
#[derive(Clone, Copy)]
pub enum Change {
    Set(&'static [u8], Plain<'static>),
    Clear(&'static [u8]),
    Sweep(u64),
}

impl Change {
    /// `None` if memory is refused.
    pub fn operation(&self, alloc: Global) -> Option<Operation> {
        match self {
            Change::Set(topic, plain) => set(alloc, topic, plain),
            Change::Clear(topic) => clear(alloc, topic),
            Change::Sweep(moment) => Some(Operation::Sweep(*moment)),
        }
    }
}

/// An operation, and its record field by field.
pub struct Row {
    pub change: Change,
    pub parts: &'static [&'static [u8]],
}

/// A message without properties and without an interval.
const BARE: Plain = Plain {
    payload: b"x",
    qos: Qos::AtMostOnce,
    received: 0,
    expiry: None,
    format: None,
    content_type: None,
    response_topic: None,
    correlation: None,
    user: &[],
};

pub const ROWS: &[Row] = &[
    Row {
        change: Change::Sweep(1_700_000_000),
        parts: &[b"\x03", b"\x00\x00\x00\x00\x65\x53\xF1\x00"],
    },
    Row {
        change: Change::Sweep(u64::MAX),
        parts: &[b"\x03", b"\xFF\xFF\xFF\xFF\xFF\xFF\xFF\xFF"],
    },
    Row {
        change: Change::Clear(b"a/b"),
        parts: &[b"\x02", b"\x00\x03a/b"],
    },
    Row {
        change: Change::Set(b"t", BARE),
        parts: &[
            b"\x01",
            b"\x00\x01t",
            b"\x00",
            b"\x00\x00\x00\x00\x00\x00\x00\x00",
            b"\x00",
            b"\x00",
            b"\x00",
            b"\x00",
            b"\x00",
            b"\x00\x00\x00\x00",
            b"\x00\x00\x00\x01x",
        ],
    },
    // Every property.
    Row {
        change: Change::Set(
            b"plant/3",
            Plain {
                payload: b"21.5",
                qos: Qos::AtLeastOnce,
                received: 0x0102_0304_0506_0708,
                expiry: Some(0x0A0B_0C0D),
                format: Some(1),
                content_type: Some(b"text"),
                response_topic: Some(b"r/t"),
                correlation: Some(b"\x00\xFF"),
                user: &[(b"k", b"v"), (b"k", b"")],
            },
        ),
        parts: &[
            b"\x01",
            b"\x00\x07plant/3",
            b"\x01",
            b"\x01\x02\x03\x04\x05\x06\x07\x08",
            b"\x01\x0A\x0B\x0C\x0D",
            b"\x01\x01",
            b"\x01\x00\x04text",
            b"\x01\x00\x03r/t",
            b"\x01\x00\x02\x00\xFF",
            b"\x00\x00\x00\x02",
            b"\x00\x01k\x00\x01v",
            b"\x00\x01k\x00\x00",
            b"\x00\x00\x00\x0421.5",
        ],
    },
    // Empty texts, which are there, and an interval of no time.
    Row {
        change: Change::Set(
            b"/",
            Plain {
                payload: b"\x00\x01",
                qos: Qos::ExactlyOnce,
                received: u64::MAX,
                expiry: Some(0),
                format: Some(0),
                content_type: Some(b""),
                response_topic: Some(b""),
                correlation: Some(b""),
                user: &[(b"", b"")],
            },
        ),
        parts: &[
            b"\x01",
            b"\x00\x01/",
            b"\x02",
            b"\xFF\xFF\xFF\xFF\xFF\xFF\xFF\xFF",
            b"\x01\x00\x00\x00\x00",
            b"\x01\x00",
            b"\x01\x00\x00",
            b"\x01\x00\x00",
            b"\x01\x00\x00",
            b"\x00\x00\x00\x01",
            b"\x00\x00\x00\x00",
            b"\x00\x00\x00\x02\x00\x01",
        ],
    },
];
