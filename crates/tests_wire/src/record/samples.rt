//! Operations made of plain data.

ghost use Rattle.std.specs.Prelude.{IfSome};
ghost use Rattle.rs_packet_property.specs.Forms.{IsShort};

use bytes::Bytes;
use rs_message::{Found, MAX_PACKET_SIZE, Message, Operation, Properties, Qos};
use rs_packet_field::{put_properties, varint_len};
use rs_packet_property::PropertyFields;
use rs_topic::{Text, TopicName};
use std::alloc::Global;

/// A message as plain data.
#[derive(Clone, Copy)]
pub struct Plain<'a> {
    pub payload: &'a [u8],
    pub qos: Qos,
    pub received: u64,
    pub expiry: Option<u32>,
    pub format: Option<u8>,
    pub content_type: Option<&'a [u8]>,
    pub response_topic: Option<&'a [u8]>,
    pub correlation: Option<&'a [u8]>,
    pub user: &'a [(&'a [u8], &'a [u8])],
}

fn text(alloc: Global, bytes: &[u8]) -> Option<Text> {
    Text::read(alloc, bytes).ok()
}

/// The text, if one is wanted.
fn optional_text(alloc: Global, bytes: Option<&[u8]>) -> Option<Option<Text>> {
    match bytes {
        Some(bytes) => Some(Some(text(alloc, bytes)?)),
        None => Some(None),
    }
}

/// The bytes, if they are wanted.
fn optional_bytes(alloc: Global, bytes: Option<&[u8]>) -> Option<Option<Bytes>>
    ensures { IfSome result (λ o. IfSome o IsShort) }
{
    match bytes {
        Some(bytes) if bytes.len() <= 65_535 => {
            let copy = Bytes::copy_from_slice(alloc, bytes).ok()?;
            Some(Some(copy))
        }
        Some(_) => None,
        None => Some(None),
    }
}

fn pairs(alloc: Global, user: &[(&[u8], &[u8])]) -> Option<Vec<(Text, Text)>> {
    let mut pairs = Vec::new(alloc);
    for (name, value) in user {
        let pair = (text(alloc, name)?, text(alloc, value)?);
        pairs.push(pair).ok()?;
    }
    Some(pairs)
}

fn properties(alloc: Global, plain: &Plain) -> Option<Properties> {
    let fields = PropertyFields {
        format: plain.format,
        content_type: optional_text(alloc, plain.content_type)?,
        response_topic: optional_text(alloc, plain.response_topic)?,
        correlation: optional_bytes(alloc, plain.correlation)?,
        user: pairs(alloc, plain.user)?,
    };
    Properties::new(alloc, fields).ok()
}

/// `None` if it is too large or empty, or if memory is refused.
fn message(alloc: Global, plain: &Plain) -> Option<Message> {
    let properties = properties(alloc, plain)?;
    let mut section = Vec::new(alloc);
    put_properties(&mut section, plain.expiry, None, &properties).ok()?;
    let max = MAX_PACKET_SIZE as usize;
    let len = section.len();
    let payload = Bytes::copy_from_slice(alloc, plain.payload).ok()?;
    if payload.is_empty() || payload.len() > max || len > max {
        return None;
    }
    if payload.len() + varint_len(len) + len > max {
        return None;
    }
    Some(Message::new(payload, plain.qos, plain.received, plain.expiry, properties))
}

/// `None` if one of them is none that may be, or if memory is refused.
pub fn set(alloc: Global, topic: &[u8], plain: &Plain) -> Option<Operation> {
    let topic = TopicName::read(alloc, topic).ok()?;
    let message = message(alloc, plain)?;
    let found = Found::new(alloc, topic, message).ok()?;
    Some(Operation::Set(found))
}

pub fn clear(alloc: Global, topic: &[u8]) -> Option<Operation> {
    Some(Operation::Clear(TopicName::read(alloc, topic).ok()?))
}
