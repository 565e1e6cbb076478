//! Messages and operations that tests are made of.

ghost use Rattle.std.specs.Prelude.{◌≡◌, ◌≢◌, ◌≤◌, [], false, length, IfSome};
ghost use Rattle.rs_message.specs.Messages.{is_sweep};

use bytes::Bytes;
use rs_message::{Found, Message, Operation, Origin, Properties, Qos};
use rs_topic::TopicName;
use std::alloc::Global;
use std::test::Fail;

/// The bytes of a payload that fits a packet beside its properties.
pub const PAYLOAD: usize = 262_000;

/// A message without properties, which came at this moment and lasts for so many seconds, or for ever.
pub fn message(payload: Bytes, qos: Qos, received: u64, expiry: Option<u32>) -> Message
    requires some { payload ≢ [] }
    requires fits { length payload ≤ 262000 }
{
    Message::new(payload, qos, received, expiry, Properties::none())
}

/// A topic with such a message. `None` if the topic or the payload is none that may be, or if memory is refused.
pub fn found(
    alloc: Global,
    topic: &[u8],
    payload: &[u8],
    qos: Qos,
    received: u64,
    expiry: Option<u32>,
) -> Option<Found> {
    if payload.is_empty() || payload.len() > PAYLOAD {
        return None;
    }
    let topic = TopicName::read(alloc, topic).ok()?;
    let payload = Bytes::copy_from_slice(alloc, payload).ok()?;
    Found::new(alloc, topic, message(payload, qos, received, expiry)).ok()
}

/// A Set whose message came at this moment and lasts for so many seconds, or for ever.
pub fn set_at(
    alloc: Global,
    topic: &[u8],
    payload: &[u8],
    received: u64,
    expiry: Option<u32>,
) -> Option<Operation>
    ensures { IfSome result (λ o. is_sweep o ≡ false) }
{
    let found = found(alloc, topic, payload, Qos::ExactlyOnce, received, expiry)?;
    Some(Operation::Set(found))
}

/// A Set whose message came at 0 and lasts for ever.
pub fn set(alloc: Global, topic: &[u8], payload: &[u8]) -> Option<Operation>
    ensures { IfSome result (λ o. is_sweep o ≡ false) }
{
    set_at(alloc, topic, payload, 0, None)
}

pub fn clear(alloc: Global, topic: &[u8]) -> Option<Operation>
    ensures { IfSome result (λ o. is_sweep o ≡ false) }
{
    Some(Operation::Clear(TopicName::read(alloc, topic).ok()?))
}

pub fn origin(place: u16, serial: u64) -> Result<Origin, Fail> {
    Ok(Origin::of_line(place, serial).ok_or("no line or no serial")?)
}
