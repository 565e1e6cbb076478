//! Retained messages (3.3.1.3).

ghost use Rattle.std.specs.Prelude.{◌≡◌, nat_le, ◌++◌, IfOk, OnOk};
ghost use Rattle.rs_message.specs.Sizes.{message_len};
ghost use Rattle.rs_message.specs.declared.limits.TheConstants.{MAX_PACKET_SIZE};
ghost use Rattle.rs_journal_record.specs.Fields.{Gives};
ghost use Rattle.rs_journal_record.specs.Records.{message_form, qos_at, payload_at, message_at, IsKept};

use crate::fault::RecordFault;
use crate::field::{put_u64, read_byte, read_part, read_u32, read_u64};
use crate::optional::{put_optional_u32, read_optional_u32};
use crate::properties::{put_properties, read_properties};
use bytes::Bytes;
use rs_message::{MAX_PACKET_SIZE, Message, Qos};
use rs_packet_field::{put_u32, varint_len};
use rs_packet_property::Properties;
use std::alloc::{AllocError, Global};

#[tactic(auto, unfolding(crate::specs::Records::qos_at))]
fn read_qos(rest: &mut Bytes) -> Result<Qos, RecordFault>
    ensures { Gives (λ q. (q, rest.new)) result (qos_at rest.old) }
{
    match read_byte(rest)? {
        0 => Ok(Qos::AtMostOnce),
        1 => Ok(Qos::AtLeastOnce),
        2 => Ok(Qos::ExactlyOnce),
        _ => Err(RecordFault::Malformed),
    }
}

#[tactic(auto, unfolding(crate::specs::Records::payload_at))]
fn read_payload(rest: &mut Bytes) -> Result<Bytes, RecordFault>
    ensures { Gives (λ p. (p, rest.new)) result (payload_at rest.old) }
{
    let len = read_u32(rest)?;
    read_part(rest, len as usize)
}

/// Whether properties and a payload of this length take no more bytes than a packet may have. The properties are written to be measured:
/// `properties_len` of `rs_packet_field` needs to know a bound of them first. Without any it takes no memory.
fn is_small(
    alloc: Global,
    expiry: Option<u32>,
    properties: &Properties,
    payload: usize,
) -> Result<bool, AllocError>
    ensures { IfOk result (λ b. b ≡ nat_le (message_len expiry properties.now payload) MAX_PACKET_SIZE) }
{
    let mut section = Vec::new(alloc);
    rs_packet_field::put_properties(&mut section, expiry, None, properties)?;
    let max = MAX_PACKET_SIZE as usize;
    let len = section.len();
    if len > max || payload > max {
        return Ok(false);
    }
    Ok(payload + varint_len(len) + len <= max)
}

/// Reads a message.
#[tactic(auto, unfolding(crate::specs::Records::message_at))]
pub(crate) fn read_message(alloc: Global, rest: &mut Bytes) -> Result<Message, RecordFault>
    ensures { Gives (λ m. (m, rest.new)) result (message_at rest.old) }
{
    let qos = read_qos(rest)?;
    let received = read_u64(rest)?;
    let expiry = read_optional_u32(rest)?;
    let fields = read_properties(alloc, rest)?;
    let payload = read_payload(rest)?;
    let properties = Properties::new(alloc, fields)?;
    if payload.is_empty() || !is_small(alloc, expiry, &properties, payload.len())? {
        return Err(RecordFault::Malformed);
    }
    Ok(Message::new(payload, qos, received, expiry, properties))
}

/// Appends a message.
pub(crate) fn put_message(out: &mut Vec<u8>, message: &Message) -> Result<(), AllocError>
    ensures put { OnOk result (out.new.items ≡ out.old.items ++ message_form message.now) }
    ensures fits { OnOk result (IsKept message.now) }
{
    let payload = message.payload();
    out.push(message.qos().level())?;
    put_u64(out, message.received())?;
    put_optional_u32(out, message.expiry())?;
    put_properties(out, message.properties())?;
    put_u32(out, payload.len() as u32)?;
    out.extend_from_slice(payload.as_slice())?;
    Ok(())
}
