//! PUBLISH (3.3).

ghost use Rattle.std.specs.Prelude.{◌≡◌, ◌+◌, ◌*◌, ◌<◌, ◌^◌, ◌++◌, length, ℕ, List, Option, OnOk, if◌then◌else◌};
ghost use Rattle.std.specs.List.{flat_map};
ghost use Rattle.rs_packet_property.specs.Forms.{varint, varint_end};
ghost use Rattle.rs_packet_property.specs.Properties.{property_bytes};
ghost use Rattle.rs_packet_property.specs.Carried.{replayed};
ghost use Rattle.rs_packet.specs.Grammar.{IdFits, frame, id_bytes};
ghost use Rattle.rs_message.specs.Sizes.{level};
ghost use Rattle.rs_packet.specs.Replies.{publish_reply_body, publish_remaining, reply_bytes, PublishFits};

use crate::packet::PacketId;
use crate::reply::{PublishReply, Reply};
use rs_message::Qos;
use rs_packet_field::{
    properties_len, put_binary, put_properties, put_u16, put_varint, varint_len,
};
use rs_packet_property::{Properties, SubscriptionId};
use rs_topic::TopicName;
use std::alloc::AllocError;

/// The number of bytes of the body of a PUBLISH, from those of its properties and of its payload.
fn around_len(topic: &TopicName, with_id: bool, section: usize, payload: usize) -> usize
    requires section_fits { section < varint_end }
    requires payload_fits { payload < varint_end }
    ensures value { result ≡ 2 + length topic.now + (if with_id then 2 else 0) + length (varint section) + section + payload }
    ensures topic_fits { length topic.now < 2 ^ 16 }
{
    let id = if with_id { 2 } else { 0 };
    2 + topic.as_bytes().len() + id + varint_len(section) + section + payload
}

/// The number of bytes of the body of a PUBLISH, and of its properties.
#[tactic(auto, using(crate::proofs::Lengths::length_body, crate::proofs::Lengths::section_small))]
pub(crate) fn body_len(p: &PublishReply) -> (usize, usize)
    ensures section { result.1 ≡ length (flat_map property_bytes (replayed p.now.expiry p.now.subscription p.now.properties)) }
    ensures body { result.0 ≡ length (publish_reply_body p.now) }
    ensures small { result.0 < varint_end }
    ensures section_small { result.1 < varint_end }
    ensures fits { PublishFits p.now }
{
    let section = properties_len(p.expiry, p.subscription, p.found.message().properties());
    let len = around_len(
        p.found.topic(),
        p.id.is_some(),
        section,
        p.found.message().payload().len(),
    );
    (len, section)
}

/// Appends the packet identifier, if there is one.
fn put_id(out: &mut Vec<u8>, id: Option<PacketId>) -> Result<(), AllocError>
    ensures { OnOk result (out.new.items ≡ out.old.items ++ id_bytes id) }
{
    if let Some(id) = id {
        put_u16(out, id.get())?;
    }
    Ok(())
}

/// Appends all of a PUBLISH but its payload.
pub(crate) fn put_publish_head(out: &mut Vec<u8>, p: &PublishReply) -> Result<(), AllocError>
    ensures { OnOk result (out.new.items ++ p.now.payload
        ≡ out.old.items ++ frame (0x31 + 2 * level p.now.qos) (publish_reply_body p.now)) }
{
    let (len, section) = body_len(p);
    out.push(0x31 + 2 * p.qos.level())?;
    put_varint(out, len)?;
    put_binary(out, p.found.topic().as_bytes())?;
    put_id(out, p.id)?;
    put_varint(out, section)?;
    put_properties(
        out,
        p.expiry,
        p.subscription,
        p.found.message().properties(),
    )?;
    Ok(())
}

/// Appends a PUBLISH.
pub(crate) fn put_publish_reply(out: &mut Vec<u8>, p: &PublishReply) -> Result<(), AllocError>
    ensures { OnOk result (out.new.items ≡ out.old.items ++ frame (0x31 + 2 * level p.now.qos) (publish_reply_body p.now)) }
{
    put_publish_head(out, p)?;
    out.extend_from_slice(p.found.message().payload().as_slice())?;
    Ok(())
}

/// How many bytes a PUBLISH takes: `encoded_len` of each with this topic, payload length, properties,
/// QoS, interval and Subscription Identifier, and a packet identifier if QoS is 1 or 2 (3.3). Its
/// Remaining Length (2.1.4) is at most `MAX_REMAINING_LENGTH`. It takes no memory.
pub fn publish_len(
    topic: &TopicName,
    payload: usize,
    properties: &Properties,
    qos: Qos,
    expiry: Option<u32>,
    subscription: Option<SubscriptionId>,
) -> usize
    requires { publish_remaining topic.now qos expiry subscription properties.now payload < varint_end }
    ensures value { (id : Option ℕ) (bytes : List ℕ) → IdFits qos id → length bytes ≡ payload
        → result ≡ length (reply_bytes
        (Reply.Publish (record {
          topic = topic.now;
          qos = qos;
          id = id;
          subscription = subscription;
          expiry = expiry;
          properties = properties.now;
          payload = bytes;
        }))) }
    ensures small { result < 2 ^ 29 }
{
    let section = properties_len(expiry, subscription, properties);
    let len = around_len(topic, qos.level() > 0, section, payload);
    1 + varint_len(len) + len
}
