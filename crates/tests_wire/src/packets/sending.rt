//! Messages that are read from a PUBLISH and sent on.

ghost use Rattle.std.specs.Prelude.{◌≤◌};
ghost use Rattle.rs_packet.specs.Grammar.{IdFits};
ghost use Rattle.rs_message.specs.Sizes.{message_len};

use super::replies::is_encoded;
use super::{KEPT, PUBLISH};
use bytes::Bytes;
use rs_message::{Found, MAX_PACKET_SIZE, Message};
use rs_packet::*;
use rs_topic::TopicName;
use std::alloc::Global;

fn publish_of(rt: &HostRuntime, bytes: &Bytes) -> Option<Publish> {
    match decode(rt.alloc(), bytes) {
        Ok(Decoded::Whole(Packet::Publish(publish), _)) => Some(publish),
        _ => None,
    }
}

// `publish_len`, for a message that fits a packet.
fn fitting_len(
    topic: &TopicName,
    payload: usize,
    properties: &Properties,
    qos: Qos,
    expiry: Option<u32>,
    subscription: Option<SubscriptionId>,
) -> usize
    requires { message_len expiry properties.now payload ≤ MAX_PACKET_SIZE }
{
    let _topic = topic.as_bytes();
    publish_len(topic, payload, properties, qos, expiry, subscription)
}

// How long its PUBLISH gets, or 0 if its topic has a fault.
fn length_of(publish: &Publish, qos: Qos, subscription: Option<SubscriptionId>) -> usize {
    match &publish.topic {
        Ok(topic) => fitting_len(
            topic,
            publish.payload.len(),
            &publish.properties,
            qos,
            publish.expiry,
            subscription,
        ),
        Err(_) => 0,
    }
}

fn is_copied(properties: &Properties) -> bool {
    match properties.copy() {
        Ok(copied) => copied == *properties,
        Err(_) => false,
    }
}

// Whether this length is computed before, and a copy of the properties equals them.
fn has_len_and_copy(publish: &Publish, qos: Qos, subscription: u32, length: usize) -> bool {
    length_of(publish, qos, SubscriptionId::new(subscription)) == length
        && is_copied(&publish.properties)
}

// The identifier 1, at QoS 1 and 2.
fn id_at(qos: Qos) -> Option<PacketId>
    ensures { IdFits qos result }
{
    match qos {
        Qos::AtMostOnce => None,
        Qos::AtLeastOnce | Qos::ExactlyOnce => PacketId::new(1),
    }
}

fn reply_of(
    alloc: Global,
    publish: Publish,
    qos: Qos,
    subscription: Option<SubscriptionId>,
) -> Option<Reply> {
    let Publish {
        topic,
        expiry,
        properties,
        payload,
        ..
    } = publish;
    let topic = topic.ok()?;
    if payload.is_empty() {
        return None;
    }
    let message = Message::new(payload, qos, 0, expiry, properties);
    let Ok(found) = Found::new(alloc, topic, message) else {
        return None;
    };
    let sent = PublishReply::new(found, qos, id_at(qos), expiry, subscription);
    Some(Reply::Publish(sent))
}

fn is_replied(
    rt: &HostRuntime,
    publish: Publish,
    qos: Qos,
    subscription: u32,
    want: &[u8],
) -> bool {
    match reply_of(rt.alloc(), publish, qos, SubscriptionId::new(subscription)) {
        Some(reply) => is_encoded(rt, &reply, want),
        None => false,
    }
}

// Whether the message of this PUBLISH is sent on as the bytes `want`, of the length that is computed before. The Subscription Identifier
// is none if it is 0.
pub fn is_sent_as(
    rt: &HostRuntime,
    bytes: &Bytes,
    qos: Qos,
    subscription: u32,
    want: &[u8],
) -> bool {
    let Some(publish) = publish_of(rt, bytes) else {
        return false;
    };
    if !has_len_and_copy(&publish, qos, subscription, want.len()) {
        return false;
    }
    is_replied(rt, publish, qos, subscription, want)
}

// A retained PUBLISH with two User Properties, not in the order of their names.
const USERS: &[u8] = &[
    0x31, 0x13, 0, 1, 0x61, 0x0E, 0x26, 0, 1, 0x62, 0, 1, 0x32, 0x26, 0, 1, 0x61, 0, 1, 0x31, 0x78,
];

// A PUBLISH, and at which QoS and with which Subscription Identifier, 0 for none, it is sent on as these bytes.
const SENT: &[(&[u8], Qos, u32, &[u8])] = &[
    // Properties are sent on in rising order.
    (KEPT, Qos::AtMostOnce, 0, KEPT),
    // User Properties keep their order (3.3.2.3.7).
    (USERS, Qos::AtMostOnce, 0, USERS),
    (
        PUBLISH,
        Qos::ExactlyOnce,
        0,
        &[0x35, 9, 0, 3, 0x61, 0x2F, 0x62, 0, 1, 0, 0x78],
    ),
    // The Subscription Identifier comes after 0x09 and before 0x26.
    (
        KEPT,
        Qos::ExactlyOnce,
        7,
        &[
            0x35, 0x23, 0, 1, 0x61, 0, 1, 0x1C, 1, 1, 2, 0, 0, 0, 10, 3, 0, 1, 0x74, 8, 0, 1, 0x72,
            9, 0, 1, 0x63, 0x0B, 7, 0x26, 0, 1, 0x6B, 0, 1, 0x76, 0x78,
        ],
    ),
    (
        KEPT,
        Qos::AtLeastOnce,
        268_435_455,
        &[
            0x33, 0x26, 0, 1, 0x61, 0, 1, 0x1F, 1, 1, 2, 0, 0, 0, 10, 3, 0, 1, 0x74, 8, 0, 1, 0x72,
            9, 0, 1, 0x63, 0x0B, 0xFF, 0xFF, 0xFF, 0x7F, 0x26, 0, 1, 0x6B, 0, 1, 0x76, 0x78,
        ],
    ),
];

#[test]
fn messages_are_sent_on_with_qos_and_subscription_identifier(rt: HostRuntime) {
    for (bytes, qos, subscription, want) in SENT {
        let bytes = Bytes::from_static(bytes);
        assert!(rt; is_sent_as(&rt, &bytes, *qos, *subscription, want));
    }
}
