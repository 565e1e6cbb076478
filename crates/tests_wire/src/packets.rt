//! Packets that are read: whole, cut off, and faulty.

use bytes::Bytes;
use rs_packet::*;
use rs_topic::Text;

mod faults;
mod large;
mod replies;
mod sending;

// The client `a` connects.
const CONNECT: &[u8] = &[
    0x10, 0x0E, 0, 4, 0x4D, 0x51, 0x54, 0x54, 5, 2, 0, 0x3C, 0, 0, 1, 0x61,
];

// The topic `a/b` with the payload `x`, retained.
const PUBLISH: &[u8] = &[0x31, 7, 0, 3, 0x61, 0x2F, 0x62, 0, 0x78];
// The filter `a/#` with the options 00.
const SUBSCRIBE: &[u8] = &[0x82, 9, 0, 1, 0, 0, 3, 0x61, 0x2F, 0x23, 0];
// The topic `a` with an interval, all that a message keeps, and the payload `x`.
const KEPT: &[u8] = &[
    0x31, 0x1F, 0, 1, 0x61, 0x1A, 1, 1, 2, 0, 0, 0, 10, 3, 0, 1, 0x74, 8, 0, 1, 0x72, 9, 0, 1,
    0x63, 0x26, 0, 1, 0x6B, 0, 1, 0x76, 0x78,
];
// The topic `a` with an interval and a Payload Format Indicator of 0, an empty Content Type and empty Correlation Data, and the payload
// `x`.
const ZEROS: &[u8] = &[
    0x31, 0x12, 0, 1, 0x61, 0x0D, 1, 0, 2, 0, 0, 0, 0, 3, 0, 0, 9, 0, 0, 0x78,
];

// Receive Maximum 1 and Maximum Packet Size 20.
const LIMITED: &[u8] = &[
    0x10, 0x16, 0, 4, 0x4D, 0x51, 0x54, 0x54, 5, 2, 0, 0x3C, 8, 0x21, 0, 1, 0x27, 0, 0, 0, 20, 0,
    1, 0x61,
];
// Subscription identifier 7, and each option at once.
const OPTIONS: &[u8] = &[0x82, 8, 0, 1, 2, 0x0B, 7, 0, 0, 0x1E];

const UNSUBSCRIBE: &[u8] = &[0xA2, 8, 0, 2, 0, 0, 3, 0x61, 0x2F, 0x23];

/// What a packet says, in plain values. A packet identifier, a Receive Maximum, a Maximum Packet Size or a Subscription Identifier that it
/// does not have is 0, which none of them may be.
#[derive(Clone, Copy, PartialEq, Eq)]
enum Shape {
    /// Clean Start, the Keep Alive, the Receive Maximum, the Maximum Packet Size, and the length of a client identifier of `a`.
    Connect(bool, u16, u16, u32, usize),
    /// RETAIN, the QoS, the packet identifier, the fault of the topic, the interval, and the length of the payload.
    Publish(bool, u8, u16, u8, Option<u32>, usize, Kept),
    /// The type, the packet identifier and the code.
    Acknowledgement(u8, u16, u8),
    /// The packet identifier, the Subscription Identifier, the number of filters, and whether each asks for all options.
    Subscribe(u16, u32, usize, bool),
    /// The packet identifier and the number of filters.
    Unsubscribe(u16, usize),
    Pingreq,
    Disconnect(u8),
}

/// What a message keeps: the Payload Format Indicator, the first bytes of Content Type, Response Topic and Correlation Data, each 0 if it
/// is empty and none if the message does not have it, and the number of User Properties.
#[derive(Clone, Copy, PartialEq, Eq)]
struct Kept(Option<u8>, Option<u8>, Option<u8>, Option<u8>, usize);

const NOTHING: Kept = Kept(None, None, None, None, 0);

fn first_of(bytes: &[u8]) -> u8 {
    match bytes.first() {
        Some(first) => *first,
        None => 0,
    }
}

fn first_of_text(text: &Option<Text>) -> Option<u8> {
    match text {
        Some(text) => Some(first_of(text.as_bytes())),
        None => None,
    }
}

fn kept_by(properties: &Properties) -> Kept {
    let Some(fields) = properties.fields() else {
        return NOTHING;
    };
    let correlation = match &fields.correlation {
        Some(correlation) => Some(first_of(correlation.as_slice())),
        None => None,
    };
    Kept(
        fields.format,
        first_of_text(&fields.content_type),
        first_of_text(&fields.response_topic),
        correlation,
        fields.user.len(),
    )
}

// The length of a client identifier whose bytes are all `a`.
fn length_if_all_a(client: &Option<Text>) -> usize {
    let Some(client) = client else {
        return 0;
    };
    let mut length = 0usize;
    for byte in client.as_bytes() {
        if *byte != b'a' {
            return 0;
        }
        length = length.saturating_add(1);
    }
    length
}

fn shape_of_connect(connect: &Connect) -> Shape {
    Shape::Connect(
        connect.clean_start,
        connect.keep_alive,
        connect.receive_maximum.unwrap_or(0),
        connect.packet_maximum.unwrap_or(0),
        length_if_all_a(&connect.client),
    )
}

fn shape_of_publish(publish: &Publish) -> Shape {
    let fault = match &publish.topic {
        Ok(_) => 0,
        Err(fault) => fault.code(),
    };
    let id = match publish.id {
        Some(id) => id.get(),
        None => 0,
    };
    Shape::Publish(
        publish.retain,
        publish.qos.level(),
        id,
        fault,
        publish.expiry,
        publish.payload.len(),
        kept_by(&publish.properties),
    )
}

fn number_of(subscription: Option<SubscriptionId>) -> u32 {
    match subscription {
        Some(id) => id.get(),
        None => 0,
    }
}

fn asks_for_all(options: &Options) -> bool {
    matches!(options.qos, Qos::ExactlyOnce)
        && matches!(options.retain_handling, RetainHandling::IfNew)
        && options.no_local
        && options.retain_as_published
}

fn shape_of_subscribe(subscribe: &Subscribe) -> Shape {
    let mut all = true;
    for filter in &subscribe.filters {
        all = all && asks_for_all(&filter.1);
    }
    Shape::Subscribe(
        subscribe.id.get(),
        number_of(subscribe.subscription),
        subscribe.filters.len(),
        all,
    )
}

fn shape_of(packet: &Packet) -> Shape {
    match packet {
        Packet::Connect(connect) => shape_of_connect(connect),
        Packet::Publish(publish) => shape_of_publish(publish),
        Packet::Puback(a) => Shape::Acknowledgement(4, a.id.get(), a.code),
        Packet::Pubrec(a) => Shape::Acknowledgement(5, a.id.get(), a.code),
        Packet::Pubrel(a) => Shape::Acknowledgement(6, a.id.get(), a.code),
        Packet::Pubcomp(a) => Shape::Acknowledgement(7, a.id.get(), a.code),
        Packet::Subscribe(subscribe) => shape_of_subscribe(subscribe),
        Packet::Unsubscribe(u) => Shape::Unsubscribe(u.id.get(), u.filters.len()),
        Packet::Pingreq => Shape::Pingreq,
        Packet::Disconnect(code) => Shape::Disconnect(*code),
    }
}

/// What `decode` answers, in plain values.
#[derive(Clone, Copy)]
enum Answer {
    /// A packet, and its size.
    Whole(Shape, usize),
    More,
    /// The number of the fault.
    Fault(u8),
}

fn answer_to(rt: &HostRuntime, bytes: &Bytes) -> Answer {
    match decode(rt.alloc(), bytes) {
        Ok(Decoded::Whole(packet, size)) => Answer::Whole(shape_of(&packet), size),
        Ok(Decoded::More) => Answer::More,
        Err(fault) => Answer::Fault(fault.code()),
    }
}

fn is_shaped(rt: &HostRuntime, bytes: &Bytes, wanted: Shape) -> bool {
    match answer_to(rt, bytes) {
        Answer::Whole(shape, size) => size == bytes.len() && shape == wanted,
        _ => false,
    }
}

// Packets, and what they say.
const READ: &[(&[u8], Shape)] = &[
    (CONNECT, Shape::Connect(true, 60, 0, 0, 1)),
    (LIMITED, Shape::Connect(true, 60, 1, 20, 1)),
    (
        KEPT,
        Shape::Publish(
            true,
            0,
            0,
            0,
            Some(10),
            1,
            Kept(Some(1), Some(b't'), Some(b'r'), Some(b'c'), 1),
        ),
    ),
    (
        ZEROS,
        Shape::Publish(
            true,
            0,
            0,
            0,
            Some(0),
            1,
            Kept(Some(0), Some(0), None, Some(0), 0),
        ),
    ),
    (
        &[0x3D, 7, 0, 1, 0x61, 0, 5, 0, 0x31],
        Shape::Publish(true, 2, 5, 0, None, 1, NOTHING),
    ),
    // A topic with a wildcard.
    (
        &[0x30, 5, 0, 1, 0x23, 0, 0x31],
        Shape::Publish(false, 0, 0, 5, None, 1, NOTHING),
    ),
    (SUBSCRIBE, Shape::Subscribe(1, 0, 1, false)),
    (OPTIONS, Shape::Subscribe(1, 7, 1, true)),
    (UNSUBSCRIBE, Shape::Unsubscribe(2, 1)),
    (&[0x40, 2, 0, 1], Shape::Acknowledgement(4, 1, 0)),
    (&[0x50, 3, 0, 1, 0x97], Shape::Acknowledgement(5, 1, 0x97)),
    (&[0x62, 2, 0, 5], Shape::Acknowledgement(6, 5, 0)),
    (
        &[0x70, 4, 0, 5, 0x92, 0],
        Shape::Acknowledgement(7, 5, 0x92),
    ),
    (&[0xC0, 0], Shape::Pingreq),
    (&[0xE0, 0], Shape::Disconnect(0)),
    (&[0xE0, 1, 4], Shape::Disconnect(4)),
];

#[test]
fn packets_are_decoded(rt: HostRuntime) {
    for (bytes, shape) in READ {
        assert!(rt; is_shaped(&rt, &Bytes::from_static(bytes), *shape));
    }
}

// Bytes, and the number of their fault, or 0 if they are a whole packet.
const JUDGED: &[(&[u8], u8)] = &[
    // The name MQTX, no version, a name cut off.
    (&[0x10, 6, 0, 4, 0x4D, 0x51, 0x54, 0x58], 13),
    (&[0x10, 6, 0, 4, 0x4D, 0x51, 0x54, 0x54], 10),
    (&[0x10, 3, 0, 1, 0xFF], 10),
    // Authentication data without a method, before a client identifier cut off.
    (
        &[
            0x10, 0x10, 0, 4, 0x4D, 0x51, 0x54, 0x54, 5, 2, 0, 0x3C, 3, 0x16, 0, 0, 0, 5,
        ],
        11,
    ),
    // A will, of which nothing is read.
    (
        &[
            0x10, 0x0C, 0, 4, 0x4D, 0x51, 0x54, 0x54, 5, 6, 0, 0x3C, 0, 0xFF,
        ],
        0,
    ),
    // A Server Reference in a DISCONNECT, an interval of sessions in a SUBSCRIBE.
    (&[0xE0, 3, 0, 1, 0x1C], 11),
    (&[0x82, 5, 0, 1, 1, 0x11, 0], 10),
    // A Response Topic that is not a text, and one with a wildcard.
    (&[0x31, 8, 0, 1, 0x61, 4, 8, 0, 1, 0xFF], 10),
    (&[0x31, 8, 0, 1, 0x61, 4, 8, 0, 1, 0x2B], 11),
    // The Subscription Identifier 0 before an unknown property, one in two bytes of 0, the widest, and one of five bytes.
    (&[0x82, 0x0A, 0, 1, 3, 0x0B, 0, 0x7F, 0, 1, 0x61, 0], 11),
    (&[0x82, 0x0A, 0, 1, 3, 0x0B, 0x80, 0, 0, 1, 0x61, 0], 10),
    (
        &[
            0x82, 0x0C, 0, 1, 5, 0x0B, 0xFF, 0xFF, 0xFF, 0x7F, 0, 1, 0x61, 0,
        ],
        0,
    ),
    (
        &[
            0x82, 0x0D, 0, 1, 6, 0x0B, 0xFF, 0xFF, 0xFF, 0xFF, 0x7F, 0, 1, 0x61, 0,
        ],
        10,
    ),
    // An UNSUBSCRIBE, and a SUBSCRIBE, without a filter.
    (&[0xA2, 3, 0, 1, 0], 11),
    (&[0x82, 3, 0, 1, 0], 11),
    // Types and flags that no client sends.
    (&[0x80], 10),
    (&[0x36], 10),
    (&[0x38], 10),
    (&[0x00], 10),
    (&[0x20], 11),
    (&[0x90], 11),
    (&[0xB0], 11),
    (&[0xD0], 11),
    (&[0xF0], 11),
    // Lengths: five bytes, more than its number needs, and the one of a packet of 262,145 bytes.
    (&[0x30, 0xFF, 0xFF, 0xFF, 0xFF], 10),
    (&[0xC0, 0x80, 0], 10),
    (&[0xC0, 0x80, 0x81, 0], 10),
    (&[0xC0, 0x80, 0x80, 0x81, 0], 10),
    (&[0x31, 0xFD, 0xFF, 0x0F], 12),
    // The packet identifier 0.
    (&[0x33, 7, 0, 1, 0x61, 0, 0, 0, 0x31], 11),
    // Maximum QoS 3, Retain Handling 3, a reserved bit, and one beside maximum QoS 3.
    (&[0x82, 7, 0, 1, 0, 0, 1, 0x61, 0x03], 11),
    (&[0x82, 7, 0, 1, 0, 0, 1, 0x61, 0x30], 11),
    (&[0x82, 7, 0, 1, 0, 0, 1, 0x61, 0x40], 10),
    (&[0x82, 7, 0, 1, 0, 0, 1, 0x61, 0x43], 10),
    // Topics that are no UTF-8, or hold U+0000.
    (&[0x31, 7, 0, 3, 0xED, 0xA0, 0x80, 0, 0x78], 10),
    (&[0x31, 5, 0, 1, 0, 0, 0x78], 10),
    // A property twice, one of no value, one of another packet, one that runs past the properties.
    (&[0x31, 8, 0, 1, 0x61, 4, 1, 1, 1, 1], 11),
    (&[0x31, 6, 0, 1, 0x61, 2, 1, 2], 11),
    (&[0x31, 6, 0, 1, 0x61, 2, 0x11, 0], 10),
    (&[0x31, 6, 0, 1, 0x61, 2, 2, 0], 10),
    // A Subscription Identifier in a PUBLISH.
    (&[0x31, 7, 0, 1, 0x61, 2, 0x0B, 1, 0x78], 11),
    // A packet identifier of 0 before an unknown property.
    (&[0x33, 7, 0, 1, 0x61, 0, 0, 1, 0x7F], 11),
    // MQTT 3.1.1; a byte left over.
    (&[0x10, 7, 0, 4, 0x4D, 0x51, 0x54, 0x54, 4], 13),
    (&[0xC0, 1, 0], 10),
];

fn is_judged(rt: &HostRuntime, bytes: &'static [u8], wanted: u8) -> bool {
    match answer_to(rt, &Bytes::from_static(bytes)) {
        Answer::Whole(_, size) => wanted == 0 && size == bytes.len(),
        Answer::More => false,
        Answer::Fault(code) => code == wanted,
    }
}

#[test]
fn the_first_fault_of_a_packet_is_answered(rt: HostRuntime) {
    for (bytes, wanted) in JUDGED {
        assert!(rt; is_judged(&rt, bytes, *wanted));
    }
}

fn is_more(rt: &HostRuntime, front: &[u8]) -> bool {
    match Bytes::copy_from_slice(rt.alloc(), front) {
        Ok(front) => matches!(answer_to(rt, &front), Answer::More),
        Err(_) => false,
    }
}

// Whether more is wanted of each proper front.
fn waits(rt: &HostRuntime, bytes: &[u8]) -> bool {
    let mut all = true;
    for held in 0..bytes.len() {
        all = all && is_more(rt, &bytes[..held]) && needed_len(&bytes[..held]) > held;
    }
    all
}

// The packets of the worked examples that are not in `READ`.
const WORKED: &[&[u8]] = &[
    PUBLISH,
    &[0x31, 6, 0, 3, 0x61, 0x2F, 0x62, 0],
    &[0x30, 7, 0, 3, 0x61, 0x2F, 0x62, 0, 0x79],
    &[
        0x82, 0x24, 0, 7, 0, 0, 2, 0x61, 0x23, 0, 0, 5, 0x61, 0x2F, 0x23, 0x2F, 0x62, 0, 0, 4,
        0x61, 0x2B, 0x2F, 0x62, 0, 0, 0x0A, 0x24, 0x73, 0x68, 0x61, 0x72, 0x65, 0x2F, 0x67, 0x2F,
        0x61, 0,
    ],
    &[
        0x31, 0x0C, 0, 3, 0x61, 0x2F, 0x62, 5, 2, 0, 0, 0, 0x0A, 0x78,
    ],
    &[0x82, 9, 0, 1, 0, 0, 3, 0x61, 0x2F, 0x23, 0x10],
    &[0x82, 9, 0, 4, 0, 0, 3, 0x61, 0x2F, 0x23, 0x20],
    &[
        0x10, 0x11, 0, 4, 0x4D, 0x51, 0x54, 0x54, 5, 2, 0, 0x3C, 3, 0x21, 0, 1, 0, 1, 0x61,
    ],
    &[
        0x10, 0x13, 0, 4, 0x4D, 0x51, 0x54, 0x54, 5, 2, 0, 0x3C, 5, 0x27, 0, 0, 0, 0x14, 0, 1, 0x61,
    ],
    &[
        0x10, 0x13, 0, 4, 0x4D, 0x51, 0x54, 0x54, 5, 2, 0, 0x3C, 5, 0x11, 0, 0, 0, 0x3C, 0, 1, 0x61,
    ],
    &[
        0x10, 0x0D, 0, 4, 0x4D, 0x51, 0x54, 0x54, 5, 2, 0, 0x3C, 0, 0, 0,
    ],
    &[
        0x10, 0x15, 0, 4, 0x4D, 0x51, 0x54, 0x54, 5, 6, 0, 0x3C, 0, 0, 1, 0x61, 0, 0, 1, 0x77, 0,
        1, 0x78,
    ],
    &[0x82, 7, 0, 1, 0, 0, 1, 0x23, 2],
    &[0x82, 0x0B, 0, 2, 0, 0, 1, 0x61, 1, 0, 1, 0x61, 1],
    &[
        0x82, 0x0F, 0, 1, 0, 0, 3, 0x61, 0x2F, 0x23, 0, 0, 3, 0x61, 0x2F, 0x62, 0,
    ],
    &[0x33, 7, 0, 1, 0x61, 0, 1, 0, 0x31],
    &[0x33, 6, 0, 1, 0x64, 0, 5, 0],
    &[0x35, 7, 0, 1, 0x61, 0, 5, 0, 0x31],
    &[0x3D, 7, 0, 1, 0x61, 0, 5, 0, 0x31],
    &[
        0x31, 0x10, 0, 1, 0x61, 0x0B, 0x26, 0, 1, 0x61, 0, 1, 0x31, 3, 0, 1, 0x74, 0x78,
    ],
    &[0x40, 2, 0, 1],
    &[0x50, 2, 0, 1],
    &[0x50, 3, 0, 1, 0x97],
    &[0x62, 2, 0, 5],
    &[0x70, 2, 0, 1],
    &[0xC0, 0],
    &[0xE0, 0],
];

// Whether the bytes are a packet, of which each proper front waits for more.
fn is_waited_for(rt: &HostRuntime, bytes: &'static [u8]) -> bool {
    is_judged(rt, bytes, 0) && needed_len(bytes) == bytes.len() && waits(rt, bytes)
}

#[test]
fn each_front_of_a_packet_waits_for_more(rt: HostRuntime) {
    for (bytes, _) in READ {
        assert!(rt; is_waited_for(&rt, bytes));
    }
    for bytes in WORKED {
        assert!(rt; is_waited_for(&rt, bytes));
    }
}

// A body is judged when it is all there; a first byte and a length at once.
#[test]
fn each_front_of_a_faulty_packet_waits_for_more(rt: HostRuntime) {
    for (bytes, _) in JUDGED {
        assert!(rt; waits(&rt, bytes));
    }
}

#[test]
fn the_first_bytes_tell_the_size_of_a_packet(rt: HostRuntime) {
    assert!(rt; needed_len(&[0x31, 7]) == 9);
    assert!(rt; needed_len(&[0x31, 7, 0, 3, 0x61, 0x2F, 0x62, 0, 0x78, 0xC0]) == 9);
    assert!(rt; needed_len(&[0x31, 0xFC, 0xFF, 0x0F]) == 262_144);
    assert!(rt; needed_len(&[0x31, 0xFD, 0xFF, 0x0F]) <= 4);
    assert!(rt; needed_len(&[0x90, 7, 0]) <= 3);
    assert!(rt; needed_len(&[0xC0, 0x80, 0, 1]) <= 4);
}

#[test]
fn subscription_identifiers_are_1_to_268_435_455(rt: HostRuntime) {
    assert!(rt; number_of(SubscriptionId::new(0)) == 0);
    assert!(rt; number_of(SubscriptionId::new(1)) == 1);
    assert!(rt; number_of(SubscriptionId::new(268_435_455)) == 268_435_455);
    assert!(rt; number_of(SubscriptionId::new(268_435_456)) == 0);
}
