//! The packets that a client sends.

use bytes::Bytes;
use rs_message::Qos;
use rs_packet_field::PacketFault;
use rs_packet_property::{Properties, SubscriptionId};
use rs_topic::{Text, TopicFault, TopicFilter, TopicName};
use std::marker::Model;

/// A packet identifier, from 1 to 65,535 (2.2.1).
#[derive(Clone, Copy, Debug)]
pub struct PacketId {
    number: u16,
}

impl Model for PacketId {
    ghost use Rattle.std.specs.Prelude.{ℕ, ◌<◌};

    ghost Value = { ℕ };

    ghost view = { λ p. p.number };

    ghost invariant = { λ p. 0 < p.number };

    ghost inverse = { λ n. record { number = n } };
}

impl PacketId {
    ghost use Rattle.std.specs.Prelude.{◌≡◌, ◌<◌, ◌^◌, ◌==◌, if◌then◌else◌, Some, None};

    /// None if the number is 0.
    pub fn new(number: u16) -> Option<PacketId>
        ensures { result ≡ (if number == 0 then None else Some number) }
    {
        if number == 0 {
            return None;
        }
        Some(PacketId { number })
    }

    /// The number, from 1 to 65,535.
    pub fn get(self) -> u16
        ensures value { result ≡ self }
        ensures some { 0 < result }
        ensures fits { self < 2 ^ 16 }
    {
        self.number
    }
}

/// Whether retained messages are sent at a SUBSCRIBE (3.8.3.1).
#[derive(Clone, Copy, Debug, PartialEq, Eq)]
pub enum RetainHandling {
    /// 0: at each SUBSCRIBE.
    Always,
    /// 1: only if the subscription is new.
    IfNew,
    /// 2: never.
    Never,
}

/// The options of a filter (3.8.3.1).
#[derive(Clone, Copy, Debug)]
pub struct Options {
    /// The Maximum QoS, bits 0 and 1: the highest QoS with which messages are sent.
    pub qos: Qos,
    /// No Local, bit 2: the client gets none of its own messages.
    pub no_local: bool,
    /// Retain As Published, bit 3: messages are forwarded with the RETAIN that they came with.
    pub retain_as_published: bool,
    /// Retain Handling, bits 4 and 5.
    pub retain_handling: RetainHandling,
}

/// What the first byte of a packet says (2.1.2, 2.1.3); a PUBLISH has DUP, QoS and RETAIN in it.
#[derive(Clone, Copy, Debug)]
pub enum PacketKind {
    Connect,
    Publish(bool, Qos, bool),
    Puback,
    Pubrec,
    Pubrel,
    Pubcomp,
    Subscribe,
    Unsubscribe,
    Pingreq,
    Disconnect,
}

impl TryFrom<u8> for PacketKind {
    ghost use Rattle.std.specs.Prelude.{◌≡◌};
    ghost use Rattle.rs_packet.specs.PacketReading.{kind_of};

    type Error = PacketFault;

    ghost try_from_gives = { λ head r. r ≡ kind_of head };

    /// The kind of packet that begins with this byte. Protocol if only a server sends it, Malformed if no packet begins with it.
    #[tactic(auto, unfolding(crate::specs::PacketReading::kind_of))]
    fn try_from(head: u8) -> Result<PacketKind, PacketFault> {
        match head {
            0x10 => Ok(PacketKind::Connect),
            0x30 => Ok(PacketKind::Publish(false, Qos::AtMostOnce, false)),
            0x31 => Ok(PacketKind::Publish(false, Qos::AtMostOnce, true)),
            0x32 => Ok(PacketKind::Publish(false, Qos::AtLeastOnce, false)),
            0x33 => Ok(PacketKind::Publish(false, Qos::AtLeastOnce, true)),
            0x34 => Ok(PacketKind::Publish(false, Qos::ExactlyOnce, false)),
            0x35 => Ok(PacketKind::Publish(false, Qos::ExactlyOnce, true)),
            0x3A => Ok(PacketKind::Publish(true, Qos::AtLeastOnce, false)),
            0x3B => Ok(PacketKind::Publish(true, Qos::AtLeastOnce, true)),
            0x3C => Ok(PacketKind::Publish(true, Qos::ExactlyOnce, false)),
            0x3D => Ok(PacketKind::Publish(true, Qos::ExactlyOnce, true)),
            0x40 => Ok(PacketKind::Puback),
            0x50 => Ok(PacketKind::Pubrec),
            0x62 => Ok(PacketKind::Pubrel),
            0x70 => Ok(PacketKind::Pubcomp),
            0x82 => Ok(PacketKind::Subscribe),
            0xA2 => Ok(PacketKind::Unsubscribe),
            0xC0 => Ok(PacketKind::Pingreq),
            0xE0 => Ok(PacketKind::Disconnect),
            0x20 | 0x90 | 0xB0 | 0xD0 | 0xF0 => Err(PacketFault::Protocol),
            _ => Err(PacketFault::Malformed),
        }
    }
}

/// A PUBLISH (3.3). It has an identifier if QoS is 1 or 2, and the payload and the properties that a message carries,
/// encoded as in a PUBLISH, take at most `MAX_PACKET_SIZE` bytes; callers know both once they take it apart.
#[derive(Debug, Drop)]
pub struct Publish {
    /// DUP: it is sent again (3.3.1.1).
    pub duplicate: bool,
    /// The QoS with which it is sent (3.3.1.2).
    pub qos: Qos,
    /// RETAIN: the message is to be kept for its topic (3.3.1.3).
    pub retain: bool,
    /// The topic name, or why the string is not one (3.3.2.1).
    pub topic: Result<TopicName, TopicFault>,
    /// The packet identifier, if QoS is 1 or 2 (3.3.2.2).
    pub id: Option<PacketId>,
    /// The Message Expiry Interval, in seconds (3.3.2.3.3); None if the message does not expire.
    pub expiry: Option<u32>,
    /// The Topic Alias (3.3.2.3.4) as sent, 0 too, which the standard forbids.
    pub alias: Option<u16>,
    /// What a message carries beside its interval (3.3.2.3).
    pub properties: Properties,
    /// The payload (3.3.3), of any bytes.
    pub payload: Bytes,
}

impl Model for Publish {
    ghost use Rattle.rs_packet.specs.Values.{PublishValue};

    ghost Value = { PublishValue };

    ghost use Rattle.rs_packet.specs.Bounds.{IsPublish};

    ghost view = { λ p. record {
      duplicate = p.duplicate;
      qos = p.qos;
      retain = p.retain;
      topic = p.topic;
      id = p.id;
      expiry = p.expiry;
      alias = p.alias;
      properties = p.properties;
      payload = p.payload;
    } };

    ghost invariant = { λ p. IsPublish (record {
      duplicate = p.duplicate;
      qos = p.qos;
      retain = p.retain;
      topic = p.topic;
      id = p.id;
      expiry = p.expiry;
      alias = p.alias;
      properties = p.properties;
      payload = p.payload;
    }) };
}

/// A PUBACK, PUBREC, PUBREL or PUBCOMP (3.4 to 3.7); an absent code is 0.
#[derive(Clone, Copy, Debug)]
pub struct Acknowledgement {
    /// The packet identifier of the PUBLISH that is acknowledged (2.2.1).
    pub id: PacketId,
    /// The reason code as sent (3.4.2.1, 3.5.2.1, 3.6.2.1, 3.7.2.1), from 0 to 255.
    pub code: u8,
}

/// A SUBSCRIBE (3.8) with 1 to `MAX_PACKET_SIZE` filters, in order.
#[derive(Debug, Drop)]
pub struct Subscribe {
    /// The packet identifier (3.8.2), which the SUBACK repeats.
    pub id: PacketId,
    /// The Subscription Identifier (3.8.2.1.2), of all the filters.
    pub subscription: Option<SubscriptionId>,
    /// Each filter, or why the string is not one, and its options (3.8.3).
    pub filters: Vec<(Result<TopicFilter, TopicFault>, Options)>,
}

impl Model for Subscribe {
    ghost use Rattle.rs_packet.specs.Values.{SubscribeValue};

    ghost Value = { SubscribeValue };

    ghost use Rattle.rs_packet.specs.Bounds.{IsSubscribe};

    ghost view = { λ s. record { id = s.id; subscription = s.subscription; filters = s.filters.items } };

    ghost invariant = { λ s. IsSubscribe (record { id = s.id; subscription = s.subscription; filters = s.filters.items }) };
}

/// An UNSUBSCRIBE (3.10) with 1 to `MAX_PACKET_SIZE` filters, in order.
#[derive(Debug, Drop)]
pub struct Unsubscribe {
    /// The packet identifier (3.10.2), which the UNSUBACK repeats.
    pub id: PacketId,
    /// Each filter, or why the string is not one (3.10.3).
    pub filters: Vec<Result<TopicFilter, TopicFault>>,
}

impl Model for Unsubscribe {
    ghost use Rattle.rs_packet.specs.Values.{UnsubscribeValue};

    ghost Value = { UnsubscribeValue };

    ghost use Rattle.rs_packet.specs.Bounds.{IsUnsubscribe};

    ghost view = { λ u. record { id = u.id; filters = u.filters.items } };

    ghost invariant = { λ u. IsUnsubscribe (record { id = u.id; filters = u.filters.items }) };
}

/// The flags of a CONNECT (3.1.2.3).
#[derive(Clone, Copy, Debug)]
pub struct ConnectFlags {
    pub user_name: bool,
    pub password: bool,
    pub will_retain: bool,
    pub will_qos: Qos,
    pub will: bool,
    pub clean_start: bool,
}

/// A CONNECT (3.1), the first packet of a client. Neither maximum is 0.
#[derive(Debug, Drop)]
pub struct Connect {
    /// Clean Start: no earlier session is continued (3.1.2.4).
    pub clean_start: bool,
    /// The Will Flag: the payload begins a will (3.1.2.5), of which nothing is read.
    pub will: bool,
    /// The Keep Alive, in seconds (3.1.2.10); 0 turns it off.
    pub keep_alive: u16,
    /// The Session Expiry Interval, in seconds (3.1.2.11.2).
    pub session_expiry: Option<u32>,
    /// The Authentication Method (3.1.2.11.9).
    pub method: Option<Text>,
    /// The Receive Maximum, in packets (3.1.2.11.3): 1 to 65,535.
    pub receive_maximum: Option<u16>,
    /// The Maximum Packet Size, in bytes (3.1.2.11.4): 1 or more.
    pub packet_maximum: Option<u32>,
    /// The client identifier (3.1.3.1); None if the Will Flag is set: then nothing after the properties is read.
    pub client: Option<Text>,
}

impl Model for Connect {
    ghost use Rattle.rs_packet.specs.Values.{ConnectValue};

    ghost Value = { ConnectValue };

    ghost use Rattle.rs_packet.specs.Bounds.{IsConnect};

    ghost view = { λ c. record {
      clean_start = c.clean_start;
      will = c.will;
      keep_alive = c.keep_alive;
      session_expiry = c.session_expiry;
      method = c.method;
      receive_maximum = c.receive_maximum;
      packet_maximum = c.packet_maximum;
      client = c.client;
    } };

    ghost invariant = { λ c. IsConnect (record {
      clean_start = c.clean_start;
      will = c.will;
      keep_alive = c.keep_alive;
      session_expiry = c.session_expiry;
      method = c.method;
      receive_maximum = c.receive_maximum;
      packet_maximum = c.packet_maximum;
      client = c.client;
    }) };
}

/// What a client sends (2.1.2).
#[derive(Debug, Drop)]
pub enum Packet {
    /// A CONNECT (3.1).
    Connect(Connect),
    /// A PUBLISH (3.3).
    Publish(Publish),
    /// A PUBACK (3.4).
    Puback(Acknowledgement),
    /// A PUBREC (3.5).
    Pubrec(Acknowledgement),
    /// A PUBREL (3.6).
    Pubrel(Acknowledgement),
    /// A PUBCOMP (3.7).
    Pubcomp(Acknowledgement),
    /// A SUBSCRIBE (3.8).
    Subscribe(Subscribe),
    /// An UNSUBSCRIBE (3.10).
    Unsubscribe(Unsubscribe),
    /// A PINGREQ (3.12).
    Pingreq,
    /// A DISCONNECT with its reason code (3.14.2.1), 0 if it is absent.
    Disconnect(u8),
}

/// What `decode` finds in some bytes.
#[derive(Debug, Drop)]
pub enum Decoded {
    /// A packet, and how many bytes it takes.
    Whole(Packet, usize),
    /// Less than a packet.
    More,
}
