//! What the server sends.

ghost use Rattle.std.specs.Prelude.{◌≡◌, IfSome};
ghost use Rattle.rs_packet_property.specs.Forms.{IsSubscriptionId};

use crate::packet::PacketId;
use rs_message::{Found, MAX_PACKET_SIZE, Qos};
use rs_packet_property::SubscriptionId;
use rs_topic::Text;
use std::marker::Model;

/// A CONNACK that accepts (3.2). Session Present is 0, since no session outlives its connection.
#[derive(Debug, Drop)]
pub struct ConnackAccepted {
    /// The client asked for a Session Expiry Interval that is not 0, and is told 0 (3.2.2.3.2).
    pub session_expiry_zero: bool,
    /// The identifier for a client that sent an empty one (3.2.2.3.7).
    pub assigned_client: Option<Text>,
}

/// A PUBLISH (3.3) with a retained message for a subscriber. It has an identifier if QoS is 1 or 2, and
/// its Remaining Length (2.1.4) is at most `MAX_REMAINING_LENGTH`.
#[derive(Debug, Drop)]
pub struct PublishReply {
    /// The topic (3.3.2.1) and its message: its payload (3.3.3), of any bytes, and the properties that it carries (3.3.2.3), sent in
    /// rising order of identifier.
    pub found: Found,
    /// The QoS with which it is sent (3.3.1.2).
    pub qos: Qos,
    /// The packet identifier, if QoS is 1 or 2 (3.3.2.2).
    pub id: Option<PacketId>,
    /// The Subscription Identifier of the subscription that it answers (3.3.2.3.8), if that has one.
    pub subscription: Option<SubscriptionId>,
    /// The seconds left (3.3.2.3.3); None if the message does not expire.
    pub expiry: Option<u32>,
}

impl Model for PublishReply {
    ghost use Rattle.rs_packet.specs.Values.{PublishReplyValue};

    ghost Value = { PublishReplyValue };

    ghost use Rattle.rs_packet.specs.Bounds.{IsPublishReply};

    ghost view = { λ p. record {
      topic = p.found.topic;
      qos = p.qos;
      id = p.id;
      subscription = p.subscription;
      expiry = p.expiry;
      properties = p.found.message.properties;
      payload = p.found.message.payload;
    } };

    ghost invariant = { λ p. IsPublishReply (record {
      topic = p.found.topic;
      qos = p.qos;
      id = p.id;
      subscription = p.subscription;
      expiry = p.expiry;
      properties = p.found.message.properties;
      payload = p.found.message.payload;
    }) };
}

impl PublishReply {
    ghost use Rattle.std.specs.Prelude.{◌≡◌, ◌≤◌};
    ghost use Rattle.rs_packet.specs.Values.{PublishReplyValue};
    ghost use Rattle.rs_packet.specs.Grammar.{IdFits};
    ghost use Rattle.rs_message.specs.Sizes.{message_size};

    /// A PUBLISH (3.3) with an identifier if QoS is 1 or 2. Payload and properties, without the Subscription
    /// Identifier, take at most `MAX_PACKET_SIZE` bytes.
    pub fn new(
        found: Found,
        qos: Qos,
        id: Option<PacketId>,
        expiry: Option<u32>,
        subscription: Option<SubscriptionId>,
    ) -> PublishReply
        requires id_fits { IdFits qos id }
        requires message_fits { message_size expiry found.message.properties found.message.payload ≤ MAX_PACKET_SIZE }
        ensures { result ≡ record {
          topic = found.topic;
          qos = qos;
          id = id;
          subscription = subscription;
          expiry = expiry;
          properties = found.message.properties;
          payload = found.message.payload;
        } }
    {
        let subscription = in_range(subscription);
        // For the proof: this call says that the topic is short.
        let _topic = found.topic().as_bytes();
        PublishReply {
            found,
            qos,
            id,
            subscription,
            expiry,
        }
    }
}

/// Gives back the identifier: its contract says that it is in its range, which the type of a publication keeps.
fn in_range(subscription: Option<SubscriptionId>) -> Option<SubscriptionId>
    ensures same { result ≡ subscription }
    ensures fits { IfSome result IsSubscriptionId }
{
    match subscription {
        Some(id) => {
            // For the proof: this call says that the number is in its range.
            let _number = id.get();
            Some(id)
        }
        None => None,
    }
}

/// A SUBACK (3.9) or an UNSUBACK (3.11): one reason code for each filter, in order.
#[derive(Debug, Drop)]
pub struct Codes {
    /// The packet identifier of the SUBSCRIBE or UNSUBSCRIBE that is answered (2.2.1).
    pub id: PacketId,
    /// The reason codes (3.9.3, 3.11.3), in the order of the filters that they answer.
    pub codes: Vec<u8>,
}

impl Model for Codes {
    ghost use Rattle.rs_packet.specs.Values.{CodesValue};

    ghost Value = { CodesValue };

    ghost use Rattle.rs_packet.specs.Bounds.{AreCodes};

    ghost view = { λ c. record { id = c.id; codes = c.codes.items } };

    ghost invariant = { λ c. AreCodes (record { id = c.id; codes = c.codes.items }) };
}

impl Codes {
    ghost use Rattle.std.specs.Prelude.{◌≡◌, ◌≤◌, length};
    ghost use Rattle.rs_packet.specs.Values.{CodesValue};

    /// A SUBACK (3.9) or an UNSUBACK (3.11) with at most `MAX_PACKET_SIZE` codes.
    pub fn new(id: PacketId, codes: Vec<u8>) -> Codes
        requires { length codes.items ≤ MAX_PACKET_SIZE }
        ensures { result ≡ record { id = id; codes = codes.items } }
    {
        Codes { id, codes }
    }
}

/// What the server sends. Each reply has one encoding.
#[derive(Debug, Drop)]
pub enum Reply {
    /// A CONNACK with the reason code 0x00 (3.2).
    ConnackAccepted(ConnackAccepted),
    /// A CONNACK with this reason code and no properties (3.2.2.2). The caller gives a code of 0x80 or
    /// more.
    ConnackRefused(u8),
    /// A PUBLISH with RETAIN set (3.3).
    Publish(PublishReply),
    /// A PUBACK with its reason code (3.4).
    Puback(PacketId, u8),
    /// A PUBREC with its reason code (3.5).
    Pubrec(PacketId, u8),
    /// A PUBREL with its reason code (3.6).
    Pubrel(PacketId, u8),
    /// A PUBCOMP with its reason code (3.7).
    Pubcomp(PacketId, u8),
    /// A SUBACK (3.9).
    Suback(Codes),
    /// An UNSUBACK (3.11).
    Unsuback(Codes),
    /// A PINGRESP (3.13).
    Pingresp,
    /// A DISCONNECT with its reason code (3.14).
    Disconnect(u8),
}
