//! The properties that a client may send (2.2.2.2), and the packets that may have them.

ghost use Rattle.std.specs.Prelude.{◌≡◌, ◌<◌, OnOk};
ghost use Rattle.rs_packet_property.specs.declared.property.TheConstants.{IDENTIFIERS};

use crate::subscription::SubscriptionId;
use bytes::Bytes;
use rs_topic::Text;
use std::alloc::{AllocError, Global};
use std::marker::Model;

/// How many numbers an identifier may have: they are less than this (2.2.2.2).
pub const IDENTIFIERS: usize = 40;

// The numbers of the properties that a client may send, and of a Server Reference (2.2.2.2).
pub const PAYLOAD_FORMAT_INDICATOR: u8 = 0x01;

pub const MESSAGE_EXPIRY_INTERVAL: u8 = 0x02;

pub const CONTENT_TYPE: u8 = 0x03;

pub const RESPONSE_TOPIC: u8 = 0x08;

pub const CORRELATION_DATA: u8 = 0x09;

pub const SUBSCRIPTION_IDENTIFIER: u8 = 0x0B;

const SESSION_EXPIRY_INTERVAL: u8 = 0x11;

const AUTHENTICATION_METHOD: u8 = 0x15;

const AUTHENTICATION_DATA: u8 = 0x16;

const REQUEST_PROBLEM_INFORMATION: u8 = 0x17;

const REQUEST_RESPONSE_INFORMATION: u8 = 0x19;

const SERVER_REFERENCE: u8 = 0x1C;

const REASON_STRING: u8 = 0x1F;

const RECEIVE_MAXIMUM: u8 = 0x21;

const TOPIC_ALIAS_MAXIMUM: u8 = 0x22;

const TOPIC_ALIAS: u8 = 0x23;

pub const USER_PROPERTY: u8 = 0x26;

const MAXIMUM_PACKET_SIZE: u8 = 0x27;

/// Which property it is (2.2.2.2).
#[derive(Clone, Copy, Debug)]
pub enum Identifier {
    PayloadFormatIndicator,
    MessageExpiryInterval,
    ContentType,
    ResponseTopic,
    CorrelationData,
    SubscriptionIdentifier,
    SessionExpiryInterval,
    AuthenticationMethod,
    AuthenticationData,
    RequestProblemInformation,
    RequestResponseInformation,
    ServerReference,
    ReasonString,
    ReceiveMaximum,
    TopicAliasMaximum,
    TopicAlias,
    UserProperty,
    MaximumPacketSize,
}

/// A property that a client may send, with its value.
#[derive(Drop)]
pub enum Property {
    PayloadFormatIndicator(u8),
    MessageExpiryInterval(u32),
    ContentType(Text),
    ResponseTopic(Text),
    CorrelationData(Bytes),
    SubscriptionIdentifier(SubscriptionId),
    SessionExpiryInterval(u32),
    AuthenticationMethod(Text),
    AuthenticationData(Bytes),
    RequestProblemInformation(u8),
    RequestResponseInformation(u8),
    ReasonString(Text),
    ReceiveMaximum(u16),
    TopicAliasMaximum(u16),
    TopicAlias(u16),
    UserProperty(Text, Text),
    MaximumPacketSize(u32),
}

/// The packet that properties belong to.
#[derive(Clone, Copy, Debug)]
pub enum PropertyOwner {
    /// A CONNECT (3.1.2.11).
    Connect,
    /// A PUBLISH (3.3.2.3).
    Publish,
    /// A PUBACK, PUBREC, PUBREL or PUBCOMP (3.4.2.2, 3.5.2.2, 3.6.2.2, 3.7.2.2).
    Acknowledgement,
    /// A SUBSCRIBE (3.8.2.1).
    Subscribe,
    /// An UNSUBSCRIBE (3.10.2.1).
    Unsubscribe,
    /// A DISCONNECT (3.14.2.2).
    Disconnect,
}

/// The property values of one packet; None if absent. What [`read_properties`](crate::read_properties) gives is in the
/// ranges below.
#[derive(Debug, Drop)]
pub struct PropertyValues {
    /// The Payload Format Indicator, 0 or 1 (3.3.2.3.2).
    pub format: Option<u8>,
    /// The Message Expiry Interval, in seconds (3.3.2.3.3).
    pub expiry: Option<u32>,
    /// The Content Type (3.3.2.3.9).
    pub content_type: Option<Text>,
    /// The Response Topic, without `+` and `#` (3.3.2.3.5).
    pub response_topic: Option<Text>,
    /// The Correlation Data, at most 65,535 bytes (3.3.2.3.6).
    pub correlation: Option<Bytes>,
    /// The Subscription Identifier of a SUBSCRIBE (3.8.2.1.2).
    pub subscription: Option<SubscriptionId>,
    /// The Session Expiry Interval, in seconds (3.1.2.11.2, 3.14.2.2.2).
    pub session_expiry: Option<u32>,
    /// The Authentication Method (3.1.2.11.9).
    pub method: Option<Text>,
    /// Whether there is Authentication Data (3.1.2.11.10). The data is not kept.
    pub authentication: bool,
    /// The client's Receive Maximum, at least 1 (3.1.2.11.3).
    pub receive_maximum: Option<u16>,
    /// The Topic Alias (3.3.2.3.4). It may be 0.
    pub alias: Option<u16>,
    /// The User Properties, each a name and a value, in the order of the packet (3.1.2.11.8, 3.3.2.3.7).
    pub user: Vec<(Text, Text)>,
    /// The client's Maximum Packet Size, in bytes, at least 1 (3.1.2.11.4).
    pub packet_maximum: Option<u32>,
}

impl Model for PropertyValues {
    ghost use Rattle.rs_packet_property.specs.Values.{PacketProperties};

    ghost Value = { PacketProperties };

    ghost view = { λ f. record {
      format = f.format;
      expiry = f.expiry;
      content_type = f.content_type;
      response_topic = f.response_topic;
      correlation = f.correlation;
      subscription = f.subscription;
      session_expiry = f.session_expiry;
      method = f.method;
      authentication = f.authentication;
      receive_maximum = f.receive_maximum;
      alias = f.alias;
      user = f.user.items;
      packet_maximum = f.packet_maximum;
    } };
}

impl Identifier {
    ghost use Rattle.rs_packet_property.specs.Properties.{number, may_stand, may_repeat};
    ghost use Rattle.rs_packet_property.specs.Properties.{identifier_of};

    /// The identifier with this number (2.2.2.2).
    #[tactic(auto, unfolding(crate::specs::Properties::identifier_of), using(crate::proofs::Identifiers::none_above))]
    pub fn from_number(number: u32) -> Option<Identifier>
        ensures { result ≡ identifier_of number }
    {
        let Ok(number) = u8::try_from(number) else {
            return None;
        };
        match number {
            PAYLOAD_FORMAT_INDICATOR => Some(Identifier::PayloadFormatIndicator),
            MESSAGE_EXPIRY_INTERVAL => Some(Identifier::MessageExpiryInterval),
            CONTENT_TYPE => Some(Identifier::ContentType),
            RESPONSE_TOPIC => Some(Identifier::ResponseTopic),
            CORRELATION_DATA => Some(Identifier::CorrelationData),
            SUBSCRIPTION_IDENTIFIER => Some(Identifier::SubscriptionIdentifier),
            SESSION_EXPIRY_INTERVAL => Some(Identifier::SessionExpiryInterval),
            AUTHENTICATION_METHOD => Some(Identifier::AuthenticationMethod),
            AUTHENTICATION_DATA => Some(Identifier::AuthenticationData),
            REQUEST_PROBLEM_INFORMATION => Some(Identifier::RequestProblemInformation),
            REQUEST_RESPONSE_INFORMATION => Some(Identifier::RequestResponseInformation),
            SERVER_REFERENCE => Some(Identifier::ServerReference),
            REASON_STRING => Some(Identifier::ReasonString),
            RECEIVE_MAXIMUM => Some(Identifier::ReceiveMaximum),
            TOPIC_ALIAS_MAXIMUM => Some(Identifier::TopicAliasMaximum),
            TOPIC_ALIAS => Some(Identifier::TopicAlias),
            USER_PROPERTY => Some(Identifier::UserProperty),
            MAXIMUM_PACKET_SIZE => Some(Identifier::MaximumPacketSize),
            _ => None,
        }
    }

    /// The number of this identifier (2.2.2.2).
    pub fn number(self) -> u8
        ensures value { result ≡ number self }
        ensures small { result < IDENTIFIERS }
    {
        match self {
            Identifier::PayloadFormatIndicator => PAYLOAD_FORMAT_INDICATOR,
            Identifier::MessageExpiryInterval => MESSAGE_EXPIRY_INTERVAL,
            Identifier::ContentType => CONTENT_TYPE,
            Identifier::ResponseTopic => RESPONSE_TOPIC,
            Identifier::CorrelationData => CORRELATION_DATA,
            Identifier::SubscriptionIdentifier => SUBSCRIPTION_IDENTIFIER,
            Identifier::SessionExpiryInterval => SESSION_EXPIRY_INTERVAL,
            Identifier::AuthenticationMethod => AUTHENTICATION_METHOD,
            Identifier::AuthenticationData => AUTHENTICATION_DATA,
            Identifier::RequestProblemInformation => REQUEST_PROBLEM_INFORMATION,
            Identifier::RequestResponseInformation => REQUEST_RESPONSE_INFORMATION,
            Identifier::ServerReference => SERVER_REFERENCE,
            Identifier::ReasonString => REASON_STRING,
            Identifier::ReceiveMaximum => RECEIVE_MAXIMUM,
            Identifier::TopicAliasMaximum => TOPIC_ALIAS_MAXIMUM,
            Identifier::TopicAlias => TOPIC_ALIAS,
            Identifier::UserProperty => USER_PROPERTY,
            Identifier::MaximumPacketSize => MAXIMUM_PACKET_SIZE,
        }
    }

    /// Whether a packet may have it more than once: only a user property.
    pub fn may_repeat(self) -> bool
        ensures { result ≡ may_repeat self }
    {
        matches!(self, Identifier::UserProperty)
    }

    /// Whether a client may send it in this packet.
    pub fn may_stand(self, owner: PropertyOwner) -> bool
        ensures { result ≡ may_stand owner self }
    {
        match owner {
            PropertyOwner::Connect => matches!(
                self,
                Identifier::SessionExpiryInterval
                    | Identifier::AuthenticationMethod
                    | Identifier::AuthenticationData
                    | Identifier::RequestProblemInformation
                    | Identifier::RequestResponseInformation
                    | Identifier::ReceiveMaximum
                    | Identifier::TopicAliasMaximum
                    | Identifier::MaximumPacketSize
                    | Identifier::UserProperty
            ),
            PropertyOwner::Publish => matches!(
                self,
                Identifier::PayloadFormatIndicator
                    | Identifier::MessageExpiryInterval
                    | Identifier::ContentType
                    | Identifier::ResponseTopic
                    | Identifier::CorrelationData
                    | Identifier::TopicAlias
                    | Identifier::UserProperty
            ),
            PropertyOwner::Acknowledgement => matches!(
                self,
                Identifier::ReasonString | Identifier::UserProperty
            ),
            PropertyOwner::Subscribe => matches!(
                self,
                Identifier::SubscriptionIdentifier | Identifier::UserProperty
            ),
            PropertyOwner::Unsubscribe => matches!(self, Identifier::UserProperty),
            PropertyOwner::Disconnect => matches!(
                self,
                Identifier::SessionExpiryInterval
                    | Identifier::ReasonString
                    | Identifier::UserProperty
            ),
        }
    }
}

impl Property {
    ghost use Rattle.rs_packet_property.specs.Properties.{identifier};

    /// Which property it is.
    pub fn identifier(&self) -> Identifier
        ensures { result ≡ identifier self.now }
    {
        match self {
            Property::PayloadFormatIndicator(_) => Identifier::PayloadFormatIndicator,
            Property::MessageExpiryInterval(_) => Identifier::MessageExpiryInterval,
            Property::ContentType(_) => Identifier::ContentType,
            Property::ResponseTopic(_) => Identifier::ResponseTopic,
            Property::CorrelationData(_) => Identifier::CorrelationData,
            Property::SubscriptionIdentifier(_) => Identifier::SubscriptionIdentifier,
            Property::SessionExpiryInterval(_) => Identifier::SessionExpiryInterval,
            Property::AuthenticationMethod(_) => Identifier::AuthenticationMethod,
            Property::AuthenticationData(_) => Identifier::AuthenticationData,
            Property::RequestProblemInformation(_) => Identifier::RequestProblemInformation,
            Property::RequestResponseInformation(_) => Identifier::RequestResponseInformation,
            Property::ReasonString(_) => Identifier::ReasonString,
            Property::ReceiveMaximum(_) => Identifier::ReceiveMaximum,
            Property::TopicAliasMaximum(_) => Identifier::TopicAliasMaximum,
            Property::TopicAlias(_) => Identifier::TopicAlias,
            Property::MaximumPacketSize(_) => Identifier::MaximumPacketSize,
            Property::UserProperty(_, _) => Identifier::UserProperty,
        }
    }
}

impl PropertyValues {
    ghost use Rattle.rs_packet_property.specs.Properties.{put, nothing};

    /// Creates the values of a packet without properties.
    pub fn new(alloc: Global) -> PropertyValues
        ensures { result ≡ nothing }
    {
        PropertyValues {
            format: None,
            expiry: None,
            content_type: None,
            response_topic: None,
            correlation: None,
            subscription: None,
            session_expiry: None,
            method: None,
            authentication: false,
            receive_maximum: None,
            alias: None,
            user: Vec::new(alloc),
            packet_maximum: None,
        }
    }

    /// Adds the value of a property.
    ///
    /// # Errors
    ///
    /// There is no memory for one more User Property. No other property needs memory.
    pub fn put(&mut self, property: Property) -> Result<(), AllocError>
        ensures { OnOk result (self.new ≡ put self.old property) }
    {
        match property {
            Property::PayloadFormatIndicator(n) => self.format = Some(n),
            Property::MessageExpiryInterval(n) => self.expiry = Some(n),
            Property::ContentType(t) => self.content_type = Some(t),
            Property::ResponseTopic(t) => self.response_topic = Some(t),
            Property::CorrelationData(b) => self.correlation = Some(b),
            Property::SubscriptionIdentifier(n) => self.subscription = Some(n),
            Property::SessionExpiryInterval(n) => self.session_expiry = Some(n),
            Property::AuthenticationMethod(t) => self.method = Some(t),
            Property::AuthenticationData(_b) => self.authentication = true,
            Property::ReceiveMaximum(n) => self.receive_maximum = Some(n),
            Property::TopicAlias(n) => self.alias = Some(n),
            Property::UserProperty(k, v) => self.user.push((k, v))?,
            Property::MaximumPacketSize(n) => self.packet_maximum = Some(n),
            Property::RequestProblemInformation(_n) => {}
            Property::RequestResponseInformation(_n) => {}
            Property::ReasonString(_t) => {}
            Property::TopicAliasMaximum(_n) => {}
        }
        Ok(())
    }
}
