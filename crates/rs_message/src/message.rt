//! Retained messages.

ghost use Rattle.std.specs.Prelude.{◌≡◌, ◌≢◌, ◌≤◌, [], Some, IfOk};
ghost use Rattle.rs_message.specs.declared.limits.TheConstants.{MAX_PACKET_SIZE};
ghost use Rattle.rs_message.specs.Sizes.{message_size};
ghost use Rattle.rs_message.specs.Messages.{left_of, remaining_of, IsMessage};

use crate::qos::Qos;
use bytes::Bytes;
use rs_packet_property::Properties;
use std::alloc::AllocError;
use std::marker::Model;

/// A retained message. Its payload is not empty, and payload and properties together take at most `MAX_PACKET_SIZE` bytes.
#[derive(Debug, Drop)]
pub struct Message {
    payload: Bytes,
    qos: Qos,
    // An `Option` of the interval takes eight bytes more.
    expires: bool,
    interval: u32,
    received: u64,
    properties: Properties,
}

impl Model for Message {
    ghost use Rattle.std.specs.Prelude.{◌≢◌, ◌≤◌, [], length};
    ghost use Rattle.rs_message.specs.Values.{MessageValue};

    ghost Value = { MessageValue };

    ghost use Rattle.rs_message.specs.Messages.{IsMessage};
    ghost use Rattle.rs_message.specs.Views.{message_view};

    ghost view = { message_view };

    ghost invariant = { λ m. IsMessage (message_view m) };
}

/// The time that a message has left (3.3.2.3.3).
#[derive(Clone, Copy, Debug, PartialEq, Eq)]
pub enum Remaining {
    /// It has no Message Expiry Interval and does not expire.
    Forever,
    /// It expires in this many seconds, at least 1.
    Left(u32),
    /// Its interval has passed.
    Expired,
}

/// What is left of an interval after `waited` seconds.
fn left_of(expiry: u32, waited: u64) -> Remaining
    ensures { result ≡ left_of (Some expiry) waited }
{
    if waited >= u64::from(expiry) {
        return Remaining::Expired;
    }
    Remaining::Left(expiry - waited as u32)
}

impl Message {
    /// A message that came at `received`, in seconds, with a Message Expiry Interval of `expiry` seconds or none (3.3.2.3.3).
    pub fn new(
        payload: Bytes,
        qos: Qos,
        received: u64,
        expiry: Option<u32>,
        properties: Properties,
    ) -> Message
        requires some { payload ≢ [] }
        requires fits { message_size expiry properties payload ≤ MAX_PACKET_SIZE }
        ensures { result ≡ record { payload = payload; qos = qos; received = received; expiry = expiry; properties = properties } }
    {
        Message {
            payload,
            qos,
            expires: expiry.is_some(),
            interval: expiry.unwrap_or(0),
            received,
            properties,
        }
    }

    /// The payload, which is not empty.
    pub fn payload(&self) -> &Bytes
        ensures value { result.now ≡ self.now.payload }
        ensures is_message { IsMessage self.now }
    {
        &self.payload
    }

    /// The QoS that it was published with.
    pub fn qos(&self) -> Qos
        ensures { result ≡ self.now.qos }
    {
        self.qos
    }

    /// When it came, in seconds.
    pub fn received(&self) -> u64
        ensures { result ≡ self.now.received }
    {
        self.received
    }

    /// The Message Expiry Interval that it came with, in seconds (3.3.2.3.3).
    pub fn expiry(&self) -> Option<u32>
        ensures { result ≡ self.now.expiry }
    {
        if self.expires {
            return Some(self.interval);
        }
        None
    }

    /// The properties that it carries (3.3.2.3), without its interval.
    pub fn properties(&self) -> &Properties
        ensures { result.now ≡ self.now.properties }
    {
        &self.properties
    }

    /// The time that it has left at `now`, in seconds (3.3.2.3.3). If `now` is before it came, the whole interval is left.
    pub fn remaining(&self, now: u64) -> Remaining
        ensures { result ≡ remaining_of self.now now }
    {
        match self.expiry() {
            Some(expiry) => left_of(expiry, now.saturating_sub(self.received)),
            None => Remaining::Forever,
        }
    }

    /// An equal message, which shares the payload and the properties: none of their bytes is copied, and it takes no memory. The
    /// error says that the count of their owners is full.
    pub fn copy(&self) -> Result<Message, AllocError>
        ensures { IfOk result (λ m. m ≡ self.now) }
    {
        Ok(Message {
            payload: self.payload.clone()?,
            qos: self.qos,
            expires: self.expires,
            interval: self.interval,
            received: self.received,
            properties: self.properties.copy()?,
        })
    }
}

impl PartialEq for Message {
    ghost use Rattle.std.specs.Cmp.{partial_equiv_from_equiv};
    ghost use Rattle.rs_message.specs.Equality.{message_eq, message_eq_equiv};

    ghost eq = { message_eq };

    ghost laws = { partial_equiv_from_equiv message_eq_equiv };

    fn eq(&self, other: &Message) -> bool {
        self.payload == other.payload
            && self.qos.level() == other.qos.level()
            && self.received == other.received
            && self.expiry() == other.expiry()
            && self.properties == other.properties
    }
}

impl Eq for Message {
    ghost use Rattle.rs_message.specs.Equality.{message_eq_equiv};

    ghost laws = { message_eq_equiv };
}
