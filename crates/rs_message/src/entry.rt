//! The entries of the store's history.

ghost use Rattle.std.specs.Prelude.{◌≡◌, ◌≢◌, ◌+◌, ◌<◌, ◌≤◌, ◌&&◌, nat_lt, nat_le, if◌then◌else◌, [], true, Some, None, IfOk, IfErr, length};
ghost use Rattle.rs_message.specs.declared.entry.TheConstants.{MAX_LINES, MAX_PLACES};
ghost use Rattle.rs_message.specs.declared.limits.TheConstants.{MAX_PACKET_SIZE};
ghost use Rattle.rs_message.specs.Sizes.{message_size};
ghost use Rattle.rs_message.specs.Messages.{is_sweep, operation_of};

use crate::found::Found;
use crate::message::Message;
use crate::qos::Qos;
use bytes::Bytes;
use rs_packet_property::Properties;
use rs_topic::TopicName;
use std::alloc::{AllocError, Global};
use std::marker::Model;

/// The most places that a server may have (this server's choice): so many seats read a store, and so many lanes of threads serve its
/// clients. [`Origin::new`] takes these places alone, from 1 on.
pub const MAX_PLACES: u8 = 64;

const _: () = prove!(MAX_PLACES == 64);

/// The greatest number of lines to a store (this server's choice). A line's number, from 1 on, is the place of its entries.
pub const MAX_LINES: u16 = 10_000;

const _: () = prove!(MAX_LINES == 10_000);

/// Where an entry came from: a place, the number of its line, 1 to [`MAX_LINES`], or the writer, whose place is 0; and a serial number
/// from 1 on, which rises at each place.
#[derive(Clone, Copy, Debug, PartialEq, Eq)]
pub struct Origin {
    place: u16,
    serial: u64,
}

impl Model for Origin {
    ghost use Rattle.std.specs.Prelude.{ℕ, ◌<◌, ◌≤◌};
    ghost use Rattle.rs_message.specs.declared.entry.TheConstants.{MAX_LINES};
    ghost use Rattle.rs_message.specs.Values.{OriginValue};

    ghost Value = { OriginValue };

    ghost view = { λ o. record { place = o.place; serial = o.serial } };

    ghost invariant = { λ o. (o.place ≤ MAX_LINES) × (0 < o.serial) };

    ghost inverse = { λ v. record { place = v.place; serial = v.serial } };
}

impl Origin {
    /// None if the place is not 1 to [`MAX_PLACES`], or the serial is 0.
    pub fn new(place: u8, serial: u64) -> Option<Origin>
        ensures { result ≡ (if nat_lt 0 place && nat_le place MAX_PLACES && nat_lt 0 serial
            then Some (record { place = place; serial = serial }) else None) }
    {
        if 0 < place && place <= MAX_PLACES && 0 < serial {
            return Some(Origin {
                place: u16::from(place),
                serial,
            });
        }
        None
    }

    /// An origin of this line. None if the line is not 1 to [`MAX_LINES`], or the serial is 0.
    pub fn of_line(line: u16, serial: u64) -> Option<Origin>
        ensures { result ≡ (if nat_lt 0 line && nat_le line MAX_LINES && nat_lt 0 serial
            then Some (record { place = line; serial = serial }) else None) }
    {
        if 0 < line && line <= MAX_LINES && 0 < serial {
            return Some(Origin {
                place: line,
                serial,
            });
        }
        None
    }

    /// An origin of the writer. None if the serial is 0.
    pub fn of_writer(serial: u64) -> Option<Origin>
        ensures { result ≡ (if nat_lt 0 serial then Some (record { place = 0; serial = serial }) else None) }
    {
        if 0 < serial {
            return Some(Origin { place: 0, serial });
        }
        None
    }

    /// The place, 1 to [`MAX_LINES`], or 0 for the writer.
    pub fn place(self) -> u16
        ensures value { result ≡ self.place }
        ensures small { result ≤ MAX_LINES }
    {
        self.place
    }

    /// The serial number, at least 1.
    pub fn serial(self) -> u64
        ensures value { result ≡ self.serial }
        ensures some { 0 < result }
    {
        self.serial
    }
}

/// An operation on a topic's retained message (3.3.1.3), or on all that are expired.
#[derive(Debug, Drop, PartialEq, Eq)]
pub enum Operation {
    /// The message becomes the topic's retained message, instead of any other.
    Set(Found),
    /// The topic has no retained message from now on.
    Clear(TopicName),
    /// No topic keeps a message that is expired at this moment, in seconds. Only the writer does this.
    Sweep(u64),
}

impl Operation {
    /// An equal operation, which shares the bytes. It takes no memory. The error says that the count of their owners is full.
    pub fn copy(&self) -> Result<Operation, AllocError>
        ensures { IfOk result (λ o. o ≡ self.now) }
    {
        match self {
            Operation::Set(found) => Ok(Operation::Set(found.copy()?)),
            Operation::Clear(topic) => Ok(Operation::Clear(topic.copy()?)),
            Operation::Sweep(moment) => Ok(Operation::Sweep(*moment)),
        }
    }

    /// Whether it is a Sweep.
    pub fn is_sweep(&self) -> bool
        ensures { result ≡ is_sweep self.now }
    {
        match self {
            Operation::Sweep(_) => true,
            Operation::Set(_) => false,
            Operation::Clear(_) => false,
        }
    }

    /// What a PUBLISH changes (3.3.1.3): with a payload it sets the topic's message, with an empty one it clears the topic,
    /// and None without RETAIN. `received` is when the packet came, and `expiry` its Message Expiry Interval, both in seconds.
    /// The error says that memory for the message was refused, so that the PUBLISH has RETAIN and a payload.
    pub fn of(
        alloc: Global,
        retain: bool,
        topic: TopicName,
        payload: Bytes,
        qos: Qos,
        received: u64,
        expiry: Option<u32>,
        properties: Properties,
    ) -> Result<Option<Operation>, AllocError>
        requires { message_size expiry properties payload ≤ MAX_PACKET_SIZE }
        ensures ok { IfOk result (λ o.
            o ≡ operation_of retain topic (record {
              payload = payload;
              qos = qos;
              received = received;
              expiry = expiry;
              properties = properties;
            })) }
        ensures err { IfErr result (λ _. (retain ≡ true) × (payload ≢ [])) }
    {
        if !retain {
            return Ok(None);
        }
        if payload.is_empty() {
            return Ok(Some(Operation::Clear(topic)));
        }
        let message = Message::new(payload, qos, received, expiry, properties);
        Ok(Some(Operation::Set(Found::new(alloc, topic, message)?)))
    }
}

/// One operation on the store and its origin.
#[derive(Debug, Drop, PartialEq, Eq)]
pub struct Entry {
    /// Where it came from.
    pub origin: Origin,
    /// What it does to the store.
    pub operation: Operation,
}

impl Entry {
    /// An equal entry, which shares the bytes. It takes no memory. The error says that the count of their owners is full.
    pub fn copy(&self) -> Result<Entry, AllocError>
        ensures { IfOk result (λ e. e ≡ self.now) }
    {
        Ok(Entry {
            origin: self.origin,
            operation: self.operation.copy()?,
        })
    }
}
