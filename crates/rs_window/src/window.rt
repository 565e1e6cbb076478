//! The replay of retained messages to one client, and what is sent of each.

ghost use Rattle.std.specs.Prelude.{◌≡◌, ◌≢◌, ◌+◌, ◌<◌, ◌≤◌, IfOk, IfErr, IfSome, Ok, length};
ghost use Rattle.rs_packet.specs.Grammar.{IdFits};
ghost use Rattle.rs_message.specs.Messages.{remaining_of};
ghost use Rattle.rs_window.specs.Waiting.{lesser_qos, interval_sent, packet_at};
ghost use Rattle.rs_window.specs.Calls.{fresh, IsQueued, IsNext, IsAcknowledged, Puback, Pubrec, Pubcomp};

use crate::fault::{Ack, WindowFault};
use crate::identifiers::{Kind, change_kind, free_identifier, kind_at, reserve_if, reserve_slots};
use crate::waiting::{
    MAX_WAITING, Waiting, append, drop_unsendable, lesser_of, need_slots, take_first,
};
use rs_message::{Found, Message, Remaining};
use rs_packet::{PacketId, PublishReply, Qos, Reply, SubscriptionId};
use slab::Slab;
use std::alloc::{AllocError, Global};
use std::collections::VecDeque;
use std::marker::Model;

/// The greatest initial quota: at most this many packets of QoS 1 and 2 are unacknowledged at a time, even if the client's
/// Receive Maximum is greater (4.9; this server's choice).
pub const MAX_QUOTA: u16 = 1024;

const _: () = prove!(MAX_QUOTA == 1024);

/// A retained message as it is sent at a given time.
#[derive(Debug, Drop)]
pub struct Outgoing {
    /// The topic and its retained message.
    pub found: Found,
    /// The lesser of the published and the granted QoS (3.8.4).
    pub qos: Qos,
    /// The packet identifier: there is one exactly if QoS is 1 or 2 (3.3.2.2).
    pub id: Option<PacketId>,
    /// The seconds that are left of the Message Expiry Interval (3.3.2.3.3). None if the message does not expire.
    pub expiry: Option<u32>,
    /// The Subscription Identifier of the subscription that it answers, None if it has none (3.3.2.3.8).
    pub subscription: Option<SubscriptionId>,
}

impl Model for Outgoing {
    ghost use Rattle.rs_window.specs.Values.{OutgoingValue};

    ghost Value = { OutgoingValue };

    ghost use Rattle.rs_window.specs.Packets.{FieldsFit};
    ghost use Rattle.rs_window.specs.Views.{outgoing_view};

    ghost view = { outgoing_view };

    ghost invariant = { λ p. FieldsFit (outgoing_view p) };
}

impl Outgoing {
    ghost use Rattle.std.specs.Prelude.{◌≡◌};
    ghost use Rattle.rs_window.specs.Packets.{reply_of};

    /// Its packet, with RETAIN 1 and DUP 0 (3.3.1). It copies nothing and takes no memory.
    pub fn reply(self) -> Reply
        ensures { result ≡ reply_of self }
    {
        let Outgoing {
            found,
            qos,
            id,
            expiry,
            subscription,
        } = self;
        // For the proof: this call says that the message fits a packet.
        let _payload = found.message().payload();
        Reply::Publish(PublishReply::new(found, qos, id, expiry, subscription))
    }
}

/// The interval that is sent at this time, if there is one (3.3.2.3.3).
fn interval_at(message: &Message, now: u64) -> Option<u32>
    ensures { result ≡ interval_sent (remaining_of message.now now) }
{
    match message.remaining(now) {
        Remaining::Left(seconds) => Some(seconds),
        Remaining::Forever => None,
        Remaining::Expired => None,
    }
}

/// What is sent of a message at this time.
fn outgoing_of(waiting: Waiting, now: u64, id: Option<PacketId>) -> Outgoing
    requires fits { IdFits (lesser_qos waiting) id }
    requires current { remaining_of waiting.found.message now ≢ Remaining.Expired }
    ensures { result ≡ packet_at now waiting id }
{
    let qos = lesser_of(&waiting);
    let expiry = interval_at(waiting.found.message(), now);
    let Waiting {
        found,
        granted: _,
        subscription,
    } = waiting;
    Outgoing {
        found,
        qos,
        id,
        expiry,
        subscription,
    }
}

/// The packets that were sent to one client and are not yet acknowledged, and the messages that wait to be sent to it.
#[derive(Drop)]
pub struct Window {
    identifiers: Slab<Kind>,
    waiting: VecDeque<Waiting>,
    quota: usize,
    packet_maximum: u32,
    // Whether slots are reserved for all identifiers of the quota. Without them, nothing waits that needs an identifier.
    is_reserved: bool,
}

impl Model for Window {
    ghost use Rattle.rs_window.specs.State.{State, state_code};

    ghost Value = { State };

    ghost coded = { state_code };

    ghost use Rattle.rs_window.specs.Identifiers.{kinds_of};
    ghost use Rattle.rs_window.specs.Fields.{IsInBounds};

    ghost view = { λ w. record {
      kinds = kinds_of w.identifiers;
      waiting = w.waiting.items;
      quota = w.quota;
      packet_maximum = w.packet_maximum;
    } };

    ghost invariant = { λ w. IsInBounds w.identifiers w.waiting.items w.quota w.is_reserved };
}

impl Window {
    /// An empty window. `receive_maximum` is the client's Receive Maximum, 1 to 65,535, and 65,535 if it names none
    /// (3.1.2.11.3). `packet_maximum` is its Maximum Packet Size in bytes, 4,294,967,295 if it names none (3.1.2.11.4).
    /// The quota is the lesser of the Receive Maximum and [`MAX_QUOTA`]; memory for that many identifiers is reserved here,
    /// and an error says that this memory was refused.
    pub fn new(
        alloc: Global,
        receive_maximum: u16,
        packet_maximum: u32,
    ) -> Result<Window, AllocError>
        requires receives { 0 < receive_maximum }
        requires takes { 0 < packet_maximum }
        ensures { IfOk result (λ w. w ≡ fresh receive_maximum packet_maximum) }
    {
        let quota = receive_maximum.min(MAX_QUOTA) as usize;
        let mut identifiers = Slab::new(alloc);
        reserve_slots(&mut identifiers, quota)?;
        Ok(Window {
            identifiers,
            waiting: VecDeque::new(alloc),
            quota,
            packet_maximum,
            is_reserved: true,
        })
    }

    /// The same, but no memory is reserved before a message that is granted QoS 1 or 2 is queued.
    pub fn idle(alloc: Global, receive_maximum: u16, packet_maximum: u32) -> Window
        requires receives { 0 < receive_maximum }
        requires takes { 0 < packet_maximum }
        ensures { result ≡ fresh receive_maximum packet_maximum }
    {
        Window {
            identifiers: Slab::new(alloc),
            waiting: VecDeque::new(alloc),
            quota: receive_maximum.min(MAX_QUOTA) as usize,
            packet_maximum,
            is_reserved: false,
        }
    }

    /// The client's Maximum Packet Size, in bytes (3.1.2.11.4).
    pub fn packet_maximum(&self) -> u32
        ensures { result ≡ self.now.packet_maximum }
    {
        self.packet_maximum
    }

    /// How many more messages may wait.
    pub fn room(&self) -> usize
        ensures { length self.now.waiting + result ≡ MAX_WAITING }
    {
        MAX_WAITING - self.waiting.len()
    }

    /// Appends all messages to what waits, in order, or none. `granted` is the QoS that the subscription was granted
    /// (3.8.4). `TooManyWaiting` if more than [`MAX_WAITING`] would wait, `NoMemory` if memory is refused.
    pub fn queue(
        &mut self,
        found: Vec<Found>,
        granted: Qos,
        subscription: Option<SubscriptionId>,
    ) -> Result<(), WindowFault>
        ensures { IsQueued found.items granted subscription self.old result self.new }
    {
        if found.len() > self.room() {
            return Err(WindowFault::TooManyWaiting);
        }
        let is_needed = need_slots(self.is_reserved, &found, granted);
        let Ok(()) = reserve_if(&mut self.identifiers, self.quota, is_needed) else {
            return Err(WindowFault::NoMemory);
        };
        self.is_reserved = is_needed;
        let Ok(()) = append(&mut self.waiting, found, granted, subscription) else {
            return Err(WindowFault::NoMemory);
        };
        Ok(())
    }

    /// The next message to be sent, at `now` in seconds. Messages before it that have expired, or whose packets are longer
    /// than the client takes, are dropped. None if nothing is left, or if the first message needs an identifier and the
    /// quota is used up (4.9). It takes no memory.
    pub fn next(&mut self, now: u64) -> Option<Outgoing>
        ensures step { IsNext now self.old result self.new }
        ensures fewer { IfSome result (λ _. length self.new.waiting < length self.old.waiting) }
    {
        drop_unsendable(&mut self.waiting, now, self.packet_maximum);
        let (first, id) = take_first(&mut self.waiting, &mut self.identifiers, self.quota)?;
        Some(outgoing_of(first, now, id))
    }

    /// Handles a PUBACK (4.3.2), whatever its reason code. `WrongKind` if the identifier was sent at QoS 2.
    #[tactic(auto, using(crate::proofs::IdentifierLemmas::put_same))]
    pub fn on_puback(&mut self, id: PacketId, _code: u8) -> Result<Ack, WindowFault>
        ensures step { IsAcknowledged Puback id self.old result self.new }
        ensures refused { IfErr result (λ _. self.new ≡ self.old) }
        ensures unknown { result ≡ Ok Ack.Unknown → self.new ≡ self.old }
    {
        let Some(kind) = kind_at(&self.identifiers, id) else {
            return Ok(Ack::Unknown);
        };
        match kind {
            Kind::AtLeastOnce => {
                free_identifier(&mut self.identifiers, id);
                Ok(Ack::Freed)
            }
            Kind::ExactlyOnce => Err(WindowFault::WrongKind),
            Kind::Received => Err(WindowFault::WrongKind),
        }
    }

    /// Handles a PUBREC (4.3.3). If its reason code is below 0x80, a PUBREL is due; from 0x80 on the identifier is free.
    /// `WrongKind` if the identifier was sent at QoS 1.
    #[tactic(auto, using(crate::proofs::IdentifierLemmas::put_same))]
    pub fn on_pubrec(&mut self, id: PacketId, code: u8) -> Result<Ack, WindowFault>
        ensures step { IsAcknowledged (Pubrec code) id self.old result self.new }
        ensures refused { IfErr result (λ _. self.new ≡ self.old) }
        ensures unknown { result ≡ Ok Ack.Unknown → self.new ≡ self.old }
    {
        match kind_at(&self.identifiers, id) {
            None => Ok(Ack::Unknown),
            Some(Kind::AtLeastOnce) => Err(WindowFault::WrongKind),
            Some(_) => {
                if code < 0x80 {
                    change_kind(&mut self.identifiers, id, Kind::Received);
                    Ok(Ack::Released)
                } else {
                    free_identifier(&mut self.identifiers, id);
                    Ok(Ack::Freed)
                }
            }
        }
    }

    /// Handles a PUBCOMP (4.3.3), whatever its reason code. `WrongKind` if the identifier was sent at QoS 1, or no PUBREC
    /// came before.
    #[tactic(auto, using(crate::proofs::IdentifierLemmas::put_same))]
    pub fn on_pubcomp(&mut self, id: PacketId, _code: u8) -> Result<Ack, WindowFault>
        ensures step { IsAcknowledged Pubcomp id self.old result self.new }
        ensures refused { IfErr result (λ _. self.new ≡ self.old) }
        ensures unknown { result ≡ Ok Ack.Unknown → self.new ≡ self.old }
    {
        match kind_at(&self.identifiers, id) {
            None => Ok(Ack::Unknown),
            Some(Kind::Received) => {
                free_identifier(&mut self.identifiers, id);
                Ok(Ack::Freed)
            }
            Some(Kind::AtLeastOnce) => Err(WindowFault::WrongKind),
            Some(Kind::ExactlyOnce) => Err(WindowFault::WrongKind),
        }
    }
}
