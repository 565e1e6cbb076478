//! An open session.

mod acknowledge;
mod publish;
mod subscribe;
mod unsubscribe;

ghost use Rattle.std.specs.Prelude.{◌≡◌, ◌≢◌, ℕ, List};
ghost use Rattle.rs_message.specs.declared.entry.Entry.{Entry};
ghost use Rattle.rs_packet.specs.declared.packet.Publish.{Publish};
ghost use Rattle.rs_session.specs.Gate.{GrowsAnswering};
ghost use Rattle.rs_session.specs.Points.{point_at};
ghost use Rattle.rs_session.specs.Pending.{LeavesPending};
ghost use Rattle.rs_session.specs.Steps.{IsUnsent, NoSerialUsed};
ghost use Rattle.rs_session.specs.Table.{LeadsTo, fault_reason, open_for};

use crate::gate::Gate;
use crate::incoming::Incoming;
use crate::phase::Input;
use crate::reason::ReasonCode;
use crate::subscriptions::Subscriptions;
use rs_packet::{Packet, PacketFault, Reply};
use rs_window::{Inbound, Window};
use std::alloc::Global;

/// What an open session keeps.
#[derive(Drop)]
pub struct Open {
    /// Its subscriptions (3.8.4).
    pub subscriptions: Subscriptions,
    /// The identifiers of the PUBLISH packets of QoS 2 that wait for their PUBREL (4.3.3).
    pub inbound: Inbound,
    /// What was sent and not acknowledged, and what waits to be sent.
    pub window: Window,
}

/// What an input leads to in an open session.
#[derive(Drop)]
pub enum Effect {
    /// It goes on, with this reply or none.
    Replies(Option<Reply>),
    /// A DISCONNECT with this Reason Code, and the end.
    Closes(ReasonCode),
    /// The end, by the client.
    Leaves,
}

impl Open {
    /// Handles an input, and says what it leads to.
    pub fn handle<G: Gate>(&mut self, alloc: Global, gate: &mut G, incoming: Incoming) -> Effect
        ensures row { GrowsAnswering G.stands G.mark gate.old gate.new (λ seen answered list.
            LeadsTo incoming (point_at self.old seen (G.mark gate.old)) answered result
            (point_at self.new list (G.mark gate.new))) }
        ensures pending { LeavesPending incoming (G.pending gate.old) (G.pending gate.new)
            (IsUnsent (G.mark gate.old) (G.mark gate.new) result) }
        ensures certain { (p : Publish) → incoming.input ≡ Input.Whole (Packet.Publish p)
            → NoSerialUsed (G.stands gate.old) (G.pending gate.old) (G.mark gate.old) (G.mark gate.new)
            → result ≢ Effect.Closes ReasonCode.QuotaExceeded }
    {
        let Incoming {
            input,
            time: now,
            change,
        } = incoming;
        let packet = match input {
            Input::Whole(packet) => packet,
            Input::Broken(fault) => return Effect::Closes(fault_reason(fault)),
        };
        match packet {
            Packet::Connect(_c) => Effect::Closes(ReasonCode::ProtocolError),
            Packet::Publish(p) => match self.effect_before(&p) {
                Some(effect) => effect,
                None => self.hand_over(alloc, gate, p, change, now),
            },
            Packet::Puback(a) => self.puback(a),
            Packet::Pubrec(a) => self.pubrec(a),
            Packet::Pubrel(a) => self.pubrel(a),
            Packet::Pubcomp(a) => self.pubcomp(a),
            Packet::Subscribe(s) => self.subscribe(alloc, gate, s, now),
            Packet::Unsubscribe(u) => self.unsubscribe(alloc, u),
            Packet::Pingreq => Effect::Replies(Some(Reply::Pingresp)),
            Packet::Disconnect(_code) => Effect::Leaves,
        }
    }
}

/// The Reason Code of a DISCONNECT for a fault: section 4.13.
pub fn fault_reason(fault: PacketFault) -> ReasonCode
    ensures { result ≡ fault_reason fault }
{
    match fault {
        PacketFault::Malformed => ReasonCode::MalformedPacket,
        PacketFault::Protocol => ReasonCode::ProtocolError,
        PacketFault::TooLarge => ReasonCode::PacketTooLarge,
        PacketFault::Version => ReasonCode::ProtocolError,
        PacketFault::NoMemory => ReasonCode::QuotaExceeded,
    }
}
