//! PUBLISH: section 3.3.

ghost use Rattle.std.specs.Prelude.{◌≡◌, ◌≢◌, ℕ, List, None, Some, Ok, Err, true, false, option_map, IfSome};
ghost use Rattle.rs_message.specs.Messages.{is_sweep};
ghost use Rattle.rs_message.specs.declared.entry.Operation.{Operation};
ghost use Rattle.rs_session.specs.Gate.{Grows, GrowsAnswering, IsHandedOver, SendsAtMost, Uses, entry_by};
ghost use Rattle.rs_session.specs.Points.{given_at, point_at};
ghost use Rattle.rs_session.specs.Pending.{IsChange, LeavesPending};
ghost use Rattle.rs_session.specs.Steps.{IsConcluded, IsUnsent, NoSerialUsed, TakesPendingBy, effect_before, effect_of_submit, effect_of_id, effect_of_no_memory, topic_refusal};
ghost use Rattle.rs_session.specs.Table.{LeadsTo, acknowledged_by, unreleased_id, unreleased_with, is_unreleased, is_one_too_many};

use super::{Effect, Open};
use crate::gate::Gate;
use crate::phase::Input;
use crate::reason::ReasonCode;
use rs_message::{Operation, SubmitFault};
use rs_packet::{Packet, PacketId, Publish, Qos, Reply};
use rs_topic::{TopicFault, TopicName};
use std::alloc::{AllocError, Global};

impl Open {
    /// What a PUBLISH leads to by its topic alias, a topic that is not a name, or its identifier.
    pub(super) fn effect_before(&self, p: &Publish) -> Option<Effect>
        ensures { result ≡ effect_before p.now self.now }
    {
        if p.alias.is_some() {
            return Some(Effect::Closes(ReasonCode::TopicAliasInvalid));
        }
        if let Some(code) = topic_reason(&p.topic) {
            return Some(Effect::Closes(code));
        }
        self.effect_of_id(p.qos, p.id)
    }

    /// What the identifier of a PUBLISH leads to, if it awaits its PUBREL or is one too many.
    fn effect_of_id(&self, qos: Qos, id: Option<PacketId>) -> Option<Effect>
        ensures { result ≡ effect_of_id (is_unreleased (unreleased_id qos id) self.now.inbound)
            (is_one_too_many (unreleased_id qos id) self.now.inbound) (acknowledged_by qos id ReasonCode.Success) }
    {
        let own_id = id;
        let unreleased = unreleased_id(qos, id)?;
        if self.inbound.holds(unreleased) {
            return Some(Effect::Replies(acknowledged_by(qos, own_id, ReasonCode::Success)));
        }
        if self.inbound.is_full() {
            return Some(Effect::Closes(ReasonCode::ReceiveMaximumExceeded));
        }
        None
    }

    /// Hands the change that a PUBLISH asks for to the store. It is made here, unless it was made before.
    #[tactic(auto, using(crate::proofs::Submitting::no_sweep))]
    pub(super) fn hand_over<G: Gate>(
        &mut self,
        alloc: Global,
        gate: &mut G,
        p: Publish,
        change: Option<Operation>,
        now: u64,
    ) -> Effect
        requires before { effect_before p self.old ≡ None }
        requires change { IfSome change (λ operation. IsChange (given_at (Input.Whole (Packet.Publish p)) now) operation) }
        ensures row { GrowsAnswering G.stands G.mark gate.old gate.new (λ seen answered list.
            LeadsTo (given_at (Input.Whole (Packet.Publish p)) now) (point_at self.old seen (G.mark gate.old)) answered result
            (point_at self.new list (G.mark gate.new))) }
        ensures pending { LeavesPending (given_at (Input.Whole (Packet.Publish p)) now) (G.pending gate.old) (G.pending gate.new)
            (IsUnsent (G.mark gate.old) (G.mark gate.new) result) }
        ensures certain { NoSerialUsed (G.stands gate.old) (G.pending gate.old) (G.mark gate.old) (G.mark gate.new)
            → result ≢ Effect.Closes ReasonCode.QuotaExceeded }
    {
        let Publish {
            duplicate: _,
            qos,
            retain,
            topic,
            id,
            expiry,
            alias: _,
            properties,
            payload,
        } = p;
        if let Some(made) = change {
            return self.submit(gate, made, qos, id);
        }
        let Ok(topic) = topic else {
            return Effect::Replies(acknowledged_by(qos, id, ReasonCode::QuotaExceeded));
        };
        match Operation::of(alloc, retain, topic, payload, qos, now, expiry, properties) {
            Ok(Some(operation)) => self.submit(gate, operation, qos, id),
            Ok(None) => {
                let unreleased = id;
                self.await_release(qos, unreleased);
                Effect::Replies(acknowledged_by(qos, id, ReasonCode::Success))
            }
            Err(AllocError) => effect_of_no_memory(gate, qos, id),
        }
    }

    fn submit<G: Gate>(
        &mut self,
        gate: &mut G,
        operation: Operation,
        qos: Qos,
        id: Option<PacketId>,
    ) -> Effect
        requires fits { is_one_too_many (unreleased_id qos id) self.old.inbound ≡ false }
        requires change { is_sweep operation ≡ false }
        ensures list { Grows (G.stands gate.old) (G.stands gate.new) (λ seen list.
            IsHandedOver operation (G.mark gate.new) seen list
            × IsConcluded operation qos id (point_at self.old seen (G.mark gate.old)) result (point_at self.new list (G.mark gate.new))) }
        ensures mark { Uses (G.mark gate.old) (G.mark gate.new) }
        ensures sent { SendsAtMost (G.mark gate.old).sent (entry_by operation (G.mark gate.new)) (G.mark gate.new).sent }
        ensures pending { TakesPendingBy operation (G.mark gate.old) (G.mark gate.new) result (G.pending gate.old) (G.pending gate.new) }
        ensures certain { NoSerialUsed (G.stands gate.old) (G.pending gate.old) (G.mark gate.old) (G.mark gate.new)
            → result ≢ Effect.Closes ReasonCode.QuotaExceeded }
    {
        let submitted = gate.submit(operation);
        if submitted.is_ok() {
            let unreleased = id;
            self.await_release(qos, unreleased);
        }
        effect_of_submit(submitted, qos, id)
    }

    /// At QoS 2 the identifier awaits its PUBREL from now on.
    fn await_release(&mut self, qos: Qos, id: Option<PacketId>)
        requires { is_one_too_many (unreleased_id qos id) self.old.inbound ≡ false }
        ensures { self.new ≡ record self.old { inbound = unreleased_with (unreleased_id qos id) self.old.inbound } }
    {
        if let Some(unreleased) = unreleased_id(qos, id) {
            match self.inbound.begin(unreleased) {
                Ok(()) => {}
                Err(_) => unreachable!(),
            }
        }
    }
}

/// What no memory for the change of a PUBLISH leads to. If the gate expects changes, it may be one that was sent ahead, and become an
/// entry.
fn effect_of_no_memory<G: Gate>(gate: &G, qos: Qos, id: Option<PacketId>) -> Effect
    ensures { result ≡ effect_of_no_memory (G.pending gate.now) qos id }
{
    if gate.has_pending() {
        return Effect::Closes(ReasonCode::QuotaExceeded);
    }
    Effect::Replies(acknowledged_by(qos, id, ReasonCode::QuotaExceeded))
}

/// What a submit leads to, by what became of the change.
fn effect_of_submit(submitted: Result<(), SubmitFault>, qos: Qos, id: Option<PacketId>) -> Effect
    ensures { result ≡ effect_of_submit submitted qos id }
{
    match submitted {
        Ok(()) => Effect::Replies(acknowledged_by(qos, id, ReasonCode::Success)),
        Err(SubmitFault::Full | SubmitFault::NoMemory) => {
            Effect::Replies(acknowledged_by(qos, id, ReasonCode::QuotaExceeded))
        }
        Err(SubmitFault::Open) => Effect::Closes(ReasonCode::QuotaExceeded),
        Err(SubmitFault::Strange | SubmitFault::Closed) => {
            Effect::Closes(ReasonCode::ImplementationSpecificError)
        }
    }
}

/// The Reason Code for a topic that is not a topic name: sections 3.3.2.1 and 4.7.3.
fn topic_reason(topic: &Result<TopicName, TopicFault>) -> Option<ReasonCode>
    ensures { result ≡ topic_refusal topic.now }
{
    match topic {
        Ok(_topic) => None,
        Err(TopicFault::NoMemory) => None,
        Err(TopicFault::Empty) => Some(ReasonCode::ProtocolError),
        Err(_fault) => Some(ReasonCode::TopicNameInvalid),
    }
}

/// The identifier of a PUBLISH of QoS 2.
fn unreleased_id(qos: Qos, id: Option<PacketId>) -> Option<PacketId>
    ensures { result ≡ unreleased_id qos id }
{
    match qos {
        Qos::AtMostOnce | Qos::AtLeastOnce => None,
        Qos::ExactlyOnce => id,
    }
}

/// The reply to a PUBLISH: none, a PUBACK or a PUBREC.
fn acknowledged_by(qos: Qos, id: Option<PacketId>, reason: ReasonCode) -> Option<Reply>
    ensures { result ≡ acknowledged_by qos id reason }
{
    match qos {
        Qos::AtMostOnce => None,
        Qos::AtLeastOnce => Some(Reply::Puback(id?, reason.code())),
        Qos::ExactlyOnce => Some(Reply::Pubrec(id?, reason.code())),
    }
}
