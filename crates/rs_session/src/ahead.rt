//! The publications whose changes a gate may be told to expect ([`Gate::expect`](crate::Gate::expect)).

ghost use Rattle.std.specs.Prelude.{◌≡◌, false, true, Ok, IfOk, IfSome};
ghost use Rattle.rs_message.specs.Messages.{is_sweep};
ghost use Rattle.rs_session.specs.Pending.{IsChange, is_low, is_topic, may_be_announced};
ghost use Rattle.rs_session.specs.Points.{given_at};
ghost use Rattle.rs_session.specs.Table.{change};

use crate::phase::Input;
use rs_message::Operation;
use rs_packet::{Packet, Publish, Qos};
use rs_topic::{TopicFault, TopicName};
use std::alloc::{AllocError, Global};

impl Input {
    /// The change of a publication that may be announced, of copies that share the bytes; `now` is its time, in seconds. Such a one is a
    /// PUBLISH with RETAIN 1, of QoS 0 or 1, with a topic and no alias. It needs nothing of the session but that it goes on. None also
    /// if memory is refused.
    pub(crate) fn change(&self, alloc: Global, now: u64) -> Option<Operation>
        ensures change { IfSome result (λ operation. IsChange (given_at self.now now) operation) }
        ensures none_sweeps { IfSome result (λ operation. is_sweep operation ≡ false) }
    {
        match self {
            Input::Whole(Packet::Publish(p)) => change(alloc, p, now),
            _ => None,
        }
    }
}

fn may_be_announced(p: &Publish) -> bool
    ensures { result ≡ may_be_announced p.now }
{
    p.retain && is_low(p.qos) && p.alias.is_none() && is_topic(&p.topic)
}

fn is_low(qos: Qos) -> bool
    ensures { result ≡ is_low qos }
{
    match qos {
        Qos::AtMostOnce | Qos::AtLeastOnce => true,
        Qos::ExactlyOnce => false,
    }
}

fn is_topic(topic: &Result<TopicName, TopicFault>) -> bool
    ensures { result ≡ is_topic topic.now }
{
    topic.is_ok()
}

fn change(alloc: Global, p: &Publish, now: u64) -> Option<Operation>
    ensures change { IfSome result (λ operation. IsChange (given_at (Input.Whole (Packet.Publish p.now)) now) operation) }
    ensures none_sweeps { IfSome result (λ operation. is_sweep operation ≡ false) }
{
    if !may_be_announced(p) {
        return None;
    }
    match &p.topic {
        Ok(topic) => change_of(alloc, p, topic, now),
        Err(_fault) => None,
    }
}

/// Its change, with this topic. None also if memory is refused.
#[tactic(auto, using(crate::proofs::Submitting::no_sweep))]
fn change_of(alloc: Global, p: &Publish, topic: &TopicName, now: u64) -> Option<Operation>
    requires { p.now.topic ≡ Ok topic.now }
    ensures change { IfSome result (λ operation. change p.now topic.now now ≡ Some operation) }
    ensures none_sweeps { IfSome result (λ operation. is_sweep operation ≡ false) }
{
    let Ok(topic) = topic.copy() else {
        return None;
    };
    let Ok(payload) = p.payload.clone() else {
        return None;
    };
    let Ok(properties) = p.properties.copy() else {
        return None;
    };
    match Operation::of(
        alloc, p.retain, topic, payload, p.qos, now, p.expiry, properties,
    ) {
        Ok(operation) => operation,
        Err(AllocError) => None,
    }
}
