//! SUBSCRIBE: section 3.8.

ghost use Rattle.std.specs.Prelude.{◌≡◌, ◌≤◌, ◌⊎◌, ℕ, List, length, true, false, Ok, IfOk, MatchBool};
ghost use Rattle.std.specs.List.{list_any};
ghost use Rattle.rs_session.specs.Gate.{Grows, GrowsAnswering};
ghost use Rattle.rs_session.specs.Points.{given_at, point_at};
ghost use Rattle.rs_session.specs.Subscriptions.{is_subscribed, replays};
ghost use Rattle.rs_session.specs.Table.{LeadsTo, IsGranted, IsQueued, IsSubscribed, filter_reason, is_shared, is_shared_local};

use super::{Effect, Open};
use crate::gate::Gate;
use crate::phase::Input;
use crate::reason::ReasonCode;
use crate::subscriptions::{MAX_SUBSCRIPTIONS, Subscription};
use rs_packet::{Codes, Options, Packet, Reply, RetainHandling, Subscribe, SubscriptionId};
use rs_topic::{TopicFault, TopicFilter};
use std::alloc::Global;

impl Open {
    pub(super) fn subscribe<G: Gate>(
        &mut self,
        alloc: Global,
        gate: &mut G,
        s: Subscribe,
        now: u64,
    ) -> Effect
        ensures row { GrowsAnswering G.stands G.mark gate.old gate.new (λ seen answered list.
            LeadsTo (given_at (Input.Whole (Packet.Subscribe s)) now) (point_at self.old seen (G.mark gate.old)) answered result
            (point_at self.new list (G.mark gate.new))) }
        ensures pending { G.pending gate.new ≡ G.pending gate.old }
    {
        if any_shared_local(s.filters.as_slice()) {
            return Effect::Closes(ReasonCode::ProtocolError);
        }
        let Ok(mut codes) = Vec::with_capacity(alloc, s.filters.len()) else {
            return Effect::Closes(ReasonCode::QuotaExceeded);
        };
        let Subscribe {
            id,
            subscription,
            filters,
        } = s;
        'filters: for asked in filters {
            let identifier = subscription;
            let code = self.grant(alloc, gate, asked, identifier, now);
            codes.push_reserved(code);
        }
        Effect::Replies(Some(Reply::Suback(Codes::new(id, codes))))
    }

    /// One filter, and the code that answers it.
    fn grant<G: Gate>(
        &mut self,
        alloc: Global,
        gate: &mut G,
        asked: (Result<TopicFilter, TopicFault>, Options),
        identifier: Option<SubscriptionId>,
        now: u64,
    ) -> u8
        ensures list { Grows (G.stands gate.old) (G.stands gate.new) (λ seen list.
            IsGranted now asked identifier list self.old result self.new) }
        ensures mark { G.mark gate.new ≡ G.mark gate.old }
        ensures pending { G.pending gate.new ≡ G.pending gate.old }
    {
        let (filter, options) = asked;
        match filter {
            Err(fault) => filter_reason(fault).code(),
            Ok(filter) => {
                let subscription = Subscription {
                    options,
                    identifier,
                };
                let is_granted = if self.subscriptions.holds(&filter) {
                    self.renew(gate, filter, subscription, now)
                } else {
                    self.add(alloc, gate, filter, subscription, now)
                };
                if is_granted {
                    options.qos.level()
                } else {
                    ReasonCode::QuotaExceeded.code()
                }
            }
        }
    }

    /// A subscription that replaces the one before, unless its replay is refused.
    fn renew<G: Gate>(
        &mut self,
        gate: &mut G,
        filter: TopicFilter,
        subscription: Subscription,
        now: u64,
    ) -> bool
        requires { is_subscribed filter self.old.subscriptions ≡ true }
        ensures list { Grows (G.stands gate.old) (G.stands gate.new) (λ seen list.
            MatchBool result (IsSubscribed now filter subscription list self.old self.new) (self.new ≡ self.old)) }
        ensures mark { G.mark gate.new ≡ G.mark gate.old }
        ensures pending { G.pending gate.new ≡ G.pending gate.old }
    {
        let kept = subscription;
        if !self.replay(gate, &filter, subscription, true, now) {
            return false;
        }
        self.subscriptions.insert(filter, kept).is_ok()
    }

    /// A new subscription, which is removed again if its replay is refused.
    fn add<G: Gate>(
        &mut self,
        alloc: Global,
        gate: &mut G,
        filter: TopicFilter,
        subscription: Subscription,
        now: u64,
    ) -> bool
        requires { is_subscribed filter self.old.subscriptions ≡ false }
        ensures list { Grows (G.stands gate.old) (G.stands gate.new) (λ seen list.
            MatchBool result (IsSubscribed now filter subscription list self.old self.new) (self.new ≡ self.old)) }
        ensures mark { G.mark gate.new ≡ G.mark gate.old }
        ensures pending { G.pending gate.new ≡ G.pending gate.old }
    {
        if self.subscriptions.len() >= MAX_SUBSCRIPTIONS {
            return false;
        }
        let Ok(key) = own_copy(alloc, &filter) else {
            return false;
        };
        let kept = subscription;
        let Ok(()) = self.subscriptions.insert(key, kept) else {
            return false;
        };
        if self.replay(gate, &filter, subscription, false, now) {
            return true;
        }
        self.subscriptions.remove(&filter);
        false
    }

    /// If Retain Handling says so, what the store answers waits after the rest; otherwise nothing more waits. Refused, all
    /// is as before.
    fn replay<G: Gate>(
        &mut self,
        gate: &mut G,
        filter: &TopicFilter,
        subscription: Subscription,
        is_there: bool,
        now: u64,
    ) -> bool
        ensures list { Grows (G.stands gate.old) (G.stands gate.new) (λ seen list.
            MatchBool result
            (MatchBool (replays subscription.options.retain_handling is_there) (IsQueued now filter.now subscription list self.old self.new)
            (self.new.window ≡ self.old.window))
            (self.new ≡ self.old)) }
        ensures mark { G.mark gate.new ≡ G.mark gate.old }
        ensures pending { G.pending gate.new ≡ G.pending gate.old }
        ensures rest { self.new ≡ record self.old { window = self.new.window } }
    {
        if !wants_replay(subscription.options.retain_handling, is_there) {
            return true;
        }
        let Ok(Some(found)) = gate.answer_within(filter, now, self.window.room()) else {
            return false;
        };
        self.window
            .queue(found, subscription.options.qos, subscription.identifier)
            .is_ok()
    }
}

/// An equal filter in bytes of its own, so that a subscription does not keep the whole SUBSCRIBE in memory.
fn own_copy(alloc: Global, filter: &TopicFilter) -> Result<TopicFilter, TopicFault>
    ensures { IfOk result (λ copy. copy ≡ filter.now) }
{
    TopicFilter::read(alloc, filter.as_bytes())
}

/// Whether the retained messages are sent, by Retain Handling (3.8.3.1).
fn wants_replay(handling: RetainHandling, is_there: bool) -> bool
    ensures { result ≡ replays handling is_there }
{
    match handling {
        RetainHandling::Always => true,
        RetainHandling::IfNew => !is_there,
        RetainHandling::Never => false,
    }
}

fn any_shared_local(filters: &[(Result<TopicFilter, TopicFault>, Options)]) -> bool
    ensures { result ≡ list_any is_shared_local filters.now }
{
    filters.iter().any(is_shared_local)
}

/// A shared subscription with No Local, which is a Protocol Error: section 3.8.3.1.
fn is_shared_local(asked: &(Result<TopicFilter, TopicFault>, Options)) -> bool
    ensures { result ≡ is_shared_local asked.now }
{
    matches!(asked.0, Err(TopicFault::Shared)) && asked.1.no_local
}

/// The code of a filter that is not a topic filter: section 3.9.3.
fn filter_reason(fault: TopicFault) -> ReasonCode
    ensures { result ≡ filter_reason fault }
{
    match fault {
        TopicFault::Shared => ReasonCode::SharedSubscriptionsNotSupported,
        TopicFault::NoMemory => ReasonCode::QuotaExceeded,
        _ => ReasonCode::TopicFilterInvalid,
    }
}
