//! The subscriptions of a session.

ghost use Rattle.std.specs.Prelude.{◌≡◌, true, IsOk, OnOk, OnErr};
ghost use Rattle.std.specs.FinMap as finite;
ghost use Rattle.rs_session.specs.Subscriptions.{is_subscribed, none};

use indexmap::IndexMap;
use rs_packet::{Options, SubscriptionId};
use rs_topic::TopicFilter;
use std::alloc::{AllocError, Global};
use std::marker::Model;

/// How many subscriptions a session may have. One more is answered with Reason Code 0x97, quota exceeded (3.9.3).
pub const MAX_SUBSCRIPTIONS: usize = 256;

const _: () = prove!(MAX_SUBSCRIPTIONS == 256);

/// What a session keeps of a filter (3.8.4).
#[derive(Clone, Copy)]
pub struct Subscription {
    /// How its messages are sent (3.8.3.1).
    pub options: Options,
    /// Sent with each of its messages, if the SUBSCRIBE had one (3.8.2.1.2).
    pub identifier: Option<SubscriptionId>,
}

/// The subscriptions of a session by the bytes of their filters: one to a filter (3.8.4).
#[derive(Drop)]
pub struct Subscriptions {
    map: IndexMap<TopicFilter, Subscription>,
}

impl Model for Subscriptions {
    ghost use Rattle.std.specs.FinMap as finite;
    ghost use Rattle.std.specs.Coded.{coded_ℕ, coded_list};
    ghost use Rattle.rs_session.specs.contracts.subscriptions.Subscription as subscription;
    ghost use Rattle.rs_session.specs.Subscriptions.{Subscriptions as ByFilter};

    ghost Value = { ByFilter };

    ghost coded = { finite.code (coded_list coded_ℕ) subscription.the_row.coded };

    ghost view = { λ s. finite.from_entries s.map.entries };
}

impl Subscriptions {
    /// Creates an empty set of subscriptions. Takes no memory.
    pub fn new(alloc: Global) -> Subscriptions
        ensures { result ≡ none }
    {
        Subscriptions {
            map: IndexMap::new(alloc),
        }
    }

    /// How many there are.
    #[tactic(auto, using(crate::proofs::SubscriptionLemmas::len_by_filter))]
    pub fn len(&self) -> usize
        ensures { result ≡ finite.len self.now }
    {
        self.map.len()
    }

    /// Whether there is a subscription to this filter.
    #[tactic(auto, using(crate::proofs::SubscriptionLemmas::get_by_filter))]
    pub fn holds(&self, filter: &TopicFilter) -> bool
        ensures { result ≡ is_subscribed filter.now self.now }
    {
        self.map.contains_key(filter)
    }

    /// Adds a subscription, or replaces the one to the same filter (3.8.4). Only a new filter takes memory: if that is
    /// refused, nothing changes.
    #[tactic(auto, using(crate::proofs::SubscriptionLemmas::get_by_filter, crate::proofs::SubscriptionLemmas::inserted))]
    pub fn insert(
        &mut self,
        filter: TopicFilter,
        subscription: Subscription,
    ) -> Result<(), AllocError>
        ensures done { OnOk result (self.new ≡ finite.insert self.old filter subscription) }
        ensures refused { OnErr result (self.new ≡ self.old) }
        ensures there { is_subscribed filter self.old ≡ true → IsOk result }
    {
        self.map.insert(filter, subscription)?;
        Ok(())
    }

    /// Removes the subscription to this filter, and says whether there was one (3.10.4).
    #[tactic(auto, using(crate::proofs::SubscriptionLemmas::get_by_filter, crate::proofs::SubscriptionLemmas::removed))]
    pub fn remove(&mut self, filter: &TopicFilter) -> bool
        ensures there { result ≡ is_subscribed filter.now self.old }
        ensures removed { self.new ≡ finite.remove self.old filter.now }
    {
        self.map.swap_remove(filter).is_some()
    }
}
