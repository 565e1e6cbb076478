//! UNSUBSCRIBE: section 3.10.

ghost use Rattle.std.specs.Prelude.{◌≡◌, ◌≤◌, length};
ghost use Rattle.rs_session.specs.Table.{LeadsWithoutGate, removal_reason, without};

use super::{Effect, Open};
use crate::phase::Input;
use crate::reason::ReasonCode;
use rs_packet::{Codes, Packet, Reply, Unsubscribe};
use rs_topic::{TopicFault, TopicFilter};
use std::alloc::Global;

impl Open {
    pub(super) fn unsubscribe(&mut self, alloc: Global, u: Unsubscribe) -> Effect
        ensures { LeadsWithoutGate (Input.Whole (Packet.Unsubscribe u)) self.old result self.new }
    {
        let Ok(mut codes) = Vec::with_capacity(alloc, u.filters.len()) else {
            return Effect::Closes(ReasonCode::QuotaExceeded);
        };
        for filter in &u.filters {
            let reason = self.remove(filter);
            codes.push_reserved(reason.code());
        }
        Effect::Replies(Some(Reply::Unsuback(Codes::new(u.id, codes))))
    }

    /// One filter. Messages that wait stay.
    fn remove(&mut self, filter: &Result<TopicFilter, TopicFault>) -> ReasonCode
        ensures code { result ≡ removal_reason filter.now self.old.subscriptions }
        ensures removed { self.new ≡ record self.old { subscriptions = without filter.now self.old.subscriptions } }
    {
        match filter {
            Ok(filter) => {
                if self.subscriptions.remove(filter) {
                    return ReasonCode::Success;
                }
                ReasonCode::NoSubscriptionExisted
            }
            Err(TopicFault::Shared) => ReasonCode::NoSubscriptionExisted,
            Err(_fault) => ReasonCode::TopicFilterInvalid,
        }
    }
}
