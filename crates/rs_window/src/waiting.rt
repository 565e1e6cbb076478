//! What waits to be sent to one client: messages join at the end and leave at the head.

ghost use Rattle.std.specs.Prelude.{◌≡◌, ◌≢◌, ◌⊎◌, ◌<◌, ◌≤◌, ◌∷◌, ◌++◌, [], false, IfSome, IfNone, OnOk, OnErr, is_some, map, nat_lt};
ghost use Rattle.slab.specs.Slab.{slab_len};
ghost use Rattle.rs_window.specs.Identifiers.{kinds_of, IsNumbered, kinds_given};
ghost use Rattle.rs_window.specs.Waiting.{granted_at, lesser_qos, len_with, is_dropped, sendable};
ghost use Rattle.rs_window.specs.Calls.{NeedsQuota};
ghost use Rattle.rs_window.specs.Fields.{AreReserved, NeedNone};

use crate::identifiers::{Kind, may_be_sent, take_identifier};
use rs_message::{Found, Remaining};
use rs_packet::{PacketId, Qos, SubscriptionId, publish_len};
use slab::Slab;
use std::alloc::AllocError;
use std::collections::VecDeque;

/// The greatest number of messages that may wait for one client (this server's choice).
pub const MAX_WAITING: usize = 100_000;

const _: () = prove!(MAX_WAITING == 100_000);

/// A retained message that waits to be sent, and what its subscription was granted.
#[derive(Debug, Drop)]
pub struct Waiting {
    /// The topic and its message.
    pub found: Found,
    /// The QoS that the subscription was granted (3.8.4).
    pub granted: Qos,
    /// The Subscription Identifier of the subscription, None if it has none (3.8.2.1.2).
    pub subscription: Option<SubscriptionId>,
}

/// Whether slots are reserved, or one of these messages may need an identifier.
pub(crate) fn need_slots(is_reserved: bool, found: &[Found], granted: Qos) -> bool
    ensures kept { result ≡ false → is_reserved ≡ false }
    ensures none { result ≡ false → (granted ≡ Qos.AtMostOnce) ⊎ (found.now ≡ []) }
{
    if is_reserved {
        return true;
    }
    match granted {
        Qos::AtMostOnce => false,
        Qos::AtLeastOnce => !found.is_empty(),
        Qos::ExactlyOnce => !found.is_empty(),
    }
}

/// Appends all of them in order, or none if memory is refused.
pub(crate) fn append(
    waiting: &mut VecDeque<Waiting>,
    found: Vec<Found>,
    granted: Qos,
    subscription: Option<SubscriptionId>,
) -> Result<(), AllocError>
    ensures ok { OnOk result (waiting.new.items ≡ waiting.old.items ++ map (granted_at granted subscription) found.items) }
    ensures err { OnErr result (waiting.new.items ≡ waiting.old.items) }
{
    waiting.reserve(found.len())?;
    for one in found {
        let with_id = subscription;
        waiting.push_back_reserved(Waiting {
            found: one,
            granted,
            subscription: with_id,
        });
    }
    Ok(())
}

/// The QoS of its packet: the lesser of the published and the granted QoS (3.8.4).
pub(crate) fn lesser_of(waiting: &Waiting) -> Qos
    ensures { result ≡ lesser_qos waiting.now }
{
    let published = waiting.found.message().qos();
    if published.level() <= waiting.granted.level() {
        return published;
    }
    waiting.granted
}

/// Whether its packet with this interval is longer than the client takes (3.1.2.11.4).
fn is_too_long(waiting: &Waiting, expiry: Option<u32>, packet_maximum: u32) -> bool
    requires { is_some expiry ≡ is_some waiting.now.found.message.expiry }
    ensures { result ≡ nat_lt packet_maximum (len_with waiting.now expiry) }
{
    let message = waiting.found.message();
    let topic = waiting.found.topic();
    // For the proof: this call says that the topic is short.
    let _topic = topic.as_bytes();
    let len = publish_len(
        topic,
        message.payload().len(),
        message.properties(),
        lesser_of(waiting),
        expiry,
        waiting.subscription,
    );
    len > packet_maximum as usize
}

/// Whether it is dropped at this time: it has expired (3.3.2.3.3), or its packet is too long (3.1.2.11.4).
fn is_unsendable(waiting: &Waiting, now: u64, packet_maximum: u32) -> bool
    ensures { result ≡ is_dropped packet_maximum now waiting.now }
{
    match waiting.found.message().remaining(now) {
        Remaining::Expired => true,
        Remaining::Forever => is_too_long(waiting, None, packet_maximum),
        Remaining::Left(seconds) => is_too_long(waiting, Some(seconds), packet_maximum),
    }
}

/// Drops messages from the head until one is to be sent at `now`, in seconds.
pub(crate) fn drop_unsendable(waiting: &mut VecDeque<Waiting>, now: u64, packet_maximum: u32)
    ensures { waiting.new.items ≡ sendable packet_maximum now waiting.old.items }
{
    while let Some(first) = waiting.front() {
        if !is_unsendable(first, now, packet_maximum) {
            break;
        }
        let _dropped = waiting.pop_front();
    }
}

/// Takes the first message that waits, with an identifier if it needs one. None if nothing waits, or if it needs one and
/// the quota is used up (4.9); nothing changes then.
pub(crate) fn take_first(
    waiting: &mut VecDeque<Waiting>,
    identifiers: &mut Slab<Kind>,
    quota: usize,
) -> Option<(Waiting, Option<PacketId>)>
    requires within { slab_len identifiers.old ≤ quota }
    requires reserved { NeedNone waiting.old.items ⊎ AreReserved identifiers.old quota }
    ensures kept { IfNone result (waiting.new.items ≡ waiting.old.items) }
    ensures same { IfNone result (identifiers.new ≡ identifiers.old) }
    ensures needs_quota { IfNone result (NeedsQuota (kinds_of identifiers.old) quota waiting.old.items) }
    ensures first { IfSome result (λ r. waiting.old.items ≡ r.0 ∷ waiting.new.items) }
    ensures numbered { IfSome result (λ r. IsNumbered (kinds_of identifiers.old) quota (lesser_qos r.0) r.1) }
    ensures kinds { IfSome result (λ r. kinds_of identifiers.new ≡ kinds_given (lesser_qos r.0) r.1 (kinds_of identifiers.old)) }
    ensures len { slab_len identifiers.new ≤ quota }
    ensures capacity { identifiers.new.capacity ≡ identifiers.old.capacity }
{
    let qos = match waiting.front() {
        Some(first) => lesser_of(first),
        None => return None,
    };
    if !may_be_sent(identifiers, qos, quota) {
        return None;
    }
    let first = waiting.pop_front()?;
    let id = take_identifier(identifiers, qos, quota);
    Some((first, id))
}
