//! The identifiers of PUBLISH packets that were sent and are not yet acknowledged.

ghost use Rattle.std.specs.Prelude.{◌≡◌, ◌≢◌, ◌+◌, ◌<◌, ◌≤◌, ◌^◌, Some, None, IsSome, OnErr, OnOk, true, false};
ghost use Rattle.std.specs.FinMap as map;
ghost use Rattle.slab.specs.Slab.{slab_len, HasRoomFor};
ghost use Rattle.rs_window.specs.Fields.{AreReserved};
ghost use Rattle.rs_window.specs.Identifiers.{kinds_of, IsNumbered, kinds_given};

use rs_packet::{PacketId, Qos};
use slab::Slab;
use std::alloc::AllocError;

/// What an identifier in use waits for.
#[derive(Clone, Copy, Debug, PartialEq, Eq)]
pub enum Kind {
    /// A PUBACK: the PUBLISH was sent at QoS 1 (4.3.2).
    AtLeastOnce,
    /// A PUBREC: the PUBLISH was sent at QoS 2 (4.3.3).
    ExactlyOnce,
    /// A PUBCOMP: the PUBLISH was sent at QoS 2, and a PUBREC below 0x80 came (4.3.3).
    Received,
}

/// The slot of an identifier: its number less 1, since no identifier is 0 (2.2.1).
fn slot_of(id: PacketId) -> usize
    ensures { result + 1 ≡ id }
{
    id.get() as usize - 1
}

/// Reserves the slots for the whole quota, whose numbers plus 1 are identifiers.
pub(crate) fn reserve_slots(identifiers: &mut Slab<Kind>, quota: usize) -> Result<(), AllocError>
    requires within { slab_len identifiers.old ≤ quota }
    ensures reserved { OnOk result (AreReserved identifiers.new quota) }
    ensures refused { OnErr result (AreReserved identifiers.old quota → AreReserved identifiers.new quota) }
    ensures kinds { kinds_of identifiers.new ≡ kinds_of identifiers.old }
    ensures len { slab_len identifiers.new ≡ slab_len identifiers.old }
{
    let additional = quota - identifiers.len();
    identifiers.reserve_exact(additional)?;
    // An identifier is the number of a slot plus 1, and has two bytes (2.2.1).
    // Never: there are as many slots as were asked for. The slab's contract allows more.
    if identifiers.capacity() > usize::from(u16::MAX) {
        return Err(AllocError);
    }
    Ok(())
}

/// The same, if they are needed.
pub(crate) fn reserve_if(
    identifiers: &mut Slab<Kind>,
    quota: usize,
    is_needed: bool,
) -> Result<(), AllocError>
    requires within { slab_len identifiers.old ≤ quota }
    ensures reserved { OnOk result (is_needed ≡ true → AreReserved identifiers.new quota) }
    ensures refused { OnErr result (AreReserved identifiers.old quota → AreReserved identifiers.new quota) }
    ensures kinds { kinds_of identifiers.new ≡ kinds_of identifiers.old }
    ensures len { slab_len identifiers.new ≡ slab_len identifiers.old }
{
    if is_needed {
        reserve_slots(identifiers, quota)?;
    }
    Ok(())
}

/// What the identifier waits for, if it is in use.
#[tactic(auto, using(crate::proofs::IdentifierLemmas::get_at))]
pub(crate) fn kind_at(identifiers: &Slab<Kind>, id: PacketId) -> Option<Kind>
    ensures { result ≡ map.get (kinds_of identifiers.now) id }
{
    identifiers.get(slot_of(id)).copied()
}

/// Takes a number from 1 to 65,535 that is not in use.
fn take_number(identifiers: &mut Slab<Kind>, kind: Kind) -> u16
    requires capacity { HasRoomFor identifiers.old 1 }
    requires small { identifiers.old.capacity < 2 ^ 16 }
    ensures positive { 0 < result }
    ensures small { result < 2 ^ 16 }
    ensures was_free { map.get (kinds_of identifiers.old) result ≡ None }
    ensures kinds { kinds_of identifiers.new ≡ map.insert (kinds_of identifiers.old) result kind }
    ensures len { slab_len identifiers.new ≡ slab_len identifiers.old + 1 }
    ensures capacity { identifiers.new.capacity ≡ identifiers.old.capacity }
{
    let key = identifiers.insert_reserved(kind);
    key as u16 + 1
}

/// Whether a message of this QoS may be sent: it needs no identifier, or the quota is not used up (4.9).
pub(crate) fn may_be_sent(identifiers: &Slab<Kind>, qos: Qos, quota: usize) -> bool
    ensures yes { result ≡ true → qos ≢ Qos.AtMostOnce → slab_len identifiers.now < quota }
    ensures needs { result ≡ false → qos ≢ Qos.AtMostOnce }
    ensures used_up { result ≡ false → quota ≤ slab_len identifiers.now }
{
    match qos {
        Qos::AtMostOnce => true,
        Qos::AtLeastOnce => identifiers.len() < quota,
        Qos::ExactlyOnce => identifiers.len() < quota,
    }
}

/// The identifier of a number above 0.
fn identifier(number: u16) -> Option<PacketId>
    requires { 0 < number }
    ensures { result ≡ Some number }
{
    PacketId::new(number)
}

/// An identifier for a PUBLISH of this QoS; none at QoS 0.
#[tactic(auto, using(crate::proofs::IdentifierLemmas::len_kinds))]
pub(crate) fn take_identifier(
    identifiers: &mut Slab<Kind>,
    qos: Qos,
    quota: usize,
) -> Option<PacketId>
    requires within { slab_len identifiers.old ≤ quota }
    requires free { qos ≢ Qos.AtMostOnce → slab_len identifiers.old < quota }
    requires reserved { qos ≢ Qos.AtMostOnce → AreReserved identifiers.old quota }
    ensures numbered { IsNumbered (kinds_of identifiers.old) quota qos result }
    ensures kinds { kinds_of identifiers.new ≡ kinds_given qos result (kinds_of identifiers.old) }
    ensures len { slab_len identifiers.new ≤ quota }
    ensures capacity { identifiers.new.capacity ≡ identifiers.old.capacity }
{
    match qos {
        Qos::AtMostOnce => None,
        Qos::AtLeastOnce => identifier(take_number(identifiers, Kind::AtLeastOnce)),
        Qos::ExactlyOnce => identifier(take_number(identifiers, Kind::ExactlyOnce)),
    }
}

/// Gives an identifier back.
pub(crate) fn free_identifier(identifiers: &mut Slab<Kind>, id: PacketId)
    requires used { IsSome (map.get (kinds_of identifiers.old) id) }
    ensures kinds { kinds_of identifiers.new ≡ map.remove (kinds_of identifiers.old) id }
    ensures len { slab_len identifiers.new + 1 ≡ slab_len identifiers.old }
    ensures capacity { identifiers.new.capacity ≡ identifiers.old.capacity }
{
    let _kind = identifiers.try_remove(slot_of(id));
}

/// Changes what an identifier in use waits for.
pub(crate) fn change_kind(identifiers: &mut Slab<Kind>, id: PacketId, kind: Kind)
    requires used { IsSome (map.get (kinds_of identifiers.old) id) }
    ensures kinds { kinds_of identifiers.new ≡ map.insert (kinds_of identifiers.old) id kind }
    ensures len { slab_len identifiers.new ≡ slab_len identifiers.old }
    ensures capacity { identifiers.new.capacity ≡ identifiers.old.capacity }
{
    if let Some(slot) = identifiers.get_mut(slot_of(id)) {
        *slot = kind;
    }
}
