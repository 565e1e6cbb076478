//! The identifiers of QoS 2 packets that were received and not yet released.

ghost use Rattle.std.specs.Prelude.{◌≡◌, ◌≢◌, ℕ, ◌<◌, ◌≤◌, ◌==◌, ◌↔◌, length, slice_index, IfSome, IfNone, IsErr, OnOk, OnErr, IfErr, false};
ghost use Rattle.std.specs.FinSet as set;
ghost use Rattle.arrayvec.specs.ArrayVec.{array_vec_len};
ghost use Rattle.rs_window.specs.InUse.{in_use, IsDistinct};

use crate::fault::WindowFault;
use arrayvec::ArrayVec;
use rs_packet::{PacketId, RECEIVE_MAXIMUM};
use std::marker::Model;

/// The size of the table: as many as the server's Receive Maximum.
const MAX_IN_USE: usize = RECEIVE_MAXIMUM as usize;

/// The index of an identifier in a list.
fn position_of(ids: &[u16], id: u16) -> Option<usize>
    ensures found { IfSome result (λ i. (i < length ids.now) × (slice_index ids.now i ≡ id)) }
    ensures none { IfNone result ((k : ℕ) → k < length ids.now → slice_index ids.now k ≢ id) }
{
    for i in 0..ids.len() {
        if ids[i] == id {
            return Some(i);
        }
    }
    None
}

/// Whether an identifier is in a list.
#[tactic(auto, using(crate::proofs::InUseLemmas::standing, crate::proofs::InUseLemmas::not_standing))]
fn is_in(ids: &[u16], id: u16) -> bool
    ensures { result ≡ set.contains (in_use ids.now) id }
{
    match position_of(ids, id) {
        Some(_) => true,
        None => false,
    }
}

/// Removes an identifier from the table, and returns whether it was there.
fn take_out(ids: &mut ArrayVec<u16, MAX_IN_USE>, id: u16) -> bool
    requires { IsDistinct ids.old.items }
    ensures there { result ≡ set.contains (in_use ids.old.items) id }
    ensures removed { in_use ids.new.items ≡ set.remove (in_use ids.old.items) id }
    ensures distinct { IsDistinct ids.new.items }
{
    match position_of(ids.as_slice(), id) {
        Some(i) => {
            ids.remove(i);
            true
        }
        None => false,
    }
}

/// Appends an identifier to the table.
fn put_in(ids: &mut ArrayVec<u16, MAX_IN_USE>, id: u16)
    requires fits { array_vec_len ids.old < MAX_IN_USE }
    requires distinct { IsDistinct ids.old.items }
    requires new { set.contains (in_use ids.old.items) id ≡ false }
    ensures inserted { in_use ids.new.items ≡ set.insert (in_use ids.old.items) id }
    ensures distinct { IsDistinct ids.new.items }
    ensures fits { array_vec_len ids.new ≤ MAX_IN_USE }
{
    ids.push(id);
}

/// The identifiers of PUBLISH packets of QoS 2 that a client sent and has not yet released by a PUBREL (4.3.3), seen as a
/// set. At most [`RECEIVE_MAXIMUM`] are in use, the Receive Maximum that the server announces (3.2.2.3.3). The table has a
/// fixed size: no call takes memory.
#[derive(Drop)]
pub struct Inbound {
    ids: ArrayVec<u16, MAX_IN_USE>,
}

impl Model for Inbound {
    ghost use Rattle.std.specs.FinSet as set;
    ghost use Rattle.std.specs.Ordering.{nat_cmp};
    ghost use Rattle.std.specs.Coded.{coded_ℕ};

    ghost Value = { set.FinSet nat_cmp };

    ghost coded = { set.code coded_ℕ };

    ghost use Rattle.rs_window.specs.InUse.{in_use, IsDistinct};

    ghost view = { λ a. in_use a.ids.items };

    ghost invariant = { λ a. IsDistinct a.ids.items };
}

impl Inbound {
    ghost use Rattle.rs_window.specs.declared.fault.WindowFault.TheVariants.{TooManyHeld};

    /// A table in which no identifier is in use.
    #[tactic(auto, using(crate::proofs::InUseLemmas::none_in_use))]
    pub fn new() -> Inbound
        ensures { result ≡ set.empty }
    {
        Inbound {
            ids: ArrayVec::new(),
        }
    }

    /// Whether [`RECEIVE_MAXIMUM`] identifiers are in use.
    pub fn is_full(&self) -> bool
        ensures full { result ≡ set.len self.now == RECEIVE_MAXIMUM }
        ensures most { set.len self.now ≤ RECEIVE_MAXIMUM }
    {
        self.ids.is_full()
    }

    /// Whether the identifier is in use: a PUBLISH with it is the same one again (4.3.3).
    pub fn holds(&self, id: PacketId) -> bool
        ensures { result ≡ set.contains self.now id }
    {
        is_in(self.ids.as_slice(), id.get())
    }

    /// The identifier is in use from now on. `TooManyHeld` if [`RECEIVE_MAXIMUM`] others are; nothing changes then.
    #[tactic(auto, using(crate::proofs::InUseLemmas::inserted_again))]
    pub fn begin(&mut self, id: PacketId) -> Result<(), WindowFault>
        ensures ok { OnOk result (self.new ≡ set.insert self.old id) }
        ensures refused { OnErr result (self.new ≡ self.old) }
        ensures fault { IfErr result (λ e. e ≡ TooManyHeld) }
        ensures full { IsErr result ↔ ((set.len self.old ≡ RECEIVE_MAXIMUM) × (set.contains self.old id ≡ false)) }
        ensures most { set.len self.new ≤ RECEIVE_MAXIMUM }
    {
        if is_in(self.ids.as_slice(), id.get()) {
            return Ok(());
        }
        if self.ids.is_full() {
            return Err(WindowFault::TooManyHeld);
        }
        put_in(&mut self.ids, id.get());
        Ok(())
    }

    /// The identifier is no longer in use. Returns whether it was.
    pub fn release(&mut self, id: PacketId) -> bool
        ensures there { result ≡ set.contains self.old id }
        ensures removed { self.new ≡ set.remove self.old id }
    {
        take_out(&mut self.ids, id.get())
    }
}
