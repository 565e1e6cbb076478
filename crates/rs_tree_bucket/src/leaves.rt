//! A few messages below one spot of the tree, in the order of replay.

ghost use Rattle.std.specs.Prelude.{◌≡◌, ◌↔◌, ◌+◌, ◌++◌, ◌<◌, ◌≤◌, ◌^◌, [], ◌∷◌, false, length, IfErr, IfOk, IfSome, IsTrue, MatchResult, OnErr, OnOk};
ghost use Rattle.std.specs.BTreeMap.{insert_entry, is_at};
ghost use Rattle.std.specs.List.{filter};
ghost use Rattle.std.specs.List.Sorted.{IsStrictlySortedBy};
ghost use Rattle.std.specs.Map.{keys_of, remove_entry};
ghost use Rattle.std.specs.Option.{option_copied};
ghost use Rattle.rs_topic.specs.Order.{path_cmp};
ghost use Rattle.rs_tree_bucket.specs.Buckets.{IsGap, IsHere, spots_in};
ghost use Rattle.rs_tree_bucket.specs.Chains.{under_all};
ghost use Rattle.rs_tree_bucket.specs.Chosen.{chosen};
ghost use Rattle.rs_tree_bucket.specs.Expiring.{earliest};
ghost use Rattle.rs_tree_bucket.specs.Clearing.{ClearsAs};
ghost use Rattle.rs_store.specs.Room.{IsStop};
ghost use Rattle.rs_topic.specs.Rests.{levels_from};
ghost use Rattle.rs_tree_bucket.specs.Spots.{found_at, is_nothing, is_there, spot_of, under};
ghost use Rattle.rs_tree_bucket.specs.Sweeping.{is_expired_spot, spot_stays};
ghost use Rattle.rs_tree_bucket.specs.Weights.{weight};
ghost use Rattle.rs_store.specs.declared.limit.TheConstants.{MAX_TOPICS};
ghost use Rattle.rs_tree_bucket.specs.declared.leaves.TheConstants.{MOST};

use crate::chain::shared_levels;
use crate::cleared::Cleared;
use crate::leaf::Leaf;
use rs_message::Found;
use rs_store::{Answer, Stop, bytes_of, earliest_end, is_expired};
use std::alloc::{AllocError, Global};
use std::cmp::Ordering;
use std::marker::Model;
use std::mem;

/// How many messages a bucket takes before a branch is put in its place.
const MOST: usize = 8;

/// A few messages, each with the rest of its topic, in the order of replay.
///
/// They lie side by side, so that an answer of all of them reads one block of memory, and a look-up compares with each.
#[derive(Drop)]
pub struct Leaves {
    leaves: Vec<Leaf>,
}

impl Model for Leaves {
    ghost use Rattle.std.specs.Prelude.{List, ℕ};
    ghost use Rattle.std.specs.List.Sorted.{IsStrictlySortedBy};
    ghost use Rattle.std.specs.Map.{keys_of};
    ghost use Rattle.rs_message.specs.declared.found.Found.{Found};
    ghost use Rattle.rs_topic.specs.Order.{path_cmp};
    ghost use Rattle.rs_tree_bucket.specs.Buckets.{spots_in};

    ghost Value = { List (List (List ℕ) × Found) };

    ghost view = { λ b. spots_in b.leaves.items };

    ghost invariant = { λ b. IsStrictlySortedBy path_cmp (keys_of (spots_in b.leaves.items)) };
}

/// Where the rest of a topic is, or else where it belongs.
fn index_of(leaves: &[Leaf], topic: &[u8], at: usize) -> Result<usize, usize>
    ensures found { MatchResult result (λ i. IsHere (levels_from at topic.now) leaves.now i)
        (λ i. IsGap (levels_from at topic.now) leaves.now i) }
    ensures within { IfOk result (λ i. i < length leaves.now) }
    ensures up_to { IfErr result (λ i. i ≤ length leaves.now) }
{
    for i in 0..leaves.len() {
        match leaves[i].compare(topic, at) {
            Ordering::Less => return Err(i),
            Ordering::Equal => return Ok(i),
            Ordering::Greater => {}
        }
    }
    Err(leaves.len())
}

/// Appends copies of the messages that the filter fits and that are not expired.
fn answer_each(
    leaves: &[Leaf],
    filter: &[u8],
    at: usize,
    now: u64,
    answer: &mut Answer,
) -> Result<(), Stop>
    ensures done { OnOk result (answer.new.found.items
        ≡ answer.old.found.items ++ chosen (levels_from at filter.now) now (spots_in leaves.now)) }
    ensures stop { IfErr result (λ stop.
        IsStop stop answer.old.room (answer.old.found.items ++ chosen (levels_from at filter.now) now (spots_in leaves.now))) }
    ensures room { answer.new.room ≡ answer.old.room }
{
    for leaf in leaves {
        leaf.answer(filter, at, now, answer)?;
    }
    Ok(())
}

/// Equal leaves, which share the bytes.
fn copies(alloc: Global, leaves: &[Leaf]) -> Result<Vec<Leaf>, AllocError>
    ensures { IfOk result (λ copies. spots_in copies.items ≡ spots_in leaves.now) }
{
    let mut copies = Vec::with_capacity(alloc, leaves.len())?;
    for leaf in leaves {
        copies.push(leaf.copy()?)?;
    }
    Ok(copies)
}

/// Copies of the leaves whose rests begin before a chain and a level, if these stand there.
fn copy_prefixed(
    alloc: Global,
    leaves: &[Leaf],
    chain: &[u8],
    level: &[u8],
) -> Result<Option<Vec<Leaf>>, AllocError>
    ensures { IfOk result (λ r. IfSome r (λ higher.
        spots_in higher.items ≡ under_all (levels_from 1 chain.now) (under level.now (spots_in leaves.now)))) }
{
    let mut higher = Vec::with_capacity(alloc, leaves.len())?;
    for leaf in leaves {
        let mut raised = leaf.copy()?;
        if !raised.rise(chain, level) {
            return Ok(None);
        }
        higher.push(raised)?;
    }
    Ok(Some(higher))
}

/// Counts the messages that are expired.
fn count_each(leaves: &[Leaf], now: u64, count: &mut u32)
    ensures { count.old + length (spots_in leaves.now) ≤ MAX_TOPICS
        → count.new ≡ count.old + length (filter (is_expired_spot now) (spots_in leaves.now)) }
{
    for leaf in leaves {
        if is_expired(leaf.found.message(), now) {
            *count = count.saturating_add(1);
        }
    }
}

/// Adds how many bytes the messages count.
fn add_bytes_of_each(leaves: &[Leaf], bytes: &mut u64)
    ensures { bytes.old + weight (spots_in leaves.now) < 2 ^ 64 → bytes.new ≡ bytes.old + weight (spots_in leaves.now) }
{
    for leaf in leaves {
        *bytes = bytes.saturating_add(bytes_of(leaf.found.topic(), leaf.found.message()));
    }
}

/// A bound, or the first moment at which one of the messages is expired if that is earlier.
fn earliest_of_each(leaves: &[Leaf], bound: u64) -> u64
    ensures { result ≡ earliest bound (spots_in leaves.now) }
{
    let mut least = bound;
    for leaf in leaves {
        least = earliest_end(least, leaf.found.message());
    }
    least
}

/// Removes the messages that are expired.
fn sweep_each(leaves: &mut Vec<Leaf>, moment: u64)
    ensures { spots_in leaves.new.items ≡ filter (spot_stays moment) (spots_in leaves.old.items) }
{
    leaves.retain(|leaf| !is_expired(leaf.found.message(), moment));
}

impl Leaves {
    pub(crate) fn new(alloc: Global) -> Leaves
        ensures { result ≡ [] }
    {
        Leaves {
            leaves: Vec::new(alloc),
        }
    }

    /// One message.
    pub(crate) fn of_one(alloc: Global, found: Found, at: usize) -> Result<Leaves, AllocError>
        ensures { IfOk result (λ b. b ≡ spot_of at found ∷ []) }
    {
        let mut leaves = Leaves::new(alloc);
        drop(leaves.set(found, at)?);
        Ok(leaves)
    }

    /// The messages, in the order of replay.
    pub fn as_slice(&self) -> &[Leaf]
        ensures same { spots_in result.now ≡ self.now }
        ensures sorted { IsStrictlySortedBy path_cmp (keys_of self.now) }
    {
        self.leaves.as_slice()
    }

    /// The only message, if there is one alone.
    pub(crate) fn only(&self) -> Option<&Leaf>
        ensures { IfSome result (λ leaf. self.now ≡ spot_of leaf.now.at leaf.now.found ∷ []) }
    {
        if self.leaves.len() == 1 {
            return Some(&self.leaves[0]);
        }
        None
    }

    pub(crate) fn is_empty(&self) -> bool
        ensures { result ≡ is_nothing self.now }
    {
        self.leaves.is_empty()
    }

    /// It has more messages than it is to have.
    pub(crate) fn is_overfull(&self) -> bool
        ensures { IsTrue result ↔ MOST < length self.now }
    {
        self.len() > MOST
    }

    /// Sets the message at the rest of its topic, and returns the one that it replaces. If memory is refused, nothing changes.
    pub(crate) fn set(&mut self, found: Found, at: usize) -> Result<Option<Found>, AllocError>
        ensures done { OnOk result (self.new ≡ insert_entry path_cmp self.old (levels_from at found.topic) found) }
        ensures replaced { IfOk result (λ old. old ≡ found_at (levels_from at found.topic) self.old) }
        ensures refused { OnErr result (self.new ≡ self.old) }
    {
        match index_of(self.leaves.as_slice(), found.topic().as_bytes(), at) {
            Ok(i) => {
                let Leaf { found: old, at: _ } = mem::replace(
                    &mut self.leaves[i],
                    Leaf { found, at },
                );
                Ok(Some(old))
            }
            Err(i) => {
                self.leaves.reserve_exact(1)?;
                self.leaves.insert(i, Leaf { found, at })?;
                Ok(None)
            }
        }
    }

    /// Removes the message at this rest of a topic, and returns whether there was one.
    pub(crate) fn clear(&mut self, topic: &[u8], at: usize) -> bool
        ensures done { self.new ≡ remove_entry (is_at (path_cmp (levels_from at topic.now))) self.old }
        ensures existed { result ≡ is_there (levels_from at topic.now) self.old }
    {
        match index_of(self.leaves.as_slice(), topic, at) {
            Ok(i) => {
                self.leaves.remove(i);
                self.leaves.shrink_to_fit();
                true
            }
            Err(_) => false,
        }
    }

    /// The number of its messages.
    pub(crate) fn len(&self) -> usize
        ensures { result ≡ length self.now }
    {
        self.leaves.len()
    }

    /// The same, unless it is the only message.
    pub(crate) fn clear_more(&mut self, topic: &[u8], at: usize) -> Cleared
        ensures { ClearsAs result self.old self.new (levels_from at topic.now) }
    {
        if self.find(topic, at).is_none() {
            return Cleared::Missing;
        }
        if self.len() == 1 {
            return Cleared::Last;
        }
        self.clear(topic, at);
        Cleared::Left
    }

    /// Adds how many of its messages are expired.
    pub(crate) fn count_expired(&self, now: u64, count: &mut u32)
        ensures { count.old + length self.now ≤ MAX_TOPICS → count.new ≡ count.old + length (filter (is_expired_spot now) self.now) }
    {
        count_each(self.leaves.as_slice(), now, count);
    }

    /// Adds how many bytes its messages count.
    pub(crate) fn add_bytes(&self, bytes: &mut u64)
        ensures { bytes.old + weight self.now < 2 ^ 64 → bytes.new ≡ bytes.old + weight self.now }
    {
        add_bytes_of_each(self.leaves.as_slice(), bytes);
    }

    /// A bound, or the first moment at which one of its messages is expired if that is earlier.
    pub(crate) fn earliest(&self, bound: u64) -> u64
        ensures { result ≡ earliest bound self.now }
    {
        earliest_of_each(self.leaves.as_slice(), bound)
    }

    /// Removes the messages that are expired.
    pub(crate) fn sweep(&mut self, moment: u64)
        ensures { self.new ≡ filter (spot_stays moment) self.old }
    {
        sweep_each(&mut self.leaves, moment);
        self.leaves.shrink_to_fit();
    }

    /// The message at this rest of a topic, if there is one.
    pub(crate) fn find(&self, topic: &[u8], at: usize) -> Option<&Found>
        ensures { option_copied result ≡ found_at (levels_from at topic.now) self.now }
    {
        match index_of(self.leaves.as_slice(), topic, at) {
            Ok(i) => Some(&self.leaves[i].found),
            Err(_) => None,
        }
    }

    /// Appends copies of the messages that the filter fits and that are not expired.
    pub(crate) fn answer(
        &self,
        filter: &[u8],
        at: usize,
        now: u64,
        answer: &mut Answer,
    ) -> Result<(), Stop>
        ensures done { OnOk result (answer.new.found.items ≡ answer.old.found.items ++ chosen (levels_from at filter.now) now self.now) }
        ensures stop { IfErr result (λ stop.
            IsStop stop answer.old.room (answer.old.found.items ++ chosen (levels_from at filter.now) now self.now)) }
        ensures room { answer.new.room ≡ answer.old.room }
    {
        answer_each(self.leaves.as_slice(), filter, at, now, answer)
    }

    /// An equal bucket, which shares the bytes of topics, payloads and texts.
    pub(crate) fn copy(&self, alloc: Global) -> Result<Leaves, AllocError>
        ensures { IfOk result (λ b. b ≡ self.now) }
    {
        Ok(Leaves {
            leaves: copies(alloc, self.leaves.as_slice())?,
        })
    }

    /// A chain of the levels that the rests of all topics share: those that the first and the last share.
    pub fn shared_chain(&self, alloc: Global) -> Result<Vec<u8>, AllocError> {
        match (self.leaves.first(), self.leaves.last()) {
            (Some(first), Some(last)) => {
                let shared = shared_levels(
                    alloc,
                    first.found.topic().as_bytes(),
                    first.at,
                    last.found.topic().as_bytes(),
                    last.at,
                )?;
                Ok(shared.chain)
            }
            _ => Ok(Vec::new(alloc)),
        }
    }

    /// Leaves whose rests begin before a chain and a level, if these stand there.
    pub(crate) fn copy_prefixed(
        &self,
        alloc: Global,
        chain: &[u8],
        level: &[u8],
    ) -> Result<Option<Leaves>, AllocError>
        ensures { IfOk result (λ r. IfSome r (λ higher. higher ≡ under_all (levels_from 1 chain.now) (under level.now self.now))) }
    {
        match copy_prefixed(alloc, self.leaves.as_slice(), chain, level)? {
            Some(leaves) => Ok(Some(Leaves { leaves })),
            None => Ok(None),
        }
    }
}
