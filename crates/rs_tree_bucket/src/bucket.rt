//! A few messages below one spot of the tree, which are shared until they are changed.

ghost use Rattle.std.specs.Prelude.{◌≡◌, ◌+◌, ◌++◌, ◌<◌, ◌≤◌, ◌^◌, [], ◌∷◌, true, length, IfErr, IfOk, IfSome, None, IsTrue, OnErr, OnOk};
ghost use Rattle.std.specs.Arc.{arc_value};
ghost use Rattle.std.specs.BTreeMap.{insert_entry};
ghost use Rattle.std.specs.List.{filter};
ghost use Rattle.std.specs.Option.{option_copied};
ghost use Rattle.rs_topic.specs.Order.{path_cmp};
ghost use Rattle.rs_tree_bucket.specs.Chains.{under_all};
ghost use Rattle.rs_tree_bucket.specs.Chosen.{chosen};
ghost use Rattle.rs_tree_bucket.specs.Expiring.{earliest};
ghost use Rattle.rs_topic.specs.Rests.{levels_from};
ghost use Rattle.rs_tree_bucket.specs.Spots.{found_at, is_there, spot_of, under};
ghost use Rattle.rs_tree_bucket.specs.Sweeping.{is_expired_spot};
ghost use Rattle.rs_tree_bucket.specs.Weights.{weight};
ghost use Rattle.rs_store.specs.declared.limit.TheConstants.{MAX_TOPICS};
ghost use Rattle.rs_tree_bucket.specs.declared.leaves.TheConstants.{MOST};
ghost use Rattle.rs_tree_bucket.specs.Clearing.{Clears};
ghost use Rattle.rs_tree_bucket.specs.Rests.{IsSomeRest};
ghost use Rattle.rs_store.specs.Room.{IsStop};
ghost use Rattle.rs_message.specs.declared.found.Found.{Found};

use crate::cleared::Cleared;
use crate::leaf::{Leaf, answer_one};
use crate::leaves::Leaves;
use rs_message::Found;
use rs_store::{Answer, Stop, bytes_of, earliest_end, is_expired};
use rs_topic::compare_rests;
use std::alloc::{AllocError, Global};
use std::cmp::Ordering;
use std::marker::Model;
use std::mem;
use std::sync::Arc;

/// The messages of a bucket.
#[derive(Drop)]
enum Messages {
    /// One message, which needs no block of its own, and the byte at which the rest of its topic begins.
    One(u32, Found),
    /// More of them, which are changed in place while the bucket is their only owner, and copied otherwise.
    More(Arc<Leaves>),
}

/// A few messages, each with the rest of its topic, in the order of replay.
#[derive(Drop)]
pub struct Bucket {
    messages: Messages,
}

impl Model for Bucket {
    ghost use Rattle.std.specs.Prelude.{List, ℕ};
    ghost use Rattle.rs_message.specs.declared.found.Found.{Found};
    ghost use Rattle.rs_tree_bucket.specs.Messages.{spots_retained};

    ghost Value = { List (List (List ℕ) × Found) };

    ghost view = { λ b. spots_retained b.messages };
}

/// The rest of a topic is that of a message.
fn is_same(topic: &[u8], at: usize, found: &Found, from: u32) -> bool
    ensures { result ≡ is_there (levels_from at topic.now) (spot_of from found.now ∷ []) }
{
    match compare_rests(topic, at, found.topic().as_bytes(), from as usize) {
        Ordering::Equal => true,
        _ => false,
    }
}

/// Removes the message at this rest of a topic, unless it is the only one, in place if the messages have one owner and else in a copy.
fn clear_in(
    this: &mut Arc<Leaves>,
    alloc: Global,
    topic: &[u8],
    at: usize,
) -> Result<Cleared, AllocError>
    ensures { Clears result (arc_value this.old) (arc_value this.new) (levels_from at topic.now) }
{
    if let Some(leaves) = Arc::get_mut(this) {
        return Ok(leaves.clear_more(topic, at));
    }
    let mut copy = this.copy(alloc)?;
    let cleared = copy.clear_more(topic, at);
    *this = Arc::new(alloc, copy)?;
    Ok(cleared)
}

impl Bucket {
    /// The bucket of one message.
    pub fn new(alloc: Global, found: Found, at: usize) -> Result<Bucket, AllocError>
        ensures { IfOk result (λ b. b ≡ spot_of at found ∷ []) }
    {
        match u32::try_from(at) {
            Ok(at) => Ok(Bucket {
                messages: Messages::One(at, found),
            }),
            // Never: a topic has at most 65,535 bytes.
            Err(_) => Bucket::of_leaves(alloc, Leaves::of_one(alloc, found, at)?),
        }
    }

    /// The bucket of some messages.
    fn of_leaves(alloc: Global, leaves: Leaves) -> Result<Bucket, AllocError>
        ensures { IfOk result (λ b. b ≡ leaves) }
    {
        Ok(Bucket {
            messages: Messages::More(Arc::new(alloc, leaves)?),
        })
    }

    /// Takes one message that is left alone out of its block. If the count of its owners is full, it stays.
    fn unbox(&mut self, alloc: Global)
        ensures { self.new ≡ self.old }
    {
        let Messages::More(leaves) = &self.messages else {
            return;
        };
        let Some(leaf) = leaves.only() else {
            return;
        };
        let Ok(found) = leaf.found.copy() else {
            return;
        };
        if let Ok(bucket) = Bucket::new(alloc, found, leaf.at) {
            *self = bucket;
        }
    }

    /// One more owner of the same messages. The error says that the count of owners is full.
    pub fn copy(&self) -> Result<Bucket, AllocError>
        ensures { IfOk result (λ b. b ≡ self.now) }
    {
        match &self.messages {
            Messages::One(at, found) => Ok(Bucket {
                messages: Messages::One(*at, found.copy()?),
            }),
            Messages::More(leaves) => Ok(Bucket {
                messages: Messages::More(Arc::try_clone(leaves)?),
            }),
        }
    }

    /// The messages, to be changed.
    fn to_leaves(&self, alloc: Global) -> Result<Leaves, AllocError>
        ensures { IfOk result (λ leaves. leaves ≡ self.now) }
    {
        match &self.messages {
            Messages::One(at, found) => Leaves::of_one(alloc, found.copy()?, *at as usize),
            Messages::More(leaves) => leaves.copy(alloc),
        }
    }

    /// Its messages, if it has more than it is to have.
    pub fn overflow(&self) -> Option<&Leaves>
        ensures all { IfSome result (λ leaves. leaves.now ≡ self.now) }
        ensures few { result ≡ None → length self.now ≤ MOST }
    {
        match &self.messages {
            Messages::One(_, _) => None,
            Messages::More(leaves) => {
                if leaves.is_overfull() {
                    return Some(leaves);
                }
                None
            }
        }
    }

    /// It has one message, which is at this rest of a topic.
    pub fn is_one_at(&self, topic: &[u8], at: usize) -> bool
        ensures alone { IsTrue result → (found : Found)
            → insert_entry path_cmp self.now (levels_from at topic.now) found ≡ (levels_from at topic.now, found) ∷ [] }
        ensures there { IsTrue result → is_there (levels_from at topic.now) self.now ≡ true }
    {
        match &self.messages {
            Messages::One(from, found) => is_same(topic, at, found, *from),
            Messages::More(_) => false,
        }
    }

    /// Sets the message at the rest of its topic, and returns the one that it replaces. If memory is refused, nothing changes.
    pub fn set(
        &mut self,
        alloc: Global,
        found: Found,
        at: usize,
    ) -> Result<Option<Found>, AllocError>
        ensures done { OnOk result (self.new ≡ insert_entry path_cmp self.old (levels_from at found.topic) found) }
        ensures replaced { IfOk result (λ old. old ≡ found_at (levels_from at found.topic) self.old) }
        ensures refused { OnErr result (self.new ≡ self.old) }
    {
        match &mut self.messages {
            Messages::One(from, one) => {
                if is_same(found.topic().as_bytes(), at, one, *from) {
                    // Both stand at the same rest, wherever it begins in each topic.
                    if let Ok(start) = u32::try_from(at) {
                        *from = start;
                        return Ok(Some(mem::replace(one, found)));
                    }
                }
            }
            Messages::More(leaves) => {
                if let Some(leaves) = Arc::get_mut(leaves) {
                    return leaves.set(found, at);
                }
            }
        }
        let mut copy = self.to_leaves(alloc)?;
        let old = copy.set(found, at)?;
        *self = Bucket::of_leaves(alloc, copy)?;
        Ok(old)
    }

    /// Removes the message at this rest of a topic, unless it is the only one. If memory is refused, nothing changes.
    pub fn clear_few(
        &mut self,
        alloc: Global,
        topic: &[u8],
        at: usize,
    ) -> Result<Cleared, AllocError>
        ensures { Clears result self.old self.new (levels_from at topic.now) }
    {
        match &mut self.messages {
            Messages::One(from, found) => {
                if is_same(topic, at, found, *from) {
                    return Ok(Cleared::Last);
                }
                return Ok(Cleared::Missing);
            }
            Messages::More(leaves) => {
                let cleared = clear_in(leaves, alloc, topic, at);
                self.unbox(alloc);
                cleared
            }
        }
    }

    /// A bucket of the messages that are not expired, if there are any.
    pub fn without_expired(&self, alloc: Global, moment: u64) -> Result<Option<Bucket>, AllocError>
        ensures { IfOk result (λ rest. IsSomeRest moment self.now rest) }
    {
        match &self.messages {
            Messages::One(_, found) => {
                if is_expired(found.message(), moment) {
                    return Ok(None);
                }
                let same = self.copy()?;
                Ok(Some(same))
            }
            Messages::More(leaves) => {
                let mut left = leaves.copy(alloc)?;
                left.sweep(moment);
                if left.is_empty() {
                    return Ok(None);
                }
                let mut bucket = Bucket::of_leaves(alloc, left)?;
                bucket.unbox(alloc);
                Ok(Some(bucket))
            }
        }
    }

    /// A bucket of its messages below a chain and a level, if these stand before the rest of each topic.
    pub fn copy_prefixed(
        &self,
        alloc: Global,
        chain: &[u8],
        level: &[u8],
    ) -> Result<Option<Bucket>, AllocError>
        ensures { IfOk result (λ r. IfSome r (λ b. b ≡ under_all (levels_from 1 chain.now) (under level.now self.now))) }
    {
        match &self.messages {
            Messages::One(at, found) => {
                let mut leaf = Leaf {
                    found: found.copy()?,
                    at: *at as usize,
                };
                if !leaf.rise(chain, level) {
                    return Ok(None);
                }
                let higher = Bucket::new(alloc, leaf.found, leaf.at)?;
                Ok(Some(higher))
            }
            Messages::More(leaves) => match leaves.copy_prefixed(alloc, chain, level)? {
                Some(leaves) => {
                    let higher = Bucket::of_leaves(alloc, leaves)?;
                    Ok(Some(higher))
                }
                None => Ok(None),
            },
        }
    }

    /// The number of its messages.
    pub fn len(&self) -> usize
        ensures { result ≡ length self.now }
    {
        match &self.messages {
            Messages::One(_, _) => 1,
            Messages::More(leaves) => leaves.len(),
        }
    }

    /// Adds how many of its messages are expired.
    pub fn count_expired(&self, now: u64, count: &mut u32)
        ensures { count.old + length self.now ≤ MAX_TOPICS → count.new ≡ count.old + length (filter (is_expired_spot now) self.now) }
    {
        match &self.messages {
            Messages::One(_, found) => {
                if is_expired(found.message(), now) {
                    *count = count.saturating_add(1);
                }
            }
            Messages::More(leaves) => leaves.count_expired(now, count),
        }
    }

    /// Adds how many bytes its messages count.
    pub fn add_bytes(&self, bytes: &mut u64)
        ensures { bytes.old + weight self.now < 2 ^ 64 → bytes.new ≡ bytes.old + weight self.now }
    {
        match &self.messages {
            Messages::One(_, found) => {
                *bytes = bytes.saturating_add(bytes_of(found.topic(), found.message()));
            }
            Messages::More(leaves) => leaves.add_bytes(bytes),
        }
    }

    /// A bound, or the first moment at which one of its messages is expired if that is earlier.
    pub fn earliest(&self, bound: u64) -> u64
        ensures { result ≡ earliest bound self.now }
    {
        match &self.messages {
            Messages::One(_, found) => earliest_end(bound, found.message()),
            Messages::More(leaves) => leaves.earliest(bound),
        }
    }

    /// The message at this rest of a topic, if there is one.
    pub fn find(&self, topic: &[u8], at: usize) -> Option<&Found>
        ensures { option_copied result ≡ found_at (levels_from at topic.now) self.now }
    {
        match &self.messages {
            Messages::One(from, found) => {
                if is_same(topic, at, found, *from) {
                    return Some(found);
                }
                None
            }
            Messages::More(leaves) => leaves.find(topic, at),
        }
    }

    /// Appends copies of the messages that the filter fits and that are not expired.
    pub fn answer(
        &self,
        filter: &[u8],
        at: usize,
        now: u64,
        answer: &mut Answer,
    ) -> Result<(), Stop>
        ensures done { OnOk result (answer.new.found.items ≡ answer.old.found.items ++ chosen (levels_from at filter.now) now self.now) }
        ensures stop { IfErr result (λ stop.
            IsStop stop answer.old.room (answer.old.found.items ++ chosen (levels_from at filter.now) now self.now)) }
        ensures room { answer.new.room ≡ answer.old.room }
    {
        match &self.messages {
            Messages::One(from, found) => answer_one(
                found,
                *from as usize,
                filter,
                at,
                now,
                answer,
            ),
            Messages::More(leaves) => leaves.answer(filter, at, now, answer),
        }
    }
}
