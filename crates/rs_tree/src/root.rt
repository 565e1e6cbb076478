//! The whole tree, which a catalogue and its copies share until one of them changes it.

ghost use Rattle.std.specs.Prelude.{◌≡◌, ◌+◌, ◌++◌, ◌<◌, ◌≤◌, ◌^◌, [], length, IfErr, IfOk, OnErr, OnOk};
ghost use Rattle.std.specs.BTreeMap.{insert_entry, is_at};
ghost use Rattle.std.specs.List.{filter};
ghost use Rattle.std.specs.Map.{remove_entry};
ghost use Rattle.std.specs.Option.{option_copied};
ghost use Rattle.rs_topic.specs.Order.{path_cmp};
ghost use Rattle.rs_tree_branch.specs.Chosen.{chosen_at_root};
ghost use Rattle.rs_tree_bucket.specs.Expiring.{earliest};
ghost use Rattle.rs_topic.specs.Rests.{levels_from};
ghost use Rattle.rs_tree_bucket.specs.Spots.{found_at, is_there};
ghost use Rattle.rs_tree_bucket.specs.Sweeping.{is_expired_spot, spot_stays};
ghost use Rattle.rs_tree_bucket.specs.Weights.{weight};
ghost use Rattle.rs_store.specs.declared.limit.TheConstants.{MAX_TOPICS};
ghost use Rattle.rs_store.specs.Room.{IsStop};

use rs_message::Found;
use rs_store::{Answer, Stop};
use rs_tree_branch::{Branch, IndexPath, Remains};
use rs_tree_bucket::Cleared;
use std::alloc::{AllocError, Global};
use std::marker::Model;
use std::mem;
use std::sync::Arc;

/// The messages of all topics. Contracts see them with the levels of their topics, in the order of replay.
#[derive(Drop)]
pub struct Root {
    branch: Arc<Branch>,
}

impl Model for Root {
    ghost use Rattle.std.specs.Prelude.{List, ℕ};
    ghost use Rattle.rs_message.specs.declared.found.Found.{Found};

    ghost Value = { List (List (List ℕ) × Found) };

    ghost view = { λ r. r.branch.value.spots };
}

impl Root {
    /// No messages.
    pub fn new(alloc: Global) -> Result<Root, AllocError>
        ensures { IfOk result (λ r. r ≡ []) }
    {
        Ok(Root {
            branch: Arc::new(alloc, Branch::new(alloc))?,
        })
    }

    /// One more owner of the same tree. The error says that the count of owners is full.
    pub fn copy(&self) -> Result<Root, AllocError>
        ensures { IfOk result (λ r. r ≡ self.now) }
    {
        Ok(Root {
            branch: Arc::try_clone(&self.branch)?,
        })
    }

    /// Puts two chunks in the place of the children of the root, if these are too many.
    fn fold(&mut self, alloc: Global)
        ensures { self.new ≡ self.old }
    {
        if let Some(branch) = Arc::get_mut(&mut self.branch) {
            branch.fold(alloc);
        }
    }

    /// Sets the message of its topic, and returns the one that it replaces. If memory is refused, nothing changes.
    pub fn set(
        &mut self,
        alloc: Global,
        found: Found,
        path: &mut IndexPath,
    ) -> Result<Option<Found>, AllocError>
        ensures done { OnOk result (self.new ≡ insert_entry path_cmp self.old (levels_from 0 found.topic) found) }
        ensures replaced { IfOk result (λ old. old ≡ found_at (levels_from 0 found.topic) self.old) }
        ensures refused { OnErr result (self.new ≡ self.old) }
    {
        let old = Branch::set_in(&mut self.branch, alloc, found, 0, path)?;
        // A message that takes another one's place adds no child.
        if old.is_some() {
            return Ok(old);
        }
        self.fold(alloc);
        Ok(old)
    }

    /// Removes the message of a topic, and returns whether there was one. If memory is refused, nothing changes.
    pub fn clear(&mut self, alloc: Global, topic: &[u8]) -> Result<bool, AllocError>
        ensures done { OnOk result (self.new ≡ remove_entry (is_at (path_cmp (levels_from 0 topic.now))) self.old) }
        ensures existed { IfOk result (λ was. was ≡ is_there (levels_from 0 topic.now) self.old) }
        ensures refused { OnErr result (self.new ≡ self.old) }
    {
        match Branch::clear_in(&mut self.branch, alloc, topic, 0) {
            Ok(Cleared::Missing) => Ok(false),
            Ok(Cleared::Left) => {
                self.fold(alloc);
                Ok(true)
            }
            Ok(Cleared::Last) => {
                self.branch = Arc::new(alloc, Branch::new(alloc))?;
                Ok(true)
            }
            Err(refused) => Err(refused),
        }
    }

    /// Removes the messages that are expired. The tree from before takes the place of the remains. If memory is refused, nothing changes.
    pub fn sweep(
        &mut self,
        alloc: Global,
        moment: u64,
        remains: &mut Remains,
    ) -> Result<(), AllocError>
        ensures done { OnOk result (self.new ≡ filter (spot_stays moment) self.old) }
        ensures refused { OnErr result (self.new ≡ self.old) }
    {
        if let Some(left) = self.branch.without_expired(alloc, moment)? {
            let left = Arc::new(alloc, left)?;
            remains.replace(alloc, mem::replace(&mut self.branch, left));
        }
        Ok(())
    }

    /// The message of this topic, if there is one.
    pub fn find(&self, topic: &[u8]) -> Option<&Found>
        ensures { option_copied result ≡ found_at (levels_from 0 topic.now) self.now }
    {
        self.branch.find(topic, 0)
    }

    /// Appends copies of the messages that a filter matches and that are not expired.
    pub fn answer(&self, filter: &[u8], now: u64, answer: &mut Answer) -> Result<(), Stop>
        ensures done { OnOk result (answer.new.found.items
            ≡ answer.old.found.items ++ chosen_at_root (levels_from 0 filter.now) now self.now) }
        ensures stop { IfErr result (λ stop.
            IsStop stop answer.old.room (answer.old.found.items ++ chosen_at_root (levels_from 0 filter.now) now self.now)) }
        ensures room { answer.new.room ≡ answer.old.room }
    {
        self.branch.answer_at_root(filter, now, answer)
    }

    /// The number of messages.
    pub fn len(&self) -> usize
        ensures { length self.now ≤ MAX_TOPICS → result ≡ length self.now }
    {
        self.branch.len()
    }

    /// Adds how many of the messages are expired.
    pub fn count_expired(&self, now: u64, count: &mut u32)
        ensures { count.old + length self.now ≤ MAX_TOPICS → count.new ≡ count.old + length (filter (is_expired_spot now) self.now) }
    {
        self.branch.count_expired(now, count);
    }

    /// Adds how many bytes the messages count.
    pub fn add_bytes(&self, bytes: &mut u64)
        ensures { bytes.old + weight self.now < 2 ^ 64 → bytes.new ≡ bytes.old + weight self.now }
    {
        self.branch.add_bytes(bytes);
    }

    /// A bound, or the first moment at which one of the messages is expired if that is earlier.
    pub fn earliest(&self, bound: u64) -> u64
        ensures { result ≡ earliest bound self.now }
    {
        self.branch.earliest(bound)
    }

    /// The number of branches, this one among them.
    pub fn branches(&self) -> u32 {
        self.branch.branches()
    }
}
