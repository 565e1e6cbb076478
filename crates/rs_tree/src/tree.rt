//! A catalogue in a tree of levels.

ghost use Rattle.std.specs.Prelude.{◌≡◌, OnErr, OnOk};
ghost use Rattle.rs_store.specs.Contents.{Accepts, followed};

use crate::messages::TreeMessages;
use rs_message::{Entry, Found};
use rs_store::{Catalogue, Ledger, Messages, Refusal, TopicLimit};
use rs_topic::{TopicFilter, TopicName};
use rs_tree_branch::{IndexPath, Remains};
use std::alloc::{AllocError, Global};
use std::marker::Model;

/// The messages in a tree of the levels of their topics.
///
/// A few messages below one spot lie side by side, in order. If there are more, the spot has a branch of the next levels, and the
/// levels that all topics below share are one text. A branch that gets too many children is divided into chunks, and so is a chunk.
///
/// A copy shares the whole tree: `messages` takes one count, and `copy` a second ledger besides. `apply` changes a node in place if no
/// copy shares it, and else puts a copy of that node in its place, which shares what is below. So a copy never changes.
///
/// `accepts` and `apply` look up one topic, level by level, and then among the few messages that lie together. `answer` visits only
/// the branches that the filter can match: one for a level without a wildcard, each for a `+`, all below for a `#`. It builds no
/// list of levels and copies no byte of a topic, text or payload. `version`, `last_serial`, `count` and `bytes` take constant
/// time, and `bytes_at` looks up one topic.
///
/// A Sweep makes what it changes anew, and shares the rest. It visits each message, and each that stays once more to count its bytes;
/// `expired` and `earliest` visit each once. The entries after it drop what it took out, each a few nodes.
#[derive(Drop)]
pub struct TreeCatalogue {
    alloc: Global,
    messages: TreeMessages,
    // What Sweeps took out, as far as no entry has dropped it.
    remains: Remains,
    // Where the last entry set its message.
    path: IndexPath,
    ledger: Ledger,
}

impl Model for TreeCatalogue {
    ghost use Rattle.std.specs.Prelude.{◌≤◌, length};
    ghost use Rattle.rs_store.specs.declared.content.Content.{Content};
    ghost use Rattle.rs_store.specs.Ledgers.{content_of};

    ghost Value = { Content };

    ghost view = { λ c. content_of c.messages c.ledger };

    ghost invariant = { λ c. length c.messages ≤ c.ledger.limit };
}

impl TreeCatalogue {
    /// Appends an entry that is accepted, and notes where it sets its message. The path may know that already. If memory is refused,
    /// nothing changes.
    fn apply_along(&mut self, entry: Entry, path: IndexPath) -> Result<(), AllocError>
        requires { Accepts self.old entry }
        ensures done { OnOk result (self.new ≡ followed self.old entry) }
        ensures refused { OnErr result (self.new ≡ self.old) }
    {
        // For the proof: this call says that the limit is in its range.
        let _limit = self.ledger.limit().get();
        let origin = entry.origin;
        self.path = path;
        self.remains.shrink(self.alloc);
        self.messages
            .change(&mut self.remains, entry.operation, &mut self.path)?;
        self.ledger.count(origin);
        Ok(())
    }

    /// The same as `apply`, and faster if the other catalogue has just done it and is alike: it first tries the children that the other
    /// one went through.
    pub fn apply_like(&mut self, entry: Entry, other: &TreeCatalogue) -> Result<(), AllocError>
        requires { Accepts self.old entry }
        ensures done { OnOk result (self.new ≡ followed self.old entry) }
        ensures refused { OnErr result (self.new ≡ self.old) }
    {
        self.apply_along(entry, other.path.hints())
    }

    /// The number of branches, the root among them, for tests and measurements. No contract speaks of it.
    pub fn branches(&self) -> u32 {
        self.messages.branches()
    }

    /// How many nodes that a Sweep took out are not dropped yet, without those below them, for tests. No contract speaks of it.
    pub fn remains(&self) -> usize {
        self.remains.len()
    }
}

impl Catalogue for TreeCatalogue {
    type Messages = TreeMessages;

    ghost content = { λ c. c };

    fn new(alloc: Global, limit: TopicLimit) -> Result<TreeCatalogue, AllocError> {
        Ok(TreeCatalogue {
            alloc,
            messages: TreeMessages::new(alloc)?,
            remains: Remains::new(alloc),
            path: IndexPath::new(),
            ledger: Ledger::new(alloc, limit)?,
        })
    }

    fn accepts(&self, entry: &Entry) -> Result<(), Refusal> {
        if !self.ledger.is_new(entry.origin) {
            return Err(Refusal::Stale);
        }
        if !self.ledger.has_number() {
            return Err(Refusal::Full);
        }
        if !self
            .messages
            .has_space(self.ledger.limit(), &entry.operation)
        {
            return Err(Refusal::Full);
        }
        Ok(())
    }

    fn apply(&mut self, entry: Entry) -> Result<(), AllocError> {
        self.apply_along(entry, IndexPath::new())
    }

    fn messages(&self) -> Result<TreeMessages, AllocError> {
        self.messages.copy()
    }

    fn answer_within(
        &self,
        filter: &TopicFilter,
        now: u64,
        room: usize,
    ) -> Result<Option<Vec<Found>>, AllocError> {
        self.messages.answer_within(filter, now, room)
    }

    fn version(&self) -> u64 {
        self.ledger.version()
    }

    fn last_serial(&self, place: u16) -> u64 {
        self.ledger.last_serial(place)
    }

    fn count(&self) -> u32 {
        self.messages.len()
    }

    fn bytes(&self) -> u64 {
        self.messages.bytes()
    }

    fn bytes_at(&self, topic: &TopicName) -> u64 {
        self.messages.bytes_at(topic)
    }

    fn expired_count(&self, now: u64) -> u32 {
        // For the proof: this call says that the limit is in its range.
        let _limit = self.ledger.limit().get();
        self.messages.expired_count(now)
    }

    fn earliest(&self) -> u64 {
        self.messages.earliest()
    }

    fn copy(&self) -> Result<TreeCatalogue, AllocError> {
        Ok(TreeCatalogue {
            alloc: self.alloc,
            messages: self.messages.copy()?,
            remains: Remains::new(self.alloc),
            path: IndexPath::new(),
            ledger: self.ledger.copy()?,
        })
    }
}
