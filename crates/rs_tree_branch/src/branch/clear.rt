//! Clears the message of a topic in a branch, which is changed in place while it has one owner and copied otherwise.

ghost use Rattle.std.specs.Prelude.{◌≡◌, ◌<◌, false, [], length, is_some, IsTrue};
ghost use Rattle.std.specs.List.{remove};
ghost use Rattle.std.specs.Arc.{arc_value};
ghost use Rattle.rs_topic.specs.Rests.{levels_from};
ghost use Rattle.rs_tree_bucket.specs.Clearing.{Clears, ClearsAs};
ghost use Rattle.rs_tree_branch.specs.Nodes.{stem_spots};
ghost use Rattle.rs_tree_branch.specs.Chunks.{Leads};

use super::{Below, Branch, Child, Stem, index_of};
use rs_message::Found;
use rs_topic::level_at;
use rs_tree_bucket::{Cleared, skip_chain};
use std::alloc::{AllocError, Global};
use std::sync::Arc;

impl Child {
    /// Removes the message at this rest of a topic, of which the first level ends before `next`, unless it is the only one. If memory
    /// is refused, nothing changes.
    #[cycle(clear)]
    fn clear(
        &mut self,
        alloc: Global,
        topic: &[u8],
        at: usize,
        next: usize,
    ) -> Result<Cleared, AllocError>
        requires { Leads self.old (levels_from at topic.now) (levels_from next topic.now) }
        ensures level { self.new.level ≡ self.old.level }
        ensures cleared { Clears result self.old.spots self.new.spots (levels_from at topic.now) }
    {
        match &mut self.below {
            Below::Few(bucket) => return bucket.clear_few(alloc, topic, next),
            Below::Inner(stem) => {
                let cleared = Stem::clear(stem, alloc, topic, next);
                self.join(alloc);
                return cleared;
            }
            Below::Chunk(chunk) => return Branch::clear_in(chunk, alloc, topic, at),
        }
    }
}

impl Stem {
    /// Removes the message at this rest of a topic, unless it is the only one. If memory is refused, nothing changes.
    #[cycle(clear)]
    fn clear_here(&mut self, alloc: Global, topic: &[u8], at: usize) -> Result<Cleared, AllocError>
        ensures { Clears result (stem_spots self.old) (stem_spots self.new) (levels_from at topic.now) }
    {
        let Some(next) = skip_chain(self.chain.as_slice(), topic, at) else {
            return Ok(Cleared::Missing);
        };
        let cleared = self.branch.clear(alloc, topic, next);
        self.branch.fold(alloc);
        cleared
    }

    /// The same in place if the stem has one owner, and else in a copy.
    #[cycle(clear)]
    fn clear(
        this: &mut Arc<Stem>,
        alloc: Global,
        topic: &[u8],
        at: usize,
    ) -> Result<Cleared, AllocError>
        ensures { Clears result (stem_spots (arc_value this.old)) (stem_spots (arc_value this.new)) (levels_from at topic.now) }
    {
        if let Some(stem) = Arc::get_mut(this) {
            return stem.clear_here(alloc, topic, at);
        }
        let mut copy = this.copy(alloc)?;
        let cleared = copy.clear_here(alloc, topic, at)?;
        *this = Arc::new(alloc, copy)?;
        Ok(cleared)
    }
}

/// There is one child, and no message beside it.
fn is_lone(retained: &Option<Found>, children: &[Child]) -> bool
    ensures lone { IsTrue result → (is_some retained.now ≡ false) × (length children.now ≡ 1) }
    ensures more { result ≡ false → is_some retained.now ≡ false → length children.now ≡ 1 → ⊥ }
{
    retained.is_none() && children.len() == 1
}

/// Removes the child at an index.
fn remove_at(children: &mut Vec<Child>, i: usize)
    requires { i < length children.old.items }
    ensures { children.new.items ≡ remove children.old.items i }
{
    children.remove(i);
}

impl Branch {
    /// Removes the message of the branch itself, unless it is the only one.
    fn clear_retained(&mut self) -> Cleared
        ensures { ClearsAs result self.old.spots self.new.spots [] }
    {
        if self.retained.is_none() {
            return Cleared::Missing;
        }
        if self.children.is_empty() {
            return Cleared::Last;
        }
        self.retained = None;
        Cleared::Left
    }

    /// Removes the message at this rest of a topic, unless it is the only one. If memory is refused, nothing changes.
    #[cycle(clear)]
    pub(crate) fn clear(
        &mut self,
        alloc: Global,
        topic: &[u8],
        at: usize,
    ) -> Result<Cleared, AllocError>
        ensures { Clears result self.old.spots self.new.spots (levels_from at topic.now) }
    {
        let Some((level, next)) = level_at(topic, at) else {
            return Ok(self.clear_retained());
        };
        let Ok(i) = index_of(self.children.as_slice(), level) else {
            return Ok(Cleared::Missing);
        };
        match self.children[i].clear(alloc, topic, at, next) {
            Ok(Cleared::Missing) => Ok(Cleared::Missing),
            Ok(Cleared::Left) => {
                self.divide(alloc, i);
                self.unfold(alloc);
                Ok(Cleared::Left)
            }
            Ok(Cleared::Last) => {
                if is_lone(&self.retained, self.children.as_slice()) {
                    return Ok(Cleared::Last);
                }
                remove_at(&mut self.children, i);
                self.unfold(alloc);
                Ok(Cleared::Left)
            }
            Err(refused) => Err(refused),
        }
    }

    /// The same in place if the branch has one owner, and else in a copy.
    #[cycle(clear)]
    pub fn clear_in(
        this: &mut Arc<Branch>,
        alloc: Global,
        topic: &[u8],
        at: usize,
    ) -> Result<Cleared, AllocError>
        ensures { Clears result (arc_value this.old).spots (arc_value this.new).spots (levels_from at topic.now) }
    {
        if let Some(branch) = Arc::get_mut(this) {
            return branch.clear(alloc, topic, at);
        }
        let mut copy = this.copy(alloc)?;
        let cleared = copy.clear(alloc, topic, at)?;
        *this = Arc::new(alloc, copy)?;
        Ok(cleared)
    }
}
