//! Sets a message in a branch, which is changed in place while it has one owner and copied otherwise.

ghost use Rattle.std.specs.Prelude.{◌≡◌, ◌∷◌, ◌++◌, [], ◌≤◌, IfOk, OnErr, OnOk};
ghost use Rattle.std.specs.Arc.{arc_value};
ghost use Rattle.std.specs.BTreeMap.{insert_entry};
ghost use Rattle.rs_topic.specs.Order.{path_cmp};
ghost use Rattle.rs_topic.specs.Rests.{levels_from};
ghost use Rattle.rs_tree_bucket.specs.Spots.{IsFull, found_at};
ghost use Rattle.rs_tree_branch.specs.Nodes.{stem_spots};
ghost use Rattle.rs_tree_branch.specs.Chunks.{Leads};

use super::chunks::branch_of_stem;
use super::{Below, Branch, Child, Stem, index_along, index_of, insert_at};
use crate::index_path::IndexPath;
use rs_message::Found;
use rs_topic::level_at;
use rs_tree_bucket::{Bucket, Label, Leaves, shared_levels, skip_chain};
use std::alloc::{AllocError, Global};
use std::mem;
use std::sync::Arc;

/// A chain of the levels that the messages of a bucket share, and a branch of the same messages.
fn stem_of(alloc: Global, bucket: &Leaves) -> Result<Stem, AllocError>
    ensures { IfOk result (λ s. stem_spots s ≡ bucket.now) }
{
    let chain = bucket.shared_chain(alloc)?;
    let mut branch = Branch::new(alloc);
    let leaves = bucket.as_slice();
    for leaf in leaves {
        // Never: the messages are in order, so all share what the first and the last share.
        let Some(next) = skip_chain(chain.as_slice(), leaf.found.topic().as_bytes(), leaf.at) else {
            return Err(AllocError);
        };
        drop(branch.hold(alloc, leaf.found.copy()?, next)?);
    }
    Ok(Stem { chain, branch })
}

/// The level of a bucket to which a message comes. A long one is a part of its topic if no other is there then, or else has bytes of
/// its own.
fn renew_label(
    alloc: Global,
    level: &Label,
    bucket: &Bucket,
    found: &Found,
    at: usize,
    next: usize,
) -> Result<Label, AllocError>
    ensures { IfOk result (λ l. l ≡ level.now) }
{
    if level.is_short() {
        return level.copy();
    }
    if bucket.is_one_at(found.topic().as_bytes(), next) {
        return Label::from_topic(alloc, level.as_slice(), found, at);
    }
    level.copy_detached(alloc)
}

impl Child {
    /// Sets a message in a bucket, and returns the one that it replaces. If memory is refused, nothing changes.
    fn hold(
        &mut self,
        alloc: Global,
        found: Found,
        at: usize,
        next: usize,
    ) -> Result<Option<Found>, AllocError>
        requires { Leads self.old (levels_from at found.topic) (levels_from next found.topic) }
        ensures level { self.new.level ≡ self.old.level }
        ensures done { OnOk result (self.new.spots ≡ insert_entry path_cmp self.old.spots (levels_from at found.topic) found) }
        ensures replaced { IfOk result (λ old. old ≡ found_at (levels_from at found.topic) self.old.spots) }
        ensures refused { OnErr result (self.new.spots ≡ self.old.spots) }
    {
        let Below::Few(bucket) = &mut self.below else {
            // Never: the children of a branch that is made of a bucket are buckets.
            return Err(AllocError);
        };
        let level = renew_label(alloc, &self.level, bucket, &found, at, next)?;
        let old = bucket.set(alloc, found, next)?;
        self.level = level;
        Ok(old)
    }

    /// Puts a branch in the place of a bucket that has too many messages. If memory is refused, the bucket stays, and the next entry
    /// that goes there tries again.
    fn split(&mut self, alloc: Global)
        ensures level { self.new.level ≡ self.old.level }
        ensures same { self.new.spots ≡ self.old.spots }
    {
        let Below::Few(bucket) = &self.below else {
            return;
        };
        let Some(messages) = bucket.overflow() else {
            return;
        };
        let Ok(stem) = stem_of(alloc, messages) else {
            return;
        };
        if let Ok(stem) = Arc::new(alloc, stem) {
            self.below = Below::Inner(stem);
        }
    }

    /// Sets the message at the rest of its topic, of which the first level ends before `next`, and returns the one that it replaces. If
    /// memory is refused, nothing changes.
    #[cycle(set)]
    fn set(
        &mut self,
        alloc: Global,
        found: Found,
        at: usize,
        next: usize,
        path: &mut IndexPath,
    ) -> Result<Option<Found>, AllocError>
        requires full { IsFull self.old.spots }
        requires leads { Leads self.old (levels_from at found.topic) (levels_from next found.topic) }
        ensures level { self.new.level ≡ self.old.level }
        ensures done { OnOk result (self.new.spots ≡ insert_entry path_cmp self.old.spots (levels_from at found.topic) found) }
        ensures replaced { IfOk result (λ old. old ≡ found_at (levels_from at found.topic) self.old.spots) }
        ensures refused { OnErr result (self.new.spots ≡ self.old.spots) }
    {
        match &mut self.below {
            Below::Few(_) => {
                let done = self.hold(alloc, found, at, next);
                self.split(alloc);
                return done;
            }
            Below::Inner(stem) => return Stem::set(stem, alloc, found, next, path),
            Below::Chunk(chunk) => return Branch::set_in(chunk, alloc, found, at, path),
        }
    }
}

impl Stem {
    /// An equal stem, which shares what is below its children.
    pub fn copy(&self, alloc: Global) -> Result<Stem, AllocError>
        ensures chain { IfOk result (λ s. s.chain.items ≡ self.now.chain.items) }
        ensures branch { IfOk result (λ s. s.branch ≡ self.now.branch) }
    {
        Ok(Stem {
            chain: Vec::from_slice(alloc, self.chain.as_slice())?,
            branch: self.branch.copy(alloc)?,
        })
    }

    /// Ends the chain before the level at a byte, and puts a branch with that level in between. If memory is refused, nothing
    /// changes.
    fn cut(&mut self, alloc: Global, upper: Vec<u8>, at: usize) -> Result<(), AllocError>
        requires full { IsFull self.old.branch.spots }
        requires upper { levels_from 1 self.old.chain.items ≡ levels_from 1 upper.items ++ levels_from at self.old.chain.items }
        ensures done { OnOk result (self.new.chain ≡ upper) }
        ensures same { stem_spots self.new ≡ stem_spots self.old }
    {
        let Some((level, next)) = level_at(self.chain.as_slice(), at) else {
            self.chain = upper;
            return Ok(());
        };
        let label = Label::new(alloc, level)?;
        let (_, rest) = self.chain.as_slice().split_at(next - 1);
        let lower = Stem {
            chain: Vec::from_slice(alloc, rest)?,
            branch: self.branch.copy(alloc)?,
        };
        self.branch = branch_of_stem(alloc, label, lower)?;
        self.chain = upper;
        Ok(())
    }

    /// Sets a message whose topic leaves the chain. If memory is refused, nothing changes.
    fn set_beside(
        &mut self,
        alloc: Global,
        found: Found,
        at: usize,
    ) -> Result<Option<Found>, AllocError>
        requires { IsFull self.old.branch.spots }
        ensures done { OnOk result (stem_spots self.new ≡ insert_entry path_cmp (stem_spots self.old) (levels_from at found.topic) found) }
        ensures replaced { IfOk result (λ old. old ≡ found_at (levels_from at found.topic) (stem_spots self.old)) }
        ensures refused { OnErr result (stem_spots self.new ≡ stem_spots self.old) }
    {
        let shared = shared_levels(
            alloc,
            self.chain.as_slice(),
            1,
            found.topic().as_bytes(),
            at,
        )?;
        self.cut(alloc, shared.chain, shared.at)?;
        self.branch.hold(alloc, found, shared.from)
    }

    /// Sets the message at the rest of its topic, and returns the one that it replaces. If memory is refused, nothing changes.
    #[cycle(set)]
    fn set_here(
        &mut self,
        alloc: Global,
        found: Found,
        at: usize,
        path: &mut IndexPath,
    ) -> Result<Option<Found>, AllocError>
        requires { IsFull self.old.branch.spots }
        ensures done { OnOk result (stem_spots self.new ≡ insert_entry path_cmp (stem_spots self.old) (levels_from at found.topic) found) }
        ensures replaced { IfOk result (λ old. old ≡ found_at (levels_from at found.topic) (stem_spots self.old)) }
        ensures refused { OnErr result (stem_spots self.new ≡ stem_spots self.old) }
    {
        let Some(next) = skip_chain(self.chain.as_slice(), found.topic().as_bytes(), at) else {
            return self.set_beside(alloc, found, at);
        };
        let old = self.branch.set(alloc, found, next, path)?;
        // A message that takes another one's place adds no child.
        if old.is_some() {
            return Ok(old);
        }
        self.branch.fold(alloc);
        Ok(old)
    }

    /// The same in place if the stem has one owner, and else in a copy.
    #[cycle(set)]
    fn set(
        this: &mut Arc<Stem>,
        alloc: Global,
        found: Found,
        at: usize,
        path: &mut IndexPath,
    ) -> Result<Option<Found>, AllocError>
        requires { IsFull (arc_value this.old).branch.spots }
        ensures done { OnOk result (stem_spots (arc_value this.new)
            ≡ insert_entry path_cmp (stem_spots (arc_value this.old)) (levels_from at found.topic) found) }
        ensures replaced { IfOk result (λ old. old ≡ found_at (levels_from at found.topic) (stem_spots (arc_value this.old))) }
        ensures refused { OnErr result (stem_spots (arc_value this.new) ≡ stem_spots (arc_value this.old)) }
    {
        if let Some(stem) = Arc::get_mut(this) {
            return stem.set_here(alloc, found, at, path);
        }
        let mut copy = this.copy(alloc)?;
        let old = copy.set_here(alloc, found, at, path)?;
        *this = Arc::new(alloc, copy)?;
        Ok(old)
    }
}

impl Branch {
    /// Sets a message in a branch whose children are buckets, and returns the one that it replaces. If memory is refused, nothing
    /// changes.
    fn hold(&mut self, alloc: Global, found: Found, at: usize) -> Result<Option<Found>, AllocError>
        ensures done { OnOk result (self.new.spots ≡ insert_entry path_cmp self.old.spots (levels_from at found.topic) found) }
        ensures replaced { IfOk result (λ old. old ≡ found_at (levels_from at found.topic) self.old.spots) }
        ensures refused { OnErr result (self.new.spots ≡ self.old.spots) }
    {
        let Some((level, next)) = level_at(found.topic().as_bytes(), at) else {
            return Ok(mem::replace(&mut self.retained, Some(found)));
        };
        match index_of(self.children.as_slice(), level) {
            Ok(i) => self.children[i].hold(alloc, found, at, next),
            Err(i) => {
                let label = Label::from_topic(alloc, level, &found, at)?;
                let child = Child::new(alloc, label, found, next)?;
                insert_at(&mut self.children, i, child)?;
                Ok(None)
            }
        }
    }

    /// Sets the message at the rest of its topic, and returns the one that it replaces. If memory is refused, nothing changes.
    #[cycle(set)]
    pub(crate) fn set(
        &mut self,
        alloc: Global,
        found: Found,
        at: usize,
        path: &mut IndexPath,
    ) -> Result<Option<Found>, AllocError>
        ensures done { OnOk result (self.new.spots ≡ insert_entry path_cmp self.old.spots (levels_from at found.topic) found) }
        ensures replaced { IfOk result (λ old. old ≡ found_at (levels_from at found.topic) self.old.spots) }
        ensures refused { OnErr result (self.new.spots ≡ self.old.spots) }
    {
        let Some((level, next)) = level_at(found.topic().as_bytes(), at) else {
            return Ok(mem::replace(&mut self.retained, Some(found)));
        };
        match index_along(self.children.as_slice(), level, path) {
            Ok(i) => {
                let old = self.children[i].set(alloc, found, at, next, path)?;
                if old.is_some() {
                    return Ok(old);
                }
                self.divide(alloc, i);
                Ok(old)
            }
            Err(i) => {
                let label = Label::from_topic(alloc, level, &found, at)?;
                let child = Child::new(alloc, label, found, next)?;
                insert_at(&mut self.children, i, child)?;
                Ok(None)
            }
        }
    }

    /// The same in place if the branch has one owner, and else in a copy.
    #[cycle(set)]
    pub fn set_in(
        this: &mut Arc<Branch>,
        alloc: Global,
        found: Found,
        at: usize,
        path: &mut IndexPath,
    ) -> Result<Option<Found>, AllocError>
        ensures done { OnOk result ((arc_value this.new).spots
            ≡ insert_entry path_cmp (arc_value this.old).spots (levels_from at found.topic) found) }
        ensures replaced { IfOk result (λ old. old ≡ found_at (levels_from at found.topic) (arc_value this.old).spots) }
        ensures refused { OnErr result ((arc_value this.new).spots ≡ (arc_value this.old).spots) }
    {
        if let Some(branch) = Arc::get_mut(this) {
            return branch.set(alloc, found, at, path);
        }
        let mut copy = this.copy(alloc)?;
        let old = copy.set(alloc, found, at, path)?;
        *this = Arc::new(alloc, copy)?;
        Ok(old)
    }
}
