//! Chunks of children, of which none has too many.

ghost use Rattle.std.specs.Prelude.{◌≡◌, ◌+◌, ◌∷◌, [], ◌<◌, false, length, slice_set, IfOk, IfSome, IsTrue};
ghost use Rattle.std.specs.List.{insert};
ghost use Rattle.rs_tree_bucket.specs.Spots.{IsFull, spot_of, under};
ghost use Rattle.rs_tree_branch.specs.Nodes.{stem_spots};
ghost use Rattle.rs_tree_branch.specs.Chunks.{AreHalves, IsChunk, IsFrom, parts};

use super::{Below, Branch, Child, Stem, copies, insert_at};
use rs_message::Found;
use rs_tree_bucket::{Bucket, Label};
use std::alloc::{AllocError, Global};
use std::sync::Arc;

/// The most children of a branch. Two chunks of half as many take the place of more.
const MOST: usize = 32;

/// A branch of one child, which is a stem.
pub fn branch_of_stem(alloc: Global, level: Label, stem: Stem) -> Result<Branch, AllocError>
    requires { IsFull (stem_spots stem) }
    ensures { IfOk result (λ b. b.spots ≡ under level (stem_spots stem)) }
{
    let mut children = Vec::with_capacity(alloc, 1)?;
    children.push(Child {
        level,
        below: Below::Inner(Arc::new(alloc, stem)?),
    })?;
    Ok(Branch {
        retained: None,
        children,
    })
}

/// Two chunks of some children: a half in each. The first one begins at a level.
fn halve(alloc: Global, level: Label, children: &[Child]) -> Result<(Child, Child), AllocError>
    requires chunk { IsChunk children.now }
    requires start { IsFrom level (parts children.now) }
    requires many { 16 < length children.now }
    ensures { IfOk result (λ r. AreHalves level (parts children.now) r.0 r.1) }
{
    let half = children.len() / 2;
    let (low, high) = children.split_at(half);
    let first = &high[0];
    let middle = first.level.copy_detached(alloc)?;
    Ok((
        Child::chunk(alloc, level, low)?,
        Child::chunk(alloc, middle, high)?,
    ))
}

impl Child {
    /// One message below a level.
    pub fn new(alloc: Global, level: Label, found: Found, at: usize) -> Result<Child, AllocError>
        ensures level { IfOk result (λ c. c.level ≡ level) }
        ensures spots { IfOk result (λ c. c.spots ≡ under level (spot_of at found ∷ [])) }
    {
        Ok(Child {
            level,
            below: Below::Few(Bucket::new(alloc, found, at)?),
        })
    }

    /// A chunk of some children, which begins at a level.
    fn chunk(alloc: Global, level: Label, children: &[Child]) -> Result<Child, AllocError>
        requires { IsChunk children.now }
        ensures level { IfOk result (λ c. c.level ≡ level) }
        ensures spots { IfOk result (λ c. c.spots ≡ parts children.now) }
    {
        let branch = Branch {
            retained: None,
            children: copies(alloc, children)?,
        };
        Ok(Child {
            level,
            below: Below::Chunk(Arc::new(alloc, branch)?),
        })
    }

    /// It is a chunk that has too many children.
    fn is_overfull(&self) -> bool {
        match &self.below {
            Below::Few(_) => false,
            Below::Inner(_) => false,
            Below::Chunk(chunk) => chunk.children.len() > MOST,
        }
    }

    /// The halves of a chunk, if it has too many children.
    fn halves_if_overfull(&self, alloc: Global) -> Result<Option<(Child, Child)>, AllocError>
        requires { IsFrom self.now.level self.now.spots }
        ensures { IfOk result (λ o. IfSome o (λ r. AreHalves self.now.level self.now.spots r.0 r.1)) }
    {
        match &self.below {
            Below::Few(_) => Ok(None),
            Below::Inner(_) => Ok(None),
            Below::Chunk(chunk) => chunk.halves_if_overfull(alloc, &self.level),
        }
    }
}

/// Puts two children in the place of one, and says whether there was memory. If not, nothing changes.
fn put_two(children: &mut Vec<Child>, i: usize, low: Child, high: Child) -> bool
    requires { i < length children.old.items }
    ensures done { IsTrue result → children.new.items ≡ slice_set (insert children.old.items (i + 1) high) i low }
    ensures unchanged { result ≡ false → children.new.items ≡ children.old.items }
{
    let Ok(()) = insert_at(children, i + 1, high) else {
        return false;
    };
    children[i] = low;
    true
}

impl Branch {
    /// Two chunks of its children, if these are too many. The first one begins at a level.
    fn halves_if_overfull(
        &self,
        alloc: Global,
        level: &Label,
    ) -> Result<Option<(Child, Child)>, AllocError>
        requires { IsFrom level.now self.now.spots }
        ensures { IfOk result (λ o. IfSome o (λ r. AreHalves level.now self.now.spots r.0 r.1)) }
    {
        if self.retained.is_some() || self.children.len() <= MOST {
            return Ok(None);
        }
        let pair = halve(alloc, level.copy()?, self.children.as_slice())?;
        Ok(Some(pair))
    }

    /// Puts two chunks in the place of the chunk at an index, if that has too many children. If memory is refused, it stays, and the
    /// next entry that adds or clears a message there tries again.
    pub(crate) fn divide(&mut self, alloc: Global, i: usize)
        ensures { self.new.spots ≡ self.old.spots }
    {
        if i >= self.children.len() || !self.children[i].is_overfull() {
            return;
        }
        let Ok(Some((low, high))) = self.children[i].halves_if_overfull(alloc) else {
            return;
        };
        put_two(&mut self.children, i, low, high);
    }

    /// Puts two chunks in the place of the children, if these are too many, or none if there are chunks enough. The next entry that
    /// adds or clears a message there divides what is left of too many children, and tries again if memory is refused.
    pub fn fold(&mut self, alloc: Global)
        ensures { self.new.spots ≡ self.old.spots }
    {
        if self.children.len() <= MOST {
            return;
        }
        if self.is_tall() {
            self.flatten(alloc);
            return;
        }
        if let Ok(chunks) = two_chunks(alloc, self.children.as_slice()) {
            self.children = chunks;
        }
    }
}

/// A chunk of two chunks, a half of some children in each.
fn two_chunks(alloc: Global, children: &[Child]) -> Result<Vec<Child>, AllocError>
    requires chunk { IsChunk children.now }
    requires many { 16 < length children.now }
    ensures chunk { IfOk result (λ chunks. IsChunk chunks.items) }
    ensures same { IfOk result (λ chunks. parts chunks.items ≡ parts children.now) }
{
    let mut chunks = Vec::with_capacity(alloc, 2)?;
    let (low, high) = halve(alloc, Label::empty(), children)?;
    chunks.push(low)?;
    chunks.push(high)?;
    Ok(chunks)
}
