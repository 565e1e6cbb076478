//! Puts the children of chunks in the place of the chunks.
//!
//! A chunk that a Clear or a Sweep leaves small is not merged with its neighbour. So chunks that are divided and cleared again and again
//! lie in one another without end, and each call walks through all of them. That is undone once they are more than full chunks need.

ghost use Rattle.std.specs.Prelude.{◌≡◌, ◌++◌, OnOk};
ghost use Rattle.rs_tree_branch.specs.Chunks.{IsChunk, IsFrom, IsUpTo, parts};
ghost use Rattle.rs_tree_bucket.specs.Spots.{IsFull};

use super::{Below, Branch, Child};
use std::alloc::{AllocError, Global};
use std::cmp::Ordering;

/// From so many chunks on that lie in one another below a branch with too many children, all of them are taken apart. More than 32
/// chunks of 16 chunks of 16 chunks of 16 children hold more than there may be topics.
const TALL: u32 = 3;

/// How many chunks lie in one another below some children, at most.
#[cycle(tallness)]
fn tallest(children: &[Child]) -> u32 {
    let mut most: u32 = 0;
    for child in children {
        most = most.max(child.tallness());
    }
    most
}

/// Appends some children of a chunk that begins at a level, without their chunks. An error if one of them is before that level, which
/// never is.
#[cycle(flat)]
fn flatten_each(children: &[Child], level: &[u8], flat: &mut Vec<Child>) -> Result<(), AllocError>
    requires children { IsChunk children.now }
    requires chunk { IsChunk flat.old.items }
    requires before { IsUpTo level.now (parts flat.old.items) }
    ensures chunk { OnOk result (IsChunk flat.new.items) }
    ensures same { OnOk result (parts flat.new.items ≡ parts flat.old.items ++ parts children.now) }
{
    for i in 0..children.len() {
        let child = &children[i];
        match child.level().cmp(level) {
            // Never: a chunk is in order.
            Ordering::Less => return Err(AllocError),
            _ => child.flatten_into(flat)?,
        }
    }
    Ok(())
}

impl Child {
    /// How many chunks lie in one another here, at most.
    #[cycle(tallness)]
    fn tallness(&self) -> u32 {
        match &self.below {
            Below::Few(_) => 0,
            Below::Inner(_) => 0,
            Below::Chunk(chunk) => chunk.tallness().saturating_add(1),
        }
    }

    /// Appends it, or its children if it is a chunk.
    #[cycle(flat)]
    fn flatten_into(&self, flat: &mut Vec<Child>) -> Result<(), AllocError>
        requires full { IsFull self.now.spots }
        requires from { IsFrom self.now.level self.now.spots }
        requires chunk { IsChunk flat.old.items }
        requires before { IsUpTo self.now.level (parts flat.old.items) }
        ensures chunk { OnOk result (IsChunk flat.new.items) }
        ensures same { OnOk result (parts flat.new.items ≡ parts flat.old.items ++ self.now.spots) }
    {
        if let Below::Chunk(chunk) = &self.below {
            return chunk.flatten_into(self.level(), flat);
        }
        flat.push(self.copy()?)?;
        Ok(())
    }
}

impl Branch {
    /// How many chunks lie in one another below it, at most.
    #[cycle(tallness)]
    fn tallness(&self) -> u32 {
        tallest(self.children.as_slice())
    }

    /// Chunks lie in one another below it that are not full.
    pub(crate) fn is_tall(&self) -> bool {
        self.tallness() >= TALL
    }

    /// Appends the children of a chunk, without their chunks. An error if it has a message of its own, which no chunk has.
    #[cycle(flat)]
    fn flatten_into(&self, level: &[u8], flat: &mut Vec<Child>) -> Result<(), AllocError>
        requires chunk { IsChunk flat.old.items }
        requires before { IsUpTo level.now (parts flat.old.items) }
        ensures chunk { OnOk result (IsChunk flat.new.items) }
        ensures same { OnOk result (parts flat.new.items ≡ parts flat.old.items ++ self.now.spots) }
    {
        if self.retained.is_some() {
            // Never: a chunk has no message of its own.
            return Err(AllocError);
        }
        flatten_each(self.children.as_slice(), level, flat)
    }

    /// Does without chunks. If memory is refused, they stay.
    pub(crate) fn flatten(&mut self, alloc: Global)
        ensures { self.new.spots ≡ self.old.spots }
    {
        let mut flat = Vec::new(alloc);
        if let Ok(()) = flatten_each(self.children.as_slice(), &[], &mut flat) {
            self.children = flat;
        }
    }
}
