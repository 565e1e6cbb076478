//! The retained messages as a tree of levels, whose nodes are shared.

ghost use Rattle.std.specs.Prelude.{◌≡◌, ◌<◌, ◌≤◌, false, [], List, ℕ, length, IfErr, IfOk, IsTrue, MatchResult, OnErr, OnOk};
ghost use Rattle.std.specs.Cmp.Lexicographic.{slice_cmp};
ghost use Rattle.std.specs.List.{insert};
ghost use Rattle.std.specs.Ordering.{nat_cmp};
ghost use Rattle.std.specs.declared.cmp.Ordering.TheVariants.{Less};
ghost use Rattle.rs_tree_branch.specs.Nodes.{depth_of, is_chunk, spots_of};
ghost use Rattle.rs_tree_branch.specs.Chunks.{IsChunk, IsEdge, IsGap, IsIn, IsNotBefore, Passes, Takes};

mod answers;
mod chunks;
mod clear;
mod count;
mod earliest;
mod expired;
mod flat;
mod join;
mod len;
mod lookup;
mod remains;
mod set;
mod sweep;
mod weighing;

use crate::index_path::IndexPath;
pub use remains::Remains;
use rs_message::Found;
use rs_tree_bucket::{Bucket, Label, Sought, copy_retained};
use std::alloc::{AllocError, Global};
use std::marker::Model;
use std::sync::Arc;

/// The messages below one node: the one of the node itself, and the others by their next level.
#[cycle(tree)]
#[derive(Drop)]
pub struct Branch {
    retained: Option<Found>,
    children: Vec<Child>,
}

/// The messages below one level of a branch, or below some levels that follow one another. The label is a part of a topic only if that
/// is the topic of the only message here.
#[cycle(tree)]
#[derive(Drop)]
pub struct Child {
    level: Label,
    below: Below,
}

/// The messages of a child.
#[cycle(tree)]
#[derive(Drop)]
pub enum Below {
    /// A few messages.
    Few(Bucket),
    /// More messages, or some that had more beside them.
    Inner(Arc<Stem>),
    /// The messages below some levels, from that of the child on.
    Chunk(Arc<Branch>),
}

/// A branch below a chain of levels that all of its messages share.
#[cycle(tree)]
#[derive(Drop)]
pub struct Stem {
    // The levels, a slash before each.
    chain: Vec<u8>,
    branch: Branch,
}

impl Model for Child {
    ghost use Rattle.rs_tree_branch.specs.Values.{ChildValue};

    ghost Value = { ChildValue };

    ghost use Rattle.rs_tree_branch.specs.Nodes.{depth_of, is_chunk, spots_of};

    ghost view = { λ c. record { level = c.level; is_chunk = is_chunk c.below; spots = spots_of c.level c.below; depth = depth_of c.below } };

    ghost size = { λ v. v.depth };

    ghost use Rattle.rs_tree_branch.specs.Depths.{below_falls};

    ghost size_decreases = { λ a h. below_falls a.below };
}

impl Model for Branch {
    ghost use Rattle.rs_tree_branch.specs.Values.{BranchValue};

    ghost Value = { BranchValue };

    ghost use Rattle.std.specs.Prelude.{◌++◌};
    ghost use Rattle.rs_tree_branch.specs.Spots.{own};
    ghost use Rattle.rs_tree_branch.specs.Chunks.{IsChunk, depth, parts};

    ghost view = { λ b. record { spots = own b.retained ++ parts b.children.items; depth = depth b.children.items } };

    ghost invariant = { λ b. IsChunk b.children.items };

    ghost size = { λ v. v.depth };

    ghost use Rattle.rs_tree_branch.specs.Heights.{children_fall};

    ghost size_decreases = { λ a h. children_fall a.children.items };
}

impl Branch {
    /// No messages.
    pub fn new(alloc: Global) -> Branch
        ensures { result.spots ≡ [] }
    {
        Branch {
            retained: None,
            children: Vec::new(alloc),
        }
    }
}

impl Below {
    /// One more owner of the same messages.
    fn copy(&self) -> Result<Below, AllocError>
        ensures chunk { IfOk result (λ b. is_chunk b ≡ is_chunk self.now) }
        ensures depth { IfOk result (λ b. depth_of b ≡ depth_of self.now) }
        ensures spots { (level : List ℕ) → IfOk result (λ b. spots_of level b ≡ spots_of level self.now) }
    {
        match self {
            Below::Few(bucket) => Ok(Below::Few(bucket.copy()?)),
            Below::Inner(stem) => Ok(Below::Inner(Arc::try_clone(stem)?)),
            Below::Chunk(chunk) => Ok(Below::Chunk(Arc::try_clone(chunk)?)),
        }
    }
}

impl Child {
    fn level(&self) -> &[u8]
        ensures { result.now ≡ self.now.level }
    {
        self.level.as_slice()
    }

    /// Its level is behind another one.
    fn is_behind(&self, level: &Sought<'_>) -> bool
        ensures yes { IsTrue result → slice_cmp nat_cmp level.now self.now.level ≡ Less }
        ensures no { result ≡ false → IsNotBefore level.now self.now }
    {
        level.is_before(&self.level)
    }

    /// What is below a level belongs to this child. If not, it is behind all that is here.
    fn takes(&self, level: &Sought<'_>) -> bool
        requires { IsNotBefore level.now self.now }
        ensures taken { IsTrue result → Takes level.now self.now }
        ensures passed { result ≡ false → Passes level.now self.now }
    {
        match &self.below {
            Below::Few(_) => level.is_same(&self.level),
            Below::Inner(_) => level.is_same(&self.level),
            Below::Chunk(_) => true,
        }
    }

    /// It is no chunk, and has this level.
    fn is_named(&self, level: &Sought<'_>) -> bool
        ensures taken { IsTrue result → Takes level.now self.now }
        ensures same { IsTrue result → level.now ≡ self.now.level }
    {
        match &self.below {
            Below::Few(_) => level.is_same(&self.level),
            Below::Inner(_) => level.is_same(&self.level),
            Below::Chunk(_) => false,
        }
    }

    /// One more owner of the same messages.
    fn copy(&self) -> Result<Child, AllocError>
        ensures { IfOk result (λ c. c ≡ self.now) }
    {
        Ok(Child {
            level: self.level.copy()?,
            below: self.below.copy()?,
        })
    }
}

/// One more owner of the messages of each child.
fn copies(alloc: Global, children: &[Child]) -> Result<Vec<Child>, AllocError>
    ensures { IfOk result (λ copies. copies.items ≡ children.now) }
{
    let mut copies = Vec::with_capacity(alloc, children.len())?;
    for child in children {
        copies.push(child.copy()?)?;
    }
    Ok(copies)
}

impl Branch {
    /// An equal branch, which shares what is below its children.
    pub(crate) fn copy(&self, alloc: Global) -> Result<Branch, AllocError>
        ensures { IfOk result (λ b. b ≡ self.now) }
    {
        Ok(Branch {
            retained: copy_retained(&self.retained)?,
            children: copies(alloc, self.children.as_slice())?,
        })
    }
}

/// Puts a child at an index. If memory is refused, nothing changes.
fn insert_at(children: &mut Vec<Child>, i: usize, child: Child) -> Result<(), AllocError>
    requires { i ≤ length children.old.items }
    ensures done { OnOk result (children.new.items ≡ insert children.old.items i child) }
    ensures refused { OnErr result (children.new.items ≡ children.old.items) }
{
    children.reserve_exact(1)?;
    children.insert(i, child)?;
    Ok(())
}

/// The index of the first child whose level is behind a level.
fn first_behind(children: &[Child], level: &Sought<'_>) -> usize
    ensures edge { IsEdge (IsNotBefore level.now) level.now children.now result }
    ensures small { result ≤ length children.now }
{
    let (mut low, mut high) = (0, children.len());
    while low < high {
        let middle = low + (high - low) / 2;
        if children[middle].is_behind(level) {
            high = middle;
        } else {
            low = middle + 1;
        }
    }
    low
}

/// The index of the child that a level belongs to, or else the index where it would stand.
fn find(children: &[Child], level: &Sought<'_>) -> Result<usize, usize>
    ensures found { MatchResult result (λ i. IsIn level.now children.now i) (λ i. IsGap level.now children.now i) }
    ensures within { IfOk result (λ i. i < length children.now) }
    ensures up_to { IfErr result (λ i. i ≤ length children.now) }
{
    let i = first_behind(children, level);
    if i == 0 {
        return Err(0);
    }
    if children[i - 1].takes(level) {
        Ok(i - 1)
    } else {
        Err(i)
    }
}

/// The same of a level that is looked for once.
fn index_of(children: &[Child], level: &[u8]) -> Result<usize, usize>
    ensures found { MatchResult result (λ i. IsIn level.now children.now i) (λ i. IsGap level.now children.now i) }
    ensures within { IfOk result (λ i. i < length children.now) }
    ensures up_to { IfErr result (λ i. i ≤ length children.now) }
{
    find(children, &Sought::new(level))
}

/// There is a child at the index, and the level belongs to it.
fn is_at(children: &[Child], level: &Sought<'_>, i: usize) -> bool
    requires { IsChunk children.now }
    ensures found { IsTrue result → IsIn level.now children.now i }
    ensures within { IsTrue result → i < length children.now }
{
    if i >= children.len() {
        return false;
    }
    if children[i].is_named(level) {
        return true;
    }
    if children[i].is_behind(level) || !children[i].takes(level) {
        return false;
    }
    i + 1 == children.len() || children[i + 1].is_behind(level)
}

/// The index of the child that a level belongs to, which the path may know and notes, or else the index where it would stand.
fn index_along(children: &[Child], level: &[u8], path: &mut IndexPath) -> Result<usize, usize>
    requires { IsChunk children.now }
    ensures found { MatchResult result (λ i. IsIn level.now children.now i) (λ i. IsGap level.now children.now i) }
    ensures within { IfOk result (λ i. i < length children.now) }
    ensures up_to { IfErr result (λ i. i ≤ length children.now) }
{
    let sought = Sought::new(level);
    if let Some(i) = path.hint() {
        if is_at(children, &sought, i) {
            path.note(i);
            return Ok(i);
        }
    }
    let found = find(children, &sought);
    if let Ok(i) = found {
        path.note(i);
    }
    found
}
