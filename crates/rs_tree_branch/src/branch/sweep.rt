//! What a Sweep leaves of a branch. It is built beside the branch, only where a message goes, and shares all else.

ghost use Rattle.std.specs.Prelude.{◌≡◌, ◌+◌, ◌≤◌, ◌<◌, true, if◌then◌else◌, length, take, IfOk, OnOk};
ghost use Rattle.std.specs.List.{filter};
ghost use Rattle.rs_tree_bucket.specs.Spots.{IsFull, is_nothing};
ghost use Rattle.rs_tree_branch.specs.Spots.{own};
ghost use Rattle.rs_tree_bucket.specs.Sweeping.{spot_stays};
ghost use Rattle.rs_tree_branch.specs.Rests.{IsBranchRest, IsRest, IsRestOf};
ghost use Rattle.rs_tree_branch.specs.Chunks.{IsChunk, Notes};

use super::{Below, Branch, Child, Stem, copies};
use rs_message::Found;
use rs_store::is_expired;
use std::alloc::{AllocError, Global};
use std::sync::Arc;

/// What a Sweep leaves of a child.
#[derive(Drop)]
enum Rest {
    /// All of it: no message goes.
    All,
    /// Less.
    Less(Child),
    Nothing,
}

/// The message of one spot, unless it is expired, and notes if it goes.
fn sweep_retained(
    retained: &Option<Found>,
    moment: u64,
    goes: &mut bool,
) -> Result<Option<Found>, AllocError>
    ensures left { IfOk result (λ h. own h ≡ filter (spot_stays moment) (own retained.now)) }
    ensures noted { OnOk result (Notes moment (own retained.now) goes.old goes.new) }
{
    let Some(found) = retained else {
        return Ok(None);
    };
    if is_expired(found.message(), moment) {
        *goes = true;
        return Ok(None);
    }
    Ok(Some(found.copy()?))
}

/// Begins what is left of some children with the first of them, unless it is begun.
fn begin(
    alloc: Global,
    children: &[Child],
    i: usize,
    left: &mut Vec<Child>,
    goes: &mut bool,
) -> Result<(), AllocError>
    requires { i ≤ length children.now }
    ensures begun { goes.new ≡ true }
    ensures left { OnOk result (left.new.items ≡ if goes.old then left.old.items else take i children.now) }
{
    if *goes {
        return Ok(());
    }
    *goes = true;
    let (before, _) = children.split_at(i);
    *left = copies(alloc, before)?;
    Ok(())
}

/// Appends what is left of one of the children to what is left of those before it, which is begun once a message goes.
#[cycle(swept)]
fn sweep_one(
    alloc: Global,
    children: &[Child],
    i: usize,
    moment: u64,
    left: &mut Vec<Child>,
    goes: &mut bool,
) -> Result<(), AllocError>
    requires chunk { IsChunk children.now }
    requires within { i < length children.now }
    requires before { IsRestOf moment (take i children.now) goes.old left.old.items }
    ensures left { OnOk result (IsRestOf moment (take (i + 1) children.now) goes.new left.new.items) }
    ensures noted { goes.old ≡ true → goes.new ≡ true }
{
    let child = &children[i];
    match child.without_expired(alloc, moment)? {
        Rest::All => {
            if !*goes {
                return Ok(());
            }
            left.push(child.copy()?)?;
            Ok(())
        }
        Rest::Less(less) => {
            begin(alloc, children, i, left, goes)?;
            left.push(less)?;
            Ok(())
        }
        Rest::Nothing => begin(alloc, children, i, left, goes),
    }
}

/// What is left of the children. It notes if a message goes, and is empty if it has noted none.
#[cycle(swept)]
fn sweep_each(
    alloc: Global,
    children: &[Child],
    moment: u64,
    goes: &mut bool,
) -> Result<Vec<Child>, AllocError>
    requires { IsChunk children.now }
    ensures left { IfOk result (λ left. IsRestOf moment children.now goes.new left.items) }
    ensures noted { goes.old ≡ true → goes.new ≡ true }
{
    let mut left = Vec::new(alloc);
    for i in 0..children.len() {
        sweep_one(alloc, children, i, moment, &mut left, goes)?;
    }
    left.shrink_to_fit();
    Ok(left)
}

impl Child {
    /// What is left of it.
    #[cycle(swept)]
    fn without_expired(&self, alloc: Global, moment: u64) -> Result<Rest, AllocError>
        requires { IsFull self.now.spots }
        ensures { IfOk result (λ rest. IsRest moment self.now rest) }
    {
        match &self.below {
            Below::Few(bucket) => {
                if moment < bucket.earliest(u64::MAX) {
                    return Ok(Rest::All);
                }
                let Some(left) = bucket.without_expired(alloc, moment)? else {
                    return Ok(Rest::Nothing);
                };
                let level = self.level.copy()?;
                Ok(Rest::Less(Child {
                    level,
                    below: Below::Few(left),
                }))
            }
            Below::Inner(stem) => {
                let Some(branch) = stem.branch.without_expired(alloc, moment)? else {
                    return Ok(Rest::All);
                };
                if branch.is_empty() {
                    return Ok(Rest::Nothing);
                }
                let chain = Vec::from_slice(alloc, stem.chain.as_slice())?;
                let level = self.level.copy()?;
                let left = Arc::new(alloc, Stem { chain, branch })?;
                let mut child = Child {
                    level,
                    below: Below::Inner(left),
                };
                child.join(alloc);
                Ok(Rest::Less(child))
            }
            Below::Chunk(chunk) => {
                let Some(branch) = chunk.without_expired(alloc, moment)? else {
                    return Ok(Rest::All);
                };
                if branch.is_empty() {
                    return Ok(Rest::Nothing);
                }
                let level = self.level.copy()?;
                let below = Below::Chunk(Arc::new(alloc, branch)?);
                Ok(Rest::Less(Child { level, below }))
            }
        }
    }
}

impl Branch {
    fn is_empty(&self) -> bool
        ensures { result ≡ is_nothing self.now.spots }
    {
        if self.retained.is_some() {
            return false;
        }
        self.children.len() == 0
    }

    /// A branch of the messages that are not expired, or none if no message goes.
    #[cycle(swept)]
    pub fn without_expired(&self, alloc: Global, moment: u64) -> Result<Option<Branch>, AllocError>
        ensures { IfOk result (λ rest. IsBranchRest moment self.now.spots rest) }
    {
        let mut goes = false;
        let retained = sweep_retained(&self.retained, moment, &mut goes)?;
        let children = sweep_each(alloc, self.children.as_slice(), moment, &mut goes)?;
        if !goes {
            return Ok(None);
        }
        let mut left = Branch { retained, children };
        left.unfold(alloc);
        Ok(Some(left))
    }
}
