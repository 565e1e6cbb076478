//! Does without a branch that is left with one child and no message, or with one message and no child.
//!
//! Nothing here has to be done: if memory is refused, the branch stays, and the next Clear that goes through it tries again.

ghost use Rattle.std.specs.Prelude.{◌≡◌, ◌∷◌, [], IfOk, IfSome};
ghost use Rattle.rs_topic.specs.Topics.{levels};
ghost use Rattle.rs_tree_bucket.specs.Chains.{under_all};
ghost use Rattle.rs_topic.specs.Rests.{levels_from};
ghost use Rattle.rs_tree_bucket.specs.Spots.{under};
ghost use Rattle.rs_tree_branch.specs.Nodes.{stem_spots};
ghost use Rattle.rs_tree_branch.specs.Chunks.{IsChunk, parts};

use super::{Below, Branch, Child, Stem, copies};
use rs_message::Found;
use rs_topic::{is_level, level_at};
use rs_tree_bucket::{Label, join_chains, skip_chain};
use std::alloc::{AllocError, Global};
use std::sync::Arc;

/// A message below a level, if the chain is the rest of its topic.
fn child_of_message(
    alloc: Global,
    level: &Label,
    chain: &[u8],
    found: &Found,
) -> Result<Option<Child>, AllocError>
    ensures level { IfOk result (λ o. IfSome o (λ c. c.level ≡ level.now)) }
    ensures spots { IfOk result (λ o.
        IfSome o (λ c. c.spots ≡ under level.now (under_all (levels_from 1 chain.now) (([], found.now) ∷ [])))) }
{
    let topic = found.topic().as_bytes();
    // A chain has a slash before each level.
    let at = topic.len().saturating_add(1).saturating_sub(chain.len());
    let Some(next) = skip_chain(chain, topic, at) else {
        return Ok(None);
    };
    let None = level_at(topic, next) else {
        return Ok(None);
    };
    let child = Child::new(alloc, level.copy()?, found.copy()?, at)?;
    Ok(Some(child))
}

impl Stem {
    /// The same below a chain and a level.
    fn copy_prefixed(&self, alloc: Global, chain: &[u8], level: &[u8]) -> Result<Stem, AllocError>
        requires { levels level.now ≡ level.now ∷ [] }
        ensures { IfOk result (λ s. stem_spots s ≡ under_all (levels_from 1 chain.now) (under level.now (stem_spots self.now))) }
    {
        Ok(Stem {
            chain: join_chains(alloc, chain, level, self.chain.as_slice())?,
            branch: self.branch.copy(alloc)?,
        })
    }

    /// What takes the place of a stem below a level, if it has one child and no message, or one message and no child.
    fn replacement(&self, alloc: Global, level: &Label) -> Result<Option<Child>, AllocError>
        ensures level { IfOk result (λ o. IfSome o (λ c. c.level ≡ level.now)) }
        ensures spots { IfOk result (λ o. IfSome o (λ c. c.spots ≡ under level.now (stem_spots self.now))) }
    {
        let chain = self.chain.as_slice();
        let children = self.branch.children.as_slice();
        match &self.branch.retained {
            Some(found) => {
                if !children.is_empty() {
                    return Ok(None);
                }
                child_of_message(alloc, level, chain, found)
            }
            None => {
                if children.len() != 1 {
                    return Ok(None);
                }
                children[0].copy_prefixed(alloc, level, chain)
            }
        }
    }
}

impl Child {
    /// The same below a level and a chain, unless it is a chunk.
    fn copy_prefixed(
        &self,
        alloc: Global,
        level: &Label,
        chain: &[u8],
    ) -> Result<Option<Child>, AllocError>
        ensures level { IfOk result (λ o. IfSome o (λ c. c.level ≡ level.now)) }
        ensures spots { IfOk result (λ o. IfSome o (λ c. c.spots ≡ under level.now (under_all (levels_from 1 chain.now) self.now.spots))) }
    {
        let own = self.level.as_slice();
        let below = match &self.below {
            Below::Few(bucket) => match bucket.copy_prefixed(alloc, chain, own)? {
                Some(higher) => Below::Few(higher),
                None => return Ok(None),
            },
            Below::Inner(stem) => {
                if !is_level(own) {
                    return Ok(None);
                }
                let higher = stem.copy_prefixed(alloc, chain, own)?;
                Below::Inner(Arc::new(alloc, higher)?)
            }
            Below::Chunk(_) => return Ok(None),
        };
        let level = level.copy()?;
        Ok(Some(Child { level, below }))
    }

    /// Puts the only child of a branch without a message, or the only message of a branch without a child, in the place of the branch.
    pub fn join(&mut self, alloc: Global)
        ensures level { self.new.level ≡ self.old.level }
        ensures same { self.new.spots ≡ self.old.spots }
    {
        let Below::Inner(stem) = &self.below else {
            return;
        };
        if let Ok(Some(child)) = stem.replacement(alloc, &self.level) {
            *self = child;
        }
    }

    /// The children of a chunk.
    fn chunk_children(&self, alloc: Global) -> Result<Option<Vec<Child>>, AllocError>
        ensures chunk { IfOk result (λ o. IfSome o (λ cs. IsChunk cs.items)) }
        ensures same { IfOk result (λ o. IfSome o (λ cs. parts cs.items ≡ self.now.spots)) }
    {
        let Below::Chunk(chunk) = &self.below else {
            return Ok(None);
        };
        chunk.without_retained(alloc)
    }
}

impl Branch {
    /// Its children, if it has no message of its own.
    fn without_retained(&self, alloc: Global) -> Result<Option<Vec<Child>>, AllocError>
        ensures chunk { IfOk result (λ o. IfSome o (λ cs. IsChunk cs.items)) }
        ensures same { IfOk result (λ o. IfSome o (λ cs. parts cs.items ≡ self.now.spots)) }
    {
        if self.retained.is_some() {
            return Ok(None);
        }
        let children = copies(alloc, self.children.as_slice())?;
        Ok(Some(children))
    }

    /// Puts the children of a chunk in its place, if there is no other child.
    pub(crate) fn unfold(&mut self, alloc: Global)
        ensures { self.new.spots ≡ self.old.spots }
    {
        if self.children.len() != 1 {
            return;
        }
        if let Ok(Some(children)) = self.children[0].chunk_children(alloc) {
            self.children = children;
        }
    }
}
