//! The number of messages.

ghost use Rattle.std.specs.Prelude.{◌≡◌, ◌≤◌, length};
ghost use Rattle.rs_tree_branch.specs.Spots.{own};
ghost use Rattle.rs_store.specs.declared.limit.TheConstants.{MAX_TOPICS};
ghost use Rattle.rs_tree_branch.specs.Chunks.{parts};

use super::{Below, Branch, Child};
use rs_message::Found;

/// The number of messages of one spot.
fn retained_len(retained: &Option<Found>) -> usize
    ensures { result ≡ length (own retained.now) }
{
    match retained {
        Some(_) => 1,
        None => 0,
    }
}

/// The number of messages of the children. No message is looked at.
#[cycle(len)]
fn len_of_each(children: &[Child]) -> usize
    ensures { length (parts children.now) ≤ MAX_TOPICS → result ≡ length (parts children.now) }
{
    let mut count: usize = 0;
    for child in children {
        count = count.saturating_add(child.len());
    }
    count
}

impl Child {
    /// The number of its messages.
    #[cycle(len)]
    fn len(&self) -> usize
        ensures { length self.now.spots ≤ MAX_TOPICS → result ≡ length self.now.spots }
    {
        match &self.below {
            Below::Few(bucket) => bucket.len(),
            Below::Inner(stem) => stem.branch.len(),
            Below::Chunk(chunk) => chunk.len(),
        }
    }
}

impl Branch {
    /// The number of its messages.
    #[cycle(len)]
    pub fn len(&self) -> usize
        ensures { length self.now.spots ≤ MAX_TOPICS → result ≡ length self.now.spots }
    {
        let own = retained_len(&self.retained);
        own.saturating_add(len_of_each(self.children.as_slice()))
    }
}
