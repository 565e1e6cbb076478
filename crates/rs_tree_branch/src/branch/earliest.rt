//! The first moment at which a message of a branch is expired.

ghost use Rattle.std.specs.Prelude.{◌≡◌};
ghost use Rattle.rs_tree_bucket.specs.Expiring.{earliest};
ghost use Rattle.rs_tree_branch.specs.Spots.{own};
ghost use Rattle.rs_tree_branch.specs.Chunks.{parts};

use super::{Below, Branch, Child};
use rs_message::Found;
use rs_store::earliest_end;

/// A bound, or the first moment at which the message of one spot is expired if that is earlier.
fn earliest_of_retained(retained: &Option<Found>, bound: u64) -> u64
    ensures { result ≡ earliest bound (own retained.now) }
{
    match retained {
        Some(found) => earliest_end(bound, found.message()),
        None => bound,
    }
}

/// A bound, or the first moment at which a message of one of the children is expired if that is earlier.
#[cycle(earliest)]
fn earliest_of_each(children: &[Child], bound: u64) -> u64
    ensures { result ≡ earliest bound (parts children.now) }
{
    let mut least = bound;
    for child in children {
        least = child.earliest(least);
    }
    least
}

impl Child {
    /// A bound, or the first moment at which one of its messages is expired if that is earlier.
    #[cycle(earliest)]
    pub fn earliest(&self, bound: u64) -> u64
        ensures { result ≡ earliest bound self.now.spots }
    {
        match &self.below {
            Below::Few(bucket) => bucket.earliest(bound),
            Below::Inner(stem) => stem.branch.earliest(bound),
            Below::Chunk(chunk) => chunk.earliest(bound),
        }
    }
}

impl Branch {
    /// A bound, or the first moment at which one of its messages is expired if that is earlier.
    #[cycle(earliest)]
    pub fn earliest(&self, bound: u64) -> u64
        ensures { result ≡ earliest bound self.now.spots }
    {
        let least = earliest_of_retained(&self.retained, bound);
        earliest_of_each(self.children.as_slice(), least)
    }
}
