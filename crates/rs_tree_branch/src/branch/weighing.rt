//! Counts the bytes of the messages.

ghost use Rattle.std.specs.Prelude.{◌≡◌, ◌+◌, ◌<◌, ◌^◌};
ghost use Rattle.rs_tree_branch.specs.Spots.{own};
ghost use Rattle.rs_tree_bucket.specs.Weights.{weight};
ghost use Rattle.rs_tree_branch.specs.Chunks.{parts};

use super::{Below, Branch, Child};
use rs_message::Found;
use rs_store::bytes_of;

/// Adds how many bytes the message of one spot counts.
fn add_retained(retained: &Option<Found>, bytes: &mut u64)
    ensures { bytes.old + weight (own retained.now) < 2 ^ 64 → bytes.new ≡ bytes.old + weight (own retained.now) }
{
    if let Some(found) = retained {
        *bytes = bytes.saturating_add(bytes_of(found.topic(), found.message()));
    }
}

/// Adds how many bytes the messages of the children count.
#[cycle(weighing)]
fn add_each(children: &[Child], bytes: &mut u64)
    ensures { bytes.old + weight (parts children.now) < 2 ^ 64 → bytes.new ≡ bytes.old + weight (parts children.now) }
{
    for child in children {
        child.add_bytes(bytes);
    }
}

impl Child {
    /// Adds how many bytes its messages count.
    #[cycle(weighing)]
    fn add_bytes(&self, bytes: &mut u64)
        ensures { bytes.old + weight self.now.spots < 2 ^ 64 → bytes.new ≡ bytes.old + weight self.now.spots }
    {
        match &self.below {
            Below::Few(bucket) => bucket.add_bytes(bytes),
            Below::Inner(stem) => stem.branch.add_bytes(bytes),
            Below::Chunk(chunk) => chunk.add_bytes(bytes),
        }
    }
}

impl Branch {
    /// Adds how many bytes its messages count.
    #[cycle(weighing)]
    pub fn add_bytes(&self, bytes: &mut u64)
        ensures { bytes.old + weight self.now.spots < 2 ^ 64 → bytes.new ≡ bytes.old + weight self.now.spots }
    {
        add_retained(&self.retained, bytes);
        add_each(self.children.as_slice(), bytes);
    }
}
