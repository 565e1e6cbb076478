//! Counts the messages that are expired.

ghost use Rattle.std.specs.Prelude.{◌≡◌, ◌+◌, ◌≤◌, length};
ghost use Rattle.std.specs.List.{filter};
ghost use Rattle.rs_tree_branch.specs.Spots.{own};
ghost use Rattle.rs_tree_bucket.specs.Sweeping.{is_expired_spot};
ghost use Rattle.rs_store.specs.declared.limit.TheConstants.{MAX_TOPICS};
ghost use Rattle.rs_tree_branch.specs.Chunks.{parts};

use super::{Below, Branch, Child};
use rs_message::Found;
use rs_store::is_expired;

/// Counts the message of one spot, if it is expired.
fn count_retained(retained: &Option<Found>, now: u64, count: &mut u32)
    ensures { count.old + length (own retained.now) ≤ MAX_TOPICS
        → count.new ≡ count.old + length (filter (is_expired_spot now) (own retained.now)) }
{
    if let Some(found) = retained {
        if is_expired(found.message(), now) {
            *count = count.saturating_add(1);
        }
    }
}

/// Adds how many messages of the children are expired.
#[cycle(expired)]
fn count_each(children: &[Child], now: u64, count: &mut u32)
    ensures { count.old + length (parts children.now) ≤ MAX_TOPICS
        → count.new ≡ count.old + length (filter (is_expired_spot now) (parts children.now)) }
{
    for child in children {
        child.count_expired(now, count);
    }
}

impl Child {
    /// Adds how many of its messages are expired.
    #[cycle(expired)]
    fn count_expired(&self, now: u64, count: &mut u32)
        ensures { count.old + length self.now.spots ≤ MAX_TOPICS
            → count.new ≡ count.old + length (filter (is_expired_spot now) self.now.spots) }
    {
        match &self.below {
            Below::Few(bucket) => bucket.count_expired(now, count),
            Below::Inner(stem) => stem.branch.count_expired(now, count),
            Below::Chunk(chunk) => chunk.count_expired(now, count),
        }
    }
}

impl Branch {
    /// Adds how many of its messages are expired.
    #[cycle(expired)]
    pub fn count_expired(&self, now: u64, count: &mut u32)
        ensures { count.old + length self.now.spots ≤ MAX_TOPICS
            → count.new ≡ count.old + length (filter (is_expired_spot now) self.now.spots) }
    {
        count_retained(&self.retained, now, count);
        count_each(self.children.as_slice(), now, count);
    }
}
