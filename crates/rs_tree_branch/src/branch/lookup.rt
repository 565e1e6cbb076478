//! The message at a topic.

ghost use Rattle.std.specs.Prelude.{◌≡◌};
ghost use Rattle.std.specs.Option.{option_copied};
ghost use Rattle.rs_topic.specs.Rests.{levels_from};
ghost use Rattle.rs_tree_bucket.specs.Spots.{found_at};
ghost use Rattle.rs_tree_branch.specs.Nodes.{stem_spots};
ghost use Rattle.rs_tree_branch.specs.Chunks.{Leads};

use super::{Below, Branch, Child, Stem, index_of};
use rs_message::Found;
use rs_topic::level_at;
use rs_tree_bucket::skip_chain;

impl Stem {
    /// The message at this rest of a topic, if there is one.
    #[cycle(find)]
    fn find(&self, topic: &[u8], at: usize) -> Option<&Found>
        ensures { option_copied result ≡ found_at (levels_from at topic.now) (stem_spots self.now) }
    {
        match skip_chain(self.chain.as_slice(), topic, at) {
            Some(next) => self.branch.find(topic, next),
            None => None,
        }
    }
}

impl Child {
    /// The message at this rest of a topic, of which the first level ends before `next`, if there is one.
    #[cycle(find)]
    fn find(&self, topic: &[u8], at: usize, next: usize) -> Option<&Found>
        requires { Leads self.now (levels_from at topic.now) (levels_from next topic.now) }
        ensures { option_copied result ≡ found_at (levels_from at topic.now) self.now.spots }
    {
        match &self.below {
            Below::Few(bucket) => bucket.find(topic, next),
            Below::Inner(stem) => stem.find(topic, next),
            Below::Chunk(chunk) => chunk.find(topic, at),
        }
    }
}

impl Branch {
    /// The message at this rest of a topic, if there is one.
    #[cycle(find)]
    pub fn find(&self, topic: &[u8], at: usize) -> Option<&Found>
        ensures { option_copied result ≡ found_at (levels_from at topic.now) self.now.spots }
    {
        let Some((level, next)) = level_at(topic, at) else {
            return self.retained.as_ref();
        };
        match index_of(self.children.as_slice(), level) {
            Ok(i) => self.children[i].find(topic, at, next),
            Err(_) => None,
        }
    }
}
