//! A message below a spot of the tree.

ghost use Rattle.std.specs.Prelude.{◌≡◌, false, [], ◌∷◌, ◌++◌, IfErr, IfOk, IsTrue, OnOk};
ghost use Rattle.rs_topic.specs.Order.{path_cmp};
ghost use Rattle.rs_tree_bucket.specs.Chosen.{chosen};
ghost use Rattle.rs_store.specs.Room.{IsStop};
ghost use Rattle.rs_topic.specs.Rests.{levels_from};
ghost use Rattle.rs_tree_bucket.specs.Spots.{spot_of};

use crate::chain::skip_chain;
use rs_message::Found;
use rs_store::{Answer, Stop, is_expired};
use rs_topic::{compare_rests, level_at, levels_fit};
use std::alloc::AllocError;
use std::cmp::Ordering;

/// A message below a spot, however many levels are left of its topic.
#[derive(Drop)]
pub struct Leaf {
    pub found: Found,
    /// The byte at which the rest of the topic begins.
    pub at: usize,
}

/// Appends a copy of a message if the filter fits the rest of its topic and it is not expired.
pub(crate) fn answer_one(
    found: &Found,
    from: usize,
    filter: &[u8],
    at: usize,
    now: u64,
    answer: &mut Answer,
) -> Result<(), Stop>
    ensures done { OnOk result (answer.new.found.items
        ≡ answer.old.found.items ++ chosen (levels_from at filter.now) now (spot_of from found.now ∷ [])) }
    ensures stop { IfErr result (λ stop.
        IsStop stop answer.old.room (answer.old.found.items ++ chosen (levels_from at filter.now) now (spot_of from found.now ∷ []))) }
    ensures room { answer.new.room ≡ answer.old.room }
{
    if !levels_fit(filter, at, found.topic().as_bytes(), from) || is_expired(found.message(), now) {
        return Ok(());
    }
    answer.push(found)
}

impl Leaf {
    /// Begins the rest of the topic before a chain and a level, if these stand there, and says whether they do.
    pub(crate) fn rise(&mut self, chain: &[u8], level: &[u8]) -> bool
        ensures same { self.new.found ≡ self.old.found }
        ensures done { IsTrue result → levels_from self.new.at self.old.found.topic
            ≡ levels_from 1 chain.now ++ level.now ∷ levels_from self.old.at self.old.found.topic }
        ensures unchanged { result ≡ false → self.new.at ≡ self.old.at }
    {
        let topic = self.found.topic().as_bytes();
        // A chain has a slash before each level, and a slash stands between the level and the rest.
        let above = self.at.saturating_sub(level.len()).saturating_sub(1);
        let at = above.saturating_sub(chain.len());
        let Some(next) = skip_chain(chain, topic, at) else {
            return false;
        };
        let Some((own, rest)) = level_at(topic, next) else {
            return false;
        };
        if own != level || rest != self.at {
            return false;
        }
        self.at = at;
        true
    }

    /// How the rest of another topic compares to the rest of its own.
    pub(crate) fn compare(&self, topic: &[u8], at: usize) -> Ordering
        ensures { result ≡ path_cmp (levels_from at topic.now) (levels_from self.now.at self.now.found.topic) }
    {
        compare_rests(topic, at, self.found.topic().as_bytes(), self.at)
    }

    /// An equal leaf, which shares the bytes.
    pub(crate) fn copy(&self) -> Result<Leaf, AllocError>
        ensures { IfOk result (λ l. l ≡ self.now) }
    {
        Ok(Leaf {
            found: self.found.copy()?,
            at: self.at,
        })
    }

    /// Appends a copy of the message if the filter fits the rest of its topic and it is not expired.
    pub(crate) fn answer(
        &self,
        filter: &[u8],
        at: usize,
        now: u64,
        answer: &mut Answer,
    ) -> Result<(), Stop>
        ensures done { OnOk result (answer.new.found.items
            ≡ answer.old.found.items ++ chosen (levels_from at filter.now) now (spot_of self.now.at self.now.found ∷ [])) }
        ensures stop { IfErr result (λ stop.
            IsStop stop answer.old.room (answer.old.found.items ++ chosen (levels_from at filter.now) now
            (spot_of self.now.at self.now.found ∷ []))) }
        ensures room { answer.new.room ≡ answer.old.room }
    {
        answer_one(&self.found, self.at, filter, at, now, answer)
    }
}
