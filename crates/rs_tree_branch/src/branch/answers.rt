//! What a branch answers: copies of the messages that a filter fits, in the order of replay.

ghost use Rattle.std.specs.Prelude.{◌≡◌};
ghost use Rattle.rs_tree_bucket.specs.Chosen.{chosen, chosen_by};
ghost use Rattle.rs_tree_branch.specs.Chosen.{chosen_at_root, is_plain_below};
ghost use Rattle.rs_topic.specs.Rests.{levels_from};
ghost use Rattle.rs_tree_branch.specs.Answers.{Enters, Steps};
ghost use Rattle.rs_tree_bucket.specs.Answers.{Gives};
ghost use Rattle.rs_tree_branch.specs.Nodes.{stem_spots};
ghost use Rattle.rs_tree_branch.specs.Chunks.{parts};

use super::{Below, Branch, Child, Stem, index_of};
use rs_store::{Answer, Stop};
use rs_topic::{begins_with_dollar, is_all_below, is_plus, level_at};
use rs_tree_bucket::{answer_retained, match_chain};

/// Appends what the filter fits below each child, of which the first level ends before `next` in the filter.
#[cycle(answer)]
fn answer_each(
    children: &[Child],
    filter: &[u8],
    at: usize,
    next: usize,
    now: u64,
    answer: &mut Answer,
) -> Result<(), Stop>
    requires { Steps (levels_from at filter.now) (levels_from next filter.now) }
    ensures { Gives result answer.old answer.new (chosen (levels_from at filter.now) now (parts children.now)) }
{
    for child in children {
        match child.answer(filter, at, next, now, answer) {
            Ok(()) => {}
            Err(stop) => return Err(stop),
        }
    }
    Ok(())
}

/// The same, but for the levels that begin with a dollar.
#[cycle(answer_plain)]
fn answer_plain(
    children: &[Child],
    filter: &[u8],
    at: usize,
    next: usize,
    now: u64,
    answer: &mut Answer,
) -> Result<(), Stop>
    requires { Steps (levels_from at filter.now) (levels_from next filter.now) }
    ensures { Gives result answer.old answer.new (chosen_by (is_plain_below (levels_from next filter.now)) now (parts children.now)) }
{
    for child in children {
        match child.answer_plain(filter, at, next, now, answer) {
            Ok(()) => {}
            Err(stop) => return Err(stop),
        }
    }
    Ok(())
}

impl Child {
    /// Appends copies of the messages that the filter fits and that are not expired. The filter's first level ends before `next`.
    #[cycle(answer)]
    fn answer(
        &self,
        filter: &[u8],
        at: usize,
        next: usize,
        now: u64,
        answer: &mut Answer,
    ) -> Result<(), Stop>
        requires { Enters self.now (levels_from at filter.now) (levels_from next filter.now) }
        ensures { Gives result answer.old answer.new (chosen (levels_from at filter.now) now self.now.spots) }
    {
        match &self.below {
            Below::Few(bucket) => bucket.answer(filter, next, now, answer),
            Below::Inner(stem) => stem.answer(filter, next, now, answer),
            Below::Chunk(chunk) => chunk.answer(filter, at, now, answer),
        }
    }

    /// The same, but for the levels that begin with a dollar.
    #[cycle(answer_plain)]
    fn answer_plain(
        &self,
        filter: &[u8],
        at: usize,
        next: usize,
        now: u64,
        answer: &mut Answer,
    ) -> Result<(), Stop>
        requires { Steps (levels_from at filter.now) (levels_from next filter.now) }
        ensures { Gives result answer.old answer.new (chosen_by (is_plain_below (levels_from next filter.now)) now self.now.spots) }
    {
        if let Below::Chunk(chunk) = &self.below {
            return chunk.answer_plain(filter, at, next, now, answer);
        }
        if begins_with_dollar(self.level.as_slice()) {
            return Ok(());
        }
        self.answer(filter, at, next, now, answer)
    }
}

impl Stem {
    /// Appends copies of the messages that the filter fits and that are not expired.
    #[cycle(answer)]
    fn answer(&self, filter: &[u8], at: usize, now: u64, answer: &mut Answer) -> Result<(), Stop>
        ensures { Gives result answer.old answer.new (chosen (levels_from at filter.now) now (stem_spots self.now)) }
    {
        match match_chain(self.chain.as_slice(), filter, at) {
            Some(next) => self.branch.answer(filter, next, now, answer),
            None => Ok(()),
        }
    }
}

impl Branch {
    /// Appends copies of the messages that the filter fits and that are not expired.
    #[cycle(answer)]
    fn answer(&self, filter: &[u8], at: usize, now: u64, answer: &mut Answer) -> Result<(), Stop>
        ensures { Gives result answer.old answer.new (chosen (levels_from at filter.now) now self.now.spots) }
    {
        let Some((level, next)) = level_at(filter, at) else {
            return answer_retained(&self.retained, now, answer);
        };
        if is_all_below(level, filter, next) {
            // Not `?`, whose conversion of the fault would have to be proved, too.
            if let Err(stop) = answer_retained(&self.retained, now, answer) {
                return Err(stop);
            }
            return answer_each(self.children.as_slice(), filter, at, at, now, answer);
        }
        if is_plus(level) {
            return answer_each(self.children.as_slice(), filter, at, next, now, answer);
        }
        match index_of(self.children.as_slice(), level) {
            Ok(i) => self.children[i].answer(filter, at, next, now, answer),
            Err(_) => Ok(()),
        }
    }

    /// The same below the levels that do not begin with a dollar. Leaves out the message of the branch itself.
    #[cycle(answer_plain)]
    fn answer_plain(
        &self,
        filter: &[u8],
        at: usize,
        next: usize,
        now: u64,
        answer: &mut Answer,
    ) -> Result<(), Stop>
        requires { Steps (levels_from at filter.now) (levels_from next filter.now) }
        ensures { Gives result answer.old answer.new (chosen_by (is_plain_below (levels_from next filter.now)) now self.now.spots) }
    {
        answer_plain(self.children.as_slice(), filter, at, next, now, answer)
    }

    /// Appends copies of the messages that a whole filter fits: a wildcard in its first level leaves out topics that begin with a
    /// dollar (4.7.2).
    pub fn answer_at_root(&self, filter: &[u8], now: u64, answer: &mut Answer) -> Result<(), Stop>
        ensures { Gives result answer.old answer.new (chosen_at_root (levels_from 0 filter.now) now self.now.spots) }
    {
        let Some((level, next)) = level_at(filter, 0) else {
            return answer_retained(&self.retained, now, answer);
        };
        if is_all_below(level, filter, next) {
            // Not `?`, whose conversion of the fault would have to be proved, too.
            if let Err(stop) = answer_retained(&self.retained, now, answer) {
                return Err(stop);
            }
            return answer_plain(self.children.as_slice(), filter, 0, 0, now, answer);
        }
        if is_plus(level) {
            return answer_plain(self.children.as_slice(), filter, 0, next, now, answer);
        }
        self.answer(filter, 0, now, answer)
    }
}
