//! Topic names (4.7.1, 4.7.3).

ghost use Rattle.std.specs.Prelude.{◌≡◌, ◌<◌, ◌^◌, length, IfOk};
ghost use Rattle.rs_topic.specs.Topics.{first_fault, levels, name_faults, name_faults_of_text, name_of, read_name};
ghost use Rattle.rs_topic.specs.Meanings.{IsReadAs, IsTopicName, Reads};

use crate::level::{Levels, level_count};
use crate::limits::MAX_LEVELS;
use crate::order::compare;
use crate::text::{Text, TopicFault, text_fault};
use std::alloc::{AllocError, Global};
use std::cmp::Ordering;
use std::marker::Model;

/// Why a text is not a topic name.
fn name_fault(text: &[u8]) -> Option<TopicFault>
    ensures { result ≡ first_fault name_faults_of_text text.now }
{
    if text.is_empty() {
        return Some(TopicFault::Empty);
    }
    if text.contains(&b'+') || text.contains(&b'#') {
        return Some(TopicFault::HasWildcard);
    }
    if level_count(text) > MAX_LEVELS {
        return Some(TopicFault::TooManyLevels);
    }
    None
}

/// Why bytes are not a topic name.
#[tactic(auto, using(crate::proofs::Readings::name_faults_split))]
fn fault_of(bytes: &[u8]) -> Option<TopicFault>
    ensures { result ≡ first_fault name_faults bytes.now }
{
    text_fault(bytes).or_else(|| name_fault(bytes))
}

/// A text that names one topic: not empty, without `+` and `#`, of at most [`MAX_LEVELS`] levels (4.7.1, 4.7.3). Names are
/// ordered as retained messages are replayed: level by level, each level by its bytes, a list of levels before its extensions. A
/// comparison walks once along both texts and takes no memory.
#[derive(Debug, Drop, PartialEq, Eq)]
pub struct TopicName {
    text: Text,
}

impl Model for TopicName {
    ghost use Rattle.std.specs.Prelude.{List, ℕ};
    ghost use Rattle.rs_topic.specs.Meanings.{IsTopicName};

    ghost Value = { List ℕ };

    ghost view = { λ t. t.text };

    ghost invariant = { λ t. IsTopicName t.text };

    ghost inverse = { λ v. record { text = v } };
}

impl TopicName {
    /// A copy of these bytes as a topic name. The error is the first of `Empty`, `TooLong`, `NotUtf8`, `HasNul`, `HasWildcard`,
    /// `TooManyLevels`, `NoMemory`; only the copy takes memory.
    #[tactic(auto, using(crate::proofs::Readings::name_found, crate::proofs::Readings::name_found_for, crate::proofs::Readings::name_denied, crate::proofs::Readings::name_denied_for, crate::proofs::Readings::name_read_is))]
    pub fn read(alloc: Global, bytes: &[u8]) -> Result<TopicName, TopicFault>
        ensures exact { IsReadAs (read_name bytes.now) result }
        ensures meaning { Reads IsTopicName name_faults bytes.now result }
    {
        match fault_of(bytes) {
            Some(fault) => Err(fault),
            None => Ok(TopicName {
                text: Text::copied(alloc, bytes)?,
            }),
        }
    }

    /// An equal name, which shares the bytes. The error says that the count of their owners is full.
    pub fn copy(&self) -> Result<TopicName, AllocError>
        ensures { IfOk result (λ t. t ≡ self.now) }
    {
        Ok(TopicName {
            text: self.text.copy()?,
        })
    }

    /// The bytes.
    pub fn as_bytes(&self) -> &[u8]
        ensures bytes { result.now ≡ self.now }
        ensures short { length result.now < 2 ^ 16 }
        ensures valid { IsTopicName self.now }
    {
        self.text.as_bytes()
    }

    /// The levels in order: at least one, at most [`MAX_LEVELS`]. Each may be empty (4.7.1.1). It takes no memory.
    pub fn levels(&self) -> Levels<'_>
        ensures { result ≡ levels self.now }
    {
        Levels::new(self.text.as_bytes())
    }
}

impl TryFrom<Text> for TopicName {
    type Error = TopicFault;

    ghost try_from_gives = { λ text r. r ≡ name_of text };

    /// The text as a topic name. Its bytes are not copied. The error is the first of `Empty`, `HasWildcard`, `TooManyLevels`.
    #[tactic(auto, using(crate::proofs::Readings::name_of_none, crate::proofs::Readings::name_is))]
    fn try_from(text: Text) -> Result<TopicName, TopicFault> {
        match name_fault(text.as_bytes()) {
            Some(fault) => Err(fault),
            None => Ok(TopicName { text }),
        }
    }
}

impl Ord for TopicName {
    ghost use Rattle.rs_topic.specs.Order.{topic_cmp};
    ghost use Rattle.rs_topic.specs.TopicOrder.{topic_total, topic_matches_eq};
    ghost use Rattle.std.specs.Prelude.{refl};

    ghost cmp = { topic_cmp };

    ghost total = { topic_total };

    ghost matches_partial_cmp = { λ _ _. refl };

    ghost matches_eq = { topic_matches_eq };

    fn cmp(&self, other: &TopicName) -> Ordering {
        compare(self.as_bytes(), other.as_bytes())
    }
}

impl PartialOrd for TopicName {
    ghost use Rattle.rs_topic.specs.Order.{topic_cmp};
    ghost use Rattle.std.specs.Ordering.{as_partial_cmp};
    ghost use Rattle.rs_topic.specs.TopicOrder.{topic_total, topic_matches_eq};
    ghost use Rattle.std.specs.Prelude.{refl};
    ghost use Rattle.std.specs.Cmp.{partial_order_from_agreeing_total};

    ghost partial_cmp = { as_partial_cmp topic_cmp };

    ghost laws = { partial_order_from_agreeing_total topic_cmp topic_total (λ _ _. refl) topic_matches_eq };

    fn partial_cmp(&self, other: &TopicName) -> Option<Ordering> {
        Some(self.cmp(other))
    }
}
