//! Topic filters (4.7.1, 4.7.3).

ghost use Rattle.std.specs.Prelude.{◌≡◌, ◌<◌, ◌^◌, length, ◌↔◌, IsTrue, IfOk};
ghost use Rattle.rs_topic.specs.Topics.{filter_faults, filter_faults_of_text, filter_of, first_fault, level_fits, levels, read_filter, wildcards_fit};
ghost use Rattle.rs_topic.specs.Matching.{Matches};
ghost use Rattle.rs_topic.specs.Meanings.{IsReadAs, IsTopicFilter, Reads};

use crate::level::{Levels, level_count};
use crate::limits::MAX_LEVELS;
use crate::matching::{begins_wild, begins_with_dollar, fits, is_hash, is_plus};
use crate::name::TopicName;
use crate::text::{Text, TopicFault, text_fault};
use std::alloc::{AllocError, Global};
use std::hash::{Hash, Hasher};
use std::marker::Model;

/// Whether a wildcard in this level is the whole level, and a `#` is in the last one (4.7.1.2, 4.7.1.3).
fn level_fits(level: &[u8], is_last: bool) -> bool
    ensures { result ≡ level_fits level.now is_last }
{
    (!level.contains(&b'+') || is_plus(level))
        && (!level.contains(&b'#') || (is_hash(level) && is_last))
}

fn wildcards_fit(mut rest: Levels<'_>) -> bool
    ensures { result ≡ wildcards_fit rest.entry }
{
    while let Some(level) = rest.next() {
        if !level_fits(level, rest.is_empty()) {
            return false;
        }
    }
    true
}

/// Why a text is not a topic filter.
fn filter_fault(text: &[u8]) -> Option<TopicFault>
    ensures { result ≡ first_fault filter_faults_of_text text.now }
{
    if text.is_empty() {
        return Some(TopicFault::Empty);
    }
    if text.starts_with(b"$share/") {
        return Some(TopicFault::Shared);
    }
    if !wildcards_fit(Levels::new(text)) {
        return Some(TopicFault::BadWildcard);
    }
    if level_count(text) > MAX_LEVELS {
        return Some(TopicFault::TooManyLevels);
    }
    None
}

/// Why bytes are not a topic filter.
#[tactic(auto, using(crate::proofs::Readings::filter_faults_split))]
fn fault_of(bytes: &[u8]) -> Option<TopicFault>
    ensures { result ≡ first_fault filter_faults bytes.now }
{
    text_fault(bytes).or_else(|| filter_fault(bytes))
}

/// A text that selects topics: not empty, of at most [`MAX_LEVELS`] levels, in which each `+` is a whole level and a `#` is the
/// whole last level, and which does not begin with `$share/` (4.7.1, 4.7.3, 4.8.2). Filters are compared and hashed by their
/// bytes.
#[derive(Debug, Drop, PartialEq, Eq)]
pub struct TopicFilter {
    text: Text,
}

impl Model for TopicFilter {
    ghost use Rattle.std.specs.Prelude.{List, ℕ};
    ghost use Rattle.rs_topic.specs.Meanings.{IsTopicFilter};

    ghost Value = { List ℕ };

    ghost view = { λ t. t.text };

    ghost invariant = { λ t. IsTopicFilter t.text };

    ghost inverse = { λ v. record { text = v } };
}

impl TopicFilter {
    /// A copy of these bytes as a topic filter. The error is the first of `Empty`, `TooLong`, `NotUtf8`, `HasNul`, `Shared`,
    /// `BadWildcard`, `TooManyLevels`, `NoMemory`; only the copy takes memory.
    #[tactic(auto, using(crate::proofs::Readings::filter_found, crate::proofs::Readings::filter_found_for, crate::proofs::Readings::filter_denied, crate::proofs::Readings::filter_denied_for, crate::proofs::Readings::filter_read_is))]
    pub fn read(alloc: Global, bytes: &[u8]) -> Result<TopicFilter, TopicFault>
        ensures exact { IsReadAs (read_filter bytes.now) result }
        ensures meaning { Reads IsTopicFilter filter_faults bytes.now result }
    {
        match fault_of(bytes) {
            Some(fault) => Err(fault),
            None => Ok(TopicFilter {
                text: Text::copied(alloc, bytes)?,
            }),
        }
    }

    /// Whether the filter selects this topic: its levels fit those of the name, and its first level is not a wildcard if the name
    /// begins with `$` (4.7.1, 4.7.2). It walks once along both texts and takes no memory.
    pub fn matches(&self, name: &TopicName) -> bool
        ensures { IsTrue result ↔ Matches self.now name.now }
    {
        if begins_wild(self.levels()) && begins_with_dollar(name.as_bytes()) {
            return false;
        }
        fits(self.levels(), name.levels())
    }

    /// An equal filter, which shares the bytes. The error says that the count of their owners is full.
    pub fn copy(&self) -> Result<TopicFilter, AllocError>
        ensures { IfOk result (λ t. t ≡ self.now) }
    {
        Ok(TopicFilter {
            text: self.text.copy()?,
        })
    }

    /// The bytes.
    pub fn as_bytes(&self) -> &[u8]
        ensures bytes { result.now ≡ self.now }
        ensures short { length result.now < 2 ^ 16 }
        ensures valid { IsTopicFilter self.now }
    {
        self.text.as_bytes()
    }

    /// The levels in order: at least one, at most [`MAX_LEVELS`]. Each may be empty (4.7.1.1). It takes no memory.
    pub fn levels(&self) -> Levels<'_>
        ensures { result ≡ levels self.now }
    {
        Levels::new(self.text.as_bytes())
    }
}

impl TryFrom<Text> for TopicFilter {
    type Error = TopicFault;

    ghost try_from_gives = { λ text r. r ≡ filter_of text };

    /// The text as a topic filter. Its bytes are not copied. The error is the first of `Empty`, `Shared`, `BadWildcard`,
    /// `TooManyLevels`.
    #[tactic(auto, using(crate::proofs::Readings::filter_of_none, crate::proofs::Readings::filter_is))]
    fn try_from(text: Text) -> Result<TopicFilter, TopicFault> {
        match filter_fault(text.as_bytes()) {
            Some(fault) => Err(fault),
            None => Ok(TopicFilter { text }),
        }
    }
}

impl Hash for TopicFilter {
    ghost use Rattle.std.specs.Hash as fed;
    ghost use Rattle.std.specs.Cmp.Rules.{hashing};
    ghost use Rattle.std.proofs.Common.{rules};

    ghost hash_input = { fed.slice fed.u8 };

    ghost respects_eq = { Prim.search (hashing, rules) };

    fn hash<H: Hasher>(&self, state: &mut H) {
        self.as_bytes().hash(state);
    }
}
