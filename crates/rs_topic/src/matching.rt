//! Whether the levels of a filter fit the levels of a name (4.7.1, 4.7.2).

ghost use Rattle.std.specs.Prelude.{◌≡◌, ◌∷◌, [], ◌↔◌, IsTrue};
ghost use Rattle.std.specs.Str.{bytes_eq};
ghost use Rattle.rs_topic.specs.Topics.{plus, hash};
ghost use Rattle.rs_topic.specs.Matching.{BeginsWild, BeginsWithDollar, Fits, begins_with_dollar, fits};
ghost use Rattle.rs_topic.specs.Rests.{levels_from};

use crate::level::Levels;

/// The level is `+`, which fits any one level (4.7.1.3).
pub fn is_plus(level: &[u8]) -> bool
    ensures { result ≡ bytes_eq level.now (plus ∷ []) }
{
    level == b"+".as_slice()
}

pub(crate) fn is_hash(level: &[u8]) -> bool
    ensures { result ≡ bytes_eq level.now (hash ∷ []) }
{
    level == b"#".as_slice()
}

/// The level is a `#` and the last one, so it fits any rest of a topic (4.7.1.2). The next level of the text would begin at `next`.
#[tactic(auto, using(crate::proofs::Rests::all_below))]
pub fn is_all_below(level: &[u8], text: &[u8], next: usize) -> bool
    ensures { result ≡ fits (level.now ∷ levels_from next text.now) [] }
{
    is_hash(level) && next > text.len()
}

/// Whether the levels of a filter fit those of a name. `#` fits its parent level and all levels below it (4.7.1.2).
#[tactic(auto, using(crate::proofs::Matched::fits_decides))]
pub(crate) fn fits(mut filter: Levels<'_>, mut name: Levels<'_>) -> bool
    ensures value { result ≡ fits filter.entry name.entry }
    ensures meaning { IsTrue result ↔ Fits filter.entry name.entry }
{
    while let Some(wanted) = filter.next() {
        if is_hash(wanted) && filter.is_empty() {
            return true;
        }
        match name.next() {
            None => return false,
            Some(level) => {
                if !is_plus(wanted) && wanted != level {
                    return false;
                }
            }
        }
    }
    name.is_empty()
}

/// Whether the levels of a filter from the byte `at` on fit those of a topic from the byte `from` on (4.7.1).
pub fn levels_fit(filter: &[u8], at: usize, topic: &[u8], from: usize) -> bool
    ensures { result ≡ fits (levels_from at filter.now) (levels_from from topic.now) }
{
    fits(
        Levels::starting_at(filter, at),
        Levels::starting_at(topic, from),
    )
}

/// Whether the first level of a filter is a wildcard.
pub(crate) fn begins_wild(mut filter: Levels<'_>) -> bool
    ensures { IsTrue result ↔ BeginsWild filter.entry }
{
    match filter.next() {
        Some(level) => is_plus(level) || is_hash(level),
        None => false,
    }
}

/// Whether a topic name, or its first level, begins with `$` (4.7.2).
pub fn begins_with_dollar(name: &[u8]) -> bool
    ensures value { result ≡ begins_with_dollar name.now }
    ensures meaning { IsTrue result ↔ BeginsWithDollar name.now }
{
    match name {
        [first, ..] => *first == b'$',
        [] => false,
    }
}
