//! The levels of topic names and topic filters (4.7.1.1): the texts between the slashes. A walk along them goes from the byte at
//! which a level begins to the byte at which the next one begins. Past the end of the text no level is left.

ghost use Rattle.std.specs.Prelude.{◌≡◌, ◌==◌, ◌∷◌, [], ◌+◌, ◌<◌, ◌≤◌, length, IfSome, IfNone, IsTrue};
ghost use Rattle.std.specs.List.{position_or_len};
ghost use Rattle.std.specs.Iterator.{YieldsFirstRef, item_count};
ghost use Rattle.rs_topic.specs.Topics.{slash, levels, is_end};
ghost use Rattle.rs_topic.specs.Rests.{levels_from};

use std::marker::Model;

/// The index of the first slash, or the length of a text without one.
#[tactic(auto, using(crate::proofs::LevelLemmas::ends_here, crate::proofs::LevelLemmas::ends_nowhere))]
fn end_of_level(text: &[u8]) -> usize
    ensures value { result ≡ position_or_len (λ c. c == slash) text.now }
    ensures within { result ≤ length text.now }
{
    for i in 0..text.len() {
        if text[i] == b'/' {
            return i;
        }
    }
    text.len()
}

/// The level that begins at a byte of the text, and the byte at which the next one begins. None past the end of the text.
#[tactic(auto, using(crate::proofs::Rests::one_more, crate::proofs::Rests::no_more, crate::proofs::Rests::is_level))]
pub fn level_at(text: &[u8], at: usize) -> Option<(&[u8], usize)>
    ensures more { IfSome result (λ r. levels_from at text.now ≡ r.0.now ∷ levels_from r.1 text.now) }
    ensures further { IfSome result (λ r. (at < r.1) × (r.1 ≤ length text.now + 1)) }
    ensures single { IfSome result (λ r. levels r.0.now ≡ r.0.now ∷ []) }
    ensures ended { IfNone result (levels_from at text.now ≡ []) }
{
    if at > text.len() {
        return None;
    }
    let (_, rest) = text.split_at(at);
    let end = end_of_level(rest);
    let (level, _) = rest.split_at(end);
    Some((level, at + end + 1))
}

/// The text is one level. (False says nothing.)
#[tactic(auto, using(crate::proofs::LevelLemmas::one_level))]
pub fn is_level(text: &[u8]) -> bool
    ensures { IsTrue result → levels text.now ≡ text.now ∷ [] }
{
    end_of_level(text) == text.len()
}

/// The levels of a topic name or a topic filter, in order (4.7.1.1).
#[derive(Drop)]
pub struct Levels<'a> {
    text: &'a [u8],
    // The byte at which the next level begins.
    at: usize,
}

impl<'a> Model for Levels<'a> {
    ghost use Rattle.std.specs.Prelude.{List, ℕ};
    ghost use Rattle.rs_topic.specs.Rests.{levels_from};

    ghost Value = { List (List ℕ) };

    ghost view = { λ it. levels_from it.at it.text.now };
}

impl<'a> Levels<'a> {
    /// The levels of a text.
    pub(crate) fn new(text: &'a [u8]) -> Levels<'a>
        ensures { result ≡ levels text.now }
    {
        Levels::starting_at(text, 0)
    }

    /// The levels of a text from a byte on.
    pub(crate) fn starting_at(text: &'a [u8], at: usize) -> Levels<'a>
        ensures { result ≡ levels_from at text.now }
    {
        Levels { text, at }
    }

    /// Whether no level is left.
    #[tactic(auto, using(crate::proofs::Rests::last_from))]
    pub fn is_empty(&self) -> bool
        ensures { result ≡ is_end self.now }
    {
        self.at > self.text.len()
    }
}

impl<'a> Iterator for Levels<'a> {
    type Item = &'a [u8];

    ghost next_gives = { YieldsFirstRef (λ rest. rest) };

    ghost remaining = { item_count (λ rest. rest) };

    fn next(&mut self) -> Option<&'a [u8]> {
        let (level, next) = level_at(self.text, self.at)?;
        self.at = next;
        Some(level)
    }
}

/// How many levels a text has.
#[tactic(auto, using(crate::proofs::LevelLemmas::level_bound))]
pub(crate) fn level_count(text: &[u8]) -> usize
    ensures { result ≡ length (levels text.now) }
{
    Levels::new(text).count()
}
