//! Prefixes of a history, whichever store it is of.
ghost use Rattle.std.specs.Prelude.{◌≡◌, ◌+◌, ◌<◌, ◌^◌, [], length, IfNone, IfSome, MatchBool};
ghost use mathlib.Core.List.{IsPrefix};
ghost use Rattle.rs_store.specs.History.{extended};
ghost use Rattle.rs_version.specs.HistoryRule.{right_of, word_of};

use crate::history::{AddsEntry, MakesRight, NoGain, RightsRule, SeesWhole};
use logbook::{Offer, Pen, Seen, Word};
use rs_message::Entry;
use std::marker::Model;

/// A prefix of a history: a proof that the history has reached it, and its length. Contracts see it as the history and the
/// entries of the prefix, which no code keeps.
#[derive(Drop)]
pub struct Prefix {
    version: u64,
    seen: Seen<Entry, u64, RightsRule>,
}

impl Model for Prefix {
    ghost use Rattle.std.specs.Prelude.{◌≡◌, length};
    ghost use Rattle.rs_version.specs.Prefixes.{PrefixValue};

    ghost Value = { PrefixValue };

    ghost view = { λ f. record { history = f.seen.book; log = f.seen.log } };

    ghost invariant = { λ f. f.version ≡ length f.seen.log };
}

/// Makes the right to add the entry with this number, from 0. `None` if the next right is for another entry.
pub fn right_to_add(
    seen: &Seen<Entry, u64, RightsRule>,
    word: &Word<Entry, u64, RightsRule>,
    number: u64,
) -> Option<Pen>
    requires { word.now ≡ word_of seen.now.book }
    ensures { IfSome result (λ right. (right.book ≡ seen.now.book) × (right.nib ≡ right_of number)) }
{
    let more = number.checked_add(1)?;
    let mut reached = seen.again();
    let mut offer: Offer<Entry, u64, RightsRule, NoGain> = reached.plain::<NoGain, u64, MakesRight>(
        &number,
    );
    let mut pen = reached.no_pen();
    let found = word.compare_exchange::<MakesRight, NoGain>(
        number,
        more,
        &mut reached,
        &mut offer,
        &mut pen,
    );
    if found != number {
        return None;
    }
    // The right to write a word of its own, which nobody needs.
    let _own: Word<Entry, u64, RightsRule> = Word::tracked(0, &mut pen);
    Some(pen)
}

impl Prefix {
    /// The empty prefix.
    pub fn empty(seen: Seen<Entry, u64, RightsRule>) -> Prefix
        requires { seen.log ≡ [] }
        ensures { (result.history ≡ seen.book) × (result.log ≡ []) }
    {
        Prefix { version: 0, seen }
    }

    /// The number of entries.
    pub fn version(&self) -> u64
        ensures { result ≡ length self.now.log }
    {
        self.version
    }

    /// An equal one. It takes no memory.
    pub fn again(&self) -> Prefix
        ensures { result ≡ self.now }
    {
        Prefix {
            version: self.version,
            seen: self.seen.again(),
        }
    }

    /// Whether the other is a prefix of this one. If not, this one is a prefix of the other.
    pub fn reaches(&self, other: &Prefix) -> bool
        requires { other.now.history ≡ self.now.history }
        ensures { MatchBool result (IsPrefix other.now.log self.now.log) (IsPrefix self.now.log other.now.log) }
    {
        let mut both = self.seen.again();
        both.learn(&other.seen);
        if self.version < other.version {
            return false;
        }
        true
    }

    /// The prefix with one more entry, which it adds to the history. It takes the right to do so, and leaves the right to add the entry
    /// behind it. `None` if the next right is for another entry; nothing is added then.
    pub fn with_entry(
        &self,
        word: &Word<Entry, u64, RightsRule>,
        right: &mut Pen,
        entry: &Entry,
    ) -> Option<Prefix>
        requires word { word.now ≡ word_of self.now.history }
        requires right { (right.old.book ≡ self.now.history) × (right.old.nib ≡ right_of (length self.now.log)) }
        requires countable { length self.now.log + 1 < 2 ^ 64 }
        ensures followed { IfSome result (λ f. (f.history ≡ self.now.history) × (f.log ≡ extended self.now.log entry.now)) }
        ensures next { IfSome result (λ f. (right.new.book ≡ self.now.history) × (right.new.nib ≡ right_of (length self.now.log + 1))) }
        ensures none { IfNone result (right.new ≡ right.old) }
    {
        let number = self.version + 1;
        let next = right_to_add(&self.seen, word, number)?;
        let mut seen = self.seen.again();
        let mut offer: Offer<Entry, u64, RightsRule, NoGain> = seen.plain::<
            NoGain,
            Entry,
            AddsEntry,
        >(entry);
        let _found = word.compare_exchange::<AddsEntry, NoGain>(0, 0, &mut seen, &mut offer, right);
        *right = next;
        Some(Prefix {
            version: number,
            seen,
        })
    }

    /// Says that the other prefix is a prefix of this one, which is the whole history: the right to add the entry behind it shows that.
    pub fn note_covered(&self, word: &Word<Entry, u64, RightsRule>, right: &mut Pen, other: &Prefix)
        requires word { word.now ≡ word_of self.now.history }
        requires right { (right.old.book ≡ self.now.history) × (right.old.nib ≡ right_of (length self.now.log)) }
        requires other { other.now.history ≡ self.now.history }
        ensures prefix { IsPrefix other.now.log self.now.log }
        ensures right { (right.new.book ≡ self.now.history) × (right.new.nib ≡ right_of (length self.now.log)) }
    {
        let mut seen = self.seen.again();
        seen.learn(&other.seen);
        let mut offer: Offer<Entry, u64, RightsRule, NoGain> = seen.plain::<NoGain, u64, SeesWhole>(
            &self.version,
        );
        let _found = word.compare_exchange::<SeesWhole, NoGain>(0, 0, &mut seen, &mut offer, right);
    }
}
