//! Prefixes of the history of a named store, which the seats and the tokens know, and the whole of it, which the writer has.
ghost use Rattle.std.specs.Prelude.{◌≡◌, [], length, MatchBool, MatchResult};
ghost use mathlib.Core.List.{IsPrefix};
ghost use Rattle.rs_store.specs.History.{IsLegal, extended};
ghost use Rattle.rs_version.specs.HistoryRule.{right_of, word_of};

use crate::history::{RightsRule, StoreName};
use crate::prefix::{Prefix, right_to_add};
use logbook::{Pen, Seen, Start, Word};
use rs_message::Entry;
use std::alloc::AllocError;
use std::marker::{Model, PhantomData};

/// A new history, which is empty and has no name yet, and the right to add its first entry.
#[derive(Drop)]
pub struct NewHistory {
    pub word: Word<Entry, u64, RightsRule>,
    pub right: Pen,
    pub prefix: Prefix,
    ghost empty: { prefix.log ≡ [] },
    ghost word_is: { word ≡ word_of prefix.history },
    ghost right_is: { (right.book ≡ prefix.history) × (right.nib ≡ right_of 0) },
}

impl NewHistory {
    /// The history has two words, of which this crate uses the first. Never `None`: no right was made before. The rule of the word cannot
    /// express that.
    pub fn new() -> Option<NewHistory> {
        let (seen, mut first, _second) = Seen::open(Start::alone(), 0, 0);
        let word = Word::tracked(0, &mut first);
        let right = right_to_add(&seen, &word, 0)?;
        Some(NewHistory {
            word,
            right,
            prefix: Prefix::empty(seen),
        })
    }
}

/// A prefix of the history of a named store, which is legal. Contracts see it as its entries.
#[derive(Drop)]
pub struct NamedList<N: StoreName> {
    prefix: Prefix,
    of: PhantomData<N>,
}

impl<N: StoreName> Model for NamedList<N> {
    ghost use Rattle.std.specs.Prelude.{◌≡◌, List};
    ghost use Rattle.rs_message.specs.declared.entry.Entry.{Entry};
    ghost use Rattle.rs_store.specs.History.{IsLegal};

    ghost Value = { List Entry };

    ghost view = { λ f. f.prefix.log };

    ghost invariant = { λ f. (f.prefix.history ≡ N.history) × IsLegal N.limit f.prefix.log };
}

impl<N: StoreName> NamedList<N> {
    /// Gives a prefix the name.
    pub fn new(prefix: Prefix) -> NamedList<N>
        requires { (prefix.history ≡ N.history) × IsLegal N.limit prefix.log }
        ensures { result ≡ prefix.log }
    {
        NamedList {
            prefix,
            of: PhantomData,
        }
    }

    /// The prefix without the name.
    pub fn prefix(&self) -> Prefix
        ensures { (result.history ≡ N.history) × (result.log ≡ self.now) }
    {
        self.prefix.again()
    }

    /// The number of entries.
    pub fn version(&self) -> u64
        ensures version { result ≡ length self.now }
        ensures legal { IsLegal N.limit self.now }
    {
        self.prefix.version()
    }

    /// An equal one. It takes no memory.
    pub fn again(&self) -> NamedList<N>
        ensures { result ≡ self.now }
    {
        NamedList {
            prefix: self.prefix.again(),
            of: PhantomData,
        }
    }

    /// Whether the other is a prefix of this one. If not, this one is a prefix of the other.
    pub fn reaches(&self, other: &NamedList<N>) -> bool
        ensures prefix { MatchBool result (IsPrefix other.now self.now) (IsPrefix self.now other.now) }
        ensures legal { IsLegal N.limit self.now × IsLegal N.limit other.now }
    {
        self.prefix.reaches(&other.prefix)
    }
}

/// The whole history of a named store, and the right to add to it. Contracts see it as its entries.
///
/// There is one of a store, since there is one right.
#[derive(Drop)]
pub struct WholeHistory<N: StoreName> {
    list: NamedList<N>,
    word: Word<Entry, u64, RightsRule>,
    right: Pen,
}

impl<N: StoreName> Model for WholeHistory<N> {
    ghost use Rattle.std.specs.Prelude.{◌≡◌, List, length};
    ghost use Rattle.rs_message.specs.declared.entry.Entry.{Entry};
    ghost use Rattle.rs_version.specs.HistoryRule.{right_of, word_of};

    ghost Value = { List Entry };

    ghost view = { λ h. h.list };

    ghost invariant = { λ h. (h.word ≡ word_of N.history) × (h.right.book ≡ N.history) × (h.right.nib ≡ right_of (length h.list)) };
}

impl<N: StoreName> WholeHistory<N> {
    /// The list, with the right to add the entry behind it.
    pub fn new(
        list: NamedList<N>,
        word: Word<Entry, u64, RightsRule>,
        right: Pen,
    ) -> WholeHistory<N>
        requires word { word ≡ word_of N.history }
        requires right { (right.book ≡ N.history) × (right.nib ≡ right_of (length list)) }
        ensures { result ≡ list }
    {
        WholeHistory { list, word, right }
    }

    /// The list.
    pub fn list(&self) -> NamedList<N>
        ensures { result ≡ self.now }
    {
        self.list.again()
    }

    /// Adds an entry.
    ///
    /// # Errors
    ///
    /// [`AllocError`] if the next right is for another entry, which never is.
    pub fn add(&mut self, entry: &Entry) -> Result<(), AllocError>
        requires { IsLegal N.limit (extended self.old entry.now) }
        ensures { MatchResult result (λ _. self.new ≡ extended self.old entry.now) (λ _. self.new ≡ self.old) }
    {
        let prefix = self.list.prefix();
        let Some(longer) = prefix.with_entry(&self.word, &mut self.right, entry) else {
            // Never: the one word that counts the rights is here. Its rule cannot express that.
            return Err(AllocError);
        };
        self.list = NamedList::new(longer);
        Ok(())
    }

    /// Says that another list of the store is a prefix of the history. It compares nothing.
    pub fn note_covered(&mut self, other: &NamedList<N>)
        ensures prefix { IsPrefix other.now self.old }
        ensures legal { IsLegal N.limit self.old }
        ensures same { self.new ≡ self.old }
    {
        // For the proof: this call says that the list is legal.
        let _version = self.list.version();
        let prefix = self.list.prefix();
        prefix.note_covered(&self.word, &mut self.right, &other.prefix);
    }
}
