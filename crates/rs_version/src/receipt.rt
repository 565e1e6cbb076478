//! What the writer gives: tokens of published lists, and receipts of entries.

ghost use Rattle.std.specs.Prelude.{◌≡◌, ◌⊎◌, length, MatchBool};
ghost use mathlib.Core.List.{IsPrefix};
ghost use Rattle.rs_store.specs.History.{IsLegal};
ghost use Rattle.rs_version.specs.Receipts.{StandsAt};

use crate::history::StoreName;
use crate::named::NamedList;
use rs_message::Entry;
use std::marker::Model;

/// A token of a list that the history has reached. Contracts see it as the list. The writer makes tokens of published lists alone.
///
/// It holds no entry, only a proof that the history has reached the list, and its length.
#[derive(Drop)]
pub struct Told<N: StoreName> {
    pub(crate) list: NamedList<N>,
}

impl<N: StoreName> Model for Told<N> {
    ghost use Rattle.std.specs.Prelude.{List};
    ghost use Rattle.rs_message.specs.declared.entry.Entry.{Entry};

    ghost Value = { List Entry };

    ghost view = { λ t. t.list };
}

impl<N: StoreName> Told<N> {
    /// The number of entries of the list.
    pub fn version(&self) -> u64
        ensures version { result ≡ length self.now }
        ensures legal { IsLegal N.limit self.now }
    {
        self.list.version()
    }

    /// An equal token. It takes no memory.
    pub fn again(&self) -> Told<N>
        ensures again { result ≡ self.now }
        ensures legal { IsLegal N.limit self.now }
    {
        // For the proof: this call says that the list is legal.
        let _version = self.version();
        Told {
            list: self.list.again(),
        }
    }

    /// Whether the other list is a prefix of this one. If not, this one is a prefix of the other: all tokens of a store are of
    /// prefixes of one history.
    pub fn reaches(&self, other: &Told<N>) -> bool
        ensures prefix { MatchBool result (IsPrefix other.now self.now) (IsPrefix self.now other.now) }
        ensures legal { IsLegal N.limit self.now × IsLegal N.limit other.now }
    {
        self.list.reaches(&other.list)
    }

    /// Says that any two tokens of a store agree: one list is a prefix of the other.
    pub fn note_agrees(&self, other: &Told<N>)
        ensures prefix { IsPrefix other.now self.now ⊎ IsPrefix self.now other.now }
        ensures legal { IsLegal N.limit self.now × IsLegal N.limit other.now }
    {
        // For the proof: this call says which is a prefix of the other.
        let _longer = self.reaches(other);
    }
}

/// Says that an entry was published, and at which number of the list. Contracts see it as the entry, its number and the list that was
/// published with it.
///
/// Only [`put`](crate::VersionWriter::put) and [`retry`](crate::VersionWriter::retry) make receipts. Each call says again what is
/// true of every receipt: the entry stands at its number in the list, and the list is legal. So no other entry of the list has
/// its origin ([`origin_law`](crate::origin_law)).
#[derive(Drop)]
pub struct Receipt<N: StoreName> {
    entry: Entry,
    told: Told<N>,
    number: u64,
}

impl<N: StoreName> Model for Receipt<N> {
    ghost use Rattle.rs_version.specs.Receipts.{ReceiptValue, StandsAt};

    ghost Value = { ReceiptValue };

    ghost view = { λ r. record { entry = r.entry; number = r.number; told = r.told } };

    ghost invariant = { λ r. StandsAt r.entry r.number r.told };
}

impl<N: StoreName> Receipt<N> {
    /// Of the last entry of a published list.
    pub(crate) fn of_last(entry: Entry, told: Told<N>) -> Receipt<N>
        requires { StandsAt entry (length told) told }
        ensures { result ≡ record { entry = entry; number = length told; told = told } }
    {
        let number = told.version();
        Receipt {
            entry,
            told,
            number,
        }
    }

    /// The entry.
    pub fn entry(&self) -> &Entry
        ensures entry { result.now ≡ self.now.entry }
        ensures stands { StandsAt self.now.entry self.now.number self.now.told }
    {
        &self.entry
    }

    /// The number of the entry in the list, from 1.
    pub fn number(&self) -> u64
        ensures number { result ≡ self.now.number }
        ensures stands { StandsAt self.now.entry self.now.number self.now.told }
    {
        self.number
    }

    /// A token of the list. It takes no memory.
    pub fn told(&self) -> Told<N>
        ensures told { result ≡ self.now.told }
        ensures stands { StandsAt self.now.entry self.now.number self.now.told }
        ensures legal { IsLegal N.limit self.now.told }
    {
        self.told.again()
    }
}
