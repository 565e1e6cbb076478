//! What the loop of a writer asks of the writer of a store.

ghost use Rattle.std.specs.Prelude.{◌≡◌, ◌≢◌, ◌++◌, ◌≤◌, ℕ, false, [], List, drop, length, map, take, All, IfErr, IfOk, MatchResult, OnOk};
ghost use mathlib.Core.List.{IsPrefix};
ghost use Rattle.rs_message.specs.Messages.{is_sweep};
ghost use Rattle.rs_store.specs.Adding.{Adds};
ghost use Rattle.rs_store.specs.Bytes.{retained_bytes};
ghost use Rattle.rs_store.specs.History.{IsLegal, SerialsRise, Stands, extended};
ghost use Rattle.rs_message.specs.declared.entry.Entry.{Entry};
ghost use Rattle.rs_store.specs.declared.content.Content.{Content};
ghost use Rattle.rs_version.specs.Copies.{listed};
ghost use Rattle.rs_version.specs.declared.fault.PutFault.TheVariants.{NoMemory};
ghost use Rattle.rs_version.specs.Writer.{IsNextOf, IsReadyFor, IsReleasedInPart, PassesOver, RefusesOf, kept_of, released, shows};

use crate::fault::PutFault;
use crate::history::StoreName;
use crate::receipt::{Receipt, Told};
use crate::writer::VersionWriter;
use rs_message::{Entry, Origin};
use std::alloc::AllocError;
use std::collections::VecDeque;
use std::sync::Wait;

/// The one writer of a store, which publishes one entry after the other. [`VersionWriter`] publishes them, and does no more. Another one
/// may keep them elsewhere before they are published.
pub trait StoreWriter<N: StoreName>: Drop {
    ghost use Rattle.rs_version.specs.Writer.{Written};

    /// What contracts see of it: what is published, and what is held.
    ghost written: { Self → Written };

    /// How many entries it holds at most.
    ghost most_held: { ℕ };

    /// The entries that it was made ready for, which are to be put next.
    ghost ready: { Self → List Entry };

    /// Whether the changes of a job are better made ready all at once than some at a time.
    fn makes_ready_at_once(&self) -> bool;

    /// Makes it ready for the first `count` of these changes, which are put next, one after the other. A writer that keeps entries elsewhere
    /// does so here: all of these, or none.
    fn make_ready(&mut self, changes: &VecDeque<Entry>, count: usize)
        requires none { ready self.old ≡ [] }
        requires plain { All (λ e. is_sweep e.operation ≡ false) changes.now.items }
        requires rises { SerialsRise (kept_of (written self.old) ++ changes.now.items) }
        ensures same { written self.new ≡ written self.old }
        ensures ready { IsReadyFor (ready self.new) (take count changes.now.items) };

    /// Publishes the entry after all that is kept. What is held is published first, and then the Sweep that comes before the entry, if it
    /// needs one.
    ///
    /// # Errors
    ///
    /// - [`Stale`](PutFault::Stale) and [`Full`](PutFault::Full): the entry may not come.
    /// - [`NoMemory`](PutFault::NoMemory): the entry is not kept.
    /// - [`Held`](PutFault::Held): it is kept, and not published yet.
    fn put(&mut self, entry: Entry) -> Result<Receipt<N>, PutFault>
        requires plain { is_sweep entry.operation ≡ false }
        requires next { IsNextOf (ready self.old) entry }
        ensures ready { ready self.new ≡ drop 1 (ready self.old) }
        ensures published { OnOk result (Adds N.limit (kept_of (written self.old)) entry (λ list. written self.new ≡ shows list)) }
        ensures entry { IfOk result (λ r. r.entry ≡ entry) }
        ensures number { IfOk result (λ r. r.number ≡ length (written self.new).published) }
        ensures told { IfOk result (λ r. r.told ≡ (written self.new).published) }
        ensures legal { OnOk result (IsLegal N.limit (written self.new).published) }
        ensures refused { IfErr result (λ f. RefusesOf N.limit (written self.old) entry f (written self.new)) };

    /// Does not put the entry, since one before it of its job is held, and says what becomes of it: it is not kept
    /// ([`NoMemory`](PutFault::NoMemory)), or it is held, too ([`Held`](PutFault::Held)).
    fn pass_over(&mut self, entry: Entry) -> PutFault
        requires plain { is_sweep entry.operation ≡ false }
        requires rises { SerialsRise (extended (kept_of (written self.old)) entry) }
        requires next { IsNextOf (ready self.old) entry }
        ensures ready { ready self.new ≡ drop 1 (ready self.old) }
        ensures passed { PassesOver N.limit (written self.old) entry result (written self.new) }
        ensures one { most_held ≤ 1 → result ≡ NoMemory };

    /// Publishes what is held, from the first on.
    ///
    /// # Errors
    ///
    /// [`AllocError`] if not all of it could be published.
    fn release(&mut self) -> Result<(), AllocError>
        requires { ready self.old ≡ [] }
        ensures ready { ready self.new ≡ [] }
        ensures released { MatchResult result (λ _. written self.new ≡ released (written self.old))
            (λ _. ((written self.new).held ≢ []) × IsReleasedInPart (written self.old) (written self.new)) };

    /// A token of the published list. It takes no memory.
    fn tell(&self) -> Told<N>
        ensures told { result ≡ (written self.now).published }
        ensures legal { IsLegal N.limit (written self.now).published };

    /// Says that the token's list is a prefix of the kept list. It compares nothing.
    fn note_covered(&mut self, told: &Told<N>)
        ensures prefix { IsPrefix told.now (kept_of (written self.old)) }
        ensures legal { IsLegal N.limit (kept_of (written self.old)) }
        ensures same { (written self.new ≡ written self.old) × (ready self.new ≡ ready self.old) };

    /// How many bytes the retained messages of the published list count.
    fn bytes(&self) -> u64
        ensures { (c : Content) × Stands c (written self.now).published × (result ≡ retained_bytes c.retained) };

    /// How many topics hold a message after the published list.
    fn topics(&self) -> u32
        ensures { (c : Content) × Stands c (written self.now).published × (result ≡ length c.retained) };

    /// The origin of the first entry that is held.
    fn held(&self) -> Option<Origin>
        ensures { listed result ≡ take 1 (map (λ e. e.origin) (written self.now).held) };

    /// How many entries are held.
    fn held_count(&self) -> usize
        ensures count { result ≡ length (written self.now).held }
        ensures few { length (written self.now).held ≤ most_held };
}

impl<N: StoreName, R: Wait + Drop> StoreWriter<N> for VersionWriter<N, R> {
    ghost use Rattle.std.specs.Prelude.{[]};

    ghost written = { λ writer. writer };

    ghost most_held = { 1 };

    ghost ready = { λ _. [] };

    fn makes_ready_at_once(&self) -> bool {
        false
    }

    fn make_ready(&mut self, _changes: &VecDeque<Entry>, _count: usize) {}

    fn put(&mut self, entry: Entry) -> Result<Receipt<N>, PutFault> {
        VersionWriter::put(self, entry)
    }

    fn pass_over(&mut self, _entry: Entry) -> PutFault {
        // Refused: the memory for the entry that is held.
        PutFault::NoMemory
    }

    fn release(&mut self) -> Result<(), AllocError> {
        drop(self.retry()?);
        Ok(())
    }

    fn tell(&self) -> Told<N> {
        VersionWriter::tell(self)
    }

    fn note_covered(&mut self, told: &Told<N>) {
        VersionWriter::note_covered(self, told);
    }

    fn bytes(&self) -> u64 {
        VersionWriter::bytes(self)
    }

    fn topics(&self) -> u32 {
        VersionWriter::topics(self)
    }

    fn held(&self) -> Option<Origin> {
        VersionWriter::held(self)
    }

    fn held_count(&self) -> usize {
        usize::from(VersionWriter::held(self).is_some())
    }
}
