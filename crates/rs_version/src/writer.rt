//! The one writer of a store.

ghost use Rattle.std.specs.Prelude.{◌≡◌, ◌≢◌, ◌≤◌, ◌∷◌, ◌⊎◌, false, true, nat_le, List, [], fold, length, map, drop, MatchOption, MatchResult, IfOk, IfErr, IfNone, IfSome, OnErr, OnOk, OnSome};
ghost use Rattle.std.specs.List.Sorted.{IsStrictlySortedBy};
ghost use Rattle.std.specs.Map.{keys_of};
ghost use mathlib.Core.List.{IsPrefix};
ghost use Rattle.rs_message.specs.Messages.{is_sweep};
ghost use Rattle.rs_topic.specs.Order.{topic_cmp};
ghost use Rattle.rs_store.specs.Adding.{Adds};
ghost use Rattle.rs_store.specs.Bytes.{retained_bytes};
ghost use Rattle.rs_store.specs.Contents.{after, empty, found_of};
ghost use Rattle.rs_store.specs.declared.content.Content.{Content};
ghost use Rattle.rs_store.specs.Expiring.{NoneExpiredBefore};
ghost use Rattle.rs_message.specs.declared.entry.Entry.{Entry};
ghost use Rattle.rs_store.specs.History.{IsLegal, Stands, extended};
ghost use Rattle.rs_version.specs.Catalogues.{content_of};
ghost use Rattle.rs_version.specs.Copies.{listed, shown, steps_of};
ghost use Rattle.rs_version.specs.Receipts.{StandsAt};
ghost use Rattle.rs_version.specs.VersionRule.{Follows, applied, state};
ghost use Rattle.rs_version.specs.Space.{HasSpaceFor};
ghost use Rattle.rs_version.specs.Writer.{Written, Declines, Defers, IsReady, Precedes, Refuses, holds_back, kept_of, released, shows, takes_last};
ghost use Rattle.rs_version.specs.declared.fault.PutFault.TheVariants.{NoMemory};
ghost use Rattle.rs_version.specs.declared.reserve.TheConstants.{ENOUGH_BLOCKS};

use crate::catalogue::StoreCatalogue;
use crate::catalogue_copy::CopyStep;
use crate::copies::{Copies, CopyWriter};
use crate::fault::PutFault;
use crate::history::StoreName;
use crate::named::{NamedList, WholeHistory};
use crate::receipt::{Receipt, Told};
use crate::reserve::Reserve;
use rs_message::{Entry, Found, Operation, Origin};
use rs_store::{Calm, Catalogue, Refusal, TopicLimit, bytes_of, judge};
use rs_topic::TopicFilter;
use std::alloc::{AllocError, Global};
use std::marker::Model;
use std::sync::Wait;

/// The one writer of a store. Contracts see it as the published list and what is held: at most one entry. The kept list is the published
/// list, followed by the held entry.
///
/// It keeps the handle `rt`, by which a publish waits for seats that still read the older copy. When it is dropped it waits until
/// no seat reads. A held entry is dropped with it, and from then on [`Seat::answer`](crate::Seat::answer) is an error.
pub struct VersionWriter<N: StoreName, R: Wait + Drop> {
    rt: R,
    copies: Copies,
    // The kept list, which is the whole history.
    history: WholeHistory<N>,
    // Of the catalogue that the kept list makes. Entries are judged by it, on the published copy.
    calm: Calm,
    held: Option<Entry>,
    reserve: Reserve,
    // How many bytes the retained messages of the kept list may count.
    memory: u64,
}

impl<N: StoreName, R: Wait + Drop> Model for VersionWriter<N, R> {
    ghost use Rattle.rs_version.specs.Writer.{Written, IsWriting};
    ghost use Rattle.rs_version.specs.Copies.{listed, shown};

    ghost Value = { Written };

    ghost view = { λ w. record { published = (shown w.copies).prefix.log; held = listed w.held } };

    ghost invariant = { λ w. IsWriting N.history N.limit w.memory w.copies w.history w.calm w.held };
}

/// Whether the entry may come next, or after which Sweep.
fn judge_on(
    catalogue: &StoreCatalogue,
    calm: &mut Calm,
    entry: &Entry,
) -> Result<Option<Entry>, PutFault>
    requires { NoneExpiredBefore calm.old (content_of catalogue.now) }
    ensures stands { (history : List Entry) → Stands (content_of catalogue.now) history → MatchResult result
        (λ before. MatchOption before (IsLegal (content_of catalogue.now).limit (extended history entry.now))
        (λ sweep. Precedes (content_of catalogue.now).limit history entry.now sweep))
        (λ f. Declines (content_of catalogue.now).limit history entry.now f) }
    ensures calm { NoneExpiredBefore calm.new (content_of catalogue.now) }
{
    match judge(catalogue, calm, entry) {
        Ok(before) => Ok(before),
        Err(Refusal::Stale) => Err(PutFault::Stale),
        Err(Refusal::Full) => Err(PutFault::Full),
        Err(Refusal::NoMemory) => Err(PutFault::NoMemory),
    }
}

/// Whether the retained messages count at most `memory` bytes after the entry, as they do before it. What a Set replaces is looked up
/// only if the Set would be too large for a new topic.
fn fits(catalogue: &StoreCatalogue, memory: u64, entry: &Entry) -> bool
    requires sorted { IsStrictlySortedBy topic_cmp (keys_of (content_of catalogue.now).retained) }
    requires small { retained_bytes (content_of catalogue.now).retained ≤ memory }
    ensures { result ≡ nat_le (retained_bytes (after (content_of catalogue.now).retained entry.now.operation)) memory }
{
    match &entry.operation {
        Operation::Set(found) => {
            let (topic, message) = (found.topic(), found.message());
            let used = catalogue.bytes();
            let free = memory - used;
            let wanted = bytes_of(topic, message);
            if wanted <= free {
                return true;
            }
            // The message that it replaces gives its bytes back.
            let replaced = catalogue.bytes_at(topic);
            wanted - free <= replaced
        }
        Operation::Clear(_) => true,
        Operation::Sweep(_) => true,
    }
}

/// Whether the entry may take the last memory: what a Clear clears is given back.
fn may_take_last(entry: &Entry) -> bool
    ensures { result ≡ takes_last entry.now.operation }
{
    match &entry.operation {
        Operation::Clear(_) => true,
        Operation::Set(_) | Operation::Sweep(_) => false,
    }
}

/// Adds an entry to the history, and gives its step. The reserve is filled first, unless the entry may take the last memory, and the copy
/// is made, so a refusal leaves the history as it was.
fn next_step<N: StoreName>(
    history: &mut WholeHistory<N>,
    reserve: &mut Reserve,
    entry: &Entry,
) -> Result<CopyStep, AllocError>
    requires { IsLegal N.limit (extended history.old entry.now) }
    ensures step { IfOk result (λ s. (s.entry ≡ entry.now) × (s.after.history ≡ N.history) × (s.after.log ≡ history.new)) }
    ensures history { MatchResult result (λ _. history.new ≡ extended history.old entry.now) (λ _. history.new ≡ history.old) }
    ensures reserve { OnOk result (takes_last entry.now.operation ≡ false → ENOUGH_BLOCKS ≤ length reserve.new.blocks.items) }
{
    if !may_take_last(entry) {
        reserve.fill()?;
    }
    let copy = entry.copy()?;
    history.add(entry)?;
    let list = history.list();
    Ok(CopyStep {
        entry: copy,
        after: list.prefix(),
    })
}

/// Publishes the step, if there is one. If memory is refused, the reserve is given back, and it is tried once more.
fn publish<R: Wait>(rt: &R, copies: &mut Copies, reserve: &mut Reserve) -> Result<(), AllocError>
    requires one { length (steps_of copies.old) ≤ 1 }
    requires follows { (s : CopyStep) → steps_of copies.old ≡ s ∷ [] → Follows (shown copies.old) s }
    ensures { MatchResult result
        (λ _. (state (shown copies.new) ≡ fold applied (state (shown copies.old)) (steps_of copies.old)) × (steps_of copies.new ≡ []))
        (λ _. (shown copies.new ≡ shown copies.old) × (steps_of copies.new ≡ steps_of copies.old)) }
{
    if copies.publish(rt).is_ok() {
        return Ok(());
    }
    if !reserve.give_back() {
        // Refused: the publish.
        return Err(AllocError);
    }
    copies.publish(rt)
}

impl<N: StoreName, R: Wait + Drop> Drop for VersionWriter<N, R> {
    fn drop(self) {
        let VersionWriter {
            rt,
            copies,
            history: _history,
            calm: _calm,
            held: _held,
            reserve: _reserve,
            memory: _memory,
        } = self;
        copies.end(&rt);
    }
}

impl<N: StoreName, R: Wait + Drop> VersionWriter<N, R> {
    /// Over copies without entries.
    pub(crate) fn new(
        rt: R,
        alloc: Global,
        writer: CopyWriter,
        history: WholeHistory<N>,
        memory: u64,
    ) -> VersionWriter<N, R>
        requires steps { drop writer.behind writer.log.items ≡ [] }
        requires history { (writer.desk.shown.value.prefix.history ≡ N.history) × (history ≡ [])
            × (writer.desk.shown.value.prefix.log ≡ []) }
        requires content { content_of writer.desk.shown.value.catalogue ≡ empty N.limit }
        ensures { result ≡ shows [] }
    {
        VersionWriter {
            rt,
            copies: Copies {
                writer,
                waiting: None,
            },
            history,
            calm: Calm::new(),
            held: None,
            reserve: Reserve::new(alloc),
            memory,
        }
    }

    /// Publishes the held entry, if there is one, and gives it back. Refused, it is held as before.
    fn release(&mut self) -> Result<Option<Entry>, AllocError>
        ensures { MatchResult result (λ o. (listed o ≡ self.old.held) × (self.new ≡ released self.old))
            (λ _. (self.old.held ≢ []) × (self.new ≡ self.old)) }
    {
        let Some(_held) = &self.held else {
            return Ok(None);
        };
        publish(&self.rt, &mut self.copies, &mut self.reserve)?;
        Ok(self.held.take())
    }

    /// Whether the entry may come next, or after which Sweep. Nothing is held, so the published copy has all that is kept.
    ///
    /// # Errors
    ///
    /// [`Stale`](PutFault::Stale) and [`Full`](PutFault::Full) as in [`rs_store::judge`].
    pub fn judge(&mut self, entry: &Entry) -> Result<Option<Entry>, PutFault>
        requires { self.old.held ≡ [] }
        ensures same { self.new ≡ self.old }
        ensures judged { MatchResult result
            (λ before. MatchOption before (IsLegal N.limit (extended self.old.published entry.now))
            (λ sweep. Precedes N.limit self.old.published entry.now sweep))
            (λ f. Declines N.limit self.old.published entry.now f) }
    {
        judge_on(self.copies.catalogue(), &mut self.calm, entry)
    }

    /// Appends the entry, which is held from then on. An error, too, if the messages would count more bytes than they may.
    fn append(&mut self, entry: Entry) -> Result<(), AllocError>
        requires none { self.old.held ≡ [] }
        requires legal { IsLegal N.limit (extended self.old.published entry) }
        ensures { MatchResult result (λ _. self.new ≡ holds_back self.old.published entry)
            (λ _. self.new ≡ self.old) }
    {
        // For the proof: these calls say which places and serials an origin may have.
        let (_place, _serial) = (entry.origin.place(), entry.origin.serial());
        // Refused: its message would count more bytes than there may be.
        if !fits(self.copies.catalogue(), self.memory, &entry) {
            return Err(AllocError);
        }
        let calm = self.calm.with_entry(&entry);
        let step = next_step(&mut self.history, &mut self.reserve, &entry)?;
        self.copies.push(step);
        self.calm = calm;
        self.held = Some(entry);
        Ok(())
    }

    /// Appends an entry that may come next, and publishes it. Refused, it is held or not kept.
    pub(crate) fn put_legal(&mut self, entry: Entry) -> Result<(), AllocError>
        requires none { self.old.held ≡ [] }
        requires legal { IsLegal N.limit (extended self.old.published entry) }
        ensures { MatchResult result
            (λ _. self.new ≡ shows (extended self.old.published entry))
            (λ _. (self.new ≡ self.old) ⊎ (self.new ≡ holds_back self.old.published entry)) }
    {
        self.append(entry)?;
        drop(self.release()?);
        Ok(())
    }

    /// Publishes what is held, and the Sweep that comes before the entry, if there is one.
    fn make_space(&mut self, entry: &Entry) -> Result<(), PutFault>
        ensures ready { OnOk result (IsReady N.limit self.old entry.now self.new) }
        ensures refused { IfErr result (λ f. Refuses N.limit self.old entry.now f self.new) }
    {
        match self.release() {
            Ok(published) => drop(published),
            Err(_) => return Err(PutFault::NoMemory),
        }
        match self.judge(entry) {
            Ok(None) => Ok(()),
            Ok(Some(sweep)) => match self.put_legal(sweep) {
                Ok(()) => Ok(()),
                Err(_) => Err(PutFault::NoMemory),
            },
            Err(fault) => Err(fault),
        }
    }

    /// For the last entry that was published.
    fn receipt(&self, entry: Entry) -> Receipt<N>
        requires { StandsAt entry (length self.now.published) self.now.published }
        ensures { result ≡ record { entry = entry; number = length self.now.published; told = self.now.published } }
    {
        Receipt::of_last(entry, self.tell())
    }

    /// Appends an entry that may come next, and publishes it.
    fn add(&mut self, entry: Entry) -> Result<Receipt<N>, PutFault>
        requires none { self.old.held ≡ [] }
        requires legal { IsLegal N.limit (extended self.old.published entry) }
        ensures published { OnOk result (self.new ≡ shows (extended self.old.published entry)) }
        ensures entry { IfOk result (λ r. r.entry ≡ entry) }
        ensures number { IfOk result (λ r. r.number ≡ length self.new.published) }
        ensures told { IfOk result (λ r. r.told ≡ self.new.published) }
        ensures legal { OnOk result (IsLegal N.limit self.new.published) }
        ensures deferred { IfErr result (λ f. Defers self.old entry f self.new) }
    {
        match self.append(entry) {
            Ok(()) => {}
            Err(_) => return Err(PutFault::NoMemory),
        }
        match self.retry() {
            Ok(Some(receipt)) => Ok(receipt),
            Ok(None) => unreachable!(),
            Err(_) => Err(PutFault::Held),
        }
    }

    /// Publishes the entry after all that is kept. A held entry is published first. If the entry may come only after a Sweep (see
    /// [`rs_store::judge`]), the Sweep is then published, by a publish of its own.
    ///
    /// # Errors
    ///
    /// - [`Stale`](PutFault::Stale) and [`Full`](PutFault::Full) as in [`rs_store::judge`]. What was held is published.
    /// - [`NoMemory`](PutFault::NoMemory): the entry is not kept. Either a held entry could not be published, and nothing
    ///   changed; or what was held is published, and there was no memory for a copy of the entry, which may come next, or for the
    ///   Sweep before it. The Sweep may be kept then: published, or held. So it is, too, with a Set after which the messages would count
    ///   more bytes than they may (see [`Blank::with_memory`](crate::Blank::with_memory)). Nothing is allocated for it.
    /// - [`Held`](PutFault::Held): the kept list from before is published, with the Sweep if there is one, and the entry is held.
    pub fn put(&mut self, entry: Entry) -> Result<Receipt<N>, PutFault>
        requires { is_sweep entry.operation ≡ false }
        ensures published { OnOk result (Adds N.limit (kept_of self.old) entry (λ list. self.new ≡ shows list)) }
        ensures entry { IfOk result (λ r. r.entry ≡ entry) }
        ensures number { IfOk result (λ r. r.number ≡ length self.new.published) }
        ensures told { IfOk result (λ r. r.told ≡ self.new.published) }
        ensures legal { OnOk result (IsLegal N.limit self.new.published) }
        ensures refused { IfErr result (λ f. Refuses N.limit self.old entry f self.new) }
    {
        // Not `?`, whose conversion of the fault would have to be proved, too.
        if let Err(fault) = self.make_space(&entry) {
            return Err(fault);
        }
        self.add(entry)
    }

    /// Publishes an entry that may come next, which may be a Sweep, after all that is kept. A held entry is published first.
    ///
    /// # Errors
    ///
    /// - [`NoMemory`](PutFault::NoMemory): the entry is not kept. What was held is published, or could not be, and nothing changed.
    /// - [`Held`](PutFault::Held): the kept list from before is published, and the entry is held.
    pub fn follow(&mut self, entry: Entry) -> Result<Receipt<N>, PutFault>
        requires { IsLegal N.limit (extended (kept_of self.old) entry) }
        ensures published { OnOk result (self.new ≡ shows (extended (kept_of self.old) entry)) }
        ensures entry { IfOk result (λ r. r.entry ≡ entry) }
        ensures number { IfOk result (λ r. r.number ≡ length self.new.published) }
        ensures told { IfOk result (λ r. r.told ≡ self.new.published) }
        ensures refused { IfErr result (λ f. Defers (released self.old) entry f self.new ⊎ ((f ≡ NoMemory) × (self.new ≡ self.old))) }
    {
        let Ok(_published) = self.release() else {
            return Err(PutFault::NoMemory);
        };
        self.add(entry)
    }

    /// Whether a Set leaves the messages of the published list with no more bytes than they may count (see
    /// [`Blank::with_memory`](crate::Blank::with_memory)). Nothing is held.
    pub fn has_room(&self, entry: &Entry) -> bool
        requires { self.now.held ≡ [] }
    {
        fits(self.copies.catalogue(), self.memory, entry)
    }

    /// Whether so many entries may come next, whatever they are, if their serials rise: there is space for a topic for each.
    pub fn has_space(&self, limit: TopicLimit, count: usize) -> bool
        requires { limit ≡ N.limit }
        ensures { result ≡ true → HasSpaceFor N.limit self.now.published count }
    {
        let catalogue = self.copies.catalogue();
        let topics = catalogue.count();
        let entries = catalogue.version();
        if count > limit.get().saturating_sub(topics) as usize {
            return false;
        }
        if count as u64 >= u64::MAX - entries {
            return false;
        }
        true
    }

    /// How many bytes more the messages of the published list may count.
    pub fn free_bytes(&self) -> u64 {
        self.memory.saturating_sub(self.copies.catalogue().bytes())
    }

    /// Publishes the held entry. `Ok(None)` if nothing is held. The receipt is that of whatever was held, also of a Sweep.
    ///
    /// # Errors
    ///
    /// [`AllocError`] if it could not be published. It is held as before.
    pub fn retry(&mut self) -> Result<Option<Receipt<N>>, AllocError>
        ensures published { OnOk result (self.new ≡ released self.old) }
        ensures none { IfOk result (λ o. IfNone o ((self.old.held ≡ []) × (self.new ≡ self.old))) }
        ensures entry { IfOk result (λ o. IfSome o (λ r. self.old.held ≡ r.entry ∷ [])) }
        ensures number { IfOk result (λ o. IfSome o (λ r. r.number ≡ length (kept_of self.old))) }
        ensures told { IfOk result (λ o. IfSome o (λ r. r.told ≡ self.new.published)) }
        ensures legal { IfOk result (λ o. OnSome o (IsLegal N.limit self.new.published)) }
        ensures refused { OnErr result ((self.old.held ≢ []) × (self.new ≡ self.old)) }
    {
        let Some(entry) = self.release()? else {
            return Ok(None);
        };
        Ok(Some(self.receipt(entry)))
    }

    /// A token of the published list, which does not have a held entry. It takes no memory.
    pub fn tell(&self) -> Told<N>
        ensures told { result ≡ self.now.published }
        ensures legal { IsLegal N.limit self.now.published }
    {
        Told {
            list: NamedList::new(self.copies.published()),
        }
    }

    /// Says that the token's list is a prefix of the kept list. It compares nothing: the writer alone has the right to add to the history,
    /// and keeps all of it, and each token is of a prefix of it.
    pub fn note_covered(&mut self, told: &Told<N>)
        ensures prefix { IsPrefix told.now (kept_of self.old) }
        ensures legal { IsLegal N.limit (kept_of self.old) }
        ensures same { self.new ≡ self.old }
    {
        self.history.note_covered(&told.list);
    }

    /// How many bytes the retained messages of the published list count.
    pub fn bytes(&self) -> u64
        ensures { (c : Content) × Stands c self.now.published × (result ≡ retained_bytes c.retained) }
    {
        self.copies.catalogue().bytes()
    }

    /// All messages of the published list, in the order of replay: those that a topic filter `#` finds at moment 0. `None` if these are not
    /// all, since a topic begins with `$`, which no wildcard matches (4.7.2), or a message is expired even then.
    pub fn retained(&self, alloc: Global) -> Result<Option<Vec<Found>>, AllocError>
        ensures { IfOk result (λ o. IfSome o (λ found. (c : Content) × Stands c self.now.published × (found.items ≡ map found_of c.retained))) }
    {
        let every = match TopicFilter::read(alloc, b"#") {
            Ok(filter) => filter,
            Err(_) => return Err(AllocError),
        };
        let catalogue = self.copies.catalogue();
        let found = catalogue.answer(&every, 0)?;
        if found.len() != catalogue.count() as usize {
            return Ok(None);
        }
        Ok(Some(found))
    }

    /// How many topics hold a message after the published list.
    pub fn topics(&self) -> u32
        ensures { (c : Content) × Stands c self.now.published × (result ≡ length c.retained) }
    {
        self.copies.catalogue().count()
    }

    /// The origin of the held entry.
    pub fn held(&self) -> Option<Origin>
        ensures { map (λ e. e.origin) self.now.held ≡ listed result }
    {
        match &self.held {
            Some(entry) => Some(entry.origin),
            None => None,
        }
    }
}
