//! The writer that keeps what it publishes.

ghost use Rattle.std.specs.Prelude.{◌≡◌, ◌≢◌, ◌-◌, ◌≤◌, ◌++◌, ◌∷◌, [], true, List, drop, length, map, take, IfErr, IfOk, MatchResult, OnOk};
ghost use Rattle.rs_message.specs.Messages.{is_sweep};
ghost use Rattle.rs_message.specs.declared.entry.Entry.{Entry};
ghost use Rattle.rs_store.specs.Adding.{Adds};
ghost use Rattle.rs_store.specs.History.{IsLegal, SerialsRise, extended};
ghost use Rattle.rs_journal.specs.Journals.{may_leave};
ghost use Rattle.rs_journal_writer.specs.Keeping.{Covers, IsSafe};
ghost use Rattle.rs_journal_writer.specs.State.{Stores};
ghost use Rattle.rs_version.specs.Copies.{listed};
ghost use Rattle.rs_version.specs.Space.{HasSpaceFor};
ghost use Rattle.rs_version.specs.Writer.{Defers, IsHeldBehind, IsReady, IsReadyFor, IsReleasedInPart, RefusesOf, kept_of, released, shows};
ghost use Rattle.rs_version.specs.declared.fault.PutFault.TheVariants.{Held};

use crate::keeping::{are_small, copy_first, keep_all};
use crate::publishing::{publish_first, publish_held, publish_next};
use crate::upkeep::Upkeep;
use crate::watching::CommitWatch;
use rs_journal::{Journal, Switch, WriteFault};
use rs_message::{Entry, Origin};
use rs_store::TopicLimit;
use rs_version::{PutFault, Receipt, StoreName, StoreWriter, Told, VersionWriter};
use sqlite_disk::Disk;
use std::alloc::{AllocError, Global};
use std::collections::VecDeque;
use std::marker::Model;
use std::sync::Wait;

/// How many entries are held at most: as many as are made ready at once.
pub const MAX_HELD: usize = 1_024;

const _: () = prove!(MAX_HELD == 1_024);

/// A writer that commits each entry to a journal before it publishes it. Contracts see it as what it has written, and the entries that it
/// was made ready for.
///
/// An entry is *held* if it is committed and could not be published because memory was refused, or if its commit is in doubt. After a
/// commit in doubt the files are never touched again, nothing more is published, and each later change is refused: the next opening tells
/// what is kept.
#[derive(Drop)]
pub struct KeptWriter<N: StoreName, R: Wait + Drop, D: Disk, C: CommitWatch> {
    writer: VersionWriter<N, R>,
    journal: Journal<D>,
    limit: TopicLimit,
    // Committed, or in doubt, and not published. They come behind what `writer` holds.
    waiting: VecDeque<Entry>,
    // So many of them, the last ones, are to be put next. Those before were put, and are held.
    ready: usize,
    in_doubt: bool,
    upkeep: Upkeep,
    watch: C,
}

/// The origin of the first entry that waits, unless it is one of the last `ready`.
fn first_origin(waiting: &VecDeque<Entry>, ready: usize) -> Option<Origin>
    requires { ready ≤ length waiting.now.items }
    ensures { listed result ≡ take 1 (map (λ e. e.origin) (take (length waiting.now.items - ready) waiting.now.items)) }
{
    if waiting.len() == ready {
        return None;
    }
    match waiting.front() {
        Some(entry) => Some(entry.origin),
        None => None,
    }
}

impl<N: StoreName, R: Wait + Drop, D: Disk, C: CommitWatch> Model for KeptWriter<N, R, D, C> {
    ghost use Rattle.rs_journal_writer.specs.Keeping.{KeptValue};
    ghost use Rattle.rs_journal_writer.specs.State.{IsKeeping, ready_in, written_in};

    ghost Value = { KeptValue };

    ghost view = { λ w. record { written = written_in w.writer w.waiting.items w.ready; ready = ready_in w.waiting.items w.ready } };

    ghost invariant = { λ w. IsKeeping N.limit w.limit w.writer w.journal w.waiting.items w.ready w.in_doubt };
}

impl<N: StoreName, R: Wait + Drop, D: Disk + Drop, C: CommitWatch> KeptWriter<N, R, D, C> {
    /// Of a writer and a journal that keeps what is retained after what the writer has published. Give the switch of its disks if they do
    /// not sync at each commit: it is on while the log is copied.
    pub fn new(
        alloc: Global,
        writer: VersionWriter<N, R>,
        journal: Journal<D>,
        limit: TopicLimit,
        switch: Option<Switch>,
        watch: C,
    ) -> KeptWriter<N, R, D, C>
        requires limit { limit ≡ N.limit }
        requires none { writer.held ≡ [] }
        requires stored { Stores journal writer.published }
        ensures written { result.written ≡ shows writer.published }
        ensures ready { result.ready ≡ [] }
    {
        // For the proof: this call says that what is published is legal.
        let _told = writer.tell();
        KeptWriter {
            writer,
            journal,
            limit,
            waiting: VecDeque::new(alloc),
            ready: 0,
            in_doubt: false,
            upkeep: Upkeep::new(alloc, switch),
            watch,
        }
    }

    /// Lets a journal of so many pages be shortened, if it has four times as many as its messages take. Without this call, one of 16,384.
    pub fn set_least_pages(&mut self, pages: u32)
        ensures { self.new ≡ self.old }
    {
        self.upkeep.set_least_pages(pages);
    }

    /// Gives the journal back. What is held is dropped. Whatever a crash leaves of the journal stands for all that was published.
    pub fn into_journal(self) -> Journal<D>
        ensures { IsSafe (may_leave result) self }
    {
        let KeptWriter {
            writer: _,
            journal,
            limit: _,
            waiting: _,
            ready: _,
            in_doubt: _,
            upkeep: _,
            watch: _,
        } = self;
        journal
    }

    /// The same, and whatever a crash leaves of the journal stands for a list that begins with the token's: with all that its holder was told.
    pub fn into_journal_after(self, told: &Told<N>) -> Journal<D>
        ensures { Covers (may_leave result) self told.now }
    {
        let KeptWriter {
            mut writer,
            journal,
            limit: _,
            waiting: _,
            ready: _,
            in_doubt: _,
            upkeep: _,
            watch: _,
        } = self;
        writer.note_covered(told);
        journal
    }

    /// The journal. Whatever a crash leaves of it stands for all that is published.
    pub fn journal(&self) -> &Journal<D>
        ensures { IsSafe (may_leave result.now) self.now }
    {
        &self.journal
    }

    /// Publishes what is held, from the first on, unless a commit is in doubt.
    fn publish_all(&mut self) -> Result<(), AllocError>
        requires { self.old.ready ≡ [] }
        ensures ready { self.new.ready ≡ [] }
        ensures released { MatchResult result (λ _. self.new.written ≡ released self.old.written)
            (λ _. (self.new.written.held ≢ []) × IsReleasedInPart self.old.written self.new.written) }
    {
        if self.in_doubt {
            if self.waiting.is_empty() {
                return Ok(());
            }
            // Refused: the commit may have failed, and only a restart tells.
            return Err(AllocError);
        }
        publish_held(&mut self.writer, &mut self.waiting, self.ready)
    }

    /// Copies the log and shortens the journal, if they are long. If that ends in doubt, so do all commits from then on. Each outcome retains
    /// what is published.
    fn tidy(&mut self)
        requires ready { self.old.ready ≡ [] }
        requires none { self.old.written.held ≡ [] }
        ensures same { self.new ≡ self.old }
    {
        if self.in_doubt || !self.watch.may_commit() {
            return;
        }
        match self
            .upkeep
            .tidy(&mut self.journal, &self.writer, &mut self.watch)
        {
            Ok(()) => {}
            Err(WriteFault::Refused(_)) => {}
            Err(WriteFault::Doubtful(_)) => self.in_doubt = true,
        }
    }

    /// Commits an entry that may come next, and publishes it. If the commit is refused, it is not kept.
    fn add(&mut self, entry: Entry) -> Result<Receipt<N>, PutFault>
        requires ready { self.old.ready ≡ [] }
        requires none { self.old.written.held ≡ [] }
        requires legal { IsLegal N.limit (extended self.old.written.published entry) }
        ensures ready { self.new.ready ≡ [] }
        ensures published { OnOk result (self.new.written ≡ shows (extended self.old.written.published entry)) }
        ensures entry { IfOk result (λ r. r.entry ≡ entry) }
        ensures number { IfOk result (λ r. r.number ≡ length self.new.written.published) }
        ensures told { IfOk result (λ r. r.told ≡ self.new.written.published) }
        ensures legal { OnOk result (IsLegal N.limit self.new.written.published) }
        ensures deferred { IfErr result (λ f. Defers self.old.written entry f self.new.written) }
    {
        if self.in_doubt {
            // Refused: a commit before it is in doubt.
            return Err(PutFault::NoMemory);
        }
        match self.waiting.push_back(entry) {
            Ok(()) => {}
            Err(_) => return Err(PutFault::NoMemory),
        }
        match keep_all(&mut self.journal, &self.waiting, &mut self.watch) {
            Ok(()) => {}
            Err(WriteFault::Refused(_)) => {
                self.waiting.clear();
                return Err(PutFault::NoMemory);
            }
            Err(WriteFault::Doubtful(_)) => {
                self.in_doubt = true;
                return Err(PutFault::Held);
            }
        }
        let receipt = match publish_first(&mut self.writer, &mut self.waiting) {
            Ok(receipt) => receipt,
            Err(_) => return Err(PutFault::Held),
        };
        Ok(receipt)
    }

    /// Publishes what is held, and then the Sweep that comes before the entry, if there is one.
    fn make_space(&mut self, entry: &Entry) -> Result<(), PutFault>
        requires { self.old.ready ≡ [] }
        ensures none { self.new.ready ≡ [] }
        ensures ready { OnOk result (IsReady N.limit self.old.written entry.now self.new.written) }
        ensures refused { IfErr result (λ f. RefusesOf N.limit self.old.written entry.now f self.new.written) }
    {
        match self.publish_all() {
            Ok(()) => {}
            Err(_) => return Err(PutFault::NoMemory),
        }
        match self.writer.judge(entry) {
            Ok(None) => Ok(()),
            Ok(Some(sweep)) => match self.add(sweep) {
                Ok(receipt) => {
                    drop(receipt);
                    Ok(())
                }
                Err(_) => Err(PutFault::NoMemory),
            },
            Err(fault) => Err(fault),
        }
    }

    /// Puts an entry that it was not made ready for.
    fn put_alone(&mut self, entry: Entry) -> Result<Receipt<N>, PutFault>
        requires { self.old.ready ≡ [] }
        ensures ready { self.new.ready ≡ [] }
        ensures published { OnOk result (Adds N.limit (kept_of self.old.written) entry (λ list. self.new.written ≡ shows list)) }
        ensures entry { IfOk result (λ r. r.entry ≡ entry) }
        ensures number { IfOk result (λ r. r.number ≡ length self.new.written.published) }
        ensures told { IfOk result (λ r. r.told ≡ self.new.written.published) }
        ensures legal { OnOk result (IsLegal N.limit self.new.written.published) }
        ensures refused { IfErr result (λ f. RefusesOf N.limit self.old.written entry f self.new.written) }
    {
        // Not `?`, whose conversion of the fault would have to be proved, too.
        if let Err(fault) = self.make_space(&entry) {
            return Err(fault);
        }
        if !self.writer.has_room(&entry) {
            // Refused: its message would count more bytes than there may be.
            return Err(PutFault::NoMemory);
        }
        self.tidy();
        self.add(entry)
    }

    /// Publishes the next of the entries that it was made ready for, behind those that are held.
    fn put_ready(&mut self, entry: Entry) -> Result<Receipt<N>, PutFault>
        requires { (rest : List Entry) × (self.old.ready ≡ entry ∷ rest) }
        ensures ready { self.new.ready ≡ drop 1 self.old.ready }
        ensures published { OnOk result (self.new.written ≡ shows (extended (kept_of self.old.written) entry)) }
        ensures entry { IfOk result (λ r. r.entry ≡ entry) }
        ensures number { IfOk result (λ r. r.number ≡ length self.new.written.published) }
        ensures told { IfOk result (λ r. r.told ≡ self.new.written.published) }
        ensures may { IsLegal N.limit (extended (kept_of self.old.written) entry) }
        ensures refused { IfErr result (λ f. (f ≡ Held) × IsHeldBehind (kept_of self.old.written) self.old.written entry self.new.written) }
    {
        let ready = self.ready;
        self.ready = ready - 1;
        if self.in_doubt {
            return Err(PutFault::Held);
        }
        match publish_held(&mut self.writer, &mut self.waiting, ready) {
            Ok(()) => {}
            Err(_) => return Err(PutFault::Held),
        }
        // It is the first that waits.
        let receipt = match publish_next(&mut self.writer, &mut self.waiting, entry) {
            Ok(receipt) => receipt,
            Err(_) => return Err(PutFault::Held),
        };
        Ok(receipt)
    }

    /// Whether so many changes may be made ready at once: nothing is held, and there is space and room for them, whatever they are.
    fn has_space_for(&self, changes: &VecDeque<Entry>, count: usize) -> bool
        requires { self.now.ready ≡ [] }
        ensures none { result ≡ true → self.now.written.held ≡ [] }
        ensures few { result ≡ true → count ≤ MAX_HELD }
        ensures space { result ≡ true → HasSpaceFor N.limit self.now.written.published count }
    {
        if count > MAX_HELD || self.held_count() > 0 {
            return false;
        }
        if !self.writer.has_space(self.limit, count) {
            return false;
        }
        are_small(changes, count, self.writer.free_bytes())
    }

    /// Commits the first `count` of these changes at once, for which there is space: all of them, or none.
    fn keep_first(&mut self, changes: &VecDeque<Entry>, count: usize)
        requires ready { self.old.ready ≡ [] }
        requires none { self.old.written.held ≡ [] }
        requires few { count ≤ MAX_HELD }
        requires rises { SerialsRise (kept_of self.old.written ++ changes.now.items) }
        requires space { HasSpaceFor N.limit self.old.written.published count }
        ensures same { self.new.written ≡ self.old.written }
        ensures ready { IsReadyFor self.new.ready (take count changes.now.items) }
    {
        if self.in_doubt {
            return;
        }
        match copy_first(changes, count, &mut self.waiting) {
            Ok(()) => {}
            Err(_) => {
                self.waiting.clear();
                return;
            }
        }
        match keep_all(&mut self.journal, &self.waiting, &mut self.watch) {
            Ok(()) => self.ready = self.waiting.len(),
            Err(WriteFault::Refused(_)) => self.waiting.clear(),
            Err(WriteFault::Doubtful(_)) => {
                self.ready = self.waiting.len();
                self.in_doubt = true;
            }
        }
    }
}

impl<N: StoreName, R: Wait + Drop, D: Disk + Drop, C: CommitWatch> StoreWriter<N>
    for KeptWriter<N, R, D, C> {
    ghost use Rattle.rs_journal_writer.specs.declared.kept_writer.TheConstants.{MAX_HELD};

    ghost written = { λ writer. writer.written };

    ghost most_held = { MAX_HELD };

    ghost ready = { λ writer. writer.ready };

    fn makes_ready_at_once(&self) -> bool {
        true
    }

    fn make_ready(&mut self, changes: &VecDeque<Entry>, count: usize) {
        if !self.has_space_for(changes, count) {
            return;
        }
        self.tidy();
        self.keep_first(changes, count);
    }

    fn put(&mut self, entry: Entry) -> Result<Receipt<N>, PutFault> {
        if self.ready == 0 {
            return self.put_alone(entry);
        }
        self.put_ready(entry)
    }

    fn pass_over(&mut self, entry: Entry) -> PutFault {
        drop(entry);
        if self.ready == 0 {
            // Refused: an entry before it is held.
            return PutFault::NoMemory;
        }
        self.ready -= 1;
        PutFault::Held
    }

    fn release(&mut self) -> Result<(), AllocError> {
        self.publish_all()
    }

    fn tell(&self) -> Told<N> {
        self.writer.tell()
    }

    fn note_covered(&mut self, told: &Told<N>) {
        self.writer.note_covered(told);
    }

    fn bytes(&self) -> u64 {
        self.writer.bytes()
    }

    fn topics(&self) -> u32 {
        self.writer.topics()
    }

    fn held(&self) -> Option<Origin> {
        match self.writer.held() {
            Some(origin) => Some(origin),
            None => first_origin(&self.waiting, self.ready),
        }
    }

    fn held_count(&self) -> usize {
        usize::from(self.writer.held().is_some()) + (self.waiting.len() - self.ready)
    }
}
