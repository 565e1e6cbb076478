//! What a journal needs beside commits, so that it and its log stay short.

ghost use Rattle.std.specs.Prelude.{◌≡◌, ◌++◌, [], List, IfErr, IfSome, OnErr, OnOk};
ghost use Rattle.std.specs.List.{All};
ghost use Rattle.rs_journal_record.specs.Records.{IsOperation};
ghost use Rattle.rs_message.specs.declared.entry.Entry.{Entry};
ghost use Rattle.rs_message.specs.declared.entry.Operation.{Operation as Kept};
ghost use Rattle.rs_journal.specs.Journals.{AddsNoOutcome, Holds, Rests};
ghost use Rattle.rs_journal.specs.Writing.{IsRefused};
ghost use Rattle.rs_journal_writer.specs.State.{IsSure, Lists, MayStore, Stores, sets_for};

use crate::watching::{CommitOutcome, CommitWatch};
use rs_journal::{Error, Journal, Retained, Switch, WriteFault};
use rs_message::{Found, Operation};
use rs_store::TOPIC_BYTES;
use rs_version::{StoreName, VersionWriter};
use sqlite_disk::Disk;
use std::alloc::Global;
use std::sync::Wait;

/// A journal with fewer pages than these 16 megabytes is not shortened.
const LEAST_PAGES: u32 = 16_384;

/// How many times as long as its messages a journal is that is shortened.
const TIMES_AS_LONG: u64 = 4;

/// How many bytes of operations a page has at most.
const PAGE_BYTES: u64 = 1_014;

/// When a journal is shortened, and its log copied.
#[derive(Drop)]
pub struct Upkeep {
    alloc: Global,
    // On while the log is copied, over disks that do not sync at each commit.
    switch: Option<Switch>,
    // With fewer pages the log is not copied, since that failed.
    copies_from: u32,
    // With fewer pages the journal is not shortened: `least_pages`, or more, since that failed.
    shortens_from: u32,
    least_pages: u32,
}

/// How many pages these messages take, about. It is an estimate: each record has a few bytes beside its topic and message.
fn pages_for(bytes: u64, topics: u32) -> u64 {
    let beside = TOPIC_BYTES.saturating_mul(u64::from(topics));
    bytes.saturating_sub(beside) / PAGE_BYTES + 1
}

/// With how many pages a journal of so many is tried next.
fn a_quarter_more(pages: u32) -> u32 {
    pages.saturating_add(pages / 4).saturating_add(1)
}

/// Begins a journal anew, with a Set of each of these messages. Nothing is committed.
fn push_anew<D: Disk>(journal: &mut Journal<D>, found: Vec<Found>) -> Result<(), WriteFault>
    ensures pushed { OnOk result ((standing seen : List Kept) → Holds journal.old standing seen → Holds journal.new standing (sets_for found.items)) }
    ensures formed { OnOk result (All IsOperation (sets_for found.items)) }
    ensures kind { IfErr result IsRefused }
    ensures refused { OnErr result ((standing seen : List Kept) → Holds journal.old standing seen → Rests journal.new standing) }
    ensures crash { AddsNoOutcome journal.old journal.new }
{
    if let Err(fault) = journal.begin_anew() {
        return Err(fault);
    }
    for message in found {
        match journal.push(&Operation::Set(message)) {
            Ok(()) => {}
            Err(fault) => return Err(fault),
        }
    }
    Ok(())
}

/// In one commit, puts a Set of each of these messages, which are those that are retained, in the place of all operations.
fn replace<D: Disk>(journal: &mut Journal<D>, found: Vec<Found>) -> Result<(), WriteFault>
    ensures sure { IsSure result → (before : List Entry) → Stores journal.old before → Lists journal.old before found.items → Stores journal.new before }
    ensures crash { (before : List Entry) → Stores journal.old before → Lists journal.old before found.items → MayStore journal.new before [] }
{
    if let Err(fault) = push_anew(journal, found) {
        return Err(fault);
    }
    match journal.commit() {
        Ok(()) => Ok(()),
        Err(fault) => Err(fault),
    }
}

/// Reads the messages that are retained after what the journal keeps. `None` if that fails.
fn read_list<D: Disk>(journal: &mut Journal<D>, alloc: Global) -> Option<Vec<Found>>
    ensures stores { (before : List Entry) → Stores journal.old before → Stores journal.new before }
    ensures lists { IfSome result (λ found. (before : List Entry) → Stores journal.old before → Lists journal.new before found.items) }
{
    let mut retained = Retained::new(alloc);
    match journal.read_again(&mut retained) {
        Ok(()) => {}
        Err(_) => return None,
    }
    match retained.list(alloc) {
        Ok(found) => Some(found),
        Err(_) => None,
    }
}

/// The messages that are retained after what is published, as the writer has them, or else as the journal does.
fn list_all<N: StoreName, R: Wait + Drop, D: Disk>(
    journal: &mut Journal<D>,
    writer: &VersionWriter<N, R>,
    alloc: Global,
) -> Option<Vec<Found>>
    ensures stores { Stores journal.old writer.now.published → Stores journal.new writer.now.published }
    ensures lists { IfSome result (λ found. Stores journal.old writer.now.published → Lists journal.new writer.now.published found.items) }
{
    match writer.retained(alloc) {
        Ok(Some(found)) => Some(found),
        Ok(None) => read_list(journal, alloc),
        Err(_) => None,
    }
}

/// Shortens the journal to the messages that are retained after what is published.
fn shorten<N: StoreName, R: Wait + Drop, D: Disk>(
    journal: &mut Journal<D>,
    writer: &VersionWriter<N, R>,
    alloc: Global,
) -> Result<(), WriteFault>
    ensures sure { IsSure result → Stores journal.old writer.now.published → Stores journal.new writer.now.published }
    ensures crash { Stores journal.old writer.now.published → MayStore journal.new writer.now.published [] }
{
    match list_all(journal, writer, alloc) {
        Some(found) => replace(journal, found),
        // Refused: reading or listing the messages.
        None => Err(WriteFault::Refused(Error::OutOfMemory)),
    }
}

/// Copies the log into the file of pages.
fn copy_log<D: Disk>(journal: &mut Journal<D>) -> Result<(), WriteFault>
    ensures sure { (before : List Entry) → Stores journal.old before → Stores journal.new before }
    ensures kind { IsSure result }
{
    match journal.checkpoint() {
        Ok(()) => Ok(()),
        Err(error) => Err(WriteFault::Refused(error)),
    }
}

/// Syncs the log by a commit of nothing.
fn sync_log<D: Disk, C: CommitWatch>(
    journal: &mut Journal<D>,
    watch: &mut C,
) -> Result<(), WriteFault>
    ensures sure { IsSure result → (before : List Entry) → Stores journal.old before → Stores journal.new before }
    ensures crash { (before : List Entry) → Stores journal.old before → MayStore journal.new before [] }
{
    watch.begins();
    let synced = journal.sync();
    watch.ends(&CommitOutcome::of(&synced), journal.page_count());
    synced
}

/// Syncs the log and copies it then.
fn copy_synced<D: Disk, C: CommitWatch>(
    journal: &mut Journal<D>,
    watch: &mut C,
) -> Result<(), WriteFault>
    ensures sure { IsSure result → (before : List Entry) → Stores journal.old before → Stores journal.new before }
    ensures crash { (before : List Entry) → Stores journal.old before → MayStore journal.new before [] }
{
    match sync_log(journal, watch) {
        Ok(()) => copy_log(journal),
        Err(fault) => Err(fault),
    }
}

impl Upkeep {
    /// Of a journal over disks that sync at each commit, or while this switch is on.
    pub fn new(alloc: Global, switch: Option<Switch>) -> Upkeep {
        Upkeep {
            alloc,
            switch,
            copies_from: 0,
            shortens_from: LEAST_PAGES,
            least_pages: LEAST_PAGES,
        }
    }

    /// Lets a journal of so many pages be shortened, if it is long for its messages.
    pub fn set_least_pages(&mut self, pages: u32) {
        self.shortens_from = pages;
        self.least_pages = pages;
    }

    /// Copies the log, with syncs.
    fn copy<D: Disk, C: CommitWatch>(
        &self,
        journal: &mut Journal<D>,
        watch: &mut C,
    ) -> Result<(), WriteFault>
        ensures sure { IsSure result → (before : List Entry) → Stores journal.old before → Stores journal.new before }
        ensures crash { (before : List Entry) → Stores journal.old before → MayStore journal.new before [] }
    {
        match &self.switch {
            Some(switch) => {
                switch.set(true);
                let result = copy_synced(journal, watch);
                switch.set(false);
                result
            }
            None => copy_log(journal),
        }
    }

    /// Copies the log if it is long.
    pub fn copy_if_long<D: Disk, C: CommitWatch>(
        &mut self,
        journal: &mut Journal<D>,
        watch: &mut C,
    ) -> Result<(), WriteFault>
        ensures sure { IsSure result → (before : List Entry) → Stores journal.old before → Stores journal.new before }
        ensures crash { (before : List Entry) → Stores journal.old before → MayStore journal.new before [] }
    {
        let pages = journal.page_count();
        if pages < self.copies_from || !journal.is_log_long() {
            return Ok(());
        }
        let result = self.copy(journal, watch);
        self.copies_from = match &result {
            Ok(()) => 0,
            Err(_) => a_quarter_more(pages),
        };
        result
    }

    /// Whether a journal of so many pages is long for these messages.
    fn is_long(&self, pages: u32, bytes: u64, topics: u32) -> bool {
        pages >= self.shortens_from && u64::from(pages) / TIMES_AS_LONG >= pages_for(bytes, topics)
    }

    /// Shortens the journal if it is long for the messages that are published.
    pub fn shorten_if_long<N: StoreName, R: Wait + Drop, D: Disk, C: CommitWatch>(
        &mut self,
        journal: &mut Journal<D>,
        writer: &VersionWriter<N, R>,
        watch: &mut C,
    ) -> Result<(), WriteFault>
        ensures sure { IsSure result → Stores journal.old writer.now.published → Stores journal.new writer.now.published }
        ensures crash { Stores journal.old writer.now.published → MayStore journal.new writer.now.published [] }
    {
        let pages = journal.page_count();
        if !self.is_long(pages, writer.bytes(), writer.topics()) {
            return Ok(());
        }
        let result = shorten(journal, writer, self.alloc);
        watch.shortened(pages, &CommitOutcome::of(&result), journal.page_count());
        self.shortens_from = match &result {
            Ok(()) => self.least_pages,
            Err(_) => a_quarter_more(pages),
        };
        result
    }

    /// Copies the log and shortens the journal, if they are long. An error that is no doubt is not told: the journal keeps what it kept.
    pub fn tidy<N: StoreName, R: Wait + Drop, D: Disk, C: CommitWatch>(
        &mut self,
        journal: &mut Journal<D>,
        writer: &VersionWriter<N, R>,
        watch: &mut C,
    ) -> Result<(), WriteFault>
        ensures sure { IsSure result → Stores journal.old writer.now.published → Stores journal.new writer.now.published }
        ensures crash { Stores journal.old writer.now.published → MayStore journal.new writer.now.published [] }
    {
        match self.copy_if_long(journal, watch) {
            Ok(()) => self.shorten_if_long(journal, writer, watch),
            Err(WriteFault::Refused(_)) => self.shorten_if_long(journal, writer, watch),
            Err(WriteFault::Doubtful(error)) => Err(WriteFault::Doubtful(error)),
        }
    }
}
