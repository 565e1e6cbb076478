//! Entries that are kept in a journal.

ghost use Rattle.std.specs.Prelude.{◌≡◌, ◌++◌, [], List, take, IfErr, IfOk, OnErr, OnOk};
ghost use Rattle.std.specs.List.{All};
ghost use Rattle.rs_journal_record.specs.Records.{IsOperation};
ghost use Rattle.rs_message.specs.declared.entry.Entry.{Entry};
ghost use Rattle.rs_message.specs.declared.entry.Operation.{Operation as Kept};
ghost use Rattle.rs_journal.specs.Journals.{Holds, Rests};
ghost use Rattle.rs_journal.specs.Restarting.{operations_of};
ghost use Rattle.rs_journal.specs.Writing.{IsRefused};
ghost use Rattle.rs_journal_writer.specs.State.{MayStore, Stores};
ghost use Rattle.rs_version.specs.Space.{HaveOrigins};

use crate::watching::{CommitOutcome, CommitWatch};
use rs_journal::{Error, Journal, WriteFault};
use rs_message::{Entry, Operation};
use rs_store::bytes_of;
use sqlite_disk::Disk;
use std::alloc::AllocError;
use std::collections::VecDeque;

/// Whether the messages of the first `count` of these changes count no more than `free` bytes, whatever they replace.
pub fn are_small(changes: &VecDeque<Entry>, count: usize, free: u64) -> bool {
    let mut left = free;
    for index in 0..count.min(changes.len()) {
        let Some(change) = changes.get(index) else {
            unreachable!()
        };
        if let Operation::Set(found) = &change.operation {
            let bytes = bytes_of(found.topic(), found.message());
            if bytes > left {
                return false;
            }
            left -= bytes;
        }
    }
    true
}

/// Adds copies of the first `count` of these changes to an empty list. If it fails, some are added.
pub fn copy_first(
    changes: &VecDeque<Entry>,
    count: usize,
    list: &mut VecDeque<Entry>,
) -> Result<(), AllocError>
    requires { list.old.items ≡ [] }
    ensures copies { OnOk result (list.new.items ≡ take count changes.now.items) }
    ensures origins { OnOk result (HaveOrigins list.new.items) }
{
    for index in 0..count.min(changes.len()) {
        let Some(change) = changes.get(index) else {
            unreachable!()
        };
        let copy = change.copy()?;
        // For the proof: these calls say which places and serials an origin may have.
        let (_place, _serial) = (copy.origin.place(), copy.origin.serial());
        match list.push_back(copy) {
            Ok(()) => {}
            Err(_) => return Err(AllocError),
        }
    }
    Ok(())
}

/// Pushes the operation of each of these entries.
fn push_all<D: Disk>(journal: &mut Journal<D>, entries: &VecDeque<Entry>) -> Result<(), WriteFault>
    ensures pushed { OnOk result ((standing seen : List Kept) → Holds journal.old standing seen → Holds journal.new standing (seen ++ operations_of entries.now.items)) }
    ensures formed { OnOk result (All IsOperation (operations_of entries.now.items)) }
    ensures kind { IfErr result IsRefused }
    ensures refused { OnErr result ((standing seen : List Kept) → Holds journal.old standing seen → Rests journal.new standing) }
{
    for index in 0..entries.len() {
        let Some(entry) = entries.get(index) else {
            unreachable!()
        };
        match journal.push(&entry.operation) {
            Ok(()) => {}
            Err(fault) => return Err(fault),
        }
    }
    Ok(())
}

/// Commits the operations of these entries, in one commit, behind what the journal keeps. The errors are those of a commit.
fn commit_all<D: Disk>(
    journal: &mut Journal<D>,
    entries: &VecDeque<Entry>,
) -> Result<(), WriteFault>
    ensures kept { OnOk result ((before : List Entry) → Stores journal.old before → Stores journal.new (before ++ entries.now.items)) }
    ensures refused { IfErr result (λ e. IsRefused e → (before : List Entry) → Stores journal.old before → Stores journal.new before) }
    ensures crash { (before : List Entry) → Stores journal.old before → MayStore journal.new before entries.now.items }
{
    if let Err(fault) = push_all(journal, entries) {
        return Err(fault);
    }
    match journal.commit() {
        Ok(()) => Ok(()),
        Err(fault) => Err(fault),
    }
}

/// The same, if the watch allows it, which is told how it ends.
pub fn keep_all<D: Disk, C: CommitWatch>(
    journal: &mut Journal<D>,
    entries: &VecDeque<Entry>,
    watch: &mut C,
) -> Result<(), WriteFault>
    ensures kept { OnOk result ((before : List Entry) → Stores journal.old before → Stores journal.new (before ++ entries.now.items)) }
    ensures refused { IfErr result (λ e. IsRefused e → (before : List Entry) → Stores journal.old before → Stores journal.new before) }
    ensures crash { (before : List Entry) → Stores journal.old before → MayStore journal.new before entries.now.items }
{
    if !watch.may_commit() {
        // Refused: what was committed before may not be on the disk.
        return Err(WriteFault::Refused(Error::Closed));
    }
    watch.begins();
    let result = commit_all(journal, entries);
    watch.ends(&CommitOutcome::of(&result), journal.page_count());
    result
}
