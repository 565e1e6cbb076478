//! A writer that keeps what it publishes: what it acknowledged is found after a crash, also if it has shortened the journal.

ghost use Rattle.std.specs.Prelude.{◌≡◌, [], IfOk};
ghost use Rattle.rs_journal_writer.specs.State.{Stores};
ghost use Rattle.rs_version.specs.First.{first_of};

use crate::faulty::Faulty;
use crate::script::{Disks, Image, operation, records_of, retained_after};
use rs_journal::Journal;
use rs_journal_record::put_record;
use rs_journal_writer::{CommitOutcome, CommitWatch, KeptWriter, load};
use rs_message::{Entry, Found, Operation, Origin, PlaceCount};
use rs_store::TopicLimit;
use rs_version::{Blank, StoreName, StoreWriter};
use sqlite_disk::Memory;
use std::alloc::Global;
use std::marker::Brand;
use std::process::Abort;
use std::sync::Wait;
use std::test::Fail;

/// Allows each commit.
#[derive(Drop)]
struct AllowsAll;

impl CommitWatch for AllowsAll {
    fn may_commit(&mut self) -> bool {
        true
    }

    fn begins(&mut self) {}

    fn ends(&mut self, _outcome: &CommitOutcome, _page_count: u32) {}

    fn shortened(&mut self, _before: u32, _outcome: &CommitOutcome, _page_count: u32) {}
}

/// The journal of these files, and what it retains.
fn loaded(alloc: Global, files: Disks) -> Result<(Journal<Faulty<Memory>>, Vec<Found>), Fail>
    ensures { IfOk result (λ r. Stores r.0 (first_of r.1.items)) }
{
    if !files.may_be_used() {
        return Err("files that may be used".into());
    }
    match load(alloc, files, 5) {
        Ok(kept) => Ok(kept),
        Err(_) => Err("files that open".into()),
    }
}

/// What these files retain, as the records of its Sets.
fn retained_in(alloc: Global, files: Disks) -> Result<Vec<u8>, Fail> {
    let (_journal, given) = loaded(alloc, files)?;
    let mut records = Vec::new(alloc);
    for found in given {
        put_record(&mut records, &Operation::Set(found))?;
    }
    Ok(records)
}

/// The numbers of the Sets up to this one.
fn sets_to(alloc: Global, end: u64) -> Result<Vec<u64>, Fail> {
    let mut numbers = Vec::new(alloc);
    for n in 2..end {
        if let Operation::Set(_) = operation(alloc, n)? {
            numbers.push(n)?;
        }
    }
    Ok(numbers)
}

/// A writer over a journal in new files, which may be shortened from so many pages on.
fn new_writer<N: StoreName, R: Wait + Drop>(
    rt: R,
    alloc: Global,
    blank: Blank,
    limit: TopicLimit,
    least_pages: u32,
) -> Result<KeptWriter<N, R, Faulty<Memory>, AllowsAll>, Fail>
    requires store { (blank.history ≡ N.history) × (blank.limit ≡ N.limit) }
    requires limit { limit ≡ N.limit }
    ensures { IfOk result (λ writer. writer.ready ≡ []) }
{
    let (journal, given) = loaded(alloc, Image::new(alloc).sound(alloc)?)?;
    let Ok((writer, _seats)) = blank.open_with::<N, R>(rt, given) else {
        return Err("a store that opens".into());
    };
    let mut writer = KeptWriter::new(alloc, writer, journal, limit, None, AllowsAll);
    writer.set_least_pages(least_pages);
    Ok(writer)
}

/// Puts the Set of this number. It is a failure if it is not acknowledged.
fn put_set<N: StoreName, R: Wait + Drop>(
    alloc: Global,
    writer: &mut KeptWriter<N, R, Faulty<Memory>, AllowsAll>,
    n: u64,
) -> Result<(), Fail>
    requires { writer.old.ready ≡ [] }
    ensures { writer.new.ready ≡ [] }
{
    let origin = Origin::of_line(1, n).ok_or("an origin")?;
    let Operation::Set(found) = operation(alloc, n)? else {
        return Err("a Set".into());
    };
    let entry = Entry {
        origin,
        operation: Operation::Set(found),
    };
    match writer.put(entry) {
        Ok(_) => Ok(()),
        Err(_) => Err("an entry that is kept".into()),
    }
}

/// Puts the Sets of these numbers, one after the other.
fn put_sets<N: StoreName, R: Wait + Drop>(
    alloc: Global,
    writer: &mut KeptWriter<N, R, Faulty<Memory>, AllowsAll>,
    numbers: &[u64],
) -> Result<(), Fail>
    requires { writer.old.ready ≡ [] }
{
    for n in numbers {
        put_set(alloc, writer, *n)?;
    }
    Ok(())
}

/// How many pages a journal has, which may be shortened from so many on, once these Sets were put. Its files, besides.
fn files_after<N: StoreName, R: Wait + Drop>(
    rt: R,
    alloc: Global,
    blank: Blank,
    limit: TopicLimit,
    least_pages: u32,
    numbers: &[u64],
) -> Result<(u32, Disks), Fail>
    requires store { (blank.history ≡ N.history) × (blank.limit ≡ N.limit) }
    requires limit { limit ≡ N.limit }
{
    let mut writer = new_writer::<N, R>(rt, alloc, blank, limit, least_pages)?;
    put_sets(alloc, &mut writer, numbers)?;
    let journal = writer.into_journal();
    Ok((journal.page_count(), journal.close()))
}

/// The same, and a loss of power then. How many pages the journal had. It is a failure if not just what was acknowledged is found.
fn pages_of<R: Wait + Abort + Drop + Copy>(
    rt: R,
    alloc: Global,
    least_pages: u32,
) -> Result<u32, Fail> {
    let limit = TopicLimit::new(10).ok_or("a limit")?;
    let places = PlaceCount::new(1).ok_or("a place")?;
    let blank = Blank::new(alloc, limit, places)?;
    let numbers = sets_to(alloc, 300)?;
    let (pages, mut left) = files_after::<Brand, R>(
        rt,
        alloc,
        blank,
        limit,
        least_pages,
        &numbers,
    )?;
    left.log.restart(true);
    left.db.restart(true);
    let wanted = records_of(alloc, &retained_after(alloc, &numbers)?)?;
    if retained_in(alloc, left)?.as_slice() == wanted.as_slice() {
        Ok(pages)
    } else {
        Err("what was acknowledged".into())
    }
}

#[test]
fn what_was_acknowledged_stands_after_a_crash(rt: HostRuntime) -> Result<(), Fail> {
    let pages = pages_of(rt, rt.alloc(), 16_384)?;
    assert!(rt; pages > 200);
    Ok(())
}

#[test]
fn a_journal_that_was_shortened_has_what_was_acknowledged(rt: HostRuntime) -> Result<(), Fail> {
    let pages = pages_of(rt, rt.alloc(), 40)?;
    assert!(rt; pages < 100);
    Ok(())
}
