//! When files are synced, what a closed journal does, and when a log is long.

use crate::faulty::{Failing, Faulty};
use crate::script::{Image, Taken, opened, operation, refuses};
use rs_journal::{Journal, JournalDisk, Switch, Switched, WriteFault};
use sqlite_disk::{Files, Memory};
use std::alloc::Global;
use std::test::Fail;

/// A disk in memory of which each sync fails that is made.
fn disk(alloc: Global, switch: &Switch) -> Result<Switched<Faulty<Memory>>, Fail> {
    let faulty = Faulty::new(alloc, Memory::new(alloc), Failing::Syncs, u64::MAX);
    Ok(Switched::new(faulty, switch.try_clone()?))
}

/// An open journal over these files.
fn journal_of<D: JournalDisk + Drop>(alloc: Global, files: Files<D>) -> Result<Journal<D>, Fail> {
    match opened(alloc, files, &mut Taken::new(alloc)) {
        Ok(journal) => Ok(journal),
        Err(_) => Err("a journal that opens".into()),
    }
}

/// An open journal over two such disks, whose switch is off.
fn unsynced(alloc: Global, switch: &Switch) -> Result<Journal<Switched<Faulty<Memory>>>, Fail> {
    switch.set(false);
    let files = Files {
        log: disk(alloc, switch)?,
        db: disk(alloc, switch)?,
    };
    journal_of(alloc, files)
}

#[test]
fn a_commit_syncs_while_the_switch_is_on(rt: HostRuntime) -> Result<(), Fail> {
    let alloc = rt.alloc();
    let switch = Switch::new(alloc)?;
    let mut journal = unsynced(alloc, &switch)?;
    assert!(rt; journal.push(&operation(alloc, 2)?).is_ok());
    assert!(rt; journal.commit().is_ok());

    // The sync of a commit fails, so that it is in doubt and the journal is closed.
    switch.set(true);
    assert!(rt; journal.push(&operation(alloc, 3)?).is_ok());
    assert!(rt; matches!(journal.commit(), Err(WriteFault::Doubtful(_))));
    assert!(rt; refuses(alloc, &mut journal)?);
    Ok(())
}

#[test]
fn a_sync_writes_though_nothing_was_pushed(rt: HostRuntime) -> Result<(), Fail> {
    let alloc = rt.alloc();
    let switch = Switch::new(alloc)?;
    let mut journal = unsynced(alloc, &switch)?;
    let pages = journal.page_count();
    assert!(rt; journal.sync().is_ok());
    assert!(rt; journal.page_count() > pages);

    // A commit of nothing makes no sync, and so none that fails.
    switch.set(true);
    assert!(rt; journal.commit().is_ok());
    assert!(rt; matches!(journal.sync(), Err(WriteFault::Doubtful(_))));
    assert!(rt; refuses(alloc, &mut journal)?);
    Ok(())
}

#[test]
fn a_log_is_long_after_some_thousand_pages(rt: HostRuntime) -> Result<(), Fail> {
    let alloc = rt.alloc();
    let mut journal = journal_of(alloc, Image::new(alloc).sound(alloc)?)?;
    assert!(rt; journal.is_log_long());
    assert!(rt; journal.checkpoint().is_ok());
    assert!(rt; !journal.is_log_long());

    // Each takes somewhat less than three pages.
    let large = operation(alloc, 32)?;
    for _ in 0..1500u32 {
        assert!(rt; journal.push(&large).is_ok());
    }
    assert!(rt; journal.page_count() > 4000);

    // Most of them are in the log already, so nothing is copied.
    assert!(rt; journal.checkpoint().is_ok());
    assert!(rt; journal.is_log_long());
    assert!(rt; journal.commit().is_ok());
    assert!(rt; journal.is_log_long());

    // No commit copies the log by itself.
    let files = journal.close();
    assert!(rt; files.db.inner.bytes().len() < 100_000);
    let mut journal = journal_of(alloc, files)?;
    assert!(rt; journal.checkpoint().is_ok());
    assert!(rt; !journal.is_log_long());
    assert!(rt; journal.close().db.inner.bytes().len() > 4_000_000);
    Ok(())
}
