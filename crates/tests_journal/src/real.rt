//! Real files.

use crate::script::{Expected, Step, found_in, records_of, run_all};
use rs_journal::{JournalDisk, OpenError, OpenFault, OpenFiles, ReadFault, Switch, Switched};
use sqlite_disk::Files;
use std::fs;
use std::test::Fail;

#[test]
fn real_files_are_kept_locked_and_refused(rt: HostRuntime) -> Result<(), Fail> {
    let alloc = rt.alloc();
    for name in ["journal", "journal-wal", "none", "none-wal"] {
        let _ = fs::remove_file(&rt, name);
    }
    let steps = [Step::Push(2), Step::Commit, Step::Push(3), Step::Commit];
    let files = run_all(
        alloc,
        rt.open_files("journal")?,
        &steps,
        &mut Expected::new(alloc),
    )?;

    // Another opening finds them locked.
    assert!(rt; matches!(rt.open_files("journal"), Err(OpenError::Busy)));
    let found = found_in(alloc, files)?.ok().ok_or("a journal that opens")?;
    assert!(rt; found.as_slice() == records_of(alloc, &[2, 3])?.as_slice());

    // Swapped, they are none of a journal.
    fs::rename(&rt, "journal", "none-wal")?;
    fs::rename(&rt, "journal-wal", "none")?;
    let found = found_in(alloc, rt.open_files("none")?)?;
    assert!(rt; matches!(found, Err(ReadFault::Open(OpenFault::Foreign))));

    // A folder in which no file can be made.
    assert!(rt; matches!(rt.open_files("/proc/journal"), Err(OpenError::Io(_))));
    Ok(())
}

/// Whether an opening refuses what stands in the place of the log, and leaves it.
fn spares_log<D: JournalDisk + Drop>(
    rt: &HostRuntime,
    files: Files<D>,
    log: &[u8],
) -> Result<bool, Fail> {
    let alloc = rt.alloc();
    let found = found_in(alloc, files)?;
    let is_named = matches!(found, Err(ReadFault::Open(OpenFault::ForeignLog)));
    Ok(is_named && fs::read(rt, "foreign-wal")?.as_slice() == log)
}

/// The same files, synced while the switch is on.
fn switched<D: JournalDisk + Drop>(
    files: Files<D>,
    switch: &Switch,
) -> Result<Files<Switched<D>>, Fail> {
    Ok(Files {
        log: Switched::new(files.log, switch.try_clone()?),
        db: Switched::new(files.db, switch.try_clone()?),
    })
}

#[test]
fn a_foreign_log_beside_real_pages_is_spared(rt: HostRuntime) -> Result<(), Fail> {
    let alloc = rt.alloc();
    for name in ["foreign", "foreign-wal"] {
        let _ = fs::remove_file(&rt, name);
    }
    let steps = [Step::Push(2), Step::Commit, Step::Checkpoint];
    run_all(
        alloc,
        rt.open_files("foreign")?,
        &steps,
        &mut Expected::new(alloc),
    )?;
    let text = [b't'; 2000];
    let switch = Switch::new(alloc)?;
    for len in [42, 2000] {
        let log = &text[..len.min(text.len())];
        fs::write(&rt, "foreign-wal", log)?;
        assert!(rt; spares_log(&rt, rt.open_files("foreign")?, log)?);
        for is_on in [true, false] {
            switch.set(is_on);
            let files = switched(rt.open_files("foreign")?, &switch)?;
            assert!(rt; spares_log(&rt, files, log)?);
        }
    }
    Ok(())
}
