//! Files whose bytes were changed or cut off.

use crate::script::{
    Disks, Expected, Image, Step, Taken, file_of, found_in, opened, records_of, run_all,
};
use rs_journal::{OpenFault, ReadFault};
use sqlite_disk::Disk;
use std::alloc::Global;
use std::test::Fail;

/// A commit, and one more over three pages.
const FIRST: [Step; 3] = [Step::Push(2), Step::Push(3), Step::Commit];

const BOTH: [Step; 6] = [
    Step::Push(2),
    Step::Push(3),
    Step::Commit,
    Step::Push(4),
    Step::Push(32),
    Step::Commit,
];

/// Whether these are the records of all that was committed at some time, and how often that was.
fn commits_of(alloc: Global, found: &[u8]) -> Result<Option<u8>, Fail> {
    if found.is_empty() {
        return Ok(Some(0));
    }
    if found == records_of(alloc, &[2, 3])?.as_slice() {
        return Ok(Some(1));
    }
    if found == records_of(alloc, &[2, 3, 4, 32])?.as_slice() {
        return Ok(Some(2));
    }
    Ok(None)
}

/// The files of a journal that did these steps.
fn kept(alloc: Global, steps: &[Step]) -> Result<Disks, Fail> {
    run_all(
        alloc,
        Image::new(alloc).sound(alloc)?,
        steps,
        &mut Expected::new(alloc),
    )
}

/// The files of a journal that did these steps, with this byte in the file of pages.
fn spoiled(alloc: Global, steps: &[Step], at: usize, byte: u8) -> Result<Disks, Fail> {
    let mut files = kept(alloc, steps)?;
    if !files.may_be_used() {
        return Err("files that may be used".into());
    }
    files.db.write_at(at, &[byte])?;
    Ok(files)
}

/// The fault of an opening after one byte of page 1 was changed.
fn with_byte(alloc: Global, at: usize, byte: u8) -> Result<Option<ReadFault>, Fail> {
    Ok(found_in(alloc, spoiled(alloc, &BOTH, at, byte)?)?.err())
}

#[test]
fn each_byte_of_the_head_is_looked_at(rt: HostRuntime) -> Result<(), Fail> {
    for at in 0..24 {
        let fault = with_byte(rt.alloc(), at, 0xEE)?;
        let is_named = match fault {
            Some(ReadFault::Open(OpenFault::Foreign)) => at < 7,
            Some(ReadFault::Open(OpenFault::Version(0xEE))) => at == 7,
            Some(ReadFault::Open(OpenFault::Damaged)) => at > 7,
            _ => false,
        };
        assert!(rt; is_named, "byte {at}");
    }
    Ok(())
}

/// A commit that was copied out of the log.
const COPIED: [Step; 4] = [Step::Push(2), Step::Push(3), Step::Commit, Step::Checkpoint];

/// Places of bytes in the file of pages: of the name, of the version, of the number of the first page, of the number of page 2, of the
/// length of the first record, and of the kind of the first operation.
const PLACES: [usize; 6] = [0, 7, 8, 1024, 1034, 1038];

/// Whether this is the fault of files in which the byte at one of these places was changed.
fn is_refused_at(at: usize, fault: Option<ReadFault>) -> bool {
    match fault {
        Some(ReadFault::Open(OpenFault::Foreign)) => at == 0,
        Some(ReadFault::Open(OpenFault::Version(0xEE))) => at == 7,
        Some(ReadFault::Open(OpenFault::Damaged)) => at == 8 || at == 1024,
        Some(ReadFault::Damaged) => at == 1034 || at == 1038,
        _ => false,
    }
}

/// The fault of files that do not open, the files, and whether they have the bytes that they had.
fn refusal(alloc: Global, files: Disks) -> Result<(Option<ReadFault>, Disks, bool), Fail> {
    let before = Image::of(alloc, &files)?;
    let Err(refused) = opened(alloc, files, &mut Taken::new(alloc)) else {
        return Err("files that do not open".into());
    };
    let after = Image::of(alloc, &refused.files)?;
    let is_kept = after.db.as_slice() == before.db.as_slice()
        && after.log.as_slice() == before.log.as_slice();
    Ok((refused.fault, refused.files, is_kept))
}

/// Behind page 1 the log may be written to, so what stands there is asked by a second opening.
#[test]
fn refused_pages_are_not_touched(rt: HostRuntime) -> Result<(), Fail> {
    let alloc = rt.alloc();
    for at in PLACES {
        let files = spoiled(alloc, &COPIED, at, 0xEE)?;
        let before = Image::of(alloc, &files)?;
        let (fault, files, is_kept) = refusal(alloc, files)?;
        assert!(rt; is_refused_at(at, fault), "byte {at}");
        assert!(rt; is_kept || at > 1023, "byte {at}");
        let after = Image::of(alloc, &files)?;
        assert!(rt; after.db.as_slice() == before.db.as_slice(), "byte {at}");
        let (again, _, _) = refusal(alloc, files)?;
        assert!(rt; is_refused_at(at, again), "byte {at} again");
    }
    // All commits in the log, and page 1 alone in the file of pages.
    for at in [0, 7, 8] {
        let (fault, _, is_kept) = refusal(alloc, spoiled(alloc, &BOTH, at, 0xEE)?)?;
        assert!(rt;
            is_kept && is_refused_at(at, fault),
            "byte {at} of page 1 alone"
        );
    }
    Ok(())
}

/// Files with these bytes.
fn files_of(alloc: Global, log: &[u8], db: &[u8]) -> Result<Disks, Fail> {
    let image = Image {
        log: Vec::from_slice(alloc, log)?,
        db: Vec::from_slice(alloc, db)?,
    };
    image.sound(alloc)
}

#[test]
fn swapped_and_foreign_files_are_not_touched(rt: HostRuntime) -> Result<(), Fail> {
    let alloc = rt.alloc();
    let text = [b't'; 2000];
    for steps in [BOTH.as_slice(), COPIED.as_slice()] {
        let Image { log, db } = Image::of(alloc, &kept(alloc, steps)?)?;
        for (as_log, as_db) in [
            (db.as_slice(), log.as_slice()),
            (log.as_slice(), text.as_slice()),
            (log.as_slice(), &text[..700]),
            (log.as_slice(), &text[..2]),
            (text.as_slice(), &text[..700]),
        ] {
            let (fault, _, is_kept) = refusal(alloc, files_of(alloc, as_log, as_db)?)?;
            assert!(rt; matches!(fault, Some(ReadFault::Open(OpenFault::Foreign))));
            assert!(rt; is_kept);
        }
    }
    Ok(())
}

#[test]
fn a_log_without_its_pages_is_not_touched(rt: HostRuntime) -> Result<(), Fail> {
    let alloc = rt.alloc();
    let whole = kept(alloc, &BOTH)?;
    let log = whole.log.inner.bytes();
    for len in [42, 56, 500, 1104, log.len()] {
        let front = &log[..len.min(log.len())];
        let (fault, _, is_kept) = refusal(alloc, files_of(alloc, front, &[])?)?;
        assert!(rt;
            matches!(fault, Some(ReadFault::Open(OpenFault::LoneLog))),
            "{len} bytes"
        );
        assert!(rt; is_kept, "{len} bytes");
    }
    // A crash while the files are made may leave as many bytes in the log, whatever they are.
    for bytes in [&log[..log.len().min(41)], [b't'; 41].as_slice()] {
        let found = found_in(alloc, files_of(alloc, bytes, &[])?)?;
        assert!(rt; found.is_ok());
    }
    Ok(())
}

/// How many commits are found if the log is this one.
fn with_log(alloc: Global, log: &[u8]) -> Result<Option<u8>, Fail> {
    let mut files = kept(alloc, &BOTH)?;
    files.log.inner = file_of(alloc, log)?;
    match found_in(alloc, files)? {
        Ok(records) => commits_of(alloc, &records),
        Err(_) => Ok(None),
    }
}

#[test]
fn a_torn_log_keeps_whole_commits(rt: HostRuntime) -> Result<(), Fail> {
    let alloc = rt.alloc();
    let whole = kept(alloc, &BOTH)?;
    let log = whole.log.inner.bytes();
    let first = kept(alloc, &FIRST)?;
    let before = first.log.inner.bytes().len();
    let mut most = 0;
    for len in 0..log.len() {
        if len % 41 == 0 {
            let commits = with_log(alloc, &log[..len])?.ok_or("whole commits")?;
            assert!(rt; commits >= most, "{len} bytes of the log");
            most = commits;
        }
    }
    // Each byte of its head, and some of those behind.
    for at in 0..log.len() {
        if at < 32 || at % 29 == 0 {
            let mut torn = Vec::from_slice(alloc, log)?;
            torn[at] ^= 0x5A;
            let commits = with_log(alloc, &torn)?.ok_or("whole commits")?;
            assert!(rt; at < before || commits > 0, "byte {at} of the log");
        }
    }
    Ok(())
}
