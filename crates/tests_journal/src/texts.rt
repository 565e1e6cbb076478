//! What users are told.

use rs_journal::{Error, OpenFault, ReadFault, WriteFault};
use std::test::Fail;

const OPEN_FAULTS: [(OpenFault, &str); 7] = [
    (
        OpenFault::Foreign,
        "the files are not those of a retained store; name another folder, or move them away",
    ),
    (
        OpenFault::Version(2),
        "the files have version 2 of their form and this program reads version 1; use the program that wrote them",
    ),
    (
        OpenFault::Damaged,
        "the files are damaged; restore them from a copy, or move them away to begin with none",
    ),
    (
        OpenFault::LoneLog,
        "the file of pages is empty and its log, which ends in -wal, is not; restore both from a copy, or move the log away to begin with none",
    ),
    (
        OpenFault::ForeignLog,
        "the file whose name ends in -wal is no log of a retained store; move it away, or restore both files from a copy",
    ),
    (
        OpenFault::NoMemory,
        "memory ran out while the files were read; try again later",
    ),
    (
        OpenFault::Disk(Error::Full),
        "the files cannot be read or written: the database or its log is full; look at their disk and permissions, and start again",
    ),
];

const READ_FAULTS: [(ReadFault, &str); 3] = [
    (
        ReadFault::Damaged,
        "the journal is damaged; restore its files from a copy, or move them away to begin with none",
    ),
    (
        ReadFault::NoMemory,
        "memory ran out while the journal was read; try again later",
    ),
    (
        ReadFault::Disk(Error::Closed),
        "the journal cannot be read: the database is closed: open it again; start again, and look at its disk if that does not help",
    ),
];

const WRITE_FAULTS: [(WriteFault, &str); 2] = [
    (
        WriteFault::Refused(Error::OutOfMemory),
        "the journal keeps none of the last changes: out of memory; free space or memory and try again",
    ),
    (
        WriteFault::Doubtful(Error::Full),
        "the journal failed and may keep the last changes or not: the database or its log is full; start again",
    ),
];

#[test]
fn each_fault_says_what_to_do(rt: HostRuntime) -> Result<(), Fail> {
    let alloc = rt.alloc();
    for (fault, text) in OPEN_FAULTS {
        assert!(rt; format!(in alloc; "{fault}")?.as_str() == text);
        let read = ReadFault::Open(fault);
        assert!(rt; format!(in alloc; "{read}")?.as_str() == text);
    }
    for (fault, text) in READ_FAULTS {
        assert!(rt; format!(in alloc; "{fault}")?.as_str() == text);
    }
    for (fault, text) in WRITE_FAULTS {
        assert!(rt; format!(in alloc; "{fault}")?.as_str() == text);
    }
    Ok(())
}
