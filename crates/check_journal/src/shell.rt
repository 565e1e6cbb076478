//! The commands.

ghost use Rattle.std.specs.Prelude.{◌≡◌};

use crate::fault::Fault;
use bytes::Bytes;
use rs_journal::{
    Journal, JournalDisk, NotOpened, OpenFiles, OperationSink, Retained, Switch, Switched,
    WriteFault,
};
use rs_journal_record::{RecordFault, put_record, read_record};
use rs_message::Operation;
use sqlite_disk::{Disk, Files};
use sqlite_std_file::File;
use std::alloc::{AllocError, Global};
use std::time::Instant;

/// The name of the files.
const NAME: &str = "journal";

/// The operations that a journal handed on.
#[derive(Drop)]
struct Taken {
    operations: Vec<Operation>,
}

impl Taken {
    fn new(alloc: Global) -> Taken {
        Taken {
            operations: Vec::new(alloc),
        }
    }

    /// Their records, in hex digits.
    fn digits(&self, alloc: Global) -> Result<String, AllocError> {
        let mut records = Vec::new(alloc);
        for operation in &self.operations {
            put_record(&mut records, operation)?;
        }
        hex::encode(alloc, records.as_slice())
    }
}

impl OperationSink for Taken {
    ghost has_taken = { λ it operations. it.operations.items ≡ operations };

    fn take(&mut self, operation: Operation) -> Result<(), AllocError> {
        self.operations.push(operation)?;
        Ok(())
    }
}

/// The operations of these records, in hex digits.
fn read_operations(alloc: Global, digits: &str) -> Result<Vec<Operation>, Fault> {
    let bytes = match hex::decode(alloc, digits.as_bytes()) {
        Ok(bytes) => bytes,
        Err(hex::FromHexError::OutOfMemory) => return Err(Fault::NoMemory),
        Err(_) => return Err(Fault::Words),
    };
    let mut rest = Bytes::copy_from_slice(alloc, &bytes)?;
    let mut operations = Vec::new(alloc);
    for _ in 0..bytes.len() {
        if rest.is_empty() {
            break;
        }
        match read_record(alloc, &mut rest) {
            Ok(operation) => operations.push(operation)?,
            Err(RecordFault::NoMemory) => return Err(Fault::NoMemory),
            Err(_) => return Err(Fault::Words),
        }
    }
    Ok(operations)
}

/// An open journal over these files, whose operations the sink takes.
fn opened<D: JournalDisk + Drop, S: OperationSink>(
    alloc: Global,
    files: Files<D>,
    sink: &mut S,
) -> Result<Journal<D>, Fault> {
    if !files.may_be_used() {
        return Err(Fault::Io);
    }
    match Journal::open(alloc, files, 7, sink) {
        Ok(journal) => Ok(journal),
        Err(NotOpened { fault, files: _ }) => Err(Fault::Read(fault)),
    }
}

fn push_all<D: Disk>(journal: &mut Journal<D>, operations: &[Operation]) -> Result<(), WriteFault> {
    for operation in operations {
        journal.push(operation)?;
    }
    Ok(())
}

/// Pushes and commits as often as the words say. The nanoseconds.
fn commit_often<D: Disk>(
    rt: &HostRuntime,
    journal: &mut Journal<D>,
    words: &str,
) -> Result<String, Fault> {
    let (count, digits) = words.split_once(' ').unwrap_or((words, ""));
    let Ok(count) = count.parse::<u32>() else {
        return Err(Fault::Words);
    };
    let operations = read_operations(rt.alloc(), digits)?;
    let start = Instant::now(rt)?;
    for _ in 0..count {
        push_all(journal, &operations)?;
        journal.commit()?;
    }
    let took = start.elapsed(rt)?;
    Ok(format!(in rt.alloc(); "{}", took.as_nanos())?)
}

/// The same over files that are not synced meanwhile.
fn commit_unsynced(rt: &HostRuntime, words: &str) -> Result<String, Fault> {
    let alloc = rt.alloc();
    let switch = Switch::new(alloc)?;
    let Files { log, db } = rt.open_files(NAME)?;
    let files = Files {
        log: Switched::new(log, switch.try_clone()?),
        db: Switched::new(db, switch.try_clone()?),
    };
    let mut journal = opened(alloc, files, &mut Retained::new(alloc))?;
    switch.set(false);
    commit_often(rt, &mut journal, words)
}

/// Does a command of an open journal.
fn work(
    rt: &HostRuntime,
    journal: &mut Journal<File>,
    name: &str,
    words: &str,
) -> Result<String, Fault> {
    let alloc = rt.alloc();
    match name {
        "push" => push_all(journal, &read_operations(alloc, words)?)?,
        "commit" => journal.commit()?,
        "sync" => journal.sync()?,
        "anew" => journal.begin_anew()?,
        "checkpoint" => journal.checkpoint()?,
        "again" => {
            let mut taken = Taken::new(alloc);
            journal.read_again(&mut taken)?;
            return Ok(taken.digits(alloc)?);
        }
        "shorten" => {
            let mut retained = Retained::new(alloc);
            journal.read_again(&mut retained)?;
            journal.shorten(&retained)?;
        }
        "pages" => return Ok(format!(in alloc; "{}", journal.page_count())?),
        "often" => return commit_often(rt, journal, words),
        _ => return Err(Fault::Words),
    }
    Ok(String::new(alloc))
}

/// Does a command. The slot has the journal while it is open.
pub fn answer(
    rt: &HostRuntime,
    slot: &mut Option<Journal<File>>,
    line: &str,
) -> Result<String, Fault> {
    let alloc = rt.alloc();
    let (name, words) = line.split_once(' ').unwrap_or((line, ""));
    if !matches!(name, "open" | "retain" | "unsynced" | "close") {
        return match slot {
            Some(journal) => work(rt, journal, name, words),
            None => Err(Fault::Words),
        };
    }
    *slot = None;
    match name {
        "open" => {
            let mut taken = Taken::new(alloc);
            *slot = Some(opened(alloc, rt.open_files(NAME)?, &mut taken)?);
            Ok(taken.digits(alloc)?)
        }
        "retain" => {
            let mut retained = Retained::new(alloc);
            *slot = Some(opened(alloc, rt.open_files(NAME)?, &mut retained)?);
            Ok(format!(in alloc; "{}", retained.len())?)
        }
        "unsynced" => commit_unsynced(rt, words),
        _ => Ok(String::new(alloc)),
    }
}
