//! A folder that keeps the messages of a server.

ghost use Rattle.std.specs.Prelude.{◌≡◌};
ghost use Rattle.rs_journal_writer.specs.State.{Stores};
ghost use Rattle.rs_version.specs.First.{first_of};

use crate::fault::KeepFault;
use crate::syncing::THREAD_DESCRIPTORS;
use rs_journal::{Journal, JournalDisk, NotOpened, OpenFiles, Switch, Switched};
use rs_journal_writer::load;
use rs_message::Found;
use rs_store::{TopicLimit, bytes_of};
use sqlite_disk::{Disk, Files};
use sqlite_std_file::File;
use std::alloc::Global;
use std::fs::{DirBuilder, OpenOptions};
use std::io::ErrorKind;
use std::marker::Model;
use std::os::unix::fs::DirBuilderExt;
use std::path::Path;
use std::time::Clock;
use std::{fs, io, rt};

/// The name of a journal's file. Its log has the same name, and `-wal` behind it.
const NAME: &str = "retained";

/// How many files a journal has.
const FILES: u8 = 2;

/// When changes are synced to the disk that are kept in a folder.
#[derive(Clone, Copy, Debug, PartialEq, Eq)]
pub enum SyncPolicy {
    /// Before anybody is told of them: a power cut takes back nothing that anybody was told.
    Always,
    /// Each second. A power cut takes back what was told in the last seconds, a crash of the process nothing.
    Second,
    /// When the system writes them. A power cut takes back what was told in the last half minute or so, a crash of the process nothing.
    Never,
}

/// An open journal, and the messages that it keeps. Contracts see these.
#[derive(Drop)]
pub(crate) struct Kept<D: Disk> {
    journal: Journal<D>,
    given: Vec<Found>,
}

impl<D: Disk> Model for Kept<D> {
    ghost use Rattle.std.specs.Prelude.{List};
    ghost use Rattle.rs_journal_writer.specs.State.{Stores};
    ghost use Rattle.rs_message.specs.declared.found.Found.{Found as Message};
    ghost use Rattle.rs_version.specs.First.{first_of};

    ghost Value = { List Message };

    ghost view = { λ k. k.given.items };

    ghost invariant = { λ k. Stores k.journal (first_of k.given.items) };
}

impl<D: Disk> Kept<D> {
    /// The messages.
    pub(crate) fn given(&self) -> &[Found] {
        &self.given
    }

    /// How many pages the journal has.
    fn page_count(&self) -> u32 {
        self.journal.page_count()
    }

    /// The journal and the messages.
    pub(crate) fn into_parts(self) -> (Journal<D>, Vec<Found>)
        ensures stored { Stores result.0 (first_of result.1.items) }
        ensures given { result.1.items ≡ self }
    {
        let Kept { journal, given } = self;
        (journal, given)
    }
}

/// The journal of a folder, by when it is synced.
#[derive(Drop)]
pub(crate) enum KeptFolder {
    /// At each commit.
    Synced(Kept<File>),
    /// While the switch is on.
    Switched {
        kept: Kept<Switched<File>>,
        switch: Switch,
        /// The log once more, if a thread is to sync it each second.
        log: Option<fs::File>,
    },
}

impl KeptFolder {
    /// The messages that the folder keeps.
    pub(crate) fn given(&self) -> &[Found] {
        match self {
            KeptFolder::Synced(kept) => kept.given(),
            KeptFolder::Switched { kept, .. } => kept.given(),
        }
    }

    /// How many pages the journal has.
    pub(crate) fn page_count(&self) -> u32 {
        match self {
            KeptFolder::Synced(kept) => kept.page_count(),
            KeptFolder::Switched { kept, .. } => kept.page_count(),
        }
    }

    /// How many descriptors it needs while a server runs: those of its two files, and for a thread that syncs, one more and its own.
    pub(crate) fn descriptors(&self) -> u8 {
        match self {
            KeptFolder::Switched { log: Some(_), .. } => FILES + 1 + THREAD_DESCRIPTORS,
            KeptFolder::Synced(_) | KeptFolder::Switched { .. } => FILES,
        }
    }
}

/// Opens the folder, which is made if it is missing, and reads what it keeps.
pub(crate) fn open_folder<H: OpenFiles + rt::Files<File = fs::File> + Clock>(
    rt: &H,
    alloc: Global,
    folder: &str,
    sync: SyncPolicy,
) -> Result<KeptFolder, KeepFault> {
    make_folder(rt, folder)?;
    let path = format!(in alloc; "{folder}/{NAME}")?;
    let files = rt.open_files(path.as_str())?;
    let seed = seed(rt)?;
    if sync == SyncPolicy::Always {
        return Ok(KeptFolder::Synced(load_kept(alloc, files, seed)?));
    }
    let log = match sync {
        SyncPolicy::Second => Some(open_log(rt, alloc, path.as_str())?),
        SyncPolicy::Always | SyncPolicy::Never => None,
    };
    let switch = Switch::new(alloc)?;
    let Files { log: kept_log, db } = files;
    let files = Files {
        log: Switched::new(kept_log, switch.try_clone()?),
        db: Switched::new(db, switch.try_clone()?),
    };
    let kept = load_kept(alloc, files, seed)?;
    Ok(KeptFolder::Switched { kept, switch, log })
}

/// Makes the folder for this user alone, if it is missing, and lets it stay through a power cut.
fn make_folder<H: rt::Files<File = fs::File>>(rt: &H, folder: &str) -> Result<(), KeepFault> {
    match DirBuilder::new().mode(0o700).create(rt, folder) {
        Ok(()) => {}
        Err(error) if error.kind() == ErrorKind::AlreadyExists => return Ok(()),
        Err(error) => return Err(KeepFault::Folder(error)),
    }
    match sync_parent(rt, folder) {
        Ok(()) => Ok(()),
        Err(error) => Err(KeepFault::Folder(error)),
    }
}

/// Syncs the folder in which this one lies.
fn sync_parent<H: rt::Files<File = fs::File>>(rt: &H, folder: &str) -> io::Result<()> {
    let parent = match Path::new(folder).parent() {
        Some(parent) if !parent.as_str().is_empty() => fs::File::open(rt, parent)?,
        _ => fs::File::open(rt, ".")?,
    };
    parent.sync_all()
}

/// The log of the files of this name, for syncs alone.
fn open_log<H: rt::Files<File = fs::File>>(
    rt: &H,
    alloc: Global,
    path: &str,
) -> Result<fs::File, KeepFault> {
    let log = format!(in alloc; "{path}-wal")?;
    match OpenOptions::new().read(true).open(rt, log.as_str()) {
        Ok(file) => Ok(file),
        Err(error) => Err(KeepFault::Files(error)),
    }
}

/// A number that no opening before had: the nanoseconds of the clock.
fn seed<H: Clock>(rt: &H) -> Result<u64, KeepFault> {
    match rt.since_1970() {
        Ok(time) => Ok((time.as_nanos() % (1 << 64)) as u64),
        Err(error) => Err(KeepFault::Clock(error)),
    }
}

/// Opens the journal of these files.
fn load_kept<D: JournalDisk + Drop>(
    alloc: Global,
    files: Files<D>,
    seed: u64,
) -> Result<Kept<D>, KeepFault> {
    if !files.may_be_used() {
        // Never: no sync has failed yet.
        return Err(KeepFault::Files(ErrorKind::Other.into()));
    }
    match load(alloc, files, seed) {
        Ok((journal, given)) => Ok(Kept { journal, given }),
        Err(NotOpened { fault, files: _ }) => Err(KeepFault::Unread(fault)),
    }
}

/// How many bytes these messages count.
pub(crate) fn bytes_of_all(given: &[Found]) -> u64 {
    given.iter().fold(0u64, |sum, found| {
        sum.saturating_add(bytes_of(found.topic(), found.message()))
    })
}

/// Whether a store may hold these messages.
pub(crate) fn check_limits(
    given: &[Found],
    topics: TopicLimit,
    memory: Option<u64>,
) -> Result<(), KeepFault> {
    let (kept, limit) = (given.len(), topics.get());
    if kept > limit as usize {
        return Err(KeepFault::TooManyTopics { kept, limit });
    }
    let Some(limit) = memory else {
        return Ok(());
    };
    let kept = bytes_of_all(given);
    if kept > limit {
        return Err(KeepFault::TooManyBytes { kept, limit });
    }
    Ok(())
}
