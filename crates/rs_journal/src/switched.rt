//! A disk that syncs only while a switch is on.

ghost use Rattle.std.specs.Prelude.{◌≡◌, refl};

use crate::disk::JournalDisk;
use sqlite_disk::{Disk, Tally};
use std::alloc::{AllocError, Global};
use std::io;
use std::sync::Arc;
use std::sync::atomic::{AtomicBool, Ordering};

/// Whether the disks that were made with it sync. Its copies switch the same disks.
#[derive(Drop)]
pub struct Switch {
    is_on: Arc<AtomicBool>,
}

impl Switch {
    /// A switch that is on, as an opening needs it.
    pub fn new(alloc: Global) -> Result<Switch, AllocError> {
        Ok(Switch {
            is_on: Arc::new(alloc, AtomicBool::new(true))?,
        })
    }

    /// The same switch once more.
    pub fn try_clone(&self) -> Result<Switch, AllocError> {
        Ok(Switch {
            is_on: Arc::try_clone(&self.is_on)?,
        })
    }

    /// Lets each sync from here on be made, or none.
    pub fn set(&self, is_on: bool) {
        self.is_on.store(is_on, Ordering::SeqCst);
    }

    /// Whether syncs are made.
    pub fn is_on(&self) -> bool {
        self.is_on.load(Ordering::SeqCst)
    }
}

/// A disk that waits for a sync only while its switch is on. What was written stays if the process is killed, and its clauses say no more.
///
/// At a power cut the system may have written some of the last seconds and not others, in any order. No clause says what is left then, so
/// these rules stand on how the pager writes. A commit that is made while the switch is on syncs the log, with all that was committed
/// before: that stays, and later commits can be lost from their end. A checkpoint writes over pages that only the log has otherwise, so it
/// needs all of the log on the disk first: turn the switch on, call `sync` of the journal, checkpoint, and turn it off. A commit of nothing
/// syncs nothing, and `sync` writes even then. An opening needs the switch on as well.
#[derive(Drop)]
pub struct Switched<D: Disk> {
    inner: D,
    switch: Switch,
}

impl<D: Disk> Switched<D> {
    ghost use Rattle.rs_journal.specs.Switching.{inner_of};

    /// This disk, whose syncs are made while the switch is on.
    pub fn new(inner: D, switch: Switch) -> Switched<D>
        ensures { inner_of result ≡ inner }
    {
        Switched { inner, switch }
    }
}

impl<D: Disk> Disk for Switched<D> {
    ghost seen = { λ d. D.Disk.seen d.inner };

    // A kill leaves what was written, and nothing else.
    ghost may_leave = { λ d c. c ≡ D.Disk.seen d.inner };

    ghost is_usable = { λ d. D.Disk.is_usable d.inner };

    ghost faults = { λ d. D.Disk.faults d.inner };

    ghost is_clean = { λ d. D.Disk.is_clean d.inner };

    ghost tally_of = { λ d. D.Disk.tally_of d.inner };

    ghost key_of = { λ d. D.Disk.key_of d.inner };

    ghost is_fair = { λ d. D.Disk.is_fair d.inner };

    ghost fair_if_clean = { λ d key. D.Disk.fair_if_clean d.inner key };

    ghost seen_may_stay = { λ d. refl };

    fn mixes(&self) -> bool {
        false
    }

    fn key(&self) -> u64 {
        self.inner.key()
    }

    fn tally(&self) -> Tally {
        self.inner.tally()
    }

    fn may_be_used(&self) -> bool {
        self.inner.may_be_used()
    }

    fn len(&mut self) -> io::Result<usize> {
        self.inner.len()
    }

    fn read_at(&mut self, at: usize, buf: &mut [u8]) -> io::Result<()> {
        self.inner.read_at(at, buf)
    }

    fn read_checked(&mut self, key: u64, want: u64, at: usize, buf: &mut [u8]) -> io::Result<()> {
        self.inner.read_checked(key, want, at, buf)
    }

    fn write_at(&mut self, at: usize, bytes: &[u8]) -> io::Result<()> {
        self.inner.write_at(at, bytes)
    }

    fn set_len(&mut self, len: usize) -> io::Result<()> {
        self.inner.set_len(len)
    }

    fn sync(&mut self) -> io::Result<()> {
        if self.switch.is_on() {
            self.inner.sync()
        } else {
            Ok(())
        }
    }
}

/// A write that was not synced is torn as any other, and an opening syncs the name of a log.
impl<D: JournalDisk> JournalDisk for Switched<D> {
    ghost names_stay = { λ d. D.JournalDisk.names_stay d.inner };

    fn keeps_names(&self) -> bool {
        self.inner.keeps_names()
    }
}
