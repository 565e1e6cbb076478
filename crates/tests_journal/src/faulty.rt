//! A disk of which calls fail.

ghost use Rattle.std.specs.Prelude.{◌≡◌, ◌+◌, ◌&&◌, not, false, length, IfOk};
ghost use Rattle.sqlite_disk.specs.Disk.{CountsFault};
ghost use Rattle.sqlite_disk.specs.Refusal.{finds_no_room};

use rs_journal::JournalDisk;
use sqlite_disk::{Crash, Disk, Tally};
use std::alloc::{AllocError, Global};
use std::io;

/// Which calls fail: one of them, each from one on, the same with the first of them torn if it is a write, or each sync besides.
#[derive(Clone, Copy, Debug, PartialEq, Eq)]
pub enum Failing {
    Once,
    FromThen,
    Tears,
    Syncs,
}

/// Another disk, which makes so many calls, and then fails.
#[derive(Drop)]
pub struct Faulty<D: Disk> {
    pub inner: D,
    alloc: Global,
    failing: Failing,
    calls_left: u64,
    refused: u64,
    sync_refused: bool,
}

impl<D: Disk> Faulty<D> {
    pub fn new(alloc: Global, inner: D, failing: Failing, calls: u64) -> Faulty<D> {
        Faulty {
            inner,
            alloc,
            failing,
            calls_left: calls,
            refused: 0,
            sync_refused: false,
        }
    }

    /// Whether a call has failed.
    pub fn has_failed(&self) -> bool {
        self.refused > 0
    }
}

impl<D: Crash> Faulty<D> {
    /// The machine comes back, and no call fails any more.
    pub fn restart(&mut self, loses: bool) {
        if loses {
            self.inner.crash();
        }
        self.calls_left = u64::MAX;
        self.sync_refused = false;
    }
}

/// Counts a call. Whether it is made.
fn spend(failing: Failing, calls_left: &mut u64, refused: &mut u64) -> io::Result<()>
    ensures faults { CountsFault result refused.old refused.new }
    ensures kind { finds_no_room result ≡ false }
{
    if *calls_left == 0 {
        if failing == Failing::Once || failing == Failing::Syncs {
            *calls_left = u64::MAX;
        }
        *refused = refused.saturating_add(1);
        return Err(io::Error::other("a call that fails"));
    }
    *calls_left -= 1;
    Ok(())
}

/// Of these bytes the front, and other bytes behind it.
fn torn(alloc: Global, bytes: &[u8]) -> Result<Vec<u8>, AllocError>
    ensures { IfOk result (λ torn. length torn.items ≡ length bytes.now) }
{
    let mut torn = Vec::from_slice(alloc, bytes)?;
    for at in bytes.len() / 2..bytes.len() {
        torn[at] ^= 0xA5;
    }
    Ok(torn)
}

impl<D: Disk> Disk for Faulty<D> {
    ghost seen = { λ f. D.Disk.seen f.inner };

    ghost may_leave = { λ f. D.Disk.may_leave f.inner };

    ghost is_usable = { λ f. D.Disk.is_usable f.inner && not f.sync_refused };

    ghost faults = { λ f. D.Disk.faults f.inner + f.refused };

    ghost tally_of = { λ f. D.Disk.tally_of f.inner };

    ghost key_of = { λ f. D.Disk.key_of f.inner };

    ghost is_clean = { λ f. D.Disk.is_clean f.inner };

    ghost is_fair = { λ f. D.Disk.is_fair f.inner };

    ghost fair_if_clean = { λ f. D.Disk.fair_if_clean f.inner };

    ghost seen_may_stay = { λ f. D.Disk.seen_may_stay f.inner };

    fn mixes(&self) -> bool {
        false
    }

    fn key(&self) -> u64 {
        self.inner.key()
    }

    fn tally(&self) -> Tally {
        self.inner.tally()
    }

    fn may_be_used(&self) -> bool {
        self.inner.may_be_used() && !self.sync_refused
    }

    fn len(&mut self) -> io::Result<usize> {
        spend(self.failing, &mut self.calls_left, &mut self.refused)?;
        self.inner.len()
    }

    fn read_at(&mut self, at: usize, buf: &mut [u8]) -> io::Result<()> {
        spend(self.failing, &mut self.calls_left, &mut self.refused)?;
        self.inner.read_at(at, buf)
    }

    fn read_checked(&mut self, key: u64, want: u64, at: usize, buf: &mut [u8]) -> io::Result<()> {
        spend(self.failing, &mut self.calls_left, &mut self.refused)?;
        self.inner.read_checked(key, want, at, buf)
    }

    fn write_at(&mut self, at: usize, bytes: &[u8]) -> io::Result<()> {
        if self.failing == Failing::Tears && self.calls_left == 0 && self.refused == 0 {
            self.refused = 1;
            if let Ok(torn) = torn(self.alloc, bytes) {
                self.inner.write_at(at, &torn)?;
            }
            return Err(io::Error::other("a write that was torn"));
        }
        spend(self.failing, &mut self.calls_left, &mut self.refused)?;
        self.inner.write_at(at, bytes)
    }

    fn set_len(&mut self, len: usize) -> io::Result<()> {
        spend(self.failing, &mut self.calls_left, &mut self.refused)?;
        self.inner.set_len(len)
    }

    fn sync(&mut self) -> io::Result<()> {
        if self.failing == Failing::Syncs {
            self.calls_left = 0;
        }
        if let Err(error) = spend(self.failing, &mut self.calls_left, &mut self.refused) {
            self.sync_refused = true;
            return Err(error);
        }
        self.inner.sync()
    }
}

/// A write may be torn to any bytes.
impl<D: Disk> JournalDisk for Faulty<D> {
    ghost names_stay = { λ _. false };

    fn keeps_names(&self) -> bool {
        false
    }
}
