//! A disk of which a crash leaves what was synced.

ghost use Rattle.std.specs.Prelude.{false};

use rs_journal::JournalDisk;
use sqlite_disk::{Crash, Disk, Tally};
use std::io;

/// A disk on which a journal may lie.
#[derive(Drop)]
pub struct Plain<D: Disk> {
    pub inner: D,
}

impl<D: Disk> Disk for Plain<D> {
    ghost seen = { λ p. D.Disk.seen p.inner };

    ghost may_leave = { λ p. D.Disk.may_leave p.inner };

    ghost is_usable = { λ p. D.Disk.is_usable p.inner };

    ghost faults = { λ p. D.Disk.faults p.inner };

    ghost tally_of = { λ p. D.Disk.tally_of p.inner };

    ghost key_of = { λ p. D.Disk.key_of p.inner };

    ghost is_clean = { λ p. D.Disk.is_clean p.inner };

    ghost is_fair = { λ p. D.Disk.is_fair p.inner };

    ghost fair_if_clean = { λ p. D.Disk.fair_if_clean p.inner };

    ghost seen_may_stay = { λ p. D.Disk.seen_may_stay p.inner };

    fn mixes(&self) -> bool {
        false
    }

    fn key(&self) -> u64 {
        self.inner.key()
    }

    fn tally(&self) -> Tally {
        self.inner.tally()
    }

    fn may_be_used(&self) -> bool {
        self.inner.may_be_used()
    }

    fn len(&mut self) -> io::Result<usize> {
        self.inner.len()
    }

    fn read_at(&mut self, at: usize, buf: &mut [u8]) -> io::Result<()> {
        self.inner.read_at(at, buf)
    }

    fn read_checked(&mut self, key: u64, want: u64, at: usize, buf: &mut [u8]) -> io::Result<()> {
        self.inner.read_checked(key, want, at, buf)
    }

    fn write_at(&mut self, at: usize, bytes: &[u8]) -> io::Result<()> {
        self.inner.write_at(at, bytes)
    }

    fn set_len(&mut self, len: usize) -> io::Result<()> {
        self.inner.set_len(len)
    }

    fn sync(&mut self) -> io::Result<()> {
        self.inner.sync()
    }
}

impl<D: Crash> Crash for Plain<D> {
    fn crash(&mut self) {
        self.inner.crash();
    }
}

/// A write may be torn to any bytes.
impl<D: Disk> JournalDisk for Plain<D> {
    ghost names_stay = { λ _. false };

    fn keeps_names(&self) -> bool {
        false
    }
}
