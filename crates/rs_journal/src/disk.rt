//! The disks of journals.

ghost use Rattle.std.specs.Prelude.{◌≡◌, Bool};

use sqlite_disk::{Calls, Disk, Modelled, Start};

/// A disk that files of a journal lie on.
pub trait JournalDisk: Disk {
    /// No crash leaves another name of a log: it leaves each byte of a torn write old or new. Elsewhere a file with another name may be a
    /// log that a crash has torn.
    ghost names_stay: { Self → Bool };

    /// Whether an opening spares a file in the place of a log that has not the name of one.
    fn keeps_names(&self) -> bool
        ensures { result ≡ names_stay self.now };
}

impl<C: Calls, S: Start> JournalDisk for Modelled<C, S> {
    ghost names_stay = { λ _. S.Start.is_mixing };

    fn keeps_names(&self) -> bool {
        S::mixes()
    }
}
