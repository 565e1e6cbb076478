//! What opens files.

use sqlite_disk::{Files, Unknown};
use sqlite_std_file::{File, OpenError, open};

/// Opens a pair of files for one process: in a program the system does. Code that takes any of these stays free of the system.
pub trait OpenFiles {
    /// The files of this name, which are made if they are missing: `path`, and `path` with `-wal` behind it. Fails if another process
    /// has them.
    fn open_files(&self, path: &str) -> Result<Files<File>, OpenError>;
}

impl OpenFiles for HostRuntime {
    fn open_files(&self, path: &str) -> Result<Files<File>, OpenError> {
        open(self, path, Unknown)
    }
}
