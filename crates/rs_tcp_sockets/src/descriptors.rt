//! Descriptors, and how many there may be.

ghost use Rattle.std.specs.Prelude.{◌≡◌, ◌↔◌, ◌≤ℤ◌, pos, IsOk, IfOk};
ghost use Rattle.rs_tcp_sockets.specs.Descriptors.{number_of};

use libc::types::rlimit;
use libc::{RLIMIT_NOFILE, close, getrlimit};
use std::io;
use std::os::fd::{AsRawFd, RawFd};

/// A descriptor that the system gave. It is closed when this is dropped.
pub(crate) struct Descriptor {
    fd: RawFd,
}

impl Drop for Descriptor {
    fn drop(self) {
        let Descriptor { fd } = self;
        let _ = close(fd);
    }
}

impl Descriptor {
    /// What the last call of the system gave.
    ///
    /// # Errors
    ///
    /// The error of that call, if it is negative.
    pub(crate) fn new(fd: RawFd) -> io::Result<Descriptor>
        ensures given { IsOk result ↔ (pos 0 ≤ℤ fd) }
        ensures number { IfOk result (λ descriptor. number_of descriptor ≡ fd) }
    {
        check(fd)?;
        Ok(Descriptor { fd })
    }
}

impl AsRawFd for Descriptor {
    ghost use Rattle.std.specs.Prelude.{Some};
    ghost use Rattle.rs_tcp_sockets.specs.Descriptors.{number_of};

    ghost raw_fd = { λ descriptor. Some (number_of descriptor) };

    fn as_raw_fd(&self) -> RawFd {
        self.fd
    }
}

/// The error of the last call of the system, if what it gave is negative.
pub(crate) fn check(given: i32) -> io::Result<()>
    ensures { IsOk result ↔ (pos 0 ≤ℤ given) }
{
    if given < 0 {
        return Err(io::Error::from_raw_os_error(os::errno()));
    }
    Ok(())
}

/// How many descriptors the process may have at the same time. None if the system does not tell.
pub fn descriptor_limit() -> Option<u64> {
    let mut limit = rlimit {
        rlim_cur: 0,
        rlim_max: 0,
    };
    if getrlimit(RLIMIT_NOFILE, &mut limit) < 0 {
        return None;
    }
    Some(limit.rlim_cur)
}
