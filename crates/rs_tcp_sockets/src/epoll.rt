//! Descriptors that threads watch together.

ghost use Rattle.std.specs.Prelude.{◌≡◌, ◌≤◌, ◌⊎◌, ◌↔◌, length, pos, Some, IsOk, IfOk, IfErr};
ghost use Rattle.std.specs.IoError.{raw_os_error};
ghost use Rattle.rs_tcp_sockets.specs.Epoll.{millis_of};
ghost use Rattle.rs_tcp_sockets.specs.declared.epoll.TheConstants.{MAX_TOLD};

use crate::descriptors::{Descriptor, check};
use libc::net::{
    EFD_CLOEXEC, EFD_NONBLOCK, EPOLL_CLOEXEC, EPOLL_CTL_ADD, EPOLL_CTL_MOD, EPOLLIN, EPOLLONESHOT,
    epoll_create1, eventfd,
};
use libc::{EINTR, write};
use os::{EpollEvent, epoll_ctl, epoll_wait};
use std::io;
use std::os::fd::{AsRawFd, RawFd};
use std::time::Duration;

/// How many descriptors tell in one wait at most.
pub const MAX_TOLD: usize = 64;

const _: () = prove!(MAX_TOLD == 64);

const NO_EVENT: EpollEvent = EpollEvent { events: 0, data: 0 };

/// Descriptors that threads watch together, each under a number. One tells when there is something to read: bytes or their end, an error,
/// or a connection that can be accepted. Any thread may ask them, also while others wait.
///
/// A descriptor that is closed tells no more.
#[derive(Drop)]
pub struct Epoll {
    set: Descriptor,
}

impl Epoll {
    /// With no descriptor.
    ///
    /// # Errors
    ///
    /// If the system gives no descriptor for it.
    pub fn new() -> io::Result<Epoll> {
        let set = Descriptor::new(epoll_create1(EPOLL_CLOEXEC))?;
        Ok(Epoll { set })
    }

    /// Asks a descriptor to tell once, and only one of those that wait. It tells no more until it is asked again.
    ///
    /// # Errors
    ///
    /// If it is not open, cannot be watched, or the system has no memory for it. What it was asked before still stands.
    pub fn ask_once(&self, fd: RawFd, number: u64) -> io::Result<()> {
        let events = EPOLLIN | EPOLLONESHOT;
        // Mostly it was asked before.
        if self.control(EPOLL_CTL_MOD, fd, events, number).is_ok() {
            return Ok(());
        }
        self.control(EPOLL_CTL_ADD, fd, events, number)
    }

    /// Asks a descriptor that was not asked before to tell each of those that wait, for as long as there is something to read.
    ///
    /// # Errors
    ///
    /// If it is not open, cannot be watched, was asked before, or the system has no memory for it.
    pub fn ask_always(&self, fd: RawFd, number: u64) -> io::Result<()> {
        self.control(EPOLL_CTL_ADD, fd, EPOLLIN, number)
    }

    fn control(&self, operation: i32, fd: RawFd, events: u32, number: u64) -> io::Result<()> {
        check(epoll_ctl(self.set.as_raw_fd(), operation, fd, events, number))
    }

    /// Waits until descriptors tell, and puts their numbers at the front of `told`: how many, at most [`MAX_TOLD`]. It is 0 if `limit` is
    /// over before that, or a signal has ended the wait. The limit is rounded up to whole milliseconds, and cut to some 24 days.
    ///
    /// # Errors
    ///
    /// If `told` is empty.
    pub fn wait(&self, told: &mut [u64], limit: Option<Duration>) -> io::Result<usize>
        ensures room { IfOk result (λ count. count ≤ length told.new) }
        ensures most { IfOk result (λ count. count ≤ MAX_TOLD) }
    {
        let mut events = [NO_EVENT; MAX_TOLD];
        let room = told.len().min(MAX_TOLD);
        let count = epoll_wait(self.set.as_raw_fd(), &mut events[..room], millis_of(limit));
        check_wait(os::errno())?;
        for (number, event) in told.iter_mut().zip(events.iter().take(count)) {
            *number = event.data;
        }
        Ok(count)
    }
}

/// The error of a wait. A signal is none.
fn check_wait(error: i32) -> io::Result<()>
    ensures fails { IsOk result ↔ ((error ≡ pos 0) ⊎ (error ≡ EINTR)) }
    ensures fault { IfErr result (λ fault. raw_os_error fault ≡ Some error) }
{
    if error == 0 || error == EINTR {
        return Ok(());
    }
    Err(io::Error::from_raw_os_error(error))
}

/// What the system is asked to wait, in milliseconds: -1 for no limit.
fn millis_of(limit: Option<Duration>) -> i32
    ensures { result ≡ millis_of limit }
{
    match limit {
        Some(limit) => limit.as_nanos().div_ceil(1_000_000).min(i32::MAX as u128) as i32,
        None => -1,
    }
}

/// A descriptor from which nothing can be read until [`send`](StopSignal::send) is called, and something ever after. So it tells all threads
/// that wait for it by an [`Epoll`] which [always](Epoll::ask_always) tells, and all that will.
#[derive(Drop)]
pub struct StopSignal {
    counter: Descriptor,
}

impl StopSignal {
    /// Not sent yet.
    ///
    /// # Errors
    ///
    /// If the system gives no descriptor for it.
    pub fn new() -> io::Result<StopSignal> {
        let counter = Descriptor::new(eventfd(0, EFD_CLOEXEC | EFD_NONBLOCK))?;
        Ok(StopSignal { counter })
    }

    /// Sends it. If it was sent before, nothing changes.
    pub fn send(&self) {
        // Nobody reads the counter, so that only one that is full already refuses it.
        let _ = write(self.counter.as_raw_fd(), &1u64.to_ne_bytes());
    }
}

impl AsRawFd for StopSignal {
    ghost use Rattle.std.specs.Prelude.{Some};
    ghost use Rattle.rs_tcp_sockets.specs.Epoll.{signal_number_of};

    ghost raw_fd = { λ signal. Some (signal_number_of signal) };

    fn as_raw_fd(&self) -> RawFd {
        self.counter.as_raw_fd()
    }
}
