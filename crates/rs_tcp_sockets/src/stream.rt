//! A TCP stream that both halves of a connection have.

use crate::polling::Pollable;
use libc::net::{POLLIN, poll};
use libc::types::pollfd;
use rs_metrics::Meter;
use std::alloc::{AllocError, Global};
use std::io;
use std::io::{Read, Write};
use std::net::{OpenStream, Shutdown, TcpStream};
use std::os::fd::{AsRawFd, RawFd};
use std::sync::Arc;
use std::sync::atomic::{AtomicBool, Ordering};
use std::time::Duration;

/// A TCP stream, whether something was sent by it since its reader last asked, and what counts its bytes.
#[derive(Drop)]
struct Connected {
    stream: TcpStream,
    answered: AtomicBool,
    meter: Meter,
}

/// One of the owners of a TCP stream. They share its descriptor, which is closed when the last of them is dropped.
#[derive(Drop)]
pub struct SharedStream {
    shared: Arc<Connected>,
}

impl SharedStream {
    /// Two owners of a stream, whose bytes are counted. If memory is refused, it is closed.
    pub(crate) fn pair(
        alloc: Global,
        stream: TcpStream,
        meter: Meter,
    ) -> Result<(SharedStream, SharedStream), AllocError> {
        let connected = Connected {
            stream,
            answered: AtomicBool::new(false),
            meter,
        };
        let shared = Arc::new(alloc, connected).map_err(|_| AllocError)?;
        let other = Arc::try_clone(&shared)?;
        Ok((SharedStream { shared }, SharedStream { shared: other }))
    }
}

impl AsRawFd for SharedStream {
    fn as_raw_fd(&self) -> RawFd {
        self.shared.stream.as_raw_fd()
    }
}

impl Read for SharedStream {
    fn read(&mut self, buf: &mut [u8]) -> io::Result<usize> {
        let mut stream: &TcpStream = &self.shared.stream;
        let size = stream.read(buf)?;
        self.shared.meter.add_bytes_in(size);
        Ok(size)
    }
}

impl Pollable for SharedStream {
    /// A poll, and not a read that does not block: that would need `unsafe`, and take an error away from the read that follows.
    fn is_ready(&self) -> bool {
        let mut asked = [pollfd {
            fd: self.as_raw_fd(),
            events: POLLIN,
            revents: 0,
        }];
        // If it fails, the read tells.
        poll(&mut asked, 0) != 0
    }

    fn take_answered(&self) -> bool {
        self.shared.answered.swap(false, Ordering::SeqCst)
    }
}

impl Write for SharedStream {
    fn write(&mut self, buf: &[u8]) -> io::Result<usize> {
        self.shared.answered.store(true, Ordering::SeqCst);
        let mut stream: &TcpStream = &self.shared.stream;
        let size = stream.write(buf)?;
        self.shared.meter.add_bytes_out(size);
        Ok(size)
    }

    /// Does nothing: the system sends at once what is written (TCP_NODELAY, which `open` sets).
    fn flush(&mut self) -> io::Result<()> {
        Ok(())
    }
}

impl OpenStream for SharedStream {
    fn shutdown(&self, how: Shutdown) -> io::Result<()> {
        self.shared.stream.shutdown(how)
    }

    fn nodelay(&self) -> io::Result<bool> {
        self.shared.stream.nodelay()
    }

    fn set_read_timeout(&self, time: Option<Duration>) -> io::Result<()> {
        self.shared.stream.set_read_timeout(time)
    }
}
