//! A stream in memory, as the peer of a connection has it, and a clock.

use std::io;
use std::io::{ErrorKind, Read, Write};
use std::net::{OpenStream, Shutdown};
use std::sync::Arc;
use std::sync::atomic::{AtomicU64, Ordering};
use std::time::{Clock, Duration};

/// How a peer sends and takes bytes.
#[derive(Clone, Copy)]
pub struct Manner {
    /// How many reads give bytes, and how many at most. Each byte is the number of writes so far.
    pub reads: u64,
    pub sends: usize,
    /// Whether the read after them fails. If not, it is the end.
    pub breaks: bool,
    /// How many bytes a write takes at most.
    pub takes: usize,
    /// The number of the write that fails, from 1 on. None fails at 0.
    pub fails_at: u64,
}

/// What was done with the streams of a connection.
#[derive(Drop)]
pub struct Notes {
    /// How many writes there were, with those that failed.
    pub writes: AtomicU64,
    /// How many bytes were written.
    pub written: AtomicU64,
    /// How many of them are not those of the replies, each of which is its number in two bytes, or came after a shutdown.
    pub wrong: AtomicU64,
    /// How often the stream was shut down for writing.
    pub shutdowns: AtomicU64,
    /// How many bytes were read after that.
    pub discarded: AtomicU64,
}

impl Notes {
    pub fn new() -> Notes {
        Notes {
            writes: AtomicU64::new(0),
            written: AtomicU64::new(0),
            wrong: AtomicU64::new(0),
            shutdowns: AtomicU64::new(0),
            discarded: AtomicU64::new(0),
        }
    }

    fn is_shut_down(&self) -> bool {
        self.shutdowns.load(Ordering::SeqCst) > 0
    }

    /// Notes bytes that were written.
    fn note(&self, bytes: &[u8]) {
        for byte in bytes {
            let at = self.written.fetch_add(1, Ordering::SeqCst);
            let number = at / 2 % 65_536;
            let wanted = if at % 2 == 0 {
                number / 256
            } else {
                number % 256
            };
            if u64::from(*byte) != wanted || self.is_shut_down() {
                self.wrong.fetch_add(1, Ordering::SeqCst);
            }
        }
    }
}

/// One stream of a connection.
#[derive(Drop)]
pub struct Peer {
    pub manner: Manner,
    pub notes: Arc<Notes>,
}

impl Read for Peer {
    fn read(&mut self, buf: &mut [u8]) -> io::Result<usize> {
        if self.manner.reads == 0 {
            return if self.manner.breaks {
                Err(io::Error::from(ErrorKind::WouldBlock))
            } else {
                Ok(0)
            };
        }
        self.manner.reads -= 1;
        let size = self.manner.sends.min(buf.len());
        let writes = self.notes.writes.load(Ordering::SeqCst);
        buf[..size].fill((writes % 256) as u8);
        if self.notes.is_shut_down() {
            self.notes
                .discarded
                .fetch_add(size as u64, Ordering::SeqCst);
        }
        Ok(size)
    }
}

impl Write for Peer {
    fn write(&mut self, buf: &[u8]) -> io::Result<usize> {
        let before = self.notes.writes.fetch_add(1, Ordering::SeqCst);
        if before.saturating_add(1) == self.manner.fails_at {
            return Err(io::Error::from(ErrorKind::BrokenPipe));
        }
        let size = buf.len().min(self.manner.takes);
        self.notes.note(&buf[..size]);
        Ok(size)
    }

    fn flush(&mut self) -> io::Result<()> {
        Ok(())
    }
}

impl OpenStream for Peer {
    fn shutdown(&self, how: Shutdown) -> io::Result<()> {
        if how == Shutdown::Write {
            self.notes.shutdowns.fetch_add(1, Ordering::SeqCst);
        }
        Ok(())
    }

    fn set_read_timeout(&self, time: Option<Duration>) -> io::Result<()> {
        match time {
            Some(time) if !time.is_zero() => Ok(()),
            _ => Err(io::Error::from(ErrorKind::InvalidInput)),
        }
    }
}

/// A clock that goes on by so many milliseconds each time it is asked.
#[derive(Drop)]
pub struct Ticking {
    pub step: u64,
    pub now: AtomicU64,
}

impl Clock for Ticking {
    fn monotonic(&self) -> io::Result<Duration> {
        Ok(Duration::from_millis(self.now.fetch_add(self.step, Ordering::SeqCst)))
    }

    fn since_1970(&self) -> io::Result<Duration> {
        Err(io::Error::from(ErrorKind::Unsupported))
    }
}
