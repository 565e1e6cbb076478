//! Streams of which one call fails.

use std::io;
use std::io::{ErrorKind, Read, Write};

/// A kind of call.
#[derive(Clone, Copy, Debug, PartialEq, Eq)]
pub enum Call {
    Read,
    Write,
    Flush,
}

/// How a stream behaves.
#[derive(Clone, Copy)]
pub struct Behavior {
    /// At most so many bytes go by one call.
    pub step: usize,
    /// The call that fails is of this kind.
    pub call: Call,
    /// Its number among those of its kind, from 1 on. None fails at 0.
    pub at: usize,
}

impl Behavior {
    /// Counts a call. Whether it goes well.
    fn meets(&mut self, call: Call) -> io::Result<()> {
        if self.call != call || self.at == 0 {
            return Ok(());
        }
        self.at -= 1;
        if self.at == 0 {
            return Err(io::Error::from(ErrorKind::Interrupted));
        }
        Ok(())
    }
}

/// Reads from another stream, or writes to it, as its behavior says.
#[derive(Drop)]
pub struct FaultyStream<S> {
    /// The other stream.
    pub inner: S,
    /// How it behaves. Calls of the kind that fails are counted down here.
    pub behavior: Behavior,
}

impl<R: Read> Read for FaultyStream<R> {
    fn read(&mut self, buf: &mut [u8]) -> io::Result<usize> {
        self.behavior.meets(Call::Read)?;
        let n = buf.len().min(self.behavior.step);
        self.inner.read(&mut buf[..n])
    }
}

impl<W: Write> Write for FaultyStream<W> {
    fn write(&mut self, buf: &[u8]) -> io::Result<usize> {
        self.behavior.meets(Call::Write)?;
        let n = buf.len().min(self.behavior.step);
        self.inner.write(&buf[..n])
    }

    fn flush(&mut self) -> io::Result<()> {
        self.behavior.meets(Call::Flush)?;
        self.inner.flush()
    }
}
