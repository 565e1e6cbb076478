//! A writer that gathers what it is given until it is asked to write it out.

ghost use Rattle.std.specs.Prelude.{◌≡◌, ◌≤◌, [], ◌++◌, length, take, drop, if◌then◌else◌, vec_len, IfOk, OnOk};
ghost use Rattle.std.specs.Io.KnownBytes.{Appends, Keeps};
ghost use Rattle.rs_tcp_sockets.specs.Gathered.{contents_of, waiting_of, inner_of};

use crate::limits::MAX_GATHERED;
use std::alloc::Global;
use std::io;
use std::io::{ErrorKind, Write};

/// For how many bytes memory is taken at first.
const FIRST_ROOM: usize = 1_024;

/// A writer that keeps up to [`MAX_GATHERED`] bytes, a `flush` or not. They are written out if more
/// would not fit, by [`write_out`](Gathered::write_out) and by [`into_inner`](Gathered::into_inner).
///
/// It has memory only while bytes wait. If that is refused, bytes are written out at once.
///
/// Its contents are those of the inner writer, and then what waits.
#[derive(Drop)]
pub struct Gathered<W: Write + Drop> {
    inner: W,
    waiting: Vec<u8>,
}

impl<W: Write + Drop> Gathered<W> {
    /// With nothing gathered yet.
    pub fn new(alloc: Global, inner: W) -> Gathered<W>
        ensures inner { inner_of result ≡ inner }
        ensures empty { waiting_of result ≡ [] }
    {
        Gathered {
            inner,
            waiting: Vec::new(alloc),
        }
    }

    /// Writes out all that waits, and gives its memory back. After an error, what was not written still waits.
    pub fn write_out(&mut self) -> io::Result<()>
        ensures bytes { Keeps (contents_of W.contents self.old) (contents_of W.contents self.new) }
        ensures none_waits { OnOk result (waiting_of self.new ≡ []) }
    {
        self.send()?;
        self.waiting = Vec::new(*self.waiting.allocator());
        Ok(())
    }

    /// Writes out all that waits, and gives the inner writer back. After an error, nothing is written again.
    pub fn into_inner(mut self) -> io::Result<W>
        ensures { IfOk result (λ inner. Keeps (contents_of W.contents self) (W.contents inner)) }
    {
        self.send()?;
        Ok(self.give_up())
    }

    /// Gives the inner writer back as it is. What waits is dropped.
    pub fn give_up(self) -> W
        ensures { result ≡ inner_of self }
    {
        self.inner
    }

    /// Writes out all that waits. After an error, what was not written still waits.
    fn send(&mut self) -> io::Result<()>
        ensures bytes { Keeps (contents_of W.contents self.old) (contents_of W.contents self.new) }
        ensures none_waits { OnOk result (waiting_of self.new ≡ []) }
    {
        let (sent, result) = send_first(&mut self.inner, self.waiting.as_slice());
        remove_first(&mut self.waiting, sent);
        result
    }

    /// Keeps the bytes behind those that wait. If more would wait than may, or memory is refused, nothing changes and the answer is false.
    fn keep(&mut self, bytes: &[u8]) -> bool
        ensures inner { inner_of self.new ≡ inner_of self.old }
        ensures waiting { waiting_of self.new ≡ (if result then waiting_of self.old ++ bytes.now else waiting_of self.old) }
    {
        if bytes.len() > MAX_GATHERED.saturating_sub(self.waiting.len()) {
            return false;
        }
        if self.waiting.is_empty() {
            // If it is refused, there may still be memory for these bytes.
            let _ = self.waiting.reserve(FIRST_ROOM);
        }
        self.waiting.extend_from_slice(bytes).is_ok()
    }
}

impl<W: Write + Drop> Write for Gathered<W> {
    ghost contents = { contents_of W.contents };

    fn write(&mut self, buf: &[u8]) -> io::Result<usize> {
        if self.keep(buf) {
            return Ok(buf.len());
        }
        self.send()?;
        if self.keep(buf) {
            return Ok(buf.len());
        }
        self.inner.write(buf)
    }

    fn flush(&mut self) -> io::Result<()> {
        Ok(())
    }
}

/// Writes until all bytes are written or a write fails: how many were written. A write that a signal interrupts is tried again.
fn send_first<W: Write>(writer: &mut W, bytes: &[u8]) -> (usize, io::Result<()>)
    ensures bound { result.0 ≤ length bytes.now }
    ensures all { OnOk result.1 (result.0 ≡ length bytes.now) }
    ensures bytes { Appends (W.contents writer.old) (W.contents writer.new) (take result.0 bytes.now) }
{
    let mut sent = 0;
    for _ in 0..u64::MAX {
        if sent == bytes.len() {
            return (sent, Ok(()));
        }
        match writer.write(&bytes[sent..]) {
            Ok(0) => return (sent, Err(io::Error::from(ErrorKind::WriteZero))),
            Ok(more) => sent += more,
            Err(error) if error.kind() == ErrorKind::Interrupted => {}
            Err(error) => return (sent, Err(error)),
        }
    }
    (sent, Err(io::Error::from(ErrorKind::Interrupted)))
}

/// Removes so many bytes from the front.
fn remove_first(bytes: &mut Vec<u8>, count: usize)
    requires { count ≤ vec_len bytes.old }
    ensures { bytes.new.items ≡ drop count bytes.old.items }
{
    let size = bytes.len();
    bytes.as_mut_slice().copy_within(count..size, 0);
    bytes.truncate(size - count);
}
