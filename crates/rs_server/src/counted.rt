//! A reader or a writer that counts its failures.

ghost use Rattle.std.specs.Prelude.{◌≡◌, ◌+◌, ◌<◌, ℕ, List, ◌++◌, length, if◌then◌else◌, IfOk, OnErr, OnOk, is_ok};
ghost use Rattle.std.specs.Io.{ReadsAtMost, WritesAtMost};
ghost use Rattle.std.specs.Io.KnownBytes.{ReadConsumes, WriteAppends, Keeps, Consumes, IsAtEnd};
ghost use Rattle.rs_server.specs.Counts.{inner_of, failures_of, write_fails, next_count};

use bytes::BytesMut;
use std::io;
use std::io::{Read, Write};

/// A reader or a writer, and how many of its calls failed.
#[derive(Drop)]
pub struct Counted<T> {
    inner: T,
    failures: u64,
}

impl<T> Counted<T> {
    /// With no failure yet.
    pub fn new(inner: T) -> Counted<T>
        ensures inner { inner_of result ≡ inner }
        ensures failures { failures_of result ≡ 0 }
    {
        Counted { inner, failures: 0 }
    }

    /// How many calls ended in an error, or wrote nothing of a slice that is not empty. The count stays at [`u64::MAX`].
    pub fn failures(&self) -> u64
        ensures { result ≡ failures_of self.now }
    {
        self.failures
    }

    /// What it counts for.
    pub fn inner(&self) -> &T
        ensures { result.now ≡ inner_of self.now }
    {
        &self.inner
    }

    /// The reader or writer.
    pub fn into_inner(self) -> T
    where
        T: Drop,
        ensures { result ≡ inner_of self }
    {
        self.inner
    }
}

impl<R: Read> Counted<R> {
    /// One read behind the bytes that are buffered, into their spare capacity.
    pub fn read_into(&mut self, buffered: &mut BytesMut) -> io::Result<usize>
        ensures ok { IfOk result (λ n. (more : List ℕ) × (length more ≡ n)
            × (buffered.new.items ≡ buffered.old.items ++ more)
            × Consumes (R.remaining (inner_of self.old)) (R.remaining (inner_of self.new)) more) }
        ensures end { IfOk result (λ n. 0 < buffered.old.spare → n ≡ 0
            → IsAtEnd (R.remaining (inner_of self.new))) }
        ensures err { OnErr result ((buffered.new ≡ buffered.old)
            × Keeps (R.remaining (inner_of self.old)) (R.remaining (inner_of self.new))) }
        ensures count { failures_of self.new
            ≡ (if is_ok result then failures_of self.old else next_count (failures_of self.old)) }
    {
        let result = buffered.read_from(&mut self.inner);
        if result.is_err() {
            self.failures = self.failures.saturating_add(1);
        }
        result
    }
}

impl<R: Read> Read for Counted<R> {
    ghost use Rattle.std.specs.Prelude.{◌≡◌};

    ghost remaining = { λ it. R.remaining it.inner };

    fn read(&mut self, buf: &mut [u8]) -> io::Result<usize>
        ensures bound { ReadsAtMost result buf.new }
        ensures bytes { ReadConsumes (R.remaining (inner_of self.old)) (R.remaining (inner_of self.new)) result buf.new }
        ensures count { failures_of self.new
            ≡ (if is_ok result then failures_of self.old else next_count (failures_of self.old)) }
    {
        let result = self.inner.read(buf);
        if result.is_err() {
            self.failures = self.failures.saturating_add(1);
        }
        result
    }
}

impl<W: Write> Write for Counted<W> {
    ghost use Rattle.std.specs.Prelude.{◌≡◌};

    ghost contents = { λ it. W.contents it.inner };

    fn write(&mut self, buf: &[u8]) -> io::Result<usize>
        ensures bound { WritesAtMost result buf.now }
        ensures bytes { WriteAppends (W.contents (inner_of self.old)) (W.contents (inner_of self.new)) result buf.now }
        ensures count { failures_of self.new
            ≡ (if write_fails result buf.now then next_count (failures_of self.old) else failures_of self.old) }
    {
        let result = self.inner.write(buf);
        let failed = match &result {
            Ok(n) => *n == 0 && !buf.is_empty(),
            Err(_) => true,
        };
        if failed {
            self.failures = self.failures.saturating_add(1);
        }
        result
    }

    fn flush(&mut self) -> io::Result<()>
        ensures bytes { Keeps (W.contents (inner_of self.old)) (W.contents (inner_of self.new)) }
        ensures count { failures_of self.new
            ≡ (if is_ok result then failures_of self.old else next_count (failures_of self.old)) }
    {
        let result = self.inner.flush();
        if result.is_err() {
            self.failures = self.failures.saturating_add(1);
        }
        result
    }
}
