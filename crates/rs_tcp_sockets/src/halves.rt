//! The two halves of a connection, which share a gathering writer. Each is owned and may go to any thread.

ghost use Rattle.std.specs.Prelude.{◌≡◌, true, false};
ghost use Rattle.std.specs.Arc.{arc_value};
ghost use Rattle.crossbeam_queue.specs.Passes.{view, IsPassOf};

use crate::gathered::Gathered;
use crate::sharing::{GiveBack, GiveBackWrittenOut, HalfPass, Take, WriterCell};
use std::io;
use std::io::{ErrorKind, Read, Write};
use std::sync::Arc;

/// Writes into the shared writer, which keeps the bytes. A `flush` keeps them too.
///
/// Its contents are those of the inner writer, and then what waits.
#[derive(Drop)]
pub struct WriteHalf<W: Write + Drop> {
    pub(crate) shared: Arc<WriterCell<W>>,
    pub(crate) pass: HalfPass<W>,
    pub(crate) count: u64,
    ghost of_cell: { IsPassOf (arc_value shared) pass },
    ghost writes: { (view pass).writes ≡ true },
}

/// Reads, and before each read writes out what waits in the shared writer. It also does so when it is asked to
/// ([`write_out`](ReadHalf::write_out)).
///
/// What remains are the bytes of the inner reader.
#[derive(Drop)]
pub struct ReadHalf<R, W: Write + Drop> {
    pub(crate) inner: R,
    pub(crate) shared: Arc<WriterCell<W>>,
    pub(crate) pass: HalfPass<W>,
    pub(crate) count: u64,
    pub(crate) unwritten: bool,
    // Why the writer failed, until a read tells it.
    pub(crate) fault: Option<io::Error>,
    ghost of_cell: { IsPassOf (arc_value shared) pass },
    ghost reads: { (view pass).writes ≡ false },
}

/// The other half has the writer, which happens only while another thread is inside a call of it.
pub(crate) fn is_taken() -> io::Error {
    io::Error::from(ErrorKind::ResourceBusy)
}

impl<W: Write + Drop> Write for WriteHalf<W> {
    ghost use Rattle.std.specs.Io.{WritesAtMost};
    ghost use Rattle.std.specs.Io.KnownBytes.{WriteAppends};
    ghost use Rattle.rs_tcp_sockets.specs.Halves.{Counts, written_of};

    ghost contents = { written_of };

    fn write(&mut self, buf: &[u8]) -> io::Result<usize>
        ensures bound { WritesAtMost result buf.now }
        ensures bytes { WriteAppends (written_of self.old) (written_of self.new) result buf.now }
        ensures counted { Counts self.old.count result self.new.count }
    {
        let Some(mut gathered) = self.shared.try_pop_as::<Take>(&mut self.pass) else {
            return Err(is_taken());
        };
        let written = gathered.write(buf);
        if self
            .shared
            .try_push_as::<GiveBack>(&mut self.pass, gathered)
            .is_err()
        {
            return Err(is_taken());
        }
        let size = written?;
        self.count = self.count.saturating_add(size as u64);
        Ok(size)
    }

    fn flush(&mut self) -> io::Result<()> {
        Ok(())
    }
}

impl<W: Write + Drop> WriteHalf<W> {
    /// How many bytes were written, those that still wait too.
    pub fn count(&self) -> u64
        ensures { result ≡ self.now.count }
    {
        self.count
    }
}

impl<R, W: Write + Drop> ReadHalf<R, W> {
    ghost use Rattle.std.specs.Prelude.{Some, IfErr, OnOk};
    ghost use Rattle.rs_tcp_sockets.specs.Halves.{LeftNoneWaiting, untold_fault_of};

    /// How many bytes were read.
    pub fn count(&self) -> u64
        ensures { result ≡ self.now.count }
    {
        self.count
    }

    /// Whether the last read failed because what waited could not be written out.
    pub fn is_unwritten(&self) -> bool
        ensures { result ≡ self.now.unwritten }
    {
        self.unwritten
    }

    /// Writes out what waits. After an error, what was not written still waits, and the next read fails with the same error, at once.
    pub fn write_out(&mut self) -> io::Result<()>
        ensures inner { self.new.inner ≡ self.old.inner }
        ensures count { self.new.count ≡ self.old.count }
        ensures none_waits { OnOk result (LeftNoneWaiting self.new) }
        ensures fault { IfErr result (λ error. untold_fault_of self.new ≡ Some error) }
    {
        let written = self.send();
        if let Err(error) = written {
            self.fault = Some(error);
        }
        written
    }

    /// Writes out what waits. After an error, what was not written still waits.
    fn send(&mut self) -> io::Result<()>
        ensures inner { self.new.inner ≡ self.old.inner }
        ensures count { self.new.count ≡ self.old.count }
        ensures none_waits { OnOk result (LeftNoneWaiting self.new) }
    {
        let Some(mut gathered) = self.shared.try_pop_as::<Take>(&mut self.pass) else {
            return Err(is_taken());
        };
        let put = match gathered.write_out() {
            Ok(()) => self
                .shared
                .try_push_as::<GiveBackWrittenOut>(&mut self.pass, gathered),
            Err(error) => {
                let _ = self
                    .shared
                    .try_push_as::<GiveBack>(&mut self.pass, gathered);
                return Err(error);
            }
        };
        match put {
            Ok(()) => Ok(()),
            Err(_) => Err(is_taken()),
        }
    }
}

impl<R: Read, W: Write + Drop> Read for ReadHalf<R, W> {
    ghost use Rattle.std.specs.Io.{ReadsAtMost};
    ghost use Rattle.std.specs.Io.KnownBytes.{ReadConsumes};
    ghost use Rattle.std.specs.Prelude.{true, Err, IfSome, IsErr, MatchBool, OnOk};
    ghost use Rattle.rs_tcp_sockets.specs.Halves.{Counts, unread_of, LeftNoneWaiting, untold_fault_of};

    ghost remaining = { unread_of R.remaining };

    fn read(&mut self, buf: &mut [u8]) -> io::Result<usize>
        ensures bound { ReadsAtMost result buf.new }
        ensures bytes { ReadConsumes (unread_of R.remaining self.old) (unread_of R.remaining self.new) result buf.new }
        ensures none_waits { OnOk result (LeftNoneWaiting self.new) }
        ensures counted { Counts self.old.count result self.new.count }
        ensures unwritten { MatchBool self.new.unwritten (IsErr result × (self.new.inner ≡ self.old.inner)) (LeftNoneWaiting self.new) }
        ensures fault { IfSome (untold_fault_of self.old) (λ error. (result ≡ Err error) × (self.new.unwritten ≡ true)) }
    {
        if let Some(error) = self.fault.take() {
            self.unwritten = true;
            return Err(error);
        }
        let written = self.send();
        self.unwritten = written.is_err();
        written?;
        let size = self.inner.read(buf)?;
        self.count = self.count.saturating_add(size as u64);
        Ok(size)
    }
}
