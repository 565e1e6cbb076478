//! A connection in two halves, and one writer again at its end.

ghost use Rattle.std.specs.Prelude.{◌≡◌, IfOk, IfSome};
ghost use Rattle.std.specs.Io.KnownBytes.{Keeps};
ghost use Rattle.rs_tcp_sockets.specs.Halves.{unread_of, written_of};

use crate::gathered::Gathered;
use crate::halves::{ReadHalf, WriteHalf, is_taken};
use crate::sharing::{ForReading, GiveBack, Take, empty_cell};
use std::alloc::Global;
use std::io;
use std::io::{Read, Write};
use std::sync::Arc;

/// Makes two halves of a reader and a writer, with nothing gathered yet.
///
/// # Errors
///
/// Only if memory is refused. Reader and writer are dropped.
pub fn split<R: Read + Drop, W: Write + Drop>(
    alloc: Global,
    reader: R,
    writer: W,
) -> io::Result<(ReadHalf<R, W>, WriteHalf<W>)>
    ensures reader { IfOk result (λ halves. unread_of R.remaining halves.0 ≡ R.remaining reader) }
    ensures writer { IfOk result (λ halves. Keeps (W.contents writer) (written_of halves.1)) }
{
    let gathered = Gathered::new(alloc, writer);
    let (shared, mut pass) = empty_cell::<W>(alloc)?;
    let shared_too = Arc::try_clone(&shared)?;
    let reading = shared.another::<ForReading>(&mut pass);
    match shared.try_push_as::<GiveBack>(&mut pass, gathered) {
        Ok(()) => Ok((
            ReadHalf {
                inner: reader,
                shared: shared_too,
                pass: reading,
                count: 0,
                unwritten: false,
                fault: None,
            },
            WriteHalf {
                shared,
                pass,
                count: 0,
            },
        )),
        Err(_) => Err(is_taken()),
    }
}

/// Writes out what waits, and gives reader and writer back.
///
/// # Errors
///
/// If what waited could not be written. Reader and writer are dropped.
pub fn finish<R: Read + Drop, W: Write + Drop>(
    read: ReadHalf<R, W>,
    write: WriteHalf<W>,
) -> io::Result<(R, W)>
    ensures reader { IfOk result (λ both. R.remaining both.0 ≡ unread_of R.remaining read) }
    ensures writer { IfOk result (λ both. Keeps (written_of write) (W.contents both.1)) }
{
    let ReadHalf {
        inner,
        shared: _,
        pass: _,
        count: _,
        unwritten: _,
        fault: _,
    } = read;
    let WriteHalf {
        shared,
        mut pass,
        count: _,
    } = write;
    match shared.try_pop_as::<Take>(&mut pass) {
        Some(gathered) => Ok((inner, gathered.into_inner()?)),
        None => Err(is_taken()),
    }
}

/// Gives reader and writer back as they are, and drops what waits. None only while another thread is inside a call of a half.
pub(crate) fn give_up<R: Read + Drop, W: Write + Drop>(
    read: ReadHalf<R, W>,
    write: WriteHalf<W>,
) -> Option<(R, W)>
    ensures { IfSome result (λ both. R.remaining both.0 ≡ unread_of R.remaining read) }
{
    let ReadHalf {
        inner,
        shared: _,
        pass: _,
        count: _,
        unwritten: _,
        fault: _,
    } = read;
    let WriteHalf {
        shared,
        mut pass,
        count: _,
    } = write;
    let gathered = shared.try_pop_as::<Take>(&mut pass)?;
    Some((inner, gathered.give_up()))
}
