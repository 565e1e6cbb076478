//! A server whose contract is over any reader and any writer keeps it over the halves of a connection.

ghost use Rattle.std.specs.Prelude.{ℕ, List, IfOk, OnOk};
ghost use Rattle.std.specs.Io.KnownBytes.{Consumes, Appends};

use rs_tcp_sockets::{finish, split};
use std::alloc::Global;
use std::io;
use std::io::{Read, Write};
use std::test::Fail;

/// What any server does: it reads, and writes and flushes its replies. It knows nothing of the halves.
fn echo<R: Read, W: Write>(reader: &mut R, writer: &mut W) -> io::Result<()>
    ensures { OnOk result ((bytes : List ℕ) × Consumes (R.remaining reader.old) (R.remaining reader.new) bytes
        × Appends (W.contents writer.old) (W.contents writer.new) bytes) }
{
    let mut room = [0u8; 4];
    let size = reader.read(&mut room)?;
    writer.write_all(&room[..size])?;
    writer.flush()
}

/// The same over the two halves: the reader's bytes, in order, are in the writer at the end.
fn echo_gathered<R: Read + Drop, W: Write + Drop>(
    alloc: Global,
    reader: R,
    writer: W,
) -> io::Result<(R, W)>
    ensures { IfOk result (λ both. (bytes : List ℕ) × Consumes (R.remaining reader) (R.remaining both.0) bytes
        × Appends (W.contents writer) (W.contents both.1) bytes) }
{
    let (mut input, mut output) = split(alloc, reader, writer)?;
    echo(&mut input, &mut output)?;
    finish(input, output)
}

#[test]
fn a_server_answers_over_halves(rt: HostRuntime) -> Result<(), Fail> {
    let alloc = rt.alloc();
    let mut start = Vec::new(alloc);
    start.push(7)?;
    let input: &[u8] = b"abcdef";
    let (rest, output) = echo_gathered(alloc, input, start)?;
    assert!(rt; rest == b"ef".as_slice());
    assert!(rt; output.as_slice() == b"\x07abcd".as_slice());
    Ok(())
}
