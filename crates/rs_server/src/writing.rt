//! What is written.

ghost use Rattle.std.specs.Prelude.{◌≡◌, ◌<◌, ◌-◌, ◌^◌, ◌++◌, List, None};
ghost use Rattle.rs_packet.specs.Replies.{reply_bytes};
ghost use Rattle.rs_packet.specs.declared.reply.Reply.{Reply};
ghost use Rattle.rs_session.specs.State.{state_of, due_of, gate_of};
ghost use Rattle.rs_session.specs.Run.{GivesAll};
ghost use Rattle.rs_server.specs.Counts.{inner_of, failures_of};
ghost use Rattle.rs_server.specs.Writing.{IsWriteCause, Writes, all_reply_bytes, fault_number};

use crate::counted::Counted;
use rs_packet::{Reply, encode_parts};
use rs_session::{Gate, Session};
use std::alloc::Global;
use std::io::Write;
use thiserror::Error;

/// Why a connection was not served to its end.
#[derive(Clone, Copy, Debug, PartialEq, Eq, Error)]
pub enum ServeFault {
    /// 60: the reader failed.
    #[error("reading from the client failed; check the connection")]
    Read,
    /// 61: the writer failed, or took nothing of what it was given.
    #[error("writing to the client failed; check that it still reads")]
    Write,
    /// 62: memory was refused.
    #[error("out of memory to serve the connection; try again with fewer clients")]
    NoMemory,
}

impl ServeFault {
    /// The number of the fault, 60 to 62.
    pub fn code(&self) -> u8
        ensures { result ≡ fault_number self.now }
    {
        match self {
            ServeFault::Read => 60,
            ServeFault::Write => 61,
            ServeFault::NoMemory => 62,
        }
    }
}

/// Writes all of the bytes.
fn write_bytes<W: Write>(writer: &mut Counted<W>, bytes: &[u8]) -> Result<(), ServeFault>
    requires { failures_of writer.old < 2 ^ 64 - 1 }
    ensures bytes { Writes result (W.contents (inner_of writer.old)) (W.contents (inner_of writer.new)) bytes.now }
    ensures cause { IsWriteCause result (failures_of writer.old) (failures_of writer.new) }
{
    let mut rest = bytes;
    while !rest.is_empty() {
        let Ok(n) = writer.write(rest) else {
            return Err(ServeFault::Write);
        };
        if n == 0 {
            return Err(ServeFault::Write);
        }
        rest = &rest[n..];
    }
    Ok(())
}

/// Writes all of the bytes of both parts.
fn write_both<W: Write>(
    writer: &mut Counted<W>,
    first: &[u8],
    rest: &[u8],
) -> Result<(), ServeFault>
    requires { failures_of writer.old < 2 ^ 64 - 1 }
    ensures bytes { Writes result (W.contents (inner_of writer.old)) (W.contents (inner_of writer.new)) (first.now ++ rest.now) }
    ensures cause { IsWriteCause result (failures_of writer.old) (failures_of writer.new) }
{
    match write_bytes(writer, first) {
        Ok(()) => write_bytes(writer, rest),
        Err(fault) => Err(fault),
    }
}

/// Writes a reply, and flushes. A long payload is written from where it lies.
fn write_reply<W: Write>(
    alloc: Global,
    writer: &mut Counted<W>,
    reply: &Reply,
) -> Result<(), ServeFault>
    requires { failures_of writer.old < 2 ^ 64 - 1 }
    ensures bytes { Writes result (W.contents (inner_of writer.old)) (W.contents (inner_of writer.new)) (reply_bytes reply.now) }
    ensures cause { IsWriteCause result (failures_of writer.old) (failures_of writer.new) }
{
    let Ok((first, rest)) = encode_parts(alloc, reply) else {
        return Err(ServeFault::NoMemory);
    };
    write_both(writer, first.as_slice(), rest)?;
    match writer.flush() {
        Ok(()) => Ok(()),
        Err(_) => Err(ServeFault::Write),
    }
}

/// Writes all that the session replies at this time. The session is asked to the end in every case.
pub(crate) fn write_replies<G: Gate, W: Write>(
    alloc: Global,
    session: &mut Session<G>,
    writer: &mut Counted<W>,
    now: u64,
) -> Result<(), ServeFault>
    requires { failures_of writer.old < 2 ^ 64 - 1 }
    ensures bytes { (replies : List Reply)
        × GivesAll now (due_of session.old) (state_of session.old) replies (state_of session.new)
        × Writes result (W.contents (inner_of writer.old)) (W.contents (inner_of writer.new)) (all_reply_bytes replies) }
    ensures due { due_of session.new ≡ None }
    ensures gate { gate_of session.new ≡ gate_of session.old }
    ensures cause { IsWriteCause result (failures_of writer.old) (failures_of writer.new) }
{
    let mut written = Ok(());
    while let Some(reply) = session.next_reply(now) {
        if written.is_ok() {
            written = write_reply(alloc, writer, &reply);
        }
        // For the proof, which would otherwise go through each kind of reply.
        drop(reply);
    }
    written
}
