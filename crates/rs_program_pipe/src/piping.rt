//! One connection from an input to an output.

ghost use Rattle.std.specs.Prelude.{◌≡◌, List, true, false};
ghost use Rattle.std.specs.List.{All};
ghost use Rattle.rs_message.specs.declared.entry.Entry.{Entry};
ghost use Rattle.rs_server.specs.Conversation.{assigned_of, gate_view, start};
ghost use Rattle.rs_program_pipe.specs.Piping.{IsPiped, piped};
ghost use Rattle.rs_program_pipe.specs.Faults.{pipe_fault, pipe_status};

use crate::reader::HexReader;
use crate::writer::HexWriter;
use rs_server::{ConnectionId, Counted, Moments, ServeFault, Served, serve};
use rs_session::Gate;
use std::alloc::Global;
use std::io::{Read, Write};
use std::sync::Wait;
use thiserror::Error;

/// The connection that is served: the first at place 1.
const FIRST: ConnectionId = ConnectionId {
    place: 1,
    number: 1,
};

/// Why a connection over an input and an output was not served to its end.
#[derive(Clone, Copy, Debug, PartialEq, Eq, Error)]
pub enum PipeFault {
    /// The input could not be read.
    #[error("read failed")]
    Read,
    /// The output could not be written.
    #[error("write failed")]
    Write,
    /// Memory was refused.
    #[error("out of memory")]
    NoMemory,
    /// A line of the input, counted from 1, is not an even number of hex digits.
    #[error("line {0} is not hex")]
    NotHex(u64),
}

impl PipeFault {
    /// The exit status: 2 for a line that is not hex, and 1 for the others.
    pub fn status(&self) -> u8
        ensures { result ≡ pipe_status self.now }
    {
        match self {
            PipeFault::NotHex(_) => 2,
            _ => 1,
        }
    }
}

/// One connection over an input and an output, after its end.
#[derive(Drop)]
pub struct Piped<R, W, G> {
    /// How it ended, or why it was broken off.
    pub served: Result<Served, PipeFault>,
    /// The input, with what was not read.
    pub input: R,
    /// The output.
    pub output: W,
    /// The gate.
    pub gate: G,
}

/// Serves one connection, the first at place 1, at the time `at`, in seconds. Without `hex`,
/// bytes go in and out as they are. With it, input and output are lines of hex digits, one line a reply.
///
/// The fault is that of [`serve`], but if a line was not hex it names the line. With `hex`, what was read of
/// the input and not handled is lost.
pub fn pipe<H: Wait, R: Read + Drop, W: Write + Drop, G: Gate>(
    rt: &H,
    alloc: Global,
    input: R,
    output: W,
    gate: G,
    hex: bool,
    at: u64,
) -> Piped<R, W, G>
    ensures { (seen : List Entry) → G.stands gate seen
        → IsPiped hex (start (assigned_of 1 1) seen (G.mark gate)) (G.pending gate) G.most (gate_view G.stands G.mark G.pending result.gate)
        (record {
          unread = R.remaining input;
          rest = R.remaining result.input;
          written = W.contents output;
          more = W.contents result.output;
          told = All (λ moment. moment ≡ at);
        }) result.served }
{
    if hex {
        pipe_lines(rt, alloc, input, output, gate, at)
    } else {
        pipe_bytes(rt, alloc, input, output, gate, at)
    }
}

fn pipe_bytes<H: Wait, R: Read + Drop, W: Write + Drop, G: Gate>(
    rt: &H,
    alloc: Global,
    input: R,
    output: W,
    gate: G,
    at: u64,
) -> Piped<R, W, G>
    ensures { (seen : List Entry) → G.stands gate seen
        → IsPiped false (start (assigned_of 1 1) seen (G.mark gate)) (G.pending gate) G.most
        (gate_view G.stands G.mark G.pending result.gate)
        (record {
          unread = R.remaining input;
          rest = R.remaining result.input;
          written = W.contents output;
          more = W.contents result.output;
          told = All (λ moment. moment ≡ at);
        }) result.served }
{
    let mut reader = Counted::new(input);
    let mut writer = Counted::new(output);
    let mut clock = Moments::new(at, Vec::new(alloc));
    let (served, gate, _handled) = serve(
        rt,
        alloc,
        &mut reader,
        &mut writer,
        gate,
        FIRST,
        &mut clock,
    );
    Piped {
        served: result_of(served, None),
        input: reader.into_inner(),
        output: writer.into_inner(),
        gate,
    }
}

fn pipe_lines<H: Wait, R: Read + Drop, W: Write + Drop, G: Gate>(
    rt: &H,
    alloc: Global,
    input: R,
    output: W,
    gate: G,
    at: u64,
) -> Piped<R, W, G>
    ensures { (seen : List Entry) → G.stands gate seen
        → IsPiped true (start (assigned_of 1 1) seen (G.mark gate)) (G.pending gate) G.most
        (gate_view G.stands G.mark G.pending result.gate)
        (record {
          unread = R.remaining input;
          rest = R.remaining result.input;
          written = W.contents output;
          more = W.contents result.output;
          told = All (λ moment. moment ≡ at);
        }) result.served }
{
    let mut reader = Counted::new(HexReader::new(alloc, input));
    let mut writer = Counted::new(HexWriter::new(output));
    let mut clock = Moments::new(at, Vec::new(alloc));
    let (served, gate, _handled) = serve(
        rt,
        alloc,
        &mut reader,
        &mut writer,
        gate,
        FIRST,
        &mut clock,
    );
    let lines = reader.into_inner();
    Piped {
        served: result_of(served, lines.not_hex()),
        input: lines.into_inner(),
        output: writer.into_inner().into_inner(),
        gate,
    }
}

/// The result if this line, if any, was not hex.
fn result_of(served: Result<Served, ServeFault>, not_hex: Option<u64>) -> Result<Served, PipeFault>
    ensures { result ≡ piped served not_hex }
{
    match served {
        Ok(served) => Ok(served),
        Err(fault) => Err(fault_at(fault, not_hex)),
    }
}

/// The fault if this line, if any, was not hex.
fn fault_at(fault: ServeFault, not_hex: Option<u64>) -> PipeFault
    ensures { result ≡ pipe_fault fault not_hex }
{
    match (fault, not_hex) {
        (ServeFault::Read, Some(line)) => PipeFault::NotHex(line),
        (ServeFault::Read, None) => PipeFault::Read,
        (ServeFault::Write, _) => PipeFault::Write,
        (ServeFault::NoMemory, _) => PipeFault::NoMemory,
    }
}
