//! Operations out of the bytes of a stream.

ghost use Rattle.std.specs.Prelude.{◌≡◌, ◌+◌, ◌<◌, ◌≤◌, ◌^◌, ◌++◌, ℕ, List, None, length, take, drop, All, IfOk, IfErr, IfSome, OnOk};
ghost use Rattle.std.specs.Int.{w32, to_be_bytes};
ghost use Rattle.rs_message.specs.declared.entry.Operation.{Operation as Read};
ghost use Rattle.rs_journal_record.specs.Records.{record_form, IsOperation};
ghost use Rattle.rs_journal.specs.Frames.{frames, BeginNone};
ghost use Rattle.rs_journal.specs.Opening.{IsWrong, IsWrongRecord};

use crate::fault::ReadFault;
use crate::sink::OperationSink;
use bytes::Bytes;
use rs_journal_record::read_record;
use rs_message::Operation;
use std::alloc::{AllocError, Global};

/// The length that the first four bytes tell.
fn told_len(bytes: &[u8]) -> Option<usize>
    ensures says { IfSome result (λ n. (4 ≤ length bytes.now) × (take 4 bytes.now ≡ to_be_bytes w32 n) × (n < 2 ^ 32)) }
    ensures none { result ≡ None → length bytes.now < 4 }
{
    if bytes.len() < 4 {
        return None;
    }
    let (front, _) = bytes.split_at(4);
    Some(u32::from_be_bytes([front[0], front[1], front[2], front[3]]) as usize)
}

/// How many bytes behind the first four the record has that they announce, if all of it is there.
fn record_len(bytes: &[u8]) -> Option<usize>
    ensures within { IfSome result (λ n. 4 + n ≤ length bytes.now) }
    ensures says { IfSome result (λ n. (take 4 bytes.now ≡ to_be_bytes w32 n) × (n < 2 ^ 32)) }
    ensures none { result ≡ None → BeginNone bytes.now }
{
    let len = told_len(bytes)?;
    if len > bytes.len() - 4 {
        return None;
    }
    Some(len)
}

/// The operation whose record these bytes are, and nothing else.
fn read_whole(alloc: Global, bytes: &[u8]) -> Result<Operation, ReadFault>
    ensures read { IfOk result (λ operation. IsOperation operation × (bytes.now ≡ record_form operation)) }
    ensures refused { IfErr result (λ e. IsWrongRecord e bytes.now) }
{
    let mut rest = Bytes::copy_from_slice(alloc, bytes)?;
    let operation = read_record(alloc, &mut rest)?;
    if !rest.is_empty() {
        return Err(ReadFault::Damaged);
    }
    Ok(operation)
}

/// Hands on the operations whose frames are all there, and tells how many bytes these have.
pub(crate) fn read_frames<S: OperationSink>(
    alloc: Global,
    bytes: &[u8],
    sink: &mut S,
) -> Result<usize, ReadFault>
    ensures within { IfOk result (λ n. n ≤ length bytes.now) }
    ensures read { IfOk result (λ n. (operations : List Read) × ((before : List Read) → S.has_taken sink.old before → S.has_taken sink.new (before ++ operations)) × All IsOperation operations × (take n bytes.now ≡ frames operations)) }
    ensures rest { IfOk result (λ n. BeginNone (drop n bytes.now)) }
    ensures refused { IfErr result (λ e. (rest : List ℕ) → IsWrong e (bytes.now ++ rest)) }
{
    let mut at = 0;
    while let Some(len) = record_len(&bytes[at..]) {
        let operation = read_whole(alloc, &bytes[at + 4..at + 4 + len])?;
        sink.take(operation)?;
        at += 4 + len;
    }
    Ok(at)
}

/// Takes so many bytes off the front.
pub(crate) fn drop_front(bytes: &mut Vec<u8>, n: usize) -> Result<(), AllocError>
    requires { n ≤ length bytes.old.items }
    ensures { OnOk result (bytes.new.items ≡ drop n bytes.old.items) }
{
    if n > 0 {
        let rest = Vec::from_slice(*bytes.allocator(), &bytes[n..])?;
        *bytes = rest;
    }
    Ok(())
}
