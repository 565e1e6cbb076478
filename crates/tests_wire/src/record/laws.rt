//! Records that are written and read again, in part, with bytes changed, and many in a row.

use crate::record::draw::Draw;
use crate::record::rows::{Change, ROWS, Row};
use crate::record::samples::{Plain, set};
use bytes::Bytes;
use kit_test::{concat, is_concat};
use rs_journal_record::{RecordFault, put_record, read_record};
use rs_message::{Operation, Qos};
use std::alloc::Global;
use std::test::Fail;

fn written(alloc: Global, operation: &Operation) -> Option<Vec<u8>> {
    let mut out = Vec::new(alloc);
    put_record(&mut out, operation).ok()?;
    Some(out)
}

/// The operation that the bytes begin with, and how many bytes its record has.
pub fn read(alloc: Global, bytes: &[u8]) -> Result<(Operation, usize), RecordFault> {
    let mut rest = Bytes::copy_from_slice(alloc, bytes)?;
    let operation = read_record(alloc, &mut rest)?;
    Ok((operation, bytes.len().saturating_sub(rest.len())))
}

/// Whether the operation is read from the bytes, and its record has so many.
fn is_read(alloc: Global, bytes: &[u8], operation: &Operation, len: usize) -> bool {
    match read(alloc, bytes) {
        Ok((found, used)) => found == *operation && used == len,
        Err(_) => false,
    }
}

/// Whether the operation has this record, and is read from it, whatever follows.
fn is_coded(alloc: Global, row: &Row) -> Option<bool> {
    let operation = row.change.operation(alloc)?;
    let mut bytes = written(alloc, &operation)?;
    let is_written = is_concat(bytes.as_slice(), row.parts);
    let len = bytes.len();
    let is_alone = is_read(alloc, bytes.as_slice(), &operation, len);
    bytes.extend_from_slice(b"\x01\x00").ok()?;
    Some(is_written && is_alone && is_read(alloc, bytes.as_slice(), &operation, len))
}

#[test]
fn operations_have_these_records(rt: HostRuntime) -> Result<(), Fail> {
    for row in ROWS {
        assert!(rt; is_coded(rt.alloc(), row) == Some(true));
    }
    Ok(())
}

/// The same if memory is refused once: then the call is made again. `None` if it is refused again, or there is another fault.
fn is_coded_at_last(alloc: Global, row: &Row) -> Option<bool> {
    let operation = row
        .change
        .operation(alloc)
        .or_else(|| row.change.operation(alloc))?;
    let bytes = written(alloc, &operation).or_else(|| written(alloc, &operation))?;
    let read = match read(alloc, bytes.as_slice()) {
        Err(RecordFault::NoMemory) => read(alloc, bytes.as_slice()),
        read => read,
    };
    let (found, used) = read.ok()?;
    Some(found == operation && used == bytes.len() && is_concat(bytes.as_slice(), row.parts))
}

/// Under `rt try --test --fail-alloc 1..` each allocation is refused in turn.
#[test]
fn a_call_that_is_refused_memory_can_be_made_again(rt: HostRuntime) -> Result<(), Fail> {
    for row in ROWS {
        assert!(rt; is_coded_at_last(rt.alloc(), row) == Some(true));
    }
    Ok(())
}

/// Whether each part of the record, from its first byte on, is cut off.
fn are_cut_off(alloc: Global, bytes: &[u8]) -> bool {
    for len in 0..bytes.len() {
        if !matches!(read(alloc, &bytes[..len]), Err(RecordFault::Truncated)) {
            return false;
        }
    }
    true
}

#[test]
fn parts_of_records_are_cut_off(rt: HostRuntime) -> Result<(), Fail> {
    for row in ROWS {
        let bytes = concat(rt.alloc(), row.parts)?;
        assert!(rt; are_cut_off(rt.alloc(), bytes.as_slice()));
    }
    Ok(())
}

/// Whether the bytes have a fault, or are the record of what is read from them. `None` if memory is refused.
fn is_record_or_fault(alloc: Global, bytes: &[u8]) -> Option<bool> {
    match read(alloc, bytes) {
        Ok((operation, used)) => {
            let again = written(alloc, &operation)?;
            Some(bytes.get(..used) == Some(again.as_slice()))
        }
        Err(RecordFault::NoMemory) => None,
        Err(_) => Some(true),
    }
}

/// The bits of a byte that are changed: each alone, and some together.
const CHANGES: &[u8] = &[1, 2, 4, 8, 16, 32, 64, 128, 3, 127, 255];

/// Whether that holds if the byte of this index is changed.
fn may_change(alloc: Global, bytes: &mut [u8], index: usize) -> Option<bool> {
    let mut all = true;
    for change in CHANGES {
        if let Some(byte) = bytes.get_mut(index) {
            *byte ^= *change;
        }
        all = all && is_record_or_fault(alloc, bytes)?;
        if let Some(byte) = bytes.get_mut(index) {
            *byte ^= *change;
        }
    }
    Some(all)
}

#[test]
fn changed_bytes_are_records_or_have_faults(rt: HostRuntime) -> Result<(), Fail> {
    for row in ROWS {
        let mut bytes = concat(rt.alloc(), row.parts)?;
        for index in 0..bytes.len() {
            assert!(rt;
                may_change(rt.alloc(), bytes.as_mut_slice(), index) == Some(true),
                "{index}"
            );
        }
    }
    Ok(())
}

/// How many bytes the record of this operation has, if it is read again.
fn len_of(alloc: Global, topic: &[u8], plain: &Plain) -> Option<usize> {
    let operation = set(alloc, topic, plain)?;
    let bytes = written(alloc, &operation)?;
    let len = bytes.len();
    is_read(alloc, bytes.as_slice(), &operation, len).then_some(len)
}

/// So many bytes `a`.
fn letters(alloc: Global, len: usize) -> Result<Vec<u8>, Fail> {
    Ok(vec![in alloc; b'a'; len]?)
}

/// A message with this payload, and nothing else.
fn bare(payload: &[u8]) -> Plain<'_> {
    Plain {
        payload,
        qos: Qos::ExactlyOnce,
        received: 7,
        expiry: None,
        format: None,
        content_type: None,
        response_topic: None,
        correlation: None,
        user: &[],
    }
}

#[test]
fn a_long_payload_is_read_again(rt: HostRuntime) -> Result<(), Fail> {
    let payload = letters(rt.alloc(), 100_000)?;
    let len = len_of(rt.alloc(), b"t", &bare(payload.as_slice()));
    assert!(rt; len == Some(1 + 3 + 1 + 8 + 1 + 8 + 4 + 100_000));
    Ok(())
}

#[test]
fn the_longest_texts_are_read_again(rt: HostRuntime) -> Result<(), Fail> {
    let long = letters(rt.alloc(), 65_535)?;
    let text = Some(long.as_slice());
    let plain = Plain {
        content_type: text,
        response_topic: text,
        correlation: text,
        ..bare(b"x")
    };
    let len = len_of(rt.alloc(), long.as_slice(), &plain);
    assert!(rt; len == Some(1 + 65_537 + 1 + 8 + 1 + 1 + 3 * 65_538 + 4 + 5));
    Ok(())
}

#[test]
fn the_longest_user_property_is_read_again(rt: HostRuntime) -> Result<(), Fail> {
    let long = letters(rt.alloc(), 65_535)?;
    let user = [(long.as_slice(), long.as_slice())];
    let plain = Plain {
        user: &user,
        ..bare(b"x")
    };
    let len = len_of(rt.alloc(), b"t", &plain);
    assert!(rt; len == Some(1 + 3 + 1 + 8 + 1 + 4 + 4 + 2 * 65_537 + 5));
    Ok(())
}

/// The records of so many operations that are drawn, one after the other.
fn draw_many(alloc: Global, many: u64) -> Option<(Vec<Operation>, Vec<u8>)> {
    let mut draw = Draw { state: 2026 };
    let mut operations = Vec::new(alloc);
    let mut bytes = Vec::new(alloc);
    for _i in 0..many {
        let operation = draw.operation(alloc)?;
        put_record(&mut bytes, &operation).ok()?;
        operations.push(operation).ok()?;
    }
    Some((operations, bytes))
}

/// Whether these operations are read from the bytes, and nothing is left.
fn are_read(alloc: Global, bytes: Vec<u8>, operations: &[Operation]) -> Option<bool> {
    let mut rest = Bytes::copy_from_slice(alloc, bytes.as_slice()).ok()?;
    for operation in operations {
        let found = read_record(alloc, &mut rest).ok()?;
        if found != *operation {
            return Some(false);
        }
    }
    Some(rest.is_empty())
}

#[test]
fn many_operations_are_read_again(rt: HostRuntime) -> Result<(), Fail> {
    let (operations, bytes) = draw_many(rt.alloc(), 200).ok_or("memory was refused")?;
    assert!(rt; are_read(rt.alloc(), bytes, operations.as_slice()) == Some(true));
    Ok(())
}
