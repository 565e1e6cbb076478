//! Bytes that are no records, and how their faults are shown.

use crate::record::laws::read;
use kit_test::{concat, is_shown};
use rs_journal_record::RecordFault;
use std::alloc::{AllocError, Global};
use std::test::Fail;

/// What a Set begins with: its topic, QoS 0, and the moment at which it came.
const SET: &[u8] = b"\x01\x00\x01t\x00\x00\x00\x00\x00\x00\x00\x00\x07";

/// Its interval and its properties, if there are none.
const NOTHING: &[u8] = b"\x00\x00\x00\x00\x00\x00\x00\x00\x00";

/// Bytes in parts, and their fault.
const FAULTY: &[(&[&[u8]], RecordFault)] = &[
    (&[], RecordFault::Truncated),
    (&[b"\x00"], RecordFault::UnknownKind),
    (&[b"\x04\x00\x01t"], RecordFault::UnknownKind),
    (&[b"\xFF"], RecordFault::UnknownKind),
    // A topic that is empty, has a wildcard, is not UTF-8, or contains U+0000.
    (&[b"\x02\x00\x00"], RecordFault::Malformed),
    (&[b"\x02\x00\x03a/+"], RecordFault::Malformed),
    (&[b"\x02\x00\x01\xFF"], RecordFault::Malformed),
    (&[b"\x02\x00\x01\x00"], RecordFault::Malformed),
    // Its length is more than the bytes that are left.
    (&[b"\x02\x00\x03ab"], RecordFault::Truncated),
    // QoS 3, though the bytes end there.
    (&[b"\x01\x00\x01t\x03"], RecordFault::Malformed),
    // A flag that is neither 0 nor 1.
    (&[SET, b"\x02"], RecordFault::Malformed),
    // More User Properties than follow.
    (
        &[SET, b"\x00\x00\x00\x00\x00\xFF\xFF\xFF\xFF"],
        RecordFault::Truncated,
    ),
    // An empty payload, and one that is longer than the rest.
    (&[SET, NOTHING, b"\x00\x00\x00\x00"], RecordFault::Malformed),
    (
        &[SET, NOTHING, b"\xFF\xFF\xFF\xFFx"],
        RecordFault::Truncated,
    ),
];

fn fault_of(alloc: Global, parts: &[&[u8]]) -> Result<Option<RecordFault>, AllocError> {
    let bytes = concat(alloc, parts)?;
    Ok(read(alloc, bytes.as_slice()).err())
}

#[test]
fn other_bytes_have_faults(rt: HostRuntime) -> Result<(), Fail> {
    for (parts, fault) in FAULTY {
        assert!(rt; fault_of(rt.alloc(), parts)? == Some(*fault));
    }
    Ok(())
}

/// The fault of a message without properties, whose payload has so many bytes.
fn fault_of_size(alloc: Global, len: u32) -> Result<Option<RecordFault>, AllocError> {
    let payload = vec![in alloc; b'x'; len as usize]?;
    fault_of(
        alloc,
        &[SET, NOTHING, &len.to_be_bytes(), payload.as_slice()],
    )
}

/// With the one byte that says that there are no properties it may have 262,144 bytes.
#[test]
fn a_message_that_is_too_large_has_a_fault(rt: HostRuntime) -> Result<(), Fail> {
    assert!(rt; fault_of_size(rt.alloc(), 262_143)?.is_none());
    assert!(rt; fault_of_size(rt.alloc(), 262_144)? == Some(RecordFault::Malformed));
    Ok(())
}

/// Each fault and its text.
const TEXTS: &[(RecordFault, &str)] = &[
    (
        RecordFault::Truncated,
        "the last record is not whole: drop it, or restore the rest from a copy",
    ),
    (
        RecordFault::UnknownKind,
        "a record is of an unknown kind: read it with the version that wrote it",
    ),
    (
        RecordFault::Malformed,
        "a record is damaged: restore it from a copy",
    ),
    (
        RecordFault::NoMemory,
        "memory ran out while a record was read: free memory and try again",
    ),
];

#[test]
fn faults_have_texts(rt: HostRuntime) -> Result<(), Fail> {
    for (fault, text) in TEXTS {
        assert!(rt; is_shown(rt.alloc(), fault, text));
    }
    Ok(())
}
