//! Lines of hex digits, read and written.

mod reading;
mod writing;

use kit_test::is_shown;
use rs_program_pipe::{HexFault, read_hex};
use std::alloc::Global;

// Lines, and the bytes that they are, if they are hex digits.
const LINES: &[(&[u8], Option<&[u8]>)] = &[
    (b"", Some(b"")),
    (b"   ", Some(b"")),
    (b"00", Some(b"\x00")),
    (b"aF fA", Some(b"\xAF\xFA")),
    (b" 1 2 3 4 ", Some(b"\x12\x34")),
    (b"0", None),
    (b"0g", None),
    (b"0\t0", None),
    (b"00\r", None),
    (b"\xC3\xA9", None),
    (b"000", None),
];

fn is_read_as(alloc: Global, line: &[u8], wanted: Option<&[u8]>) -> bool {
    match (read_hex(alloc, line), wanted) {
        (Ok(bytes), Some(wanted)) => bytes.as_slice() == wanted,
        (Err(HexFault::NotHex), None) => true,
        _ => false,
    }
}

#[test]
fn digits_are_read(rt: HostRuntime) {
    for (line, wanted) in LINES {
        assert!(rt; is_read_as(rt.alloc(), line, *wanted));
    }
}

#[test]
fn faults_have_a_text(rt: HostRuntime) {
    let rows = [
        (
            HexFault::NotHex,
            "the line is not an even number of hex digits",
        ),
        (
            HexFault::NoMemory,
            "out of memory for the bytes of the line",
        ),
    ];
    for (fault, text) in rows {
        assert!(rt; is_shown(rt.alloc(), &fault, text));
    }
}
