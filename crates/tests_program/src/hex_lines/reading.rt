//! Lines that are read in pieces of every size.

use rs_program_pipe::HexReader;
use std::alloc::Global;
use std::io;
use std::io::{ErrorKind, Read};
use std::test::Fail;

// Gives at most `step` bytes a call. The call with this number fails, counted from 1.
#[derive(Drop)]
struct StepReader<'a> {
    text: &'a [u8],
    step: usize,
    calls: usize,
    fails_at: usize,
}

impl Read for StepReader<'_> {
    fn read(&mut self, buf: &mut [u8]) -> io::Result<usize> {
        self.calls = self.calls.saturating_add(1);
        if self.calls == self.fails_at {
            return Err(io::Error::from(ErrorKind::Interrupted));
        }
        let n = buf.len().min(self.step);
        self.text.read(&mut buf[..n])
    }
}

/// How a text comes: by so many bytes a call, of which the one with this number fails, and by how many it is taken.
#[derive(Clone, Copy)]
struct Way {
    step: usize,
    fails_at: usize,
    room: usize,
}

/// What is read up to the end or the first error, and what is read after that.
#[derive(Drop)]
struct Outcome {
    bytes: Vec<u8>,
    error: Option<ErrorKind>,
    /// The line that is to blame for the error.
    line: Option<u64>,
    /// How many calls gave bytes.
    calls: usize,
    bytes_after: Vec<u8>,
    error_after: Option<ErrorKind>,
}

// Appends the bytes up to the end or the first error. Returns how many calls gave some, and the error's kind.
fn read_all(
    reader: &mut HexReader<StepReader>,
    buf: &mut [u8],
    bytes: &mut Vec<u8>,
) -> Result<(usize, Option<ErrorKind>), Fail> {
    for calls in 0..1000 {
        match reader.read(buf) {
            Ok(0) => return Ok((calls, None)),
            Ok(n) => bytes.extend_from_slice(&buf[..n.min(buf.len())])?,
            Err(error) => return Ok((calls, Some(error.kind()))),
        }
    }
    Err(Fail::from("no end"))
}

fn read(alloc: Global, text: &[u8], way: Way) -> Result<Outcome, Fail> {
    let mut reader = HexReader::new(
        alloc,
        StepReader {
            text,
            step: way.step,
            calls: 0,
            fails_at: way.fails_at,
        },
    );
    let mut buf = vec![in alloc; 0; way.room]?;
    let (mut bytes, mut bytes_after) = (Vec::new(alloc), Vec::new(alloc));
    let (calls, error) = read_all(&mut reader, &mut buf, &mut bytes)?;
    let line = reader.not_hex();
    let (_, error_after) = read_all(&mut reader, &mut buf, &mut bytes_after)?;
    Ok(Outcome {
        bytes,
        error,
        line,
        calls,
        bytes_after,
        error_after,
    })
}

// Whether the bytes, and no others, are read without an error.
fn is_all(found: &Outcome, bytes: &[u8]) -> bool {
    found.bytes.as_slice() == bytes
        && found.error.is_none()
        && found.line.is_none()
        && found.bytes_after.is_empty()
        && found.error_after.is_none()
}

fn is_read_as(alloc: Global, text: &[u8], way: Way, bytes: &[u8]) -> Result<bool, Fail> {
    let found = read(alloc, text, way)?;
    Ok(is_all(&found, bytes))
}

const TEXT: &[u8] = b"00\n 01 02\n\n  \n0304050607\n0 8 0 9\n0A";

const TEXT_BYTES: &[u8] = b"\x00\x01\x02\x03\x04\x05\x06\x07\x08\x09\x0A";

// An empty line and one of spaces give nothing, and the last line needs no line feed.
#[test]
fn all_lines_are_read(rt: HostRuntime) -> Result<(), Fail> {
    for step in 1..=TEXT.len() {
        for room in 1..=5 {
            let way = Way {
                step,
                fails_at: 0,
                room,
            };
            assert!(rt;
                is_read_as(rt.alloc(), TEXT, way, TEXT_BYTES)?,
                "{step} {room}"
            );
        }
    }
    Ok(())
}

// Whether the bytes are read, then this line is to blame, and the reader goes no further.
fn is_stopped(found: &Outcome, bytes: &[u8], line: u64) -> bool {
    found.bytes.as_slice() == bytes
        && found.error == Some(ErrorKind::InvalidData)
        && found.line == Some(line)
        && found.bytes_after.is_empty()
        && found.error_after == Some(ErrorKind::InvalidData)
}

// A text, the bytes before the bad line, and the number of that line.
const BAD: &[(&[u8], &[u8], u64)] = &[
    (b"00\n\n0102\n03 0x\n04\n", b"\x00\x01\x02", 4),
    (b"0\n00", b"", 1),
    (b"00\r\n00", b"", 1),
    (b"00\n0", b"\x00", 2),
];

// The line is counted with the empty ones. What stands behind it is never read.
#[test]
fn a_bad_line_stops_the_reader(rt: HostRuntime) -> Result<(), Fail> {
    for (text, bytes, line) in BAD {
        for step in 1..=text.len() {
            let way = Way {
                step,
                fails_at: 0,
                room: 5,
            };
            let found = read(rt.alloc(), text, way)?;
            assert!(rt; is_stopped(&found, bytes, *line), "{line} {step}");
        }
    }
    Ok(())
}

// Whether a failed read of the input is reported as it is, no line is to blame, and the bytes are read then and after that.
fn goes_on(found: &Outcome, bytes: &[u8]) -> bool {
    let after = found.bytes_after.as_slice();
    found.error == Some(ErrorKind::Interrupted)
        && found.line.is_none()
        && found.error_after.is_none()
        && found.bytes.len() + after.len() == bytes.len()
        && bytes.starts_with(&found.bytes)
        && bytes.ends_with(after)
}

#[test]
fn reading_goes_on_after_a_failed_read(rt: HostRuntime) -> Result<(), Fail> {
    for fails_at in 1..=TEXT.len() {
        let way = Way {
            step: 1,
            fails_at,
            room: 2,
        };
        let found = read(rt.alloc(), TEXT, way)?;
        assert!(rt; goes_on(&found, TEXT_BYTES), "{fails_at}");
    }
    Ok(())
}

/// Many bytes of a text, then some more, and how they are read: the way, how many calls give bytes, and how many bytes there are of
/// this value.
struct Long {
    byte: u8,
    count: usize,
    end: &'static [u8],
    way: Way,
    calls: usize,
    bytes: (u8, usize),
}

const LONG: &[Long] = &[
    // Digits that come one at a time: the input is read as often as a line needs it.
    Long {
        byte: b'4',
        count: 3_000,
        end: b"",
        way: Way {
            step: 1,
            fails_at: 0,
            room: 1_500,
        },
        calls: 1,
        bytes: (0x44, 1_500),
    },
    // However many empty lines stand before a byte, one read gives it.
    Long {
        byte: b'\n',
        count: 3_000,
        end: b"0A",
        way: Way {
            step: 1_000_000,
            fails_at: 0,
            room: 2,
        },
        calls: 1,
        bytes: (0x0A, 1),
    },
    // One line of 600,002 digits, which takes many reads of the input.
    Long {
        byte: b'0',
        count: 600_002,
        end: b"",
        way: Way {
            step: 1_000_000,
            fails_at: 0,
            room: 5_000,
        },
        calls: 61,
        bytes: (0, 300_001),
    },
];

fn is_read_whole(alloc: Global, long: &Long) -> Result<bool, Fail> {
    let mut text = vec![in alloc; long.byte; long.count]?;
    text.extend_from_slice(long.end)?;
    let bytes = vec![in alloc; long.bytes.0; long.bytes.1]?;
    let found = read(alloc, &text, long.way)?;
    Ok(found.calls == long.calls && is_all(&found, &bytes))
}

#[test]
fn long_texts_are_read(rt: HostRuntime) -> Result<(), Fail> {
    for long in LONG {
        assert!(rt; is_read_whole(rt.alloc(), long)?);
    }
    Ok(())
}
