//! Clients that send and take bytes slowly, or fail.

use super::steps::{WAYS, Way, serve_by};
use kit_test::{Behavior, CONNACK, Call, FaultyStream, REFUSING_GATE, cut_off, is_concat, limits};
use rs_server::{ConnectionId, Counted, Moments, ServeFault, Served};
use std::alloc::{AllocError, Global};
use std::io;
use std::io::Write;
use std::sync::Wait;
use std::test::Fail;

// CONNECT, SUBSCRIBE, PINGREQ, DISCONNECT.
const INPUT: &[u8] = &[
    0x10, 0x0E, 0x00, 0x04, 0x4D, 0x51, 0x54, 0x54, 0x05, 0x02, 0x00, 0x3C, 0x00, 0x00, 0x01, 0x61,
    0x82, 0x09, 0x00, 0x01, 0x00, 0x00, 0x03, 0x61, 0x2F, 0x23, 0x00, 0xC0, 0x00, 0xE0, 0x00,
];

// What it is answered behind CONNACK: SUBACK (there was no memory for an answer), PINGRESP.
const REPLIES: &[u8] = &[0x90, 0x04, 0x00, 0x01, 0x00, 0x97, 0xD0, 0x00];

/// Takes at most `step` bytes a write, is full after some, and notes at which byte it was flushed.
#[derive(Drop)]
struct Narrow {
    bytes: Vec<u8>,
    step: usize,
    room: usize,
    flushed_at: Vec<usize>,
}

impl Write for Narrow {
    fn write(&mut self, buf: &[u8]) -> io::Result<usize> {
        let n = buf.len().min(self.step).min(self.room);
        self.bytes.extend_from_slice(&buf[..n])?;
        self.room -= n;
        Ok(n)
    }

    fn flush(&mut self) -> io::Result<()> {
        self.flushed_at.push(self.bytes.len())?;
        Ok(())
    }
}

/// How a client sends bytes and takes the replies.
#[derive(Clone, Copy)]
struct Script<'a> {
    id: ConnectionId,
    input: &'a [u8],
    /// How many bytes a read gives.
    step: usize,
    /// The number of the read that fails, from 1 on. None fails at 0.
    fails_at: usize,
    /// How many bytes a write takes.
    takes: usize,
    /// How many bytes are taken in all.
    room: usize,
}

/// The first connection of the first place, which takes all, two bytes a write.
const PLAIN: Script<'static> = Script {
    id: ConnectionId {
        place: 1,
        number: 1,
    },
    input: INPUT,
    step: 1,
    fails_at: 0,
    takes: 2,
    room: 1000,
};

/// What a connection is answered: its end, the replies in two parts, after which of their bytes they were flushed, and how many reads and
/// writes failed.
#[derive(Clone, Copy)]
struct Outcome<'a> {
    served: Result<Served, ServeFault>,
    output: [&'a [u8]; 2],
    flushed_at: Option<&'a [usize]>,
    failures: (u64, u64),
}

fn is_written(narrow: &Narrow, wanted: &Outcome) -> bool {
    let is_flushed = match wanted.flushed_at {
        Some(wanted) => narrow.flushed_at.as_slice() == wanted,
        None => true,
    };
    is_flushed && is_concat(&narrow.bytes, &wanted.output)
}

/// Whether this is answered, in whatever way the connection is served.
fn is_served<H: Wait>(rt: &H, alloc: Global, script: &Script, wanted: &Outcome) -> bool {
    for way in WAYS {
        if !is_served_by(rt, alloc, script, wanted, *way) {
            return false;
        }
    }
    true
}

fn is_served_by<H: Wait>(
    rt: &H,
    alloc: Global,
    script: &Script,
    wanted: &Outcome,
    way: Way,
) -> bool {
    let mut reader = Counted::new(FaultyStream {
        inner: script.input,
        behavior: Behavior {
            step: script.step,
            call: Call::Read,
            at: script.fails_at,
        },
    });
    let mut writer = Counted::new(Narrow {
        bytes: Vec::new(alloc),
        step: script.takes,
        room: script.room,
        flushed_at: Vec::new(alloc),
    });
    let mut clock = Moments::new(0, Vec::new(alloc));
    let id = script.id;
    let (served, _gate, _handled) = serve_by(
        rt,
        alloc,
        &mut reader,
        &mut writer,
        REFUSING_GATE,
        id,
        &mut clock,
        way,
    );
    let failures = (reader.failures(), writer.failures());
    let is_ended = served == wanted.served && failures == wanted.failures;
    is_written(&writer.into_inner(), wanted) && is_ended
}

// Each reply is flushed when it is written.
#[test]
fn pieces_of_any_size_are_answered_alike(rt: HostRuntime) {
    let wanted = Outcome {
        served: Ok(Served::ClientClosed),
        output: [CONNACK, REPLIES],
        flushed_at: Some(&[15, 21, 23]),
        failures: (0, 0),
    };
    for step in [1, 2, 3, 7, 16, 1000] {
        let script = Script { step, ..PLAIN };
        assert!(rt; is_served(&rt, rt.alloc(), &script, &wanted), "{step}");
    }
}

#[test]
fn an_input_that_ends_is_answered_so_far(rt: HostRuntime) {
    let ends = [
        (0, Served::EndOfInput, 0),
        (1, Served::CutInput, 0),
        (15, Served::CutInput, 0),
        (16, Served::EndOfInput, 15),
        (17, Served::CutInput, 15),
        (29, Served::EndOfInput, 23),
    ];
    for (end, served, len) in ends {
        let wanted = Outcome {
            served: Ok(served),
            output: cut_off(REPLIES, len),
            flushed_at: None,
            failures: (0, 0),
        };
        let script = Script {
            input: &INPUT[..end],
            ..PLAIN
        };
        assert!(rt; is_served(&rt, rt.alloc(), &script, &wanted), "{end}");
    }
}

#[test]
fn a_failed_read_ends_the_connection(rt: HostRuntime) {
    for (fails_at, len) in [(1, 0), (16, 0), (17, 15), (29, 21)] {
        let wanted = Outcome {
            served: Err(ServeFault::Read),
            output: cut_off(REPLIES, len),
            flushed_at: None,
            failures: (1, 0),
        };
        let script = Script { fails_at, ..PLAIN };
        assert!(rt; is_served(&rt, rt.alloc(), &script, &wanted), "{fails_at}");
    }
}

#[test]
fn a_full_writer_ends_the_connection(rt: HostRuntime) {
    for room in [0, 7, 15, 22] {
        let wanted = Outcome {
            served: Err(ServeFault::Write),
            output: cut_off(REPLIES, room),
            flushed_at: None,
            failures: (0, 1),
        };
        let script = Script {
            step: 16,
            room,
            ..PLAIN
        };
        assert!(rt; is_served(&rt, rt.alloc(), &script, &wanted), "{room}");
    }
}

// A client that gives no identifier, at the last place and with the greatest number, is assigned the longest one (3.2.2.3.7).
#[test]
fn the_longest_identifier_is_assigned(rt: HostRuntime) {
    let script = Script {
        id: ConnectionId {
            place: 64,
            number: u64::MAX,
        },
        input: b"\x10\x0D\x00\x04MQTT\x05\x02\x00\x3C\x00\x00\x00",
        ..PLAIN
    };
    let wanted = Outcome {
        served: Ok(Served::EndOfInput),
        output: [
            b"\x20\x29\x00\x00\x26\x12\x00\x19rs64-18446744073709551615".as_slice(),
            limits(),
        ],
        flushed_at: None,
        failures: (0, 0),
    };
    assert!(rt; is_served(&rt, rt.alloc(), &script, &wanted));
}

// Appends so many times these bytes.
fn put_repeated(all: &mut Vec<u8>, bytes: &[u8], count: u16) -> Result<(), AllocError> {
    for _ in 0..count {
        all.extend_from_slice(bytes)?;
    }
    Ok(())
}

// CONNECT, and UNSUBSCRIBE of 1,000 filters `a`: CONNACK is 15 bytes, and UNSUBACK of 1,000 codes 1,006, which is longer than what one
// write takes.
#[test]
fn a_long_reply_is_flushed(rt: HostRuntime) -> Result<(), Fail> {
    let mut input = INPUT[..16].to_vec(rt.alloc())?;
    input.extend_from_slice(b"\xA2\xBB\x17\x00\x01\x00")?;
    put_repeated(&mut input, b"\x00\x01a", 1000)?;
    let mut output = Vec::from_slice(rt.alloc(), b"\xB0\xEB\x07\x00\x01\x00")?;
    put_repeated(&mut output, b"\x11", 1000)?;
    let script = Script {
        input: &input,
        step: 10_000,
        takes: 100,
        room: 10_000,
        ..PLAIN
    };
    let wanted = Outcome {
        served: Ok(Served::EndOfInput),
        output: [CONNACK, &output],
        flushed_at: Some(&[15, 1021]),
        failures: (0, 0),
    };
    assert!(rt; is_served(&rt, rt.alloc(), &script, &wanted));
    Ok(())
}
