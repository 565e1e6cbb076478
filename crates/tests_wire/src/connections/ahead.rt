//! Changes are announced before they are handled. What a connection replies does not change by it, whatever its gate takes at once.

use super::expecting::{Announced, Expecting};
use super::steps::{WAYS, Way, serve_by};
use kit_test::{CONNACK, CONNECT, MapCatalogue, REFUSING_GATE, Refusing, is_concat};
use rs_message::SubmitFault;
use rs_server::{Clock, ConnectionId, Counted, Moments, ServeFault, Served};
use rs_session::{Gate, LocalGate};
use rs_store::TopicLimit;
use std::alloc::{AllocError, Global};
use std::io;
use std::io::Read;
use std::sync::Wait;
use std::test::Fail;

/// Gives its first bytes by reads of their own.
#[derive(Clone, Copy)]
struct Cut<'a> {
    first: &'a [u8],
    rest: &'a [u8],
}

impl Read for Cut<'_> {
    fn read(&mut self, buf: &mut [u8]) -> io::Result<usize> {
        if self.first.is_empty() {
            return self.rest.read(buf);
        }
        self.first.read(buf)
    }
}

/// These bytes, cut there.
fn cut_at(bytes: &[u8], at: usize) -> Cut<'_> {
    let (first, rest) = bytes.split_at(at.min(bytes.len()));
    Cut { first, rest }
}

/// How many changes the gates of these tests take at once.
const MOSTS: &[usize] = &[0, 1, 2, 3, 5, 64];

/// CONNECT; PUBLISH with RETAIN 1 to `a`, `b` (QoS 1) and again `a`, with an empty payload; PINGREQ; one to `c` of QoS 2 and its PUBREL;
/// one to `b` (QoS 1); one with RETAIN 0; two with RETAIN 1 to `d`, with an interval of 100 seconds, and `e`; SUBSCRIBE to all; one to `d`
/// with an empty payload (QoS 1) and one to `g`; one to a topic with a wildcard, which ends the session; and one more.
const SENT: &[u8] = b"\x10\x0E\x00\x04MQTT\x05\x02\x00\x3C\x00\x00\x01a\
\x31\x05\x00\x01a\x00x\x33\x07\x00\x01b\x00\x63\x00x\x31\x04\x00\x01a\x00\xC0\x00\
\x35\x07\x00\x01c\x00\x64\x00x\x62\x02\x00\x64\x33\x07\x00\x01b\x00\x65\x00y\x30\x05\x00\x01a\x00z\
\x31\x0A\x00\x01d\x05\x02\x00\x00\x00\x64x\x31\x05\x00\x01e\x00x\x82\x07\x00\x01\x00\x00\x01#\x00\
\x33\x06\x00\x01d\x00\x66\x00\x31\x05\x00\x01g\x00x\x31\x05\x00\x01#\x00x\x31\x05\x00\x01h\x00x";

/// What is replied to it behind CONNACK: PUBACK, PINGRESP, PUBREC, PUBCOMP, PUBACK, SUBACK and the messages of `b`, `c`, `d`, of whose
/// interval 98 seconds are left, and `e`, PUBACK, DISCONNECT with 0x90.
const REPLIED: &[u8] = b"\x40\x02\x00\x63\xD0\x00\x50\x02\x00\x64\x70\x02\x00\x64\x40\x02\x00\x65\
\x90\x04\x00\x01\x00\x00\x31\x05\x00\x01b\x00y\x31\x05\x00\x01c\x00x\x31\x0A\x00\x01d\x05\x02\x00\x00\x00\x62x\x31\x05\x00\x01e\x00x\
\x40\x02\x00\x66\xE0\x01\x90";

/// CONNECT; PUBLISH with RETAIN 1 to `d`, with an interval of 3 seconds, and three times to `e`; SUBSCRIBE to all; PINGREQ. It is replied
/// to by CONNACK, and by SUBACK and the message of `e`, and PINGRESP: that of `d` has expired.
const EXPIRING: &[u8] = b"\x10\x0E\x00\x04MQTT\x05\x02\x00\x3C\x00\x00\x01a\
\x31\x0A\x00\x01d\x05\x02\x00\x00\x00\x03x\x31\x05\x00\x01e\x00x\x31\x05\x00\x01e\x00x\x31\x05\x00\x01e\x00y\
\x82\x07\x00\x01\x00\x00\x01#\x00\xC0\x00";

const EXPIRED: &[u8] = b"\x90\x04\x00\x01\x00\x00\x31\x05\x00\x01e\x00y\xD0\x00";

/// What bursts are mixed of: PUBLISH with RETAIN 1 to `a`, to `b` with an empty payload, to `c` of QoS 1 and of QoS 2 with its PUBREL, to
/// `d` with an interval of 9 seconds; one with RETAIN 0; PINGREQ; SUBSCRIBE to all at QoS 0, and UNSUBSCRIBE.
static MIXED: [&[u8]; 16] = [
    b"\x31\x05\x00\x01a\x00x",
    b"\x31\x05\x00\x01a\x00y",
    b"\x31\x05\x00\x01b\x00x",
    b"\x31\x04\x00\x01b\x00",
    b"\x33\x07\x00\x01c\x00\x63\x00x",
    b"\x33\x06\x00\x01c\x00\x64\x00",
    b"\x33\x07\x00\x01b\x00\x65\x00y",
    b"\x31\x0A\x00\x01d\x05\x02\x00\x00\x00\x09x",
    b"\x33\x0C\x00\x01d\x00\x66\x05\x02\x00\x00\x00\x09y",
    b"\x31\x06\x00\x02e/\x00x",
    b"\x31\x05\x00\x01f\x00z",
    b"\x35\x07\x00\x01c\x00\x67\x00x\x62\x02\x00\x67",
    b"\x30\x05\x00\x01a\x00z",
    b"\xC0\x00",
    b"\x82\x07\x00\x01\x00\x00\x01#\x00",
    b"\xA2\x06\x00\x02\x00\x00\x01#",
];

/// A CONNECT and so many packets of these, in an order that repeats late.
fn burst(alloc: Global, count: usize) -> Result<Vec<u8>, AllocError> {
    let mut bytes = CONNECT.to_vec(alloc)?;
    let mut state = 1u32;
    for _ in 0..count {
        state = state.wrapping_mul(1_103_515_245).wrapping_add(12_345);
        bytes.extend_from_slice(MIXED[(state >> 16) as usize % MIXED.len()])?;
    }
    Ok(bytes)
}

/// The time that the clock of these tests tells first. Each one later is one second later.
const FIRST: u64 = 7;

/// What a connection comes to: how it ended, what was written, how many inputs were handled, and for how many the clock was asked.
#[derive(Drop)]
struct Outcome {
    served: Result<Served, ServeFault>,
    written: Vec<u8>,
    handled: u64,
    told: u64,
}

fn is_same(one: &Outcome, other: &Outcome) -> bool {
    one.served == other.served
        && one.written.as_slice() == other.written.as_slice()
        && one.handled == other.handled
        && one.told == other.told
}

/// The moments behind the first one, one for each byte.
fn moments(alloc: Global, sent: &Cut) -> Result<Vec<u64>, AllocError> {
    let mut moments = Vec::new(alloc);
    let mut next = FIRST;
    for _ in 0..sent.first.len().saturating_add(sent.rest.len()) {
        next = next.saturating_add(1);
        moments.push(next)?;
    }
    Ok(moments)
}

/// What a connection over the gate comes to if it is served this way, and the gate.
fn serve_over<H: Wait, G: Gate>(
    rt: &H,
    alloc: Global,
    sent: Cut,
    gate: G,
    way: Way,
) -> Result<(Outcome, G), Fail>
where
    G: Drop,
{
    let mut clock = Moments::new(FIRST, moments(alloc, &sent)?);
    let mut reader = Counted::new(sent);
    let mut writer = Counted::new(Vec::new(alloc));
    let id = ConnectionId {
        place: 1,
        number: 1,
    };
    let (served, gate, handled) = serve_by(
        rt,
        alloc,
        &mut reader,
        &mut writer,
        gate,
        id,
        &mut clock,
        way,
    );
    let outcome = Outcome {
        served,
        written: writer.into_inner(),
        handled,
        told: clock.now().saturating_sub(FIRST),
    };
    Ok((outcome, gate))
}

fn local(alloc: Global) -> Result<LocalGate<MapCatalogue>, Fail> {
    let Some(limit) = TopicLimit::new(100) else {
        return Err(Fail::from("the limit"));
    };
    Ok(LocalGate::new(alloc, limit)?)
}

/// What a connection comes to over a gate that is told nothing.
fn plain<H: Wait>(rt: &H, alloc: Global, sent: Cut) -> Result<Outcome, Fail> {
    let (outcome, _gate) = serve_over(rt, alloc, sent, local(alloc)?, Way::AtOnce)?;
    Ok(outcome)
}

/// What it comes to over one that takes so many changes at once, and the gate.
fn told<H: Wait>(
    rt: &H,
    alloc: Global,
    sent: Cut,
    most: usize,
    runs_ahead: bool,
    way: Way,
) -> Result<(Outcome, Expecting<LocalGate<MapCatalogue>>), Fail> {
    let gate = Expecting::new(alloc, local(alloc)?, most, runs_ahead);
    serve_over(rt, alloc, sent, gate, way)
}

/// Whether it comes to this over such a gate, to which all that was announced came in order.
fn is_met_by<H: Wait>(
    rt: &H,
    alloc: Global,
    sent: Cut,
    most: usize,
    runs_ahead: bool,
    wanted: &Outcome,
    way: Way,
) -> Result<bool, Fail> {
    let (outcome, gate) = told(rt, alloc, sent, most, runs_ahead, way)?;
    Ok(is_same(&outcome, wanted) && gate.is_met && gate.next.is_empty())
}

/// The same in whatever way it is served, and whether the gate runs ahead or not.
fn is_met<H: Wait>(
    rt: &H,
    alloc: Global,
    sent: Cut,
    most: usize,
    wanted: &Outcome,
) -> Result<bool, Fail> {
    for way in WAYS {
        for runs_ahead in [false, true] {
            if !is_met_by(rt, alloc, sent, most, runs_ahead, wanted, *way)? {
                return Ok(false);
            }
        }
    }
    Ok(true)
}

#[test]
fn look_ahead_changes_no_reply(rt: HostRuntime) -> Result<(), Fail> {
    let wanted = plain(&rt, rt.alloc(), cut_at(SENT, 0))?;
    assert!(rt; wanted.served == Ok(Served::ServerClosed(0x90)));
    assert!(rt; is_concat(&wanted.written, &[CONNACK, REPLIED]));
    for at in 0..=SENT.len() {
        for most in MOSTS {
            assert!(rt;
                is_met(&rt, rt.alloc(), cut_at(SENT, at), *most, &wanted)?,
                "{most} at {at}"
            );
        }
    }
    Ok(())
}

// The client breaks off at each byte.
#[test]
fn look_ahead_changes_no_end(rt: HostRuntime) -> Result<(), Fail> {
    for end in 0..=SENT.len() {
        let sent = cut_at(&SENT[..end], 0);
        let wanted = plain(&rt, rt.alloc(), sent)?;
        for most in MOSTS {
            assert!(rt;
                is_met(&rt, rt.alloc(), sent, *most, &wanted)?,
                "{most} to {end}"
            );
        }
    }
    Ok(())
}

#[test]
fn times_stay_in_order(rt: HostRuntime) -> Result<(), Fail> {
    for most in MOSTS {
        for way in WAYS {
            let (outcome, _gate) = told(&rt, rt.alloc(), cut_at(EXPIRING, 0), *most, true, *way)?;
            assert!(rt;
                is_concat(&outcome.written, &[CONNACK, EXPIRED]),
                "{most} {way:?}"
            );
            assert!(rt; outcome.handled == 7 && outcome.told == 7, "{most} {way:?}");
        }
    }
    Ok(())
}

#[test]
fn bursts_are_answered_alike(rt: HostRuntime) -> Result<(), Fail> {
    let bytes = burst(rt.alloc(), 10_000)?;
    for at in [0, 50_001] {
        let sent = cut_at(&bytes, at);
        let wanted = plain(&rt, rt.alloc(), sent)?;
        assert!(rt; wanted.served == Ok(Served::EndOfInput));
        for most in MOSTS {
            assert!(rt;
                is_met_by(&rt, rt.alloc(), sent, *most, false, &wanted, Way::AtOnce)?,
                "{most} at {at}"
            );
        }
        assert!(rt;
            is_met_by(&rt, rt.alloc(), sent, 64, true, &wanted, Way::InSteps)?,
            "{at}"
        );
    }
    Ok(())
}

/// A PUBLISH with RETAIN 1, and a PINGREQ.
const SET: &[u8] = b"\x31\x05\x00\x01a\x00x";

const PING: &[u8] = b"\xC0\x00";

/// A CONNECT, so many times SET, PINGREQ, and again so many times SET.
fn two_runs(alloc: Global, first: usize, second: usize) -> Result<Vec<u8>, AllocError> {
    let mut bytes = CONNECT.to_vec(alloc)?;
    for _ in 0..first {
        bytes.extend_from_slice(SET)?;
    }
    bytes.extend_from_slice(PING)?;
    for _ in 0..second {
        bytes.extend_from_slice(SET)?;
    }
    Ok(bytes)
}

/// How many changes a gate takes at once; how many publications come before a PINGREQ and behind it; how many bytes the first read gives,
/// where 0 stands for all; and what is announced.
type Announcing = (usize, usize, usize, usize, &'static [Announced]);

/// One change alone is not announced.
const ANNOUNCED: &[Announcing] = &[
    (0, 9, 9, 0, &[]),
    (1, 9, 9, 0, &[]),
    (2, 4, 3, 0, &[(0, 2), (2, 2), (4, 2)]),
    (3, 4, 0, 0, &[(0, 2), (2, 2)]),
    (5, 9, 0, 0, &[(0, 2), (2, 3), (5, 2), (7, 2)]),
    (64, 1, 1, 0, &[]),
    (64, 31, 0, 0, &[(0, 31)]),
    (64, 33, 2, 0, &[(0, 32), (33, 2)]),
    (64, 100, 0, 0, &[(0, 32), (32, 32), (64, 32), (96, 4)]),
    (64, 40, 40, 0, &[(0, 32), (32, 8), (40, 32), (72, 8)]),
    (
        64,
        100,
        0,
        16 + 70,
        &[(0, 10), (10, 32), (42, 32), (74, 26)],
    ),
];

/// In steps one alone is, if it is the first that was read. CONNECT has 16 bytes, and each publication 7.
const ANNOUNCED_IN_STEPS: &[Announcing] = &[
    (0, 9, 9, 16, &[]),
    (1, 2, 1, 16, &[(0, 1)]),
    (2, 1, 1, 16, &[(0, 1)]),
    (64, 1, 0, 16, &[(0, 1)]),
    (64, 1, 1, 0, &[]),
    (64, 1, 1, 16, &[(0, 1)]),
    (64, 0, 1, 16 + 2, &[(0, 1)]),
    (64, 2, 0, 16 + 7, &[(1, 1)]),
    (64, 3, 2, 16, &[(0, 3), (3, 2)]),
    (64, 40, 0, 16, &[(0, 32), (32, 8)]),
];

/// A gate that runs ahead is told of the next batch before the first is submitted, and of another once no more than one is pending.
const ANNOUNCED_AHEAD: &[Announcing] = &[
    (0, 9, 9, 0, &[]),
    (1, 9, 9, 0, &[]),
    (2, 4, 3, 0, &[(0, 2), (1, 1), (2, 1), (4, 2), (5, 1)]),
    (3, 4, 0, 0, &[(0, 2), (0, 1), (1, 1)]),
    (5, 9, 0, 0, &[(0, 2), (0, 2), (2, 2), (4, 2), (6, 1)]),
    (64, 1, 1, 0, &[]),
    (64, 31, 0, 0, &[(0, 31)]),
    (64, 33, 2, 0, &[(0, 32), (0, 1), (33, 2)]),
    (64, 100, 0, 0, &[(0, 32), (0, 32), (32, 32), (64, 4)]),
    (64, 40, 40, 0, &[(0, 32), (0, 8), (40, 32), (40, 8)]),
    (
        64,
        100,
        0,
        16 + 70,
        &[(0, 10), (10, 32), (10, 32), (42, 26)],
    ),
];

fn announces<H: Wait>(
    rt: &H,
    alloc: Global,
    announcing: &Announcing,
    runs_ahead: bool,
    way: Way,
) -> Result<bool, Fail> {
    let (most, first, second, at, wanted) = announcing;
    let bytes = two_runs(alloc, *first, *second)?;
    let (_, gate) = told(rt, alloc, cut_at(&bytes, *at), *most, runs_ahead, way)?;
    Ok(gate.is_met && gate.announced.as_slice() == *wanted)
}

#[test]
fn half_is_announced_and_then_the_next_half(rt: HostRuntime) -> Result<(), Fail> {
    for announcing in ANNOUNCED {
        let (most, first, second, at, _) = announcing;
        assert!(rt;
            announces(&rt, rt.alloc(), announcing, false, Way::AtOnce)?,
            "{most} {first} {second} {at}"
        );
    }
    Ok(())
}

#[test]
fn a_batch_is_announced_behind_another(rt: HostRuntime) -> Result<(), Fail> {
    for announcing in ANNOUNCED_AHEAD {
        let (most, first, second, at, _) = announcing;
        assert!(rt;
            announces(&rt, rt.alloc(), announcing, true, Way::AtOnce)?,
            "{most} {first} {second} {at}"
        );
    }
    Ok(())
}

#[test]
fn one_change_is_announced_when_it_is_read(rt: HostRuntime) -> Result<(), Fail> {
    for announcing in ANNOUNCED_IN_STEPS {
        let (most, first, second, at, _) = announcing;
        assert!(rt;
            announces(&rt, rt.alloc(), announcing, false, Way::InSteps)?,
            "{most} {first} {second} {at}"
        );
    }
    Ok(())
}

/// How many changes a gate takes at once, for how many inputs the clock is asked if the first change ends the session, and how many
/// changes are still expected then, also if it runs ahead.
const LEFT: &[(usize, u64, [usize; 2])] = &[
    (0, 2, [0, 0]),
    (1, 2, [0, 0]),
    (2, 3, [1, 1]),
    (5, 6, [1, 3]),
    (64, 65, [31, 63]),
];

/// Whether no more is decoded over such a gate than this row says, and as much is expected, whether it runs ahead or not.
fn decodes<H: Wait>(
    rt: &H,
    alloc: Global,
    sent: Cut,
    row: &(usize, u64, [usize; 2]),
    way: Way,
) -> Result<bool, Fail> {
    let (most, decoded, left) = *row;
    for (runs_ahead, left) in [(false, left[0]), (true, left[1])] {
        let refusing = Refusing {
            fault: SubmitFault::Closed,
            ..REFUSING_GATE
        };
        let gate = Expecting::new(alloc, refusing, most, runs_ahead);
        let (outcome, gate) = serve_over(rt, alloc, sent, gate, way)?;
        let is_ended = outcome.served == Ok(Served::ServerClosed(0x83)) && outcome.handled == 2;
        if !is_ended || outcome.told != decoded || gate.next.len() != left {
            return Ok(false);
        }
    }
    Ok(true)
}

#[test]
fn no_more_is_decoded_than_a_gate_takes(rt: HostRuntime) -> Result<(), Fail> {
    let bytes = two_runs(rt.alloc(), 100, 0)?;
    let sent = cut_at(&bytes, CONNECT.len());
    for row in LEFT {
        for way in WAYS {
            assert!(rt;
                decodes(&rt, rt.alloc(), sent, row, *way)?,
                "{row:?} {way:?}"
            );
        }
    }
    Ok(())
}
