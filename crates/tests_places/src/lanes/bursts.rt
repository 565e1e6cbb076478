//! Bursts: what a client sends in one piece is answered as if each packet came alone, whoever serves it.

use kit_places::{
    Counts, Course, Manner, PLAIN, Played, Script, as_wanted, ending, lanes, later, run_scripts,
};
use kit_test::{Behavior, CONNACK, CONNECT, Call, ServeResult};
use rs_places_pool::{NoWatch, Runner};
use rs_server::{ServeFault, Served};
use std::alloc::{AllocError, Global};
use std::sync::{Arc, Wait};
use std::test::Fail;
use std::thread::Threads;

/// What a client sends, and what it has to be answered.
#[derive(Drop)]
struct Talk {
    sent: Vec<u8>,
    replies: Vec<u8>,
}

impl Talk {
    /// A CONNECT and its CONNACK.
    fn new(alloc: Global) -> Result<Talk, AllocError> {
        let mut talk = Talk {
            sent: Vec::new(alloc),
            replies: Vec::new(alloc),
        };
        talk.put(CONNECT, CONNACK)?;
        Ok(talk)
    }

    fn put(&mut self, sent: &[u8], replies: &[u8]) -> Result<(), AllocError> {
        self.sent.extend_from_slice(sent)?;
        self.replies.extend_from_slice(replies)
    }

    /// The retained publications of these numbers, of QoS 0 and 1 in turn, to `a`, `b` and `c` in turn.
    fn publish(&mut self, round: u8, first: u8, end: u8) -> Result<(), AllocError> {
        for k in first..end {
            let topic = b'a' + k % 3;
            if k % 2 == 0 {
                self.put(&[0x31, 6, 0, 1, topic, 0, round, k], b"")?;
            } else {
                let sent = &[0x33, 8, 0, 1, topic, 1, k, 0, round, k];
                self.put(sent, &[0x40, 2, 1, k])?;
            }
        }
        Ok(())
    }

    /// PINGREQ; SUBSCRIBE and UNSUBSCRIBE of `a`, once 58 and 61 were published; two PUBLISH with RETAIN 0, of QoS 0 and of QoS 1.
    fn put_plain(&mut self, round: u8) -> Result<(), AllocError> {
        self.publish(round, 0, 57)?;
        self.put(b"\xC0\x00", b"\xD0\x00")?;
        self.publish(round, 57, 58)?;
        self.put(
            b"\x82\x07\x00\x02\x00\x00\x01a\x00",
            b"\x90\x04\x00\x02\x00\x00",
        )?;
        self.put(b"", &[0x31, 6, 0, 1, b'a', 0, round, 57])?;
        self.publish(round, 58, 61)?;
        self.put(
            b"\xA2\x06\x00\x02\x00\x00\x01a",
            b"\xB0\x04\x00\x02\x00\x00",
        )?;
        self.put(b"\x30\x05\x00\x01n\x00x", b"")?;
        self.publish(round, 61, 63)?;
        self.put(b"\x32\x07\x00\x01n\x02\x02\x00x", b"\x40\x02\x02\x02")?;
        self.publish(round, 63, 97)
    }

    /// A PUBLISH of QoS 1 that expires, and two with an empty payload; one of QoS 2 and its PUBREL; SUBSCRIBE of the two topics, and what
    /// the client answers to the replays of QoS 1 and 2.
    fn put_special(&mut self, round: u8) -> Result<(), AllocError> {
        let expires = &[0x33, 12, 0, 1, b'e', 2, 3, 5, 2, 0, 0, 0, 60, round];
        self.put(expires, b"\x40\x02\x02\x03")?;
        self.put(b"\x31\x04\x00\x01c\x00", b"")?;
        self.put(b"\x33\x06\x00\x01z\x02\x04\x00", b"\x40\x02\x02\x04")?;
        self.put(b"\x35\x07\x00\x01q\x02\x05\x00x", b"\x50\x02\x02\x05")?;
        self.put(b"\x62\x02\x02\x05", b"\x70\x02\x02\x05")?;
        self.put(
            b"\x82\x07\x00\x02\x00\x00\x01e\x01",
            b"\x90\x04\x00\x02\x00\x01",
        )?;
        self.put(
            b"\x40\x02\x00\x01",
            &[0x33, 12, 0, 1, b'e', 0, 1, 5, 2, 0, 0, 0, 60, round],
        )?;
        self.put(
            b"\x82\x07\x00\x02\x00\x00\x01q\x02",
            b"\x90\x04\x00\x02\x00\x02\x35\x07\x00\x01q\x00\x01\x00x",
        )?;
        self.put(b"\x50\x02\x00\x01\x70\x02\x00\x01", b"\x62\x02\x00\x01")
    }
}

/// How a client goes whose reads give at most so many bytes, and of which the write of this number fails, if one does.
fn course(step: usize, at: usize, ends: ServeResult) -> Course {
    let mut course = ending(PLAIN, ends);
    course.behavior = Behavior {
        step,
        call: Call::Write,
        at,
    };
    course
}

/// 10,000 retained publications of QoS 0 and 1, with every other packet between, and at the end one with a topic alias, which ends the
/// session, and one more.
fn many(alloc: Global) -> Result<Talk, AllocError> {
    let mut talk = Talk::new(alloc)?;
    for round in 0..100u8 {
        talk.put_plain(round)?;
        talk.put_special(round)?;
    }
    talk.put(b"\x31\x08\x00\x01a\x03\x23\x00\x01x", b"\xE0\x01\x94")?;
    talk.put(b"\x31\x05\x00\x01h\x00x", b"")?;
    Ok(talk)
}

/// 6,000 retained publications of QoS 0, whose jobs grow, since nobody waits for a reply, and what they leave.
fn plain(alloc: Global) -> Result<Talk, AllocError> {
    let mut talk = Talk::new(alloc)?;
    for round in 0..60u8 {
        for k in 0..100u8 {
            talk.put(&[0x31, 6, 0, 1, b'a' + k % 3, 0, round, k], b"")?;
        }
    }
    talk.put(
        b"\x82\x07\x00\x02\x00\x00\x01#\x00",
        b"\x90\x04\x00\x02\x00\x00",
    )?;
    for k in [99u8, 97, 98] {
        talk.put(b"", &[0x31, 6, 0, 1, b'a' + k % 3, 0, 59, k])?;
    }
    Ok(talk)
}

/// Runs a store of one seat for these clients: each has a thread, or one lane serves all.
fn run_by<R: Threads + Wait + Copy + Send + Sync + 'static>(
    rt: R,
    alloc: Global,
    topics: u32,
    turns: Vec<Script>,
    counts: &Counts,
    is_lane: bool,
) -> Result<Played, Fail> {
    if is_lane {
        let lane = lanes(rt, alloc, 1, Manner::InOrder)?;
        return run_scripts(rt, alloc, (topics, 1), turns, counts, lane);
    }
    let each = Runner::<NoWatch>::OneEach;
    run_scripts(rt, alloc, (topics, 1), turns, counts, each)
}

/// In one piece, in pieces that hold no packet whole, and in pieces that end inside packets.
#[test]
fn a_burst_is_answered_as_single_packets_are(rt: HostRuntime) -> Result<(), Fail> {
    let alloc = rt.alloc();
    for (step, is_lane) in [
        (usize::MAX, false),
        (1, false),
        (100, false),
        (usize::MAX, true),
    ] {
        let counts = Arc::new(alloc, Counts::new())?;
        let mut script = Script::new(alloc, Arc::try_clone(&counts)?, 1);
        let Talk { sent, replies } = many(alloc)?;
        script.put(
            course(step, 0, Ok(Served::ServerClosed(0x94))),
            sent,
            replies,
        )?;
        let turns = vec![in alloc; script]?;
        let ran = run_by(rt, alloc, 10, turns, &counts, is_lane)?;
        assert!(rt; ran == as_wanted(1, 1, 10_100, 10_100), "{step}");
    }
    Ok(())
}

#[test]
fn a_burst_for_which_nobody_waits_is_stored(rt: HostRuntime) -> Result<(), Fail> {
    let alloc = rt.alloc();
    for is_lane in [false, true] {
        let counts = Arc::new(alloc, Counts::new())?;
        let mut script = Script::new(alloc, Arc::try_clone(&counts)?, 1);
        let Talk { sent, replies } = plain(alloc)?;
        let course = course(usize::MAX, 0, Ok(Served::EndOfInput));
        script.put(course, sent, replies)?;
        let turns = vec![in alloc; script]?;
        let ran = run_by(rt, alloc, 10, turns, &counts, is_lane)?;
        assert!(rt; ran == as_wanted(1, 1, 6_000, 6_000), "{is_lane}");
    }
    Ok(())
}

/// The topic of this number. Their order is that of the numbers.
fn topic(n: u8) -> [u8; 2] {
    [b'a' + n / 16, b'a' + n % 16]
}

/// 150 retained publications of QoS 1, each to a topic of its own, and their PUBACKs.
fn publishes(alloc: Global) -> Result<Talk, AllocError> {
    let mut talk = Talk::new(alloc)?;
    for n in 0..150u8 {
        let [first, second] = topic(n);
        let sent = &[0x33, 8, 0, 2, first, second, 1, n, 0, b'x'];
        talk.put(sent, &[0x40, 2, 1, n])?;
    }
    Ok(talk)
}

/// A SUBSCRIBE of all topics, if so many of them have a message.
fn reads(alloc: Global, count: u8) -> Result<Talk, AllocError> {
    let mut talk = Talk::new(alloc)?;
    talk.put(
        b"\x82\x07\x00\x01\x00\x00\x01#\x00",
        b"\x90\x04\x00\x01\x00\x00",
    )?;
    for n in 0..count {
        let [first, second] = topic(n);
        talk.put(b"", &[0x31, 6, 0, 2, first, second, 0, b'x'])?;
    }
    Ok(talk)
}

/// Once a connection has ended, one that reads all topics, if so many have a message.
fn put_reader(alloc: Global, script: &mut Script, count: u8) -> Result<(), AllocError> {
    let Talk { sent, replies } = reads(alloc, count)?;
    let course = ending(later(1, 1), Ok(Served::EndOfInput));
    script.put(course, sent, replies)
}

/// How many bytes of the burst do not come; which write fails, if one does; how the connection ends; how many publications are
/// acknowledged; and how many are kept.
type Break = (usize, usize, ServeResult, usize, u8);

const WRITE: ServeResult = Err(ServeFault::Write);

/// Publications go to the writer by 32, or as many as are read: the first read ends behind the hundredth. Of those that went together all
/// are kept, though the client hears of some only.
const BREAKS: &[Break] = &[
    (5, 0, Ok(Served::CutInput), 149, 149),
    (0, 65, WRITE, 63, 64),
    (0, 66, WRITE, 64, 96),
    (0, 101, WRITE, 99, 100),
    (0, 141, WRITE, 139, 150),
];

/// The connection breaks off in the middle of a burst. What was acknowledged is there for the next one of this client, and for another.
fn is_kept<R: Threads + Wait + Copy + Send + Sync + 'static>(
    rt: R,
    alloc: Global,
    (missing, at, ends, acknowledged, kept): Break,
    is_lane: bool,
) -> Result<bool, Fail> {
    let counts = Arc::new(alloc, Counts::new())?;
    let mut first = Script::new(alloc, Arc::try_clone(&counts)?, 1);
    let mut second = Script::new(alloc, Arc::try_clone(&counts)?, 2);
    let Talk {
        mut sent,
        mut replies,
    } = publishes(alloc)?;
    sent.truncate(sent.len().saturating_sub(missing));
    replies.truncate(15 + 4 * acknowledged.min(150));
    first.put(course(usize::MAX, at, ends), sent, replies)?;
    put_reader(alloc, &mut first, kept)?;
    put_reader(alloc, &mut second, kept)?;
    let turns = vec![in alloc; first, second]?;
    let ran = run_by(rt, alloc, 200, turns, &counts, is_lane)?;
    let threads = if is_lane { 1 } else { 2 };
    let kept = u64::from(kept);
    Ok(ran == as_wanted(threads, 3, kept, kept))
}

#[test]
fn what_was_acknowledged_of_a_broken_burst_is_kept(rt: HostRuntime) -> Result<(), Fail> {
    let alloc = rt.alloc();
    for broken in BREAKS {
        let (_missing, at, _ends, _acknowledged, _kept) = *broken;
        for is_lane in [false, true] {
            let kept = is_kept(rt, alloc, *broken, is_lane)?;
            assert!(rt; kept, "{at} {is_lane}");
        }
    }
    Ok(())
}
