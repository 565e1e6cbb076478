//! Which bytes are written out, and when, and what is read and discarded at the end: connections over streams in memory, each by a
//! `Script`. A reply is two bytes, its number, and is flushed.

use crate::sockets::peer::{Manner, Notes, Peer, Ticking};
use rs_tcp_sockets::{MAX_DISCARDED, MAX_GATHERED, ReadHalf, WriteHalf, abandon, close, split};
use std::alloc::Global;
use std::io;
use std::io::{ErrorKind, Read, Write};
use std::sync::Arc;
use std::sync::atomic::{AtomicU64, Ordering};
use std::test::Fail;

type Input = ReadHalf<Peer, Peer>;

type Output = WriteHalf<Peer>;

/// What is done with the halves of a connection, and what has to come of it.
#[derive(Clone, Copy)]
enum Step {
    /// So many replies are written.
    Replies(u16),
    /// There were so many writes.
    Writes(u64),
    /// A read gives three bytes, each the number of writes before it.
    Reads(u8),
    /// A read fails, since what waits cannot be written.
    Fails,
    /// A read fails by itself.
    Breaks,
    /// What waits is written out.
    Out,
    /// That fails.
    OutFails,
}

use Step::{Breaks, Fails, Out, OutFails, Reads, Replies, Writes};

#[derive(Clone, Copy)]
struct Script {
    steps: &'static [Step],
    manner: Manner,
    /// By how many milliseconds the clock goes on at the end, each time it is asked.
    tick: u64,
    /// Whether the connection is closed. If not, it is abandoned.
    closes: bool,
}

/// What came of a connection.
#[derive(Clone, Copy, PartialEq, Eq)]
struct Outcome {
    /// Whether each step went as it says.
    went: bool,
    /// Whether the connection was closed without an error.
    closed: bool,
    writes: u64,
    /// How many replies came to the peer, each once and in order, before a shutdown.
    replies: u64,
    shutdowns: u64,
    discarded: u64,
}

/// Writes replies, from the number of the next one on.
fn reply(output: &mut Output, count: u16) -> io::Result<()> {
    for _ in 0..count {
        let number = (output.count() / 2 % 65_536) as u16;
        output.write_all(&number.to_be_bytes())?;
        output.flush()?;
    }
    Ok(())
}

fn are_written(output: &mut Output, count: u16) -> bool {
    let before = output.count();
    let is_written = reply(output, count).is_ok();
    is_written && output.count() == before.saturating_add(2 * u64::from(count))
}

/// What a read gave, how many bytes it counted, and whether it failed since what waits cannot be written.
fn read(input: &mut Input) -> (Result<[u8; 4], ErrorKind>, u64, bool) {
    let before = input.count();
    let mut room = [0u8; 4];
    let result = match input.read(&mut room[..3]) {
        Ok(size) => {
            room[3] = size as u8;
            Ok(room)
        }
        Err(error) => Err(error.kind()),
    };
    (
        result,
        input.count().saturating_sub(before),
        input.is_unwritten(),
    )
}

fn goes(input: &mut Input, output: &mut Output, notes: &Notes, step: Step) -> bool {
    match step {
        Replies(count) => are_written(output, count),
        Writes(count) => notes.writes.load(Ordering::SeqCst) == count,
        Reads(writes) => read(input) == (Ok([writes, writes, writes, 3]), 3, false),
        Fails => read(input) == (Err(ErrorKind::BrokenPipe), 0, true),
        Breaks => read(input) == (Err(ErrorKind::WouldBlock), 0, false),
        Out => input.write_out().is_ok(),
        OutFails => match input.write_out() {
            Ok(()) => false,
            Err(error) => error.kind() == ErrorKind::BrokenPipe,
        },
    }
}

fn all_go(input: &mut Input, output: &mut Output, notes: &Notes, steps: &[Step]) -> bool {
    for step in steps {
        if !goes(input, output, notes, *step) {
            return false;
        }
    }
    true
}

fn peer(manner: Manner, notes: &Arc<Notes>) -> Option<Peer> {
    let notes = Arc::try_clone(notes).ok()?;
    Some(Peer { manner, notes })
}

fn halves(alloc: Global, manner: Manner, notes: &Arc<Notes>) -> Option<(Input, Output)> {
    let reader = peer(manner, notes)?;
    let writer = peer(manner, notes)?;
    split(alloc, reader, writer).ok()
}

/// Ends a connection. Whether it was closed without an error.
fn end(input: Input, output: Output, script: &Script) -> bool {
    if !script.closes {
        abandon(input, output);
        return false;
    }
    let clock = Ticking {
        step: script.tick,
        now: AtomicU64::new(1_000_000),
    };
    close(&clock, input, output).is_ok()
}

fn outcome_of(notes: &Notes, went: bool, closed: bool) -> Outcome {
    let is_right = notes.wrong.load(Ordering::SeqCst) == 0;
    Outcome {
        went: went && is_right,
        closed,
        writes: notes.writes.load(Ordering::SeqCst),
        replies: notes.written.load(Ordering::SeqCst) / 2,
        shutdowns: notes.shutdowns.load(Ordering::SeqCst),
        discarded: notes.discarded.load(Ordering::SeqCst),
    }
}

/// None if memory is refused.
fn run(alloc: Global, script: &Script) -> Option<Outcome> {
    let notes = Arc::new(alloc, Notes::new()).ok()?;
    let (mut input, mut output) = halves(alloc, script.manner, &notes)?;
    let went = all_go(&mut input, &mut output, &notes, script.steps);
    let closed = end(input, output, script);
    Some(outcome_of(&notes, went, closed))
}

/// Whether a connection comes to this.
fn comes_to(alloc: Global, script: &Script, wanted: Outcome) -> bool {
    match run(alloc, script) {
        Some(outcome) => outcome == wanted,
        None => false,
    }
}

/// No call fails, and none gives or takes less than it may.
const SMOOTH: Manner = Manner {
    reads: 0,
    sends: 3,
    breaks: true,
    takes: usize::MAX,
    fails_at: 0,
};

const PLAIN: Script = Script {
    steps: &[Replies(3)],
    manner: SMOOTH,
    tick: 0,
    closes: true,
};

/// Three replies were written at the end, and so much was discarded.
const CLOSED: Outcome = Outcome {
    went: true,
    closed: true,
    writes: 1,
    replies: 3,
    shutdowns: 1,
    discarded: 0,
};

/// Nothing reached the peer.
const FAILED: Outcome = Outcome {
    went: true,
    closed: false,
    writes: 0,
    replies: 0,
    shutdowns: 0,
    discarded: 0,
};

/// What is done; how many reads give bytes, how many bytes a write takes, and which write fails; how many writes there are in all,
/// and how many replies.
type Row = (&'static [Step], u64, usize, u64, u64, u64);

const ROWS: &[Row] = &[
    // What there is room for is kept, and the next reply finds none.
    (
        &[
            Replies(1_000),
            Writes(0),
            Reads(1),
            Replies(32_767),
            Writes(1),
            Replies(3),
            Writes(2),
        ],
        1,
        usize::MAX,
        0,
        3,
        33_770,
    ),
    // What waits goes out before each read, and nothing if none does.
    (
        &[
            Replies(5),
            Reads(1),
            Reads(1),
            Replies(5),
            Reads(2),
            Replies(5),
            Breaks,
            Writes(3),
            Replies(5),
        ],
        3,
        usize::MAX,
        0,
        4,
        20,
    ),
    // A failed write ends the read. The bytes still wait, and go out before the next one.
    (
        &[Replies(3), Fails, Replies(1), Reads(2)],
        1,
        usize::MAX,
        1,
        2,
        4,
    ),
    (&[Replies(12), Fails, Writes(5), Reads(9)], 1, 3, 5, 9, 12),
    // What is written out when it is asked to be is not written again.
    (
        &[
            Replies(3),
            Out,
            Writes(1),
            Reads(1),
            Out,
            Replies(2),
            Out,
            Out,
        ],
        1,
        usize::MAX,
        0,
        2,
        5,
    ),
    (&[Replies(12), Out, Writes(8), Reads(8)], 1, 3, 0, 8, 12),
    // If that fails, the next read fails and does not write.
    (
        &[Replies(12), OutFails, Writes(5), Fails, Writes(5), Reads(9)],
        1,
        3,
        5,
        9,
        12,
    ),
    (
        &[
            Replies(3),
            OutFails,
            Replies(1),
            Out,
            Writes(2),
            Fails,
            Writes(2),
            Reads(2),
        ],
        1,
        usize::MAX,
        1,
        2,
        4,
    ),
];

#[test]
fn replies_go_out_together(rt: HostRuntime) {
    assert!(rt; MAX_GATHERED == 65_536);
    for row in ROWS {
        let (steps, reads, takes, fails_at, writes, replies) = *row;
        let manner = Manner {
            reads,
            takes,
            fails_at,
            ..SMOOTH
        };
        let script = Script {
            steps,
            manner,
            ..PLAIN
        };
        let wanted = Outcome {
            writes,
            replies,
            discarded: 3 * reads,
            ..CLOSED
        };
        assert!(rt; comes_to(rt.alloc(), &script, wanted), "{replies} replies");
    }
}

/// A write that fails at the end is not tried again. A connection that is abandoned is not written to.
#[test]
fn an_end_does_not_write_again(rt: HostRuntime) {
    for (closes, fails_at, writes) in [(true, 1, 1), (false, 1, 0), (false, 0, 0)] {
        let manner = Manner { fails_at, ..SMOOTH };
        let script = Script {
            manner,
            closes,
            ..PLAIN
        };
        let wanted = Outcome { writes, ..FAILED };
        assert!(rt;
            comes_to(rt.alloc(), &script, wanted),
            "{closes} {fails_at}"
        );
    }
}

/// By how many milliseconds the clock goes on, how many bytes a read gives, how many reads do, whether the next one fails, and how many
/// bytes are discarded.
const ENDS: &[(u64, usize, u64, bool, u64)] = &[
    // Its end, or a read that waits too long.
    (0, 700, 3, false, 2_100),
    (0, 1, 5_000, true, 5_000),
    // As many bytes as there may be.
    (0, usize::MAX, u64::MAX, false, 1_048_576),
    (0, 1_000, u64::MAX, false, 1_048_576),
    // As long as there may be: two reads begin before a second is over.
    (400, 10, u64::MAX, false, 20),
    (1_000, 10, u64::MAX, false, 0),
];

#[test]
fn only_so_much_is_discarded(rt: HostRuntime) {
    assert!(rt; MAX_DISCARDED == 1_048_576);
    for row in ENDS {
        let (tick, sends, reads, breaks, discarded) = *row;
        let manner = Manner {
            reads,
            sends,
            breaks,
            ..SMOOTH
        };
        let script = Script {
            manner,
            tick,
            ..PLAIN
        };
        let wanted = Outcome {
            discarded,
            ..CLOSED
        };
        assert!(rt;
            comes_to(rt.alloc(), &script, wanted),
            "{tick} {sends} {reads}"
        );
    }
}
