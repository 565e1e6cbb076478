//! When a read polls its stream before it blocks, and what it gives then.

use crate::sockets::watched::{Gives, Reads, Watched};
use rs_tcp_sockets::{Pollers, Polling, ReadPatience};
use std::alloc::Global;
use std::io::{ErrorKind, Read};
use std::sync::Arc;
use std::sync::atomic::{AtomicU32, Ordering};

/// What happens to a connection: so many reads in a row, whether they gained something by polling, and how many bytes they gave. Then
/// whether the next one polls if the client was answered.
type Row = (&'static [(u32, bool, usize)], bool);

const ROWS: &[Row] = &[
    // One of 128, at first and if polling gains nothing.
    (&[], false),
    (&[(125, false, 60)], false),
    (&[(126, false, 60)], true),
    (&[(127, false, 60)], false),
    (&[(254, false, 60)], true),
    // All while polling gains something, but for two reads in a row that did not.
    (&[(1, true, 60)], true),
    (&[(1, true, 60), (1, false, 60)], true),
    (&[(1, true, 60), (2, false, 60)], false),
    (&[(1, true, 60), (128, false, 60)], true),
    (
        &[(1, true, 60), (1, false, 60), (1, true, 60), (1, false, 60)],
        true,
    ),
    // A stream.
    (&[(1, true, 1_024)], true),
    (&[(1, true, 1_025)], false),
    (&[(9, true, 8_192)], false),
    (&[(1, true, 8_192), (1, true, 60)], true),
];

#[test]
fn few_reads_poll_in_vain(rt: HostRuntime) {
    for row in ROWS {
        let (reads, polls) = *row;
        let mut patience = ReadPatience::new();
        for some in reads {
            let (count, has_gained, size) = *some;
            for _ in 0..count {
                patience.learn(has_gained, size);
            }
        }
        assert!(rt; patience.should_poll(true) == polls);
        assert!(rt; !patience.should_poll(false));
    }
}

const NEVER: u32 = u32::MAX;

/// A client that sends one byte while the read polls.
const SOON: Reads = Reads {
    count: 1,
    answered: true,
    ready_at: 7,
    gives: Gives::Bytes(1),
    polls: 8,
};

const LATE: Reads = Reads {
    ready_at: NEVER,
    polls: 100,
    ..SOON
};

/// The first reads of a connection.
const FIRST: Reads = Reads {
    count: 126,
    polls: 0,
    ..LATE
};

/// Whether the next reads give what they should after as many polls as they should.
fn goes(stream: &mut Polling<Watched>, polls: &AtomicU32, reads: Reads) -> bool {
    let mut room = [0u8; 8_192];
    for _ in 0..reads.count {
        polls.store(0, Ordering::SeqCst);
        let is_given = match stream.read(&mut room) {
            Ok(given) => reads.gives.is_size(given),
            Err(error) => reads.gives.is_reset() && error.kind() == ErrorKind::ConnectionReset,
        };
        if !is_given || polls.load(Ordering::SeqCst) != reads.polls {
            return false;
        }
    }
    true
}

/// Whether all reads go, if so many may poll at the same time. None if memory is refused.
fn all_go(alloc: Global, pollers: u32, reads: &'static [Reads]) -> Option<bool> {
    let polls = Arc::new(alloc, AtomicU32::new(0)).ok()?;
    let pollers = Arc::new(alloc, Pollers::new(pollers)).ok()?;
    let watched = Watched {
        reads,
        over: 0,
        polls: Arc::try_clone(&polls).ok()?,
    };
    let mut stream = Polling::new(watched, pollers);
    for next in reads {
        if !goes(&mut stream, &polls, *next) {
            return Some(false);
        }
    }
    Some(true)
}

/// How many may poll at the same time, and the reads.
const SCRIPTS: &[(u32, &[Reads])] = &[
    // Each may poll if the one before it has ended that.
    (1, &[FIRST, Reads { count: 300, ..SOON }]),
    (
        0,
        &[
            FIRST,
            Reads {
                count: 3,
                polls: 0,
                ..SOON
            },
        ],
    ),
    // What comes after it has polled.
    (
        1,
        &[
            FIRST,
            SOON,
            Reads { count: 2, ..LATE },
            Reads {
                count: 126,
                polls: 0,
                ..LATE
            },
            LATE,
            Reads {
                count: 3,
                polls: 0,
                ..LATE
            },
        ],
    ),
    // The end, and an error.
    (
        1,
        &[
            FIRST,
            Reads {
                gives: Gives::End,
                ..SOON
            },
        ],
    ),
    (
        1,
        &[
            FIRST,
            Reads {
                gives: Gives::Reset,
                ..SOON
            },
        ],
    ),
    (
        1,
        &[
            FIRST,
            Reads {
                gives: Gives::Reset,
                ..LATE
            },
        ],
    ),
    // What is there at once.
    (
        1,
        &[
            FIRST,
            SOON,
            Reads {
                count: 2,
                ready_at: 0,
                polls: 1,
                ..SOON
            },
            Reads {
                count: 9,
                polls: 0,
                ..SOON
            },
        ],
    ),
    // A client that waits for nothing, and one that sends a stream.
    (
        1,
        &[
            FIRST,
            SOON,
            Reads {
                count: 1,
                answered: false,
                polls: 0,
                ..SOON
            },
            SOON,
            Reads {
                gives: Gives::Bytes(8_192),
                ..SOON
            },
            Reads {
                count: 3,
                gives: Gives::Bytes(2_000),
                polls: 0,
                ..SOON
            },
        ],
    ),
];

#[test]
fn a_read_polls_while_it_pays(rt: HostRuntime) {
    let alloc = rt.alloc();
    for script in SCRIPTS {
        let (pollers, reads) = *script;
        assert!(rt; all_go(alloc, pollers, reads) == Some(true));
    }
}
