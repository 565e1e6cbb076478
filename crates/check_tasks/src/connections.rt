//! What a client's turn is told of its connections after memory was refused to what serves them.

ghost use Rattle.rs_server.specs.Counts.{failures_of, inner_of};
ghost use Rattle.rs_places_steps.specs.Ended.{ending_of};
ghost use Rattle.rs_places_steps.specs.Turns.{TakesBack, none_given};

use crate::groups::blanks;
use kit_places::{PUBACK, PUBLISH};
use kit_test::{CONNACK, CONNECT, DISCONNECT, Failure, check, concat, is_concat};
use rs_places::run_store;
use rs_places_pool::{NoWatch, Runner};
use rs_places_steps::{Connection, EndedConnection, FreeTurn, Turn};
use rs_server::{Clock, Moments, ServeFault, Served, Tally};
use rs_version::{StoreName, Told};
use std::alloc::{AllocError, Global};
use std::collections::VecDeque;
use std::io::{Read, Write};
use std::sync::Wait;
use std::thread::Threads;

/// How many allocations fail at most, one after the other.
const FAILING: u64 = 2;

/// How many connections the client has.
const CONNECTIONS: u64 = 3;

/// The PUBACK if memory is refused for the publication.
const REFUSED: &[u8] = b"\x40\x03\x01\x01\x97";

/// A DISCONNECT of the server that has no memory.
const NO_MEMORY: &[u8] = b"\xE0\x01\x97";

/// What a connection is counted as.
#[derive(Clone, Copy)]
enum Kind {
    /// The publication is stored, and the client has left.
    Whole,
    /// The publication was refused.
    Refused,
    /// It was broken off at a packet or a reply.
    Broken,
}

/// A way in which a connection may end.
struct Row {
    served: Result<Served, ServeFault>,
    /// How many packets were handled, or a fault in place of one.
    packets: u64,
    /// For how many changes memory was refused, and of how many it is not known whether they were made.
    no_memory: u64,
    unknown: u64,
    /// What was written.
    written: &'static [&'static [u8]],
    /// How many entries the publication is at least, and at most.
    least: u64,
    most: u64,
    kind: Kind,
}

/// `NoMemory` before the CONNECT is decoded: to assign an identifier, to read, or to plan.
const BROKEN: Row = Row {
    served: Err(ServeFault::NoMemory),
    packets: 0,
    no_memory: 0,
    unknown: 0,
    written: &[],
    least: 0,
    most: 0,
    kind: Kind::Broken,
};

/// Each way in which a connection may end, by the rows of the session (docs/SESSION.md).
const ROWS: &[Row] = &[
    // `Stored`, and then `Disconnected`.
    Row {
        served: Ok(Served::ClientClosed),
        packets: 3,
        written: &[CONNACK, PUBACK],
        least: 1,
        most: 1,
        kind: Kind::Whole,
        ..BROKEN
    },
    // `Not_stored`, since memory is refused for the message, and then `Disconnected`.
    Row {
        served: Ok(Served::ClientClosed),
        packets: 3,
        written: &[CONNACK, REFUSED],
        kind: Kind::Refused,
        ..BROKEN
    },
    // `Not_stored`, since the submit fails with 41, and then `Disconnected`.
    Row {
        served: Ok(Served::ClientClosed),
        packets: 3,
        no_memory: 1,
        written: &[CONNACK, REFUSED],
        kind: Kind::Refused,
        ..BROKEN
    },
    // `Uncertain`, since the submit fails with 42: its entry is held.
    Row {
        served: Ok(Served::ServerClosed(0x97)),
        packets: 2,
        unknown: 1,
        written: &[CONNACK, NO_MEMORY],
        most: 1,
        kind: Kind::Refused,
        ..BROKEN
    },
    // `Unexpected`: fault 14 in place of the CONNECT. Nothing is replied.
    Row {
        served: Ok(Served::Dropped),
        packets: 1,
        ..BROKEN
    },
    // `Faulty`: fault 14 in place of the PUBLISH.
    Row {
        served: Ok(Served::ServerClosed(0x97)),
        packets: 2,
        written: &[CONNACK, NO_MEMORY],
        ..BROKEN
    },
    // `Stored`, and then `Faulty`: fault 14 in place of the DISCONNECT.
    Row {
        served: Ok(Served::ServerClosed(0x97)),
        packets: 3,
        written: &[CONNACK, PUBACK, NO_MEMORY],
        least: 1,
        most: 1,
        ..BROKEN
    },
    BROKEN,
    // `NoMemory` at the CONNACK of `Accepted`.
    Row {
        packets: 1,
        ..BROKEN
    },
    // `NoMemory` at the reply of `Stored`, or of `Faulty` in place of the PUBLISH.
    Row {
        packets: 2,
        written: &[CONNACK],
        most: 1,
        ..BROKEN
    },
    // `NoMemory` at the reply of `Not_stored`.
    Row {
        packets: 2,
        no_memory: 1,
        written: &[CONNACK],
        ..BROKEN
    },
];

impl Row {
    /// Whether a connection ended so.
    fn fits(&self, served: Result<Served, ServeFault>, tally: Tally, output: &[u8]) -> bool {
        let Tally { packets, refusals } = tally;
        self.served == served
            && self.packets == packets
            && self.no_memory == refusals.no_memory
            && self.unknown == refusals.unknown
            && is_concat(output, self.written)
    }
}

/// The row of a connection that ended so. None if it may not end so.
fn row_of(served: Result<Served, ServeFault>, tally: Tally, output: &[u8]) -> Option<&'static Row> {
    for row in ROWS {
        if row.fits(served, tally, output) {
            return Some(row);
        }
    }
    None
}

/// A connection in memory.
type Played = Connection<VecDeque<u8>, Vec<u8>, Moments>;

/// Gives connections that each publish a message, and looks at how each ended. If memory is refused for one itself, it gives no more.
#[derive(Drop)]
struct Publisher {
    alloc: Global,
    given: u64,
    ended: u64,
    /// How many were broken off, and in how many the publication was refused.
    broken: u64,
    refused: u64,
    /// How many entries they made at least, and at most.
    least: u64,
    most: u64,
    /// How many entries its last connection knew.
    version: u64,
    is_wrong: bool,
}

impl Publisher {
    /// Its next connection.
    fn connection(&self) -> Result<Played, AllocError> {
        let sent = concat(self.alloc, &[CONNECT, PUBLISH, DISCONNECT])?;
        Ok(Connection {
            input: VecDeque::from_vec(sent),
            // With space for all replies, so that no write fails.
            output: Vec::with_capacity(self.alloc, 64)?,
            clock: Moments::new(0, Vec::new(self.alloc)),
        })
    }

    /// Takes note of how a connection ended. Returns whether that may be.
    fn note(&mut self, served: Result<Served, ServeFault>, tally: Tally, output: &[u8]) -> bool {
        let Some(row) = row_of(served, tally, output) else {
            return false;
        };
        match row.kind {
            Kind::Whole => {}
            Kind::Refused => self.refused = self.refused.saturating_add(1),
            Kind::Broken => self.broken = self.broken.saturating_add(1),
        }
        self.least = self.least.saturating_add(row.least);
        self.most = self.most.saturating_add(row.most);
        true
    }
}

impl Turn for Publisher {
    type In = VecDeque<u8>;

    type Out = Vec<u8>;

    type Time = Moments;

    fn next(&mut self) -> Option<Played> {
        if self.given == CONNECTIONS {
            return None;
        }
        let connection = self.connection().ok()?;
        self.given = self.given.saturating_add(1);
        Some(connection)
    }

    fn end<N: StoreName>(
        &mut self,
        ended: EndedConnection<VecDeque<u8>, Vec<u8>, Moments>,
        told: &Told<N>,
    )
        ensures { TakesBack none_given
            (ending_of (⟦<VecDeque<u8> as Read>⟧.remaining (inner_of ended.connection.input)) (⟦<Vec<u8> as Write>⟧.contents (inner_of ended.connection.output))
            (⟦<Moments as Clock>⟧.moments ended.connection.clock) (failures_of ended.connection.input) (failures_of ended.connection.output) ended.served)
            none_given }
    {
        let EndedConnection {
            connection,
            served,
            tally,
            place,
            number,
        } = ended;
        let none_failed = connection.input.failures() == 0 && connection.output.failures() == 0;
        let output = connection.output.into_inner();
        let is_known = self.note(served, tally, &output);
        self.ended = self.ended.saturating_add(1);
        let is_last = place == 1 && number == self.given && number == self.ended;
        // However it ended, its gate knows what the client was told is stored, and forgot nothing.
        let is_older = told.version() < self.version.max(self.least);
        self.version = told.version();
        self.is_wrong = self.is_wrong || is_older || !(is_known && is_last && none_failed);
    }
}

/// Serves the connections. Returns how many were broken off because memory was refused, and in how many the publication was refused for
/// that.
pub fn work<H: Wait + Threads + Copy + Send + Sync + 'static>(
    rt: &H,
    alloc: Global,
) -> Result<Vec<u64>, Failure> {
    let mut numbers = Vec::with_capacity(alloc, 2)?;
    let (blank, queue) = blanks(alloc, 1)?;
    let turn = Publisher {
        alloc,
        given: 0,
        ended: 0,
        broken: 0,
        refused: 0,
        least: 0,
        most: 0,
        version: 0,
        is_wrong: false,
    };
    let mut turns = Vec::new(alloc);
    turns.push(FreeTurn::new(turn))?;
    let runner = Runner::<NoWatch>::OneEach;
    let Ok(end) = run_store(*rt, alloc, blank, Vec::new(alloc), queue, turns, runner) else {
        return Err(Failure::NoMemory);
    };
    check(end.changes.is_some())?;
    for turn in end.turns {
        check(!turn.is_wrong && turn.given == turn.ended)?;
        check(turn.least <= end.version && end.version <= turn.most)?;
        check(turn.broken.saturating_add(turn.refused) <= FAILING)?;
        if turn.given < CONNECTIONS {
            return Err(Failure::NoMemory);
        }
        numbers.push(turn.broken)?;
        numbers.push(turn.refused)?;
    }
    Ok(numbers)
}
