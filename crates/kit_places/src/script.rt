//! Turns that play connections from memory.

ghost use Rattle.rs_server.specs.Counts.{failures_of, inner_of};
ghost use Rattle.rs_places_steps.specs.Ended.{ending_of};
ghost use Rattle.rs_places_steps.specs.Turns.{TakesBack, none_given};

use kit_test::{Behavior, CONNACK, FaultyStream, ServeResult, is_concat};
use rs_places_steps::{Connection, EndedConnection, FreeTurn, Turn};
use rs_server::{Clock, ServeFault, Served};
use rs_version::{StoreName, Told};
use std::alloc::{AllocError, Global};
use std::collections::VecDeque;
use std::io;
use std::io::{Read, Write};
use std::sync::Arc;
use std::sync::atomic::{AtomicU64, Ordering};
use std::thread::yield_now;

/// How often a turn looks whether another one came so far.
const LOOKS: u32 = 10_000_000;

/// A DISCONNECT that says that the store takes no more changes.
pub const CLOSED: &[u8] = b"\xE0\x01\x83";

/// How a connection goes.
#[derive(Clone, Copy)]
pub struct Course {
    /// The place that serves it, from 1 on.
    pub place: u8,
    /// It begins once so many have ended.
    pub after: u64,
    /// Its second packet is handled once so many came to theirs.
    pub together: u64,
    /// The times of its packets. The last one stands for all that follow.
    pub moments: &'static [u64],
    pub behavior: Behavior,
    /// From its write of this number on, from 1, its client reads nothing until so many connections have ended. Never, if it is 0.
    pub stalls: (u64, u64),
    /// How it has to end.
    pub ends: ServeResult,
}

/// A connection: how it goes, at which moments, what its client sends, and what it has to be sent.
#[derive(Drop)]
struct ScriptConnection {
    course: Course,
    moments: Vec<u64>,
    input: Vec<u8>,
    output: Vec<u8>,
}

/// What the turns of a test count together.
#[derive(Drop)]
pub struct Counts {
    /// Connections that ended.
    pub ended: AtomicU64,
    /// Connections that went as they had to.
    pub right: AtomicU64,
    /// Connections that were told that the store takes no more changes.
    pub closed: AtomicU64,
    /// Connections that came to their second packet.
    pub reached: AtomicU64,
}

impl Counts {
    pub fn new() -> Counts {
        Counts {
            ended: AtomicU64::new(0),
            right: AtomicU64::new(0),
            closed: AtomicU64::new(0),
            reached: AtomicU64::new(0),
        }
    }
}

/// Gives up the processor until the count is there. Whether it came.
pub fn comes(count: &AtomicU64, least: u64) -> bool {
    for _ in 0..LOOKS {
        if count.load(Ordering::SeqCst) >= least {
            return true;
        }
        yield_now();
    }
    false
}

/// What a client sends.
pub type Input = FaultyStream<VecDeque<u8>>;

/// What is written to it.
#[derive(Drop)]
pub struct Output {
    counts: Arc<Counts>,
    stream: FaultyStream<Vec<u8>>,
    stalls: (u64, u64),
    writes: u64,
    wanted: Vec<u8>,
    ends: ServeResult,
}

impl Write for Output {
    fn write(&mut self, buf: &[u8]) -> io::Result<usize> {
        self.writes = self.writes.saturating_add(1);
        let (first, ended) = self.stalls;
        if self.writes == first && !comes(&self.counts.ended, ended) {
            self.stalls = (0, u64::MAX);
        }
        self.stream.write(buf)
    }

    fn flush(&mut self) -> io::Result<()> {
        self.stream.flush()
    }
}

impl Output {
    fn is_right(&self, end: ServeResult) -> bool {
        let (_first, ended) = self.stalls;
        end == self.ends
            && ended != u64::MAX
            && self.stream.inner.as_slice() == self.wanted.as_slice()
    }

    fn is_closed(&self, end: ServeResult) -> bool {
        end == Ok(Served::ServerClosed(0x83)) && is_concat(&self.stream.inner, &[CONNACK, CLOSED])
    }
}

/// The clock of a connection.
#[derive(Drop)]
pub struct ScriptClock {
    counts: Arc<Counts>,
    together: u64,
    moments: Vec<u64>,
    /// How many packets have come.
    packets: usize,
    /// Whether it waited for others in vain.
    is_alone: bool,
}

impl Clock for ScriptClock {
    fn now(&mut self) -> u64 {
        let last = self.moments.len().saturating_sub(1);
        let at = self.packets.min(last);
        self.packets = self.packets.saturating_add(1);
        if self.packets == 2 {
            self.counts.reached.fetch_add(1, Ordering::SeqCst);
            self.is_alone = !comes(&self.counts.reached, self.together);
        }
        match self.moments.get(at) {
            Some(moment) => *moment,
            None => 0,
        }
    }
}

/// Plays these connections, one after the other.
#[derive(Drop)]
pub struct Script {
    alloc: Global,
    counts: Arc<Counts>,
    place: u16,
    /// How many it has given.
    given: u64,
    /// How many entries there were when its last connection had ended.
    version: u64,
    waiting: VecDeque<ScriptConnection>,
}

/// Whether a connection may have ended so if its reader and its writer failed so often: at a fault, the one that it names did, and no other.
fn is_cause(served: ServeResult, reads: u64, writes: u64) -> bool {
    match served {
        Err(ServeFault::Read) => reads > 0 && writes == 0,
        Err(ServeFault::Write) => reads == 0 && writes > 0,
        _ => reads == 0 && writes == 0,
    }
}

impl Script {
    /// For the client of this place.
    pub fn new(alloc: Global, counts: Arc<Counts>, place: u16) -> Script {
        Script {
            alloc,
            counts,
            place,
            given: 0,
            version: 0,
            waiting: VecDeque::new(alloc),
        }
    }

    /// Appends a connection to those that wait.
    pub fn put(
        &mut self,
        course: Course,
        input: Vec<u8>,
        output: Vec<u8>,
    ) -> Result<(), AllocError> {
        let moments = course.moments.to_vec(self.alloc)?;
        self.put_at(course, moments, input, output)
    }

    /// The same at these moments, and not at those of the course.
    pub fn put_at(
        &mut self,
        course: Course,
        moments: Vec<u64>,
        input: Vec<u8>,
        output: Vec<u8>,
    ) -> Result<(), AllocError> {
        let connection = ScriptConnection {
            course,
            moments,
            input,
            output,
        };
        match self.waiting.push_back(connection) {
            Ok(()) => Ok(()),
            Err(_) => Err(AllocError),
        }
    }
}

impl Turn for Script {
    type In = Input;

    type Out = Output;

    type Time = ScriptClock;

    fn next(&mut self) -> Option<Connection<Input, Output, ScriptClock>> {
        let counts = Arc::try_clone(&self.counts).ok()?;
        let own_counts = Arc::try_clone(&self.counts).ok()?;
        let connection = self.waiting.pop_front()?;
        let ScriptConnection {
            course,
            moments,
            input,
            output,
        } = connection;
        if !comes(&self.counts.ended, course.after) {
            return None;
        }
        self.given = self.given.saturating_add(1);
        Some(Connection {
            input: FaultyStream {
                inner: VecDeque::from_vec(input),
                behavior: course.behavior,
            },
            output: Output {
                counts: own_counts,
                stalls: course.stalls,
                writes: 0,
                stream: FaultyStream {
                    inner: Vec::new(self.alloc),
                    behavior: course.behavior,
                },
                wanted: output,
                ends: course.ends,
            },
            clock: ScriptClock {
                counts,
                together: course.together,
                moments,
                packets: 0,
                is_alone: false,
            },
        })
    }

    fn end<N: StoreName>(
        &mut self,
        ended: EndedConnection<Input, Output, ScriptClock>,
        told: &Told<N>,
    )
        ensures { TakesBack none_given
            (ending_of (⟦<Input as Read>⟧.remaining (inner_of ended.connection.input)) (⟦<Output as Write>⟧.contents (inner_of ended.connection.output))
            (⟦<ScriptClock as Clock>⟧.moments ended.connection.clock) (failures_of ended.connection.input) (failures_of ended.connection.output) ended.served)
            none_given }
    {
        let EndedConnection {
            connection,
            served,
            tally: _,
            place,
            number,
        } = ended;
        let (reads, writes) = (connection.input.failures(), connection.output.failures());
        let is_own = place == self.place && number == self.given && is_cause(served, reads, writes);
        let is_older = told.version() < self.version;
        self.version = told.version();
        let output = connection.output.into_inner();
        if is_own && !is_older && output.is_right(served) && !connection.clock.is_alone {
            self.counts.right.fetch_add(1, Ordering::SeqCst);
        }
        if output.is_closed(served) {
            self.counts.closed.fetch_add(1, Ordering::SeqCst);
        }
        self.counts.ended.fetch_add(1, Ordering::SeqCst);
    }
}

/// The same turns, of which no connection is out.
///
/// # Errors
///
/// [`AllocError`] if memory is refused.
pub fn free_scripts(
    alloc: Global,
    turns: Vec<Script>,
) -> Result<Vec<FreeTurn<Script>>, AllocError> {
    let mut free = Vec::with_capacity(alloc, turns.len())?;
    for turn in turns {
        free.push(FreeTurn::new(turn))?;
    }
    Ok(free)
}
