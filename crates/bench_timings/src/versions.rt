//! How long a put takes while seats read, and how long a store that begins with messages takes to open.

ghost use Rattle.std.specs.Prelude.{◌≡◌};

use crate::row::{EARLY, Row, expiring, fill, in_order, nanos, timed};
use kit_test::{Change, Failure, Keeper, Naming, check, operation};
use rs_message::{Found, MAX_PLACES, Operation, PlaceCount};
use rs_store::TopicLimit;
use rs_topic::TopicFilter;
use rs_version::{Blank, OpenFault, Seat, StoreName, VersionWriter};
use std::alloc::Global;
use std::marker::Brand;
use std::rt::Clock;
use std::sync::Wait;
use std::sync::atomic::{AtomicBool, AtomicU32, Ordering};
use std::thread;
use std::thread::{Threads, yield_now};
use std::time::{Duration, Instant};

/// What the store has at first, how many seats read, and how long rounds are made, none if that is 0.
#[derive(Clone, Copy)]
struct Load {
    filled: Row,
    readers: u32,
    time: Duration,
}

/// How many rounds were made, and how long the puts of new topics took, those of replacements, and the one that swept.
#[derive(Clone, Copy)]
struct Times {
    rounds: u32,
    new: u64,
    replace: u64,
    sweep: u64,
}

/// What the seats share with the writer.
#[derive(Drop)]
struct Shared {
    filter: TopicFilter,
    // How many threads there are, and how many have come to the start.
    threads: u32,
    started: AtomicU32,
    stop: AtomicBool,
}

impl Shared {
    /// Waits until all threads have come here, so that none is measured while others still start.
    fn start(&self) {
        self.started.fetch_add(1, Ordering::SeqCst);
        for _ in 0..u64::MAX {
            if self.started.load(Ordering::SeqCst) >= self.threads {
                break;
            }
            yield_now();
        }
    }
}

/// One entry, by its serial and the index of its topic in the row that was filled.
fn one(filled: &Row, serial: u64, at: u32, changes: (Change, Change)) -> Row {
    Row {
        serial: serial.wrapping_sub(u64::from(at)),
        from: at,
        to: at.saturating_add(1),
        changes,
        ..*filled
    }
}

/// As long as it is time, puts the topic of number 0, which is new, replaces a topic, and clears the new one. Then it puts it once
/// more, by which all topics hold a message, and another one, for which half of them are swept. If the time is 0 it does nothing.
fn rounds<C: Clock, K: Keeper>(
    clock: &C,
    alloc: Global,
    writer: &mut K,
    load: &Load,
) -> Result<Times, Failure> {
    let Load { filled, time, .. } = load;
    let mut times = Times {
        rounds: 0,
        new: 0,
        replace: 0,
        sweep: 0,
    };
    let start = Instant::now(clock)?;
    let mut serial = u64::from(filled.to);
    for round in 0..u32::MAX {
        if start.elapsed(clock)? >= *time {
            break;
        }
        let other = round % filled.to.max(1);
        let new = one(filled, serial, 0, expiring(0));
        let replace = one(filled, serial.wrapping_add(1), other, expiring(0));
        let clear = one(
            filled,
            serial.wrapping_add(2),
            0,
            (Change::Clear, Change::Clear),
        );
        times.new = times.new.wrapping_add(timed(clock, alloc, writer, &new)?);
        times.replace = times
            .replace
            .wrapping_add(timed(clock, alloc, writer, &replace)?);
        timed(clock, alloc, writer, &clear)?;
        serial = serial.wrapping_add(3);
        times.rounds = round + 1;
    }
    if *time > Duration::ZERO {
        timed(clock, alloc, writer, &one(filled, serial, 0, expiring(0)))?;
        let version = writer.count();
        let last = one(filled, serial.wrapping_add(1), filled.to, expiring(EARLY));
        times.sweep = timed(clock, alloc, writer, &last)?;
        check(writer.count() == version.wrapping_add(2))?;
    }
    Ok(times)
}

/// Answers the filter once, and from the start on until it is told to stop.
fn read<N: StoreName>(seat: Seat<N>, shared: &Shared) {
    let mut seat = seat;
    drop(seat.answer(&shared.filter, 0));
    shared.start();
    for _ in 0..u64::MAX {
        if shared.stop.load(Ordering::SeqCst) {
            break;
        }
        drop(seat.answer(&shared.filter, 0));
    }
}

/// Puts while each seat reads on a thread of its own.
fn beside<H: Clock + Threads + Wait + Sync, N: StoreName + Send + Sync>(
    rt: &H,
    alloc: Global,
    writer: &mut VersionWriter<N, &H>,
    seats: Vec<Seat<N>>,
    load: &Load,
    shared: &Shared,
) -> Result<Times, Failure> {
    thread::scope(thread::scope_env(), rt, |scope| {
        let mut good = true;
        for seat in seats {
            if scope.spawn(move || read(seat, shared)).is_err() {
                // No other waits for a thread that there is not.
                shared.started.fetch_add(1, Ordering::SeqCst);
                good = false;
            }
        }
        shared.start();
        let times = rounds(rt, alloc, writer, load);
        shared.stop.store(true, Ordering::SeqCst);
        check(good)?;
        times
    })
}

/// The same in a store that was just made, once it is filled.
fn timed_puts<H: Clock + Threads + Wait + Sync, N: StoreName + Send + Sync>(
    rt: &H,
    alloc: Global,
    blank: Blank,
    load: &Load,
    shared: &Shared,
) -> Result<Times, Failure>
    requires { (blank.history ≡ N.history) × (blank.limit ≡ N.limit) }
{
    let (mut writer, mut seats) = blank.open::<N, &H>(rt)?;
    fill(alloc, &mut writer, &load.filled)?;
    seats.truncate(load.readers as usize);
    beside(rt, alloc, &mut writer, seats, load, shared)
}

/// How many rounds were made in so many milliseconds, how long the puts of new topics took, those of replacements, and the one that
/// swept, while each seat read one topic all the time.
fn measured<H: Clock + Threads + Wait + Sync>(
    rt: &H,
    alloc: Global,
    limit: TopicLimit,
    load: &Load,
) -> Result<Vec<u64>, Failure> {
    let readers = load.readers.max(1);
    if readers > u32::from(MAX_PLACES) {
        return Err(Failure::Words);
    }
    let Some(places) = PlaceCount::new(readers as u8) else {
        return Err(Failure::Words);
    };
    let shared = Shared {
        filter: TopicFilter::read(alloc, b"000000/door/main/0/state")?,
        threads: load.readers.saturating_add(1),
        started: AtomicU32::new(0),
        stop: AtomicBool::new(false),
    };
    let blank = Blank::new(alloc, limit, places)?;
    let times = timed_puts::<H, Brand>(rt, alloc, blank, load, &shared)?;
    Ok(vec![in alloc;
        u64::from(times.rounds),
        times.new,
        times.replace,
        times.sweep,
    ]?)
}

/// Times puts among all topics but the one of number 0, beside so many seats.
pub fn puts<H: Clock + Threads + Wait + Sync>(
    rt: &H,
    alloc: Global,
    limit: TopicLimit,
    readers: u32,
    millis: u32,
) -> Result<Vec<u64>, Failure> {
    let filled = Row {
        serial: 0,
        from: 1,
        changes: expiring(0),
        ..in_order(Naming::Houses, limit.get())
    };
    let load = Load {
        filled,
        readers,
        time: Duration::from_millis(u64::from(millis)),
    };
    measured(rt, alloc, limit, &load)
}

/// Keeps so many messages in a store of versions, at topics of 64 bytes.
pub fn keep<H: Clock + Threads + Wait + Sync>(
    rt: &H,
    alloc: Global,
    limit: TopicLimit,
) -> Result<Vec<u64>, Failure> {
    let load = Load {
        filled: in_order(Naming::Even, limit.get()),
        readers: 0,
        time: Duration::ZERO,
    };
    measured(rt, alloc, limit, &load)
}

/// So many messages of topics that differ, in the order of their topics.
fn messages(alloc: Global, count: u32) -> Result<Vec<Found>, Failure> {
    let mut given = Vec::with_capacity(alloc, count as usize)?;
    for number in 0..count {
        let set = operation(alloc, Naming::Even, u64::from(number), Change::Set(0, None))?;
        match set {
            Operation::Set(found) => given.push(found)?,
            _ => return Err(Failure::Wrong),
        }
    }
    Ok(given)
}

/// How long the opening takes of a store that begins with these messages. Then each seat has to know them.
fn timed_open<H: Clock + Wait, N: StoreName>(
    rt: &H,
    blank: Blank,
    given: Vec<Found>,
) -> Result<u64, Failure>
    requires { (blank.history ≡ N.history) × (blank.limit ≡ N.limit) }
{
    let count = given.len() as u64;
    let start = Instant::now(rt)?;
    let opened = blank.open_with::<N, &H>(rt, given);
    let took = start.elapsed(rt)?;
    let Ok((_writer, seats)) = opened else {
        return Err(Failure::Wrong);
    };
    for seat in &seats {
        check(seat.version() == count)?;
    }
    Ok(nanos(took))
}

/// A store does not open if these are messages of more topics than it may hold.
fn refused_open<H: Wait, N: StoreName>(
    rt: &H,
    blank: Blank,
    given: Vec<Found>,
) -> Result<(), Failure>
    requires { (blank.history ≡ N.history) × (blank.limit ≡ N.limit) }
{
    match blank.open_with::<N, &H>(rt, given) {
        Err(OpenFault::TooManyTopics) => Ok(()),
        Err(OpenFault::NoMemory) => Err(Failure::NoMemory),
        Ok(_) => Err(Failure::Wrong),
    }
}

/// Opens a store of one place that begins with a message of each topic that it may hold. With one more it does not open.
pub fn opening<H: Clock + Wait>(
    rt: &H,
    alloc: Global,
    limit: TopicLimit,
) -> Result<Vec<u64>, Failure> {
    let places = PlaceCount::new(1).ok_or(Failure::Wrong)?;
    let given = messages(alloc, limit.get())?;
    let blank = Blank::new(alloc, limit, places)?;
    let took = timed_open::<H, Brand>(rt, blank, given)?;
    let many = messages(alloc, limit.get().saturating_add(1))?;
    refused_open::<H, Brand>(rt, Blank::new(alloc, limit, places)?, many)?;
    Ok(vec![in alloc; took]?)
}
