//! Which clients of a server have something to do.

ghost use Rattle.std.specs.Prelude.{◌≤◌, length, IfSome};

use crate::connection::{FromClient, descriptor, set_read_limit};
use crate::epoll::{Epoll, MAX_TOLD, StopSignal};
use crate::free_clients::FreeClients;
use crate::listener::Listener;
use crate::watched::number_of;
use crate::watched_clients::{LOOK_EVERY, WatchedClients};
use rs_places_pool::Watch;
use std::alloc::Global;
use std::io;
use std::os::fd::AsRawFd;
use std::sync::atomic::{AtomicBool, Ordering};
use std::sync::{Arc, Mutex, Wait};
use std::time::{Clock, Duration};

/// What the system tells of a descriptor.
#[derive(Clone, Copy)]
enum Event {
    /// All threads are to stop.
    Stop,
    /// This client has something to do.
    Client(usize),
    /// Nobody has.
    Nothing,
}

/// Tells by epoll which clients have something to do. Each lane has a set of descriptors of its own. Of some clients no descriptor tells: a
/// thread that waits for any lane looks for those before it waits, and at least once a second.
///
/// Whichever thread comes first to lane 0 is told that a connection can be accepted, and a free client of any lane accepts it. Only when
/// that client is watched, or is free again, is the listener asked for the next one. Once all connections were accepted, a thread that looks
/// finds the clients that are still free, and each of them is told that no more will come.
///
/// A connection of which no byte came for as long as `idle` says, if that is given, has something to do too. That is found out once a second.
/// Its read fails then: no read of a connection that is watched waits, since there is something to read or it was idle for too long.
#[derive(Drop)]
pub struct SocketWatch<H: Clock + Wait + Copy> {
    rt: H,
    listener: Arc<Listener>,
    lanes: Vec<Epoll>,
    clients: WatchedClients,
    free: Mutex<FreeClients>,
    // Whether all connections were accepted, and each client that was free then was told.
    all_told: AtomicBool,
    idle: Option<Duration>,
    stop: StopSignal,
}

/// The number under which the stop is watched. No client has it.
const STOP: u64 = u64::MAX;

/// The number under which the listener is watched. No client has it.
const ARRIVAL: u64 = u64::MAX - 1;

fn millis(time: Duration) -> u64 {
    u64::try_from(time.as_millis()).unwrap_or(u64::MAX)
}

impl<H: Clock + Wait + Copy> SocketWatch<H> {
    /// No client is watched yet. `clients` is how many there are, in so many lanes, of which there has to be one. A connection is idle for too long
    /// after `idle`.
    ///
    /// # Errors
    ///
    /// If memory is refused (`OutOfMemory`), or a descriptor, of which it takes one for each lane and one more.
    pub fn new(
        rt: H,
        alloc: Global,
        listener: Arc<Listener>,
        lane_count: usize,
        clients: u16,
        idle: Option<Duration>,
    ) -> io::Result<SocketWatch<H>> {
        let stop = StopSignal::new()?;
        let clients = usize::from(clients);
        let mut lanes = Vec::with_capacity(alloc, lane_count)?;
        for _ in 0..lane_count {
            let lane = Epoll::new()?;
            lane.ask_always(stop.as_raw_fd(), STOP)?;
            lanes.push(lane)?;
        }
        Ok(SocketWatch {
            rt,
            listener,
            lanes,
            clients: WatchedClients::new(alloc, clients)?,
            free: Mutex::new(FreeClients::new(alloc, clients)?),
            all_told: AtomicBool::new(false),
            idle,
            stop,
        })
    }

    /// The moment in milliseconds, if idle connections end. `None` also if the clock cannot be read.
    fn moment(&self) -> Option<u64> {
        if self.idle.is_none() {
            return None;
        }
        Some(millis(self.rt.monotonic().ok()?))
    }

    /// Asks the listener for the next connection, if it is time to. If that fails, it is time to still.
    fn ask_listener(&self, free: &mut FreeClients) {
        if !free.should_ask() {
            return;
        }
        if let Some(lane) = self.lanes.first() {
            if lane.ask_once(self.listener.as_raw_fd(), ARRIVAL).is_ok() {
                free.ask();
            }
        }
    }

    /// A client that accepted has its connection, and the next may accept.
    fn end_accept(&self, client: usize) {
        let mut guard = self.free.lock(&self.rt);
        let free = &mut *guard;
        free.end_accept(client);
        self.ask_listener(free);
    }

    /// Asks the listener once more, if that failed before.
    fn ask_again(&self) {
        let mut guard = self.free.lock(&self.rt);
        self.ask_listener(&mut guard);
    }

    /// The free client that is to accept the connection that waits. `None` if no client is free.
    fn begin_accept(&self) -> Option<usize> {
        let mut guard = self.free.lock(&self.rt);
        guard.tell()
    }

    /// Once all connections were accepted, puts the numbers of free clients at the front of `ready`, as many as fit: how many.
    ///
    /// Each free client is told: [`add_free`](SocketWatch::add_free) takes none after the last connection was counted.
    fn put_free(&self, ready: &mut [usize]) -> usize
        ensures { result ≤ length ready.new }
    {
        if self.all_told.load(Ordering::SeqCst) || !self.listener.is_finished() {
            return 0;
        }
        let mut guard = self.free.lock(&self.rt);
        let free = &mut *guard;
        for index in 0..ready.len() {
            let Some(client) = free.take() else {
                self.all_told.store(true, Ordering::SeqCst);
                return index;
            };
            ready[index] = client;
        }
        ready.len()
    }

    /// A client waits for a connection from now on. False if no more will come.
    fn add_free(&self, client: usize) -> bool {
        let mut guard = self.free.lock(&self.rt);
        let free = &mut *guard;
        free.end_accept(client);
        // Only under the lock is it certain that all free clients were not told yet.
        let is_added = !self.listener.is_finished() && free.add(client);
        self.ask_listener(free);
        is_added
    }

    /// Puts the numbers of clients that were idle for too long at the front of `ready`: how many.
    fn put_overdue(&self, ready: &mut [usize]) -> usize
        ensures { result ≤ length ready.new }
    {
        let Some(idle) = self.idle else {
            return 0;
        };
        let Some(now) = self.moment() else {
            return 0;
        };
        self.clients.put_overdue(now, millis(idle), ready)
    }

    /// From now on reads of this connection wait for so long at most, if there is a limit at all.
    fn limit_reads(&self, input: &FromClient, limit: Duration) {
        if self.idle.is_some() {
            // If it is refused, an idle connection ends only after its read has waited for as long again.
            let _ = set_read_limit(input, Some(limit));
        }
    }

    /// What has happened, by the number under which its descriptor is watched.
    fn event(&self, number: u64) -> Event {
        if number == STOP {
            return Event::Stop;
        }
        let client = if number == ARRIVAL {
            self.begin_accept()
        } else {
            self.clients.end_turn(number)
        };
        match client {
            Some(client) => Event::Client(client),
            None => Event::Nothing,
        }
    }

    /// Puts the clients that numbers tell of at the front of `ready`: how many. `None` if all threads are to stop.
    fn put_told(&self, numbers: &[u64], ready: &mut [usize]) -> Option<usize>
        requires room { length numbers.now ≤ length ready.old }
        ensures count { IfSome result (λ count. count ≤ length ready.new) }
    {
        let mut count = 0;
        for index in 0..numbers.len() {
            match self.event(numbers[index]) {
                Event::Stop => return None,
                Event::Client(client) => {
                    ready[count] = client;
                    count += 1;
                }
                Event::Nothing => {}
            }
        }
        Some(count)
    }

    /// Looks, and if that finds none, waits once, for a second at most: how many clients have something to do, of which the numbers are at
    /// the front of `ready`. `None` if all threads are to stop.
    fn wait_once(&self, lane: &Epoll, ready: &mut [usize]) -> Option<usize>
        ensures { IfSome result (λ count. count ≤ length ready.new) }
    {
        let free = self.put_free(ready);
        if free > 0 {
            return Some(free);
        }
        let overdue = self.put_overdue(ready);
        if overdue > 0 {
            return Some(overdue);
        }
        let told = self.told_within(lane, ready, Duration::from_millis(LOOK_EVERY));
        if told == Some(0) {
            self.ask_again();
        }
        told
    }

    /// Waits for so long at most: how many clients have something to do, of which the numbers are at the front of `ready`. `None` if all
    /// threads are to stop.
    fn told_within(&self, lane: &Epoll, ready: &mut [usize], limit: Duration) -> Option<usize>
        ensures { IfSome result (λ count. count ≤ length ready.new) }
    {
        let mut numbers = [0u64; MAX_TOLD];
        let room = ready.len().min(MAX_TOLD);
        let Ok(count) = lane.wait(&mut numbers[..room], Some(limit)) else {
            // Never: there is room.
            return Some(0);
        };
        self.put_told(&numbers[..count], ready)
    }
}

impl<H: Clock + Wait + Copy> Watch<FromClient> for SocketWatch<H> {
    fn wait<T: Wait>(&self, rt: &T, lane: usize, ready: &mut [usize]) -> Option<usize> {
        let lane = self.lanes.get(lane)?;
        for _ in rt.forever() {
            let count = self.wait_once(lane, ready)?;
            if count > 0 {
                return Some(count);
            }
        }
        unreachable!()
    }

    fn look(&self, lane: usize, ready: &mut [usize]) -> usize {
        let Some(lane) = self.lanes.get(lane) else {
            return 0;
        };
        self.told_within(lane, ready, Duration::ZERO).unwrap_or(0)
    }

    fn watch(&self, lane: usize, client: usize, input: &FromClient) -> bool {
        let (Some(lane), Some(watched)) = (self.lanes.get(lane), self.clients.get(client)) else {
            return false;
        };
        let Ok(number) = u16::try_from(client) else {
            return false;
        };
        if watched.is_first() {
            self.end_accept(client);
            self.limit_reads(input, Duration::from_micros(1));
        }
        let turn = watched.begin(self.moment());
        if lane
            .ask_once(descriptor(input), number_of(number, turn))
            .is_ok()
        {
            return true;
        }
        if !watched.end(turn) {
            // Another thread has ended the turn, and has the client now.
            return true;
        }
        // Its next read waits.
        if let Some(idle) = self.idle {
            self.limit_reads(input, idle);
        }
        watched.forget();
        false
    }

    fn watch_free(&self, client: usize) -> bool {
        if let Some(watched) = self.clients.get(client) {
            watched.forget();
        }
        self.add_free(client)
    }

    fn write_out(&self, input: FromClient) -> (FromClient, bool) {
        let mut input = input;
        let is_written = input.write_out().is_ok();
        (input, is_written)
    }

    fn stop(&self) {
        self.stop.send();
    }
}
