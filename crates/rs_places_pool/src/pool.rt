//! What the threads share, and how they serve the clients.
//!
//! Each client lies in a slot while no thread serves it. One thread of its lane waits until clients of the lane have something to do, and
//! reads them, by which their changes are sent to the writer. It serves those at once that have no changes. As this may last, another
//! thread goes on meanwhile. Those that have changes are served by one thread, one after the other, which sleeps once until the writer has
//! replied to all. If a thread is held up, by a client that does not read or by the writer, another one goes on with those that were read.

ghost use Rattle.std.specs.Prelude.{◌≡◌, false, IfNone};

use crate::client::Client;
use crate::lane::{Lane, Progress};
use crate::watch::Watch;
use std::alloc::{AllocError, Global};
use std::sync::atomic::{AtomicUsize, Ordering};
use std::sync::{Mutex, Wait};

/// How many clients are told of at once.
const MOST_TOLD: usize = 64;

/// After so many clients of those that have changes, others are read that have something to do by then.
const FEW: usize = 4;

/// What the threads share.
#[derive(Drop)]
pub(crate) struct Pool<C, H, W> {
    rt: H,
    alloc: Global,
    slots: Vec<Mutex<Option<C>>>,
    lanes: Vec<Lane>,
    // How many of the lanes have threads.
    used: AtomicUsize,
    // How many clients are not done.
    left: AtomicUsize,
    watch: W,
}

/// So many lanes, each for so many clients at most.
fn make_lanes(alloc: Global, lanes: usize, clients: usize) -> Result<Vec<Lane>, AllocError> {
    let mut all = Vec::with_capacity(alloc, lanes)?;
    for _ in 0..lanes {
        all.push(Lane::new(alloc, clients)?)?;
    }
    Ok(all)
}

impl<C: Client<H> + Drop, H: Wait + Copy, W: Watch<C::In> + Drop> Pool<C, H, W> {
    /// A pool of these clients, which has so many lanes.
    pub(crate) fn new(
        rt: H,
        alloc: Global,
        clients: Vec<C>,
        lanes: usize,
        watch: W,
    ) -> Result<Pool<C, H, W>, AllocError> {
        let count = clients.len();
        let lanes = make_lanes(alloc, lanes, count)?;
        let mut slots = Vec::with_capacity(alloc, count)?;
        for client in clients {
            slots.push(Mutex::new(Some(client)))?;
        }
        Ok(Pool {
            rt,
            alloc,
            slots,
            lanes,
            used: AtomicUsize::new(0),
            left: AtomicUsize::new(count),
            watch,
        })
    }

    /// Whether all clients are done.
    pub(crate) fn is_done(&self) -> bool {
        self.left.load(Ordering::SeqCst) == 0
    }

    /// How many clients there are.
    pub(crate) fn clients(&self) -> usize {
        self.slots.len()
    }

    /// Has each client watched, or serves it if it has something to do at once. The first so many lanes have threads.
    pub(crate) fn begin(&self, used: usize) {
        self.used.store(used, Ordering::SeqCst);
        for number in 0..self.slots.len() {
            let Some(client) = self.take(number) else {
                continue;
            };
            if let Some(client) = self.rest(number, client) {
                self.serve(number, client);
            }
        }
    }

    /// The lane of the client of this number, among those that have threads.
    fn lane_of(&self, number: usize) -> usize {
        number
            .checked_rem(self.used.load(Ordering::SeqCst))
            .unwrap_or(0)
    }

    /// How far the threads of a lane came since the last look. This look is the last one then.
    pub(crate) fn look(&self, lane: usize) -> Option<Progress> {
        Some(self.lanes.get(lane)?.look(&self.rt))
    }

    /// Wakes the threads of a lane that sleep. Who serves the clients that have changes may be held up, so another thread may serve them.
    pub(crate) fn wake(&self, lane: usize) {
        if let Some(lane) = self.lanes.get(lane) {
            lane.wake(&self.rt);
        }
    }

    /// Takes the client out of its slot, if it is there.
    fn take(&self, number: usize) -> Option<C> {
        let slot = self.slots.get(number)?;
        let mut guard = slot.lock(&self.rt);
        guard.take()
    }

    /// Puts the client into its slot.
    fn put(&self, number: usize, client: C) {
        if let Some(slot) = self.slots.get(number) {
            let mut guard = slot.lock(&self.rt);
            *guard = Some(client);
        }
    }

    /// Has the client watched, which lies in its slot then. If it has something to do at once, it is given back: so what was read is handled
    /// before.
    fn rest(&self, number: usize, client: C) -> Option<C>
        ensures { IfNone result (C.is_read client ≡ false) }
    {
        let (client, is_written) = client.write_out(&self.watch);
        let Some(slot) = self.slots.get(number) else {
            return Some(client);
        };
        if !is_written {
            return Some(client);
        }
        let mut guard = slot.lock(&self.rt);
        // Another thread may be told of it before it lies there: that one waits for the lock.
        if !client.begin_watch(&self.watch, self.lane_of(number), number) {
            return Some(client);
        }
        *guard = Some(client);
        None
    }

    /// A client is done.
    fn count_done(&self) {
        if self.left.fetch_sub(1, Ordering::SeqCst) == 1 {
            self.watch.stop();
            for lane in 0..self.lanes.len() {
                self.wake(lane);
            }
        }
    }

    /// Serves the client until it has nothing to do.
    fn serve(&self, number: usize, client: C) {
        let mut client = client;
        for _ in self.rt.forever() {
            let Some(next) = client.step(&self.rt, self.alloc) else {
                self.count_done();
                return;
            };
            match self.rest(number, next) {
                Some(same) => client = same,
                None => return,
            }
        }
    }

    /// Reads the client of this number, which is then to be served. Whether it has changes; `None` if it is not in its slot.
    fn read(&self, number: usize) -> Option<bool> {
        let client = self.take(number)?.read(self.alloc);
        let has_changes = client.has_changes();
        self.put(number, client);
        Some(has_changes)
    }

    /// Serves the client of this number, which was read.
    fn serve_read(&self, lane: &Lane, number: usize) {
        if let Some(client) = self.take(number) {
            self.serve(number, client);
        }
        lane.note_served();
    }

    /// Serves the clients that were read and have no changes.
    fn serve_alone(&self, lane: &Lane) {
        for _ in self.rt.forever() {
            let Some(number) = lane.next_alone(&self.rt) else {
                return;
            };
            self.serve_read(lane, number);
        }
    }

    /// Serves the clients that were read and have changes. After a few, if no thread waits for clients, those are read that have something to
    /// do by then. It ends when there are no more, or if some were read that have no changes.
    fn serve_together(&self, lane: &Lane, index: usize) {
        for _ in self.rt.forever() {
            for _ in 0..FEW {
                let Some(number) = lane.next_together(&self.rt) else {
                    return;
                };
                self.serve_read(lane, number);
            }
            if !lane.is_watched() && self.read_now(lane, index) {
                lane.leave(&self.rt);
                return;
            }
        }
    }

    /// Reads the clients of which a thread of the lane was told. If some have no changes, which is the answer, it wakes a thread that goes on
    /// meanwhile.
    fn read_told(&self, lane: &Lane) -> bool {
        let mut is_any_alone = false;
        for _ in self.rt.forever() {
            // One by one, so that the others are left to another thread if this one is held up.
            let Some(number) = lane.next_told(&self.rt) else {
                break;
            };
            match self.read(number) {
                Some(true) => lane.add_changed(&self.rt, number),
                Some(false) => {
                    lane.add_alone(&self.rt, number);
                    is_any_alone = true;
                }
                None => {}
            }
        }
        if is_any_alone {
            lane.wake_one(&self.rt);
        }
        is_any_alone
    }

    /// Reads the clients of the lane that have something to do by now. Whether some have no changes.
    fn read_now(&self, lane: &Lane, index: usize) -> bool {
        let mut numbers = [0usize; MOST_TOLD];
        let count = self.watch.look(index, &mut numbers);
        lane.add_told(&self.rt, &numbers[..count]);
        self.read_told(lane)
    }

    /// Waits until clients of the lane have something to do, which are to be read then. False if all clients are done.
    fn watch(&self, lane: &Lane, index: usize) -> bool {
        let mut numbers = [0usize; MOST_TOLD];
        let told = self.watch.wait(&self.rt, index, &mut numbers);
        lane.ends_to_watch();
        let Some(count) = told else {
            return false;
        };
        lane.add_told(&self.rt, &numbers[..count]);
        true
    }

    /// Serves the clients of the lane of this index until all are done.
    pub(crate) fn work(&self, index: usize) {
        let Some(lane) = self.lanes.get(index) else {
            return;
        };
        for _ in self.rt.forever() {
            self.read_told(lane);
            self.serve_alone(lane);
            if lane.begins_to_serve(&self.rt) {
                self.serve_together(lane, index);
                continue;
            }
            if !lane.begins_to_watch() {
                lane.sleep(&self.rt, &self.left);
                if self.is_done() {
                    return;
                }
            } else if !self.watch(lane, index) {
                return;
            }
        }
    }
}
