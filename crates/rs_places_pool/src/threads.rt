//! The threads of the lanes: two for each, and more while those of a lane are held up.

ghost use Rattle.std.specs.Prelude.{◌≡◌, ◌-◌, min};

use crate::client::Client;
use crate::pool::Pool;
use crate::watch::Watch;
use std::alloc::{AllocError, Global};
use std::sync::{Arc, Wait};
use std::thread::{Builder, JoinHandle, Parker, Threads};
use std::time::Duration;

/// The stack of a thread, in bytes. A connection needs far less, also at topics and filters of as many levels as there may be. The
/// default is 8 MiB of address space for each thread, of which there are as many as clients if each is held up. What docs/RUNNING.md says
/// that a place and a further thread take follows from this.
const LANE_STACK: usize = 256 * 1024;

/// How often the threads of each lane are looked at, in milliseconds. Help comes after two looks at the latest, as docs/RUNNING.md says.
const LOOK: u64 = 20;

/// How many threads a lane needs more, of which so many of these sleep and the others are held up: until as many sleep as are held up, but no
/// more than `most` in all.
fn more_threads(threads: usize, asleep: usize, most: usize) -> usize
    ensures { result ≡ min ((threads - asleep) - asleep) (most - threads) }
{
    let held_up = threads.saturating_sub(asleep);
    let wanted = held_up.saturating_sub(asleep);
    wanted.min(most.saturating_sub(threads))
}

/// The threads of all lanes.
#[derive(Drop)]
struct LaneThreads<C: Drop, H: Drop, W: Drop> {
    rt: H,
    pool: Arc<Pool<C, H, W>>,
    all: Vec<JoinHandle<()>>,
    // How many each lane has, of those that have a thread.
    lanes: Vec<usize>,
}

impl<
    C: Client<H> + Send + Drop + 'static,
    H: Threads + Wait + Copy + Send + Sync + 'static,
    W: Watch<C::In> + Send + Sync + Drop + 'static,
> LaneThreads<C, H, W> {
    /// A thread for each of so many lanes, up to the first that cannot be started, and then a second one for each of these, if it can be
    /// started. It sleeps until help is needed, and is there also if memory is refused by then.
    fn begin(
        rt: H,
        alloc: Global,
        pool: Arc<Pool<C, H, W>>,
        lanes: usize,
    ) -> Result<LaneThreads<C, H, W>, AllocError> {
        let mut begun = LaneThreads {
            rt,
            pool,
            all: Vec::with_capacity(alloc, lanes)?,
            lanes: Vec::with_capacity(alloc, lanes)?,
        };
        for lane in 0..lanes {
            if !begun.start(lane) {
                break;
            }
            let _ = begun.lanes.push(1);
        }
        for lane in 0..begun.lanes.len() {
            let helpers = begun.help(lane, 1);
            begun.note_started(lane, helpers);
        }
        Ok(begun)
    }

    /// Starts a thread that serves the clients of this lane. False if it cannot be started.
    fn start(&mut self, lane: usize) -> bool {
        if self.all.reserve(1).is_err() {
            return false;
        }
        let Ok(pool) = Arc::try_clone(&self.pool) else {
            return false;
        };
        let work = move || {
            // Moved before it is lent.
            let pool = pool;
            pool.work(lane)
        };
        let Ok(thread) = Builder::new().stack_size(LANE_STACK).spawn(&self.rt, work) else {
            return false;
        };
        let _ = self.all.push(thread);
        true
    }

    /// Starts so many threads more for the lane, if they can be: how many were started.
    fn help(&mut self, lane: usize, more: usize) -> usize {
        for started in 0..more {
            if !self.start(lane) {
                return started;
            }
        }
        more
    }

    /// How many threads the lane has.
    fn threads_of(&self, lane: usize) -> usize {
        self.lanes.get(lane).copied().unwrap_or(0)
    }

    /// The lane has so many threads more.
    fn note_started(&mut self, lane: usize, more: usize) {
        if let Some(threads) = self.lanes.get_mut(lane) {
            *threads = threads.saturating_add(more);
        }
    }

    /// Looks at a lane. If clients were left at the last look and none of them was taken since, or if no client was served since then and no
    /// thread waits for clients, those threads that sleep are woken. If these are fewer than are held up, more are started, until they are as
    /// many, but no more than `most` in all.
    fn look(&mut self, lane: usize, most: usize) {
        let Some(now) = self.pool.look(lane) else {
            return;
        };
        if now.is_left || !(now.has_served || now.is_watched) {
            self.pool.wake(lane);
            let more = more_threads(self.threads_of(lane), now.asleep, most);
            let started = self.help(lane, more);
            self.note_started(lane, started);
        }
    }

    /// Looks at each lane. A lane has at most as many threads as clients to serve: those of its own, and one of another lane that takes a
    /// connection. Those of other lanes that were idle or get no connection hold up nobody for long.
    fn look_at_all(&mut self) {
        let lanes = self.lanes.len();
        let most = self.pool.clients().div_ceil(lanes.max(1)).saturating_add(1);
        for lane in 0..lanes {
            self.look(lane, most);
        }
    }

    /// Waits until all clients of the pool are done, and for the threads.
    fn wait(self) {
        let mut threads = self;
        let rt = threads.rt;
        let parker = Parker::new();
        for _ in rt.forever() {
            if threads.pool.is_done() {
                break;
            }
            parker.park_timeout(&rt, Duration::from_millis(LOOK));
            threads.look_at_all();
        }
        let LaneThreads {
            rt: _,
            pool: _pool,
            all,
            lanes: _,
        } = threads;
        for thread in all {
            thread.join(&rt);
        }
    }
}

/// Serves these clients until all are done, by two threads for each of so many lanes, or more while these are held up. There is one lane at
/// least, and no more than clients. How many lanes had a thread: 0 if there are no clients, or if none could be started; then no client was
/// served.
///
/// # Errors
///
/// Out of memory. No client was served.
pub(crate) fn serve_clients<
    C: Client<H> + Send + Drop + 'static,
    H: Threads + Wait + Copy + Send + Sync + 'static,
    W: Watch<C::In> + Send + Sync + Drop + 'static,
>(rt: H, alloc: Global, clients: Vec<C>, lanes: usize, watch: W) -> Result<usize, AllocError> {
    let lanes = lanes.max(1).min(clients.len());
    let Ok(pool) = Arc::new(alloc, Pool::new(rt, alloc, clients, lanes, watch)?) else {
        return Err(AllocError);
    };
    let threads = LaneThreads::begin(rt, alloc, pool, lanes)?;
    let used = threads.lanes.len();
    if used == 0 && lanes > 0 {
        return Ok(0);
    }
    threads.pool.begin(used);
    threads.wait();
    Ok(used)
}
