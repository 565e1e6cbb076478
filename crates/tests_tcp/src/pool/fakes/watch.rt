//! A watch that tells of each client which is watched, and otherwise as it likes.

ghost use Rattle.std.specs.Prelude.{◌≡◌, ◌≤◌, length, IfSome};

use super::scene::Scene;
use rs_places_pool::Watch;
use std::alloc::{AllocError, Global};
use std::collections::VecDeque;
use std::io::Read;
use std::sync::atomic::{AtomicUsize, Ordering};
use std::sync::{Arc, Condvar, Mutex, Wait};
use std::thread::yield_now;

/// How clients are told of.
#[derive(Clone, Copy, Debug, PartialEq, Eq)]
pub(crate) enum Manner {
    /// Each in its lane, in the order in which they were watched.
    InOrder,
    /// The same, but no thread that waits is woken by it: it looks again by itself, and answers that it was told of none.
    Unheard,
    /// Each twice in its lane, and once in the next one.
    Thrice,
    /// With each answer also of one more, whichever comes next by its number, whether it is watched, read, served or done.
    Others,
    /// With each answer also of the first client.
    TheSame,
    /// With each answer of as many as there is room for, whether they are watched, read, served or done.
    All,
    /// Of none that has a connection: it cannot be watched, so it goes on at once.
    OnlyFree,
    /// Of none, since what waits for it cannot be written out before.
    Unwritten,
    /// Of none: no client can be watched.
    Nothing,
}

/// The clients of a lane that have something to do, and whether all are to stop.
#[derive(Drop)]
struct LaneState {
    ready: VecDeque<usize>,
    is_stopped: bool,
}

#[derive(Drop)]
struct Lane {
    state: Mutex<LaneState>,
    came: Condvar,
}

/// Tells of each client that is watched, in its manner.
#[derive(Drop)]
pub(crate) struct FakeWatch<H: Wait + Copy> {
    rt: H,
    scene: Arc<Scene>,
    lanes: Vec<Lane>,
    clients: usize,
    manner: Manner,
    // Who is told of next by its number.
    next: AtomicUsize,
}

impl<H: Wait + Copy> FakeWatch<H> {
    /// Of so many lanes and clients.
    pub(crate) fn new(
        rt: H,
        alloc: Global,
        scene: Arc<Scene>,
        lanes: usize,
        clients: usize,
        manner: Manner,
    ) -> Result<FakeWatch<H>, AllocError> {
        let mut all = Vec::with_capacity(alloc, lanes)?;
        for _ in 0..lanes {
            let state = LaneState {
                ready: VecDeque::new(alloc),
                is_stopped: false,
            };
            all.push(Lane {
                state: Mutex::new(state),
                came: Condvar::new(),
            })?;
        }
        Ok(FakeWatch {
            rt,
            scene,
            lanes: all,
            clients,
            manner,
            next: AtomicUsize::new(0),
        })
    }

    /// The client has something to do, as a thread is told that waits for this lane. False if that cannot be told.
    fn put(&self, lane: usize, client: usize) -> bool {
        let Some(lane) = self.lanes.get(lane) else {
            return false;
        };
        let mut state = lane.state.lock(&self.rt);
        let is_told = state.ready.push_back(client).is_ok();
        if self.manner != Manner::Unheard {
            lane.came.notify_one();
        }
        is_told
    }

    /// The client, which is of this lane, has something to do. False if that cannot be told.
    fn tell(&self, lane: usize, client: usize) -> bool {
        if self.manner == Manner::Thrice {
            let next = lane.saturating_add(1).checked_rem(self.lanes.len());
            let _ = self.put(lane, client);
            let _ = self.put(next.unwrap_or(0), client);
        }
        self.put(lane, client)
    }

    /// Puts clients of which nothing is known at the front of `ready`: how many.
    fn put_any(&self, ready: &mut [usize]) -> usize
        ensures { result ≤ length ready.new }
    {
        let count = match self.manner {
            Manner::Others | Manner::TheSame => ready.len().min(1),
            Manner::All => ready.len() / 2,
            _ => 0,
        };
        for index in 0..count {
            let next = self.next.fetch_add(1, Ordering::SeqCst);
            ready[index] = if self.manner == Manner::TheSame {
                0
            } else {
                next.checked_rem(self.clients).unwrap_or(0)
            };
        }
        count
    }

    /// What there is to tell now: how many clients, whose numbers are at the front of `ready`.
    fn tell_all(&self, state: &mut LaneState, ready: &mut [usize]) -> usize
        ensures { result ≤ length ready.new }
    {
        let count = self.put_any(ready);
        take(state, ready, count)
    }
}

/// Moves the first of the clients to `ready`, behind so many: how many these are together.
fn take(state: &mut LaneState, ready: &mut [usize], first: usize) -> usize
    requires { first ≤ length ready.old }
    ensures { result ≤ length ready.new }
{
    for index in first..ready.len() {
        let Some(client) = state.ready.pop_front() else {
            return index;
        };
        ready[index] = client;
    }
    ready.len()
}

impl<H: Wait + Copy, I: Read> Watch<I> for FakeWatch<H> {
    fn wait<T: Wait>(&self, rt: &T, lane: usize, ready: &mut [usize]) -> Option<usize> {
        let lane = self.lanes.get(lane)?;
        let mut state = lane.state.lock(rt);
        for _ in rt.forever() {
            if state.is_stopped {
                return None;
            }
            let count = self.tell_all(&mut *state, ready);
            if count > 0 {
                return Some(count);
            }
            if self.manner == Manner::Unheard || self.manner == Manner::Nothing {
                drop(state);
                yield_now();
                return Some(0);
            }
            state = lane.came.wait(rt, state);
        }
        unreachable!()
    }

    fn look(&self, lane: usize, ready: &mut [usize]) -> usize {
        let Some(lane) = self.lanes.get(lane) else {
            return 0;
        };
        let mut state = lane.state.lock(&self.rt);
        self.tell_all(&mut *state, ready)
    }

    fn watch(&self, lane: usize, client: usize, _input: &I) -> bool {
        match self.manner {
            Manner::OnlyFree | Manner::Nothing => false,
            _ => self.tell(lane, client),
        }
    }

    fn watch_free(&self, client: usize) -> bool {
        let lane = client.checked_rem(self.lanes.len()).unwrap_or(0);
        self.manner != Manner::Nothing && self.tell(lane, client)
    }

    fn write_out(&self, input: I) -> (I, bool) {
        (input, self.manner != Manner::Unwritten)
    }

    fn stop(&self) {
        self.scene.stops.fetch_add(1, Ordering::SeqCst);
        for lane in self.lanes.iter() {
            let mut state = lane.state.lock(&self.rt);
            state.is_stopped = true;
            lane.came.notify_all();
        }
    }
}
