//! What tells which clients have something to do, if what they read comes from memory: each has, at once. It tells so, or otherwise, as
//! [`Watch`] leaves open.

ghost use Rattle.std.specs.Prelude.{◌≡◌, ◌≤◌, length, IfSome};

use rs_places_pool::{Runner, Watch};
use std::alloc::{AllocError, Global};
use std::collections::VecDeque;
use std::io::Read;
use std::sync::{Condvar, Mutex, Wait};
use std::thread::yield_now;

/// How clients are told of.
#[derive(Clone, Copy, Debug, PartialEq, Eq)]
pub enum Manner {
    /// Each in its lane, in the order in which they were watched.
    InOrder,
    /// Each in its lane, but late, and the last one first.
    Late,
    /// All in the first lane.
    InOneLane,
    /// Each in the lane behind its own.
    InNextLane,
    /// None that has a connection: it cannot be watched, so it goes on at once.
    WithoutConnection,
    /// None, since what waits for it cannot be written out before.
    Unwritten,
    /// None: no client can be watched.
    Never,
}

/// How often a thread gives up the processor before it tells late.
const LATE: u32 = 100;

/// The clients of a lane that have something to do, and whether all are to stop.
#[derive(Drop)]
struct LaneState {
    ready: VecDeque<usize>,
    is_stopped: bool,
}

#[derive(Drop)]
struct Lane {
    state: Mutex<LaneState>,
    came: Condvar,
}

/// Tells of each client that is watched, in its manner.
#[derive(Drop)]
pub struct MemoryWatch<H: Wait + Copy> {
    rt: H,
    lanes: Vec<Lane>,
    manner: Manner,
}

impl<H: Wait + Copy> MemoryWatch<H> {
    pub fn new(
        rt: H,
        alloc: Global,
        lanes: usize,
        manner: Manner,
    ) -> Result<MemoryWatch<H>, AllocError> {
        let mut all = Vec::with_capacity(alloc, lanes)?;
        for _ in 0..lanes {
            let state = LaneState {
                ready: VecDeque::new(alloc),
                is_stopped: false,
            };
            all.push(Lane {
                state: Mutex::new(state),
                came: Condvar::new(),
            })?;
        }
        Ok(MemoryWatch {
            rt,
            lanes: all,
            manner,
        })
    }

    /// The client, which is of this lane, has something to do. False if that cannot be told.
    fn tell(&self, lane: usize, client: usize) -> bool {
        let index = match self.manner {
            Manner::InOneLane => 0,
            Manner::InNextLane => {
                lane.saturating_add(1)
                    .checked_rem(self.lanes.len())
                    .unwrap_or(0)
            }
            _ => lane,
        };
        let Some(lane) = self.lanes.get(index) else {
            return false;
        };
        let mut state = lane.state.lock(&self.rt);
        let is_told = state.ready.push_back(client).is_ok();
        lane.came.notify_one();
        is_told
    }
}

/// Moves the first of the clients to the front of `ready`, or the last ones: how many.
fn take(state: &mut LaneState, ready: &mut [usize], is_last_first: bool) -> usize
    ensures { result ≤ length ready.new }
{
    for index in 0..ready.len() {
        let next = if is_last_first {
            state.ready.pop_back()
        } else {
            state.ready.pop_front()
        };
        let Some(client) = next else {
            return index;
        };
        ready[index] = client;
    }
    ready.len()
}

impl<H: Wait + Copy, I: Read> Watch<I> for MemoryWatch<H> {
    fn wait<T: Wait>(&self, rt: &T, lane: usize, ready: &mut [usize]) -> Option<usize> {
        let lane = self.lanes.get(lane)?;
        let is_late = self.manner == Manner::Late;
        if is_late {
            for _ in 0..LATE {
                yield_now();
            }
        }
        let mut state = lane.state.lock(rt);
        for _ in rt.forever() {
            if state.is_stopped {
                return None;
            }
            let count = take(&mut *state, ready, is_late);
            if count > 0 {
                return Some(count);
            }
            state = lane.came.wait(rt, state);
        }
        unreachable!()
    }

    fn look(&self, lane: usize, ready: &mut [usize]) -> usize {
        let Some(lane) = self.lanes.get(lane) else {
            return 0;
        };
        let mut state = lane.state.lock(&self.rt);
        take(&mut *state, ready, self.manner == Manner::Late)
    }

    fn watch(&self, lane: usize, client: usize, _input: &I) -> bool {
        match self.manner {
            Manner::WithoutConnection | Manner::Never => false,
            _ => self.tell(lane, client),
        }
    }

    fn watch_free(&self, client: usize) -> bool {
        let lane = client.checked_rem(self.lanes.len()).unwrap_or(0);
        self.manner != Manner::Never && self.tell(lane, client)
    }

    fn write_out(&self, input: I) -> (I, bool) {
        (input, self.manner != Manner::Unwritten)
    }

    fn stop(&self) {
        for lane in self.lanes.iter() {
            let mut state = lane.state.lock(&self.rt);
            state.is_stopped = true;
            lane.came.notify_all();
        }
    }
}

/// So many lanes, whose clients are told of in this manner.
///
/// # Errors
///
/// [`AllocError`] if memory is refused.
pub fn lanes<R: Wait + Copy>(
    rt: R,
    alloc: Global,
    lanes: u8,
    manner: Manner,
) -> Result<Runner<MemoryWatch<R>>, AllocError> {
    let lanes = usize::from(lanes);
    let watch = MemoryWatch::new(rt, alloc, lanes, manner)?;
    Ok(Runner::Lanes { lanes, watch })
}
