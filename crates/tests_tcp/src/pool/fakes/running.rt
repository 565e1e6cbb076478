//! Runs of clients in memory.

use super::client::{FakeClient, Held, Plan};
use super::scene::Scene;
use super::watch::{FakeWatch, Manner};
use rs_places_pool::Runner;
use std::alloc::{AllocError, Global};
use std::sync::atomic::Ordering;
use std::sync::{Arc, Wait};
use std::thread::Threads;

/// Clients in so many lanes, or with a thread each if that is 0, who are told of in this manner. First come those of the first plan, and so on.
#[derive(Clone, Copy)]
pub(crate) struct Crowd {
    pub(crate) manner: Manner,
    pub(crate) lanes: usize,
    pub(crate) plans: &'static [(usize, Plan)],
}

/// What came of a run.
#[derive(Clone, Copy, Debug, PartialEq, Eq)]
pub(crate) struct Ran {
    /// How many threads or lanes there were.
    pub(crate) used: usize,
    /// How many clients are done.
    pub(crate) done: usize,
    /// How often they were read and handled.
    pub(crate) handled: u64,
    /// How often the watch was stopped.
    pub(crate) stops: usize,
}

impl Crowd {
    /// How many clients there are: all, and those that are held up.
    fn counts(&self) -> (usize, usize) {
        let mut all = 0usize;
        let mut held = 0usize;
        for (count, plan) in self.plans {
            all = all.saturating_add(*count);
            if plan.held != Held::Never {
                held = held.saturating_add(*count);
            }
        }
        (all, held)
    }
}

/// What has to come of it: each client is read and handled as often as it plans, and the watch of lanes is stopped once.
pub(crate) fn wanted(crowd: Crowd) -> Ran {
    let (all, _held) = crowd.counts();
    let mut handled = 0u64;
    for (count, plan) in crowd.plans {
        let rounds = u64::from(plan.rounds).saturating_mul(*count as u64);
        handled = handled.saturating_add(rounds);
    }
    let is_each = crowd.lanes == 0;
    Ran {
        used: if is_each { all } else { crowd.lanes.min(all) },
        done: all,
        handled,
        stops: if is_each { 0 } else { 1 },
    }
}

/// The clients.
fn clients<R: Wait + Copy>(
    rt: R,
    alloc: Global,
    scene: &Arc<Scene>,
    crowd: Crowd,
) -> Result<Vec<FakeClient<R>>, AllocError> {
    let mut clients = Vec::new(alloc);
    for (count, plan) in crowd.plans {
        for _ in 0..*count {
            let client = FakeClient::new(rt, alloc, Arc::try_clone(scene)?, *plan);
            clients.push(client)?;
        }
    }
    Ok(clients)
}

/// What comes of it.
pub(crate) fn run<R: Threads + Wait + Copy + Send + Sync + 'static>(
    rt: R,
    alloc: Global,
    crowd: Crowd,
) -> Result<Ran, AllocError> {
    let (all, held) = crowd.counts();
    let scene = Arc::new(alloc, Scene::new(held, all.saturating_sub(held)))?;
    let clients = clients(rt, alloc, &scene, crowd)?;
    let runner = if crowd.lanes == 0 {
        Runner::OneEach
    } else {
        let told = Arc::try_clone(&scene)?;
        let watch = FakeWatch::new(rt, alloc, told, crowd.lanes, all, crowd.manner)?;
        let lanes = crowd.lanes;
        Runner::Lanes { lanes, watch }
    };
    let used = runner.serve(rt, alloc, clients)?;
    Ok(Ran {
        used,
        done: scene.done.load(Ordering::SeqCst),
        handled: scene.handled.load(Ordering::SeqCst),
        stops: scene.stops.load(Ordering::SeqCst),
    })
}
