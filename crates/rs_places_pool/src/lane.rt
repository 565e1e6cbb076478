//! The threads of a lane share which of its clients are to be read or served, and which thread waits or sleeps.

use crate::lane_clients::LaneClients;
use std::alloc::{AllocError, Global};
use std::sync::atomic::{AtomicBool, AtomicUsize, Ordering};
use std::sync::{Condvar, Mutex, Wait};

/// Clients that the same threads serve.
#[derive(Drop)]
pub(crate) struct Lane {
    clients: Mutex<LaneClients>,
    // Whether its threads have served a client since the last look.
    has_served: AtomicBool,
    // Whether one of its threads waits for clients. One is enough.
    is_watched: AtomicBool,
    // How many of its threads sleep until they are needed, and what wakes them, under the lock of `clients`.
    asleep: AtomicUsize,
    needed: Condvar,
}

/// How far the threads of a lane came since the last look.
#[derive(Clone, Copy)]
pub(crate) struct Progress {
    /// Whether some clients waited to be read or to be served then, and none of them was taken since.
    pub(crate) is_left: bool,
    /// Whether a client was served since then.
    pub(crate) has_served: bool,
    /// Whether one of them waits for clients.
    pub(crate) is_watched: bool,
    /// How many of them sleep until they are needed.
    pub(crate) asleep: usize,
}

impl Lane {
    /// With no thread yet, for so many clients at most.
    pub(crate) fn new(alloc: Global, clients: usize) -> Result<Lane, AllocError> {
        Ok(Lane {
            clients: Mutex::new(LaneClients::new(alloc, clients)?),
            has_served: AtomicBool::new(false),
            is_watched: AtomicBool::new(false),
            asleep: AtomicUsize::new(0),
            needed: Condvar::new(),
        })
    }

    /// How far its threads came since the last look. This look is the last one then.
    pub(crate) fn look<H: Wait>(&self, rt: &H) -> Progress {
        let mut guard = self.clients.lock(rt);
        Progress {
            is_left: guard.look(),
            has_served: self.has_served.swap(false, Ordering::SeqCst),
            is_watched: self.is_watched(),
            asleep: self.asleep.load(Ordering::SeqCst),
        }
    }

    /// These clients have something to do, and are to be read.
    pub(crate) fn add_told<H: Wait>(&self, rt: &H, numbers: &[usize]) {
        let mut guard = self.clients.lock(rt);
        for number in numbers {
            let _ = guard.add_told(*number);
        }
    }

    /// The next client that is to be read.
    pub(crate) fn next_told<H: Wait>(&self, rt: &H) -> Option<usize> {
        let mut guard = self.clients.lock(rt);
        guard.next_told()
    }

    /// This client was read, has no changes, and is to be served.
    pub(crate) fn add_alone<H: Wait>(&self, rt: &H, number: usize) {
        let mut guard = self.clients.lock(rt);
        let _ = guard.add_alone(number);
    }

    /// This client was read, has changes, and is to be served with those that are read next.
    pub(crate) fn add_changed<H: Wait>(&self, rt: &H, number: usize) {
        let mut guard = self.clients.lock(rt);
        let _ = guard.add_changed(number);
    }

    /// The next client that has no changes.
    pub(crate) fn next_alone<H: Wait>(&self, rt: &H) -> Option<usize> {
        let mut guard = self.clients.lock(rt);
        guard.next_alone()
    }

    /// The next client that has changes. If there is none, the thread that asks serves such no more.
    pub(crate) fn next_together<H: Wait>(&self, rt: &H) -> Option<usize> {
        let mut guard = self.clients.lock(rt);
        guard.next_together()
    }

    /// Whether there are clients that have changes, and no thread serves them. Then the thread that asks does from now on.
    pub(crate) fn begins_to_serve<H: Wait>(&self, rt: &H) -> bool {
        let mut guard = self.clients.lock(rt);
        guard.begins_to_serve()
    }

    /// Another thread may serve the clients that have changes from now on.
    pub(crate) fn leave<H: Wait>(&self, rt: &H) {
        let mut guard = self.clients.lock(rt);
        guard.leave();
    }

    /// Whether one of its threads waits for clients.
    pub(crate) fn is_watched(&self) -> bool {
        self.is_watched.load(Ordering::SeqCst)
    }

    /// Whether the thread that asks is to wait for clients from now on. Else another one does.
    pub(crate) fn begins_to_watch(&self) -> bool {
        !self.is_watched.swap(true, Ordering::SeqCst)
    }

    /// The thread that has waited for clients does so no more.
    pub(crate) fn ends_to_watch(&self) {
        self.is_watched.store(false, Ordering::SeqCst);
    }

    /// A client was served.
    pub(crate) fn note_served(&self) {
        self.has_served.store(true, Ordering::SeqCst);
    }

    /// Wakes one thread that sleeps, so that it goes on meanwhile.
    pub(crate) fn wake_one<H: Wait>(&self, rt: &H) {
        if self.asleep.load(Ordering::SeqCst) > 0 {
            // Who is about to sleep does so first.
            drop(self.clients.lock(rt));
            self.needed.notify_one();
        }
    }

    /// Wakes the threads that sleep. Who serves the clients that have changes may be held up, so another thread may serve them.
    pub(crate) fn wake<H: Wait>(&self, rt: &H) {
        // Who is about to sleep does so first.
        self.leave(rt);
        self.needed.notify_all();
    }

    /// Sleeps until it is needed, unless all clients are done or there is something to do.
    pub(crate) fn sleep<H: Wait>(&self, rt: &H, left: &AtomicUsize) {
        let guard = self.clients.lock(rt);
        self.asleep.fetch_add(1, Ordering::SeqCst);
        // Who has ceased to wait for clients meanwhile, or has read some, may not have seen that this one sleeps.
        let has_more = guard.has_more();
        let is_done = left.load(Ordering::SeqCst) == 0;
        if !has_more && !is_done && self.is_watched() {
            drop(self.needed.wait(rt, guard));
        }
        self.asleep.fetch_sub(1, Ordering::SeqCst);
    }
}
