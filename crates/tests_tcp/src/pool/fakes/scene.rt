//! What the clients of a run count together, and the door that those that are held up wait for.

use std::sync::atomic::{AtomicU64, AtomicUsize, Ordering};
use std::sync::{Condvar, Mutex, Wait};

/// What the clients of a run share.
#[derive(Drop)]
pub(crate) struct Scene {
    // How many are to be held up. Until all of them are, no other gets on.
    to_hold: usize,
    // How many others there are. Once all of these are done, the door opens.
    others: usize,
    held: AtomicUsize,
    others_done: AtomicUsize,
    // Clients that are done.
    pub(crate) done: AtomicUsize,
    // What was read and handled, of all clients.
    pub(crate) handled: AtomicU64,
    // How often the watch was stopped.
    pub(crate) stops: AtomicUsize,
    is_open: Mutex<bool>,
    opens: Condvar,
}

impl Scene {
    /// Of so many clients that are held up, and so many others.
    pub(crate) fn new(to_hold: usize, others: usize) -> Scene {
        Scene {
            to_hold,
            others,
            held: AtomicUsize::new(0),
            others_done: AtomicUsize::new(0),
            done: AtomicUsize::new(0),
            handled: AtomicU64::new(0),
            stops: AtomicUsize::new(0),
            is_open: Mutex::new(false),
            opens: Condvar::new(),
        }
    }

    /// Whether all that are to be held up are.
    pub(crate) fn are_held(&self) -> bool {
        self.held.load(Ordering::SeqCst) >= self.to_hold
    }

    /// Waits for the door.
    pub(crate) fn hold<H: Wait>(&self, rt: &H) {
        self.held.fetch_add(1, Ordering::SeqCst);
        let mut is_open = self.is_open.lock(rt);
        for _ in rt.forever() {
            if *is_open {
                return;
            }
            is_open = self.opens.wait(rt, is_open);
        }
    }

    /// A client is done.
    pub(crate) fn note_done<H: Wait>(&self, rt: &H, was_held: bool) {
        self.done.fetch_add(1, Ordering::SeqCst);
        if was_held {
            return;
        }
        let before = self.others_done.fetch_add(1, Ordering::SeqCst);
        if before.saturating_add(1) == self.others {
            let mut is_open = self.is_open.lock(rt);
            *is_open = true;
            self.opens.notify_all();
        }
    }
}
