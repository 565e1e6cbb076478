//! All clients that can be watched.

ghost use Rattle.std.specs.Prelude.{◌≤◌, length};

use crate::watched::{Watched, split_number};
use std::alloc::{AllocError, Global};
use std::sync::atomic::{AtomicU64, Ordering};

/// How often a thread that waits looks for clients of which it is not told, in milliseconds.
pub(crate) const LOOK_EVERY: u64 = 1_000;

/// All clients that can be watched, by their numbers.
#[derive(Drop)]
pub(crate) struct WatchedClients {
    all: Vec<Watched>,
    // The moment when they were last looked through, in milliseconds.
    looked: AtomicU64,
}

impl WatchedClients {
    /// So many, none of which is watched.
    pub(crate) fn new(alloc: Global, count: usize) -> Result<WatchedClients, AllocError> {
        let mut all = Vec::with_capacity(alloc, count)?;
        for _ in 0..count {
            if all.push(Watched::new()).is_err() {
                return Err(AllocError);
            }
        }
        Ok(WatchedClients {
            all,
            looked: AtomicU64::new(0),
        })
    }

    /// The client of this number. `None` if there are not so many.
    pub(crate) fn get(&self, client: usize) -> Option<&Watched> {
        self.all.get(client)
    }

    /// The client of a number that was told, which is not watched any more. `None` if it was told of an earlier turn.
    pub(crate) fn end_turn(&self, number: u64) -> Option<usize> {
        let (client, turn) = split_number(number)?;
        let client = usize::from(client);
        if !self.get(client)?.end(turn) {
            return None;
        }
        Some(client)
    }

    /// Once a second: puts the numbers of clients that are watched for longer than `idle` milliseconds at the moment `now` at the front of
    /// `ready`, as many as there is room for: how many. They are not watched any more.
    pub(crate) fn put_overdue(&self, now: u64, idle: u64, ready: &mut [usize]) -> usize
        ensures { result ≤ length ready.new }
    {
        if !self.begins_to_look(now) {
            return 0;
        }
        let mut count = 0;
        for (index, client) in self.all.iter().enumerate() {
            if count == ready.len() {
                // There may be more, for which the next wait looks.
                self.looked.store(0, Ordering::SeqCst);
                break;
            }
            if client.end_overdue(now, idle) {
                ready[count] = index;
                count += 1;
            }
        }
        count
    }

    /// Whether this thread looks now.
    fn begins_to_look(&self, now: u64) -> bool {
        let looked = self.looked.load(Ordering::SeqCst);
        now.saturating_sub(looked) >= LOOK_EVERY
            && self
                .looked
                .compare_exchange(looked, now, Ordering::SeqCst, Ordering::SeqCst)
                .is_ok()
    }
}
