//! What turns are told of very many connections, without a refusal.

use crate::groups::blanks;
use kit_places::{Counts, Manner, as_wanted, lanes, outcome, publishers};
use kit_test::{Failure, check};
use rs_places::run_store;
use std::alloc::Global;
use std::sync::{Arc, Wait};
use std::thread::Threads;

/// How many clients there are, and how many connections each has.
const CLIENTS: u16 = 8;

const EACH: u64 = 25_000;

/// Serves the connections of these clients by lanes of threads. Returns how many came back as they had to: all.
pub fn work<H: Wait + Threads + Copy + Send + Sync + 'static>(
    rt: &H,
    alloc: Global,
) -> Result<Vec<u64>, Failure> {
    let counts = Arc::new(alloc, Counts::new())?;
    let turns = publishers(alloc, &counts, CLIENTS, EACH)?;
    if turns.len() != usize::from(CLIENTS) {
        return Err(Failure::Wrong);
    }
    let (blank, queue) = blanks(alloc, CLIENTS)?;
    let two = lanes(*rt, alloc, 2, Manner::InOrder)?;
    let Ok(end) = run_store(*rt, alloc, blank, Vec::new(alloc), queue, turns, two) else {
        return Err(Failure::NoMemory);
    };
    let all = EACH.saturating_mul(u64::from(CLIENTS));
    check(outcome(&end, &counts) == as_wanted(2, all, all, all))?;
    let mut numbers = Vec::new(alloc);
    numbers.push(all)?;
    Ok(numbers)
}
