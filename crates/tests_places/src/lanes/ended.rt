//! What turns are told of each connection that has ended, of very many.

use kit_places::{Counts, Manner, as_wanted, lanes, publishers, run};
use std::sync::Arc;
use std::test::Fail;

/// How many clients there are, and how many connections each has. `check_tasks ended` has ten times as many.
const CLIENTS: u16 = 8;

const EACH: u64 = 2_500;

/// Each of 20,000 connections comes back to the turn that gave it, under the next number, with its replies, how it ended and a token of a
/// longer list each time.
#[test]
fn each_connection_comes_back(rt: HostRuntime) -> Result<(), Fail> {
    let alloc = rt.alloc();
    let counts = Arc::new(alloc, Counts::new())?;
    let turns = publishers(alloc, &counts, CLIENTS, EACH)?;
    let two = lanes(rt, alloc, 2, Manner::InOrder)?;
    let ran = run(rt, alloc, (1, 2), turns, &counts, two)?;
    let all = EACH.saturating_mul(u64::from(CLIENTS));
    assert!(rt; ran == as_wanted(2, all, all, all));
    Ok(())
}
