//! What the writer of a store of versions does when there is no memory left: it keeps no more messages, and still clears topics.

ghost use Rattle.std.specs.Prelude.{◌≡◌};

use kit_test::{Change, Failure, Keeper, Naming, Outcome, check, entry};
use rs_message::{Entry, PlaceCount};
use rs_store::TopicLimit;
use rs_version::{Blank, StoreName};
use std::alloc::Global;
use std::collections::VecDeque;
use std::marker::Brand;
use std::sync::Wait;

/// How many topics are set at most: more than the writer's reserve is enough for.
const TOPICS: u32 = 4_096;

/// How many topics are set while there is memory.
const FIRST: usize = 16;

/// The memory that nothing is left of is taken in blocks of these sizes.
const SIZES: [usize; 5] = [1_048_576, 65_536, 4_096, 256, 16];

/// How many blocks of a size there are at most.
const MOST_BLOCKS: usize = 131_072;

/// The changes of all topics, with serials from this one on. They have all the memory that they need.
fn changes(alloc: Global, first: u64, change: Change) -> Result<VecDeque<Entry>, Failure> {
    let mut entries = VecDeque::new(alloc);
    for number in 0..u64::from(TOPICS) {
        let serial = first.saturating_add(number);
        entries.push_back(entry(alloc, Naming::Houses, serial, number, change)?)?;
    }
    Ok(entries)
}

/// Takes all memory that is left.
fn all_memory(alloc: Global) -> Result<Vec<Vec<u8>>, Failure> {
    let mut blocks = Vec::with_capacity(alloc, MOST_BLOCKS)?;
    for size in SIZES {
        for _ in 0..MOST_BLOCKS {
            let Ok(block) = Vec::with_capacity(alloc, size) else {
                break;
            };
            if blocks.push(block).is_err() {
                break;
            }
        }
    }
    Ok(blocks)
}

/// Puts so many entries, or less if memory is refused to one. How many are kept.
fn put<K: Keeper>(
    keeper: &mut K,
    entries: &mut VecDeque<Entry>,
    most: usize,
) -> Result<usize, Failure> {
    for kept in 0..most {
        let Some(entry) = entries.pop_front() else {
            return Ok(kept);
        };
        if entry.operation.is_sweep() {
            return Err(Failure::Wrong);
        }
        match keeper.add(entry) {
            Outcome::Kept => {}
            Outcome::NoMemory => return Ok(kept),
            Outcome::Full | Outcome::Other => return Err(Failure::Wrong),
        }
    }
    Ok(most)
}

/// Sets topics until memory is refused, clears them, sets half as many, and all others once there is memory again. How many were set
/// without memory.
fn filled<K: Keeper>(alloc: Global, keeper: &mut K) -> Result<usize, Failure> {
    let count = u64::from(TOPICS);
    let mut sets = changes(alloc, 1, Change::Set(0, None))?;
    let mut clears = changes(alloc, count.saturating_add(1), Change::Clear)?;
    let mut others = changes(
        alloc,
        count.saturating_mul(2).saturating_add(1),
        Change::Set(0, None),
    )?;
    check(put(keeper, &mut sets, FIRST)? == FIRST)?;
    let taken = all_memory(alloc)?;
    let more = put(keeper, &mut sets, TOPICS as usize)?;
    check(!sets.is_empty())?;
    let kept = FIRST.saturating_add(more);
    check(put(keeper, &mut clears, kept)? == kept)?;
    check(put(keeper, &mut others, kept / 2)? == kept / 2)?;
    drop(taken);
    let rest = others.len();
    check(put(keeper, &mut others, rest)? == rest)?;
    Ok(more)
}

/// The same in a new store.
fn tried<N: StoreName, R: Wait>(rt: &R, alloc: Global, blank: Blank) -> Result<usize, Failure>
    requires { (blank.history ≡ N.history) × (blank.limit ≡ N.limit) }
{
    let (mut writer, _seats) = blank.open::<N, &R>(rt)?;
    filled(alloc, &mut writer)
}

/// Works a store until no memory is left. Returns how many topics were set then by what the writer had in reserve.
pub fn work<H: Wait>(rt: &H, alloc: Global) -> Result<Vec<u64>, Failure> {
    let limit = TopicLimit::new(TOPICS).ok_or(Failure::Wrong)?;
    let places = PlaceCount::new(1).ok_or(Failure::Wrong)?;
    let blank = Blank::new(alloc, limit, places)?;
    let more = tried::<Brand, H>(rt, alloc, blank)?;
    Ok(vec![in alloc; more as u64]?)
}
