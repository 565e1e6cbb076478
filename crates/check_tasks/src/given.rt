//! Stores that are opened with messages.

ghost use Rattle.std.specs.Prelude.{◌≡◌};

use kit_test::{Change, Failure, Naming, check, operation};
use rs_message::{Found, Operation, PlaceCount};
use rs_store::TopicLimit;
use rs_topic::TopicFilter;
use rs_version::{Blank, OpenFault, StoreName};
use std::alloc::Global;
use std::marker::Brand;
use std::sync::Wait;

/// How many messages are given: so many that the catalogues have to grow more than once.
const GIVEN: u32 = 24;

/// How many stores are opened.
const STORES: u32 = 3;

/// Messages of so many topics.
fn messages(alloc: Global) -> Result<Vec<Found>, Failure> {
    let mut given = Vec::with_capacity(alloc, GIVEN as usize)?;
    for number in 0..GIVEN {
        match operation(
            alloc,
            Naming::Houses,
            u64::from(number),
            Change::Set(0, None),
        )? {
            Operation::Set(found) => given.push(found)?,
            _ => return Err(Failure::Wrong),
        }
    }
    Ok(given)
}

/// Opens the store, each of whose seats must then know and read all that was given. False if that was refused memory.
fn opens<N: StoreName, R: Wait>(
    rt: &R,
    blank: Blank,
    given: Vec<Found>,
    all: &TopicFilter,
) -> Result<bool, Failure>
    requires { (blank.history ≡ N.history) × (blank.limit ≡ N.limit) }
{
    let (writer, seats) = match blank.open_with::<N, &R>(rt, given) {
        Ok(both) => both,
        Err(OpenFault::NoMemory) => return Ok(false),
        Err(OpenFault::TooManyTopics) => return Err(Failure::Wrong),
    };
    check(writer.tell().version() == u64::from(GIVEN) && writer.held().is_none())?;
    for seat in seats {
        let mut seat = seat;
        check(seat.version() == u64::from(GIVEN))?;
        check(seat.answer(all, 0)?.found.len() == GIVEN as usize)?;
    }
    Ok(true)
}

/// Opens stores with the same messages, and returns how often memory was refused to an opening.
pub fn work<H: Wait>(rt: &H, alloc: Global) -> Result<Vec<u64>, Failure> {
    let limit = TopicLimit::new(GIVEN).ok_or(Failure::Wrong)?;
    let places = PlaceCount::new(2).ok_or(Failure::Wrong)?;
    let all = TopicFilter::read(alloc, b"#")?;
    let mut refused = 0u64;
    for _ in 0..STORES {
        let given = messages(alloc)?;
        let blank = Blank::new(alloc, limit, places)?;
        if !opens::<Brand, H>(rt, blank, given, &all)? {
            refused = refused.saturating_add(1);
        }
    }
    Ok(vec![in alloc; refused]?)
}
