//! Stores that tests share.

ghost use Rattle.std.specs.Prelude.{◌≡◌, IfOk};

use rs_message::PlaceCount;
use rs_store::TopicLimit;
use rs_topic::TopicFilter;
use rs_version::{Blank, Seat, Snapshot, StoreName};
use std::alloc::{AllocError, Global};
use std::test::Fail;

/// An empty store of so many topics and places.
pub fn blank_store(alloc: Global, topics: u32, places: PlaceCount) -> Result<Blank, Fail>
    ensures { IfOk result (λ blank. blank.places ≡ places) }
{
    let limit = TopicLimit::new(topics).ok_or("a limit")?;
    Ok(Blank::new(alloc, limit, places)?)
}

/// What the seat reads at this moment.
pub fn read_all<N: StoreName>(
    alloc: Global,
    seat: &mut Seat<N>,
    now: u64,
) -> Result<Snapshot, AllocError> {
    match TopicFilter::read(alloc, b"#") {
        Ok(filter) => seat.answer(&filter, now),
        Err(_) => Err(AllocError),
    }
}
