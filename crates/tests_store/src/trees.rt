//! The tree beside a map, over many entries.

use rs_store::Catalogue;
use rs_topic::TopicFilter;
use std::process::Abort;
use std::test::Fail;

mod alike;
mod examples;
mod followed;
mod joined;
mod lengths;
mod snapshots;
mod sweeps;
mod weights;
mod wide;

/// How many messages an answer within this room has. `None` if there are more.
fn within<C: Catalogue>(
    catalogue: &C,
    filter: &TopicFilter,
    now: u64,
    room: usize,
) -> Result<Option<usize>, Fail> {
    match catalogue.answer_within(filter, now, room)? {
        Some(found) => Ok(Some(found.len())),
        None => Ok(None),
    }
}

/// The filter is answered as many as there is room for, and not with one less.
fn check_as_many<C: Catalogue>(
    rt: &impl Abort,
    catalogue: &C,
    filter: &TopicFilter,
    now: u64,
    wanted: usize,
) -> Result<(), Fail> {
    assert!(rt; within(catalogue, filter, now, wanted)? == Some(wanted));
    if wanted > 0 {
        assert!(rt; within(catalogue, filter, now, wanted - 1)?.is_none());
        assert!(rt; within(catalogue, filter, now, 0)?.is_none());
    }
    Ok(())
}
