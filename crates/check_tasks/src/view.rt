//! What a seat reads.

use rs_topic::TopicFilter;
use rs_version::{Seat, StoreName};

/// The number of the version, and of the messages that were found in it.
#[derive(Clone, Copy)]
pub struct View {
    pub version: u64,
    pub found: u64,
}

/// What the seat finds, or none if memory is refused for it.
pub fn view_of<N: StoreName>(seat: &mut Seat<N>, filter: &TopicFilter) -> Option<View> {
    match seat.answer(filter, 0) {
        Ok(snapshot) => Some(View {
            version: snapshot.version,
            found: snapshot.found.len() as u64,
        }),
        Err(_) => None,
    }
}
