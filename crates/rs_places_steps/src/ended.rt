//! A connection that was served and has ended.

use crate::turn::Connection;
use rs_server::{Counted, ServeFault, Served, Tally};

/// A connection that was served and has ended, as a turn takes it back ([`Turn::end`](crate::Turn::end)).
#[derive(Drop)]
pub struct EndedConnection<R, W, C> {
    /// The connection. Its reader and its writer have counted how often they failed.
    pub connection: Connection<Counted<R>, Counted<W>, C>,
    /// How it ended.
    pub served: Result<Served, ServeFault>,
    /// What was counted of it. No clause says of it more than its type.
    pub tally: Tally,
    /// Its place.
    pub place: u16,
    /// Its number among the connections of its place, from 1 on.
    pub number: u64,
}
