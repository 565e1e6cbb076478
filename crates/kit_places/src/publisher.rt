//! Turns that look at very many connections as they come back.

ghost use Rattle.rs_server.specs.Counts.{failures_of, inner_of};
ghost use Rattle.rs_places_steps.specs.Ended.{ending_of};
ghost use Rattle.rs_places_steps.specs.Turns.{TakesBack, none_given};

use crate::script::Counts;
use kit_test::{CONNACK, CONNECT, DISCONNECT, concat, is_concat};
use rs_places_steps::{Connection, EndedConnection, FreeTurn, Turn};
use rs_server::{Clock, Moments, Served};
use rs_version::{StoreName, Told};
use std::alloc::{AllocError, Global};
use std::collections::VecDeque;
use std::io::{Read, Write};
use std::sync::Arc;
use std::sync::atomic::Ordering;

/// A retained publication of QoS 1.
pub const PUBLISH: &[u8] = b"\x33\x07\x00\x01a\x01\x01\x00x";

/// Its PUBACK, if it is stored.
pub const PUBACK: &[u8] = b"\x40\x02\x01\x01";

/// Gives a client of this place connections that each publish a message, and looks at each that has ended: that it comes under the
/// number of the one that was given last, with its replies, how it ended, without a failure, and with a token of a longer list than that of
/// the one before.
#[derive(Drop)]
pub struct Publisher {
    alloc: Global,
    counts: Arc<Counts>,
    place: u16,
    /// How many it gives in all.
    each: u64,
    given: u64,
    /// How many entries there were when its last connection had ended.
    version: u64,
}

/// A connection in memory.
type Played = Connection<VecDeque<u8>, Vec<u8>, Moments>;

impl Publisher {
    /// Its next connection.
    fn connection(&self) -> Result<Played, AllocError> {
        let sent = concat(self.alloc, &[CONNECT, PUBLISH, DISCONNECT])?;
        Ok(Connection {
            input: VecDeque::from_vec(sent),
            output: Vec::new(self.alloc),
            clock: Moments::new(0, Vec::new(self.alloc)),
        })
    }
}

impl Turn for Publisher {
    type In = VecDeque<u8>;

    type Out = Vec<u8>;

    type Time = Moments;

    fn next(&mut self) -> Option<Played> {
        if self.given == self.each {
            return None;
        }
        let connection = self.connection().ok()?;
        self.given = self.given.saturating_add(1);
        Some(connection)
    }

    fn end<N: StoreName>(
        &mut self,
        ended: EndedConnection<VecDeque<u8>, Vec<u8>, Moments>,
        told: &Told<N>,
    )
        ensures { TakesBack none_given
            (ending_of (⟦<VecDeque<u8> as Read>⟧.remaining (inner_of ended.connection.input)) (⟦<Vec<u8> as Write>⟧.contents (inner_of ended.connection.output))
            (⟦<Moments as Clock>⟧.moments ended.connection.clock) (failures_of ended.connection.input) (failures_of ended.connection.output) ended.served)
            none_given }
    {
        let EndedConnection {
            connection,
            served,
            tally,
            place,
            number,
        } = ended;
        let is_told = served == Ok(Served::ClientClosed) && tally.packets == 3;
        let has_failed = connection.input.failures() > 0 || connection.output.failures() > 0;
        let output = connection.output.into_inner();
        let is_last = place == self.place && number == self.given;
        // It knew its own entry, which the connection before it did not know.
        let is_newer = told.version() > self.version;
        self.version = told.version();
        if is_last && is_newer && is_told && !has_failed && is_concat(&output, &[CONNACK, PUBACK]) {
            self.counts.right.fetch_add(1, Ordering::SeqCst);
        }
    }
}

/// One for each of so many clients, which gives so many connections. It counts those that were right.
///
/// # Errors
///
/// [`AllocError`] if memory is refused.
pub fn publishers(
    alloc: Global,
    counts: &Arc<Counts>,
    clients: u16,
    each: u64,
) -> Result<Vec<FreeTurn<Publisher>>, AllocError> {
    let mut turns = Vec::with_capacity(alloc, usize::from(clients))?;
    for place in 1..=clients {
        let turn = Publisher {
            alloc,
            counts: Arc::try_clone(counts)?,
            place,
            each,
            given: 0,
            version: 0,
        };
        turns.push(FreeTurn::new(turn))?;
    }
    Ok(turns)
}
