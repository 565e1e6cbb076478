//! Where a client is between two of the steps by which it is served. Contracts see of each what the client began with.
//!
//! The fields are private, so nobody but [`steps`] can take a client apart: whoever has one, and serves it on for ever, makes its steps.

mod steps;

use crate::begun::Begun;
use crate::gates::LineGate;
use crate::turn::{Connection, Turn};
use rs_server::{Counted, CountedGate, ServeFault, Served, Serving};
use rs_version::Told;
use std::marker::Model;

/// It has no connection. Its next one has this number.
#[derive(Drop)]
pub(crate) struct FreeClient<T: Turn, G: LineGate> {
    turn: T,
    gate: G,
    number: u64,
    begun: Begun<T, G>,
}

impl<T: Turn, G: LineGate> Model for FreeClient<T, G> {
    ghost use Rattle.rs_places_steps.specs.declared.begun.Begun.{Begun};

    ghost Value = { Begun T G };

    ghost view = { λ c. c.begun };

    ghost use Rattle.rs_places_steps.specs.Visits.{ServedSoFar, place_at};
    ghost use Rattle.rs_places_steps.specs.Begins.{place_of};

    ghost invariant = { λ c. ServedSoFar G.Name.limit (place_of T.connections G.shared c.begun) c.number (place_at (T.connections c.turn) (G.shared c.gate)) };
}

/// A client with its connection of this number.
#[derive(Drop)]
pub(crate) struct Connected<T: Turn, G> {
    turn: T,
    serving: Serving<CountedGate<G>>,
    input: Counted<T::In>,
    output: Counted<T::Out>,
    clock: T::Time,
    number: u64,
    begun: Begun<T, G>,
}

/// It is served a connection. All that was whole is handled, so there is something to do once there is something to read.
#[derive(Drop)]
pub(crate) struct ServedClient<T: Turn, G: LineGate> {
    on: Connected<T, G>,
}

impl<T: Turn, G: LineGate> Model for ServedClient<T, G> {
    ghost use Rattle.rs_places_steps.specs.declared.begun.Begun.{Begun};

    ghost Value = { Begun T G };

    ghost view = { λ c. c.on.begun };

    ghost use Rattle.std.specs.Prelude.{◌≡◌};
    ghost use Rattle.rs_server.specs.Counts.{failures_of, inner_of};
    ghost use Rattle.rs_server.specs.Serving.{Waits};
    ghost use Rattle.rs_places_steps.specs.Begins.{place_of};
    ghost use Rattle.rs_places_steps.specs.Steps.{IsBeingServed, counted_view};

    ghost invariant = { λ c. Waits c.on.serving × (failures_of c.on.input ≡ 0) × (failures_of c.on.output ≡ 0)
        × IsBeingServed G.Name.limit G.most (counted_view G.stands G.mark G.pending) (place_of T.connections G.shared c.on.begun) c.on.number
        (T.connections c.on.turn)
        (record {
          unread = T.In.remaining (inner_of c.on.input);
          written = T.Out.contents (inner_of c.on.output);
          moments = T.Time.moments c.on.clock;
        }) c.on.serving };
}

/// It is served a connection. Something was read, and is not handled yet.
#[derive(Drop)]
pub(crate) struct ReadClient<T: Turn, G: LineGate> {
    on: Connected<T, G>,
}

impl<T: Turn, G: LineGate> Model for ReadClient<T, G> {
    ghost use Rattle.rs_places_steps.specs.declared.begun.Begun.{Begun};

    ghost Value = { Begun T G };

    ghost view = { λ c. c.on.begun };

    ghost use Rattle.std.specs.Prelude.{◌≡◌};
    ghost use Rattle.rs_server.specs.Counts.{failures_of, inner_of};
    ghost use Rattle.rs_server.specs.Serving.{Waits};
    ghost use Rattle.rs_places_steps.specs.Begins.{place_of};
    ghost use Rattle.rs_places_steps.specs.Steps.{WasRead, counted_view};

    ghost invariant = { λ c. Waits c.on.serving × (failures_of c.on.input ≡ 0) × (failures_of c.on.output ≡ 0)
        × WasRead G.Name.limit G.most (counted_view G.stands G.mark G.pending) (place_of T.connections G.shared c.on.begun) c.on.number
        (T.connections c.on.turn)
        (record {
          unread = T.In.remaining (inner_of c.on.input);
          written = T.Out.contents (inner_of c.on.output);
          moments = T.Time.moments c.on.clock;
        }) c.on.serving };
}

/// Its connection of this number was served, and ended so. It is not given back to the turn yet.
#[derive(Drop)]
pub(crate) struct EndedClient<T: Turn, G: LineGate> {
    turn: T,
    gate: CountedGate<G>,
    connection: Connection<Counted<T::In>, Counted<T::Out>, T::Time>,
    number: u64,
    begun: Begun<T, G>,
    result: Result<Served, ServeFault>,
    packets: u64,
}

impl<T: Turn, G: LineGate> Model for EndedClient<T, G> {
    ghost use Rattle.rs_places_steps.specs.declared.begun.Begun.{Begun};

    ghost Value = { Begun T G };

    ghost view = { λ c. c.begun };

    ghost use Rattle.rs_server.specs.Counts.{failures_of, inner_of};
    ghost use Rattle.rs_places_steps.specs.Begins.{place_of};
    ghost use Rattle.rs_places_steps.specs.Steps.{WasServed, counted_view};

    ghost invariant = { λ c. WasServed G.Name.limit G.most (place_of T.connections G.shared c.begun) c.number (T.connections c.turn)
        (record {
          unread = T.In.remaining (inner_of c.connection.input);
          written = T.Out.contents (inner_of c.connection.output);
          moments = T.Time.moments c.connection.clock;
        }) (counted_view G.stands G.mark G.pending c.gate) c.result (failures_of c.connection.input) (failures_of c.connection.output) };
}

/// Its turn has no more connections, and its gate is closed.
#[derive(Drop)]
pub(crate) struct DoneClient<T: Turn, G: LineGate> {
    turn: T,
    told: Told<G::Name>,
    line: G::End,
    begun: Begun<T, G>,
}

impl<T: Turn, G: LineGate> Model for DoneClient<T, G> {
    ghost use Rattle.rs_places_steps.specs.declared.begun.Begun.{Begun};

    ghost Value = { Begun T G };

    ghost view = { λ c. c.begun };

    ghost use Rattle.rs_places_steps.specs.Places.{IsPlaceServed, left_at};
    ghost use Rattle.rs_places_steps.specs.Begins.{place_of};

    ghost invariant = { λ c. IsPlaceServed G.Name.limit (place_of T.connections G.shared c.begun)
        (left_at (T.connections c.turn) c.told (G.closed c.line)) };
}

/// A client, wherever it is.
#[derive(Drop)]
pub(crate) enum Stage<T: Turn, G: LineGate> {
    Free(FreeClient<T, G>),
    Served(ServedClient<T, G>),
    Read(ReadClient<T, G>),
    Ended(EndedClient<T, G>),
    Done(DoneClient<T, G>),
}
