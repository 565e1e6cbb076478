//! What gives a client its connections.

ghost use Rattle.std.specs.Option.{option_map};
ghost use Rattle.rs_server.specs.Counts.{failures_of, inner_of};
ghost use Rattle.rs_places_steps.specs.Ended.{HasEnded, ending_of};
ghost use Rattle.std.specs.Prelude.{◌≡◌, None};
ghost use Rattle.rs_places_steps.specs.Turns.{GivesNext, IsOut, TakesBack};

use crate::ended::EndedConnection;
use rs_server::Clock;
use rs_version::{StoreName, Told};
use std::io::{Read, Write};
use std::marker::Model;

/// A connection: what its client sends, what it is sent, and its clock.
#[derive(Drop)]
pub struct Connection<R, W, C> {
    /// Reads what the client sends.
    pub input: R,
    /// Writes what the client is sent.
    pub output: W,
    /// Tells the time. It is asked once for each packet.
    pub clock: C,
}

/// Gives a client its connections, one after the other, and takes them back once they have ended.
///
/// The parts of a connection own what they need, since threads take them. A turn over given connections, as those of a
/// test are, says which by its `connections`; one over sockets says nothing, and promises nothing.
pub trait Turn {
    ghost use Rattle.rs_places_steps.specs.Turns.{Connections, none_given};

    /// Reads what the client sends.
    type In: Read + Drop;

    /// Writes what the client is sent.
    type Out: Write + Drop;

    /// Tells the time, in whole seconds.
    type Time: Clock + Drop;

    /// What contracts see of its connections. Nothing, if the type does not say.
    ghost connections: { Self → Connections } = { λ _. none_given };

    /// The client's next connection. `None` if there are no more; then it is not asked again.
    ///
    /// No connection is out: whoever served the one before has given it back ([`end`](Turn::end)), with what is owed for that.
    fn next(&mut self) -> Option<Connection<Self::In, Self::Out, Self::Time>>
        requires { IsOut None (connections self.old).out }
        ensures { GivesNext (connections self.old)
            (option_map (λ c. record {
              unread = Self.In.remaining c.input;
              written = Self.Out.contents c.output;
              moments = Self.Time.moments c.clock;
            }) result) (connections self.new) };

    /// Takes back the connection that it gave last, which was served and has ended, with a token of the list that its gate knew last.
    ///
    /// Whoever calls it owes what is known of a connection at its end (`HasEnded`), also in a run that never ends: it was served under its
    /// number, over the bytes and times that this turn gave it, if these are told, and each list that it was answered from is a prefix of the
    /// token's.
    fn end<N: StoreName>(
        &mut self,
        ended: EndedConnection<Self::In, Self::Out, Self::Time>,
        told: &Told<N>,
    )
        requires { HasEnded N.limit ended.place ended.number (connections self.old).out
            (ending_of (Self.In.remaining (inner_of ended.connection.input)) (Self.Out.contents (inner_of ended.connection.output))
            (Self.Time.moments ended.connection.clock) (failures_of ended.connection.input) (failures_of ended.connection.output) ended.served)
            told.now }
        ensures { TakesBack (connections self.old)
            (ending_of (Self.In.remaining (inner_of ended.connection.input)) (Self.Out.contents (inner_of ended.connection.output))
            (Self.Time.moments ended.connection.clock) (failures_of ended.connection.input) (failures_of ended.connection.output) ended.served)
            (connections self.new) };
}

/// A turn of which no connection is out: a new one, or one that took its last connection back.
#[derive(Drop)]
pub struct FreeTurn<T: Turn> {
    turn: T,
}

impl<T: Turn> Model for FreeTurn<T> {
    ghost use Rattle.std.specs.Prelude.{None};
    ghost use Rattle.rs_places_steps.specs.Turns.{IsOut};

    ghost Value = { T };

    ghost view = { λ free. free.turn };

    ghost invariant = { λ free. IsOut None (T.connections free.turn).out };
}

impl<T: Turn> FreeTurn<T> {
    /// This turn, of which no connection is out.
    pub fn new(turn: T) -> FreeTurn<T>
        requires { IsOut None (T.connections turn).out }
        ensures { result ≡ turn }
    {
        FreeTurn { turn }
    }

    /// The turn.
    pub fn into_turn(self) -> T
        ensures turn { result ≡ self }
        ensures free { IsOut None (T.connections result).out }
    {
        self.turn
    }
}

/// What is left of a client whose connections were served. It is called by the place of its line.
#[derive(Drop)]
pub struct PlaceEnd<N: StoreName, L, T> {
    /// What is left of its line.
    pub line: L,
    /// A token of the list that its gate knew last.
    pub told: Told<N>,
    /// The turn, which took its connections back.
    pub turn: T,
}

/// What is left of all clients.
#[derive(Drop)]
pub struct PlacesEnd<N: StoreName, L, T> {
    /// What is left of each client, in the order of their places.
    pub ends: Vec<PlaceEnd<N, L, T>>,
    /// How many threads, or lanes with threads, there were for them.
    pub threads: usize,
}
