//! The steps by which a client is served, whichever thread makes them.

ghost use Rattle.std.specs.Prelude.{◌≡◌, List, None, []};
ghost use Rattle.rs_session.specs.State.{gate_of};
ghost use Rattle.rs_server.specs.Counts.{failures_of, inner_of};
ghost use Rattle.rs_server.specs.Serving.{session_of};
ghost use Rattle.rs_message.specs.declared.entry.Entry.{Entry};
ghost use Rattle.rs_server.specs.Refusals.{gate_of as counted_gate};
ghost use Rattle.rs_places_steps.specs.Places.{IsPlaceServed, left_at};
ghost use Rattle.rs_places_steps.specs.Shared.{HandsOn, operations_of};
ghost use Rattle.rs_places_steps.specs.Turns.{IsOut};
ghost use Rattle.rs_places_steps.specs.Begins.{place_of};
ghost use Rattle.rs_places_steps.specs.Steps.{WasServed, counted_view};
ghost use Rattle.rs_places_steps.specs.Stages.{IsNext, IsReadOrEnded, IsServedOrEnded, begun_of};

use super::{Connected, DoneClient, EndedClient, FreeClient, ReadClient, ServedClient, Stage};
use crate::begun::Begun;
use crate::ended::EndedConnection;
use crate::gates::LineGate;
use crate::turn::{Connection, PlaceEnd, Turn};
use rs_places_pool::Watch;
use rs_server::{ConnectionId, Counted, CountedGate, Refusals, ServeFault, Served, Serving, Tally};
use std::alloc::Global;
use std::sync::Wait;

impl<T: Turn + Drop, G: LineGate + Drop> FreeClient<T, G> {
    /// A client of this turn and this gate. Its connections are numbered from 1 on.
    pub(crate) fn new(turn: T, gate: G) -> FreeClient<T, G>
        requires free { IsOut None (T.connections turn).out }
        requires pending { (G.shared gate).pending ≡ [] }
        ensures turn { result.turn.value ≡ turn }
        ensures gate { result.gate.value ≡ gate }
    {
        let begun = Begun::new(&turn, &gate);
        FreeClient {
            turn,
            gate,
            number: 1,
            begun,
        }
    }

    /// Takes the turn's next connection, and waits for it. If memory is refused, the connection ends at once. If there is none, the gate is
    /// closed.
    pub(crate) fn next(self, alloc: Global) -> Stage<T, G>
        ensures same { begun_of result ≡ self }
        ensures follows { IsNext result }
    {
        let FreeClient {
            mut turn,
            gate,
            number,
            begun,
        } = self;
        let Some(connection) = turn.next() else {
            let told = gate.told();
            let line = gate.close();
            return Stage::Done(DoneClient {
                turn,
                told,
                line,
                begun,
            });
        };
        let Connection {
            input,
            output,
            clock,
        } = connection;
        let input = Counted::new(input);
        let output = Counted::new(output);
        // For the proof: this call says that the known list is legal.
        let _told = gate.told();
        let place = gate.place();
        match Serving::new(
            alloc,
            CountedGate::new(gate),
            ConnectionId { place, number },
        ) {
            Ok(serving) => {
                let on = Connected {
                    turn,
                    serving,
                    input,
                    output,
                    clock,
                    number,
                    begun,
                };
                Stage::Served(ServedClient { on })
            }
            Err(gate) => Stage::Ended(EndedClient {
                turn,
                gate,
                connection: Connection {
                    input,
                    output,
                    clock,
                },
                number,
                begun,
                // Refused: the identifier that it may be assigned.
                result: Err(ServeFault::NoMemory),
                packets: 0,
            }),
        }
    }
}

impl<T: Turn + Drop, G: LineGate + Drop> Connected<T, G> {
    /// Its connection has ended so.
    fn end(self, ended: Result<Served, ServeFault>) -> EndedClient<T, G>
        requires { WasServed G.Name.limit G.most (place_of T.connections G.shared self.begun) self.number (T.connections self.turn)
            (record {
              unread = T.In.remaining (inner_of self.input);
              written = T.Out.contents (inner_of self.output);
              moments = T.Time.moments self.clock;
            }) (counted_view G.stands G.mark G.pending (gate_of (session_of self.serving))) ended (failures_of self.input) (failures_of self.output) }
        ensures { result ≡ self.begun }
    {
        let Connected {
            turn,
            serving,
            input,
            output,
            clock,
            number,
            begun,
        } = self;
        let (gate, packets) = serving.into_parts();
        EndedClient {
            turn,
            gate,
            connection: Connection {
                input,
                output,
                clock,
            },
            number,
            begun,
            result: ended,
            packets,
        }
    }
}

impl<T: Turn + Drop, G: LineGate + Drop> ServedClient<T, G> {
    /// What its connection is read from.
    pub(crate) fn input(&self) -> &T::In {
        self.on.input.inner()
    }

    /// Writes out what waits for it. False if that failed.
    pub(crate) fn write_out<W: Watch<T::In>>(self, watch: &W) -> (ServedClient<T, G>, bool)
        ensures { result.0 ≡ self }
    {
        let Connected {
            turn,
            serving,
            input,
            output,
            clock,
            number,
            begun,
        } = self.on;
        let (input, is_written) = watch.write_out(input.into_inner());
        let on = Connected {
            turn,
            serving,
            input: Counted::new(input),
            output,
            clock,
            number,
            begun,
        };
        (ServedClient { on }, is_written)
    }

    /// Reads once, and announces the changes of what is whole then.
    pub(crate) fn read(self, alloc: Global) -> Stage<T, G>
        ensures same { begun_of result ≡ self }
        ensures follows { IsReadOrEnded result }
    {
        let ServedClient { mut on } = self;
        match on.serving.read(alloc, &mut on.input, &mut on.clock) {
            None => Stage::Read(ReadClient { on }),
            Some(ended) => Stage::Ended(on.end(ended)),
        }
    }
}

impl<T: Turn + Drop, G: LineGate + Drop> ReadClient<T, G> {
    /// Whether changes of what was read were announced, and are not submitted yet.
    pub(crate) fn has_pending(&self) -> bool {
        self.on.serving.has_pending()
    }

    /// Handles what was read, and waits for the writer if that has changes.
    pub(crate) fn handle<H: Wait>(self, rt: &H, alloc: Global) -> Stage<T, G>
        ensures same { begun_of result ≡ self }
        ensures follows { IsServedOrEnded result }
    {
        let ReadClient { mut on } = self;
        match on.serving.handle(rt, alloc, &mut on.output, &mut on.clock) {
            None => Stage::Served(ServedClient { on }),
            Some(ended) => Stage::Ended(on.end(ended)),
        }
    }
}

/// The gate, which is handed on, and what it refused.
fn handed_on<G: LineGate>(counted: CountedGate<G>) -> (G, Refusals)
    ensures known { (G.shared result.0).known ≡ (G.shared (counted_gate counted)).known }
    ensures mark { (tail : List Entry) × HandsOn (G.shared (counted_gate counted)).mark tail (G.shared result.0).mark
        × (operations_of tail ≡ (G.shared (counted_gate counted)).pending) }
    ensures pending { (G.shared result.0).pending ≡ [] }
{
    let (mut gate, refusals) = counted.into_parts();
    gate.hand_on();
    (gate, refusals)
}

impl<T: Turn + Drop, G: LineGate + Drop> EndedClient<T, G> {
    /// Hands the gate on, and gives the connection back to the turn, with a token of what its gate knows then.
    pub(crate) fn give_back(self) -> FreeClient<T, G>
        ensures { result ≡ self }
    {
        let EndedClient {
            mut turn,
            gate,
            connection,
            number,
            begun,
            result,
            packets,
        } = self;
        let (gate, refusals) = handed_on(gate);
        let line = gate.place();
        let told = gate.told();
        turn.end(
            EndedConnection {
                connection,
                served: result,
                tally: Tally { packets, refusals },
                place: line,
                number,
            },
            &told,
        );
        FreeClient {
            turn,
            gate,
            number: number.saturating_add(1),
            begun,
        }
    }
}

impl<T: Turn + Drop, G: LineGate + Drop> DoneClient<T, G> {
    /// What is left of it.
    pub(crate) fn into_end(self) -> PlaceEnd<G::Name, G::End, T>
        ensures { IsPlaceServed G.Name.limit (place_of T.connections G.shared self)
            (left_at (T.connections result.turn) result.told (G.closed result.line)) }
    {
        let DoneClient {
            turn,
            told,
            line,
            begun: _,
        } = self;
        PlaceEnd { line, told, turn }
    }
}
