//! The connections of one client.

ghost use Rattle.rs_server.specs.Counts.{failures_of, inner_of};
ghost use Rattle.rs_places_steps.specs.Ended.{ending_of};
ghost use Rattle.rs_places_steps.specs.Turns.{TakesBack, none_given};

use crate::close_reason::CloseReason;
use crate::full_log::FullLog;
use crate::packet_output::PacketOutput;
use crate::refused::Refused;
use log::{Log, info};
use rs_metrics::Meter;
use rs_places_steps::{Connection, EndedConnection, Turn};
use rs_server::Tally;
use rs_tcp_sockets::{Accepted, FromClient, Listener, SystemClock, ToClient, abandon, close};
use rs_version::{StoreName, Told};
use std::alloc::Global;
use std::fmt;
use std::fmt::{Display, Formatter};
use std::io::{Read, Write};
use std::mem::replace;
use std::net::SocketAddr;
use std::sync::Arc;
use std::time::Clock;

/// The system's time. It is asked once for each packet: it counts that, and looks whether the log has to tell of a full store.
#[derive(Drop)]
pub struct ConnectionClock<H: Clock> {
    rt: H,
    clock: SystemClock,
    // None if it has too many owners.
    full: Option<Arc<FullLog>>,
    meter: Meter,
}

/// The word by which the log calls a client, before its number.
#[derive(Clone, Copy)]
pub enum ClientWord {
    /// There are as many places as clients: each client is at a place.
    Place,
    /// There are more clients.
    Client,
}

impl Display for ClientWord {
    fn fmt<W: fmt::Write>(&self, f: &mut Formatter<W>) -> fmt::Result {
        match self {
            ClientWord::Place => write!(f, "place"),
            ClientWord::Client => write!(f, "client"),
        }
    }
}

/// Which connection it is, as the log says.
#[derive(Clone, Copy)]
pub(crate) struct LoggedConnection {
    word: ClientWord,
    line: u16,
    number: u64,
    peer: SocketAddr,
}

impl Display for LoggedConnection {
    fn fmt<W: fmt::Write>(&self, f: &mut Formatter<W>) -> fmt::Result {
        let LoggedConnection {
            word,
            line,
            number,
            peer,
        } = self;
        write!(f, "{word} {line}, connection {number}, {peer}")
    }
}

impl<H: Clock + Log> rs_server::Clock for ConnectionClock<H> {
    /// The time, in whole seconds since 1970.
    fn now(&mut self) -> u64 {
        self.meter.count_packet_in();
        let time = self.clock.now(&self.rt);
        if let Some(full) = &self.full {
            full.update(&self.rt, time);
        }
        time
    }
}

/// The connections of one client, from the listener that all share, and the system's time.
#[derive(Drop)]
pub struct ListenTurn<H: Clock> {
    rt: H,
    alloc: Global,
    listener: Arc<Listener>,
    full: Arc<FullLog>,
    // That of the last connection, so that its last moment stands if the clock cannot be read.
    clock: SystemClock,
    word: ClientWord,
    meter: Meter,
    // The number of the client's line.
    line: u16,
    // That of the last connection that it gave. The first is 1.
    number: u64,
    // The connection that it gave and did not take back.
    given: Option<LoggedConnection>,
}

impl<H: Clock> ListenTurn<H> {
    /// Those of the client of this line, which the log calls by the word. `meter` counts for this line.
    pub fn new(
        rt: H,
        alloc: Global,
        listener: Arc<Listener>,
        full: Arc<FullLog>,
        word: ClientWord,
        meter: Meter,
        line: u16,
    ) -> ListenTurn<H> {
        ListenTurn {
            rt,
            alloc,
            listener,
            full,
            clock: SystemClock::new(),
            word,
            meter,
            line,
            number: 0,
            given: None,
        }
    }
}

impl<H: Clock + Log + Copy + Send> Turn for ListenTurn<H> {
    type In = FromClient;

    type Out = PacketOutput<ToClient>;

    type Time = ConnectionClock<H>;

    /// Waits for the next client. None if all were accepted.
    ///
    /// Before, it takes some memory and gives it back: what the allocator keeps for a thread is there then, even if no memory is left when
    /// the thread's first client comes.
    fn next(
        &mut self,
    ) -> Option<Connection<FromClient, PacketOutput<ToClient>, ConnectionClock<H>>> {
        drop(Vec::<u8>::with_capacity(self.alloc, 1));
        let Accepted {
            input,
            output,
            peer,
        } = self
            .listener
            .accept_counted(&self.rt, self.alloc, &self.meter)?;
        self.meter.count_opened();
        self.number = self.number.saturating_add(1);
        let id = LoggedConnection {
            word: self.word,
            line: self.line,
            number: self.number,
            peer,
        };
        self.given = Some(id);
        let mut clock = replace(&mut self.clock, SystemClock::new());
        let time = clock.now(&self.rt);
        info!(self.rt; target: "rstored", "{time} {id}: connected");
        Some(Connection {
            input,
            output: PacketOutput::new(output, again(&self.meter)),
            clock: ConnectionClock {
                rt: self.rt,
                clock,
                full: Arc::try_clone(&self.full).ok(),
                meter: again(&self.meter),
            },
        })
    }

    /// Closes the connection, as [`abandon`] does if it failed, else as [`close`].
    fn end<N: StoreName>(
        &mut self,
        ended: EndedConnection<FromClient, PacketOutput<ToClient>, ConnectionClock<H>>,
        _told: &Told<N>,
    )
        ensures { TakesBack none_given
            (ending_of (⟦<FromClient as Read>⟧.remaining (inner_of ended.connection.input)) (⟦<PacketOutput<ToClient> as Write>⟧.contents (inner_of ended.connection.output))
            (⟦<ConnectionClock<H> as rs_server::Clock>⟧.moments ended.connection.clock) (failures_of ended.connection.input) (failures_of ended.connection.output) ended.served)
            none_given }
    {
        let EndedConnection {
            connection,
            served,
            tally,
            ..
        } = ended;
        let Connection {
            input,
            output,
            clock,
        } = connection;
        let ConnectionClock {
            rt: _,
            clock,
            full: _full,
            meter: _meter,
        } = clock;
        self.clock = clock;
        let (input, output) = (input.into_inner(), output.into_inner().into_inner());
        let (read, written) = (input.count(), output.count());
        let reason = CloseReason::new(served, input.is_unwritten());
        if reason.is_failed() {
            abandon(input, output);
        } else {
            // The client may have gone.
            let _ = close(&self.rt, input, output);
        }
        self.meter.count_ended(reason.counted());
        let time = self.clock.now(&self.rt);
        self.full.update(&self.rt, time);
        let Tally { packets, refusals } = tally;
        let refused = Refused(refusals);
        if let Some(id) = self.given.take() {
            info!(self.rt; target: "rstored", "{time} {id}: {reason}, {packets} packets, {read} bytes in, {written} bytes out{refused}");
        }
    }
}

/// Another one that counts for the same line. It counts nothing, if the metrics have too many owners.
fn again(meter: &Meter) -> Meter {
    match meter.again() {
        Ok(meter) => meter,
        Err(_) => Meter::none(),
    }
}
