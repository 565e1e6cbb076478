//! The clients that have no connection, and which of them accepts the next one.

ghost use Rattle.std.specs.Prelude.{◌≡◌, ◌≢◌, ◌++◌, ◌∷◌, [], None, Decides, if◌then◌else◌, option_to_list, IfOk};
ghost use Rattle.rs_tcp_sockets.specs.FreeClients.{EndsAccept, IsTold, arrival_of, waiting_of};
ghost use Rattle.rs_tcp_sockets.specs.declared.free_clients.Arrival.TheVariants.{Asked, Unasked};

use std::alloc::{AllocError, Global};

/// How far the next connection is.
#[derive(Clone, Copy, PartialEq, Eq)]
pub(crate) enum Arrival {
    /// The listener is not asked to tell of it.
    Unasked,
    /// The listener is asked, and has not told yet.
    Asked,
    /// The listener has told, and this client accepts it.
    AcceptedBy(usize),
}

/// The clients that wait for a connection. One at a time accepts, and the listener is asked for the next connection only after that. So no
/// client is told of a connection that another takes.
#[derive(Drop)]
pub(crate) struct FreeClients {
    waiting: Vec<usize>,
    arrival: Arrival,
}

impl FreeClients {
    /// None waits yet. There is memory for so many.
    pub(crate) fn new(alloc: Global, clients: usize) -> Result<FreeClients, AllocError>
        ensures waiting { IfOk result (λ free. waiting_of free ≡ []) }
        ensures arrival { IfOk result (λ free. arrival_of free ≡ Arrival.Unasked) }
    {
        Ok(FreeClients {
            waiting: Vec::with_capacity(alloc, clients)?,
            arrival: Arrival::Unasked,
        })
    }

    /// This client waits for a connection from now on. False if memory is refused for that.
    pub(crate) fn add(&mut self, client: usize) -> bool
        ensures waiting { waiting_of self.new ≡ (if result then waiting_of self.old ++ client ∷ [] else waiting_of self.old) }
        ensures arrival { arrival_of self.new ≡ arrival_of self.old }
    {
        self.waiting.push(client).is_ok()
    }

    /// Takes out a client that waits.
    pub(crate) fn take(&mut self) -> Option<usize>
        ensures waiting { waiting_of self.old ≡ waiting_of self.new ++ option_to_list result }
        ensures none_waits { result ≡ None → waiting_of self.new ≡ [] }
        ensures arrival { arrival_of self.new ≡ arrival_of self.old }
    {
        self.waiting.pop()
    }

    /// Whether the listener is to be asked now: it is not asked, none accepts, and one waits.
    pub(crate) fn should_ask(&self) -> bool
        ensures { Decides result ((arrival_of self.now ≡ Arrival.Unasked) × (waiting_of self.now ≢ [])) }
    {
        self.arrival == Arrival::Unasked && !self.waiting.is_empty()
    }

    /// The listener was asked.
    pub(crate) fn ask(&mut self)
        ensures waiting { waiting_of self.new ≡ waiting_of self.old }
        ensures arrival { arrival_of self.new ≡ Arrival.Asked }
    {
        self.arrival = Arrival::Asked;
    }

    /// The listener has told of a connection: the client that accepts it, if one waits.
    pub(crate) fn tell(&mut self) -> Option<usize>
        ensures { IsTold self.old result self.new }
    {
        let client = self.take();
        self.arrival = match client {
            Some(client) => Arrival::AcceptedBy(client),
            None => Arrival::Unasked,
        };
        client
    }

    /// This client does not accept any more, if it did.
    pub(crate) fn end_accept(&mut self, client: usize)
        ensures waiting { waiting_of self.new ≡ waiting_of self.old }
        ensures arrival { EndsAccept client (arrival_of self.old) (arrival_of self.new) }
    {
        if self.arrival == Arrival::AcceptedBy(client) {
            self.arrival = Arrival::Unasked;
        }
    }
}
