//! A queue of clients, and whether it stands still.

ghost use Rattle.std.specs.Prelude.{◌≡◌, ◌≢◌, ◌++◌, ◌∷◌, [], ◌+◌, ◌<◌, ◌≤◌, false, length, is_some, if◌then◌else◌, Decides, IfNone, IfOk, IsTrue, option_to_list};
ghost use Rattle.rs_places_pool.specs.ClientQueue.{clients_of, room_of, stands_of};

use std::alloc::{AllocError, Global};
use std::collections::VecDeque;

/// The numbers of clients that wait, in their order.
#[derive(Drop)]
pub(crate) struct ClientQueue {
    clients: VecDeque<usize>,
    // Whether some waited at the last look, and none was taken since.
    stands: bool,
}

impl ClientQueue {
    /// None waits yet. There is memory for so many.
    pub(crate) fn new(alloc: Global, clients: usize) -> Result<ClientQueue, AllocError>
        ensures clients { IfOk result (λ queue. clients_of queue ≡ []) }
        ensures stands { IfOk result (λ queue. stands_of queue ≡ false) }
        ensures room { IfOk result (λ queue. clients ≤ room_of queue) }
    {
        Ok(ClientQueue {
            clients: VecDeque::with_capacity(alloc, clients)?,
            stands: false,
        })
    }

    /// How many wait.
    pub(crate) fn len(&self) -> usize
        ensures { result ≡ length (clients_of self.now) }
    {
        self.clients.len()
    }

    /// Whether none waits.
    pub(crate) fn is_empty(&self) -> bool
        ensures { Decides result (clients_of self.now ≡ []) }
    {
        self.clients.is_empty()
    }

    /// This client waits, behind all others. False if there is no room and memory is refused for more.
    pub(crate) fn add(&mut self, client: usize) -> bool
        ensures clients { clients_of self.new ≡ (if result then clients_of self.old ++ client ∷ [] else clients_of self.old) }
        ensures stands { stands_of self.new ≡ stands_of self.old }
        ensures succeeds { length (clients_of self.old) < room_of self.old → IsTrue result }
        ensures room { room_of self.old ≤ room_of self.new }
    {
        self.clients.push_back(client).is_ok()
    }

    /// Takes the first.
    pub(crate) fn take_first(&mut self) -> Option<usize>
        ensures clients { clients_of self.old ≡ option_to_list result ++ clients_of self.new }
        ensures none { IfNone result (clients_of self.old ≡ []) }
        ensures stands { stands_of self.new ≡ (if is_some result then false else stands_of self.old) }
        ensures room { room_of self.new ≡ room_of self.old }
    {
        let first = self.clients.pop_front()?;
        self.stands = false;
        Some(first)
    }

    /// Takes the last.
    pub(crate) fn take_last(&mut self) -> Option<usize>
        ensures clients { clients_of self.old ≡ clients_of self.new ++ option_to_list result }
        ensures none { IfNone result (clients_of self.old ≡ []) }
        ensures stands { stands_of self.new ≡ (if is_some result then false else stands_of self.old) }
        ensures room { room_of self.new ≡ room_of self.old }
    {
        let last = self.clients.pop_back()?;
        self.stands = false;
        Some(last)
    }

    /// Moves all of the other queue behind these. If there is no room for all and memory is refused for more, none, which is false.
    pub(crate) fn append(&mut self, other: &mut ClientQueue) -> bool
        ensures all { clients_of self.new ++ clients_of other.new ≡ clients_of self.old ++ clients_of other.old }
        ensures moved { clients_of other.new ≡ (if result then [] else clients_of other.old) }
        ensures grows { length (clients_of self.old) ≤ length (clients_of self.new) }
        ensures stands { stands_of self.new ≡ stands_of self.old }
        ensures succeeds { length (clients_of self.old) + length (clients_of other.old) ≤ room_of self.old → IsTrue result }
        ensures room { room_of self.old ≤ room_of self.new }
        ensures other_room { room_of other.new ≡ room_of other.old }
    {
        self.clients.append(&mut other.clients).is_ok()
    }

    /// Whether some waited at the last look, and none was taken since. This look is the last one then.
    pub(crate) fn look(&mut self) -> bool
        ensures stood { result ≡ stands_of self.old }
        ensures stands { Decides (stands_of self.new) (clients_of self.old ≢ []) }
        ensures clients { clients_of self.new ≡ clients_of self.old }
        ensures room { room_of self.new ≡ room_of self.old }
    {
        let stood = self.stands;
        self.stands = !self.clients.is_empty();
        stood
    }
}
