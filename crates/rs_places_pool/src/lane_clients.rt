//! The clients of a lane of which its threads know.

ghost use Rattle.std.specs.Prelude.{◌≤◌, length};
ghost use Rattle.rs_places_pool.specs.ClientQueue.{clients_of};

use crate::client_queue::ClientQueue;
use std::alloc::{AllocError, Global};

/// The numbers of the clients of which a lane's threads were told, or which were read there and are to be served. Each queue has room for all
/// clients, since those that take a connection may be read in any lane.
#[derive(Drop)]
pub(crate) struct LaneClients {
    // Those that have something to do, and were not read yet.
    told: ClientQueue,
    // Those that were read and have changes, while others of which a thread was told with them are read.
    changed: ClientQueue,
    // Those that were read and have no changes. Each is served at once.
    alone: ClientQueue,
    // Those that were read and have changes. They are served together.
    together: ClientQueue,
    // Of these the first so many have the writer's replies, or soon will: one that was read after them was served.
    replied: usize,
    // Whether a thread serves those that have changes.
    is_served: bool,
    ghost few: { replied ≤ length (clients_of together) },
}

impl LaneClients {
    ghost use Rattle.std.specs.Prelude.{◌≡◌, ◌≢◌, ◌++◌, ◌∷◌, [], ◌<◌, ◌||◌, ◌⊎◌, true, false, if◌then◌else◌, Decides, IfNone, IfOk, IsTrue, option_to_list};
    ghost use Rattle.rs_places_pool.specs.ClientQueue.{room_of, stands_of};
    ghost use Rattle.rs_places_pool.specs.LaneClients.{HasRoom, IsNextTogether, IsNextTold, alone_of, changed_of, together_of, told_of};

    /// There are none yet. There is room for so many.
    pub(crate) fn new(alloc: Global, clients: usize) -> Result<LaneClients, AllocError>
        ensures told { IfOk result (λ lane. told_of lane ≡ []) }
        ensures changed { IfOk result (λ lane. changed_of lane ≡ []) }
        ensures alone { IfOk result (λ lane. alone_of lane ≡ []) }
        ensures together { IfOk result (λ lane. together_of lane ≡ []) }
        ensures served { IfOk result (λ lane. lane.is_served ≡ false) }
        ensures room { IfOk result (HasRoom clients) }
    {
        Ok(LaneClients {
            told: ClientQueue::new(alloc, clients)?,
            changed: ClientQueue::new(alloc, clients)?,
            alone: ClientQueue::new(alloc, clients)?,
            together: ClientQueue::new(alloc, clients)?,
            replied: 0,
            is_served: false,
        })
    }

    /// This client has something to do, and is to be read. False if there is no room.
    pub(crate) fn add_told(&mut self, number: usize) -> bool
        ensures told { told_of self.new ≡ (if result then told_of self.old ++ number ∷ [] else told_of self.old) }
        ensures succeeds { length (told_of self.old) < room_of self.old.told → IsTrue result }
        ensures changed { self.new.changed ≡ self.old.changed }
        ensures alone { self.new.alone ≡ self.old.alone }
        ensures together { self.new.together ≡ self.old.together }
    {
        self.told.add(number)
    }

    /// The next client that is to be read. Once it is the last, those that have changes may be served: whoever reads it may be held up by that.
    pub(crate) fn next_told(&mut self) -> Option<usize>
        ensures { IsNextTold self.old result self.new }
    {
        let next = self.told.take_first();
        if self.told.is_empty() {
            let _ = self.together.append(&mut self.changed);
        }
        next
    }

    /// This client was read, has changes, and is to be served with those that are read next. False if there is no room.
    pub(crate) fn add_changed(&mut self, number: usize) -> bool
        ensures changed { changed_of self.new ≡ (if result then changed_of self.old ++ number ∷ [] else changed_of self.old) }
        ensures succeeds { length (changed_of self.old) < room_of self.old.changed → IsTrue result }
        ensures told { self.new.told ≡ self.old.told }
        ensures alone { self.new.alone ≡ self.old.alone }
        ensures together { self.new.together ≡ self.old.together }
    {
        self.changed.add(number)
    }

    /// This client was read, has no changes, and is to be served. False if there is no room.
    pub(crate) fn add_alone(&mut self, number: usize) -> bool
        ensures alone { alone_of self.new ≡ (if result then alone_of self.old ++ number ∷ [] else alone_of self.old) }
        ensures succeeds { length (alone_of self.old) < room_of self.old.alone → IsTrue result }
        ensures told { self.new.told ≡ self.old.told }
        ensures changed { self.new.changed ≡ self.old.changed }
        ensures together { self.new.together ≡ self.old.together }
    {
        self.alone.add(number)
    }

    /// The next client that has no changes.
    pub(crate) fn next_alone(&mut self) -> Option<usize>
        ensures alone { alone_of self.old ≡ option_to_list result ++ alone_of self.new }
        ensures none { IfNone result (alone_of self.old ≡ []) }
        ensures told { self.new.told ≡ self.old.told }
        ensures changed { self.new.changed ≡ self.old.changed }
        ensures together { self.new.together ≡ self.old.together }
    {
        self.alone.take_first()
    }

    /// The next client that has changes. If there is none, the thread that asks serves such no more.
    ///
    /// The writer replies to the changes in the order in which the clients were read. So the last client is served first: once its replies
    /// have come, those of all before it have too. They follow in their order, and the thread that serves them sleeps once for all.
    pub(crate) fn next_together(&mut self) -> Option<usize>
        ensures next { IsNextTogether self.old result self.new }
        ensures told { self.new.told ≡ self.old.told }
        ensures changed { self.new.changed ≡ self.old.changed }
        ensures alone { self.new.alone ≡ self.old.alone }
    {
        if self.replied > 0 {
            self.replied -= 1;
            return self.together.take_first();
        }
        let Some(next) = self.together.take_last() else {
            self.is_served = false;
            return None;
        };
        self.replied = self.together.len();
        Some(next)
    }

    /// Whether there are clients that have changes, and no thread serves them.
    pub(crate) fn is_unserved(&self) -> bool
        ensures { Decides result ((self.now.is_served ≡ false) × (together_of self.now ≢ [])) }
    {
        !self.is_served && !self.together.is_empty()
    }

    /// Whether there are clients that have changes, and no thread serves them. Then the thread that asks does from now on.
    pub(crate) fn begins_to_serve(&mut self) -> bool
        ensures begins { Decides result ((self.old.is_served ≡ false) × (together_of self.old ≢ [])) }
        ensures served { self.new ≡ record self.old { is_served = self.old.is_served || result } }
    {
        if !self.is_unserved() {
            return false;
        }
        self.is_served = true;
        true
    }

    /// Another thread may serve the clients that have changes from now on.
    pub(crate) fn leave(&mut self)
        ensures { self.new ≡ record self.old { is_served = false } }
    {
        self.is_served = false;
    }

    /// Whether there are clients that a thread is to serve which does nothing else.
    pub(crate) fn has_more(&self) -> bool
        ensures { Decides result ((alone_of self.now ≢ []) ⊎ ((self.now.is_served ≡ false) × (together_of self.now ≢ []))) }
    {
        !self.alone.is_empty() || self.is_unserved()
    }

    /// Whether in one of the queues some waited at the last look, and none was taken since. This look is the last one then.
    pub(crate) fn look(&mut self) -> bool
        ensures stood { result ≡ stands_of self.old.told || stands_of self.old.alone || stands_of self.old.together }
        ensures told { Decides (stands_of self.new.told) (told_of self.old ≢ []) }
        ensures alone { Decides (stands_of self.new.alone) (alone_of self.old ≢ []) }
        ensures together { Decides (stands_of self.new.together) (together_of self.old ≢ []) }
    {
        let told = self.told.look();
        let alone = self.alone.look();
        let together = self.together.look();
        told || alone || together
    }
}
