//! An answer while it is made.

ghost use Rattle.std.specs.Prelude.{◌≡◌, ◌≤◌, ◌++◌, ◌∷◌, [], length, OnOk, IfErr};
ghost use Rattle.rs_store.specs.Room.{IsStop};
ghost use Rattle.rs_store.specs.declared.answer.Stop.TheVariants.{NoMemory};

use rs_message::Found;
use std::alloc::{AllocError, Global};

/// Why an answer was abandoned.
#[derive(Clone, Copy, Debug, PartialEq, Eq)]
pub enum Stop {
    /// It would have more messages than it may.
    NoRoom,
    /// Out of memory.
    NoMemory,
}

impl From<AllocError> for Stop {
    ghost from_gives = { λ _ stop. stop ≡ NoMemory };

    fn from(_: AllocError) -> Stop {
        Stop::NoMemory
    }
}

/// The messages found so far, and how many there may be.
#[derive(Drop)]
pub struct Answer {
    /// The messages, in the order of replay.
    pub found: Vec<Found>,
    /// How many messages there may be.
    pub room: usize,
    ghost fits: { length found.items ≤ room },
}

impl Answer {
    /// No messages, where so many may be.
    pub fn new(alloc: Global, room: usize) -> Answer
        ensures empty { result.found.items ≡ [] }
        ensures room { result.room ≡ room }
    {
        Answer {
            found: Vec::new(alloc),
            room,
        }
    }

    /// Appends one more owner of a topic and its message.
    pub fn push(&mut self, found: &Found) -> Result<(), Stop>
        ensures done { OnOk result (self.new.found.items ≡ self.old.found.items ++ found.now ∷ []) }
        ensures stop { IfErr result (λ stop. IsStop stop self.old.room (self.old.found.items ++ found.now ∷ [])) }
        ensures room { self.new.room ≡ self.old.room }
    {
        if self.found.len() == self.room {
            return Err(Stop::NoRoom);
        }
        match self.found.push(found.copy()?) {
            Ok(()) => Ok(()),
            Err(_) => Err(Stop::NoMemory),
        }
    }

    /// The messages, which are no more than there was room for.
    pub fn into_found(self) -> Vec<Found>
        ensures found { result.items ≡ self.found.items }
        ensures fits { length result.items ≤ self.room }
    {
        self.found
    }
}
