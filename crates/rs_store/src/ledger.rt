//! What a catalogue keeps of its entries beside their messages.

ghost use Rattle.std.specs.Prelude.{◌≡◌, ◌-◌, ◌^◌, ◌<◌, length, nat_lt, slice_index, IfOk};
ghost use Rattle.rs_store.specs.Contents.{serial_count};
ghost use Rattle.rs_store.specs.Ledgers.{counted, unused};

use crate::limit::TopicLimit;
use rs_message::{MAX_LINES, Origin};
use std::alloc::{AllocError, Global};
use std::marker::Model;

/// One serial for each line, at its number, and the writer's at 0.
const SERIALS: usize = MAX_LINES as usize + 1;

/// The limit of a catalogue, the last serial of each place and of the writer, and the number of entries. A catalogue is its messages
/// and a ledger. Each call takes constant time, but for `new` and `copy`.
#[derive(Debug, Drop)]
pub struct Ledger {
    limit: TopicLimit,
    // Indexed by place. The writer's is at 0.
    serials: Vec<u64>,
    version: u64,
}

impl Model for Ledger {
    ghost use Rattle.rs_store.specs.Ledgers.{LedgerValue};

    ghost Value = { LedgerValue };

    ghost use Rattle.std.specs.Prelude.{◌≡◌, length};
    ghost use Rattle.rs_store.specs.Contents.{serial_count};

    ghost invariant = { λ l. length l.serials.items ≡ serial_count };

    ghost view = { λ l. record { limit = l.limit; serials = l.serials.items; version = l.version } };
}

impl Ledger {
    /// Of no entry.
    ///
    /// # Errors
    ///
    /// [`AllocError`] if memory is refused.
    pub fn new(alloc: Global, limit: TopicLimit) -> Result<Ledger, AllocError>
        ensures { IfOk result (λ l. l ≡ unused limit) }
    {
        Ok(Ledger {
            limit,
            serials: vec![in alloc; 0u64; SERIALS]?,
            version: 0,
        })
    }

    /// How many topics may hold a message.
    pub fn limit(&self) -> TopicLimit
        ensures { result ≡ self.now.limit }
    {
        self.limit
    }

    /// The number of entries.
    pub fn version(&self) -> u64
        ensures { result ≡ self.now.version }
    {
        self.version
    }

    /// The last serial of a place, or of the writer (place 0), or 0 if it has none.
    pub fn last_serial(&self, place: u16) -> u64
        ensures value { result ≡ slice_index self.now.serials place }
        ensures wide { length self.now.serials ≡ serial_count }
    {
        if (place as usize) < SERIALS {
            return self.serials[place as usize];
        }
        0
    }

    /// Whether the serial is above the last one of its place.
    pub fn is_new(&self, origin: Origin) -> bool
        ensures { result ≡ nat_lt (slice_index self.now.serials origin.place) origin.serial }
    {
        self.last_serial(origin.place()) < origin.serial()
    }

    /// Whether the number of entries is a u64 if there is one more.
    pub fn has_number(&self) -> bool
        ensures { result ≡ nat_lt self.now.version (2 ^ 64 - 1) }
    {
        self.version < u64::MAX
    }

    /// Counts an entry more, of this origin.
    pub fn count(&mut self, origin: Origin)
        requires { self.old.version < 2 ^ 64 - 1 }
        ensures { self.new ≡ counted self.old origin }
    {
        self.serials[origin.place() as usize] = origin.serial();
        self.version += 1;
    }

    /// An equal ledger.
    ///
    /// # Errors
    ///
    /// [`AllocError`] if memory is refused.
    pub fn copy(&self) -> Result<Ledger, AllocError>
        ensures { IfOk result (λ l. l ≡ self.now) }
    {
        Ok(Ledger {
            limit: self.limit,
            serials: self.serials.clone()?,
            version: self.version,
        })
    }
}
