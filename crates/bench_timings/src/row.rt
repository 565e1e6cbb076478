//! Entries of topics in a row, which are made before they are added and timed.

ghost use Rattle.std.specs.Prelude.{◌≡◌, ◌<◌, ◌^◌, false, IfOk};
ghost use Rattle.rs_message.specs.Messages.{is_sweep};

use kit_test::{Change, Failure, Keeper, Naming, Outcome, check, entry};
use rs_message::Entry;
use std::alloc::Global;
use std::rt::Clock;
use std::time::{Duration, Instant};

/// A prime that divides no number of topics that are in no order.
const STEP: u64 = 7919;

/// The messages that come at 0 are expired at this moment if their index in the row is even.
pub const EARLY: u64 = 1_000_000;

/// Sets whose messages come at this moment: those at even indices are expired before the others.
pub fn expiring(received: u64) -> (Change, Change) {
    let early = EARLY as u32;
    (
        Change::Set(received, Some(early)),
        Change::Set(received, Some(2 * early)),
    )
}

/// Entries, each at an index: from the index `from` on, and before the index `to`.
#[derive(Clone, Copy)]
pub struct Row {
    pub naming: Naming,
    /// The serial at index 0, whether the row has it or not.
    pub serial: u64,
    pub from: u32,
    pub to: u32,
    /// So many topics are in no order. 0 if they are in order.
    pub among: u32,
    /// What each does whose index is even, and what each other one.
    pub changes: (Change, Change),
    /// How each must be answered.
    pub wanted: Outcome,
}

/// Sets of so many topics in their order, whose messages are never expired.
pub fn in_order(naming: Naming, topics: u32) -> Row {
    let set = Change::Set(0, None);
    Row {
        naming,
        serial: 1,
        from: 0,
        to: topics,
        among: 0,
        changes: (set, set),
        wanted: Outcome::Kept,
    }
}

impl Row {
    /// The number of the topic that stands at this index.
    fn number(&self, at: u32) -> u64 {
        match u64::from(self.among) {
            0 => u64::from(at),
            among => u64::from(at) * STEP % among,
        }
    }

    /// The entry that stands at this index.
    fn entry(&self, alloc: Global, at: u32) -> Result<Entry, Failure>
        ensures { IfOk result (λ e. is_sweep e.operation ≡ false) }
    {
        let serial = self.serial.wrapping_add(u64::from(at));
        let (even, odd) = self.changes;
        let change = if at % 2 == 0 { even } else { odd };
        entry(alloc, self.naming, serial, self.number(at), change)
    }

    fn entries(&self, alloc: Global) -> Result<Vec<Entry>, Failure> {
        let mut entries = Vec::new(alloc);
        for at in self.from..self.to {
            entries.push(self.entry(alloc, at)?)?;
        }
        Ok(entries)
    }
}

/// So many nanoseconds.
pub fn nanos(took: Duration) -> u64 {
    took.as_secs()
        .saturating_mul(1_000_000_000)
        .saturating_add(u64::from(took.subsec_nanos()))
}

/// Whether this becomes of the entry, which is no Sweep.
fn has_outcome<K: Keeper>(keeper: &mut K, entry: Entry, wanted: Outcome) -> bool {
    !entry.operation.is_sweep() && keeper.add(entry).is(wanted)
}

/// Adds one entry after the other. Between two, the next is made.
pub fn fill<K: Keeper>(alloc: Global, keeper: &mut K, row: &Row) -> Result<(), Failure> {
    for at in row.from..row.to {
        let entry = row.entry(alloc, at)?;
        check(keeper.add(entry).is(row.wanted))?;
    }
    Ok(())
}

/// Adds all entries. How long that took.
pub fn timed<K: Keeper, C: Clock>(
    clock: &C,
    alloc: Global,
    keeper: &mut K,
    row: &Row,
) -> Result<u64, Failure> {
    let entries = row.entries(alloc)?;
    let mut is_right = true;
    let start = Instant::now(clock)?;
    for entry in entries {
        is_right &= has_outcome(keeper, entry, row.wanted);
    }
    let took = start.elapsed(clock)?;
    check(is_right)?;
    Ok(nanos(took))
}
