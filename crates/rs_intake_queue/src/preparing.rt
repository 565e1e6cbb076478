//! Entries that are made to be sent as one job.

ghost use Rattle.std.specs.Prelude.{◌≡◌, ◌+◌, ◌<◌, ◌≤◌, ◌^◌, ◌∷◌, [], length, false, IfSome};
ghost use Rattle.std.specs.List.{AllByRecursion};
ghost use Rattle.rs_message.specs.Messages.{is_sweep};
ghost use Rattle.rs_message.specs.declared.entry.TheConstants.{MAX_LINES};
ghost use Rattle.rs_intake_queue.specs.Changes.{entry_at, numbered};
ghost use Rattle.rs_intake_queue.specs.declared.job.TheConstants.{MAX_CHANGES};

use crate::job::Changes;
use crate::room::has_room;
use rs_message::{Entry, Operation, Origin};
use std::alloc::Global;
use std::collections::VecDeque;

/// The entries of this place that do this one after the other, under the serials behind this one. `None` if there are no such serials,
/// or memory is refused.
fn number_entries(
    alloc: Global,
    place: u16,
    serial: u64,
    operations: Vec<Operation>,
) -> Option<Vec<Entry>>
    requires { (0 < place) × (place ≤ MAX_LINES) }
    ensures entries { IfSome result (λ es. es.items ≡ numbered place serial operations.items) }
    ensures small { IfSome result (λ es. serial + length es.items < 2 ^ 64) }
{
    let mut entries = Vec::with_capacity(alloc, operations.len()).ok()?;
    let mut last = serial;
    for operation in operations {
        last = last.checked_add(1)?;
        let origin = Origin::of_line(place, last)?;
        entries.push(Entry { origin, operation }).ok()?;
    }
    Some(entries)
}

/// Equal entries, which share the bytes. `None` if memory is refused.
fn copies(alloc: Global, entries: &Vec<Entry>) -> Option<Vec<Entry>>
    ensures { IfSome result (λ es. es.items ≡ entries.now.items) }
{
    let mut copies = Vec::with_capacity(alloc, entries.len()).ok()?;
    for entry in entries.iter() {
        copies.push(entry.copy().ok()?).ok()?;
    }
    Some(copies)
}

/// The entries of this place that do this under the serials behind this one, as one job, and a copy of them. `None` if no serials are left
/// for all, or memory is refused or short.
pub fn prepare(
    alloc: Global,
    place: u16,
    serial: u64,
    operations: Vec<Operation>,
) -> Option<(Changes, VecDeque<Entry>)>
    requires place { (0 < place) × (place ≤ MAX_LINES) }
    requires plain { AllByRecursion (λ o. is_sweep o ≡ false) operations.items }
    requires some { 0 < length operations.items }
    requires few { length operations.items ≤ MAX_CHANGES }
    ensures job { IfSome result (λ r. r.0 ≡ numbered place serial operations.items) }
    ensures ahead { IfSome result (λ r. r.1.items ≡ numbered place serial operations.items) }
    ensures small { IfSome result (λ r. serial + length r.1.items < 2 ^ 64) }
{
    if !has_room(alloc) {
        return None;
    }
    let entries = number_entries(alloc, place, serial, operations)?;
    let job = copies(alloc, &entries)?;
    Some((Changes::new(job), VecDeque::from_vec(entries)))
}

/// Whether the entry stores a message.
fn is_set(entry: &Entry) -> bool {
    match &entry.operation {
        Operation::Set(_) => true,
        Operation::Clear(_) | Operation::Sweep(_) => false,
    }
}

/// This entry alone, as a job, which takes no memory. `None` if memory is short and the entry takes more of it.
pub fn prepare_one(alloc: Global, entry: Entry) -> Option<Changes>
    requires plain { is_sweep entry.operation ≡ false }
    requires place { 0 < entry.origin.place }
    ensures { IfSome result (λ changes. changes ≡ entry ∷ []) }
{
    if is_set(&entry) && !has_room(alloc) {
        return None;
    }
    Some(Changes::one(entry))
}

/// The entry of this place that does this under the serial behind this one, as a job, and a copy of it. `None` if there is no such serial,
/// or as [`prepare_one`] has it, or if the count of owners of its bytes is full.
pub fn prepare_next(
    alloc: Global,
    place: u16,
    serial: u64,
    operation: Operation,
) -> Option<(Changes, Entry)>
    requires place { (0 < place) × (place ≤ MAX_LINES) }
    requires plain { is_sweep operation ≡ false }
    ensures job { IfSome result (λ r. r.0 ≡ r.1 ∷ []) }
    ensures ahead { IfSome result (λ r. r.1 ≡ entry_at place (serial + 1) operation) }
    ensures small { IfSome result (λ r. serial + 1 < 2 ^ 64) }
{
    let origin = Origin::of_line(place, serial.checked_add(1)?)?;
    let entry = Entry { origin, operation };
    let copy = entry.copy().ok()?;
    Some((prepare_one(alloc, copy)?, entry))
}
