//! Entries that are kept, and published then.

ghost use Rattle.std.specs.Prelude.{◌≡◌, ◌⊎◌, ◌++◌, ◌∷◌, ◌+◌, ◌<◌, ◌≤◌, [], length, drop, IfOk, OnErr, OnOk};
ghost use Rattle.rs_store.specs.History.{IsLegal};
ghost use Rattle.rs_version.specs.Writer.{kept_of};
ghost use Rattle.rs_journal_writer.specs.State.{Moves};

use rs_message::Entry;
use rs_version::{PutFault, Receipt, StoreName, VersionWriter};
use std::alloc::AllocError;
use std::collections::VecDeque;
use std::sync::Wait;

/// Publishes this entry, which is the first of those that wait. If memory is refused, it is still the first, or the writer holds it.
pub fn publish_next<N: StoreName, R: Wait + Drop>(
    writer: &mut VersionWriter<N, R>,
    waiting: &mut VecDeque<Entry>,
    entry: Entry,
) -> Result<Receipt<N>, AllocError>
    requires next { waiting.old.items ≡ entry ∷ drop 1 waiting.old.items }
    requires legal { IsLegal N.limit (kept_of writer.old ++ waiting.old.items) }
    ensures moved { Moves writer.old waiting.old.items writer.new waiting.new.items }
    ensures none { OnOk result (writer.new.held ≡ []) }
    ensures first { IfOk result (λ r. waiting.old.items ≡ r.entry ∷ waiting.new.items) }
    ensures number { IfOk result (λ r. r.number ≡ length writer.new.published) }
    ensures told { IfOk result (λ r. r.told ≡ writer.new.published) }
    ensures refused { OnErr result ((waiting.new.items ≡ waiting.old.items)
        ⊎ ((length writer.new.held ≡ 1) × (length waiting.new.items + 1 ≡ length waiting.old.items))) }
{
    match writer.follow(entry) {
        Ok(receipt) => {
            drop(waiting.pop_front());
            Ok(receipt)
        }
        Err(PutFault::Held) => {
            // The writer has it now.
            drop(waiting.pop_front());
            Err(AllocError)
        }
        Err(_) => Err(AllocError),
    }
}

/// Publishes a copy of the first of the entries that wait, as [`publish_next`] does.
pub fn publish_first<N: StoreName, R: Wait + Drop>(
    writer: &mut VersionWriter<N, R>,
    waiting: &mut VecDeque<Entry>,
) -> Result<Receipt<N>, AllocError>
    requires some { 0 < length waiting.old.items }
    requires legal { IsLegal N.limit (kept_of writer.old ++ waiting.old.items) }
    ensures moved { Moves writer.old waiting.old.items writer.new waiting.new.items }
    ensures none { OnOk result (writer.new.held ≡ []) }
    ensures first { IfOk result (λ r. waiting.old.items ≡ r.entry ∷ waiting.new.items) }
    ensures number { IfOk result (λ r. r.number ≡ length writer.new.published) }
    ensures told { IfOk result (λ r. r.told ≡ writer.new.published) }
    ensures refused { OnErr result ((waiting.new.items ≡ waiting.old.items)
        ⊎ ((length writer.new.held ≡ 1) × (length waiting.new.items + 1 ≡ length waiting.old.items))) }
{
    let Some(first) = waiting.front() else {
        unreachable!()
    };
    let entry = first.copy()?;
    publish_next(writer, waiting, entry)
}

/// Publishes what the writer holds, and then the entries that wait, from the first on, all but the last `ready`.
pub fn publish_held<N: StoreName, R: Wait + Drop>(
    writer: &mut VersionWriter<N, R>,
    waiting: &mut VecDeque<Entry>,
    ready: usize,
) -> Result<(), AllocError>
    requires counted { ready ≤ length waiting.old.items }
    requires legal { IsLegal N.limit (kept_of writer.old ++ waiting.old.items) }
    ensures moved { Moves writer.old waiting.old.items writer.new waiting.new.items }
    ensures counted { ready ≤ length waiting.new.items }
    ensures published { OnOk result ((writer.new.held ≡ []) × (length waiting.new.items ≡ ready)) }
    ensures refused { OnErr result (ready < length writer.new.held + length waiting.new.items) }
{
    drop(writer.retry()?);
    while waiting.len() > ready {
        drop(publish_first(writer, waiting)?);
    }
    Ok(())
}
