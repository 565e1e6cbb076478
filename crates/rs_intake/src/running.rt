//! The writer's loop over the queue. It stands apart from [`JobWriter`], whose fields it cannot see, so all that it can do with one is to
//! let it make its steps.

ghost use Rattle.std.specs.Prelude.{◌≡◌, ◌+◌, ◌≤◌, ◌++◌, [], length, map, take};
ghost use Rattle.rs_version.specs.Copies.{listed};
ghost use Rattle.rs_version.specs.First.{AreOwn};
ghost use Rattle.rs_version.specs.Writer.{kept_of};
ghost use Rattle.rs_intake_line.specs.Done.{IsWritten};
ghost use Rattle.rs_intake.specs.Causes.{IsCause};
ghost use Rattle.rs_intake_queue.specs.Parts.{IsPart};
ghost use Rattle.rs_intake.specs.Settling.{AreOfPlaces};
ghost use Rattle.rs_intake_line.specs.Sweeps.{AreForEntries, without_sweeps};

use crate::writer::{Ended, JobWriter, Queue};
use rs_intake_line::LineName;
use rs_version::StoreWriter;
use std::sync::Wait;

/// Puts the changes of each job that it takes, one after the other, and sends the job's line a reply to each. Behind a change
/// that is held the others of its job are refused, or held, too. It ends when ([`Cause`])
///
/// - each place has ended,
/// - the receive of a job fails, or
/// - it has taken so many entries that one more job could have more than can be counted.
///
/// Then it tries once more to publish a held entry, of which no clause speaks. The writer kept nothing yet but what its store began with.
///
/// The contract says what became of each entry that was asked for (`done`). It makes no difference which of them came in one job. There
/// is one outcome for each entry that was taken, in their order. After a receipt, or if the entry is held, the kept list is
/// the one before, then the Sweep that the entry needs, if it needs one, then the entry. After a full store the list is the same, and the
/// entry may not come. If memory was refused, the list is the same, or has the Sweep that the entry needs. So what the writer keeps,
/// without its Sweeps, is what it began with, and then the entries that were not refused, in their order (`IsWritten`), and each Sweep is
/// the one that one of these entries needed there (`sweeps`). By the way back to each place, the replies to its entries were sent, in their order: all of them,
/// unless a send failed, and then a prefix. No entry is of a place beyond 1 to the number of places (`placed`).
pub fn run_writer<N: LineName, S: StoreWriter<N>, W: Wait>(
    rt: &W,
    queue: Queue<N>,
    writer: S,
) -> Ended<N, S>
    requires own { AreOwn (kept_of (S.written writer)) }
    requires ready { S.ready writer ≡ [] }
    ensures part { IsPart (without_sweeps (kept_of (S.written result.writer))) (kept_of (S.written writer) ++ result.received.entries) }
    ensures placed { AreOfPlaces N.places result.received.entries }
    ensures taken { result.taken ≡ length result.received.entries }
    ensures refused { length (without_sweeps (kept_of (S.written result.writer))) + result.refused ≡ result.taken + length (kept_of (S.written writer)) }
    ensures sweeps { AreForEntries N.limit result.received.entries (kept_of (S.written result.writer)) }
    ensures held { listed result.held ≡ take 1 (map (λ e. e.origin) (S.written result.writer).held) }
    ensures few { length (S.written result.writer).held ≤ S.most_held }
    ensures idle { S.ready result.writer ≡ [] }
    ensures done { IsWritten N.limit N.places (kept_of (S.written writer)) result.received.entries (kept_of (S.written result.writer)) result.ways.items }
    ensures cause { IsCause N.places u64.MAX result.received result.cause }
{
    run_writer_for(rt, queue, writer, u64::MAX)
}

/// The same, but it ends once at least `most` entries were taken, too. Then the queue is dropped, and with it the jobs that wait there.
pub fn run_writer_for<N: LineName, S: StoreWriter<N>, W: Wait>(
    rt: &W,
    queue: Queue<N>,
    writer: S,
    most: u64,
) -> Ended<N, S>
    requires own { AreOwn (kept_of (S.written writer)) }
    requires ready { S.ready writer ≡ [] }
    ensures part { IsPart (without_sweeps (kept_of (S.written result.writer))) (kept_of (S.written writer) ++ result.received.entries) }
    ensures placed { AreOfPlaces N.places result.received.entries }
    ensures taken { result.taken ≡ length result.received.entries }
    ensures refused { length (without_sweeps (kept_of (S.written result.writer))) + result.refused ≡ result.taken + length (kept_of (S.written writer)) }
    ensures sweeps { AreForEntries N.limit result.received.entries (kept_of (S.written result.writer)) }
    ensures held { listed result.held ≡ take 1 (map (λ e. e.origin) (S.written result.writer).held) }
    ensures few { length (S.written result.writer).held ≤ S.most_held }
    ensures idle { S.ready result.writer ≡ [] }
    ensures done { IsWritten N.limit N.places (kept_of (S.written writer)) result.received.entries (kept_of (S.written result.writer)) result.ways.items }
    ensures cause { IsCause N.places most result.received result.cause }
{
    let mut writer = JobWriter::new(queue, writer);
    for _step in rt.forever() {
        if let Some(cause) = writer.step(rt, most) {
            return writer.end(cause);
        }
    }
    unreachable!()
}
