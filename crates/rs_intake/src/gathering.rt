//! Taking jobs that are put together.

ghost use Rattle.std.specs.Prelude.{◌≡◌, ◌+◌, ◌<◌, ◌≤◌, ◌^◌, ◌++◌, List, length, IfOk, MatchResult};
ghost use Rattle.std.specs.List.{AllByRecursion};
ghost use Rattle.crossbeam_channel.specs.Ends.{receives_on};
ghost use Rattle.rs_store.specs.History.{SerialsRise};
ghost use Rattle.rs_intake_line.specs.Names.{IsQueue};
ghost use Rattle.rs_intake_queue.specs.QueueRule.{AreEnds, IsPlaced, ends_of, entries_of};
ghost use Rattle.rs_intake_queue.specs.declared.job.TheConstants.{MAX_CHANGES};
ghost use Rattle.rs_intake.specs.declared.together.TheConstants.{MAX_TOGETHER};

use crate::taken::Taken;
use crate::together::Gathered;
use crate::writer::has_most;
use rs_intake_line::LineName;
use rs_intake_queue::{Gone, JobReceiver, Patience};
use std::alloc::Global;
use std::sync::Wait;

/// Waits for the oldest job, and takes it. Then it takes those that are there behind it, and waits for none, until
///
/// - one is an End, or memory for it is refused,
/// - they could have more than [`MAX_TOGETHER`](crate::MAX_TOGETHER) changes with one more, or
/// - at least `most` entries were taken with the `taken` ones before, or so many that one more job could have more than can be counted.
///
/// [`Gone`] if the receive of the first failed.
pub fn gather<N: LineName, R: Wait>(
    rt: &R,
    alloc: Global,
    received: &mut Taken<N>,
    from: &JobReceiver,
    patience: &mut Patience,
    taken: u64,
    most: u64,
) -> Result<Gathered<N>, Gone>
    requires queue { IsQueue N.queue (receives_on from.now) }
    requires few { taken + MAX_CHANGES < 2 ^ 64 }
    ensures taken { MatchResult result
        (λ g. (received.new.entries ≡ received.old.entries ++ entries_of g.jobs) × SerialsRise received.new.entries)
        (λ _. received.new ≡ received.old) }
    ensures ended { IfOk result (λ g. (received.new.ends ≡ received.old.ends ++ ends_of g.jobs) × AreEnds N.places received.new.ends) }
    ensures placed { IfOk result (λ g. AllByRecursion (IsPlaced N.places) g.jobs) }
    ensures some { IfOk result (λ g. 0 < length g.jobs) }
    ensures few { IfOk result (λ g. length (entries_of g.jobs) ≤ MAX_TOGETHER) }
    ensures counted { IfOk result (λ g. taken + length (entries_of g.jobs) < 2 ^ 64) }
{
    let first = match received.next(rt, from, patience) {
        Ok(job) => job,
        Err(gone) => return Err(gone),
    };
    let mut jobs = Gathered::new(alloc);
    jobs.add(first);
    for _ in rt.forever() {
        if !jobs.has_room() || has_most(taken + jobs.len() as u64, most) {
            return Ok(jobs);
        }
        let Some(job) = received.next_if_any(rt, from) else {
            return Ok(jobs);
        };
        jobs.add(job);
    }
    unreachable!()
}
