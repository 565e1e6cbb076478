//! The steps on the queue, each of which keeps its rule.

ghost use Rattle.std.specs.Prelude.{◌≡◌, List, [], true, false, MatchOption, MatchResult};
ghost use Rattle.crossbeam_channel.specs.Claims.{view, IsSeatAt};
ghost use Rattle.crossbeam_channel.specs.Ends.{sends_on, receives_on};
ghost use Rattle.rs_intake_queue.specs.QueueRule.{job_more, IsAbove, IsOf, Takes, one_line_more, new_line, one_line_less, Balances};
ghost use Rattle.rs_intake_queue.specs.declared.job.Job.{Job};

use crate::job::Job;
use crate::rule::{JobReceiver, JobSender, LinePass, PassView, QueueRule, Sending, Taking};
use crate::waiting;
use crate::waiting::{Gone, Patience, receive, receive_if_any};
use crossbeam_channel::Pass;
use std::sync::Wait;

/// Sends a job of the pass's place, which has sent no End. A refused job is dropped.
pub fn send<R: Wait>(
    rt: &R,
    to: &JobSender,
    pass: &mut Pass<Job, PassView>,
    job: Job,
) -> Result<(), Gone>
    requires channel { IsSeatAt (sends_on to.now) pass.old }
    requires sends { ((view pass.old).sends ≡ true) × ((view pass.old).takes ≡ false) × IsOf (view pass.old).from job }
    requires above { IsAbove (view pass.old).entries job }
    requires open { (view pass.old).ends ≡ [] }
    ensures channel { IsSeatAt (sends_on to.now) pass.new }
    ensures sent { MatchResult result (λ _. view pass.new ≡ job_more (view pass.old) job) (λ _. view pass.new ≡ view pass.old) }
{
    waiting::send::<Job, PassView, QueueRule, Sending, R>(rt, to, pass, job)
}

/// Takes the oldest job. [`Gone`] if the receive failed, as it does once all lines and their ends are gone.
pub fn take<R: Wait>(
    rt: &R,
    from: &JobReceiver,
    pass: &mut Pass<Job, PassView>,
    patience: &mut Patience,
) -> Result<Job, Gone>
    requires channel { IsSeatAt (receives_on from.now) pass.old }
    requires takes { ((view pass.old).takes ≡ true) × ((view pass.old).sends ≡ false) }
    ensures channel { IsSeatAt (receives_on from.now) pass.new }
    ensures taken { MatchResult result (λ job. Takes (view pass.old) job (view pass.new)) (λ _. view pass.new ≡ view pass.old) }
{
    receive::<Job, PassView, QueueRule, Taking, R>(rt, from, pass, patience)
}

/// Takes the oldest job, if one is there. It waits for none. `None` also if the receive failed, as the next [`take`] then does, too.
pub fn take_if_any<R: Wait>(
    rt: &R,
    from: &JobReceiver,
    pass: &mut Pass<Job, PassView>,
) -> Option<Job>
    requires channel { IsSeatAt (receives_on from.now) pass.old }
    requires takes { ((view pass.old).takes ≡ true) × ((view pass.old).sends ≡ false) }
    ensures channel { IsSeatAt (receives_on from.now) pass.new }
    ensures taken { MatchOption result (view pass.new ≡ view pass.old) (λ job. Takes (view pass.old) job (view pass.new)) }
{
    receive_if_any::<Job, PassView, QueueRule, Taking, R>(rt, from, pass)
}

/// Cuts the pass of the next place off the writer's.
pub fn cut(to: &JobSender, pass: &mut Pass<Job, PassView>) -> Pass<Job, PassView>
    requires channel { IsSeatAt (sends_on to.now) pass.old }
    requires takes { ((view pass.old).takes ≡ true) × ((view pass.old).sends ≡ false) × ((view pass.old).known ≡ []) }
    ensures channel { IsSeatAt (sends_on to.now) pass.new × IsSeatAt (sends_on to.now) result }
    ensures views { (view pass.new ≡ one_line_more (view pass.old)) × (view result ≡ new_line (view pass.old)) }
{
    to.another::<LinePass>(pass)
}

/// Joins a line's pass to the writer's.
pub fn join(to: &JobSender, pass: &mut Pass<Job, PassView>, line: Pass<Job, PassView>)
    requires channel { IsSeatAt (sends_on to.now) pass.old × IsSeatAt (sends_on to.now) line }
    requires takes { ((view pass.old).takes ≡ true) × ((view pass.old).sends ≡ false) }
    requires sends { (view line).sends ≡ true }
    ensures channel { IsSeatAt (sends_on to.now) pass.new }
    ensures views { view pass.new ≡ one_line_less (view pass.old) (view line) }
{
    to.absorb::<LinePass>(pass, line);
}

/// Compares what was taken with what the ended lines sent, by the rule.
pub fn compare(to: &JobSender, pass: &mut Pass<Job, PassView>)
    requires channel { IsSeatAt (sends_on to.now) pass.old }
    requires takes { (view pass.old).takes ≡ true }
    ensures channel { IsSeatAt (sends_on to.now) pass.new }
    ensures same { view pass.new ≡ view pass.old }
    ensures balance { (items : List Job) × Balances (view pass.old) items }
{
    to.learn_as::<LinePass>(pass);
}
