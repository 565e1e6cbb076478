//! What the writer took from the queue.

ghost use Rattle.std.specs.Prelude.{◌≡◌, ◌<◌, ◌∷◌, ◌++◌, List, [], true, IfOk, IfSome, MatchOption, MatchResult};
ghost use Rattle.crossbeam_channel.specs.Claims.{view as known_by};
ghost use Rattle.crossbeam_channel.specs.Ends.{sends_on, receives_on};
ghost use Rattle.rs_store.specs.History.{SerialsRise};
ghost use Rattle.rs_intake_queue.specs.QueueRule.{AreEnds, IsPlaced, ends_of, entries_in};
ghost use Rattle.rs_intake_line.specs.Names.{IsQueue, IsIn};
ghost use Rattle.rs_intake_line.specs.Lines.{IsTaker};
ghost use Rattle.rs_intake.specs.Settling.{IsBalanced};
ghost use Rattle.rs_intake_queue.specs.declared.job.Job.{Job};

use crossbeam_channel::Pass;
use rs_intake_line::LineName;
use rs_intake_queue::steps::{compare, join, take, take_if_any};
use rs_intake_queue::{Gone, Job, JobReceiver, JobSender, PassView, Patience};
use std::marker::{Model, PhantomData};
use std::sync::Wait;

/// What the writer took. Contracts see the entries that were asked for, in order, the places of the Ends, and what ended lines sent.
#[derive(Drop)]
pub struct Taken<N: LineName> {
    places: u16,
    pass: Pass<Job, PassView>,
    of: PhantomData<N>,
}

impl<N: LineName> Model for Taken<N> {
    ghost use Rattle.std.specs.Prelude.{◌≡◌};
    ghost use Rattle.crossbeam_channel.specs.Claims.{view as known_by};
    ghost use Rattle.rs_intake_line.specs.Lines.{Received, IsTaker};

    ghost Value = { Received };

    ghost view = { λ t. record { entries = (known_by t.pass).entries; ends = (known_by t.pass).ends; whole = (known_by t.pass).known } };

    ghost invariant = { λ t. IsTaker N.queue N.places t.pass × (t.places ≡ N.places) };
}

impl<N: LineName> Taken<N> {
    pub(crate) fn new(places: u16, pass: Pass<Job, PassView>) -> Taken<N>
        requires { IsTaker N.queue N.places pass × (places ≡ N.places) }
        ensures { (result.entries ≡ (known_by pass).entries) × (result.ends ≡ (known_by pass).ends)
            × (result.whole ≡ (known_by pass).known) }
    {
        Taken {
            places,
            pass,
            of: PhantomData,
        }
    }

    pub(crate) fn places(&self) -> u16
        ensures { (result ≡ N.places) × (0 < result) }
    {
        self.places
    }

    /// Takes the oldest job. [`Gone`] if the receive failed.
    pub(crate) fn next<R: Wait>(
        &mut self,
        rt: &R,
        from: &JobReceiver,
        patience: &mut Patience,
    ) -> Result<Job, Gone>
        requires { IsQueue N.queue (receives_on from.now) }
        ensures taken { MatchResult result (λ job. (self.new.entries ≡ self.old.entries ++ entries_in job) × SerialsRise self.new.entries)
            (λ _. self.new ≡ self.old) }
        ensures ended { IfOk result (λ job. (self.new.ends ≡ self.old.ends ++ ends_of (job ∷ [])) × AreEnds N.places self.new.ends) }
        ensures placed { IfOk result (λ job. IsPlaced N.places job) }
    {
        take(rt, from, &mut self.pass, patience)
    }

    /// Takes the oldest job, if one is there. It waits for none. `None` also if the receive failed.
    pub(crate) fn next_if_any<R: Wait>(&mut self, rt: &R, from: &JobReceiver) -> Option<Job>
        requires { IsQueue N.queue (receives_on from.now) }
        ensures taken { MatchOption result (self.new ≡ self.old)
            (λ job. (self.new.entries ≡ self.old.entries ++ entries_in job) × SerialsRise self.new.entries) }
        ensures ended { IfSome result (λ job. (self.new.ends ≡ self.old.ends ++ ends_of (job ∷ [])) × AreEnds N.places self.new.ends) }
        ensures placed { IfSome result (λ job. IsPlaced N.places job) }
    {
        take_if_any(rt, from, &mut self.pass)
    }

    /// Joins a line's pass.
    pub(crate) fn join(&mut self, by: &JobSender, line: Pass<Job, PassView>)
        requires queue { IsQueue N.queue (sends_on by.now) × IsIn N.queue line }
        requires line { (known_by line).sends ≡ true }
        ensures { (self.new.entries ≡ self.old.entries) × (self.new.ends ≡ self.old.ends)
            × (self.new.whole ≡ record { place = (known_by line).from; entries = (known_by line).entries } ∷ self.old.whole) }
    {
        join(by, &mut self.pass, line);
    }

    /// Compares what was taken with what the ended lines sent, by the rule of the queue.
    pub(crate) fn compare(&mut self, by: &JobSender)
        requires { IsQueue N.queue (sends_on by.now) }
        ensures same { self.new ≡ self.old }
        ensures balance { (items : List Job) × IsBalanced N.places self.new items }
    {
        compare(by, &mut self.pass);
    }
}
