//! A gate that counts what is refused.

ghost use Rattle.std.specs.Prelude.{◌≡◌, false, IfOk};
ghost use Rattle.std.specs.Option.{option_map};
ghost use Rattle.rs_message.specs.Messages.{is_sweep};
ghost use Rattle.rs_store.specs.History.{IsAnswerWithin};
ghost use Rattle.rs_session.specs.Gate.{Grows, SendsAtMost, Submits, TakesPending, Uses, entry_by};
ghost use Rattle.rs_server.specs.Counts.{next_count};
ghost use Rattle.rs_server.specs.Refusals.{gate_of, none_refused, refusals_of, with_change, with_filter};

use rs_message::{Found, Operation, SubmitFault};
use rs_session::Gate;
use rs_topic::TopicFilter;
use std::alloc::AllocError;

/// How many changes and filters a gate refused, by cause. Each count stays at [`u64::MAX`].
#[derive(Clone, Copy, Debug, PartialEq, Eq)]
pub struct Refusals {
    /// Changes for which the store was full ([`SubmitFault::Full`]).
    pub full: u64,
    /// Changes for which memory was refused ([`SubmitFault::NoMemory`]).
    pub no_memory: u64,
    /// Changes of which it is not known whether they were made ([`SubmitFault::Open`], [`SubmitFault::Strange`]), and those that came
    /// when the store took no more ([`SubmitFault::Closed`]).
    pub unknown: u64,
    /// Filters for whose answer memory was refused.
    pub filters_no_memory: u64,
    /// Filters whose answer has more messages than may wait.
    pub filters_too_long: u64,
}

impl Refusals {
    /// Nothing was refused.
    pub fn new() -> Refusals
        ensures { result ≡ none_refused }
    {
        Refusals {
            full: 0,
            no_memory: 0,
            unknown: 0,
            filters_no_memory: 0,
            filters_too_long: 0,
        }
    }

    /// Counts the answer to a change.
    fn change(&mut self, answer: &Result<(), SubmitFault>)
        ensures { self.new ≡ with_change answer.now self.old }
    {
        match answer {
            Ok(()) => {}
            Err(SubmitFault::Full) => self.full = self.full.saturating_add(1),
            Err(SubmitFault::NoMemory) => self.no_memory = self.no_memory.saturating_add(1),
            Err(SubmitFault::Open | SubmitFault::Strange | SubmitFault::Closed) => {
                self.unknown = self.unknown.saturating_add(1);
            }
        }
    }

    /// Counts the answer to a filter.
    fn filter(&mut self, answer: &Result<Option<Vec<Found>>, AllocError>)
        ensures { self.new ≡ with_filter answer.now self.old }
    {
        match answer {
            Ok(Some(_)) => {}
            Ok(None) => self.filters_too_long = self.filters_too_long.saturating_add(1),
            Err(AllocError) => self.filters_no_memory = self.filters_no_memory.saturating_add(1),
        }
    }
}

/// What is counted of a connection.
#[derive(Clone, Copy)]
pub struct Tally {
    /// The inputs that were handled: packets, and a fault in place of one. It stays at [`u64::MAX`].
    pub packets: u64,
    /// What the gate refused.
    pub refusals: Refusals,
}

/// A gate, and what it refused. It passes each call on.
#[derive(Drop)]
pub struct CountedGate<G> {
    inner: G,
    refusals: Refusals,
}

impl<G> CountedGate<G> {
    /// A gate that has refused nothing yet.
    pub fn new(inner: G) -> CountedGate<G>
        ensures gate { gate_of result ≡ inner }
        ensures counts { refusals_of result ≡ none_refused }
    {
        CountedGate {
            inner,
            refusals: Refusals::new(),
        }
    }

    /// The gate, and what it refused.
    pub fn into_parts(self) -> (G, Refusals)
        ensures gate { result.0 ≡ gate_of self }
        ensures counts { result.1 ≡ refusals_of self }
    {
        let CountedGate { inner, refusals } = self;
        (inner, refusals)
    }
}

impl<G: Gate> Gate for CountedGate<G> {
    ghost stands = { λ it. G.stands it.inner };

    ghost mark = { λ it. G.mark it.inner };

    ghost pending = { λ it. G.pending it.inner };

    ghost most = { G.most };

    fn most_expected(&self) -> usize {
        self.inner.most_expected()
    }

    fn runs_ahead(&self) -> bool {
        self.inner.runs_ahead()
    }

    fn expect(&mut self, changes: Vec<Operation>) {
        self.inner.expect(changes);
    }

    fn pending_count(&self) -> usize {
        self.inner.pending_count()
    }

    /// Counts the answer, if it is a fault.
    fn submit(&mut self, operation: Operation) -> Result<(), SubmitFault>
        requires { is_sweep operation ≡ false }
        ensures list { Grows (G.stands (gate_of self.old)) (G.stands (gate_of self.new))
            (Submits operation (G.mark (gate_of self.old)) (G.mark (gate_of self.new)) result) }
        ensures mark { Uses (G.mark (gate_of self.old)) (G.mark (gate_of self.new)) }
        ensures sent { SendsAtMost (G.mark (gate_of self.old)).sent (entry_by operation (G.mark (gate_of self.new)))
            (G.mark (gate_of self.new)).sent }
        ensures pending { TakesPending operation (G.mark (gate_of self.old)) (G.mark (gate_of self.new)) result
            (G.pending (gate_of self.old)) (G.pending (gate_of self.new)) }
        ensures counts { refusals_of self.new ≡ with_change result (refusals_of self.old) }
    {
        let answer = self.inner.submit(operation);
        self.refusals.change(&answer);
        answer
    }

    /// Counts the filter, if memory is refused or the answer has more messages than there is room for.
    fn answer_within(
        &mut self,
        filter: &TopicFilter,
        now: u64,
        room: usize,
    ) -> Result<Option<Vec<Found>>, AllocError>
        ensures list { Grows (G.stands (gate_of self.old)) (G.stands (gate_of self.new))
            (λ seen list. IfOk result (λ answer. IsAnswerWithin room list filter.now now (option_map (λ found. found.items) answer))) }
        ensures mark { G.mark (gate_of self.new) ≡ G.mark (gate_of self.old) }
        ensures pending { G.pending (gate_of self.new) ≡ G.pending (gate_of self.old) }
        ensures counts { refusals_of self.new ≡ with_filter result (refusals_of self.old) }
    {
        let answer = self.inner.answer_within(filter, now, room);
        self.refusals.filter(&answer);
        answer
    }
}
