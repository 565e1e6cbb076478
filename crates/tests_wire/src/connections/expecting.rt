//! A gate that is told which changes come next, and notes it.

ghost use Rattle.std.specs.Prelude.{◌≡◌, ◌^◌, ◌⊎◌, ◌∷◌, [], true};

use rs_message::{Entry, Found, Operation, Origin, SubmitFault, is_same};
use rs_session::Gate;
use rs_topic::TopicFilter;
use std::alloc::{AllocError, Global};
use std::collections::VecDeque;

/// What was announced: how many changes were submitted before, and how many were announced then.
pub(super) type Announced = (usize, usize);

/// Answers as the gate inside, for whose lists it stands.
#[derive(Drop)]
pub(super) struct Expecting<G> {
    inner: G,
    /// How many changes it takes at once.
    most: usize,
    /// Whether it is told of further changes while some are pending.
    runs_ahead: bool,
    /// The changes that were announced and not submitted yet.
    pub(super) next: VecDeque<Operation>,
    /// What was announced.
    pub(super) announced: Vec<Announced>,
    submitted: usize,
    /// Whether no more was announced than it takes, and behind other changes only if it runs ahead, and each change was the next one that
    /// was expected, if any was.
    pub(super) is_met: bool,
}

impl<G> Expecting<G> {
    pub(super) fn new(alloc: Global, inner: G, most: usize, runs_ahead: bool) -> Expecting<G>
        ensures { result.inner ≡ inner }
    {
        Expecting {
            inner,
            most,
            runs_ahead,
            next: VecDeque::new(alloc),
            announced: Vec::new(alloc),
            submitted: 0,
            is_met: true,
        }
    }

    /// Takes the first change that is expected, which should be this one. If it is another, nothing is expected any more.
    fn take_next(&mut self, operation: Operation) -> Operation
        ensures same { result ≡ operation }
        ensures inner { self.new.inner ≡ self.old.inner }
        ensures next { (self.new.next.items ≡ []) ⊎ (self.old.next.items ≡ operation ∷ self.new.next.items) }
    {
        self.submitted = self.submitted.saturating_add(1);
        let Some(first) = self.next.pop_front() else {
            return operation;
        };
        let (operation, is_first) = compared(first, operation);
        if !is_first {
            self.next.clear();
            self.is_met = false;
        }
        operation
    }
}

/// The change, and whether the first one is the same.
fn compared(first: Operation, operation: Operation) -> (Operation, bool)
    ensures same { result.0 ≡ operation }
    ensures first { result.1 ≡ true → first ≡ operation }
{
    // Any origin will do: it is the changes that are compared.
    let Some(origin) = Origin::new(1, 1) else {
        return (operation, false);
    };
    let first = Entry {
        origin,
        operation: first,
    };
    let this = Entry { origin, operation };
    let is_first = is_same(&first, &this);
    let Entry {
        origin: _,
        operation,
    } = this;
    (operation, is_first)
}

impl<G: Gate> Gate for Expecting<G> {
    ghost stands = { λ gate. G.stands gate.inner };

    ghost mark = { λ gate. G.mark gate.inner };

    ghost pending = { λ gate. gate.next.items };

    ghost most = { 2 ^ 64 };

    fn most_expected(&self) -> usize {
        self.most
    }

    fn runs_ahead(&self) -> bool {
        self.runs_ahead
    }

    fn expect(&mut self, changes: Vec<Operation>) {
        let is_noted = self.announced.push((self.submitted, changes.len())).is_ok();
        let is_behind = !self.next.is_empty();
        let mut changes = VecDeque::from_vec(changes);
        let is_taken = self.next.append(&mut changes).is_ok();
        if !is_noted || !is_taken || self.next.len() > self.most {
            self.is_met = false;
        }
        if is_behind && !self.runs_ahead {
            self.is_met = false;
        }
    }

    fn pending_count(&self) -> usize {
        self.next.len()
    }

    fn submit(&mut self, operation: Operation) -> Result<(), SubmitFault> {
        let operation = self.take_next(operation);
        self.inner.submit(operation)
    }

    fn answer_within(
        &mut self,
        filter: &TopicFilter,
        now: u64,
        room: usize,
    ) -> Result<Option<Vec<Found>>, AllocError> {
        self.inner.answer_within(filter, now, room)
    }
}
