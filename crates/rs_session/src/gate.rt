//! The store as a session sees it.

ghost use Rattle.std.specs.Prelude.{◌≡◌, ◌≢◌, ◌≤◌, ◌⊎◌, ◌++◌, [], false, ℕ, List, IfOk, MatchBool, length};
ghost use Rattle.std.specs.List.{All};
ghost use Rattle.std.specs.Option.{option_map};
ghost use Rattle.rs_message.specs.Messages.{is_sweep};
ghost use Rattle.rs_message.specs.declared.entry.Entry.{Entry};
ghost use Rattle.rs_store.specs.History.{IsAnswer, IsAnswerWithin};
ghost use Rattle.rs_message.specs.declared.entry.Operation.{Operation};
ghost use Rattle.rs_session.specs.Gate.{Mark, Grows, SendsAtMost, Submits, TakesPending, Uses, entry_by};

use rs_message::{Found, Operation, SubmitFault};
use rs_topic::TopicFilter;
use std::alloc::AllocError;

/// A session's way to the store, seen by the lists of entries that it may stand for. After a call, for each list
/// that it stood for before, it stands for one that begins with it: what a session saw or was told stays.
pub trait Gate {
    /// The lists that it stands for.
    ghost stands: { Self → List Entry → Type 0 };

    /// Its place, the last serial that it used, and the entries that it sent to the store, if its type gives them.
    ghost mark: { Self → Mark };

    /// The changes that it was told to expect and that were not submitted since, in their order. Some of them, or all, may
    /// have been sent to the store.
    ghost pending: { Self → List Operation } = { λ _. [] };

    /// A bound of `most_expected`.
    ghost most: { ℕ } = { 0 };

    /// How many changes it takes at once by `expect`. By default none, so nobody looks ahead for it.
    fn most_expected(&self) -> usize
        ensures { result ≤ most }
    {
        0
    }

    /// Whether it is better told of further changes while some are pending. By default not.
    fn runs_ahead(&self) -> bool {
        false
    }

    /// Says which changes come next, behind those that are pending, in this order. Each is still handed over by a `submit` of its own,
    /// unless the session ends before. A gate may send them to the store at once. By default it does nothing.
    fn expect(&mut self, changes: Vec<Operation>)
        requires { All (λ operation. is_sweep operation ≡ false) changes.items }
        ensures list { Grows (stands self.old) (stands self.new) (λ seen list. list ≡ seen) }
        ensures mark { mark self.new ≡ mark self.old }
        ensures pending { (pending self.new ≡ pending self.old ++ changes.items) ⊎ (pending self.new ≡ pending self.old) }
    {
        let _changes = changes;
    }

    /// How many changes were expected and are not submitted yet. They may have been sent.
    fn pending_count(&self) -> usize
        ensures { result ≡ length (pending self.now) };

    /// Whether some change was expected and is not submitted yet.
    fn has_pending(&self) -> bool
        ensures { MatchBool result (pending self.now ≢ []) (pending self.now ≡ []) }
    {
        self.pending_count() > 0
    }

    /// Hands a Set or a Clear to the store. At `Ok` the list has it as an entry of its own. The faults say what stands
    /// otherwise; the list may have grown by entries of others. Whatever is answered, no other change than this one
    /// becomes an entry under the serial that the gate used last, and nothing but this change is sent, at most once. `Open` is
    /// answered only if a serial was used. If changes were expected, this was the first of them, or nothing is expected any more,
    /// or it is refused and nothing was used.
    fn submit(&mut self, operation: Operation) -> Result<(), SubmitFault>
        requires { is_sweep operation ≡ false }
        ensures list { Grows (stands self.old) (stands self.new) (Submits operation (mark self.old) (mark self.new) result) }
        ensures mark { Uses (mark self.old) (mark self.new) }
        ensures sent { SendsAtMost (mark self.old).sent (entry_by operation (mark self.new)) (mark self.new).sent }
        ensures pending { TakesPending operation (mark self.old) (mark self.new) result (pending self.old) (pending self.new) };

    /// The retained messages that a filter matches and that have not expired at this time, in the
    /// order of replay. `now` is in seconds. `AllocError` if memory was refused; the list may have grown
    /// all the same.
    fn answer(&mut self, filter: &TopicFilter, now: u64) -> Result<Vec<Found>, AllocError>
        ensures list { Grows (stands self.old) (stands self.new)
            (λ seen list. IfOk result (λ found. IsAnswer list filter.now now found.items)) }
        ensures mark { mark self.new ≡ mark self.old }
        ensures pending { pending self.new ≡ pending self.old }
    {
        match self.answer_within(filter, now, usize::MAX) {
            Ok(Some(found)) => Ok(found),
            // Never: no list has more items than that.
            Ok(None) => Err(AllocError),
            Err(error) => Err(error),
        }
    }

    /// The same answer if it has at most `room` messages, else `None`. A gate gives up at the first message beyond the room,
    /// so that an answer that nobody can take costs little.
    fn answer_within(
        &mut self,
        filter: &TopicFilter,
        now: u64,
        room: usize,
    ) -> Result<Option<Vec<Found>>, AllocError>
        ensures list { Grows (stands self.old) (stands self.new)
            (λ seen list. IfOk result (λ answer. IsAnswerWithin room list filter.now now (option_map (λ found. found.items) answer))) }
        ensures mark { mark self.new ≡ mark self.old }
        ensures pending { pending self.new ≡ pending self.old };
}
