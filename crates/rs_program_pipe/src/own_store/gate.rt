//! The gate to the program's own store.

ghost use Rattle.std.specs.Prelude.{◌≡◌, ◌↔◌, [], false, None, IfOk, IfErr, OnOk, Err};
ghost use Rattle.std.specs.Option.{option_map};
ghost use Rattle.rs_message.specs.Messages.{is_sweep};
ghost use Rattle.rs_store.specs.Contents.{IsAdded, empty};
ghost use Rattle.rs_store.specs.History.{IsAnswerWithin};
ghost use Rattle.rs_session.specs.Gate.{Grows, SendsAtMost, Submits, Uses, entry_by};
ghost use Rattle.rs_session.specs.Local.{local_mark, next_entry, IsFull, IsLeft};
ghost use Rattle.rs_program_pipe.specs.OwnStores.{IsOwn, content_of};
ghost use Rattle.rs_program_pipe.specs.declared.own_store.TheConstants.{MAX_OWN_TOPICS};

use super::{MAX_OWN_TOPICS, OwnGate};
use rs_message::{Found, Operation, SubmitFault};
use rs_session::{Gate, LocalGate};
use rs_store::TopicLimit;
use rs_topic::TopicFilter;
use std::alloc::{AllocError, Global};

impl OwnGate {
    /// A gate to an empty store. Fails only if memory is refused.
    pub fn new(alloc: Global) -> Result<OwnGate, AllocError>
        ensures content { IfOk result (λ gate. content_of gate ≡ empty MAX_OWN_TOPICS) }
        ensures list { IfOk result (λ gate. IsOwn (content_of gate) []) }
        ensures mark { IfOk result (λ gate. local_mark (content_of gate) ≡ record { place = 1; serial = 0; sent = None }) }
    {
        match TopicLimit::new(MAX_OWN_TOPICS) {
            Some(limit) => Ok(OwnGate {
                gate: LocalGate::new(alloc, limit)?,
            }),
            None => unreachable!(),
        }
    }
}

impl Gate for OwnGate {
    ghost use Rattle.rs_session.specs.Local.{local_mark};
    ghost use Rattle.rs_program_pipe.specs.OwnStores.{IsOwn, content_of};

    ghost stands = { λ gate list. IsOwn (content_of gate) list };

    ghost mark = { λ gate. local_mark (content_of gate) };

    /// It sends nothing ahead.
    fn pending_count(&self) -> usize {
        0
    }

    /// `Full` if no serial is left or the store has no space, `NoMemory` if memory is refused. A Set for which a Sweep makes space is
    /// preceded by that Sweep. Refused, the store is as before, but that this Sweep may stay if memory is refused.
    fn submit(&mut self, operation: Operation) -> Result<(), SubmitFault>
        requires { is_sweep operation ≡ false }
        ensures list { Grows (IsOwn (content_of self.old)) (IsOwn (content_of self.new))
            (Submits operation (local_mark (content_of self.old)) (local_mark (content_of self.new)) result) }
        ensures mark { Uses (local_mark (content_of self.old)) (local_mark (content_of self.new)) }
        ensures sent { SendsAtMost (local_mark (content_of self.old)).sent (entry_by operation (local_mark (content_of self.new)))
            (local_mark (content_of self.new)).sent }
        ensures full { (result ≡ Err SubmitFault.Full) ↔ IsFull (content_of self.old) operation }
        ensures done { OnOk result (IsAdded (content_of self.old) (next_entry (content_of self.old) operation) (content_of self.new)) }
        ensures refused { IfErr result (λ fault. IsLeft (content_of self.old) operation fault (content_of self.new)) }
    {
        // For the proof, which goes case by case. So does the answer below.
        match self.gate.submit(operation) {
            Ok(()) => Ok(()),
            Err(fault) => Err(fault),
        }
    }

    /// Refused only if memory is. The store stays as it is.
    fn answer_within(
        &mut self,
        filter: &TopicFilter,
        now: u64,
        room: usize,
    ) -> Result<Option<Vec<Found>>, AllocError>
        ensures list { Grows (IsOwn (content_of self.old)) (IsOwn (content_of self.new))
            (λ seen list. IfOk result (λ answer. IsAnswerWithin room list filter.now now (option_map (λ found. found.items) answer))) }
        ensures mark { local_mark (content_of self.new) ≡ local_mark (content_of self.old) }
        ensures same { content_of self.new ≡ content_of self.old }
    {
        match self.gate.answer_within(filter, now, room) {
            Ok(answer) => Ok(answer),
            Err(error) => Err(error),
        }
    }
}
