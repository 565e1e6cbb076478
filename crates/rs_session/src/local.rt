//! A gate with a catalogue of its own.

ghost use Rattle.std.specs.Prelude.{◌≡◌, ◌↔◌, [], false, List, IfOk, IfErr, OnOk, Err};
ghost use Rattle.std.specs.Option.{option_map};
ghost use Rattle.rs_message.specs.Messages.{is_sweep};
ghost use Rattle.rs_store.specs.Contents.{IsAdded, empty};
ghost use Rattle.rs_store.specs.History.{IsAnswerWithin, Stands};
ghost use Rattle.rs_session.specs.Gate.{Grows, SendsAtMost, Submits, Uses, entry_by};
ghost use Rattle.rs_session.specs.Local.{catalogue_of, local_mark, next_entry, IsFull, IsLeft};

use crate::gate::Gate;
use rs_message::{Entry, Found, Operation, Origin, SubmitFault};
use rs_store::{CalmCatalogue, Catalogue, Refusal, TopicLimit};
use rs_topic::TopicFilter;
use std::alloc::{AllocError, Global};

/// The place that it serves as.
const PLACE: u16 = 1;

/// A gate for a single connection, to a store of its own: a catalogue, served as place 1 with serials from 1. It stands
/// for each list of entries that its catalogue stands for.
#[derive(Drop)]
pub struct LocalGate<C: Catalogue> {
    catalogue: CalmCatalogue<C>,
}

impl<C: Catalogue> LocalGate<C> {
    /// A gate to an empty store of at most `limit` topics. Refused only if memory is.
    pub fn new(alloc: Global, limit: TopicLimit) -> Result<LocalGate<C>, AllocError>
        ensures content { IfOk result (λ gate. C.content (catalogue_of gate) ≡ empty limit) }
        ensures list { IfOk result (λ gate. Stands (C.content (catalogue_of gate)) []) }
    {
        Ok(LocalGate {
            catalogue: CalmCatalogue::new(alloc, limit)?,
        })
    }

    /// Its catalogue.
    pub fn catalogue(&self) -> &C
        ensures { result.now ≡ catalogue_of self.now }
    {
        self.catalogue.catalogue()
    }
}

impl<C: Catalogue> Gate for LocalGate<C> {
    ghost use Rattle.rs_store.specs.History.{Stands};
    ghost use Rattle.rs_session.specs.Local.{catalogue_of, local_mark};

    ghost stands = { λ gate list. Stands (C.content (catalogue_of gate)) list };

    ghost mark = { λ gate. local_mark (C.content (catalogue_of gate)) };

    /// It sends nothing ahead.
    fn pending_count(&self) -> usize {
        0
    }

    /// `Full` if no serial is left or the store has no space, `NoMemory` if memory is refused. A Set for which a Sweep makes space is
    /// preceded by that Sweep. Refused, the store is as before, but that this Sweep may stay if memory is refused.
    fn submit(&mut self, operation: Operation) -> Result<(), SubmitFault>
        requires { is_sweep operation ≡ false }
        ensures list { Grows (Stands (C.content (catalogue_of self.old))) (Stands (C.content (catalogue_of self.new)))
            (Submits operation (local_mark (C.content (catalogue_of self.old))) (local_mark (C.content (catalogue_of self.new))) result) }
        ensures mark { Uses (local_mark (C.content (catalogue_of self.old))) (local_mark (C.content (catalogue_of self.new))) }
        ensures sent { SendsAtMost (local_mark (C.content (catalogue_of self.old))).sent
            (entry_by operation (local_mark (C.content (catalogue_of self.new)))) (local_mark (C.content (catalogue_of self.new))).sent }
        ensures full { (result ≡ Err SubmitFault.Full) ↔ IsFull (C.content (catalogue_of self.old)) operation }
        ensures done { OnOk result (IsAdded (C.content (catalogue_of self.old)) (next_entry (C.content (catalogue_of self.old)) operation)
            (C.content (catalogue_of self.new))) }
        ensures refused { IfErr result (λ fault.
            IsLeft (C.content (catalogue_of self.old)) operation fault (C.content (catalogue_of self.new))) }
    {
        let last = self.catalogue.catalogue().last_serial(PLACE);
        if last == u64::MAX {
            return Err(SubmitFault::Full);
        }
        let Some(origin) = Origin::of_line(PLACE, last + 1) else {
            return Err(SubmitFault::Full);
        };
        match self.catalogue.add(Entry { origin, operation }) {
            Ok(()) => Ok(()),
            Err(Refusal::Full) => Err(SubmitFault::Full),
            Err(Refusal::Stale) => Err(SubmitFault::Full),
            Err(Refusal::NoMemory) => Err(SubmitFault::NoMemory),
        }
    }

    /// Refused only if memory is. The store stays as it is.
    fn answer_within(
        &mut self,
        filter: &TopicFilter,
        now: u64,
        room: usize,
    ) -> Result<Option<Vec<Found>>, AllocError>
        ensures list { Grows (Stands (C.content (catalogue_of self.old))) (Stands (C.content (catalogue_of self.new)))
            (λ seen list. IfOk result (λ answer. IsAnswerWithin room list filter.now now (option_map (λ found. found.items) answer))) }
        ensures mark { local_mark (C.content (catalogue_of self.new)) ≡ local_mark (C.content (catalogue_of self.old)) }
        ensures same { C.content (catalogue_of self.new) ≡ C.content (catalogue_of self.old) }
    {
        self.catalogue.catalogue().answer_within(filter, now, room)
    }
}
