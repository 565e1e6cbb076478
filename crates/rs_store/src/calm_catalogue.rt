//! A catalogue with the moment before which none of its messages is expired.

ghost use Rattle.std.specs.Prelude.{◌≡◌, false, List, IfErr, IfOk, MatchResult, OnOk};
ghost use Rattle.rs_message.specs.declared.entry.Entry.{Entry};
ghost use Rattle.rs_message.specs.Messages.{is_sweep};
ghost use Rattle.rs_store.specs.Adding.{Adds, NotAdds};
ghost use Rattle.rs_store.specs.Contents.{IsAdded, NotAddedBy, empty};
ghost use Rattle.rs_store.specs.History.{Stands};

use crate::calm::Calm;
use crate::catalogue::{Catalogue, add};
use crate::fault::Refusal;
use crate::limit::TopicLimit;
use rs_message::Entry;
use std::alloc::{AllocError, Global};
use std::marker::Model;

/// A catalogue that one owner both changes and reads, with its [`Calm`]. Contracts see it as its catalogue.
#[derive(Drop)]
pub struct CalmCatalogue<C: Catalogue> {
    catalogue: C,
    calm: Calm,
}

impl<C: Catalogue> Model for CalmCatalogue<C> {
    ghost use Rattle.rs_store.specs.Expiring.{NoneExpiredBefore};

    ghost Value = { C };

    ghost view = { λ s. s.catalogue };

    ghost invariant = { λ s. NoneExpiredBefore s.calm (C.content s.catalogue) };
}

impl<C: Catalogue> CalmCatalogue<C> {
    /// An empty catalogue of at most `limit` topics. An error if memory is refused.
    pub fn new(alloc: Global, limit: TopicLimit) -> Result<CalmCatalogue<C>, AllocError>
        ensures { IfOk result (λ s. C.content s ≡ empty limit) }
    {
        Ok(CalmCatalogue {
            catalogue: C::new(alloc, limit)?,
            calm: Calm::new(),
        })
    }

    /// Its catalogue.
    pub fn catalogue(&self) -> &C
        ensures { result.now ≡ self.now }
    {
        &self.catalogue
    }

    /// Appends an entry that is no Sweep, as [`add`] does.
    ///
    /// # Errors
    ///
    /// As [`add`].
    pub fn add(&mut self, entry: Entry) -> Result<(), Refusal>
        requires { is_sweep entry.operation ≡ false }
        ensures done { OnOk result (IsAdded (C.content self.old) entry (C.content self.new)) }
        ensures refused { IfErr result (λ r. NotAddedBy (C.content self.old) entry r (C.content self.new)) }
        ensures stands { (history : List Entry) → Stands (C.content self.old) history → MatchResult result
            (λ _. Adds (C.content self.old).limit history entry (Stands (C.content self.new)))
            (λ r. NotAdds (C.content self.old).limit history entry r (Stands (C.content self.new))) }
    {
        add(&mut self.catalogue, &mut self.calm, entry)
    }
}
