//! One of the two copies of the catalogue that seats read, with the prefix of the history that it stands for.

use crate::catalogue::StoreCatalogue;
use crate::prefix::Prefix;
use left_right::Absorb;
use rs_message::Entry;
use rs_store::{Catalogue, Content};
use std::alloc::AllocError;

/// What both copies absorb: an entry, and the prefix of the history that ends with it.
#[derive(Drop)]
pub struct CopyStep {
    /// The entry.
    pub entry: Entry,
    /// The prefix that ends with it.
    pub after: Prefix,
}

/// One copy. A step brings its prefix along, and the copy takes it as it is. So it is the rule of the published copy, and not this
/// type, that says that the catalogue stands for the prefix.
#[derive(Drop)]
pub struct CatalogueCopy {
    /// The catalogue.
    pub catalogue: StoreCatalogue,
    /// The prefix of the history that it stands for.
    pub prefix: Prefix,
}

impl Absorb<CopyStep> for CatalogueCopy {
    ghost use Rattle.rs_store.specs.Contents.{followed};
    ghost use Rattle.rs_version.specs.Catalogues.{content_of};

    type State = (Content, Prefix);

    ghost state = { λ c. (content_of c.catalogue, c.prefix) };

    ghost applied = { λ s step. (followed s.0 step.entry, step.after) };

    /// An entry that the catalogue does not accept changes nothing. The step is only lent, so the entry is copied here; copies of a
    /// message share its bytes.
    fn absorb_first(&mut self, step: &CopyStep, _other: &CatalogueCopy) -> Result<(), AllocError> {
        if self.catalogue.accepts(&step.entry).is_err() {
            return Err(AllocError);
        }
        self.catalogue.apply(step.entry.copy()?)?;
        self.prefix = step.after.again();
        Ok(())
    }

    /// The other copy has just done the same step, so both look in the same places. The step is given back if memory is refused, so its
    /// entry is copied here, too.
    fn absorb_second(&mut self, step: CopyStep, other: &CatalogueCopy) -> Result<(), CopyStep> {
        if self.catalogue.accepts(&step.entry).is_err() {
            return Err(step);
        }
        let Ok(entry) = step.entry.copy() else {
            return Err(step);
        };
        let Ok(()) = self.catalogue.apply_like(entry, &other.catalogue) else {
            return Err(step);
        };
        self.prefix = step.after;
        Ok(())
    }
}
