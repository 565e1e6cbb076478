//! The store of a program that serves one connection.

ghost use Rattle.std.specs.Prelude.{◌≡◌};
ghost use Rattle.rs_program_pipe.specs.declared.own_store.TheConstants.{MAX_OWN_TOPICS};
ghost use Rattle.rs_session.specs.Local.{catalogue_of};

mod gate;

use rs_session::LocalGate;
use rs_tree::TreeCatalogue;

/// How many topics of the store of an [`OwnGate`] may hold a message.
pub const MAX_OWN_TOPICS: u32 = 10_000;

const _: () = prove!(MAX_OWN_TOPICS == 10_000);

/// A gate to a store of at most [`MAX_OWN_TOPICS`] topics. It stands for legal lists whose entries are of place 1, or are
/// Sweeps of the writer.
#[derive(Drop)]
pub struct OwnGate {
    gate: LocalGate<TreeCatalogue>,
    ghost limit: { (catalogue_of gate).limit ≡ MAX_OWN_TOPICS },
}
