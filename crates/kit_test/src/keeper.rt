//! What keeps entries: a tree in its store, or the writer of a store of versions.

ghost use Rattle.std.specs.Prelude.{◌≡◌, false};

use rs_message::Entry;
use rs_store::{CalmCatalogue, Catalogue, Refusal};
use rs_tree::TreeCatalogue;
use rs_version::{PutFault, StoreName, VersionWriter};
use std::sync::Wait;

/// What became of an entry.
#[derive(Clone, Copy)]
pub enum Outcome {
    Kept,
    Full,
    NoMemory,
    Other,
}

impl Outcome {
    /// Whether it is the other one.
    pub fn is(self, other: Outcome) -> bool {
        self as u8 == other as u8
    }
}

pub trait Keeper {
    ghost use Rattle.std.specs.Prelude.{◌≡◌, false};
    ghost use Rattle.rs_message.specs.Messages.{is_sweep};

    fn add(&mut self, entry: Entry) -> Outcome
        requires { is_sweep entry.operation ≡ false };

    /// How many topics a tree holds, and how many entries a writer has published.
    fn count(&self) -> u64;
}

impl Keeper for CalmCatalogue<TreeCatalogue> {
    fn add(&mut self, entry: Entry) -> Outcome {
        match CalmCatalogue::add(self, entry) {
            Ok(()) => Outcome::Kept,
            Err(Refusal::Full) => Outcome::Full,
            Err(Refusal::NoMemory) => Outcome::NoMemory,
            Err(Refusal::Stale) => Outcome::Other,
        }
    }

    fn count(&self) -> u64 {
        u64::from(self.catalogue().count())
    }
}

impl<N: StoreName, R: Wait + Drop> Keeper for VersionWriter<N, R> {
    fn add(&mut self, entry: Entry) -> Outcome {
        match self.put(entry) {
            Ok(_) => Outcome::Kept,
            Err(PutFault::Full) => Outcome::Full,
            Err(PutFault::NoMemory) => Outcome::NoMemory,
            Err(_) => Outcome::Other,
        }
    }

    fn count(&self) -> u64 {
        self.tell().version()
    }
}
