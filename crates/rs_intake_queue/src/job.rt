//! What a line sends to the writer.

ghost use Rattle.std.specs.Prelude.{◌≡◌, ◌<◌, ◌≤◌, ◌∷◌, [], length};
ghost use Rattle.rs_message.specs.declared.entry.TheConstants.{MAX_LINES};
ghost use Rattle.rs_intake_queue.specs.Changes.{AreOfOneJob, listed, place_of_all};

use rs_message::Entry;
use std::marker::Model;

/// The most changes of one job.
pub const MAX_CHANGES: usize = 256;

const _: () = prove!(MAX_CHANGES == 256);

/// Entries in their order. One alone takes no block of memory.
#[derive(Debug, Drop)]
pub enum Entries {
    /// One entry.
    One(Entry),
    /// Any number of them.
    Many(Vec<Entry>),
}

/// Entries that a line asks for in one job: 1 to [`MAX_CHANGES`], all of one place, which is not the writer's, and none a Sweep.
/// Contracts see them as a list.
#[derive(Debug, Drop)]
pub struct Changes {
    entries: Entries,
}

impl Model for Changes {
    ghost use Rattle.std.specs.Prelude.{List};
    ghost use Rattle.rs_message.specs.declared.entry.Entry.{Entry};
    ghost use Rattle.rs_intake_queue.specs.Changes.{AreOfOneJob, listed};

    ghost Value = { List Entry };

    ghost view = { λ c. listed c.entries };

    ghost invariant = { λ c. AreOfOneJob (listed c.entries) };
}

impl Changes {
    pub(crate) fn new(entries: Vec<Entry>) -> Changes
        requires { AreOfOneJob entries.items }
        ensures { result ≡ entries.items }
    {
        Changes {
            entries: Entries::Many(entries),
        }
    }

    /// This entry alone. It takes no memory.
    pub(crate) fn one(entry: Entry) -> Changes
        requires { AreOfOneJob (entry ∷ []) }
        ensures { result ≡ entry ∷ [] }
    {
        Changes {
            entries: Entries::One(entry),
        }
    }

    /// How many they are.
    pub fn len(&self) -> usize
        ensures len { result ≡ length self.now }
        ensures changes { AreOfOneJob self.now }
    {
        match &self.entries {
            Entries::One(_) => 1,
            Entries::Many(entries) => entries.len(),
        }
    }

    /// Their place.
    pub fn place(&self) -> u16
        ensures place { result ≡ place_of_all self.now }
        ensures some { 0 < result }
        ensures small { result ≤ MAX_LINES }
    {
        match &self.entries {
            Entries::One(entry) => entry.origin.place(),
            Entries::Many(entries) => place_of(entries),
        }
    }

    /// The entries, in their order.
    pub fn into_entries(self) -> Entries
        ensures entries { listed result ≡ self }
        ensures changes { AreOfOneJob (listed result) }
    {
        self.entries
    }
}

/// The place of the first.
fn place_of(entries: &Vec<Entry>) -> u16
    requires { AreOfOneJob entries.now.items }
    ensures place { result ≡ place_of_all entries.now.items }
    ensures small { result ≤ MAX_LINES }
{
    let Some(first) = entries.first() else {
        unreachable!()
    };
    first.origin.place()
}

/// What a line sends to the writer.
#[derive(Debug, Drop)]
pub enum Job {
    /// Makes these entries, one after the other.
    Put(Changes),
    /// The line of this place sends nothing more.
    End(u16),
}
