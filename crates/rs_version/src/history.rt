//! The history of a store: the list of its entries, which exists only in proofs. At run time there is only one counter, of the rights to
//! add an entry.

use logbook::{Gain, Plain, Play, Rule};
use rs_message::Entry;
use std::marker::Brand;

/// Names a store: the history of its entries, and how many topics may hold a message.
///
/// It ties the writer, the seats and the tokens of one store together, and has no calls. A program calls a function over a name
/// with [`Brand`], and picks the two members there, after the store was made (see [`Blank::open`](crate::Blank::open)).
pub trait StoreName {
    ghost use Rattle.std.specs.Prelude.{ℕ};
    ghost use Rattle.logbook.specs.Pages.{Book};

    ghost history: { Book };

    ghost limit: { ℕ };
}

impl StoreName for Brand {
    ghost history = { record { number = 0; log_name = 0; cells_name = 0 } };

    ghost limit = { 0 };
}

/// The rule of the history: who has the right to add an entry, and did not use it, knows that the history has no such entry yet.
///
/// A right is a word of the logbook that is not brought home. Its key says which entry it adds. There is one right for each key, and it
/// is used up by the step that adds the entry.
pub struct RightsRule;

impl Rule<Entry, u64> for RightsRule {
    ghost use Rattle.std.specs.Prelude.{[]};
    ghost use base.Fml.{ftrue};
    ghost use Rattle.rs_version.specs.HistoryRule.{AreRights};

    ghost holds = { λ cells log. AreRights cells log };

    ghost first = { [] };

    ghost hinted = { λ n log. Unit {0} };

    ghost shows = { λ log. [] };

    ghost keeps = { λ names log. ftrue };

    ghost moves = { λ ask before after answer. Unit {0} };
}

/// What the writer gains by a step: nothing.
pub struct NoGain;

impl Gain<Entry, u64> for NoGain {
    ghost use base.Fml.{ftrue};

    ghost after = { λ names about answer. ftrue };
}

/// The step that makes the next right.
pub struct MakesRight;

impl Play<Entry, u64> for MakesRight {
    ghost use Rattle.rs_version.specs.HistoryRule.{MakesNext};

    ghost then = { MakesNext };
}

/// That step asks for no entry.
impl Plain<u64, Entry, u64> for MakesRight {
    ghost use Rattle.std.specs.Prelude.{None};
    ghost use Rattle.rs_version.specs.HistoryRule.{no_entry};

    ghost ask = { λ number. no_entry };

    ghost state = { λ number. None };
}

/// The step that adds an entry, and uses the right up.
pub struct AddsEntry;

impl Play<Entry, u64> for AddsEntry {
    ghost use Rattle.rs_version.specs.HistoryRule.{AddsOne};

    ghost then = { AddsOne };
}

/// What that step asks for: the entry.
impl Plain<Entry, Entry, u64> for AddsEntry {
    ghost use Rattle.std.specs.Prelude.{None};

    ghost ask = { λ entry. entry };

    ghost state = { λ entry. None };
}

/// The step that changes nothing. Whoever has the next right sees by it that the history is not longer.
pub struct SeesWhole;

impl Play<Entry, u64> for SeesWhole {
    ghost use Rattle.rs_version.specs.HistoryRule.{SeesAll};

    ghost then = { SeesAll };
}

/// That step asks for no entry.
impl Plain<u64, Entry, u64> for SeesWhole {
    ghost use Rattle.std.specs.Prelude.{None};
    ghost use Rattle.rs_version.specs.HistoryRule.{no_entry};

    ghost ask = { λ number. no_entry };

    ghost state = { λ number. None };
}
