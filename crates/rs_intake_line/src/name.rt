//! Which queue a value belongs to, which exists in proofs alone.

use rs_version::StoreName;
use std::marker::Brand;

/// Names a store, the queue that leads to its writer, and the number of lines that lead there.
///
/// It ties the lines, the queue and the receipts of one store together, and has no calls. A program calls a function over a name
/// with [`Brand`], and picks the members there, after the store and the queue were made (see
/// `BlankQueue::open` of `rs_intake`).
pub trait LineName: StoreName {
    ghost use Rattle.std.specs.Prelude.{ℕ};
    ghost use Rattle.rs_intake_line.specs.Names.{QueueName};

    ghost queue: { QueueName };

    ghost places: { ℕ };
}

impl LineName for Brand {
    ghost use Rattle.rs_intake_line.specs.Names.{no_queue};

    ghost queue = { no_queue };

    ghost places = { 0 };
}
