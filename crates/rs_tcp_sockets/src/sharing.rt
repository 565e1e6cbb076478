//! The cell in which the two halves of a connection share a gathering writer. Each half takes the writer
//! out, works with it, and gives it back.

ghost use Rattle.std.specs.Prelude.{◌≡◌, true, false, None, IfOk};
ghost use Rattle.rs_tcp_sockets.specs.Sharing.{view_of};
ghost use Rattle.std.specs.Arc.{arc_value};
ghost use Rattle.crossbeam_queue.specs.Passes.{view, IsPassOf};

use crate::gathered::Gathered;
use crossbeam_queue::protocol::{Outcome, Protocol, Split};
use crossbeam_queue::{Pass, RuledArrayQueue};
use std::alloc::{AllocError, Global};
use std::collections::LinkedList;
use std::io::Write;
use std::sync::Arc;

/// What a half knows of the shared writer, for proofs alone: no value of it is made.
pub struct HalfView {
    /// Whether this half writes, and so knows all that was written.
    pub writes: bool,
    /// Whether this half has the writer.
    pub holds: bool,
    /// Whether nothing waited when this half gave the writer back.
    pub written_out: bool,
    /// The writer's contents as this half knows them.
    pub known: Option<LinkedList<u8>>,
}

/// The rule of the cell: what the half that writes knows are the writer's contents.
pub struct CellRule;

impl<W: Write + Drop> Protocol<Gathered<W>, HalfView> for CellRule {
    ghost use Rattle.std.specs.Prelude.{true, false, None};
    ghost use Rattle.rs_tcp_sockets.specs.Gathered.{contents_of};
    ghost use Rattle.rs_tcp_sockets.specs.Sharing.{IsShared, view_of};

    ghost holds = { IsShared (contents_of W.contents) };

    ghost first = { view_of true true false None };
}

/// A half takes the writer out.
pub struct Take;

impl<W: Write + Drop> Outcome<Gathered<W>, HalfView> for Take {
    ghost use Rattle.std.specs.Prelude.{◌≡◌, true, false};
    ghost use Rattle.std.specs.Io.KnownBytes.{Keeps};
    ghost use Rattle.rs_tcp_sockets.specs.Gathered.{contents_of};
    ghost use Rattle.rs_tcp_sockets.specs.Sharing.{view_of};

    ghost then = { λ v x w. (w ≡ view_of v.writes true false (contents_of W.contents x))
        × (v.writes ≡ true → Keeps v.known (contents_of W.contents x)) };
}

/// A half gives the writer back.
pub struct GiveBack;

impl<W: Write + Drop> Outcome<Gathered<W>, HalfView> for GiveBack {
    ghost use Rattle.std.specs.Prelude.{◌≡◌, false};
    ghost use Rattle.rs_tcp_sockets.specs.Gathered.{contents_of};
    ghost use Rattle.rs_tcp_sockets.specs.Sharing.{view_of};

    ghost then = { λ v x w. w ≡ view_of v.writes false false (contents_of W.contents x) };
}

/// A half gives the writer back, and nothing waits there.
pub struct GiveBackWrittenOut;

impl<W: Write + Drop> Outcome<Gathered<W>, HalfView> for GiveBackWrittenOut {
    ghost use Rattle.std.specs.Prelude.{◌≡◌, true, false, []};
    ghost use Rattle.rs_tcp_sockets.specs.Gathered.{contents_of, waiting_of};
    ghost use Rattle.rs_tcp_sockets.specs.Sharing.{view_of};

    ghost then = { λ v x w. (w ≡ view_of v.writes false true (contents_of W.contents x)) × (waiting_of x ≡ []) };
}

/// The half that reads knows nothing of what was written.
pub struct ForReading;

impl Split<HalfView> for ForReading {
    ghost use Rattle.std.specs.Prelude.{false, None};
    ghost use Rattle.rs_tcp_sockets.specs.Sharing.{view_of};

    ghost left = { λ v. v };

    ghost right = { λ v. view_of false false false None };
}

/// The cell.
pub type WriterCell<W> = RuledArrayQueue<Gathered<W>, HalfView, CellRule>;

/// What a half knows of the cell. It has no bytes.
pub type HalfPass<W> = Pass<Gathered<W>, HalfView>;

/// A cell in which no writer lies yet.
pub(crate) fn empty_cell<W: Write + Drop>(
    alloc: Global,
) -> Result<(Arc<WriterCell<W>>, HalfPass<W>), AllocError>
    ensures { IfOk result (λ r. IsPassOf (arc_value r.0) r.1 × (view r.1 ≡ view_of true true false None)) }
{
    let (shared, pass) = WriterCell::<W>::ruled(alloc, 1)?;
    match Arc::new(alloc, shared) {
        Ok(shared) => Ok((shared, pass)),
        Err(_) => Err(AllocError),
    }
}
