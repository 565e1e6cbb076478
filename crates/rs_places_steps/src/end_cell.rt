//! A cell in which the end of a client comes: whoever takes it knows what that client began with.

ghost use Rattle.std.specs.Prelude.{◌≡◌, None, Some, IfOk, IfSome};
ghost use Rattle.std.specs.Arc.{arc_value};
ghost use Rattle.crossbeam_queue.specs.Passes.{view, IsPassOf};
ghost use Rattle.rs_places_steps.specs.Visits.{place_at};
ghost use Rattle.rs_places_steps.specs.Begins.{place_of};

use crate::begun::Begun;
use crate::gates::LineGate;
use crate::stages::DoneClient;
use crate::turn::Turn;
use crossbeam_queue::protocol::{Outcome, Protocol, Split};
use crossbeam_queue::{Pass, RuledArrayQueue};
use std::alloc::{AllocError, Global};
use std::sync::Arc;

/// What lies in the cell: first what the client began with, so that it is known whose end comes, and later the client once it is done.
#[derive(Drop)]
pub(crate) enum Coming<T: Turn + Drop, G: LineGate + Drop> {
    Begun(Begun<T, G>),
    Done(DoneClient<T, G>),
}

/// The rule of the cell: what lies in it came of the client that all who use it know.
pub(crate) struct EndRule;

impl<T: Turn + Drop, G: LineGate + Drop> Protocol<Coming<T, G>, Option<Begun<T, G>>> for EndRule {
    ghost use Rattle.std.specs.Prelude.{None};
    ghost use Rattle.rs_places_steps.specs.EndCell.{IsEndCell, begun_in};

    ghost holds = { IsEndCell begun_in };

    ghost first = { None };
}

/// It is said whose end comes.
pub(crate) struct Say;

impl<T: Turn + Drop, G: LineGate + Drop> Outcome<Coming<T, G>, Option<Begun<T, G>>> for Say {
    ghost use Rattle.std.specs.Prelude.{◌≡◌, Some};
    ghost use Rattle.rs_places_steps.specs.EndCell.{begun_in};

    ghost then = { λ v x w. w ≡ Some (begun_in x) };
}

/// It comes, and it is of the client that was said.
pub(crate) struct Take;

impl<T: Turn + Drop, G: LineGate + Drop> Outcome<Coming<T, G>, Option<Begun<T, G>>> for Take {
    ghost use Rattle.std.specs.Prelude.{◌≡◌, Some};
    ghost use Rattle.rs_places_steps.specs.EndCell.{begun_in};

    ghost then = { λ v x w. (w ≡ v) × (v ≡ Some (begun_in x)) };
}

/// It is put in.
pub(crate) struct Put;

impl<T: Turn + Drop, G: LineGate + Drop> Outcome<Coming<T, G>, Option<Begun<T, G>>> for Put {
    ghost use Rattle.std.specs.Prelude.{◌≡◌};

    ghost then = { λ v x w. w ≡ v };
}

/// One more knows it.
pub(crate) struct Share;

impl<T: Turn + Drop, G: LineGate + Drop> Split<Option<Begun<T, G>>> for Share {
    ghost left = { λ v. v };

    ghost right = { λ v. v };
}

type EndCell<T, G> = RuledArrayQueue<Coming<T, G>, Option<Begun<T, G>>, EndRule>;

type EndPass<T, G> = Pass<Coming<T, G>, Option<Begun<T, G>>>;

/// One of the two who know whose end comes in a cell: the one that puts it in, and the one that takes it. Contracts see what the client
/// began with.
#[derive(Drop)]
pub(crate) struct ClientEnd<T: Turn + Drop, G: LineGate + Drop> {
    cell: Arc<EndCell<T, G>>,
    pass: EndPass<T, G>,
    pub(crate) begun: Begun<T, G>,
    ghost of_cell: { IsPassOf (arc_value cell) pass },
    ghost said: { view pass ≡ Some begun },
}

/// A cell of which it was not said whose end comes.
fn empty<T: Turn + Drop, G: LineGate + Drop>(
    alloc: Global,
) -> Result<(Arc<EndCell<T, G>>, EndPass<T, G>), AllocError>
    ensures { IfOk result (λ r. IsPassOf (arc_value r.0) r.1 × (view r.1 ≡ None)) }
{
    let (cell, pass) = EndCell::<T, G>::ruled(alloc, 1)?;
    match Arc::new(alloc, cell) {
        Ok(cell) => Ok((cell, pass)),
        Err(_) => Err(AllocError),
    }
}

/// A cell in which it was said whose end comes.
fn said<T: Turn + Drop, G: LineGate + Drop>(
    alloc: Global,
    begun: Begun<T, G>,
) -> Result<(Arc<EndCell<T, G>>, EndPass<T, G>), AllocError>
    ensures of_cell { IfOk result (λ r. IsPassOf (arc_value r.0) r.1) }
    ensures said { IfOk result (λ r. view r.1 ≡ Some begun) }
{
    let (cell, mut pass) = empty::<T, G>(alloc)?;
    match cell.try_push_as::<Say>(&mut pass, Coming::Begun(begun)) {
        Ok(()) => {
            drop(cell.try_pop_as::<Take>(&mut pass));
            Ok((cell, pass))
        }
        // Never: it was empty.
        Err(_) => Err(AllocError),
    }
}

/// Both who know of the end of a client of this turn and this gate.
pub(crate) fn client_ends<T: Turn + Drop, G: LineGate + Drop>(
    alloc: Global,
    turn: &T,
    gate: &G,
) -> Result<(ClientEnd<T, G>, ClientEnd<T, G>), AllocError>
    ensures takes { IfOk result (λ both. place_of T.connections G.shared both.1.begun ≡ place_at (T.connections turn.now) (G.shared gate.now)) }
    ensures same { IfOk result (λ both. (both.0.begun.turn.value ≡ turn.now) × (both.0.begun.gate.value ≡ gate.now)) }
{
    let (cell, mut pass) = said(alloc, Begun::new(turn, gate))?;
    let own_cell = Arc::try_clone(&cell)?;
    let taking = cell.another::<Share>(&mut pass);
    let own = ClientEnd {
        cell: own_cell,
        pass,
        begun: Begun::new(turn, gate),
    };
    let other = ClientEnd {
        cell,
        pass: taking,
        begun: Begun::new(turn, gate),
    };
    Ok((own, other))
}

impl<T: Turn + Drop, G: LineGate + Drop> ClientEnd<T, G> {
    /// Puts the end of the client in. It is dropped if another one lies there, which never happens: each client is done once.
    pub(crate) fn put(self, done: DoneClient<T, G>)
        requires { done ≡ self.begun }
    {
        let ClientEnd {
            cell,
            mut pass,
            begun: _,
        } = self;
        let _ = cell.try_push_as::<Put>(&mut pass, Coming::Done(done));
    }

    /// Takes the end of the client. None, if it has not come yet.
    pub(crate) fn take(&mut self) -> Option<DoneClient<T, G>>
        ensures end { IfSome result (λ done. done ≡ self.old.begun) }
        ensures same { self.new.begun ≡ self.old.begun }
    {
        match self.cell.try_pop_as::<Take>(&mut self.pass)? {
            Coming::Done(done) => Some(done),
            // Never: it was taken out when it was said.
            Coming::Begun(_) => None,
        }
    }
}
