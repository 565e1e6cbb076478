//! What a session is given, at its time.

ghost use Rattle.std.specs.Prelude.{◌≡◌, false, true, IfSome};
ghost use Rattle.rs_message.specs.Messages.{is_sweep};
ghost use Rattle.rs_session.specs.Pending.{HasChange, IsChange};
ghost use Rattle.rs_session.specs.Points.{given_at};

use crate::phase::Input;
use rs_message::Operation;
use std::alloc::{AllocError, Global};
use std::marker::Model;

/// An input of a session, its time in seconds, and the change that it asks for, if that was made before.
#[derive(Drop)]
pub struct Incoming {
    pub(crate) input: Input,
    pub(crate) time: u64,
    pub(crate) change: Option<Operation>,
}

impl Model for Incoming {
    ghost use Rattle.std.specs.Prelude.{IfSome};
    ghost use Rattle.rs_session.specs.Pending.{IsChange};
    ghost use Rattle.rs_session.specs.Points.{Given, given_at};

    ghost Value = { Given };

    ghost view = { λ incoming. given_at incoming.input incoming.time };

    ghost invariant = { λ incoming. IfSome incoming.change (λ operation. IsChange (given_at incoming.input incoming.time) operation) };
}

impl Incoming {
    /// An input whose change was not made before.
    pub fn new(input: Input, now: u64) -> Incoming
        ensures { result ≡ given_at input now }
    {
        Incoming {
            input,
            time: now,
            change: None,
        }
    }

    /// An input, with its change, if that may be announced ([`Gate::expect`](crate::Gate::expect)) and no memory is refused. The change is
    /// of copies that share the bytes.
    pub fn with_change(alloc: Global, input: Input, now: u64) -> Incoming
        ensures { result ≡ given_at input now }
    {
        let change = input.change(alloc, now);
        Incoming {
            input,
            time: now,
            change,
        }
    }

    /// Its time, in seconds.
    pub fn time(&self) -> u64
        ensures { result ≡ self.now.now }
    {
        self.time
    }

    /// Whether its change was made before. Then it may be announced.
    pub fn has_change(&self) -> bool
        ensures { result ≡ true → HasChange self.now }
    {
        self.change.is_some()
    }

    /// A copy of its change, which shares the bytes, if that was made before. None also if the count of their owners is full.
    pub fn copy_change(&self) -> Option<Operation>
        ensures change { IfSome result (λ operation. IsChange self.now operation) }
        ensures none_sweeps { IfSome result (λ operation. is_sweep operation ≡ false) }
    {
        match &self.change {
            Some(change) => match change.copy() {
                Ok(copy) => Some(copy),
                Err(AllocError) => None,
            },
            None => None,
        }
    }

    /// The input alone.
    pub(crate) fn into_input(self) -> Input
        ensures { result ≡ self.input }
    {
        let Incoming {
            input,
            time: _,
            change: _,
        } = self;
        input
    }
}
