//! Clocks.

ghost use Rattle.std.specs.Prelude.{◌≡◌, ℕ, Option, None, Some};
ghost use Rattle.rs_server.specs.Clock.{Tells, moment_at};
ghost use Rattle.rs_server.specs.Moments.{told_by};

use std::collections::VecDeque;

/// A clock, by the moments that it will tell, if its type gives them.
pub trait Clock {
    ghost moments: { Self → Option (ℕ → ℕ) } = { λ _. None };

    /// The time, in whole seconds since the moment that the caller takes as 0. The system's clock takes the start of 1970.
    fn now(&mut self) -> u64
        ensures { Tells (moments self.old) (moments self.new) result };
}

/// Given times. The last one is told again and again.
#[derive(Debug, Drop)]
pub struct Moments {
    first: u64,
    rest: VecDeque<u64>,
}

impl Moments {
    /// Tells `first`, and then the others in their order, in whole seconds.
    pub fn new(first: u64, rest: Vec<u64>) -> Moments
        ensures { (k : ℕ) → told_by result k ≡ moment_at first rest.items k }
    {
        Moments {
            first,
            rest: VecDeque::from_vec(rest),
        }
    }
}

impl Clock for Moments {
    ghost moments = { λ clock. Some (told_by clock) };

    fn now(&mut self) -> u64 {
        let told = self.first;
        if let Some(next) = self.rest.pop_front() {
            self.first = next;
        }
        told
    }
}
