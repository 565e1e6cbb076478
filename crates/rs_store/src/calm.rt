//! When the messages of a catalogue are to be looked at for expired ones.

ghost use Rattle.std.specs.Prelude.{◌≡◌, ℕ, ◌<◌, MatchBool};
ghost use Rattle.rs_store.specs.declared.content.Content.{Content};
ghost use Rattle.rs_store.specs.Contents.{empty, expired_in, followed};
ghost use Rattle.rs_store.specs.Expiring.{NoneExpiredBefore};

use crate::catalogue::Catalogue;
use crate::expiry::earliest_end;
use rs_message::{Entry, Operation};
use std::marker::Model;

/// A moment before which no message of a catalogue is expired, as far as was looked. Contracts see it as the moment, in seconds.
///
/// Whoever judges the entries of a catalogue keeps one beside it, for [`judge`](crate::judge) and [`add`](crate::add). So the
/// messages are looked at only from that moment on, and a full catalogue is not walked over for each Set that it refuses.
#[derive(Clone, Copy, Debug)]
pub struct Calm {
    until: u64,
}

impl Model for Calm {
    ghost use Rattle.std.specs.Prelude.{ℕ};

    ghost Value = { ℕ };

    ghost view = { λ c. c.until };

    ghost inverse = { λ n. record { until = n } };
}

/// A moment, or the end of the operation's message if that is earlier.
fn earliest_with(until: u64, operation: &Operation) -> u64
    ensures { (c : Content) (e : Entry) → e.operation ≡ operation.now → NoneExpiredBefore until c
        → NoneExpiredBefore result (followed c e) }
{
    match operation {
        Operation::Set(found) => earliest_end(until, found.message()),
        Operation::Clear(_) => until,
        Operation::Sweep(_) => until,
    }
}

impl Calm {
    /// Of an empty catalogue: the greatest moment.
    pub fn new() -> Calm
        ensures { (limit : ℕ) → NoneExpiredBefore result (empty limit) }
    {
        Calm { until: u64::MAX }
    }

    /// Of the catalogue with one entry more. A Set may lower the moment to the one at which its message expires.
    pub fn with_entry(&self, entry: &Entry) -> Calm
        ensures { (c : Content) → NoneExpiredBefore self.now c → NoneExpiredBefore result (followed c entry.now) }
    {
        Calm {
            until: earliest_with(self.until, &entry.operation),
        }
    }

    /// Whether a message of the catalogue is expired at a moment, in seconds. It visits each message once from the calm moment on,
    /// and a second time if none is expired, to find the first moment at which one is.
    pub fn has_expired<C: Catalogue>(&mut self, catalogue: &C, now: u64) -> bool
        requires { NoneExpiredBefore self.old (C.content catalogue.now) }
        ensures exact { MatchBool result (0 < expired_in now (C.content catalogue.now)) (expired_in now (C.content catalogue.now) ≡ 0) }
        ensures calm { NoneExpiredBefore self.new (C.content catalogue.now) }
    {
        if now < self.until {
            return false;
        }
        if catalogue.expired_count(now) > 0 {
            return true;
        }
        self.until = catalogue.earliest();
        false
    }
}
