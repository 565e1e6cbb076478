//! How many places a store has, and how many lines.

ghost use Rattle.std.specs.Prelude.{◌≡◌, ◌<◌, ◌≤◌, ◌&&◌, nat_lt, nat_le, if◌then◌else◌, Some, None};
ghost use Rattle.rs_message.specs.declared.entry.TheConstants.{MAX_LINES, MAX_PLACES};

use crate::entry::{MAX_LINES, MAX_PLACES};
use std::marker::Model;

/// How many places a server has, each a seat to read its store and a lane of threads: 1 to [`MAX_PLACES`].
#[derive(Clone, Copy, Debug, PartialEq, Eq)]
pub struct PlaceCount {
    count: u8,
}

impl Model for PlaceCount {
    ghost use Rattle.std.specs.Prelude.{ℕ, ◌<◌, ◌≤◌};
    ghost use Rattle.rs_message.specs.declared.entry.TheConstants.{MAX_PLACES};

    ghost Value = { ℕ };

    ghost view = { λ p. p.count };

    ghost invariant = { λ p. (0 < p.count) × (p.count ≤ MAX_PLACES) };

    ghost inverse = { λ n. record { count = n } };
}

impl PlaceCount {
    /// None if the count is not 1 to [`MAX_PLACES`].
    pub fn new(count: u8) -> Option<PlaceCount>
        ensures { result ≡ (if nat_lt 0 count && nat_le count MAX_PLACES then Some count else None) }
    {
        if 0 < count && count <= MAX_PLACES {
            return Some(PlaceCount { count });
        }
        None
    }

    /// The number of places.
    pub fn get(self) -> u8
        ensures value { result ≡ self }
        ensures some { 0 < result }
        ensures small { result ≤ MAX_PLACES }
    {
        self.count
    }
}

/// How many lines lead to a store: 1 to [`MAX_LINES`]. Each client that is served at a time has one.
#[derive(Clone, Copy, Debug, PartialEq, Eq)]
pub struct LineCount {
    count: u16,
}

impl Model for LineCount {
    ghost use Rattle.std.specs.Prelude.{ℕ, ◌<◌, ◌≤◌};
    ghost use Rattle.rs_message.specs.declared.entry.TheConstants.{MAX_LINES};

    ghost Value = { ℕ };

    ghost view = { λ l. l.count };

    ghost invariant = { λ l. (0 < l.count) × (l.count ≤ MAX_LINES) };

    ghost inverse = { λ n. record { count = n } };
}

impl LineCount {
    /// None if the count is not 1 to [`MAX_LINES`].
    pub fn new(count: u16) -> Option<LineCount>
        ensures { result ≡ (if nat_lt 0 count && nat_le count MAX_LINES then Some count else None) }
    {
        if 0 < count && count <= MAX_LINES {
            return Some(LineCount { count });
        }
        None
    }

    /// A line for each place.
    pub fn of_places(places: PlaceCount) -> LineCount
        ensures { result ≡ places }
    {
        LineCount {
            count: u16::from(places.get()),
        }
    }

    /// The number of lines.
    pub fn get(self) -> u16
        ensures value { result ≡ self }
        ensures some { 0 < result }
        ensures small { result ≤ MAX_LINES }
    {
        self.count
    }
}
