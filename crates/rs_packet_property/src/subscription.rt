//! Subscription Identifiers.

use crate::limits::MAX_REMAINING_LENGTH;
use std::marker::Model;

/// A Subscription Identifier, from 1 to `MAX_REMAINING_LENGTH` (3.8.2.1.2).
#[derive(Clone, Copy, Debug)]
pub struct SubscriptionId {
    number: u32,
}

impl Model for SubscriptionId {
    ghost use Rattle.std.specs.Prelude.{ℕ};
    ghost use Rattle.rs_packet_property.specs.Forms.{IsSubscriptionId};

    ghost Value = { ℕ };

    ghost view = { λ s. s.number };

    ghost invariant = { λ s. IsSubscriptionId s.number };

    ghost inverse = { λ n. record { number = n } };
}

impl SubscriptionId {
    ghost use Rattle.std.specs.Prelude.{◌≡◌, ◌<◌, ◌&&◌, nat_lt, if◌then◌else◌, Some, None};
    ghost use Rattle.rs_packet_property.specs.Forms.{varint_end};

    /// None unless the number is 1 to `MAX_REMAINING_LENGTH`.
    pub fn new(number: u32) -> Option<SubscriptionId>
        ensures { result ≡ (if nat_lt 0 number && nat_lt number varint_end then Some number else None) }
    {
        if 0 < number && number <= MAX_REMAINING_LENGTH {
            return Some(SubscriptionId { number });
        }
        None
    }

    /// The number, from 1 to `MAX_REMAINING_LENGTH`.
    pub fn get(self) -> u32
        ensures value { result ≡ self }
        ensures some { 0 < result }
        ensures small { result < varint_end }
    {
        self.number
    }
}
