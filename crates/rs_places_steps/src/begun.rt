//! What a client began with.

ghost use Rattle.std.specs.Prelude.{◌≡◌};

use std::snapshot::Snapshot;

/// What a client began with, for proofs: its turn and its gate.
#[derive(Drop)]
pub(crate) struct Begun<T, G> {
    pub(crate) turn: Snapshot<T>,
    pub(crate) gate: Snapshot<G>,
}

impl<T, G> Begun<T, G> {
    /// Of this turn and this gate.
    pub(crate) fn new(turn: &T, gate: &G) -> Begun<T, G>
        ensures turn { result.turn.value ≡ turn.now }
        ensures gate { result.gate.value ≡ gate.now }
    {
        Begun {
            turn: Snapshot::of(turn),
            gate: Snapshot::of(gate),
        }
    }
}
