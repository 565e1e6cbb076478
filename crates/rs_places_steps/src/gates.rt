//! Gates to a store that other gates use too.

ghost use Rattle.std.specs.Prelude.{◌≡◌, [], List};
ghost use Rattle.rs_message.specs.declared.entry.Entry.{Entry};
ghost use Rattle.rs_intake_queue.specs.declared.job.TheConstants.{MAX_CHANGES};
ghost use Rattle.rs_intake_queue.specs.Changes.{AreOfLine};
ghost use Rattle.rs_intake_queue.specs.Ends.{IsClosed};
ghost use Rattle.rs_session.specs.Gate.{Sends};
ghost use Rattle.rs_store.specs.History.{IsLegal};
ghost use Rattle.rs_places_steps.specs.Shared.{HandsOn, Knows, operations_of};

use rs_session::Gate;
use rs_version::{StoreName, Told};
use std::marker::Model;

/// A gate to a store that other gates use too. It stands for the list that it knows, and for no other.
pub trait StoreGate: Gate {
    ghost use Rattle.rs_places_steps.specs.Shared.{SharedValue};

    /// Of which store it is.
    type Name: StoreName;

    /// What contracts see of it.
    ghost shared: { Self → SharedValue };

    /// The place.
    fn place(&self) -> u16
        ensures { result ≡ (shared self.now).mark.place };

    /// A token of the list that it knows. By it this list is compared with those that other gates know ([`Told::reaches`]).
    fn told(&self) -> Told<Self::Name>
        ensures told { result ≡ (shared self.now).known }
        ensures legal { IsLegal Self.Name.limit (shared self.now).known };

    /// The lists that it stands for are those that it knows.
    ghost knows: { (gate : Self) (list : List Entry) → Self.stands gate list → Knows Self.Name.limit (shared gate) list };

    ghost known: { (gate : Self) (list : List Entry) → Knows Self.Name.limit (shared gate) list → Self.stands gate list };

    /// Its mark, what it expects and how much of that, as contracts see them.
    ghost same_mark: { (gate : Self) → (shared gate).mark ≡ Self.mark gate };

    ghost same_pending: { (gate : Self) → (shared gate).pending ≡ Self.pending gate };

    ghost same_most: { Self.most ≡ MAX_CHANGES };
}

/// The gate of a client that has a line of its own, whose number is the place.
pub trait LineGate: StoreGate {
    ghost use Rattle.rs_intake_queue.specs.Ends.{Closed};

    /// What is left of its line.
    type End: Drop;

    /// What contracts see of that.
    ghost closed: { Self.End → Closed };

    /// What was sent ahead counts as submitted, as if the gate had done so and dropped the replies, for which it waits. Whoever serves the
    /// next connection with the gate calls it first.
    fn hand_on(&mut self)
        ensures known { (Self.shared self.new).known ≡ (Self.shared self.old).known }
        ensures mark { (tail : List Entry) × HandsOn (Self.shared self.old).mark tail (Self.shared self.new).mark
            × (operations_of tail ≡ (Self.shared self.old).pending) }
        ensures pending { (Self.shared self.new).pending ≡ [] };

    /// Gives the gate up. The line's end keeps what the queue took from the line, what was sent ahead too.
    fn close(self) -> Self::End
        ensures place { (closed result).place ≡ (Self.shared self).mark.place }
        ensures sent { (tail : List Entry) × Sends (Self.shared self).mark.sent tail (Some (closed result).sent)
            × (operations_of tail ≡ (Self.shared self).pending) }
        ensures line { AreOfLine (closed result).place (closed result).sent }
        ensures end { IsClosed (closed result).place (closed result).ends (closed result).gone };
}

/// A gate that expects nothing, as one that no connection uses: a new one, or one that was handed on.
#[derive(Drop)]
pub struct FreeGate<G: LineGate> {
    gate: G,
}

impl<G: LineGate> Model for FreeGate<G> {
    ghost use Rattle.std.specs.Prelude.{◌≡◌, []};
    ghost use Rattle.rs_places_steps.specs.Shared.{SharedValue};

    ghost Value = { SharedValue };

    ghost view = { λ free. G.shared free.gate };

    ghost invariant = { λ free. (G.shared free.gate).pending ≡ [] };
}

impl<G: LineGate> FreeGate<G> {
    /// This gate, which expects nothing.
    pub fn new(gate: G) -> FreeGate<G>
        requires { (G.shared gate).pending ≡ [] }
        ensures { result ≡ G.shared gate }
    {
        FreeGate { gate }
    }

    /// The gate.
    pub fn into_gate(self) -> G
        ensures gate { G.shared result ≡ self }
        ensures pending { (G.shared result).pending ≡ [] }
    {
        self.gate
    }
}
