//! A gate to a store that takes no change and never has the memory to answer.

ghost use Rattle.std.specs.Prelude.{◌≡◌, [], Some};

use rs_message::{Found, Operation, SubmitFault};
use rs_session::Gate;
use rs_topic::TopicFilter;
use std::alloc::AllocError;

/// A gate that refuses each change. It stands for the empty list and for no other, and sends nothing. Its place is 1.
#[derive(Drop)]
pub struct Refusing {
    /// What each change is answered.
    pub fault: SubmitFault,
    /// The last serial that it used. Only a change that is answered `Open` uses one. If none is left, the answer is `Full`.
    pub serial: u64,
}

/// It answers each change as a full store does.
pub const REFUSING_GATE: Refusing = Refusing {
    fault: SubmitFault::Full,
    serial: 0,
};

impl Gate for Refusing {
    ghost stands = { λ _ seen. seen ≡ [] };

    ghost mark = { λ gate. record { place = 1; serial = gate.serial; sent = Some [] } };

    fn pending_count(&self) -> usize {
        0
    }

    fn submit(&mut self, _operation: Operation) -> Result<(), SubmitFault> {
        if self.fault == SubmitFault::Open {
            let Some(serial) = self.serial.checked_add(1) else {
                return Err(SubmitFault::Full);
            };
            self.serial = serial;
        }
        Err(self.fault)
    }

    fn answer_within(
        &mut self,
        _filter: &TopicFilter,
        _now: u64,
        _room: usize,
    ) -> Result<Option<Vec<Found>>, AllocError> {
        Err(AllocError)
    }
}
