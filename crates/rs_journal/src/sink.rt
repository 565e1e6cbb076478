//! What takes the operations that are read.

ghost use Rattle.std.specs.Prelude.{◌++◌, ◌∷◌, [], List, OnOk};
ghost use Rattle.rs_message.specs.declared.entry.Operation.{Operation as Taken};

use rs_message::Operation;
use std::alloc::AllocError;

/// Takes operations one by one, in their order.
pub trait OperationSink {
    /// What it has is what comes of these operations, in their order.
    ghost has_taken: { Self → List Taken → Type 0 };

    /// Takes the next one.
    fn take(&mut self, operation: Operation) -> Result<(), AllocError>
        ensures { OnOk result ((before : List Taken) → has_taken self.old before → has_taken self.new (before ++ operation ∷ [])) };
}
