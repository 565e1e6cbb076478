//! First in, first out of a way back, as a law over its rule; and what the outcomes of entries say of the kept list.

ghost use Rattle.rs_intake.specs.Law.{HeardInOrder, KeptByOutcomes};

/// Does nothing. Its contract says what the rule of a way back always gives: what the line received is a prefix of what the
/// writer's end sent.
pub fn reply_order_law()
    ensures { HeardInOrder }
{}

/// Does nothing. Its contract says what follows for the kept list from the outcomes of the entries.
pub fn outcomes_law()
    ensures { KeptByOutcomes }
{}
