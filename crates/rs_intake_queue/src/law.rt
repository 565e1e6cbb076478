//! First in, first out for each place, and the End last, as a law over the rule of the queue.

ghost use Rattle.rs_intake_queue.specs.Law.{EndIsLast, InOrder};

/// Does nothing. Its contract says what the rule of the queue always gives: what the writer took of a place is a prefix
/// of what the line of that place sent, and once the writer took the place's End, all of it.
pub fn line_order_law()
    ensures order { InOrder }
    ensures last { EndIsLast }
{}
