//! The message of one spot, or none.

ghost use Rattle.std.specs.Prelude.{◌≡◌, IfOk};
ghost use Rattle.rs_tree_bucket.specs.Chosen.{own_chosen};
ghost use Rattle.rs_tree_bucket.specs.Answers.{Gives};

use rs_message::Found;
use rs_store::{Answer, Stop, is_expired};
use std::alloc::AllocError;

/// Appends a copy of the message of one spot, unless it is expired.
pub fn answer_retained(retained: &Option<Found>, now: u64, answer: &mut Answer) -> Result<(), Stop>
    ensures { Gives result answer.old answer.new (own_chosen now retained.now) }
{
    let Some(found) = retained else {
        return Ok(());
    };
    if is_expired(found.message(), now) {
        return Ok(());
    }
    answer.push(found)
}

/// One more owner of the message of one spot, if there is one.
pub fn copy_retained(retained: &Option<Found>) -> Result<Option<Found>, AllocError>
    ensures { IfOk result (λ h. h ≡ retained.now) }
{
    match retained {
        None => Ok(None),
        Some(found) => Ok(Some(found.copy()?)),
    }
}
