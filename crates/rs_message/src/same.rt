//! Whether two entries are equal, so that contracts see them as one.

ghost use Rattle.std.specs.Prelude.{◌≡◌, Decides};

use crate::entry::{Entry, Operation};
use crate::found::Found;
use crate::message::Message;

fn is_same_bytes(one: &[u8], other: &[u8]) -> bool
    ensures { Decides result (one.now ≡ other.now) }
{
    one == other
}

fn is_same_message(one: &Message, other: &Message) -> bool
    ensures { Decides result (one.now ≡ other.now) }
{
    one == other
}

#[tactic(auto, using(crate::proofs::Sameness::founds))]
fn is_same_found(one: &Found, other: &Found) -> bool
    ensures { Decides result (one.now ≡ other.now) }
{
    is_same_bytes(one.topic().as_bytes(), other.topic().as_bytes())
        && is_same_message(one.message(), other.message())
}

fn is_same_operation(one: &Operation, other: &Operation) -> bool
    ensures { Decides result (one.now ≡ other.now) }
{
    match one {
        Operation::Set(found) => match other {
            Operation::Set(other_found) => is_same_found(found, other_found),
            Operation::Clear(_) => false,
            Operation::Sweep(_) => false,
        },
        Operation::Clear(topic) => match other {
            Operation::Set(_) => false,
            Operation::Clear(other_topic) => {
                is_same_bytes(topic.as_bytes(), other_topic.as_bytes())
            }
            Operation::Sweep(_) => false,
        },
        Operation::Sweep(moment) => match other {
            Operation::Set(_) => false,
            Operation::Clear(_) => false,
            Operation::Sweep(other_moment) => moment == other_moment,
        },
    }
}

/// Whether the entries are equal.
#[tactic(auto, using(crate::proofs::Sameness::entries))]
pub fn is_same(one: &Entry, other: &Entry) -> bool
    ensures { Decides result (one.now ≡ other.now) }
{
    one.origin.place() == other.origin.place()
        && one.origin.serial() == other.origin.serial()
        && is_same_operation(&one.operation, &other.operation)
}
