//! Topics, messages and entries by number, to work with.

ghost use Rattle.std.specs.Prelude.{◌≡◌, ◌≤◌, ◌≢◌, [], false, length, IfOk};
ghost use Rattle.rs_message.specs.Messages.{is_sweep};

use crate::failure::Failure;
use bytes::Bytes;
use rs_message::{Entry, Found, Message, Operation, Origin, Properties, Qos};
use rs_topic::{MAX_LEVELS, TopicName};
use std::alloc::{AllocError, Global};

const PAYLOAD: &[u8] = b"0123456789abcdef0123456789abcdef0123456789abcdef0123456789abcdef";

/// A message with memory of its own, of this quality, that came at this moment.
#[tactic(auto, using(rs_message::proofs::Sizes::small_message))]
fn message(
    alloc: Global,
    payload: &[u8],
    qos: Qos,
    received: u64,
    expiry: Option<u32>,
) -> Result<Message, AllocError>
    requires some { payload.now ≢ [] }
    requires small { length payload.now ≤ 1000 }
{
    let payload = Bytes::copy_from_slice(alloc, payload)?;
    Ok(Message::new(payload, qos, received, expiry, Properties::none()))
}

/// So many messages of this topic, as one answer of the store. The qualities come in turn.
pub fn messages(
    alloc: Global,
    topic: &TopicName,
    count: u32,
    qualities: [Qos; 2],
) -> Result<Vec<Found>, Failure> {
    let mut all = Vec::with_capacity(alloc, count as usize)?;
    for n in 0..count {
        let qos = qualities[(n % 2) as usize];
        let message = message(alloc, PAYLOAD, qos, 0, None)?;
        let topic = topic.copy()?;
        all.push(Found::new(alloc, topic, message)?)?;
    }
    Ok(all)
}

/// So many topics in a row make a house: more below one level than the tree keeps without a branch.
pub const HOUSE: u64 = 16;

/// Which topics the numbers mean.
#[derive(Clone, Copy)]
pub enum Naming {
    /// Topics of a tree of levels. Of four in a row the first is new at the root, the second in the middle, the third below a
    /// message, and the fourth above others. The last of a house stands beside a level below which all its other doors are.
    Houses,
    /// Topics of four levels and 64 bytes. Ten in a row share the first two levels. The last level is `x` for number 0 alone.
    Even,
    /// Topics of the most levels. Of eleven in a row the first two share all levels but the last, and so do the other nine, which
    /// are more than the tree keeps without a branch.
    Deep,
}

/// The text of the topic of this number, whose last level is still to come in a deep one.
fn text(alloc: Global, naming: Naming, number: u64) -> Result<String, AllocError> {
    match naming {
        Naming::Houses => {
            let (house, part) = (number / HOUSE, number % HOUSE);
            let door = part / 4;
            let (above, below) = match part % 4 {
                0 => ("-", ""),
                1 => ("/door/main/", "/state"),
                2 => ("/door/main/", "/state/since"),
                _ if part == HOUSE - 1 => ("/door/side", ""),
                _ => ("/door/main/", ""),
            };
            format!(in alloc; "{house:06}{above}{door}{below}")
        }
        Naming::Even => {
            let (house, room) = (number / 1000, number / 10);
            let last = if number == 0 { "x" } else { "y" };
            format!(in alloc; "{house:020}/{room:020}/{number:020}/{last}")
        }
        Naming::Deep => {
            let (row, part) = (number / 11, number % 11);
            let group = if part < 2 { 2 * row } else { 2 * row + 1 };
            format!(in alloc; "{group:05}")
        }
    }
}

/// The topic of this number.
pub fn topic(alloc: Global, naming: Naming, number: u64) -> Result<TopicName, Failure> {
    let mut text = text(alloc, naming, number)?;
    if let Naming::Deep = naming {
        for _ in 2..MAX_LEVELS {
            text.push_str("/a")?;
        }
        let last = format!(in alloc; "/{:x}", number % 11)?;
        text.push_str(last.as_str())?;
    }
    Ok(TopicName::read(alloc, text.as_str().as_bytes())?)
}

/// What a change does to the topic of a number.
#[derive(Clone, Copy)]
pub enum Change {
    Clear,
    /// A message that came at a moment, and the seconds after which it is expired.
    Set(u64, Option<u32>),
}

/// The change, as an operation of any place.
pub fn operation(
    alloc: Global,
    naming: Naming,
    number: u64,
    change: Change,
) -> Result<Operation, Failure>
    ensures { IfOk result (λ o. is_sweep o ≡ false) }
{
    let topic = topic(alloc, naming, number)?;
    match change {
        Change::Clear => Ok(Operation::Clear(topic)),
        Change::Set(received, expiry) => {
            let message = message(alloc, PAYLOAD, Qos::AtMostOnce, received, expiry)?;
            Ok(Operation::Set(Found::new(alloc, topic, message)?))
        }
    }
}

/// The change, as an entry of place 1 with this serial, which is not 0.
pub fn entry(
    alloc: Global,
    naming: Naming,
    serial: u64,
    number: u64,
    change: Change,
) -> Result<Entry, Failure>
    ensures { IfOk result (λ e. is_sweep e.operation ≡ false) }
{
    let Some(origin) = Origin::new(1, serial) else {
        return Err(Failure::Wrong);
    };
    let operation = operation(alloc, naming, number, change)?;
    Ok(Entry { origin, operation })
}
