//! What the places of a run do.

ghost use Rattle.std.specs.Prelude.{◌≡◌, false, IfSome};
ghost use Rattle.rs_message.specs.Messages.{is_sweep};

use kit_test::{PAYLOAD, clear, set_at};
use rs_message::{MAX_PLACES, Operation};
use rs_topic::MAX_TEXT_SIZE;
use std::alloc::Global;

/// How many Sets a place of `Hundred` and of `Beside` submits.
pub(crate) const SETS: u32 = 100;

/// How many changes the first place of `Unread` announces, and the first of the steps that say which.
const UNREAD: (u32, u32) = (256, 10);

/// How often a place of `Beside` reads meanwhile.
const READS: u32 = 500;

/// What a place does in one step.
#[derive(Clone, Copy)]
pub(crate) enum Act {
    /// Submits a Set: its topic, its payload, the moment at which the message came, and for how long it lasts.
    Set([u8; 2], [u8; 2], u64, Option<u32>),
    /// Submits the Set of the longest topic, with as long a payload as fits.
    Largest,
    /// Submits the Clear of a topic.
    Clear([u8; 2]),
    /// Announces the changes of so many steps, from this one on, which are sent.
    Expect(u32, u32),
    /// Hands the line on.
    HandOn,
    /// Reads all messages at this moment.
    Read(u64),
    /// Waits until all places have come to their meeting of this number.
    Meet(u64),
    Nothing,
}

/// What the places do, step by step.
#[derive(Clone, Copy)]
pub(crate) enum Script {
    /// Five changes of four topics.
    Changes,
    /// The first two of these changes.
    Two,
    /// Changes that are announced, in jobs of three and of five.
    Together,
    /// The first place announces three changes. Then the other submits one, and then the first its three. At last it announces three, hands
    /// its line on, and submits the first of them.
    Early,
    /// One change. Then two are announced, and submitted.
    Late,
    /// The first place announces as many changes as a job carries, and submits one of them. Then the other submits one. Then the first
    /// hands its line on, and submits one more.
    Unread,
    /// Sets of the place's own topic, with their numbers. Then the places meet, and read.
    Hundred,
    /// The last place submits the largest entry, and reads it.
    Largest,
    /// The first place submits Sets, and the others read. Then they meet, and read.
    Beside,
    /// Three rounds: a Set of a new topic, which lasts for a second, and a meeting. Then all read.
    Rounds,
    /// Sets, Clears and reads at random, from this seed.
    Random(u64),
}

impl Script {
    /// How many steps there are.
    pub(crate) fn steps(&self) -> u32 {
        match self {
            Script::Changes => 5,
            Script::Together => 17,
            Script::Two | Script::Largest => 2,
            Script::Early => 10,
            Script::Late => 4,
            Script::Unread => 7,
            Script::Hundred => 102,
            Script::Beside => 502,
            Script::Rounds => 7,
            Script::Random(_) => 12,
        }
    }

    /// What the place does in this step.
    pub(crate) fn act(&self, place: u16, step: u32, random: u64) -> Act {
        match self {
            Script::Changes | Script::Two => change_at(step),
            Script::Together => act_together(step),
            Script::Early => act_early(place, step),
            Script::Late if step == 1 => Act::Expect(2, 2),
            Script::Late => change_at(step),
            Script::Unread => act_unread(place, step),
            Script::Hundred => act_of_hundred(place, step),
            Script::Largest if place < u16::from(MAX_PLACES) => Act::Nothing,
            Script::Largest if step == 0 => Act::Largest,
            Script::Largest => Act::Read(u64::MAX),
            Script::Beside => act_beside(place, step),
            Script::Rounds => act_of_round(place, step),
            Script::Random(_) => any_act(place, step, random),
        }
    }
}

/// Text of two letters, the first of which is of the place.
fn pair(place: u16, number: u32) -> [u8; 2] {
    [
        b'0'.saturating_add((place % 128) as u8),
        b'0'.saturating_add((number % 128) as u8),
    ]
}

fn set(topic: [u8; 2], payload: [u8; 2]) -> Act {
    Act::Set(topic, payload, 0, None)
}

fn change_at(step: u32) -> Act {
    match step {
        0 => set(*b"a0", *b"00"),
        1 => set(*b"b0", *b"01"),
        2 => set(*b"c0", *b"02"),
        3 => set(*b"a0", *b"03"),
        _ => Act::Clear(*b"d0"),
    }
}

/// In a store of two topics. The third change of the first job needs a Sweep. In the second job, the first change replaces a message, the
/// second one fills the store, the third one finds it full, and the others are kept. In the third job, the second change is not what is
/// submitted then, and the line is handed on.
fn act_together(step: u32) -> Act {
    match step {
        0 => Act::Expect(1, 3),
        1 => Act::Set(*b"a0", *b"01", 10, Some(1)),
        2 => Act::Set(*b"b0", *b"02", 10, Some(1)),
        3 => Act::Set(*b"c0", *b"03", 20, Some(1)),
        4 => Act::Expect(5, 5),
        5 => Act::Set(*b"c0", *b"05", 20, None),
        6 => Act::Set(*b"d0", *b"06", 20, None),
        7 => Act::Set(*b"e0", *b"07", 20, None),
        8 => Act::Set(*b"d0", *b"08", 20, None),
        9 => Act::Clear(*b"c0"),
        10 => Act::Expect(14, 3),
        11 | 14 => set(*b"f0", *b"14"),
        12 => set(*b"g0", *b"12"),
        13 => Act::HandOn,
        15 => Act::Clear(*b"d0"),
        _ => Act::Clear(*b"f0"),
    }
}

fn act_early(place: u16, step: u32) -> Act {
    match (place, step) {
        (_, 1) => Act::Meet(1),
        (_, 3) => Act::Meet(2),
        (1, 0 | 7) => Act::Expect(4, 3),
        (1, 4 | 9) => set(*b"a0", *b"04"),
        (1, 5) => set(*b"b0", *b"05"),
        (1, 6) => Act::Clear(*b"a0"),
        (1, 8) => Act::HandOn,
        (2, 2) => set(*b"c0", *b"02"),
        _ => Act::Nothing,
    }
}

/// From the step that is announced first on, the steps say what is announced, and none is taken.
fn act_unread(place: u16, step: u32) -> Act {
    let (count, first) = UNREAD;
    match (place, step) {
        (_, 2) => Act::Meet(1),
        (_, 4) => Act::Meet(2),
        (1, 0) => Act::Expect(first, count),
        (1, 1) => set(*b"a0", pair(0, first)),
        (1, 5) => Act::HandOn,
        (1, 3) | (2, 0 | 1 | 5 | 6) => Act::Nothing,
        (2, _) => set(*b"b0", *b"00"),
        _ => set(*b"a0", pair(0, step)),
    }
}

fn act_of_hundred(place: u16, step: u32) -> Act {
    if step < SETS {
        return set(pair(place, 0), pair(0, step));
    }
    if step == SETS {
        return Act::Meet(1);
    }
    Act::Read(0)
}

/// The payload of the last Set of `Hundred`.
pub(crate) fn last_of_hundred() -> [u8; 2] {
    pair(0, SETS - 1)
}

fn act_beside(place: u16, step: u32) -> Act {
    if step == READS {
        return Act::Meet(1);
    }
    if place > 1 || step > READS {
        return Act::Read(0);
    }
    if step < SETS {
        return set(*b"a0", pair(0, step));
    }
    Act::Nothing
}

/// The moments of the rounds are 10, 20 and 30.
fn act_of_round(place: u16, step: u32) -> Act {
    if step > 5 {
        return Act::Read(30);
    }
    let round = step / 2 + 1;
    if step % 2 == 1 {
        return Act::Meet(u64::from(round));
    }
    Act::Set(pair(place, round), *b"00", u64::from(round) * 10, Some(1))
}

/// In a third of the steps a read, else a Set of one of four topics, three of four times, or its Clear.
fn any_act(place: u16, step: u32, random: u64) -> Act {
    if random / 64 % 3 == 0 {
        return Act::Read(0);
    }
    let topic = [b'0'.saturating_add((random % 4) as u8), b'0'];
    if random / 4 % 4 == 0 {
        return Act::Clear(topic);
    }
    set(topic, pair(place, step))
}

fn repeated(alloc: Global, byte: u8, count: usize) -> Option<Vec<u8>> {
    let mut bytes = Vec::new(alloc);
    for _ in 0..count {
        bytes.push(byte).ok()?;
    }
    Some(bytes)
}

pub(crate) fn largest(alloc: Global) -> Option<Operation>
    ensures { IfSome result (λ o. is_sweep o ≡ false) }
{
    let topic = repeated(alloc, b'a', MAX_TEXT_SIZE)?;
    let payload = repeated(alloc, b'x', PAYLOAD)?;
    let (topic, payload) = (topic.as_slice(), payload.as_slice());
    set_at(alloc, topic, payload, u64::MAX, Some(u32::MAX))
}

/// The operation that is submitted. `None` if nothing is, or if memory is refused.
pub(crate) fn operation_of(alloc: Global, act: Act) -> Option<Operation>
    ensures { IfSome result (λ o. is_sweep o ≡ false) }
{
    match act {
        Act::Set(topic, payload, received, expiry) => {
            set_at(alloc, &topic, &payload, received, expiry)
        }
        Act::Largest => largest(alloc),
        Act::Clear(topic) => clear(alloc, &topic),
        Act::Expect(_, _) | Act::HandOn | Act::Read(_) | Act::Meet(_) | Act::Nothing => None,
    }
}
