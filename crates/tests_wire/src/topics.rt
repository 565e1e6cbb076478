//! Worked examples, and each public call once with ample memory.

use kit_test::is_shown;
use rs_topic::{
    Levels, MAX_LEVELS, MAX_TEXT_SIZE, Text, TopicFault, TopicFilter, TopicName, level_law,
    match_law, order_law, reading_law,
};
use std::alloc::{AllocError, Global};
use std::cmp::Ordering;
use std::test::Fail;

struct Match {
    filter: &'static [u8],
    name: &'static [u8],
    wanted: bool,
}

static MATCHES: [Match; 17] = [
    Match {
        filter: b"sport/#",
        name: b"sport",
        wanted: true,
    },
    Match {
        filter: b"sport/#",
        name: b"sport/",
        wanted: true,
    },
    Match {
        filter: b"sport/#",
        name: b"sport/tennis/player1",
        wanted: true,
    },
    Match {
        filter: b"sport/#",
        name: b"sports",
        wanted: false,
    },
    Match {
        filter: b"sport/+",
        name: b"sport/",
        wanted: true,
    },
    Match {
        filter: b"sport/+",
        name: b"sport",
        wanted: false,
    },
    Match {
        filter: b"sport/+",
        name: b"sport/a/b",
        wanted: false,
    },
    Match {
        filter: b"#",
        name: b"$SYS/x",
        wanted: false,
    },
    Match {
        filter: b"+/x",
        name: b"$SYS/x",
        wanted: false,
    },
    Match {
        filter: b"$SYS/#",
        name: b"$SYS/x",
        wanted: true,
    },
    Match {
        filter: b"a/+",
        name: b"a/$x",
        wanted: true,
    },
    Match {
        filter: b"+/+",
        name: b"/finance",
        wanted: true,
    },
    Match {
        filter: b"/+",
        name: b"/finance",
        wanted: true,
    },
    Match {
        filter: b"+",
        name: b"/finance",
        wanted: false,
    },
    Match {
        filter: b"$share",
        name: b"$share",
        wanted: true,
    },
    Match {
        filter: b"#",
        name: b"a/b",
        wanted: true,
    },
    Match {
        filter: b"a/b",
        name: b"a/B",
        wanted: false,
    },
];

fn is_matched(alloc: Global, row: &Match) -> Result<bool, TopicFault> {
    let filter = TopicFilter::read(alloc, row.filter)?;
    let name = TopicName::read(alloc, row.name)?;
    Ok(filter.matches(&name) == row.wanted)
}

#[test]
fn filters_match_names(rt: HostRuntime) -> Result<(), Fail> {
    for row in MATCHES.iter() {
        assert!(rt; is_matched(rt.alloc(), row)?);
    }
    Ok(())
}

struct Reading {
    bytes: &'static [u8],
    text: Option<TopicFault>,
    name: Option<TopicFault>,
    filter: Option<TopicFault>,
}

static READINGS: [Reading; 13] = [
    Reading {
        bytes: b"",
        text: None,
        name: Some(TopicFault::Empty),
        filter: Some(TopicFault::Empty),
    },
    Reading {
        bytes: b"a\xff+\x00",
        text: Some(TopicFault::NotUtf8),
        name: Some(TopicFault::NotUtf8),
        filter: Some(TopicFault::NotUtf8),
    },
    Reading {
        bytes: b"a\x00+",
        text: Some(TopicFault::HasNul),
        name: Some(TopicFault::HasNul),
        filter: Some(TopicFault::HasNul),
    },
    Reading {
        bytes: b"a#",
        text: None,
        name: Some(TopicFault::HasWildcard),
        filter: Some(TopicFault::BadWildcard),
    },
    Reading {
        bytes: b"a/#/b",
        text: None,
        name: Some(TopicFault::HasWildcard),
        filter: Some(TopicFault::BadWildcard),
    },
    Reading {
        bytes: b"a+/b",
        text: None,
        name: Some(TopicFault::HasWildcard),
        filter: Some(TopicFault::BadWildcard),
    },
    Reading {
        bytes: b"##",
        text: None,
        name: Some(TopicFault::HasWildcard),
        filter: Some(TopicFault::BadWildcard),
    },
    Reading {
        bytes: b"+/a/#",
        text: None,
        name: Some(TopicFault::HasWildcard),
        filter: None,
    },
    Reading {
        bytes: b"$share/g/a",
        text: None,
        name: None,
        filter: Some(TopicFault::Shared),
    },
    Reading {
        bytes: b"$share/a#",
        text: None,
        name: Some(TopicFault::HasWildcard),
        filter: Some(TopicFault::Shared),
    },
    Reading {
        bytes: b"$share",
        text: None,
        name: None,
        filter: None,
    },
    Reading {
        bytes: b"/",
        text: None,
        name: None,
        filter: None,
    },
    Reading {
        bytes: b"caf\xc3\xa9 au lait",
        text: None,
        name: None,
        filter: None,
    },
];

/// What reading these bytes as a text, a name and a filter answers: the fault, or None.
fn faults_of(alloc: Global, bytes: &[u8]) -> [Option<TopicFault>; 3] {
    [
        Text::read(alloc, bytes).err(),
        TopicName::read(alloc, bytes).err(),
        TopicFilter::read(alloc, bytes).err(),
    ]
}

#[test]
fn the_first_fault_is_answered(rt: HostRuntime) {
    for row in READINGS.iter() {
        let wanted = [row.text, row.name, row.filter];
        assert!(rt; faults_of(rt.alloc(), row.bytes) == wanted);
    }
}

/// A byte so many times, the fault of a text of these bytes, and that of a name and of a filter.
type Repeated = (u8, usize, Option<TopicFault>, Option<TopicFault>);

/// The longest text and the most levels, and one byte and one level more.
static LIMITS: [Repeated; 4] = [
    (b'x', MAX_TEXT_SIZE, None, None),
    (
        b'x',
        MAX_TEXT_SIZE + 1,
        Some(TopicFault::TooLong),
        Some(TopicFault::TooLong),
    ),
    (b'/', MAX_LEVELS - 1, None, None),
    (b'/', MAX_LEVELS, None, Some(TopicFault::TooManyLevels)),
];

fn has_faults(alloc: Global, row: &Repeated) -> Result<bool, AllocError> {
    let bytes = vec![in alloc; row.0; row.1]?;
    Ok(faults_of(alloc, &bytes) == [row.2, row.3, row.3])
}

#[test]
fn one_byte_and_one_level_more_are_too_many(rt: HostRuntime) -> Result<(), Fail> {
    for row in LIMITS.iter() {
        assert!(rt; has_faults(rt.alloc(), row)?);
    }
    Ok(())
}

fn is_text_copied(alloc: Global, bytes: &[u8], is_plain: bool) -> Result<bool, Fail> {
    let text = Text::read(alloc, bytes)?;
    let copy = text.copy()?;
    let is_same = copy == text && copy.as_bytes() == bytes;
    Ok(is_same && copy.is_plain() == is_plain && copy.is_empty() == bytes.is_empty())
}

fn is_name_copied(alloc: Global, bytes: &[u8]) -> Result<bool, Fail> {
    let name = TopicName::try_from(Text::read(alloc, bytes)?)?;
    let copy = name.copy()?;
    Ok(copy == name && copy.as_bytes() == bytes)
}

fn is_filter_copied(alloc: Global, bytes: &[u8]) -> Result<bool, Fail> {
    let filter = TopicFilter::try_from(Text::read(alloc, bytes)?)?;
    let copy = filter.copy()?;
    Ok(copy == filter && copy.as_bytes() == bytes)
}

/// Bytes read as a text, as a filter, and as a name if they have no wildcard, are copied.
fn are_copied(alloc: Global, bytes: &[u8], is_plain: bool) -> Result<bool, Fail> {
    let is_copied = is_text_copied(alloc, bytes, is_plain)? && is_filter_copied(alloc, bytes)?;
    if is_plain {
        return Ok(is_copied && is_name_copied(alloc, bytes)?);
    }
    Ok(is_copied)
}

#[test]
fn copies_of_the_greatest_texts_are_equal(rt: HostRuntime) -> Result<(), Fail> {
    for (byte, count) in [(b'x', MAX_TEXT_SIZE), (b'/', MAX_LEVELS - 1)] {
        let bytes = vec![in rt.alloc(); byte; count]?;
        assert!(rt; are_copied(rt.alloc(), &bytes, true)?);
    }
    Ok(())
}

#[test]
fn copies_of_the_least_texts_are_equal(rt: HostRuntime) -> Result<(), Fail> {
    assert!(rt; is_text_copied(rt.alloc(), b"", true)?);
    assert!(rt; are_copied(rt.alloc(), b"$share", true)?);
    assert!(rt; are_copied(rt.alloc(), b"a/b", true)?);
    assert!(rt; are_copied(rt.alloc(), b"a/+", false)?);
    Ok(())
}

struct Shown {
    fault: TopicFault,
    code: u8,
    text: &'static str,
}

static SHOWN: [Shown; 9] = [
    Shown {
        fault: TopicFault::Empty,
        code: 1,
        text: "a topic is empty: give at least one character",
    },
    Shown {
        fault: TopicFault::TooLong,
        code: 2,
        text: "a text has more than 65535 bytes: shorten it",
    },
    Shown {
        fault: TopicFault::NotUtf8,
        code: 3,
        text: "a text is not UTF-8: encode it as UTF-8",
    },
    Shown {
        fault: TopicFault::HasNul,
        code: 4,
        text: "a text contains the character U+0000: leave it out",
    },
    Shown {
        fault: TopicFault::HasWildcard,
        code: 5,
        text: "a topic name contains the wildcard `+` or `#`: publish to one topic at a time",
    },
    Shown {
        fault: TopicFault::BadWildcard,
        code: 6,
        text: "a wildcard is misplaced: `+` has to fill a level of a topic filter, and `#` its last level",
    },
    Shown {
        fault: TopicFault::TooManyLevels,
        code: 7,
        text: "a topic has more than 128 levels: use fewer slashes",
    },
    Shown {
        fault: TopicFault::Shared,
        code: 8,
        text: "shared subscriptions are not supported: leave out `$share/` and the share name",
    },
    Shown {
        fault: TopicFault::NoMemory,
        code: 9,
        text: "there is no memory for a copy of the text: try again later",
    },
];

#[test]
fn faults_have_codes_and_texts(rt: HostRuntime) -> Result<(), Fail> {
    for row in SHOWN.iter() {
        assert!(rt; row.fault.code() == row.code);
        assert!(rt; is_shown(rt.alloc(), &row.fault, row.text));
    }
    Ok(())
}

static RISING: [&[u8]; 8] = [b"/", b"$s", b"a", b"a/", b"a/b", b"a.b", b"aa", b"b"];

/// Whether the name of the first bytes comes before that of the second.
fn is_before(alloc: Global, first: &[u8], second: &[u8]) -> Result<bool, Fail> {
    let first = TopicName::read(alloc, first)?;
    let second = TopicName::read(alloc, second)?;
    let is_less = first.cmp(&second) == Ordering::Less && first < second;
    Ok(is_less && second.cmp(&first) == Ordering::Greater && first != second)
}

#[test]
fn names_are_ordered_as_replayed(rt: HostRuntime) -> Result<(), Fail> {
    let mut last = RISING[0];
    for bytes in RISING[1..].iter() {
        assert!(rt; is_before(rt.alloc(), last, bytes)?);
        last = bytes;
    }
    level_law();
    match_law();
    order_law();
    reading_law();
    Ok(())
}

/// Whether these are the levels, in this order.
fn are_levels(levels: Levels<'_>, wanted: &[&[u8]]) -> bool {
    let mut wanted = wanted.iter();
    for level in levels {
        if wanted.next() != Some(&level) {
            return false;
        }
    }
    wanted.next().is_none()
}

#[test]
fn levels_come_in_order(rt: HostRuntime) -> Result<(), Fail> {
    let name = TopicName::read(rt.alloc(), b"/a//b")?;
    assert!(rt; are_levels(name.levels(), &[b"", b"a", b"", b"b"]));
    let filter = TopicFilter::read(rt.alloc(), b"+/#")?;
    assert!(rt; are_levels(filter.levels(), &[b"+", b"#"]));
    Ok(())
}

/// Whether the filters of these bytes are equal.
fn are_equal(alloc: Global, first: &[u8], second: &[u8]) -> Result<bool, Fail> {
    let first = TopicFilter::read(alloc, first)?;
    let second = TopicFilter::try_from(Text::read(alloc, second)?)?;
    Ok(first == second)
}

#[test]
fn filters_are_equal_if_their_bytes_are(rt: HostRuntime) -> Result<(), Fail> {
    assert!(rt; are_equal(rt.alloc(), b"a/+", b"a/+")?);
    assert!(rt; !are_equal(rt.alloc(), b"a/+", b"a/#")?);
    Ok(())
}

/// If memory is refused the answer is NoMemory; a fault of the bytes comes first.
#[test]
fn no_memory_is_answered_only_if_there_is_no_other_fault(rt: HostRuntime) {
    for fault in faults_of(rt.alloc(), b"a/b") {
        assert!(rt; fault.is_none() || fault == Some(TopicFault::NoMemory));
    }
    let [_, name, _] = faults_of(rt.alloc(), b"a/+");
    assert!(rt; name == Some(TopicFault::HasWildcard));
}
