//! How many bytes both catalogues count, beside a count of the test's own.

use super::alike::{Draw, name_of};
use super::examples::take;
use super::sweeps::sweep_of;
use super::wide::name_of as wide_name_of;
use kit_test::{MapCatalogue, clear, origin, set_at};
use rs_message::Entry;
use rs_store::{Catalogue, TopicLimit};
use rs_topic::TopicName;
use rs_tree::TreeCatalogue;
use std::alloc::Global;
use std::process::Abort;
use std::test::Fail;

/// A topic that holds a message: how many bytes they count, and from which moment on the message is expired.
#[derive(Drop)]
struct Held {
    topic: Vec<u8>,
    bytes: u64,
    end: u64,
}

/// Both catalogues, and what they hold.
#[derive(Drop)]
struct Beside {
    map: MapCatalogue,
    tree: TreeCatalogue,
    held: Vec<Held>,
}

static PAYLOAD: [u8; 64] = [b'x'; 64];

/// How many bytes all of them count.
fn bytes_of_all(held: &[Held]) -> u64 {
    let mut bytes: u64 = 0;
    for one in held {
        bytes = bytes.saturating_add(one.bytes);
    }
    bytes
}

/// How many bytes a topic counts, 0 if it holds no message.
fn bytes_of_one(held: &[Held], topic: &[u8]) -> u64 {
    for one in held {
        if one.topic.as_slice() == topic {
            return one.bytes;
        }
    }
    0
}

/// Takes an entry into both, and says whether it is accepted.
fn take_both(rt: &impl Abort, beside: &mut Beside, entry: Entry) -> Result<bool, Fail> {
    let refused = take(&mut beside.map, entry.copy()?)?;
    assert!(rt; take(&mut beside.tree, entry)? == refused);
    Ok(refused.is_none())
}

/// Sets a topic to a message of a drawn length, which may have an interval.
fn set_one(
    rt: &impl Abort,
    draw: &mut Draw,
    beside: &mut Beside,
    alloc: Global,
    serial: u64,
    topic: &[u8],
) -> Result<(), Fail> {
    let len = draw.below(64) + 1;
    let received = draw.below(40) + 100;
    let interval = draw.below(30) + 1;
    let expires = draw.below(3) == 0;
    let payload = &PAYLOAD[..len as usize];
    let expiry = expires.then_some(interval as u32);
    let operation = set_at(alloc, topic, payload, received, expiry).ok_or("no operation")?;
    let origin = origin(1, serial)?;
    if take_both(rt, beside, Entry { origin, operation })? {
        beside.held.retain(|one| one.topic.as_slice() != topic);
        // The length of the properties takes a byte, and the interval five.
        let around: u64 = if expires { 366 } else { 361 };
        beside.held.push(Held {
            topic: Vec::from_slice(alloc, topic)?,
            bytes: around
                .saturating_add(topic.len() as u64)
                .saturating_add(len),
            end: if expires {
                received.saturating_add(interval)
            } else {
                u64::MAX
            },
        })?;
    }
    Ok(())
}

/// Clears a topic.
fn clear_one(
    rt: &impl Abort,
    beside: &mut Beside,
    alloc: Global,
    serial: u64,
    topic: &[u8],
) -> Result<(), Fail> {
    let operation = clear(alloc, topic).ok_or("no operation")?;
    let origin = origin(1, serial)?;
    assert!(rt; take_both(rt, beside, Entry { origin, operation })?);
    beside.held.retain(|one| one.topic.as_slice() != topic);
    Ok(())
}

/// Sweeps at a moment.
fn sweep_at(rt: &impl Abort, beside: &mut Beside, moment: u64) -> Result<(), Fail> {
    let next = beside.tree.last_serial(0).saturating_add(1);
    assert!(rt; take_both(rt, beside, sweep_of(next, moment)?)?);
    beside.held.retain(|one| moment < one.end);
    Ok(())
}

/// A Set, a Clear or, now and then, a Sweep. Both count as the test does, all bytes and those of the topic.
fn go_on(
    rt: &impl Abort,
    draw: &mut Draw,
    beside: &mut Beside,
    alloc: Global,
    serial: u64,
) -> Result<(), Fail> {
    let number = draw.below(300);
    let name = if draw.below(4) == 0 {
        name_of(alloc, draw)?
    } else {
        wide_name_of(alloc, number)?
    };
    match draw.below(200) {
        0 => sweep_at(rt, beside, draw.below(90).saturating_add(90))?,
        1..=49 => clear_one(rt, beside, alloc, serial, &name)?,
        _ => set_one(rt, draw, beside, alloc, serial, &name)?,
    }
    let topic = TopicName::read(alloc, &name)?;
    let (all, one) = (
        bytes_of_all(&beside.held),
        bytes_of_one(&beside.held, &name),
    );
    assert!(rt; (beside.map.bytes(), beside.map.bytes_at(&topic)) == (all, one));
    assert!(rt; (beside.tree.bytes(), beside.tree.bytes_at(&topic)) == (all, one));
    Ok(())
}

#[test]
fn both_catalogues_count_each_byte(rt: HostRuntime) -> Result<(), Fail> {
    let alloc = rt.alloc();
    let limit = TopicLimit::new(200).ok_or("200 is a limit")?;
    let mut beside = Beside {
        map: MapCatalogue::new(alloc, limit)?,
        tree: TreeCatalogue::new(alloc, limit)?,
        held: Vec::new(alloc),
    };
    let mut draw = Draw { state: 37 };
    for serial in 1..10_001 {
        go_on(&rt, &mut draw, &mut beside, alloc, serial)?;
    }
    assert!(rt; beside.tree.count() as usize == beside.held.len());
    assert!(rt; beside.tree.copy()?.bytes() == beside.map.copy()?.bytes());
    Ok(())
}
