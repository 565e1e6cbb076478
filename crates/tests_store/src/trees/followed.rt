//! A tree that follows another one: where that one set its messages are hints, whether both are alike or not.

use super::alike::{Draw, name_of};
use super::examples::take;
use super::snapshots::shown_by;
use super::sweeps::sweep_of;
use super::wide::name_of as wide_name_of;
use kit_test::{clear, origin, set_at};
use rs_message::Entry;
use rs_store::{Catalogue, TopicLimit};
use rs_topic::TopicFilter;
use rs_tree::TreeCatalogue;
use std::alloc::Global;
use std::process::Abort;
use std::test::Fail;

/// Two trees of the same entries.
#[derive(Drop)]
struct Pair {
    first: TreeCatalogue,
    follower: TreeCatalogue,
}

fn new_pair(alloc: Global, limit: TopicLimit) -> Result<Pair, Fail> {
    Ok(Pair {
        first: TreeCatalogue::new(alloc, limit)?,
        follower: TreeCatalogue::new(alloc, limit)?,
    })
}

/// A Set or a Clear of one of many topics, deep or side by side, and now and then a Sweep.
fn next_entry(
    alloc: Global,
    draw: &mut Draw,
    tree: &TreeCatalogue,
    serial: u64,
) -> Result<Entry, Fail> {
    if draw.below(200) == 0 {
        let next = tree.last_serial(0).saturating_add(1);
        return sweep_of(next, draw.below(90).saturating_add(90));
    }
    let name = if draw.below(4) == 0 {
        name_of(alloc, draw)?
    } else {
        let number = draw.below(1500);
        wide_name_of(alloc, number)?
    };
    let received = draw.below(40).saturating_add(100);
    let operation = match draw.below(6) {
        0 => clear(alloc, &name),
        1 => set_at(alloc, &name, b"x", received, Some(10)),
        _ => set_at(alloc, &name, b"y", received, None),
    };
    Ok(Entry {
        origin: origin(1, serial)?,
        operation: operation.ok_or("no operation")?,
    })
}

/// Applies an entry, if it is accepted, with hints of another tree.
fn follow(tree: &mut TreeCatalogue, entry: Entry, other: &TreeCatalogue) -> Result<(), Fail> {
    if tree.accepts(&entry).is_ok() {
        tree.apply_like(entry, other)?;
    }
    Ok(())
}

/// Gives both trees of a pair an entry: the follower has the hints of the first, and that of the other pair those of the same tree.
fn go_on(
    alloc: Global,
    draws: &mut [Draw; 2],
    pair: &mut Pair,
    strange: &mut Pair,
    serial: u64,
) -> Result<(), Fail> {
    let entry = next_entry(alloc, &mut draws[0], &pair.first, serial)?;
    take(&mut pair.first, entry.copy()?)?;
    follow(&mut pair.follower, entry, &pair.first)?;
    let other = next_entry(alloc, &mut draws[1], &strange.first, serial)?;
    take(&mut strange.first, other.copy()?)?;
    follow(&mut strange.follower, other, &pair.first)
}

/// Both trees show the same.
fn check_pair(
    rt: &impl Abort,
    alloc: Global,
    pair: &Pair,
    filter: &TopicFilter,
) -> Result<(), Fail> {
    let wanted = shown_by(alloc, &pair.first, filter)?;
    let shown = shown_by(alloc, &pair.follower, filter)?;
    assert!(rt; shown.as_slice() == wanted.as_slice());
    assert!(rt; pair.first.branches() == pair.follower.branches());
    assert!(rt; pair.first.bytes() == pair.follower.bytes());
    Ok(())
}

#[test]
fn a_tree_that_follows_another_shows_the_same(rt: HostRuntime) -> Result<(), Fail> {
    let alloc = rt.alloc();
    let limit = TopicLimit::new(2000).ok_or("2,000 is a limit")?;
    let (mut pair, mut strange) = (new_pair(alloc, limit)?, new_pair(alloc, limit)?);
    let mut draws = [Draw { state: 29 }, Draw { state: 31 }];
    let filter = TopicFilter::read(alloc, b"#")?;
    for serial in 1..2001 {
        go_on(alloc, &mut draws, &mut pair, &mut strange, serial)?;
        if serial % 500 == 0 {
            check_pair(&rt, alloc, &pair, &filter)?;
            check_pair(&rt, alloc, &strange, &filter)?;
        }
    }
    assert!(rt; 500 < pair.first.count());
    Ok(())
}
