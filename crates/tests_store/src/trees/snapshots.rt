//! Copies of a tree that goes on changing, and its messages: what they show never changes.

use super::alike::{Draw, answer_of, shown as listed};
use super::examples::take;
use super::sweeps::{change_of, sweep_of};
use rs_store::{Catalogue, Messages, TopicLimit};
use rs_topic::TopicFilter;
use rs_tree::{TreeCatalogue, TreeMessages};
use std::alloc::{AllocError, Global};
use std::process::Abort;
use std::test::Fail;
use std::thread::{JoinHandle, Threads, spawn};

/// After so many entries a copy is looked at again.
const LATER: u64 = 1000;

/// How often a thread copies the tree that it reads.
const COPIES: u32 = 20;

/// A copy, the messages alone, and what they showed after so many entries, when they were taken.
#[derive(Drop)]
struct Snapshot {
    entries: u64,
    tree: TreeCatalogue,
    messages: TreeMessages,
    shown: Vec<u8>,
}

/// What a tree shows: all its messages at moments at which more and more of them are expired, and its numbers.
pub fn shown_by(
    alloc: Global,
    tree: &TreeCatalogue,
    filter: &TopicFilter,
) -> Result<Vec<u8>, AllocError> {
    let mut all = Vec::new(alloc);
    for now in [90, 115, 140, 165] {
        let answer = answer_of(alloc, tree, filter, now)?;
        all.extend_from_slice(answer.as_slice())?;
        let expired = format!(in alloc; "{} ", tree.expired_count(now))?;
        all.extend_from_slice(expired.as_bytes())?;
    }
    let (count, earliest) = (tree.count(), tree.earliest());
    let (own, first) = (tree.last_serial(0), tree.last_serial(1));
    let numbers = format!(in alloc; "{} {count} {earliest} {own} {first}", tree.version())?;
    all.extend_from_slice(numbers.as_bytes())?;
    Ok(all)
}

fn taken(
    alloc: Global,
    tree: &TreeCatalogue,
    filter: &TopicFilter,
    entries: u64,
) -> Result<Snapshot, AllocError> {
    Ok(Snapshot {
        entries,
        tree: tree.copy()?,
        messages: tree.messages()?,
        shown: shown_by(alloc, tree, filter)?,
    })
}

/// Whether the messages answer as the tree that they were taken from, or a copy of it.
fn answer_alike(
    alloc: Global,
    messages: &TreeMessages,
    tree: &TreeCatalogue,
    filter: &TopicFilter,
) -> Result<bool, AllocError> {
    for now in [90, 115, 140, 165] {
        let wanted = answer_of(alloc, tree, filter, now)?;
        let answer = listed(alloc, &messages.answer(filter, now)?)?;
        if answer.as_slice() != wanted.as_slice() {
            return Ok(false);
        }
    }
    Ok(true)
}

/// A Set or a Clear, and now and then a Sweep of some moment.
fn step(alloc: Global, draw: &mut Draw, tree: &mut TreeCatalogue, serial: u64) -> Result<(), Fail> {
    take(tree, change_of(alloc, draw, serial)?)?;
    if draw.below(50) == 0 {
        let next = tree.last_serial(0).saturating_add(1);
        take(tree, sweep_of(next, draw.below(90).saturating_add(90))?)?;
    }
    Ok(())
}

/// The copies that were taken a thousand entries before show what they did then. Returns how many they are.
fn check_later(
    rt: &impl Abort,
    alloc: Global,
    snapshots: &[Snapshot],
    filter: &TopicFilter,
    entries: u64,
) -> Result<u32, AllocError> {
    let mut count: u32 = 0;
    for one in snapshots {
        if one.entries.saturating_add(LATER) == entries {
            let shown = shown_by(alloc, &one.tree, filter)?;
            assert!(rt; shown.as_slice() == one.shown.as_slice());
            assert!(rt; answer_alike(alloc, &one.messages, &one.tree, filter)?);
            count = count.saturating_add(1);
        }
    }
    Ok(count)
}

/// Adds an entry, copies at random moments, and looks at copies again: at how many.
fn go_on(
    rt: &impl Abort,
    alloc: Global,
    draw: &mut Draw,
    tree: &mut TreeCatalogue,
    filter: &TopicFilter,
    snapshots: &mut Vec<Snapshot>,
    entries: u64,
) -> Result<u32, Fail> {
    step(alloc, draw, tree, entries)?;
    if draw.below(40) == 0 {
        snapshots.push(taken(alloc, tree, filter, entries)?)?;
    }
    Ok(check_later(rt, alloc, snapshots.as_slice(), filter, entries)?)
}

/// Copies at random moments, and looks at each again.
fn check_copies(
    rt: &impl Abort,
    alloc: Global,
    tree: &mut TreeCatalogue,
    filter: &TopicFilter,
) -> Result<(), Fail> {
    let mut draw = Draw { state: 17 };
    let mut snapshots = Vec::new(alloc);
    let mut count: u32 = 0;
    for entries in 1..3001 {
        let looked = go_on(rt, alloc, &mut draw, tree, filter, &mut snapshots, entries)?;
        count = count.saturating_add(looked);
    }
    assert!(rt; 30 < count);
    Ok(())
}

/// Takes copies of a tree and drops them. Says whether all show what they are to show.
fn show_the_same(alloc: Global, tree: TreeCatalogue, filter: TopicFilter, wanted: Vec<u8>) -> bool {
    for _ in 0..COPIES {
        let Ok(copy) = tree.copy() else {
            return false;
        };
        let Ok(shown) = shown_by(alloc, &copy, &filter) else {
            return false;
        };
        if shown.as_slice() != wanted.as_slice() {
            return false;
        }
    }
    true
}

/// A thread that reads a copy.
fn start<R: Threads>(
    rt: &R,
    alloc: Global,
    tree: &TreeCatalogue,
    filter: &TopicFilter,
) -> Result<JoinHandle<bool>, Fail> {
    let wanted = shown_by(alloc, tree, filter)?;
    let (copy, filter) = (tree.copy()?, filter.copy()?);
    Ok(spawn(rt, move || show_the_same(alloc, copy, filter, wanted))?)
}

/// Adds an entry, and starts a thread now and then.
fn change_and_read<R: Threads>(
    rt: &R,
    alloc: Global,
    draw: &mut Draw,
    tree: &mut TreeCatalogue,
    filter: &TopicFilter,
    readers: &mut Vec<JoinHandle<bool>>,
    entries: u64,
) -> Result<(), Fail> {
    step(alloc, draw, tree, entries)?;
    if entries % 50 == 0 {
        readers.push(start(rt, alloc, tree, filter)?)?;
    }
    Ok(())
}

/// Changes the tree while threads read copies of it.
fn check_readers<R: Threads + Abort>(
    rt: &R,
    alloc: Global,
    tree: &mut TreeCatalogue,
    filter: &TopicFilter,
) -> Result<(), Fail> {
    let mut draw = Draw { state: 19 };
    let mut readers = Vec::new(alloc);
    for entries in 3001..4001 {
        change_and_read(rt, alloc, &mut draw, tree, filter, &mut readers, entries)?;
    }
    for reader in readers {
        assert!(rt; reader.join(rt));
    }
    Ok(())
}

fn check_snapshots<R: Threads + Abort>(
    rt: &R,
    alloc: Global,
    tree: &mut TreeCatalogue,
) -> Result<(), Fail> {
    let filter = TopicFilter::read(alloc, b"#")?;
    check_copies(rt, alloc, tree, &filter)?;
    check_readers(rt, alloc, tree, &filter)?;
    assert!(rt; 100 < tree.count());
    Ok(())
}

#[test]
fn copies_show_what_they_did_when_taken(rt: HostRuntime) -> Result<(), Fail> {
    let alloc = rt.alloc();
    let limit = TopicLimit::new(500).ok_or("500 is a limit")?;
    let mut tree = TreeCatalogue::new(alloc, limit)?;
    check_snapshots(&rt, alloc, &mut tree)
}
