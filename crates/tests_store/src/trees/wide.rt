//! Many levels side by side, so that chunks are divided, and copies that never change.

use super::alike::{Case, LATE, check_beside, check_case, copy_both, put, put_both};
use kit_test::MapCatalogue;
use rs_store::{CalmCatalogue, Catalogue, TopicLimit};
use rs_tree::TreeCatalogue;
use std::alloc::Global;
use std::process::Abort;
use std::test::Fail;

const MANY: u64 = 1500;

/// A topic of one level, or of two, named by a number.
pub fn name_of(alloc: Global, number: u64) -> Result<Vec<u8>, Fail> {
    let mut name = Vec::new(alloc);
    let mut left = number;
    for _ in 0..4 {
        name.push(b'0' + (left % 10) as u8)?;
        left /= 10;
    }
    if number % 7 == 0 {
        name.extend_from_slice(b"/deep")?;
    }
    Ok(name)
}

/// Sets or clears the topic of a number in both.
fn put_number(
    alloc: Global,
    map: &mut CalmCatalogue<MapCatalogue>,
    tree: &mut CalmCatalogue<TreeCatalogue>,
    number: u64,
    kind: u64,
) -> Result<(), Fail> {
    let name = name_of(alloc, number)?;
    put_both(alloc, map, tree, name.as_slice(), kind)
}

/// Filters of some topics and of all.
const FILTERS: &[&[u8]] = &[b"#", b"+", b"+/deep", b"0010", b"7000/#", b"9999"];

/// What is put into both.
#[derive(Clone, Copy)]
enum Change {
    /// The topics of these numbers, taken in such steps, are set.
    Sets(u64, u64, u64),
    /// Of all topics, taken in such steps, two of three are cleared.
    Clears(u64),
    /// A topic is set when all but a quarter have expired.
    Late,
}

fn put_change(
    alloc: Global,
    map: &mut CalmCatalogue<MapCatalogue>,
    tree: &mut CalmCatalogue<TreeCatalogue>,
    change: Change,
) -> Result<(), Fail> {
    let (first, end, step, is_cleared) = match change {
        Change::Sets(first, end, step) => (first, end, step, false),
        Change::Clears(step) => (0, MANY, step, true),
        Change::Late => return put_both(alloc, map, tree, b"late", LATE),
    };
    for i in first..end {
        if !is_cleared || i % 3 > 0 {
            let kind = if is_cleared { 4 } else { i % 3 };
            put_number(alloc, map, tree, i.wrapping_mul(step) % MANY, kind)?;
        }
    }
    Ok(())
}

/// Puts the change into both. Copies stay as they were before.
fn check_changed(
    rt: &impl Abort,
    alloc: Global,
    map: &mut CalmCatalogue<MapCatalogue>,
    tree: &mut CalmCatalogue<TreeCatalogue>,
    change: Change,
) -> Result<(), Fail> {
    let old = copy_both(map, tree)?;
    match put_change(alloc, map, tree, change) {
        Ok(()) => check_beside(rt, alloc, map, tree, &old, FILTERS),
        Err(fail) => Err(fail),
    }
}

/// Sets many topics in a mixed order.
pub fn check_grown(
    rt: &impl Abort,
    alloc: Global,
    map: &mut CalmCatalogue<MapCatalogue>,
    tree: &mut CalmCatalogue<TreeCatalogue>,
    step: u64,
) -> Result<(), Fail> {
    put_change(alloc, map, tree, Change::Sets(0, MANY / 2, step))?;
    check_changed(rt, alloc, map, tree, Change::Sets(MANY / 2, MANY, step))?;
    check_changed(rt, alloc, map, tree, Change::Clears(step))
}

#[test]
fn wide_chunks_answer_alike(rt: HostRuntime) -> Result<(), Fail> {
    for step in [1, 1499, 701] {
        check_case(&rt, rt.alloc(), 2000, Case::Grown(step))?;
    }
    Ok(())
}

/// Sets as many topics as there may be, and then one more when all but a quarter have expired.
pub fn check_swept_grown(
    rt: &impl Abort,
    alloc: Global,
    map: &mut CalmCatalogue<MapCatalogue>,
    tree: &mut CalmCatalogue<TreeCatalogue>,
) -> Result<(), Fail> {
    for i in 0..1000 {
        put_number(alloc, map, tree, i, if i % 4 == 0 { 1 } else { 0 })?;
    }
    check_changed(rt, alloc, map, tree, Change::Late)?;
    assert!(rt; map.catalogue().count() == 251);
    Ok(())
}

#[test]
fn wide_chunks_are_swept_alike(rt: HostRuntime) -> Result<(), Fail> {
    check_case(&rt, rt.alloc(), 1000, Case::SweptGrown)
}

/// Whether the Set of the topic of this number was taken.
fn is_number_put(
    alloc: Global,
    tree: &mut CalmCatalogue<TreeCatalogue>,
    serial: u64,
    number: u64,
    kind: u64,
) -> Result<bool, Fail> {
    let name = name_of(alloc, number)?;
    Ok(put(alloc, tree, serial, name.as_slice(), kind)?.is_ok())
}

fn new_tree(alloc: Global) -> Result<CalmCatalogue<TreeCatalogue>, Fail> {
    let limit = TopicLimit::new(1000).ok_or("the limit")?;
    Ok(CalmCatalogue::new(alloc, limit)?)
}

/// 1,000 topics are set, all but a quarter of which expire. Then one more is set a thousand times.
fn check_dropped(
    rt: &impl Abort,
    alloc: Global,
    tree: &mut CalmCatalogue<TreeCatalogue>,
) -> Result<(), Fail> {
    for i in 0..1000 {
        let kind = if i % 4 == 0 { 1 } else { 0 };
        assert!(rt; is_number_put(alloc, tree, i + 1, i, kind)?);
    }
    assert!(rt; tree.catalogue().remains() == 0);
    assert!(rt; put(alloc, tree, 1001, b"late", LATE)?.is_ok());
    assert!(rt; tree.catalogue().count() == 251);
    assert!(rt; tree.catalogue().remains() > 0);
    for serial in 1002..2000 {
        assert!(rt; put(alloc, tree, serial, b"late", LATE)?.is_ok());
    }
    assert!(rt; tree.catalogue().count() == 251);
    assert!(rt; tree.catalogue().remains() == 0);
    Ok(())
}

/// What a Sweep takes out of a tree that nothing shares is dropped by later entries, and then all of it.
#[test]
fn later_entries_drop_what_was_swept(rt: HostRuntime) -> Result<(), Fail> {
    let mut tree = new_tree(rt.alloc())?;
    check_dropped(&rt, rt.alloc(), &mut tree)
}

/// 1,000 topics are set, and then each of as many more once one has expired.
fn check_remains(
    rt: &impl Abort,
    alloc: Global,
    tree: &mut CalmCatalogue<TreeCatalogue>,
) -> Result<(), Fail> {
    for i in 1..2000u64 {
        let kind = if i < 1000 { 1 } else { 3 };
        assert!(rt; is_number_put(alloc, tree, i, i, kind)?);
        assert!(rt; tree.catalogue().remains() < 500);
    }
    assert!(rt; tree.catalogue().count() == 1000);
    Ok(())
}

/// A Set that needs a Sweep finds one message to take out, again and again. What is not dropped yet does not grow.
#[test]
fn sweeps_one_after_the_other_leave_no_more(rt: HostRuntime) -> Result<(), Fail> {
    let mut tree = new_tree(rt.alloc())?;
    check_remains(&rt, rt.alloc(), &mut tree)
}
