//! How many branches are left when messages go.

ghost use Rattle.std.specs.Prelude.{◌≤◌};

use super::alike::{Case, LATE, check_all_alike, check_beside, check_case, copy_both, put_both};
use kit_test::MapCatalogue;
use rs_store::{CalmCatalogue, Catalogue};
use rs_tree::TreeCatalogue;
use std::alloc::Global;
use std::process::Abort;
use std::test::Fail;

/// Filters of levels that many topics share.
const FILTERS: &[&[u8]] = &[b"#", b"a/#", b"+/a/#", b"a/a/+", b"+/+"];

/// A topic that ends, or differs, behind so many levels that are the same in all.
fn below(alloc: Global, levels: u64, last: &[u8]) -> Result<Vec<u8>, Fail> {
    let mut name = Vec::new(alloc);
    for _ in 0..levels {
        name.extend_from_slice(b"a/")?;
    }
    name.extend_from_slice(last)?;
    Ok(name)
}

/// Sets or clears a topic at each level, in a mixed order.
fn check_each_level(
    rt: &impl Abort,
    alloc: Global,
    map: &mut CalmCatalogue<MapCatalogue>,
    tree: &mut CalmCatalogue<TreeCatalogue>,
    kind: u64,
) -> Result<(), Fail> {
    for i in 0..127 {
        let last: &[u8] = if i % 2 == 0 { b"a" } else { b"b" };
        let name = below(alloc, i * 37 % 127, last)?;
        put_both(alloc, map, tree, name.as_slice(), kind)?;
        if i % 16 == 0 {
            check_all_alike(rt, alloc, map.catalogue(), tree.catalogue(), FILTERS)?;
        }
    }
    Ok(())
}

/// Clears all that [`check_each_level`] sets. A copy keeps its branches.
fn check_levels_cleared(
    rt: &impl Abort,
    alloc: Global,
    map: &mut CalmCatalogue<MapCatalogue>,
    tree: &mut CalmCatalogue<TreeCatalogue>,
) -> Result<(), Fail> {
    let old = copy_both(map, tree)?;
    match check_each_level(rt, alloc, map, tree, 4) {
        Ok(()) => {
            assert!(rt; 100 < old.tree.branches());
            check_beside(rt, alloc, map, tree, &old, FILTERS)
        }
        Err(fail) => Err(fail),
    }
}

/// There are branches while levels are shared, and then no more.
pub fn check_deep(
    rt: &impl Abort,
    alloc: Global,
    map: &mut CalmCatalogue<MapCatalogue>,
    tree: &mut CalmCatalogue<TreeCatalogue>,
) -> Result<(), Fail> {
    for last in [b"c", b"d"] {
        let name = below(alloc, 127, last)?;
        put_both(alloc, map, tree, name.as_slice(), 1)?;
    }
    assert!(rt; tree.catalogue().branches() == 1);
    check_each_level(rt, alloc, map, tree, 1)?;
    assert!(rt; 100 < tree.catalogue().branches());
    check_levels_cleared(rt, alloc, map, tree)?;
    assert!(rt; (tree.catalogue().count(), tree.catalogue().branches()) == (2, 1));
    Ok(())
}

#[test]
fn branches_stand_while_levels_are_shared(rt: HostRuntime) -> Result<(), Fail> {
    check_case(&rt, rt.alloc(), 300, Case::Deep)
}

/// Sets or clears the topic of these bytes and those behind them.
fn put_below(
    alloc: Global,
    map: &mut CalmCatalogue<MapCatalogue>,
    tree: &mut CalmCatalogue<TreeCatalogue>,
    name: &[u8],
    last: &[u8],
    kind: u64,
) -> Result<(), Fail> {
    let mut whole = Vec::from_slice(alloc, name)?;
    whole.extend_from_slice(last)?;
    put_both(alloc, map, tree, whole.as_slice(), kind)
}

const LASTS: &[&[u8]] = &[b"", b"/1", b"/2", b"/3", b"/4", b"/5", b"/6", b"/7", b"/8"];

/// Sets a topic and eight below it, which are then cleared.
fn check_left_alone(
    rt: &impl Abort,
    alloc: Global,
    map: &mut CalmCatalogue<MapCatalogue>,
    tree: &mut CalmCatalogue<TreeCatalogue>,
    name: &[u8],
) -> Result<(), Fail> {
    for kind in [1, 4] {
        for last in LASTS {
            let kind = if last.is_empty() { 1 } else { kind };
            put_below(alloc, map, tree, name, last, kind)?;
        }
        assert!(rt; kind == 4 || 1 < tree.catalogue().branches());
        check_all_alike(rt, alloc, map.catalogue(), tree.catalogue(), FILTERS)?;
    }
    Ok(())
}

/// A topic that is alone again below its branch takes the branch's place.
pub fn check_lone_messages(
    rt: &impl Abort,
    alloc: Global,
    map: &mut CalmCatalogue<MapCatalogue>,
    tree: &mut CalmCatalogue<TreeCatalogue>,
) -> Result<(), Fail> {
    let names: [&[u8]; 5] = [b"a/a", b"a/b", b"b/a", b"b/b", b"c"];
    for name in names {
        check_left_alone(rt, alloc, map, tree, name)?;
    }
    // The root, and those of `a` and `b`, which have two children.
    let tree = tree.catalogue();
    assert!(rt; tree.count() == 5 && tree.branches() == 3);
    Ok(())
}

#[test]
fn lone_messages_are_joined(rt: HostRuntime) -> Result<(), Fail> {
    check_case(&rt, rt.alloc(), 300, Case::LoneMessages)
}

/// Sets or clears many topics at each of three places, of which one stays at each.
fn put_many(
    alloc: Global,
    map: &mut CalmCatalogue<MapCatalogue>,
    tree: &mut CalmCatalogue<TreeCatalogue>,
    kind: u64,
) -> Result<(), Fail> {
    for i in 3..600u32 {
        let name = format!(in alloc; "{}/{}", i % 3, i)?;
        put_both(alloc, map, tree, name.as_bytes(), kind)?;
    }
    for i in 0..3u32 {
        let name = format!(in alloc; "{i}/{i}")?;
        put_both(alloc, map, tree, name.as_bytes(), 1)?;
    }
    Ok(())
}

/// Many messages are cleared. No chunk is left, and no branch beside the root.
pub fn check_cleared_chunks(
    rt: &impl Abort,
    alloc: Global,
    map: &mut CalmCatalogue<MapCatalogue>,
    tree: &mut CalmCatalogue<TreeCatalogue>,
) -> Result<(), Fail> {
    put_many(alloc, map, tree, 1)?;
    assert!(rt; 10 < tree.catalogue().branches());
    put_many(alloc, map, tree, 4)?;
    check_all_alike(rt, alloc, map.catalogue(), tree.catalogue(), FILTERS)?;
    let tree = tree.catalogue();
    assert!(rt; tree.count() == 3 && tree.branches() == 1);
    Ok(())
}

#[test]
fn cleared_chunks_are_joined(rt: HostRuntime) -> Result<(), Fail> {
    check_case(&rt, rt.alloc(), 600, Case::ClearedChunks)
}

/// Many messages expire, and the store makes space. No chunk is left, and no branch beside the root.
pub fn check_swept_chunks(
    rt: &impl Abort,
    alloc: Global,
    map: &mut CalmCatalogue<MapCatalogue>,
    tree: &mut CalmCatalogue<TreeCatalogue>,
) -> Result<(), Fail> {
    put_many(alloc, map, tree, 0)?;
    assert!(rt; 10 < tree.catalogue().branches());
    put_both(alloc, map, tree, b"late", LATE)?;
    check_all_alike(rt, alloc, map.catalogue(), tree.catalogue(), FILTERS)?;
    let tree = tree.catalogue();
    assert!(rt; tree.count() == 4 && tree.branches() == 1);
    Ok(())
}

#[test]
fn swept_chunks_are_joined(rt: HostRuntime) -> Result<(), Fail> {
    check_case(&rt, rt.alloc(), 600, Case::SweptChunks)
}

/// Sets many topics before those that are there and then clears all of them but one, or takes some of these steps.
fn put_before(
    alloc: Global,
    map: &mut CalmCatalogue<MapCatalogue>,
    tree: &mut CalmCatalogue<TreeCatalogue>,
    round: u32,
    steps: u32,
) -> Result<(), Fail>
    requires small { round ≤ 9 }
    requires few { steps ≤ 1079 }
{
    for i in 0..steps {
        let (number, kind) = if i < 540 { (i, 1) } else { (i - 539, 4) };
        let name = format!(in alloc; "{}-{}", 900 - round, 1000 + number)?;
        put_both(alloc, map, tree, name.as_bytes(), kind)?;
    }
    Ok(())
}

/// Topics are set before those that are there, and all but one are cleared, time and again. The chunks that are left lie in one another,
/// but no deeper each time.
pub fn check_narrow_chunks(
    rt: &impl Abort,
    alloc: Global,
    map: &mut CalmCatalogue<MapCatalogue>,
    tree: &mut CalmCatalogue<TreeCatalogue>,
) -> Result<(), Fail> {
    for round in 0..9u32 {
        put_before(alloc, map, tree, round, 1079)?;
    }
    check_all_alike(rt, alloc, map.catalogue(), tree.catalogue(), FILTERS)?;
    let tree = tree.catalogue();
    assert!(rt; tree.count() == 9 && tree.branches() < 9);
    Ok(())
}

#[test]
fn narrow_chunks_are_undone(rt: HostRuntime) -> Result<(), Fail> {
    check_case(&rt, rt.alloc(), 600, Case::NarrowChunks)
}

/// Chunks that are taken apart leave one long list, which Clears alone divide.
pub fn check_flat_list(
    rt: &impl Abort,
    alloc: Global,
    map: &mut CalmCatalogue<MapCatalogue>,
    tree: &mut CalmCatalogue<TreeCatalogue>,
) -> Result<(), Fail> {
    for round in 0..5u32 {
        put_before(alloc, map, tree, round, if round < 4 { 1079 } else { 512 })?;
    }
    assert!(rt; tree.catalogue().count() == 516 && tree.catalogue().branches() == 1);
    for number in 0..9u32 {
        let name = format!(in alloc; "896-{}", 1000 + number)?;
        put_both(alloc, map, tree, name.as_bytes(), 4)?;
    }
    check_all_alike(rt, alloc, map.catalogue(), tree.catalogue(), FILTERS)?;
    assert!(rt; 5 < tree.catalogue().branches());
    Ok(())
}

#[test]
fn a_flat_list_is_divided(rt: HostRuntime) -> Result<(), Fail> {
    check_case(&rt, rt.alloc(), 600, Case::FlatList)
}
