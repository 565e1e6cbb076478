//! Levels of about as many bytes as a node of the tree has room for.

use super::alike::{Case, check_all_alike, check_answers_alike, check_case, put_both};
use kit_test::MapCatalogue;
use rs_store::{CalmCatalogue, Catalogue};
use rs_topic::TopicFilter;
use rs_tree::TreeCatalogue;
use std::alloc::Global;
use std::process::Abort;
use std::test::Fail;

/// What stands behind a row of `x`: nothing, bytes that lie before it, and such as lie behind it, two of them above 127.
static ENDS: [&[u8]; 6] = [b"", b"!", b"w", b"y", b"\xc3\xa9", b"\xf4\x8f\xbf\xbf"];

/// Each end behind 0 to 17 bytes.
const LEVELS: u64 = 6 * 18;

const FILTERS: &[&[u8]] = &[b"#", b"+/t", b"t/+", b"t/#", b"+/+"];

fn level_of(alloc: Global, number: u64) -> Result<Vec<u8>, Fail> {
    let mut level = Vec::new(alloc);
    for _ in 0..number / 6 % 18 {
        level.push(b'x')?;
    }
    level.extend_from_slice(ENDS[(number % 6) as usize])?;
    Ok(level)
}

/// The level of a number as the first one of a topic, and as the last one of another.
fn names_of(alloc: Global, number: u64) -> Result<[Vec<u8>; 2], Fail> {
    let mut first = level_of(alloc, number)?;
    first.extend_from_slice(b"/t")?;
    let mut last = Vec::from_slice(alloc, b"t/")?;
    last.extend_from_slice(level_of(alloc, number)?.as_slice())?;
    Ok([first, last])
}

/// Sets or clears the topics of each number that this step reaches, in a mixed order.
fn put_levels(
    alloc: Global,
    map: &mut CalmCatalogue<MapCatalogue>,
    tree: &mut CalmCatalogue<TreeCatalogue>,
    count: u64,
    kind: u64,
) -> Result<(), Fail> {
    for i in 0..count {
        let [first, last] = names_of(alloc, i.wrapping_mul(37) % LEVELS)?;
        put_both(alloc, map, tree, first.as_slice(), kind)?;
        put_both(alloc, map, tree, last.as_slice(), kind)?;
    }
    Ok(())
}

/// Filters of one topic and of many are answered alike. Says how many of one topic found it.
fn check_levels(
    rt: &impl Abort,
    alloc: Global,
    map: &MapCatalogue,
    tree: &TreeCatalogue,
) -> Result<u32, Fail> {
    check_all_alike(rt, alloc, map, tree, FILTERS)?;
    let mut found: u32 = 0;
    for number in 0..LEVELS {
        for name in &names_of(alloc, number)? {
            let filter = TopicFilter::read(alloc, name.as_slice())?;
            if check_answers_alike(rt, alloc, map, tree, &filter, 100)? {
                found = found.saturating_add(1);
            }
        }
    }
    Ok(found)
}

/// All levels are set, replaced, and half of them cleared.
pub fn check_lengths(
    rt: &impl Abort,
    alloc: Global,
    map: &mut CalmCatalogue<MapCatalogue>,
    tree: &mut CalmCatalogue<TreeCatalogue>,
) -> Result<(), Fail> {
    for (count, kind, left) in [(LEVELS, 1, 216), (LEVELS, 0, 216), (LEVELS / 2, 4, 108)] {
        put_levels(alloc, map, tree, count, kind)?;
        let found = check_levels(rt, alloc, map.catalogue(), tree.catalogue())?;
        assert!(rt; found == left);
    }
    Ok(())
}

#[test]
fn levels_of_each_length_answer_alike(rt: HostRuntime) -> Result<(), Fail> {
    check_case(&rt, rt.alloc(), 300, Case::Lengths)
}
