//! Both catalogues over one list of entries, drawn by a fixed generator.

ghost use Rattle.std.specs.Prelude.{◌≡◌, ◌<◌, false, IfSome};
ghost use Rattle.rs_message.specs.Messages.{is_sweep};

use super::check_as_many;
use super::joined::{
    check_cleared_chunks, check_deep, check_flat_list, check_lone_messages, check_narrow_chunks,
    check_swept_chunks,
};
use super::lengths::check_lengths;
use super::wide::{check_grown, check_swept_grown};
use kit_test::{MapCatalogue, clear, origin, set_at};
use rs_message::{Entry, Found, Operation};
use rs_store::{CalmCatalogue, Catalogue, Refusal, TopicLimit};
use rs_topic::TopicFilter;
use rs_tree::TreeCatalogue;
use std::alloc::{AllocError, Global};
use std::process::Abort;
use std::test::Fail;

/// Copies of both catalogues.
#[derive(Drop)]
pub struct Copies {
    map: MapCatalogue,
    pub tree: TreeCatalogue,
}

pub fn copy_both(
    map: &CalmCatalogue<MapCatalogue>,
    tree: &CalmCatalogue<TreeCatalogue>,
) -> Result<Copies, AllocError> {
    let map = map.catalogue().copy()?;
    let tree = tree.catalogue().copy()?;
    Ok(Copies { map, tree })
}

/// A linear congruential generator.
#[derive(Drop)]
pub struct Draw {
    pub state: u64,
}

impl Draw {
    /// A number below the bound.
    pub fn below(&mut self, bound: u64) -> u64
        requires { 0 < bound }
        ensures { result < bound }
    {
        let state = self
            .state
            .wrapping_mul(6364136223846793005)
            .wrapping_add(1442695040888963407);
        self.state = state;
        (state >> 33) % bound
    }

    /// How many levels: mostly a few, at times 128.
    fn length(&mut self) -> u64 {
        if self.below(8) > 0 {
            return 1 + self.below(5);
        }
        120 + self.below(9)
    }
}

/// A level of more bytes than a node of the tree has room for.
const LONG: &[u8] = b"a.long.level.of.26.bytes.a";

static NAME_LEVELS: [&[u8]; 8] = [b"a", b"a", b"b", b"", b"$s", LONG, b"$", b"aa"];

/// Levels of a topic name. Long names share most of theirs.
pub fn name_of(alloc: Global, draw: &mut Draw) -> Result<Vec<u8>, Fail> {
    let mut name = Vec::new(alloc);
    let length = draw.length();
    for i in 0..length {
        if i > 0 {
            name.push(b'/')?;
        }
        let kinds = if length > 5 && i < 118 { 2 } else { 8 };
        name.extend_from_slice(NAME_LEVELS[draw.below(kinds) as usize])?;
    }
    if name.is_empty() {
        name.push(b'e')?;
    }
    Ok(name)
}

static FILTER_LEVELS: [&[u8]; 8] = [b"+", b"a", b"+", b"b", b"", b"$s", b"+", LONG];

/// Levels of a topic filter.
fn filter_of(alloc: Global, draw: &mut Draw) -> Result<Vec<u8>, Fail> {
    let mut filter = Vec::new(alloc);
    let length = draw.length();
    for i in 0..length {
        if i > 0 {
            filter.push(b'/')?;
        }
        let kinds = if length > 5 && i < 118 { 3 } else { 8 };
        filter.extend_from_slice(FILTER_LEVELS[draw.below(kinds) as usize])?;
    }
    if length < 128 && draw.below(2) == 0 {
        filter.extend_from_slice(b"/#")?;
    }
    if filter.is_empty() {
        filter.push(b'#')?;
    }
    Ok(filter)
}

/// The kind of a Set that comes when all others with an interval have expired.
pub const LATE: u64 = 6;

/// What an entry does: two Sets of three, with an interval or none.
fn operation_of(alloc: Global, name: &[u8], kind: u64) -> Option<Operation>
    ensures { IfSome result (λ o. is_sweep o ≡ false) }
{
    match kind {
        0 => set_at(alloc, name, b"x", 100, Some(10)),
        1 => set_at(alloc, name, b"y", 100, None),
        2 => set_at(alloc, name, b"z", 100, Some(20)),
        3 => set_at(alloc, name, b"z", 100, Some(0)),
        LATE => set_at(alloc, name, b"l", 200, None),
        _ => clear(alloc, name),
    }
}

pub fn put<C: Catalogue>(
    alloc: Global,
    store: &mut CalmCatalogue<C>,
    serial: u64,
    name: &[u8],
    kind: u64,
) -> Result<Result<(), Refusal>, Fail> {
    let origin = origin(1, serial)?;
    let operation = operation_of(alloc, name, kind).ok_or("no operation")?;
    Ok(store.add(Entry { origin, operation }))
}

/// The topics and payloads.
pub fn shown(alloc: Global, found: &Vec<Found>) -> Result<Vec<u8>, AllocError> {
    let mut all = Vec::new(alloc);
    for one in found {
        all.extend_from_slice(one.topic().as_bytes())?;
        all.push(b'=')?;
        all.extend_from_slice(one.message().payload().as_slice())?;
        all.push(b' ')?;
    }
    Ok(all)
}

/// The topics and payloads that a filter is answered at a given time.
pub fn answer_of<C: Catalogue>(
    alloc: Global,
    catalogue: &C,
    filter: &TopicFilter,
    now: u64,
) -> Result<Vec<u8>, AllocError> {
    shown(alloc, &catalogue.answer(filter, now)?)
}

/// The filter is answered alike at a given time. Says whether there was anything to find.
pub fn check_answers_alike<C: Catalogue, D: Catalogue>(
    rt: &impl Abort,
    alloc: Global,
    first: &C,
    second: &D,
    filter: &TopicFilter,
    now: u64,
) -> Result<bool, Fail> {
    let wanted = answer_of(alloc, first, filter, now)?;
    let answer = answer_of(alloc, second, filter, now)?;
    assert!(rt; answer.as_slice() == wanted.as_slice());
    Ok(!wanted.is_empty())
}

/// Both answer within a room as many messages as the first answers without one.
fn check_as_many_alike<C: Catalogue, D: Catalogue>(
    rt: &impl Abort,
    first: &C,
    second: &D,
    filter: &TopicFilter,
    now: u64,
) -> Result<(), Fail> {
    let many = first.answer(filter, now)?.len();
    check_as_many(rt, first, filter, now, many)?;
    check_as_many(rt, second, filter, now, many)?;
    Ok(())
}

/// The filter is answered alike. Says whether there was anything to find.
pub fn check_filter_alike<C: Catalogue, D: Catalogue>(
    rt: &impl Abort,
    alloc: Global,
    first: &C,
    second: &D,
    filter: &[u8],
) -> Result<bool, Fail> {
    let filter = TopicFilter::read(alloc, filter)?;
    let mut any = false;
    for now in [100, 111, 125] {
        let some = check_answers_alike(rt, alloc, first, second, &filter, now)?;
        check_as_many_alike(rt, first, second, &filter, now)?;
        any = any || some;
    }
    Ok(any)
}

/// 50 filters are answered alike, and 20 of them at least find something.
fn check_drawn_filters<C: Catalogue, D: Catalogue>(
    rt: &impl Abort,
    alloc: Global,
    first: &C,
    second: &D,
) -> Result<(), Fail> {
    let mut draw = Draw { state: 11 };
    let mut some: u32 = 0;
    for _ in 0..50 {
        let filter = filter_of(alloc, &mut draw)?;
        if check_filter_alike(rt, alloc, first, second, filter.as_slice())? {
            some = some.saturating_add(1);
        }
    }
    assert!(rt; 20 < some);
    Ok(())
}

/// 1,000 entries: each is accepted or rejected alike.
fn check_entries_alike<C: Catalogue, D: Catalogue>(
    rt: &impl Abort,
    alloc: Global,
    first: &mut CalmCatalogue<C>,
    second: &mut CalmCatalogue<D>,
) -> Result<(), Fail> {
    let mut draw = Draw { state: 7 };
    for serial in 1..1001 {
        let name = name_of(alloc, &mut draw)?;
        let kind = draw.below(6);
        let taken = put(alloc, first, serial, name.as_slice(), kind)?;
        assert!(rt; put(alloc, second, serial, name.as_slice(), kind)? == taken);
        assert!(rt; second.catalogue().count() == first.catalogue().count());
    }
    Ok(())
}

/// Copies are alike too.
fn check_copies_alike<C: Catalogue + Drop, D: Catalogue + Drop>(
    rt: &impl Abort,
    alloc: Global,
    first: &C,
    second: &D,
) -> Result<(), Fail> {
    check_drawn_filters(rt, alloc, &first.copy()?, &second.copy()?)
}

/// Many entries in both, which are alike then.
fn check_filled<C: Catalogue + Drop>(
    rt: &impl Abort,
    alloc: Global,
    map: &mut CalmCatalogue<C>,
    tree: &mut CalmCatalogue<TreeCatalogue>,
) -> Result<(), Fail> {
    check_entries_alike(rt, alloc, map, tree)?;
    let (map, tree) = (map.catalogue(), tree.catalogue());
    assert!(rt; 250 < map.count());
    check_drawn_filters(rt, alloc, map, tree)?;
    check_copies_alike(rt, alloc, map, tree)
}

/// Sets or clears one topic in both.
pub fn put_both(
    alloc: Global,
    map: &mut CalmCatalogue<MapCatalogue>,
    tree: &mut CalmCatalogue<TreeCatalogue>,
    name: &[u8],
    kind: u64,
) -> Result<(), Fail> {
    let serial = map.catalogue().last_serial(1).saturating_add(1);
    put(alloc, map, serial, name, kind)??;
    put(alloc, tree, serial, name, kind)??;
    Ok(())
}

/// The filters are answered alike, and both count and expire alike.
pub fn check_all_alike<C: Catalogue, D: Catalogue>(
    rt: &impl Abort,
    alloc: Global,
    first: &C,
    second: &D,
    filters: &[&[u8]],
) -> Result<(), Fail> {
    for filter in filters {
        check_filter_alike(rt, alloc, first, second, filter)?;
    }
    assert!(rt; first.count() == second.count());
    assert!(rt; first.expired_count(115) == second.expired_count(115));
    assert!(rt; first.earliest() == second.earliest());
    Ok(())
}

/// Both are alike, and so are copies that were taken before.
pub fn check_beside(
    rt: &impl Abort,
    alloc: Global,
    map: &CalmCatalogue<MapCatalogue>,
    tree: &CalmCatalogue<TreeCatalogue>,
    old: &Copies,
    filters: &[&[u8]],
) -> Result<(), Fail> {
    check_all_alike(rt, alloc, map.catalogue(), tree.catalogue(), filters)?;
    check_all_alike(rt, alloc, &old.map, &old.tree, filters)
}

/// A check of both catalogues, over new stores of so many topics.
#[derive(Clone, Copy)]
pub enum Case {
    Entries,
    Deep,
    LoneMessages,
    ClearedChunks,
    SweptChunks,
    NarrowChunks,
    FlatList,
    Grown(u64),
    SweptGrown,
    Lengths,
}

pub fn check_case(rt: &impl Abort, alloc: Global, topics: u32, case: Case) -> Result<(), Fail> {
    let limit = TopicLimit::new(topics).ok_or("a limit")?;
    let mut map: CalmCatalogue<MapCatalogue> = CalmCatalogue::new(alloc, limit)?;
    let mut tree: CalmCatalogue<TreeCatalogue> = CalmCatalogue::new(alloc, limit)?;
    match case {
        Case::Entries => check_filled(rt, alloc, &mut map, &mut tree),
        Case::Deep => check_deep(rt, alloc, &mut map, &mut tree),
        Case::LoneMessages => check_lone_messages(rt, alloc, &mut map, &mut tree),
        Case::ClearedChunks => check_cleared_chunks(rt, alloc, &mut map, &mut tree),
        Case::SweptChunks => check_swept_chunks(rt, alloc, &mut map, &mut tree),
        Case::NarrowChunks => check_narrow_chunks(rt, alloc, &mut map, &mut tree),
        Case::FlatList => check_flat_list(rt, alloc, &mut map, &mut tree),
        Case::Grown(step) => check_grown(rt, alloc, &mut map, &mut tree, step),
        Case::SweptGrown => check_swept_grown(rt, alloc, &mut map, &mut tree),
        Case::Lengths => check_lengths(rt, alloc, &mut map, &mut tree),
    }
}

#[test]
fn both_catalogues_answer_alike(rt: HostRuntime) -> Result<(), Fail> {
    check_case(&rt, rt.alloc(), 300, Case::Entries)
}
