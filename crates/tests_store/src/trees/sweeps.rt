//! Sweeps in both catalogues, and what is expired before and after them.

use super::alike::{Draw, check_filter_alike, name_of};
use super::examples::take;
use kit_test::{MapCatalogue, clear, origin, set_at};
use rs_message::{Entry, Operation, Origin};
use rs_store::{Catalogue, TopicLimit};
use rs_tree::TreeCatalogue;
use std::alloc::Global;
use std::process::Abort;
use std::test::Fail;

/// The writer's Sweep of a moment.
pub fn sweep_of(serial: u64, moment: u64) -> Result<Entry, Fail> {
    let origin = Origin::of_writer(serial).ok_or("no serial")?;
    let operation = Operation::Sweep(moment);
    Ok(Entry { origin, operation })
}

/// The version, the writer's last serial, and how many messages are expired at a moment and how many are not.
fn numbers<C: Catalogue>(catalogue: &C, moment: u64) -> (u64, u64, u32, u32) {
    let expired = catalogue.expired_count(moment);
    let others = catalogue.count().saturating_sub(expired);
    (
        catalogue.version(),
        catalogue.last_serial(0),
        expired,
        others,
    )
}

/// Sweeps at a moment: the messages that were expired then are gone, and no other.
fn check_sweep<C: Catalogue>(rt: &impl Abort, catalogue: &mut C, moment: u64) -> Result<(), Fail> {
    let (version, serial, _, others) = numbers(catalogue, moment);
    let (version, serial) = (version.saturating_add(1), serial.saturating_add(1));
    assert!(rt; take(catalogue, sweep_of(serial, moment)?)?.is_none());
    assert!(rt; numbers(catalogue, moment) == (version, serial, 0, others));
    assert!(rt; catalogue.earliest() > moment);
    Ok(())
}

/// The same numbers, and as many expired at moments before, among and after those that come.
fn check_same<C: Catalogue, D: Catalogue>(rt: &impl Abort, first: &C, second: &D) {
    assert!(rt; (second.version(), second.count()) == (first.version(), first.count()));
    assert!(rt;
        (second.last_serial(0), second.last_serial(1))
            == (first.last_serial(0), first.last_serial(1))
    );
    for now in [0, 99, 110, 111, 125, 139, 164, u64::MAX] {
        assert!(rt; second.expired_count(now) == first.expired_count(now));
    }
}

/// Both say from which moment on something is expired, and something is at a moment just if that has come.
fn check_earliest<C: Catalogue, D: Catalogue>(rt: &impl Abort, first: &C, second: &D, now: u64) {
    let earliest = first.earliest();
    assert!(rt; second.earliest() == earliest);
    assert!(rt; (first.expired_count(now) > 0) == (earliest <= now));
}

/// A Set of a message that came at a moment, for six kinds of eight, else a Clear.
fn operation_at(alloc: Global, name: &[u8], kind: u64, received: u64) -> Option<Operation> {
    match kind {
        0 => set_at(alloc, name, b"x", received, Some(10)),
        1 => set_at(alloc, name, b"y", received, Some(25)),
        2 => set_at(alloc, name, b"z", received, Some(1)),
        3 => set_at(alloc, name, b"0", received, Some(0)),
        4 | 5 => set_at(alloc, name, b"n", received, None),
        _ => clear(alloc, name),
    }
}

/// Three Sets of four, of a message that came between 100 and 139, else a Clear.
pub fn change_of(alloc: Global, draw: &mut Draw, serial: u64) -> Result<Entry, Fail> {
    let origin = origin(1, serial)?;
    let name = name_of(alloc, draw)?;
    let received = draw.below(40).saturating_add(100);
    let kind = draw.below(8);
    let operation = operation_at(alloc, &name, kind, received).ok_or("no operation")?;
    Ok(Entry { origin, operation })
}

/// An entry is accepted or rejected alike.
fn check_taken_alike<C: Catalogue, D: Catalogue>(
    rt: &impl Abort,
    first: &mut C,
    second: &mut D,
    entry: &Entry,
) -> Result<(), Fail> {
    let wanted = take(first, entry.copy()?)?;
    assert!(rt; take(second, entry.copy()?)? == wanted);
    Ok(())
}

/// Sweeps both at a moment: they stay the same.
fn check_sweeps<C: Catalogue, D: Catalogue>(
    rt: &impl Abort,
    alloc: Global,
    first: &mut C,
    second: &mut D,
    now: u64,
) -> Result<(), Fail> {
    check_sweep(rt, first, now)?;
    check_sweep(rt, second, now)?;
    check_same(rt, first, second);
    check_filter_alike(rt, alloc, first, second, b"#")?;
    Ok(())
}

/// Copies of both are the same, also in what is expired at a moment.
fn check_copies_same<C: Catalogue + Drop, D: Catalogue + Drop>(
    rt: &impl Abort,
    alloc: Global,
    first: &C,
    second: &D,
    now: u64,
) -> Result<(), Fail> {
    let (third, fourth) = (first.copy()?, second.copy()?);
    check_same(rt, &third, &fourth);
    check_filter_alike(rt, alloc, &third, &fourth, b"#")?;
    check_earliest(rt, &third, &fourth, now);
    Ok(())
}

/// 1,000 changes, and a Sweep now and then, at moments that go back and forth. Both catalogues, and copies of both, stay the same.
fn check_changes<C: Catalogue + Drop, D: Catalogue + Drop>(
    rt: &impl Abort,
    alloc: Global,
    first: &mut C,
    second: &mut D,
) -> Result<(), Fail> {
    let mut draw = Draw { state: 5 };
    let mut swept: u32 = 0;
    for serial in 1..1001 {
        let entry = change_of(alloc, &mut draw, serial)?;
        check_taken_alike(rt, first, second, &entry)?;
        let now = draw.below(90).saturating_add(90);
        check_earliest(rt, first, second, now);
        if draw.below(10) == 0 {
            swept = swept.saturating_add(first.expired_count(now));
            check_sweeps(rt, alloc, first, second, now)?;
            check_copies_same(rt, alloc, first, second, now.saturating_add(10))?;
        }
    }
    assert!(rt; 300 < swept);
    Ok(())
}

#[test]
fn both_catalogues_sweep_alike(rt: HostRuntime) -> Result<(), Fail> {
    let alloc = rt.alloc();
    let limit = TopicLimit::new(300).ok_or("300 is a limit")?;
    let mut map = MapCatalogue::new(alloc, limit)?;
    let mut tree = TreeCatalogue::new(alloc, limit)?;
    check_changes(&rt, alloc, &mut map, &mut tree)?;
    assert!(rt; 20 < tree.count());
    Ok(())
}
