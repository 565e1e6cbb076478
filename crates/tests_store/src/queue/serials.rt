//! The serials under which changes are made ready to be sent.

use kit_test::set;
use rs_intake_queue::{prepare, prepare_next};
use std::alloc::Global;
use std::test::Fail;

/// Serials, each with whether one change may follow it, and whether two may.
const SERIALS: &[(u64, bool, bool)] = &[
    (0, true, true),
    (1 << 24, true, true),
    (1 << 32, true, true),
    (1 << 48, true, true),
    (u64::MAX - 2, true, true),
    (u64::MAX - 1, true, false),
    (u64::MAX, false, false),
];

/// Whether one change is made ready behind this serial, and whether two are.
fn are_ready(alloc: Global, serial: u64) -> Option<(bool, bool)> {
    let one = prepare_next(alloc, 1, serial, set(alloc, b"a", b"x")?);
    let first = set(alloc, b"a", b"x")?;
    let second = set(alloc, b"b", b"x")?;
    let two = prepare(alloc, 1, serial, vec![in alloc; first, second].ok()?);
    Some((one.is_some(), two.is_some()))
}

/// Changes are made ready while there are serials for them, whatever these are.
#[test]
fn changes_are_ready_up_to_the_last_serial(rt: HostRuntime) -> Result<(), Fail> {
    for (serial, one, two) in SERIALS {
        let ready = are_ready(rt.alloc(), *serial).ok_or("memory")?;
        assert!(rt; ready == (*one, *two), "{serial}");
    }
    Ok(())
}
