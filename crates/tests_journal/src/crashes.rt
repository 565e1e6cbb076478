//! Calls of the disk that fail, each in turn, and what is found after a kill or a crash there.

ghost use Rattle.std.specs.Prelude.{◌<◌};

use crate::faulty::Failing;
use crate::script::{Disks, Expected, Image, Step, drawn, found_in, run, run_all};
use std::alloc::Global;
use std::test::Fail;

/// So many steps are made between two openings. In each such part each call of a disk fails in turn.
const PART: u64 = 10;

/// How many such parts a test makes. The tests make 200 steps together.
const PARTS: u64 = 5;

/// Whether a run over these files leaves what it has to, after a kill or a loss of power. `None` if no call failed on the way.
fn leaves_what_stands(
    alloc: Global,
    files: Disks,
    standing: &[u64],
    steps: &[Step],
    loses: bool,
) -> Result<Option<bool>, Fail> {
    let mut expected = Expected::standing(alloc, standing)?;
    let mut left = run(alloc, files, steps, &mut expected)?;
    let has_failed = left.log.has_failed() || left.db.has_failed();
    left.log.restart(loses);
    left.db.restart(loses);
    let is_right = match found_in(alloc, left)? {
        Ok(records) => expected.allows(alloc, &records)?,
        Err(_) => false,
    };
    Ok(if has_failed || !is_right {
        Some(is_right)
    } else {
        None
    })
}

/// Which call of a file fails, and whether what was not synced is lost then.
#[derive(Clone, Copy, Debug)]
struct Failure {
    is_log: bool,
    failing: Failing,
    loses: bool,
}

/// A crash at a call, a crash that leaves all that was written and the last write torn, and a call that fails alone.
const FAILURES: [Failure; 6] = [
    Failure {
        is_log: true,
        failing: Failing::FromThen,
        loses: true,
    },
    Failure {
        is_log: false,
        failing: Failing::FromThen,
        loses: true,
    },
    Failure {
        is_log: true,
        failing: Failing::Tears,
        loses: false,
    },
    Failure {
        is_log: false,
        failing: Failing::Tears,
        loses: false,
    },
    Failure {
        is_log: true,
        failing: Failing::Once,
        loses: false,
    },
    Failure {
        is_log: false,
        failing: Failing::Once,
        loses: false,
    },
];

/// Lets each call fail in turn that these steps make from these files on. How many calls these are.
fn tried(
    alloc: Global,
    image: &Image,
    standing: &[u64],
    steps: &[Step],
    failure: Failure,
) -> Result<u64, Fail> {
    for calls in 0..5000 {
        let files = image.files(alloc, failure.is_log, failure.failing, calls)?;
        match leaves_what_stands(alloc, files, standing, steps, failure.loses)? {
            Some(true) => {}
            Some(false) => return Err("what stands after a call that failed".into()),
            None => return Ok(calls),
        }
    }
    Err("fewer calls in a run".into())
}

/// Makes some parts, beginning with the one of this number, over new files.
fn try_parts(alloc: Global, from: u64) -> Result<(), Fail>
    requires { from < 100 }
{
    let mut image = Image::new(alloc);
    let mut expected = Expected::new(alloc);
    let mut made: u64 = 0;
    for part in from..from + PARTS {
        let mut steps = drawn(alloc, part * PART, part * PART + PART)?;
        for failure in FAILURES {
            made = made.saturating_add(tried(alloc, &image, &expected.standing, &steps, failure)?);
        }
        // The next part begins with a short log, so that an opening makes few calls.
        steps.push(Step::Checkpoint)?;
        expected = Expected::standing(alloc, &expected.standing)?;
        let left = run_all(alloc, image.sound(alloc)?, &steps, &mut expected)?;
        image = Image::of(alloc, &left)?;
    }
    if made > 100 {
        Ok(())
    } else {
        Err("more calls in a run".into())
    }
}

#[test]
fn a_call_that_fails_leaves_what_stands(rt: HostRuntime) -> Result<(), Fail> {
    try_parts(rt.alloc(), 0)
}

#[test]
fn a_call_that_fails_later_leaves_what_stands(rt: HostRuntime) -> Result<(), Fail> {
    try_parts(rt.alloc(), PARTS)
}

#[test]
fn a_call_that_fails_in_a_third_run_leaves_what_stands(rt: HostRuntime) -> Result<(), Fail> {
    try_parts(rt.alloc(), 2 * PARTS)
}

#[test]
fn a_call_that_fails_in_a_fourth_run_leaves_what_stands(rt: HostRuntime) -> Result<(), Fail> {
    try_parts(rt.alloc(), 3 * PARTS)
}

/// Sets of all seven topics, which a shortening keeps.
const OF_EACH_TOPIC: [Step; 10] = [
    Step::Push(2),
    Step::Push(3),
    Step::Push(4),
    Step::Push(7),
    Step::Push(8),
    Step::Push(12),
    Step::Push(13),
    Step::Commit,
    Step::Shorten,
    Step::Reopen,
];

#[test]
fn a_message_of_each_topic_stays(rt: HostRuntime) -> Result<(), Fail> {
    let alloc = rt.alloc();
    let mut expected = Expected::new(alloc);
    run_all(
        alloc,
        Image::new(alloc).sound(alloc)?,
        &OF_EACH_TOPIC,
        &mut expected,
    )?;
    assert!(rt; expected.standing.len() == 7);
    Ok(())
}
