//! How often the ends of the queue poll before they sleep.

use rs_intake_queue::{Polls, poll_in_vain};
use std::test::Fail;

/// How long 1,024 polls last where the times of the ends were chosen, in nanoseconds.
const CHOSEN: u64 = 18_000;

/// Each end polls so often.
fn all(polls: u32) -> Polls {
    Polls {
        writer: polls,
        line: polls,
        shared: polls,
    }
}

/// Whether each end polls less often than in the other case.
fn are_fewer(polls: Polls, other: Polls) -> bool {
    polls.writer < other.writer && polls.line < other.line && polls.shared < other.shared
}

/// A line polls for 18 microseconds.
#[test]
fn where_nothing_is_timed_a_poll_lasts_as_long_as_where_the_times_were_chosen(
    rt: HostRuntime,
) -> Result<(), Fail> {
    assert!(rt; Polls::of_time(CHOSEN) == Polls::untimed());
    assert!(rt; Polls::untimed().line == 1_024);
    assert!(rt; Polls::untimed().shared < 64);
    Ok(())
}

#[test]
fn a_longer_poll_means_fewer_polls(rt: HostRuntime) -> Result<(), Fail> {
    for (shorter, longer) in [(CHOSEN / 2, CHOSEN), (CHOSEN, CHOSEN * 2)] {
        assert!(rt; are_fewer(Polls::of_time(longer), Polls::of_time(shorter)));
    }
    Ok(())
}

/// A clock that gives no time, or one that is far too long, makes no wait endless, and none without a poll.
#[test]
fn an_end_polls_16_to_65536_times(rt: HostRuntime) -> Result<(), Fail> {
    assert!(rt; Polls::of_time(0) == all(65_536));
    assert!(rt; Polls::of_time(u64::MAX) == all(16));
    Ok(())
}

#[test]
fn polls_in_vain_end(rt: HostRuntime) -> Result<(), Fail> {
    assert!(rt; poll_in_vain(&rt, rt.alloc()).is_ok());
    Ok(())
}
