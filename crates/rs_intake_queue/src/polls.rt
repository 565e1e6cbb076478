//! How often an end of a channel polls before it sleeps.

use crossbeam_channel::bounded_with;
use crossbeam_channel::protocol::Free;
use std::alloc::{AllocError, Global};
use std::hint::spin_loop;
use std::sync::Wait;

/// How many polls [`poll_in_vain`] takes, whose time says how long a poll lasts.
const TIMED: u32 = 1024;

/// How long these last if nobody has timed them, in nanoseconds: as long as where the times below were chosen.
const UNTIMED: u64 = 18_000;

/// How long the writer polls, in nanoseconds: as long as a place decodes its next job. To wake a thread that sleeps costs more than a put.
const WRITER: u64 = 70_000;

/// How long a line polls, in nanoseconds: as long as the writer makes about as many puts as one message has replies. There are many lines:
/// if they polled longer, those that wait would take processors from the writer.
const LINE: u64 = 18_000;

/// How long a line polls whose client shares its threads, in nanoseconds. These serve many clients, so hardly any is free to wait.
const SHARED: u64 = 1_000;

/// The fewest polls of a wait, however long one lasts.
const FEWEST: u64 = 16;

/// The most polls of a wait, however little time one seems to take.
const MOST: u64 = 65_536;

/// How often each end polls before it sleeps, so that it polls for about the same time on every machine.
#[derive(Clone, Copy, Debug, PartialEq, Eq)]
pub struct Polls {
    /// The writer's end of the queue.
    pub writer: u32,
    /// That of a line.
    pub line: u32,
    /// That of a line whose client shares its threads.
    pub shared: u32,
}

/// How many polls last so long, if [`TIMED`] of them last `timed`. Both are in nanoseconds.
fn polls_for(time: u64, timed: u64) -> u32 {
    let polls = time.saturating_mul(u64::from(TIMED)) / timed.max(1);
    polls.clamp(FEWEST, MOST) as u32
}

impl Polls {
    /// Those of a machine where [`poll_in_vain`] takes so many nanoseconds.
    pub fn of_time(timed: u64) -> Polls {
        Polls {
            writer: polls_for(WRITER, timed),
            line: polls_for(LINE, timed),
            shared: polls_for(SHARED, timed),
        }
    }

    /// Those of a machine where nothing was timed.
    pub fn untimed() -> Polls {
        Polls::of_time(UNTIMED)
    }
}

/// Polls 1,024 times a channel by which nothing comes, for whoever times it.
///
/// # Errors
///
/// [`AllocError`] if memory for the channel is refused.
pub fn poll_in_vain<R: Wait>(rt: &R, alloc: Global) -> Result<(), AllocError> {
    let (_to, from, mut pass) = bounded_with::<(), (), Free, Global>(alloc, 1)?;
    for _ in 0..TIMED {
        drop(from.try_recv_as::<Free, R>(rt, &mut pass));
        spin_loop();
    }
    Ok(())
}
