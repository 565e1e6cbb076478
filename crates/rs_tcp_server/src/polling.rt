//! How long a poll of the queue's ends lasts on this machine.

use rs_intake_queue::{Polls, poll_in_vain};
use std::alloc::Global;
use std::sync::Wait;
use std::time::{Clock, Instant};

/// How often it is timed. The least time counts: a thread that is interrupted needs longer.
const TRIES: u32 = 8;

/// How many nanoseconds one try takes. `None` if the clock cannot be read, or memory is refused.
fn time_once<H: Clock + Wait>(rt: &H, alloc: Global) -> Option<u64> {
    let start = Instant::now(rt).ok()?;
    poll_in_vain(rt, alloc).ok()?;
    let took = start.elapsed(rt).ok()?;
    u64::try_from(took.as_nanos()).ok()
}

/// How often the ends of the queue poll before they sleep, by the time that polls take here.
pub fn time_polls<H: Clock + Wait>(rt: &H, alloc: Global) -> Polls {
    let mut least = None;
    for _ in 0..TRIES {
        let Some(took) = time_once(rt, alloc) else {
            return Polls::untimed();
        };
        least = Some(took.min(least.unwrap_or(took)));
    }
    match least {
        Some(took) => Polls::of_time(took),
        None => Polls::untimed(),
    }
}
