//! The end of the writer's loop.

use rs_intake_queue::Gone;

/// Why the writer's loop ended.
#[derive(Debug, Drop)]
pub enum Cause {
    /// The End of each place was taken.
    AllEnded,
    /// At least as many entries were taken as may be, or fewer than [`MAX_CHANGES`](rs_intake_queue::MAX_CHANGES) more can be counted.
    MostTaken,
    /// The receive of a job failed, with this [`Gone`].
    QueueGone(Gone),
}
