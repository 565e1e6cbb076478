//! The writer's end of the queue: its loop, its ways back to the lines, and settling.
//!
//! [`run_writer`] takes jobs from the [`Queue`], puts each of their changes into the store, and replies to their line (`rs_intake_line`). Each job is
//! a step of a [`JobWriter`], which says at every moment what came of the jobs before. If the store's writer is better made ready at once,
//! the jobs that wait are one step, with at most [`MAX_TOGETHER`] changes. What is taken of a place is always a prefix of what
//! the line sent ([`line_order_law`](rs_intake_queue::line_order_law)), and what a line has received of the replies is a prefix of those that were
//! sent to it ([`reply_order_law`]).
//!
//! When all lines and the writer have ended, [`settle`] says whether all that was sent was taken. [`BlankQueue::open`] makes the queue with
//! its lines, under a name ([`LineName`](rs_intake_line::LineName)).
//!
//! Not promised: that the writer's loop returns, since it waits; an order between places; that memory is there.
#![tactic(auto)]

mod blank;
mod cause;
mod fault;
mod gathering;
mod law;
mod running;
mod settling;
mod taken;
mod together;
mod ways_back;
mod writer;

pub use blank::{BlankQueue, blank_queue};
pub use cause::Cause;
pub use fault::SettleFault;
pub use law::{outcomes_law, reply_order_law};
pub use running::{run_writer, run_writer_for};
pub use settling::settle;
pub use taken::Taken;
pub use together::MAX_TOGETHER;
pub use writer::{Ended, JobWriter, Queue};
