//! The lines to the writer of a store, and the ways back by which it replies.
//!
//! Each client has a line ([`SeatLine`]), whose number is its place. [`Intake::submit`] sends an operation by the line, under the line's next serial, and waits for
//! the receipt of just that entry. Changes that are announced to a line ([`SeatLine::expect`]) are sent together, as one job, and submitted
//! one by one. What a line has received of the replies is a prefix of those that were sent to it (`reply_order_law` of `rs_intake`).
//! [`SeatLine::close`] ends a line. A type that implements [`LineName`] ties all of these to one store and one queue.
//!
//! Not promised: that an announcement, a submit, or a line that is handed on or closed returns, since these wait; that memory is there.
#![tactic(auto)]

mod announced;
mod fullness;
mod intake;
mod line;
mod name;
mod reply;
mod sizes;

pub use fullness::{Fullness, FullnessWriter, Lack};
pub use intake::{Intake, read_reply};
pub use line::{LineEnd, LineSender, SeatLine};
pub use name::LineName;
pub use reply::{
    FEW_REPLIES, MessageSize, ReplyReceiver, ReplySender, WayEnd, WriterReplies, WriterReply,
    way_back,
};
