//! The jobs that lines send to the writer of a store, and the rule of the queue that carries them.
//!
//! A [`Job`] has [`Changes`] of one place, or says that the line of the place sends nothing more. [`prepare`] makes changes of operations,
//! [`prepare_next`] of one operation, and [`prepare_one`] of one entry. The functions of [`steps`] send a job and take one, and cut, join and
//! compare what the ends of the queue know. Each keeps the rule of the queue ([`QueueRule`]): what the writer took of a place is always a
//! prefix of what its line sent, and all of it once the place's End was taken ([`line_order_law`]).
//!
//! [`send`] and [`receive`] are those of any channel with a rule. One fails once the other ends are gone, and answers [`Gone`]. A receive
//! polls for a while before it sleeps ([`Patience`]), as long as [`Polls`] says.
//!
//! Not promised: that a send or a receive returns, since these wait; that memory is there.
#![tactic(auto)]

mod job;
mod law;
mod polls;
mod preparing;
mod room;
mod rule;
pub mod steps;
mod waiting;

pub use job::{Changes, Entries, Job, MAX_CHANGES};
pub use law::line_order_law;
pub use polls::{Polls, poll_in_vain};
pub use preparing::{prepare, prepare_next, prepare_one};
pub use rule::{JobReceiver, JobSender, PassView, QueueRule, SentFrom};
pub use waiting::{Gone, Patience, receive, send};
