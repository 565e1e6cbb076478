//! The rule of the queue to the writer: first in, first out for each place.

use crate::job::Job;
use crossbeam_channel::protocol::{Join, Lesson, Outcome, Protocol, Split};
use crossbeam_channel::{RuledReceiver, RuledSender};
use rs_message::Entry;
use std::collections::LinkedList;

/// All that was sent from a place. No value of it is made.
pub struct SentFrom {
    pub place: u16,
    pub entries: LinkedList<Entry>,
}

/// What a pass of the queue knows: the entries and the End that a line sent, or those that the writer took. No value of it is made.
pub struct PassView {
    /// The place, if it is a line's.
    pub from: u16,
    pub sends: bool,
    pub takes: bool,
    /// How many lines were made, if it is the writer's.
    pub made: u64,
    pub entries: LinkedList<Entry>,
    /// The places of the Ends that it sent or took.
    pub ends: LinkedList<u16>,
    /// What was sent from each line that has ended, if it is the writer's.
    pub known: LinkedList<SentFrom>,
}

/// What was sent from each place is what was taken of it, followed by what the queue holds of it. The serials of each place rise.
/// Each line sends one End at most, and nothing behind it.
pub struct QueueRule;

impl Protocol<Job, PassView> for QueueRule {
    ghost use Rattle.rs_intake_queue.specs.QueueRule.{Keeps, taker};

    ghost holds = { Keeps };

    ghost first = { taker };
}

/// A send: the job joins those of the line.
pub struct Sending;

impl Outcome<Job, PassView> for Sending {
    ghost use Rattle.rs_intake_queue.specs.QueueRule.{Sends};

    ghost then = { Sends };
}

impl Lesson<Job, PassView> for Sending {
    ghost fact = { λ v items. Unit {0} };
}

/// A receive: the job joins those that the writer took, the serials of these rise, and each place has one End at most.
pub struct Taking;

impl Outcome<Job, PassView> for Taking {
    ghost use Rattle.rs_intake_queue.specs.QueueRule.{Takes};

    ghost then = { Takes };
}

impl Lesson<Job, PassView> for Taking {
    ghost fact = { λ v items. Unit {0} };
}

/// A line's pass, which is cut off the writer's and joined to it again.
pub struct LinePass;

impl Split<PassView> for LinePass {
    ghost use Rattle.rs_intake_queue.specs.QueueRule.{one_line_more, new_line};

    ghost left = { one_line_more };

    ghost right = { new_line };
}

impl Join<PassView> for LinePass {
    ghost use Rattle.rs_intake_queue.specs.QueueRule.{one_line_less, spent};

    ghost both = { one_line_less };

    ghost spent = { spent };
}

impl Lesson<Job, PassView> for LinePass {
    ghost use Rattle.rs_intake_queue.specs.QueueRule.{Balances};

    ghost fact = { Balances };
}

/// Sends jobs.
pub type JobSender = RuledSender<Job, PassView, QueueRule>;

/// Receives jobs.
pub type JobReceiver = RuledReceiver<Job, PassView, QueueRule>;
