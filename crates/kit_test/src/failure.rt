//! Why the program ends without its answer.

use rs_packet::PacketFault;
use rs_topic::TopicFault;
use rs_window::WindowFault;
use std::alloc::{AllocError, AllocFailed};
use std::io;

#[derive(Clone, Copy)]
pub enum Failure {
    Words,
    Input,
    NoMemory,
    Wrong,
    Io,
}

impl Failure {
    /// What is said on standard error.
    pub fn text(self) -> &'static str {
        match self {
            Failure::Words =>
                "give a task and its numbers, as bench/run and checks/out_of_memory do",
            Failure::Input => "standard input has to be one PUBLISH or SUBSCRIBE",
            Failure::NoMemory => "out of memory",
            Failure::Wrong => "a call gave a wrong answer",
            Failure::Io => "the clock, the words, the input or the output failed",
        }
    }

    /// The exit status: 1 if memory, the clock, the words, the input or the output failed, 2 for words or an input that are refused,
    /// 3 for a wrong answer.
    pub fn status(self) -> u8 {
        match self {
            Failure::NoMemory | Failure::Io => 1,
            Failure::Words | Failure::Input => 2,
            Failure::Wrong => 3,
        }
    }
}

/// Fails if an answer is wrong.
pub fn check(is_right: bool) -> Result<(), Failure> {
    if is_right {
        Ok(())
    } else {
        Err(Failure::Wrong)
    }
}

impl From<AllocError> for Failure {
    fn from(_error: AllocError) -> Failure {
        Failure::NoMemory
    }
}

impl<T: Drop> From<AllocFailed<T>> for Failure {
    fn from(_error: AllocFailed<T>) -> Failure {
        Failure::NoMemory
    }
}

impl From<io::Error> for Failure {
    fn from(_error: io::Error) -> Failure {
        Failure::Io
    }
}

impl From<TopicFault> for Failure {
    fn from(fault: TopicFault) -> Failure {
        match fault {
            TopicFault::NoMemory => Failure::NoMemory,
            _ => Failure::Wrong,
        }
    }
}

impl From<WindowFault> for Failure {
    fn from(fault: WindowFault) -> Failure {
        match fault {
            WindowFault::NoMemory => Failure::NoMemory,
            _ => Failure::Wrong,
        }
    }
}

impl From<PacketFault> for Failure {
    fn from(_fault: PacketFault) -> Failure {
        Failure::Input
    }
}
