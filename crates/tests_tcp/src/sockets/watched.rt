//! A stream in memory that notes how often a reader polls it.

use rs_tcp_sockets::Pollable;
use std::io;
use std::io::{ErrorKind, Read};
use std::sync::Arc;
use std::sync::atomic::{AtomicU32, Ordering};

/// What a read gives.
#[derive(Clone, Copy)]
pub enum Gives {
    /// So many bytes.
    Bytes(usize),
    /// The end.
    End,
    /// An error, since the peer has reset the connection.
    Reset,
}

impl Gives {
    /// Whether it is so many bytes.
    pub fn is_size(self, given: usize) -> bool {
        match self {
            Gives::Bytes(size) => given == size,
            Gives::End => given == 0,
            Gives::Reset => false,
        }
    }

    pub fn is_reset(self) -> bool {
        matches!(self, Gives::Reset)
    }
}

/// Some reads in a row that are alike.
#[derive(Clone, Copy)]
pub struct Reads {
    pub count: u32,
    /// Whether something was sent to the peer before each.
    pub answered: bool,
    /// The poll that finds the stream ready, from 0 on. If there is none, the read waits.
    pub ready_at: u32,
    pub gives: Gives,
    /// How often the stream has to be polled before each.
    pub polls: u32,
}

/// The stream.
#[derive(Drop)]
pub struct Watched {
    /// Those that are to come.
    pub reads: &'static [Reads],
    /// How many of the first ones are over.
    pub over: u32,
    /// How often it was polled.
    pub polls: Arc<AtomicU32>,
}

impl Watched {
    fn next_read(&self) -> Option<Reads> {
        self.reads.first().copied()
    }

    fn go_on(&mut self) {
        self.over = self.over.saturating_add(1);
        if let Some((first, rest)) = self.reads.split_first() {
            if self.over == first.count {
                self.reads = rest;
                self.over = 0;
            }
        }
    }
}

impl Pollable for Watched {
    fn is_ready(&self) -> bool {
        let before = self.polls.fetch_add(1, Ordering::SeqCst);
        self.next_read().is_some_and(|next| before >= next.ready_at)
    }

    fn take_answered(&self) -> bool {
        self.next_read().is_some_and(|next| next.answered)
    }
}

impl Read for Watched {
    fn read(&mut self, buf: &mut [u8]) -> io::Result<usize> {
        let gives = self.next_read().map_or(Gives::End, |next| next.gives);
        self.go_on();
        match gives {
            Gives::Bytes(size) => Ok(size.min(buf.len())),
            Gives::End => Ok(0),
            Gives::Reset => Err(io::Error::from(ErrorKind::ConnectionReset)),
        }
    }
}
