//! One connection.

use crate::asking::{Asked, new_reader, read_request};
use crate::limits::MAX_DISCARDED;
use crate::memory::resident_bytes;
use crate::replying::{Reply, write_reply};
use http1::{Server, WriteError};
use rs_metrics::{FAMILIES, Metrics, write_text};
use std::alloc::{AllocError, Global};
use std::io;
use std::io::{ErrorKind, Read, Write};
use std::net::{OpenStream, Shutdown};

/// How many bytes one read takes at most.
const READ_SIZE: usize = 1_024;

/// What a connection waits for.
#[derive(Clone, Copy)]
pub enum Wanted {
    /// Bytes to read, or their end.
    Read,
    /// Room to write.
    Write,
    /// Nothing: it has ended.
    Nothing,
}

/// A connection with one request and one reply, over a stream that does not block.
#[derive(Drop)]
pub struct Conversation<S> {
    alloc: Global,
    stream: S,
    // The request, as far as it has come.
    input: Vec<u8>,
    // The reply, once there is one.
    output: Vec<u8>,
    // How many bytes of the reply were written.
    sent: usize,
    // How many bytes were discarded behind the reply.
    discarded: usize,
    stage: Stage,
}

/// What a connection does.
#[derive(Clone, Copy)]
enum Stage {
    /// It reads the request.
    Reading,
    /// It writes the reply.
    Writing,
    /// It discards what the client still sends. A socket that is closed while bytes are unread is reset, and the client may lose the reply.
    Discarding,
    /// It has ended.
    Ended,
}

impl<S: Read + Write + OpenStream> Conversation<S> {
    /// Of which nothing was read. A call of the stream fails with [`WouldBlock`](ErrorKind::WouldBlock) where it would have to wait.
    pub fn new(alloc: Global, stream: S) -> Conversation<S> {
        Conversation {
            alloc,
            stream,
            input: Vec::new(alloc),
            output: Vec::new(alloc),
            sent: 0,
            discarded: 0,
            stage: Stage::Reading,
        }
    }

    /// The stream.
    pub fn stream(&self) -> &S {
        &self.stream
    }

    /// What it waits for.
    pub fn wanted(&self) -> Wanted {
        match self.stage {
            Stage::Reading | Stage::Discarding => Wanted::Read,
            Stage::Writing => Wanted::Write,
            Stage::Ended => Wanted::Nothing,
        }
    }

    /// Goes on, once what it [waits](Conversation::wanted) for is there: reads or writes once. The numbers are those of the moment at which the
    /// whole request has come. It ends if a read or a write fails, or if memory is refused.
    pub fn go_on(&mut self, metrics: &Metrics) {
        let next = match self.stage {
            Stage::Reading => self.read(metrics),
            Stage::Writing => self.write(),
            Stage::Discarding => self.discard(),
            Stage::Ended => Ok(Stage::Ended),
        };
        match next {
            Ok(stage) => self.stage = stage,
            Err(error) => {
                if error.kind() != ErrorKind::WouldBlock {
                    self.stage = Stage::Ended;
                }
            }
        }
    }

    /// Reads once, and makes the reply if the request is whole, or is refused.
    fn read(&mut self, metrics: &Metrics) -> io::Result<Stage> {
        let mut room = [0u8; READ_SIZE];
        let size = self.stream.read(&mut room)?;
        if size == 0 {
            return Ok(Stage::Ended);
        }
        self.input.extend_from_slice(&room[..size])?;
        let mut server = new_reader();
        match read_request(&mut server, self.input.as_slice()) {
            Asked::NeedMore => Ok(Stage::Reading),
            Asked::Metrics => {
                let text = metrics_text(self.alloc, metrics, resident_bytes())?;
                self.reply(&mut server, &Reply::metrics(text.as_bytes()))
            }
            Asked::Health => self.reply(&mut server, &Reply::health(metrics.is_taking())),
            Asked::NotFound => self.reply(&mut server, &Reply::not_found()),
            Asked::NotAllowed => self.reply(&mut server, &Reply::not_allowed()),
            Asked::Refused(status) => self.reply(&mut server, &Reply::refused(status)),
        }
    }

    fn reply(&mut self, server: &mut Server, reply: &Reply<'_>) -> io::Result<Stage> {
        match write_reply(server, &mut self.output, reply) {
            Ok(()) => Ok(Stage::Writing),
            Err(WriteError::OutOfMemory) => Err(io::Error::from(ErrorKind::OutOfMemory)),
            Err(_) => Err(io::Error::from(ErrorKind::InvalidData)),
        }
    }

    /// Writes once. Behind the whole reply, tells the client that no more comes.
    fn write(&mut self) -> io::Result<Stage> {
        let Some(rest) = self.output.get(self.sent..) else {
            return Ok(Stage::Ended);
        };
        let size = self.stream.write(rest)?;
        if size == 0 {
            return Ok(Stage::Ended);
        }
        self.sent = self.sent.saturating_add(size);
        if self.sent < self.output.len() {
            return Ok(Stage::Writing);
        }
        self.stream.shutdown(Shutdown::Write)?;
        Ok(Stage::Discarding)
    }

    /// Reads and discards once.
    fn discard(&mut self) -> io::Result<Stage> {
        let mut room = [0u8; READ_SIZE];
        let size = self.stream.read(&mut room)?;
        self.discarded = self.discarded.saturating_add(size);
        if size == 0 || self.discarded > MAX_DISCARDED {
            return Ok(Stage::Ended);
        }
        Ok(Stage::Discarding)
    }
}

/// The text of the numbers of this moment.
fn metrics_text(
    alloc: Global,
    metrics: &Metrics,
    resident: Option<u64>,
) -> Result<String, AllocError> {
    let mut text = String::new(alloc);
    write_text(&mut text, &metrics.snapshot(resident), FAMILIES)?;
    Ok(text)
}
