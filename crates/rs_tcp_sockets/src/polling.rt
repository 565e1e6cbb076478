//! A reader that polls its stream for a while before it blocks.

ghost use Rattle.std.specs.Prelude.{◌≡◌};
ghost use Rattle.rs_tcp_sockets.specs.Polling.{inner_of};

use crate::patience::{READ_POLLS, ReadPatience};
use std::io;
use std::io::Read;
use std::num::NonZeroUsize;
use std::sync::Arc;
use std::sync::atomic::{AtomicU32, Ordering};
use std::thread::{Threads, available_parallelism};

/// A stream that can be polled, and tells whether that may pay.
pub trait Pollable {
    /// Whether a read gives something at once: bytes, the end, or an error.
    fn is_ready(&self) -> bool;

    /// Whether something was sent to the peer since this was last asked.
    fn take_answered(&self) -> bool;
}

/// How many more reads may poll at the same time.
#[derive(Drop)]
pub struct Pollers {
    free: AtomicU32,
}

impl Pollers {
    /// So many may poll.
    pub fn new(count: u32) -> Pollers {
        Pollers {
            free: AtomicU32::new(count),
        }
    }

    /// Half as many may poll as the process may use processors. So there is another one for what each waits for: the writer, or a client of
    /// the same machine. On one processor, or if it is not known how many there are, none polls.
    pub fn of_processors<H: Threads>(rt: &H) -> Pollers {
        let processors = available_parallelism(rt).map_or(0, NonZeroUsize::get);
        Pollers::new(u32::try_from(processors / 2).unwrap_or(0))
    }

    /// Begins to poll. False if as many do as may.
    fn begin(&self) -> bool {
        self.free
            .fetch_update(Ordering::SeqCst, Ordering::SeqCst, |free| {
                free.checked_sub(1)
            })
            .is_ok()
    }

    fn end(&self) {
        self.free.fetch_add(1, Ordering::SeqCst);
    }
}

/// Reads, and polls before that while it pays ([`ReadPatience`]), so that the thread does not sleep if the peer soon answers.
///
/// What remains are the bytes of the inner reader.
#[derive(Drop)]
pub struct Polling<R> {
    inner: R,
    pollers: Arc<Pollers>,
    patience: ReadPatience,
}

impl<R> Polling<R> {
    /// Over a reader of which nothing was read.
    pub fn new(inner: R, pollers: Arc<Pollers>) -> Polling<R>
        ensures { inner_of result ≡ inner }
    {
        Polling {
            inner,
            pollers,
            patience: ReadPatience::new(),
        }
    }

    /// The reader behind.
    pub fn inner(&self) -> &R
        ensures { result.now ≡ inner_of self.now }
    {
        &self.inner
    }
}

impl<R: Pollable> Polling<R> {
    /// Polls, if that may pay. Whether it gained something.
    fn poll(&self) -> bool {
        let is_answered = self.inner.take_answered();
        if !self.patience.should_poll(is_answered) || !self.pollers.begin() {
            return false;
        }
        let has_gained = is_soon_ready(&self.inner);
        self.pollers.end();
        has_gained
    }
}

impl<R: Read + Pollable> Read for Polling<R> {
    ghost use Rattle.std.specs.Io.{ReadsAtMost};
    ghost use Rattle.std.specs.Io.KnownBytes.{ReadConsumes};
    ghost use Rattle.rs_tcp_sockets.specs.Polling.{left_of};

    ghost remaining = { left_of R.remaining };

    fn read(&mut self, buf: &mut [u8]) -> io::Result<usize>
        ensures bound { ReadsAtMost result buf.new }
        ensures bytes { ReadConsumes (left_of R.remaining self.old) (left_of R.remaining self.new) result buf.new }
    {
        let has_gained = self.poll();
        let size = self.inner.read(buf)?;
        self.patience.learn(has_gained, size);
        Ok(size)
    }
}

/// Polls until the stream is ready. Whether it is, and was not at the first poll.
fn is_soon_ready(stream: &impl Pollable) -> bool {
    for poll in 0..READ_POLLS {
        if stream.is_ready() {
            return poll > 0;
        }
    }
    false
}
