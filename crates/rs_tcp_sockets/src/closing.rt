//! The end of a connection.

ghost use Rattle.std.specs.Prelude.{◌≡◌, ◌≤◌, ◌<◌, ℕ, List, length, IfSome};
ghost use Rattle.std.specs.Io.KnownBytes.{Consumes};
ghost use Rattle.rs_tcp_sockets.specs.declared.limits.TheConstants.{MAX_DISCARDED};

use crate::limits::{DISCARD_SECONDS, MAX_DISCARDED};
use std::io::Read;
use std::net::{OpenStream, Shutdown};
use std::time::{Clock, Duration, Instant};

/// How many bytes one read discards. They lie in the stack of the connection's thread, which keeps what it has touched.
const DISCARD_SIZE: usize = 4_096;

/// Tells the peer that no more is written, and then reads and discards what it still sends: up to its end,
/// at most [`MAX_DISCARDED`] bytes, and for about a second.
///
/// A socket that is closed while bytes are unread is reset, and the peer may then lose what was written last.
pub(crate) fn end<H: Clock, S: Read + OpenStream>(rt: &H, stream: &mut S)
    ensures { (discarded : List ℕ) × (length discarded ≤ MAX_DISCARDED)
        × Consumes (S.remaining stream.old) (S.remaining stream.new) discarded }
{
    if stream.shutdown(Shutdown::Write).is_err() {
        return;
    }
    let Ok(start) = Instant::now(rt) else {
        return;
    };
    discard(rt, stream, start);
}

/// Reads and discards what the peer sends.
fn discard<H: Clock, S: Read + OpenStream>(rt: &H, stream: &mut S, start: Instant)
    ensures { (discarded : List ℕ) × (length discarded ≤ MAX_DISCARDED)
        × Consumes (S.remaining stream.old) (S.remaining stream.new) discarded }
{
    let mut left = MAX_DISCARDED;
    while left > 0 {
        match discard_some(rt, stream, start, left) {
            0 => break,
            n => left -= n,
        }
    }
}

/// Reads and discards at most `left` bytes: how many. 0 if there are no more, if the time is over, or if
/// the read fails.
fn discard_some<H: Clock, S: Read + OpenStream>(
    rt: &H,
    stream: &mut S,
    start: Instant,
    left: usize,
) -> usize
    ensures bound { result ≤ left }
    ensures bytes { (discarded : List ℕ) × (length discarded ≡ result)
        × Consumes (S.remaining stream.old) (S.remaining stream.new) discarded }
{
    let Some(time) = time_left(rt, start) else {
        return 0;
    };
    if stream.set_read_timeout(Some(time)).is_err() {
        return 0;
    }
    let mut bytes = [0u8; DISCARD_SIZE];
    let size = left.min(DISCARD_SIZE);
    stream.read(&mut bytes[..size]).unwrap_or(0)
}

/// How much of the time is left. None if the clock cannot be read.
fn time_left<H: Clock>(rt: &H, start: Instant) -> Option<Duration> {
    Duration::from_secs(DISCARD_SECONDS).checked_sub(start.elapsed(rt).ok()?)
}
