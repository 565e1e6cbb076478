//! What is served.

ghost use Rattle.std.specs.Prelude.{◌≡◌, Bool, true, false, IfSome, IsTrue};

use crate::watch::Watch;
use std::alloc::Global;
use std::io::Read;
use std::sync::Wait;

/// A client that is served in steps, each by whichever thread has time.
pub trait Client<H: Wait>: Sized {
    /// What its connection is read from.
    type In: Read + Send;

    /// Whether something was read for it that is not handled yet, as contracts see it.
    ghost is_read: { Self → Bool };

    /// Reads, if it has a connection and waits for what comes by that, and sends the changes that were read to the writer. Else it is left
    /// as it is.
    fn read(self, alloc: Global) -> Self;

    /// Whether changes were sent to the writer when it was read. Then its next step waits for the replies.
    fn has_changes(&self) -> bool;

    /// Makes its next step, which may wait. `None` if it is done. If something was read, that is handled, and nothing more is read.
    fn step(self, rt: &H, alloc: Global) -> Option<Self>
        ensures handled { is_read self ≡ true → IfSome result (λ next. is_read next ≡ false) };

    /// Writes out what waits for it, if it is to be watched next. False if that failed: then it is to go on at once.
    fn write_out<W: Watch<Self::In>>(self, watch: &W) -> (Self, bool)
        ensures same { is_read result.0 ≡ is_read self };

    /// Has it watched, as the client of this number, in this lane. False if it is to go on at once, as one of which something was read.
    fn begin_watch<W: Watch<Self::In>>(&self, watch: &W, lane: usize, number: usize) -> bool
        ensures handled { IsTrue result → is_read self.now ≡ false };
}
