//! What tells a pool which clients have something to do.

ghost use Rattle.std.specs.Prelude.{◌≡◌, ◌≤◌, length, IfSome};

use std::io::Read;
use std::sync::Wait;

/// Tells which clients have something to do: one that has a connection, if there is something to read; one that has none, if a connection
/// has come for it, or if no more will. Clients are numbered from 0 on, and each is in a lane.
///
/// Several threads may wait for one lane. A client is given to one of them, and to no other until it is watched again.
pub trait Watch<I: Read> {
    /// Waits until clients of this lane have something to do, and puts their numbers at the front of `ready`: how many. Some may be of
    /// other lanes. `None` once it was stopped.
    fn wait<H: Wait>(&self, rt: &H, lane: usize, ready: &mut [usize]) -> Option<usize>
        ensures { IfSome result (λ count. count ≤ length ready.new) };

    /// The same, but it waits for nothing: how many have something to do by now.
    fn look(&self, lane: usize, ready: &mut [usize]) -> usize
        ensures { result ≤ length ready.new };

    /// Watches the connection of this client, in this lane. False if that fails: then it is to go on at once.
    fn watch(&self, lane: usize, client: usize, input: &I) -> bool;

    /// Watches for a connection for this client. False if it is to ask for one at once, since no more
    /// will come or that fails.
    fn watch_free(&self, client: usize) -> bool;

    /// Writes out what waits for the client. False if that fails: then it is to go on at once, and its read says so.
    fn write_out(&self, input: I) -> (I, bool)
        ensures { I.remaining result.0 ≡ I.remaining input };

    /// Each thread that waits, and each that would, is told that it was stopped.
    fn stop(&self);
}

/// Tells nothing: for clients that each have a thread of their own. In lanes, each client would be served until it is done before the next
/// is.
#[derive(Clone, Copy)]
pub struct NoWatch;

impl<I: Read> Watch<I> for NoWatch {
    fn wait<H: Wait>(&self, _rt: &H, _lane: usize, _ready: &mut [usize]) -> Option<usize> {
        None
    }

    fn look(&self, _lane: usize, _ready: &mut [usize]) -> usize {
        0
    }

    fn watch(&self, _lane: usize, _client: usize, _input: &I) -> bool {
        false
    }

    fn watch_free(&self, _client: usize) -> bool {
        false
    }

    fn write_out(&self, input: I) -> (I, bool) {
        (input, true)
    }

    fn stop(&self) {}
}
