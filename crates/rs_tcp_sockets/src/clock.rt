//! The system's clock.

ghost use Rattle.std.specs.Prelude.{◌≡◌, unwrap_or};
ghost use Rattle.rs_tcp_sockets.specs.Clock.{last_of};

use std::time::{Clock, SystemTime, UNIX_EPOCH};

/// The system's clock, in whole seconds since 1970.
#[derive(Debug, Drop)]
pub struct SystemClock {
    last: u64,
}

impl SystemClock {
    /// A clock that was not read yet.
    pub fn new() -> SystemClock
        ensures { last_of result ≡ 0 }
    {
        SystemClock { last: 0 }
    }

    /// The moment. If the clock cannot be read, this is the last moment that was read, and 0 at first.
    pub fn now<H: Clock>(&mut self, rt: &H) -> u64
        ensures { result ≡ last_of self.new }
    {
        self.or_last(seconds_since_1970(rt))
    }

    /// The moment that was read, or if there is none the last one.
    fn or_last(&mut self, read: Option<u64>) -> u64
        ensures moment { result ≡ unwrap_or read (last_of self.old) }
        ensures kept { last_of self.new ≡ result }
    {
        if let Some(seconds) = read {
            self.last = seconds;
        }
        self.last
    }
}

fn seconds_since_1970<H: Clock>(rt: &H) -> Option<u64> {
    let time = SystemTime::now(rt).ok()?;
    Some(time.duration_since(UNIX_EPOCH).ok()?.as_secs())
}
