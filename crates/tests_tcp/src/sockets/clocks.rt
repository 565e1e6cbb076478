//! The system's clock, where it can be read and where not.

use rs_tcp_sockets::SystemClock;
use std::io;
use std::io::ErrorKind;
use std::test::Fail;
use std::time::{Clock, Duration};

/// A clock that shows so many milliseconds, or fails.
#[derive(Drop)]
struct FixedClock(Option<u64>);

impl Clock for FixedClock {
    fn monotonic(&self) -> io::Result<Duration> {
        Err(io::Error::from(ErrorKind::Unsupported))
    }

    fn since_1970(&self) -> io::Result<Duration> {
        match self.0 {
            Some(millis) => Ok(Duration::from_millis(millis)),
            None => Err(io::Error::from(ErrorKind::Unsupported)),
        }
    }
}

#[test]
fn the_last_moment_stands(rt: HostRuntime) -> Result<(), Fail> {
    let mut clock = SystemClock::new();
    let moments = [
        (None, 0),
        (Some(5_999), 5),
        (None, 5),
        (Some(6_000), 6),
        (Some(3_000), 3),
        (None, 3),
    ];
    for (millis, moment) in moments {
        assert!(rt; clock.now(&FixedClock(millis)) == moment);
    }
    // 2020 is over.
    assert!(rt; clock.now(&rt) > 1_600_000_000);
    Ok(())
}
