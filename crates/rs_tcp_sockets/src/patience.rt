//! When a read polls its stream before it blocks.

ghost use Rattle.std.specs.Prelude.{◌≡◌, ◌+◌, ◌%◌, ◌^◌, ◌≤◌, if◌then◌else◌, Decides, true};
ghost use Rattle.rs_tcp_sockets.specs.Patience.{MayPay, in_vain_of, is_short_of};
ghost use Rattle.rs_tcp_sockets.specs.declared.patience.TheConstants.{MOST_IN_VAIN, SHORT_READ};

/// How often a read polls. It takes some ten to twenty microseconds, in which a client that is near answers what it was sent. To wake a
/// thread that sleeps costs several of them.
pub const READ_POLLS: u32 = 100;

const _: () = prove!(READ_POLLS == 100);

/// A read of more bytes than these is one of a stream of packets, or of a long packet, which costs more than a wake-up.
pub const SHORT_READ: usize = 1_024;

const _: () = prove!(SHORT_READ == 1_024);

/// After so many reads in a row that gained nothing by polling, the next ones block at once.
pub const MOST_IN_VAIN: u32 = 2;

const _: () = prove!(MOST_IN_VAIN == 2);

/// Of so many of these, one polls all the same, to see whether the client answers soon again, and whether a processor is free.
pub const POLL_EVERY: u32 = 128;

const _: () = prove!(POLL_EVERY == 128);

/// Whether it pays for the next read of a connection to poll before it blocks. That is so where client and server wait for each other
/// with one packet at a time.
#[derive(Clone, Copy, Debug)]
pub struct ReadPatience {
    in_vain: u32,
    is_short: bool,
}

impl ReadPatience {
    /// That of a connection of which nothing was read. It polls as seldom as one that has gained nothing, since most clients connect and
    /// then are silent.
    pub fn new() -> ReadPatience
        ensures in_vain { in_vain_of result ≡ MOST_IN_VAIN }
        ensures short { is_short_of result ≡ true }
    {
        ReadPatience {
            in_vain: MOST_IN_VAIN,
            is_short: true,
        }
    }

    /// Whether the next read polls. `is_answered` says whether the client was sent something since the last one.
    pub fn should_poll(&self, is_answered: bool) -> bool
        ensures { Decides result (MayPay is_answered self.now) }
    {
        is_answered
            && self.is_short
            && (self.in_vain < MOST_IN_VAIN || self.in_vain % POLL_EVERY == 0)
    }

    /// A read gave so many bytes. `has_gained` says whether polling found them, and not at the first poll: what was there at once
    /// would have come without it.
    pub fn learn(&mut self, has_gained: bool, size: usize)
        ensures in_vain { in_vain_of self.new ≡ (if has_gained then 0 else (in_vain_of self.old + 1) % 2 ^ 32) }
        ensures short { Decides (is_short_of self.new) (size ≤ SHORT_READ) }
    {
        self.in_vain = if has_gained {
            0
        } else {
            self.in_vain.wrapping_add(1)
        };
        self.is_short = size <= SHORT_READ;
    }
}
