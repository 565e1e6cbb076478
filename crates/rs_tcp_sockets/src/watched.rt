//! A client that can be watched.

ghost use Rattle.std.specs.Prelude.{◌≡◌, ◌↔◌, ◌<◌, ◌^◌, IsSome, IfSome};
ghost use Rattle.rs_tcp_sockets.specs.Watched.{number_of};

use std::sync::atomic::{AtomicBool, AtomicU32, AtomicU64, Ordering};

/// What is known of a client that can be watched. Whoever has the client begins to watch it, and whoever ends that has it then.
#[derive(Drop)]
pub(crate) struct Watched {
    // Odd while it is watched. It rises whenever that begins or ends, so that what tells of an earlier turn is known.
    turn: AtomicU32,
    // The moment when it was last watched, in milliseconds. If it is the greatest number, it never counts as idle.
    since: AtomicU64,
    // Whether its connection was watched before.
    is_known: AtomicBool,
}

impl Watched {
    /// It is not watched yet.
    pub(crate) fn new() -> Watched {
        Watched {
            turn: AtomicU32::new(0),
            since: AtomicU64::new(0),
            is_known: AtomicBool::new(false),
        }
    }

    /// Whether its connection is watched for the first time. It is known from then on.
    pub(crate) fn is_first(&self) -> bool {
        if self.is_known.load(Ordering::SeqCst) {
            return false;
        }
        self.is_known.store(true, Ordering::SeqCst);
        true
    }

    /// When it is watched next, that counts as the first time.
    pub(crate) fn forget(&self) {
        self.is_known.store(false, Ordering::SeqCst);
    }

    /// Begins to watch it: its turn. `moment` is what the clock shows, in milliseconds, if it is known.
    pub(crate) fn begin(&self, moment: Option<u64>) -> u32 {
        self.since
            .store(moment.unwrap_or(u64::MAX), Ordering::SeqCst);
        // Last: from here on others may end this turn.
        let turn = self.turn.load(Ordering::SeqCst).wrapping_add(1);
        self.turn.store(turn, Ordering::SeqCst);
        turn
    }

    /// Ends this turn. False if it has ended before.
    pub(crate) fn end(&self, turn: u32) -> bool {
        self.turn
            .compare_exchange(
                turn,
                turn.wrapping_add(1),
                Ordering::SeqCst,
                Ordering::SeqCst,
            )
            .is_ok()
    }

    /// If it is watched, and has been for longer than `idle` milliseconds at the moment `now`: ends its turn. Whether that is so.
    pub(crate) fn end_overdue(&self, now: u64, idle: u64) -> bool {
        // First: if another turn begins after this, it is not ended.
        let turn = self.turn.load(Ordering::SeqCst);
        let since = self.since.load(Ordering::SeqCst);
        turn % 2 == 1 && now.saturating_sub(since) > idle && self.end(turn)
    }
}

/// The number under which a client is watched at this turn.
pub(crate) fn number_of(client: u16, turn: u32) -> u64
    ensures { result ≡ number_of client turn }
{
    u64::from(turn) * 65_536 + u64::from(client)
}

/// The client and the turn of a number. `None` if it is the number of none.
pub(crate) fn split_number(number: u64) -> Option<(u16, u32)>
    ensures some { IsSome result ↔ (number < 2 ^ 48) }
    ensures number { IfSome result (λ of. number ≡ number_of of.0 of.1) }
{
    let turn = u32::try_from(number / 65_536).ok()?;
    Some(((number % 65_536) as u16, turn))
}
