//! A send, and a receive that polls for a while before it sleeps.

ghost use Rattle.std.specs.Prelude.{◌≡◌, MatchOption, MatchResult};
ghost use Rattle.crossbeam_channel.specs.Claims.{view, IsSeatAt};
ghost use Rattle.crossbeam_channel.specs.Err.{IsSendOutOfMemory};
ghost use Rattle.crossbeam_channel.specs.declared.err.TryRecvError.TheVariants.{Disconnected, Empty};
ghost use Rattle.crossbeam_channel.specs.Ends.{receives_on, ruled_capacity, sends_on};
ghost use Rattle.crossbeam_channel.specs.Fifo.{Held, Learns, Pops, Pushes};

use crossbeam_channel::protocol::{Lesson, Outcome, Protocol};
use crossbeam_channel::{Pass, RecvError, RuledReceiver, RuledSender, SendError, TryRecvError};
use std::hint::spin_loop;
use std::sync::Wait;

/// A send or a receive on a channel failed, as it does once the other ends are gone. Only the two functions below make such a value, of the
/// failure that their call on the channel answered, so it stands for that call in contracts. That the ends were gone no clause says.
#[derive(Debug, Drop)]
pub struct Gone {
    seen: (),
}

impl Gone {
    /// That of a send.
    fn of_send<T: Drop>(failure: SendError<T>) -> Gone
        requires { ¬ IsSendOutOfMemory failure }
    {
        drop(failure);
        Gone { seen: () }
    }

    /// That of a receive.
    fn of_receive(_failure: RecvError) -> Gone {
        Gone { seen: () }
    }

    /// That of a poll. `None` if it found no message, but the other ends are there.
    fn of_poll(failure: TryRecvError) -> Option<Gone>
        ensures { MatchOption result (failure ≡ Empty) (λ _. failure ≡ Disconnected) }
    {
        match failure {
            TryRecvError::Empty => None,
            TryRecvError::Disconnected => Some(Gone { seen: () }),
        }
    }
}

/// After so many receives that polled in vain, the next ones poll once and then sleep, until one finds its message at a later poll.
const MOST_IN_VAIN: u32 = 2;

/// Of so many of these, one polls as often as the first ones, to see whether a processor is free again for the other thread. So polling
/// costs little where it is of no use, as on one processor.
const POLL_EVERY: u32 = 128;

/// How the receives at one end of a channel wait: how often one polls at most, and whether those before found by polling what they waited
/// for.
#[derive(Drop)]
pub struct Patience {
    most_polls: u32,
    in_vain: u32,
    has_waited: bool,
}

impl Patience {
    pub fn new(most_polls: u32) -> Patience {
        Patience {
            most_polls,
            in_vain: 0,
            has_waited: false,
        }
    }

    /// Whether the last receive found nothing at its first poll.
    pub fn has_waited(&self) -> bool {
        self.has_waited
    }

    /// How often the next receive polls.
    fn polls_allowed(&self) -> u32 {
        if self.in_vain < MOST_IN_VAIN || self.in_vain % POLL_EVERY == 0 {
            self.most_polls
        } else {
            1
        }
    }
}

/// As `send_as`. A refused message is dropped.
pub fn send<T: Drop, V, P: Protocol<T, V>, M: Outcome<T, V> + Lesson<T, V>, R: Wait>(
    rt: &R,
    to: &RuledSender<T, V, P>,
    pass: &mut Pass<T, V>,
    message: T,
) -> Result<(), Gone>
    requires channel { IsSeatAt (sends_on to.now) pass.old }
    requires rule { Pushes P.holds (ruled_capacity (sends_on to.now)) pass.old.id (view pass.old) message (M.then (view pass.old) message)
        × Learns P.holds pass.old.id (view pass.old) (M.fact (view pass.old)) }
    ensures channel { IsSeatAt (sends_on to.now) pass.new × (pass.new.id ≡ pass.old.id) }
    ensures rule { MatchResult result (λ _. M.then (view pass.old) message (view pass.new)) (λ _. view pass.new ≡ view pass.old) }
{
    match to.send_as::<M, R>(rt, pass, message) {
        Ok(()) => Ok(()),
        Err(failure) => Err(Gone::of_send(failure)),
    }
}

/// As `recv_as`, which sleeps if nothing comes while it polls. It never gives up the processor before that: beside threads of other
/// programs a yield lasts much longer than a sleep.
pub fn receive<T: Drop, V, P: Protocol<T, V>, M: Outcome<T, V> + Lesson<T, V>, R: Wait>(
    rt: &R,
    from: &RuledReceiver<T, V, P>,
    pass: &mut Pass<T, V>,
    patience: &mut Patience,
) -> Result<T, Gone>
    requires channel { IsSeatAt (receives_on from.now) pass.old }
    requires rule { Pops P.holds pass.old.id (view pass.old) (M.then (view pass.old))
        × Learns P.holds pass.old.id (view pass.old) (M.fact (view pass.old)) }
    ensures channel { IsSeatAt (receives_on from.now) pass.new × (pass.new.id ≡ pass.old.id) }
    ensures rule { MatchResult result (λ x. M.then (view pass.old) x (view pass.new))
        (λ _. (view pass.new ≡ view pass.old) × Held 0 (M.fact (view pass.old))) }
{
    for poll in 0..patience.polls_allowed() {
        match from.try_recv_as::<M, R>(rt, pass) {
            Ok(message) => {
                // What was there at once says nothing about polling.
                patience.has_waited = poll > 0;
                if patience.has_waited {
                    patience.in_vain = 0;
                }
                return Ok(message);
            }
            Err(failure) => {
                if let Some(gone) = Gone::of_poll(failure) {
                    return Err(gone);
                }
                spin_loop();
            }
        }
    }
    patience.has_waited = true;
    patience.in_vain = patience.in_vain.wrapping_add(1);
    match from.recv_as::<M, R>(rt, pass) {
        Ok(message) => Ok(message),
        Err(failure) => Err(Gone::of_receive(failure)),
    }
}

/// As `try_recv_as`: it waits for nothing. `None` if no message is there, or the receive failed, as the next [`receive`] then does, too.
pub fn receive_if_any<T: Drop, V, P: Protocol<T, V>, M: Outcome<T, V> + Lesson<T, V>, R: Wait>(
    rt: &R,
    from: &RuledReceiver<T, V, P>,
    pass: &mut Pass<T, V>,
) -> Option<T>
    requires channel { IsSeatAt (receives_on from.now) pass.old }
    requires rule { Pops P.holds pass.old.id (view pass.old) (M.then (view pass.old))
        × Learns P.holds pass.old.id (view pass.old) (M.fact (view pass.old)) }
    ensures channel { IsSeatAt (receives_on from.now) pass.new × (pass.new.id ≡ pass.old.id) }
    ensures rule { MatchOption result (view pass.new ≡ view pass.old) (λ x. M.then (view pass.old) x (view pass.new)) }
{
    match from.try_recv_as::<M, R>(rt, pass) {
        Ok(message) => Some(message),
        Err(_) => None,
    }
}
