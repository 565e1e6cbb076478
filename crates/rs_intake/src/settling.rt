//! What the lines and the writer know together, once both have ended.

ghost use Rattle.std.specs.Prelude.{◌≡◌, ◌^◌, ◌<◌, ◌≤◌, List, true, MatchBool, MatchOption, IfOk, IfErr, length};
ghost use Rattle.rs_intake_queue.specs.declared.job.Job.{Job};
ghost use Rattle.rs_intake.specs.Causes.{HaveEnded};
ghost use Rattle.rs_intake.specs.Settling.{ends_at, EachOnce, sent_in_all, AreTaken, AreTakenInOrder, BalancesWith};

use crate::fault::SettleFault;
use crate::taken::Taken;
use crate::writer::Ended;
use rs_intake_line::{LineEnd, LineName};
use rs_version::StoreWriter;

fn count_at<N: LineName>(ends: &Vec<LineEnd<N>>, place: u16) -> usize
    ensures { result ≡ ends_at place ends.now.items }
{
    ends.iter().filter(|end| end.place() == place).count()
}

/// Whether they are those of the places from 1 to this one, in their order.
fn are_in_order<N: LineName>(ends: &Vec<LineEnd<N>>, places: u16) -> bool
    ensures { result ≡ true → EachOnce places ends.now.items }
{
    let mut last = 0u16;
    for end in ends.iter() {
        let place = end.place();
        if place - 1 != last {
            return false;
        }
        last = place;
    }
    last == places
}

fn is_each_once<N: LineName>(ends: &Vec<LineEnd<N>>, places: u16) -> bool
    ensures { MatchBool result (EachOnce places ends.now.items) (¬ EachOnce places ends.now.items) }
{
    // They mostly are, and are counted at each place otherwise, which takes the square of their number.
    if are_in_order(ends, places) {
        return true;
    }
    for before in 0..places {
        if count_at(ends, before + 1) != 1 {
            return false;
        }
    }
    true
}

/// How many entries the queue took from these lines. `None` if the sum is no u64.
fn total<N: LineName>(ends: &Vec<LineEnd<N>>) -> Option<u64>
    ensures { MatchOption result (2 ^ 64 ≤ sent_in_all ends.now.items) (λ n. n ≡ sent_in_all ends.now.items) }
{
    let mut sum = 0u64;
    for end in ends.iter() {
        sum = sum.checked_add(end.sent())?;
    }
    Some(sum)
}

/// How many entries were sent, if each place has one end and these sent as many as were taken.
fn all_sent<N: LineName>(ends: &Vec<LineEnd<N>>, places: u16, taken: u64) -> Option<u64>
    ensures { MatchOption result (¬ (EachOnce places ends.now.items × (sent_in_all ends.now.items ≡ taken)))
        (λ n. (n ≡ taken) × (n ≡ sent_in_all ends.now.items) × EachOnce places ends.now.items) }
{
    if !is_each_once(ends, places) {
        return None;
    }
    let sum = total(ends)?;
    if sum != taken {
        return None;
    }
    Some(sum)
}

/// Joins all lines' passes, and compares them with what was taken.
fn join_all<N: LineName>(taken: &mut Taken<N>, ends: Vec<LineEnd<N>>)
    ensures same { (taken.new.entries ≡ taken.old.entries) × (taken.new.ends ≡ taken.old.ends) }
    ensures balance { 0 < length ends.items → (items : List Job) × BalancesWith N.places taken.new.entries taken.new.ends items ends.items }
{
    for end in ends {
        let (sender, pass) = end.into_parts();
        taken.join(&sender, pass);
        // For the proof: by the rule of the queue, what was taken is what the lines sent, or a prefix of it. `all_sent` compares numbers.
        taken.compare(&sender);
    }
}

/// Whether all that was sent was taken. If so, what was taken of each place is what was sent from there, in its order and each
/// entry once, and the result is how many entries these are. If not, what was taken of each place that has an end is a prefix of what was
/// sent from there, and all of it if the End of each place was taken.
///
/// It takes no memory. `ended` is lent mutably since its pass of the queue takes in those of the lines; nothing else of it changes.
///
/// # Errors
///
/// [`Unsettled`](SettleFault::Unsettled) if a place has no end or two, or not as many entries were taken as sent.
pub fn settle<N: LineName, S: StoreWriter<N>>(
    ends: Vec<LineEnd<N>>,
    ended: &mut Ended<N, S>,
) -> Result<u64, SettleFault>
    ensures taken { IfOk result (λ n. n ≡ ended.old.taken) }
    ensures sum { IfOk result (λ n. n ≡ sent_in_all ends.items) }
    ensures once { IfOk result (λ _. EachOnce N.places ends.items) }
    ensures settled { IfOk result (λ _. AreTaken ended.old.received.entries ends.items) }
    ensures order { AreTakenInOrder ended.old.received.entries ends.items }
    ensures ended { HaveEnded N.places ended.old.received.ends → AreTaken ended.old.received.entries ends.items }
    ensures unsettled { IfErr result (λ _. ¬ (EachOnce N.places ends.items × (sent_in_all ends.items ≡ ended.old.taken))) }
    ensures same { (ended.new.writer ≡ ended.old.writer) × (ended.new.taken ≡ ended.old.taken) × (ended.new.refused ≡ ended.old.refused)
        × (ended.new.held ≡ ended.old.held) × (ended.new.cause ≡ ended.old.cause) × (ended.new.ways ≡ ended.old.ways)
        × (ended.new.received.entries ≡ ended.old.received.entries) × (ended.new.received.ends ≡ ended.old.received.ends) }
{
    let all = all_sent(&ends, ended.received.places(), ended.taken);
    join_all(&mut ended.received, ends);
    match all {
        Some(sum) => Ok(sum),
        None => Err(SettleFault::Unsettled),
    }
}
