//! Lines, a writer and seats over threads, and each refusal.

mod ahead;
mod fullness;
mod log;
mod many;
mod numbers;
mod places;
mod polls;
mod replies;
mod schedules;
mod script;
mod serials;
mod together;

use kit_test::is_shown;
use log::{Log, Ran, Reading, has_totals, is_settled, misses_replies};
use places::{Setup, Writing, run};
use rs_intake::SettleFault;
use rs_message::{Found, MAX_PLACES, Operation};
use rs_store::MAX_TOPICS;
use script::{SETS, Script, largest, last_of_hundred};
use std::alloc::Global;
use std::test::Fail;

/// How often a queue is dropped after a job was sent. A thread that is held up may send it too late.
const TRIES: u32 = 100;

/// How many jobs a writer takes: fewer than the places have to submit, more than one round of them.
const JOBS: u64 = 1000;

fn setup(alloc: Global, limit: u32, script: Script, writing: Writing) -> Setup {
    Setup {
        alloc,
        limit,
        places: MAX_PLACES,
        script,
        writing,
    }
}

/// Whether these were the outcomes at this place, by their numbers and codes, and its last serial was this.
fn are_outcomes(log: &Log, place: u16, serial: u64, wanted: &[(u64, u8)]) -> bool {
    if log.outcomes.len() != wanted.len() {
        return false;
    }
    let mut index = 0usize;
    for outcome in &log.outcomes {
        match wanted.get(index) {
            Some((number, code)) if *number == outcome.number && *code == outcome.code => {}
            _ => return false,
        }
        index = index.saturating_add(1);
    }
    log.place == place && log.serial == serial
}

/// The same of the only place.
fn has_outcomes(ran: &Ran, serial: u64, wanted: &[(u64, u8)]) -> bool {
    match ran.logs.as_slice() {
        [log] => are_outcomes(log, 1, serial, wanted),
        _ => false,
    }
}

/// The same of two places.
fn have_outcomes(ran: &Ran, first: (u64, &[(u64, u8)]), other: (u64, &[(u64, u8)])) -> bool {
    match ran.logs.as_slice() {
        [later, log] => {
            are_outcomes(log, 1, first.0, first.1) && are_outcomes(later, 2, other.0, other.1)
        }
        _ => false,
    }
}

/// One of five changes finds the store full, and has no entry.
#[test]
fn a_change_that_finds_the_store_full_has_no_entry(rt: HostRuntime) -> Result<(), Fail> {
    let setup = Setup {
        alloc: rt.alloc(),
        limit: 2,
        places: 1,
        script: Script::Changes,
        writing: Writing::All,
    };
    let ran = run(rt, setup)?;
    assert!(rt; has_outcomes(&ran, 5, &[(1, 0), (2, 0), (0, 40), (3, 0), (4, 0)]));
    assert!(rt; has_totals(&ran, 5, 1, 4) && is_settled(&ran, 5));
    Ok(())
}

/// The outcomes at the place of `Together`.
const TOGETHER: &[(u64, u8)] = &[
    (1, 0),
    (2, 0),
    (4, 0),
    (5, 0),
    (6, 0),
    (0, 40),
    (7, 0),
    (8, 0),
    (9, 0),
    (0, 43),
    (12, 0),
    (13, 0),
    (14, 0),
];

/// Jobs of three and of five changes: each change has its own outcome, though the store sweeps or becomes full in the middle of a job. A
/// change that is not the one that was sent ahead uses no serial. What is ahead of a line that is handed on was sent.
#[test]
fn each_change_of_a_job_has_its_own_outcome(rt: HostRuntime) -> Result<(), Fail> {
    let setup = Setup {
        alloc: rt.alloc(),
        limit: 2,
        places: 1,
        script: Script::Together,
        writing: Writing::All,
    };
    let ran = run(rt, setup)?;
    assert!(rt; has_outcomes(&ran, 14, TOGETHER) && !misses_replies(&ran));
    assert!(rt; has_totals(&ran, 14, 1, 14) && is_settled(&ran, 14));
    Ok(())
}

/// What is announced reaches the writer before the first of it is submitted, and each submit has its own outcome. What is ahead of a line
/// that is handed on was sent, and no reply to it is taken for that to a later change.
#[test]
fn what_is_announced_is_sent_at_once(rt: HostRuntime) -> Result<(), Fail> {
    let setup = Setup {
        alloc: rt.alloc(),
        limit: 3,
        places: 2,
        script: Script::Early,
        writing: Writing::All,
    };
    let ran = run(rt, setup)?;
    assert!(rt; have_outcomes(&ran, (7, &[(1, 0), (2, 0), (3, 0), (8, 0)]), (1, &[(4, 0)])));
    assert!(rt; !misses_replies(&ran));
    assert!(rt; has_totals(&ran, 8, 0, 8) && is_settled(&ran, 8));
    Ok(())
}

/// A place that takes one reply of many holds up no other. Once its line is handed on, those that it left are not the reply to a later
/// change.
#[test]
fn replies_that_are_not_taken_hold_up_no_other(rt: HostRuntime) -> Result<(), Fail> {
    let setup = Setup {
        alloc: rt.alloc(),
        limit: 3,
        places: 2,
        script: Script::Unread,
        writing: Writing::All,
    };
    let ran = run(rt, setup)?;
    assert!(rt; have_outcomes(&ran, (257, &[(1, 0), (258, 0)]), (1, &[(257, 0)])));
    assert!(rt; !misses_replies(&ran));
    assert!(rt; has_totals(&ran, 258, 0, 258) && is_settled(&ran, 258));
    Ok(())
}

/// A line is handed on though the writer is gone and replied nothing.
#[test]
fn a_line_is_handed_on_without_a_writer(rt: HostRuntime) -> Result<(), Fail> {
    let setup = Setup {
        alloc: rt.alloc(),
        limit: 3,
        places: 2,
        script: Script::Unread,
        writing: Writing::Never,
    };
    for _ in 0..TRIES {
        let ran = run(rt, setup)?;
        if have_outcomes(&ran, (257, &[(0, 42), (0, 44)]), (1, &[(0, 44)])) {
            assert!(rt; misses_replies(&ran));
            return Ok(());
        }
        assert!(rt; have_outcomes(&ran, (2, &[(0, 44), (0, 44)]), (1, &[(0, 44)])));
    }
    Err(Fail::from("no job was sent before the queue was dropped"))
}

/// A submit that the queue holds when it is dropped is told that its entry may come, and one that finds no queue that it was not sent.
#[test]
fn submits_to_a_dropped_queue_are_answered(rt: HostRuntime) -> Result<(), Fail> {
    let setup = Setup {
        alloc: rt.alloc(),
        limit: 2,
        places: 1,
        script: Script::Two,
        writing: Writing::Never,
    };
    for _ in 0..TRIES {
        let ran = run(rt, setup)?;
        if has_outcomes(&ran, 2, &[(0, 42), (0, 44)]) {
            return Ok(());
        }
        assert!(rt; has_outcomes(&ran, 2, &[(0, 44), (0, 44)]));
    }
    Err(Fail::from("no job was sent before the queue was dropped"))
}

/// What is announced to a queue that is gone is not ahead: each submit is told that it was not sent.
#[test]
fn nothing_is_ahead_if_the_queue_is_gone(rt: HostRuntime) -> Result<(), Fail> {
    let setup = Setup {
        alloc: rt.alloc(),
        limit: 2,
        places: 1,
        script: Script::Late,
        writing: Writing::Never,
    };
    let ran = run(rt, setup)?;
    assert!(rt;
        has_outcomes(&ran, 3, &[(0, 42), (0, 44), (0, 44)])
            || has_outcomes(&ran, 3, &[(0, 44), (0, 44), (0, 44)])
    );
    Ok(())
}

/// How many entries of the place were kept, if it was answered as it may be: from some submit on the writer had ended, before its
/// reply or before the job.
fn entries_of(log: &Log) -> Option<u64> {
    let mut entries = 0u64;
    let mut has_ended = false;
    for outcome in &log.outcomes {
        match outcome.code {
            0 if !has_ended => entries = entries.saturating_add(1),
            42 | 44 => has_ended = true,
            _ => return None,
        }
    }
    Some(entries)
}

/// How many entries of all places were kept. `None` if a submit was not answered as it may be.
fn entries_of_all(ran: &Ran) -> Option<u64> {
    let mut sum = 0u64;
    for log in &ran.logs {
        if log.outcomes.len() != SETS as usize {
            return None;
        }
        sum = sum.saturating_add(entries_of(log)?);
    }
    Some(sum)
}

/// A writer that ends while all places submit: each submit is answered, and none waits for ever.
#[test]
fn each_submit_is_answered_if_the_writer_ends(rt: HostRuntime) -> Result<(), Fail> {
    let setup = setup(rt.alloc(), 100, Script::Hundred, Writing::Most(JOBS));
    let ran = run(rt, setup)?;
    assert!(rt; has_totals(&ran, JOBS, 0, JOBS) && entries_of_all(&ran) == Some(JOBS));
    Ok(())
}

/// Whether this is the message that was sent.
fn is_largest(alloc: Global, found: &Found) -> bool {
    match largest(alloc) {
        Some(Operation::Set(sent)) => *found == sent,
        _ => false,
    }
}

/// Whether the last place made the first entry, and reads it as it was sent.
fn reads_largest(alloc: Global, ran: &Ran) -> Option<bool> {
    let log = ran.logs.first()?;
    let outcome = log.outcomes.first()?;
    let Some(entry) = &outcome.entry else {
        return None;
    };
    let [found] = log.readings.first()?.found.as_slice() else {
        return None;
    };
    if outcome.number != 1
        || entry.origin.serial() != 1
        || entry.origin.place() != u16::from(MAX_PLACES)
    {
        return None;
    }
    Some(is_largest(alloc, found))
}

/// The largest entry by one submit, from the last place. Its seat reads it as it was sent.
#[test]
fn the_largest_entry_is_read_as_it_was_sent(rt: HostRuntime) -> Result<(), Fail> {
    let setup = setup(rt.alloc(), MAX_TOPICS, Script::Largest, Writing::All);
    let ran = run(rt, setup)?;
    assert!(rt; has_totals(&ran, 1, 0, 1) && reads_largest(rt.alloc(), &ran) == Some(true));
    Ok(())
}

/// Whether the place read the last Set of each place.
fn has_last_sets(reading: &Reading) -> bool {
    for found in &reading.found {
        if found.message().payload().as_slice() != last_of_hundred().as_slice() {
            return false;
        }
    }
    true
}

/// Whether all places read this version at the end, of so many messages. No version fell before.
fn read_at_last(ran: &Ran, version: u64, count: usize) -> Option<bool> {
    for log in &ran.logs {
        for reading in &log.readings {
            if reading.version < reading.least {
                return None;
            }
        }
        let last = log.readings.last()?;
        if last.version != version || last.found.len() != count {
            return None;
        }
    }
    Some(true)
}

/// Whether all places read the last Set of each place.
fn read_last_sets(ran: &Ran) -> Option<bool> {
    for log in &ran.logs {
        if !has_last_sets(log.readings.last()?) {
            return None;
        }
    }
    read_at_last(ran, 6400, 64)
}

/// All places at once: what the writer took of each place is what was sent from there.
#[test]
fn the_entries_of_each_place_stay_in_order(rt: HostRuntime) -> Result<(), Fail> {
    let ran = run(rt, setup(rt.alloc(), 100, Script::Hundred, Writing::All))?;
    assert!(rt; has_totals(&ran, 6400, 0, 6400) && is_settled(&ran, 6400));
    assert!(rt; read_last_sets(&ran) == Some(true));
    Ok(())
}

/// The sum of the numbers that all places were answered in a round.
fn sum_of_round(logs: &Vec<Log>, round: usize) -> Option<u64> {
    let mut sum = 0u64;
    for log in logs {
        sum = sum.saturating_add(log.outcomes.get(round)?.number);
    }
    Some(sum)
}

/// 1 to 64, 66 to 129, and 131 to 194: before each of the later rounds one Sweep makes space for all.
fn has_rounds(ran: &Ran) -> Option<bool> {
    let first = sum_of_round(&ran.logs, 0)?;
    let second = sum_of_round(&ran.logs, 1)?;
    let third = sum_of_round(&ran.logs, 2)?;
    Some(first == 2_080 && second == 6_240 && third == 10_400)
}

/// A store that all places fill, whose messages expire, and that is filled again.
#[test]
fn a_full_store_is_filled_again_once_all_has_expired(rt: HostRuntime) -> Result<(), Fail> {
    let ran = run(rt, setup(rt.alloc(), 64, Script::Rounds, Writing::All))?;
    assert!(rt; has_totals(&ran, 192, 0, 194) && is_settled(&ran, 192));
    assert!(rt; has_rounds(&ran) == Some(true));
    assert!(rt; read_at_last(&ran, 194, 64) == Some(true));
    Ok(())
}

/// The other places read while one submits. Their versions never fall, and each reads the last one at the end.
#[test]
fn versions_that_are_read_beside_a_writer_never_fall(rt: HostRuntime) -> Result<(), Fail> {
    let setup = Setup {
        alloc: rt.alloc(),
        limit: 4,
        places: 4,
        script: Script::Beside,
        writing: Writing::All,
    };
    let ran = run(rt, setup)?;
    assert!(rt; has_totals(&ran, 100, 0, 100) && read_at_last(&ran, 100, 1) == Some(true));
    Ok(())
}

#[test]
fn the_fault_of_settling_has_a_code_and_a_text(rt: HostRuntime) {
    let fault = SettleFault::Unsettled;
    assert!(rt; fault.code() == 45);
    let text =
        "not all that was sent is known to be taken; close each line once, and settle after the writer has ended";
    assert!(rt; is_shown(rt.alloc(), &fault, text));
}
