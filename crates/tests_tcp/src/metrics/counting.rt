//! Each number against what the test counted.

use rs_metrics::{
    COUNTERS, Change, Counter, End, FAMILIES, FilterOutcome, JournalMeter, JournalNumbers, Limits,
    Meter, Metrics, Outcome, Qos, Snapshot, Source, WriterMeter, resident_pages,
};
use std::alloc::{AllocError, Global};
use std::sync::Arc;
use std::test::Fail;
use std::thread::{Threads, spawn};

/// How many threads count.
const THREADS: u16 = 8;

/// How often each thread counts everything.
const ROUNDS: u64 = 5;

/// How often all threads count everything.
const CALLS: u64 = 400;

/// How many lines each thread counts for: in all some more than there are shards.
const LINES: u16 = 10;

pub const LIMITS: Limits = Limits {
    clients: 100,
    topics: 20_000,
    bytes: Some(4_000_000),
};

const ENDS: &[End] = &[
    End::ClientDisconnected,
    End::EndOfInput,
    End::CutInput,
    End::ClosedWithCode,
    End::ClosedSilently,
    End::ReadFailed,
    End::WriteFailed,
    End::OutOfMemory,
];

const LEVELS: &[Qos] = &[Qos::AtMostOnce, Qos::AtLeastOnce, Qos::ExactlyOnce];

const OUTCOMES: &[Outcome] = &[
    Outcome::Stored,
    Outcome::StoreFull,
    Outcome::OutOfMemory,
    Outcome::NotKnown,
];

const FILTERS: &[FilterOutcome] = &[
    FilterOutcome::Answered,
    FilterOutcome::OutOfMemory,
    FilterOutcome::TooManyMessages,
];

/// Counts each thing as often as [`times`] says.
fn count_all(metrics: &Metrics, line: u16) {
    for end in ENDS {
        metrics.count_opened(line);
        for _ in 0..times(Counter::Ended(*end)) {
            metrics.count_ended(line, *end);
        }
    }
    for _ in 0..50 {
        metrics.count_opened(line);
    }
    for qos in LEVELS {
        for outcome in OUTCOMES {
            for _ in 0..times(Counter::Set(*qos, *outcome)) {
                metrics.count_set(line, *qos, *outcome);
            }
        }
    }
    for outcome in OUTCOMES {
        for _ in 0..times(Counter::Clear(*outcome)) {
            metrics.count_clear(line, *outcome);
        }
    }
    for outcome in FILTERS {
        for _ in 0..times(Counter::Filter(*outcome)) {
            metrics.count_filter(line, *outcome);
        }
    }
    add_all(metrics, line);
}

fn add_all(metrics: &Metrics, line: u16) {
    for _ in 0..times(Counter::PacketsIn) {
        metrics.count_packet_in(line);
    }
    for _ in 0..times(Counter::PacketsOut) {
        metrics.count_packet_out(line);
    }
    metrics.add_bytes_in(line, times(Counter::BytesIn));
    metrics.add_bytes_out(line, times(Counter::BytesOut));
    metrics.add_replayed(line, times(Counter::Replayed));
    metrics.add_sent(line, times(Counter::Sent).saturating_add(7));
    metrics.take_back_sent(line, 7);
}

/// How often [`count_all`] counts it, or by how much: a number of its own for each counter.
fn times(counter: Counter) -> u64 {
    match counter {
        Counter::Opened => 58,
        _ => counter.index() as u64 + 1,
    }
}

fn count_much(metrics: &Metrics, thread: u16) {
    for _ in 0..ROUNDS {
        for line in 0..LINES {
            count_all(metrics, thread.saturating_mul(LINES).saturating_add(line));
        }
    }
}

/// Counts by many threads at a time.
fn count_by_threads<H: Threads>(
    rt: &H,
    alloc: Global,
    metrics: &Arc<Metrics>,
) -> Result<(), AllocError> {
    let mut counting = Vec::new(alloc);
    for thread in 0..THREADS {
        let metrics = Arc::try_clone(metrics)?;
        let started = spawn(rt, move || count_much(&metrics, thread)).map_err(|_| AllocError)?;
        counting.push(started).map_err(|_| AllocError)?;
    }
    for started in counting {
        started.join(rt);
    }
    Ok(())
}

/// Whether each counter of the table has the number that was counted.
fn is_each_number(snapshot: &Snapshot) -> bool {
    for family in FAMILIES {
        for row in family.rows {
            if let Source::Counter(counter) = row.source {
                if snapshot.number(row.source) != Some(times(counter).saturating_mul(CALLS)) {
                    return false;
                }
            }
        }
    }
    true
}

#[test]
fn eight_threads_count(rt: HostRuntime) -> Result<(), Fail> {
    let alloc = rt.alloc();
    let metrics = Metrics::new(alloc, LIMITS, 1_700_000_000)?;
    let metrics = Arc::new(alloc, metrics).map_err(|_| AllocError)?;
    count_by_threads(&rt, alloc, &metrics)?;
    metrics.set_taken(1_000);
    metrics.set_topics(17);
    metrics.set_bytes(12_345);
    metrics.set_version(99);
    metrics.set_taking(true);
    let snapshot = metrics.snapshot(Some(4_096));
    assert!(rt; is_each_number(&snapshot));
    // Of 58 that begin, 36 end.
    for (source, number) in [
        (Source::Clients, Some(22 * 400)),
        (Source::ClientLimit, Some(100)),
        (Source::Topics, Some(17)),
        (Source::TopicLimit, Some(20_000)),
        (Source::Bytes, Some(12_345)),
        (Source::ByteLimit, Some(4_000_000)),
        (Source::Version, Some(99)),
        (Source::Waiting, Some(32 * 400 - 1_000)),
        (Source::Taking, Some(1)),
        (Source::Resident, Some(4_096)),
        (Source::Started, Some(1_700_000_000)),
    ] {
        assert!(rt; snapshot.number(source) == number);
    }
    Ok(())
}

/// Counts each thing some times, and what is not counted also.
fn count_some(meter: &Meter) {
    for _ in 0..3 {
        meter.count_opened();
    }
    meter.count_ended(End::CutInput);
    meter.count_packet_in();
    meter.count_packet_in();
    meter.count_packet_out();
    meter.add_bytes_in(100);
    meter.add_bytes_out(200);
    meter.count_change(Change::Set(Qos::ExactlyOnce), Outcome::StoreFull);
    meter.count_change(Change::Clear, Outcome::Stored);
    meter.count_filter(FilterOutcome::Answered, 40);
    meter.count_filter(FilterOutcome::TooManyMessages, 0);
    meter.add_sent(9);
    meter.take_back_sent(2);
}

/// The counters that [`count_some`] changes, and the numbers that they have then.
const SOME: &[(Counter, u64)] = &[
    (Counter::Opened, 3),
    (Counter::Ended(End::CutInput), 1),
    (Counter::PacketsIn, 2),
    (Counter::PacketsOut, 1),
    (Counter::BytesIn, 100),
    (Counter::BytesOut, 200),
    (Counter::Set(Qos::ExactlyOnce, Outcome::StoreFull), 1),
    (Counter::Clear(Outcome::Stored), 1),
    (Counter::Filter(FilterOutcome::Answered), 1),
    (Counter::Filter(FilterOutcome::TooManyMessages), 1),
    (Counter::Replayed, 40),
    (Counter::Sent, 7),
];

/// Whether only these counters have a number.
fn has_some(snapshot: &Snapshot) -> bool {
    for (counter, number) in SOME {
        if snapshot.count(*counter) != *number {
            return false;
        }
    }
    snapshot.counts.iter().filter(|number| **number > 0).count() == SOME.len()
}

#[test]
fn meters_count_if_there_are_metrics(rt: HostRuntime) -> Result<(), Fail> {
    let alloc = rt.alloc();
    let metrics = Arc::new(alloc, Metrics::new(alloc, LIMITS, 0)?).map_err(|_| AllocError)?;
    let shared = Some(Arc::try_clone(&metrics)?);
    let writer = WriterMeter::new(Some(Arc::try_clone(&metrics)?));
    assert!(rt; writer.is_needed());
    count_some(&Meter::new(&shared, 7)?.again()?);
    writer.set_taking(true);
    writer.set_content(99, 17, 12_345);
    writer.set_taken(4);
    let snapshot = metrics.snapshot(None);
    assert!(rt; has_some(&snapshot));
    assert!(rt; (snapshot.is_taking, snapshot.taken, snapshot.version) == (true, 4, 99));
    assert!(rt; (snapshot.topics, snapshot.bytes) == (17, 12_345));
    // None of these has any.
    count_some(&Meter::none());
    count_some(&Meter::new(&None, 7)?);
    assert!(rt; !WriterMeter::new(None).is_needed());
    assert!(rt; has_some(&metrics.snapshot(None)));
    Ok(())
}

/// Whether the snapshot has these numbers of a journal, and this says whether it refuses changes.
fn has_journal(snapshot: &Snapshot, numbers: &JournalNumbers, is_refusing: bool) -> bool {
    snapshot.journal.is_some_and(|journal| {
        (journal.commits, journal.micros) == (numbers.commits, numbers.micros)
            && (journal.written, journal.size) == (numbers.written, numbers.size)
            && journal.is_refusing == is_refusing
    })
}

#[test]
fn a_journal_is_told_once_it_is_there(rt: HostRuntime) -> Result<(), Fail> {
    let alloc = rt.alloc();
    let metrics = Arc::new(alloc, Metrics::new(alloc, LIMITS, 0)?).map_err(|_| AllocError)?;
    assert!(rt; metrics.snapshot(None).journal.is_none());
    let meter = JournalMeter::new(Some(Arc::try_clone(&metrics)?));
    let numbers = JournalNumbers {
        commits: 1,
        micros: 20,
        written: 300,
        size: 4_000,
        is_refusing: false,
    };
    meter.set(numbers);
    assert!(rt; has_journal(&metrics.snapshot(None), &numbers, false));
    meter.set_refusing();
    assert!(rt; has_journal(&metrics.snapshot(None), &numbers, true));
    let nobody = JournalMeter::new(None);
    nobody.set(numbers);
    nobody.set_refusing();
    assert!(rt; has_journal(&metrics.snapshot(None), &numbers, true));
    Ok(())
}

/// How many rows have this counter.
fn rows_of(index: usize) -> usize {
    let mut count = 0;
    for family in FAMILIES {
        for row in family.rows {
            if let Source::Counter(counter) = row.source {
                if counter.index() == index && count < COUNTERS {
                    count += 1;
                }
            }
        }
    }
    count
}

/// So no two counters have one place, and each is told.
#[test]
fn each_counter_has_one_row(rt: HostRuntime) {
    for index in 0..COUNTERS {
        assert!(rt; rows_of(index) == 1, "{index}");
    }
}

#[test]
fn resident_pages_are_the_second_number(rt: HostRuntime) {
    for (text, pages) in [
        ("5107 1187 1031 1 0 1290 0\n", Some(1_187)),
        ("1 2", Some(2)),
        ("1", None),
        ("", None),
        ("1 x", None),
        ("1 99999999999999999999", None),
    ] {
        assert!(rt; resident_pages(text) == pages, "{text}");
    }
}
