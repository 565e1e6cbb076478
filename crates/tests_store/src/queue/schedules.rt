//! Random schedules of eight places, compared with a store of one thread by the numbers of the receipts.

use super::log::{Log, Ran, Reading, totals_of};
use super::places::{Setup, Writing, run};
use super::script::Script;
use kit_test::MapCatalogue;
use rs_message::{Entry, Found};
use rs_store::{CalmCatalogue, Catalogue, TopicLimit};
use rs_topic::TopicFilter;
use std::alloc::Global;
use std::test::Fail;

const RUNS: u64 = 100;

/// One topic fewer than are used, so that some changes are refused.
const TOPICS: u32 = 3;

/// The topics that hold a message, each with its payload.
fn text_of(alloc: Global, found: &Vec<Found>) -> Option<Vec<u8>> {
    let mut text = Vec::new(alloc);
    for found in found {
        text.extend_from_slice(found.topic().as_bytes()).ok()?;
        text.push(b'=').ok()?;
        text.extend_from_slice(found.message().payload().as_slice())
            .ok()?;
        text.push(b';').ok()?;
    }
    Some(text)
}

/// The entry of the receipt of this number. `None` if there is none, or more than one.
fn entry_at(logs: &Vec<Log>, number: u64) -> Option<&Entry> {
    let mut found = None;
    for log in logs {
        for outcome in &log.outcomes {
            if outcome.number == number {
                if found.is_some() {
                    return None;
                }
                found = outcome.entry.as_ref();
            }
        }
    }
    found
}

/// Appends what the store reads.
fn add_text(alloc: Global, catalogue: &MapCatalogue, texts: &mut Vec<Vec<u8>>) -> Option<()> {
    let filter = TopicFilter::read(alloc, b"#").ok()?;
    let found = catalogue.answer(&filter, 0).ok()?;
    texts.push(text_of(alloc, &found)?).ok()
}

/// Adds a copy of the entry, which is no Sweep.
fn add(store: &mut CalmCatalogue<MapCatalogue>, entry: &Entry) -> Option<()> {
    if entry.operation.is_sweep() {
        return None;
    }
    store.add(entry.copy().ok()?).ok()
}

/// What a store of one thread reads after each of the entries, from none to this many, in the order of their numbers.
fn texts(alloc: Global, logs: &Vec<Log>, version: u64) -> Option<Vec<Vec<u8>>> {
    let limit = TopicLimit::new(TOPICS)?;
    let mut store: CalmCatalogue<MapCatalogue> = CalmCatalogue::new(alloc, limit).ok()?;
    let mut texts = Vec::new(alloc);
    add_text(alloc, store.catalogue(), &mut texts)?;
    for before in 0..version {
        add(&mut store, entry_at(logs, before + 1)?)?;
        add_text(alloc, store.catalogue(), &mut texts)?;
    }
    Some(texts)
}

/// Whether the place read what the store of one thread reads, and never less than it knew.
fn is_read(alloc: Global, reading: &Reading, texts: &Vec<Vec<u8>>) -> bool {
    match (
        text_of(alloc, &reading.found),
        texts.get(reading.version as usize),
    ) {
        (Some(read), Some(text)) => {
            reading.version >= reading.least && read.as_slice() == text.as_slice()
        }
        _ => false,
    }
}

/// How many entries the place has. `None` if a submit was refused for another reason than the limit of topics, or not all that the
/// place read is as it has to be.
fn entries_of(alloc: Global, log: &Log, texts: &Vec<Vec<u8>>) -> Option<u64> {
    let mut entries = 0u64;
    for outcome in &log.outcomes {
        match outcome.code {
            0 => entries = entries.saturating_add(1),
            40 => {}
            _ => return None,
        }
    }
    for reading in &log.readings {
        if !is_read(alloc, reading, texts) {
            return None;
        }
    }
    Some(entries)
}

/// Whether the run has one history, which all places read. A refused change makes no entry.
fn has_one_history(alloc: Global, ran: &Ran) -> Option<bool> {
    let version = totals_of(ran)?.version;
    let texts = texts(alloc, &ran.logs, version)?;
    let mut entries = 0u64;
    for log in &ran.logs {
        entries = entries.saturating_add(entries_of(alloc, log, &texts)?);
    }
    Some(entries == version)
}

#[test]
fn random_schedules_have_one_history(rt: HostRuntime) -> Result<(), Fail> {
    for seed in 0..RUNS {
        let setup = Setup {
            alloc: rt.alloc(),
            limit: TOPICS,
            places: 8,
            script: Script::Random(seed),
            writing: Writing::All,
        };
        let ran = run(rt, setup)?;
        assert!(rt;
            has_one_history(rt.alloc(), &ran) == Some(true),
            "seed {seed}"
        );
    }
    Ok(())
}
