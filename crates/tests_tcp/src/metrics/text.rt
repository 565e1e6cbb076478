//! The text, line by line.

use crate::metrics::counting::LIMITS;
use rs_metrics::{FAMILIES, JournalNumbers, Limits, Metrics, Outcome, Qos, write_text};
use std::alloc::{AllocError, Global};
use std::test::Fail;

/// Whether each character may stand in a name.
fn is_name(text: &str) -> bool {
    text.bytes()
        .all(|byte| byte.is_ascii_lowercase() || byte == b'_')
}

/// Whether it is what stands before a number: a name of a family, and labels in braces or none.
fn is_sample_of(text: &str, name: &str) -> bool {
    match text.strip_prefix(name) {
        Some("") => true,
        Some(labels) => labels.starts_with('{') && labels.ends_with('}'),
        None => false,
    }
}

/// Whether it is a number, of millionths if the name says that it is of seconds which add up.
fn is_number(text: &str, name: &str) -> bool {
    let digits = if name.ends_with("_seconds_total") {
        text.strip_suffix("e-6")
    } else {
        Some(text)
    };
    digits.is_some_and(|digits| digits.parse::<u64>().is_ok())
}

/// Whether the line is a number of the family of this name.
fn is_sample(line: &str, name: &str) -> bool {
    match line.rsplit_once(' ') {
        Some((sample, number)) => is_sample_of(sample, name) && is_number(number, name),
        None => false,
    }
}

/// Whether these words of a TYPE line are the name and a kind.
fn is_typed(words: &str, name: &str) -> bool {
    match words.split_once(' ') {
        Some((next, kind)) => next == name && (kind == "counter" || kind == "gauge"),
        None => false,
    }
}

/// Whether it is a family, behind the word HELP: a name and what it means, its TYPE, and numbers of that name.
fn is_family(text: &str) -> bool {
    let mut lines = text.lines();
    let (Some(help), Some(typed)) = (lines.next(), lines.next()) else {
        return false;
    };
    let (Some((name, meaning)), Some(words)) = (help.split_once(' '), typed.strip_prefix("# TYPE "))
    else {
        return false;
    };
    is_name(name)
        && !meaning.is_empty()
        && is_typed(words, name)
        && lines.all(|line| is_sample(line, name))
}

/// Whether it is families, one behind the other.
fn is_text(text: &str) -> bool {
    match text.strip_prefix("# HELP ") {
        Some(families) => text.ends_with('\n') && families.split("# HELP ").all(is_family),
        None => false,
    }
}

/// The text of some numbers. There is a journal if there is a number of the memory.
fn some_text(alloc: Global, limits: Limits, resident: Option<u64>) -> Result<String, AllocError> {
    let metrics = Metrics::new(alloc, limits, 1_700_000_000)?;
    metrics.count_opened(1);
    metrics.count_set(70, Qos::AtLeastOnce, Outcome::StoreFull);
    metrics.count_set(6, Qos::AtLeastOnce, Outcome::StoreFull);
    metrics.set_bytes(u64::MAX);
    if resident.is_some() {
        metrics.set_journal(JournalNumbers {
            commits: 3,
            micros: 18_514,
            written: 6_144,
            size: 3_072,
            is_refusing: true,
        });
    }
    let mut text = String::new(alloc);
    write_text(&mut text, &metrics.snapshot(resident), FAMILIES)?;
    Ok(text)
}

fn has_line(text: &str, wanted: &str) -> bool {
    text.lines().any(|line| line == wanted)
}

#[test]
fn the_text_is_that_of_prometheus(rt: HostRuntime) -> Result<(), Fail> {
    let text = some_text(rt.alloc(), LIMITS, Some(81_920))?;
    let text = text.as_str();
    assert!(rt; is_text(text), "{text}");
    for line in [
        "# HELP rstored_clients Connected clients.",
        "# TYPE rstored_clients gauge",
        "rstored_clients 1",
        "# TYPE rstored_publications_total counter",
        "rstored_publications_total{qos=\"1\",outcome=\"store_full\"} 2",
        "rstored_publications_total{qos=\"2\",outcome=\"store_full\"} 0",
        "rstored_retained_bytes 18446744073709551615",
        "rstored_retained_bytes_limit 4000000",
        "rstored_resident_memory_bytes 81920",
        "rstored_start_time_seconds 1700000000",
        "rstored_writer_running 0",
        "rstored_journal_commits_total 3",
        "# TYPE rstored_journal_commit_seconds_total counter",
        "rstored_journal_commit_seconds_total 18514e-6",
        "rstored_journal_bytes_written_total 6144",
        "# TYPE rstored_journal_bytes gauge",
        "rstored_journal_bytes 3072",
        "rstored_journal_refusing 1",
    ] {
        assert!(rt; has_line(text, line), "{line}");
    }
    Ok(())
}

#[test]
fn a_number_that_is_not_there_has_no_line(rt: HostRuntime) -> Result<(), Fail> {
    let limits = Limits {
        clients: 1,
        topics: 1,
        bytes: None,
    };
    let text = some_text(rt.alloc(), limits, None)?;
    let text = text.as_str();
    assert!(rt; is_text(text));
    for name in [
        "rstored_resident_memory_bytes ",
        "rstored_retained_bytes_limit ",
        "rstored_journal_",
    ] {
        assert!(rt; !text.lines().any(|line| line.starts_with(name)), "{name}");
    }
    Ok(())
}
