//! Connections over streams in memory.

use crate::metrics::counting::LIMITS;
use rs_metrics::Metrics;
use rs_metrics_server::{Conversation, MAX_DISCARDED, Wanted};
use std::alloc::{AllocError, Global};
use std::io;
use std::io::{ErrorKind, Read, Write};
use std::net::{OpenStream, Shutdown};
use std::sync::Arc;
use std::sync::atomic::{AtomicU64, Ordering};
use std::test::Fail;

/// How a client behaves.
#[derive(Clone, Copy)]
struct Manner {
    /// What it sends.
    sends: &'static [u8],
    /// How many bytes at a time.
    step: usize,
    /// Whether it then sends these bytes again and again.
    is_endless: bool,
    /// How many bytes it takes at a time. At 0, it takes none, and the write fails.
    takes: usize,
}

/// A stream of a client.
#[derive(Drop)]
struct Client {
    manner: Manner,
    at: usize,
    // Whether the next call is told to wait.
    is_waiting: bool,
    taken: Vec<u8>,
    shutdowns: Arc<AtomicU64>,
}

impl Client {
    /// Each second call would have to wait.
    fn wait_once(&mut self) -> io::Result<()> {
        self.is_waiting = !self.is_waiting;
        if self.is_waiting {
            return Err(io::Error::from(ErrorKind::WouldBlock));
        }
        Ok(())
    }
}

impl Read for Client {
    fn read(&mut self, buf: &mut [u8]) -> io::Result<usize> {
        self.wait_once()?;
        if self.manner.is_endless && self.at >= self.manner.sends.len() {
            self.at = 0;
        }
        let Some(rest) = self.manner.sends.get(self.at..) else {
            return Ok(0);
        };
        let size = rest.len().min(self.manner.step).min(buf.len());
        buf[..size].copy_from_slice(&rest[..size]);
        self.at = self.at.saturating_add(size);
        Ok(size)
    }
}

impl Write for Client {
    fn write(&mut self, buf: &[u8]) -> io::Result<usize> {
        self.wait_once()?;
        let size = buf.len().min(self.manner.takes);
        if size == 0 {
            return Err(io::Error::from(ErrorKind::BrokenPipe));
        }
        self.taken.extend_from_slice(&buf[..size])?;
        Ok(size)
    }

    fn flush(&mut self) -> io::Result<()> {
        Ok(())
    }
}

impl OpenStream for Client {
    fn shutdown(&self, _how: Shutdown) -> io::Result<()> {
        self.shutdowns.fetch_add(1, Ordering::SeqCst);
        Ok(())
    }
}

/// What a client got, and how often its connection went on.
#[derive(Drop)]
struct Got {
    taken: Vec<u8>,
    steps: u64,
    shutdowns: u64,
}

/// Converses with a client to the end, or for so many steps.
fn converse(alloc: Global, is_taking: bool, manner: Manner) -> Result<Got, AllocError> {
    let metrics = Metrics::new(alloc, LIMITS, 1_700_000_000)?;
    metrics.set_taking(is_taking);
    let shutdowns = Arc::new(alloc, AtomicU64::new(0)).map_err(|_| AllocError)?;
    let client = Client {
        manner,
        at: 0,
        is_waiting: false,
        taken: Vec::new(alloc),
        shutdowns: Arc::try_clone(&shutdowns)?,
    };
    let mut conversation = Conversation::new(alloc, client);
    let mut steps = 0;
    for step in 0..100_000u64 {
        if matches!(conversation.wanted(), Wanted::Nothing) {
            break;
        }
        conversation.go_on(&metrics);
        steps = step;
    }
    Ok(Got {
        taken: conversation.stream().taken.clone()?,
        steps,
        shutdowns: shutdowns.load(Ordering::SeqCst),
    })
}

fn plain(sends: &'static [u8], step: usize, takes: usize) -> Manner {
    Manner {
        sends,
        step,
        is_endless: false,
        takes,
    }
}

const HEALTHY: &[u8] =
    b"HTTP/1.1 200 OK\r\ncontent-type: text/plain; charset=utf-8\r\nconnection: close\r\ncontent-length: 25\r\n\r\nthe writer takes changes\n";

const HEALTHY_HEAD: &[u8] =
    b"HTTP/1.1 200 OK\r\ncontent-type: text/plain; charset=utf-8\r\nconnection: close\r\ncontent-length: 25\r\n\r\n";

const ILL: &[u8] =
    b"HTTP/1.1 503 Service Unavailable\r\ncontent-type: text/plain; charset=utf-8\r\nconnection: close\r\ncontent-length: 28\r\n\r\nthe writer takes no changes\n";

const NOT_ALLOWED: &[u8] =
    b"HTTP/1.1 405 Method Not Allowed\r\nallow: GET, HEAD\r\ncontent-type: text/plain; charset=utf-8\r\nconnection: close\r\ncontent-length: 30\r\n\r\nonly GET and HEAD are allowed\n";

const NOT_FOUND: &[u8] =
    b"HTTP/1.1 404 Not Found\r\ncontent-type: text/plain; charset=utf-8\r\nconnection: close\r\ncontent-length: 40\r\n\r\nnot found: ask for /metrics or /healthz\n";

const MALFORMED: &[u8] =
    b"HTTP/1.1 400 Bad Request\r\ncontent-type: text/plain; charset=utf-8\r\nconnection: close\r\ncontent-length: 25\r\n\r\nthe request is malformed\n";

const ANSWERED: &[(&[u8], bool, &[u8])] = &[
    (b"GET /healthz HTTP/1.1\r\nHost: a\r\n\r\n", true, HEALTHY),
    (b"GET /healthz HTTP/1.1\r\nHost: a\r\n\r\n", false, ILL),
    (
        b"HEAD /healthz HTTP/1.1\r\nHost: a\r\n\r\n",
        true,
        HEALTHY_HEAD,
    ),
    (
        b"GET /healthz HTTP/1.1\r\nHost: a\r\n\r\nGET /metrics HTTP/1.1\r\nHost: a\r\n\r\n",
        true,
        HEALTHY,
    ),
    (
        b"POST /healthz HTTP/1.1\r\nHost: a\r\nContent-Length: 9\r\n\r\n123456789",
        true,
        NOT_ALLOWED,
    ),
    (b"GET /x HTTP/1.1\r\nHost: a\r\n\r\n", true, NOT_FOUND),
    (b"GET /healthz HTTP/1.1\r\n\r\n", true, MALFORMED),
    (
        b"\x10\x0E\x00\x04MQTT\x05\x02\x00\x3C\x00\x00\x01a",
        true,
        MALFORMED,
    ),
];

/// Each reply is the same however the bytes are cut.
#[test]
fn requests_are_answered(rt: HostRuntime) -> Result<(), Fail> {
    for (sends, is_taking, wanted) in ANSWERED {
        for (step, takes) in [(1, 1), (7, 1_000), (1_000, 3), (1_000, 1_000)] {
            let got = converse(rt.alloc(), *is_taking, plain(*sends, step, takes))?;
            assert!(rt; got.taken.as_slice() == *wanted, "{sends:?} {step}");
            assert!(rt; got.shutdowns == 1);
        }
    }
    Ok(())
}

#[test]
fn the_numbers_are_told(rt: HostRuntime) -> Result<(), Fail> {
    let sends = b"GET /metrics HTTP/1.1\r\nHost: a\r\n\r\n".as_slice();
    let got = converse(rt.alloc(), true, plain(sends, 100, 5_000))?;
    let text = std::str::from_utf8(got.taken.as_slice()).map_err(|_| "text")?;
    assert!(rt;
        text.starts_with(
            "HTTP/1.1 200 OK\r\ncontent-type: text/plain; version=0.0.4; charset=utf-8\r\nconnection: close\r\n"
        )
    );
    let (_head, body) = text.split_once("\r\n\r\n").ok_or("body")?;
    assert!(rt; body.starts_with("# HELP rstored_start_time_seconds"));
    assert!(rt; body.ends_with("\n# TYPE rstored_journal_refusing gauge\n"));
    assert!(rt;
        body.lines()
            .any(|line| line.starts_with("rstored_changes_waiting 0"))
    );
    assert!(rt;
        body.lines()
            .any(|line| line.starts_with("rstored_resident_memory_bytes "))
    );
    Ok(())
}

/// A head without an end, and bytes without an end behind a request.
#[test]
fn an_endless_client_is_ended(rt: HostRuntime) -> Result<(), Fail> {
    let alloc = rt.alloc();
    let endless = Manner {
        sends: b"aaaaaaaaaaaaaaaaaaaaaaaaaaaaaaaaaaaaaaaaaaaaaaaaaaaaaaaaaaaaaaaaaaaa",
        step: 64,
        is_endless: true,
        takes: 1_000,
    };
    let got = converse(alloc, true, endless)?;
    assert!(rt;
        got.taken
            .as_slice()
            .starts_with(b"HTTP/1.1 400 Bad Request\r\n")
            || got
                .taken
                .as_slice()
                .starts_with(b"HTTP/1.1 414 URI Too Long\r\n")
    );
    assert!(rt; got.steps < 4 * (8_192 + MAX_DISCARDED as u64) / 32);
    let pipelined = Manner {
        sends: b"GET /healthz HTTP/1.1\r\nHost: a\r\n\r\n",
        step: 64,
        is_endless: true,
        takes: 1_000,
    };
    let got = converse(alloc, true, pipelined)?;
    assert!(rt; got.taken.as_slice() == HEALTHY);
    assert!(rt; got.steps < 10_000);
    Ok(())
}

/// One that goes away in the middle, or takes nothing.
#[test]
fn a_client_that_goes_gets_nothing(rt: HostRuntime) -> Result<(), Fail> {
    let alloc = rt.alloc();
    for manner in [
        plain(b"", 1, 1),
        plain(b"GET /healthz HTTP/1.1\r\nHost", 5, 100),
        plain(b"GET /healthz HTTP/1.1\r\nHost: a\r\n\r\n", 5, 0),
    ] {
        let got = converse(alloc, true, manner)?;
        assert!(rt; got.taken.is_empty());
        assert!(rt; got.shutdowns == 0);
        assert!(rt; got.steps < 100);
    }
    Ok(())
}
