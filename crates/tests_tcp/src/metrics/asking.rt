//! What requests ask for.

use rs_metrics_server::{Asked, MAX_HEAD, parse_request};
use std::alloc::{AllocError, Global};
use std::test::Fail;

const ROWS: &[(&[u8], Asked)] = &[
    (b"GET /metrics HTTP/1.1\r\nHost: a\r\n\r\n", Asked::Metrics),
    (b"HEAD /metrics HTTP/1.1\r\nHost: a\r\n\r\n", Asked::Metrics),
    (
        b"GET /metrics?name=up HTTP/1.1\r\nHost: a\r\n\r\n",
        Asked::Metrics,
    ),
    (b"GET /metrics HTTP/1.0\r\n\r\n", Asked::Metrics),
    (
        b"GET /metrics HTTP/1.1\r\nHost: a\r\n\r\nGET / HTTP/1.1\r\n",
        Asked::Metrics,
    ),
    (
        b"GET /healthz HTTP/1.1\r\nHost: a:1\r\nAccept: */*\r\n\r\n",
        Asked::Health,
    ),
    (b"GET / HTTP/1.1\r\nHost: a\r\n\r\n", Asked::NotFound),
    (
        b"GET /metricsx HTTP/1.1\r\nHost: a\r\n\r\n",
        Asked::NotFound,
    ),
    (b"GET /Metrics HTTP/1.1\r\nHost: a\r\n\r\n", Asked::NotFound),
    (b"POST / HTTP/1.1\r\nHost: a\r\n\r\n", Asked::NotFound),
    (
        b"POST /metrics HTTP/1.1\r\nHost: a\r\nContent-Length: 1\r\n\r\nx",
        Asked::NotAllowed,
    ),
    (
        b"get /metrics HTTP/1.1\r\nHost: a\r\n\r\n",
        Asked::NotAllowed,
    ),
    (
        b"DELETE /healthz HTTP/1.1\r\nHost: a\r\n\r\n",
        Asked::NotAllowed,
    ),
    (b"GET /metrics HTTP/1.1\r\n\r\n", Asked::Refused(400)),
    (
        b"GET /metrics HTTP/1.1\r\nHost: a\r\nHost: b\r\n\r\n",
        Asked::Refused(400),
    ),
    (
        b"GET /metrics HTTP/2.0\r\nHost: a\r\n\r\n",
        Asked::Refused(400),
    ),
    (b"GET  /metrics HTTP/1.1\r\n\r\n", Asked::Refused(400)),
    (b"GET /metrics HTTP/1.1\nHost: a\n\n", Asked::Refused(400)),
    (
        b"\x10\x0E\x00\x04MQTT\x05\x02\x00\x3C\x00\x00\x01a",
        Asked::Refused(400),
    ),
    (b"\x16\x03\x01\x02\x00\x01", Asked::Refused(400)),
    (b"", Asked::NeedMore),
    (b"GET", Asked::NeedMore),
    (b"GET /metrics HTTP/1.1\r\nHost: a\r\n", Asked::NeedMore),
];

#[test]
fn requests_ask_for_pages(rt: HostRuntime) {
    for (input, wanted) in ROWS {
        assert!(rt; parse_request(input) == *wanted, "{input:?}");
    }
}

/// A first line, and so many bytes of one field more.
fn long_field(alloc: Global, line: &[u8], len: usize) -> Result<Vec<u8>, AllocError> {
    let mut bytes = Vec::from_slice(alloc, line)?;
    for _ in 0..len {
        bytes.push(b'a').map_err(|_| AllocError)?;
    }
    Ok(bytes)
}

#[test]
fn a_long_head_is_refused(rt: HostRuntime) -> Result<(), Fail> {
    let alloc = rt.alloc();
    let line = b"GET /metrics HTTP/1.1\r\na: ".as_slice();
    let room = MAX_HEAD - 26;
    assert!(rt; line.len() == 26);
    let short = long_field(alloc, line, room - 1)?;
    assert!(rt; parse_request(short.as_slice()) == Asked::NeedMore);
    let long = long_field(alloc, line, room)?;
    assert!(rt; parse_request(long.as_slice()) == Asked::Refused(431));
    let endless = long_field(alloc, b"GET /", MAX_HEAD)?;
    assert!(rt; parse_request(endless.as_slice()) == Asked::Refused(414));
    Ok(())
}

#[test]
fn many_fields_are_refused(rt: HostRuntime) -> Result<(), Fail> {
    let mut bytes = Vec::from_slice(rt.alloc(), b"GET /metrics HTTP/1.1\r\nHost: a\r\n")?;
    for _ in 0..64 {
        bytes.extend_from_slice(b"b: c\r\n")?;
    }
    bytes.extend_from_slice(b"\r\n")?;
    assert!(rt; parse_request(bytes.as_slice()) == Asked::Refused(431));
    Ok(())
}
