//! Requests over real sockets.

use crate::metrics::counting::LIMITS;
use rs_metrics::Metrics;
use rs_metrics_server::{MAX_REQUESTS, MetricsServer};
use rs_tcp_sockets::StopSignal;
use std::alloc::{AllocError, Global};
use std::io;
use std::io::{Read, Write};
use std::net::{Net, TcpListener, TcpStream};
use std::sync::Arc;
use std::test::Fail;
use std::thread::{JoinHandle, Threads, spawn};
use std::time::{Clock, Duration, Instant};

const HEALTH: &[u8] = b"GET /healthz HTTP/1.1\r\nHost: a\r\n\r\n";

/// What runs, and how it is stopped.
#[derive(Drop)]
struct Running {
    address: String,
    stop: Arc<StopSignal>,
    thread: JoinHandle<bool>,
}

fn start<
    H: Net<Listener = TcpListener, Stream = TcpStream> + Threads + Clock + Copy + Send + 'static,
>(rt: H, alloc: Global) -> io::Result<Running> {
    let metrics = Metrics::new(alloc, LIMITS, 1_700_000_000)?;
    metrics.set_taking(true);
    let metrics = Arc::new(alloc, metrics).map_err(|_| AllocError)?;
    let server = MetricsServer::bind(&rt, alloc, "127.0.0.1:0")?;
    let address = server.address()?;
    let stop = Arc::new(alloc, StopSignal::new()?).map_err(|_| AllocError)?;
    let other = Arc::try_clone(&stop)?;
    let answering = move || server.run(&rt, &metrics, &other).is_ok();
    let thread = spawn(&rt, answering).map_err(|_| AllocError)?;
    Ok(Running {
        address,
        stop,
        thread,
    })
}

/// What a client that sends this reads, up to the end.
fn ask<H: Net<Listener = TcpListener, Stream = TcpStream>>(
    rt: &H,
    alloc: Global,
    address: &str,
    sends: &[u8],
) -> io::Result<Vec<u8>> {
    let mut stream = TcpStream::connect(rt, address)?;
    stream.set_read_timeout(Some(Duration::from_secs(20)))?;
    stream.write_all(sends)?;
    let mut got = Vec::new(alloc);
    stream.read_to_end(&mut got)?;
    Ok(got)
}

/// Whether what was asked for is answered so, again and again.
fn is_answered<H: Net<Listener = TcpListener, Stream = TcpStream>>(
    rt: &H,
    alloc: Global,
    address: &str,
    sends: &[u8],
    begins: &[u8],
) -> bool {
    match ask(rt, alloc, address, sends) {
        Ok(got) => got.as_slice().starts_with(begins),
        Err(_) => false,
    }
}

/// Clients that send a part of a request, and nothing more.
fn slow_clients<H: Net<Listener = TcpListener, Stream = TcpStream>>(
    rt: &H,
    alloc: Global,
    address: &str,
    count: usize,
) -> io::Result<Vec<TcpStream>> {
    let mut clients = Vec::new(alloc);
    for _ in 0..count {
        let mut stream = TcpStream::connect(rt, address)?;
        stream.write_all(b"GET /healthz HT")?;
        clients.push(stream).map_err(|_| AllocError)?;
    }
    Ok(clients)
}

const ANSWERED: &[(&[u8], &[u8])] = &[
    (HEALTH, b"HTTP/1.1 200 OK\r\n"),
    (
        b"GET /metrics HTTP/1.1\r\nHost: a\r\n\r\n",
        b"HTTP/1.1 200 OK\r\n",
    ),
    (b"GET /metrics HTTP/1.0\r\n\r\n", b"HTTP/1.0 200 OK\r\n"),
    (
        b"GET / HTTP/1.1\r\nHost: a\r\n\r\n",
        b"HTTP/1.1 404 Not Found\r\n",
    ),
    (
        b"PUT /metrics HTTP/1.1\r\nHost: a\r\n\r\n",
        b"HTTP/1.1 405 Method Not Allowed\r\n",
    ),
    (
        b"\x10\x0E\x00\x04MQTT\x05\x02\x00\x3C\x00\x00\x01a",
        b"HTTP/1.1 400 Bad Request\r\n",
    ),
    (
        b"GET /healthz HTTP/1.1\r\nHost: a\r\n\r\nGET /healthz HTTP/1.1\r\nHost: a\r\n\r\n",
        b"HTTP/1.1 200 OK\r\n",
    ),
];

#[test]
fn requests_are_answered_over_tcp(rt: HostRuntime) -> Result<(), Fail> {
    let alloc = rt.alloc();
    let Running {
        address,
        stop,
        thread,
    } = start(rt, alloc)?;
    let address = address.as_str();
    for (sends, begins) in ANSWERED {
        for _ in 0..5 {
            assert!(rt;
                is_answered(&rt, alloc, address, sends, begins),
                "{begins:?}"
            );
        }
    }
    stop.send();
    assert!(rt; thread.join(&rt));
    Ok(())
}

/// As many slow clients as are served at once hold up the next one for as long as they may last, and not longer. With one fewer, it is served
/// at once.
#[test]
fn slow_clients_end(rt: HostRuntime) -> Result<(), Fail> {
    let alloc = rt.alloc();
    let Running {
        address,
        stop,
        thread,
    } = start(rt, alloc)?;
    let address = address.as_str();
    let some = slow_clients(&rt, alloc, address, MAX_REQUESTS - 1)?;
    let begin = Instant::now(&rt)?;
    assert!(rt; is_answered(&rt, alloc, address, HEALTH, b"HTTP/1.1 200 OK\r\n"));
    assert!(rt; begin.elapsed(&rt)? < Duration::from_secs(4));
    let more = slow_clients(&rt, alloc, address, MAX_REQUESTS)?;
    assert!(rt; is_answered(&rt, alloc, address, HEALTH, b"HTTP/1.1 200 OK\r\n"));
    assert!(rt; begin.elapsed(&rt)? >= Duration::from_secs(4));
    drop(some);
    drop(more);
    stop.send();
    assert!(rt; thread.join(&rt));
    Ok(())
}
