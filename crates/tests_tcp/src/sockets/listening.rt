//! A listener on the loopback.

use rs_tcp_sockets::{BACKLOG, Listener, finish};
use std::alloc::Global;
use std::io;
use std::io::ErrorKind;
use std::net::{Net, OpenStream, SocketAddr, TcpListener, TcpStream};
use std::sync::atomic::{AtomicU64, Ordering};
use std::test::Fail;
use std::thread::Threads;
use std::time::{Clock, Duration};

/// Sleeps at once, and notes how long that was to be, in milliseconds.
#[derive(Drop)]
struct Sleeping(AtomicU64);

impl Clock for Sleeping {
    fn monotonic(&self) -> io::Result<Duration> {
        Err(io::Error::from(ErrorKind::Unsupported))
    }

    fn since_1970(&self) -> io::Result<Duration> {
        Err(io::Error::from(ErrorKind::Unsupported))
    }

    fn sleep(&self, time: Duration) {
        let millis = u64::try_from(time.as_millis()).unwrap_or(u64::MAX);
        self.0.fetch_add(millis, Ordering::SeqCst);
    }
}

/// Clients that connect and go away.
fn knock<H: Net<Listener = TcpListener, Stream = TcpStream>>(
    rt: &H,
    address: &str,
    count: u64,
) -> io::Result<()> {
    for _ in 0..count {
        drop(TcpStream::connect(rt, address)?);
    }
    Ok(())
}

/// How long a listener sleeps for so many connections, each of which fails, since none may be idle at all. It gives none.
fn slept<H: Net<Listener = TcpListener, Stream = TcpStream> + Threads>(
    rt: &H,
    alloc: Global,
    connections: u64,
) -> io::Result<Option<u64>> {
    let listener = Listener::bind(rt, alloc, "127.0.0.1:0", connections, Some(Duration::ZERO))?;
    knock(rt, listener.address(alloc)?.as_str(), connections)?;
    let clock = Sleeping(AtomicU64::new(0));
    Ok(match listener.accept(&clock, alloc) {
        Some(_) => None,
        None => Some(clock.0.load(Ordering::SeqCst)),
    })
}

#[test]
fn a_failed_accept_waits(rt: HostRuntime) -> Result<(), Fail> {
    let longer = 10 + 20 + 40 + 80 + 160 + 320 + 640 + 2_000;
    for (connections, millis) in [(0, 0), (1, 0), (3, 30), (10, longer)] {
        assert!(rt;
            slept(&rt, rt.alloc(), connections)? == Some(millis),
            "{connections}"
        );
    }
    Ok(())
}

/// Whether the replies of a connection are sent at once. None if there is no connection.
fn sends_at_once<H: Clock>(rt: &H, alloc: Global, listener: &Listener) -> Option<bool> {
    let accepted = listener.accept(rt, alloc)?;
    let (_reader, stream) = finish(accepted.input, accepted.output).ok()?;
    OpenStream::nodelay(&stream).ok()
}

#[test]
fn replies_are_sent_without_delay(rt: HostRuntime) -> Result<(), Fail> {
    let alloc = rt.alloc();
    let listener = Listener::bind(&rt, alloc, "127.0.0.1:0", 1, None)?;
    let _client = TcpStream::connect(&rt, listener.address(alloc)?.as_str())?;
    assert!(rt; sends_at_once(&rt, alloc, &listener) == Some(true));
    Ok(())
}

/// How many clients wait, of so many that connect and are not accepted.
fn waiting<H: Net<Listener = TcpListener, Stream = TcpStream>>(
    rt: &H,
    alloc: Global,
    address: SocketAddr,
    count: usize,
) -> Result<usize, Fail> {
    let mut clients = Vec::with_capacity(alloc, count)?;
    for _ in 0..count {
        match TcpStream::connect_timeout(rt, &address, Duration::from_secs(5)) {
            Ok(client) => clients.push(client)?,
            Err(_) => break,
        }
    }
    Ok(clients.len())
}

/// More than the 128 for which std asks the system.
#[test]
fn many_clients_may_wait(rt: HostRuntime) -> Result<(), Fail> {
    assert!(rt; BACKLOG == 4_096);
    let alloc = rt.alloc();
    let listener = Listener::bind(&rt, alloc, "127.0.0.1:0", 1, None)?;
    let address = listener.address(alloc)?.as_str().parse::<SocketAddr>()?;
    assert!(rt; waiting(&rt, alloc, address, 300)? == 300);
    Ok(())
}
