//! Of which clients a watch tells, and how often.

use rs_places_pool::Watch;
use rs_tcp_sockets::{Accepted, FromClient, Listener, SocketWatch};
use std::alloc::Global;
use std::io;
use std::io::Write;
use std::net::{Net, TcpListener, TcpStream};
use std::process::Abort;
use std::sync::atomic::{AtomicU64, Ordering};
use std::sync::{Arc, Wait};
use std::test::Fail;
use std::thread::{Threads, spawn};
use std::time::{Clock, Duration};

/// Waits until clients of the lane have something to do: the one that has, if it is one.
fn only<H: Wait, W: Watch<FromClient>>(rt: &H, watch: &W, lane: usize) -> Option<usize> {
    let mut ready = [0usize; 64];
    match watch.wait(rt, lane, &mut ready) {
        Some(1) => Some(ready[0]),
        _ => None,
    }
}

/// Whether no client of these two lanes is told of by now.
fn is_quiet<W: Watch<FromClient>>(watch: &W) -> bool {
    let mut ready = [0usize; 64];
    watch.look(0, &mut ready) == 0 && watch.look(1, &mut ready) == 0
}

/// A listener for so many connections.
fn listener<H: Net<Listener = TcpListener, Stream = TcpStream> + Threads>(
    rt: &H,
    alloc: Global,
    connections: u64,
) -> io::Result<Arc<Listener>> {
    let listener = Listener::bind(rt, alloc, "127.0.0.1:0", connections, None)?;
    Ok(Arc::new(alloc, listener)?)
}

/// So many clients that connect, and their connections.
fn pairs<H: Clock + Net<Listener = TcpListener, Stream = TcpStream>>(
    rt: &H,
    alloc: Global,
    listener: &Listener,
    count: usize,
) -> Result<(Vec<TcpStream>, Vec<Accepted>), Fail> {
    let address = listener.address(alloc)?;
    let mut peers = Vec::new(alloc);
    let mut connections = Vec::new(alloc);
    for _ in 0..count {
        peers.push(TcpStream::connect(rt, address.as_str())?)?;
        if let Some(connection) = listener.accept(rt, alloc) {
            connections.push(connection)?;
        }
    }
    Ok((peers, connections))
}

/// One free client is told of a connection, and the next one only once that has accepted it. When all connections were accepted, those that
/// are still free are told so, once, and none is watched for one any more.
#[test]
fn a_connection_is_told_to_one_client(rt: HostRuntime) -> Result<(), Fail> {
    let alloc = rt.alloc();
    let listener = listener(&rt, alloc, 2)?;
    let watch = SocketWatch::new(rt, alloc, Arc::try_clone(&listener)?, 2, 4, None)?;
    for client in 0..4 {
        assert!(rt; watch.watch_free(client));
    }
    assert!(rt; is_quiet(&watch));
    let address = listener.address(alloc)?;
    let _first_peer = TcpStream::connect(&rt, address.as_str())?;
    let _second_peer = TcpStream::connect(&rt, address.as_str())?;
    let first = only(&rt, &watch, 0).ok_or("no client")?;
    assert!(rt; is_quiet(&watch));
    let connection = listener.accept(&rt, alloc).ok_or("no connection")?;
    assert!(rt; is_quiet(&watch));
    assert!(rt; watch.watch(1, first, &connection.input));
    let second = only(&rt, &watch, 0).ok_or("no second client")?;
    let _last = listener.accept(&rt, alloc).ok_or("no second connection")?;
    let mut ready = [0usize; 64];
    assert!(rt; watch.wait(&rt, 1, &mut ready) == Some(2));
    let mut all = [first, second, ready[0], ready[1]];
    all.sort_unstable();
    assert!(rt; all == [0, 1, 2, 3]);
    assert!(rt; is_quiet(&watch));
    assert!(rt; !watch.watch_free(first));
    Ok(())
}

/// A client that is watched is told of once, in its lane, whatever it sends, until it is watched again.
#[test]
fn a_client_is_told_of_once(rt: HostRuntime) -> Result<(), Fail> {
    let alloc = rt.alloc();
    let listener = listener(&rt, alloc, 200)?;
    let watch = SocketWatch::new(rt, alloc, Arc::try_clone(&listener)?, 2, 200, None)?;
    let (mut peers, connections) = pairs(&rt, alloc, &listener, 200)?;
    assert!(rt; connections.len() == 200);
    for _ in 0..2 {
        for (client, connection) in connections.iter().enumerate() {
            assert!(rt; watch.watch(client % 2, client, &connection.input));
        }
        for peer in peers.iter_mut() {
            peer.write_all(b"x")?;
        }
        for lane in 0..2 {
            assert!(rt; tells_each(&rt, &watch, lane));
        }
        assert!(rt; is_quiet(&watch));
    }
    Ok(())
}

/// Whether each of the hundred clients of this lane is told of once, and no other.
fn tells_each<H: Wait, W: Watch<FromClient>>(rt: &H, watch: &W, lane: usize) -> bool {
    let mut times = [0u8; 200];
    let mut ready = [0usize; 64];
    let mut told = 0usize;
    for _ in 0..200 {
        if told >= 100 {
            break;
        }
        let Some(count) = watch.wait(rt, lane, &mut ready) else {
            return false;
        };
        told = told.saturating_add(count);
        for client in &ready[..count] {
            if let Some(times) = times.get_mut(*client) {
                *times = times.saturating_add(1);
            }
        }
    }
    let wanted = |client: usize| u8::from(client % 2 == lane);
    times
        .iter()
        .enumerate()
        .all(|(client, times)| *times == wanted(client))
}

/// Each thread that waits ends once the watch is stopped, and each that would wait later. What is asked for a lane or a client that is not
/// there is refused.
#[test]
fn a_stop_ends_each_wait(rt: HostRuntime) -> Result<(), Fail> {
    let alloc = rt.alloc();
    let listener = listener(&rt, alloc, 1)?;
    let watch = SocketWatch::new(rt, alloc, Arc::try_clone(&listener)?, 2, 1, None)?;
    let watch = Arc::new(alloc, watch)?;
    let (_peers, connections) = pairs(&rt, alloc, &listener, 1)?;
    for connection in connections.iter() {
        assert!(rt; !watch.watch(2, 0, &connection.input));
        assert!(rt; !watch.watch(0, 1, &connection.input));
        assert!(rt; watch.watch(0, 0, &connection.input));
    }
    let mut threads = Vec::new(alloc);
    for number in 0..4usize {
        let waiting = Arc::try_clone(&watch)?;
        let wait = move || {
            // Moved before it is lent.
            let waiting = waiting;
            only(&rt, &*waiting, number % 2).is_none()
        };
        match spawn(&rt, wait) {
            Ok(thread) => threads.push(thread)?,
            Err(_) => return Err(Fail::from("no thread")),
        }
    }
    watch.stop();
    for thread in threads {
        assert!(rt; thread.join(&rt));
    }
    let mut ready = [0usize; 1];
    for lane in 0..3 {
        assert!(rt; watch.wait(&rt, lane, &mut ready).is_none());
        assert!(rt; watch.look(lane, &mut ready) == 0);
    }
    Ok(())
}

/// A clock that shows what it is given, in milliseconds.
#[derive(Clone, Copy)]
struct Shown<'a, R> {
    rt: R,
    now: &'a AtomicU64,
}

impl<R: Wait> Wait for Shown<'_, R> {}

impl<R> Clock for Shown<'_, R> {
    fn monotonic(&self) -> io::Result<Duration> {
        Ok(Duration::from_millis(self.now.load(Ordering::SeqCst)))
    }

    fn since_1970(&self) -> io::Result<Duration> {
        Err(io::Error::from(io::ErrorKind::Unsupported))
    }
}

/// A connection of which no byte came for too long is told of once, also if a byte comes by then; one that was idle for less is not.
#[test]
fn an_idle_client_is_told_of_once(rt: HostRuntime) -> Result<(), Fail> {
    let alloc = rt.alloc();
    let listener = listener(&rt, alloc, 2)?;
    let now = AtomicU64::new(10_000);
    let shown = Shown { rt, now: &now };
    let idle = Some(Duration::from_secs(5));
    let watch = SocketWatch::new(shown, alloc, Arc::try_clone(&listener)?, 2, 2, idle)?;
    let (mut peers, connections) = pairs(&rt, alloc, &listener, 2)?;
    for (client, connection) in connections.iter().enumerate() {
        assert!(rt; watch.watch(0, client, &connection.input));
        now.fetch_add(3_000, Ordering::SeqCst);
    }
    // The first is idle for six seconds, and the second for three.
    assert!(rt; only(&rt, &watch, 1) == Some(0));
    for peer in peers.iter_mut() {
        peer.write_all(b"x")?;
    }
    assert!(rt; only(&rt, &watch, 0) == Some(1));
    assert!(rt; is_quiet(&watch));
    Ok(())
}

/// How often something is written to a peer that is gone.
const WRITES: u32 = 100;

/// Once the system has learned that a peer is gone, what waits for it cannot be written out, and that is told.
#[test]
fn a_failed_write_is_told(rt: HostRuntime) -> Result<(), Fail> {
    let alloc = rt.alloc();
    let listener = listener(&rt, alloc, 1)?;
    let watch = SocketWatch::new(rt, alloc, Arc::try_clone(&listener)?, 1, 1, None)?;
    let (peers, mut connections) = pairs(&rt, alloc, &listener, 1)?;
    let Accepted {
        mut input,
        mut output,
        peer: _,
    } = connections.pop().ok_or("no connection")?;
    drop(peers);
    let mut is_told = false;
    for _ in 0..WRITES {
        output.write_all(b"x")?;
        let (same, is_written) = watch.write_out(input);
        input = same;
        is_told = is_told || !is_written;
    }
    assert!(rt; is_told);
    Ok(())
}
