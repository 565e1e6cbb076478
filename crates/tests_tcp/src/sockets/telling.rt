//! What descriptors tell those that wait for them.

use rs_tcp_sockets::{
    Accepted, Epoll, Listener, MAX_TOLD, StopSignal, abandon, descriptor, set_read_limit,
};
use std::alloc::Global;
use std::io::{ErrorKind, Read, Write};
use std::net::{Net, TcpListener, TcpStream};
use std::os::fd::AsRawFd;
use std::process::Abort;
use std::sync::{Arc, Barrier, Wait};
use std::test::Fail;
use std::thread::{Threads, spawn};
use std::time::{Clock, Duration};

const AT_ONCE: Option<Duration> = Some(Duration::ZERO);

/// The numbers that tell at once.
fn told(alloc: Global, epoll: &Epoll) -> Result<Vec<u64>, Fail> {
    let mut numbers = [0u64; MAX_TOLD];
    let count = epoll.wait(&mut numbers, AT_ONCE)?;
    let mut all = Vec::new(alloc);
    all.extend_from_slice(&numbers[..count])?;
    Ok(all)
}

/// Waits for as long as it takes: the first number that tells.
fn first_told(epoll: &Epoll) -> Option<u64> {
    let mut numbers = [0u64; 1];
    match epoll.wait(&mut numbers, None) {
        Ok(1) => Some(numbers[0]),
        _ => None,
    }
}

/// Waits to this limit: how many numbers are told.
fn count_told(epoll: &Epoll, numbers: &mut [u64], limit: Option<Duration>) -> Option<usize> {
    match epoll.wait(numbers, limit) {
        Ok(count) => Some(count),
        Err(_) => None,
    }
}

/// A client, and its connection.
fn pair<H: Clock + Net<Listener = TcpListener, Stream = TcpStream> + Threads>(
    rt: &H,
    alloc: Global,
) -> Result<Option<(TcpStream, Accepted)>, Fail> {
    let listener = Listener::bind(rt, alloc, "127.0.0.1:0", 1, None)?;
    let client = TcpStream::connect(rt, listener.address(alloc)?.as_str())?;
    match listener.accept(rt, alloc) {
        Some(accepted) => Ok(Some((client, accepted))),
        None => Ok(None),
    }
}

fn read_one(accepted: &mut Accepted) -> Option<u8> {
    let mut room = [0u8; 1];
    match accepted.input.read(&mut room) {
        Ok(1) => Some(room[0]),
        _ => None,
    }
}

/// Whether a read ends at its limit.
fn would_block(accepted: &mut Accepted) -> bool {
    let mut room = [0u8; 1];
    match accepted.input.read(&mut room) {
        Ok(_) => false,
        Err(error) => error.kind() == ErrorKind::WouldBlock,
    }
}

/// Reads to the end, or to an error: how many bytes.
fn take_all(client: &mut TcpStream) -> u64 {
    let mut room = [0u8; 4_096];
    let mut count = 0u64;
    for _ in 0..u64::MAX {
        match client.read(&mut room) {
            Ok(size) if size > 0 => count = count.saturating_add(size as u64),
            _ => break,
        }
    }
    count
}

#[test]
fn a_connection_tells_once(rt: HostRuntime) -> Result<(), Fail> {
    let alloc = rt.alloc();
    let epoll = Epoll::new()?;
    let Some((mut client, mut accepted)) = pair(&rt, alloc)? else {
        return Err(Fail::from("no connection"));
    };
    let fd = descriptor(&accepted.input);
    epoll.ask_once(fd, 7)?;
    assert!(rt; told(alloc, &epoll)?.is_empty());
    client.write_all(b"ab")?;
    assert!(rt; first_told(&epoll) == Some(7));
    // There is more to read, but it was not asked again.
    assert!(rt; told(alloc, &epoll)?.is_empty());
    assert!(rt; read_one(&mut accepted) == Some(97));
    epoll.ask_once(fd, 8)?;
    assert!(rt; first_told(&epoll) == Some(8));
    assert!(rt; read_one(&mut accepted) == Some(98));
    epoll.ask_once(fd, u64::MAX)?;
    assert!(rt; told(alloc, &epoll)?.is_empty());
    // Its end tells too.
    drop(client);
    assert!(rt; first_told(&epoll) == Some(u64::MAX));
    Ok(())
}

#[test]
fn a_closed_connection_tells_nothing(rt: HostRuntime) -> Result<(), Fail> {
    let alloc = rt.alloc();
    let epoll = Epoll::new()?;
    let Some((mut client, accepted)) = pair(&rt, alloc)? else {
        return Err(Fail::from("no connection"));
    };
    epoll.ask_once(descriptor(&accepted.input), 7)?;
    client.write_all(b"ab")?;
    abandon(accepted.input, accepted.output);
    assert!(rt; told(alloc, &epoll)?.is_empty());
    // No descriptor has this number.
    assert!(rt; epoll.ask_once(-1, 7).is_err());
    assert!(rt; epoll.ask_always(-1, 7).is_err());
    Ok(())
}

#[test]
fn a_read_can_have_another_limit(rt: HostRuntime) -> Result<(), Fail> {
    let Some((mut client, mut accepted)) = pair(&rt, rt.alloc())? else {
        return Err(Fail::from("no connection"));
    };
    set_read_limit(&accepted.input, Some(Duration::from_micros(1)))?;
    assert!(rt; would_block(&mut accepted));
    assert!(rt; !accepted.input.is_unwritten());
    assert!(rt; set_read_limit(&accepted.input, AT_ONCE).is_err());
    // A write waits still: it is more than the system keeps.
    let reading = spawn(&rt, move || take_all(&mut client))?;
    for _ in 0..1_024 {
        accepted.output.write_all(&[0u8; 16_384])?;
    }
    accepted.input.write_out()?;
    abandon(accepted.input, accepted.output);
    assert!(rt; reading.join(&rt) == 16_777_216);
    Ok(())
}

/// The listener tells this number once a client has connected.
fn check_tells<H: Clock + Net<Listener = TcpListener, Stream = TcpStream> + Threads + Abort>(
    rt: &H,
    alloc: Global,
    epoll: &Epoll,
    listener: &Listener,
    number: u64,
) -> Result<(), Fail> {
    assert!(rt; !listener.is_finished());
    epoll.ask_once(listener.as_raw_fd(), number)?;
    assert!(rt; told(alloc, epoll)?.is_empty());
    let _client = TcpStream::connect(rt, listener.address(alloc)?.as_str())?;
    assert!(rt; first_told(epoll) == Some(number));
    assert!(rt; listener.accept(rt, alloc).is_some());
    Ok(())
}

#[test]
fn a_listener_tells_of_connections(rt: HostRuntime) -> Result<(), Fail> {
    let alloc = rt.alloc();
    let epoll = Epoll::new()?;
    let listener = Listener::bind(&rt, alloc, "127.0.0.1:0", 2, None)?;
    for number in 0..2 {
        check_tells(&rt, alloc, &epoll, &listener, number)?;
    }
    assert!(rt; listener.is_finished());
    Ok(())
}

#[test]
fn a_wait_has_a_limit_and_room(rt: HostRuntime) -> Result<(), Fail> {
    let alloc = rt.alloc();
    let epoll = Epoll::new()?;
    let mut numbers = [0u64; 2];
    for limit in [
        Duration::ZERO,
        Duration::from_micros(1),
        Duration::from_millis(2),
    ] {
        assert!(rt; count_told(&epoll, &mut numbers, Some(limit)) == Some(0));
    }
    assert!(rt; epoll.wait(&mut [], AT_ONCE).is_err());
    // Three tell, and there is room for two: the third is told next.
    let mut signals = Vec::new(alloc);
    for number in 1..4 {
        let signal = StopSignal::new()?;
        signal.send();
        epoll.ask_once(signal.as_raw_fd(), number)?;
        signals.push(signal)?;
    }
    assert!(rt; count_told(&epoll, &mut numbers, None) == Some(2));
    let first = numbers;
    assert!(rt; count_told(&epoll, &mut numbers, None) == Some(1));
    let mut all = [first[0], first[1], numbers[0]];
    all.sort(alloc)?;
    assert!(rt; all == [1, 2, 3]);
    Ok(())
}

/// How many of so many threads that wait for the epoll are told this number.
fn told_to_all<H: Threads + Wait + Copy + Send + Sync + 'static>(
    rt: H,
    alloc: Global,
    epoll: &Arc<Epoll>,
    threads: usize,
    signal: &StopSignal,
) -> Result<usize, Fail> {
    let started = Arc::new(alloc, Barrier::new(threads.saturating_add(1)))?;
    let mut waiting = Vec::with_capacity(alloc, threads)?;
    for _ in 0..threads {
        let epoll = Arc::try_clone(epoll)?;
        let started = Arc::try_clone(&started)?;
        let thread = spawn(&rt, move || {
            started.wait(&rt);
            first_told(&epoll) == Some(9)
        })?;
        waiting.push(thread)?;
    }
    started.wait(&rt);
    signal.send();
    let mut count = 0usize;
    for thread in waiting {
        if thread.join(&rt) {
            count = count.saturating_add(1);
        }
    }
    Ok(count)
}

#[test]
fn a_stop_is_told_to_all(rt: HostRuntime) -> Result<(), Fail> {
    let alloc = rt.alloc();
    let epoll = Arc::new(alloc, Epoll::new()?)?;
    let signal = StopSignal::new()?;
    epoll.ask_always(signal.as_raw_fd(), 9)?;
    assert!(rt; told(alloc, &epoll)?.is_empty());
    assert!(rt; told_to_all(rt, alloc, &epoll, 5, &signal)? == 5);
    // Also to those that come later, and if it is sent again.
    signal.send();
    for _ in 0..3 {
        assert!(rt; first_told(&epoll) == Some(9));
    }
    // Another epoll tells it too.
    let other = Epoll::new()?;
    other.ask_always(signal.as_raw_fd(), 10)?;
    assert!(rt; first_told(&other) == Some(10));
    Ok(())
}
