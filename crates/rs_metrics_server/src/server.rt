//! The thread that answers.

use crate::conversation::{Conversation, Wanted};
use crate::limits::{MAX_REQUESTS, SECONDS};
use libc::net::{POLLIN, POLLOUT, poll};
use libc::types::pollfd;
use rs_metrics::Metrics;
use rs_tcp_sockets::StopSignal;
use std::alloc::{AllocError, Global};
use std::io::{ErrorKind, Read, Write};
use std::net::{Net, OpenStream, TcpListener, TcpStream};
use std::os::fd::{AsRawFd, RawFd};
use std::time::{Clock, Duration};
use std::{io, thread};

/// While there are connections, a wait ends after so many milliseconds, so that none lasts much longer than it may.
const TICK: i32 = 250;

/// The pause after a failed accept or a failed wait, in milliseconds: the system has no descriptor or no memory.
const PAUSE: u64 = 100;

/// A poll passes this by.
const NO_DESCRIPTOR: pollfd = pollfd {
    fd: -1,
    events: 0,
    revents: 0,
};

/// How many descriptors there are beside those of connections: that of the stop, and that of the listener.
const OTHERS: usize = 2;

const DESCRIPTORS: usize = 10;

const _: () = prove!(DESCRIPTORS == OTHERS + MAX_REQUESTS);

/// A connection, and when it has to end.
#[derive(Drop)]
struct Timed<S> {
    conversation: Conversation<S>,
    deadline: Duration,
}

/// A bound address, before the first request is answered.
#[derive(Drop)]
pub struct MetricsServer {
    alloc: Global,
    listener: TcpListener,
}

impl MetricsServer {
    /// Binds an address: a host's name, an IPv4 or an IPv6 address, and a port, as `localhost:9884` or `[::1]:9884`. Port 0 takes one that is free.
    ///
    /// # Errors
    ///
    /// If `address` is not an address, is in use, or may not be bound.
    pub fn bind<H: Net<Listener = TcpListener, Stream = TcpStream>>(
        rt: &H,
        alloc: Global,
        address: &str,
    ) -> io::Result<MetricsServer> {
        let listener = TcpListener::bind(rt, address)?;
        listener.set_nonblocking(true)?;
        Ok(MetricsServer { alloc, listener })
    }

    /// The address that was bound, with its port.
    ///
    /// # Errors
    ///
    /// If the system does not tell it, or memory is refused.
    pub fn address(&self) -> io::Result<String> {
        let address = self.listener.local_addr()?;
        Ok(format!(in self.alloc; "{address}")?)
    }

    /// Answers requests with these numbers until the stop is sent. What is underway then is cut off.
    ///
    /// # Errors
    ///
    /// Only if memory is refused at the start: then none was answered.
    pub fn run<H: Clock>(
        self,
        rt: &H,
        metrics: &Metrics,
        stop: &StopSignal,
    ) -> Result<(), AllocError> {
        let MetricsServer { alloc, listener } = self;
        let mut connections = Vec::with_capacity(alloc, MAX_REQUESTS)?;
        for _ in 0..u64::MAX {
            let mut asked = [NO_DESCRIPTOR; DESCRIPTORS];
            asked[0] = asking(stop.as_raw_fd(), POLLIN);
            ask(&mut asked, listener.as_raw_fd(), connections.as_slice());
            wait(rt, &mut asked);
            if asked[0].revents != 0 {
                break;
            }
            // If the clock cannot be read, each connection has lasted too long.
            let now = rt.monotonic().unwrap_or(Duration::MAX);
            go_on(metrics, connections.as_mut_slice(), &asked[OTHERS..]);
            connections.retain(|timed| !has_ended(timed, now));
            if asked[1].revents != 0 {
                accept(rt, alloc, &listener, now, &mut connections);
            }
        }
        Ok(())
    }
}

/// Asks for connections to accept, if there is room for one, and for what each connection waits for.
fn ask<S: Read + Write + OpenStream + AsRawFd>(
    asked: &mut [pollfd; DESCRIPTORS],
    listener: RawFd,
    connections: &[Timed<S>],
) {
    if connections.len() < MAX_REQUESTS {
        asked[1] = asking(listener, POLLIN);
    }
    for (place, timed) in asked[OTHERS..].iter_mut().zip(connections) {
        *place = asking_for(&timed.conversation);
    }
}

fn asking(fd: RawFd, events: i16) -> pollfd {
    pollfd {
        fd,
        events,
        revents: 0,
    }
}

fn asking_for<S: Read + Write + OpenStream + AsRawFd>(conversation: &Conversation<S>) -> pollfd {
    let events = match conversation.wanted() {
        Wanted::Read => POLLIN,
        Wanted::Write => POLLOUT,
        Wanted::Nothing => 0,
    };
    asking(conversation.stream().as_raw_fd(), events)
}

/// Waits until one of the descriptors tells, or, if there are connections, a little while.
fn wait<H: Clock>(rt: &H, asked: &mut [pollfd; DESCRIPTORS]) {
    let is_idle = asked[OTHERS..].iter().all(|place| place.fd < 0);
    let limit = if is_idle { -1 } else { TICK };
    // A signal ends a wait too.
    if poll(asked, limit) < 0 && os::errno() != libc::EINTR {
        thread::sleep(rt, Duration::from_millis(PAUSE));
    }
}

/// Lets each connection go on that was told of.
fn go_on<S: Read + Write + OpenStream>(
    metrics: &Metrics,
    connections: &mut [Timed<S>],
    told: &[pollfd],
) {
    for (timed, place) in connections.iter_mut().zip(told) {
        if place.revents != 0 {
            timed.conversation.go_on(metrics);
        }
    }
}

/// Whether a connection has ended, or has lasted too long.
fn has_ended<S: Read + Write + OpenStream>(timed: &Timed<S>, now: Duration) -> bool {
    matches!(timed.conversation.wanted(), Wanted::Nothing) || now >= timed.deadline
}

/// Accepts a connection.
fn accept<H: Clock>(
    rt: &H,
    alloc: Global,
    listener: &TcpListener,
    now: Duration,
    connections: &mut Vec<Timed<TcpStream>>,
) {
    match accept_once(listener) {
        Ok(stream) => {
            let timed = Timed {
                conversation: Conversation::new(alloc, stream),
                deadline: now.saturating_add(Duration::from_secs(SECONDS)),
            };
            // There is room for it. Otherwise it is closed.
            drop(connections.push(timed));
        }
        Err(error) => {
            // If it would have to wait, the client has gone.
            if error.kind() != ErrorKind::WouldBlock {
                thread::sleep(rt, Duration::from_millis(PAUSE));
            }
        }
    }
}

fn accept_once(listener: &TcpListener) -> io::Result<TcpStream> {
    let (stream, _peer) = listener.accept()?;
    stream.set_nonblocking(true)?;
    Ok(stream)
}
