//! What listens for clients.

ghost use Rattle.std.specs.Prelude.{◌≡◌, ◌*◌, min};
ghost use Rattle.rs_tcp_sockets.specs.declared.limits.TheConstants.{LONGEST_PAUSE};

use crate::connection::{FromClient, ToClient, open};
use crate::limits::{BACKLOG, FIRST_PAUSE, LONGEST_PAUSE};
use crate::polling::Pollers;
use libc::net::listen;
use rs_metrics::Meter;
use std::alloc::{AllocError, Global};
use std::net::{Net, SocketAddr, TcpListener, TcpStream};
use std::os::fd::{AsRawFd, RawFd};
use std::rt::Files;
use std::sync::Arc;
use std::sync::atomic::{AtomicU64, Ordering};
use std::thread::Threads;
use std::time::{Clock, Duration};
use std::{fs, io, thread};

/// Accepts connections, up to a number in all. Threads share it by reference, as by an `Arc`.
#[derive(Drop)]
pub struct Listener {
    socket: TcpListener,
    left: AtomicU64,
    idle: Option<Duration>,
    pollers: Arc<Pollers>,
}

/// A connection that was accepted.
#[derive(Drop)]
pub struct Accepted {
    /// What the client sends.
    pub input: FromClient,
    /// What is sent to the client.
    pub output: ToClient,
    /// The client's address.
    pub peer: SocketAddr,
}

impl Listener {
    /// Binds an address, which is a host's name, an IPv4 or an IPv6 address, and a port, as `localhost:1883`
    /// or `[::1]:1883`. Port 0 takes one that is free. At most [`BACKLOG`] clients wait there at once, and fewer if the system has a
    /// lower limit ([`let_wait`](Listener::let_wait) asks for more). It will accept `connections` connections, none if that is 0.
    /// A connection fails at a read or a write that is idle for as long as `idle` says, if it is given ([`open`]).
    ///
    /// # Errors
    ///
    /// If `address` is not an address, is in use, or may not be bound, or if memory is refused.
    pub fn bind<H: Net<Listener = TcpListener, Stream = TcpStream> + Threads>(
        rt: &H,
        alloc: Global,
        address: &str,
        connections: u64,
        idle: Option<Duration>,
    ) -> io::Result<Listener> {
        let pollers = Arc::new(alloc, Pollers::of_processors(rt)).map_err(|_| AllocError)?;
        let socket = TcpListener::bind(rt, address)?;
        // std asks for 128. If the system refuses more, those stand.
        let _ = listen(socket.as_raw_fd(), BACKLOG);
        Ok(Listener {
            socket,
            left: AtomicU64::new(connections),
            idle,
            pollers,
        })
    }

    /// Lets so many clients wait to be accepted at once, but at least [`BACKLOG`], and no more than the system does ([`waiting_limit`]).
    pub fn let_wait(&self, clients: u16) {
        // If the system refuses more, those of before stand.
        let _ = listen(self.socket.as_raw_fd(), i32::from(clients).max(BACKLOG));
    }

    /// The address that was bound, with its port.
    pub fn address(&self, alloc: Global) -> io::Result<String> {
        let address = self.socket.local_addr()?;
        Ok(format!(in alloc; "{address}")?)
    }

    /// Whether all connections were accepted, or the last one is being accepted: no further [`accept`](Listener::accept) gives one.
    pub fn is_finished(&self) -> bool {
        self.left.load(Ordering::SeqCst) == 0
    }

    /// Waits for the next client. None if all connections were accepted.
    ///
    /// An accept that fails, or for which memory or a descriptor is refused, counts as one of the connections. If it was not the
    /// last one, there is a pause after it, which doubles with each further failure, from 10 milliseconds up to a second.
    pub fn accept<H: Clock>(&self, rt: &H, alloc: Global) -> Option<Accepted> {
        self.accept_counted(rt, alloc, &Meter::none())
    }

    /// The same. The bytes of the connection are counted as those of others of this meter.
    pub fn accept_counted<H: Clock>(
        &self,
        rt: &H,
        alloc: Global,
        meter: &Meter,
    ) -> Option<Accepted> {
        let mut pause = FIRST_PAUSE;
        for _ in 0..u64::MAX {
            let left = self.count_one()?;
            if let Ok(accepted) = self.accept_once(alloc, meter) {
                return Some(accepted);
            }
            if left > 0 {
                thread::sleep(rt, Duration::from_millis(pause));
                pause = longer(pause);
            }
        }
        None
    }

    /// Counts one connection more, and gives how many are left then. None if all were counted.
    fn count_one(&self) -> Option<u64> {
        let before = self.left.fetch_update(
            Ordering::SeqCst,
            Ordering::SeqCst,
            |left| left.checked_sub(1),
        );
        before.ok()?.checked_sub(1)
    }

    fn accept_once(&self, alloc: Global, meter: &Meter) -> io::Result<Accepted> {
        let (stream, peer) = self.socket.accept()?;
        let pollers = Arc::try_clone(&self.pollers)?;
        let (input, output) = open(alloc, stream, self.idle, pollers, meter.again()?)?;
        Ok(Accepted {
            input,
            output,
            peer,
        })
    }
}

/// The descriptor of the socket that listens. There is something to read if a client waits to be accepted.
impl AsRawFd for Listener {
    fn as_raw_fd(&self) -> RawFd {
        self.socket.as_raw_fd()
    }
}

/// How many clients a listener may let wait at once, in this network namespace. `None` if the system does not tell.
pub fn waiting_limit<H: Files + AllocGlobal>(rt: &H) -> Option<u64> {
    let text = fs::read_to_string(rt, "/proc/sys/net/core/somaxconn").ok()?;
    text.as_str().trim().parse::<u64>().ok()
}

/// The pause after the next failure.
fn longer(pause: u64) -> u64
    ensures { result ≡ min (2 * pause) LONGEST_PAUSE }
{
    pause.saturating_mul(2).min(LONGEST_PAUSE)
}
