//! What a connection reads if its client answers a reply soon, late, or not at all.

use rs_tcp_sockets::{Accepted, Listener, abandon};
use std::alloc::Global;
use std::io;
use std::io::{ErrorKind, Read, Write};
use std::net::{Net, TcpListener, TcpStream};
use std::sync::Wait;
use std::test::Fail;
use std::thread::{Threads, sleep, spawn};
use std::time::{Clock, Duration};

/// How many replies there are. The read behind the last one is the first that polls.
const REPLIES: usize = 126;

/// What a client does once the last reply has come.
#[derive(Clone, Copy)]
enum Client {
    /// Sends a byte, after so many milliseconds.
    Sends(u64),
    /// Goes away.
    Leaves,
    /// Goes away and has not read the reply, so that the connection is reset.
    Resets,
}

/// Sends a byte and waits for the reply, as often as there are any, but does not read the last one.
fn ask(stream: &mut TcpStream) -> io::Result<()> {
    let mut room = [0u8; 1];
    for _ in 1..REPLIES {
        stream.write_all(b"a")?;
        stream.read_exact(&mut room)?;
    }
    stream.write_all(b"a")?;
    stream.peek(&mut room)?;
    Ok(())
}

/// Asks for all replies, and does this then.
fn act<H: Net<Listener = TcpListener, Stream = TcpStream> + Clock>(
    rt: &H,
    address: &str,
    client: Client,
) -> io::Result<()> {
    let mut stream = TcpStream::connect(rt, address)?;
    ask(&mut stream)?;
    let mut room = [0u8; 1];
    match client {
        Client::Resets => Ok(()),
        Client::Leaves => stream.read_exact(&mut room),
        Client::Sends(pause) => {
            stream.read_exact(&mut room)?;
            sleep(rt, Duration::from_millis(pause));
            stream.write_all(b"b")
        }
    }
}

/// What a read gives: a byte, the end, or an error.
type Given = Result<Option<u8>, ErrorKind>;

fn read(accepted: &mut Accepted) -> Given {
    let mut room = [0u8; 1];
    match accepted.input.read(&mut room) {
        Ok(0) => Ok(None),
        Ok(_) => Ok(Some(room[0])),
        Err(error) => Err(error.kind()),
    }
}

/// Replies to each byte, and reads again: what that read gives. None if it does not come to that.
fn read_after_reply<H: Clock>(rt: &H, alloc: Global, listener: &Listener) -> Option<Given> {
    let mut accepted = listener.accept(rt, alloc)?;
    for _ in 0..REPLIES {
        if read(&mut accepted) != Ok(Some(97)) {
            return None;
        }
        accepted.output.write_all(b"r").ok()?;
    }
    let result = read(&mut accepted);
    abandon(accepted.input, accepted.output);
    Some(result)
}

/// The same with such a client.
fn read_from<
    H: Clock
        + Net<Listener = TcpListener, Stream = TcpStream>
        + Threads
        + Wait
        + Copy
        + Send
        + Sync
        + 'static,
>(rt: H, alloc: Global, client: Client) -> Result<Option<Given>, Fail> {
    let listener = Listener::bind(&rt, alloc, "127.0.0.1:0", 1, None)?;
    let address = listener.address(alloc)?;
    let acting = spawn(&rt, move || act(&rt, address.as_str(), client).is_ok())?;
    let result = read_after_reply(&rt, alloc, &listener);
    Ok(if acting.join(&rt) { result } else { None })
}

#[test]
fn a_reply_is_answered_soon_or_late(rt: HostRuntime) -> Result<(), Fail> {
    let rows = [
        (Client::Sends(0), Ok(Some(98))),
        (Client::Sends(50), Ok(Some(98))),
        (Client::Leaves, Ok(None)),
        (Client::Resets, Err(ErrorKind::ConnectionReset)),
    ];
    for (client, wanted) in rows {
        assert!(rt; read_from(rt, rt.alloc(), client)? == Some(wanted));
    }
    Ok(())
}

/// The client asks for all replies at once. Then it is silent, and still there.
#[test]
fn an_idle_connection_ends_after_it_polled(rt: HostRuntime) -> Result<(), Fail> {
    let alloc = rt.alloc();
    let limit = Duration::from_millis(30);
    let listener = Listener::bind(&rt, alloc, "127.0.0.1:0", 1, Some(limit))?;
    let mut client = TcpStream::connect(&rt, listener.address(alloc)?.as_str())?;
    client.write_all(&[b'a'; REPLIES])?;
    let result = read_after_reply(&rt, alloc, &listener);
    assert!(rt; result == Some(Err(ErrorKind::WouldBlock)));
    Ok(())
}
