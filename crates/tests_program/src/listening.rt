//! Clients on the loopback.

use kit_test::{CONNACK, CONNECT, DISCONNECT, REPLAYED, SUBSCRIBED, is_shown};
use log::Log;
use rs_message::PlaceCount;
use rs_store::TopicLimit;
use rs_tcp_server::{KeepFault, ListenFault, OpenFiles, Server, Settings, Summary, SyncPolicy};
use std::alloc::Global;
use std::io::{ErrorKind, Read, Write};
use std::net::{Net, TcpListener, TcpStream};
use std::rt::Files;
use std::sync::Wait;
use std::test::Fail;
use std::thread::{JoinHandle, Threads, sleep, spawn};
use std::time::{Clock, Duration, Instant};
use std::{fs, io};

/// PUBLISH at QoS 1 of a/b, retained, identifier 1.
const PUBLISH: &[u8] = b"\x33\x09\x00\x03a/b\x00\x01\x00x";

/// The same, and of a/c.
const PUBLISHES: [&[u8]; 2] = [PUBLISH, b"\x33\x09\x00\x03a/c\x00\x01\x00y"];

const PUBACK: &[u8] = b"\x40\x02\x00\x01";

const PING: Exchange<'static> = (b"\xC0\x00", b"\xD0\x00");

/// SUBSCRIBE of a/# at QoS 0.
const SUBSCRIBE: &[u8] = b"\x82\x09\x00\x01\x00\x00\x03a/#\x00";

/// SUBACK and both messages.
const REPLAY: &[u8] = b"\x90\x04\x00\x01\x00\x001\x07\x00\x03a/b\x00x1\x07\x00\x03a/c\x00y";

/// What is sent, and what has to be the answer.
type Exchange<'a> = (&'a [u8], &'a [u8]);

/// Whether this is the next answer.
fn has_answer(client: &mut TcpStream, wanted: &[u8]) -> io::Result<bool> {
    let mut room = [0u8; 64];
    let Some(answer) = room.get_mut(..wanted.len()) else {
        return Ok(false);
    };
    client.read_exact(answer)?;
    Ok(*answer == *wanted)
}

/// Whether the exchange goes so.
fn is_answered(client: &mut TcpStream, exchange: &Exchange<'_>) -> io::Result<bool> {
    let (sent, wanted) = exchange;
    client.write_all(sent)?;
    has_answer(client, wanted)
}

/// Whether the exchange goes so with all clients. Each sends before the first reads.
fn are_answered(clients: &mut [TcpStream], exchange: &Exchange<'_>) -> io::Result<bool> {
    let (sent, wanted) = exchange;
    for client in clients.iter_mut() {
        client.write_all(sent)?;
    }
    for client in clients.iter_mut() {
        if !has_answer(client, wanted)? {
            return Ok(false);
        }
    }
    Ok(true)
}

/// Whether each exchange went so, and after the last one the server closed the connection.
fn exchange<H: Net<Listener = TcpListener, Stream = TcpStream>>(
    rt: &H,
    address: &str,
    exchanges: &[Exchange<'_>],
) -> io::Result<bool> {
    let mut client = TcpStream::connect(rt, address)?;
    for exchange in exchanges {
        if !is_answered(&mut client, exchange)? {
            return Ok(false);
        }
    }
    Ok(client.read(&mut [0u8; 1])? == 0)
}

/// Whether a client connects, has this answer to this packet, and leaves.
fn is_served<H: Net<Listener = TcpListener, Stream = TcpStream>>(
    rt: &H,
    address: &str,
    packet: &[u8],
    answer: &[u8],
) -> bool {
    let exchanges = [
        (CONNECT, CONNACK),
        (packet, answer),
        (DISCONNECT, b"".as_slice()),
    ];
    exchange(rt, address, exchanges.as_slice()).is_ok_and(|went| went)
}

/// Two clients that publish at the same time. Then one that subscribes, whatever the order of the two was.
fn are_served<
    H: Net<Listener = TcpListener, Stream = TcpStream>
        + Threads
        + Wait
        + Copy
        + Send
        + Sync
        + 'static,
>(rt: H, address: &str, first_address: String) -> io::Result<bool> {
    let [first, second] = PUBLISHES;
    let publishing = spawn(
        &rt,
        move || is_served(&rt, first_address.as_str(), first, PUBACK),
    )?;
    let second_went = is_served(&rt, address, second, PUBACK);
    let first_went = publishing.join(&rt);
    let read = is_served(&rt, address, SUBSCRIBE, REPLAY);
    Ok(first_went && second_went && read)
}

fn settings(
    connections: u64,
    places: u8,
    clients: u16,
    idle: Option<Duration>,
) -> Result<Settings, Fail> {
    Ok(Settings {
        connections,
        topics: TopicLimit::new(10).ok_or("10 topics")?,
        memory: None,
        places: PlaceCount::new(places).ok_or("places")?,
        clients,
        idle,
    })
}

/// The thread on which a server runs.
fn run<
    H: Clock
        + Log
        + Net<Listener = TcpListener, Stream = TcpStream>
        + Threads
        + Files
        + AllocGlobal
        + Wait
        + Copy
        + Send
        + Sync
        + 'static,
>(rt: H, server: Server) -> Result<JoinHandle<Option<Summary>>, Fail> {
    Ok(spawn(&rt, move || server.run(rt).ok())?)
}

/// Starts a server: its address, and the thread that serves.
fn start<
    H: Clock
        + Log
        + Net<Listener = TcpListener, Stream = TcpStream>
        + Threads
        + Files
        + AllocGlobal
        + Wait
        + Copy
        + Send
        + Sync
        + 'static,
>(
    rt: H,
    alloc: Global,
    connections: u64,
    places: u8,
    clients: u16,
    idle: Option<Duration>,
) -> Result<(String, JoinHandle<Option<Summary>>), Fail> {
    let settings = settings(connections, places, clients, idle)?;
    let server = Server::bind(&rt, alloc, "127.0.0.1:0", settings)?;
    let address = server.address()?;
    Ok((address, run(rt, server)?))
}

/// Serves the three clients. Whether they went as they should, and what the server tells at its end.
fn publish_and_read<
    H: Clock
        + Log
        + Net<Listener = TcpListener, Stream = TcpStream>
        + Threads
        + Files
        + AllocGlobal
        + Wait
        + Copy
        + Send
        + Sync
        + 'static,
>(rt: H, alloc: Global, places: u8) -> Result<(bool, Option<Summary>), Fail> {
    let (address, serving) = start(rt, alloc, 3, places, u16::from(places), None)?;
    let again = address.clone()?;
    let went = are_served(rt, address.as_str(), again)?;
    Ok((went, serving.join(&rt)))
}

/// As many connections as `--endless` asks for.
const ENDLESS: u64 = u64::MAX;

/// How many of seven clients that come one after the other a server of one place serves, of so many connections.
fn served_of<
    H: Clock
        + Log
        + Net<Listener = TcpListener, Stream = TcpStream>
        + Threads
        + Files
        + AllocGlobal
        + Wait
        + Copy
        + Send
        + Sync
        + 'static,
>(rt: H, alloc: Global, connections: u64) -> Result<u8, Fail> {
    let (address, serving) = start(rt, alloc, connections, 1, 1, None)?;
    // One without an end goes on until the tests end.
    drop(serving);
    let (ping, answer) = PING;
    let mut served = 0u8;
    for _ in 0..7u8 {
        if is_served(&rt, address.as_str(), ping, answer) {
            served = served.saturating_add(1);
        }
    }
    Ok(served)
}

/// Where a bounded server has ended, one without an end goes on.
#[test]
fn a_server_without_an_end_goes_on(rt: HostRuntime) -> Result<(), Fail> {
    for (connections, wanted) in [(3u64, 3u8), (ENDLESS, 7)] {
        let served = served_of(rt, rt.alloc(), connections)?;
        assert!(rt; served == wanted, "{connections}");
    }
    Ok(())
}

#[test]
fn faults_have_a_text(rt: HostRuntime) {
    let taken = io::Error::from(ErrorKind::AddrInUse);
    let faults = [
        (
            ListenFault::Address(taken),
            "the address cannot be listened on: address in use",
        ),
        (
            ListenFault::Metrics(io::Error::from(ErrorKind::AddrInUse)),
            "the address for metrics cannot be listened on: address in use",
        ),
        (
            ListenFault::TooManyTopics,
            "more topics are given than the store may hold; raise the limit",
        ),
        (
            ListenFault::Keep(KeepFault::InUse),
            "another server keeps its messages in the folder; stop it, or name another folder",
        ),
        (
            ListenFault::Keep(KeepFault::TooManyTopics {
                kept: 11,
                limit: 10,
            }),
            "the folder keeps 11 topics and the store may hold 10; raise --topics",
        ),
        (
            ListenFault::Keep(KeepFault::TooManyBytes { kept: 9, limit: 8 }),
            "the messages in the folder count 9 bytes and may count 8; raise --memory",
        ),
        (ListenFault::NoMemory, "out of memory"),
        (ListenFault::NoThread, "no thread can be started"),
    ];
    for (fault, text) in faults {
        assert!(rt; is_shown(rt.alloc(), &fault, text));
    }
}

#[test]
fn clients_share_a_store(rt: HostRuntime) -> Result<(), Fail> {
    // One place serves the clients one after the other. Of four, one is never used.
    for places in [1u8, 2, 4] {
        let summary = Summary {
            threads: usize::from(places),
            clients: u16::from(places),
            changes: Some(2),
        };
        let (went, found) = publish_and_read(rt, rt.alloc(), places)?;
        assert!(rt; went);
        assert!(rt; found == Some(summary));
    }
    Ok(())
}

/// A server for one client, whose messages this folder keeps.
fn bind_kept<
    H: Clock
        + Net<Listener = TcpListener, Stream = TcpStream>
        + Threads
        + Files<File = fs::File>
        + OpenFiles
        + AllocGlobal,
>(rt: &H, alloc: Global, folder: &str, sync: SyncPolicy) -> Result<Server, Fail> {
    let server = Server::bind(rt, alloc, "127.0.0.1:0", settings(1, 1, 1, None)?)?;
    Ok(server.with_journal(rt, folder, sync)?)
}

/// Starts such a server: its address, and the thread that serves.
fn start_kept<
    H: Clock
        + Log
        + Net<Listener = TcpListener, Stream = TcpStream>
        + Threads
        + Files<File = fs::File>
        + OpenFiles
        + AllocGlobal
        + Wait
        + Copy
        + Send
        + Sync
        + 'static,
>(
    rt: H,
    alloc: Global,
    folder: &str,
    sync: SyncPolicy,
) -> Result<(String, JoinHandle<Option<Summary>>), Fail> {
    let server = bind_kept(&rt, alloc, folder, sync)?;
    let address = server.address()?;
    Ok((address, run(rt, server)?))
}

/// Whether a server that keeps its messages in this folder answers so, and ends then.
fn answers_kept<
    H: Clock
        + Log
        + Net<Listener = TcpListener, Stream = TcpStream>
        + Threads
        + Files<File = fs::File>
        + OpenFiles
        + AllocGlobal
        + Wait
        + Copy
        + Send
        + Sync
        + 'static,
>(
    rt: H,
    alloc: Global,
    folder: &str,
    sync: SyncPolicy,
    packet: &[u8],
    answer: &[u8],
) -> Result<bool, Fail> {
    let (address, serving) = start_kept(rt, alloc, folder, sync)?;
    let went = is_served(&rt, address.as_str(), packet, answer);
    Ok(went && serving.join(&rt).is_some())
}

#[test]
fn a_folder_keeps_the_messages(rt: HostRuntime) -> Result<(), Fail> {
    let [first, second] = PUBLISHES;
    for (folder, sync) in [
        ("kept-always", SyncPolicy::Always),
        ("kept-second", SyncPolicy::Second),
        ("kept-never", SyncPolicy::Never),
    ] {
        assert!(rt; answers_kept(rt, rt.alloc(), folder, sync, first, PUBACK)?);
        assert!(rt; answers_kept(rt, rt.alloc(), folder, sync, second, PUBACK)?);
        assert!(rt; answers_kept(rt, rt.alloc(), folder, sync, SUBSCRIBE, REPLAY)?);
        fs::remove_dir_all(&rt, folder)?;
    }
    Ok(())
}

/// So many clients that are connected.
fn connect<H: Net<Listener = TcpListener, Stream = TcpStream>>(
    rt: &H,
    alloc: Global,
    address: &str,
    count: u64,
) -> io::Result<Vec<TcpStream>> {
    let mut clients = Vec::new(alloc);
    for _ in 0..count {
        clients.push(TcpStream::connect(rt, address)?)?;
    }
    Ok(clients)
}

/// What a server of two places and so many clients tells at its end.
fn fleet(clients: u16, changes: u64) -> Option<Summary> {
    Some(Summary {
        threads: 2,
        clients,
        changes: Some(changes),
    })
}

/// Also if not every client gets a connection.
#[test]
fn a_fleet_ends_after_its_last_connection(rt: HostRuntime) -> Result<(), Fail> {
    for connections in [0u64, 1, 5, 6, 40] {
        let (address, serving) = start(rt, rt.alloc(), connections, 2, 6, None)?;
        // All come at once and leave at once.
        drop(connect(&rt, rt.alloc(), address.as_str(), connections)?);
        assert!(rt; serving.join(&rt) == fleet(6, 0), "{connections}");
    }
    Ok(())
}

const FLEET: [Exchange<'static>; 5] = [
    (CONNECT, CONNACK),
    (SUBSCRIBE, SUBSCRIBED),
    (PUBLISH, PUBACK),
    (SUBSCRIBE, REPLAYED),
    PING,
];

#[test]
fn a_fleet_is_answered(rt: HostRuntime) -> Result<(), Fail> {
    let (address, serving) = start(rt, rt.alloc(), 40, 2, 40, None)?;
    let mut clients = connect(&rt, rt.alloc(), address.as_str(), 40)?;
    for exchange in FLEET {
        assert!(rt; are_answered(&mut clients, &exchange)?);
    }
    drop(clients);
    assert!(rt; serving.join(&rt) == fleet(40, 40));
    Ok(())
}

const HEALTH: &[u8] = b"GET /healthz HTTP/1.1\r\nHost: a\r\n\r\n";

const HEALTHY: &[u8] = b"HTTP/1.1 200 OK\r\n";

/// How often its health is asked for, with a pause of so many milliseconds. Its writer may begin a little later.
const TRIES: u64 = 1_000;

const PAUSE: u64 = 10;

/// Whether the writer of a server is told to take changes, before long.
fn is_healthy<H: Clock + Net<Listener = TcpListener, Stream = TcpStream>>(
    rt: &H,
    address: &str,
) -> io::Result<bool> {
    for _ in 0..TRIES {
        let mut asking = TcpStream::connect(rt, address)?;
        if is_answered(&mut asking, &(HEALTH, HEALTHY))? {
            return Ok(true);
        }
        sleep(rt, Duration::from_millis(PAUSE));
    }
    Ok(false)
}

/// Whether a server has no address for metrics.
fn is_silent(server: &Server) -> Result<bool, Fail> {
    Ok(server.metrics_address()?.is_none())
}

/// The same of one without metrics.
fn tells_nobody<H: Net<Listener = TcpListener, Stream = TcpStream> + Threads + Files + AllocGlobal>(
    rt: &H,
    alloc: Global,
) -> Result<bool, Fail> {
    let settings = settings(1, 1, 1, None)?;
    let server = Server::bind(rt, alloc, "127.0.0.1:0", settings)?;
    is_silent(&server)
}

/// A server for one client that tells its numbers.
fn bind_told<H: Net<Listener = TcpListener, Stream = TcpStream> + Threads + Files + AllocGlobal>(
    rt: &H,
    alloc: Global,
) -> Result<Server, Fail> {
    let server = Server::bind(rt, alloc, "127.0.0.1:0", settings(1, 1, 1, None)?)?;
    Ok(server.with_metrics(rt, "127.0.0.1:0")?)
}

/// The address of a server, and that where it tells its numbers.
fn addresses(server: &Server) -> Result<(String, String), Fail> {
    let address = server.address()?;
    let told = server.metrics_address()?.ok_or("no address")?;
    Ok((address, told))
}

/// Starts a server that tells its numbers: its addresses, and the thread that serves.
fn start_told<
    H: Clock
        + Log
        + Net<Listener = TcpListener, Stream = TcpStream>
        + Threads
        + Files
        + AllocGlobal
        + Wait
        + Copy
        + Send
        + Sync
        + 'static,
>(rt: H, alloc: Global) -> Result<(String, String, JoinHandle<Option<Summary>>), Fail> {
    let server = bind_told(&rt, alloc)?;
    let (address, told) = addresses(&server)?;
    Ok((address, told, run(rt, server)?))
}

/// Its health is told while it runs. Once its clients have ended, it ends, and nobody is told any more.
#[test]
fn a_server_tells_its_health(rt: HostRuntime) -> Result<(), Fail> {
    let alloc = rt.alloc();
    assert!(rt; tells_nobody(&rt, alloc)?);
    let (address, told, serving) = start_told(rt, alloc)?;
    assert!(rt; is_healthy(&rt, told.as_str())?);
    assert!(rt; is_served(&rt, address.as_str(), PUBLISH, PUBACK));
    let summary = Summary {
        threads: 1,
        clients: 1,
        changes: Some(1),
    };
    assert!(rt; serving.join(&rt) == Some(summary));
    assert!(rt; TcpStream::connect(&rt, told.as_str()).is_err());
    Ok(())
}

/// For how long a client may be silent, in milliseconds.
const IDLE: u64 = 1_000;

/// How long a client that is silent after CONNECT is connected.
fn time_silent<H: Clock + Net<Listener = TcpListener, Stream = TcpStream>>(
    rt: &H,
    address: &str,
) -> io::Result<Option<Duration>> {
    let start = Instant::now(rt)?;
    let has_ended = exchange(rt, address, &[(CONNECT, CONNACK)])?;
    let took = start.elapsed(rt)?;
    Ok(has_ended.then_some(took))
}

/// Whether a client is answered that is never silent for too long, but longer in all.
fn is_kept<H: Clock + Net<Listener = TcpListener, Stream = TcpStream>>(
    rt: &H,
    address: &str,
) -> io::Result<bool> {
    let mut client = TcpStream::connect(rt, address)?;
    for exchange in [(CONNECT, CONNACK), PING, PING, PING, PING] {
        let start = Instant::now(rt)?;
        sleep(rt, Duration::from_millis(IDLE / 3));
        let went = is_answered(&mut client, &exchange).is_ok_and(|went| went);
        if start.elapsed(rt)? >= Duration::from_millis(IDLE) {
            // Such a slow machine shows nothing.
            return Ok(true);
        }
        if !went {
            return Ok(false);
        }
    }
    Ok(true)
}

#[test]
fn an_idle_client_of_a_fleet_is_ended(rt: HostRuntime) -> Result<(), Fail> {
    let idle = Duration::from_millis(IDLE);
    let (address, serving) = start(rt, rt.alloc(), 2, 2, 6, Some(idle))?;
    let silent = time_silent(&rt, address.as_str())?;
    assert!(rt; silent.is_some_and(|took| took >= idle));
    assert!(rt; is_kept(&rt, address.as_str())?);
    assert!(rt; serving.join(&rt) == fleet(6, 0));
    Ok(())
}
