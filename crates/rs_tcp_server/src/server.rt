//! The server.

ghost use Rattle.std.specs.Prelude.{◌≡◌, ◌+◌, ◌<◌, ◌≤◌, ℕ, List, [], IfOk, length};
ghost use Rattle.rs_message.specs.declared.entry.TheConstants.{MAX_LINES};
ghost use Rattle.rs_intake.specs.declared.cause.Cause.{Cause};
ghost use Rattle.rs_places.specs.Store.{IsStoreRun};
ghost use Rattle.rs_places_steps.specs.Turns.{Connections};
ghost use Rattle.rs_tcp_server.specs.Beginning.{first_in, most_held_in};

use crate::fault::ListenFault;
use crate::full_log::FullLog;
use crate::journal_log::JournalLog;
use crate::journal_state::JournalState;
use crate::journal_watch::first_numbers;
use crate::keeping::{KeptFolder, SyncPolicy, bytes_of_all, check_limits, open_folder};
use crate::opening::turns;
use crate::polling::time_polls;
use crate::serving::serve;
use crate::telling::{Telling, descriptors_to_tell, new_metrics, start_telling};
use crate::turn::{ClientWord, ListenTurn};
use log::{Log, info, warn};
use rs_intake::{BlankQueue, blank_queue};
use rs_journal::OpenFiles;
use rs_message::{LineCount, MAX_LINES, PlaceCount};
use rs_metrics::{JournalMeter, Limits, Metrics, share};
use rs_metrics_server::MetricsServer;
use rs_places::StoreEnd;
use rs_places_pool::Runner;
use rs_places_steps::FreeTurn;
use rs_store::TopicLimit;
use rs_tcp_sockets::{Listener, SocketWatch, SystemClock, descriptor_limit, waiting_limit};
use rs_version::Blank;
use std::alloc::{AllocError, Global};
use std::fs;
use std::net::{Net, TcpListener, TcpStream};
use std::rt::Files;
use std::sync::{Arc, Wait};
use std::thread::Threads;
use std::time::{Clock, Duration};

/// A bound address and an empty store, before the first client is served.
#[derive(Drop)]
pub struct Server {
    alloc: Global,
    listener: Arc<Listener>,
    blank: Blank,
    places: PlaceCount,
    clients: u16,
    idle: Option<Duration>,
    // How many clients may wait to be accepted, as the system has it.
    waiting: u64,
    topics: TopicLimit,
    memory: Option<u64>,
    // What tells its numbers, if anybody is told.
    metrics: Option<MetricsServer>,
    // The folder that keeps the messages, if one does.
    kept: Option<KeptFolder>,
    ghost each: { (places ≡ blank.places) × (topics ≡ blank.limit) },
}

/// What a server is to be.
#[derive(Clone, Copy, Debug)]
pub struct Settings {
    /// How many connections it accepts: none, if that is 0.
    pub connections: u64,
    /// How many topics may hold a message.
    pub topics: TopicLimit,
    /// How many bytes the retained messages may count (see [`bytes_of`](rs_store::bytes_of)). Any number, if it is not given.
    pub memory: Option<u64>,
    /// How many clients read the store at the same time.
    pub places: PlaceCount,
    /// How many clients are served at the same time.
    pub clients: u16,
    /// After how long an idle connection ends. Never, if it is not given.
    pub idle: Option<Duration>,
}

/// What a server did.
#[derive(Clone, Copy, Debug, PartialEq, Eq)]
pub struct Summary {
    /// How many places had a thread: that of its client, or, with more clients than places, those of its lane.
    pub threads: usize,
    /// How many clients could be served at the same time.
    pub clients: u16,
    /// How many changes all clients sent to the writer, refused ones too. None if not all are known to be taken.
    pub changes: Option<u64>,
}

impl Server {
    /// Binds an address, and makes an empty store.
    ///
    /// `address` is a host's name, an IPv4 or an IPv6 address, and a port, as `localhost:1883` or `[::1]:1883`. Port 0 takes one that is free.
    ///
    /// - The server will serve `clients` clients at the same time, but at least as many as there are `places`, and at most [`MAX_LINES`].
    /// - As many clients may wait to be accepted, but at least 4,096, and no more than the system lets wait.
    /// - For each of `places` there is a seat, by which one client at a time takes the version that it reads.
    /// - If `idle` is given, a connection ends if for so long no byte comes, or its client takes none of what waits for it.
    ///
    /// # Errors
    ///
    /// [`Address`](ListenFault::Address) if `address` is not an address, is in use, or may not be bound,
    /// [`NoMemory`](ListenFault::NoMemory) if memory is refused.
    pub fn bind<H: Net<Listener = TcpListener, Stream = TcpStream> + Threads + Files + AllocGlobal>(
        rt: &H,
        alloc: Global,
        address: &str,
        settings: Settings,
    ) -> Result<Server, ListenFault> {
        let Settings {
            connections,
            topics,
            memory,
            places,
            clients,
            idle,
        } = settings;
        let blank = Blank::new(alloc, topics, places)?.with_memory(memory.unwrap_or(u64::MAX));
        match Listener::bind(rt, alloc, address, connections, idle) {
            Ok(listener) => {
                listener.let_wait(clients);
                Ok(Server {
                    alloc,
                    listener: Arc::new(alloc, listener).map_err(|_| AllocError)?,
                    blank,
                    places,
                    clients,
                    idle,
                    waiting: waiting_limit(rt).unwrap_or(u64::MAX),
                    topics,
                    memory,
                    metrics: None,
                    kept: None,
                })
            }
            Err(error) => Err(ListenFault::from(error)),
        }
    }

    /// The address that was bound, with its port.
    ///
    /// # Errors
    ///
    /// [`Address`](ListenFault::Address) if the system does not tell it, or memory is refused.
    pub fn address(&self) -> Result<String, ListenFault> {
        match self.listener.address(self.alloc) {
            Ok(address) => Ok(address),
            Err(error) => Err(ListenFault::Address(error)),
        }
    }

    /// The same server. While it runs, a thread tells by HTTP what is counted (`rs_metrics_server`): it binds this address, which is one as
    /// those of clients are.
    ///
    /// # Errors
    ///
    /// [`Metrics`](ListenFault::Metrics) if `address` is not an address, is in use, or may not be bound.
    pub fn with_metrics<H: Net<Listener = TcpListener, Stream = TcpStream>>(
        self,
        rt: &H,
        address: &str,
    ) -> Result<Server, ListenFault>
        ensures same { IfOk result (λ server. (server.blank.limit ≡ self.blank.limit) × (server.clients ≡ self.clients) × (server.places ≡ self.places)) }
        ensures kept { IfOk result (λ server. server.kept ≡ self.kept) }
    {
        let Server {
            alloc,
            listener,
            blank,
            places,
            clients,
            idle,
            waiting,
            topics,
            memory,
            metrics: _before,
            kept,
        } = self;
        match MetricsServer::bind(rt, alloc, address) {
            Ok(metrics) => Ok(Server {
                alloc,
                listener,
                blank,
                places,
                clients,
                idle,
                waiting,
                topics,
                memory,
                metrics: Some(metrics),
                kept,
            }),
            Err(error) => Err(ListenFault::Metrics(error)),
        }
    }

    /// The same server, whose messages this folder keeps. It is made if it is missing. The server begins with the messages that it keeps, and
    /// while it runs, a change is in the folder before anybody is told of it. Until it ends, no other process can have the folder.
    ///
    /// # Errors
    ///
    /// [`Keep`](ListenFault::Keep) if the folder cannot be made, or its files cannot be made, opened or read, are of another program or
    /// version, or damaged, or another process has them, or if the messages are more than the store may hold.
    pub fn with_journal<H: OpenFiles + Files<File = fs::File> + Clock>(
        self,
        rt: &H,
        folder: &str,
        sync: SyncPolicy,
    ) -> Result<Server, ListenFault>
        ensures same { IfOk result (λ server. (server.blank.limit ≡ self.blank.limit) × (server.clients ≡ self.clients) × (server.places ≡ self.places)) }
    {
        let Server {
            alloc,
            listener,
            blank,
            places,
            clients,
            idle,
            waiting,
            topics,
            memory,
            metrics,
            kept: _before,
        } = self;
        let kept = open_folder(rt, alloc, folder, sync)?;
        check_limits(kept.given(), topics, memory)?;
        Ok(Server {
            alloc,
            listener,
            blank,
            places,
            clients,
            idle,
            waiting,
            topics,
            memory,
            metrics,
            kept: Some(kept),
        })
    }

    /// The address that was bound for metrics, with its port, if one was.
    ///
    /// # Errors
    ///
    /// [`Metrics`](ListenFault::Metrics) if the system does not tell it, or memory is refused.
    pub fn metrics_address(&self) -> Result<Option<String>, ListenFault> {
        let Some(metrics) = &self.metrics else {
            return Ok(None);
        };
        match metrics.address() {
            Ok(address) => Ok(Some(address)),
            Err(error) => Err(ListenFault::Metrics(error)),
        }
    }

    /// Serves clients, until all connections were accepted and have ended. Each client has a line of its own to the store's writer.
    ///
    /// With as many clients as places, each client has a thread. If a client's thread cannot be started, the caller's thread serves it and
    /// those behind it, one after the other. With more clients, each place has a lane of threads, and the clients are in the lanes by turns.
    /// If no thread can be started for a lane, the threads of the lanes before serve its clients too. If the process may have fewer
    /// descriptors than so many clients need, fewer are served at the same time, but more than there are places. A fault of a connection
    /// ends that connection alone. Once the last connection was accepted, clients that have none may need up to a second to end.
    ///
    /// The log of `rt` has a line when each connection begins, and one that says how it ended and what it was refused, one when the store is
    /// full or lacks memory, one when it takes new topics or messages again, and before them all a warning if there are too few descriptors, or
    /// if too few clients may wait to be accepted.
    ///
    /// With a folder that keeps the messages, the log tells at the start how many these are, later how the disk fares, and when what is kept
    /// was shortened.
    ///
    /// The number of changes is that of a run of the store with so many clients, as [`run_store`](rs_places::run_store) says it, which began
    /// with what the folder kept. The clause is weak: any number meets it, since it says nothing of what the clients sent.
    ///
    /// # Errors
    ///
    /// [`NoMemory`](ListenFault::NoMemory) if memory is refused for the store, the queue, the gates or the threads,
    /// [`NoThread`](ListenFault::NoThread) if the thread of the store's writer, that of the first client or the first lane, that for metrics
    /// or that which syncs cannot be started, [`Address`](ListenFault::Address) if the descriptors are refused by which clients are watched, or
    /// by which one of these threads is ended. Then no client was served, but no clause says so.
    pub fn run<H: Clock + Log + Threads + Wait + Copy + Send + Sync + 'static>(
        self,
        rt: H,
    ) -> Result<Summary, ListenFault>
        ensures run { IfOk result (λ summary. (before : List Connections) × (after : List Connections) × (version : ℕ) × (cause : Cause)
            × IsStoreRun (most_held_in self.kept) self.blank.limit summary.clients (first_in self.kept) before after version summary.changes cause) }
        ensures alone { IfOk result (λ summary. self.clients ≤ self.places → summary.clients ≡ self.places) }
        ensures more { IfOk result (λ summary. self.places < self.clients
            → (self.places < summary.clients) × (summary.clients ≤ self.clients)) }
    {
        let Server {
            alloc,
            listener,
            blank,
            places,
            clients,
            idle,
            waiting,
            topics,
            memory,
            metrics: server,
            kept,
        } = self;
        let alone = u16::from(places.get());
        let others = descriptors_to_tell(&server).saturating_add(descriptors_to_keep(&kept));
        let lines = line_count(&rt, clients, alone, others);
        let limits = Limits {
            clients: u64::from(lines.get()),
            topics: u64::from(topics.get()),
            bytes: memory,
        };
        tell_of_waiting(&rt, lines.get(), waiting);
        tell_of_kept(&rt, &kept);
        let end = serve_lines(
            rt, alloc, listener, blank, topics, kept, lines, alone, idle, limits, server,
        )?;
        Ok(Summary {
            threads: end.threads,
            clients: lines.get(),
            changes: end.changes,
        })
    }
}

/// Serves clients by so many lines.
fn serve_lines<H: Clock + Log + Threads + Wait + Copy + Send + Sync + 'static>(
    rt: H,
    alloc: Global,
    listener: Arc<Listener>,
    blank: Blank,
    topics: TopicLimit,
    kept: Option<KeptFolder>,
    lines: LineCount,
    places: u16,
    idle: Option<Duration>,
    limits: Limits,
    server: Option<MetricsServer>,
) -> Result<StoreEnd<ListenTurn<H>>, ListenFault>
    requires { topics ≡ blank.limit }
    ensures { IfOk result (λ end. (before : List Connections) × (after : List Connections)
        × IsStoreRun (most_held_in kept) blank.limit lines (first_in kept) before after end.version end.changes end.cause) }
{
    let (ready, state) = prepare_kept(
        rt, alloc, listener, &kept, lines, places, idle, limits, server,
    )?;
    let (queue, turns, runner, telling) = ready;
    serve(
        rt, alloc, blank, topics, kept, state, queue, turns, runner, telling,
    )
}

/// Makes ready to serve so many clients, and to tell how the journal fares.
fn prepare_kept<H: Clock + Log + Threads + Wait + Copy + Send + Sync + 'static>(
    rt: H,
    alloc: Global,
    listener: Arc<Listener>,
    kept: &Option<KeptFolder>,
    lines: LineCount,
    places: u16,
    idle: Option<Duration>,
    limits: Limits,
    server: Option<MetricsServer>,
) -> Result<(Ready<H>, Arc<JournalState>), ListenFault>
    ensures { IfOk result (λ r. (r.0.0.places ≡ lines) × (length r.0.1.items ≡ lines)) }
{
    let metrics = new_metrics(&rt, alloc, &server, limits)?;
    let state = new_state(alloc, &metrics, kept)?;
    let journal = new_journal_log(kept, &state)?;
    let ready = prepare(
        rt, alloc, listener, lines, places, idle, metrics, journal, server,
    )?;
    Ok((ready, state))
}

/// How many descriptors are needed to keep messages. None, if none are kept.
fn descriptors_to_keep(kept: &Option<KeptFolder>) -> u8 {
    match kept {
        Some(kept) => kept.descriptors(),
        None => 0,
    }
}

/// How a journal fares that is opened and not used yet. If there is one, the metrics have its numbers from now on.
fn new_state(
    alloc: Global,
    metrics: &Option<Arc<Metrics>>,
    kept: &Option<KeptFolder>,
) -> Result<Arc<JournalState>, AllocError> {
    let state = JournalState::new(JournalMeter::new(share(metrics)?));
    if let Some(kept) = kept {
        state.show(first_numbers(kept.page_count()));
    }
    Arc::new(alloc, state).map_err(|_| AllocError)
}

/// What the log is told of the journal, if there is one.
fn new_journal_log(
    kept: &Option<KeptFolder>,
    state: &Arc<JournalState>,
) -> Result<Option<JournalLog>, AllocError> {
    match kept {
        Some(_) => Ok(Some(JournalLog::new(Arc::try_clone(state)?))),
        None => Ok(None),
    }
}

/// Says how many topics the folder keeps, and how many bytes their messages count.
fn tell_of_kept<H: Clock + Log>(rt: &H, kept: &Option<KeptFolder>) {
    let Some(kept) = kept else {
        return;
    };
    let given = kept.given();
    let (time, topics, bytes) = (SystemClock::new().now(rt), given.len(), bytes_of_all(given));
    info!(rt; target: "rstored", "{time} the folder keeps {topics} topics, {bytes} bytes");
}

/// What is there before the first client is served: the queue of the store, a turn for each client, what serves them, and the thread that
/// tells the numbers.
type Ready<H> = (
    BlankQueue,
    Vec<FreeTurn<ListenTurn<H>>>,
    Runner<SocketWatch<H>>,
    Option<Telling>,
);

/// Makes ready to serve so many clients.
fn prepare<H: Clock + Log + Threads + Wait + Copy + Send + Sync + 'static>(
    rt: H,
    alloc: Global,
    listener: Arc<Listener>,
    lines: LineCount,
    places: u16,
    idle: Option<Duration>,
    metrics: Option<Arc<Metrics>>,
    journal: Option<JournalLog>,
    server: Option<MetricsServer>,
) -> Result<Ready<H>, ListenFault>
    ensures { IfOk result (λ ready. (ready.0.places ≡ lines) × (length ready.1.items ≡ lines)) }
{
    let queue = blank_queue(alloc, lines)?;
    let full = FullLog::new(queue.fullness()?, journal);
    let queue = queue
        .with_polls(time_polls(&rt, alloc))
        .with_metrics(share(&metrics)?);
    let word = if lines.get() > places {
        ClientWord::Client
    } else {
        ClientWord::Place
    };
    let turns = turns(
        rt,
        alloc,
        Arc::try_clone(&listener)?,
        full,
        lines,
        word,
        &metrics,
    )?;
    let runner = make_runner(rt, alloc, listener, lines.get(), places, idle)?;
    let telling = start_telling(rt, alloc, server, metrics)?;
    Ok((queue, turns, runner, telling))
}

/// Warns if fewer clients may wait to be accepted than are served at the same time. If all connect at once, the system drops the packets of
/// some, which try again a second later.
fn tell_of_waiting<H: Log>(rt: &H, clients: u16, waiting: u64) {
    if waiting < u64::from(clients) {
        warn!(rt; target: "rstored", "{clients} clients may connect at once, and net.core.somaxconn lets {waiting} wait");
    }
}

/// What serves the clients: a thread for each, if there are as many as places, and otherwise a lane for each place.
fn make_runner<H: Clock + Wait + Copy>(
    rt: H,
    alloc: Global,
    listener: Arc<Listener>,
    clients: u16,
    places: u16,
    idle: Option<Duration>,
) -> Result<Runner<SocketWatch<H>>, ListenFault> {
    if clients <= places {
        return Ok(Runner::OneEach);
    }
    let lanes = usize::from(places);
    let watch = SocketWatch::new(rt, alloc, listener, lanes, clients, idle)?;
    Ok(Runner::Lanes { lanes, watch })
}

/// How many clients are to be served: as many as asked for and there may be lines, but at least one for each place.
fn wanted_clients(clients: u16, places: u16) -> u16
    requires { places < MAX_LINES }
    ensures alone { clients ≤ places → result ≡ places }
    ensures more { places < clients → (places < result) × (result ≤ clients) }
    ensures least { places ≤ result }
    ensures small { result ≤ MAX_LINES }
{
    if clients <= places {
        places
    } else if clients <= MAX_LINES {
        clients
    } else {
        MAX_LINES
    }
}

/// How many clients are served, each with a line: as many as wanted, or fewer if there are too few descriptors. To tell numbers and to keep
/// messages takes `told` of these.
fn line_count<H: Log>(rt: &H, clients: u16, places: u16, told: u8) -> LineCount
    requires some { 0 < places }
    requires small { places < MAX_LINES }
    ensures alone { clients ≤ places → result ≡ places }
    ensures more { places < clients → (places < result) × (result ≤ clients) }
{
    let wanted = wanted_clients(clients, places);
    let Some(lines) = LineCount::new(affordable(rt, wanted, places, told)) else {
        unreachable!()
    };
    lines
}

/// How many descriptors are needed beside those of the clients: four for the listener and the standard streams, and if there are more
/// clients than places, one for each place and one more, by which clients are watched. To tell numbers and to keep messages takes `told`
/// more.
fn other_descriptors(clients: u16, places: u16, told: u8) -> u64
    ensures more { places < clients → result ≡ places + 5 + told }
    ensures no_more { clients ≤ places → result ≡ 4 + told }
{
    if clients > places {
        u64::from(places) + 5 + u64::from(told)
    } else {
        4 + u64::from(told)
    }
}

/// How many of these clients are served: all, or if there are more than places, as many as the process has descriptors for, and still more
/// than there are places. If it has too few, the log has a warning. Each client that waits is given a connection, so the accepts of more
/// would fail all the time.
fn affordable<H: Log>(rt: &H, clients: u16, places: u16, told: u8) -> u16
    ensures most { result ≤ clients }
    ensures more { places < clients → places < result }
    ensures no_more { clients ≤ places → result ≡ clients }
{
    let others = other_descriptors(clients, places, told);
    let needed = u64::from(clients) + others;
    let limit = descriptor_limit().unwrap_or(u64::MAX);
    if limit >= needed {
        return clients;
    }
    warn!(rt; target: "rstored", "{clients} clients need {needed} descriptors, and the process may have {limit}");
    if clients <= places {
        return clients;
    }
    u16::try_from(limit.saturating_sub(others))
        .unwrap_or(clients)
        .max(places.saturating_add(1))
}
