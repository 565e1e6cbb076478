//! A server of retained messages: many clients by TCP, over one store.
//!
//! [`Server::bind`] binds an address and makes an empty store, [`Server::address`] tells the address, and [`Server::run`] serves
//! clients until so many have connected. Each client has a line of its own to the store's writer, which has a thread. With as many clients
//! as places, each client has a thread too. With more, each place has two, and a `SocketWatch` (`rs_tcp_sockets`) tells which clients have
//! something to do. A connection may have a limit for how long it is idle, and the log of the handle has a line when each begins and ends,
//! and when the store is full or lacks memory. [`Server::with_metrics`] lets one more thread tell what is counted meanwhile (`rs_metrics`).
//!
//! [`Server::with_journal`] lets a folder keep the messages: the server begins with what it keeps, and each change is committed to a journal
//! (`rs_journal_writer`) before anybody is told of it. By [`SyncPolicy`] it is synced at each commit, by a thread each second, or never. A
//! [`JournalWatch`] counts the commits, and by a [`JournalState`] it tells the log, the metrics and the writer how the journal fares.
//!
//! The connections of a client are a [`Turn`](rs_places_steps::Turn): [`ListenTurn`] takes the clients of a listener that all turns share, and
//! closes each connection in its way. The lines of a full store are those of [`FullLog`].
//!
//! How clients are served is `run_places` of `rs_places_steps`, and the run of the store is `run_store` or `run_kept_store` of `rs_places`. The
//! contracts of this crate do not say what a socket gives or takes, that a thread runs, or that a call returns.
#![tactic(auto)]

mod close_reason;
mod fault;
mod full_log;
mod journal_log;
mod journal_state;
mod journal_watch;
mod keeping;
mod opening;
mod packet_output;
mod polling;
mod refused;
mod server;
mod serving;
mod syncing;
mod telling;
mod turn;

pub use fault::{KeepFault, ListenFault};
pub use full_log::FullLog;
pub use journal_log::JournalLog;
pub use journal_state::JournalState;
pub use journal_watch::JournalWatch;
pub use keeping::SyncPolicy;
pub use packet_output::PacketOutput;
pub use rs_journal::OpenFiles;
pub use server::{Server, Settings, Summary};
pub use turn::{ClientWord, ConnectionClock, ListenTurn};
