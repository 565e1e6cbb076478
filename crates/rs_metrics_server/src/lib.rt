//! Answers Prometheus by HTTP: `/metrics` has the text of a server's numbers, `/healthz` says whether its writer takes changes.
//!
//! [`MetricsServer`] binds an address, and one thread runs it until a [`StopSignal`](rs_tcp_sockets::StopSignal) is sent. It serves at most
//! [`MAX_REQUESTS`] connections at once, each for at most [`SECONDS`] in all and with one answer; the others wait in the system's queue. No read
//! and no write of it blocks. It only reads the numbers of [`Metrics`](rs_metrics::Metrics), so nobody waits for it.
//!
//! [`parse_request`] says what the bytes of a request ask for, as far as they have come, and [`write_reply`] writes a reply, both by `http1`. A
//! [`Conversation`] is one connection, over any stream that does not block. The contracts do not say what a socket gives or takes.
//!
//! HEAD is answered like GET, without the body, and a query behind the path does not count. A head that is too long, or has more than 64
//! fields, is answered 431, or 414 if its first line has not ended. What follows the request is discarded. A client that leaves before its
//! request is whole gets no reply. If memory is refused, a connection ends without one; if the clock cannot be read, at once.
#![tactic(auto)]

mod asking;
mod conversation;
mod limits;
mod memory;
mod replying;
mod server;

pub use asking::{Asked, parse_request};
pub use conversation::{Conversation, Wanted};
pub use limits::{MAX_DESCRIPTORS, MAX_DISCARDED, MAX_HEAD, MAX_REQUESTS, SECONDS};
pub use memory::resident_bytes;
pub use replying::{Reply, write_reply};
pub use server::MetricsServer;
