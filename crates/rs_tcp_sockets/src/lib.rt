//! TCP connections, as a server of replies needs them.
//!
//! [`Listener`] binds an address, and gives connections to many threads, up to a number in all. Of a
//! connection it makes two halves, [`FromClient`] and [`ToClient`], each owned, which may go to any thread.
//! [`close`] ends a connection so that the client can still read what was written last.
//!
//! Replies are gathered: what is written and flushed waits, up to [`MAX_GATHERED`] bytes, and goes out in
//! one write if more would not fit, before the next read of the same connection, and at its end.
//! If the client may soon answer that, the read polls the socket for some microseconds before it blocks ([`Polling`], [`ReadPatience`]).
//! A connection may have a limit for how long it is idle; at one that failed, [`abandon`] waits for nothing.
//!
//! A few threads can watch many connections by an [`Epoll`], which tells them which have something to read. A [`StopSignal`] ends that.
//! [`SocketWatch`] tells by it which clients of a server have something to do: those whose connection can be read, or was idle for too
//! long, and those that can accept a connection, or get none any more. It is a [`Watch`](rs_places_pool::Watch), which asks for no more
//! than that each client is served by one thread at a time, whatever is told.
//!
//! The two halves are [`ReadHalf`] and [`WriteHalf`], over any reader and any writer, whose contracts say which bytes
//! they give and take: [`split`] begins with those of the reader and of the writer, and a writer that
//! [`finish`] gives back holds all that was written, in order. So a server whose contract is over any reader
//! and any writer keeps it over the halves.
//!
//! The contracts do not say what a socket gives or takes, what the system tells, that anything is sent, or that a call returns.
#![tactic(auto)]

mod clock;
mod closing;
mod connection;
mod descriptors;
mod epoll;
mod free_clients;
mod gathered;
mod halves;
mod limits;
mod listener;
mod patience;
mod polling;
mod sharing;
mod splitting;
mod stream;
mod watched;
mod watched_clients;
mod watching;

pub use clock::SystemClock;
pub use connection::{FromClient, ToClient, abandon, close, descriptor, open, set_read_limit};
pub use descriptors::descriptor_limit;
pub use epoll::{Epoll, MAX_TOLD, StopSignal};
pub use gathered::Gathered;
pub use halves::{ReadHalf, WriteHalf};
pub use limits::{
    BACKLOG, DISCARD_SECONDS, FIRST_PAUSE, LONGEST_PAUSE, MAX_DISCARDED, MAX_GATHERED,
};
pub use listener::{Accepted, Listener, waiting_limit};
pub use patience::{MOST_IN_VAIN, POLL_EVERY, READ_POLLS, ReadPatience, SHORT_READ};
pub use polling::{Pollable, Pollers, Polling};
pub use splitting::{finish, split};
pub use stream::SharedStream;
pub use watching::SocketWatch;
