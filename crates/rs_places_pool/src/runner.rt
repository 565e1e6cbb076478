//! Who serves the clients: a thread for each, or a few threads for all.

use crate::client::Client;
use crate::each::serve_each;
use crate::threads::serve_clients;
use crate::watch::Watch;
use std::alloc::{AllocError, Global};
use std::sync::Wait;
use std::thread::Threads;

/// Serves clients until all are done.
#[derive(Drop)]
pub enum Runner<W> {
    /// By a thread for each, which makes its steps one after the other.
    ///
    /// If a client's thread cannot be started, the caller's thread serves it and all behind it, one after the other. If that is the first
    /// client, none is served.
    OneEach,
    /// By two threads for each of so many lanes, and by more while these are held up.
    ///
    /// There is one lane at least, and no more than clients: the first client is in the first lane, and so on, and after the last lane comes
    /// the first again. If no thread can be started for a lane, it and those behind it have none, and the threads of those before serve
    /// their clients too. If that is the first lane, no client is served. A lane has at most as many threads as it has clients, and one.
    Lanes {
        /// How many.
        lanes: usize,
        /// Tells which clients of these lanes have something to do.
        watch: W,
    },
}

impl<W> Runner<W> {
    /// Serves these clients until all are done. How many threads there were for them, or how many lanes with threads: 0 if there are no
    /// clients, or if no thread could be started. Then no client was served, and all are dropped.
    ///
    /// # Errors
    ///
    /// Out of memory. No client was served, and all are dropped.
    pub fn serve<
        C: Client<H> + Send + Drop + 'static,
        H: Threads + Wait + Copy + Send + Sync + 'static,
    >(self, rt: H, alloc: Global, clients: Vec<C>) -> Result<usize, AllocError>
    where
        W: Watch<C::In> + Send + Sync + Drop + 'static,
    {
        match self {
            Runner::OneEach => serve_each(rt, alloc, clients),
            Runner::Lanes { lanes, watch } => serve_clients(rt, alloc, clients, lanes, watch),
        }
    }
}
