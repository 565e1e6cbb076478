//! A thread for each client.

use crate::client::Client;
use std::alloc::{AllocError, Global};
use std::sync::Wait;
use std::thread::{JoinHandle, SpawnError, Threads, spawn};

/// Makes the steps of the client until it is done.
fn serve_client<C: Client<H> + Drop, H: Wait>(rt: &H, alloc: Global, client: C) {
    let mut client = client;
    for _ in rt.forever() {
        let Some(next) = client.step(rt, alloc) else {
            return;
        };
        client = next;
    }
}

/// Starts a thread for each client, up to the first whose thread cannot be started. If that is not the first of all, this thread serves it
/// and those behind it.
fn start_each<
    C: Client<H> + Send + Drop + 'static,
    H: Threads + Wait + Copy + Send + Sync + 'static,
>(rt: H, alloc: Global, clients: Vec<C>) -> Result<Vec<JoinHandle<()>>, AllocError> {
    let mut threads = Vec::with_capacity(alloc, clients.len())?;
    let mut is_here = false;
    for client in clients {
        let serve = move || {
            // Moved before the handle is lent.
            let client = client;
            serve_client(&rt, alloc, client)
        };
        if is_here {
            serve();
            continue;
        }
        match spawn(&rt, serve) {
            Ok(thread) => {
                let _ = threads.push(thread);
            }
            Err(SpawnError { value: serve }) => {
                if threads.is_empty() {
                    break;
                }
                is_here = true;
                serve();
            }
        }
    }
    Ok(threads)
}

/// Serves these clients until all are done, each by a thread of its own: how many threads.
///
/// If a client's thread cannot be started, this one serves the client and those behind it, unless it is the first: then none is served.
pub(crate) fn serve_each<
    C: Client<H> + Send + Drop + 'static,
    H: Threads + Wait + Copy + Send + Sync + 'static,
>(rt: H, alloc: Global, clients: Vec<C>) -> Result<usize, AllocError> {
    let threads = start_each(rt, alloc, clients)?;
    let count = threads.len();
    for thread in threads {
        thread.join(&rt);
    }
    Ok(count)
}
