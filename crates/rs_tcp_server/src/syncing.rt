//! The thread that syncs a journal each second.

use crate::fault::ListenFault;
use crate::journal_state::{JournalState, Reason};
use rs_tcp_sockets::{Epoll, StopSignal};
use std::alloc::{AllocError, Global};
use std::fs::File;
use std::os::fd::AsRawFd;
use std::sync::Arc;
use std::thread::{Builder, JoinHandle, Threads};
use std::time::{Clock, Duration};
use std::{io, thread};

/// The stack of the thread, in bytes. It needs far less; the default is 8 MiB of address space.
const STACK: usize = 256 * 1024;

/// How many seconds it waits between two syncs.
const PAUSE: u64 = 1;

/// How many descriptors the thread needs beside its file: that of the stop, and one by which it waits.
pub(crate) const THREAD_DESCRIPTORS: u8 = 2;

/// A thread that syncs.
#[derive(Drop)]
pub(crate) struct Syncing {
    stop: Arc<StopSignal>,
    thread: JoinHandle<()>,
}

/// Starts the thread that syncs this file each second, and once more at its end. If a sync fails, it ends, and the journal takes no more.
pub(crate) fn start_syncing<H: Clock + Threads + Copy + Send + 'static>(
    rt: H,
    alloc: Global,
    file: File,
    state: Arc<JournalState>,
) -> Result<Syncing, ListenFault> {
    let waiting = Epoll::new()?;
    let stop = Arc::new(alloc, StopSignal::new()?).map_err(|_| AllocError)?;
    waiting.ask_always(stop.as_raw_fd(), 0)?;
    let sync = move || sync_each_second(&rt, &file, &state, &waiting);
    match Builder::new().stack_size(STACK).spawn(&rt, sync) {
        Ok(thread) => Ok(Syncing { stop, thread }),
        Err(_) => Err(ListenFault::NoThread),
    }
}

/// Syncs what was written each second, until the stop is sent.
fn sync_each_second<H: Clock>(rt: &H, file: &File, state: &JournalState, waiting: &Epoll) {
    for _ in 0..u64::MAX {
        let is_over = wait(rt, waiting);
        if state.take_written() && !sync(file, state) {
            break;
        }
        if is_over {
            break;
        }
    }
}

/// Syncs the file. If that fails, the journal takes no more changes.
fn sync(file: &File, state: &JournalState) -> bool {
    match file.sync_data() {
        Ok(()) => true,
        Err(error) => {
            state.fail(Reason::from(error));
            false
        }
    }
}

/// Waits for a second, or until the stop is sent, and tells whether it was.
fn wait<H: Clock>(rt: &H, waiting: &Epoll) -> bool {
    match waiting.wait(&mut [0], Some(Duration::from_secs(PAUSE))) {
        Ok(told) => told > 0,
        Err(_) => {
            thread::sleep(rt, Duration::from_secs(PAUSE));
            false
        }
    }
}

/// Ends the thread once it has synced what was written, and waits for that.
pub(crate) fn end_syncing<H: Threads>(rt: &H, syncing: Syncing) {
    let Syncing { stop, thread } = syncing;
    stop.send();
    thread.join(rt);
}
