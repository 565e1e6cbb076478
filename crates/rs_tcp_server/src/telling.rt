//! The thread that tells the numbers of a server.

use crate::fault::ListenFault;
use rs_metrics::{Limits, Metrics};
use rs_metrics_server::{MAX_DESCRIPTORS, MetricsServer};
use rs_tcp_sockets::{StopSignal, SystemClock};
use std::alloc::{AllocError, Global};
use std::sync::Arc;
use std::thread::{Builder, JoinHandle, Threads};
use std::time::Clock;

/// The stack of the thread, in bytes. It needs far less; the default is 8 MiB of address space.
const STACK: usize = 256 * 1024;

/// A thread that tells numbers.
#[derive(Drop)]
pub(crate) struct Telling {
    stop: Arc<StopSignal>,
    thread: JoinHandle<bool>,
}

/// How many descriptors are needed to tell numbers. None, if nobody is told any.
pub(crate) fn descriptors_to_tell(server: &Option<MetricsServer>) -> u8 {
    if server.is_some() { MAX_DESCRIPTORS } else { 0 }
}

/// The numbers of a server that begins now, if they are told.
pub(crate) fn new_metrics<H: Clock>(
    rt: &H,
    alloc: Global,
    server: &Option<MetricsServer>,
    limits: Limits,
) -> Result<Option<Arc<Metrics>>, AllocError> {
    if server.is_none() {
        return Ok(None);
    }
    let metrics = Metrics::new(alloc, limits, SystemClock::new().now(rt))?;
    Ok(Some(Arc::new(alloc, metrics).map_err(|_| AllocError)?))
}

/// Starts the thread that tells the numbers, if there are any.
pub(crate) fn start_telling<H: Clock + Threads + Copy + Send + 'static>(
    rt: H,
    alloc: Global,
    server: Option<MetricsServer>,
    metrics: Option<Arc<Metrics>>,
) -> Result<Option<Telling>, ListenFault> {
    let (Some(server), Some(metrics)) = (server, metrics) else {
        return Ok(None);
    };
    let stop = Arc::new(alloc, StopSignal::new()?).map_err(|_| AllocError)?;
    let end = Arc::try_clone(&stop)?;
    let tell = move || server.run(&rt, &metrics, &end).is_ok();
    match Builder::new().stack_size(STACK).spawn(&rt, tell) {
        Ok(thread) => Ok(Some(Telling { stop, thread })),
        Err(_) => Err(ListenFault::NoThread),
    }
}

/// Ends the thread, and waits for that.
pub(crate) fn end_telling<H: Threads>(rt: &H, telling: Option<Telling>) {
    if let Some(Telling { stop, thread }) = telling {
        stop.send();
        thread.join(rt);
    }
}
