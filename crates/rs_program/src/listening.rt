//! Clients by TCP.

use crate::words::Keep;
use log::sink::Console;
use log::{LevelFilter, Logged};
use rs_tcp_server::{ListenFault, OpenFiles, Server, Settings, Summary};
use std::fs;
use std::net::{Net, TcpListener, TcpStream};
use std::rt::Files;
use std::sync::Wait;
use std::thread::Threads;
use std::time::Clock;

/// Serves clients by TCP until so many have connected. The address is printed before the first is accepted, and then that of `metrics`, if
/// it is given: there is told what is counted. If `keep` is given, its folder keeps the messages. With `log`, lines about each connection and
/// the store are written to standard error.
///
/// # Errors
///
/// If the address cannot be bound, the folder does not keep the messages, or memory or threads are refused. No client was served.
pub(crate) fn listen<H>(
    rt: &H,
    address: &str,
    metrics: Option<String>,
    keep: Option<Keep>,
    settings: Settings,
    log: bool,
) -> Result<Summary, ListenFault>
where
    H: Clock
        + Net<Listener = TcpListener, Stream = TcpStream>
        + Threads
        + Files<File = fs::File>
        + OpenFiles
        + Wait
        + AllocGlobal
        + Print
        + Eprint
        + Copy
        + Send
        + Sync
        + 'static,
{
    let connections = settings.connections;
    // By the plain handle, since the one that logs looks up no name.
    let server = Server::bind(rt, rt.alloc(), address, settings)?;
    let server = match keep {
        Some(Keep { folder, sync }) => server.with_journal(rt, folder.as_str(), sync)?,
        None => server,
    };
    let server = match metrics {
        Some(metrics) => server.with_metrics(rt, metrics.as_str())?,
        None => server,
    };
    let bound = server.address()?;
    let told = server.metrics_address()?;
    // If nobody reads the output, clients are served all the same.
    let _ = println!(rt; "rstored: listening on {bound}");
    if let Some(told) = told {
        let _ = println!(rt; "rstored: metrics on {told}");
    }
    let summary = server.run(logged(rt, log))?;
    let _ = println!(rt; "rstored: served {connections}");
    Ok(summary)
}

/// The handle, which logs to standard error if it is to.
fn logged<H: Copy>(rt: &H, log: bool) -> Logged<H, Console<H>> {
    let level = if log {
        LevelFilter::Info
    } else {
        LevelFilter::Off
    };
    Logged::new(*rt, level, Console(*rt))
}
