//! The program `rstored`.

ghost use Rattle.std.specs.Prelude.{◌≡◌, IfOk, Result};
ghost use Rattle.rs_program.specs.CommandLine.{IsInRange};
ghost use Rattle.rs_program.specs.Statuses.{fault_status, run_status, server_outcome};
ghost use Rattle.rs_program.specs.declared.program.RunFault.{RunFault};

use crate::listening::listen;
use crate::words::{Run, WordsFault, read_words, refused};
use rs_program_pipe::{OwnGate, PipeFault, pipe};
use rs_server::Served;
use rs_tcp_server::{KeepFault, ListenFault, OpenFiles, Settings, Summary};
use std::alloc::Global;
use std::env::Env;
use std::io::{ErrorKind, Read, Write};
use std::net::{Net, TcpListener, TcpStream};
use std::rt::Files;
use std::sync::Wait;
use std::thread::Threads;
use std::time::{Clock, Duration};
use std::{env, fs};
use thiserror::Error;

/// Why the program did not serve what it was asked to.
#[derive(Debug, Drop, Error)]
pub enum RunFault {
    /// The command line asks for no run.
    #[error("{0}")]
    Words(WordsFault),
    /// The connection was broken off.
    #[error("{0}")]
    Pipe(PipeFault),
    /// No client can be served, and why, if it is to be told.
    #[error("cannot listen")]
    Listen(Option<ListenFault>),
    /// The folder does not keep the messages, and why, if it is to be told. No client was served.
    #[error("cannot keep")]
    Keep(Option<KeepFault>),
    /// All connections were served, by fewer threads than were asked for, at each place one.
    #[error("{threads} of {places} places had a thread")]
    FewThreads {
        /// How many places had a thread.
        threads: usize,
        /// How many were to.
        places: u8,
    },
    /// All connections were served, but fewer at the same time than were asked for.
    #[error("{served} of {clients} clients could be served at the same time")]
    FewClients {
        /// How many clients could be served at the same time.
        served: u16,
        /// How many were to be.
        clients: u16,
    },
    /// All connections were served, but it is not known that the store took all changes.
    #[error("not all changes are known to be taken")]
    Unsettled,
}

impl RunFault {
    /// The exit status: that of the fault.
    pub fn status(&self) -> u8
        ensures { result ≡ fault_status self.now }
    {
        match self {
            RunFault::Words(fault) => fault.status(),
            RunFault::Pipe(fault) => fault.status(),
            RunFault::Listen(_)
            | RunFault::Keep(_)
            | RunFault::FewThreads { .. }
            | RunFault::FewClients { .. }
            | RunFault::Unsettled => 1,
        }
    }
}

/// Runs the program by its command line, and gives its exit status: 0 if the connection or all connections ended, or help was asked
/// for, 1 if no client can be served or a folder does not keep the messages, a place had no thread, fewer clients could be served at the same
/// time than were asked for, not all changes are known to be taken, or reading, writing or memory failed, 2 if the command line or a line
/// of the input is refused.
///
/// `pipe` is over this input and output. All else that is printed, help, faults and the lines of `listen`, goes to the standard
/// streams of `rt`.
pub fn run<H, I: Read + Drop, W: Write + Drop>(rt: &H, input: I, output: W) -> u8
where
    H: Clock
        + Net<Listener = TcpListener, Stream = TcpStream>
        + Threads
        + Files<File = fs::File>
        + OpenFiles
        + Wait
        + Env
        + AllocGlobal
        + Print
        + Eprint
        + Copy
        + Send
        + Sync
        + 'static,
    ensures { (outcome : Result (Unit {0}) RunFault) × (result ≡ run_status outcome) }
{
    match run_command(rt, input, output) {
        Ok(()) => 0,
        Err(fault) => {
            report(rt, &fault);
            fault.status()
        }
    }
}

fn run_command<H, I: Read + Drop, W: Write + Drop>(
    rt: &H,
    input: I,
    output: W,
) -> Result<(), RunFault>
where
    H: Clock
        + Net<Listener = TcpListener, Stream = TcpStream>
        + Threads
        + Files<File = fs::File>
        + OpenFiles
        + Wait
        + Env
        + AllocGlobal
        + Print
        + Eprint
        + Copy
        + Send
        + Sync
        + 'static,
{
    match read_command_line(rt) {
        Ok(Run::Pipe { hex, at }) => match pipe_once(rt, rt.alloc(), input, output, hex, at) {
            Ok(_served) => Ok(()),
            Err(fault) => Err(RunFault::Pipe(fault)),
        },
        Ok(
            Run::Listen {
                address,
                places,
                clients,
                topics,
                memory,
                connections,
                idle,
                log,
                metrics,
                keep,
            },
        ) => {
            let settings = Settings {
                // No server comes to the end of so many.
                connections: connections.unwrap_or(u64::MAX),
                topics,
                memory,
                places,
                clients,
                idle: idle.map(Duration::from_secs),
            };
            match listen(rt, address.as_str(), metrics, keep, settings, log) {
                Ok(summary) => server_outcome(summary, places.get(), clients),
                Err(ListenFault::Keep(fault)) => Err(RunFault::Keep(log.then_some(fault))),
                Err(fault) => Err(RunFault::Listen(log.then_some(fault))),
            }
        }
        Err(fault) => Err(RunFault::Words(fault)),
    }
}

/// Whether a server ended as it should: each place had a thread, as many clients as were to be could be served at the same time, and all
/// changes are settled.
fn server_outcome(summary: Summary, places: u8, clients: u16) -> Result<(), RunFault>
    ensures { result ≡ server_outcome summary.threads summary.clients summary.changes places clients }
{
    let Summary {
        threads,
        clients: served,
        changes,
    } = summary;
    if changes.is_none() {
        return Err(RunFault::Unsettled);
    }
    if threads < usize::from(places) {
        return Err(RunFault::FewThreads { threads, places });
    }
    if served < clients {
        return Err(RunFault::FewClients { served, clients });
    }
    Ok(())
}

/// What the command line asks for.
fn read_command_line<H: Env + AllocGlobal>(rt: &H) -> Result<Run, WordsFault>
    ensures range { IfOk result IsInRange }
{
    let words = match env::args(rt) {
        Ok(words) => words,
        Err(error) if error.kind() == ErrorKind::OutOfMemory => return Err(WordsFault::NoMemory),
        Err(_) => return Err(refused(rt.alloc(), "error: the command line is not UTF-8\n")),
    };
    let Ok(words) = words.skip(1).collect::<Vec<String>>(rt.alloc()) else {
        return Err(WordsFault::NoMemory);
    };
    read_words(rt.alloc(), words.as_slice())
}

/// Help goes to standard output, and all else to standard error.
fn report<H: Print + Eprint>(rt: &H, fault: &RunFault) {
    let _ = match fault {
        RunFault::Words(WordsFault::Help(text)) => print!(rt; "{text}"),
        RunFault::Words(WordsFault::Refused(text)) => eprint!(rt; "{text}"),
        RunFault::Words(WordsFault::NoMemory) => eprintln!(rt; "rstored: out of memory"),
        RunFault::Listen(Some(reason)) => eprintln!(rt; "rstored: {fault}\nrstored: {reason}"),
        RunFault::Keep(Some(reason)) => eprintln!(rt; "rstored: {fault}\nrstored: {reason}"),
        RunFault::Pipe(_)
        | RunFault::Listen(None)
        | RunFault::Keep(None)
        | RunFault::FewThreads { .. }
        | RunFault::FewClients { .. }
        | RunFault::Unsettled => eprintln!(rt; "rstored: {fault}"),
    };
}

/// One connection over an empty store of its own.
fn pipe_once<H: Wait, I: Read + Drop, W: Write + Drop>(
    rt: &H,
    alloc: Global,
    input: I,
    output: W,
    hex: bool,
    at: u64,
) -> Result<Served, PipeFault> {
    let Ok(gate) = OwnGate::new(alloc) else {
        return Err(PipeFault::NoMemory);
    };
    pipe(rt, alloc, input, output, gate, hex, at).served
}
