//! The command line.

ghost use Rattle.std.specs.Prelude.{◌≡◌, IfOk, Some, map, true, List};
ghost use Rattle.std.specs.String.{string_bytes};
ghost use Rattle.clap.specs.Words.{Row, Text, has_subcommand, subcommand_rows_of};
ghost use Rattle.rs_program.specs.CommandLine.{AskFor, IsInRange, IsRunOf};
ghost use Rattle.rs_program.specs.Statuses.{words_status};

mod commands;
mod size;
mod values;

use crate::words::commands::command;
pub use crate::words::commands::{MAX_CLIENTS, MAX_CONNECTIONS, MAX_IDLE};
use crate::words::values::{listen_of, pipe_of};
use clap::ArgMatches;
use clap::error::ErrorKind;
use rs_message::PlaceCount;
use rs_store::TopicLimit;
use rs_tcp_server::SyncPolicy;
use std::alloc::Global;
use thiserror::Error;

/// What keeps the messages of a server.
#[derive(Debug, Drop, PartialEq, Eq)]
pub struct Keep {
    /// The folder, as it was given.
    pub folder: String,
    /// When changes are synced to the disk.
    pub sync: SyncPolicy,
}

/// What the command line asks for.
#[derive(Debug, Drop, PartialEq, Eq)]
pub enum Run {
    /// One connection from standard input to standard output.
    Pipe {
        /// Whether bytes are lines of hex digits.
        hex: bool,
        /// The time of every packet, in seconds.
        at: u64,
    },
    /// Connections by TCP.
    Listen {
        /// The address to listen on, as it was given.
        address: String,
        /// How many clients read the store at the same time.
        places: PlaceCount,
        /// How many clients are served at the same time: at least as many as there are places, at most [`MAX_CLIENTS`].
        clients: u16,
        /// How many topics may hold a message.
        topics: TopicLimit,
        /// How many bytes the retained messages may count: at least 1. Any number, if it is not given.
        memory: Option<u64>,
        /// After how many connections the program ends: 1 to [`MAX_CONNECTIONS`]. `None` for no end.
        connections: Option<u64>,
        /// After how many seconds an idle connection ends: 1 to [`MAX_IDLE`]. Never, if it is not given.
        idle: Option<u64>,
        /// Whether lines about each connection are written to standard error.
        log: bool,
        /// The address by which metrics are told, as it was given. To nobody, if it is not given.
        metrics: Option<String>,
        /// What keeps the messages. They are lost at the end, if it is not given.
        keep: Option<Keep>,
    },
}

/// Why the command line asks for no run: help or the version is to be shown, the words are refused, or memory is.
#[derive(Debug, Drop, Error)]
pub enum WordsFault {
    /// Help or the version was asked for: its text.
    #[error("{0}")]
    Help(String),
    /// The words are refused: the text that says why.
    #[error("{0}")]
    Refused(String),
    /// Memory was refused.
    #[error("out of memory")]
    NoMemory,
}

impl WordsFault {
    /// The exit status: 0 for help, 2 for words that are refused, 1 if memory is refused.
    pub fn status(&self) -> u8
        ensures { result ≡ words_status self.now }
    {
        match self {
            WordsFault::Help(_) => 0,
            WordsFault::Refused(_) => 2,
            WordsFault::NoMemory => 1,
        }
    }
}

/// What the words after the program's name ask for.
pub fn read_words(alloc: Global, words: &[String]) -> Result<Run, WordsFault>
    ensures asked { IfOk result (AskFor (map string_bytes words.now)) }
    ensures range { IfOk result IsInRange }
{
    let Ok(command) = command(alloc) else {
        return Err(WordsFault::NoMemory);
    };
    match command.try_get_matches_from(words) {
        Ok(matches) => run_of(alloc, &matches),
        Err(error) => Err(words_fault_of(alloc, error)),
    }
}

fn run_of(alloc: Global, matches: &ArgMatches<'_>) -> Result<Run, WordsFault>
    requires { has_subcommand matches.now ≡ true }
    ensures run { IfOk result (λ run. (name : Text) × (rows : List Row) × (subcommand_rows_of matches.now ≡ Some (name, rows))
        × IsRunOf name rows run) }
    ensures range { IfOk result IsInRange }
{
    let Some((name, found)) = matches.subcommand() else {
        unreachable!()
    };
    if name == "listen" {
        listen_of(alloc, found)
    } else if name == "pipe" {
        pipe_of(alloc, found)
    } else {
        // Never taken: there is no other command. The contract of clap does not say so.
        Err(refused(alloc, "error: no such command\n"))
    }
}

/// Words that are refused, with this text.
pub(crate) fn refused(alloc: Global, text: &str) -> WordsFault {
    match String::from_str(alloc, text) {
        Ok(text) => WordsFault::Refused(text),
        Err(_) => WordsFault::NoMemory,
    }
}

/// What is shown for an error of `clap`, which is also how it answers a request for help.
fn words_fault_of(alloc: Global, error: clap::Error) -> WordsFault {
    if error.kind() == ErrorKind::OutOfMemory {
        return WordsFault::NoMemory;
    }
    match format!(in alloc; "{error}") {
        Ok(text) if error.use_stderr() => WordsFault::Refused(text),
        Ok(text) => WordsFault::Help(text),
        Err(_) => WordsFault::NoMemory,
    }
}
