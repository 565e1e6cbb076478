//! The commands and their options.

ghost use Rattle.std.specs.Prelude.{◌≡◌, IfOk, false};
ghost use Rattle.clap.specs.Words.{app_of, rule_of};
ghost use Rattle.clap.specs.declared.builder.command.Command.TheViews.{out-Command as fields_of};
ghost use Rattle.rs_program.specs.CommandLine.{address_option, clients_option, connections_option, endless_option, idle_option, keep_option, listen_words, log_option, memory_option, metrics_option, number_option, pipe_words, places_option, rstored_words, sync_option, topics_option};

use clap::builder::ValueParser;
use clap::{Arg, ArgAction, Command};
use rs_message::{MAX_LINES, MAX_PLACES};
use rs_program_pipe::MAX_OWN_TOPICS;
use rs_store::MAX_TOPICS;
use std::alloc::{AllocError, Global};

/// The most clients that are served at the same time: as many as there may be lines.
pub const MAX_CLIENTS: u16 = 10_000;

/// The most connections after which `listen` ends. A choice of this project.
pub const MAX_CONNECTIONS: u64 = 1_000_000;

/// The most seconds for which a connection may be idle, a day. A choice of this project.
pub const MAX_IDLE: u64 = 86_400;

const VERSION: &str = "0.1.0";

const ABOUT: &str =
    "Keeps the retained message of each MQTT 5 topic and answers subscriptions from it";

const PIPE_ABOUT: &str = "Serve one MQTT 5 connection from standard input to standard output";

const PIPE_HELP: &str = "\
Serves one MQTT 5 connection: packets of the client come from standard input, and the replies go to
standard output. It ends when the client disconnects, at a fault, or at the end of the input. Nothing
is kept between two runs.

With --hex both are text: each line of the input is an even number of hex digits (spaces and empty
lines are ignored), and each reply is one line of hex digits.";

const HEX_HELP: &str = "Read and write lines of hex digits instead of raw bytes";

const AT_HELP: &str =
    "The time of every packet, in whole seconds, by which retained messages expire";

const LISTEN_ABOUT: &str = "Serve MQTT 5 clients that connect by TCP";

const LISTEN_HELP: &str = "\
Serves MQTT 5 clients that connect by TCP. All of them share one store of retained messages. The
program prints the address that it listens on. With --connections it ends after that many
connections, however each of them ended, and prints how many they were. With --endless it runs until
a signal ends it. One of the two is required.

Up to --clients clients are served at once, each with a line of its own to the store. Others wait
until one of these has gone. If there are no more clients than --places, each has a thread.
Otherwise they share the places, each of which has a lane of threads. Keep Alive is not enforced:
without --idle, a silent client stays until it disconnects. With --idle, its connection ends if for
that many seconds it sends nothing, or takes nothing of what waits for it. A client that keeps its
Keep Alive is not cut off if --idle is at least one and a half times that interval.

With --log, it writes a line to standard error when a connection begins and when it ends, with the
place of its client (the client's number if there are more clients than places), the number of the
connection, the client's address, how it ended and what it was refused; when the store is full or has
no memory left, and when it takes new topics or messages again; if the process may have too few
descriptors for its clients, or the system lets too few of them wait; how much the folder of --keep
has, when its disk refuses changes or fails, and when it takes them again; and if it cannot listen or
keep, with the reason.

With --metrics, a separate thread answers HTTP requests at that address, which is also printed:
GET /metrics returns what the server counts, for Prometheus, and GET /healthz tells whether its
store's writer runs. The thread serves up to eight requests at once, each for up to five seconds.

Without --keep, the store is in memory alone: it is empty at the start, and lost at the end. With
--keep, a change is in that folder before anybody is told of it, and the server begins with what the
folder has. The folder is made if it is missing, and one server at a time may have it. With --sync
always, a power cut loses nothing that anybody was told. With --sync second it may lose the last
seconds, with --sync never about the last half minute; then changes are acknowledged sooner. If the
process ends or is killed, nothing is lost with any of them. If the disk is full, changes are refused.

With --memory, a message is refused if all messages would then count more bytes. Each counts its
topic, its payload and properties, and 360 more.

There is no TLS, and user names and passwords are not checked. Listen only where every client is
trusted. Whoever reaches the address of the metrics can read them.";

const ADDRESS_HELP: &str =
    "The address to listen on: a host's name, an IPv4 or an IPv6 address, and a port, \
as localhost:1883, 127.0.0.1:1883 or [::1]:1883. Port 0 takes one that is free";

const PLACES_HELP: &str =
    "How many clients read the store at the same time. If there are more clients, as many lanes of threads serve them";

const CLIENTS_HELP: &str =
    "How many clients are served at once, at least as many as places; by default as many";

const TOPICS_HELP: &str = "How many topics may hold a message";

const MEMORY_HELP: &str =
    "How many bytes the messages may count: a number, alone or before K, M or G, as 512M; by default there is no limit";

const KEEP_HELP: &str =
    "The folder that keeps the messages, so that the next start has them; by default none does";

const SYNC_HELP: &str = "\
When a change of the folder is synced to the disk: always, before anybody is told of it; second, each second; \
never, when the system does it; by default always";

const CONNECTIONS_HELP: &str = "After how many connections the program ends";

const ENDLESS_HELP: &str = "Go on until a signal ends the program, instead of --connections";

const IDLE_HELP: &str = "After how many seconds an idle connection ends; by default never";

const LOG_HELP: &str =
    "Write a line to standard error when a connection begins and when it ends, and when the store refuses messages";

const METRICS_HELP: &str =
    "The address at which metrics are served by HTTP, as localhost:9884; by default nowhere";

// The value names `1-64`, `1-10000`, `1-65536`, `1-1000000` and `1-86400` below, and the default of `--topics`, which is the limit of
// `pipe`.
const _: () = prove!(MAX_PLACES == 64);

const _: () = prove!(MAX_CLIENTS == 10_000);

const _: () = prove!(MAX_CLIENTS == MAX_LINES);

const _: () = prove!(MAX_TOPICS == 65_536);

const _: () = prove!(MAX_CONNECTIONS == 1_000_000);

const _: () = prove!(MAX_IDLE == 86_400);

const _: () = prove!(MAX_OWN_TOPICS == 10_000);

/// The command line of `rstored`: both commands with their options.
pub(super) fn command<'a>(alloc: Global) -> Result<Command<'a>, AllocError>
    ensures shape { IfOk result (λ c. app_of c ≡ rstored_words) }
    ensures local { IfOk result (λ c. (fields_of c).has_globals ≡ false) }
{
    Command::new(alloc, "rstored")
        .version(VERSION)
        .about(ABOUT)
        .bin_name("rstored")?
        .no_binary_name(true)
        .subcommand_required(true)
        .disable_help_subcommand(true)
        .subcommand(pipe_command(alloc)?)?
        .subcommand(listen_command(alloc)?)
}

/// An option whose value is a number from `least` to `most`.
fn number_option<'a>(
    alloc: Global,
    name: &'a str,
    value_name: &'a str,
    least: u64,
    most: u64,
) -> Arg<'a>
    ensures rule { rule_of result ≡ number_option name.entry.now least most }
    ensures local { result.global ≡ false }
{
    Arg::new(alloc, name)
        .long(name)
        .value_name(value_name)
        .value_parser(ValueParser::unsigned(least, most))
}

fn pipe_command<'a>(alloc: Global) -> Result<Command<'a>, AllocError>
    ensures shape { IfOk result (λ c. app_of c ≡ pipe_words) }
    ensures local { IfOk result (λ c. (fields_of c).has_globals ≡ false) }
{
    let hex = Arg::new(alloc, "hex")
        .long("hex")
        .action(ArgAction::SetTrue)
        .help(HEX_HELP);
    let at = number_option(alloc, "at", "SECONDS", 0, u64::MAX)
        .required(true)
        .help(AT_HELP);
    Command::new(alloc, "pipe")
        .about(PIPE_ABOUT)
        .long_about(PIPE_HELP)
        .arg(hex)?
        .arg(at)
}

fn address_option<'a>(alloc: Global) -> Arg<'a>
    ensures rule { rule_of result ≡ address_option }
    ensures local { result.global ≡ false }
{
    Arg::new(alloc, "address")
        .long("address")
        .value_name("ADDRESS")
        .required(true)
        .help(ADDRESS_HELP)
}

fn places_option<'a>(alloc: Global) -> Arg<'a>
    ensures rule { rule_of result ≡ places_option }
    ensures local { result.global ≡ false }
{
    number_option(alloc, "places", "1-64", 1, u64::from(MAX_PLACES))
        .default_value("4")
        .help(PLACES_HELP)
}

fn clients_option<'a>(alloc: Global) -> Arg<'a>
    ensures rule { rule_of result ≡ clients_option }
    ensures local { result.global ≡ false }
{
    number_option(alloc, "clients", "1-10000", 1, u64::from(MAX_CLIENTS)).help(CLIENTS_HELP)
}

fn topics_option<'a>(alloc: Global) -> Arg<'a>
    ensures rule { rule_of result ≡ topics_option }
    ensures local { result.global ≡ false }
{
    number_option(alloc, "topics", "1-65536", 1, u64::from(MAX_TOPICS))
        .default_value("10000")
        .help(TOPICS_HELP)
}

fn memory_option<'a>(alloc: Global) -> Arg<'a>
    ensures rule { rule_of result ≡ memory_option }
    ensures local { result.global ≡ false }
{
    Arg::new(alloc, "memory")
        .long("memory")
        .value_name("SIZE")
        .help(MEMORY_HELP)
}

fn keep_option<'a>(alloc: Global) -> Arg<'a>
    ensures rule { rule_of result ≡ keep_option }
    ensures local { result.global ≡ false }
{
    Arg::new(alloc, "keep")
        .long("keep")
        .value_name("FOLDER")
        .help(KEEP_HELP)
}

fn sync_option<'a>(alloc: Global) -> Arg<'a>
    ensures rule { rule_of result ≡ sync_option }
    ensures local { result.global ≡ false }
{
    Arg::new(alloc, "sync")
        .long("sync")
        .value_name("WHEN")
        .help(SYNC_HELP)
}

fn connections_option<'a>(alloc: Global) -> Arg<'a>
    ensures rule { rule_of result ≡ connections_option }
    ensures local { result.global ≡ false }
{
    number_option(alloc, "connections", "1-1000000", 1, MAX_CONNECTIONS).help(CONNECTIONS_HELP)
}

fn endless_option<'a>(alloc: Global) -> Arg<'a>
    ensures rule { rule_of result ≡ endless_option }
    ensures local { result.global ≡ false }
{
    Arg::new(alloc, "endless")
        .long("endless")
        .action(ArgAction::SetTrue)
        .help(ENDLESS_HELP)
}

fn idle_option<'a>(alloc: Global) -> Arg<'a>
    ensures rule { rule_of result ≡ idle_option }
    ensures local { result.global ≡ false }
{
    number_option(alloc, "idle", "1-86400", 1, MAX_IDLE).help(IDLE_HELP)
}

fn log_option<'a>(alloc: Global) -> Arg<'a>
    ensures rule { rule_of result ≡ log_option }
    ensures local { result.global ≡ false }
{
    Arg::new(alloc, "log")
        .long("log")
        .action(ArgAction::SetTrue)
        .help(LOG_HELP)
}

fn metrics_option<'a>(alloc: Global) -> Arg<'a>
    ensures rule { rule_of result ≡ metrics_option }
    ensures local { result.global ≡ false }
{
    Arg::new(alloc, "metrics")
        .long("metrics")
        .value_name("ADDRESS")
        .help(METRICS_HELP)
}

fn listen_command<'a>(alloc: Global) -> Result<Command<'a>, AllocError>
    ensures shape { IfOk result (λ c. app_of c ≡ listen_words) }
    ensures local { IfOk result (λ c. (fields_of c).has_globals ≡ false) }
{
    Command::new(alloc, "listen")
        .about(LISTEN_ABOUT)
        .long_about(LISTEN_HELP)
        .arg(address_option(alloc))?
        .arg(places_option(alloc))?
        .arg(clients_option(alloc))?
        .arg(topics_option(alloc))?
        .arg(memory_option(alloc))?
        .arg(connections_option(alloc))?
        .arg(endless_option(alloc))?
        .arg(idle_option(alloc))?
        .arg(log_option(alloc))?
        .arg(metrics_option(alloc))?
        .arg(keep_option(alloc))?
        .arg(sync_option(alloc))
}
