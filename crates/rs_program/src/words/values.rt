//! The values of a command's options.

ghost use Rattle.std.specs.Prelude.{◌≡◌, ◌<◌, ◌≤◌, ◌^◌, IfOk, IfSome, None, Some, codes, unwrap_or};
ghost use Rattle.std.specs.Option.{option_map};
ghost use Rattle.std.specs.String.{string_bytes};
ghost use Rattle.clap.specs.Words.{first_of, found_of, rows_of};
ghost use Rattle.rs_message.specs.declared.entry.TheConstants.{MAX_PLACES};
ghost use Rattle.rs_store.specs.declared.limit.TheConstants.{MAX_TOPICS};
ghost use Rattle.rs_program.specs.CommandLine.{AreClientsOf, IsFlagOf, IsInRange, IsKeepOf, IsNumberGiven, IsNumberOf, IsRunOf, IsSizeGiven, policy_text};

use crate::words::commands::{MAX_CLIENTS, MAX_CONNECTIONS, MAX_IDLE};
use crate::words::size::read_size;
use crate::words::{Keep, Run, WordsFault, refused};
use clap::ArgMatches;
use rs_message::{MAX_PLACES, PlaceCount};
use rs_store::{MAX_TOPICS, TopicLimit};
use rs_tcp_server::SyncPolicy;
use std::alloc::Global;

const NO_SIZE: &str = "\
error: --memory takes a number of bytes from 1 to 18446744073709551615, or a number before K, M or G, as 512M
";

/// What the words of `pipe` ask for.
pub(super) fn pipe_of(alloc: Global, found: &ArgMatches<'_>) -> Result<Run, WordsFault>
    ensures run { IfOk result (IsRunOf (codes "pipe") (rows_of (found_of found.now))) }
    ensures range { IfOk result IsInRange }
{
    let Some(at) = number(found, "at", 0, u64::MAX) else {
        return Err(missing(alloc));
    };
    Ok(Run::Pipe {
        hex: flag(found, "hex"),
        at,
    })
}

/// What the words of `listen` ask for. The checks here are those that `clap` does not make.
pub(super) fn listen_of(alloc: Global, found: &ArgMatches<'_>) -> Result<Run, WordsFault>
    ensures run { IfOk result (IsRunOf (codes "listen") (rows_of (found_of found.now))) }
    ensures range { IfOk result IsInRange }
{
    let (Some(address), Some(places), Some(topics), Some(connections), Some(idle)) = (
        found.get_str("address"),
        place_count(found),
        topic_limit(found),
        number_given(found, "connections", 1, MAX_CONNECTIONS),
        number_given(found, "idle", 1, MAX_IDLE),
    ) else {
        return Err(missing(alloc));
    };
    let Some(clients) = client_count(found, places) else {
        return Err(missing(alloc));
    };
    let Some(memory) = size_given(found, "memory") else {
        return Err(refused(alloc, NO_SIZE));
    };
    if clients < u16::from(places.get()) {
        return Err(refused(alloc, "error: --clients is less than --places\n"));
    }
    if connections.is_some() == flag(found, "endless") {
        return Err(refused(alloc, "error: give either --connections or --endless\n"));
    }
    let metrics = text_given(alloc, found, "metrics")?;
    let keep = keep_given(alloc, found)?;
    let Ok(address) = String::from_str(alloc, address) else {
        return Err(WordsFault::NoMemory);
    };
    Ok(Run::Listen {
        address,
        places,
        clients,
        topics,
        memory,
        connections,
        idle,
        log: flag(found, "log"),
        metrics,
        keep,
    })
}

/// How many places there are to be.
fn place_count(found: &ArgMatches<'_>) -> Option<PlaceCount>
    ensures { IfSome result (IsNumberOf (rows_of (found_of found.now)) (codes "places") 1 MAX_PLACES) }
{
    let places = number(found, "places", 1, u64::from(MAX_PLACES))?;
    PlaceCount::new(places as u8)
}

/// How many clients are served at the same time: as many as there are places, if it was not given.
fn client_count(found: &ArgMatches<'_>, places: PlaceCount) -> Option<u16>
    ensures given { IfSome result (AreClientsOf (rows_of (found_of found.now)) places) }
    ensures most { IfSome result (λ clients. clients ≤ MAX_CLIENTS) }
{
    match number_given(found, "clients", 1, u64::from(MAX_CLIENTS))? {
        Some(clients) => Some(clients as u16),
        None => Some(u16::from(places.get())),
    }
}

/// How many topics may hold a message.
fn topic_limit(found: &ArgMatches<'_>) -> Option<TopicLimit>
    ensures { IfSome result (IsNumberOf (rows_of (found_of found.now)) (codes "topics") 1 MAX_TOPICS) }
{
    let topics = number(found, "topics", 1, u64::from(MAX_TOPICS))?;
    TopicLimit::new(topics as u32)
}

/// The number that an option was given, if it is from `least` to `most`.
fn number(found: &ArgMatches<'_>, option: &str, least: u64, most: u64) -> Option<u64>
    ensures { IfSome result (IsNumberOf (rows_of (found_of found.now)) option.now least most) }
{
    let number = found.get_one::<u64>(option)?;
    if number < least || most < number {
        return None;
    }
    Some(number)
}

/// The number of an option that may be left out. `None` if it was given another text than a number from `least` to `most`.
fn number_given(found: &ArgMatches<'_>, option: &str, least: u64, most: u64) -> Option<Option<u64>>
    ensures { IfSome result (IsNumberGiven (rows_of (found_of found.now)) option.now least most) }
{
    match found.get_str(option) {
        None => Some(None),
        Some(_) => {
            let number = number(found, option, least, most)?;
            Some(Some(number))
        }
    }
}

/// The size of an option that may be left out. `None` if it was given a text that is none.
fn size_given(found: &ArgMatches<'_>, option: &str) -> Option<Option<u64>>
    ensures given { IfSome result (IsSizeGiven (rows_of (found_of found.now)) option.now) }
    ensures range { IfSome result (λ size. IfSome size (λ bytes. (1 ≤ bytes) × (bytes < 2 ^ 64))) }
{
    match found.get_str(option) {
        None => Some(None),
        Some(text) => {
            let bytes = read_size(text)?;
            Some(Some(bytes))
        }
    }
}

/// The text of an option that may be left out.
fn text_given(
    alloc: Global,
    found: &ArgMatches<'_>,
    option: &str,
) -> Result<Option<String>, WordsFault>
    ensures { IfOk result (λ text. first_of option.now (rows_of (found_of found.now)) ≡ option_map string_bytes text) }
{
    match found.get_str(option) {
        None => Ok(None),
        Some(text) => match String::from_str(alloc, text) {
            Ok(text) => Ok(Some(text)),
            Err(_) => Err(WordsFault::NoMemory),
        },
    }
}

/// What keeps the messages, if anything does.
fn keep_given(alloc: Global, found: &ArgMatches<'_>) -> Result<Option<Keep>, WordsFault>
    ensures { IfOk result (IsKeepOf (rows_of (found_of found.now))) }
{
    let folder = text_given(alloc, found, "keep")?;
    match folder {
        Some(folder) => keep_in(alloc, found, folder),
        None => keep_nowhere(alloc, found),
    }
}

/// What keeps the messages, if this folder was given.
fn keep_in(
    alloc: Global,
    found: &ArgMatches<'_>,
    folder: String,
) -> Result<Option<Keep>, WordsFault>
    requires { first_of (codes "keep") (rows_of (found_of found.now)) ≡ Some (string_bytes folder) }
    ensures { IfOk result (IsKeepOf (rows_of (found_of found.now))) }
{
    let Some(sync) = policy_given(found) else {
        return Err(refused(alloc, "error: --sync takes always, second or never\n"));
    };
    Ok(Some(Keep { folder, sync }))
}

/// That nothing does, if no folder was given.
fn keep_nowhere(alloc: Global, found: &ArgMatches<'_>) -> Result<Option<Keep>, WordsFault>
    requires { first_of (codes "keep") (rows_of (found_of found.now)) ≡ None }
    ensures { IfOk result (IsKeepOf (rows_of (found_of found.now))) }
{
    match found.get_str("sync") {
        None => Ok(None),
        Some(_) => Err(refused(alloc, "error: --sync is given without --keep\n")),
    }
}

/// The policy that was given, or the first if none was. `None` if it was given another text.
fn policy_given(found: &ArgMatches<'_>) -> Option<SyncPolicy>
    ensures { IfSome result (λ policy. unwrap_or (first_of (codes "sync") (rows_of (found_of found.now))) (codes "always") ≡ policy_text policy) }
{
    match found.get_str("sync") {
        None => Some(SyncPolicy::Always),
        Some(text) => {
            let policy = policy_of(text)?;
            Some(policy)
        }
    }
}

/// The policy of this name.
fn policy_of(text: &str) -> Option<SyncPolicy>
    ensures { IfSome result (λ policy. text.now ≡ policy_text policy) }
{
    match text {
        "always" => Some(SyncPolicy::Always),
        "second" => Some(SyncPolicy::Second),
        "never" => Some(SyncPolicy::Never),
        _ => None,
    }
}

/// Whether a flag was given.
fn flag(found: &ArgMatches<'_>, option: &str) -> bool
    ensures { IsFlagOf (rows_of (found_of found.now)) option.now result }
{
    found.get_flag(option)
}

/// Never answered: each option is required, has a default or may be left out, and its values are in their range. What clap promises of a
/// subcommand's values does not say so.
fn missing(alloc: Global) -> WordsFault {
    refused(alloc, "error: an option is missing\n")
}
