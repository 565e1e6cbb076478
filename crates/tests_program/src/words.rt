//! Command lines.

use rs_message::{MAX_PLACES, PlaceCount};
use rs_program::{Keep, MAX_CLIENTS, MAX_CONNECTIONS, MAX_IDLE, Run, WordsFault, read_words};
use rs_store::{MAX_TOPICS, TopicLimit};
use rs_tcp_server::SyncPolicy;
use std::alloc::{AllocError, Global};
use std::test::Fail;

// What the words of a command line ask for.
fn read(alloc: Global, command: &str) -> Result<Result<Run, WordsFault>, AllocError> {
    let mut words = Vec::new(alloc);
    for word in command.split_whitespace() {
        words.push(String::from_str(alloc, word)?)?;
    }
    Ok(read_words(alloc, words.as_slice()))
}

// Whether the words of the command line ask for this run.
fn asks(alloc: Global, command: &str, wanted: &Run) -> Result<bool, AllocError> {
    match read(alloc, command)? {
        Ok(run) => Ok(run == *wanted),
        Err(_) => Ok(false),
    }
}

#[test]
fn words_ask_for_a_pipe(rt: HostRuntime) -> Result<(), Fail> {
    let pipes = [
        ("pipe --hex --at 7", true, 7),
        ("pipe --at 18446744073709551615", false, u64::MAX),
        ("pipe --at +007", false, 7),
        ("pipe --at=0", false, 0),
    ];
    for (command, hex, at) in pipes {
        assert!(rt;
            asks(rt.alloc(), command, &Run::Pipe { hex, at })?,
            "{command}"
        );
    }
    Ok(())
}

#[test]
fn words_ask_to_listen(rt: HostRuntime) -> Result<(), Fail> {
    let alloc = rt.alloc();
    let all =
        "listen --address [::1]:0 --places 64 --clients 10000 --topics 65536 --memory 17179869183G --connections 1000000 --idle 86400 --log --metrics [::1]:9884";
    let commands = [
        (
            "listen --address a:1 --connections 1",
            "a:1",
            4,
            4,
            10_000,
            None,
            Some(1),
            None,
            false,
            None,
        ),
        (
            "listen --connections 7 --topics 1 --places 1 --address x",
            "x",
            1,
            1,
            1,
            None,
            Some(7),
            None,
            false,
            None,
        ),
        (
            "listen --log --idle 1 --connections 2 --address x --clients 4 --memory 1",
            "x",
            4,
            4,
            10_000,
            Some(1),
            Some(2),
            Some(1),
            true,
            None,
        ),
        (
            "listen --address=:: --connections=+09 --places=02 --memory=02K --metrics x",
            "::",
            2,
            2,
            10_000,
            Some(2_048),
            Some(9),
            None,
            false,
            Some("x"),
        ),
        (
            all,
            "[::1]:0",
            MAX_PLACES,
            MAX_CLIENTS,
            MAX_TOPICS,
            Some(u64::MAX - ((1 << 30) - 1)),
            Some(MAX_CONNECTIONS),
            Some(MAX_IDLE),
            true,
            Some("[::1]:9884"),
        ),
        (
            "listen --endless --metrics=m --idle=3 --clients=5 --address=e --memory=512M",
            "e",
            4,
            5,
            10_000,
            Some(512 << 20),
            None,
            Some(3),
            false,
            Some("m"),
        ),
    ];
    for (
        command,
        address,
        places,
        clients,
        topics,
        memory,
        connections,
        idle,
        log,
        metrics,
    ) in commands {
        let wanted = Run::Listen {
            address: String::from_str(alloc, address)?,
            places: PlaceCount::new(places).ok_or("places")?,
            clients,
            topics: TopicLimit::new(topics).ok_or("topics")?,
            memory,
            connections,
            idle,
            log,
            metrics: match metrics {
                Some(metrics) => Some(String::from_str(alloc, metrics)?),
                None => None,
            },
            keep: None,
        };
        assert!(rt; asks(alloc, command, &wanted)?, "{command}");
    }
    Ok(())
}

/// What a command line asks for that gives an address, an end and what keeps the messages.
fn listens_kept(alloc: Global, folder: &str, sync: SyncPolicy) -> Result<Run, Fail> {
    let places = PlaceCount::new(4).ok_or("places")?;
    let topics = TopicLimit::new(10_000).ok_or("topics")?;
    let address = String::from_str(alloc, "a:1")?;
    let folder = String::from_str(alloc, folder)?;
    Ok(Run::Listen {
        address,
        places,
        clients: 4,
        topics,
        memory: None,
        connections: None,
        idle: None,
        log: false,
        metrics: None,
        keep: Some(Keep { folder, sync }),
    })
}

#[test]
fn words_ask_to_keep(rt: HostRuntime) -> Result<(), Fail> {
    let alloc = rt.alloc();
    let commands = [
        (
            "listen --endless --keep x --address a:1",
            "x",
            SyncPolicy::Always,
        ),
        (
            "listen --endless --keep=/var/lib/x --sync=always --address a:1",
            "/var/lib/x",
            SyncPolicy::Always,
        ),
        (
            "listen --endless --sync second --keep . --address a:1",
            ".",
            SyncPolicy::Second,
        ),
        (
            "listen --endless --keep .. --sync never --address a:1",
            "..",
            SyncPolicy::Never,
        ),
    ];
    for (command, folder, sync) in commands {
        let wanted = listens_kept(alloc, folder, sync)?;
        assert!(rt; asks(alloc, command, &wanted)?, "{command}");
    }
    Ok(())
}

// What is said of a size that is none.
const SIZES: &str = "error: --memory takes a number of bytes from 1 to 18446744073709551615";

// Each refused command line, and what the text says.
const REFUSED: &[(&str, &str)] = &[
    ("", "requires a subcommand"),
    ("more", "unrecognized subcommand 'more'"),
    ("pipe", "--at <SECONDS>"),
    ("pipe --at", "a value is required for '--at <SECONDS>'"),
    ("pipe --at x", "invalid value 'x' for '--at <SECONDS>'"),
    ("pipe --at -1", "unexpected argument '-1'"),
    (
        "pipe --at 18446744073709551616",
        "for '--at <SECONDS>': number too large",
    ),
    ("pipe --hex", "--at <SECONDS>"),
    ("pipe --at 1 more", "unexpected argument 'more'"),
    (
        "pipe --at 1 --at 1",
        "the argument '--at <SECONDS>' cannot be used multiple times",
    ),
    ("listen", "--address <ADDRESS>"),
    (
        "listen --address a:1",
        "give either --connections or --endless",
    ),
    (
        "listen --address a:1 --connections 1 --endless",
        "give either --connections or --endless",
    ),
    (
        "listen --address a:1 --endless --endless",
        "the argument '--endless' cannot be used multiple times",
    ),
    (
        "listen --address a:1 --endless 1",
        "unexpected argument '1'",
    ),
    ("listen --connections 1", "--address <ADDRESS>"),
    (
        "listen --address a:1 --connections 0",
        "for '--connections <1-1000000>': 0 is not in 1..=1000000",
    ),
    (
        "listen --address a:1 --connections 1000001",
        "1000001 is not in 1..=1000000",
    ),
    (
        "listen --address a:1 --connections 1 --places 0",
        "for '--places <1-64>': 0 is not in 1..=64",
    ),
    (
        "listen --address a:1 --connections 1 --places 65",
        "65 is not in 1..=64",
    ),
    (
        "listen --address a:1 --connections 1 --places x",
        "invalid value 'x' for '--places <1-64>'",
    ),
    (
        "listen --address a:1 --connections 1 --clients 3",
        "--clients is less than --places",
    ),
    (
        "listen --address a:1 --connections 1 --clients 63 --places 64",
        "--clients is less than --places",
    ),
    (
        "listen --address a:1 --connections 1 --clients 0",
        "for '--clients <1-10000>': 0 is not in 1..=10000",
    ),
    (
        "listen --address a:1 --connections 1 --clients 10001",
        "10001 is not in 1..=10000",
    ),
    (
        "listen --address a:1 --connections 1 --topics 0",
        "for '--topics <1-65536>': 0 is not in 1..=65536",
    ),
    (
        "listen --address a:1 --connections 1 --topics 65537",
        "65537 is not in 1..=65536",
    ),
    (
        "listen --address a:1 --connections 1 --idle 0",
        "for '--idle <1-86400>': 0 is not in 1..=86400",
    ),
    (
        "listen --address a:1 --connections 1 --idle 86401",
        "86401 is not in 1..=86400",
    ),
    (
        "listen --address a:1 --connections 1 --idle x",
        "invalid value 'x' for '--idle <1-86400>'",
    ),
    (
        "listen --address a:1 --connections 1 --idle 1 --idle 1",
        "the argument '--idle <1-86400>' cannot be used multiple times",
    ),
    ("listen --address a:1 --endless --memory 0", SIZES),
    ("listen --address a:1 --endless --memory K", SIZES),
    ("listen --address a:1 --endless --memory +1", SIZES),
    ("listen --address a:1 --endless --memory 1k", SIZES),
    ("listen --address a:1 --endless --memory 1KB", SIZES),
    ("listen --address a:1 --endless --memory 1.5G", SIZES),
    ("listen --address a:1 --endless --memory 0G", SIZES),
    ("listen --address a:1 --endless --memory M1", SIZES),
    (
        "listen --address a:1 --endless --memory 17179869184G",
        SIZES,
    ),
    (
        "listen --address a:1 --endless --memory 18446744073709551616",
        SIZES,
    ),
    (
        "listen --address a:1 --endless --memory",
        "a value is required for '--memory <SIZE>'",
    ),
    (
        "listen --address a:1 --endless --memory 1 --memory 1",
        "the argument '--memory <SIZE>' cannot be used multiple times",
    ),
    (
        "listen --address a:1 --endless --metrics",
        "a value is required for '--metrics <ADDRESS>'",
    ),
    (
        "listen --address a:1 --endless --metrics a --metrics a",
        "the argument '--metrics <ADDRESS>' cannot be used multiple times",
    ),
    (
        "listen --address a:1 --endless --keep",
        "a value is required for '--keep <FOLDER>'",
    ),
    (
        "listen --address a:1 --endless --keep a --keep a",
        "the argument '--keep <FOLDER>' cannot be used multiple times",
    ),
    (
        "listen --address a:1 --endless --keep a --sync",
        "a value is required for '--sync <WHEN>'",
    ),
    (
        "listen --address a:1 --endless --keep a --sync never --sync never",
        "the argument '--sync <WHEN>' cannot be used multiple times",
    ),
    (
        "listen --address a:1 --endless --sync always",
        "error: --sync is given without --keep",
    ),
    (
        "listen --address a:1 --endless --sync often",
        "error: --sync is given without --keep",
    ),
    (
        "listen --address a:1 --endless --keep a --sync often",
        "error: --sync takes always, second or never",
    ),
    (
        "listen --address a:1 --endless --keep a --sync Always",
        "error: --sync takes always, second or never",
    ),
    (
        "listen --address a:1 --connections 1 --log --log",
        "the argument '--log' cannot be used multiple times",
    ),
    (
        "listen --address a:1 --connections 1 --hex",
        "unexpected argument '--hex'",
    ),
];

// Whether the command line asks for nothing, has this status, and what is printed has this part.
fn is_shown(alloc: Global, command: &str, status: u8, part: &str) -> Result<bool, AllocError> {
    let Some(fault) = read(alloc, command)?.err() else {
        return Ok(false);
    };
    let text = format!(in alloc; "{fault}")?;
    Ok(fault.status() == status && text.as_str().contains(part))
}

#[test]
fn words_are_refused(rt: HostRuntime) -> Result<(), Fail> {
    for row in REFUSED {
        let (command, why) = *row;
        assert!(rt; is_shown(rt.alloc(), command, 2, why)?, "{command}");
    }
    Ok(())
}

#[test]
fn help_and_the_version_are_shown(rt: HostRuntime) -> Result<(), Fail> {
    let commands = [
        ("--help", "Usage: rstored"),
        ("pipe --help", "Usage: rstored pipe"),
        ("listen --help", "Usage: rstored listen"),
        ("listen --help", "Up to --clients clients are served"),
        ("listen --help", "Keep Alive is not enforced"),
        ("listen --help", "With --endless it runs"),
        ("listen --help", "lost at the end"),
        ("listen --help", "There is no TLS"),
        ("listen --help", "--places <1-64>"),
        ("listen --help", "--memory <SIZE>"),
        ("listen --help", "--metrics <ADDRESS>"),
        ("listen --help", "GET /metrics"),
        ("listen --help", "--keep <FOLDER>"),
        ("listen --help", "--sync <WHEN>"),
        ("listen --help", "[default: 10000]"),
        ("--version", "rstored 0.1.0"),
    ];
    for (command, part) in commands {
        assert!(rt; is_shown(rt.alloc(), command, 0, part)?, "{command}");
    }
    Ok(())
}
