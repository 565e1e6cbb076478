//! Crowds of clients, as many as there are lanes or seats, or more, or fewer. However they are told of, all are served, and one that waits
//! holds up no other.

use kit_places::{
    Counts, Course, Manner, NONE, PLAIN, PUBLISHES, Played, Script, as_wanted, assigned, lanes,
    later, plain_row, put_rows, run_scripts, scripts,
};
use kit_test::concat;
use rs_topic::MAX_LEVELS;
use std::alloc::{AllocError, Global};
use std::sync::{Arc, Wait};
use std::test::Fail;
use std::thread::Threads;

/// CONNECT without a client identifier.
const NAMELESS: &[u8] = b"\x10\x0D\x00\x04MQTT\x05\x02\x00\x3C\x00\x00\x00";

/// What a client publishes by each connection: so many messages of QoS 1, to topics of so many levels that are its own.
#[derive(Clone, Copy)]
struct Work {
    line: u16,
    count: u8,
    levels: usize,
}

/// A text of so many levels, the first of which names the client and the number.
fn text(alloc: Global, work: Work, number: u8, level: &[u8]) -> Result<Vec<u8>, AllocError> {
    let [high, low] = work.line.to_be_bytes();
    let mut text = Vec::new(alloc);
    text.extend_from_slice(&[
        b'a' + high % 16,
        b'a' + low / 16,
        b'a' + low % 16,
        b'a' + number % 16,
    ])?;
    for _ in 1..work.levels {
        text.push(b'/')?;
        text.extend_from_slice(level)?;
    }
    Ok(text)
}

/// Appends a text with its length.
fn put_text(packet: &mut Vec<u8>, text: &[u8]) -> Result<(), AllocError> {
    let len = text.len();
    packet.extend_from_slice(&[(len / 256 % 256) as u8, (len % 256) as u8])?;
    packet.extend_from_slice(text)
}

/// Appends a packet of this first byte.
fn put_packet(to: &mut Vec<u8>, first: u8, body: &[u8]) -> Result<(), AllocError> {
    let len = body.len();
    to.push(first)?;
    if len < 128 {
        to.push(len as u8)?;
    } else {
        to.extend_from_slice(&[128 + (len % 128) as u8, (len / 128 % 128) as u8])?;
    }
    to.extend_from_slice(body)
}

/// Appends a retained publication of QoS 1 to the topic, and its PUBACK.
fn put_publish(
    alloc: Global,
    sent: &mut Vec<u8>,
    replies: &mut Vec<u8>,
    topic: &[u8],
    id: u8,
) -> Result<(), AllocError> {
    let mut body = Vec::new(alloc);
    put_text(&mut body, topic)?;
    body.extend_from_slice(&[1, id, 0, b'x'])?;
    put_packet(sent, 0x33, body.as_slice())?;
    replies.extend_from_slice(&[0x40, 2, 1, id])
}

/// Appends a SUBSCRIBE of the filter, a SUBACK, and the message of the topic, all of QoS 0.
fn put_subscribe(
    alloc: Global,
    sent: &mut Vec<u8>,
    replies: &mut Vec<u8>,
    filter: &[u8],
    topic: &[u8],
) -> Result<(), AllocError> {
    let mut body = Vec::new(alloc);
    body.extend_from_slice(&[0, 9, 0])?;
    put_text(&mut body, filter)?;
    body.push(0)?;
    put_packet(sent, 0x82, body.as_slice())?;
    replies.extend_from_slice(b"\x90\x04\x00\x09\x00\x00")?;
    let mut message = Vec::new(alloc);
    put_text(&mut message, topic)?;
    message.extend_from_slice(&[0, b'x'])?;
    put_packet(replies, 0x31, message.as_slice())
}

/// Appends the client's connection of this number: it is assigned an identifier, does its work, reads what it published last, and leaves.
fn put_connection(
    alloc: Global,
    script: &mut Script,
    course: Course,
    work: Work,
    number: u64,
) -> Result<(), AllocError> {
    let mut sent = concat(alloc, &[NAMELESS])?;
    let mut replies = assigned(alloc, work.line, number)?;
    for id in 1..=work.count {
        let topic = text(alloc, work, id, b"x")?;
        put_publish(alloc, &mut sent, &mut replies, topic.as_slice(), id)?;
    }
    let topic = text(alloc, work, work.count, b"x")?;
    let filter = text(alloc, work, work.count, b"+")?;
    put_subscribe(
        alloc,
        &mut sent,
        &mut replies,
        filter.as_slice(),
        topic.as_slice(),
    )?;
    sent.extend_from_slice(b"\xE0\x00")?;
    script.put(course, sent, replies)
}

/// So many clients of a store of so many seats, in so many lanes, with so many connections each. The first ones do their work once so many
/// came so far.
#[derive(Clone, Copy)]
struct Crowd {
    manner: Manner,
    lanes: u8,
    seats: u8,
    clients: u16,
    connections: u64,
    together: u64,
    count: u8,
    levels: usize,
}

/// A turn for each client.
fn turns(alloc: Global, counts: &Arc<Counts>, crowd: Crowd) -> Result<Vec<Script>, AllocError> {
    let mut course = PLAIN;
    course.together = crowd.together;
    let mut turns = Vec::new(alloc);
    for before in 0..crowd.clients {
        let work = Work {
            line: before.saturating_add(1),
            count: crowd.count,
            levels: crowd.levels,
        };
        let mut script = Script::new(alloc, Arc::try_clone(counts)?, work.line);
        for number in 1..=crowd.connections {
            put_connection(alloc, &mut script, course, work, number)?;
        }
        turns.push(script)?;
    }
    Ok(turns)
}

/// What comes of it: each connection is served, and each lane that has a client has threads.
fn wanted(crowd: Crowd) -> Played {
    let connections = u64::from(crowd.clients).saturating_mul(crowd.connections);
    let changes = connections.saturating_mul(u64::from(crowd.count));
    let lanes = u16::from(crowd.lanes).min(crowd.clients);
    as_wanted(usize::from(lanes), connections, changes, changes)
}

/// Whether it comes so.
fn is_served<R: Threads + Wait + Copy + Send + Sync + 'static>(
    rt: R,
    alloc: Global,
    crowd: Crowd,
) -> Result<bool, Fail> {
    let counts = Arc::new(alloc, Counts::new())?;
    let turns = turns(alloc, &counts, crowd)?;
    let runner = lanes(rt, alloc, crowd.lanes, crowd.manner)?;
    let ran = run_scripts(rt, alloc, (10_000, crowd.seats), turns, &counts, runner)?;
    Ok(ran == wanted(crowd))
}

/// Eight clients in three lanes.
const EIGHT: Crowd = Crowd {
    manner: Manner::InOrder,
    lanes: 3,
    seats: 3,
    clients: 8,
    connections: 3,
    together: 0,
    count: 4,
    levels: 1,
};

const CROWDS: &[Crowd] = &[
    Crowd {
        lanes: 4,
        seats: 4,
        clients: 400,
        connections: 1,
        count: 16,
        ..EIGHT
    },
    // As many as lanes and seats, and fewer, all at the same time.
    Crowd {
        lanes: 4,
        seats: 4,
        clients: 4,
        together: 4,
        ..EIGHT
    },
    Crowd {
        lanes: 4,
        seats: 4,
        clients: 3,
        together: 3,
        ..EIGHT
    },
    // More than lanes, though each is held up until all are; by one seat, by a seat for each, and by more seats than lanes.
    Crowd {
        lanes: 1,
        seats: 1,
        clients: 6,
        together: 6,
        ..EIGHT
    },
    Crowd {
        lanes: 2,
        seats: 5,
        clients: 5,
        together: 5,
        ..EIGHT
    },
    Crowd {
        lanes: 1,
        seats: 3,
        clients: 7,
        together: 7,
        ..EIGHT
    },
    // A lane's thread has stack enough for topics and filters of as many levels as there may be.
    Crowd {
        lanes: 2,
        seats: 2,
        clients: 20,
        connections: 1,
        count: 5,
        levels: MAX_LEVELS,
        ..EIGHT
    },
    // Whichever thread is told of them and when, and also if they cannot be watched.
    EIGHT,
    Crowd {
        manner: Manner::Late,
        ..EIGHT
    },
    Crowd {
        manner: Manner::InOneLane,
        ..EIGHT
    },
    Crowd {
        manner: Manner::InNextLane,
        ..EIGHT
    },
    Crowd {
        manner: Manner::WithoutConnection,
        ..EIGHT
    },
    Crowd {
        manner: Manner::Unwritten,
        ..EIGHT
    },
    Crowd {
        manner: Manner::Never,
        ..EIGHT
    },
];

/// A few lanes serve all clients. By each connection a client is assigned an identifier of its own line, publishes, and reads what it
/// published last. All is settled.
#[test]
fn lanes_serve_all_of_their_clients(rt: HostRuntime) -> Result<(), Fail> {
    for (number, crowd) in CROWDS.iter().enumerate() {
        assert!(rt; is_served(rt, rt.alloc(), *crowd)?, "{number}");
    }
    Ok(())
}

/// In one lane, a client that never reads, one that announces 64 changes and reads no acknowledgement of them, and one whose connection does
/// not come. Until three others have had 20 connections each, with four publications and an answer.
#[test]
fn clients_that_wait_hold_up_nobody(rt: HostRuntime) -> Result<(), Fail> {
    let alloc = rt.alloc();
    let counts = Arc::new(alloc, Counts::new())?;
    let three = Crowd {
        clients: 3,
        connections: 20,
        ..EIGHT
    };
    let mut turns = turns(alloc, &counts, three)?;
    for (line, stalls, after) in [(4u16, (1, 60), 0u64), (5, (2, 60), 0), (6, (0, 0), 60)] {
        let mut script = Script::new(alloc, Arc::try_clone(&counts)?, line);
        let mut course = later(1, after);
        course.stalls = stalls;
        let work = Work {
            line,
            count: 64,
            levels: 1,
        };
        put_connection(alloc, &mut script, course, work, 1)?;
        turns.push(script)?;
    }
    let lane = lanes(rt, alloc, 1, Manner::InOrder)?;
    let ran = run_scripts(rt, alloc, (10_000, 1), turns, &counts, lane)?;
    assert!(rt; ran == as_wanted(1, 63, 432, 432));
    Ok(())
}

/// Forty clients publish the same message to the same topic: these are forty changes, and forty entries.
#[test]
fn equal_publications_are_as_many_entries(rt: HostRuntime) -> Result<(), Fail> {
    let alloc = rt.alloc();
    let counts = Arc::new(alloc, Counts::new())?;
    let mut turns = scripts(alloc, &counts, 40)?;
    for place in 1..=40u8 {
        let publishes = plain_row(later(place, 0), PUBLISHES, NONE);
        put_rows(alloc, turns.as_mut_slice(), &[publishes])?;
    }
    let four = lanes(rt, alloc, 4, Manner::InOrder)?;
    let ran = run_scripts(rt, alloc, (10, 4), turns, &counts, four)?;
    assert!(rt; ran == as_wanted(4, 40, 40, 40));
    Ok(())
}
