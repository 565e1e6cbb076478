//! Clients that break the rules of the protocol end their own connection, and harm no other.
//!
//! Not here, but among the worked examples, which `checks/listening` runs over the server and so over this gate: topics and filters
//! of 128 and of 129 levels, sixteen identifiers of QoS 2 with a seventeenth or one of them again, acknowledgements of the wrong
//! kind, and three filters that match 40,000 messages each.

use kit_places::{NONE, PLAIN, PUBLISHES, Row, SUBSCRIBES, as_wanted, ending, plain_row, play};
use kit_test::{CONNACK, CONNECT, REPLAYED, ServeResult};
use rs_server::Served;
use std::alloc::{AllocError, Global};
use std::test::Fail;

/// What a client sends after its CONNECT, and what it is sent after the CONNACK.
const PEERS: &[(&[u8], &[u8])] = &[
    // A second CONNECT.
    (CONNECT, b"\xE0\x01\x82"),
    // Fixed headers that no client sends.
    (b"\x80", b"\xE0\x01\x81"),
    (b"\x90", b"\xE0\x01\x82"),
    // A packet of 262,145 bytes, and one of 262,144 that does not come.
    (b"\x31\xFD\xFF\x0F", b"\xE0\x01\x95"),
    (b"\x31\xFC\xFF\x0F", b""),
    // Packet Identifier 0.
    (b"\x33\x07\x00\x01a\x00\x00\x00\x31", b"\xE0\x01\x82"),
    // No filter, a QoS of 3, Retain Handling 3, a reserved bit.
    (b"\x82\x03\x00\x01\x00", b"\xE0\x01\x82"),
    (b"\x82\x07\x00\x01\x00\x00\x01a\x03", b"\xE0\x01\x82"),
    (b"\x82\x07\x00\x01\x00\x00\x01a\x30", b"\xE0\x01\x82"),
    (b"\x82\x07\x00\x01\x00\x00\x01a\x40", b"\xE0\x01\x81"),
    // Topics that are not UTF-8, with U+0000, with a wildcard, empty.
    (b"\x31\x07\x00\x03\xED\xA0\x80\x00x", b"\xE0\x01\x81"),
    (b"\x31\x05\x00\x01\x00\x00x", b"\xE0\x01\x81"),
    (b"\x31\x06\x00\x02a+\x00x", b"\xE0\x01\x90"),
    (b"\x31\x04\x00\x00\x00x", b"\xE0\x01\x82"),
    // No Local for a shared subscription.
    (
        b"\x82\x10\x00\x01\x00\x00\x0A$share/g/a\x04",
        b"\xE0\x01\x82",
    ),
];

/// How a connection ends that is written this after its CONNACK: by the DISCONNECT, or if there is none, inside a packet.
fn end_of(output: &[u8]) -> ServeResult {
    match output.last() {
        Some(code) => Ok(Served::ServerClosed(*code)),
        None => Ok(Served::CutInput),
    }
}

/// The peer of this row of the table.
fn peer(sent: &'static [u8], replies: &'static [u8]) -> Row<'static> {
    Row {
        course: ending(PLAIN, end_of(replies)),
        sent: [CONNECT, sent, NONE, NONE],
        replies: [CONNACK, replies, NONE],
    }
}

/// The peers, between two publications and before a client that reads. The second publication has a serial of its own, so both are
/// kept.
fn rows(alloc: Global) -> Result<Vec<Row<'static>>, AllocError> {
    let mut rows = Vec::new(alloc);
    rows.push(plain_row(PLAIN, PUBLISHES, NONE))?;
    for row in PEERS {
        let (sent, replies) = *row;
        rows.push(peer(sent, replies))?;
    }
    rows.push(plain_row(PLAIN, PUBLISHES, NONE))?;
    rows.push(plain_row(PLAIN, SUBSCRIBES, REPLAYED))?;
    Ok(rows)
}

#[test]
fn clients_that_break_the_rules_harm_no_other(rt: HostRuntime) -> Result<(), Fail> {
    let alloc = rt.alloc();
    assert!(rt; play(rt, alloc, 10, 1, &rows(alloc)?)? == as_wanted(1, 18, 2, 2));
    Ok(())
}
