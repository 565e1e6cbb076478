//! What a client is answered if the gate gives no receipt for its publication.

use kit_test::{CONNACK, CONNECT, Refusing, concat};
use rs_message::SubmitFault;
use rs_program_pipe::pipe;
use rs_server::Served;
use std::alloc::Global;
use std::process::Abort;
use std::sync::Wait;
use std::test::Fail;

const PINGREQ: &[u8] = b"\xC0\x00";

// A retained PUBLISH at QoS 0, 1 and 2, and what answers it if the session goes on, with the PINGRESP.
const GOING_ON: &[(&[u8], &[u8])] = &[
    (b"\x31\x05\x00\x01a\x00x", b"\xD0\x00"),
    (
        b"\x33\x07\x00\x01a\x00\x01\x00x",
        b"\x40\x03\x00\x01\x97\xD0\x00",
    ),
    (
        b"\x35\x07\x00\x01a\x00\x01\x00x",
        b"\x50\x03\x00\x01\x97\xD0\x00",
    ),
];

// The code of the DISCONNECT, in which each of these ends the session.
const ENDING: &[(SubmitFault, u8)] = &[
    (SubmitFault::Open, 0x97),
    (SubmitFault::Strange, 0x83),
    (SubmitFault::Closed, 0x83),
];

fn check_answered<H: Abort + Wait>(
    rt: &H,
    alloc: Global,
    fault: SubmitFault,
    publish: &[u8],
    replies: &[u8],
    ends: Served,
) -> Result<(), Fail> {
    let input = concat(alloc, &[CONNECT, publish, PINGREQ])?;
    let wanted = concat(alloc, &[CONNACK, replies])?;
    let gate = Refusing { fault, serial: 0 };
    let ended = pipe(rt, alloc, input.as_slice(), Vec::new(alloc), gate, false, 0);
    assert!(rt; ended.served == Ok(ends));
    assert!(rt; ended.output.as_slice() == wanted.as_slice());
    Ok(())
}

#[test]
fn a_store_that_refuses_leaves_the_session_open(rt: HostRuntime) -> Result<(), Fail> {
    for fault in [SubmitFault::Full, SubmitFault::NoMemory] {
        for row in GOING_ON {
            let (publish, replies) = *row;
            check_answered(&rt, rt.alloc(), fault, publish, replies, Served::EndOfInput)?;
        }
    }
    Ok(())
}

#[test]
fn a_store_without_receipt_ends_the_session(rt: HostRuntime) -> Result<(), Fail> {
    for ending in ENDING {
        let (fault, code) = *ending;
        for row in GOING_ON {
            let (publish, _) = *row;
            let ends = Served::ServerClosed(code);
            check_answered(&rt, rt.alloc(), fault, publish, &[0xE0, 0x01, code], ends)?;
        }
    }
    Ok(())
}
