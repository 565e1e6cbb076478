//! What a session hands to its gate and what it then replies, for each QoS and each answer of the gate.

ghost use Rattle.std.specs.Prelude.{◌≡◌, None, OnOk};
ghost use Rattle.rs_session.specs.State.{due_of};

use bytes::Bytes;
use kit_test::{CONNACK, CONNECT};
use rs_message::{Found, Operation, SubmitFault};
use rs_packet::{Decoded, Packet, Reply, decode, encode};
use rs_session::{Gate, Session};
use rs_topic::{Text, TopicFilter};
use std::alloc::{AllocError, Global};
use std::process::Abort;
use std::test::Fail;

/// A gate that records each change and gives it the same answer. It stands for no list, so it promises nothing of its lists.
#[derive(Drop)]
struct Recording {
    /// The fault that each change is answered, or none.
    fault: Option<SubmitFault>,
    /// The changes, in order.
    handed: Vec<Operation>,
}

impl Gate for Recording {
    ghost stands = { λ _ _. ⊥ };

    ghost mark = { λ _. record { place = 1; serial = 0; sent = None } };

    fn pending_count(&self) -> usize {
        0
    }

    fn submit(&mut self, operation: Operation) -> Result<(), SubmitFault> {
        let Ok(()) = self.handed.push(operation) else {
            return Err(SubmitFault::NoMemory);
        };
        match self.fault {
            Some(fault) => Err(fault),
            None => Ok(()),
        }
    }

    fn answer_within(
        &mut self,
        _filter: &TopicFilter,
        _now: u64,
        _room: usize,
    ) -> Result<Option<Vec<Found>>, AllocError> {
        Err(AllocError)
    }
}

/// At QoS 0, 1 and 2 a PUBLISH with RETAIN 1 to `a` with the payload `x`, one with an empty payload, and the replies if the
/// gate keeps it and if its store is full.
const PUBLISHED: &[(&[u8], &[u8], &[u8], &[u8])] = &[
    (
        b"\x31\x05\x00\x01a\x00x",
        b"\x31\x04\x00\x01a\x00",
        b"",
        b"",
    ),
    (
        b"\x33\x07\x00\x01a\x00\x63\x00x",
        b"\x33\x06\x00\x01a\x00\x63\x00",
        b"\x40\x02\x00\x63",
        b"\x40\x03\x00\x63\x97",
    ),
    (
        b"\x35\x07\x00\x01a\x00\x63\x00x",
        b"\x35\x06\x00\x01a\x00\x63\x00",
        b"\x50\x02\x00\x63",
        b"\x50\x03\x00\x63\x97",
    ),
];

/// The faults that leave the session open.
const LEAVING_OPEN: &[SubmitFault] = &[SubmitFault::Full, SubmitFault::NoMemory];

/// The faults that end it, and the DISCONNECT then.
const ENDING: &[(SubmitFault, &[u8])] = &[
    (SubmitFault::Open, b"\xE0\x01\x97"),
    (SubmitFault::Strange, b"\xE0\x01\x83"),
    (SubmitFault::Closed, b"\xE0\x01\x83"),
];

/// The packet that these bytes are.
fn packet_of(alloc: Global, bytes: &[u8]) -> Result<Packet, Fail> {
    match decode(alloc, &Bytes::copy_from_slice(alloc, bytes)?) {
        Ok(Decoded::Whole(packet, _)) => Ok(packet),
        _ => Err(Fail::from("the packet")),
    }
}

/// The bytes of the reply, none if there is none.
fn bytes_of(alloc: Global, reply: Option<Reply>) -> Result<Bytes, Fail> {
    match reply {
        Some(reply) => Ok(encode(alloc, &reply)?),
        None => Ok(Bytes::new()),
    }
}

/// The first reply to a packet.
fn reply_to(alloc: Global, session: &mut Session<Recording>, packet: &[u8]) -> Result<Bytes, Fail>
    requires { due_of session.old ≡ None }
    ensures { OnOk result (due_of session.new ≡ None) }
{
    session.on_packet(packet_of(alloc, packet)?, 0);
    bytes_of(alloc, session.next_reply(0))
}

/// One change was handed over: to `a`, with this payload, or with an empty one.
fn is_handed(gate: &Recording, payload: &[u8]) -> bool {
    match gate.handed.as_slice() {
        [Operation::Set(found)] => {
            found.topic().as_bytes() == b"a".as_slice()
                && found.message().payload().as_slice() == payload
        }
        [Operation::Clear(topic)] => topic.as_bytes() == b"a".as_slice() && payload.is_empty(),
        _ => false,
    }
}

/// Whether a session over a gate that answers so, once it accepted the CONNECT, hands the change of this packet over, with this payload,
/// and then sends this reply.
fn is_answered(
    alloc: Global,
    fault: Option<SubmitFault>,
    packet: &[u8],
    payload: &[u8],
    reply: &[u8],
) -> Result<bool, Fail> {
    let gate = Recording {
        fault,
        handed: Vec::new(alloc),
    };
    let mut session = Session::new(alloc, gate, Text::read(alloc, b"b")?);
    let accepted = reply_to(alloc, &mut session, CONNECT)?;
    let replied = reply_to(alloc, &mut session, packet)?;
    let is_replied = accepted.as_slice() == CONNACK && replied.as_slice() == reply;
    Ok(is_handed(&session.into_gate(), payload) && is_replied)
}

/// A PUBLISH that sets, and one that clears, are answered alike.
fn check_handed(
    rt: &impl Abort,
    alloc: Global,
    fault: Option<SubmitFault>,
    set: &[u8],
    clear: &[u8],
    reply: &[u8],
) -> Result<(), Fail> {
    assert!(rt; is_answered(alloc, fault, set, b"x", reply)?);
    assert!(rt; is_answered(alloc, fault, clear, b"", reply)?);
    Ok(())
}

#[test]
fn what_is_kept_was_handed_over(rt: HostRuntime) -> Result<(), Fail> {
    for row in PUBLISHED {
        let (set, clear, kept, _) = *row;
        check_handed(&rt, rt.alloc(), None, set, clear, kept)?;
    }
    Ok(())
}

#[test]
fn what_a_full_store_refuses_was_handed_over(rt: HostRuntime) -> Result<(), Fail> {
    for fault in LEAVING_OPEN {
        for row in PUBLISHED {
            let (set, clear, _, refused) = *row;
            check_handed(&rt, rt.alloc(), Some(*fault), set, clear, refused)?;
        }
    }
    Ok(())
}

#[test]
fn what_has_no_receipt_was_handed_over(rt: HostRuntime) -> Result<(), Fail> {
    for ending in ENDING {
        let (fault, disconnect) = *ending;
        for row in PUBLISHED {
            let (set, clear, _, _) = *row;
            check_handed(&rt, rt.alloc(), Some(fault), set, clear, disconnect)?;
        }
    }
    Ok(())
}
