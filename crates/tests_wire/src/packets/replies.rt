//! Replies that are written, other than a PUBLISH.

use kit_test::{concat, limits};
use rs_message::MAX_PACKET_SIZE;
use rs_packet::*;
use rs_topic::Text;
use std::alloc::{AllocError, Global};
use std::test::Fail;

pub fn is_encoded(rt: &HostRuntime, reply: &Reply, want: &[u8]) -> bool {
    match encode(rt.alloc(), reply) {
        Ok(bytes) => bytes.as_slice() == want && encoded_len(reply) == want.len(),
        Err(_) => false,
    }
}

/// A reply in plain values.
#[derive(Clone, Copy)]
enum Plain<'a> {
    /// Whether a Session Expiry Interval of 0 is told, and the client identifier that is assigned, if it is not empty.
    Accepted(bool, &'a [u8]),
    Refused(u8),
    /// The first byte, the packet identifier and the code.
    Acknowledgement(u8, u16, u8),
    /// The packet identifier and the codes.
    Suback(u16, &'a [u8]),
    Unsuback(u16, &'a [u8]),
    Pingresp,
    Disconnect(u8),
}

fn accepted(alloc: Global, session_expiry_zero: bool, client: &[u8]) -> Option<Reply> {
    let assigned_client = if client.is_empty() {
        None
    } else {
        Some(Text::read(alloc, client).ok()?)
    };
    Some(Reply::ConnackAccepted(ConnackAccepted {
        session_expiry_zero,
        assigned_client,
    }))
}

fn acknowledgement(first: u8, id: PacketId, code: u8) -> Option<Reply> {
    match first {
        0x40 => Some(Reply::Puback(id, code)),
        0x50 => Some(Reply::Pubrec(id, code)),
        0x62 => Some(Reply::Pubrel(id, code)),
        0x70 => Some(Reply::Pubcomp(id, code)),
        _ => None,
    }
}

fn codes(alloc: Global, id: PacketId, codes: &[u8]) -> Option<Codes> {
    if codes.len() > MAX_PACKET_SIZE as usize {
        return None;
    }
    let codes = codes.to_vec(alloc).ok()?;
    Some(Codes::new(id, codes))
}

fn reply_of(alloc: Global, plain: Plain) -> Option<Reply> {
    match plain {
        Plain::Accepted(zero, client) => accepted(alloc, zero, client),
        Plain::Refused(code) => Some(Reply::ConnackRefused(code)),
        Plain::Acknowledgement(first, id, code) => acknowledgement(first, PacketId::new(id)?, code),
        Plain::Suback(id, all) => Some(Reply::Suback(codes(alloc, PacketId::new(id)?, all)?)),
        Plain::Unsuback(id, all) => Some(Reply::Unsuback(codes(alloc, PacketId::new(id)?, all)?)),
        Plain::Pingresp => Some(Reply::Pingresp),
        Plain::Disconnect(code) => Some(Reply::Disconnect(code)),
    }
}

// Whether its encoding begins with these bytes, and has this size, which is also computed before.
fn is_written(rt: &HostRuntime, plain: Plain, front: &[u8], size: usize) -> bool {
    let Some(reply) = reply_of(rt.alloc(), plain) else {
        return false;
    };
    match encode(rt.alloc(), &reply) {
        Ok(bytes) => {
            let computed = encoded_len(&reply);
            bytes.as_slice().starts_with(front) && bytes.len() == size && computed == size
        }
        Err(_) => false,
    }
}

// Replies that accept, and their bytes up to the limits.
const ACCEPTED: &[(Plain<'static>, &[u8])] = &[
    (Plain::Accepted(false, b""), &[0x20, 0x0D, 0, 0, 0x0A]),
    (
        Plain::Accepted(false, b"rs1-1"),
        &[
            0x20, 0x15, 0, 0, 0x12, 0x12, 0, 5, 0x72, 0x73, 0x31, 0x2D, 0x31,
        ],
    ),
    (
        Plain::Accepted(true, b""),
        &[0x20, 0x12, 0, 0, 0x0F, 0x11, 0, 0, 0, 0],
    ),
];

// Other replies and their bytes.
const WRITTEN: &[(Plain<'static>, &[u8])] = &[
    (Plain::Refused(0x84), &[0x20, 3, 0, 0x84, 0]),
    (Plain::Acknowledgement(0x40, 9, 0), &[0x40, 2, 0, 9]),
    (
        Plain::Acknowledgement(0x40, 9, 0x97),
        &[0x40, 3, 0, 9, 0x97],
    ),
    (Plain::Acknowledgement(0x50, 9, 0), &[0x50, 2, 0, 9]),
    (
        Plain::Acknowledgement(0x62, 9, 0x92),
        &[0x62, 3, 0, 9, 0x92],
    ),
    (Plain::Acknowledgement(0x70, 9, 0), &[0x70, 2, 0, 9]),
    (
        Plain::Suback(7, &[0x8F, 0x8F, 0x8F, 0x9E]),
        &[0x90, 7, 0, 7, 0, 0x8F, 0x8F, 0x8F, 0x9E],
    ),
    (Plain::Unsuback(7, &[0x11]), &[0xB0, 4, 0, 7, 0, 0x11]),
    (Plain::Pingresp, &[0xD0, 0]),
    (Plain::Disconnect(0x81), &[0xE0, 1, 0x81]),
];

#[test]
fn replies_are_encoded(rt: HostRuntime) -> Result<(), Fail> {
    for (plain, head) in ACCEPTED {
        let bytes = concat(rt.alloc(), &[*head, limits()])?;
        assert!(rt; is_written(&rt, *plain, &bytes, bytes.len()));
    }
    for (plain, bytes) in WRITTEN {
        assert!(rt; is_written(&rt, *plain, bytes, bytes.len()));
    }
    Ok(())
}

#[test]
fn no_identifier_is_0(rt: HostRuntime) {
    assert!(rt; PacketId::new(0).is_none());
}

// Whether a SUBACK of `count` codes takes so many bytes.
fn suback_takes(rt: &HostRuntime, count: usize, size: usize) -> Result<bool, AllocError> {
    let codes = vec![in rt.alloc(); 0x8F; count]?;
    let suback = Plain::Suback(65_535, &codes);
    Ok(is_written(rt, suback, &[0x90], size))
}

#[test]
fn a_suback_of_many_codes_has_its_length(rt: HostRuntime) -> Result<(), Fail> {
    for (count, size) in [(257, 263), (65_536, 65_543), (262_144, 262_151)] {
        assert!(rt; suback_takes(&rt, count, size)?);
    }
    Ok(())
}

// Whether a CONNACK that assigns an identifier of `count` bytes takes so many.
fn connack_takes(rt: &HostRuntime, count: usize, size: usize) -> Result<bool, AllocError> {
    let client = vec![in rt.alloc(); b'a'; count]?;
    let connack = Plain::Accepted(true, &client);
    Ok(is_written(rt, connack, &[0x20], size))
}

#[test]
fn a_connack_that_assigns_a_long_identifier_has_its_length(rt: HostRuntime) -> Result<(), Fail> {
    for (count, size) in [(24, 47), (1_000, 1_025), (65_535, 65_562)] {
        assert!(rt; connack_takes(&rt, count, size)?);
    }
    Ok(())
}
