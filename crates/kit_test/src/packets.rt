//! Packets as bytes.

use std::alloc::{AllocError, Global};

/// A CONNECT with the client identifier `a` (3.1).
pub const CONNECT: &[u8] = b"\x10\x0E\x00\x04MQTT\x05\x02\x00\x3C\x00\x00\x01a";

/// The CONNACK that accepts it (3.2).
pub const CONNACK: &[u8] = b"\x20\x0D\x00\x00\x0A\x21\x00\x10\x27\x00\x04\x00\x00\x2A\x00";

/// A DISCONNECT (3.14).
pub const DISCONNECT: &[u8] = b"\xE0\x00";

/// What a SUBSCRIBE of `a/#` is answered if no message is kept: SUBACK.
pub const SUBSCRIBED: &[u8] = b"\x90\x04\x00\x01\x00\x00";

/// The same if `a/b` has the message `x`: SUBACK, PUBLISH.
pub const REPLAYED: &[u8] = b"\x90\x04\x00\x01\x00\x00\x31\x07\x00\x03a/b\x00x";

/// The properties that every accepting CONNACK ends with: what the server takes, and what it does not offer (3.2.2.3).
pub fn limits() -> &'static [u8] {
    &CONNACK[5..]
}

/// The first bytes of CONNACK and of the replies behind it, so many in all: what is written if a call fails then.
pub fn cut_off(behind: &[u8], len: usize) -> [&[u8]; 2] {
    let accepted = len.min(CONNACK.len());
    let rest = len.saturating_sub(accepted).min(behind.len());
    [&CONNACK[..accepted], &behind[..rest]]
}

/// These parts, one after the other.
pub fn concat(alloc: Global, parts: &[&[u8]]) -> Result<Vec<u8>, AllocError> {
    let mut bytes = Vec::new(alloc);
    for part in parts {
        bytes.extend_from_slice(part)?;
    }
    Ok(bytes)
}

/// Whether these are the parts, one after the other.
pub fn is_concat(bytes: &[u8], parts: &[&[u8]]) -> bool {
    let mut rest = bytes;
    for part in parts {
        match rest.get(part.len()..) {
            Some(behind) if rest.starts_with(part) => rest = behind,
            _ => return false,
        }
    }
    rest.is_empty()
}
