//! `decode` asks for more at each prefix of a packet that is not the whole of it.

use crate::examples::example::{Connection, Example};
use crate::examples::problem::{Part, Problem};
use bytes::Bytes;
use rs_packet::{Decoded, decode, needed_len};
use std::alloc::Global;

/// What `decode` says of some bytes.
#[derive(Clone, Copy, PartialEq, Eq)]
enum Decoding {
    Whole,
    More,
    Fault,
}

fn decoding_of(alloc: Global, bytes: &[u8]) -> Result<Decoding, Problem> {
    let bytes = Bytes::copy_from_slice(alloc, bytes)?;
    match decode(alloc, &bytes) {
        Ok(Decoded::Whole(..)) => Ok(Decoding::Whole),
        Ok(Decoded::More) => Ok(Decoding::More),
        Err(_) => Ok(Decoding::Fault),
    }
}

/// The first cut of the packet at which more is not asked for.
fn refused_at(alloc: Global, packet: &[u8]) -> Result<Option<usize>, Problem> {
    for cut in 0..packet.len() {
        if decoding_of(alloc, &packet[..cut])? != Decoding::More {
            return Ok(Some(cut));
        }
    }
    Ok(None)
}

/// Cuts each packet at each byte, up to the first one that is faulty or not whole. Returns the first cut at which more is not asked
/// for.
fn refused(alloc: Global, connection: &Connection) -> Result<Option<usize>, Problem> {
    let mut rest = connection.sent.as_slice();
    for _ in 0..connection.sent.len() {
        let Some((packet, others)) = rest.split_at_checked(needed_len(rest)) else {
            break;
        };
        if decoding_of(alloc, packet)? != Decoding::Whole {
            break;
        }
        let cut = refused_at(alloc, packet)?;
        if cut.is_some() {
            return Ok(cut);
        }
        rest = others;
    }
    Ok(None)
}

/// Cuts the packets of an example that is not long.
pub fn check(alloc: Global, example: &Example) -> Result<(), Problem> {
    if example.is_long() {
        return Ok(());
    }
    for connection in &example.connections {
        if let Some(cut) = refused(alloc, connection)? {
            return Err(Problem::Differs {
                line: example.line,
                cut,
                part: Part::Prefix,
            });
        }
    }
    Ok(())
}
