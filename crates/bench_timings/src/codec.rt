//! How long one packet takes to be decoded, and one reply to be encoded.

use crate::row::nanos;
use bytes::Bytes;
use kit_test::Failure;
use rs_message::{Found, MAX_PACKET_SIZE, Message};
use rs_packet::{Codes, Decoded, Packet, Publish, PublishReply, Reply, Subscribe, decode, encode};
use std::alloc::Global;
use std::io::Read;
use std::rt::Clock;
use std::time::Instant;

/// What is done again and again.
#[derive(Drop)]
enum Work {
    Decode(Bytes),
    Encode(Reply),
}

/// All bytes of the input, which are one whole packet, in a buffer that packets share.
fn read_input<R: Read>(alloc: Global, input: &mut R) -> Result<Bytes, Failure> {
    let mut bytes = Vec::new(alloc);
    input.read_to_end(&mut bytes)?;
    let bytes = Bytes::copy_from_slice(alloc, bytes.as_slice())?;
    let is_whole = match decode(alloc, &bytes)? {
        Decoded::Whole(_, size) => size == bytes.len(),
        Decoded::More => false,
    };
    if !is_whole {
        return Err(Failure::Input);
    }
    Ok(bytes)
}

/// The bytes of the payload and the number of user properties, or the number of filters.
fn parts_of(decoded: &Decoded) -> usize {
    match decoded {
        Decoded::Whole(Packet::Publish(publish), _) => match publish.properties.fields() {
            Some(fields) => publish.payload.len().wrapping_add(fields.user.len()),
            None => publish.payload.len(),
        },
        Decoded::Whole(Packet::Subscribe(subscribe), _) => subscribe.filters.len(),
        _ => 0,
    }
}

/// The PUBLISH that the server would send of this one, which has a payload.
fn publication(alloc: Global, publish: Publish) -> Result<Reply, Failure> {
    let Publish {
        qos,
        topic,
        id,
        expiry,
        properties,
        payload,
        ..
    } = publish;
    let topic = topic?;
    if payload.is_empty() {
        return Err(Failure::Input);
    }
    let message = Message::new(payload, qos, 0, expiry, properties);
    let Ok(found) = Found::new(alloc, topic, message) else {
        return Err(Failure::NoMemory);
    };
    let sent = PublishReply::new(found, qos, id, expiry, None);
    Ok(Reply::Publish(sent))
}

/// The SUBACK that grants each filter the quality that it asks for (3.9.3).
fn suback(alloc: Global, subscribe: &Subscribe) -> Result<Reply, Failure> {
    let mut codes = Vec::with_capacity(alloc, subscribe.filters.len())?;
    for (_filter, options) in &subscribe.filters {
        codes.push(options.qos.level())?;
    }
    if codes.len() > MAX_PACKET_SIZE as usize {
        return Err(Failure::Wrong);
    }
    Ok(Reply::Suback(Codes::new(subscribe.id, codes)))
}

/// What is encoded for the one packet of these bytes.
fn reply_to(alloc: Global, bytes: &Bytes) -> Result<Reply, Failure> {
    match decode(alloc, bytes)? {
        Decoded::Whole(Packet::Publish(publish), _) => publication(alloc, publish),
        Decoded::Whole(Packet::Subscribe(subscribe), _) => suback(alloc, &subscribe),
        _ => Err(Failure::Input),
    }
}

/// Does it once. The sum of what was decoded, or of the length and the last byte.
fn once(alloc: Global, work: &Work) -> Result<u64, Failure> {
    match work {
        Work::Decode(bytes) => Ok(parts_of(&decode(alloc, bytes)?) as u64),
        Work::Encode(reply) => {
            let bytes = encode(alloc, reply)?;
            let last = bytes.last().copied().unwrap_or(0);
            Ok((bytes.len() as u64).wrapping_add(u64::from(last)))
        }
    }
}

/// How many microseconds it takes to do it so often, and the sum over all.
fn often<C: Clock>(
    clock: &C,
    alloc: Global,
    work: &Work,
    rounds: u32,
) -> Result<Vec<u64>, Failure> {
    let mut total = 0u64;
    let start = Instant::now(clock)?;
    for _ in 0..rounds {
        total = total.wrapping_add(once(alloc, work)?);
    }
    let took = nanos(start.elapsed(clock)?) / 1_000;
    Ok(vec![in alloc; took, total]?)
}

/// Times the decoding of the packet that is the input.
pub fn decoding<C: Clock, R: Read>(
    clock: &C,
    alloc: Global,
    input: &mut R,
    rounds: u32,
) -> Result<Vec<u64>, Failure> {
    let work = Work::Decode(read_input(alloc, input)?);
    often(clock, alloc, &work, rounds)
}

/// Times the encoding of what answers it.
pub fn encoding<C: Clock, R: Read>(
    clock: &C,
    alloc: Global,
    input: &mut R,
    rounds: u32,
) -> Result<Vec<u64>, Failure> {
    let work = Work::Encode(reply_to(alloc, &read_input(alloc, input)?)?);
    often(clock, alloc, &work, rounds)
}
