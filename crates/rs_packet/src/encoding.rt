//! Encoding the replies. Those of a fixed form are encoded here, the others in a file of `encoding/` each.

ghost use Rattle.std.specs.Prelude.{◌≡◌, ◌<◌, ◌++◌, length, OnOk, IfOk};
ghost use Rattle.rs_packet_property.specs.Forms.{varint_end};
ghost use Rattle.rs_packet.specs.Grammar.{frame};
ghost use Rattle.rs_packet.specs.Replies.{reply_body, reply_bytes, HasEncoding, ReplyFits, EncodesReply};

use crate::encoding::acknowledgements::{acknowledgement_len, put_acknowledgement};
use crate::encoding::codes::{codes_len, put_codes};
use crate::encoding::connack::{accepted_len, put_accepted};
use crate::encoding::publish::{body_len, put_publish_head, put_publish_reply};
use crate::reply::{PublishReply, Reply};
use bytes::Bytes;
use rs_packet_field::{put_varint, varint_len};
use std::alloc::{AllocError, Global};

mod acknowledgements;
mod codes;
mod connack;
mod publish;

pub use publish::publish_len;

/// Appends a packet with a body of less than 128 bytes.
pub(crate) fn put_small(out: &mut Vec<u8>, first: u8, body: &[u8]) -> Result<(), AllocError>
    requires { length body.now < 128 }
    ensures { OnOk result (out.new.items ≡ out.old.items ++ frame first body.now) }
{
    out.push(first)?;
    put_varint(out, body.len())?;
    out.extend_from_slice(body)?;
    Ok(())
}

/// Appends a reply.
fn put(out: &mut Vec<u8>, reply: &Reply) -> Result<(), AllocError>
    ensures { OnOk result (out.new.items ≡ out.old.items ++ reply_bytes reply.now) }
{
    match reply {
        Reply::ConnackAccepted(a) => put_accepted(out, a)?,
        Reply::ConnackRefused(code) => put_small(out, 0x20, &[0, *code, 0])?,
        Reply::Publish(p) => put_publish_reply(out, p)?,
        Reply::Puback(id, code) => put_acknowledgement(out, 0x40, *id, *code)?,
        Reply::Pubrec(id, code) => put_acknowledgement(out, 0x50, *id, *code)?,
        Reply::Pubrel(id, code) => put_acknowledgement(out, 0x62, *id, *code)?,
        Reply::Pubcomp(id, code) => put_acknowledgement(out, 0x70, *id, *code)?,
        Reply::Suback(codes) => put_codes(out, 0x90, codes)?,
        Reply::Unsuback(codes) => put_codes(out, 0xB0, codes)?,
        Reply::Pingresp => put_small(out, 0xD0, &[])?,
        Reply::Disconnect(code) => put_small(out, 0xE0, &[*code])?,
    }
    Ok(())
}

/// The number of bytes of the body of a reply.
fn reply_len(reply: &Reply) -> usize
    ensures value { result ≡ length (reply_body reply.now) }
    ensures small { result < varint_end }
    ensures fits { ReplyFits reply.now }
{
    match reply {
        Reply::ConnackAccepted(a) => accepted_len(a),
        Reply::ConnackRefused(_code) => 3,
        Reply::Publish(p) => body_len(p).0,
        Reply::Puback(id, code) => acknowledgement_len(*id, *code),
        Reply::Pubrec(id, code) => acknowledgement_len(*id, *code),
        Reply::Pubrel(id, code) => acknowledgement_len(*id, *code),
        Reply::Pubcomp(id, code) => acknowledgement_len(*id, *code),
        Reply::Suback(codes) => codes_len(codes),
        Reply::Unsuback(codes) => codes_len(codes),
        Reply::Pingresp => 0,
        Reply::Disconnect(_code) => 1,
    }
}

/// The number of bytes of a reply: at most 5 more than its body has (2.1.4).
#[tactic(auto, using(crate::proofs::Lengths::length_frame))]
pub fn encoded_len(reply: &Reply) -> usize
    ensures value { result ≡ length (reply_bytes reply.now) }
    ensures small { HasEncoding reply.now }
    ensures fits { ReplyFits reply.now }
{
    let len = reply_len(reply);
    1 + varint_len(len) + len
}

/// The one encoding of a reply. `AllocError` only if memory runs out.
pub fn encode(alloc: Global, reply: &Reply) -> Result<Bytes, AllocError>
    ensures bytes { IfOk result (λ b. b ≡ reply_bytes reply.now) }
    // No encoding of a reply is a prefix of another, and no two replies have the same (`wire_law`).
    ensures encodes { IfOk result (λ b. EncodesReply b reply.now) }
{
    let mut out = Vec::with_capacity(alloc, encoded_len(reply))?;
    put(&mut out, reply)?;
    Ok(Bytes::from_vec(out)?)
}

/// A longer payload is not copied to be sent.
const MAX_COPIED: usize = 4_096;

/// All of a PUBLISH but its payload.
fn encode_head(alloc: Global, p: &PublishReply) -> Result<Bytes, AllocError>
    ensures { IfOk result (λ head. head ++ p.now.payload ≡ reply_bytes (Reply.Publish p.now)) }
{
    let mut out = Vec::new(alloc);
    put_publish_head(&mut out, p)?;
    Ok(Bytes::from_vec(out)?)
}

/// The one encoding of a reply in two parts, the second of which is a long payload or empty. It takes no memory for a long payload.
/// `AllocError` only if memory runs out.
pub fn encode_parts(alloc: Global, reply: &Reply) -> Result<(Bytes, &[u8]), AllocError>
    ensures { IfOk result (λ parts. parts.0 ++ parts.1.now ≡ reply_bytes reply.now) }
{
    if let Reply::Publish(p) = reply {
        let payload = p.found.message().payload().as_slice();
        if payload.len() > MAX_COPIED {
            return Ok((encode_head(alloc, p)?, payload));
        }
    }
    Ok((encode(alloc, reply)?, &[]))
}
