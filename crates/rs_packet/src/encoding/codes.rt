//! SUBACK (3.9) and UNSUBACK (3.11).

ghost use Rattle.std.specs.Prelude.{◌≡◌, ◌<◌, ◌^◌, ◌++◌, length, OnOk};
ghost use Rattle.rs_packet_property.specs.Forms.{varint_end};
ghost use Rattle.rs_packet.specs.Grammar.{frame};
ghost use Rattle.rs_packet.specs.Replies.{codes_body};

use crate::reply::Codes;
use rs_packet_field::{put_u16, put_varint};
use std::alloc::AllocError;

/// Appends a SUBACK or an UNSUBACK.
pub(crate) fn put_codes(out: &mut Vec<u8>, first: u8, codes: &Codes) -> Result<(), AllocError>
    ensures { OnOk result (out.new.items ≡ out.old.items ++ frame first (codes_body codes.now)) }
{
    out.push(first)?;
    put_varint(out, 3 + codes.codes.len())?;
    put_u16(out, codes.id.get())?;
    out.push(0)?;
    out.extend_from_slice(&codes.codes)?;
    Ok(())
}

/// The number of bytes of the body.
pub(crate) fn codes_len(codes: &Codes) -> usize
    ensures value { result ≡ length (codes_body codes.now) }
    ensures small { result < varint_end }
    ensures fits { codes.now.id < 2 ^ 16 }
{
    // For the proof: this call says that the number is small.
    let _number = codes.id.get();
    3 + codes.codes.len()
}
