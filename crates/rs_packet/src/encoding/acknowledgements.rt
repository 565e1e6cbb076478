//! PUBACK, PUBREC, PUBREL and PUBCOMP (3.4 to 3.7).

ghost use Rattle.std.specs.Prelude.{◌≡◌, ◌<◌, ◌≤◌, ◌^◌, ◌++◌, length, OnOk};
ghost use Rattle.rs_packet.specs.Grammar.{frame};
ghost use Rattle.rs_packet.specs.Replies.{acknowledging};

use crate::encoding::put_small;
use crate::packet::PacketId;
use std::alloc::AllocError;

/// Appends an acknowledgement. A reason code of 0 is left out (3.4.2.1).
pub(crate) fn put_acknowledgement(
    out: &mut Vec<u8>,
    first: u8,
    id: PacketId,
    code: u8,
) -> Result<(), AllocError>
    ensures { OnOk result (out.new.items ≡ out.old.items ++ frame first (acknowledging id code)) }
{
    let bytes = id.get().to_be_bytes();
    if code == 0 {
        put_small(out, first, &bytes)?;
    } else {
        put_small(out, first, &[bytes[0], bytes[1], code])?;
    }
    Ok(())
}

/// The number of bytes of the body.
pub(crate) fn acknowledgement_len(id: PacketId, code: u8) -> usize
    ensures value { result ≡ length (acknowledging id code) }
    ensures small { result ≤ 3 }
    ensures fits { id < 2 ^ 16 }
{
    // For the proof: this call says that the number is small.
    let _number = id.get();
    if code == 0 { 2 } else { 3 }
}
