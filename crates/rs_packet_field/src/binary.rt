//! Binary data and UTF-8 encoded strings: two bytes of length, and that many bytes (1.5.4, 1.5.6).

ghost use Rattle.std.specs.Prelude.{◌≡◌, ◌<◌, ◌≤◌, ◌^◌, ◌++◌, length, IfOk, OnOk};
ghost use Rattle.rs_packet_property.specs.Forms.{counted};
ghost use Rattle.rs_packet_field.specs.Reading.{Gives, part_at, binary_at, text_at};

use crate::fault::PacketFault;
use crate::number::{put_u16, read_u16};
use bytes::Bytes;
use rs_topic::Text;
use std::alloc::AllocError;

/// Reads `len` bytes. Malformed if there are fewer.
pub fn read_part(rest: &mut Bytes, len: usize) -> Result<Bytes, PacketFault>
    ensures part { Gives (λ b. (b, rest.new)) result (part_at len rest.old) }
    ensures len { IfOk result (λ b. length b ≡ len) }
    ensures shorter { length rest.new ≤ length rest.old }
{
    if rest.len() < len {
        return Err(PacketFault::Malformed);
    }
    Ok(rest.split_to(len)?)
}

/// Reads binary data (1.5.6). Malformed if the bytes end before it does.
#[tactic(auto, unfolding(crate::specs::Reading::binary_at))]
pub fn read_binary(rest: &mut Bytes) -> Result<Bytes, PacketFault>
    ensures binary { Gives (λ b. (b, rest.new)) result (binary_at rest.old) }
    ensures short { IfOk result (λ b. length b < 2 ^ 16) }
    ensures shorter { length rest.new ≤ length rest.old }
    ensures less { OnOk result (length rest.new < length rest.old) }
{
    let len = read_u16(rest)?;
    read_part(rest, usize::from(len))
}

/// Reads a UTF-8 encoded string (1.5.4). Malformed if the bytes end before it does, are not UTF-8 or contain U+0000.
#[tactic(auto, unfolding(crate::specs::Reading::text_at))]
pub fn read_string(rest: &mut Bytes) -> Result<Text, PacketFault>
    ensures read { Gives (λ t. (t, rest.new)) result (text_at rest.old) }
    ensures shorter { length rest.new ≤ length rest.old }
    ensures less { OnOk result (length rest.new < length rest.old) }
{
    let bytes = read_binary(rest)?;
    match Text::from_bytes(bytes) {
        Some(text) => Ok(text),
        None => Err(PacketFault::Malformed),
    }
}

/// Appends binary data, or the bytes of a string, at most 65,535 (1.5.4, 1.5.6).
pub fn put_binary(out: &mut Vec<u8>, bytes: &[u8]) -> Result<(), AllocError>
    requires { length bytes.now < 2 ^ 16 }
    ensures { OnOk result (out.new.items ≡ out.old.items ++ counted bytes.now) }
{
    put_u16(out, bytes.len() as u16)?;
    out.extend_from_slice(bytes)?;
    Ok(())
}

/// Appends a string: its length in two bytes, and its bytes (1.5.4).
pub fn put_string(out: &mut Vec<u8>, text: &Text) -> Result<(), AllocError>
    ensures { OnOk result (out.new.items ≡ out.old.items ++ counted text.now) }
{
    put_binary(out, text.as_bytes())
}
