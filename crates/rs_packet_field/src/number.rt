//! Integers of one, two and four bytes, most significant byte first (1.5.1 to 1.5.3).

ghost use Rattle.std.specs.Prelude.{◌≡◌, ◌<◌, ◌≤◌, ◌++◌, length, OnOk};
ghost use Rattle.std.specs.Int.{w16, w32};
ghost use Rattle.rs_packet_property.specs.Forms.{two, four};
ghost use Rattle.rs_packet_field.specs.Reading.{Gives, byte_at, number_at};

use crate::fault::PacketFault;
use bytes::{Buf, Bytes};
use std::alloc::AllocError;

/// Reads one byte. Malformed if there is none.
pub fn read_u8(rest: &mut Bytes) -> Result<u8, PacketFault>
    ensures read { Gives (λ n. (n, rest.new)) result (byte_at rest.old) }
    ensures shorter { length rest.new ≤ length rest.old }
{
    let Ok(n) = rest.try_get_u8() else {
        return Err(PacketFault::Malformed);
    };
    Ok(n)
}

/// Reads a two byte integer (1.5.2). Malformed if there are fewer bytes.
pub fn read_u16(rest: &mut Bytes) -> Result<u16, PacketFault>
    ensures read { Gives (λ n. (n, rest.new)) result (number_at w16 rest.old) }
    ensures shorter { length rest.new ≤ length rest.old }
    ensures less { OnOk result (length rest.new < length rest.old) }
{
    let Ok(n) = rest.try_get_u16() else {
        return Err(PacketFault::Malformed);
    };
    Ok(n)
}

/// Reads a four byte integer (1.5.3). Malformed if there are fewer bytes.
pub fn read_u32(rest: &mut Bytes) -> Result<u32, PacketFault>
    ensures read { Gives (λ n. (n, rest.new)) result (number_at w32 rest.old) }
    ensures shorter { length rest.new ≤ length rest.old }
{
    let Ok(n) = rest.try_get_u32() else {
        return Err(PacketFault::Malformed);
    };
    Ok(n)
}

/// Appends a two byte integer (1.5.2).
pub fn put_u16(out: &mut Vec<u8>, n: u16) -> Result<(), AllocError>
    ensures { OnOk result (out.new.items ≡ out.old.items ++ two n) }
{
    out.extend_from_slice(&n.to_be_bytes())?;
    Ok(())
}

/// Appends a four byte integer (1.5.3).
pub fn put_u32(out: &mut Vec<u8>, n: u32) -> Result<(), AllocError>
    ensures { OnOk result (out.new.items ≡ out.old.items ++ four n) }
{
    out.extend_from_slice(&n.to_be_bytes())?;
    Ok(())
}
