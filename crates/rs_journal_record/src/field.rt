//! The fields of a record: the basic forms of the wire (1.5), and integers of eight bytes. `rs_packet_field` reads and writes the forms. It has
//! one fault for bytes that end and for bytes that are no text; a record has two, so a text is taken apart here.

ghost use Rattle.std.specs.Prelude.{◌≡◌, ◌<◌, ◌^◌, ◌++◌, length, IfOk, OnOk};
ghost use Rattle.std.specs.Int.{w32, w64};
ghost use Rattle.rs_topic.specs.Texts.{IsText};
ghost use Rattle.rs_packet_property.specs.Forms.{counted, IsShort};
ghost use Rattle.rs_packet_field.specs.Reading.{byte_at, number_at, part_at, binary_at};
ghost use Rattle.rs_journal_record.specs.Fields.{eight, cut_off, or_cut_off, flag_at, text_at, Gives};

use crate::fault::RecordFault;
use bytes::{Buf, Bytes};
use rs_packet_field::{PacketFault, put_binary};
use rs_topic::Text;
use std::alloc::AllocError;

/// The fault of a record for that of a form that is refused only where the bytes end.
fn cut_off(fault: PacketFault) -> RecordFault
    ensures { result ≡ cut_off fault }
{
    match fault {
        PacketFault::NoMemory => RecordFault::NoMemory,
        PacketFault::Malformed => RecordFault::Truncated,
        PacketFault::Protocol => RecordFault::Truncated,
        PacketFault::TooLarge => RecordFault::Truncated,
        PacketFault::Version => RecordFault::Truncated,
    }
}

/// Reads one byte.
#[tactic(auto, using(crate::proofs::Faults::cut_off_fails))]
pub(crate) fn read_byte(rest: &mut Bytes) -> Result<u8, RecordFault>
    ensures { Gives (λ n. (n, rest.new)) result (or_cut_off (byte_at rest.old)) }
{
    match rs_packet_field::read_u8(rest) {
        Ok(n) => Ok(n),
        Err(fault) => Err(cut_off(fault)),
    }
}

/// Reads a four byte integer.
#[tactic(auto, using(crate::proofs::Faults::cut_off_fails))]
pub(crate) fn read_u32(rest: &mut Bytes) -> Result<u32, RecordFault>
    ensures { Gives (λ n. (n, rest.new)) result (or_cut_off (number_at w32 rest.old)) }
{
    match rs_packet_field::read_u32(rest) {
        Ok(n) => Ok(n),
        Err(fault) => Err(cut_off(fault)),
    }
}

/// Reads an eight byte integer.
pub(crate) fn read_u64(rest: &mut Bytes) -> Result<u64, RecordFault>
    ensures { Gives (λ n. (n, rest.new)) result (or_cut_off (number_at w64 rest.old)) }
{
    let Ok(n) = rest.try_get_u64() else {
        return Err(RecordFault::Truncated);
    };
    Ok(n)
}

/// Reads `len` bytes.
#[tactic(auto, using(crate::proofs::Faults::cut_off_fails))]
pub(crate) fn read_part(rest: &mut Bytes, len: usize) -> Result<Bytes, RecordFault>
    ensures { Gives (λ b. (b, rest.new)) result (or_cut_off (part_at len rest.old)) }
{
    match rs_packet_field::read_part(rest, len) {
        Ok(bytes) => Ok(bytes),
        Err(fault) => Err(cut_off(fault)),
    }
}

/// Reads binary data.
#[tactic(auto, using(crate::proofs::Faults::cut_off_fails))]
pub(crate) fn read_binary(rest: &mut Bytes) -> Result<Bytes, RecordFault>
    ensures read { Gives (λ b. (b, rest.new)) result (or_cut_off (binary_at rest.old)) }
    ensures short { IfOk result IsShort }
{
    match rs_packet_field::read_binary(rest) {
        Ok(bytes) => Ok(bytes),
        Err(fault) => Err(cut_off(fault)),
    }
}

/// Reads a text.
#[tactic(auto, unfolding(crate::specs::Fields::text_at))]
pub(crate) fn read_text(rest: &mut Bytes) -> Result<Text, RecordFault>
    ensures { Gives (λ t. (t, rest.new)) result (text_at rest.old) }
{
    let bytes = read_binary(rest)?;
    match Text::from_bytes(bytes) {
        Some(text) => Ok(text),
        None => Err(RecordFault::Malformed),
    }
}

/// Whether a value follows.
#[tactic(auto, unfolding(crate::specs::Fields::flag_at))]
pub(crate) fn read_flag(rest: &mut Bytes) -> Result<bool, RecordFault>
    ensures { Gives (λ flag. (flag, rest.new)) result (flag_at rest.old) }
{
    match read_byte(rest)? {
        0 => Ok(false),
        1 => Ok(true),
        _ => Err(RecordFault::Malformed),
    }
}

/// Appends an eight byte integer.
pub(crate) fn put_u64(out: &mut Vec<u8>, n: u64) -> Result<(), AllocError>
    ensures put { OnOk result (out.new.items ≡ out.old.items ++ eight n) }
    ensures fits { n < 2 ^ 64 }
{
    out.extend_from_slice(&n.to_be_bytes())?;
    Ok(())
}

/// Appends a text.
pub(crate) fn put_text(out: &mut Vec<u8>, text: &Text) -> Result<(), AllocError>
    ensures put { OnOk result (out.new.items ≡ out.old.items ++ counted text.now) }
    ensures fits { IsText text.now }
{
    put_binary(out, text.as_bytes())
}
