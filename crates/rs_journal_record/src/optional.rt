//! Fields that may be absent: a byte 0, or a byte 1 and the field.

ghost use Rattle.std.specs.Prelude.{◌≡◌, ◌<◌, ◌^◌, ◌++◌, length, IfOk, IfSome, OnOk};
ghost use Rattle.std.specs.Int.{w32};
ghost use Rattle.rs_topic.specs.Texts.{IsText};
ghost use Rattle.rs_packet_property.specs.Forms.{four, counted, IsShort};
ghost use Rattle.rs_packet_field.specs.Reading.{byte_at, number_at, binary_at};
ghost use Rattle.rs_journal_record.specs.Fields.{single, maybe, or_cut_off, text_at, maybe_at, Gives};

use crate::fault::RecordFault;
use crate::field::{put_text, read_binary, read_byte, read_flag, read_text, read_u32};
use bytes::Bytes;
use rs_packet_field::{put_binary, put_u32};
use rs_topic::Text;
use std::alloc::AllocError;

/// Reads a byte, if one is there.
#[tactic(auto, unfolding(crate::specs::Fields::maybe_at))]
pub(crate) fn read_optional_byte(rest: &mut Bytes) -> Result<Option<u8>, RecordFault>
    ensures { Gives (λ o. (o, rest.new)) result (maybe_at (λ b. or_cut_off (byte_at b)) rest.old) }
{
    if !read_flag(rest)? {
        return Ok(None);
    }
    Ok(Some(read_byte(rest)?))
}

/// Reads a four byte integer, if one is there.
#[tactic(auto, unfolding(crate::specs::Fields::maybe_at))]
pub(crate) fn read_optional_u32(rest: &mut Bytes) -> Result<Option<u32>, RecordFault>
    ensures { Gives (λ o. (o, rest.new)) result (maybe_at (λ b. or_cut_off (number_at w32 b)) rest.old) }
{
    if !read_flag(rest)? {
        return Ok(None);
    }
    Ok(Some(read_u32(rest)?))
}

/// Reads a text, if one is there.
#[tactic(auto, unfolding(crate::specs::Fields::maybe_at))]
pub(crate) fn read_optional_text(rest: &mut Bytes) -> Result<Option<Text>, RecordFault>
    ensures { Gives (λ o. (o, rest.new)) result (maybe_at text_at rest.old) }
{
    if !read_flag(rest)? {
        return Ok(None);
    }
    Ok(Some(read_text(rest)?))
}

/// Reads binary data, if they are there.
#[tactic(auto, unfolding(crate::specs::Fields::maybe_at))]
pub(crate) fn read_optional_binary(rest: &mut Bytes) -> Result<Option<Bytes>, RecordFault>
    ensures read { Gives (λ o. (o, rest.new)) result (maybe_at (λ b. or_cut_off (binary_at b)) rest.old) }
    ensures short { IfOk result (λ o. IfSome o IsShort) }
{
    if !read_flag(rest)? {
        return Ok(None);
    }
    Ok(Some(read_binary(rest)?))
}

/// Appends a byte, if there is one.
pub(crate) fn put_optional_byte(out: &mut Vec<u8>, value: Option<u8>) -> Result<(), AllocError>
    ensures { OnOk result (out.new.items ≡ out.old.items ++ maybe single value) }
{
    match value {
        None => out.push(0)?,
        Some(n) => out.extend_from_slice(&[1, n])?,
    }
    Ok(())
}

/// Appends a four byte integer, if there is one.
pub(crate) fn put_optional_u32(out: &mut Vec<u8>, value: Option<u32>) -> Result<(), AllocError>
    ensures put { OnOk result (out.new.items ≡ out.old.items ++ maybe four value) }
    ensures fits { OnOk result (IfSome value (λ n. n < 2 ^ 32)) }
{
    match value {
        None => out.push(0)?,
        Some(n) => {
            out.push(1)?;
            put_u32(out, n)?;
        }
    }
    Ok(())
}

/// Appends a text, if there is one.
pub(crate) fn put_optional_text(out: &mut Vec<u8>, value: &Option<Text>) -> Result<(), AllocError>
    ensures put { OnOk result (out.new.items ≡ out.old.items ++ maybe counted value.now) }
    ensures fits { OnOk result (IfSome value.now IsText) }
{
    match value {
        None => out.push(0)?,
        Some(text) => {
            out.push(1)?;
            put_text(out, text)?;
        }
    }
    Ok(())
}

/// Appends binary data, if there are any.
pub(crate) fn put_optional_binary(
    out: &mut Vec<u8>,
    value: &Option<Bytes>,
) -> Result<(), AllocError>
    requires { IfSome value.now IsShort }
    ensures { OnOk result (out.new.items ≡ out.old.items ++ maybe counted value.now) }
{
    match value {
        None => out.push(0)?,
        Some(bytes) => {
            out.push(1)?;
            put_binary(out, bytes.as_slice())?;
        }
    }
    Ok(())
}
