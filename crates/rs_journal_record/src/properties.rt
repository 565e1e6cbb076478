//! The properties that a message carries (3.3.2.3).

ghost use Rattle.std.specs.Prelude.{◌≡◌, ◌<◌, ◌^◌, ◌++◌, length, OnOk};
ghost use Rattle.std.specs.List.{flat_map, All};
ghost use Rattle.rs_topic.specs.Texts.{IsText};
ghost use Rattle.rs_journal_record.specs.Fields.{Gives};
ghost use Rattle.rs_journal_record.specs.Properties.{pair_form, properties_form, pair_at, user_at, properties_at, HaveForms};

use crate::fault::RecordFault;
use crate::field::{put_text, read_text, read_u32};
use crate::optional::{
    put_optional_binary, put_optional_byte, put_optional_text, read_optional_binary,
    read_optional_byte, read_optional_text,
};
use bytes::Bytes;
use rs_packet_field::put_u32;
use rs_packet_property::{Properties, PropertyFields};
use rs_topic::Text;
use std::alloc::{AllocError, Global};

/// Reads a User Property: a name and a value.
#[tactic(auto, unfolding(crate::specs::Properties::pair_at))]
fn read_pair(rest: &mut Bytes) -> Result<(Text, Text), RecordFault>
    ensures { Gives (λ pair. (pair, rest.new)) result (pair_at rest.old) }
{
    let name = read_text(rest)?;
    let value = read_text(rest)?;
    Ok((name, value))
}

/// Reads the User Properties behind their number. Each has four bytes at least, so a wrong number ends with the bytes.
#[tactic(auto, unfolding(crate::specs::Properties::user_at))]
fn read_user(alloc: Global, rest: &mut Bytes) -> Result<Vec<(Text, Text)>, RecordFault>
    ensures { Gives (λ v. (v.items, rest.new)) result (user_at rest.old) }
{
    let count = read_u32(rest)?;
    let mut pairs = Vec::new(alloc);
    for _i in 0..count {
        let pair = read_pair(rest)?;
        pairs.push(pair)?;
    }
    Ok(pairs)
}

/// Reads the properties of a message.
#[tactic(auto, unfolding(crate::specs::Properties::properties_at))]
pub(crate) fn read_properties(
    alloc: Global,
    rest: &mut Bytes,
) -> Result<PropertyFields, RecordFault>
    ensures { Gives (λ f. (f, rest.new)) result (properties_at rest.old) }
{
    let format = read_optional_byte(rest)?;
    let content_type = read_optional_text(rest)?;
    let response_topic = read_optional_text(rest)?;
    let correlation = read_optional_binary(rest)?;
    let user = read_user(alloc, rest)?;
    Ok(PropertyFields {
        format,
        content_type,
        response_topic,
        correlation,
        user,
    })
}

fn put_pair(out: &mut Vec<u8>, pair: &(Text, Text)) -> Result<(), AllocError>
    ensures put { OnOk result (out.new.items ≡ out.old.items ++ pair_form pair.now) }
    ensures fits { OnOk result (IsText pair.now.0 × IsText pair.now.1) }
{
    put_text(out, &pair.0)?;
    put_text(out, &pair.1)?;
    Ok(())
}

fn put_pairs(out: &mut Vec<u8>, pairs: &[(Text, Text)]) -> Result<(), AllocError>
    ensures put { OnOk result (out.new.items ≡ out.old.items ++ flat_map pair_form pairs.now) }
    ensures fits { OnOk result (All (λ pair. IsText pair.0 × IsText pair.1) pairs.now) }
{
    for pair in pairs {
        put_pair(out, pair)?;
    }
    Ok(())
}

fn put_fields(out: &mut Vec<u8>, fields: &PropertyFields) -> Result<(), AllocError>
    requires few { length fields.now.user < 2 ^ 32 }
    ensures put { OnOk result (out.new.items ≡ out.old.items ++ properties_form fields.now) }
    ensures fits { OnOk result (HaveForms fields.now) }
{
    put_optional_byte(out, fields.format)?;
    put_optional_text(out, &fields.content_type)?;
    put_optional_text(out, &fields.response_topic)?;
    put_optional_binary(out, &fields.correlation)?;
    put_u32(out, fields.user.len() as u32)?;
    put_pairs(out, &fields.user)?;
    Ok(())
}

/// Appends the properties of a message.
pub(crate) fn put_properties(out: &mut Vec<u8>, properties: &Properties) -> Result<(), AllocError>
    requires few { length properties.now.user < 2 ^ 32 }
    ensures put { OnOk result (out.new.items ≡ out.old.items ++ properties_form properties.now) }
    ensures fits { OnOk result (HaveForms properties.now) }
{
    match properties.fields() {
        Some(fields) => put_fields(out, fields)?,
        // Four fields that are absent, and the number of user properties, four bytes.
        None => out.extend_from_slice(&[0, 0, 0, 0, 0, 0, 0, 0])?,
    }
    Ok(())
}
