//! The properties of a packet (2.2.2): all of them read, and those of a PUBLISH that the server sends written and measured.

ghost use Rattle.std.specs.Prelude.{◌≡◌, ◌+◌, ◌<◌, ◌≤◌, ◌^◌, ◌++◌, length, map, slice_index, ℕ, IfOk, OnOk, IfSome, None};
ghost use Rattle.std.specs.List.{All, flat_map};
ghost use Rattle.rs_packet_property.specs.Forms.{varint_end, IsShort, IsSubscriptionId};
ghost use Rattle.rs_packet_property.specs.Properties.{nothing, none_yet, properties, property_bytes};
ghost use Rattle.rs_packet_property.specs.Carried.{carried, replayed, optional, user_property};
ghost use Rattle.rs_packet_property.specs.Values.{no_properties};
ghost use Rattle.rs_packet_property.specs.Bounds.{AreInRange, SectionFits};
ghost use Rattle.rs_packet_field.specs.Reading.{Gives, judged, value_at, property_at, properties_in, collect_on, values_at};
ghost use Rattle.rs_packet_property.specs.declared.property.Identifier.TheVariants as identifier;
ghost use Rattle.rs_packet_property.specs.declared.property.Property.TheVariants as property;

use crate::binary::{put_binary, put_string, read_binary, read_part, read_string};
use crate::fault::PacketFault;
use crate::number::{put_u32, read_u8, read_u16, read_u32};
use crate::varint::{put_varint, read_varint, varint_len};
use bytes::Bytes;
use rs_packet_property::{
    CONTENT_TYPE, CORRELATION_DATA, IDENTIFIERS, Identifier, MESSAGE_EXPIRY_INTERVAL,
    PAYLOAD_FORMAT_INDICATOR, Properties, Property, PropertyFields, PropertyOwner, PropertyValues,
    RESPONSE_TOPIC, SUBSCRIPTION_IDENTIFIER, SubscriptionId, USER_PROPERTY,
};
use rs_topic::Text;
use std::alloc::{AllocError, Global};

/// The identifier, if this packet may have it. Malformed or Protocol if not (2.2.2.2).
fn judge(
    id: Option<Identifier>,
    owner: PropertyOwner,
    seen: &[bool; IDENTIFIERS],
) -> Result<Identifier, PacketFault>
    ensures { Gives (λ i. i) result (judged owner seen.now id) }
{
    let Some(id) = id else {
        return Err(PacketFault::Malformed);
    };
    if !id.may_stand(owner) {
        return match (owner, id) {
            (PropertyOwner::Publish, Identifier::SubscriptionIdentifier) => Err(
                PacketFault::Protocol,
            ),
            (PropertyOwner::Disconnect, Identifier::ServerReference) => Err(PacketFault::Protocol),
            _ => Err(PacketFault::Malformed),
        };
    }
    if id.may_repeat() || !seen[usize::from(id.number())] {
        Ok(id)
    } else {
        Err(PacketFault::Protocol)
    }
}

/// The value of a property that says no or yes, 0 or 1. Malformed if there is none, and Protocol if it is another.
#[tactic(auto, unfolding(crate::specs::Reading::value_at))]
fn read_flag(rest: &mut Bytes) -> Result<u8, PacketFault>
    ensures format { Gives (λ n. (property.PayloadFormatIndicator n, rest.new)) result
        (value_at identifier.PayloadFormatIndicator rest.old) }
    ensures problem { Gives (λ n. (property.RequestProblemInformation n, rest.new)) result
        (value_at identifier.RequestProblemInformation rest.old) }
    ensures response { Gives (λ n. (property.RequestResponseInformation n, rest.new)) result
        (value_at identifier.RequestResponseInformation rest.old) }
    ensures shorter { length rest.new ≤ length rest.old }
{
    let n = read_u8(rest)?;
    if n > 1 {
        return Err(PacketFault::Protocol);
    }
    Ok(n)
}

/// A Response Topic (3.3.2.3.5). Malformed if there is no text, and Protocol if it has a `+` or a `#`.
#[tactic(auto, unfolding(crate::specs::Reading::value_at))]
fn read_response_topic(rest: &mut Bytes) -> Result<Text, PacketFault>
    ensures read { Gives (λ t. (property.ResponseTopic t, rest.new)) result (value_at identifier.ResponseTopic rest.old) }
    ensures shorter { length rest.new ≤ length rest.old }
{
    let text = read_string(rest)?;
    if !text.is_plain() {
        return Err(PacketFault::Protocol);
    }
    Ok(text)
}

/// A Subscription Identifier (3.8.2.1.2). Malformed if there is no number, and Protocol if it is 0.
#[tactic(auto, unfolding(crate::specs::Reading::value_at))]
fn read_subscription(rest: &mut Bytes) -> Result<SubscriptionId, PacketFault>
    ensures read { Gives (λ n. (property.SubscriptionIdentifier n, rest.new)) result (value_at identifier.SubscriptionIdentifier rest.old) }
    ensures shorter { length rest.new ≤ length rest.old }
{
    let number = read_varint(rest)?;
    match SubscriptionId::new(number) {
        Some(id) => Ok(id),
        None => Err(PacketFault::Protocol),
    }
}

#[tactic(auto, unfolding(crate::specs::Reading::value_at))]
fn read_value(rest: &mut Bytes, id: Identifier) -> Result<Property, PacketFault>
    ensures read { Gives (λ p. (p, rest.new)) result (value_at id rest.old) }
    ensures shorter { length rest.new ≤ length rest.old }
{
    let property = match id {
        Identifier::PayloadFormatIndicator => Property::PayloadFormatIndicator(read_flag(rest)?),
        Identifier::MessageExpiryInterval => Property::MessageExpiryInterval(read_u32(rest)?),
        Identifier::ContentType => Property::ContentType(read_string(rest)?),
        Identifier::ResponseTopic => Property::ResponseTopic(read_response_topic(rest)?),
        Identifier::CorrelationData => Property::CorrelationData(read_binary(rest)?),
        Identifier::SubscriptionIdentifier => {
            Property::SubscriptionIdentifier(read_subscription(rest)?)
        }
        Identifier::SessionExpiryInterval => Property::SessionExpiryInterval(read_u32(rest)?),
        Identifier::AuthenticationMethod => Property::AuthenticationMethod(read_string(rest)?),
        Identifier::AuthenticationData => Property::AuthenticationData(read_binary(rest)?),
        Identifier::RequestProblemInformation => {
            Property::RequestProblemInformation(read_flag(rest)?)
        }
        Identifier::RequestResponseInformation => {
            Property::RequestResponseInformation(read_flag(rest)?)
        }
        Identifier::ServerReference => return Err(PacketFault::Malformed),
        Identifier::ReasonString => Property::ReasonString(read_string(rest)?),
        Identifier::ReceiveMaximum => {
            let n = read_u16(rest)?;
            if n == 0 {
                return Err(PacketFault::Protocol);
            }
            Property::ReceiveMaximum(n)
        }
        Identifier::TopicAliasMaximum => Property::TopicAliasMaximum(read_u16(rest)?),
        Identifier::TopicAlias => Property::TopicAlias(read_u16(rest)?),
        Identifier::UserProperty => {
            let k = read_string(rest)?;
            let v = read_string(rest)?;
            Property::UserProperty(k, v)
        }
        Identifier::MaximumPacketSize => {
            let n = read_u32(rest)?;
            if n == 0 {
                return Err(PacketFault::Protocol);
            }
            Property::MaximumPacketSize(n)
        }
    };
    Ok(property)
}

#[tactic(auto, unfolding(crate::specs::Reading::property_at))]
fn read_property(
    rest: &mut Bytes,
    owner: PropertyOwner,
    seen: &[bool; IDENTIFIERS],
) -> Result<Property, PacketFault>
    ensures read { Gives (λ p. (p, rest.new)) result (property_at owner seen.now rest.old) }
    ensures shorter { OnOk result (length rest.new < length rest.old) }
{
    let number = read_varint(rest)?;
    let id = judge(Identifier::from_number(number), owner, seen)?;
    read_value(rest, id)
}

fn values_in(
    alloc: Global,
    section: Bytes,
    owner: PropertyOwner,
) -> Result<PropertyValues, PacketFault>
    ensures { Gives (λ f. f) result (collect_on nothing (properties_in (length section) owner none_yet section)) }
{
    let mut values = PropertyValues::new(alloc);
    let mut seen = [false; IDENTIFIERS];
    let mut rest = section;
    'next: while !rest.is_empty() {
        let property = read_property(&mut rest, owner, &seen)?;
        seen[usize::from(property.identifier().number())] = true;
        values.put(property)?;
    }
    Ok(values)
}

/// Does nothing: its contract says that bytes are below 256, which the lemmas on what was read need.
pub fn note_octets(bytes: &[u8])
    ensures { (i : ℕ) → slice_index bytes.now i < 256 }
{}

#[tactic(auto, unfolding(crate::specs::Reading::values_at, crate::specs::Reading::properties_at))]
fn read_section(
    alloc: Global,
    rest: &mut Bytes,
    owner: PropertyOwner,
) -> Result<PropertyValues, PacketFault>
    ensures { Gives (λ f. (f, rest.new)) result (values_at owner rest.old) }
{
    let len = read_varint(rest)?;
    if len == 0 {
        return Ok(PropertyValues::new(alloc));
    }
    let section = read_part(rest, len as usize)?;
    values_in(alloc, section, owner)
}

/// Reads the properties of a packet of this kind (2.2.2): their length, and each of them.
///
/// # Errors
///
/// The first fault met, `Malformed` or `Protocol`. `NoMemory` if memory is refused.
pub fn read_properties(
    alloc: Global,
    rest: &mut Bytes,
    owner: PropertyOwner,
) -> Result<PropertyValues, PacketFault>
    ensures read { Gives (λ f. (f, rest.new)) result (values_at owner rest.old) }
    ensures fits { IfOk result (λ f. AreInRange f) }
    // What a message carries of them takes no more bytes than they do.
    ensures size { IfOk result (λ f. length (properties (replayed f.expiry None (carried f))) + length rest.new ≤ length rest.old) }
{
    note_octets(rest.as_slice());
    read_section(alloc, rest, owner)
}

fn put_format(out: &mut Vec<u8>, format: Option<u8>) -> Result<(), AllocError>
    ensures { OnOk result (out.new.items ≡ out.old.items ++ flat_map property_bytes (optional Property.PayloadFormatIndicator format)) }
{
    if let Some(n) = format {
        out.extend_from_slice(&[PAYLOAD_FORMAT_INDICATOR, n])?;
    }
    Ok(())
}

fn put_expiry(out: &mut Vec<u8>, expiry: Option<u32>) -> Result<(), AllocError>
    ensures { OnOk result (out.new.items ≡ out.old.items ++ flat_map property_bytes (optional Property.MessageExpiryInterval expiry)) }
{
    if let Some(n) = expiry {
        out.push(MESSAGE_EXPIRY_INTERVAL)?;
        put_u32(out, n)?;
    }
    Ok(())
}

fn put_content_type(out: &mut Vec<u8>, content_type: &Option<Text>) -> Result<(), AllocError>
    ensures { OnOk result (out.new.items ≡ out.old.items ++ flat_map property_bytes (optional Property.ContentType content_type.now)) }
{
    if let Some(t) = content_type {
        out.push(CONTENT_TYPE)?;
        put_string(out, t)?;
    }
    Ok(())
}

fn put_response_topic(out: &mut Vec<u8>, topic: &Option<Text>) -> Result<(), AllocError>
    ensures { OnOk result (out.new.items ≡ out.old.items ++ flat_map property_bytes (optional Property.ResponseTopic topic.now)) }
{
    if let Some(t) = topic {
        out.push(RESPONSE_TOPIC)?;
        put_string(out, t)?;
    }
    Ok(())
}

fn put_correlation(out: &mut Vec<u8>, correlation: &Option<Bytes>) -> Result<(), AllocError>
    requires { IfSome correlation.now (λ b. length b < 2 ^ 16) }
    ensures { OnOk result (out.new.items ≡ out.old.items ++ flat_map property_bytes (optional Property.CorrelationData correlation.now)) }
{
    if let Some(b) = correlation {
        out.push(CORRELATION_DATA)?;
        put_binary(out, b.as_slice())?;
    }
    Ok(())
}

fn put_pair(out: &mut Vec<u8>, pair: &(Text, Text)) -> Result<(), AllocError>
    ensures { OnOk result (out.new.items ≡ out.old.items ++ property_bytes (user_property pair.now)) }
{
    out.push(USER_PROPERTY)?;
    put_string(out, &pair.0)?;
    put_string(out, &pair.1)?;
    Ok(())
}

fn put_user(out: &mut Vec<u8>, user: &[(Text, Text)]) -> Result<(), AllocError>
    ensures { OnOk result (out.new.items ≡ out.old.items ++ flat_map property_bytes (map user_property user.now)) }
{
    for pair in user {
        put_pair(out, pair)?;
    }
    Ok(())
}

fn put_subscription(
    out: &mut Vec<u8>,
    subscription: Option<SubscriptionId>,
) -> Result<(), AllocError>
    ensures { OnOk result (out.new.items
        ≡ out.old.items ++ flat_map property_bytes (optional Property.SubscriptionIdentifier subscription)) }
{
    if let Some(id) = subscription {
        out.push(SUBSCRIPTION_IDENTIFIER)?;
        put_varint(out, id.get() as usize)?;
    }
    Ok(())
}

/// Appends what a message with these fields sends, in rising order of identifier.
#[tactic(auto, using(rs_packet_property::proofs::Replayed::replayed_parts))]
fn put_fields(
    out: &mut Vec<u8>,
    expiry: Option<u32>,
    subscription: Option<SubscriptionId>,
    carried: &PropertyFields,
) -> Result<(), AllocError>
    ensures { OnOk result (out.new.items ≡ out.old.items ++ flat_map property_bytes (replayed expiry subscription carried.now)) }
{
    put_format(out, carried.format)?;
    put_expiry(out, expiry)?;
    put_content_type(out, &carried.content_type)?;
    put_response_topic(out, &carried.response_topic)?;
    put_correlation(out, &carried.correlation)?;
    put_subscription(out, subscription)?;
    put_user(out, &carried.user)?;
    Ok(())
}

/// Appends what a message without fields sends.
#[tactic(auto, using(rs_packet_property::proofs::Replayed::replayed_bare))]
fn put_bare(
    out: &mut Vec<u8>,
    expiry: Option<u32>,
    subscription: Option<SubscriptionId>,
) -> Result<(), AllocError>
    ensures { OnOk result (out.new.items ≡ out.old.items ++ flat_map property_bytes (replayed expiry subscription no_properties)) }
{
    put_expiry(out, expiry)?;
    put_subscription(out, subscription)?;
    Ok(())
}

/// Appends the properties of a PUBLISH (3.3.2.3), without their length, in rising order of identifier.
pub fn put_properties(
    out: &mut Vec<u8>,
    expiry: Option<u32>,
    subscription: Option<SubscriptionId>,
    carried: &Properties,
) -> Result<(), AllocError>
    ensures { OnOk result (out.new.items ≡ out.old.items ++ flat_map property_bytes (replayed expiry subscription carried.now)) }
{
    match carried.fields() {
        Some(fields) => put_fields(out, expiry, subscription, fields)?,
        None => put_bare(out, expiry, subscription)?,
    }
    Ok(())
}

fn pair_len(pair: &(Text, Text)) -> usize
    ensures value { result ≡ length (property_bytes (user_property pair.now)) }
    ensures small { result < 2 ^ 18 }
    ensures fits { IsShort pair.now.0 × IsShort pair.now.1 }
{
    5 + pair.0.as_bytes().len() + pair.1.as_bytes().len()
}

fn user_len(user: &[(Text, Text)]) -> usize
    requires { length (flat_map property_bytes (map user_property user.now)) < varint_end }
    ensures value { result ≡ length (flat_map property_bytes (map user_property user.now)) }
    ensures fits { All (λ pair. IsShort pair.0 × IsShort pair.1) user.now }
{
    let mut len: usize = 0;
    for pair in user {
        len += pair_len(pair);
    }
    len
}

/// The number of bytes of a property whose value is a string.
fn text_len(text: &Option<Text>) -> usize
    ensures content_type { result ≡ length (flat_map property_bytes (optional Property.ContentType text.now)) }
    ensures response_topic { result ≡ length (flat_map property_bytes (optional Property.ResponseTopic text.now)) }
    ensures small { result < 2 ^ 17 }
    ensures fits { IfSome text.now IsShort }
{
    match text {
        Some(text) => 3 + text.as_bytes().len(),
        None => 0,
    }
}

fn expiry_len(expiry: Option<u32>) -> usize
    ensures value { result ≡ length (flat_map property_bytes (optional Property.MessageExpiryInterval expiry)) }
    ensures small { result ≤ 5 }
    ensures fits { IfSome expiry (λ n. n < 2 ^ 32) }
{
    match expiry {
        Some(_n) => 5,
        None => 0,
    }
}

fn subscription_len(subscription: Option<SubscriptionId>) -> usize
    ensures value { result ≡ length (flat_map property_bytes (optional Property.SubscriptionIdentifier subscription)) }
    ensures small { result ≤ 5 }
    ensures fits { IfSome subscription IsSubscriptionId }
{
    match subscription {
        Some(id) => 1 + varint_len(id.get() as usize),
        None => 0,
    }
}

fn correlation_len(correlation: &Option<Bytes>) -> usize
    requires { IfSome correlation.now (λ b. length b < 2 ^ 16) }
    ensures value { result ≡ length (flat_map property_bytes (optional Property.CorrelationData correlation.now)) }
    ensures small { result < 2 ^ 17 }
{
    match correlation {
        Some(b) => 3 + b.len(),
        None => 0,
    }
}

#[tactic(auto, using(rs_packet_property::proofs::Replayed::length_replayed))]
fn fields_len(
    expiry: Option<u32>,
    subscription: Option<SubscriptionId>,
    carried: &PropertyFields,
) -> usize
    requires { length (flat_map property_bytes (replayed expiry subscription carried.now)) < varint_end }
    ensures value { result ≡ length (flat_map property_bytes (replayed expiry subscription carried.now)) }
    ensures fits { SectionFits expiry subscription carried.now }
{
    let format = if carried.format.is_some() { 2 } else { 0 };
    let expiry = expiry_len(expiry);
    let texts = text_len(&carried.content_type) + text_len(&carried.response_topic);
    let correlation = correlation_len(&carried.correlation) + subscription_len(subscription);
    format + expiry + texts + correlation + user_len(&carried.user)
}

#[tactic(auto, using(rs_packet_property::proofs::Replayed::length_replayed))]
fn bare_len(expiry: Option<u32>, subscription: Option<SubscriptionId>) -> usize
    ensures value { result ≡ length (flat_map property_bytes (replayed expiry subscription no_properties)) }
    ensures fits { SectionFits expiry subscription no_properties }
{
    expiry_len(expiry) + subscription_len(subscription)
}

/// The number of bytes of the properties of a PUBLISH, without their length. They are at most
/// [`MAX_REMAINING_LENGTH`](crate::MAX_REMAINING_LENGTH).
pub fn properties_len(
    expiry: Option<u32>,
    subscription: Option<SubscriptionId>,
    carried: &Properties,
) -> usize
    requires { length (flat_map property_bytes (replayed expiry subscription carried.now)) < varint_end }
    ensures value { result ≡ length (flat_map property_bytes (replayed expiry subscription carried.now)) }
    ensures fits { SectionFits expiry subscription carried.now }
{
    match carried.fields() {
        Some(fields) => fields_len(expiry, subscription, fields),
        None => bare_len(expiry, subscription),
    }
}
