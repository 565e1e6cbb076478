//! CONNACK (3.2).

ghost use Rattle.std.specs.Prelude.{◌≡◌, ◌+◌, ◌<◌, ◌^◌, ◌++◌, length, OnOk, IfSome};
ghost use Rattle.rs_packet_property.specs.Forms.{varint_end, IsShort};
ghost use Rattle.rs_packet.specs.Grammar.{frame};
ghost use Rattle.rs_packet.specs.Replies.{session_expiry_bytes, assigned_client_bytes, limit_bytes, accepting, accepted_body};

use crate::limits::RECEIVE_MAXIMUM;
use crate::reply::ConnackAccepted;
use rs_message::MAX_PACKET_SIZE;
use rs_packet_field::{put_string, put_u16, put_u32, put_varint, varint_len};
use rs_packet_property::Identifier;
use rs_topic::Text;
use std::alloc::AllocError;

// The numbers of the properties that only a server sends (2.2.2.2).
const ASSIGNED_CLIENT_IDENTIFIER: u8 = 0x12;

const SHARED_SUBSCRIPTION_AVAILABLE: u8 = 0x2A;

/// Appends a Session Expiry Interval of 0 (3.2.2.3.2), if the client is told one.
fn put_session_expiry(out: &mut Vec<u8>, is_sent: bool) -> Result<(), AllocError>
    ensures { OnOk result (out.new.items ≡ out.old.items ++ session_expiry_bytes is_sent) }
{
    if is_sent {
        out.push(Identifier::SessionExpiryInterval.number())?;
        put_u32(out, 0)?;
    }
    Ok(())
}

/// Appends the Assigned Client Identifier (3.2.2.3.7), if there is one.
fn put_assigned_client(out: &mut Vec<u8>, client: &Option<Text>) -> Result<(), AllocError>
    ensures { OnOk result (out.new.items ≡ out.old.items ++ assigned_client_bytes client.now) }
{
    if let Some(client) = client {
        out.push(ASSIGNED_CLIENT_IDENTIFIER)?;
        put_string(out, client)?;
    }
    Ok(())
}

/// Appends what every CONNACK that accepts says: the two maxima (3.2.2.3.3, 3.2.2.3.6), and that there are no shared
/// subscriptions (3.2.2.3.13).
fn put_limits(out: &mut Vec<u8>) -> Result<(), AllocError>
    ensures { OnOk result (out.new.items ≡ out.old.items ++ limit_bytes) }
{
    out.push(Identifier::ReceiveMaximum.number())?;
    put_u16(out, RECEIVE_MAXIMUM)?;
    out.push(Identifier::MaximumPacketSize.number())?;
    put_u32(out, MAX_PACKET_SIZE)?;
    out.extend_from_slice(&[SHARED_SUBSCRIPTION_AVAILABLE, 0])?;
    Ok(())
}

/// The number of bytes of the Assigned Client Identifier (3.2.2.3.7).
fn client_len(client: &Option<Text>) -> usize
    ensures value { result ≡ length (assigned_client_bytes client.now) }
    ensures small { result < 2 ^ 17 }
    ensures fits { IfSome client.now IsShort }
{
    match client {
        Some(client) => 3 + client.as_bytes().len(),
        None => 0,
    }
}

/// The number of bytes of the properties of a CONNACK that accepts.
#[tactic(auto, using(crate::proofs::Lengths::length_accepting))]
fn accepting_len(a: &ConnackAccepted) -> usize
    ensures value { result ≡ length (accepting a.now) }
    ensures small { result < 2 ^ 18 }
    ensures fits { IfSome a.now.assigned_client IsShort }
{
    let expiry = if a.session_expiry_zero { 5 } else { 0 };
    expiry + client_len(&a.assigned_client) + 10
}

/// The number of bytes of the body of a CONNACK that accepts.
#[tactic(auto, using(crate::proofs::Lengths::length_accepted))]
pub(crate) fn accepted_len(a: &ConnackAccepted) -> usize
    ensures value { result ≡ length (accepted_body a.now) }
    ensures small { result < varint_end }
    ensures fits { IfSome a.now.assigned_client IsShort }
{
    let section = accepting_len(a);
    2 + varint_len(section) + section
}

/// Appends a CONNACK that accepts.
pub(crate) fn put_accepted(out: &mut Vec<u8>, a: &ConnackAccepted) -> Result<(), AllocError>
    ensures { OnOk result (out.new.items ≡ out.old.items ++ frame 0x20 (accepted_body a.now)) }
{
    out.push(0x20)?;
    put_varint(out, accepted_len(a))?;
    out.extend_from_slice(&[0, 0])?;
    put_varint(out, accepting_len(a))?;
    put_session_expiry(out, a.session_expiry_zero)?;
    put_assigned_client(out, &a.assigned_client)?;
    put_limits(out)
}
