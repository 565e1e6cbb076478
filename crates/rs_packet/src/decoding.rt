//! Reading the packets of a client.

ghost use Rattle.std.specs.Prelude.{◌≡◌, ◌==◌, ◌<◌, ◌≤◌, ◌-◌, ◌/◌, ◌%◌, ◌++◌, not, length, take, List, ℕ, Ok, IfOk};
ghost use Rattle.rs_packet.specs.declared.packet.Packet.{Packet};
ghost use Rattle.rs_packet.specs.declared.reply.Reply.{Reply};
ghost use Rattle.rs_packet.specs.Replies.{EncodesReply};
ghost use Rattle.rs_packet.specs.Grammar.{IdFits, HasPrefix, Encodes};
ghost use Rattle.rs_packet.specs.PacketReading.{Gives, id_at, id_for, publish_at, code_at, acknowledgement_at, subscribe_at, unsubscribe_at, flags_of, mqtt, version_at, past_text, past_binary, client_at, connect_at, packet_at, packet_in, answer};
ghost use Rattle.rs_packet_field.specs.declared.fault.PacketFault.{PacketFault};
ghost use Rattle.rs_packet_field.specs.declared.fault.PacketFault.TheVariants.{NoMemory};
ghost use Rattle.rs_packet.specs.Prefixes.{IsMore, IsFaulty};
ghost use Rattle.rs_message.specs.declared.limits.TheConstants.{MAX_PACKET_SIZE};
ghost use Rattle.std.specs.Str.{bytes_eq};

use crate::filters::all_items;
use crate::header::{Header, parse_header};
use crate::masks::is_set;
use crate::packet::{
    Acknowledgement, Connect, ConnectFlags, Decoded, Packet, PacketId, PacketKind, Publish,
    Subscribe, Unsubscribe,
};
use bytes::Bytes;
use rs_message::Qos;
use rs_packet_field::{
    PacketFault, note_octets, read_binary, read_properties, read_string, read_u8, read_u16,
};
use rs_packet_property::{Properties, PropertyFields, PropertyOwner, PropertyValues};
use rs_topic::{Text, TopicName};
use std::alloc::Global;

#[tactic(auto, unfolding(crate::specs::PacketReading::id_at))]
fn id_of(rest: &mut Bytes) -> Result<PacketId, PacketFault>
    ensures read { Gives (λ n. (n, rest.new)) result (id_at rest.old) }
    ensures shorter { length rest.new ≤ length rest.old }
{
    let number = read_u16(rest)?;
    match PacketId::new(number) {
        Some(id) => Ok(id),
        None => Err(PacketFault::Protocol),
    }
}

fn id_if(rest: &mut Bytes, qos: Qos) -> Result<Option<PacketId>, PacketFault>
    ensures read { Gives (λ n. (n, rest.new)) result (id_for qos rest.old) }
    ensures fits { IfOk result (λ id. IdFits qos id) }
    ensures shorter { length rest.new ≤ length rest.old }
{
    match qos {
        Qos::AtMostOnce => Ok(None),
        Qos::AtLeastOnce => Ok(Some(id_of(rest)?)),
        Qos::ExactlyOnce => Ok(Some(id_of(rest)?)),
    }
}

#[tactic(auto, unfolding(crate::specs::PacketReading::publish_at))]
fn publish_of(
    alloc: Global,
    body: Bytes,
    duplicate: bool,
    qos: Qos,
    retain: bool,
) -> Result<Publish, PacketFault>
    requires { length body ≤ MAX_PACKET_SIZE }
    ensures { Gives (λ p. p) result (publish_at duplicate qos retain body) }
{
    let mut rest = body;
    let topic = read_string(&mut rest)?;
    let id = id_if(&mut rest, qos)?;
    let PropertyValues {
        format,
        expiry,
        content_type,
        response_topic,
        correlation,
        alias,
        user,
        ..
    } = read_properties(alloc, &mut rest, PropertyOwner::Publish)?;
    let fields = PropertyFields {
        format,
        content_type,
        response_topic,
        correlation,
        user,
    };
    Ok(Publish {
        duplicate,
        qos,
        retain,
        topic: TopicName::try_from(topic),
        id,
        expiry,
        alias,
        properties: Properties::new(alloc, fields)?,
        payload: rest,
    })
}

#[tactic(auto, unfolding(crate::specs::PacketReading::code_at))]
fn code_of(alloc: Global, body: Bytes, owner: PropertyOwner) -> Result<u8, PacketFault>
    ensures { Gives (λ n. n) result (code_at owner body) }
{
    let mut rest = body;
    if rest.is_empty() {
        return Ok(0);
    }
    let code = read_u8(&mut rest)?;
    if rest.is_empty() {
        return Ok(code);
    }
    read_properties(alloc, &mut rest, owner)?;
    if !rest.is_empty() {
        return Err(PacketFault::Malformed);
    }
    Ok(code)
}

#[tactic(auto, unfolding(crate::specs::PacketReading::acknowledgement_at))]
fn acknowledgement_of(alloc: Global, body: Bytes) -> Result<Acknowledgement, PacketFault>
    ensures { Gives (λ a. a) result (acknowledgement_at body) }
{
    let mut rest = body;
    let id = id_of(&mut rest)?;
    let code = code_of(alloc, rest, PropertyOwner::Acknowledgement)?;
    Ok(Acknowledgement { id, code })
}

#[tactic(auto, unfolding(crate::specs::PacketReading::subscribe_at))]
fn subscribe_of(alloc: Global, body: Bytes) -> Result<Subscribe, PacketFault>
    requires { length body ≤ MAX_PACKET_SIZE }
    ensures { Gives (λ s. s) result (subscribe_at body) }
{
    let mut rest = body;
    let id = id_of(&mut rest)?;
    let subscription = read_properties(alloc, &mut rest, PropertyOwner::Subscribe)?.subscription;
    if rest.is_empty() {
        return Err(PacketFault::Protocol);
    }
    let filters = all_items(alloc, rest)?;
    Ok(Subscribe {
        id,
        subscription,
        filters,
    })
}

#[tactic(auto, unfolding(crate::specs::PacketReading::unsubscribe_at))]
fn unsubscribe_of(alloc: Global, body: Bytes) -> Result<Unsubscribe, PacketFault>
    requires { length body ≤ MAX_PACKET_SIZE }
    ensures { Gives (λ u. u) result (unsubscribe_at body) }
{
    let mut rest = body;
    let id = id_of(&mut rest)?;
    read_properties(alloc, &mut rest, PropertyOwner::Unsubscribe)?;
    if rest.is_empty() {
        return Err(PacketFault::Protocol);
    }
    let filters = all_items(alloc, rest)?;
    Ok(Unsubscribe { id, filters })
}

// The bits of the Connect Flags (3.1.2.3).
const RESERVED: u8 = 0b0000_0001;

const CLEAN_START: u8 = 0b0000_0010;

const WILL: u8 = 0b0000_0100;

const WILL_QOS: u8 = 0b0001_1000;

const WILL_RETAIN: u8 = 0b0010_0000;

const PASSWORD: u8 = 0b0100_0000;

const USER_NAME: u8 = 0b1000_0000;

/// The number of the Will QoS.
#[tactic(auto, using(crate::proofs::Quotients::will_qos_is))]
fn will_qos_of(byte: u8) -> u8
    ensures { result ≡ byte / 8 % 4 }
{
    (byte & WILL_QOS) >> 3
}

/// Whether Will QoS or Will Retain is set.
#[tactic(auto, using(crate::proofs::Quotients::will_options_is))]
fn has_will_options(byte: u8) -> bool
    ensures { result ≡ not (byte / 8 % 8 == 0) }
{
    byte & (WILL_QOS | WILL_RETAIN) != 0
}

/// The Connect Flags. Malformed if the reserved bit is set, if Will QoS is 3, or if Will QoS or Will Retain is set without
/// the Will Flag.
#[tactic(auto, unfolding(crate::specs::PacketReading::flags_of))]
fn read_flags(byte: u8) -> Result<ConnectFlags, PacketFault>
    ensures { Gives (λ f. f) result (flags_of byte) }
{
    if is_set(byte, RESERVED) {
        return Err(PacketFault::Malformed);
    }
    let will_qos = match will_qos_of(byte) {
        0 => Qos::AtMostOnce,
        1 => Qos::AtLeastOnce,
        2 => Qos::ExactlyOnce,
        _ => return Err(PacketFault::Malformed),
    };
    if !is_set(byte, WILL) && has_will_options(byte) {
        return Err(PacketFault::Malformed);
    }
    Ok(ConnectFlags {
        user_name: is_set(byte, USER_NAME),
        password: is_set(byte, PASSWORD),
        will_retain: is_set(byte, WILL_RETAIN),
        will_qos,
        will: is_set(byte, WILL),
        clean_start: is_set(byte, CLEAN_START),
    })
}

/// The protocol name is `MQTT` (3.1.2.1).
fn is_mqtt(name: &[u8]) -> bool
    ensures { result ≡ bytes_eq name.now mqtt }
{
    name == b"MQTT".as_slice()
}

#[tactic(auto, unfolding(crate::specs::PacketReading::version_at))]
fn version_of(rest: &mut Bytes) -> Result<(), PacketFault>
    ensures { Gives (λ _. rest.new) result (version_at rest.old) }
{
    let name = read_string(rest)?;
    if !is_mqtt(name.as_bytes()) {
        return Err(PacketFault::Version);
    }
    let version = read_u8(rest)?;
    if version != 5 {
        return Err(PacketFault::Version);
    }
    Ok(())
}

fn pass_text(rest: &mut Bytes, present: bool) -> Result<(), PacketFault>
    ensures { Gives (λ _. rest.new) result (past_text present rest.old) }
{
    if present {
        let _text = read_string(rest)?;
    }
    Ok(())
}

fn pass_binary(rest: &mut Bytes, present: bool) -> Result<(), PacketFault>
    ensures { Gives (λ _. rest.new) result (past_binary present rest.old) }
{
    if present {
        let _bytes = read_binary(rest)?;
    }
    Ok(())
}

#[tactic(auto, unfolding(crate::specs::PacketReading::client_at))]
fn client_of(body: Bytes, flags: ConnectFlags) -> Result<Option<Text>, PacketFault>
    ensures { Gives (λ c. c) result (client_at flags body) }
{
    let mut rest = body;
    if flags.will {
        return Ok(None);
    }
    let client = read_string(&mut rest)?;
    pass_text(&mut rest, flags.user_name)?;
    pass_binary(&mut rest, flags.password)?;
    if !rest.is_empty() {
        return Err(PacketFault::Malformed);
    }
    Ok(Some(client))
}

#[tactic(auto, unfolding(crate::specs::PacketReading::connect_at))]
fn connect_of(alloc: Global, body: Bytes) -> Result<Connect, PacketFault>
    ensures { Gives (λ c. c) result (connect_at body) }
{
    let mut rest = body;
    version_of(&mut rest)?;
    let byte = read_u8(&mut rest)?;
    let flags = read_flags(byte)?;
    let keep_alive = read_u16(&mut rest)?;
    let PropertyValues {
        session_expiry,
        method,
        authentication,
        receive_maximum,
        packet_maximum,
        ..
    } = read_properties(alloc, &mut rest, PropertyOwner::Connect)?;
    if authentication && method.is_none() {
        return Err(PacketFault::Protocol);
    }
    let client = client_of(rest, flags)?;
    Ok(Connect {
        clean_start: flags.clean_start,
        will: flags.will,
        keep_alive,
        session_expiry,
        method,
        receive_maximum,
        packet_maximum,
        client,
    })
}

#[tactic(auto, unfolding(crate::specs::PacketReading::packet_at))]
fn packet_of(alloc: Global, kind: PacketKind, body: Bytes) -> Result<Packet, PacketFault>
    requires { length body ≤ MAX_PACKET_SIZE }
    ensures { Gives (λ p. p) result (packet_at kind body) }
{
    match kind {
        PacketKind::Connect => Ok(Packet::Connect(connect_of(alloc, body)?)),
        PacketKind::Publish(duplicate, qos, retain) => Ok(Packet::Publish(publish_of(
            alloc, body, duplicate, qos, retain,
        )?)),
        PacketKind::Puback => Ok(Packet::Puback(acknowledgement_of(alloc, body)?)),
        PacketKind::Pubrec => Ok(Packet::Pubrec(acknowledgement_of(alloc, body)?)),
        PacketKind::Pubrel => Ok(Packet::Pubrel(acknowledgement_of(alloc, body)?)),
        PacketKind::Pubcomp => Ok(Packet::Pubcomp(acknowledgement_of(alloc, body)?)),
        PacketKind::Subscribe => Ok(Packet::Subscribe(subscribe_of(alloc, body)?)),
        PacketKind::Unsubscribe => Ok(Packet::Unsubscribe(unsubscribe_of(alloc, body)?)),
        PacketKind::Pingreq => {
            if body.is_empty() {
                Ok(Packet::Pingreq)
            } else {
                Err(PacketFault::Malformed)
            }
        }
        PacketKind::Disconnect => Ok(Packet::Disconnect(code_of(
            alloc,
            body,
            PropertyOwner::Disconnect,
        )?)),
    }
}

/// The packet with this header, or `More` if the bytes end before it does.
fn decode_body(alloc: Global, bytes: &Bytes, header: Header) -> Result<Decoded, PacketFault>
    requires start { header.start ≤ header.size }
    requires small { header.size - header.start ≤ MAX_PACKET_SIZE }
    ensures { Gives (λ d. d) result (packet_in bytes.now header) }
{
    if bytes.len() < header.size {
        return Ok(Decoded::More);
    }
    let body = bytes.slice(header.start..header.size)?;
    let packet = packet_of(alloc, header.kind, body)?;
    Ok(Decoded::Whole(packet, header.size))
}

fn decode_first(alloc: Global, bytes: &Bytes) -> Result<Decoded, PacketFault>
    ensures { Gives (λ d. d) result (answer bytes.now) }
{
    match parse_header(bytes.as_slice()) {
        Ok(Some(header)) => decode_body(alloc, bytes, header),
        Ok(None) => Ok(Decoded::More),
        Err(fault) => Err(fault),
    }
}

/// Decodes the packet that the bytes begin with: the packet and its size in bytes, or `More` if they are less than a packet.
/// Err is the first fault from left to right (4.13), or `NoMemory`, which may come instead of any other answer. Nothing
/// of a body is read before all of it is there, and no payload or string is copied.
pub fn decode(alloc: Global, bytes: &Bytes) -> Result<Decoded, PacketFault>
    // What is decoded is a prefix of the bytes.
    ensures found { IfOk result (λ d. HasPrefix bytes.now d) }
    // A packet that is a prefix is decoded, unless memory runs out.
    ensures only { (p : Packet) (n : ℕ) → n ≤ length bytes.now → Encodes (take n bytes.now) p
        → Gives (λ d. d) result (Ok (Decoded.Whole p n)) }
    // Which fault it is, and when more is wanted.
    ensures exact { Gives (λ d. d) result (answer bytes.now) }
{
    note_octets(bytes.as_slice());
    decode_first(alloc, bytes)
}

/// The encodings of packets are prefix-free, and so are those of replies (2.1); no two replies have the same.
pub fn wire_law()
    ensures packets { (a b x y : List ℕ) (p q : Packet) → Encodes a p → Encodes b q → a ++ x ≡ b ++ y → (a ≡ b) × (x ≡ y) }
    ensures replies { (a b x y : List ℕ) (r s : Reply) → EncodesReply a r → EncodesReply b s → a ++ x ≡ b ++ y → (a ≡ b) × (x ≡ y) }
    ensures one_reply { (a b x y : List ℕ) (r s : Reply) → EncodesReply a r → EncodesReply b s → a ++ x ≡ b ++ y → r ≡ s }
{}

/// At most one prefix of some bytes encodes a packet, and it encodes one. If there is one, `decode` answers neither `More`
/// nor a fault other than `NoMemory`.
pub fn one_packet_law()
    ensures one_packet { (a b x y : List ℕ) (p q : Packet) → Encodes a p → Encodes b q → a ++ x ≡ b ++ y → (a ≡ b) × (p ≡ q) }
    ensures no_fault { (a x : List ℕ) (p : Packet) (f : PacketFault) → Encodes a p → IsFaulty (a ++ x) f → f ≡ NoMemory }
    ensures not_more { (a x : List ℕ) (p : Packet) → Encodes a p → IsMore (a ++ x) → ⊥ }
    // A fault stays, whatever bytes follow.
    ensures stays { (f : PacketFault) (bytes more : List ℕ) → IsFaulty bytes f → IsFaulty (bytes ++ more) f }
{}
