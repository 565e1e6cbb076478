//! Reading the filters of a SUBSCRIBE (3.8.3) and of an UNSUBSCRIBE (3.10.3).

ghost use Rattle.std.specs.Prelude.{◌≡◌, ◌<◌, ◌≤◌, ◌/◌, ◌%◌, not, nat_lt, length, List, ℕ, Result, IfOk, OnOk};
ghost use Rattle.rs_packet_field.specs.declared.fault.PacketFault.{PacketFault};
ghost use Rattle.rs_packet.specs.PacketReading.{Gives, options_of, asked_at, filter_at, all_in};

use crate::masks::is_set;
use crate::packet::{Options, RetainHandling};
use bytes::Bytes;
use rs_message::Qos;
use rs_packet_field::{PacketFault, read_string, read_u8};
use rs_topic::{TopicFault, TopicFilter};
use std::alloc::Global;

/// One item of the payload of a SUBSCRIBE or an UNSUBSCRIBE: a filter, and in a SUBSCRIBE its options.
pub trait PayloadItem {
    /// The item that some bytes begin with, and the bytes after it.
    ghost item_at: { List ℕ → Result (Self × List ℕ) PacketFault };

    /// Reads one item.
    fn item_of(rest: &mut Bytes) -> Result<Self, PacketFault>
        ensures read { Gives (λ a. (a, rest.new)) result (item_at rest.old) }
        ensures shorter { OnOk result (length rest.new < length rest.old) };
}

/// In an UNSUBSCRIBE: the filter, or why the string is not one.
impl PayloadItem for Result<TopicFilter, TopicFault> {
    ghost item_at = { filter_at };

    #[tactic(auto, unfolding(crate::specs::PacketReading::filter_at))]
    fn item_of(rest: &mut Bytes) -> Result<Result<TopicFilter, TopicFault>, PacketFault> {
        let text = read_string(rest)?;
        Ok(TopicFilter::try_from(text))
    }
}

/// In a SUBSCRIBE: the filter, or why the string is not one, and the options.
impl PayloadItem for (Result<TopicFilter, TopicFault>, Options) {
    ghost item_at = { asked_at };

    #[tactic(auto, unfolding(crate::specs::PacketReading::asked_at))]
    fn item_of(
        rest: &mut Bytes,
    ) -> Result<(Result<TopicFilter, TopicFault>, Options), PacketFault> {
        let text = read_string(rest)?;
        let byte = read_u8(rest)?;
        let options = read_options(byte)?;
        Ok((TopicFilter::try_from(text), options))
    }
}

/// Reads all items of a payload.
pub fn all_items<I: PayloadItem + Drop>(alloc: Global, body: Bytes) -> Result<Vec<I>, PacketFault>
    ensures read { Gives (λ v. v.items) result (all_in I.item_at (length body) body) }
    ensures few { IfOk result (λ v. length v.items ≤ length body) }
    ensures some { IfOk result (λ v. 0 < length body → 0 < length v.items) }
{
    let mut all = Vec::new(alloc);
    let mut rest = body;
    'next: while !rest.is_empty() {
        let item = I::item_of(&mut rest)?;
        all.push(item)?;
    }
    Ok(all)
}

// The bits of the Subscription Options (3.8.3.1).
const MAXIMUM_QOS: u8 = 0b0000_0011;

const NO_LOCAL: u8 = 0b0000_0100;

const RETAIN_AS_PUBLISHED: u8 = 0b0000_1000;

const RETAIN_HANDLING: u8 = 0b0011_0000;

const RESERVED: u8 = 0b1100_0000;

/// Whether a reserved bit is set.
#[tactic(auto, using(crate::proofs::Quotients::reserved_is))]
fn has_reserved(byte: u8) -> bool
    ensures { result ≡ not (nat_lt byte 64) }
{
    byte & RESERVED != 0
}

/// The number of the Maximum QoS.
#[tactic(auto, using(crate::proofs::Quotients::maximum_qos_is))]
fn maximum_qos(byte: u8) -> u8
    ensures { result ≡ byte % 4 }
{
    byte & MAXIMUM_QOS
}

/// The number of the Retain Handling.
#[tactic(auto, using(crate::proofs::Quotients::retain_handling_is))]
fn retain_handling_of(byte: u8) -> u8
    requires { byte < 64 }
    ensures { result ≡ byte / 16 }
{
    (byte & RETAIN_HANDLING) >> 4
}

/// The Subscription Options. Malformed if a reserved bit is set; else Protocol if the Maximum QoS or the Retain Handling is 3.
#[tactic(auto, unfolding(crate::specs::PacketReading::options_of))]
fn read_options(byte: u8) -> Result<Options, PacketFault>
    ensures { Gives (λ o. o) result (options_of byte) }
{
    if has_reserved(byte) {
        return Err(PacketFault::Malformed);
    }
    let qos = match maximum_qos(byte) {
        0 => Qos::AtMostOnce,
        1 => Qos::AtLeastOnce,
        2 => Qos::ExactlyOnce,
        _ => return Err(PacketFault::Protocol),
    };
    let retain_handling = match retain_handling_of(byte) {
        0 => RetainHandling::Always,
        1 => RetainHandling::IfNew,
        2 => RetainHandling::Never,
        _ => return Err(PacketFault::Protocol),
    };
    Ok(Options {
        qos,
        no_local: is_set(byte, NO_LOCAL),
        retain_as_published: is_set(byte, RETAIN_AS_PUBLISHED),
        retain_handling,
    })
}
