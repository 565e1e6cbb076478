//! Variable byte integers (1.5.5).

ghost use Rattle.std.specs.Prelude.{◌≡◌, ◌<◌, ◌≤◌, ◌^◌, ◌++◌, length, IfOk, OnOk, OnErr};
ghost use Rattle.rs_packet_property.specs.Forms.{varint, varint_end};
ghost use Rattle.rs_packet_field.specs.Reading.{Gives, GivesNumber, digits_at, varint_at};

use crate::fault::PacketFault;
use bytes::{Buf, Bytes};
use std::alloc::AllocError;

/// Why bytes do not begin with a variable byte integer (1.5.5).
#[derive(Clone, Copy, Debug)]
pub enum VarintFault {
    /// They end before it does.
    Short,
    /// It has more than four bytes, or more than its number needs.
    Bad,
}

#[tactic(auto, unfolding(crate::specs::Reading::digits_at))]
fn last_digit(bytes: &[u8]) -> Result<(u32, &[u8]), VarintFault>
    ensures number { GivesNumber (λ x. (x.0, x.1.now)) result (digits_at 1 bytes.now) }
    ensures small { IfOk result (λ x. x.0 < 2 ^ 7) }
    ensures shorter { IfOk result (λ x. length x.1.now < length bytes.now) }
{
    match bytes {
        [] => Err(VarintFault::Short),
        [b, more @ ..] if *b < 128 => Ok((u32::from(*b), more)),
        _ => Err(VarintFault::Bad),
    }
}

#[tactic(auto, unfolding(crate::specs::Reading::digits_at))]
fn two_digits(bytes: &[u8]) -> Result<(u32, &[u8]), VarintFault>
    ensures number { GivesNumber (λ x. (x.0, x.1.now)) result (digits_at 2 bytes.now) }
    ensures small { IfOk result (λ x. x.0 < 2 ^ 14) }
    ensures shorter { IfOk result (λ x. length x.1.now < length bytes.now) }
{
    match bytes {
        [] => Err(VarintFault::Short),
        [b, more @ ..] if *b < 128 => Ok((u32::from(*b), more)),
        [b, more @ ..] => {
            let (high, rest) = last_digit(more)?;
            if high == 0 {
                return Err(VarintFault::Bad);
            }
            Ok((u32::from(*b) - 128 + 128 * high, rest))
        }
    }
}

#[tactic(auto, unfolding(crate::specs::Reading::digits_at))]
fn three_digits(bytes: &[u8]) -> Result<(u32, &[u8]), VarintFault>
    ensures number { GivesNumber (λ x. (x.0, x.1.now)) result (digits_at 3 bytes.now) }
    ensures small { IfOk result (λ x. x.0 < 2 ^ 21) }
    ensures shorter { IfOk result (λ x. length x.1.now < length bytes.now) }
{
    match bytes {
        [] => Err(VarintFault::Short),
        [b, more @ ..] if *b < 128 => Ok((u32::from(*b), more)),
        [b, more @ ..] => {
            let (high, rest) = two_digits(more)?;
            if high == 0 {
                return Err(VarintFault::Bad);
            }
            Ok((u32::from(*b) - 128 + 128 * high, rest))
        }
    }
}

/// The variable byte integer that the bytes begin with, and what follows it.
#[tactic(auto, unfolding(crate::specs::Reading::digits_at))]
pub fn parse_varint(bytes: &[u8]) -> Result<(u32, &[u8]), VarintFault>
    ensures number { GivesNumber (λ x. (x.0, x.1.now)) result (digits_at 4 bytes.now) }
    ensures small { IfOk result (λ x. x.0 < varint_end) }
    ensures shorter { IfOk result (λ x. length x.1.now < length bytes.now) }
{
    match bytes {
        [] => Err(VarintFault::Short),
        [b, more @ ..] if *b < 128 => Ok((u32::from(*b), more)),
        [b, more @ ..] => {
            let (high, rest) = three_digits(more)?;
            if high == 0 {
                return Err(VarintFault::Bad);
            }
            Ok((u32::from(*b) - 128 + 128 * high, rest))
        }
    }
}

/// Reads a variable byte integer, at most `MAX_REMAINING_LENGTH`. Malformed if there is none; then nothing is read.
#[tactic(auto, unfolding(crate::specs::Reading::varint_at), using(crate::proofs::Numbers::digits_rest))]
pub fn read_varint(rest: &mut Bytes) -> Result<u32, PacketFault>
    ensures number { Gives (λ n. (n, rest.new)) result (varint_at rest.old) }
    ensures small { IfOk result (λ n. n < varint_end) }
    ensures shorter { OnOk result (length rest.new < length rest.old) }
    ensures err { OnErr result (rest.new ≡ rest.old) }
{
    let bytes = rest.as_slice();
    let Ok((n, behind)) = parse_varint(bytes) else {
        return Err(PacketFault::Malformed);
    };
    let used = bytes.len() - behind.len();
    rest.advance(used);
    Ok(n)
}

/// The number of bytes of a variable byte integer (1.5.5), from 1 to 4. `n` is at most
/// [`MAX_REMAINING_LENGTH`](crate::MAX_REMAINING_LENGTH).
#[tactic(auto, unfolding(rs_packet_property::specs::Forms::low_first))]
pub fn varint_len(n: usize) -> usize
    requires { n < varint_end }
    ensures value { result ≡ length (varint n) }
    ensures small { result ≤ 4 }
{
    if n < 128 {
        1
    } else if n < 16384 {
        2
    } else if n < 2097152 {
        3
    } else {
        4
    }
}

/// Appends a variable byte integer (1.5.5). `n` is at most [`MAX_REMAINING_LENGTH`](crate::MAX_REMAINING_LENGTH).
#[tactic(auto, using(crate::proofs::Written::varint_1, crate::proofs::Written::varint_2, crate::proofs::Written::varint_3, crate::proofs::Written::varint_4))]
pub fn put_varint(out: &mut Vec<u8>, n: usize) -> Result<(), AllocError>
    requires { n < varint_end }
    ensures { OnOk result (out.new.items ≡ out.old.items ++ varint n) }
{
    if n < 128 {
        out.extend_from_slice(&[n as u8])?;
    } else if n < 16384 {
        out.extend_from_slice(&[(n % 128 + 128) as u8, (n / 128) as u8])?;
    } else if n < 2097152 {
        out.extend_from_slice(&[
            (n % 128 + 128) as u8,
            (n / 128 % 128 + 128) as u8,
            (n / 128 / 128) as u8,
        ])?;
    } else {
        out.extend_from_slice(&[
            (n % 128 + 128) as u8,
            (n / 128 % 128 + 128) as u8,
            (n / 128 / 128 % 128 + 128) as u8,
            (n / 128 / 128 / 128) as u8,
        ])?;
    }
    Ok(())
}
