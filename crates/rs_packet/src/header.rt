//! The header of a packet: its type and flags, and its length (2.1).

ghost use Rattle.std.specs.Prelude.{◌≡◌, ◌<◌, ◌≤◌, ◌++◌, length, take, List, ℕ, Ok};
ghost use Rattle.rs_packet.specs.declared.packet.Packet.{Packet};
ghost use Rattle.rs_packet.specs.declared.packet.Decoded.{Decoded};
ghost use Rattle.rs_packet.specs.PacketReading.{header_at, answer};
ghost use Rattle.rs_packet.specs.Prefixes.{IsMore};

use crate::packet::PacketKind;
use rs_message::MAX_PACKET_SIZE;
use rs_packet_field::{PacketFault, VarintFault, parse_varint};

/// What the first bytes of a packet say.
#[derive(Clone, Copy)]
pub(crate) struct Header {
    /// The kind of the packet, by its first byte.
    pub(crate) kind: PacketKind,
    /// The number of bytes before the body.
    pub(crate) start: usize,
    /// The number of bytes of the whole packet, at most `MAX_PACKET_SIZE`.
    pub(crate) size: usize,
}

/// The header that the bytes begin with; None if they end before it does. Malformed or Protocol if a client's packet does not
/// begin with the first byte, Malformed if the length has no form, TooLarge if the packet is longer than `MAX_PACKET_SIZE`.
#[tactic(auto, unfolding(crate::specs::PacketReading::header_at))]
pub(crate) fn parse_header(bytes: &[u8]) -> Result<Option<Header>, PacketFault>
    ensures { result ≡ header_at bytes.now }
{
    let [first, behind @ ..] = bytes else {
        return Ok(None);
    };
    let kind = PacketKind::try_from(*first)?;
    match parse_varint(behind) {
        Ok((len, rest)) => {
            let start = bytes.len() - rest.len();
            let size = start + len as usize;
            if size > MAX_PACKET_SIZE as usize {
                return Err(PacketFault::TooLarge);
            }
            Ok(Some(Header { kind, start, size }))
        }
        Err(VarintFault::Short) => Ok(None),
        Err(VarintFault::Bad) => Err(PacketFault::Malformed),
    }
}

/// How many bytes to collect before `decode` is called again. Reads at most the first five bytes (2.1.1, 2.1.4). As long as the
/// Remaining Length is incomplete, this is one more than there are; then it is the size of the packet. If the first byte or the
/// length is faulty, or the packet longer than `MAX_PACKET_SIZE`, it is as many as there are: `decode` names the fault.
///
/// A server calls this again after each read, and calls `decode` if it has as many bytes as this says: with fewer, `decode`
/// would only answer `More`.
pub fn needed_len(bytes: &[u8]) -> usize
    // Fewer bytes are less than a packet, whatever follows.
    ensures short { length bytes.now < result → IsMore bytes.now }
    ensures needed { (more : List ℕ) → length (bytes.now ++ more) < result → IsMore (bytes.now ++ more) }
    // That many decide, whatever follows.
    ensures enough { result ≤ length bytes.now → answer (take result bytes.now) ≡ answer bytes.now }
    ensures waits { IsMore bytes.now → length bytes.now < result }
    ensures whole { (p : Packet) (n : ℕ) → answer bytes.now ≡ Ok (Decoded.Whole p n) → result ≡ n }
    // Five bytes have the whole length in them, and so say the size of any packet that begins with them.
    ensures sized { (more : List ℕ) (p : Packet) (n : ℕ) → 5 ≤ length bytes.now → answer (bytes.now ++ more) ≡ Ok (Decoded.Whole p n)
        → result ≡ n }
{
    match parse_header(bytes) {
        Ok(Some(header)) => header.size,
        Ok(None) => bytes.len() + 1,
        Err(_fault) => bytes.len(),
    }
}
