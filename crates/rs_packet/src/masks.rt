//! Bits of a byte, by masks.

ghost use Rattle.std.specs.Prelude.{◌≡◌, ◌==◌, ◌/◌, ◌%◌, true};
ghost use Rattle.rs_packet.specs.OneBit.{is_bit};

/// Whether this bit is set. The mask has one bit.
#[tactic(auto, using(crate::proofs::Quotients::set_is))]
pub(crate) fn is_set(byte: u8, mask: u8) -> bool
    requires { is_bit mask ≡ true }
    ensures { result ≡ (byte / mask % 2 == 1) }
{
    byte & mask != 0
}
