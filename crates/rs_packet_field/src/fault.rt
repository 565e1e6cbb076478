//! Why bytes are not a packet.

ghost use Rattle.std.specs.Prelude.{◌≡◌};
ghost use Rattle.rs_packet_field.specs.declared.fault.PacketFault.TheVariants.{NoMemory};

use std::alloc::{AllocError, AllocFailed};
use thiserror::Error;

/// The first fault of the bytes of a packet, from left to right.
#[derive(Clone, Copy, Debug, PartialEq, Eq, Error)]
pub enum PacketFault {
    /// 10: the bytes break the form of a packet: reason code 0x81 (1.2, 4.13).
    #[error("the packet is malformed: see that its length, flags and fields have the form of MQTT 5.0")]
    Malformed,
    /// 11: they have the form, and say something that a client may not say: reason code 0x82 (4.13).
    #[error("the packet breaks the protocol: see that a client may send its type, properties and values")]
    Protocol,
    /// 12: the packet is longer than the server reads: reason code 0x95 (3.2.2.3.6).
    #[error("the packet is longer than the Maximum Packet Size of CONNACK: send less in one packet")]
    TooLarge,
    /// 13: a CONNECT of another protocol, or of another version: reason code 0x84 (3.1.2.2).
    #[error("the protocol is not MQTT 5.0: connect with protocol version 5")]
    Version,
    /// 14: memory was refused.
    #[error("memory ran out while the packet was read: try again later")]
    NoMemory,
}

impl PacketFault {
    ghost use Rattle.rs_packet_field.specs.Faults.{fault_code};

    /// The number of the fault, from 10 to 14.
    pub fn code(&self) -> u8
        ensures { result ≡ fault_code self.now }
    {
        match self {
            PacketFault::Malformed => 10,
            PacketFault::Protocol => 11,
            PacketFault::TooLarge => 12,
            PacketFault::Version => 13,
            PacketFault::NoMemory => 14,
        }
    }
}

impl From<AllocError> for PacketFault {
    ghost from_gives = { λ _ e. e ≡ NoMemory };

    fn from(_e: AllocError) -> PacketFault {
        PacketFault::NoMemory
    }
}

impl<T: Drop> From<AllocFailed<T>> for PacketFault {
    ghost from_gives = { λ _ e. e ≡ NoMemory };

    fn from(_e: AllocFailed<T>) -> PacketFault {
        PacketFault::NoMemory
    }
}
