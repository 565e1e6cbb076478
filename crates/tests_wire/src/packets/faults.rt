//! The codes and texts of faults.

use kit_test::is_shown;
use rs_packet::PacketFault;

// Each fault, its number, and its text.
const FAULTS: &[(PacketFault, u8, &str)] = &[
    (
        PacketFault::Malformed,
        10,
        "the packet is malformed: see that its length, flags and fields have the form of MQTT 5.0",
    ),
    (
        PacketFault::Protocol,
        11,
        "the packet breaks the protocol: see that a client may send its type, properties and values",
    ),
    (
        PacketFault::TooLarge,
        12,
        "the packet is longer than the Maximum Packet Size of CONNACK: send less in one packet",
    ),
    (
        PacketFault::Version,
        13,
        "the protocol is not MQTT 5.0: connect with protocol version 5",
    ),
    (
        PacketFault::NoMemory,
        14,
        "memory ran out while the packet was read: try again later",
    ),
];

#[test]
fn faults_have_codes_and_texts(rt: HostRuntime) {
    for (fault, code, text) in FAULTS {
        assert!(rt; fault.code() == *code);
        assert!(rt; is_shown(rt.alloc(), fault, text));
    }
}
