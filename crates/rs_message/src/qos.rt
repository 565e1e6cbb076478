//! The quality of service.

/// The quality of service (4.3).
#[derive(Clone, Copy, Debug, PartialEq, Eq)]
pub enum Qos {
    /// QoS 0 (4.3.1): no identifier, and no acknowledgement.
    AtMostOnce,
    /// QoS 1 (4.3.2): acknowledged by a PUBACK.
    AtLeastOnce,
    /// QoS 2 (4.3.3): acknowledged by a PUBREC, a PUBREL and a PUBCOMP.
    ExactlyOnce,
}

impl Qos {
    ghost use Rattle.std.specs.Prelude.{◌≡◌, ◌<◌};
    ghost use Rattle.rs_message.specs.Sizes.{level};

    /// The number of the QoS in a packet: 0, 1 or 2.
    pub fn level(self) -> u8
        ensures value { result ≡ level self }
        ensures small { result < 3 }
    {
        match self {
            Qos::AtMostOnce => 0,
            Qos::AtLeastOnce => 1,
            Qos::ExactlyOnce => 2,
        }
    }
}
