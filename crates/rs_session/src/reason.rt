//! Reason codes: section 2.4.

ghost use Rattle.std.specs.Prelude.{◌≡◌};
ghost use Rattle.rs_session.specs.Reasons.{reason_value};

/// The Reason Codes that a session chooses, each with the sections that say when it is sent.
#[derive(Clone, Copy, Debug, PartialEq, Eq)]
pub enum ReasonCode {
    /// 3.2.2.2, 3.4.2.1, 3.5.2.1, 3.6.2.1, 3.7.2.1, 3.11.3.
    Success = 0x00,
    /// 3.11.3.
    NoSubscriptionExisted = 0x11,
    /// 3.14.2.1, 4.13.
    MalformedPacket = 0x81,
    /// 3.14.2.1, 4.13.
    ProtocolError = 0x82,
    /// 3.2.2.2, 3.14.2.1.
    ImplementationSpecificError = 0x83,
    /// 3.1.2.2, 3.2.2.2.
    UnsupportedProtocolVersion = 0x84,
    /// 3.2.2.2, 4.12.
    BadAuthenticationMethod = 0x8C,
    /// 3.9.3, 3.11.3.
    TopicFilterInvalid = 0x8F,
    /// 3.14.2.1.
    TopicNameInvalid = 0x90,
    /// 3.6.2.1, 3.7.2.1.
    PacketIdentifierNotFound = 0x92,
    /// 3.3.4, 3.14.2.1.
    ReceiveMaximumExceeded = 0x93,
    /// 3.3.2.3.4, 3.14.2.1.
    TopicAliasInvalid = 0x94,
    /// 3.14.2.1.
    PacketTooLarge = 0x95,
    /// 3.2.2.2, 3.4.2.1, 3.5.2.1, 3.9.3, 3.14.2.1.
    QuotaExceeded = 0x97,
    /// 3.9.3, 4.8.2.
    SharedSubscriptionsNotSupported = 0x9E,
}

impl ReasonCode {
    /// The byte of this code.
    pub fn code(self) -> u8
        ensures { result ≡ reason_value self }
    {
        self as u8
    }
}
