//! The properties of packets (OASIS MQTT 5.0, section 2.2.2): which there are, which packet may have each, the values that a packet
//! gives, and those that a message carries. `rs_packet_field` reads and writes them.
//!
//! Promised by contracts: an identifier has its number, its packets and its values as the definitions that the contracts name say.
//! Copies of `Properties` are equal, and share their values; `==` goes field by field. A `SubscriptionId` is never 0 and always has a
//! form of at most four bytes.
#![tactic(auto)]

mod carried;
mod limits;
mod property;
mod subscription;

pub use carried::{Properties, PropertyFields};
pub use limits::MAX_REMAINING_LENGTH;
pub use property::{
    CONTENT_TYPE, CORRELATION_DATA, IDENTIFIERS, Identifier, MESSAGE_EXPIRY_INTERVAL,
    PAYLOAD_FORMAT_INDICATOR, Property, PropertyOwner, PropertyValues, RESPONSE_TOPIC,
    SUBSCRIPTION_IDENTIFIER, USER_PROPERTY,
};
pub use subscription::SubscriptionId;
