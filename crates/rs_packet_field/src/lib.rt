//! The fields of the packets of MQTT 5.0 (OASIS, sections 1.5 and 2.2.2): integers, strings, binary data and properties. Each form
//! has a file in `src/`, with how it is read, how it is written, and how many bytes it takes. docs/WIRE.md has the rules in words.
//!
//! A reader takes its field off the start of `Bytes`; the strings and binary data that it gives share their memory. After a fault
//! what is left has no meaning. A writer appends to a `Vec`.
//!
//! Promised by contracts: a reader gives the field, or the first fault from left to right, exactly as the definition that its
//! contract names says; only out of memory comes instead of these answers. `read_properties` accepts a property if its packet
//! may have it and its value is in range, and accepts only User Properties more than once. A writer appends just the bytes of
//! the form, and a length is their number.
#![tactic(auto)]

mod binary;
mod fault;
mod number;
mod properties;
mod varint;

pub use binary::{put_binary, put_string, read_binary, read_part, read_string};
pub use fault::PacketFault;
pub use number::{put_u16, put_u32, read_u8, read_u16, read_u32};
pub use properties::{note_octets, properties_len, put_properties, read_properties};
pub use varint::{VarintFault, parse_varint, put_varint, read_varint, varint_len};
