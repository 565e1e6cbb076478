//! Operations on the store as bytes, and back, for what keeps them beyond the process. README.md has the bytes in a table.
//!
//! [`put_record`] appends the record of an operation. [`read_record`] takes one off the start of `Bytes`; the texts and the payload that
//! it gives share their memory. After a fault what is left has no meaning.
//!
//! Promised by contracts: `read_record` reads an operation exactly where the bytes begin with its record, and gives the first fault from
//! left to right anywhere else; only out of memory comes instead of these answers. [`record_law`] ties both directions together: what was
//! encoded is read again, whatever follows, one operation as well as many in a row; no record begins another; and a record that is cut
//! off is said to be.
#![tactic(auto)]

mod fault;
mod field;
mod law;
mod message;
mod optional;
mod properties;
mod record;

pub use fault::RecordFault;
pub use law::record_law;
pub use record::{put_record, read_record};
