//! One connection from an input to an output, with a store of its own, and lines of hex digits, read and written as streams of bytes.
//!
//! [`pipe`] serves it, of raw bytes or of lines of hex digits, and [`serve_bytes`] in memory. [`OwnGate`] is the gate to its store.
//!
//! `pipe` promises what `serve` of `rs_server` does, at one moment: of the bytes themselves, or of those that lines of hex digits stand
//! for. `serve_bytes` promises the same if it is `Ok`, over an `OwnGate` to an empty store. The contracts do not say what standard input
//! gave or standard output got, or that a call returns.
//!
//! [`HexReader`] reads lines and gives their bytes, and [`HexWriter`] writes bytes as digits and ends a line at each flush.
//! [`read_hex`] reads one line: it gives the bytes of the line if that is an even number of hex digits.
#![tactic(auto)]

mod digits;
mod law;
mod line_buffer;
mod memory;
mod own_store;
mod piping;
mod reader;
mod writer;

pub use digits::{HexFault, read_hex};
pub use law::serials_law;
pub use memory::serve_bytes;
pub use own_store::{MAX_OWN_TOPICS, OwnGate};
pub use piping::{PipeFault, Piped, pipe};
pub use reader::HexReader;
pub use writer::HexWriter;
