//! Versions of the store: one writer publishes them, and seats read them without waiting.
//!
//! The history of a store is the list of its entries. It exists only in proofs. [`VersionWriter::put`] adds one entry to it
//! and publishes the list with that entry, a version. If only a Sweep makes space for the entry, the Sweep is added and published
//! first. [`Seat::answer`] answers from a version whose list has the list that the seat knows as a prefix; [`Seat::read`] gives that
//! version ([`Version`]), to be asked without the seat. A token ([`Told`])
//! names a published list; a seat that learned it ([`Seat::learn`]) never reads less from then on. A [`Receipt`] says at which
//! number of the list an entry is. A type that implements [`StoreName`] ties the writer, the seats and the tokens of one store
//! together, and [`Blank::open`] makes them. A store begins empty, or with messages that it is given ([`Blank::open_with`]).
//!
//! The catalogue stands in two copies. One is published while the writer changes the other, and a publish swaps them. A seat takes
//! the messages of the published one, which is to count one more owner of its nodes, leaves, and answers from what it took. Before a
//! copy is changed, the writer waits for the seats that are still inside of it: each for as long as that count takes, and none for a
//! walk.
//!
//! Not promised: that a publish returns, since it waits for seats; that a seat which learned nothing reads what was published
//! last; that memory is there.
#![tactic(auto)]

mod blank;
mod catalogue;
mod catalogue_copy;
mod copies;
mod fault;
mod given;
mod history;
mod law;
mod named;
mod prefix;
mod receipt;
mod reserve;
mod rule;
mod seat;
mod store_writer;
mod version;
mod writer;

pub use blank::Blank;
pub use fault::{OpenFault, PutFault};
pub use history::StoreName;
pub use law::{one_held_law, origin_law};
pub use receipt::{Receipt, Told};
pub use seat::{Seat, Snapshot};
pub use store_writer::StoreWriter;
pub use version::Version;
pub use writer::VersionWriter;
