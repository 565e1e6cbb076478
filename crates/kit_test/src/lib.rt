//! What tests of all crates, and the programs `check_tasks` and `bench_timings`, share. It is a crate of its own so that nothing of it
//! stands, and is proved, twice in them.
//!
//! - Packets as bytes, streams of which a call fails, and how a fault is shown.
//! - Operations and origins, made of a few bytes.
//! - An empty store of versions, what a seat of it reads, and the plain catalogue, in a map.
//! - What one failing call of a connection comes to, as a table, and a gate that refuses all.
//! - Topics, messages and entries by number, what keeps them, and why a program ends without its answer.
#![tactic(auto)]

mod entries;
mod failure;
mod faults;
mod gate;
mod keeper;
mod map;
mod packets;
mod samples;
mod shown;
mod stores;
mod streams;

pub use entries::{Change, HOUSE, Naming, entry, messages, operation, topic};
pub use failure::{Failure, check};
pub use faults::{
    FAULTS, FIRST, FIRST_REPLIES, Fault, SECOND, ServeResult, first_written, second_replies,
};
pub use gate::{REFUSING_GATE, Refusing};
pub use keeper::{Keeper, Outcome};
pub use map::{MapCatalogue, MapMessages};
pub use packets::{
    CONNACK, CONNECT, DISCONNECT, REPLAYED, SUBSCRIBED, concat, cut_off, is_concat, limits,
};
pub use samples::{PAYLOAD, clear, found, message, origin, set, set_at};
pub use shown::is_shown;
pub use stores::{blank_store, read_all};
pub use streams::{Behavior, Call, FaultyStream};
