//! The writer of a store that keeps on disk what it publishes.
//!
//! A [`KeptWriter`] commits an entry to a journal before it publishes it. So whatever a crash leaves stands for all that was published
//! ([`KeptWriter::journal`]), and nobody is told of an entry that a restart does not find. Between commits it keeps the journal short. A
//! [`CommitWatch`] is told of the commits. [`load`] finds what a crash left, as the messages with which a store is opened, and [`crash_law`]
//! says how this store answers.
#![tactic(auto)]

mod keeping;
mod kept_writer;
mod law;
mod loading;
mod publishing;
mod upkeep;
mod watching;

pub use kept_writer::{KeptWriter, MAX_HELD};
pub use law::crash_law;
pub use loading::load;
pub use watching::{CommitOutcome, CommitWatch};
