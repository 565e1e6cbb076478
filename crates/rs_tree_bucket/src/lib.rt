//! A few retained messages below one spot of a tree of topics: a [`Bucket`].
//!
//! The messages of a bucket lie side by side, in the order of replay, each with what its topic has below the spot. A bucket sets and
//! looks up the message of one topic, clears it unless it is the only one, sweeps, counts what has expired, says when the first message
//! expires, and answers a filter, each exactly as its messages say. It shares its messages with its copies, is changed in place while it
//! has one owner, and is copied otherwise: so a copy never changes. If memory is refused, nothing changes.
//!
//! Here is also what a tree above buckets has of the same messages: the levels above them, as a [`Label`] of one level, which a
//! [`Sought`] level is compared with, or as a chain of levels in one text ([`skip_chain`], [`match_chain`], [`join_chains`],
//! [`shared_levels`]); the message of one spot alone ([`answer_retained`], [`copy_retained`]); the messages of a bucket that has too many
//! ([`Leaves`], [`Leaf`]); and what a Clear found ([`Cleared`]).
#![tactic(auto)]

mod bucket;
mod chain;
mod cleared;
mod key;
mod label;
mod leaf;
mod leaves;
mod retained;
mod sought;

pub use bucket::Bucket;
pub use chain::{SharedLevels, join_chains, match_chain, shared_levels, skip_chain};
pub use cleared::Cleared;
pub use label::Label;
pub use leaf::Leaf;
pub use leaves::Leaves;
pub use retained::{answer_retained, copy_retained};
pub use sought::Sought;
