//! The nodes of the tree of topics: a [`Branch`] has the messages below one spot, the one of the spot itself and the others by their
//! next level.
//!
//! A branch sets, clears and looks up the message of one topic, sweeps, counts its messages and those that have expired, says when the
//! first message expires, and answers a filter, each exactly as its messages say. It shares its nodes with its copies: a node is changed
//! in place while it has one owner, and copied otherwise, so a copy never changes. If memory is refused, the messages stay as they were.
//!
//! An [`IndexPath`] keeps where a Set went, for another copy that is alike.
//!
//! [`Remains`] are the nodes that a Sweep took out, until later entries have dropped them.
#![tactic(auto)]

mod branch;
mod index_path;

pub use branch::{Branch, Remains};
pub use index_path::IndexPath;
