//! The store of retained messages that many readers look at: a tree of levels whose nodes are shared between a catalogue and its
//! copies. `rs_tree_branch` has these nodes, and `rs_tree_bucket` what stands at the ends of the tree: a few messages below one spot.
#![tactic(auto)]

mod messages;
mod root;
mod totals;
mod tree;

pub use messages::TreeMessages;
pub use tree::TreeCatalogue;
