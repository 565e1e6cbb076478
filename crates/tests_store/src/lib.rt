//! Tests of the store, from the tree to its writer, by public calls: the tree with shared nodes beside a map, what `rs_store` has besides,
//! versions, lines, the writer's loop and `rs_intake_queue`.
//!
//! They stand in a crate of their own, so that the crates below are not proved a second time with them.
#![tactic(auto)]

#[cfg(test)]
mod queue;
#[cfg(test)]
mod stores;
#[cfg(test)]
mod trees;
#[cfg(test)]
mod versions;
