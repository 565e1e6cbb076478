//! Tests of topics, messages, packets, the window, records, sessions and connections by their public calls. They stand in a crate of their
//! own, so that the crates below are not proved a second time with them.
#![tactic(auto)]

#[cfg(test)]
mod connections;
#[cfg(test)]
mod handed;
#[cfg(test)]
mod messages;
#[cfg(test)]
mod packets;
#[cfg(test)]
mod record;
#[cfg(test)]
mod topics;
#[cfg(test)]
mod windows;
