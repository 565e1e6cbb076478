//! Tests over what touches sockets, by public calls: the pool, connections, the watch of sockets, and the metrics with the thread that
//! tells them by HTTP.
//!
//! The pool is tested over clients and a watch in memory, and how the threads of a lane follow each other over a model of it. What clients
//! see over TCP, `checks/listening`, `checks/operating` and `checks/metrics` show. They stand in a crate of their own, so that the crates
//! below are not proved a second time with them.
#![tactic(auto)]

#[cfg(test)]
mod metrics;
#[cfg(test)]
mod pool;
#[cfg(test)]
mod sockets;
#[cfg(test)]
mod watching;
