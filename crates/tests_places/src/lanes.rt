//! Clients of one store, each with a line of its own, which a few lanes serve, with the writer in a thread.

mod bursts;
mod crowds;
mod ended;
