//! Connections, the listener, what tells of them, and the clock.

mod answering;
mod clocks;
mod connections;
mod echo;
mod listening;
mod peer;
mod polling;
mod telling;
mod watched;
