//! Tests of `pipe` and of lines of hex digits, of the server, of command lines, and of what ends the program, by the public calls of
//! `rs_program_pipe`, `rs_tcp_server` and `rs_program`. They stand in a crate of their own, so that these are not proved a second time with
//! them.
#![tactic(auto)]

#[cfg(test)]
mod hex_lines;
#[cfg(test)]
mod listening;
#[cfg(test)]
mod pipe;
#[cfg(test)]
mod statuses;
#[cfg(test)]
mod words;
