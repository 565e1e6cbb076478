//! The program `rstored`: its command line, and what it serves: one connection from an input to an output (`rs_program_pipe`), or many clients
//! by TCP (`rs_tcp_server`).
//!
//! [`run`] is the program. [`read_words`] reads the command line, and gives what it asks for, each number in its range. The contracts do
//! not say which outcome the status of `run` is of, what standard input gave or standard output got, or that a call returns.
#![tactic(auto)]

mod listening;
mod program;
mod words;

pub use program::{RunFault, run};
pub use words::{Keep, MAX_CLIENTS, MAX_CONNECTIONS, MAX_IDLE, Run, WordsFault, read_words};
