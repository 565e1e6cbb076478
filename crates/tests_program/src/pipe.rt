//! `pipe`, by the public calls of `rs_program_pipe`.

mod faults;
mod lines;
mod piping;
mod refusals;
