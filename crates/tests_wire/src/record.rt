//! Records of operations.

mod draw;
mod faults;
mod laws;
mod rows;
mod samples;
