//! What tests of whole runs have in common, whoever serves the clients: turns that play connections from memory ([`Script`]), or look at very
//! many ([`Publisher`]), connections as rows of a table ([`Row`]), what tells lanes of clients in memory ([`MemoryWatch`]), and runs of a store
//! over them. It is a crate of its own so that nothing of it is proved twice.
#![tactic(auto)]

mod publisher;
mod rows;
mod running;
mod script;
mod watch;

pub use publisher::{PUBACK, PUBLISH, Publisher, publishers};
pub use rows::{
    NONE, PLAIN, PUBLISHES, Row, SMOOTH, SUBSCRIBES, assigned, cut_row, ending, later, plain_row,
    put_rows, scripts,
};
pub use running::{Played, as_wanted, outcome, play, play_given, run, run_given, run_scripts};
pub use script::{CLOSED, Counts, Course, Input, Output, Script, ScriptClock, comes, free_scripts};
pub use watch::{Manner, MemoryWatch, lanes};
