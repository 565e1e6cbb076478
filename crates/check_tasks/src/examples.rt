//! Serves the worked examples of a file: whole connections over memory, byte for byte.
//!
//! The head of the file says how an example is written. Each example is served in one piece, cut in two at each byte, and byte by byte.
//! Each time the replies, the end of each connection and what the store holds must be as the file says, and each reply must be flushed
//! by itself. `decode` must ask for more at each prefix of a packet. Long examples are served in one piece and byte by byte. Each is also
//! served in a run of a store that began with messages, which another client has cleared.

mod cleared;
mod example;
mod file;
mod pieces;
mod prefix;
mod problem;
mod replies;
mod serving;
mod words;

use crate::examples::example::Example;
use crate::examples::file::read_examples;
pub use problem::Problem;
use std::fs;
use std::rt::Files;
use std::sync::Wait;
use std::thread::Threads;

fn check_all<H: AllocGlobal + Wait + Threads + Copy + Send + Sync + 'static>(
    rt: &H,
    examples: &[Example],
) -> Result<(), Problem> {
    let alloc = rt.alloc();
    for example in examples {
        serving::check(rt, alloc, example)?;
        prefix::check(alloc, example)?;
        cleared::check(rt, alloc, example)?;
    }
    Ok(())
}

/// Serves the examples of the file, and prints how many they are.
pub fn work<H: Files + AllocGlobal + Print + Wait + Threads + Copy + Send + Sync + 'static>(
    rt: &H,
    path: &str,
) -> Result<(), Problem> {
    let text = fs::read_to_string(rt, path)?;
    let examples = read_examples(rt.alloc(), text.as_str())?;
    check_all(rt, examples.as_slice())?;
    let count = examples.len();
    println!(rt; "{count} examples")?;
    Ok(())
}
