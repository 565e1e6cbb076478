//! A shell over a journal in the folder that it runs in, for `bench/run`, `checks/journal` and `checks/out_of_memory`. It reads commands
//! from standard input, one a line. RECORDS are those of operations, one behind the other, in hex digits.
//!
//! - `open`: opens the files; the answer has the RECORDS that it finds;
//! - `retain`: the same with how many topics have a message, and nothing else is kept of what it finds;
//! - `push RECORDS`, `commit`, `sync`, `anew` (what is pushed from here on takes the place of all) and `checkpoint`;
//! - `again`: the RECORDS that stand;
//! - `shorten`: reads again what is retained, and lets a Set of each message take the place of all;
//! - `pages`: how many pages they take;
//! - `often COUNT RECORDS`: pushes and commits so often; the answer has the nanoseconds;
//! - `unsynced COUNT RECORDS`: the same over files that are opened for it, closed behind it, and not synced meanwhile;
//! - `close`.
//!
//! Each is answered by one line: `ok` with what is asked for, or `fault` with what the journal refused it for. The status is 1 if memory
//! was refused to the shell itself, or the clock, the input or the output failed, and 2 for another command.
#![tactic(auto)]

mod fault;
mod shell;

use crate::fault::Fault;
use crate::shell::answer;
use std::io::{BufRead, BufReader};
use std::process::ExitCode;

/// Answers each line.
fn run(rt: &HostRuntime) -> Result<(), Fault> {
    let alloc = rt.alloc();
    let mut journal = None;
    for line in BufReader::new(alloc, rt.stdin())?.lines(alloc) {
        let line = line?;
        match answer(rt, &mut journal, line.as_str()) {
            Ok(text) => println!(rt; "ok {text}")?,
            Err(fault) if fault.is_answered() => println!(rt; "fault {fault:?}")?,
            Err(fault) => return Err(fault),
        }
    }
    Ok(())
}

fn main(rt: HostRuntime) -> ExitCode {
    match run(&rt) {
        Ok(()) => ExitCode::SUCCESS,
        Err(fault) => {
            let _ = eprintln!(rt; "check_journal: {}", fault.text());
            ExitCode::from(fault.status())
        }
    }
}
