//! Works single calls that are refused memory, for `checks/out_of_memory` and `checks/full_memory`, and prints numbers, one a line; and
//! serves the worked examples.
//!
//! The words are tasks, which are done one after the other. `examples` can only be the first. Behind it stands the path of a file, whose
//! examples are served.
//!
//! `tree`, `window`, `versions`, `given`, `queue` and `clients` look at what a tree, a window, a store of versions, stores that are opened with
//! messages, the queue to its writer and clients that share a seat show after they were refused memory. Each prints of each kind of call how often it was refused memory, kept
//! what it owes, and did its work when it was called again: 0 with ample memory. `connections` prints how many connections of a client were
//! broken off so, and in how many the publication was refused. `ended` serves 200,000 connections by lanes without a refusal, looks at each as
//! it comes back, and prints how many they were. `reserve` takes all memory itself, and needs a limit of the system.
//!
//! The status is 1 if memory, the words, the file or the output failed or an example differs, 2 for other words, and 3 if a call gave a
//! wrong answer.
#![tactic(auto)]

mod clients;
mod connections;
mod ended;
mod examples;
mod given;
mod groups;
mod queue;
mod reserve;
mod tree;
mod versions;
mod view;
mod window;

use crate::examples::Problem;
use kit_test::Failure;
use std::alloc::Global;
use std::env;
use std::env::Env;
use std::process::ExitCode;
use std::rt::Files;
use std::sync::Wait;
use std::thread::Threads;

/// Why a task ends without its answer.
#[derive(Clone, Copy)]
enum Fault {
    /// A call failed, or no task has that name.
    Call(Failure),
    /// The examples cannot be read, or one of them differs.
    Example(Problem),
}

impl From<Failure> for Fault {
    fn from(failure: Failure) -> Fault {
        Fault::Call(failure)
    }
}

impl From<Problem> for Fault {
    fn from(problem: Problem) -> Fault {
        Fault::Example(problem)
    }
}

/// Does the task of this name.
fn work<H: Wait + Threads + Copy + Send + Sync + 'static>(
    rt: &H,
    alloc: Global,
    name: &str,
) -> Result<Vec<u64>, Failure> {
    match name {
        "clients" => clients::work(rt, alloc),
        "connections" => connections::work(rt, alloc),
        "ended" => ended::work(rt, alloc),
        "given" => given::work(rt, alloc),
        "tree" => tree::work(alloc),
        "queue" => queue::work(rt, alloc),
        "reserve" => reserve::work(rt, alloc),
        "window" => window::work(alloc),
        "versions" => versions::work(rt, alloc),
        _ => Err(Failure::Words),
    }
}

/// Does the tasks of these names, and prints their numbers.
fn work_all<H: AllocGlobal + Print + Wait + Threads + Copy + Send + Sync + 'static>(
    rt: &H,
    names: &[String],
) -> Result<(), Failure> {
    for name in names {
        for number in work(rt, rt.alloc(), name.as_str())? {
            println!(rt; "{number}")?;
        }
    }
    Ok(())
}

/// The words of the command line, the first of which names the program.
fn read_words<H: Env + AllocGlobal>(rt: &H) -> Result<Vec<String>, Failure> {
    Ok(env::args(rt)?.collect::<Vec<String>>(rt.alloc())?)
}

/// Does the tasks that the words name.
fn run<H: Files + Env + AllocGlobal + Print + Wait + Threads + Copy + Send + Sync + 'static>(
    rt: &H,
) -> Result<(), Fault> {
    let words = read_words(rt)?;
    let names = match words.as_slice() {
        [_program, task, path, names @ ..] if task.as_str() == "examples" => {
            examples::work(rt, path.as_str())?;
            names
        }
        [_program, names @ ..] if !names.is_empty() => names,
        _ => return Err(Fault::Call(Failure::Words)),
    };
    Ok(work_all(rt, names)?)
}

fn main(rt: HostRuntime) -> ExitCode {
    match run(&rt) {
        Ok(()) => ExitCode::SUCCESS,
        Err(Fault::Call(failure)) => {
            let _ = eprintln!(rt; "check_tasks: {}", failure.text());
            ExitCode::from(failure.status())
        }
        Err(Fault::Example(problem)) => {
            let _ = eprintln!(rt; "check_tasks: {problem}");
            ExitCode::FAILURE
        }
    }
}
