//! Works single calls of the crates again and again, for `bench/run`, and prints numbers, one a line. Times are in nanoseconds, of `decode`
//! and `encode` in microseconds, and `window` is timed from outside:
//!
//! - `tree TOPICS`: the calls of a tree in which so many topics, 1 to 65,536, hold a message;
//! - `full TOPICS`: the adds to a full tree of so many topics, and one that sweeps half of it;
//! - `window COUNT ROUNDS`: rounds of a window in which so many messages wait, 1 to 100,000;
//! - `decode ROUNDS` and `encode ROUNDS`: the one packet on standard input, a PUBLISH or a SUBSCRIBE, and what answers it;
//! - `versions TOPICS SEATS MILLIS`: the puts into a store of versions that so many seats read meanwhile;
//! - `open TOPICS`: the opening of a store of versions that begins with so many messages, 1 to 65,536.
//!
//! `keep TOPICS` and `keep_versions TOPICS` keep so many messages in one tree and in a store of versions, at topics of 64 bytes;
//! `keep_deep TOPICS` keeps them in a tree, at topics of the most levels, of which each two share all levels but the last.
//!
//! The status is 1 if memory, the clock, the words, the input or the output failed, 2 for other words, and 3 at a wrong answer.
#![tactic(auto)]

mod codec;
mod row;
mod tree;
mod versions;
mod window;

use crate::tree::Task;
use kit_test::{Failure, Naming};
use rs_store::TopicLimit;
use std::alloc::Global;
use std::env;
use std::env::Env;
use std::io::Read;
use std::process::ExitCode;
use std::rt::Clock;
use std::sync::Wait;
use std::thread::Threads;

/// The number that a word is.
fn number(word: &String) -> Result<u32, Failure> {
    match word.as_str().parse::<u32>() {
        Ok(number) => Ok(number),
        Err(_) => Err(Failure::Words),
    }
}

/// The number of topics that a word is.
fn topics(word: &String) -> Result<TopicLimit, Failure> {
    match TopicLimit::new(number(word)?) {
        Some(limit) => Ok(limit),
        None => Err(Failure::Words),
    }
}

/// Does a task of a tree.
fn of_tree<C: Clock>(
    clock: &C,
    alloc: Global,
    name: &str,
    word: &String,
) -> Result<Vec<u64>, Failure> {
    let task = match name {
        "tree" => Task::Calls,
        "full" => Task::Full,
        "keep" => Task::Keep(Naming::Even),
        "keep_deep" => Task::Keep(Naming::Deep),
        _ => return Err(Failure::Words),
    };
    tree::work(clock, alloc, task, topics(word)?)
}

/// Does the task of this name with these words.
fn work<H: Clock + Wait + Threads + Copy + Send + Sync + 'static, R: Read>(
    rt: &H,
    alloc: Global,
    input: &mut R,
    words: &[String],
) -> Result<Vec<u64>, Failure> {
    let [_program, name, rest @ ..] = words else {
        return Err(Failure::Words);
    };
    match (name.as_str(), rest) {
        ("decode", [rounds]) => codec::decoding(rt, alloc, input, number(rounds)?),
        ("encode", [rounds]) => codec::encoding(rt, alloc, input, number(rounds)?),
        ("keep_versions", [limit]) => versions::keep(rt, alloc, topics(limit)?),
        ("open", [limit]) => versions::opening(rt, alloc, topics(limit)?),
        ("window", [count, rounds]) => { window::work(alloc, number(count)?, number(rounds)?) }
        ("versions", [limit, seats, millis]) => {
            versions::puts(rt, alloc, topics(limit)?, number(seats)?, number(millis)?)
        }
        (name, [word]) => of_tree(rt, alloc, name, word),
        _ => Err(Failure::Words),
    }
}

/// Does the task that the words name, and prints its numbers.
fn run<
    H: Env + AllocGlobal + Print + Clock + Wait + Threads + Copy + Send + Sync + 'static,
    R: Read,
>(rt: &H, input: &mut R) -> Result<(), Failure> {
    let words = env::args(rt)?.collect::<Vec<String>>(rt.alloc())?;
    for number in work(rt, rt.alloc(), input, words.as_slice())? {
        println!(rt; "{number}")?;
    }
    Ok(())
}

fn main(rt: HostRuntime) -> ExitCode {
    match run(&rt, &mut rt.stdin()) {
        Ok(()) => ExitCode::SUCCESS,
        Err(failure) => {
            let _ = eprintln!(rt; "bench_timings: {}", failure.text());
            ExitCode::from(failure.status())
        }
    }
}
