//! The program: retained MQTT 5 messages, for one connection or for many by TCP.
#![tactic(auto)]

use std::process::ExitCode;

fn main(rt: HostRuntime) -> ExitCode {
    ExitCode::from(rs_program::run(&rt, rt.stdin(), rt.stdout()))
}
