//! A program on ten range sets: reads commands in lines, runs them, and writes a line for each
//! reply (docs/DECISIONS.md, program-is-main).
#![tactic(auto)]

use rsb_commands::start;
use std::process::ExitCode;

fn main(rt: HostRuntime) -> ExitCode {
    start(
        rt.alloc(),
        &mut rt.stdin(),
        &mut rt.stdout(),
        &mut rt.stderr(),
    )
}
