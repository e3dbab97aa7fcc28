//! Set operations on lists of IP addresses (docs/DECISIONS.md, program-is-main).
#![tactic(auto)]

use ip_commands::{SystemInputs, start_from_env};
use std::process::ExitCode;

fn main(rt: HostRuntime) -> ExitCode {
    start_from_env(
        &rt,
        &SystemInputs::new(&rt),
        &mut rt.stdout(),
        &mut rt.stderr(),
    )
}
