//! The command `avtp` over real files and standard output.
#![tactic(auto)]

use avtp_system::run_program;
use std::process::ExitCode;

fn main(rt: HostRuntime) -> ExitCode {
    run_program(&rt, &rt)
}
