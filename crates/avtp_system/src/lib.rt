//! The command `avtp` over the system that it runs on: its arguments, its files and its standard output.
#![tactic(auto)]

ghost use Rattle.std.specs.Prelude.{◌≡◌};
ghost use Rattle.std.specs.Process.{exit_status};
ghost use Rattle.run_report.specs.Status.{code_of};

mod host;
mod output;
mod program;
mod progress;
mod system;

use crate::output::Output;
use crate::progress::{ProgressLine, WatchedShelf};
use avtp_files::{FileShelf, StdSink};
pub use host::Host;
pub use program::run_over;
use run_report::Status;
use std::process::ExitCode;
use std::thread::Threads;
pub use system::System;

/// The program's name. Each line on standard error that reports a fault begins with this name.
const PROGRAM: &str = "avtp";

/// Does what the arguments ask for, over real files and standard output, and returns the exit status. If a file or
/// standard output fails, standard error names what failed and the reason. There is one exception: if standard output
/// fails because its reader has ended, nothing is reported. If standard error is a terminal, it shows how much has been
/// read so far. The text appears after one second and is kept up to date.
pub fn run_program<T: Threads + Sync>(rt: &HostRuntime, threads: &T) -> ExitCode
    ensures { (ended : Status) × (exit_status result ≡ code_of ended) }
{
    let alloc = rt.alloc();
    let line = ProgressLine::new(*rt);
    let files = FileShelf::new(alloc, rt).telling(PROGRAM);
    let mut shelf = WatchedShelf::over(files, &line);
    let mut out = StdSink::new(Output::of(rt, PROGRAM, &line));
    let status = run_over(threads, alloc, &Host { rt: *rt }, &mut shelf, &mut out);
    line.remove();
    ExitCode::from(status.code())
}
