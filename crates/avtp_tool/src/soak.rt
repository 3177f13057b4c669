//! The command `soak`: what becomes of a stream over a bad network.

ghost use Rattle.std.specs.Prelude.{◌≤◌};
ghost use Rattle.avtp_text.specs.Soak.{soak_line};
ghost use Rattle.run_report.specs.Outcome.{EndsWith};
ghost use Rattle.avtp_tool.specs.Soak.{soak_report};
ghost use Rattle.avtp_tool.specs.state.Soak.{Says};

use avtp_base::{Failed, NoMemory};
use avtp_files::Sink;
use avtp_text::Text;
use run_report::Status;
use soak_run::SoakCounts;
use std::alloc::Global;
use std::thread::Threads;

/// Sends packets over a network that loses, repeats and delays them, and prints what a listener makes of the packets
/// that arrive. One thread listens, and another counts what became of the deliveries.
pub fn soak<T: Threads + Sync, S: Sink>(
    rt: &T,
    alloc: Global,
    packets: u32,
    text: &mut Text,
    out: &mut S,
) -> Result<Status, Failed>
    requires { packets ≤ 1000000 }
    ensures { Says (soak_report packets) (S.state out.old) (S.state out.new) text.old text.new result }
{
    match soak_run::soak(rt, alloc, packets) {
        Ok(counts) => print_counts(text, out, packets, &counts),
        Err(NoMemory) => Ok(Status::Memory),
    }
}

/// Prints what became of the deliveries of `packets` packets.
fn print_counts<S: Sink>(
    text: &mut Text,
    out: &mut S,
    packets: u32,
    counts: &SoakCounts,
) -> Result<Status, Failed>
    ensures { EndsWith Status.Done (S.state out.old) (S.state out.new) text.old text.new result (soak_line packets counts.now) }
{
    text.soak(out, packets, counts)?;
    Ok(Status::Done)
}
