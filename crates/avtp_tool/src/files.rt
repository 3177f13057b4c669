//! Files that are read one after another.

ghost use Rattle.std.specs.Prelude.{◌≡◌, false, nat_lt};
ghost use Rattle.run_report.specs.Yield.{HandsOn};
ghost use Rattle.avtp_words.specs.Grammar.{listen as listen_request, listening_of};
ghost use Rattle.option_words.specs.Word.{texts};
ghost use Rattle.avtp_tool.specs.state.Files.{is_hearing, IsReading, limit_for, plan_for, report_for};
ghost use Rattle.avtp_text.specs.Notices.{device_fault_line};
ghost use Rattle.run_report.specs.Outcome.{EndsWith};
ghost use Rattle.run_report.specs.Reading.{DoesFile, DoesFiles};
ghost use Rattle.listen_command.specs.Listen.{IsListening};
ghost use Rattle.run_report.specs.Runs.{Runs};
ghost use Rattle.avtp_tool.specs.state.Run.{task_of};

use avtp_base::Failed;
use avtp_files::{Shelf, Sink};
use avtp_text::Text;
use avtp_words::Listen;
use check_command::check;
use device_rack::Devices;
use listen_command::listen;
use presenter_ring::Gate;
use run_report::{Context, Machine, Status};
use std::thread::Threads;

/// What is done with each file.
#[derive(Clone, Copy, Debug)]
pub enum Reading<'a> {
    /// Check the file, and read at most `limit` bytes of it.
    Check { limit: u64 },
    /// Listen to a stream in the file.
    Listen(&'a Listen<'a>),
}

/// Reads the files in order, and does with each file what is asked for. The first file that cannot be read to its end
/// ends the run.
pub fn read_files<T: Threads + Sync, F: Shelf + Send, S: Sink + Send, G: Gate, D: Devices + Send>(
    machine: &Machine<'_, T, G>,
    reading: &Reading<'_>,
    files: &[String],
    context: Context<'_, '_, '_, F, S>,
    rack: &mut D,
) -> Result<Status, Failed>
    requires { IsReading reading.now }
    ensures kept { is_hearing reading.now ≡ false → rack.new ≡ rack.old }
    ensures does { DoesFiles (plan_for reading.now (texts files.now)) (HandsOn D.handed rack.old rack.new) (F.state context.entry.shelf.now) (F.state context.exit.0.now) (S.state context.entry.out.now) (S.state context.exit.1.1.0.now) context.entry.text.now context.exit.1.0.now result }
{
    let Context { shelf, text, out } = context;
    let mut ended = Status::Done;
    for file in files {
        match read_file(machine, reading, file, Context { shelf, text, out }, rack)? {
            Status::Done => {}
            Status::Findings => ended = Status::Findings,
            other => return Ok(other),
        }
    }
    Ok(ended)
}

/// Listens to the files in order. If all files were read to their ends and a device failed, the last line says so.
pub fn hear_files<T: Threads + Sync, F: Shelf + Send, S: Sink + Send, G: Gate, D: Devices + Send>(
    machine: &Machine<'_, T, G>,
    asked: &Listen<'_>,
    context: Context<'_, '_, '_, F, S>,
    rack: &mut D,
) -> Result<Status, Failed>
    requires { IsListening (listening_of asked.now) }
    ensures { Runs (task_of (listen_request (listening_of asked.now))) (HandsOn D.handed rack.old rack.new) (nat_lt (D.failures rack.old) (D.failures rack.new)) (F.state context.entry.shelf.now) (F.state context.exit.0.now) (S.state context.entry.out.now) (S.state context.exit.1.1.0.now) context.entry.text.now context.exit.1.0.now result }
{
    let Context { shelf, text, out } = context;
    let failed = rack.count_failed();
    let reading = Reading::Listen(asked);
    let ended = read_files(
        machine,
        &reading,
        asked.files,
        Context { shelf, text, out },
        rack,
    )?;
    match ended {
        Status::Done => {}
        other => return Ok(other),
    }
    if failed < rack.count_failed() {
        return print_device_fault(text, out);
    }
    Ok(Status::Done)
}

/// Prints that a device failed.
fn print_device_fault<S: Sink>(text: &mut Text, out: &mut S) -> Result<Status, Failed>
    ensures { EndsWith Status.DeviceFault (S.state out.old) (S.state out.new) text.old text.new result device_fault_line }
{
    text.device_fault(out)?;
    Ok(Status::DeviceFault)
}

/// Reads a file, and does with it what is asked for.
fn read_file<T: Threads + Sync, F: Shelf + Send, S: Sink + Send, G: Gate, D: Devices + Send>(
    machine: &Machine<'_, T, G>,
    reading: &Reading<'_>,
    file: &str,
    context: Context<'_, '_, '_, F, S>,
    rack: &mut D,
) -> Result<Status, Failed>
    requires { IsReading reading.now }
    ensures kept { is_hearing reading.now ≡ false → rack.new ≡ rack.old }
    ensures does { DoesFile (report_for reading.now file.now) (HandsOn D.handed rack.old rack.new) (limit_for reading.now) file.now (F.state context.entry.shelf.now) (F.state context.exit.0.now) (S.state context.entry.out.now) (S.state context.exit.1.1.0.now) context.entry.text.now context.exit.1.0.now result }
{
    match reading {
        Reading::Check { limit } => check(machine.alloc, *limit, file, context),
        Reading::Listen(asked) => listen(machine, asked, file, context, rack),
    }
}
