//! How a run ends if a file cannot be read to its end, cannot be opened or cannot be made.

ghost use Rattle.std.specs.Prelude.{◌≡◌};
ghost use Rattle.avtp_text.specs.Notices.{read_fault_line};
ghost use Rattle.avtp_text.specs.Written.{Prints};
ghost use Rattle.run_report.specs.Endings.{side_line, unmade_as};
ghost use Rattle.run_report.specs.Outcome.{EndsUnopened, EndsWith};

use crate::status::Status;
use avtp_base::{Failed, OpenFault};
use avtp_files::Sink;
use avtp_text::Text;
use capture_io::End;

/// Prints that a file could not be read.
pub fn print_fault<S: Sink>(text: &mut Text, out: &mut S) -> Result<Status, Failed>
    ensures { EndsWith Status.ReadFault (S.state out.old) (S.state out.new) text.old text.new result read_fault_line }
{
    text.read_fault(out)?;
    Ok(Status::ReadFault)
}

/// Prints that a file could not be opened. If memory ran out, nothing is printed, and the status says so.
pub fn print_unopened<S: Sink>(
    text: &mut Text,
    out: &mut S,
    fault: OpenFault,
) -> Result<Status, Failed>
    ensures { EndsUnopened fault (S.state out.old) (S.state out.new) text.old text.new result }
{
    match fault {
        OpenFault::Memory => Ok(Status::Memory),
        OpenFault::Missing => print_fault(text, out),
        OpenFault::Failed => print_fault(text, out),
    }
}

/// If a capture was not read to its end, prints the reason.
pub fn print_side<S: Sink>(text: &mut Text, out: &mut S, limit: u64, end: End) -> Result<(), Failed>
    ensures { Prints (S.state out.old) (S.state out.new) text.old text.new result (side_line limit end) }
{
    match end {
        End::Whole => Ok(()),
        End::Refused(refusal) => text.capture_refused(out, refusal),
        End::ReadFault => text.read_fault(out),
        End::Limit => text.limit(out, limit),
    }
}

/// The status of a run whose file could not be made.
pub fn unmade(fault: OpenFault) -> Status
    ensures { result ≡ unmade_as fault }
{
    match fault {
        OpenFault::Memory => Status::Memory,
        OpenFault::Missing | OpenFault::Failed => Status::WriteFault,
    }
}
