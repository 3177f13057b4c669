//! The command `show`: what each record of a capture holds.

ghost use Rattle.std.specs.Prelude.{◌^◌, ◌≤◌};
ghost use Rattle.run_report.specs.Outcome.{EndsWith};
ghost use Rattle.run_report.specs.Reading.{DoesFile, IsOpen, ReadsRecords};
ghost use Rattle.avtp_tool.specs.Show.{end_line, show_report};
ghost use Rattle.avtp_tool.specs.state.Show.{PrintsRecords};
ghost use Rattle.run_report.specs.Yield.{HandsNothing};
ghost use Rattle.run_report.specs.Status.{status_of};

use crate::record::print_record;
use avtp_base::Failed;
use avtp_files::{Shelf, Sink};
use avtp_text::Text;
use capture_io::{End, Source};
use run_report::{Context, Status, next_record, print_unopened};
use std::alloc::Global;

/// How many records of a capture were printed, and how its reading ended.
#[derive(Clone, Copy, Debug, PartialEq, Eq)]
pub struct Printed {
    pub frames: u64,
    pub end: End,
}

/// Prints a line for each record of a capture, and then a last line. Reads at most `limit` bytes of the capture. All
/// memory is allocated before the first line, so nothing is printed if memory runs out.
pub fn show<F: Shelf, S: Sink>(
    alloc: Global,
    limit: u64,
    file: &str,
    context: Context<'_, '_, '_, F, S>,
) -> Result<Status, Failed>
    requires { limit ≤ 2 ^ 40 }
    ensures { DoesFile (show_report limit) HandsNothing limit file.now (F.state context.entry.shelf.now) (F.state context.exit.0.now) (S.state context.entry.out.now) (S.state context.exit.1.1.0.now) context.entry.text.now context.exit.1.0.now result }
{
    let Context { shelf, text, out } = context;
    let mut source = match Source::open(alloc, limit, shelf, file) {
        Ok(source) => source,
        Err(fault) => return print_unopened(text, out, fault),
    };
    let printed = print_records(&mut source, shelf, text, out);
    source.close(shelf);
    print_end(text, out, limit, printed?)
}

/// Prints each record of an open capture, in order, as far as the capture can be read.
fn print_records<F: Shelf, S: Sink>(
    source: &mut Source,
    shelf: &mut F,
    text: &mut Text,
    out: &mut S,
) -> Result<Printed, Failed>
    requires { IsOpen (F.state shelf.old).slots source.old }
    ensures { ReadsRecords PrintsRecords (λ p. p.end) (F.state shelf.old) (F.state shelf.new) source.old source.new (S.state out.old) (S.state out.new) text.old text.new result }
{
    let mut frames = 0;
    loop {
        if let Some(end) = next_record(source, shelf, text, out)? {
            return Ok(Printed { frames, end });
        }
        frames += 1;
        print_record(text, out, frames, &source.record())?;
    }
}

/// Prints the number of a capture's records, or why the capture was not read to its end.
fn print_end<S: Sink>(
    text: &mut Text,
    out: &mut S,
    limit: u64,
    printed: Printed,
) -> Result<Status, Failed>
    ensures { EndsWith (status_of printed.end) (S.state out.old) (S.state out.new) text.old text.new result (end_line limit printed.frames printed.end) }
{
    match printed.end {
        End::Whole => text.end_frames(out, printed.frames)?,
        End::Refused(refusal) => text.capture_refused(out, refusal)?,
        End::ReadFault => text.read_fault(out)?,
        End::Limit => text.limit(out, limit)?,
    }
    Ok(Status::of(printed.end))
}
