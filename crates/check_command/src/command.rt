//! The command `check`: finds what breaks the rules of a stream.

ghost use Rattle.std.specs.Prelude.{◌≡◌, ◌^◌, ◌≤◌, [], map};
ghost use Rattle.sequence_track.specs.Tracking.{StandsFor};
ghost use Rattle.avtp_text.specs.Check.{finding_texts, packet_line};
ghost use Rattle.check_command.specs.Check.{check_report, check_status, total_line, unmarked_findings};
ghost use Rattle.check_command.specs.state.Check.{ChecksOne, ChecksRecords, PrintsFound};
ghost use Rattle.run_report.specs.Outcome.{EndsWith};
ghost use Rattle.run_report.specs.Reading.{DoesFile, IsOpen, ReadsRecords};
ghost use Rattle.run_report.specs.Yield.{HandsNothing};

use crate::checked::{Checked, checked_record, count};
use avtp_base::Failed;
use avtp_files::{Shelf, Sink};
use avtp_text::Text;
use capture_io::{End, Source};
use run_report::{Context, Status, next_record, print_unopened};
use sequence_track::{Findings, Tracker};
use std::alloc::Global;

/// The counts of a capture, and how its reading ended.
#[derive(Clone, Copy, Debug, PartialEq, Eq)]
pub struct Total {
    pub frames: u64,
    pub streams: u32,
    pub findings: u64,
    pub end: End,
}

/// Prints a capture's name, the findings in it, and its counts. Reads at most `limit` bytes of the capture. All memory
/// is allocated before the first line, so nothing is printed if memory runs out.
pub fn check<F: Shelf, S: Sink>(
    alloc: Global,
    limit: u64,
    file: &str,
    context: Context<'_, '_, '_, F, S>,
) -> Result<Status, Failed>
    requires { limit ≤ 2 ^ 40 }
    ensures { DoesFile (check_report limit file.now) HandsNothing limit file.now (F.state context.entry.shelf.now) (F.state context.exit.0.now) (S.state context.entry.out.now) (S.state context.exit.1.1.0.now) context.entry.text.now context.exit.1.0.now result }
{
    let Context { shelf, text, out } = context;
    let mut source = match Source::open(alloc, limit, shelf, file) {
        Ok(source) => source,
        Err(fault) => return print_unopened(text, out, fault),
    };
    let Ok(tracker) = Tracker::begin(alloc) else {
        source.close(shelf);
        return Ok(Status::Memory);
    };
    let checked = check_records(file, tracker, &mut source, Context { shelf, text, out });
    source.close(shelf);
    print_total(text, out, limit, checked?)
}

/// Prints a capture's name and the findings in each of its records, in order, as far as the capture can be read.
fn check_records<F: Shelf, S: Sink>(
    file: &str,
    mut tracker: Tracker,
    source: &mut Source,
    context: Context<'_, '_, '_, F, S>,
) -> Result<Total, Failed>
    requires open { IsOpen (F.state context.shelf.now).slots source.old }
    requires stands { StandsFor tracker [] }
    ensures { ReadsRecords (λ limit. ChecksRecords limit file.now) (λ t. t.end) (F.state context.entry.shelf.now) (F.state context.exit.0.now) source.old source.new (S.state context.entry.out.now) (S.state context.exit.1.1.0.now) context.entry.text.now context.exit.1.0.now result }
{
    let Context { shelf, text, out } = context;
    text.capture(out, file)?;
    let mut frames = 0;
    let mut findings = 0;
    loop {
        if let Some(end) = next_record(source, shelf, text, out)? {
            return Ok(Total {
                frames,
                streams: tracker.streams(),
                findings,
                end,
            });
        }
        frames += 1;
        let checked = checked_record(source.record().bytes);
        findings += print_checked(&mut tracker, text, out, frames, checked)?;
    }
}

/// Notes the packet of a record, and prints a line for each finding in the record. If the sink fails, none of these
/// lines is printed. Returns the number of findings.
fn print_checked<S: Sink>(
    tracker: &mut Tracker,
    text: &mut Text,
    out: &mut S,
    number: u64,
    checked: Checked,
) -> Result<u64, Failed>
    ensures { ChecksOne tracker.old tracker.new number checked (S.state out.old) (S.state out.new) text.old text.new result }
{
    match checked {
        Checked::Passed => Ok(0),
        Checked::Malformed(refusal) => {
            text.finding_malformed(out, number, refusal)?;
            Ok(1)
        }
        Checked::Unmarked { id, reserved } => {
            print_findings(text, out, number, id, &of_unmarked(reserved))
        }
        Checked::Marked(seen) => {
            let findings = tracker.note(seen);
            print_findings(text, out, number, seen.id, &findings)
        }
    }
}

/// If a packet's stream ID is not valid, the only possible finding is a set reserved bit.
fn of_unmarked(reserved: bool) -> Findings
    ensures { result ≡ unmarked_findings reserved }
{
    Findings {
        reserved,
        step: None,
        hold: None,
        stamp: false,
        untracked: false,
    }
}

/// Prints a line for each finding in a packet. Returns the number of findings.
fn print_findings<S: Sink>(
    text: &mut Text,
    out: &mut S,
    number: u64,
    id: u64,
    findings: &Findings,
) -> Result<u64, Failed>
    ensures { PrintsFound (S.state out.old) (S.state out.new) text.old text.new result (map (packet_line number id) (finding_texts findings.now)) }
{
    let count = count(findings);
    if count > 0 {
        text.findings(out, number, id, findings)?;
    }
    Ok(count)
}

/// Prints the counts of a capture, or why the capture was not read to its end.
fn print_total<S: Sink>(
    text: &mut Text,
    out: &mut S,
    limit: u64,
    total: Total,
) -> Result<Status, Failed>
    ensures { EndsWith (check_status total.findings total.end) (S.state out.old) (S.state out.new) text.old text.new result (total_line limit total.frames total.streams total.findings total.end) }
{
    match total.end {
        End::Whole => text.end_check(out, total.frames, u64::from(total.streams), total.findings)?,
        End::Refused(refusal) => text.capture_refused(out, refusal)?,
        End::ReadFault => text.read_fault(out)?,
        End::Limit => text.limit(out, limit)?,
    }
    Ok(status_of(total))
}

/// The status of a run, given the total of its last capture.
fn status_of(total: Total) -> Status
    ensures { result ≡ check_status total.findings total.end }
{
    match total.end {
        End::Whole if total.findings > 0 => Status::Findings,
        end => Status::of(end),
    }
}
