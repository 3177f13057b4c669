//! The command `gateway`: converts a stream of a capture to the other audio format.

ghost use Rattle.std.specs.Prelude.{◌≡◌, ◌≤◌, ◌-◌, ◌^◌, IfSome, false};
ghost use Rattle.avtp_files.specs.ShelfCalls.{IsMadeIn};
ghost use Rattle.am824_gateway.specs.Pieces.{nothing_given};
ghost use Rattle.am824_gateway.specs.Scan.{IsShape};
ghost use Rattle.avtp_words.specs.Grammar.{turning_of};
ghost use Rattle.run_report.specs.Endings.{side_line};
ghost use Rattle.gateway_command.specs.Gateway.{gateway_task, fault_line, fault_name as fault_name_of, format_of, turned_status};
ghost use Rattle.run_report.specs.Status.{status_of};
ghost use Rattle.gateway_command.specs.state.Gateway.{EndsOutput, IsFresh, TurnsFile, TurnsInput, ended_line, unread_as};
ghost use Rattle.gateway_command.specs.Gateway.{IsTurning};
ghost use Rattle.run_report.specs.Outcome.{EndsWith};
ghost use Rattle.run_report.specs.Runs.{Runs};
ghost use Rattle.run_report.specs.Yield.{HandsNothing};

use crate::scanning::{Scanned, scan};
use crate::turning::{Output, Turned, turn_records};
use am824_gateway::{ScanFault, Shape, To};
use avtp_base::{Buffer, Failed, OpenFault};
use avtp_files::{Shelf, Sink};
use avtp_text::Text;
use avtp_words::{Gateway, GatewayFormat};
use capture_hearing::{Hearing, Stage};
use capture_io::{CaptureWriter, End, Source};
use listener::RecordListener;
use run_report::{Context, Status, plan, print_side, print_unopened, unmade};
use std::alloc::Global;

/// The end of a conversion: how the reading ended, how many batches were presented, and the gateway that they were given
/// to.
#[derive(Drop)]
struct Ending<'a> {
    end: End,
    presented: u64,
    gateway: &'a am824_gateway::Gateway,
}

/// The format that the words ask for, in the gateway's own type.
pub fn format(asked: GatewayFormat) -> To
    ensures { result ≡ format_of asked }
{
    match asked {
        GatewayFormat::Am824 => To::Am824,
        GatewayFormat::Aaf => To::Aaf,
    }
}

/// Converts a stream of a capture to the other audio format. Prints which batches are skipped, and how many packets
/// were made. The capture is read twice. The first reading only scans the capture: if a record cannot be converted, the
/// run ends before OUT is made.
pub fn gateway<F: Shelf, S: Sink>(
    alloc: Global,
    asked: &Gateway<'_>,
    context: Context<'_, '_, '_, F, S>,
) -> Result<Status, Failed>
    requires { IsTurning (turning_of asked.now) }
    ensures { Runs (gateway_task (turning_of asked.now)) HandsNothing false (F.state context.entry.shelf.now) (F.state context.exit.0.now) (S.state context.entry.out.now) (S.state context.exit.1.1.0.now) context.entry.text.now context.exit.1.0.now result }
{
    let Context { shelf, text, out } = context;
    match scan(alloc, asked, shelf) {
        Ok(Scanned::Clean(shape)) => turn(alloc, asked, shape, Context { shelf, text, out }),
        Ok(Scanned::Faulty { fault, frame }) => print_fault(text, out, fault, frame),
        Ok(Scanned::Cut(end)) => print_cut(text, out, asked.listener.limit, end),
        Err(fault) => print_unopened(text, out, fault),
    }
}

/// Makes the capture OUT after IN was scanned. All memory except that of samples is allocated before OUT is created.
fn turn<F: Shelf, S: Sink>(
    alloc: Global,
    asked: &Gateway<'_>,
    shape: Option<Shape>,
    context: Context<'_, '_, '_, F, S>,
) -> Result<Status, Failed>
    requires asked { IsTurning (turning_of asked.now) }
    requires shape { IfSome shape IsShape }
    ensures { TurnsFile (turning_of asked.now) shape (F.state context.entry.shelf.now) (F.state context.exit.0.now) (S.state context.entry.out.now) (S.state context.exit.1.1.0.now) context.entry.text.now context.exit.1.0.now result }
{
    let Context { shelf, text, out } = context;
    let listener = &asked.listener;
    let to = format(asked.to);
    let Ok(gateway) = am824_gateway::Gateway::begin(alloc, to, shape, asked.id) else {
        return Ok(Status::Memory);
    };
    let Ok(heard) = RecordListener::begin(alloc, plan(listener)) else {
        return Ok(Status::Memory);
    };
    let Ok(buffer) = Buffer::new(alloc) else {
        return Ok(Status::Memory);
    };
    let writer = match CaptureWriter::create(buffer, shelf, asked.output) {
        Ok(writer) => writer,
        Err(fault) => return Ok(unmade(fault)),
    };
    let mut output = Output { gateway, writer };
    let turned = turn_input(
        alloc,
        asked,
        heard,
        &mut output,
        Context { shelf, text, out },
    );
    end_output(output, listener.limit, turned, Context { shelf, text, out })
}

/// Opens the scanned capture again, and converts what a listener presents from it.
fn turn_input<F: Shelf, S: Sink>(
    alloc: Global,
    asked: &Gateway<'_>,
    listener: RecordListener,
    output: &mut Output,
    context: Context<'_, '_, '_, F, S>,
) -> Result<Turned, Failed>
    requires limit { asked.now.listener.limit ≤ 2 ^ 40 }
    requires fresh { IsFresh listener }
    requires made { IsMadeIn (F.state context.shelf.now).slots output.old.writer.slot }
    requires none { output.old.gateway.given ≡ nothing_given }
    ensures { TurnsInput (turning_of asked.now) (F.state context.entry.shelf.now) (F.state context.exit.0.now) listener output.old output.new (S.state context.entry.out.now) (S.state context.exit.1.1.0.now) context.entry.text.now context.exit.1.0.now result }
{
    let Context { shelf, text, out } = context;
    let source = match Source::open(alloc, asked.listener.limit, shelf, asked.input) {
        Ok(source) => source,
        Err(fault) => return Ok(unread(fault)),
    };
    let mut hearing = Hearing {
        source,
        listener,
        alloc,
        stage: Stage::Reading,
    };
    let turned = turn_records(&mut hearing, output, shelf, text, out);
    let Hearing { source, .. } = hearing;
    source.close(shelf);
    turned
}

/// The result of a conversion whose capture could not be opened again.
fn unread(fault: OpenFault) -> Turned
    ensures { result ≡ unread_as fault }
{
    match fault {
        OpenFault::Memory => Turned::NoMemory,
        OpenFault::Missing | OpenFault::Failed => Turned::Ended {
            end: End::ReadFault,
            presented: 0,
        },
    }
}

/// Finishes the capture that is made, and prints the last line. If the capture could not be completed, only closes its
/// file.
fn end_output<F: Shelf, S: Sink>(
    output: Output,
    limit: u64,
    turned: Result<Turned, Failed>,
    context: Context<'_, '_, '_, F, S>,
) -> Result<Status, Failed>
    requires { IsMadeIn (F.state context.shelf.now).slots output.writer.slot }
    ensures { EndsOutput limit turned (F.state context.entry.shelf.now) (F.state context.exit.0.now) output (S.state context.entry.out.now) (S.state context.exit.1.1.0.now) context.entry.text.now context.exit.1.0.now result }
{
    let Context { shelf, text, out } = context;
    let Output { gateway, writer } = output;
    match turned {
        Ok(Turned::Ended { end, presented }) => match writer.finish(shelf) {
            Ok(()) => {
                let ending = Ending {
                    end,
                    presented,
                    gateway: &gateway,
                };
                print_ended(text, out, limit, ending)
            }
            Err(Failed) => Ok(Status::WriteFault),
        },
        Ok(Turned::NoMemory) => {
            writer.abandon(shelf);
            Ok(Status::Memory)
        }
        Ok(Turned::Unwritten) => {
            writer.abandon(shelf);
            Ok(Status::WriteFault)
        }
        Err(Failed) => {
            writer.abandon(shelf);
            Err(Failed)
        }
    }
}

/// Prints how many batches were presented, how many packets were written and how many batches were skipped, or prints
/// why the capture was not read to its end.
fn print_ended<S: Sink>(
    text: &mut Text,
    out: &mut S,
    limit: u64,
    ending: Ending<'_>,
) -> Result<Status, Failed>
    ensures { EndsWith (turned_status (ending.entry.presented - ending.entry.gateway.now.given.batches) ending.entry.end) (S.state out.old) (S.state out.new) text.old text.new result (ended_line limit ending.entry.presented ending.entry.gateway.now ending.entry.end) }
{
    let Ending {
        end,
        presented,
        gateway,
    } = ending;
    let skipped = presented.saturating_sub(gateway.batches());
    match end {
        End::Whole => text.gateway(out, presented, gateway.packets(), skipped)?,
        other => print_side(text, out, limit, other)?,
    }
    Ok(status_after(skipped, end))
}

/// The status of a run that skipped `skipped` batches, given how the reading ended.
fn status_after(skipped: u64, end: End) -> Status
    ensures { result ≡ turned_status skipped end }
{
    match end {
        End::Whole if skipped > 0 => Status::Findings,
        end => Status::of(end),
    }
}

/// The printed name of the reason why a stream cannot be converted.
fn fault_name(fault: ScanFault) -> &'static str
    ensures { result.now ≡ fault_name_of fault }
{
    match fault {
        ScanFault::Kind => "kind",
        ScanFault::Format => "format",
        ScanFault::Rate => "rate",
        ScanFault::Channels => "channels",
        ScanFault::Label => "label",
    }
}

/// Prints which record cannot be converted, and why.
fn print_fault<S: Sink>(
    text: &mut Text,
    out: &mut S,
    fault: ScanFault,
    frame: u64,
) -> Result<Status, Failed>
    ensures { EndsWith Status.TalkInput (S.state out.old) (S.state out.new) text.old text.new result (fault_line (record { frame = frame; fault = fault })) }
{
    text.gateway_input(out, fault_name(fault), frame)?;
    Ok(Status::TalkInput)
}

/// Prints why a capture was not scanned to its end.
fn print_cut<S: Sink>(text: &mut Text, out: &mut S, limit: u64, end: End) -> Result<Status, Failed>
    ensures { EndsWith (status_of end) (S.state out.old) (S.state out.new) text.old text.new result (side_line limit end) }
{
    print_side(text, out, limit, end)?;
    Ok(Status::of(end))
}
