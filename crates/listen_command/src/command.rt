//! The command `listen`: when each sample of a stream is due.

ghost use Rattle.std.specs.Prelude.{◌≡◌, [], None};
ghost use Rattle.avtp_words.specs.Grammar.{listening_of};
ghost use Rattle.avtp_text.specs.Listen.{capture_line};
ghost use Rattle.avtp_text.specs.Written.{PrintsPart};
ghost use Rattle.run_report.specs.Yield.{HandsOn};
ghost use Rattle.presenter_ring.specs.Pipes.{ended_with, given_to, waiting_in};
ghost use Rattle.capture_hearing.specs.Hearing.{IsAtReading};
ghost use Rattle.listen_command.specs.Listen.{last_line, listen_report};
ghost use Rattle.listen_command.specs.state.Listen.{HearsItems};
ghost use Rattle.run_report.specs.Outcome.{EndsWith};
ghost use Rattle.run_report.specs.Reading.{DoesFile};
ghost use Rattle.listen_command.specs.Listen.{IsListening};
ghost use Rattle.run_report.specs.Status.{status_of};

use crate::presenting::Presenting;
use crate::receiving::Receiving;
use crate::rounds::present_all;
use avtp_base::Failed;
use avtp_files::{Shelf, Sink};
use avtp_text::Text;
use avtp_words::{Listen, ListenerOptions};
use capture_hearing::{Heard, Hearing, Stage};
use capture_io::{End, Source};
use device_rack::Devices;
use listener::{Counts, ListenPlan, RecordListener};
use presenter_ring::{Gate, Pipe};
use run_report::{Context, Machine, Status, plan, print_unopened};
use std::alloc::Global;
use std::thread::Threads;

/// Prints each sample of a stream in a capture with its presentation time, or why its packet is not presented. Each
/// line is printed as soon as it is due. One thread reads the capture and decides what is shown. Another thread writes
/// the text of each item, and then gives the item to the devices. Between the two threads, at most `asked.ring` items
/// are queued. Memory is allocated for each packet. If memory runs out, all lines that were due by then have been
/// printed.
pub fn listen<T: Threads + Sync, F: Shelf + Send, S: Sink + Send, G: Gate, D: Devices + Send>(
    machine: &Machine<'_, T, G>,
    asked: &Listen<'_>,
    file: &str,
    context: Context<'_, '_, '_, F, S>,
    rack: &mut D,
) -> Result<Status, Failed>
    requires { IsListening (listening_of asked.now) }
    ensures { DoesFile (listen_report (listening_of asked.now) file.now) (HandsOn D.handed rack.old rack.new) asked.now.listener.limit file.now (F.state context.entry.shelf.now) (F.state context.exit.0.now) (S.state context.entry.out.now) (S.state context.exit.1.1.0.now) context.entry.text.now context.exit.1.0.now result }
{
    let Context { shelf, text, out } = context;
    let source = match Source::open(machine.alloc, asked.listener.limit, shelf, file) {
        Ok(source) => source,
        Err(fault) => return print_unopened(text, out, fault),
    };
    let Ok(listener) = RecordListener::begin(machine.alloc, plan(&asked.listener)) else {
        source.close(shelf);
        return Ok(Status::Memory);
    };
    let Ok(mut pipe) = Pipe::begin(machine.alloc, asked.ring) else {
        source.close(shelf);
        return Ok(Status::Memory);
    };
    if let Err(fault) = print_name(text, out, file) {
        source.close(shelf);
        return Err(fault);
    }
    let mut hearing = Hearing {
        source,
        listener,
        alloc: machine.alloc,
        stage: Stage::Reading,
    };
    let presented = hear_items(
        machine,
        &mut pipe,
        &mut hearing,
        Context { shelf, text, out },
        rack,
    );
    let heard = hearing.heard();
    let Hearing { source, .. } = hearing;
    source.close(shelf);
    presented?;
    match heard {
        Heard::Ended { end, counts } => print_last(text, out, asked.listener.limit, &counts, end),
        Heard::NoMemory => Ok(Status::Memory),
    }
}

/// Prints a capture's name at once, so that it is visible before the first packet arrives.
fn print_name<S: Sink>(text: &mut Text, out: &mut S, file: &str) -> Result<(), Failed>
    ensures { PrintsPart (S.state out.old) (S.state out.new) text.old text.new result (capture_line file.now) }
{
    text.capture(out, file)?;
    text.flush(out)
}

/// Prints the items that are shown of a capture's records, as far as the capture can be read.
fn hear_items<T: Threads + Sync, F: Shelf + Send, S: Sink + Send, G: Gate, D: Devices + Send>(
    machine: &Machine<'_, T, G>,
    pipe: &mut Pipe,
    hearing: &mut Hearing,
    context: Context<'_, '_, '_, F, S>,
    rack: &mut D,
) -> Result<(), Failed>
    requires pipe { (waiting_in pipe.old ≡ []) × (ended_with pipe.old ≡ None) × (given_to pipe.old ≡ 0) }
    requires reading { IsAtReading (F.state context.shelf.now).slots hearing.old.source hearing.old.stage }
    ensures { HearsItems (HandsOn D.handed rack.old rack.new) (F.state context.entry.shelf.now) (F.state context.exit.0.now) hearing.old.source hearing.new.source hearing.old.listener hearing.new.listener hearing.new.stage (S.state context.entry.out.now) (S.state context.exit.1.1.0.now) context.entry.text.now context.exit.1.0.now result }
{
    let Context { shelf, text, out } = context;
    let mut receiver = Receiving { hearing, shelf };
    let mut presenter = Presenting {
        text,
        out,
        rack,
        result: Ok(()),
    };
    present_all(machine, pipe, &mut receiver, &mut presenter)
}

/// Prints the counts of a capture, or why the capture was not read to its end.
fn print_last<S: Sink>(
    text: &mut Text,
    out: &mut S,
    limit: u64,
    counts: &Counts,
    end: End,
) -> Result<Status, Failed>
    ensures { EndsWith (status_of end) (S.state out.old) (S.state out.new) text.old text.new result (last_line limit counts.now end) }
{
    match end {
        End::Whole => text.end_listen(out, counts)?,
        End::Refused(refusal) => text.capture_refused(out, refusal)?,
        End::ReadFault => text.read_fault(out)?,
        End::Limit => text.limit(out, limit)?,
    }
    Ok(Status::of(end))
}
