//! The command `talk`: a capture of a stream, made from raw samples or from a byte stream of H.264.

ghost use Rattle.std.specs.Prelude.{◌≡◌, ◌≤◌, ◌<◌, false, Option, option_map, Ok, Some, length};
ghost use Rattle.talker.specs.Frames.{capture, frames};
ghost use Rattle.talker.specs.Turns.{IsTurn};
ghost use Rattle.talk_plan.specs.Plan.{IsPlan, most_input};
ghost use Rattle.avtp_words.specs.Grammar.{talking_of};
ghost use Rattle.avtp_text.specs.Talk.{talk_input_line, talk_line};
ghost use Rattle.avtp_text.specs.Notices.{limit_line};
ghost use Rattle.avtp_files.specs.ShelfCalls.{IsMadeIn};
ghost use Rattle.talk_command.specs.state.Talk.{MakesFile};
ghost use Rattle.run_report.specs.Made.{WritesFrames};
ghost use Rattle.run_report.specs.Outcome.{Only};
ghost use Rattle.run_report.specs.Outcome.{EndsWith};
ghost use Rattle.run_report.specs.Runs.{Runs};
ghost use Rattle.run_report.specs.Yield.{HandsNothing};
ghost use Rattle.talk_command.specs.Talk.{talk_task, sent_line, talk_clock, talk_kind, talk_plan};
ghost use Rattle.talk_command.specs.state.Talk.{EndsRefused, Talks, TalksContents, next_bytes};

use avtp_base::{Buffer, Failed, OpenFault, Spelled};
use avtp_files::{Shelf, Sink};
use avtp_text::Text;
use avtp_words::{Crf, Kind, Talk};
use capture_io::{CaptureWriter, Contents, Stop, read_contents};
use run_report::{Context, Status, print_fault, print_unopened, unmade};
use std::alloc::Global;
use talker::{CrfPlan, TalkFault, TalkKind, TalkPlan, Talker, Turn};

/// The maximum size of an input: 256 MiB.
const LIMIT: u64 = 268_435_456;

/// The frame that a talker sends next.
#[derive(Drop)]
struct NextFrame<'a, 'b> {
    talker: &'a Talker<'b>,
    turn: Turn,
    ghost next: { IsTurn talker.now turn },
}

impl Spelled for NextFrame<'_, '_> {
    ghost spelling = { λ f. next_bytes f.talker.now };

    #[inline(always)]
    fn size(&self) -> usize {
        self.turn.size
    }

    #[inline(always)]
    fn write(&self, out: &mut [u8]) {
        self.talker.write(self.turn, out);
    }
}

/// The kind of the stream.
fn kind(asked: Kind) -> TalkKind
    ensures { result ≡ talk_kind asked }
{
    match asked {
        Kind::Aaf { format, sparse } => TalkKind::Aaf { format, sparse },
        Kind::Am824 => TalkKind::Am824,
        Kind::H264 { last_stamp } => TalkKind::H264 { last_stamp },
    }
}

/// The media clock that is sent with the stream, if any.
fn clock(asked: Option<Crf>) -> Option<CrfPlan>
    ensures { result ≡ option_map talk_clock asked }
{
    let crf = asked?;
    Some(CrfPlan {
        id: crf.id,
        rate: crf.rate,
        pull: crf.pull,
        interval: crf.interval,
        points: crf.points,
    })
}

/// The plan of the talker that the words ask for.
fn plan(asked: &Talk<'_>) -> TalkPlan
    ensures { result ≡ talk_plan (talking_of asked.now) }
{
    TalkPlan {
        kind: kind(asked.kind),
        rate: asked.rate,
        channels: asked.channels,
        count: asked.count,
        id: asked.id,
        start: asked.start,
        lead: asked.lead,
        restart: asked.restart,
        jump: asked.jump,
        crf: clock(asked.crf),
    }
}

/// Reads an input completely, makes a capture of it, and prints how many packets the capture has. If the input cannot
/// be read or makes no stream, prints why.
pub fn talk<F: Shelf, S: Sink>(
    alloc: Global,
    asked: &Talk<'_>,
    context: Context<'_, '_, '_, F, S>,
) -> Result<Status, Failed>
    requires { IsPlan (talk_plan (talking_of asked.now)) }
    ensures { Runs (talk_task (talking_of asked.now)) HandsNothing false (F.state context.entry.shelf.now) (F.state context.exit.0.now) (S.state context.entry.out.now) (S.state context.exit.1.1.0.now) context.entry.text.now context.exit.1.0.now result }
{
    let Context { shelf, text, out } = context;
    match read_contents(alloc, LIMIT, shelf, asked.input) {
        Ok(contents) => talk_contents(
            alloc,
            plan(asked),
            &contents,
            asked.output,
            Context { shelf, text, out },
        ),
        Err(fault) => print_unopened(text, out, fault),
    }
}

/// If an input was read whole, makes its capture. If the input was not read whole, prints why no capture is made.
fn talk_contents<F: Shelf, S: Sink>(
    alloc: Global,
    plan: TalkPlan,
    contents: &Contents,
    output: &str,
    context: Context<'_, '_, '_, F, S>,
) -> Result<Status, Failed>
    requires plan { IsPlan plan }
    requires bounded { length contents.now.bytes.items ≤ most_input }
    ensures { TalksContents plan contents.now output.now (F.state context.entry.shelf.now) (F.state context.exit.0.now) (S.state context.entry.out.now) (S.state context.exit.1.1.0.now) context.entry.text.now context.exit.1.0.now result }
{
    let Context { shelf, text, out } = context;
    match contents.stop {
        Stop::Fault => print_fault(text, out),
        Stop::Limit => print_limit(text, out),
        Stop::End => match Talker::begin(alloc, plan, contents.bytes.as_slice()) {
            Ok(mut talker) => send(alloc, &mut talker, output, Context { shelf, text, out }),
            Err(fault) => print_talk_fault(text, out, fault),
        },
    }
}

/// Makes the capture of all frames of a talker, and prints how many packets the capture has.
fn send<F: Shelf, S: Sink>(
    alloc: Global,
    talker: &mut Talker<'_>,
    output: &str,
    context: Context<'_, '_, '_, F, S>,
) -> Result<Status, Failed>
    requires begun { talker.old.given ≡ 0 }
    ensures { Talks (Only Status.Done (sent_line talker.old.plan talker.old.input)) output.now (capture talker.old.plan talker.old.input) (F.state context.entry.shelf.now) (F.state context.exit.0.now) (S.state context.entry.out.now) (S.state context.exit.1.1.0.now) context.entry.text.now context.exit.1.0.now result }
{
    let Context { shelf, text, out } = context;
    let packets = talker.packets();
    let clocks = talker.clocks();
    match make_capture(alloc, shelf, output, talker) {
        Ok(()) => print_sent(text, out, packets, clocks),
        Err(fault) => Ok(unmade(fault)),
    }
}

/// Creates or empties a file, and writes the capture of all frames of a talker to it. All memory is allocated before
/// the file is created. If the file cannot be created or written, nothing is printed, because the line of `talk` says
/// what was made.
///
/// Returns `Failed` only if the count of writing faults rose; in this case the file is unchanged or has a prefix of the
/// capture. If `Memory` is returned, the file is unchanged. `Missing` is never returned.
fn make_capture<F: Shelf>(
    alloc: Global,
    shelf: &mut F,
    name: &str,
    talker: &mut Talker<'_>,
) -> Result<(), OpenFault>
    requires begun { talker.old.given ≡ 0 }
    ensures { MakesFile (F.state shelf.old) (F.state shelf.new) name.now (capture talker.old.plan talker.old.input) result }
{
    let Ok(buffer) = Buffer::new(alloc) else {
        return Err(OpenFault::Memory);
    };
    let mut writer = CaptureWriter::create(buffer, shelf, name)?;
    match write_frames(&mut writer, shelf, talker) {
        Ok(()) => match writer.finish(shelf) {
            Ok(()) => Ok(()),
            Err(Failed) => Err(OpenFault::Failed),
        },
        Err(Failed) => {
            writer.abandon(shelf);
            Err(OpenFault::Failed)
        }
    }
}

/// Adds all frames of a talker to a capture.
fn write_frames<F: Shelf>(
    writer: &mut CaptureWriter,
    shelf: &mut F,
    talker: &mut Talker<'_>,
) -> Result<(), Failed>
    requires made { IsMadeIn (F.state shelf.old).slots writer.old.slot }
    requires begun { talker.old.given ≡ 0 }
    ensures { WritesFrames (frames talker.old.plan talker.old.input) (length (frames talker.old.plan talker.old.input)) (F.state shelf.old) (F.state shelf.new) writer.old writer.new result }
{
    while let Some(turn) = talker.turn() {
        writer.add(shelf, turn.arrival, &NextFrame { talker, turn })?;
        talker.go_on(turn);
    }
    Ok(())
}

/// Prints how many packets were sent.
fn print_sent<S: Sink>(
    text: &mut Text,
    out: &mut S,
    packets: u64,
    clocks: u64,
) -> Result<Status, Failed>
    ensures { EndsWith Status.Done (S.state out.old) (S.state out.new) text.old text.new result (talk_line packets clocks) }
{
    text.talk(out, packets, clocks)?;
    Ok(Status::Done)
}

/// Prints why the input makes no stream. If memory ran out, nothing is printed, and the status says so.
fn print_talk_fault<S: Sink>(
    text: &mut Text,
    out: &mut S,
    fault: TalkFault,
) -> Result<Status, Failed>
    ensures { EndsRefused fault (S.state out.old) (S.state out.new) text.old text.new result }
{
    match fault {
        TalkFault::Memory => Ok(Status::Memory),
        TalkFault::Frames => print_input(text, out, fault),
        TalkFault::StartCode => print_input(text, out, fault),
        TalkFault::NalType => print_input(text, out, fault),
        TalkFault::Packets => print_input(text, out, fault),
        TalkFault::Arrival => print_input(text, out, fault),
    }
}

fn print_input<S: Sink>(text: &mut Text, out: &mut S, fault: TalkFault) -> Result<Status, Failed>
    ensures { EndsWith Status.TalkInput (S.state out.old) (S.state out.new) text.old text.new result (talk_input_line fault) }
{
    text.talk_input(out, fault)?;
    Ok(Status::TalkInput)
}

/// Prints that the input is too long.
fn print_limit<S: Sink>(text: &mut Text, out: &mut S) -> Result<Status, Failed>
    ensures { EndsWith Status.Limit (S.state out.old) (S.state out.new) text.old text.new result (limit_line most_input) }
{
    text.limit(out, LIMIT)?;
    Ok(Status::Limit)
}
