//! The command `avtp`, over any shelf, sink and devices.

ghost use Rattle.std.specs.Prelude.{◌≡◌, ℕ, Ok, false, nat_lt};
ghost use Rattle.avtp_text.specs.Notices.{words_line};
ghost use Rattle.avtp_words.specs.Grammar.{IsCommandLine, IsOffence, Request};
ghost use Rattle.option_words.specs.Word.{texts};
ghost use Rattle.avtp_tool.specs.HasRun.{HasRun, RefusesWords};
ghost use Rattle.run_report.specs.Outcome.{EndsWith, KeepsSink};
ghost use Rattle.avtp_tool.specs.Run.{is_listening};
ghost use Rattle.avtp_tool.specs.state.Run.{Finishes, IsAsked, task_of};
ghost use Rattle.run_report.specs.Runs.{Runs};
ghost use Rattle.run_report.specs.Yield.{HandsOn};

use crate::files::{Reading, hear_files, read_files};
use crate::show::show;
use crate::soak::soak;
use agree_command::agree;
use avtp_base::Failed;
use avtp_files::{Shelf, Sink};
use avtp_text::Text;
use avtp_words::{Command, parse};
use device_rack::Devices;
use gateway_command::gateway;
use presenter_ring::Gate;
use run_report::{Context, Machine, Status};
use std::alloc::Global;
use std::thread::Threads;
use talk_command::talk;

/// Does what the words ask for, and returns the status. The run reads and writes the files that the words name, writes
/// the text, and gives the devices the items that `listen` shows.
pub fn run<T: Threads + Sync, F: Shelf + Send, S: Sink + Send, G: Gate, D: Devices + Send>(
    rt: &T,
    alloc: Global,
    words: &[String],
    shelf: &mut F,
    out: &mut S,
    gate: &G,
    rack: &mut D,
) -> Status
    ensures has_run { (request : Request) → IsCommandLine (texts words.now) request →
        HasRun request (HandsOn D.handed rack.old rack.new) (rack.new ≡ rack.old) (nat_lt (D.failures rack.old) (D.failures rack.new))
        (F.state shelf.old) (F.state shelf.new) (S.state out.old) (S.state out.new) result }
    ensures refuses { (position : ℕ) → IsOffence (texts words.now) position →
        RefusesWords position ((shelf.new ≡ shelf.old) × (rack.new ≡ rack.old)) (S.state out.old) (S.state out.new) result }
    ensures only_words { result ≡ Status.Words → (position : ℕ) × IsOffence (texts words.now) position }
{
    let Ok(mut text) = Text::new(alloc) else {
        return Status::Memory;
    };
    let machine = Machine { rt, alloc, gate };
    let context = Context {
        shelf,
        text: &mut text,
        out,
    };
    let ended = execute(&machine, words, context, rack);
    finish(&mut text, out, ended)
}

/// Does what the words ask for. If the words are not a command line, prints the position of the first wrong word.
fn execute<T: Threads + Sync, F: Shelf + Send, S: Sink + Send, G: Gate, D: Devices + Send>(
    machine: &Machine<'_, T, G>,
    words: &[String],
    context: Context<'_, '_, '_, F, S>,
    rack: &mut D,
) -> Result<Status, Failed>
    ensures runs { (request : Request) → IsCommandLine (texts words.now) request → Runs (task_of request) (HandsOn D.handed rack.old rack.new) (nat_lt (D.failures rack.old) (D.failures rack.new)) (F.state context.entry.shelf.now) (F.state context.exit.0.now) (S.state context.entry.out.now) (S.state context.exit.1.1.0.now) context.entry.text.now context.exit.1.0.now result }
    ensures words { (position : ℕ) → IsOffence (texts words.now) position →
        (context.exit.0.now ≡ context.entry.shelf.now) × (rack.new ≡ rack.old) × EndsWith Status.Words (S.state context.entry.out.now) (S.state context.exit.1.1.0.now) context.entry.text.now context.exit.1.0.now result (words_line position) }
    ensures either { IsAsked (texts words.now) }
    ensures devices { (request : Request) → IsCommandLine (texts words.now) request → is_listening request ≡ false → rack.new ≡ rack.old }
    ensures sink { KeepsSink (S.state context.entry.out.now) (S.state context.exit.1.1.0.now) result }
{
    let alloc = machine.alloc;
    match parse(words) {
        Ok(Command::Show { limit, file }) => show(alloc, limit, file, context),
        Ok(Command::Check { limit, files }) => {
            read_files(machine, &Reading::Check { limit }, files, context, rack)
        }
        Ok(Command::Listen(asked)) => hear_files(machine, &asked, context, rack),
        Ok(Command::Talk(asked)) => talk(alloc, &asked, context),
        Ok(Command::Soak { packets }) => {
            let Context { text, out, .. } = context;
            soak(machine.rt, alloc, packets, text, out)
        }
        Ok(Command::Agree(asked)) => agree(alloc, &asked, context),
        Ok(Command::Gateway(asked)) => gateway(alloc, &asked, context),
        Err(offence) => {
            let Context { text, out, .. } = context;
            print_offence(text, out, offence.position as u64)
        }
    }
}

/// Prints the position of the first wrong word.
fn print_offence<S: Sink>(text: &mut Text, out: &mut S, position: u64) -> Result<Status, Failed>
    ensures { EndsWith Status.Words (S.state out.old) (S.state out.new) text.old text.new result (words_line position) }
{
    text.words(out, position)?;
    Ok(Status::Words)
}

/// Writes the text that is still pending.
fn finish<S: Sink>(text: &mut Text, out: &mut S, ended: Result<Status, Failed>) -> Status
    ensures { Finishes (S.state out.old) (S.state out.new) text.old text.new ended result }
{
    let Ok(status) = ended else {
        return Status::WriteFault;
    };
    match text.flush(out) {
        Ok(()) => status,
        Err(Failed) => Status::WriteFault,
    }
}
