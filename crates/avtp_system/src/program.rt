//! A program over any system.

ghost use Rattle.std.specs.Prelude.{◌≡◌, IfOk, IfSome, IsSome, option_map};
ghost use Rattle.avtp_words.specs.Grammar.{IsCommandLine, listen as listen_request, listening_of, named_file, named_raw, Request};
ghost use Rattle.option_words.specs.Word.{texts};
ghost use Rattle.avtp_system.specs.Program.{AreAsked, HasEnded, WritesRaw, WritesUnits, names_apart};

use crate::system::System;
use avtp_base::NoMemory;
use avtp_files::{Shelf, Sink};
use avtp_tool::{raw_silence, run};
use avtp_words::{Command, DeviceFile, Listen, RawFile, parse};
use device_rack::{AnnexBDevice, OutputFiles, RawDevice};
use presenter_ring::NoGate;
use run_report::Status;
use std::alloc::Global;
use std::thread::Threads;

/// Does what the arguments ask for with the files of `shelf`, prints the text to `out`, and returns the status.
pub fn run_over<
    T: Threads + Sync,
    S: Sink + Drop + Send,
    Y: System<S>,
    F: Shelf + Send,
    O: Sink + Send,
>(threads: &T, alloc: Global, system: &Y, shelf: &mut F, out: &mut O) -> Status
    ensures { IfSome (Y.told system.now) (λ arguments. HasEnded (Y.path system.now) (Y.others system.now) S.state arguments (shelf.new ≡ shelf.old) ((shelf.new ≡ shelf.old) × (out.new ≡ out.old))
        (F.state shelf.old) (F.state shelf.new) (O.state out.old) (O.state out.new) result) }
{
    let words = match system.words() {
        Ok(words) => words,
        Err(status) => return status,
    };
    match outputs_for(alloc, system, &words) {
        Ok(mut outputs) => run(threads, alloc, &words, shelf, out, &NoGate, &mut outputs),
        Err(NoMemory) => Status::Memory,
    }
}

/// The devices that the words ask for. There are no devices if the words are not a command line of `listen`.
fn outputs_for<S: Sink + Drop, Y: System<S>>(
    alloc: Global,
    system: &Y,
    words: &[String],
) -> Result<OutputFiles<S>, NoMemory>
    ensures { IsSome (Y.told system.now) → IfOk result (λ outputs. (request : Request) → IsCommandLine (texts words.now) request → AreAsked (Y.path system.now) (Y.others system.now) S.state request outputs) }
{
    let Ok(command) = parse(words) else {
        return Ok(OutputFiles::over(None, None));
    };
    match command {
        Command::Listen(asked) => outputs_of(alloc, system, &asked),
        _ => Ok(OutputFiles::over(None, None)),
    }
}

/// The devices that a command line of `listen` asks for.
fn outputs_of<S: Sink + Drop, Y: System<S>>(
    alloc: Global,
    system: &Y,
    asked: &Listen<'_>,
) -> Result<OutputFiles<S>, NoMemory>
    ensures { IsSome (Y.told system.now) → IfOk result (λ outputs. AreAsked (Y.path system.now) (Y.others system.now) S.state (listen_request (listening_of asked.now)) outputs) }
{
    let raw = match asked.raw {
        Some(raw) => Some(raw_device(alloc, system, asked, raw)?),
        None => None,
    };
    let units = match asked.annexb {
        Some(file) => Some(units_device(alloc, system, asked, file)?),
        None => None,
    };
    Ok(OutputFiles::over(raw, units))
}

fn raw_device<S: Sink + Drop, Y: System<S>>(
    alloc: Global,
    system: &Y,
    asked: &Listen<'_>,
    raw: RawFile<'_>,
) -> Result<RawDevice<S>, NoMemory>
    ensures { IsSome (Y.told system.now) → IfOk result (λ device. WritesRaw (Y.path system.now) (Y.others system.now) S.state (listening_of asked.now) (named_raw raw.entry) device) }
{
    let apart = file_names(alloc, asked.files, asked.annexb)?;
    let file = system.file(raw.file.name, apart)?;
    Ok(RawDevice::over(file, raw_silence(raw.silence)))
}

fn units_device<S: Sink + Drop, Y: System<S>>(
    alloc: Global,
    system: &Y,
    asked: &Listen<'_>,
    units: DeviceFile<'_>,
) -> Result<AnnexBDevice<S>, NoMemory>
    ensures { IsSome (Y.told system.now) → IfOk result (λ device. WritesUnits (Y.path system.now) (Y.others system.now) S.state (listening_of asked.now) (named_file units.entry) device) }
{
    let apart = file_names(alloc, asked.files, asked.raw.map(|raw| raw.file))?;
    let file = system.file(units.name, apart)?;
    Ok(AnnexBDevice::over(file))
}

/// The names of the files that a device's file must differ from: the captures that `listen` reads, and the file of its
/// other device, if any.
fn file_names(
    alloc: Global,
    captures: &[String],
    other: Option<DeviceFile<'_>>,
) -> Result<Vec<String>, NoMemory>
    ensures { IfOk result (λ names. texts names.items ≡ names_apart (texts captures.now) (option_map named_file other.entry)) }
{
    let mut names = Vec::new(alloc);
    for capture in captures {
        names.push(capture.clone()?)?;
    }
    let Some(file) = other else {
        return Ok(names);
    };
    names.push(String::from_str(alloc, file.name)?)?;
    Ok(names)
}
