//! Every command over one damaged capture.

use crate::bases::{Bases, TALKS};
use crate::commands::{Wrong, wrong_with};
use crate::damage::{damage_bytes, damaged};
use crate::draws::Draws;
use crate::records::Record;
use avtp_base::NoMemory;
use regex::Matcher;
use std::alloc::Global;
use std::thread::Threads;

/// The usual value of `--limit`, which exceeds the size of any capture that is made.
const LIMIT: usize = 1 << 40;

/// `listen` is run with these options and stream IDs.
const LISTENS: [&str; 12] = [
    "0200000000010001",
    "--ring 256 0200000000010001",
    "--look 1 --room 24 0200000000010001",
    "--look 64 --lead 1000000000 0200000000010001",
    "--lead 0 --buffer 1 0200000000010001",
    "--buffer 3 --ring 1 0200000000010001",
    "--clock 0200000000010002 0200000000010001",
    "--clock 0200000000010002 --crf-shift -1000000000 0200000000010001",
    "--clock 0200000000010002 --crf-shift 1000000000 0200000000010001",
    "--clock 0200000000010002 --look 8 0200000000010001",
    "--clock 0200000000010001 0200000000010002",
    "ffffffffffffffff",
];

/// The options and stream IDs with which `agree` compares a capture with itself.
const AGREES: [&str; 5] = [
    "0200000000010001",
    "--look 64 --lead 1000000000 0200000000010001",
    "--buffer 3 --room 24 0200000000010001",
    "--clock 0200000000010002 --look 8 0200000000010001",
    "--clock 0200000000010001 0200000000010002",
];

/// The options and stream IDs with which `gateway` is run.
const GATEWAYS: [&str; 5] = [
    "0200000000010001",
    "--look 64 --lead 1000000000 --id 0000000000000009 0200000000010001",
    "--buffer 3 --room 24 0200000000010001",
    "--clock 0200000000010002 --look 8 0200000000010001",
    "ffffffffffffffff",
];

/// A command line, and what is wrong with its run.
#[derive(Drop)]
pub struct Found {
    pub line: String,
    pub wrong: Wrong,
}

/// A command over a capture or samples.
#[derive(Clone, Copy)]
struct Command {
    words: &'static str,
    limited: bool,
    options: &'static str,
    files: &'static str,
}

impl Command {
    fn line(&self, alloc: Global, limit: usize) -> Result<String, NoMemory> {
        let Command {
            words,
            limited,
            options,
            files,
        } = *self;
        let space = if options.is_empty() { "" } else { " " };
        if !limited {
            return Ok(format!(in alloc; "{words}{space}{options} {files}")?);
        }
        Ok(format!(in alloc; "{words} --limit {limit}{space}{options} {files}")?)
    }
}

/// The commands, with randomly drawn options. The fourth command, `talk`, is the only one that reads samples.
fn commands(draws: &mut Draws) -> [Command; 7] {
    let listen = draws.pick_text(&LISTENS);
    let talk = draws.pick_text(&TALKS);
    let agree = draws.pick_text(&AGREES);
    let gateway = draws.pick_text(&GATEWAYS);
    [
        limited("show", "", "in"),
        limited("check", "", "in"),
        limited("listen", listen, "in"),
        Command {
            words: "talk",
            limited: false,
            options: talk,
            files: "in out",
        },
        limited("agree", agree, "in in"),
        limited("gateway --to am824", gateway, "in out"),
        limited("gateway --to aaf", gateway, "in out"),
    ]
}

fn limited(words: &'static str, options: &'static str, files: &'static str) -> Command {
    Command {
        words,
        limited: true,
        options,
        files,
    }
}

/// What the commands read.
#[derive(Drop)]
struct Inputs {
    capture: Vec<u8>,
    samples: Vec<u8>,
}

impl Inputs {
    /// A damaged capture, and samples that may be damaged.
    fn new(alloc: Global, bases: &Bases, draws: &mut Draws) -> Result<Self, NoMemory> {
        let records = records(alloc, bases, draws)?;
        let capture = damaged(alloc, draws, records)?;
        let samples = samples(alloc, bases, draws)?;
        Ok(Inputs { capture, samples })
    }

    fn file(&self, is_samples: bool) -> &[u8] {
        if is_samples {
            self.samples.as_slice()
        } else {
            self.capture.as_slice()
        }
    }
}

/// Records of one stream, or of two streams one after the other.
fn records(alloc: Global, bases: &Bases, draws: &mut Draws) -> Result<Vec<Record>, NoMemory> {
    let mut records = bases.records(alloc, draws)?;
    if draws.one_in(4) {
        records.append(&mut bases.records(alloc, draws)?)?;
    }
    Ok(records)
}

fn samples(alloc: Global, bases: &Bases, draws: &mut Draws) -> Result<Vec<u8>, NoMemory> {
    let mut samples = bases.samples(alloc, draws)?;
    for _ in 0..draws.below(3) {
        damage_bytes(draws, &mut samples)?;
    }
    Ok(samples)
}

/// Runs each command over a damaged capture, and returns the runs that went wrong. The input of `talk` is either this
/// capture, or samples that may be damaged.
pub fn try_commands<T: Threads + Sync>(
    rt: &T,
    alloc: Global,
    grammar: &mut Matcher<'_>,
    bases: &Bases,
    draws: &mut Draws,
) -> Result<Vec<Found>, NoMemory> {
    let inputs = Inputs::new(alloc, bases, draws)?;
    let mut trials = Trials {
        alloc,
        limit: limit(draws, inputs.capture.len()),
        found: Vec::new(alloc),
    };
    let has_samples = draws.one_in(2);
    for command in commands(draws) {
        let file = inputs.file(has_samples && !command.limited);
        trials.run(rt, grammar, &command, file)?;
    }
    Ok(trials.found)
}

/// The value of `--limit`: the usual one, or at most the size of the capture.
fn limit(draws: &mut Draws, size: usize) -> usize {
    if draws.one_in(8) {
        draws.below(size) + 1
    } else {
        LIMIT
    }
}

/// The runs that went wrong.
#[derive(Drop)]
struct Trials {
    alloc: Global,
    limit: usize,
    found: Vec<Found>,
}

impl Trials {
    fn run<T: Threads + Sync>(
        &mut self,
        rt: &T,
        grammar: &mut Matcher<'_>,
        command: &Command,
        file: &[u8],
    ) -> Result<(), NoMemory> {
        let line = command.line(self.alloc, self.limit)?;
        if let Some(wrong) = wrong_with(rt, self.alloc, grammar, line.as_str(), file)? {
            self.found.push(Found { line, wrong })?;
        }
        Ok(())
    }
}
