//! `avtp-report` tells what is wrong with each AVTP stream in captures. `avtp-report` prints a table, and can write a
//! page to send to somebody.
#![tactic(auto)]

mod cells;
mod chart;
mod gather;
mod named;
mod page;
mod page_file;
mod reading;
mod said;
mod style;
mod table;
mod units;
mod words;

use crate::page::write_page;
use crate::page_file::PageFile;
use crate::reading::{Ending, Reading, read_files};
use crate::table::write_table;
use crate::words::{Words, read_words};
use avtp_base::NoMemory;
use avtp_files::{FaultTeller, FileSink};
use std::alloc::Global;
use std::io::{BufWriter, ErrorKind, Write};
use std::process::ExitCode;
use std::{env, io};
use stream_report::{Verdict, verdicts_of};

/// How a run ends. The statuses are those of the command `avtp`.
#[derive(Clone, Copy)]
enum Status {
    Done,
    Found,
    Words,
    Refused,
    ReadFault,
    WriteFault,
    Memory,
}

impl Status {
    fn code(self) -> u8 {
        match self {
            Status::Done => 0,
            Status::Found => 1,
            Status::Words => 2,
            Status::Refused => 3,
            Status::ReadFault => 4,
            Status::WriteFault => 5,
            Status::Memory => 6,
        }
    }
}

/// The program's name, as its messages on standard error give it.
const PROGRAM: &str = "avtp-report";

const USAGE: &str = "usage: avtp-report [--html OUT] FILE..";

static HELP: &str = "usage: avtp-report [--html OUT] FILE..

Prints statistics of each AVTP stream (IEEE 1722) in the captures FILE.., which are read
as one, and what is wrong with it. --html also writes OUT, one page with pictures.
Captures are pcap or pcapng; standard input is /dev/stdin.

The exit status is 0; 1 if something is wrong with a stream; 2 for a bad command line; 3 if
a capture is refused; 4 if a file cannot be read; 5 if the table or OUT cannot be written;
and 6 if memory runs out.
";

/// The version of this program and of `avtp`.
const VERSION: &str = "avtp-report 0.9.0";

fn main(rt: HostRuntime) -> ExitCode {
    ExitCode::from(run(&rt).code())
}

/// Does what the arguments ask for.
fn run(rt: &HostRuntime) -> Status {
    let words = match words_of(rt) {
        Ok(words) => words,
        Err(status) => return status,
    };
    match read_words(&words) {
        Words::Help => print_status(rt, print!(rt; "{HELP}")),
        Words::Version => print_status(rt, println!(rt; "{VERSION}")),
        Words::Report { html } => report(rt, &words, html),
        Words::Faulty => {
            let _ = eprintln!(rt; "{USAGE}");
            Status::Words
        }
    }
}

/// The arguments. If an argument is not UTF-8, the command line is bad.
fn words_of(rt: &HostRuntime) -> Result<Vec<String>, Status> {
    let arguments = match env::args(rt) {
        Ok(arguments) => arguments,
        Err(error) if error.kind() == ErrorKind::OutOfMemory => return Err(Status::Memory),
        Err(_) => return Err(Status::Words),
    };
    match arguments.skip(1).collect(rt.alloc()) {
        Ok(words) => Ok(words),
        Err(_) => Err(Status::Memory),
    }
}

fn print_status(rt: &HostRuntime, written: io::Result<()>) -> Status {
    match written {
        Ok(()) => Status::Done,
        Err(error) => unprinted(rt, &error),
    }
}

/// The status of a run that could not print. Standard error says why, unless memory ran out or the reader of a pipe is
/// gone.
fn unprinted(rt: &HostRuntime, error: &io::Error) -> Status {
    if error.kind() == ErrorKind::OutOfMemory {
        return Status::Memory;
    }
    if error.kind() != ErrorKind::BrokenPipe {
        FaultTeller::new(rt, Some(PROGRAM)).tell("standard output", error);
    }
    Status::WriteFault
}

/// Reads the captures and writes what was found.
fn report(rt: &HostRuntime, words: &[String], html: Option<usize>) -> Status {
    let alloc = rt.alloc();
    let Ok(reading) = read_files(rt, alloc, words, html) else {
        return Status::Memory;
    };
    let Ok(verdicts) = all_verdicts(alloc, &reading) else {
        return Status::Memory;
    };
    let Ok(order) = worst_first(alloc, &verdicts) else {
        return Status::Memory;
    };
    let told = Told {
        reading: &reading,
        verdicts: &verdicts,
        order: &order,
    };
    if let Err(error) = print_table(rt, &told) {
        return unprinted(rt, &error);
    }
    let Some(place) = html else {
        return ended(&told);
    };
    let name = match words.get(place) {
        Some(name) => name.as_str(),
        None => return Status::Words,
    };
    match make_page(rt, name, &told) {
        Ok(()) => ended(&told),
        Err(error) if error.kind() == ErrorKind::OutOfMemory => Status::Memory,
        Err(_) => Status::WriteFault,
    }
}

/// What was found in the captures.
#[derive(Clone, Copy)]
pub struct Told<'a> {
    pub reading: &'a Reading,
    /// The verdicts on each stream.
    pub verdicts: &'a Vec<Vec<Verdict>>,
    /// The indices of the streams, with the worst stream first.
    pub order: &'a Vec<usize>,
}

impl Told<'_> {
    /// The number of streams with a verdict.
    pub fn sick(&self) -> usize {
        let mut sick: usize = 0;
        for of in self.verdicts.iter() {
            if !of.is_empty() {
                sick = sick.saturating_add(1);
            }
        }
        sick
    }
}

fn all_verdicts(alloc: Global, reading: &Reading) -> Result<Vec<Vec<Verdict>>, NoMemory> {
    let mut all = Vec::new(alloc);
    for stream in reading.report.streams.iter() {
        all.push(verdicts_of(alloc, stream)?)?;
    }
    Ok(all)
}

/// The indices of the streams in the order of their worst verdicts. Streams without a verdict are last. If the worst
/// verdicts of several streams have equal ranks, these streams keep their order.
fn worst_first(alloc: Global, verdicts: &[Vec<Verdict>]) -> Result<Vec<usize>, NoMemory> {
    let mut order = Vec::new(alloc);
    for (place, of) in verdicts.iter().enumerate() {
        let rank = match of.first() {
            Some(verdict) => verdict.rank(),
            None => u8::MAX,
        };
        order.push((rank, place))?;
    }
    order.sort()?;
    let mut places = Vec::new(alloc);
    for (_, place) in order.iter() {
        places.push(*place)?;
    }
    Ok(places)
}

fn print_table(rt: &HostRuntime, told: &Told<'_>) -> io::Result<()> {
    let mut out = BufWriter::new(rt.alloc(), io::writer(rt))?;
    write_table(rt.alloc(), &mut out, told)?;
    out.flush()
}

/// Writes the page to a file that is not one of the captures. If the page cannot be written, standard error says why.
fn make_page(rt: &HostRuntime, name: &str, told: &Told<'_>) -> io::Result<()> {
    let alloc = rt.alloc();
    let mut captures = Vec::new(alloc);
    for file in told.reading.files.iter() {
        captures.push(file.name.clone()?)?;
    }
    let sink = FileSink::named(*rt, String::from_str(alloc, name)?, captures).telling(PROGRAM);
    let mut out = BufWriter::new(alloc, PageFile { sink })?;
    write_page(alloc, &mut out, told)?;
    out.flush()
}

/// The status of a run that has written the table, and the page if one is wanted.
fn ended(told: &Told<'_>) -> Status {
    for file in told.reading.files.iter() {
        match file.ending {
            Ending::Whole => {}
            Ending::Refused(_) => return Status::Refused,
            Ending::Fault => return Status::ReadFault,
        }
    }
    if told.sick() == 0 {
        Status::Done
    } else {
        Status::Found
    }
}
