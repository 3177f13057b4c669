//! The captures that are read, one after the other.

ghost use Rattle.std.specs.Prelude.{IsSome};
ghost use Rattle.capture_io.specs.Source.{slot_of};

use crate::PROGRAM;
use crate::gather::Report;
use crate::words::is_capture;
use avtp_base::{NoMemory, OpenFault, Refusal};
use avtp_files::{FileShelf, Shelf};
use capture_io::{End, Source};
use std::alloc::Global;
use stream_report::At;

/// How the reading of a file ended.
#[derive(Clone, Copy)]
pub enum Ending {
    Whole,
    Refused(Refusal),
    Fault,
}

/// A capture that was read.
#[derive(Drop)]
pub struct File {
    pub name: String,
    /// The number of frames that were read from the capture.
    pub frames: u64,
    pub ending: Ending,
}

/// The captures that were read, and the report on them.
pub struct Reading {
    pub files: Vec<File>,
    pub report: Report,
}

// One call for the proofs of all owners, instead of the drops of the parts at each of their ends.
impl Drop for Reading {
    fn drop(self) {
        let Reading {
            files: _,
            report: _,
        } = self;
    }
}

/// At most this many bytes of a file are read.
const LIMIT: u64 = 1 << 62;

/// Reads the captures that the words name. If `html` is given, the word at index `html` names the page, not a capture.
/// If a capture cannot be read to its end, standard error says why, and no other capture is read.
pub fn read_files(
    rt: &HostRuntime,
    alloc: Global,
    words: &[String],
    html: Option<usize>,
) -> Result<Reading, NoMemory> {
    let mut files = Vec::new(alloc);
    let mut report = Report::new(alloc, html.is_some());
    let mut shelf = FileShelf::new(alloc, rt).telling(PROGRAM);
    for (place, word) in words.iter().enumerate() {
        if !is_capture(html, place) {
            continue;
        }
        let number = u32::try_from(files.len())
            .unwrap_or(u32::MAX)
            .saturating_add(1);
        let read = read_file(alloc, &mut shelf, word.as_str(), number, &mut report)?;
        let ending = read.ending;
        files.push(File {
            name: word.clone()?,
            frames: read.frames,
            ending,
        })?;
        match ending {
            Ending::Whole => {}
            Ending::Refused(refusal) => {
                say_refusal(rt, word.as_str(), &refusal);
                break;
            }
            Ending::Fault => break,
        }
    }
    Ok(Reading { files, report })
}

/// Says on standard error at which field a capture is refused.
fn say_refusal(rt: &HostRuntime, name: &str, refusal: &Refusal) {
    let field = refusal.field.name();
    let at = refusal.at;
    let short = if refusal.short { " short" } else { "" };
    let _ = eprintln!(rt; "{PROGRAM}: {name}: capture refused: {field} at {at}{short}");
}

/// How much of a file was read, and how the reading ended.
#[derive(Clone, Copy)]
struct Read {
    frames: u64,
    ending: Ending,
}

/// Reads a capture into the report.
fn read_file<F: Shelf>(
    alloc: Global,
    shelf: &mut F,
    name: &str,
    number: u32,
    report: &mut Report,
) -> Result<Read, NoMemory> {
    let mut source = match Source::open(alloc, LIMIT, shelf, name) {
        Ok(source) => source,
        Err(OpenFault::Memory) => return Err(NoMemory),
        Err(_) => {
            return Ok(Read {
                frames: 0,
                ending: Ending::Fault,
            });
        }
    };
    let read = read_records(&mut source, shelf, number, report);
    source.close(shelf);
    read
}

/// Reads the records of an open capture into the report.
fn read_records<F: Shelf>(
    source: &mut Source,
    shelf: &mut F,
    number: u32,
    report: &mut Report,
) -> Result<Read, NoMemory>
    requires { IsSome ((F.state shelf.old).slots (slot_of source.old)) }
    ensures { IsSome ((F.state shelf.new).slots (slot_of source.new)) }
{
    let mut frames: u64 = 0;
    loop {
        if let Some(end) = source.next(shelf) {
            return Ok(Read {
                frames,
                ending: ending_of(end),
            });
        }
        frames = frames.saturating_add(1);
        let at = At {
            file: number,
            frame: frames,
        };
        report.note(at, &source.record())?;
    }
}

fn ending_of(end: End) -> Ending {
    match end {
        End::Whole => Ending::Whole,
        End::Refused(refusal) => Ending::Refused(refusal),
        End::ReadFault | End::Limit => Ending::Fault,
    }
}
