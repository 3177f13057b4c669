//! The command `avtp` over one file in memory.

use avtp_base::NoMemory;
use avtp_memory::{MemoryShelf, MemorySink};
use avtp_tool::run;
use device_rack::Rack;
use presenter_ring::NoGate;
use regex::Matcher;
use std::alloc::Global;
use std::str::from_utf8;
use std::thread::Threads;

/// The name of the file that commands read.
const IN: &str = "in";

/// The name of the file that `talk` makes.
const OUT: &str = "out";

/// The result of a run.
#[derive(PartialEq, Eq, Drop)]
struct Report {
    /// The command, what it printed, the size of the file that it made, if any, and the status.
    text: String,
    made: Vec<u8>,
}

/// What is wrong with a command over a file.
#[derive(Clone, Copy, Debug)]
pub enum Wrong {
    /// The command's text does not follow the grammar, or does not fit its status.
    Text,
    /// A second run over the same files gives a different result.
    SecondRun,
    /// If a run reads the file in pieces of one byte, the result is different.
    Pieces,
}

/// Runs a command line over the files of a shelf.
fn report_of<T: Threads + Sync>(
    rt: &T,
    alloc: Global,
    line: &str,
    shelf: &mut MemoryShelf,
) -> Result<Report, NoMemory> {
    let words = words_of(alloc, line)?;
    let mut sink = MemorySink::over(alloc, Vec::new(alloc));
    let status = status_of(rt, alloc, &words, shelf, &mut sink);
    let command = words.get(0).map_or("", |word| word.as_str());
    let made = shelf.file(OUT);
    Ok(Report {
        text: text_of(alloc, command, sink.bytes(), made, status)?,
        made: Vec::from_slice(alloc, made.unwrap_or(&[]))?,
    })
}

/// Runs a command over the files of a shelf, and returns the code of its status.
fn status_of<T: Threads + Sync>(
    rt: &T,
    alloc: Global,
    words: &[String],
    shelf: &mut MemoryShelf,
    sink: &mut MemorySink,
) -> u8 {
    let mut rack = Rack::over(Vec::new(alloc));
    run(rt, alloc, words, shelf, sink, &NoGate, &mut rack).code()
}

/// The text of a report.
fn text_of(
    alloc: Global,
    command: &str,
    printed: &[u8],
    made: Option<&[u8]>,
    status: u8,
) -> Result<String, NoMemory> {
    let printed = from_utf8(printed).unwrap_or("");
    let Some(made) = made else {
        return Ok(format!(in alloc; "{command}\n{printed}status {status}\n")?);
    };
    let size = made.len();
    Ok(format!(in alloc; "{command}\n{printed}made {size}\nstatus {status}\n")?)
}

fn words_of(alloc: Global, line: &str) -> Result<Vec<String>, NoMemory> {
    let mut words = Vec::new(alloc);
    for word in line.split_whitespace() {
        words.push(String::from_str(alloc, word)?)?;
    }
    Ok(words)
}

fn shelf_of(alloc: Global, file: &[u8]) -> Result<MemoryShelf, NoMemory> {
    let mut files = Vec::new(alloc);
    files.push(named(alloc, file)?)?;
    Ok(MemoryShelf::over(alloc, files, Vec::new(alloc)))
}

/// A file and its name.
fn named(alloc: Global, file: &[u8]) -> Result<(String, Vec<u8>), NoMemory> {
    let bytes = Vec::from_slice(alloc, file)?;
    Ok((String::from_str(alloc, IN)?, bytes))
}

/// Runs a command line three times over a file, and returns what is wrong, or `None`. The last run reads the file in
/// pieces of one byte.
pub fn wrong_with<T: Threads + Sync>(
    rt: &T,
    alloc: Global,
    grammar: &mut Matcher<'_>,
    line: &str,
    file: &[u8],
) -> Result<Option<Wrong>, NoMemory> {
    let mut shelf = shelf_of(alloc, file)?;
    let first = report_of(rt, alloc, line, &mut shelf)?;
    if !grammar.is_match(first.text.as_str()) {
        return Ok(Some(Wrong::Text));
    }
    if differs(rt, alloc, line, &mut shelf, &first)? {
        return Ok(Some(Wrong::SecondRun));
    }
    let mut pieces = shelf.at_most(1);
    let wrong = differs(rt, alloc, line, &mut pieces, &first)?;
    Ok(wrong.then_some(Wrong::Pieces))
}

/// Runs a command line over the files of a shelf, and returns whether its report differs from the first one.
fn differs<T: Threads + Sync>(
    rt: &T,
    alloc: Global,
    line: &str,
    shelf: &mut MemoryShelf,
    first: &Report,
) -> Result<bool, NoMemory> {
    Ok(report_of(rt, alloc, line, shelf)? != *first)
}

/// The capture that `talk` makes of an input.
pub fn talked<T: Threads + Sync>(
    rt: &T,
    alloc: Global,
    options: &str,
    input: &[u8],
) -> Result<Vec<u8>, NoMemory> {
    let line = format!(in alloc; "talk {options} {IN} {OUT}")?;
    let mut shelf = shelf_of(alloc, input)?;
    Ok(report_of(rt, alloc, line.as_str(), &mut shelf)?.made)
}
