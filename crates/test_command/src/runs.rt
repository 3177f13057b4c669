//! One run of the command over files in memory.

use avtp_base::NoMemory;
use avtp_files::{Shelf, Sink};
use avtp_memory::{MemoryShelf, MemorySink};
use avtp_tool::run;
use device_rack::Rack;
use presenter_ring::{Gate, NoGate};
use run_report::Status;
use std::alloc::Global;
use std::thread::Threads;

/// The files of a shelf.
pub type Files = Vec<(String, Vec<u8>)>;

/// A command line, the number of the call of the shelf that fails, the number of the call of the sink that fails, and
/// the most bytes that a call moves. Calls are numbered from 1. If a number is 0, no call fails.
#[derive(Clone, Copy, Debug)]
pub struct Way<'a> {
    pub line: &'a str,
    pub shelf_fails: u64,
    pub sink_fails: u64,
    pub most: usize,
}

/// How a run ended, what it printed, and what the file that the last word names then held.
#[derive(Drop)]
pub struct Outcome {
    pub status: Status,
    pub text: String,
    pub made: Option<Vec<u8>>,
}

/// The words of a command line.
pub fn words_of(alloc: Global, line: &str) -> Result<Vec<String>, NoMemory> {
    let mut words = Vec::new(alloc);
    for word in line.split_ascii_whitespace() {
        words.push(String::from_str(alloc, word)?)?;
    }
    Ok(words)
}

/// The last word of a command line.
pub fn last_word(line: &str) -> &str {
    match line.rsplit_once(' ') {
        Some((_, word)) => word,
        None => line,
    }
}

/// A shelf's only file.
pub fn one_file(alloc: Global, name: &str, bytes: &[u8]) -> Result<Files, NoMemory> {
    let mut files = Vec::new(alloc);
    add_file(alloc, &mut files, name, bytes)?;
    Ok(files)
}

pub fn add_file(
    alloc: Global,
    files: &mut Files,
    name: &str,
    bytes: &[u8],
) -> Result<(), NoMemory> {
    let name = String::from_str(alloc, name)?;
    files.push((name, Vec::from_slice(alloc, bytes)?))?;
    Ok(())
}

/// Runs the command.
pub fn status_of<T: Threads + Sync, F: Shelf + Send, S: Sink + Send, G: Gate>(
    rt: &T,
    alloc: Global,
    words: &[String],
    shelf: &mut F,
    sink: &mut S,
    gate: &G,
    rack: &mut Rack,
) -> Status {
    run(rt, alloc, words, shelf, sink, gate, rack)
}

/// Runs the command with no device.
pub fn status_without_devices<T: Threads + Sync, F: Shelf + Send, S: Sink + Send, G: Gate>(
    rt: &T,
    alloc: Global,
    line: &str,
    shelf: &mut F,
    sink: &mut S,
    gate: &G,
) -> Result<Status, NoMemory> {
    let words = words_of(alloc, line)?;
    let mut rack = Rack::over(Vec::new(alloc));
    Ok(status_of(rt, alloc, &words, shelf, sink, gate, &mut rack))
}

fn shelf_of(alloc: Global, files: Files, way: &Way<'_>) -> Result<MemoryShelf, NoMemory> {
    let fails = Vec::from_slice(alloc, &[way.shelf_fails])?;
    Ok(MemoryShelf::over(alloc, files, fails).at_most(way.most.max(1)))
}

fn sink_of(alloc: Global, way: &Way<'_>) -> Result<MemorySink, NoMemory> {
    let fails = Vec::from_slice(alloc, &[way.sink_fails])?;
    Ok(MemorySink::over(alloc, fails).at_most(way.most.max(1)))
}

fn copy_of(alloc: Global, bytes: Option<&[u8]>) -> Result<Option<Vec<u8>>, NoMemory> {
    match bytes {
        Some(bytes) => Ok(Some(Vec::from_slice(alloc, bytes)?)),
        None => Ok(None),
    }
}

/// Runs the command over files.
pub fn ran_over<T: Threads + Sync>(
    rt: &T,
    alloc: Global,
    way: &Way<'_>,
    files: Files,
    rack: &mut Rack,
) -> Result<Outcome, NoMemory> {
    let mut shelf = shelf_of(alloc, files, way)?;
    let mut sink = sink_of(alloc, way)?;
    let words = words_of(alloc, way.line)?;
    let status = status_of(rt, alloc, &words, &mut shelf, &mut sink, &NoGate, rack);
    let made = copy_of(alloc, shelf.file(last_word(way.line)))?;
    let text = String::from_str(alloc, str::from_utf8(sink.bytes()).unwrap_or("no text"))?;
    Ok(Outcome { status, text, made })
}

/// Runs the command over files, with no device.
pub fn ran<T: Threads + Sync>(
    rt: &T,
    alloc: Global,
    way: &Way<'_>,
    files: Files,
) -> Result<Outcome, NoMemory> {
    let mut rack = Rack::over(Vec::new(alloc));
    ran_over(rt, alloc, way, files, &mut rack)
}
