//! Transcripts: runs of the command over files in memory, with what each run prints and how it ends.
//!
//! - `< NAME STEPS` puts a file on the shelf. `+ NAME STEPS` adds to a file. `@ NAME PLACES` keeps only these records of a
//!   file, in this order.
//! - `? NAME STEPS` asserts what a file holds. `~ NAME OTHER` asserts that two files hold the same bytes. `# NAME 24`
//!   asserts that a file holds 24 bytes.
//! - `! shelf 3` makes the third call of the shelf fail in the next run. `! sink 3` makes the third call of the sink
//!   fail in the next run. `! devices 0 3 0` makes the third call of the second of the three devices fail.
//! - `$ WORDS` runs the command. The lines after `$ WORDS` are the text that the command prints. In the text of a
//!   command, `...` stands for any lines, and `*` at the end of a line stands for the rest of that line.
//! - `[3]` is the exit status, if it is not 0. `= 12 1 12` has a number for each device: its digits are the frame
//!   numbers of the items that the device took.

use crate::devices::rack_of;
use crate::recipe::{bytes_of, number};
use crate::runs::{Files, Outcome, Way, last_word, ran_over};
use avtp_base::NoMemory;
use std::alloc::Global;
use std::process::Abort;
use std::thread::Threads;

/// The files of a shelf, the newest first; which calls are to fail in the next run; and the result of the latest run.
#[derive(Drop)]
pub struct Bench {
    alloc: Global,
    files: Files,
    shelf_fails: u64,
    sink_fails: u64,
    device_fails: [u64; 3],
    took: [u64; 3],
    status: u8,
}

impl Bench {
    /// An empty shelf.
    pub fn new(alloc: Global) -> Self {
        Bench {
            alloc,
            files: Vec::new(alloc),
            shelf_fails: 0,
            sink_fails: 0,
            device_fails: [0; 3],
            took: [0; 3],
            status: 0,
        }
    }

    pub fn alloc(&self) -> Global {
        self.alloc
    }

    /// The bytes of a file.
    pub fn file(&self, name: &str) -> &[u8] {
        for (held, bytes) in &self.files {
            if held.as_str() == name {
                return bytes.as_slice();
            }
        }
        &[]
    }

    /// Puts a file on the shelf.
    pub fn put(&mut self, name: &str, bytes: Vec<u8>) -> Result<(), NoMemory> {
        let name = String::from_str(self.alloc, name)?;
        self.files.insert(0, (name, bytes))?;
        Ok(())
    }

    fn copies(&self) -> Result<Files, NoMemory> {
        let mut files = Vec::new(self.alloc);
        for (name, bytes) in &self.files {
            files.push((name.clone()?, bytes.clone()?))?;
        }
        Ok(files)
    }

    /// Runs the command over copies of the files, and notes what the devices took.
    fn outcome<T: Threads + Sync>(&mut self, rt: &T, line: &str) -> Result<Outcome, NoMemory> {
        let way = Way {
            line,
            shelf_fails: self.shelf_fails,
            sink_fails: self.sink_fails,
            most: usize::MAX,
        };
        let files = self.copies()?;
        let (mut rack, notes) = rack_of(self.alloc, self.device_fails)?;
        let outcome = ran_over(rt, self.alloc, &way, files, &mut rack);
        drop(rack);
        self.took = notes.taken();
        outcome
    }

    /// Runs the command, and returns its text. Afterwards, the file that the last word names is as the command left it.
    pub fn run<T: Threads + Sync>(&mut self, rt: &T, line: &str) -> Result<String, NoMemory> {
        let Outcome { status, text, made } = self.outcome(rt, line)?;
        self.status = status.code();
        self.shelf_fails = 0;
        self.sink_fails = 0;
        self.device_fails = [0; 3];
        self.keep(last_word(line), made)?;
        Ok(text)
    }

    fn keep(&mut self, name: &str, made: Option<Vec<u8>>) -> Result<(), NoMemory> {
        if let Some(bytes) = made
            && bytes.as_slice() != self.file(name)
        {
            self.put(name, bytes)?;
        }
        Ok(())
    }

    /// Follows the lines that are neither command lines nor the text of a command.
    fn follow(&mut self, rt: &impl Abort, lines: &str) -> Result<(), NoMemory> {
        for line in lines.lines() {
            if let Some((sign, rest)) = line.split_once(' ') {
                let (name, steps) = rest.split_once(' ').unwrap_or((rest, ""));
                match sign {
                    "<" => self.put(name, bytes_of(self.alloc, steps)?)?,
                    "+" => self.add(name, steps)?,
                    "@" => self.pick(name, steps)?,
                    "!" => self.fail(name, steps),
                    _ => self.assert_line(rt, sign, rest)?,
                }
            }
        }
        Ok(())
    }

    fn assert_line(&self, rt: &impl Abort, sign: &str, rest: &str) -> Result<(), NoMemory> {
        let is_true = self.is_true(sign, rest)?;
        let (name, _) = rest.split_once(' ').unwrap_or((rest, ""));
        let (size, took) = (self.file(name).len(), self.took);
        assert!(rt;
            is_true,
            "{sign} {rest}: {size} bytes, the devices took {took:?}"
        );
        Ok(())
    }

    /// Whether a line says what is so of a file or of the devices. Any other line is true.
    fn is_true(&self, sign: &str, rest: &str) -> Result<bool, NoMemory> {
        let (name, steps) = rest.split_once(' ').unwrap_or((rest, ""));
        let file = self.file(name);
        match sign {
            "?" => Ok(file == bytes_of(self.alloc, steps)?.as_slice()),
            "~" => Ok(file == self.file(steps)),
            "#" => Ok(file.len() == number(steps)),
            "=" => Ok(self.took == three_numbers(rest)),
            _ => Ok(true),
        }
    }

    fn add(&mut self, name: &str, steps: &str) -> Result<(), NoMemory> {
        let mut bytes = Vec::from_slice(self.alloc, self.file(name))?;
        bytes.extend_from_slice(&bytes_of(self.alloc, steps)?)?;
        self.put(name, bytes)
    }

    fn pick(&mut self, name: &str, places: &str) -> Result<(), NoMemory> {
        let places = numbers_in(self.alloc, places)?;
        let picked = records_at(self.alloc, self.file(name), &places)?;
        self.put(name, picked)
    }

    fn fail(&mut self, what: &str, calls: &str) {
        let [first, second, third] = three_numbers(calls);
        match what {
            "shelf" => self.shelf_fails = first,
            "sink" => self.sink_fails = first,
            _ => self.device_fails = [first, second, third],
        }
    }
}

fn three_numbers(text: &str) -> [u64; 3] {
    let (first, rest) = text.split_once(' ').unwrap_or((text, ""));
    let (second, third) = rest.split_once(' ').unwrap_or((rest, ""));
    [
        number(first) as u64,
        number(second) as u64,
        number(third) as u64,
    ]
}

/// The numbers in a text of numbers that are separated by spaces.
pub fn numbers_in(alloc: Global, text: &str) -> Result<Vec<usize>, NoMemory> {
    let mut numbers = Vec::new(alloc);
    for word in text.split_ascii_whitespace() {
        numbers.push(number(word))?;
    }
    Ok(numbers)
}

/// The columns of a row, of which there are at most five.
pub fn columns(row: &str) -> [&str; 5] {
    let mut columns = [""; 5];
    for (place, column) in row.split(" | ").enumerate() {
        if let Some(held) = columns.get_mut(place) {
            *held = column;
        }
    }
    columns
}

/// The records of a capture with a file header of 24 bytes and lengths in little endian.
pub fn records_in(alloc: Global, capture: &[u8]) -> Result<Vec<&[u8]>, NoMemory> {
    let mut records = Vec::new(alloc);
    let mut rest = capture.get(24..).unwrap_or(&[]);
    for _ in 0..capture.len() {
        let Some(length) = rest.get(8..12) else {
            break;
        };
        let end = usize::from(length[0]) + 256 * usize::from(length[1]) + 16;
        records.push(rest.get(..end).unwrap_or(&[]))?;
        rest = rest.get(end..).unwrap_or(&[]);
    }
    Ok(records)
}

/// A capture of the records of `capture` with the numbers `places`, in this order.
pub fn records_at(alloc: Global, capture: &[u8], places: &[usize]) -> Result<Vec<u8>, NoMemory> {
    let records = records_in(alloc, capture)?;
    let mut picked = Vec::from_slice(alloc, capture.get(..24).unwrap_or(&[]))?;
    for place in places {
        if let Some(record) = records.get(*place) {
            picked.extend_from_slice(record)?;
        }
    }
    Ok(picked)
}

/// The exit status that the lines state.
fn stated_status(lines: &str) -> usize {
    for line in lines.lines() {
        if let Some(rest) = line.strip_prefix('[')
            && let Some(code) = rest.strip_suffix(']')
        {
            return number(code);
        }
    }
    0
}

/// The lines of the text that a transcript states.
fn stated_text(alloc: Global, lines: &str) -> Result<Vec<&str>, NoMemory> {
    let mut text = Vec::new(alloc);
    for line in lines.lines() {
        if let Some(b'a'..=b'z' | b'.') = line.as_bytes().first().copied() {
            text.push(line)?;
        }
    }
    Ok(text)
}

fn fits(line: &str, stated: &str) -> bool {
    match stated.strip_suffix('*') {
        Some(start) => line.starts_with(start),
        None => line == stated,
    }
}

/// The first line where a text differs from the stated lines.
fn other_line<'a>(text: &'a str, stated: &[&str]) -> Option<&'a str> {
    let mut place = 0usize;
    let mut skips = false;
    for line in text.lines() {
        if stated.get(place).copied().unwrap_or("") == "..." {
            skips = true;
            place = place.saturating_add(1);
        }
        if fits(line, stated.get(place).copied().unwrap_or("")) {
            skips = false;
            place = place.saturating_add(1);
        } else if !skips {
            return Some(line);
        }
    }
    if place < stated.len() {
        return Some("the end");
    }
    None
}

/// Asserts that a run printed the text that the lines state, and ended with their status. `place` names the command line
/// of the run and its transcript.
fn assert_ran(
    rt: &impl Abort,
    bench: &Bench,
    place: [&str; 2],
    text: &str,
    lines: &str,
) -> Result<(), NoMemory> {
    let other = other_line(text, &stated_text(bench.alloc, lines)?);
    let status = bench.status;
    let is_stated = other.is_none() && usize::from(status) == stated_status(lines);
    let [title, words] = place;
    assert!(rt;
        is_stated,
        "{title}: status {status} and {other:?} after {words}"
    );
    Ok(())
}

/// Follows a transcript with this title.
pub fn follow<T: Threads + Sync + Abort>(
    rt: &T,
    alloc: Global,
    title: &str,
    transcript: &str,
) -> Result<(), NoMemory> {
    let mut bench = Bench::new(alloc);
    let (files, runs) = transcript.split_once("$ ").unwrap_or((transcript, ""));
    bench.follow(rt, files)?;
    for part in runs.split("$ ") {
        let (words, lines) = part.split_once('\n').unwrap_or((part, ""));
        let text = bench.run(rt, words)?;
        assert_ran(rt, &bench, [title, words], text.as_str(), lines)?;
        bench.follow(rt, lines)?;
    }
    Ok(())
}

/// Follows each transcript of a table. A row has the title of a transcript, and the transcript.
pub fn follow_each<T: Threads + Sync + Abort>(
    rt: &T,
    alloc: Global,
    transcripts: &[(&str, &str)],
) -> Result<(), NoMemory> {
    for (title, transcript) in transcripts {
        follow(rt, alloc, title, transcript)?;
    }
    Ok(())
}
