//! `hostile SEED COUNT` damages COUNT captures and runs every command over each of them, in this process. The text must
//! follow the grammar and fit the status. Two more runs must give the same result: a second run of the same kind, and a
//! run that reads its file in pieces of one byte. The program prints a line for each command that is wrong, and at the
//! end the number of these commands. If no command is wrong, the program ends with status 0. `hostile SEED COUNT FIRST`
//! makes the captures from number FIRST on, not from number 1. So a single capture can be made again: it depends only
//! on the seed and its own number.
#![tactic(auto)]

mod bases;
mod commands;
mod damage;
mod draws;
mod grammar;
mod records;
mod trials;

use crate::bases::Bases;
use crate::draws::Draws;
use crate::grammar::pattern;
use crate::trials::{Found, try_commands};
use regex::{Matcher, Regex};
use std::env;
use std::process::ExitCode;
use std::thread::Threads;

/// The number of runs over each capture. Each of seven command lines is run three times; in the third run, the file is
/// read in pieces of one byte.
const RUNS: u64 = 21;

/// Which captures are made.
#[derive(Clone, Copy)]
struct Asked {
    seed: u64,
    count: u64,
    first: u64,
}

impl Asked {
    /// The number after that of the last capture.
    fn end(&self) -> u64 {
        self.first.saturating_add(self.count)
    }
}

fn main(rt: HostRuntime) -> ExitCode {
    match run_all(&rt, &rt) {
        Some(0) => ExitCode::SUCCESS,
        _ => ExitCode::FAILURE,
    }
}

/// What the arguments ask for.
fn read_words(rt: &HostRuntime) -> Option<Asked> {
    let words = words_of(rt)?;
    Some(Asked {
        seed: number(&words, 0)?,
        count: number(&words, 1)?,
        first: if words.len() > 2 {
            number(&words, 2)?
        } else {
            1
        },
    })
}

fn words_of(rt: &HostRuntime) -> Option<Vec<String>> {
    env::args(rt).ok()?.skip(1).collect(rt.alloc()).ok()
}

fn number(words: &[String], place: usize) -> Option<u64> {
    words.get(place)?.parse().ok()
}

/// Makes all captures, and returns how many commands were wrong.
fn run_all<T: Threads + Sync>(rt: &HostRuntime, threads: &T) -> Option<u64> {
    let asked = read_words(rt)?;
    let bases = Bases::new(threads, rt.alloc()).ok()?;
    let wrong = try_all(rt, threads, &bases, asked)?;
    let Asked { seed, count, first } = asked;
    let runs = asked.end().saturating_sub(first).saturating_mul(RUNS);
    println!(rt; "seed {seed} captures {count} runs {runs} wrong {wrong}").ok()?;
    Some(wrong)
}

/// Runs every command over each damaged capture, and prints the commands that are wrong. Returns how many there are.
fn try_all<T: Threads + Sync>(
    rt: &HostRuntime,
    threads: &T,
    bases: &Bases,
    asked: Asked,
) -> Option<u64> {
    let alloc = rt.alloc();
    let pattern = pattern(alloc).ok()?;
    let regex = Regex::new(alloc, pattern.as_str()).ok()?;
    let mut grammar = regex.matcher(alloc).ok()?;
    try_each(rt, threads, &mut grammar, bases, asked)
}

/// Runs every command over each damaged capture, and compares its text with the grammar.
fn try_each<T: Threads + Sync>(
    rt: &HostRuntime,
    threads: &T,
    grammar: &mut Matcher<'_>,
    bases: &Bases,
    asked: Asked,
) -> Option<u64> {
    let mut wrong: u64 = 0;
    for number in asked.first..asked.end() {
        let mut draws = Draws::of(asked.seed, number);
        let found = try_commands(threads, rt.alloc(), grammar, bases, &mut draws).ok()?;
        print_found(rt, asked.seed, number, &found)?;
        wrong = wrong.saturating_add(found.len() as u64);
    }
    Some(wrong)
}

fn print_found(rt: &HostRuntime, seed: u64, number: u64, found: &[Found]) -> Option<()> {
    for Found { wrong, line } in found {
        println!(rt; "seed {seed} number {number} {wrong:?}: {line}").ok()?;
    }
    Some(())
}
