//! Runs parts of the library by themselves, so that `bench/run` can measure them.
//!
//! `measured rounds CAPACITY ITEMS` sends items through a ring from one thread to another, and prints how many arrived.
//! `measured lines TIMESTAMPS LOOK-UPS` looks up lines of a media clock, and prints how many were found. The clock's
//! window is full of packets, each with `TIMESTAMPS` timestamps.
//!
//! `measured judge ORDER WAITING LOOK CLOCK ITEMS` judges packets with a look-ahead, and with a clock or without.
//! `ORDER`, the order of the packets' instants, is `rising`, `falling`, `random`, `middle` or `equal`.
//! `measured listener STREAMS PACKETS` feeds a listener a capture with `STREAMS` streams and `PACKETS` packets. The
//! listener hears one of the streams. `judge` and `listener` print how many packets are presented, and in how many
//! nanoseconds.
//!
//! `measured samples BATCHES TIMES` prints the samples of `BATCHES` batches `TIMES` times, to a sink that keeps
//! nothing. `measured samples` prints the number of bytes of text, and how many nanoseconds the printing took.
#![tactic(auto)]

mod capture;
mod hearing;
mod judge;
mod lines;
mod rounds;
mod samples;
mod stream;
mod timed;

use crate::hearing::hear;
use crate::judge::judge;
use crate::lines::lines;
use crate::rounds::rounds;
use crate::samples::samples;
use crate::stream::{Order, Stream};
use crate::timed::Timed;
use std::alloc::Global;
use std::env;
use std::process::ExitCode;
use std::thread::Threads;
use std::time::Clock;

fn main(rt: HostRuntime) -> ExitCode {
    let Some(words) = words_of(&rt) else {
        return ExitCode::FAILURE;
    };
    let Some(text) = measured(&rt, rt.alloc(), &words) else {
        return ExitCode::FAILURE;
    };
    match println!(rt; "{text}") {
        Ok(()) => ExitCode::SUCCESS,
        Err(_) => ExitCode::FAILURE,
    }
}

/// The arguments of the command.
fn words_of(rt: &HostRuntime) -> Option<Vec<String>> {
    env::args(rt).ok()?.skip(1).collect(rt.alloc()).ok()
}

/// Runs the measurement that the arguments name. Returns `None` if the arguments name no measurement, or if there is
/// not enough memory.
fn measured<T: Threads + Sync + Clock>(rt: &T, alloc: Global, words: &[String]) -> Option<String> {
    match words.get(0)?.as_str() {
        "judge" => judged(rt, alloc, words)?.text(alloc),
        "listener" => heard(rt, alloc, words)?.text(alloc),
        "samples" => printed(rt, alloc, words)?.text(alloc),
        _ => {
            let count = counted(rt, alloc, words)?;
            format!(in alloc; "{count}").ok()
        }
    }
}

fn counted<T: Threads + Sync>(rt: &T, alloc: Global, words: &[String]) -> Option<u64> {
    let what = words.get(0)?;
    let size: u32 = words.get(1)?.parse().ok()?;
    let count: u32 = words.get(2)?.parse().ok()?;
    match what.as_str() {
        "rounds" if size >= 1 && size <= 256 => rounds(rt, alloc, size, count),
        "lines" if size >= 1 && size <= 8_191 => lines(alloc, size, count),
        _ => None,
    }
}

fn judged<C: Clock>(clock: &C, alloc: Global, words: &[String]) -> Option<Timed> {
    let stream = Stream {
        order: order_of(words.get(1)?)?,
        waiting: words.get(2)?.parse().ok()?,
        clock: words.get(4)?.as_str() == "clock",
    };
    let look: u32 = words.get(3)?.parse().ok()?;
    let count: u32 = words.get(5)?.parse().ok()?;
    if stream.waiting == 0 || stream.waiting > 65_536 || look > 64 {
        return None;
    }
    judge(clock, alloc, &stream, look, count)
}

fn heard<C: Clock>(clock: &C, alloc: Global, words: &[String]) -> Option<Timed> {
    let streams: u32 = words.get(1)?.parse().ok()?;
    let packets: u32 = words.get(2)?.parse().ok()?;
    if streams == 0 || streams > 65_536 {
        return None;
    }
    hear(clock, alloc, streams, packets)
}

fn printed<C: Clock>(clock: &C, alloc: Global, words: &[String]) -> Option<Timed> {
    let batches: u32 = words.get(1)?.parse().ok()?;
    let times: u32 = words.get(2)?.parse().ok()?;
    samples(clock, alloc, batches, times)
}

fn order_of(word: &str) -> Option<Order> {
    match word {
        "rising" => Some(Order::Rising),
        "falling" => Some(Order::Falling),
        "random" => Some(Order::Random),
        "middle" => Some(Order::Middle),
        "equal" => Some(Order::Equal),
        _ => None,
    }
}
