//! Batches as they are written in the rows of a table.

use avtp_base::Bytes;
use sample_schedule::Batch;
use std::alloc::Global;
use std::collections::VecDeque;
use std::test::Fail;
use time_unfold::Line;

/// The samples of a batch: the first instant, in nanoseconds; the duration of `den` samples, in nanoseconds; and the
/// number of samples.
#[derive(Clone, Copy)]
struct Samples {
    first: u32,
    num: u32,
    den: u32,
    count: u8,
}

fn number(text: &str) -> u32 {
    text.parse::<u32>().unwrap_or(0)
}

fn byte(text: &str) -> u8 {
    text.parse::<u8>().unwrap_or(0)
}

/// The parts of a text before and after a sign. Without the sign, the parts are the whole text and `other`.
fn split<'a>(text: &'a str, sign: char, other: &'a str) -> (&'a str, &'a str) {
    text.split_once(sign).unwrap_or((text, other))
}

/// The samples that the part of a word before `=` describes. `1000` means six samples at 48 kHz from instant 1,000;
/// `1000*3` means three samples; `1000/44100` means six samples at 44.1 kHz; and `1000u` means a unit.
fn samples_of(word: &str) -> Samples {
    if let Some(first) = word.strip_suffix('u') {
        return Samples {
            first: number(first),
            num: 1,
            den: 1,
            count: 1,
        };
    }
    let (word, rate) = split(word, '/', "48000");
    let (first, count) = split(word, '*', "6");
    Samples {
        first: number(first),
        num: 1_000_000_000,
        den: number(rate),
        count: byte(count),
    }
}

fn batch_of(frame: u64, seq: u8, samples: Samples, bytes: Bytes) -> Result<Batch, Fail> {
    if samples.num == 0 || samples.den == 0 || samples.count == 0 {
        return Err(Fail::from("a batch has samples, on a line"));
    }
    if bytes.as_slice().len() % usize::from(samples.count) != 0 {
        return Err(Fail::from("a batch has whole samples"));
    }
    Ok(Batch {
        frame,
        seq,
        line: Line {
            base: i64::from(samples.first),
            num: u64::from(samples.num),
            den: u64::from(samples.den),
        },
        from: 0,
        count: u32::from(samples.count),
        bytes,
    })
}

/// The batch that a word describes. The word has the batch's sequence number, then `@`, then the samples. If `=`
/// follows, the bytes of the samples come after it. Without bytes, each sample has one byte, 0.
fn batch(alloc: Global, frame: u64, word: &str) -> Result<Batch, Fail> {
    let (seq, rest) = split(word, '@', "");
    let (rest, digits) = split(rest, '=', "");
    let samples = samples_of(rest);
    let bytes = if digits.is_empty() {
        vec![in alloc; 0u8; usize::from(samples.count)]?
    } else {
        hex::decode(alloc, digits)?
    };
    batch_of(frame, byte(seq), samples, Bytes::over(bytes))
}

/// The batches of a listener, in frames numbered from 1. With a prefix such as `9x`, a word stands for nine equal
/// batches.
pub fn batches_of(alloc: Global, words: &str) -> Result<VecDeque<Batch>, Fail> {
    let mut batches = VecDeque::new(alloc);
    let mut frame = 0u64;
    for word in words.split_ascii_whitespace() {
        let (times, word) = word.split_once('x').unwrap_or(("1", word));
        for _ in 0..number(times) {
            frame = frame.saturating_add(1);
            batches.push_back(batch(alloc, frame, word)?)?;
        }
    }
    Ok(batches)
}
