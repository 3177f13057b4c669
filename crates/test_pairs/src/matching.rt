//! Batches of two listeners, matched one by one.

ghost use Rattle.std.specs.Prelude.{◌≡◌, Some};
ghost use Rattle.listener_pair.specs.Matching.{wanted};

use crate::batches::batches_of;
use crate::told::{counts_text, difference_text};
use listener_pair::{Matching, Which};
use sample_schedule::Batch;
use std::alloc::Global;
use std::collections::VecDeque;
use std::test::Fail;
use vectors_avtp::check_rows;

/// The batches of A, and the batches of B. After `=>` are the differences and counts that the matching returns.
const ROWS: &str = "\
 |  => matched 0 only 0 0 differ 0
0@0 |  => matched 0 only 1 0 differ 0
 | 0@0 1@0 => matched 0 only 0 2 differ 0
0@0 | 0@0 => matched 1 only 0 0 differ 0
0@0 | 1@0 => matched 0 only 1 1 differ 0
0@5 1@5 2@5 | 1@5 => matched 1 only 2 0 differ 0
// In these four rows, the two batches with sequence number 0 are 512 or 513 positions apart.
0@0 511x1@0 | 0@0 => matched 1 only 511 0 differ 0
0@0 512x1@0 | 0@0 => matched 0 only 513 1 differ 0
0@1 | 0@0 511x1@0 => 1 1 seq 0 At { sample: 0, a: 1, b: 0 }, matched 1 only 0 511 differ 1
0@1 | 0@0 512x1@0 => matched 0 only 1 513 differ 0
// Positions are counted over all batches, including those that are already paired.
0@0 255x1@0 | 255x1@0 0@0 => matched 256 only 0 0 differ 0
0@0 256x1@0 | 256x1@0 0@0 => matched 256 only 1 1 differ 0
// The reach is 64 times the duration of A's six samples. One nanosecond beyond the reach is too much.
0@0 | 0@8000000 => 1 1 seq 0 At { sample: 0, a: 0, b: 8000000 }, matched 1 only 0 0 differ 1
0@0 | 0@8000001 => matched 0 only 1 1 differ 0
0@8000000 | 0@0 => 1 1 seq 0 At { sample: 0, a: 8000000, b: 0 }, matched 1 only 0 0 differ 1
0@8000001 | 0@0 => matched 0 only 1 1 differ 0
// The reach of three samples of A compared with six of B, and of six samples of A compared with three of B.
0@0*3 | 0@4000000 => 1 1 seq 0 Count { a: 3, b: 6 }, matched 1 only 0 0 differ 1
0@0*3 | 0@4000001 => matched 0 only 1 1 differ 0
0@4000001 | 0@0*3 => 1 1 seq 0 Count { a: 6, b: 3 }, matched 1 only 0 0 differ 1
// At A's rate, the reach is not a whole number of nanoseconds.
0@0/44100 | 0@8707482 => 1 1 seq 0 At { sample: 0, a: 0, b: 8707482 }, matched 1 only 0 0 differ 1
0@0/44100 | 0@8707483 => matched 0 only 1 1 differ 0
0@8000001 | 0@0/44100 => matched 0 only 1 1 differ 0
// The first batch within reach is paired, and each batch is paired only once.
0@0 0@1000 | 0@2000 => 1 1 seq 0 At { sample: 0, a: 0, b: 2000 }, matched 1 only 1 0 differ 1
0@0 0@1000 | 0@2000 0@2500 => 1 1 seq 0 At { sample: 0, a: 0, b: 2000 }, 2 2 seq 0 At { sample: 0, a: 1000, b: 2500 }, matched 2 only 0 0 differ 2
0@0 0@8000000 | 0@8000001 => 2 1 seq 0 At { sample: 0, a: 8000000, b: 8000001 }, matched 1 only 1 0 differ 1
256x0@0 | 256x0@8000001 => matched 0 only 256 256 differ 0
256x0@0 256x0@8000001 | 256x0@8000001 => matched 256 only 256 0 differ 0
// At the same instant, batches of A come before batches of B. Hence the differences are in the order of B's batches.
0@0=010101010101 1@0=010101010101 | 1@0 0@0 => 2 1 seq 1 Bytes { sample: 0 }, 1 2 seq 0 Bytes { sample: 0 }, matched 2 only 0 0 differ 2
// A unit compared with samples, and two units at the same instant and at different instants.
0@5u=65 | 0@5 => matched 0 only 1 1 differ 0
0@5 | 0@5u=65 => matched 0 only 1 1 differ 0
0@5u=65 | 0@5u=65 => matched 1 only 0 0 differ 0
0@5u=65 | 0@5u=6501 => 1 1 seq 0 Bytes { sample: 0 }, matched 1 only 0 0 differ 1
0@5u=65 | 0@6u=65 => matched 0 only 1 1 differ 0
// The first sample that differs is reported: as `At` if its instants differ, otherwise as `Bytes`.
0@0=000000000100 | 0@0=000000000000 => 1 1 seq 0 Bytes { sample: 4 }, matched 1 only 0 0 differ 1
0@0=010000000000 | 0@1=000000000000 => 1 1 seq 0 At { sample: 0, a: 0, b: 1 }, matched 1 only 0 0 differ 1
0@0 | 0@0/44100 => 1 1 seq 0 At { sample: 1, a: 20833, b: 22675 }, matched 1 only 0 0 differ 1
0@0=010000000000 | 0@0/44100=000000000000 => 1 1 seq 0 Bytes { sample: 0 }, matched 1 only 0 0 differ 1
0@0=000000000000 | 0@0=000000000000000000000000 => 1 1 seq 0 Bytes { sample: 0 }, matched 1 only 0 0 differ 1
0@0*1 | 0@0*1/44100 => matched 1 only 0 0 differ 0
";

/// Gives the matching the next batch of the wanted side, or the side's end.
fn put(matching: &mut Matching, which: Which, next: Option<Batch>)
    requires { wanted matching.old ≡ Some which }
{
    match next {
        Some(batch) => matching.take(which, batch),
        None => matching.end(which),
    }
}

/// The differences and counts of the batches of two listeners.
fn matched(alloc: Global, mut a: VecDeque<Batch>, mut b: VecDeque<Batch>) -> Result<String, Fail> {
    let mut matching = Matching::begin(alloc)?;
    let mut text = String::new(alloc);
    for _ in 0..10_000u32 {
        if let Some(difference) = matching.next_difference() {
            text.push_str(difference_text(alloc, difference)?.as_str())?;
            continue;
        }
        match matching.wants() {
            Some(Which::A) => put(&mut matching, Which::A, a.pop_front()),
            Some(Which::B) => put(&mut matching, Which::B, b.pop_front()),
            None => {
                text.push_str(counts_text(alloc, matching.counts())?.as_str())?;
                return Ok(text);
            }
        }
    }
    Err(Fail::from("no end"))
}

#[test]
fn a_batch_is_paired_with_the_first_within_reach(rt: HostRuntime) -> Result<(), Fail> {
    let alloc = rt.alloc();
    check_rows(ROWS, |row| {
        let (a, b) = row.split_once('|').unwrap_or((row, ""));
        matched(alloc, batches_of(alloc, a)?, batches_of(alloc, b)?)
    })
}
