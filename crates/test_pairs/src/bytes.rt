//! Two captures as bytes, in pieces of any length.

ghost use Rattle.std.specs.Prelude.{◌≡◌, ◌+◌, ◌*◌, ◌≤◌, ◌^◌, false, Some};
ghost use Rattle.pcap_frames.specs.Reading.{taken};
ghost use Rattle.capture_pair.specs.Feeding.{wanted_by};

use crate::told::{counts_text, difference_text, plan};
use capture_pair::Pair;
use listener::ListenFault;
use listener_pair::{Difference, Which};
use std::alloc::Global;
use std::test::Fail;
use vectors_avtp::{bytes_of, check_rows, refusal_text};

/// The captures A and B. The text after `=>` lists what is found, in order: differences where they become known, a
/// capture's first refusal where the capture ends, and the counts.
const ROWS: &str = "\
pcap | pcap => matched 1 only 0 0 differ 0
pcap | pcap 105=fb => 1 1 seq 0 Bytes { sample: 5 }, matched 1 only 0 0 differ 1
pcap 70=3bb94e81 | pcap => 1 1 seq 0 At { sample: 0, a: 1002000001, b: 1002000000 }, matched 1 only 0 0 differ 1
pcap | pcap len=24 => matched 0 only 1 0 differ 0
// If a side is refused, it is compared up to the refusal.
pcap | pcap len=105 => packet_bytes at 40 short, matched 0 only 1 0 differ 0
pcap | pcap 105=fb 00 => ts_sec at 106 short, 1 1 seq 0 Bytes { sample: 5 }, matched 1 only 0 0 differ 1
pcap 0=00 | pcap => magic at 0, matched 0 only 0 1 differ 0
pcap 0=00 | pcap 4=03 => magic at 0, version_major at 4, matched 0 only 0 0 differ 0
// Two packets, the second 10 ms after the first.
pcap 01000000 80969800 42000000 42000000 frame 142=01 152=3c51e500 | pcap 105=fb 01000000 80969800 42000000 42000000 frame 142=01 152=3c51e500 => 1 1 seq 0 Bytes { sample: 5 }, matched 2 only 0 0 differ 1
";

/// The maximum number of bytes of a piece.
const MOST: usize = 1_000;

/// A pair, how many more pieces it may be fed, and which captures have ended.
#[derive(Drop)]
struct Bounded {
    pair: Pair,
    left: u32,
    ended_a: bool,
    ended_b: bool,
    ghost a: { ended_a ≡ false → taken pair.a.reader + 1000 * left ≤ 2 ^ 62 },
    ghost b: { ended_b ≡ false → taken pair.b.reader + 1000 * left ≤ 2 ^ 62 },
}

fn begin(alloc: Global) -> Result<Bounded, Fail> {
    Ok(Bounded {
        pair: Pair::begin(alloc, plan())?,
        left: 1_000,
        ended_a: false,
        ended_b: false,
    })
}

fn next_difference(bounded: &mut Bounded) -> Option<Difference> {
    bounded.pair.next_difference()
}

/// Whether a capture has ended.
fn has_ended(bounded: &Bounded, which: Which) -> bool
    ensures a { which ≡ Which.A → result ≡ bounded.now.ended_a }
    ensures b { which ≡ Which.B → result ≡ bounded.now.ended_b }
{
    match which {
        Which::A => bounded.ended_a,
        Which::B => bounded.ended_b,
    }
}

/// Feeds a piece of the wanted side, and returns how many bytes were taken. After a refusal, all bytes count as taken.
fn feed(alloc: Global, bounded: &mut Bounded, which: Which, piece: &[u8]) -> Result<usize, Fail>
    requires { wanted_by bounded.old.pair ≡ Some which }
{
    if bounded.left == 0 || piece.len() > MOST || has_ended(bounded, which) {
        return Err(Fail::from("too many bytes"));
    }
    bounded.left -= 1;
    match bounded.pair.feed(alloc, which, piece) {
        Ok(n) => Ok(n),
        Err(ListenFault::Refused(_)) => Ok(usize::MAX),
        Err(ListenFault::Memory) => Err(Fail::from("no memory")),
    }
}

/// Ends the wanted side, and returns its refusal, if it has one.
fn end(alloc: Global, bounded: &mut Bounded, which: Which) -> Result<String, Fail>
    requires { wanted_by bounded.old.pair ≡ Some which }
{
    match which {
        Which::A => bounded.ended_a = true,
        Which::B => bounded.ended_b = true,
    }
    match bounded.pair.end(which) {
        Ok(()) => Ok(String::new(alloc)),
        Err(ListenFault::Refused(refusal)) => {
            let refused = refusal_text(alloc, refusal)?;
            Ok(format!(in alloc; "{refused}, ")?)
        }
        Err(ListenFault::Memory) => Err(Fail::from("no memory")),
    }
}

/// Feeds at most `most` of the bytes that are left of the wanted side. If no bytes are left, ends the side. Returns the
/// remaining bytes. If the call ended the side, the call also returns the side's refusal.
fn put<'a>(
    alloc: Global,
    bounded: &mut Bounded,
    which: Which,
    left: &'a [u8],
    most: usize,
) -> Result<(&'a [u8], String), Fail>
    requires { wanted_by bounded.old.pair ≡ Some which }
{
    if left.is_empty() {
        return Ok((left, end(alloc, bounded, which)?));
    }
    let n = feed(alloc, bounded, which, left.get(..most).unwrap_or(left))?;
    Ok((left.get(n..).unwrap_or(&[]), String::new(alloc)))
}

/// What is found in two captures that are fed in pieces of this length.
fn compared(alloc: Global, a: &[u8], b: &[u8], most: usize) -> Result<String, Fail> {
    let mut bounded = begin(alloc)?;
    let (mut left_a, mut left_b) = (a, b);
    let mut text = String::new(alloc);
    for _ in 0..1_000u32 {
        if let Some(difference) = next_difference(&mut bounded) {
            text.push_str(difference_text(alloc, difference)?.as_str())?;
            continue;
        }
        match bounded.pair.wants() {
            Some(Which::A) => {
                let (left, refused) = put(alloc, &mut bounded, Which::A, left_a, most)?;
                left_a = left;
                text.push_str(refused.as_str())?;
            }
            Some(Which::B) => {
                let (left, refused) = put(alloc, &mut bounded, Which::B, left_b, most)?;
                left_b = left;
                text.push_str(refused.as_str())?;
            }
            None => {
                text.push_str(counts_text(alloc, bounded.pair.counts())?.as_str())?;
                return Ok(text);
            }
        }
    }
    Err(Fail::from("no end"))
}

/// What is found in the two captures of a row, in pieces of this length.
fn compared_in(alloc: Global, row: &str, most: usize) -> Result<String, Fail> {
    let (a, b) = row.split_once('|').unwrap_or((row, ""));
    compared(alloc, &bytes_of(alloc, a)?, &bytes_of(alloc, b)?, most)
}

#[test]
fn captures_are_compared_alike_in_pieces_of_any_length(rt: HostRuntime) -> Result<(), Fail> {
    let alloc = rt.alloc();
    for most in [1, 17, MOST] {
        check_rows(ROWS, |row| compared_in(alloc, row, most))?;
    }
    Ok(())
}
