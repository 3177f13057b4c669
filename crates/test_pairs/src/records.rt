//! Records of two captures, each given only when it is wanted.

ghost use Rattle.std.specs.Prelude.{◌≡◌, ◌+◌, ◌≤◌, ◌^◌, Some};
ghost use Rattle.capture_pair.specs.Pairing.{wanted_by};

use crate::told::{counts_text, difference_text, plan};
use capture_pair::RecordPair;
use listener_pair::{Difference, Which};
use pcap_frames::RecordView;
use std::alloc::Global;
use std::collections::VecDeque;
use std::test::Fail;
use vectors_avtp::{bytes_of, check_rows};

/// The records of A and the records of B. Each record comes after a number: the millisecond in which the record was
/// captured. After `=>` is what happens, in order: `a` and `b` are records that were wanted, `-a` and `-b` are ends of
/// captures, and each difference is listed where it became known.
const ROWS: &str = "\
1000 frame | 1000 frame => a -a b -b matched 1 only 0 0 differ 0
1000 frame | 1000 frame 65=fb => a -a b -b 1 1 seq 0 Bytes { sample: 5 }, matched 1 only 0 0 differ 1
1000 frame | 1000 frame 20=01 => a -a b -b matched 0 only 1 1 differ 0
// A packet of another stream, and a late packet, which does not end its side.
1000 frame 29=09 | 1000 frame => a -a b -b matched 0 only 0 1 differ 0
1003 frame, 1010 frame 20=01 30=3c51e500 | 1010 frame 20=01 30=3c51e500 => a a -a b -b matched 1 only 0 0 differ 0
// A packet is due when a later packet arrives. So the difference is known before the end of B.
1000 frame, 1010 frame 20=01 30=3c51e500 | 1000 frame 65=fb, 1010 frame 20=01 30=3c51e500 => a a b b -a 1 1 seq 0 Bytes { sample: 5 }, -b matched 2 only 0 0 differ 1
";

/// A pair, and how many more records it may be given.
#[derive(Drop)]
struct Bounded {
    pair: RecordPair,
    left: u32,
    ghost a: { pair.a.counts.frames + left ≤ 2 ^ 32 },
    ghost b: { pair.b.counts.frames + left ≤ 2 ^ 32 },
}

fn begin(alloc: Global) -> Result<Bounded, Fail> {
    Ok(Bounded {
        pair: RecordPair::begin(alloc, plan())?,
        left: 1_000,
    })
}

fn next_difference(bounded: &mut Bounded) -> Option<Difference> {
    bounded.pair.next_difference()
}

/// A record of a capture: the millisecond in which it was captured, and the frame.
#[derive(Drop)]
struct Record {
    millisecond: u32,
    frame: Vec<u8>,
}

fn records_of(alloc: Global, text: &str) -> Result<VecDeque<Record>, Fail> {
    let mut records = VecDeque::new(alloc);
    for record in text.split(',') {
        let (millisecond, frame) = record.trim().split_once(' ').unwrap_or((record, ""));
        records.push_back(Record {
            millisecond: millisecond.parse::<u32>().unwrap_or(0),
            frame: bytes_of(alloc, frame)?,
        })?;
    }
    Ok(records)
}

/// Gives the pair the next record of the wanted side, or the side's end.
fn put(
    alloc: Global,
    bounded: &mut Bounded,
    which: Which,
    next: Option<Record>,
) -> Result<&'static str, Fail>
    requires { wanted_by bounded.old.pair ≡ Some which }
{
    let Some(record) = next else {
        bounded.pair.close(which);
        return Ok("-");
    };
    if bounded.left == 0 {
        return Err(Fail::from("too many records"));
    }
    let view = RecordView {
        arrival: i64::from(record.millisecond) * 1_000_000,
        orig_len: 66,
        bytes: record.frame.as_slice(),
    };
    bounded.pair.take_record(alloc, which, &view)?;
    bounded.left -= 1;
    Ok("")
}

/// What happens, in order, when two captures are compared.
fn compared(
    alloc: Global,
    mut a: VecDeque<Record>,
    mut b: VecDeque<Record>,
) -> Result<String, Fail> {
    let mut bounded = begin(alloc)?;
    let mut text = String::new(alloc);
    for _ in 0..1_000u32 {
        if let Some(difference) = next_difference(&mut bounded) {
            text.push_str(difference_text(alloc, difference)?.as_str())?;
            continue;
        }
        match bounded.pair.wants() {
            Some(Which::A) => {
                text.push_str(put(alloc, &mut bounded, Which::A, a.pop_front())?)?;
                text.push_str("a ")?;
            }
            Some(Which::B) => {
                text.push_str(put(alloc, &mut bounded, Which::B, b.pop_front())?)?;
                text.push_str("b ")?;
            }
            None => {
                text.push_str(counts_text(alloc, bounded.pair.counts())?.as_str())?;
                return Ok(text);
            }
        }
    }
    Err(Fail::from("no end"))
}

#[test]
fn each_capture_is_read_only_as_far_as_it_is_wanted(rt: HostRuntime) -> Result<(), Fail> {
    let alloc = rt.alloc();
    check_rows(ROWS, |row| {
        let (a, b) = row.split_once('|').unwrap_or((row, ""));
        compared(alloc, records_of(alloc, a)?, records_of(alloc, b)?)
    })
}
