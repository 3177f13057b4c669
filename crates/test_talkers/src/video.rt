//! Packets of H.264.

use crate::frames::{Input, Row, begin, check_sent, frames_of};
use crate::plans::Planned;
use std::alloc::Global;
use std::test::Fail;
use vectors_avtp::{bytes_of, check_rows};

/// A unit of 3,000 bytes.
const LONG: Input = (&[0, 0, 0, 1, 0x65], &[0xff], 2_999);

/// A slice of one byte lacks the second byte, which tells whether a slice is the first of a picture.
const SHORT: Input = (&[0, 0, 1, 0x41, 0, 0, 1, 0x41, 0, 0, 1, 0x67], &[], 0);

const ROWS: [Row; 3] = [
    Row {
        name: "a long unit is cut into fragments",
        plan: Planned::Video,
        input: LONG,
        sums: (3, 0, 3_215),
        frames: &[
            (
                0,
                "1000000000 0 03810000 1002000000 02010000057c20003bb94e807c85ff",
            ),
            (
                1,
                "1000000000 1 03810100 1002000000 02010000057c20003bb94e807c05ff",
            ),
            (
                2,
                "1000000000 2 03810200 1002000000 0201000000d130003bb94e807c45ff",
            ),
        ],
    },
    Row {
        name: "its last fragment alone is stamped",
        plan: Planned::LastStamp,
        input: LONG,
        sums: (3, 0, 3_215),
        frames: &[
            (0, "1000000000 0 03800000 0 02010000057c20003bb94e807c85ff"),
            (1, "1000000000 1 03800100 0 02010000057c20003bb94e807c05ff"),
            (
                2,
                "1000000000 2 03810200 1002000000 0201000000d130003bb94e807c45ff",
            ),
        ],
    },
    Row {
        name: "units of one byte",
        plan: Planned::Slow,
        input: SHORT,
        sums: (3, 0, 213),
        frames: &[
            (
                0,
                "1000000000 0 03810000 1002000000 02010000000520003bb94e8041",
            ),
            (
                1,
                "1000000000 1 03810100 1002000000 02010000000530003bb94e8041",
            ),
            (
                2,
                "2000000000 2 03810200 2002000000 02010000000530007754188067",
            ),
        ],
    },
];

#[test]
fn units_are_sent_whole_or_in_fragments(rt: HostRuntime) -> Result<(), Fail> {
    check_sent(&rt, rt.alloc(), &ROWS)
}

/// NAL units of two bytes. What follows has a number for each unit: that of its access unit, counted from 1, with a dot if
/// the unit's packet has the marker.
const ACCESS: &str = "\
// parameter sets and a picture, then the next picture
6742 68ce 6588 419a => 1 1 1. 2.
// two slices of each picture
6588 6508 419a 411a => 1 1. 2 2.
// units before a picture belong to its access unit
419a 0605 419a 0910 6742 6588 => 1. 2 2. 3 3 3.
419a 0e80 419a 1280 419a => 1. 2 2. 3 3.
// units that can follow a picture in its access unit
419a 0a80 0b80 0cff 0d80 1380 => 1 1 1 1 1 1.
// slices in data partitions
4280 4380 4480 4280 4380 => 1 1 1. 2 2.
// first slices of pictures, with types in any order
419a 6588 4288 => 1. 2. 3.
// no access unit begins before the first slice
0605 0910 0e80 6588 0910 => 1 1 1 1. 2.";

/// The access unit of each unit, by the time at which it is sent: access unit 1 is sent at 1 s, and each later access
/// unit 1 s after the access unit before it. The last packet of an access unit has the marker.
fn access_units(alloc: Global, units: &str) -> Result<String, Fail> {
    let in_stream = format!(in alloc; " {units}")?.replace(alloc, " ", " 000001 ")?;
    let input = bytes_of(alloc, in_stream.as_str())?;
    let mut talker = begin(alloc, Planned::Slow.plan(), &input)?;
    let frames = frames_of(alloc, &mut talker)?;
    let mut text = String::new(alloc);
    for frame in frames.as_slice() {
        let number = frame.arrival / 1_000_000_000;
        let dot = match frame.bytes.get(40) {
            Some(0x30) => ".",
            Some(0x20) => "",
            _ => "?",
        };
        text.push_str(format!(in alloc; "{number}{dot} ")?.as_str())?;
    }
    Ok(text)
}

#[test]
fn a_picture_begins_an_access_unit(rt: HostRuntime) -> Result<(), Fail> {
    let alloc = rt.alloc();
    check_rows(ACCESS, |units| access_units(alloc, units))
}
