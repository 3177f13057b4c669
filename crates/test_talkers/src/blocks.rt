//! Packets of AM824.

use crate::frames::{Row, check_sent};
use crate::plans::Planned;
use std::test::Fail;

/// A data block of two quadlets.
const NOISE: &[u8] = &[0x5a; 8];

const ROWS: [Row; 9] = [
    Row {
        name: "the last packet is filled up with silence",
        plan: Planned::Blocks,
        input: (&[], NOISE, 7),
        sums: (2, 0, 252),
        frames: &[(
            1,
            "1000125000 1 00810100 1002166666 0000000000385fa03f0200069002ffff5a5a5a5a5a5a5a5a40000000400000004000000040000000400000004000000040000000400000004000000040000000",
        )],
    },
    Row {
        name: "one block in a packet at 44.1 kHz",
        plan: Planned::Blocks44100By1,
        input: (&[], NOISE, 270),
        sums: (270, 0, 20_004),
        frames: &[
            (
                1,
                "1000022675 1 00800100 0 0000000000105fa03f0200019001ffff",
            ),
            (
                264,
                "1005986394 264 00810800 1007986394 0000000000105fa03f0200089001ffff",
            ),
        ],
    },
    Row {
        name: "six at 44.1 kHz",
        plan: Planned::Blocks44100By6,
        input: (&[], NOISE, 1_620),
        sums: (270, 0, 30_804),
        frames: &[
            (
                1,
                "1000136054 1 00810100 1002181405 0000000000385fa03f0200069001ffff",
            ),
            (
                257,
                "1034965986 257 00810100 1037011337 0000000000385fa03f0200069001ffff",
            ),
        ],
    },
    Row {
        name: "five at 48 kHz",
        plan: Planned::Blocks48000By5,
        input: (&[], NOISE, 1_350),
        sums: (270, 0, 28_644),
        frames: &[(
            257,
            "1026770833 257 00810100 1028833333 0000000000305fa03f0200059002ffff",
        )],
    },
    Row {
        name: "six at 48 kHz",
        plan: Planned::Blocks,
        input: (&[], NOISE, 1_620),
        sums: (270, 0, 30_804),
        frames: &[(
            257,
            "1032125000 257 00810100 1034166666 0000000000385fa03f0200069002ffff",
        )],
    },
    Row {
        name: "five at 192 kHz",
        plan: Planned::Blocks192000By5,
        input: (&[], NOISE, 1_350),
        sums: (270, 0, 28_644),
        frames: &[
            (
                1,
                "1000026041 1 00800100 0 0000000000305fa03f0200059006ffff",
            ),
            (
                262,
                "1006822916 262 00810600 1008833333 0000000000305fa03f02001e9006ffff",
            ),
        ],
    },
    Row {
        name: "six at 192 kHz",
        plan: Planned::Blocks192000By6,
        input: (&[], NOISE, 1_620),
        sums: (270, 0, 30_804),
        frames: &[(
            261,
            "1008156250 261 00810500 1010166666 0000000000385fa03f02001e9006ffff",
        )],
    },
    Row {
        name: "seven at 192 kHz",
        plan: Planned::Blocks192000By7,
        input: (&[], NOISE, 1_890),
        sums: (270, 0, 32_964),
        frames: &[(
            260,
            "1009479166 260 00810400 1011500000 0000000000405fa03f02001c9006ffff",
        )],
    },
    Row {
        name: "as many as the interval",
        plan: Planned::Blocks192000By32,
        input: (&[], NOISE, 8_256),
        sums: (258, 0, 83_100),
        frames: &[
            (
                1,
                "1000166666 1 00810100 1002166666 0000000001085fa03f0200209006ffff",
            ),
            (
                257,
                "1042833333 257 00810100 1044833333 0000000001085fa03f0200209006ffff",
            ),
        ],
    },
];

#[test]
fn blocks_are_counted_and_stamped_by_the_interval(rt: HostRuntime) -> Result<(), Fail> {
    check_sent(&rt, rt.alloc(), &ROWS)
}
