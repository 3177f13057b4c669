//! Packets of PCM.

use crate::frames::{Row, check_sent};
use crate::plans::Planned;
use std::test::Fail;

/// The byte that is repeated in the samples.
const NOISE: &[u8] = &[0x5a];

const ROWS: [Row; 11] = [
    Row {
        name: "no samples",
        plan: Planned::Pcm,
        input: (&[], NOISE, 0),
        sums: (0, 0, 24),
        frames: &[],
    },
    Row {
        name: "the last packet is filled up with zero bytes",
        plan: Planned::Pcm,
        input: (&[], NOISE, 28),
        sums: (2, 0, 188),
        frames: &[(
            1,
            "1000125000 1 02810100 1002125000 04500210001800005a5a5a5a0000000000000000000000000000000000000000",
        )],
    },
    Row {
        name: "24 bits",
        plan: Planned::Int24,
        input: (&[], NOISE, 36),
        sums: (1, 0, 118),
        frames: &[(0, "1000000000 0 02810000 1002000000 03500218002400005a")],
    },
    Row {
        name: "32 bits",
        plan: Planned::Int32,
        input: (&[], NOISE, 48),
        sums: (1, 0, 130),
        frames: &[(0, "1000000000 0 02810000 1002000000 02500220003000005a")],
    },
    Row {
        name: "floating point",
        plan: Planned::Float32,
        input: (&[], NOISE, 48),
        sums: (1, 0, 130),
        frames: &[(0, "1000000000 0 02810000 1002000000 01500220003000005a")],
    },
    Row {
        name: "24 kHz",
        plan: Planned::Pcm24000,
        input: (&[], NOISE, 6_192),
        sums: (258, 0, 21_180),
        frames: &[
            (1, "1000250000 1 02810100 1002250000 04a0021000180000"),
            (257, "1064250000 257 02810100 1066250000 04a0021000180000"),
        ],
    },
    Row {
        name: "44.1 kHz",
        plan: Planned::Pcm44100,
        input: (&[], NOISE, 6_192),
        sums: (258, 0, 21_180),
        frames: &[
            (1, "1000136054 1 02810100 1002136054 0440021000180000"),
            (257, "1034965986 257 02810100 1036965986 0440021000180000"),
        ],
    },
    Row {
        name: "88.2 kHz",
        plan: Planned::Pcm88200,
        input: (&[], NOISE, 6_192),
        sums: (258, 0, 21_180),
        frames: &[
            (1, "1000068027 1 02810100 1002068027 0460021000180000"),
            (257, "1017482993 257 02810100 1019482993 0460021000180000"),
        ],
    },
    Row {
        name: "176.4 kHz",
        plan: Planned::Pcm176400,
        input: (&[], NOISE, 6_192),
        sums: (258, 0, 21_180),
        frames: &[
            (1, "1000034013 1 02810100 1002034013 0480021000180000"),
            (257, "1008741496 257 02810100 1010741496 0480021000180000"),
        ],
    },
    Row {
        name: "one packet in eight is stamped",
        plan: Planned::Sparse,
        input: (&[], NOISE, 480),
        sums: (20, 0, 1_664),
        frames: &[
            (0, "1000000000 0 02810000 1002000000 0450021000181000"),
            (1, "1000125000 1 02800100 0 0450021000181000"),
            (7, "1000875000 7 02800700 0 0450021000181000"),
            (8, "1001000000 8 02810800 1003000000 0450021000181000"),
            (16, "1002000000 16 02811000 1004000000 0450021000181000"),
        ],
    },
    Row {
        name: "a restart sets times a millisecond forward and turns its bit over",
        plan: Planned::Restarting,
        input: (&[], NOISE, 480),
        sums: (20, 0, 1_664),
        frames: &[
            (9, "1001125000 9 02800900 0 "),
            (10, "1002250000 10 02880a00 0 "),
            (16, "1003000000 16 02891000 1005000000 "),
        ],
    },
];

#[test]
fn samples_are_sent_at_their_times(rt: HostRuntime) -> Result<(), Fail> {
    check_sent(&rt, rt.alloc(), &ROWS)
}
