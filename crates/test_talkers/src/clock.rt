//! Packets of a media clock and of its stream.

use crate::frames::{Row, check_sent};
use crate::plans::Planned;
use std::test::Fail;

const ROWS: [Row; 5] = [
    Row {
        name: "a second beside a clock of the stream's rate",
        plan: Planned::Clocked,
        input: (&[], &[0], 192_000),
        sums: (8_000, 500, 687_024),
        frames: &[],
    },
    Row {
        name: "a second beside a clock of 44.1 kHz",
        plan: Planned::Clocked44100,
        input: (&[], &[0], 192_000),
        sums: (8_000, 300, 674_624),
        frames: &[],
    },
    Row {
        name: "at equal arrivals the clock comes first",
        plan: Planned::Beside,
        input: (&[], &[0], 192),
        sums: (8, 4, 928),
        frames: &[
            (0, "1000000000 0 04800001 1002000000 0008000c00000000"),
            (1, "1000000000 0 02810000 1002000000 "),
            (2, "1000125000 1 02810100 1002125000 "),
            (3, "1000250000 1 04800101 1002250000 "),
            (4, "1000250000 2 02810200 1002250000 "),
            (5, "1000375000 3 02810300 1002375000 "),
            (6, "1000500000 2 04800201 1002500000 "),
            (7, "1000500000 4 02810400 1002500000 "),
            (8, "1000625000 5 02810500 1002625000 "),
            (9, "1000750000 3 04800301 1002750000 "),
            (10, "1000750000 6 02810600 1002750000 "),
            (11, "1000875000 7 02810700 1002875000 "),
        ],
    },
    Row {
        name: "the clock restarts with the stream",
        plan: Planned::RestartingClock,
        input: (&[], &[0], 384),
        sums: (16, 16, 2_328),
        frames: &[
            (0, "1000000000 0 04800001 1002000000 "),
            (14, "1000875000 7 04800701 1002875000 "),
            // eight packets take 1 ms, and the restart adds another 1 ms
            (16, "1002000000 8 04880801 1004000000 "),
            (30, "1002875000 15 04880f01 1004875000 "),
        ],
    },
    // A hundred events take 2,267,573 ns, or one nanosecond more. The stamp of event 150 is that of event 100 plus half
    // the time of the first hundred events. This stamp is a nanosecond before the nominal instant of event 150.
    Row {
        name: "packets are stamped on the clock",
        plan: Planned::OnClock,
        input: (&[], &[0], 1_200),
        sums: (50, 3, 4_310),
        frames: &[
            (1, "1000000000 0 02810000 1002000000 "),
            (17, "1002176870 16 02811000 1004176870 "),
            (27, "1003401360 25 02811900 1005401359 "),
        ],
    },
];

#[test]
fn a_clock_is_sent_beside_its_stream(rt: HostRuntime) -> Result<(), Fail> {
    check_sent(&rt, rt.alloc(), &ROWS)
}
