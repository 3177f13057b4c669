//! Packets with timestamps, and packets whose samples are counted from the timestamps of other packets.

use crate::captured::Captured;
use crate::captured::Captured::{Audio, Blocks, Cd, Restarted, Sparse};
use crate::cases::Seen::{At, Flag};
use crate::cases::{Case, PLAN, STEPS, shows};
use sample_schedule::{Reason, SchedulePlan};

const ONE: Case = Case {
    name: "one packet",
    plan: PLAN,
    captured: &[Audio(0, 1_002_000_000, 1_000_000_000)],
    steps: STEPS,
    shown: &[At(1, 1_002_000_000)],
};

/// Three packets that arrive in time.
const THREE: [Captured; 3] = [
    Audio(0, 1_002_000_000, 1_000_000_000),
    Audio(1, 1_002_125_000, 1_000_125_000),
    Audio(2, 1_002_250_000, 1_000_250_000),
];

const STAMPED: [Case; 9] = [
    ONE,
    Case {
        name: "the last nanosecond before the half circle's end",
        captured: &[Audio(0, 3_557_549_055, 10_000_000_000)],
        shown: &[At(1, 12_147_483_647)],
        ..ONE
    },
    Case {
        name: "the first one behind it",
        captured: &[Audio(0, 3_557_549_056, 10_000_000_000)],
        shown: &[Flag(1, Reason::Late)],
        ..ONE
    },
    Case {
        name: "across the wrap of the timestamp",
        captured: &[Audio(0, 112, 12_884_901_000)],
        shown: &[At(1, 12_884_902_000)],
        ..ONE
    },
    Case {
        name: "44.1 kHz",
        captured: &[Cd(0, 1_002_000_000, 1_000_000_000)],
        steps: [0, 22_675, 45_351, 68_027, 90_702, 113_378],
        ..ONE
    },
    Case {
        name: "a copy in time, and one that comes too late",
        captured: &[
            Audio(0, 1_002_000_000, 1_000_000_000),
            Audio(0, 1_002_000_000, 1_000_500_000),
            Audio(0, 1_002_000_000, 1_003_000_000),
        ],
        shown: &[
            Flag(2, Reason::Repeat),
            At(1, 1_002_000_000),
            Flag(3, Reason::Late),
        ],
        ..ONE
    },
    Case {
        name: "the first is overtaken by the others",
        captured: &[
            Audio(2, 1_002_250_000, 1_000_000_000),
            Audio(0, 1_002_000_000, 1_000_000_100),
            Audio(1, 1_002_125_000, 1_000_000_200),
        ],
        shown: &[
            At(2, 1_002_000_000),
            At(3, 1_002_125_000),
            At(1, 1_002_250_000),
        ],
        ..ONE
    },
    Case {
        name: "a buffer of two",
        plan: SchedulePlan { buffer: 2, ..PLAN },
        captured: &THREE,
        shown: &[
            Flag(3, Reason::Full),
            At(1, 1_002_000_000),
            At(2, 1_002_125_000),
        ],
        ..ONE
    },
    Case {
        name: "a room of 30 bytes",
        plan: SchedulePlan { room: 30, ..PLAN },
        captured: &THREE,
        shown: &[
            Flag(2, Reason::Full),
            Flag(3, Reason::Full),
            At(1, 1_002_000_000),
        ],
        ..ONE
    },
];

#[test]
fn packets_are_shown_by_their_timestamps(rt: HostRuntime) {
    for case in &STAMPED {
        assert_eq!(rt; shows(&rt, rt.alloc(), case), Ok(()));
    }
}

/// Data blocks with numbers from 18 on. Block 18 comes two blocks after the stamped block 16.
const BEHIND: Captured = Blocks(1, 18, None, 4_998_041_666);

const COUNTED: [Case; 7] = [
    Case {
        name: "data blocks before and behind the stamped one",
        captured: &[Blocks(0, 12, Some(705_032_704), 4_997_916_666), BEHIND],
        steps: [0, 20_834, 41_667, 62_500, 83_334, 104_167],
        shown: &[At(1, 4_999_916_666), At(2, 5_000_041_666)],
        ..ONE
    },
    Case {
        name: "data blocks without the stamped one",
        captured: &[BEHIND],
        shown: &[Flag(1, Reason::Untimed)],
        ..ONE
    },
    Case {
        name: "256 packets are lost, so that the sequence number alone names the wrong stamp",
        captured: &[Sparse(0), Sparse(257)],
        shown: &[At(1, 1_002_000_000), Flag(2, Reason::Untimed)],
        ..ONE
    },
    Case {
        name: "the stamp is overtaken",
        captured: &[Sparse(9), Sparse(8)],
        shown: &[Flag(1, Reason::Untimed), At(2, 1_003_000_000)],
        ..ONE
    },
    Case {
        name: "the stamp is overtaken, and one further packet is waited for",
        plan: SchedulePlan { look: 1, ..PLAN },
        captured: &[Sparse(9), Sparse(8)],
        shown: &[At(2, 1_003_000_000), At(1, 1_003_125_000)],
        ..ONE
    },
    Case {
        name: "the first stamp is lost",
        captured: &[
            Sparse(1),
            Sparse(2),
            Sparse(7),
            Sparse(8),
            Sparse(9),
            Sparse(15),
        ],
        shown: &[
            Flag(1, Reason::Untimed),
            Flag(2, Reason::Untimed),
            Flag(3, Reason::Untimed),
            At(4, 1_003_000_000),
            At(5, 1_003_125_000),
            At(6, 1_003_875_000),
        ],
        ..ONE
    },
    Case {
        name: "packets behind a restart wait for a stamp of their own run",
        captured: &[
            Restarted(8),
            Restarted(9),
            Restarted(10),
            Restarted(15),
            Restarted(16),
            Restarted(17),
        ],
        shown: &[
            Flag(3, Reason::Untimed),
            Flag(4, Reason::Untimed),
            At(1, 1_003_000_000),
            At(2, 1_003_125_000),
            At(5, 1_005_000_000),
            At(6, 1_005_125_000),
        ],
        ..ONE
    },
];

#[test]
fn packets_without_a_timestamp_are_counted_from_another(rt: HostRuntime) {
    for case in &COUNTED {
        assert_eq!(rt; shows(&rt, rt.alloc(), case), Ok(()));
    }
}
