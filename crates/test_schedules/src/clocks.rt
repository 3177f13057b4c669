//! A stream with its media clock.

use crate::captured::Captured::{Audio, Clock};
use crate::captured::{Captured, Point};
use crate::cases::Seen::{At, Flag};
use crate::cases::{Case, PLAN, STEPS, Seen, shows};
use sample_schedule::{Reason, SchedulePlan};

const FIRST: Point = Point {
    seq: 0,
    mr: false,
    base_frequency: 48_000,
    timestamp: 1_002_000_000,
    arrival: 1_000_000_000,
};

const SECOND: Point = Point {
    seq: 1,
    timestamp: 1_004_000_000,
    arrival: 1_002_200_000,
    ..FIRST
};

const ONE: Captured = Audio(0, 1_004_000_000, 1_002_000_000);

const TWO: Captured = Audio(1, 1_004_125_000, 1_002_125_000);

/// The second clock timestamp arrives after both packets. Both packets need the second clock timestamp for their line.
const LATER: [Captured; 4] = [Clock(FIRST), ONE, TWO, Clock(SECOND)];

const NONE: [Seen; 2] = [Flag(2, Reason::NoClock), Flag(3, Reason::NoClock)];

const ON_CLOCK: SchedulePlan = SchedulePlan {
    look: 2,
    clock: true,
    ..PLAN
};

const ON_LINE: Case = Case {
    name: "the second point is waited for",
    plan: ON_CLOCK,
    captured: &LATER,
    steps: STEPS,
    shown: &[At(2, 1_004_000_000), At(3, 1_004_125_000)],
};

const CLOCKED: [Case; 9] = [
    ON_LINE,
    Case {
        name: "the second point is waited for by the second packet alone",
        plan: SchedulePlan {
            look: 1,
            ..ON_CLOCK
        },
        shown: &[Flag(2, Reason::NoClock), At(3, 1_004_125_000)],
        ..ON_LINE
    },
    Case {
        name: "nothing is waited for",
        plan: SchedulePlan {
            look: 0,
            ..ON_CLOCK
        },
        shown: &NONE,
        ..ON_LINE
    },
    Case {
        name: "points 1,000 ns later",
        plan: SchedulePlan {
            shift: 1_000,
            ..ON_CLOCK
        },
        shown: &[At(2, 1_004_001_000), At(3, 1_004_126_000)],
        ..ON_LINE
    },
    Case {
        name: "points 1,000 ns earlier",
        plan: SchedulePlan {
            shift: -1_000,
            ..ON_CLOCK
        },
        shown: &[At(2, 1_003_999_000), At(3, 1_004_124_000)],
        ..ON_LINE
    },
    Case {
        name: "points 1 ms later, behind both packets",
        plan: SchedulePlan {
            shift: 1_000_000,
            ..ON_CLOCK
        },
        shown: &NONE,
        ..ON_LINE
    },
    Case {
        name: "a restart between the points",
        captured: &[Clock(FIRST), ONE, TWO, Clock(Point { mr: true, ..SECOND })],
        shown: &NONE,
        ..ON_LINE
    },
    Case {
        name: "a clock of 44.1 kHz",
        captured: &[
            Clock(Point {
                base_frequency: 44_100,
                ..FIRST
            }),
            ONE,
            TWO,
            Clock(Point {
                base_frequency: 44_100,
                ..SECOND
            }),
        ],
        steps: [0, 19_140, 38_281, 57_421, 76_562, 95_703],
        ..ON_LINE
    },
    Case {
        name: "a plan without a clock",
        plan: PLAN,
        ..ON_LINE
    },
];

#[test]
fn samples_stand_on_the_clock(rt: HostRuntime) {
    for case in &CLOCKED {
        assert_eq!(rt; shows(&rt, rt.alloc(), case), Ok(()));
    }
}
