//! Timestamps and samples as instants.

use time_unfold::{Line, unfold};

#[derive(Clone, Copy)]
struct Unfolded {
    timestamp: u32,
    arrival: u64,
    instant: i64,
}

/// Four timestamps. The first timestamp is the greatest one that is read as later than the arrival. The second
/// timestamp is one greater, and is read as earlier than the arrival. In the third row, the 32 bits wrap between the
/// arrival and the instant. The fourth means an instant before the epoch.
const UNFOLDED: [Unfolded; 4] = [
    Unfolded {
        timestamp: 3_557_549_055,
        arrival: 10_000_000_000,
        instant: 12_147_483_647,
    },
    Unfolded {
        timestamp: 3_557_549_056,
        arrival: 10_000_000_000,
        instant: 7_852_516_352,
    },
    Unfolded {
        timestamp: 112,
        arrival: 12_884_901_000,
        instant: 12_884_902_000,
    },
    Unfolded {
        timestamp: 4_294_967_295,
        arrival: 0,
        instant: -1,
    },
];

#[test]
fn a_timestamp_means_the_instant_nearest_to_its_arrival(rt: HostRuntime) {
    for row in &UNFOLDED {
        let instant = unfold(row.timestamp, row.arrival.min(1 << 62) as i64);
        assert_eq!(rt;
            instant,
            row.instant,
            "{} at {}",
            row.timestamp, row.arrival
        );
    }
}

#[test]
fn a_sample_between_two_nanoseconds_is_at_the_earlier(rt: HostRuntime) {
    let line = Line {
        base: 1_002_000_000,
        num: 1_000_000_000,
        den: 44_100,
    };
    assert_eq!(rt; line.at(5), 1_002_113_378);
    assert_eq!(rt; line.at(-1), 1_001_977_324);
    assert_eq!(rt; line.at(44_100), 2_002_000_000);
}
