//! Which timestamps the samples of packets are counted from.

use avtp_base::NoMemory;
use std::alloc::Global;
use time_unfold::{Anchors, Distance, HeadRule, Stamp, Want, head_among};

const fn behind(packets: u32, samples: u32) -> Option<Distance> {
    Some(Distance { packets, samples })
}

#[test]
fn a_packet_is_at_most_seven_packets_behind_its_stamp(rt: HostRuntime) {
    let wide = HeadRule::Blocks {
        dbc: 31,
        interval: 32,
    };
    assert_eq!(rt; HeadRule::Eight.distance(13, 6), behind(5, 30));
    assert_eq!(rt; HeadRule::Eight.distance(8, 6), None);
    assert_eq!(rt; wide.distance(0, 5), behind(7, 31));
    assert_eq!(rt; wide.distance(0, 4), None);
}

const FIRST: Stamp = Stamp {
    seq: 0,
    mr: false,
    block: None,
    rate: 48_000,
    instant: 972_000_000,
};

const SECOND: Stamp = Stamp {
    instant: 1_002_000_000,
    ..FIRST
};

const THIRD: Stamp = Stamp {
    instant: 1_002_000_040,
    ..FIRST
};

#[derive(Clone, Copy)]
struct Search {
    arrival: u32,
    found: Option<Stamp>,
}

/// A stamp fits if the packet arrives at most 7,500,000 ns (the time of 60 packets) earlier or later than expected.
/// According to the last two stamps, the packet is expected at about 1,000,125,000. According to the first stamp, which
/// is no longer kept, the packet is expected at 970,125,000.
const SEARCHES: [Search; 6] = [
    Search {
        arrival: 1_000_125_000,
        found: Some(THIRD),
    },
    Search {
        arrival: 992_625_000,
        found: Some(SECOND),
    },
    Search {
        arrival: 992_624_999,
        found: None,
    },
    Search {
        arrival: 1_007_625_040,
        found: Some(THIRD),
    },
    Search {
        arrival: 1_007_625_041,
        found: None,
    },
    Search {
        arrival: 970_125_000,
        found: None,
    },
];

/// Two results, which must be equal, for the second packet of a sparse 48 kHz stream. The first result is the stamp
/// that is found among two kept stamps. The second result is the stamp that is found among the last two in the list of
/// all stamps.
fn found(alloc: Global, arrival: u32) -> Result<[Option<Stamp>; 2], NoMemory> {
    let want = Want {
        seq: 0,
        mr: false,
        block: None,
        rate: 48_000,
        arrival: i64::from(arrival),
        lead: 2_000_000,
        back: 6,
        count: 6,
    };
    let mut last = Anchors::new(alloc, 2)?;
    last.note(FIRST);
    last.note(SECOND);
    last.note(THIRD);
    let all = [FIRST, SECOND, THIRD];
    Ok([last.find(&want), head_among(&all, 2, &want)])
}

#[test]
fn a_packet_finds_the_last_stamp_that_fits(rt: HostRuntime) {
    for row in &SEARCHES {
        let found = found(rt.alloc(), row.arrival);
        assert_eq!(rt; found, Ok([row.found, row.found]), "at {}", row.arrival);
    }
}
