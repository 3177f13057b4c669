//! Tests of a search: among the lines of a media clock, the line of a sample is found.

ghost use Rattle.std.specs.Prelude.{IfOk};
ghost use Rattle.clock_track.specs.Limits.{IsNotable};

use avtp_base::{Bytes, NoMemory};
use clock_track::{Clock, ClockAnswer, ClockRow, line_over};
use std::alloc::Global;
use time_unfold::Line;

/// The answer that names event `offset` of a 48 kHz clock, counted from the later of two timestamps.
const fn event(offset: u64) -> ClockAnswer {
    ClockAnswer::OnLine {
        line: Line {
            base: 1_004_000_000,
            num: 2_000_000,
            den: 96,
        },
        offset,
    }
}

/// The frequency and the pull of a clock, and the clock's answer for a sample of a 48 kHz stream. The timestamp of the
/// sample is `instant`.
#[derive(Clone, Copy)]
struct Stamped {
    base_frequency: u32,
    pull: u8,
    instant: u32,
    answer: ClockAnswer,
}

const STAMPED: Stamped = Stamped {
    base_frequency: 48_000,
    pull: 0,
    instant: 1_004_125_000,
    answer: ClockAnswer::NoClock,
};

/// A clock packet with one timestamp, 96 events after the timestamp before it. If the frequency or the pull is not a
/// valid value, the timestamp is not usable.
fn packet(alloc: Global, seq: u8, row: &Stamped, timestamp: u64) -> Result<ClockRow, NoMemory>
    ensures { IfOk result IsNotable }
{
    let payload = Vec::from_array(alloc, timestamp.to_be_bytes())?;
    let frequency = row.base_frequency >= 1 && row.base_frequency < 1 << 29;
    Ok(ClockRow {
        usable: frequency && row.pull <= 5,
        seq,
        mr: false,
        base_frequency: row.base_frequency,
        pull: row.pull,
        interval: 96,
        payload: Bytes::over(payload),
    })
}

/// Two answers, which must be equal: that of a clock that has noted two timestamps, and that of a search in the list of
/// the two timestamps.
fn answers(alloc: Global, row: &Stamped) -> Result<[ClockAnswer; 2], NoMemory> {
    let first = packet(alloc, 255, row, 1_002_000_000)?;
    let second = packet(alloc, 0, row, 1_004_000_000)?;
    let mut clock = Clock::new(alloc, 0)?;
    clock.note(&first.points());
    clock.note(&second.points());
    let instant = i64::from(row.instant);
    let kept = clock.line_for(instant, 48_000);
    Ok([kept, line_over(&[first, second], 0, instant, 48_000)])
}

/// The two timestamps are 2 ms apart, the time of 96 events at 48 kHz. The line of these timestamps covers the 2 ms
/// that begin 10,416.7 ns before the later timestamp. At 40 kHz, 96 events take 2.4 ms, which is more than 8/7 of 2 ms,
/// so no instant is covered. The last two clocks have pulls of 1000/1001 and of 1/8.
#[test]
fn a_sample_stands_by_the_pair_that_covers_it(rt: HostRuntime) {
    for row in [
        Stamped {
            answer: event(6),
            ..STAMPED
        },
        Stamped {
            instant: 1_003_989_584,
            answer: event(0),
            ..STAMPED
        },
        Stamped {
            instant: 1_003_989_583,
            ..STAMPED
        },
        Stamped {
            instant: 1_005_989_583,
            answer: event(95),
            ..STAMPED
        },
        Stamped {
            instant: 1_005_989_584,
            ..STAMPED
        },
        Stamped {
            base_frequency: 40_000,
            ..STAMPED
        },
        Stamped {
            pull: 1,
            answer: ClockAnswer::OnLine {
                line: Line {
                    base: 1_004_125_000,
                    num: 96_000_000_000_000,
                    den: 4_612_608_000,
                },
                offset: 0,
            },
            ..STAMPED
        },
        Stamped {
            base_frequency: 384_000,
            pull: 5,
            answer: event(6),
            ..STAMPED
        },
    ] {
        let answers = answers(rt.alloc(), &row);
        assert_eq!(rt;
            answers,
            Ok([row.answer, row.answer]),
            "{} Hz, {}",
            row.base_frequency,
            row.instant
        );
    }
}
