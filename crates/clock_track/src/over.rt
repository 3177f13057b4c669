//! The line of an instant, from a list of clock packets.

ghost use Rattle.std.specs.Prelude.{◌≡◌, ◌≤◌, All, IfSome, option_map};
ghost use Rattle.clock_track.specs.Limits.{IsClockLine, IsNotable, IsShift};
ghost use Rattle.clock_track.specs.PairLines.{spot_by};
ghost use Rattle.clock_track.specs.Rows.{clock_spot, latest as latest_of, used};
ghost use Rattle.clock_track.specs.state.Search.{AreRecent, AreSearched};
ghost use Rattle.clock_track.specs.Views.{answered};

use crate::answer::ClockAnswer;
use crate::bounds::Bounds;
use crate::clock_row::{ClockRow, Points};
use crate::query::{Query, lead_of};
use crate::search::{Rows, latest};

/// The maximum number of packets that are searched. Packets that give no points are not counted.
pub const WINDOW: usize = 64;

/// The packets of a slice.
#[derive(Clone, Copy)]
struct Listed<'a> {
    rows: &'a [ClockRow],
}

impl Rows for Listed<'_> {
    ghost rows = { λ listed. listed.rows.now };

    ghost bounded = { λ listed shift. Unit {0} };

    fn count(&self) -> usize {
        self.rows.len()
    }

    fn row(&self, place: usize) -> Points<'_> {
        self.rows[place].points()
    }

    fn bounds(&self, _place: usize) -> Option<Bounds> {
        None
    }

    fn groups(&self, _place: usize) -> &[Bounds] {
        &[]
    }
}

/// The shortest suffix of `rows` in which 64 rows give points; all rows if fewer than 64 give points.
fn recent(rows: &[ClockRow]) -> &[ClockRow]
    requires { All IsNotable rows.now }
    ensures { AreRecent rows.now result.now }
{
    let mut start = rows.len();
    let mut found = 0;
    while start > 0 && found < WINDOW {
        start -= 1;
        if rows[start].usable {
            found += 1;
        }
    }
    &rows[start..]
}

/// The line that the packets `rows` give for the instant of `query`.
pub fn line_among<R: Rows>(rows: &R, query: &Query) -> ClockAnswer
    requires { AreSearched (R.rows rows.now) (R.bounded rows.now) query.now.shift }
    ensures value { answered result ≡ option_map (λ pair. spot_by pair query.now.rate query.now.instant) (latest_of query.now.shift query.now.instant query.now.rate (used (R.rows rows.now))) }
    ensures line { IfSome (answered result) (IsClockLine query.now.rate query.now.instant) }
{
    match latest(rows, query) {
        Some(pair) => pair.answer(query.rate, query.instant),
        None => ClockAnswer::NoClock,
    }
}

/// A media clock (IEEE 1722-2016, 10) gives a line to the sample whose presentation time is `instant`, in nanoseconds
/// of gPTP. The answer is this line and the sample's number on the line. The stream has `rate` samples a second, at
/// least 1. The clock's packets are the last 64 of `rows` that give points. `shift` is added to each timestamp of the
/// clock. The shift is in nanoseconds, and is at most a second, forward or back.
///
/// Two adjacent timestamps are a pair if two things hold: both are below 2^62, and the time between them differs from
/// the nominal time of the interval by at most 1/8 of that nominal time. Successive timestamps of one packet are
/// adjacent. The last timestamp of a packet and the first timestamp of the next packet are adjacent, too. A packet is
/// the next one if it has the next sequence number, and the same restart bit, frequency and interval.
///
/// A pair covers the instants of one period. The period that a pair covers begins half a sample before the pair's later
/// point. If several pairs cover the instant, the last of these pairs gives the line. Pairs are ordered by the
/// positions of their later points in the packets. Pairs with the same later point are ordered by the positions of
/// their earlier points. The answer is `NoClock` if and only if no pair covers the instant.
///
/// If the clock's frequency is `rate`, the line is that of the clock's events, and the sample is the event nearest to
/// the instant. If the clock's frequency is not `rate`, the sample is sample 0 of a line that begins at the instant and
/// has the pair's spacing.
///
/// Each row that gives points must be within these limits: at most 8,191 timestamps, each of them complete; a pull of
/// at most 5; a base frequency from 1 to 2^29 - 1; and an interval of at least 1.
pub fn line_over(rows: &[ClockRow], shift: i64, instant: i64, rate: u32) -> ClockAnswer
    requires rows { All IsNotable rows.now }
    requires shift { IsShift shift }
    requires rate { 1 ≤ rate }
    ensures value { answered result ≡ clock_spot rows.now shift instant rate }
    ensures line { IfSome (answered result) (IsClockLine rate instant) }
{
    let listed = Listed { rows: recent(rows) };
    line_among(
        &listed,
        &Query {
            shift,
            instant,
            rate,
            lead: lead_of(rate),
        },
    )
}
