//! Two points of a clock, and the line after them.

ghost use Rattle.std.specs.Prelude.{Some, ◌≡◌, ◌≤◌, ◌<◌, ◌*◌, ◌^◌, ◌↔◌, pos, ◌-ℤ◌, ◌*ℤ◌, ◌+ℤ◌, IsTrue, ℕ};
ghost use Rattle.clock_track.specs.Limits.{IsSmall};
ghost use Rattle.clock_track.specs.PairLines.{covers as covers_of, is_joined as is_joined_of, nominal as nominal_of, period as period_of, spot_by, step_den, step_num as step_num_of};
ghost use Rattle.clock_track.specs.Search.{IsAfter, IsCovering, IsPair};
ghost use Rattle.clock_track.specs.state.Numbers.{AreNarrow, IsExact, IsLongest};
ghost use Rattle.clock_track.specs.Views.{answered};

use crate::answer::ClockAnswer;
use time_unfold::Line;

const NANOSECONDS: u64 = 1_000_000_000;

/// Two adjacent timestamps of a clock that has `up / down` events a second (IEEE 1722-2016, 10). The timestamps are in
/// nanoseconds of gPTP, and there are `interval` events from one to the other.
#[derive(Clone, Copy, Debug, PartialEq, Eq)]
pub struct Pair {
    pub earlier: i64,
    pub later: i64,
    pub interval: u16,
    pub up: u64,
    pub down: u64,
}

/// Computes `(instant - later) * 2 * den + num`.
fn scaled(instant: i64, later: i64, num: u64, den: u64) -> i128
    requires { AreNarrow num den }
    ensures { result ≡ (instant -ℤ later) *ℤ pos (2 * den) +ℤ pos num }
{
    (i128::from(instant) - i128::from(later)) * i128::from(2 * den) + i128::from(num)
}

/// Computes `2 * period * den`.
fn doubled(period: u64, den: u64) -> i128
    requires { AreNarrow period den }
    ensures { result ≡ pos (2 * (period * den)) }
{
    2 * i128::from(period) * i128::from(den)
}

impl Pair {
    /// The time from `earlier` to `later`, or 0 if it is negative.
    pub(crate) fn period(&self) -> u64
        requires { IsSmall self.now }
        ensures { result ≡ period_of self.now }
    {
        if self.later > self.earlier {
            (self.later - self.earlier) as u64
        } else {
            0
        }
    }

    /// The longest period that a joined pair of this clock can have.
    pub(crate) fn longest_period(&self) -> u64
        requires { IsSmall self.now }
        ensures { IsLongest self.now result }
    {
        9 * self.nominal() / (8 * self.up)
    }

    /// The nominal time of the interval in nanoseconds, times `up`.
    fn nominal(&self) -> u64
        requires { IsSmall self.now }
        ensures { IsExact result (nominal_of self.now) (2 ^ 56) }
    {
        u64::from(self.interval) * NANOSECONDS * self.down
    }

    /// Whether the time between the points is within 1/8 of the nominal time of the interval.
    pub fn is_joined(&self) -> bool
        requires { IsSmall self.now }
        ensures { result ≡ is_joined_of self.now }
    {
        let spacing = 8 * u128::from(self.period()) * u128::from(self.up);
        let nominal = u128::from(self.nominal());
        7 * nominal <= spacing && spacing <= 9 * nominal
    }

    fn step_num(&self) -> u64
        requires { IsPair self.now }
        ensures { IsExact result (step_num_of self.now) (2 ^ 57) }
    {
        self.period() * self.up
    }

    fn step_den(&self, rate: u32) -> u64
        requires { IsSmall self.now }
        ensures { IsExact result (step_den self.now rate) (2 ^ 58) }
    {
        u64::from(self.interval) * u64::from(rate) * self.down
    }

    /// Whether the pair covers an instant, for a stream of this rate. A pair covers the instants of one period. The
    /// period begins half a sample before the pair's later point.
    pub fn covers(&self, rate: u32, instant: i64) -> bool
        requires { IsPair self.now }
        ensures { result ≡ covers_of self.now rate instant }
    {
        let den = self.step_den(rate);
        let reach = scaled(instant, self.later, self.step_num(), den);
        0 <= reach && reach < doubled(self.period(), den)
    }

    /// Whether `instant` is more than one nominal sample before the later point, in a stream of `rate` samples a
    /// second. If `instant` is that early, no joined pair with this later point covers it, whatever the earlier point
    /// is.
    pub fn is_after(&self, rate: u32, instant: i64) -> bool
        requires { IsSmall self.now }
        ensures { IsTrue result ↔ IsAfter self.now rate instant }
    {
        scaled(instant, self.later, 2 * self.nominal(), self.step_den(rate)) < 0
    }

    /// A sample has the presentation time `instant`, in a stream of `rate` samples a second. The result is the sample's
    /// line, and the sample's number on that line. The pair must cover the instant. If the clock's frequency is `rate`,
    /// the sample is at the nearest event. If the clock's frequency is not `rate`, the sample is sample 0 of a line
    /// that begins at the instant and has the pair's spacing.
    pub fn answer(&self, rate: u32, instant: i64) -> ClockAnswer
        requires { IsCovering rate instant self.now }
        ensures { answered result ≡ Some (spot_by self.now rate instant) }
    {
        if self.up == u64::from(rate) * self.down {
            let period = self.period();
            let den = u64::from(self.interval);
            let behind = scaled(instant, self.later, period, den);
            ClockAnswer::OnLine {
                line: Line {
                    base: self.later,
                    num: period,
                    den,
                },
                // The number is not negative, because the pair covers the instant.
                offset: behind.div_euclid(i128::from(2 * period)) as u64,
            }
        } else {
            ClockAnswer::OnLine {
                line: Line {
                    base: instant,
                    num: self.step_num(),
                    den: self.step_den(rate),
                },
                offset: 0,
            }
        }
    }
}
