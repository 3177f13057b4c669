//! What a search of a clock's packets is given.

ghost use Rattle.std.specs.Prelude.{◌≤◌, ◌*◌};
ghost use Rattle.clock_track.specs.Limits.{IsRow, IsShift};
ghost use Rattle.clock_track.specs.state.Bounds.{IsLead};
ghost use Rattle.clock_track.specs.Views.{row_of};

use crate::clock_row::Points;

/// What is searched for: a pair that covers `instant`, for a stream of `rate` samples a second. `shift` is added to the
/// clock's timestamps.
#[derive(Clone, Copy)]
pub struct Query {
    pub shift: i64,
    pub instant: i64,
    pub rate: u32,
    /// A pair covers no instant that is more than this many nanoseconds before the pair's later point.
    pub lead: u64,
    ghost short: { IsShift shift },
    ghost some: { 1 ≤ rate },
    ghost leads: { IsLead rate lead },
}

/// A packet whose fields are within the limits of the format. `shift` is added to its timestamps.
#[derive(Clone, Copy)]
pub struct Usable<'a> {
    pub points: Points<'a>,
    pub shift: i64,
    ghost within: { IsRow (row_of points) },
    ghost short: { IsShift shift },
}

/// A joined pair covers no instant that is more than this many nanoseconds before the pair's later point. The number is
/// 9/8 of half the nominal spacing of samples at `rate` samples a second, rounded down.
pub fn lead_of(rate: u32) -> u64
    requires { 1 ≤ rate }
    ensures { IsLead rate result }
{
    562_500_000 / u64::from(rate)
}
