//! The limits that decide whether a verdict is given.

/// A stream's timestamps can be read in several ways, for example with swapped bytes. A reading explains the stream if
/// at most one in `FEW` timestamps does not fit the reading.
pub const FEW: u64 = 100;

/// If presentation times are more than a quarter of a second after the arrivals, the clocks differ. The longest max
/// transit time of a class is 50 ms (IEEE 1722-2016, table 4), and few players ask for five times as much.
pub const MOST_LEAD: i64 = 250_000_000;

/// How far TAI, the time of gPTP, has been ahead of UTC since 2017: 37 s.
pub const TAI_AHEAD: i64 = 37_000_000_000;

/// If a lead exceeds 37 s or -37 s by at most this much, the clocks differ by 37 s. The excess over 37 s or -37 s is a
/// transit time.
pub const MOST_TRANSIT: i64 = 250_000_000;

/// The max transit times of the classes A and B: 2 ms and 50 ms (IEEE 1722-2016, table 4).
pub const CLASS_A: i64 = 2_000_000;

pub const CLASS_B: i64 = 50_000_000;

/// A drift below 10 ppm is not reported. The limit is in parts of 10^9. A free-running quartz is off by up to 100 ppm,
/// and a clock that follows gPTP is off by far less than 1 ppm.
pub const LEAST_DRIFT: u64 = 10_000;

/// A drift is reported only if a capture lasts at least half a second. In a shorter capture, jitter looks like drift.
pub const LEAST_DRIFT_TIME: u64 = 500_000_000;

/// A drift is reported only if it changes the lead, over the whole capture, by at least a quarter of the range of the
/// leads. A smaller apparent drift can be jitter.
pub const DRIFT_PART: u64 = 4;

/// An arrival is uneven if the time since the previous arrival differs from the previous packet's duration by more than
/// half of that duration, and by more than 50 microseconds. If capture timestamps are not made by hardware, they can
/// themselves be wrong by 50 microseconds.
pub const LEAST_UNEVEN: u64 = 50_000;

/// If more than one in `UNEVEN_PART` arrivals is uneven, the stream has jitter.
pub const UNEVEN_PART: u64 = 100;

/// If a lead changes by more than 100 ms from one packet to the next, the timestamps have a step. A step of the
/// timestamps does not count as drift.
pub const LEAST_STEP: u64 = 100_000_000;
