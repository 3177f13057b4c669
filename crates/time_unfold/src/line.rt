//! Evenly spaced samples.

ghost use Rattle.std.specs.Prelude.{◌≡◌, ◌≤◌};
ghost use Rattle.time_unfold.specs.Lines.{floor_of};

/// The quotient, rounded down. Most calls need only a division in 64 bits.
#[inline(always)]
fn floor(numerator: i128, denominator: u64) -> i128
    requires { 1 ≤ denominator }
    ensures { result ≡ floor_of numerator denominator }
{
    match (i64::try_from(numerator), i64::try_from(denominator)) {
        (Ok(numerator), Ok(denominator)) => i128::from(numerator.div_euclid(denominator)),
        _ => numerator.div_euclid(i128::from(denominator)),
    }
}

/// Samples at evenly spaced instants. Sample 0 is at `base`, in nanoseconds of gPTP. Each later sample is `num / den`
/// nanoseconds after the sample before it.
#[derive(Clone, Copy, Debug, PartialEq, Eq)]
pub struct Line {
    pub base: i64,
    pub num: u64,
    pub den: u64,
}

impl Line {
    ghost use Rattle.std.specs.Prelude.{◌≡◌, ◌≤◌, ℤ};
    ghost use Rattle.time_unfold.specs.Time.{IsInstant};
    ghost use Rattle.time_unfold.specs.Lines.{IsAt, instant_at};

    /// The instant of sample `k`, rounded down to a whole nanosecond. Samples before sample 0 have negative numbers.
    ///
    /// `den` must be at least 1, and the instant must be from -2^62 to below 2^63 ns.
    pub fn at(&self, k: i64) -> i64
        requires steps { 1 ≤ self.now.den }
        requires instant { IsInstant (instant_at self.now k) }
        ensures value { result ≡ instant_at self.now k }
        ensures at { IsAt self.now k result }
        ensures only { (other : ℤ) → IsAt self.now k other → other ≡ result }
    {
        let steps = i128::from(k) * i128::from(self.num);
        (i128::from(self.base) + floor(steps, self.den)) as i64
    }
}
