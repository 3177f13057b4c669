//! The instants of a batch's samples, one after the other.

ghost use Rattle.std.specs.Prelude.{◌≡◌, ◌<◌, pos, ◌*ℤ◌};
ghost use Rattle.std.specs.Int.{int_rem_euclid};
ghost use Rattle.sample_schedule.specs.Instants.{GoesOn, IsFirstOf, IsInstantOf, IsRestOf};

use crate::batch::Batch;

/// The instant of sample `j` of a batch: the whole nanoseconds, and the remainder in units of 1 / `den` ns. `den` is
/// the denominator of the batch's line. Because the remainder is kept, the instant of the next sample needs only an
/// addition, and no division.
#[derive(Clone, Copy)]
pub struct Instant {
    pub j: u32,
    pub nanoseconds: i64,
    rest: u64,
    /// The step from one sample to the next: `step` has the whole nanoseconds, and `step_rest` has the remainder.
    step: u64,
    step_rest: u64,
}

/// The remainder of the first sample's instant.
fn first_rest(batch: &Batch) -> u64
    ensures { pos result ≡ int_rem_euclid (batch.now.from *ℤ pos batch.now.line.num) (pos batch.now.line.den) }
{
    let line = batch.line;
    let steps = i128::from(batch.from) * i128::from(line.num);
    steps.rem_euclid(i128::from(line.den)) as u64
}

impl Instant {
    /// The instant of the first sample.
    #[inline(always)]
    pub fn first(batch: &Batch) -> Self
        ensures { IsFirstOf result batch.now }
    {
        if batch.from == 0 {
            return Instant::starting(batch, batch.line.base, 0);
        }
        Instant::starting(batch, batch.instant(0), first_rest(batch))
    }

    /// The instant of the first sample, given its whole nanoseconds and its remainder.
    #[inline(always)]
    fn starting(batch: &Batch, nanoseconds: i64, rest: u64) -> Self
        requires { IsRestOf batch.now 0 nanoseconds rest }
        ensures { IsFirstOf result batch.now }
    {
        let line = batch.line;
        Instant {
            j: 0,
            nanoseconds,
            rest,
            step: line.num / line.den,
            step_rest: line.num % line.den,
        }
    }

    /// Moves on to the instant of the next sample. After the batch's last sample, the next sample is the first one
    /// after the batch.
    #[inline(always)]
    pub fn next(&mut self, batch: &Batch)
        requires inside { self.old.j < batch.now.count }
        requires is { IsInstantOf self.old batch.now }
        ensures { GoesOn self.old self.new batch.now }
    {
        let den = batch.line.den;
        let rest = self.rest + self.step_rest;
        self.j += 1;
        if rest < den {
            self.rest = rest;
            self.nanoseconds += self.step as i64;
        } else {
            self.rest = rest - den;
            self.nanoseconds += (self.step + 1) as i64;
        }
    }
}
