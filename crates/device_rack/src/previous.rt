//! What is kept of a batch, to measure silence from the end of the batch.

ghost use Rattle.std.specs.Prelude.{◌≤◌, ◌^◌};

use sample_schedule::Batch;
use time_unfold::Line;

/// What is kept of a batch of samples, so that the silence after it can be measured.
#[derive(Clone, Copy)]
pub struct Previous {
    line: Line,
    /// The instant just after the batch's last sample.
    end: i64,
    /// The number of bytes in one sample, with all channels.
    size: usize,
    ghost some_num: { 1 ≤ line.num },
    ghost num: { line.num ≤ 2 ^ 60 },
    ghost den: { line.den ≤ 2 ^ 60 },
}

impl Previous {
    ghost use Rattle.std.specs.Prelude.{◌≡◌, ◌-ℤ◌, Option};
    ghost use Rattle.sample_schedule.specs.Batches.{Presented};
    ghost use Rattle.device_rack.specs.declared.silent_bytes.Silence.{Silence};
    ghost use Rattle.device_rack.specs.RawOutput.{samples_in, silence_before, silence_of, silent_bytes};
    ghost use Rattle.device_rack.specs.Written.{IsPrevious, IsPreviousOf};

    /// The maximum number of bytes of silence between two batches.
    const LONGEST: usize = 16_777_216;

    /// What is kept of a batch.
    pub fn of(batch: &Batch) -> Self
        ensures { IsPrevious result batch.now }
    {
        Previous {
            line: batch.line,
            end: batch.instant(batch.count),
            size: batch.bytes.as_slice().len() / batch.count as usize,
        }
    }

    /// How many samples are missing up to the instant `next`, to the nearest whole number.
    fn missing(&self, next: i64) -> u128
        ensures { result ≡ samples_in self.now.line (next -ℤ self.now.end) }
    {
        if next < self.end {
            return 0;
        }
        let span = u128::from(next.abs_diff(self.end));
        let num = u128::from(self.line.num);
        (2 * span * u128::from(self.line.den) + num) / (2 * num)
    }

    /// How many bytes of silence are written for the missing samples.
    fn silent_bytes(&self, next: i64) -> usize
        ensures { result ≡ silent_bytes self.now.line self.now.size (next -ℤ self.now.end) }
    {
        if self.size == 0 {
            return 0;
        }
        let most = Self::LONGEST / self.size;
        self.missing(next).min(most as u128) as usize * self.size
    }

    /// How many bytes of silence are written before a batch.
    pub fn silent_before(previous: &Option<Self>, batch: &Batch) -> usize
        ensures { (silence : Silence) (before : Option Presented) → IsPreviousOf previous.now before → silence_of silence result ≡ silence_before silence before batch.now }
    {
        match previous {
            Some(previous) => previous.silent_bytes(batch.instant(0)),
            None => 0,
        }
    }
}
