//! A batch with its first instant.

ghost use Rattle.std.specs.Prelude.{◌≡◌};

use avtp_base::Bytes;
use sample_schedule::Batch;
use std::marker::Model;

/// A batch, and the instant of its first sample, which is computed once.
#[derive(Drop)]
pub struct Timed {
    instant: i64,
    batch: Batch,
}

impl Model for Timed {
    ghost use Rattle.std.specs.Prelude.{◌≡◌};
    ghost use Rattle.sample_schedule.specs.Batches.{Presented};
    ghost use Rattle.sample_schedule.specs.Verdicts.{first_instant};

    ghost Value = { Presented };

    ghost view = { λ timed. timed.batch };

    ghost invariant = { λ timed. timed.instant ≡ first_instant timed.batch };
}

impl Timed {
    ghost use Rattle.std.specs.Prelude.{◌≡◌};
    ghost use Rattle.sample_schedule.specs.Verdicts.{first_instant};

    pub fn over(batch: Batch) -> Self
        ensures { result ≡ batch }
    {
        Timed {
            instant: batch.instant(0),
            batch,
        }
    }

    pub fn batch(&self) -> &Batch
        ensures { result.now ≡ self.now }
    {
        &self.batch
    }

    /// Returns the bytes of the batch, with their memory.
    pub fn into_samples(self) -> Bytes
        ensures { result ≡ self.bytes }
    {
        self.batch.bytes
    }

    /// The instant of the first sample, in nanoseconds of gPTP.
    pub fn instant(&self) -> i64
        ensures { result ≡ first_instant self.now }
    {
        self.instant
    }
}
