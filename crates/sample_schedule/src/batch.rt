//! Batches of samples that are presented.

use avtp_base::Bytes;
use std::marker::Model;
use time_unfold::Line;

/// A batch of samples, and the line that gives their instants. Sample j of the batch is sample `from + j` of the line.
/// The limits of the instants are an invariant of the type, so that definitions can use batches without also carrying
/// proofs of these limits.
#[derive(Debug, Drop)]
pub struct Batch {
    /// The number of the record in the capture, from 1.
    pub frame: u64,
    pub seq: u8,
    /// The number of samples, from 1 to 65,535.
    pub count: u32,
    pub line: Line,
    /// The number that the first sample has on the line.
    pub from: i64,
    /// The sample bytes. Each of the `count` samples has the same number of bytes.
    pub bytes: Bytes,
}

impl Model for Batch {
    ghost use Rattle.sample_schedule.specs.Batches.{Presented, IsPresentable};

    ghost Value = { Presented };

    ghost view = { λ b. record { frame = b.frame; seq = b.seq; line = b.line; from = b.from; count = b.count; bytes = b.bytes } };

    ghost invariant = { λ b. IsPresentable (record { frame = b.frame; seq = b.seq; line = b.line; from = b.from; count = b.count; bytes = b.bytes }) };

    ghost inverse = { λ b. record { frame = b.frame; seq = b.seq; line = b.line; from = b.from; count = b.count; bytes = b.bytes } };
}

impl Batch {
    ghost use Rattle.std.specs.Prelude.{◌≡◌, ◌≤◌};
    ghost use Rattle.sample_schedule.specs.Batches.{is_unit, sample_instant};

    /// The instant of sample `j`, in nanoseconds of gPTP. `j` is at most `count`. If `j` is `count`, the result is the
    /// instant of the first sample after the batch.
    pub fn instant(&self, j: u32) -> i64
        requires { j ≤ self.now.count }
        ensures { result ≡ sample_instant self.now j }
    {
        self.line.at(self.from + i64::from(j))
    }

    /// The instant of the first sample. For most batches the first instant is the line's base, so nothing has to be
    /// computed.
    #[inline(always)]
    pub fn first_instant(&self) -> i64
        ensures { result ≡ sample_instant self.now 0 }
    {
        if self.from == 0 {
            self.line.base
        } else {
            self.instant(0)
        }
    }

    /// Whether the batch is a unit of H.264 and not audio samples. The line of a unit has one nanosecond per sample.
    pub fn is_unit(&self) -> bool
        ensures { result ≡ is_unit self.now }
    {
        self.line.num == 1 && self.line.den == 1
    }
}
