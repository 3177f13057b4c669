//! Items that were accepted.

use crate::batch::Batch;
use crate::shown::Shown;
use time_unfold::Line;

/// An accepted item: its index in the list, the instant of its first sample, and the batch that is presented.
#[derive(Debug, Drop)]
pub struct Accepted {
    pub place: u64,
    pub instant: i64,
    pub batch: Batch,
}

impl Accepted {
    ghost use Rattle.std.specs.Prelude.{◌≡◌};
    ghost use Rattle.sample_schedule.specs.Schedule.{present as present_of};

    /// The item as it is shown.
    #[inline(always)]
    pub fn present(self) -> Shown
        ensures { result ≡ present_of self }
    {
        let Accepted {
            place: _,
            instant: _,
            batch,
        } = self;
        let Batch {
            frame,
            seq,
            count,
            line: Line { base, num, den },
            from,
            bytes,
        } = batch;
        // Copied field by field, so that the fields go through registers. If the batch were copied whole, the processor
        // would write the batch in pieces of one size, and read the batch in pieces of another size. The processor
        // would then have to wait until the writes are done, and the wait would take a fifth of the time spent on a
        // packet.
        Shown::Present(Batch {
            frame,
            seq,
            count,
            line: Line { base, num, den },
            from,
            bytes,
        })
    }
}
