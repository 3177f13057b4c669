//! An entry that waits for its verdict.

use sample_schedule::Item;

/// An entry that waits for its verdict. For a packet of the clock only the arrival is kept, because its timestamps are
/// noted when it arrives.
#[derive(Debug, Drop)]
pub enum Pending {
    Item(Item),
    Clock { arrival: i64 },
}

impl Pending {
    ghost use Rattle.std.specs.Prelude.{◌≡◌};
    ghost use Rattle.schedule_judge.specs.state.Judge.{pending_arrival};

    /// When the entry was captured, in nanoseconds of gPTP.
    pub fn arrival(&self) -> i64
        ensures { result ≡ pending_arrival self.now }
    {
        match self {
            Pending::Item(item) => item.arrival(),
            Pending::Clock { arrival } => *arrival,
        }
    }
}
