//! What a schedule is made of.

use crate::item::Item;
use clock_track::ClockRow;

/// An item of the stream, or a packet of its clock. A packet of the clock is never shown, but its arrival makes batches
/// due, as the arrival of an item does.
#[derive(Debug, Drop)]
pub enum Entry {
    Item(Item),
    Clock {
        /// When the packet was captured, in nanoseconds of gPTP.
        arrival: i64,
        row: ClockRow,
    },
}

impl Entry {
    ghost use Rattle.std.specs.Prelude.{◌≡◌};
    ghost use Rattle.sample_schedule.specs.Schedule.{arrival_of};

    /// When the entry was captured, in nanoseconds of gPTP.
    pub fn arrival(&self) -> i64
        ensures { result ≡ arrival_of self.now }
    {
        match self {
            Entry::Item(item) => item.arrival(),
            Entry::Clock { arrival, row: _ } => *arrival,
        }
    }
}
