//! The plan of a schedule.

/// The settings with which a listener makes a schedule.
#[derive(Clone, Copy, Debug, PartialEq, Eq)]
pub struct SchedulePlan {
    /// The maximum number of batches that wait for their instants, from 1 to 65,536.
    pub buffer: u32,
    /// The maximum number of bytes of the waiting batches together, from 1 to 1,073,741,824.
    pub room: u32,
    /// How many later entries are read before an item is judged, from 0 to 64.
    pub look: u32,
    /// A packet is expected this many nanoseconds before its presentation time, at most 1,000,000,000.
    pub lead: u32,
    /// Whether samples are counted on the lines of the stream's clock.
    pub clock: bool,
    /// The shift that is added to each timestamp of the clock, from -1,000,000,000 to 1,000,000,000 ns.
    pub shift: i64,
}
