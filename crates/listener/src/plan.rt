//! The configuration of a listener.

ghost use Rattle.std.specs.Prelude.{◌≡◌};
ghost use Rattle.listener.specs.Heard.{schedule_plan as schedule_plan_of};

use sample_schedule::SchedulePlan;

/// What a listener listens to, and how.
#[derive(Clone, Copy, Debug, PartialEq, Eq)]
pub struct ListenPlan {
    /// The ID of the stream.
    pub stream: u64,
    /// The ID of the stream's media clock, if the samples are timed by the clock's timestamps.
    pub clock: Option<u64>,
    /// The maximum number of batches that wait for their presentation time, from 1 to 65,536.
    pub buffer: u32,
    /// The maximum number of bytes of these batches together, from 1 to 1,073,741,824.
    pub room: u32,
    /// How many later items are read before an item is judged, from 0 to 64.
    pub look: u32,
    /// The max transit time in nanoseconds, at most 1,000,000,000. A packet is expected this long before its
    /// presentation time.
    pub lead: u32,
    /// The shift that is added to each timestamp of the clock, from -1,000,000,000 to 1,000,000,000 ns.
    pub shift: i64,
}

impl ListenPlan {
    /// The settings of the plan that a schedule uses.
    pub(crate) fn schedule_plan(&self) -> SchedulePlan
        ensures { result ≡ schedule_plan_of self.now }
    {
        SchedulePlan {
            buffer: self.buffer,
            room: self.room,
            look: self.look,
            lead: self.lead,
            clock: self.clock.is_some(),
            shift: self.shift,
        }
    }
}
