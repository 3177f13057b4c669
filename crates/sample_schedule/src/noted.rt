//! The noted stamps and clock packets. Samples are counted from them.

ghost use Rattle.std.specs.Prelude.{◌≡◌, ◌+◌, ◌++◌, ◌∷◌, [], IfOk, IfSome, List, ℤ};
ghost use Rattle.time_unfold.specs.declared.stamp.Stamp.{Stamp as StampValue};
ghost use Rattle.time_unfold.specs.Limits.{IsStamp, IsWant};
ghost use Rattle.time_unfold.specs.Stamps.{found};
ghost use Rattle.sample_schedule.specs.declared.entry.Entry.{Entry as EntryValue};
ghost use Rattle.sample_schedule.specs.declared.entry.Entry.TheVariants.{Item as OfItem, Clock as OfClock};
ghost use Rattle.clock_track.specs.Limits.{IsNotable};
ghost use Rattle.clock_track.specs.Views.{row_of};
ghost use Rattle.sample_schedule.specs.declared.plan.SchedulePlan.{SchedulePlan as SchedulePlanValue};
ghost use Rattle.sample_schedule.specs.Heads.{stamps_of};
ghost use Rattle.sample_schedule.specs.Limits.{IsItem, IsPlan};
ghost use Rattle.sample_schedule.specs.Noted.{HasClock, HasNoted};

use crate::head::stamp_of;
use crate::item::Item;
use crate::plan::SchedulePlan;
use avtp_base::NoMemory;
use clock_track::{Clock, Points};
use std::alloc::Global;
use time_unfold::{Anchors, Stamp, Want};

/// This number plus the look-ahead is the number of stamps that are searched.
const STAMPS: u32 = 16;

/// What was noted from the entries so far: the last usable stamps, and the clock packets if the plan has a clock.
#[derive(Drop)]
pub struct Noted {
    stamps: Anchors,
    pub clock: Option<Clock>,
}

/// A clock that has noted no packets, with the plan's shift; `None` if the plan has no clock. Reserves all the memory
/// that the clock needs.
fn clock_of(alloc: Global, plan: &SchedulePlan) -> Result<Option<Clock>, NoMemory>
    requires { IsPlan plan.now }
    ensures { IfOk result (λ clock. HasClock plan.now [] clock) }
{
    if !plan.clock {
        return Ok(None);
    }
    let clock = Clock::new(alloc, plan.shift)?;
    Ok(Some(clock))
}

impl Noted {
    /// The state before the first entry. Reserves all the memory that is needed.
    pub fn new(alloc: Global, plan: &SchedulePlan) -> Result<Self, NoMemory>
        requires { IsPlan plan.now }
        ensures { IfOk result (λ noted. HasNoted plan.now [] noted) }
    {
        let stamps = Anchors::new(alloc, plan.look + STAMPS)?;
        let clock = clock_of(alloc, plan)?;
        Ok(Noted { stamps, clock })
    }

    /// Notes the usable stamp of an item, if it has one. Allocates nothing.
    #[inline(always)]
    pub fn note_item(&mut self, item: &Item)
        requires { IsItem item.now }
        ensures { (plan : SchedulePlanValue) (entries : List EntryValue) → HasNoted plan entries self.old → HasNoted plan (entries ++ OfItem item.now ∷ []) self.new }
    {
        match stamp_of(item) {
            Some(stamp) => self.stamps.note(stamp),
            None => {}
        }
    }

    /// If the plan has a clock, notes a packet of the clock. Allocates nothing.
    pub fn note_points(&mut self, points: &Points<'_>)
        requires { IsNotable (row_of points.now) }
        ensures { (plan : SchedulePlanValue) (entries : List EntryValue) (arrival : ℤ) → HasNoted plan entries self.old → HasNoted plan (entries ++ OfClock arrival (row_of points.now) ∷ []) self.new }
    {
        match &mut self.clock {
            Some(clock) => clock.note(points),
            None => {}
        }
    }

    /// The last fitting stamp among the last `look + 16` stamps.
    pub fn find(&self, want: &Want) -> Option<Stamp>
        requires { IsWant want.now }
        ensures value { (plan : SchedulePlanValue) (entries : List EntryValue) → HasNoted plan entries self.now → result ≡ found (plan.look + 16) want.now (stamps_of entries) }
        ensures stamp { IfSome result IsStamp }
    {
        self.stamps.find(want)
    }
}
