//! The verdict on an item: it is accepted, or refused for a reason.

ghost use Rattle.std.specs.Prelude.{◌≡◌, IfOk, length, List, int_lt, Ok, Err};
ghost use Rattle.std.specs.List.{list_any};
ghost use Rattle.sample_schedule.specs.declared.accepted.Accepted.{Accepted as AcceptedValue};
ghost use Rattle.sample_schedule.specs.declared.entry.Entry.{Entry as EntryValue};
ghost use Rattle.sample_schedule.specs.Limits.{IsItem, IsPlan};
ghost use Rattle.sample_schedule.specs.Noted.{HasNoted};
ghost use Rattle.sample_schedule.specs.Order.{by_instant, standing};
ghost use Rattle.schedule_judge.specs.state.Waiting.{CanWait};
ghost use Rattle.sample_schedule.specs.Verdicts.{Clock, IsClockOf, decided, first_instant, is_copy as is_copy_of, is_full as is_full_of, timed as timed_of, verdict as verdict_of};

use crate::waiting_room::Waiting;
use sample_schedule::{Accepted, Batch, Item, Noted, Reason, SchedulePlan, timed};

#[inline(always)]
fn judge(
    plan: &SchedulePlan,
    now: i64,
    waiting: &Waiting,
    place: u64,
    batch: Batch,
) -> Result<Accepted, Reason>
    ensures judged { result ≡ decided (int_lt (first_instant batch) now) (list_any (is_copy_of (first_instant batch) batch.seq) waiting.now.list) (is_full_of plan.now waiting.now.list (length batch.bytes)) place batch }
    ensures waits { IfOk result (CanWait plan.now now waiting.now.list) }
{
    let instant = batch.first_instant();
    if instant < now {
        return Err(Reason::Late);
    }
    if waiting.has_copy(instant, batch.seq) {
        return Err(Reason::Repeat);
    }
    if waiting.is_full(plan, batch.bytes.as_slice().len()) {
        return Err(Reason::Full);
    }
    Ok(Accepted {
        place,
        instant,
        batch,
    })
}

/// The verdict on an item, given the waiting batches and what was noted from the known entries.
#[inline(always)]
pub fn verdict(
    plan: &SchedulePlan,
    now: i64,
    waiting: &Waiting,
    noted: &Noted,
    place: u64,
    item: Item,
) -> Result<Accepted, Reason>
    requires plan { IsPlan plan.now }
    requires item { IsItem item }
    ensures judged { (clock : Clock) (prefix : List EntryValue) (earlier : List AcceptedValue) → IsClockOf plan.now clock → HasNoted plan.now prefix noted.now → waiting.now.list ≡ by_instant (standing now earlier) → result ≡ verdict_of plan.now now earlier place (timed_of clock plan.now prefix item) }
    ensures waits { IfOk result (CanWait plan.now now waiting.now.list) }
{
    match timed(plan, noted, item) {
        Ok(batch) => judge(plan, now, waiting, place, batch),
        Err(reason) => Err(reason),
    }
}
