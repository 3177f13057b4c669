//! The schedule of a list.

ghost use Rattle.std.specs.Prelude.{◌≡◌, All, IfOk, OnOk};
ghost use Rattle.schedule_judge.specs.Judge.{IsReady, Takes};
ghost use Rattle.schedule_judge.specs.state.Judge.{GivesAll};
ghost use Rattle.sample_schedule.specs.Limits.{IsEntry, IsPlan};
ghost use Rattle.sample_schedule.specs.Schedule.{shown};
ghost use Rattle.sample_schedule.specs.Verdicts.{Clock, IsClockOf};

use crate::judge::Judge;
use avtp_base::NoMemory;
use sample_schedule::{Entry, SchedulePlan, Shown};
use std::alloc::Global;
use std::collections::VecDeque;

/// Gives an entry to the judge.
pub fn take_entry(judge: &mut Judge, entry: Entry)
    requires ready { IsReady judge.old }
    requires entry { IsEntry entry }
    ensures { Takes entry judge.old judge.new }
{
    match entry {
        Entry::Item(item) => judge.step(item),
        Entry::Clock { arrival, row } => judge.step_clock(arrival, &row.points()),
    }
}

/// Puts all items that the judge returns into a list.
pub fn give_all(judge: &mut Judge, list: &mut Vec<Shown>) -> Result<(), NoMemory>
    ensures { OnOk result (GivesAll list.old.items judge.old list.new.items judge.new) }
{
    while let Some(shown) = judge.next_out() {
        list.push(shown)?;
    }
    Ok(())
}

/// The schedule of a list of entries, in capture order. Each item of the stream is shown once: presented, or flagged
/// with the first reason that holds. A batch is presented as soon as an entry arrives after the batch's first instant.
/// After the last entry, the remaining batches are presented, sorted by first instant and then by index in the list.
///
/// An item is judged as soon as `look` later entries are known or the list has ended. Hence the item's samples can be
/// counted from the timestamp of a later packet. If a packet has no usable timestamp, its samples are counted from the
/// last fitting timestamp among the last `look + 16` usable ones.
///
/// If the plan has a clock, samples are on the lines of the clock packets that are known when the item is judged. If
/// the plan has no clock, only the arrival of a clock packet counts.
///
/// If there is no memory, returns `NoMemory` and shows nothing.
pub fn schedule(
    alloc: Global,
    plan: &SchedulePlan,
    entries: Vec<Entry>,
) -> Result<Vec<Shown>, NoMemory>
    requires plan { IsPlan plan.now }
    requires entries { All IsEntry entries.items }
    ensures { IfOk result (λ list. (clock : Clock) → IsClockOf plan.now clock → list.items ≡ shown clock plan.now entries.items) }
{
    let mut judge = Judge::begin(alloc, *plan)?;
    let mut list = Vec::new(alloc);
    let mut entries = VecDeque::from_vec(entries);
    while let Some(entry) = entries.pop_front() {
        take_entry(&mut judge, entry);
        give_all(&mut judge, &mut list)?;
    }
    judge.close();
    give_all(&mut judge, &mut list)?;
    Ok(list)
}
