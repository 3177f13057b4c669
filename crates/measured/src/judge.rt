//! Measures a judge by itself.

ghost use Rattle.std.specs.Prelude.{◌≡◌, ◌+◌, ◌≤◌, ◌<◌, ◌^◌, All, false, length};
ghost use Rattle.schedule_judge.specs.Judge.{IsIdle, Keeps, taken};
ghost use Rattle.sample_schedule.specs.Limits.{IsEntry};

use crate::stream::Stream;
use crate::timed::Timed;
use sample_schedule::{Entry, SchedulePlan, Shown};
use schedule_judge::Judge;
use std::alloc::Global;
use std::collections::VecDeque;
use std::time::{Clock, Instant};

/// Judges packets of a stream, with a look-ahead of 0 to 64 entries. The entries are made before the measurement
/// starts.
pub fn judge<C: Clock>(
    clock: &C,
    alloc: Global,
    stream: &Stream,
    look: u32,
    count: u32,
) -> Option<Timed>
    requires some { 1 ≤ stream.now.waiting }
    requires most { stream.now.waiting ≤ 65536 }
    requires look { look ≤ 64 }
{
    let plan = SchedulePlan {
        buffer: 65_536,
        room: 1 << 30,
        look,
        lead: 2_000_000,
        clock: stream.clock,
        shift: 0,
    };
    let entries = stream.entries(alloc, count).ok()?;
    let mut judge = Judge::begin(alloc, plan).ok()?;
    let start = Instant::now(clock).ok()?;
    let presented = judge_all(&mut judge, entries);
    let nanoseconds = u64::try_from(start.elapsed(clock).ok()?.as_nanos()).ok()?;
    Some(Timed {
        count: presented,
        nanoseconds,
    })
}

/// Judges entries, and counts the batches that are presented.
fn judge_all(judge: &mut Judge, entries: Vec<Entry>) -> u64
    requires open { judge.old.closed ≡ false }
    requires idle { IsIdle judge.old }
    requires none { taken judge.old ≡ 0 }
    requires entries { All IsEntry entries.items }
{
    let mut presented = 0;
    let mut entries = VecDeque::from_vec(entries);
    while let Some(entry) = entries.pop_front() {
        take(judge, entry);
        drain(judge, &mut presented);
    }
    judge.close();
    drain(judge, &mut presented);
    presented
}

pub fn take(judge: &mut Judge, entry: Entry)
    requires open { judge.old.closed ≡ false }
    requires idle { IsIdle judge.old }
    requires taken { taken judge.old < 2 ^ 62 }
    requires entry { IsEntry entry }
    ensures taken { taken judge.new ≡ taken judge.old + 1 }
    ensures open { judge.new.closed ≡ false }
{
    match entry {
        Entry::Item(item) => judge.step(item),
        Entry::Clock { arrival, row } => judge.step_clock(arrival, &row.points()),
    }
}

/// Takes all items that are due, and counts the batches among them.
fn drain(judge: &mut Judge, presented: &mut u64)
    ensures idle { IsIdle judge.new }
    ensures keeps { Keeps judge.old judge.new }
{
    while let Some(shown) = judge.next_out() {
        if let Shown::Present(_) = shown {
            *presented = presented.saturating_add(1);
        }
    }
}
