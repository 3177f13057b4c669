//! A captured list, and what is shown of it.

ghost use Rattle.std.specs.Prelude.{IsTrue};
ghost use Rattle.sample_schedule.specs.Limits.{IsPlan};

use crate::captured::{Captured, entries_of};
use avtp_base::NoMemory;
use sample_schedule::{Reason, SchedulePlan, Shown};
use schedule_judge::schedule;
use std::alloc::Global;
use std::process::Abort;

pub const PLAN: SchedulePlan = SchedulePlan {
    buffer: 4_096,
    room: 67_108_864,
    look: 0,
    lead: 2_000_000,
    clock: false,
    shift: 0,
};

/// When each of six samples at 48 kHz is due, in nanoseconds after the first sample.
pub const STEPS: [i64; 6] = [0, 20_833, 41_666, 62_500, 83_333, 104_166];

/// What is shown of a frame.
#[derive(Clone, Copy, Debug, PartialEq, Eq)]
pub enum Seen {
    /// The frame with this number is presented. The frame's first sample is at this instant, and its other samples are
    /// at the steps of the case.
    At(u64, i64),
    /// The frame with this number is presented, but one of its samples is not at its step. The second number is the
    /// number of that sample, and the third number is its instant.
    Astray(u64, u32, i64),
    Flag(u64, Reason),
}

#[derive(Clone, Copy)]
pub struct Case {
    pub name: &'static str,
    pub plan: SchedulePlan,
    pub captured: &'static [Captured],
    pub steps: [i64; 6],
    pub shown: &'static [Seen],
}

/// Whether the plan is within its limits.
fn is_plan(plan: &SchedulePlan) -> bool
    ensures { IsTrue result → IsPlan plan.now }
{
    1 <= plan.buffer
        && plan.buffer <= 65_536
        && 1 <= plan.room
        && plan.room <= 1 << 30
        && plan.look <= 64
        && plan.lead <= 1_000_000_000
        && -1_000_000_000 <= plan.shift
        && plan.shift <= 1_000_000_000
}

fn seen_of(shown: &Shown, steps: &[i64; 6]) -> Seen {
    match shown {
        Shown::Present(batch) => {
            let first = batch.instant(0);
            for j in 0..batch.count {
                let instant = batch.instant(j);
                if steps.get(j as usize).copied() != Some(instant.saturating_sub(first)) {
                    return Seen::Astray(batch.frame, j, instant);
                }
            }
            Seen::At(batch.frame, first)
        }
        Shown::Flag {
            frame,
            seq: _,
            reason,
        } => Seen::Flag(*frame, *reason),
    }
}

/// What is shown of a captured list.
pub fn seen_in(
    alloc: Global,
    plan: &SchedulePlan,
    captured: &[Captured],
    steps: &[i64; 6],
) -> Result<Vec<Seen>, NoMemory>
    requires { IsPlan plan.now }
{
    let list = schedule(alloc, plan, entries_of(alloc, captured)?)?;
    let mut seen = Vec::new(alloc);
    for shown in &list {
        seen.push(seen_of(shown, steps))?;
    }
    Ok(seen)
}

pub fn shows(rt: &impl Abort, alloc: Global, case: &Case) -> Result<(), NoMemory> {
    assert!(rt; is_plan(&case.plan), "{}", case.name);
    let seen = seen_in(alloc, &case.plan, case.captured, &case.steps)?;
    assert_eq!(rt; seen.as_slice(), case.shown, "{}", case.name);
    Ok(())
}
