//! Whether an item can be presented, and at which instants.

ghost use Rattle.std.specs.Prelude.{◌≡◌, List, Some};
ghost use Rattle.sample_schedule.specs.declared.entry.Entry.{Entry as EntryValue};
ghost use Rattle.sample_schedule.specs.declared.plan.SchedulePlan.{SchedulePlan as SchedulePlanValue};
ghost use Rattle.sample_schedule.specs.Batches.{IsPresentable};
ghost use Rattle.sample_schedule.specs.Limits.{IsItem, IsPlan, IsUnit};
ghost use Rattle.sample_schedule.specs.Noted.{HasNoted};
ghost use Rattle.sample_schedule.specs.state.Heads.{CanCount};
ghost use Rattle.sample_schedule.specs.Verdicts.{Clock, IsClockOf, counted_from as counted_from_head, samples_at, timed as timed_of, unit_at_once};

use crate::batch::Batch;
use crate::head::head_of;
use crate::item::{Item, Packet, Unit};
use crate::noted::Noted;
use crate::plan::SchedulePlan;
use crate::shown::Reason;
use clock_track::ClockAnswer;
use time_unfold::{Head, Line};

const NANOSECONDS: u64 = 1_000_000_000;

/// The samples of a packet. `from` is the number of the packet's first sample on the line.
#[inline(always)]
fn samples_on(packet: Packet, line: Line, from: i64) -> Batch
    requires { IsPresentable (samples_at packet (record { line = line; from = from })) }
    ensures { result ≡ samples_at packet (record { line = line; from = from }) }
{
    let Packet {
        frame,
        arrival: _,
        seq,
        mr: _,
        tu: _,
        stamp: _,
        rule: _,
        rate: _,
        count,
        bytes,
    } = packet;
    Batch {
        frame,
        seq,
        line,
        from,
        count,
        bytes,
    }
}

/// The samples of a packet, counted from its head. If there is a clock, the samples are on the clock's line that covers
/// the head's instant; otherwise they are on the nominal line.
#[inline(always)]
fn counted(noted: &Noted, packet: Packet, head: &Head) -> Result<Batch, Reason>
    requires { CanCount packet head.now }
    ensures { (clock : Clock) (plan : SchedulePlanValue) (prefix : List EntryValue) → IsClockOf plan clock → HasNoted plan prefix noted.now → result ≡ counted_from_head clock plan prefix packet (Some head.now) }
{
    match &noted.clock {
        None => {
            let line = Line {
                base: head.instant,
                num: NANOSECONDS,
                den: u64::from(packet.rate),
            };
            Ok(samples_on(packet, line, head.first))
        }
        Some(clock) => match clock.line_for(head.instant, packet.rate) {
            // `offset` is the number that the packet's stamped sample has on `line`.
            ClockAnswer::OnLine { line, offset } => {
                Ok(samples_on(packet, line, offset as i64 + head.first))
            }
            ClockAnswer::NoClock => Err(Reason::NoClock),
        },
    }
}

fn timed_unit(unit: Unit) -> Batch
    requires { IsUnit unit }
    ensures { result ≡ unit_at_once unit }
{
    let Unit {
        frame,
        arrival: _,
        seq,
        instant,
        bytes,
    } = unit;
    Batch {
        frame,
        seq,
        line: Line {
            base: instant,
            num: 1,
            den: 1,
        },
        from: 0,
        count: 1,
        bytes,
    }
}

/// The batch that can be made of an item, or the first reason why none can be made. The reasons `Late`, `Repeat` and
/// `Full` are not checked here. `noted` was noted from the entries that are known when the item is judged.
#[tactic(auto, unfolding(crate::specs::Verdicts::timed))]
#[inline(always)]
pub fn timed(plan: &SchedulePlan, noted: &Noted, item: Item) -> Result<Batch, Reason>
    requires plan { IsPlan plan.now }
    requires item { IsItem item }
    ensures { (clock : Clock) (prefix : List EntryValue) → IsClockOf plan.now clock → HasNoted plan.now prefix noted.now → result ≡ timed_of clock plan.now prefix item }
{
    match item {
        Item::Packet(packet) => {
            if packet.tu {
                return Err(Reason::Uncertain);
            }
            if packet.count == 0 {
                return Err(Reason::Empty);
            }
            if packet.rate == 0 {
                return Err(Reason::NoRate);
            }
            match head_of(plan, noted, &packet) {
                Some(head) => counted(noted, packet, &head),
                None => Err(Reason::Untimed),
            }
        }
        Item::Unit(unit) => Ok(timed_unit(unit)),
        Item::Bad(bad) => Err(bad.reason),
    }
}
