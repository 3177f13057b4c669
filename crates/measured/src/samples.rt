//! Measures the printing of samples by itself.

ghost use Rattle.std.specs.Prelude.{◌≡◌, ◌+◌, ◌≤◌, ◌<◌, ◌^◌, All, OnSome, false, length};
ghost use Rattle.schedule_judge.specs.Judge.{IsIdle, Keeps, taken};
ghost use Rattle.sample_schedule.specs.Limits.{IsEntry};

use crate::judge::take;
use crate::stream::{Order, Stream};
use crate::timed::Timed;
use avtp_base::Failed;
use avtp_files::Sink;
use avtp_text::Text;
use sample_schedule::{Entry, SchedulePlan, Shown};
use schedule_judge::Judge;
use std::alloc::Global;
use std::collections::VecDeque;
use std::time::{Clock, Instant};

/// A sink that accepts all bytes, counts them, and keeps none.
#[derive(Drop)]
struct Counter {
    bytes: u64,
}

impl Sink for Counter {
    ghost use Rattle.std.specs.Prelude.{None};

    ghost state = { λ _. record { held = None; faults = 0 } };

    fn write(&mut self, piece: &[u8]) -> Result<usize, Failed> {
        self.bytes = self.bytes.saturating_add(piece.len() as u64);
        Ok(piece.len())
    }
}

/// Prints batches of six samples of four bytes each, several times. The batches are made before the measurement starts.
/// Returns the number of bytes of text.
pub fn samples<C: Clock>(clock: &C, alloc: Global, count: u32, times: u32) -> Option<Timed> {
    let batches = batches(alloc, count)?;
    let mut text = Text::new(alloc).ok()?;
    let mut counter = Counter { bytes: 0 };
    let start = Instant::now(clock).ok()?;
    for _ in 0..times {
        text.shown_list(&mut counter, batches.as_slice()).ok()?;
    }
    text.flush(&mut counter).ok()?;
    let nanoseconds = u64::try_from(start.elapsed(clock).ok()?.as_nanos()).ok()?;
    Some(Timed {
        count: counter.bytes,
        nanoseconds,
    })
}

/// The batches that are presented if `count` packets arrive in the order of their instants.
fn batches(alloc: Global, count: u32) -> Option<Vec<Shown>> {
    let stream = Stream {
        order: Order::Rising,
        waiting: 16,
        clock: false,
    };
    let plan = SchedulePlan {
        buffer: 65_536,
        room: 1 << 30,
        look: 0,
        lead: 2_000_000,
        clock: false,
        shift: 0,
    };
    let entries = stream.entries(alloc, count).ok()?;
    let mut judge = Judge::begin(alloc, plan).ok()?;
    let mut batches = Vec::new(alloc);
    present_all(&mut judge, entries, &mut batches)?;
    Some(batches)
}

/// Judges entries, and puts the items that are presented into `batches`.
fn present_all(judge: &mut Judge, entries: Vec<Entry>, batches: &mut Vec<Shown>) -> Option<()>
    requires open { judge.old.closed ≡ false }
    requires idle { IsIdle judge.old }
    requires none { taken judge.old ≡ 0 }
    requires entries { All IsEntry entries.items }
{
    let mut entries = VecDeque::from_vec(entries);
    while let Some(entry) = entries.pop_front() {
        take(judge, entry);
        keep_due(judge, batches)?;
    }
    judge.close();
    keep_due(judge, batches)
}

/// Takes all items that are due, and puts those that are presented into `batches`.
fn keep_due(judge: &mut Judge, batches: &mut Vec<Shown>) -> Option<()>
    ensures idle { OnSome result (IsIdle judge.new) }
    ensures keeps { Keeps judge.old judge.new }
{
    while let Some(shown) = judge.next_out() {
        batches.push(shown).ok()?;
    }
    Some(())
}
