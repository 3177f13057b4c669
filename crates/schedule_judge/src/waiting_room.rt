//! Accepted batches that wait for their instants.

ghost use Rattle.std.specs.Prelude.{◌≡◌, ◌+◌, ◌^◌, ◌<◌, false, length, IfOk};
ghost use Rattle.std.specs.List.{list_any};
ghost use Rattle.schedule_judge.specs.state.Order.{starts_due};
ghost use Rattle.sample_schedule.specs.Verdicts.{is_copy as is_copy_of, is_full as is_full_of, total_bytes};

use avtp_base::NoMemory;
use sample_schedule::{Accepted, SchedulePlan};
use slab::Slab;
use sorted_keys::{Key, SortedKeys};
use std::alloc::Global;
use std::marker::Model;

#[inline(always)]
fn sequence_number(accepted: &Accepted) -> u8
    ensures { result ≡ accepted.now.batch.seq }
{
    accepted.batch.seq
}

/// The number of sample bytes of an accepted item.
#[inline(always)]
fn size(accepted: &Accepted) -> u64
    ensures { result ≡ length accepted.now.batch.bytes }
{
    accepted.batch.bytes.as_slice().len() as u64
}

/// Accepted batches that wait for their instants, sorted by first instant and then by index. Only small keys are
/// sorted: the batches themselves stay in slots and are not moved while they wait.
#[derive(Drop)]
pub struct Waiting {
    keys: SortedKeys,
    batches: Slab<Accepted>,
    /// The number of bytes of all waiting batches.
    bytes: u64,
}

impl Model for Waiting {
    ghost use Rattle.std.specs.Prelude.{min};
    ghost use Rattle.schedule_judge.specs.Waiting.{Held};
    ghost use Rattle.schedule_judge.specs.state.Waiting.{IsWaiting, held};

    ghost Value = { Held };

    ghost view = { λ w. record { list = held w.batches w.keys.list; room = min w.keys.room w.batches.capacity } };

    ghost invariant = { λ w. IsWaiting w.keys.list w.batches w.bytes };
}

impl Waiting {
    ghost use Rattle.schedule_judge.specs.state.Waiting.{HandsDue, HandsFirst, HasPlace, IsEmptyRoom, PutsBehind};

    /// An empty waiting room. Reserves the memory for this many batches.
    pub fn with_room(alloc: Global, batches: u32) -> Result<Self, NoMemory>
        ensures { IfOk result (IsEmptyRoom batches) }
    {
        let keys = SortedKeys::with_room(alloc, batches)?;
        let batches = Slab::with_capacity(alloc, batches as usize)?;
        Ok(Waiting {
            keys,
            batches,
            bytes: 0,
        })
    }

    /// How many batches wait.
    pub fn len(&self) -> usize
        ensures { result ≡ length self.now.list }
    {
        self.batches.len()
    }

    /// The number of bytes of all waiting batches.
    pub fn bytes(&self) -> u64
        ensures { result ≡ total_bytes self.now.list }
    {
        self.bytes
    }

    /// Whether one of the waiting batches has this first instant and this sequence number.
    #[inline(always)]
    pub fn has_copy(&self, instant: i64, seq: u8) -> bool
        ensures { result ≡ list_any (is_copy_of instant seq) self.now.list }
    {
        self.keys.has(instant, seq)
    }

    /// Whether the buffer holds the maximum number of batches, or `size` more bytes would exceed its room.
    #[inline(always)]
    pub fn is_full(&self, plan: &SchedulePlan, size: usize) -> bool
        ensures full { result ≡ is_full_of plan.now self.now.list size }
        ensures place { result ≡ false → HasPlace plan.now self.now.list size }
    {
        self.len() >= plan.buffer as usize
            || self.bytes().saturating_add(size as u64) > u64::from(plan.room)
    }

    /// Puts a batch after all batches with earlier or equal first instants. Allocates nothing.
    #[inline(always)]
    pub fn put_behind(&mut self, accepted: Accepted)
        requires room { length self.old.list < self.old.room }
        requires bytes { total_bytes self.old.list + length accepted.batch.bytes < 2 ^ 64 }
        ensures { PutsBehind self.old accepted self.new }
    {
        let instant = accepted.instant;
        let seq = sequence_number(&accepted);
        self.bytes += size(&accepted);
        let slot = self.batches.insert_reserved(accepted);
        self.keys.put(Key { instant, seq, slot });
    }

    /// Whether there is a first batch and its instant is before `now`.
    #[inline(always)]
    pub fn is_due(&self, now: i64) -> bool
        ensures { result ≡ starts_due now self.now.list }
    {
        match self.keys.first() {
            Some(first) => first.instant < now,
            None => false,
        }
    }

    /// Removes and returns the first batch.
    #[inline(always)]
    pub fn take_first(&mut self) -> Option<Accepted>
        ensures { HandsFirst self.old result self.new }
    {
        let Some(key) = self.keys.take_first() else {
            return None;
        };
        let first = self.batches.remove(key.slot);
        self.bytes -= size(&first);
        Some(first)
    }

    /// If the instant of the first batch is before `now`, removes and returns the batch.
    #[inline(always)]
    pub fn take_due(&mut self, now: i64) -> Option<Accepted>
        ensures { HandsDue now self.old result self.new }
    {
        if self.is_due(now) {
            self.take_first()
        } else {
            None
        }
    }
}
