//! The schedule of a stream, from one entry at a time.

ghost use Rattle.std.specs.Prelude.{◌≡◌, ℕ, [], true, false, List, length, Some, IfOk};
ghost use Rattle.sample_schedule.specs.declared.entry.Entry.{Entry as EntryValue};
ghost use Rattle.sample_schedule.specs.declared.entry.Entry.TheVariants.{Item as OfItem, Clock as OfClock};
ghost use Rattle.clock_track.specs.Limits.{IsNotable};
ghost use Rattle.clock_track.specs.Views.{row_of};
ghost use Rattle.time_unfold.specs.Time.{IsArrival};
ghost use Rattle.schedule_judge.specs.Judge.{Begins, Closes, GivesNext, IsIdle, IsReady, StandsFor, Takes};
ghost use Rattle.schedule_judge.specs.state.Judge.{CanTake, Puts, TakesAhead, Works, now_with};
ghost use Rattle.sample_schedule.specs.Laws.{IsBounded};
ghost use Rattle.sample_schedule.specs.Limits.{IsItem, IsPlan};
ghost use Rattle.schedule_judge.specs.state.Order.{starts_due};
ghost use Rattle.sample_schedule.specs.Schedule.{waiting};
ghost use Rattle.sample_schedule.specs.Verdicts.{Clock};

use crate::pending::Pending;
use crate::verdicts::verdict;
use crate::waiting_room::Waiting;
use avtp_base::NoMemory;
use circular_buffer::HeapCircularBuffer;
use clock_track::Points;
use sample_schedule::{Item, Noted, SchedulePlan, Shown};
use std::alloc::Global;
use std::marker::Model;

/// A judge takes the entries of a stream one at a time, in capture order. A judge shows each item of the stream once:
/// presented, or flagged with the first reason that holds.
///
/// An item is judged as soon as `look` later entries are known, so that its samples can be counted from the timestamp
/// of a later packet. A stamp is noted when its entry arrives, and the entry is judged when it leaves the delay line.
/// Before an entry is judged, everything that its arrival makes due is returned. Hence the judge holds only batches
/// whose instants have not passed. All memory is reserved when the judge is made.
pub struct Judge {
    plan: SchedulePlan,
    /// How many entries are judged.
    place: u64,
    /// The greatest arrival of the judged entries and of the current entry.
    time: i64,
    noted: Noted,
    /// The accepted batches, which wait for their instants.
    waiting: Waiting,
    /// The current entry. First, everything that the entry's arrival makes due is returned. The entry is judged after
    /// the due items were returned.
    current: Option<Pending>,
    /// The entries after the current one: the delay line.
    ahead: HeapCircularBuffer<Pending>,
    /// Whether the list of entries has ended.
    closed: bool,
}

// One call for the proofs of all owners, instead of the drops of the parts at each of their ends.
impl Drop for Judge {
    fn drop(self) {
        let Judge {
            plan: _,
            place: _,
            time: _,
            noted: _,
            waiting: _,
            current: _,
            ahead: _,
            closed: _,
        } = self;
    }
}

impl Model for Judge {
    ghost use Rattle.schedule_judge.specs.Judge.{JudgeState};
    ghost use Rattle.schedule_judge.specs.state.Judge.{IsSound};

    ghost Value = { JudgeState };

    ghost view = { λ judge. record { plan = judge.plan; place = judge.place; time = judge.time; noted = judge.noted; waiting = judge.waiting.list; current = judge.current; ahead = judge.ahead.items; closed = judge.closed } };

    ghost invariant = { λ judge. IsSound (record { plan = judge.plan; place = judge.place; time = judge.time; noted = judge.noted; waiting = judge.waiting.list; current = judge.current; ahead = judge.ahead.items; closed = judge.closed }) judge.ahead.capacity judge.waiting };
}

impl Judge {
    /// A judge that has taken no entries. Reserves all the memory that it needs, including some 4 MiB for a clock if
    /// the plan has one. No later call allocates.
    pub fn begin(alloc: Global, plan: SchedulePlan) -> Result<Self, NoMemory>
        requires { IsPlan plan }
        ensures { IfOk result (Begins plan) }
    {
        let noted = Noted::new(alloc, &plan)?;
        let waiting = Waiting::with_room(alloc, plan.buffer)?;
        let ahead = HeapCircularBuffer::with_capacity(alloc, plan.look as usize)?;
        Ok(Judge {
            plan,
            place: 0,
            time: 0,
            noted,
            waiting,
            current: None,
            ahead,
            closed: false,
        })
    }

    /// The entry, which has left the delay line, becomes the current one. If the entry arrived later than all entries
    /// before it, the judge's time becomes the entry's arrival.
    #[inline(always)]
    fn judge_next(&mut self, next: Pending)
        requires { CanTake next self.old }
        ensures { self.new ≡ record self.old { time = now_with self.old.time (Some next); current = Some next } }
    {
        self.time = self.time.max(next.arrival());
        self.current = Some(next);
    }

    /// Puts an entry into the delay line. If the delay line then has more entries than the look-ahead, its first entry
    /// becomes the current one.
    fn put_ahead(&mut self, pending: Pending)
        requires { CanTake pending self.old }
        ensures { Puts pending self.old self.new }
    {
        match self.ahead.push_back(pending) {
            Some(next) => self.judge_next(next),
            None => {}
        }
    }

    /// Puts an entry into the delay line. If the look-ahead is 0, the entry becomes the current one immediately.
    #[inline(always)]
    fn put(&mut self, pending: Pending)
        requires { CanTake pending self.old }
        ensures { Puts pending self.old self.new }
    {
        if self.plan.look == 0 {
            self.judge_next(pending);
        } else {
            self.put_ahead(pending);
        }
    }

    /// Takes the next item of the stream. All due items of the entries so far must have been returned, and the judge
    /// must not be closed. A judge must take at most 2^62 entries. Allocates nothing.
    #[inline(always)]
    pub fn step(&mut self, item: Item)
        requires ready { IsReady self.old }
        requires item { IsItem item }
        ensures { Takes (OfItem item) self.old self.new }
    {
        self.noted.note_item(&item);
        self.put(Pending::Item(item));
    }

    /// Takes a packet of the stream's clock, given its arrival and its timestamps. The packet is an entry that is never
    /// shown. The preconditions are those of `step`. If the plan has no clock, only the arrival counts. Allocates
    /// nothing.
    pub fn step_clock(&mut self, arrival: i64, points: &Points<'_>)
        requires ready { IsReady self.old }
        requires arrival { IsArrival arrival }
        requires points { IsNotable (row_of points.now) }
        ensures { Takes (OfClock arrival (row_of points.now)) self.old self.new }
    {
        self.noted.note_points(points);
        self.put(Pending::Clock { arrival });
    }

    /// Judges the current entry. A flag is returned; an accepted item waits for its instant.
    #[inline(always)]
    fn judge(&mut self) -> Option<Shown>
        requires { starts_due self.old.time self.old.waiting ≡ false }
        ensures { Works self.old result self.new }
    {
        let Some(pending) = self.current.take() else {
            return None;
        };
        let place = self.place;
        self.place += 1;
        match pending {
            Pending::Clock { arrival: _ } => None,
            Pending::Item(item) => {
                let frame = item.frame();
                let seq = item.seq();
                match verdict(
                    &self.plan,
                    self.time,
                    &self.waiting,
                    &self.noted,
                    place,
                    item,
                ) {
                    Ok(accepted) => {
                        self.waiting.put_behind(accepted);
                        None
                    }
                    Err(reason) => Some(Shown::Flag { frame, seq, reason }),
                }
            }
        }
    }

    /// Returns, one after another, the batches that the current entry makes due. After these batches, returns the
    /// entry's flag, if the entry has one.
    #[inline(always)]
    fn give_or_judge(&mut self) -> Option<Shown>
        ensures { Works self.old result self.new }
    {
        if self.current.is_none() {
            return None;
        }
        match self.waiting.take_due(self.time) {
            Some(first) => Some(first.present()),
            None => self.judge(),
        }
    }

    /// If the list has ended and the delay line has an entry, makes the line's first entry the current one, and returns
    /// true. Otherwise returns false.
    #[inline(always)]
    fn take_ahead(&mut self) -> bool
        requires { IsIdle self.old }
        ensures { TakesAhead self.old result self.new }
    {
        if !self.closed {
            return false;
        }
        match self.ahead.pop_front() {
            Some(next) => {
                self.judge_next(next);
                true
            }
            None => false,
        }
    }

    /// If the list has ended and all entries are judged, returns the first waiting batch.
    #[inline(always)]
    fn give_last(&mut self) -> Option<Shown>
        requires idle { IsIdle self.old }
        requires over { self.old.closed ≡ true → self.old.ahead ≡ [] }
        ensures { GivesNext self.old result self.new }
    {
        if !self.closed {
            return None;
        }
        let first = self.waiting.take_first()?;
        Some(first.present())
    }

    /// Returns the next of the items that are shown for the entries so far. Before `close`, only items that are due are
    /// returned; after `close`, all items. The result is `None` if and only if no item is left to return. Allocates
    /// nothing.
    pub fn next_out(&mut self) -> Option<Shown>
        ensures { GivesNext self.old result self.new }
    {
        loop {
            if let Some(shown) = self.give_or_judge() {
                return Some(shown);
            }
            if !self.take_ahead() {
                return self.give_last();
            }
        }
    }

    /// Ends the list of entries. All due items of the entries so far must have been returned. Allocates nothing.
    pub fn close(&mut self)
        requires open { self.old.closed ≡ false }
        requires idle { IsIdle self.old }
        ensures { Closes self.old self.new }
    {
        self.closed = true;
    }

    /// How many batches wait: at most the plan's `buffer`. The waiting batches together have at most `room` bytes. If
    /// nothing is due, the waiting batches are all batches that were accepted and not yet returned. After `close`, no
    /// batch waits once `next_out` has returned `None`.
    pub fn held(&self) -> u32
        ensures held { result ≡ length self.now.waiting }
        ensures bounded { IsBounded self.now.plan self.now.waiting }
        ensures accepted { (clock : Clock) (entries : List EntryValue) (given : ℕ) → StandsFor clock entries given self.now → self.now.closed ≡ false → IsIdle self.now → self.now.waiting ≡ waiting clock self.now.plan entries }
    {
        self.waiting.len() as u32
    }
}
