//! What a listener shows, from one record of a capture at a time.

ghost use Rattle.std.specs.Prelude.{◌≡◌, ◌^◌, ◌<◌, false, None, IfOk};
ghost use Rattle.pcap_frames.specs.Reading.{shown};
ghost use Rattle.schedule_judge.specs.Judge.{IsIdle as IsIdleJudge};
ghost use Rattle.sample_schedule.specs.Limits.{IsPlan};
ghost use Rattle.time_unfold.specs.Time.{IsArrival};
ghost use Rattle.listener.specs.Heard.{schedule_plan};
ghost use Rattle.listener.specs.Listening.{Begins, Ends, GivesNext, HoldsWaiting, IsIdle, TakesRecord, is_closed};
ghost use Rattle.listener.specs.state.Listening.{CanJudge, CanTake, Closes, HasTaken, JudgesNext, ShowsNext};
ghost use Rattle.listener.specs.state.Views.{delivery_shape};

use crate::buffer_pool::BufferPool;
use crate::clock::clock_points;
use crate::delivery::delivery_of;
use crate::delivery_view::DeliveryView;
use crate::heard::Counts;
use crate::item::item_of;
use crate::plan::ListenPlan;
use crate::units::Units;
use avtp_base::{Bytes, NoMemory};
use avtp_header::subtype;
use pcap_frames::RecordView;
use sample_schedule::Shown;
use schedule_judge::Judge;
use std::alloc::Global;
use std::marker::Model;

/// A listener that takes a capture's records one at a time, in the capture's order. A listener shows each item of the
/// stream once: presented, or flagged with the first reason why it is not presented. The listener shows an item as soon
/// as no later record can change the result.
///
/// After each record, and after `close`, the caller calls `next_out` to take all items that are due. One record can
/// yield as many as 4,097 items, because it can end a unit of H.264 that is not whole. `next_out` judges the queued
/// items one after another. Memory for the listener's state is reserved when the listener is made. Later each packet's
/// samples, and each whole unit, are copied once, into the batch that is shown.
pub struct RecordListener {
    plan: ListenPlan,
    units: Units,
    judge: Judge,
    ended: bool,
    /// Whether the judge was closed.
    closed: bool,
    /// If true, all due items were returned; since then, the listener has taken no record of the stream or of its
    /// clock, and was not closed. While `idle` is true, for example after a record of another stream, the judge is not
    /// called.
    idle: bool,
    counts: Counts,
    pool: BufferPool,
}

// One call for the proofs of all owners, instead of the drops of the parts at each of their ends.
impl Drop for RecordListener {
    fn drop(self) {
        let RecordListener {
            plan: _,
            units: _,
            judge: _,
            ended: _,
            closed: _,
            idle: _,
            counts: _,
            pool: _,
        } = self;
    }
}

impl Model for RecordListener {
    ghost use Rattle.std.specs.Prelude.{◌≡◌, true};
    ghost use Rattle.listener.specs.Listening.{ListenState};
    ghost use Rattle.listener.specs.state.Listening.{IsSound, Rests};

    ghost Value = { ListenState };

    ghost view = { λ listener. record { plan = listener.plan; units = listener.units; judge = listener.judge; ended = listener.ended; counts = listener.counts } };

    // The counts do not overflow. There is a list of at most 2^62 records that leads to the listener's state, and the
    // listener shows at most one item per record.
    ghost invariant = { λ listener. IsSound (record { plan = listener.plan; units = listener.units; judge = listener.judge; ended = listener.ended; counts = listener.counts }) × (listener.closed ≡ listener.judge.closed)
        × (listener.idle ≡ true → Rests (record { plan = listener.plan; units = listener.units; judge = listener.judge; ended = listener.ended; counts = listener.counts })) };
}

impl RecordListener {
    /// A new listener. The plan must be within the limits that `ListenPlan` names.
    pub fn begin(alloc: Global, plan: ListenPlan) -> Result<Self, NoMemory>
        requires plan { IsPlan (schedule_plan plan) }
        ensures { IfOk result (Begins plan) }
    {
        let pool = BufferPool::new(alloc)?;
        let units = Units::new(alloc)?;
        let judge = Judge::begin(alloc, plan.schedule_plan())?;
        Ok(RecordListener {
            plan,
            units,
            judge,
            ended: false,
            closed: false,
            idle: false,
            counts: Counts::none(),
            pool,
        })
    }

    /// Takes the next record. Before the call, all due items of the earlier records must have been returned, and fewer
    /// than 2^62 records must have been taken. The listener must not be closed. The record's time must be from 0 to
    /// 2^62 ns.
    ///
    /// If a record belongs neither to the stream nor to its clock, the record is counted and skipped. Returns
    /// `NoMemory` if there is no memory for the packet's samples or the unit; the listener is then unchanged.
    pub fn take_record(&mut self, alloc: Global, held: &RecordView<'_>) -> Result<(), NoMemory>
        requires open { is_closed self.old ≡ false }
        requires idle { IsIdle self.old }
        requires few { self.old.counts.frames < 2 ^ 62 }
        requires time { IsArrival held.now.arrival }
        ensures { TakesRecord (shown held.now) self.old self.new result }
    {
        match delivery_of(&self.plan, self.counts.frames + 1, held) {
            None => {
                self.counts = self.counts.with_record(false);
                Ok(())
            }
            Some(delivery) => {
                take_delivery(
                    alloc,
                    &mut self.pool,
                    &mut self.units,
                    &mut self.judge,
                    &delivery,
                )?;
                self.idle = false;
                self.counts = self.counts.with_record(delivery.subtype != subtype::CRF);
                Ok(())
            }
        }
    }

    /// The next item that is shown of the records so far. Before `close`, only items that are due are returned; after
    /// `close`, all items. Returns `None` if and only if no item is left to return. If the talker keeps the rules,
    /// `listener_laws::records_are_given_truly` applies to the items that are returned. Allocates nothing.
    #[inline(always)]
    pub fn next_out(&mut self) -> Option<Shown>
        ensures { GivesNext self.old self.new result }
    {
        if self.idle {
            return None;
        }
        let next = next_shown(
            &mut self.units,
            &mut self.judge,
            self.ended,
            &mut self.closed,
        );
        match &next {
            Some(shown) => self.counts = self.counts.with_shown(shown),
            None => self.idle = !self.ended,
        }
        next
    }

    /// Puts the next item that is shown into `next`, which must be empty. Usually there is no item; then nothing is
    /// moved.
    #[inline(always)]
    pub(crate) fn put_next(&mut self, next: &mut Option<Shown>)
        requires { next.old ≡ None }
        ensures { GivesNext self.old self.new next.new }
    {
        if self.idle {
            return;
        }
        if let Some(shown) = self.next_out() {
            *next = Some(shown);
        }
    }

    /// Takes back the memory of samples that were shown. The samples of later packets are copied into this memory
    /// before more is allocated. At most 64 buffers of samples are kept for reuse; the memory of further buffers is
    /// freed. May be called at any time. Allocates nothing.
    #[inline(always)]
    pub fn give_back(&mut self, samples: Bytes)
        ensures { self.new ≡ self.old }
    {
        self.pool.give_back(samples);
    }

    /// Ends the list of records. All due items of the records so far must have been returned. Allocates nothing.
    pub fn close(&mut self)
        requires open { is_closed self.old ≡ false }
        requires idle { IsIdle self.old }
        ensures { Ends self.old self.new }
    {
        self.units.end();
        self.ended = true;
        self.idle = false;
    }

    /// How many batches wait for their presentation time: at most the plan's `buffer`. The waiting batches together
    /// have at most `room` bytes.
    pub fn held(&self) -> u32
        ensures { HoldsWaiting result self.now }
    {
        self.judge.held()
    }

    /// How many records were taken so far, how many of them belong to the stream, and how many batches and flags were
    /// shown.
    pub fn counts(&self) -> Counts
        ensures { result ≡ self.now.counts }
    {
        self.counts
    }
}

/// Takes a delivery. A delivery of the clock gives its timestamps to the judge. The judge gets the first item that a
/// delivery of the stream yields, and any further items are queued.
#[inline(always)]
fn take_delivery(
    alloc: Global,
    pool: &mut BufferPool,
    units: &mut Units,
    judge: &mut Judge,
    delivery: &DeliveryView<'_>,
) -> Result<(), NoMemory>
    requires ready { CanTake units.old judge.old }
    ensures { HasTaken (delivery_shape delivery.now) units.old units.new judge.old judge.new result }
{
    if delivery.subtype == subtype::CRF {
        judge.step_clock(delivery.arrival, &clock_points(delivery.packet));
    } else {
        if let Some(first) = units.take_delivery(alloc, pool, delivery)? {
            judge.step(first);
        }
    }
    Ok(())
}

/// The next item that is shown. Queued items are judged one after another until an item is due. If no item is queued
/// and no more records follow, the judge is closed.
#[inline(always)]
fn next_shown(units: &mut Units, judge: &mut Judge, ended: bool, closed: &mut bool) -> Option<Shown>
    requires { CanJudge ended closed.old units.old judge.old }
    ensures { ShowsNext ended closed.new units.old units.new judge.old judge.new result }
{
    loop {
        let next = judge.next_out();
        if next.is_some() {
            return next;
        }
        if !judge_next(units, judge, ended, closed) {
            return None;
        }
    }
}

/// Gives the next queued item to the judge. If no item is queued and no more records follow, closes the judge. Returns
/// whether one of two things was done: an item was given to the judge, or the judge was closed.
#[inline(always)]
fn judge_next(units: &mut Units, judge: &mut Judge, ended: bool, closed: &mut bool) -> bool
    requires idle { IsIdleJudge judge.old }
    requires ready { CanJudge ended closed.old units.old judge.old }
    ensures { JudgesNext ended result closed.new units.old units.new judge.old judge.new }
{
    match units.next() {
        Some(item) => {
            judge.step(item);
            true
        }
        None => close_ended(judge, ended, closed),
    }
}

/// Closes the judge if no more records follow and the judge is still open. Returns whether this call closed the judge.
fn close_ended(judge: &mut Judge, ended: bool, closed: &mut bool) -> bool
    requires idle { IsIdleJudge judge.old }
    requires closed { closed.old ≡ judge.old.closed }
    ensures { Closes ended result closed.new judge.old judge.new }
{
    if !ended || *closed {
        return false;
    }
    judge.close();
    *closed = true;
    true
}
