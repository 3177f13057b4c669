//! Two captures whose records are taken one at a time.

ghost use Rattle.std.specs.Prelude.{◌≡◌, ◌^◌, ◌<◌, List, ℕ, Some, IfOk, MatchResult};
ghost use Rattle.pcap_frames.specs.Capture.{Record};
ghost use Rattle.pcap_frames.specs.Reading.{shown};
ghost use Rattle.sample_schedule.specs.Limits.{IsPlan};
ghost use Rattle.time_unfold.specs.Time.{IsArrival};
ghost use Rattle.listener.specs.Heard.{schedule_plan};
ghost use Rattle.listener_pair.specs.Differences.{counts_of};
ghost use Rattle.capture_pair.specs.Pairing.{Begins, Closes, GivesNext, IsThrough, StandsFor, TakesRecord, Wants, known_by, listener_of, wanted_by};
ghost use Rattle.capture_pair.specs.state.Taking.{Closed, ClosedOn, IsBegun, IsQuiet, IsQuietOn, IsReady, IsReadyOn, Took, TookOn};

use crate::sides::{fill_both, next_difference};
use crate::source::RecordSource;
use avtp_base::NoMemory;
use listener::{ListenPlan, RecordListener};
use listener_pair::{Difference, Matching, PairCounts, Which};
use pcap_frames::RecordView;
use std::alloc::Global;
use std::marker::Model;

/// Two listeners that have the same plan, and the differences between what they present. The listeners are given the
/// records of two captures of a stream. The records of each capture are given in their order, and only when `wants`
/// asks for them.
///
/// A difference is returned as soon as both batches of its pair are in the known part of the merged list. Items that a
/// listener flags are dropped, and do not end a side. Memory is reserved when the pair is made. The samples of each
/// packet and each whole unit are copied once.
pub struct RecordPair {
    a: RecordSource,
    b: RecordSource,
    matching: Matching,
}

// One call for the proofs of all owners, instead of the drops of the parts at each of their ends.
impl Drop for RecordPair {
    fn drop(self) {
        let RecordPair {
            a: _,
            b: _,
            matching: _,
        } = self;
    }
}

impl Model for RecordPair {
    ghost use Rattle.std.specs.Prelude.{◌≤◌, ◌^◌};
    ghost use Rattle.listener.specs.Listening.{IsIdle as IsIdleListener, is_closed};
    ghost use Rattle.capture_pair.specs.Pairing.{PairState};
    ghost use Rattle.capture_pair.specs.state.Sides.{IsSettled};

    ghost Value = { PairState };

    ghost view = { λ pair. record { a = pair.a.listener; b = pair.b.listener; matching = pair.matching } };

    ghost invariant = { λ pair. IsSettled (is_closed pair.a.listener) (is_closed pair.b.listener) (IsIdleListener pair.a.listener) (IsIdleListener pair.b.listener) pair.matching
        × (pair.a.listener.counts.frames ≤ 2 ^ 61) × (pair.b.listener.counts.frames ≤ 2 ^ 61) };
}

impl RecordPair {
    /// A pair before its first record. The plan must be within the limits that `ListenPlan` names.
    pub fn begin(alloc: Global, plan: ListenPlan) -> Result<Self, NoMemory>
        requires plan { IsPlan (schedule_plan plan) }
        ensures { IfOk result (Begins plan) }
    {
        let a = begin_source(alloc, plan)?;
        let b = begin_source(alloc, plan)?;
        let matching = Matching::begin(alloc)?;
        Ok(RecordPair { a, b, matching })
    }

    /// The capture that must be given a record or closed next. A capture qualifies if it has not ended and has no next
    /// batch. If both captures qualify, returns A. If no capture qualifies, returns `None`.
    pub fn wants(&self) -> Option<Which>
        ensures { Wants self.now result }
    {
        self.matching.wants()
    }

    /// Takes the next record of the capture that is wanted. Before the call, fewer than 2^61 records of the wanted
    /// capture must have been taken. The record's time must be from 0 to 2^62 ns. If there is no memory for the
    /// packet's samples or the unit, returns `NoMemory`, and the pair is unchanged.
    pub fn take_record(
        &mut self,
        alloc: Global,
        which: Which,
        held: &RecordView<'_>,
    ) -> Result<(), NoMemory>
        requires wanted { wanted_by self.old ≡ Some which }
        requires few { (listener_of which self.old).counts.frames < 2 ^ 61 }
        requires time { IsArrival held.now.arrival }
        ensures { TakesRecord which (shown held.now) self.old self.new result }
    {
        take(alloc, &mut self.a, &mut self.b, which, held)?;
        fill_both(&mut self.a, &mut self.b, &mut self.matching);
        Ok(())
    }

    /// Ends the capture that is wanted: no record of it follows. Allocates nothing.
    pub fn close(&mut self, which: Which)
        requires wanted { wanted_by self.old ≡ Some which }
        ensures { Closes which self.old self.new }
    {
        close(&mut self.a, &mut self.b, which);
        fill_both(&mut self.a, &mut self.b, &mut self.matching);
    }

    /// Returns the next difference in the known part of the merged list; `None` if and only if that part has no further
    /// difference. The merged list has the batches that both listeners present. The known part is a prefix of the
    /// merged list, and no later records can change this prefix. Only finitely many differences are returned before
    /// another record is taken. Allocates nothing.
    pub fn next_difference(&mut self) -> Option<Difference>
        ensures { GivesNext self.old self.new result }
    {
        next_difference(&mut self.a, &mut self.b, &mut self.matching)
    }

    /// Suppose that `next_difference` has returned `None`, and that neither `take_record` nor `close` was called since
    /// then. Then the result is the counts of the known part. A batch that is not paired yet counts as presented by one
    /// side only.
    pub fn counts(&self) -> PairCounts
        ensures { IsThrough self.now → (records others : List Record) (given : ℕ) → StandsFor records others given self.now → result ≡ counts_of (known_by self.now records others) }
    {
        self.matching.counts()
    }
}

/// A listener before its first record.
fn begin_source(alloc: Global, plan: ListenPlan) -> Result<RecordSource, NoMemory>
    requires plan { IsPlan (schedule_plan plan) }
    ensures begun { IfOk result (IsBegun plan) }
{
    let listener = RecordListener::begin(alloc, plan)?;
    Ok(RecordSource {
        listener,
        closed: false,
    })
}

/// Gives a record to the listener of a side.
fn take(
    alloc: Global,
    a: &mut RecordSource,
    b: &mut RecordSource,
    which: Which,
    held: &RecordView<'_>,
) -> Result<(), NoMemory>
    requires ready { IsReadyOn which a.old.listener b.old.listener }
    requires time { IsArrival held.now.arrival }
    ensures { MatchResult result
        (λ ok. TookOn which (shown held.now) a.old.listener b.old.listener a.new.listener b.new.listener)
        (λ no_memory. (a.new ≡ a.old) × (b.new ≡ b.old)) }
{
    match which {
        Which::A => take_one(alloc, a, held),
        Which::B => take_one(alloc, b, held),
    }
}

fn take_one(alloc: Global, source: &mut RecordSource, held: &RecordView<'_>) -> Result<(), NoMemory>
    requires ready { IsReady source.old.listener }
    requires time { IsArrival held.now.arrival }
    ensures { MatchResult result
        (λ ok. Took (shown held.now) source.old.listener source.new.listener)
        (λ no_memory. source.new ≡ source.old) }
{
    source.listener.take_record(alloc, held)?;
    Ok(())
}

/// Closes the listener of a side.
fn close(a: &mut RecordSource, b: &mut RecordSource, which: Which)
    requires ready { IsQuietOn which a.old.listener b.old.listener }
    ensures { ClosedOn which a.old.listener b.old.listener a.new.listener b.new.listener }
{
    match which {
        Which::A => close_one(a),
        Which::B => close_one(b),
    }
}

fn close_one(source: &mut RecordSource)
    requires ready { IsQuiet source.old.listener }
    ensures { Closed source.old.listener source.new.listener }
{
    source.listener.close();
    source.closed = true;
}
