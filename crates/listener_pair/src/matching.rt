//! Matches the batches of two listeners, one after another.

ghost use Rattle.std.specs.Prelude.{◌≡◌, ℕ, List, Option, Some, IfOk, IsSome};
ghost use Rattle.sample_schedule.specs.Batches.{Presented};
ghost use Rattle.listener_pair.specs.Pairs.{Paired};
ghost use Rattle.listener_pair.specs.Differences.{counts_of};
ghost use Rattle.listener_pair.specs.Matching.{Begins, Ends, GivesNext, IsIdle, StandsFor, Takes, given_to, known_of, wanted};
ghost use Rattle.listener_pair.specs.state.Window.{Advances, HasEntered, Tells, counted as counted_by, next_of, next_side};

use crate::difference::{Difference, PairCounts, Which};
use crate::placed::Entered;
use crate::timed::Timed;
use crate::window::{Waiting, enter};
use avtp_base::{Bytes, NoMemory};
use sample_schedule::Batch;
use std::alloc::Global;
use std::marker::Model;

/// Matches what two listeners present. A matching takes the batches of each listener, one at a time, and returns the
/// difference of each pair that differs. A difference is returned as soon as both batches of its pair are in the known
/// part of the merged list.
///
/// Memory is reserved when the matching is made. A batch is dropped when it is paired. A batch is also dropped when
/// none of the 512 batches after it was its partner.
pub struct Matching {
    next_a: Option<Timed>,
    next_b: Option<Timed>,
    ended_a: bool,
    ended_b: bool,
    /// The position of the next batch in the merged list. Positions are counted from 0.
    place: u64,
    waiting_a: Waiting,
    waiting_b: Waiting,
    counts: PairCounts,
}

// One call for the proofs of all owners, instead of the drops of the parts at each of their ends.
impl Drop for Matching {
    fn drop(self) {
        let Matching {
            next_a: _,
            next_b: _,
            ended_a: _,
            ended_b: _,
            place: _,
            waiting_a: _,
            waiting_b: _,
            counts: _,
        } = self;
    }
}

impl Model for Matching {
    ghost use Rattle.listener_pair.specs.Matching.{MatchingState};

    ghost Value = { MatchingState };

    ghost view = { λ m. record { next_a = m.next_a; next_b = m.next_b; ended_a = m.ended_a; ended_b = m.ended_b; place = m.place; waiting_a = m.waiting_a; waiting_b = m.waiting_b; counts = m.counts } };
}

impl Matching {
    /// A matching before its first batch. `begin` reserves all the memory that the matching needs.
    pub fn begin(alloc: Global) -> Result<Self, NoMemory>
        ensures { IfOk result Begins }
    {
        let waiting_a = Waiting::begin(alloc)?;
        let waiting_b = Waiting::begin(alloc)?;
        Ok(Matching {
            next_a: None,
            next_b: None,
            ended_a: false,
            ended_b: false,
            place: 0,
            waiting_a,
            waiting_b,
            counts: PairCounts::none(),
        })
    }

    /// The side that needs the next call of `take` or `end`. A side qualifies if it has not ended and has no next
    /// batch. If both sides qualify, returns A. If no side qualifies, returns `None`.
    pub fn wants(&self) -> Option<Which>
        ensures { result ≡ wanted self.now }
    {
        if !self.ended_a && self.next_a.is_none() {
            return Some(Which::A);
        }
        if !self.ended_b && self.next_b.is_none() {
            return Some(Which::B);
        }
        None
    }

    /// Takes the next batch of the side that is wanted. Allocates nothing.
    pub fn take(&mut self, which: Which, batch: Batch)
        requires { wanted self.old ≡ Some which }
        ensures { Takes which batch self.old self.new }
    {
        self.put(which, Timed::over(batch));
    }

    /// Notes that the wanted side presents no further batch. Allocates nothing.
    pub fn end(&mut self, which: Which)
        requires { wanted self.old ≡ Some which }
        ensures { Ends which self.old self.new }
    {
        match which {
            Which::A => self.ended_a = true,
            Which::B => self.ended_b = true,
        }
    }

    /// Returns the next difference in the known part of the merged list; `None` exactly if that part has no further
    /// difference. The known part is a prefix that no later batch can change. A call that returns a difference consumes
    /// at least one of the two next batches. Allocates nothing.
    pub fn next_difference(&mut self) -> Option<Difference>
        ensures { GivesNext self.old self.new result }
    {
        loop {
            let Some(side) = self.next_side() else {
                return None;
            };
            let difference = self.step(side);
            if difference.is_some() {
                return difference;
            }
        }
    }

    /// Suppose that `next_difference` has returned `None`, and that neither `take` nor `end` was called since then.
    /// Then the result is the counts of the known part. A batch that is not paired yet counts as in no pair.
    pub fn counts(&self) -> PairCounts
        ensures { IsIdle self.now → (xs ys : List Presented) (given : ℕ) → StandsFor xs ys given self.now → result ≡ counts_of (known_of self.now xs ys) }
    {
        self.counts
    }

    /// Returns the memory of one paired or dropped batch of side `which`, so that the memory can be used again. Returns
    /// `None` if no memory of a paired or dropped batch of that side is kept.
    pub fn take_spent(&mut self, which: Which) -> Option<Bytes>
        ensures { self.new ≡ self.old }
    {
        match which {
            Which::A => self.waiting_a.take_spent(),
            Which::B => self.waiting_b.take_spent(),
        }
    }

    /// Makes `batch` the next batch of side `which`.
    fn put(&mut self, which: Which, batch: Timed)
        ensures { self.new ≡ given_to which batch self.old }
    {
        match which {
            Which::A => self.next_a = Some(batch),
            Which::B => self.next_b = Some(batch),
        }
    }

    /// The side of the next batch of the known part; `None` if that part has no further batch.
    fn next_side(&self) -> Option<Which>
        ensures { result ≡ next_side self.now }
    {
        if self.wants().is_some() {
            return None;
        }
        match (&self.next_a, &self.next_b) {
            (Some(a), Some(b)) => Some(if b.instant() < a.instant() {
                Which::B
            } else {
                Which::A
            }),
            (Some(_), None) => Some(Which::A),
            (None, Some(_)) => Some(Which::B),
            (None, None) => None,
        }
    }

    /// Pairs the next batch of a side, or adds it to the batches that wait for a partner.
    fn enter(&mut self, side: Which) -> Entered
        requires { IsSome (next_of side self.old) }
        ensures { HasEntered side self.old self.new result }
    {
        let place = self.place;
        match side {
            Which::A => enter(
                side,
                place,
                &mut self.next_a,
                &mut self.waiting_a,
                &mut self.waiting_b,
            ),
            Which::B => enter(
                side,
                place,
                &mut self.next_b,
                &mut self.waiting_b,
                &mut self.waiting_a,
            ),
        }
    }

    /// Takes the next batch of the known part. The next batch must be of side `side`. If the batch makes a pair that
    /// differs, returns the difference.
    fn step(&mut self, side: Which) -> Option<Difference>
        requires { next_side self.old ≡ Some side }
        ensures { Advances self.old self.new result }
    {
        let entered = self.enter(side);
        self.place = self.place.saturating_add(1);
        self.counts = counted(self.counts, side, &entered);
        entered.difference
    }
}

/// The counts after a batch of a side was paired or began to wait for a partner, as `entered` says.
fn counted(counts: PairCounts, side: Which, entered: &Entered) -> PairCounts
    ensures { (pair : Option Paired) → Tells pair entered.now → result ≡ counted_by side pair counts }
{
    if entered.paired {
        counts.with_pair(side, entered.difference.is_some())
    } else {
        counts.with_alone(side)
    }
}
