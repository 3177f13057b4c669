//! Two captures whose bytes are fed in pieces of any length.

ghost use Rattle.std.specs.Prelude.{◌≡◌, ◌+◌, ◌^◌, ◌≤◌, List, ℕ, length, Some, IfOk};
ghost use Rattle.std.specs.Result.{result_err};
ghost use Rattle.pcap_frames.specs.Reading.{taken};
ghost use Rattle.sample_schedule.specs.Limits.{IsPlan};
ghost use Rattle.listener.specs.Feeding.{is_memory};
ghost use Rattle.listener.specs.Heard.{schedule_plan};
ghost use Rattle.listener_pair.specs.Differences.{counts_of};
ghost use Rattle.capture_pair.specs.Feeding.{AreShort, Begins, Ends, Feeds, GivesNext, IsThrough, StandsFor, Wants, fed_of, known_by, wanted_by};
ghost use Rattle.capture_pair.specs.state.Fed.{EndedBy, EndedOn, FedBy, FedOn, IsBegun, IsBoundedOn, IsOpen, IsOpenOn};

use crate::sides::{fill_both, next_difference};
use crate::source::ByteSource;
use avtp_base::NoMemory;
use listener::{ListenFault, ListenPlan, Listener};
use listener_pair::{Difference, Matching, PairCounts, Which};
use std::alloc::Global;
use std::marker::Model;

/// Two listeners with the same plan, and the differences between what the listeners present. Each listener is fed the
/// bytes of one of two captures of a stream. The bytes of each capture are fed in their order, and only when `wants`
/// asks for them.
///
/// A `RecordPair` returns the same differences for the records of both captures. Items that a listener flags are
/// dropped, and do not end a side. Each capture must have at most 2^62 bytes.
pub struct Pair {
    a: ByteSource,
    b: ByteSource,
    matching: Matching,
}

// One call for the proofs of all owners, instead of the drops of the parts at each of their ends.
impl Drop for Pair {
    fn drop(self) {
        let Pair {
            a: _,
            b: _,
            matching: _,
        } = self;
    }
}

impl Model for Pair {
    ghost use Rattle.listener.specs.Feeding.{IsQuiet, is_ended};
    ghost use Rattle.capture_pair.specs.Feeding.{FedPair};
    ghost use Rattle.capture_pair.specs.state.Sides.{IsSettled};

    ghost Value = { FedPair };

    ghost view = { λ pair. record { a = pair.a.listener; b = pair.b.listener; matching = pair.matching } };

    ghost invariant = { λ pair. IsSettled (is_ended pair.a.listener) (is_ended pair.b.listener) (IsQuiet pair.a.listener) (IsQuiet pair.b.listener) pair.matching };
}

impl Pair {
    /// A pair before it is fed. The plan must be within the limits that `ListenPlan` names.
    pub fn begin(alloc: Global, plan: ListenPlan) -> Result<Self, NoMemory>
        requires plan { IsPlan (schedule_plan plan) }
        ensures { IfOk result (Begins plan) }
    {
        let a = begin_source(alloc, plan)?;
        let b = begin_source(alloc, plan)?;
        let matching = Matching::begin(alloc)?;
        Ok(Pair { a, b, matching })
    }

    /// The capture that must be fed or ended next. A capture qualifies if it has not ended and has no next batch. If
    /// both captures qualify, returns A. If no capture qualifies, returns `None`.
    pub fn wants(&self) -> Option<Which>
        ensures { Wants self.now result }
    {
        self.matching.wants()
    }

    /// Takes bytes of the wanted capture from the start of `piece`. Stops at the end of a record, or at the end of
    /// `piece`. Returns the number of bytes taken. At most 2^62 bytes of each capture may be taken.
    ///
    /// Without a fault, returns `Ok(0)` exactly if `piece` is empty. `Refused` is the capture's first refusal, and is
    /// returned as soon as the bytes taken so far are certain to be refused. A refusal does not end the side: the
    /// records before the refusal are still compared, and `end` ends the side. `Memory` is returned if there is no
    /// memory for the samples of a record. After `Memory` was returned, every `feed` and `end` of that side returns
    /// `Memory`.
    pub fn feed(&mut self, alloc: Global, which: Which, piece: &[u8]) -> Result<usize, ListenFault>
        requires wanted { wanted_by self.old ≡ Some which }
        requires bounded { taken (fed_of which self.old).reader + length piece.now ≤ 2 ^ 62 }
        ensures { Feeds which piece.now self.old self.new result }
    {
        let answer = feed_on(alloc, &mut self.a, &mut self.b, which, piece);
        fill_both(&mut self.a, &mut self.b, &mut self.matching);
        answer
    }

    /// Ends the capture that is wanted: no more bytes of it follow. Allocates nothing.
    ///
    /// If a field of the capture is cut off or refused, returns `Refused` for the first such field; the records before
    /// this field are compared. If `feed` has returned `Memory` for this side, returns `Memory`.
    pub fn end(&mut self, which: Which) -> Result<(), ListenFault>
        requires wanted { wanted_by self.old ≡ Some which }
        ensures { Ends which self.old self.new result }
    {
        let answer = end_on(&mut self.a, &mut self.b, which);
        fill_both(&mut self.a, &mut self.b, &mut self.matching);
        answer
    }

    /// Returns the next difference in the known part of the merged list; `None` if and only if that part has no further
    /// difference. The merged list has the batches that both listeners present. The known part is a prefix of this list
    /// that no later bytes can change. Until more is fed, only finitely many differences are returned. Allocates
    /// nothing.
    pub fn next_difference(&mut self) -> Option<Difference>
        ensures { GivesNext self.old self.new result }
    {
        next_difference(&mut self.a, &mut self.b, &mut self.matching)
    }

    /// Suppose that `next_difference` has returned `None`, and that neither `feed` nor `end` was called since then.
    /// Then the result is the counts of the known part. A batch that is not paired yet counts as presented by one side
    /// only.
    pub fn counts(&self) -> PairCounts
        ensures { IsThrough self.now → (bytes others : List ℕ) (given : ℕ) → AreShort bytes others → StandsFor bytes others given self.now → result ≡ counts_of (known_by self.now bytes others) }
    {
        self.matching.counts()
    }
}

/// A listener before it is fed.
fn begin_source(alloc: Global, plan: ListenPlan) -> Result<ByteSource, NoMemory>
    requires plan { IsPlan (schedule_plan plan) }
    ensures begun { IfOk result (IsBegun plan) }
{
    let listener = Listener::begin(alloc, plan)?;
    Ok(ByteSource {
        listener,
        ended: false,
        out_of_memory: false,
    })
}

/// Feeds a piece to the listener of a side.
fn feed_on(
    alloc: Global,
    a: &mut ByteSource,
    b: &mut ByteSource,
    which: Which,
    piece: &[u8],
) -> Result<usize, ListenFault>
    requires open { IsOpenOn which a.old.listener b.old.listener }
    requires bounded { IsBoundedOn which (length piece.now) a.old.listener b.old.listener }
    ensures { FedOn which piece.now result a.old.listener b.old.listener a.new.listener b.new.listener }
{
    match which {
        Which::A => feed_one(alloc, a, piece),
        Which::B => feed_one(alloc, b, piece),
    }
}

fn feed_one(alloc: Global, source: &mut ByteSource, piece: &[u8]) -> Result<usize, ListenFault>
    requires open { IsOpen source.old.listener }
    requires bounded { taken source.old.listener.reader + length piece.now ≤ 2 ^ 62 }
    ensures { FedBy piece.now result source.old.listener source.new.listener }
{
    let answer = source.listener.feed(alloc, piece);
    source.out_of_memory = is_out_of_memory(&answer);
    answer
}

/// Whether `answer` says that the listener ran out of memory.
fn is_out_of_memory(answer: &Result<usize, ListenFault>) -> bool
    ensures { result ≡ is_memory answer.now }
{
    match answer {
        Ok(_) => false,
        Err(ListenFault::Refused(_)) => false,
        Err(ListenFault::Memory) => true,
    }
}

/// Ends the capture of side `which`.
fn end_on(a: &mut ByteSource, b: &mut ByteSource, which: Which) -> Result<(), ListenFault>
    requires open { IsOpenOn which a.old.listener b.old.listener }
    ensures { EndedOn which (result_err result) a.old.listener b.old.listener a.new.listener b.new.listener }
{
    match which {
        Which::A => end_one(a),
        Which::B => end_one(b),
    }
}

fn end_one(source: &mut ByteSource) -> Result<(), ListenFault>
    requires open { IsOpen source.old.listener }
    ensures { EndedBy (result_err result) source.old.listener source.new.listener }
{
    if source.out_of_memory {
        return Err(ListenFault::Memory);
    }
    let answer = source.listener.end();
    source.ended = true;
    answer
}
