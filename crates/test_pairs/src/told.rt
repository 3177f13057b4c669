//! The plan of two listeners, and the texts of differences and counts in the rows of a table.

ghost use Rattle.sample_schedule.specs.Limits.{IsPlan};
ghost use Rattle.listener.specs.Heard.{schedule_plan};

use listener::ListenPlan;
use listener_pair::{Difference, PairCounts};
use std::alloc::{AllocError, Global};

/// A plan for the stream of the first vector.
pub fn plan() -> ListenPlan
    ensures { IsPlan (schedule_plan result) }
{
    ListenPlan {
        stream: 0x0200_0000_0001_0001,
        clock: None,
        buffer: 8,
        room: 192,
        look: 0,
        lead: 2_000_000,
        shift: 0,
    }
}

/// A difference as text: the numbers of both frames, the sequence number, and how the batches differ.
pub fn difference_text(alloc: Global, difference: Difference) -> Result<String, AllocError> {
    let Difference {
        frame_a,
        frame_b,
        seq,
        way,
    } = difference;
    format!(in alloc; "{frame_a} {frame_b} seq {seq} {way:?}, ")
}

/// How many pairs there are, how many batches of A and of B are in no pair, and how many pairs differ.
pub fn counts_text(alloc: Global, counts: PairCounts) -> Result<String, AllocError> {
    let PairCounts {
        matched,
        only_a,
        only_b,
        differ,
    } = counts;
    format!(in alloc; "matched {matched} only {only_a} {only_b} differ {differ}")
}
