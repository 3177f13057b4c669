//! Laws of schedules, whatever the clock answers. Each call only states its contract, and does nothing.

ghost use Rattle.std.specs.Prelude.{◌≡◌, ◌≤◌, ◌≤ℤ◌, ◌+◌, ◌++◌, ◌∷◌, [], List, ℕ, ℤ, Some, length, slice_get};
ghost use Rattle.std.specs.List.{list_any};
ghost use mathlib.Core.List.{IsPrefix};
ghost use Rattle.clock_track.specs.Limits.{IsClockLine};
ghost use Rattle.clock_track.specs.PairLines.{Spot};
ghost use Rattle.time_unfold.specs.declared.head_rule.Head.{Head};
ghost use Rattle.sample_schedule.specs.declared.accepted.Accepted.{Accepted};
ghost use Rattle.sample_schedule.specs.declared.item.Packet.{Packet};
ghost use Rattle.sample_schedule.specs.Batches.{IsPresentable};
ghost use Rattle.sample_schedule.specs.Limits.{IsPacket};
ghost use Rattle.sample_schedule.specs.Reach.{IsCountable};
ghost use Rattle.sample_schedule.specs.declared.entry.Entry.{Entry};
ghost use Rattle.sample_schedule.specs.declared.item.Item.{Item};
ghost use Rattle.sample_schedule.specs.declared.plan.SchedulePlan.{SchedulePlan};
ghost use Rattle.sample_schedule.specs.Laws.{IsBefore, IsBounded, IsNoCopy, Pairwise, given_by, presented, shown_at, times_due, times_shown, verdict_in, waiting_at};
ghost use Rattle.sample_schedule.specs.Order.{between, by_instant, due_of, left_of, standing};
ghost use Rattle.sample_schedule.specs.Schedule.{accepted, due, given, settled, shown, steps, waiting};
ghost use Rattle.sample_schedule.specs.Verdicts.{Clock, is_copy, moved, samples_at};

/// Whenever an entry is judged, at most `buffer` batches wait, and they have at most `room` bytes together.
pub fn waiting_is_bounded()
    ensures { (clock : Clock) (plan : SchedulePlan) (entries : List Entry) (i : ℕ) → IsBounded plan (waiting_at clock plan entries i) }
{}

/// All accepted items and no others are presented, sorted by first instant and then by index.
pub fn accepted_are_presented()
    ensures { (clock : Clock) (plan : SchedulePlan) (entries : List Entry) → presented (given clock plan entries) ≡ by_instant (accepted clock plan entries (length entries)) }
{}

/// Each item is shown exactly once, presented or flagged. A packet of the clock is never shown.
pub fn each_item_is_shown_once()
    ensures { (clock : Clock) (plan : SchedulePlan) (entries : List Entry) (i : ℕ) → times_shown clock plan entries i ≡ times_due (slice_get entries i) }
{}

/// Each item is shown as its verdict says, and in no other way: an accepted item is presented, and any other item is
/// flagged with its reason.
pub fn each_item_is_shown_as_judged()
    ensures { (clock : Clock) (plan : SchedulePlan) (entries : List Entry) (i : ℕ) (item : Item) → slice_get entries i ≡ Some (Entry.Item item) → shown_at i (given clock plan entries) ≡ given_by i item (verdict_in clock plan entries i item) ∷ [] }
{}

/// First instants of the presented batches never decrease, and batches with equal first instants are in the order of
/// the items.
pub fn presented_in_order()
    ensures { (clock : Clock) (plan : SchedulePlan) (entries : List Entry) → Pairwise IsBefore (presented (given clock plan entries)) }
{}

/// No two presented batches have both the same first instant and the same sequence number: a copy of an accepted packet
/// is never presented.
pub fn copies_are_not_presented()
    ensures { (clock : Clock) (plan : SchedulePlan) (entries : List Entry) → Pairwise IsNoCopy (presented (given clock plan entries)) }
{}

/// Due items stay due when the list grows: the due items of the longer list begin with those of the shorter list.
pub fn due_stays()
    ensures { (clock : Clock) (plan : SchedulePlan) (entries more : List Entry) → IsPrefix (due clock plan entries) (due clock plan (entries ++ more)) }
{}

/// If the list ends, the items that are shown of the list begin with the items that were due before the end.
pub fn due_is_shown_first()
    ensures { (clock : Clock) (plan : SchedulePlan) (entries : List Entry) → IsPrefix (due clock plan entries) (shown clock plan entries) }
{}

/// Each accepted item of the judged entries was presented or waits. The waiting batches are within the buffer and its
/// room. At most `look` entries are not judged.
pub fn what_is_not_due_waits()
    ensures accepted { (clock : Clock) (plan : SchedulePlan) (entries : List Entry) → presented (steps clock plan entries (settled plan entries)) ++ waiting clock plan entries ≡ by_instant (accepted clock plan entries (settled plan entries)) }
    ensures bounded { (clock : Clock) (plan : SchedulePlan) (entries : List Entry) → IsBounded plan (waiting clock plan entries) }
    ensures unjudged { (plan : SchedulePlan) (entries : List Entry) → length entries ≤ settled plan entries + plan.look }
{}

/// If a copy arrives in time, the item that it repeats still waits. Hence a search among the waiting items finds the
/// repeated item if and only if a search among all accepted items finds it.
pub fn copies_wait()
    ensures { (now instant : ℤ) (seq : ℕ) (earlier : List Accepted) → now ≤ℤ instant → list_any (is_copy instant seq) (standing now earlier) ≡ list_any (is_copy instant seq) earlier }
{}

/// As time moves on, the waiting batches split into a prefix that is due and a suffix that still waits.
pub fn what_waits_is_due_or_held()
    ensures due { (from to : ℤ) (earlier : List Accepted) → due_of to (by_instant (standing from earlier)) ≡ by_instant (between from to earlier) }
    ensures held { (from to : ℤ) (earlier : List Accepted) → from ≤ℤ to → left_of to (by_instant (standing from earlier)) ≡ by_instant (standing to earlier) }
{}

/// If the clock covers the head of a packet, the packet can be presented: its samples, counted from the head on the
/// clock's line, are within the limits that hold for every batch.
pub fn clock_lines_can_be_presented()
    ensures { (p : Packet) (head : Head) (spot : Spot) → IsPacket p → 1 ≤ p.count → IsCountable head → IsClockLine p.rate head.instant spot → IsPresentable (samples_at p (moved head.first spot)) }
{}
