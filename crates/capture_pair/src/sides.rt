//! The matching of what two listeners show.

ghost use Rattle.std.specs.Prelude.{◌≡◌, ◌+◌, ◌≤◌, List, ℕ, Some, IfNone, length, slice_get};
ghost use Rattle.std.specs.Option.{option_to_list};
ghost use Rattle.sample_schedule.specs.declared.shown.Shown.{Shown as ShownValue};
ghost use Rattle.listener.specs.Laws.{presented_of};
ghost use Rattle.listener_pair.specs.Differences.{differences};
ghost use Rattle.listener_pair.specs.Merged.{known, merged};
ghost use Rattle.listener_pair.specs.Matching.{IsIdle, nexts_left, wanted};
ghost use Rattle.capture_pair.specs.Pairing.{Pairs};
ghost use Rattle.capture_pair.specs.state.Sides.{Filled, Fills, Holds, IsBounded, IsHeard, IsSettled, MatchesOn, Shrinks, ShrinksOn, StaysSettled, Taken, handed, is_passed, wants_side};

use crate::source::Source;
use listener_pair::{Difference, Matching, Which};
use sample_schedule::Shown;

/// Gives the matching the next item that the listener of the wanted side shows. A batch becomes the side's next batch,
/// and a flag is dropped. If there is no item and the listener has ended, the side ends. Returns whether the listener
/// must be asked again.
#[inline(always)]
fn hand_on(matching: &mut Matching, which: Which, next: Option<Shown>, ended: bool) -> bool
    requires { wanted matching.old ≡ Some which }
    ensures handed { matching.new ≡ handed which next ended matching.old }
    ensures again { result ≡ is_passed next }
{
    match next {
        Some(Shown::Present(batch)) => {
            matching.take(which, batch);
            false
        }
        Some(Shown::Flag { .. }) => true,
        None => {
            if ended {
                matching.end(which);
            }
            false
        }
    }
}

/// Whether side `which` is the one that is wanted.
#[inline(always)]
fn is_wanted(matching: &Matching, which: Which) -> bool
    ensures { result ≡ wants_side which (wanted matching.now) }
{
    match (matching.wants(), which) {
        (Some(Which::A), Which::A) | (Some(Which::B), Which::B) => true,
        _ => false,
    }
}

/// If side `which` is wanted, asks for its next batch, and gives this batch to the matching. If there is no further
/// batch and the listener has ended, the side ends.
fn fill<S: Source>(source: &mut S, matching: &mut Matching, which: Which)
    ensures filled { (taken : Taken) (list other : List ShownValue) (n k given : ℕ) → S.shows source.old taken list n → IsHeard list → IsHeard other → MatchesOn which list other n k given matching.old → Filled (S.shows source.new taken) which list other k given matching.new }
    ensures fills { Fills which (S.kept source.old).ended (S.is_quiet source.new) matching.old matching.new }
    ensures kept { S.kept source.new ≡ S.kept source.old }
    ensures shrinks { ShrinksOn which (S.work source.old) (S.work source.new) matching.old matching.new }
{
    if !is_wanted(matching, which) {
        return;
    }
    loop {
        let ended = source.has_ended();
        let spent = matching.take_spent(which);
        let next = source.next_out(spent);
        if !hand_on(matching, which, next, ended) {
            return;
        }
    }
}

/// Fills side A, then side B. A side that is not wanted stays as it is.
pub fn fill_both<S: Source>(a: &mut S, b: &mut S, matching: &mut Matching)
    requires bounded { IsBounded (S.kept a.old).ended (S.kept b.old).ended matching.old }
    ensures pairs { (ta tb : Taken) (list other : List ShownValue) (given : ℕ) → IsHeard list → IsHeard other → Holds (S.shows a.old ta) (S.shows b.old tb) list other given matching.old → Pairs (S.shows a.new ta) (S.shows b.new tb) list other given matching.new }
    ensures stays { StaysSettled (S.kept a.old) (S.kept a.new) (S.kept b.old) (S.kept b.new) (S.is_quiet a.new) (S.is_quiet b.new) matching.new }
    ensures shrinks { Shrinks (S.work a.old + S.work b.old) (S.work a.new + S.work b.new) matching.old matching.new }
{
    fill(a, matching, Which::A);
    fill(b, matching, Which::B);
}

/// Returns the next difference in the known part of the merged list; `None` if and only if that part has no further
/// difference. The merged list has the batches that both listeners present. The known part is a prefix of the merged
/// list, and no later input can change this prefix.
pub fn next_difference<S: Source>(
    a: &mut S,
    b: &mut S,
    matching: &mut Matching,
) -> Option<Difference>
    requires { IsSettled (S.kept a.old).ended (S.kept b.old).ended (S.is_quiet a.old) (S.is_quiet b.old) matching.old }
    ensures given { (ta tb : Taken) (list other : List ShownValue) (given : ℕ) → IsHeard list → IsHeard other → Pairs (S.shows a.old ta) (S.shows b.old tb) list other given matching.old
        → result ≡ slice_get (differences (known (S.kept a.old).ended (S.kept b.old).ended (merged (presented_of list) (presented_of other)))) given }
    ensures pairs { (ta tb : Taken) (list other : List ShownValue) (given : ℕ) → IsHeard list → IsHeard other → Pairs (S.shows a.old ta) (S.shows b.old tb) list other given matching.old
        → Pairs (S.shows a.new ta) (S.shows b.new tb) list other (given + length (option_to_list result)) matching.new }
    ensures stays { StaysSettled (S.kept a.old) (S.kept a.new) (S.kept b.old) (S.kept b.new) (S.is_quiet a.new) (S.is_quiet b.new) matching.new }
    ensures idle { IfNone result (IsIdle matching.new) }
    ensures less { ((S.work a.new + S.work b.new) + nexts_left matching.new) + length (option_to_list result) ≤ (S.work a.old + S.work b.old) + nexts_left matching.old }
{
    if matching.wants().is_some() {
        return None;
    }
    loop {
        let difference = matching.next_difference();
        let wanted = matching.wants();
        fill_both(a, b, matching);
        if difference.is_some() {
            return difference;
        }
        if wanted.is_none() {
            return None;
        }
        if matching.wants().is_some() {
            return None;
        }
    }
}
