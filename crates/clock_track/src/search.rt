//! The search for the pair of points that covers an instant.

ghost use Rattle.std.specs.Prelude.{IsSome, IsTrue, None, if◌then◌else◌, ◌≡◌, ◌<◌, ◌≤◌, ◌+◌, ◌-◌, ◌*◌, ◌/◌, ◌^◌, ℕ, ℤ, IfSome, List, Some, filter, length, slice_get, true};
ghost use Rattle.std.specs.List.{filter_map, range_with_len};
ghost use Rattle.time_unfold.specs.Stamps.{find_last};
ghost use Rattle.clock_track.specs.declared.clock_row.ClockRow.{ClockRow as ClockRowValue};
ghost use Rattle.clock_track.specs.Rows.{across as across_rows, inside as inside_row, joined_by, pairs_at, seems_next as seems_next_of, timestamp as timestamp_of, timestamps as timestamps_of, used};
ghost use Rattle.clock_track.specs.state.Bounds.{AreGroups, EndsGroup, HasInside, HasPairs, IsOutside};
ghost use Rattle.clock_track.specs.state.Search.{ArePoints, AreSearched, IsJoinedOf, IsLatestOf, IsPairOf, kept, test_of};
ghost use Rattle.clock_track.specs.Views.{row_of};

use crate::bounds::{Bounds, excludes, no_bounds, widened, widened_by};
use crate::clock_row::Points;
use crate::pair::Pair;
use crate::pull::{pull_down, pull_up};
use crate::query::{Query, Usable};
use avtp_base::octets::u64_at;

/// The number of pairs inside a packet that share one `Bounds`.
const GROUP: usize = 32;

/// A timestamp of this value or more is not a point.
const POINTS_END: u64 = 1 << 62;

/// The packets of a clock, which are read by index. The oldest packet has index 0.
pub trait Rows {
    ghost rows: { Self → List ClockRowValue };

    /// If this shift is added to the timestamps, the packets' pairs are within the known bounds.
    ghost bounded: { Self → ℤ → Type 0 };

    fn count(&self) -> usize
        ensures { result ≡ length (rows self.now) };

    fn row(&self, place: usize) -> Points<'_>
        requires { place < length (rows self.now) }
        ensures { slice_get (rows self.now) place ≡ Some (row_of result) };

    /// Bounds of the pairs whose later point is in the packet at index `place`; `None` if no bounds are known.
    fn bounds(&self, place: usize) -> Option<Bounds>
        requires { place < length (rows self.now) }
        ensures { (shift : ℤ) (row : ClockRowValue) → bounded self.now shift → slice_get (rows self.now) place ≡ Some row → IfSome result (HasPairs shift row) };

    /// The bounds of each group of 32 pairs inside the packet at index `place`, in order. The list can be shorter than
    /// the packet's number of groups; the later groups then have no bounds.
    fn groups(&self, place: usize) -> &[Bounds]
        requires { place < length (rows self.now) }
        ensures { (shift : ℤ) (row : ClockRowValue) → bounded self.now shift → slice_get (rows self.now) place ≡ Some row → AreGroups shift row result.now };
}

fn timestamps(row: &Points<'_>) -> usize
    ensures { result ≡ timestamps_of (row_of row.now) }
{
    row.payload.len() / 8
}

fn timestamp(row: &Points<'_>, i: usize) -> u64
    requires { i < timestamps_of (row_of row.now) }
    ensures { result ≡ timestamp_of (row_of row.now) i }
{
    u64_at(row.payload, 8 * i)
}

fn pair_of(row: &Usable<'_>, first: u64, second: u64) -> Pair
    requires { ArePoints first second }
    ensures { IsPairOf row.now.shift (row_of row.now.points) first second result }
{
    Pair {
        earlier: first as i64 + row.shift,
        later: second as i64 + row.shift,
        interval: row.points.interval,
        up: u64::from(row.points.base_frequency) * pull_up(row.points.pull),
        down: pull_down(row.points.pull),
    }
}

/// The pair of two timestamps, if both are points and the pair is joined.
#[tactic(auto, using(crate::proofs::Pairs::joins))]
fn joined(row: &Usable<'_>, first: u64, second: u64) -> Option<Pair>
    ensures { IsJoinedOf row.now.shift (row_of row.now.points) first second result }
{
    if first >= POINTS_END || second >= POINTS_END {
        return None;
    }
    let pair = pair_of(row, first, second);
    if pair.is_joined() { Some(pair) } else { None }
}

/// The pair of two timestamps, if both are points, and the pair is joined and covers the instant.
fn covering(row: &Usable<'_>, query: &Query, first: u64, second: u64) -> Option<Pair>
    ensures { result ≡ kept (test_of query.now) (joined_by row.now.shift (row_of row.now.points) first second) }
{
    match joined(row, first, second) {
        Some(pair) => {
            if pair.covers(query.rate, query.instant) {
                Some(pair)
            } else {
                None
            }
        }
        None => None,
    }
}

/// The bounds of some of the pairs inside a packet: those whose earlier timestamp has an index from `first` to below
/// `end`.
fn bounds_inside(row: &Usable<'_>, first: usize, end: usize) -> Bounds
    requires { end ≤ timestamps_of (row_of row.now.points) - 1 }
    ensures { HasInside row.now.shift (row_of row.now.points) result first end }
{
    let mut bounds = no_bounds();
    let mut i = first;
    while i < end {
        let pair = joined(
            row,
            timestamp(&row.points, i),
            timestamp(&row.points, i + 1),
        );
        bounds = widened_by(&bounds, pair);
        i += 1;
    }
    bounds
}

/// The index after the last pair of a group, in a packet with this many pairs.
fn group_end(group: usize, pairs: usize) -> usize
    requires { 32 * group < pairs }
    ensures { EndsGroup group pairs result }
{
    if pairs - GROUP * group > GROUP {
        GROUP * group + GROUP
    } else {
        pairs
    }
}

/// Replaces `groups` by the bounds of each group of 32 pairs inside a packet. If memory runs out, the remaining groups
/// have no bounds.
pub fn bound_groups(groups: &mut Vec<Bounds>, row: &Usable<'_>)
    ensures { AreGroups row.now.shift (row_of row.now.points) groups.new.items }
{
    groups.clear();
    let pairs = timestamps(&row.points).saturating_sub(1);
    while GROUP * groups.len() < pairs {
        let group = groups.len();
        let bounds = bounds_inside(row, GROUP * group, group_end(group, pairs));
        match groups.push(bounds) {
            Ok(()) => {}
            Err(_) => return,
        }
    }
}

/// Bounds of the pairs that have their later point in a packet, whatever packets precede this packet.
pub fn bounds_of(row: &Usable<'_>) -> Bounds
    ensures { HasPairs row.now.shift (row_of row.now.points) result }
{
    let count = timestamps(&row.points);
    if count == 0 {
        return no_bounds();
    }
    let inside = bounds_inside(row, 0, count - 1);
    let first = timestamp(&row.points, 0);
    if first >= POINTS_END {
        return inside;
    }
    let pair = pair_of(row, first, first);
    widened(
        &inside,
        pair.later,
        pair.later + pair.longest_period() as i64,
    )
}

/// Looks at pairs inside a packet: those whose earlier timestamp has an index of at least `first` and less than `end`.
/// Returns the last of these pairs that covers the instant.
fn latest_between(row: &Usable<'_>, first: usize, end: usize, query: &Query) -> Option<Pair>
    requires { end ≤ timestamps_of (row_of row.now.points) - 1 }
    ensures { result ≡ find_last (test_of query.now) (filter_map (inside_row row.now.shift (row_of row.now.points)) (range_with_len first (end - first))) }
{
    let mut left = end;
    while left > first {
        left -= 1;
        let pair = covering(
            row,
            query,
            timestamp(&row.points, left),
            timestamp(&row.points, left + 1),
        );
        if pair.is_some() {
            return pair;
        }
    }
    None
}

/// Whether a group of pairs has bounds, and the instant is outside these bounds.
fn is_past_group(groups: &[Bounds], group: usize, query: &Query) -> bool
    ensures { IsTrue result → IfSome (slice_get groups.now group) (λ bounds. IsOutside bounds query.now.instant query.now.lead) × IsSome (slice_get groups.now group) }
{
    match groups.get(group) {
        Some(bounds) => excludes(bounds, query.instant, query.lead),
        None => false,
    }
}

/// The last pair that covers the instant, among a group's pairs up to index `end` - 1.
fn latest_of_group(
    row: &Usable<'_>,
    groups: &[Bounds],
    group: usize,
    end: usize,
    query: &Query,
) -> Option<Pair>
    requires groups { AreGroups row.now.shift (row_of row.now.points) groups.now }
    requires group { 32 * group < end × end ≤ 32 * group + 32 × end ≤ timestamps_of (row_of row.now.points) - 1 }
    ensures { result ≡ find_last (test_of query.now) (filter_map (inside_row row.now.shift (row_of row.now.points)) (range_with_len (32 * group) (end - 32 * group))) }
{
    if is_past_group(groups, group, query) {
        return None;
    }
    latest_between(row, GROUP * group, end, query)
}

/// Of the pairs inside a packet, the last that covers the instant.
fn latest_inside(row: &Usable<'_>, groups: &[Bounds], query: &Query) -> Option<Pair>
    requires { AreGroups row.now.shift (row_of row.now.points) groups.now }
    ensures { result ≡ find_last (test_of query.now) (filter_map (inside_row row.now.shift (row_of row.now.points)) (range_with_len 0 (timestamps_of (row_of row.now.points) - 1))) }
{
    let mut left = timestamps(&row.points).saturating_sub(1);
    while left > 0 {
        let group = (left - 1) / GROUP;
        let pair = latest_of_group(row, groups, group, left, query);
        if pair.is_some() {
            return pair;
        }
        left = GROUP * group;
    }
    None
}

/// Whether `row` has the sequence number after that of `before`, and the clock neither restarted nor changed between
/// the two packets.
fn seems_next(row: &Points<'_>, before: &Points<'_>) -> bool
    ensures { result ≡ seems_next_of (row_of row.now) (row_of before.now) }
{
    row.seq == before.seq.wrapping_add(1)
        && row.mr == before.mr
        && row.base_frequency == before.base_frequency
        && row.pull == before.pull
        && row.interval == before.interval
}

/// The pair of the last timestamp of `before` and the first timestamp of `row`. The result is `None` if there is no
/// such pair, or if the pair is not joined or does not cover the instant.
fn covering_across(row: &Usable<'_>, before: &Points<'_>, query: &Query) -> Option<Pair>
    ensures { result ≡ kept (test_of query.now) (across_rows row.now.shift (row_of row.now.points) (row_of before.now)) }
{
    if !seems_next(&row.points, before) {
        return None;
    }
    let count = timestamps(before);
    if count == 0 || timestamps(&row.points) == 0 {
        return None;
    }
    let first = timestamp(&row.points, 0);
    covering(row, query, timestamp(before, count - 1), first)
}

/// The pair of the last timestamp of the packet at index `place` and the first timestamp of `row`. `None` if that
/// packet gives no points, or if the pair is not joined or does not cover the instant.
fn covering_from<R: Rows>(rows: &R, place: usize, row: &Usable<'_>, query: &Query) -> Option<Pair>
    requires { place < length (R.rows rows.now) }
    ensures { (before : ClockRowValue) → slice_get (R.rows rows.now) place ≡ Some before → result ≡ (if before.usable then kept (test_of query.now) (across_rows row.now.shift (row_of row.now.points) before) else None) }
{
    let before = rows.row(place);
    if before.usable {
        covering_across(row, &before, query)
    } else {
        None
    }
}

/// Whether the first timestamp of a packet is missing, is not a point, or is more than one nominal sample after the
/// instant. If the result is true, the instant is covered by no pair whose later point is the first timestamp.
fn is_too_late(row: &Usable<'_>, query: &Query) -> bool
    ensures { IsTrue result → (before : ClockRowValue) → kept (test_of query.now) (across_rows row.now.shift (row_of row.now.points) before) ≡ None }
{
    if timestamps(&row.points) == 0 {
        return true;
    }
    let first = timestamp(&row.points, 0);
    first >= POINTS_END || pair_of(row, first, first).is_after(query.rate, query.instant)
}

/// The last pair that covers the instant and has the first timestamp of `row` as its later point.
fn latest_across<R: Rows>(rows: &R, row: &Usable<'_>, query: &Query) -> Option<Pair>
    ensures { result ≡ find_last (test_of query.now) (filter_map (across_rows row.now.shift (row_of row.now.points)) (used (R.rows rows.now))) }
{
    if is_too_late(row, query) {
        return None;
    }
    let mut left = rows.count();
    while left > 0 {
        left -= 1;
        let pair = covering_from(rows, left, row, query);
        if pair.is_some() {
            return pair;
        }
    }
    None
}

/// The last pair that covers the instant and has its later point in the packet at index `place`. `None` if the packet
/// gives no points.
fn latest_at<R: Rows>(rows: &R, place: usize, query: &Query) -> Option<Pair>
    requires searched { AreSearched (R.rows rows.now) (R.bounded rows.now) query.now.shift }
    requires place { place < length (R.rows rows.now) }
    ensures { (row : ClockRowValue) → slice_get (R.rows rows.now) place ≡ Some row → result ≡ (if row.usable then find_last (test_of query.now) (pairs_at query.now.shift (used (R.rows rows.now)) row) else None) }
{
    if let Some(bounds) = rows.bounds(place) {
        if excludes(&bounds, query.instant, query.lead) {
            return None;
        }
    }
    let points = rows.row(place);
    if !points.usable {
        return None;
    }
    let row = Usable {
        points,
        shift: query.shift,
    };
    let pair = latest_inside(&row, rows.groups(place), query);
    if pair.is_some() {
        return pair;
    }
    latest_across(rows, &row, query)
}

/// The last joined pair that covers the instant, among the pairs of a clock's packets. The search goes through the
/// joined pairs from the last to the first, and stops as soon as it finds a pair that covers the instant.
pub fn latest<R: Rows>(rows: &R, query: &Query) -> Option<Pair>
    requires { AreSearched (R.rows rows.now) (R.bounded rows.now) query.now.shift }
    ensures { IsLatestOf (R.rows rows.now) query.now result }
{
    let mut left = rows.count();
    while left > 0 {
        left -= 1;
        let pair = latest_at(rows, left, query);
        if pair.is_some() {
            return pair;
        }
    }
    None
}
