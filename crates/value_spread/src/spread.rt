//! The spread of values: the least, the greatest, and percentiles from a histogram.

ghost use Rattle.std.specs.Prelude.{◌≡◌, ◌<◌, ◌≤◌, ◌^◌, ◌+◌, ◌-◌, ◌*◌, ◌-ℤ◌, pos, OnOk, IfOk, ℤ, List, [], ◌∷◌, ◌++◌, length, get_or, set, sum, take, replicate, min};
ghost use Rattle.value_spread.specs.Spreads.{TellsOf, TellsPercentile, edge, first_in, most_values, rank, side};
ghost use Rattle.value_spread.specs.state.Places.{HasPlace, HoldsRank, InBucket, Widens};

use avtp_base::NoMemory;
use std::alloc::Global;

/// The number of buckets of one sign: one for each of the first 64 magnitudes, and 64 for each power of two from 2^6 to
/// 2^62.
const SIDE: usize = 58 * 64;

/// Each magnitude below this has its own bucket.
const NARROW: u64 = 128;

/// The number of values in each bucket, from the lowest bucket in use to the highest. The values of a bucket differ by
/// at most a 64th of the smallest magnitude among them, so a percentile is exact to 1.6 %.
#[derive(Drop)]
pub struct Spread {
    counts: Vec<u32>,
    /// The index of the lowest bucket in use, among all buckets. The buckets of negative values precede the other
    /// buckets, and the first of all buckets has index 0.
    first: usize,
    pub count: u64,
    pub least: i64,
    pub greatest: i64,
}

/// The index of a magnitude's bucket, among the buckets of one sign.
fn bucket_of(magnitude: u64) -> usize
    requires { magnitude < 2 ^ 63 }
    ensures { InBucket magnitude result }
{
    if magnitude < NARROW {
        return magnitude as usize;
    }
    let shift = magnitude.ilog2() - 6;
    64 * shift as usize + (magnitude >> shift) as usize
}

/// The least magnitude in a bucket.
fn first_in(bucket: usize) -> u64
    requires { bucket ≤ side }
    ensures { result ≡ first_in bucket }
{
    let shift = (bucket / 64).saturating_sub(1);
    ((bucket - 64 * shift) as u64) << shift
}

/// The index of a value's bucket, among all buckets.
fn place_of(value: i64) -> usize
    ensures { HasPlace value result }
{
    if value < 0 {
        SIDE - 1 - bucket_of(value.unsigned_abs() - 1)
    } else {
        SIDE + bucket_of(value.unsigned_abs())
    }
}

/// Makes `counts` include the bucket at index `place`. Before the call, the first bucket of `counts` is at index
/// `first`. Returns the new index of the first bucket of `counts`.
fn reach(counts: &mut Vec<u32>, first: usize, place: usize) -> Result<usize, NoMemory>
    requires { place < 2 * side }
    ensures { IfOk result (Widens first counts.old.items place counts.new.items) }
{
    if first <= place && place - first < counts.len() {
        return Ok(first);
    }
    widen(counts, first, place)
}

/// Widens `counts`, whose first bucket is at index `first`, until `counts` includes the bucket at index `place`.
/// Returns the new index of the first bucket of `counts`.
#[inline(never)]
fn widen(counts: &mut Vec<u32>, first: usize, place: usize) -> Result<usize, NoMemory>
    requires { place < 2 * side }
    ensures { IfOk result (Widens first counts.old.items place counts.new.items) }
{
    if counts.is_empty() {
        counts.push(0)?;
        return Ok(place);
    }
    if place < first {
        put_before(counts, first - place)?;
        return Ok(place);
    }
    let reached = place - first + 1;
    if counts.len() < reached {
        counts.resize(reached, 0)?;
    }
    Ok(first)
}

/// Inserts counts of 0 at the beginning of `counts`. `more` is the number of inserted counts.
fn put_before(counts: &mut Vec<u32>, more: usize) -> Result<(), NoMemory>
    ensures { OnOk result (counts.new.items ≡ replicate more 0 ++ counts.old.items) }
{
    let alloc = *counts.allocator();
    let mut wider = vec![in alloc; 0u32; more]?;
    wider.append(counts)?;
    *counts = wider;
    Ok(())
}

/// Counts one more value at index `place` of `counts`.
fn count_at(counts: &mut Vec<u32>, place: usize)
    ensures { counts.new.items ≡ set counts.old.items place (min (get_or counts.old.items place 0 + 1) (2 ^ 32 - 1)) }
{
    if place < counts.len() {
        counts[place] = counts[place].saturating_add(1);
    }
}

/// The greatest value in the bucket at index `place`.
fn last_at(place: usize) -> i64
    requires { place < 2 * side }
    ensures { result ≡ edge (place + 1) -ℤ pos 1 }
{
    if place < SIDE {
        -1 - first_in(SIDE - 1 - place) as i64
    } else {
        (first_in(place + 1 - SIDE) - 1) as i64
    }
}

/// The rank of a percentile of `count` values.
fn rank_of(count: u64, hundredths: u64) -> u128
    ensures { result ≡ rank count hundredths }
{
    (u128::from(count) * u128::from(hundredths))
        .div_ceil(100)
        .max(1)
}

impl Spread {
    /// A spread of no values.
    pub fn new(alloc: Global) -> Self
        ensures { TellsOf result [] }
    {
        Spread {
            counts: Vec::new(alloc),
            first: 0,
            count: 0,
            least: i64::MAX,
            greatest: i64::MIN,
        }
    }

    /// Notes one more value. A spread gives percentiles of at most 4,294,967,295 values. After `NoMemory` the spread must not
    /// be used.
    pub fn note(&mut self, value: i64) -> Result<(), NoMemory>
        ensures { OnOk result ((values : List ℤ) → TellsOf self.old values → length values < most_values → TellsOf self.new (value ∷ values)) }
    {
        let place = place_of(value);
        self.first = reach(&mut self.counts, self.first, place)?;
        count_at(&mut self.counts, place - self.first);
        self.count = self.count.saturating_add(1);
        self.least = self.least.min(value);
        self.greatest = self.greatest.max(value);
        Ok(())
    }

    /// The number of values in the bucket at index `place`.
    fn count_in(&self, place: usize) -> u32
        ensures { sum (take (place - self.now.first) self.now.counts.items) + result ≡ sum (take (place + 1 - self.now.first) self.now.counts.items) }
    {
        if place < self.first {
            return 0;
        }
        self.counts.get(place - self.first).copied().unwrap_or(0)
    }

    /// The nearest-rank percentile `hundredths`, rounded up by at most a 64th of its magnitude. `None` if no value was
    /// noted.
    pub fn percentile(&self, hundredths: u64) -> Option<i64>
        ensures { TellsPercentile self.now hundredths result }
    {
        if self.count == 0 {
            return None;
        }
        let place = self.place_of_rank(rank_of(self.count, hundredths));
        Some(last_at(place).max(self.least).min(self.greatest))
    }

    /// The index of the bucket that holds the value with this rank.
    fn place_of_rank(&self, rank: u128) -> usize
        requires { 0 < rank }
        ensures { HoldsRank self.now rank result }
    {
        let mut below: u128 = 0;
        for place in self.first..2 * SIDE {
            below = below.saturating_add(u128::from(self.count_in(place)));
            if below >= rank {
                return place;
            }
        }
        place_of(self.greatest)
    }
}
