//! A 32-bit timestamp becomes an instant.

ghost use Rattle.std.specs.Prelude.{◌≡◌, ℤ};
ghost use Rattle.time_unfold.specs.Time.{IsArrival, Unfolds, unfolded as unfolded_instant};

/// The instant, in nanoseconds of gPTP, that a packet's timestamp means (IEEE 1722-2016, 4.4.4). The result is the one
/// instant with these low 32 bits that is less than 2^31 ns after the arrival, or at most 2^31 ns before the arrival.
/// The arrival is in nanoseconds of gPTP, from 0 to 2^62.
pub fn unfold(timestamp: u32, arrival: i64) -> i64
    requires { IsArrival arrival }
    ensures value { result ≡ unfolded_instant timestamp arrival }
    ensures unfolds { Unfolds timestamp arrival result }
    ensures only { (other : ℤ) → Unfolds timestamp arrival other → other ≡ result }
{
    let first = arrival - (1 << 31);
    first + (i64::from(timestamp) - first).rem_euclid(1 << 32)
}
