//! Which two batches may be a pair.

ghost use Rattle.std.specs.Prelude.{◌≡◌};
ghost use Rattle.listener_pair.specs.Pairs.{are_near as are_near_of, fits as fits_of, reaches as reaches_of, within_reach as within_reach_of};

use crate::difference::Which;
use crate::timed::Timed;

/// The first instants of two batches of one packet may differ by at most this many times the duration of A's batch.
const REACH: u64 = 64;

/// Whether the first instants of a batch of A and a batch of B differ by at most 64 times the duration of A's batch.
#[tactic(auto, using(crate::proofs::Numbers::products))]
fn are_near(a: &Timed, b: &Timed) -> bool
    ensures { result ≡ are_near_of a.now b.now }
{
    let distance = a.instant().abs_diff(b.instant());
    let line = a.batch().line;
    let samples = REACH * u64::from(a.batch().count);
    u128::from(distance) * u128::from(line.den) <= u128::from(samples) * u128::from(line.num)
}

/// Whether a batch of A and a batch of B are close enough in time to present the same packet or unit.
#[tactic(auto, unfolding(crate::specs::Pairs::within_reach))]
fn within_reach(a: &Timed, b: &Timed) -> bool
    ensures { result ≡ within_reach_of a.now b.now }
{
    if a.batch().is_unit() || b.batch().is_unit() {
        return a.batch().is_unit() && b.batch().is_unit() && a.instant() == b.instant();
    }
    are_near(a, b)
}

fn reaches(side: Which, x: &Timed, y: &Timed) -> bool
    ensures { result ≡ reaches_of side x.now y.now }
{
    match side {
        Which::A => within_reach(x, y),
        Which::B => within_reach(y, x),
    }
}

/// Whether batch `x` of `side` and batch `y` of the other side have the same sequence number and are within reach.
#[tactic(auto, unfolding(crate::specs::Pairs::fits))]
pub fn fits(side: Which, x: &Timed, y: &Timed) -> bool
    ensures { result ≡ fits_of side x.now y.now }
{
    y.batch().seq == x.batch().seq && reaches(side, x, y)
}
