//! Bounds of the instants that a packet's pairs can cover.

ghost use Rattle.std.specs.Prelude.{IfSome, IsTrue};
ghost use Rattle.clock_track.specs.Search.{IsPair};
ghost use Rattle.clock_track.specs.state.Bounds.{AreWidened, IsOutside, Widens};

use crate::pair::Pair;

/// Bounds of some pairs. The later point of each pair is at or after `earliest`. The end of each pair is at or before
/// `latest`. A pair ends one period after its later point.
#[derive(Clone, Copy, Debug)]
pub struct Bounds {
    pub earliest: i64,
    pub latest: i64,
}

/// The bounds of an empty set of pairs.
pub fn no_bounds() -> Bounds {
    Bounds {
        earliest: i64::MAX,
        latest: i64::MIN,
    }
}

/// The bounds, widened to hold a pair with this later point and this end.
pub fn widened(bounds: &Bounds, later: i64, end: i64) -> Bounds
    ensures { Widens bounds.now result later end }
{
    Bounds {
        earliest: if later < bounds.earliest {
            later
        } else {
            bounds.earliest
        },
        latest: if end > bounds.latest {
            end
        } else {
            bounds.latest
        },
    }
}

/// The bounds, widened to hold `pair` if there is one.
#[tactic(auto, using(crate::proofs::LineFacts::most_period))]
pub fn widened_by(bounds: &Bounds, pair: Option<Pair>) -> Bounds
    requires { IfSome pair IsPair }
    ensures { AreWidened bounds.now result pair }
{
    match pair {
        Some(pair) => widened(bounds, pair.later, pair.later + pair.period() as i64),
        None => *bounds,
    }
}

/// Whether `instant` is at or after the end of the bounds, or before their start by more than `lead` nanoseconds. Let
/// `lead` be what `lead_of` returns for the stream's rate. If the result is true, no joined pair within the bounds
/// covers `instant`.
pub fn excludes(bounds: &Bounds, instant: i64, lead: u64) -> bool
    ensures { IsTrue result → IsOutside bounds.now instant lead }
{
    bounds.latest <= instant
        || (instant < bounds.earliest && bounds.earliest.abs_diff(instant) > lead)
}
