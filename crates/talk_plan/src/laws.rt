//! Laws of plans and of their times. Each call only states its contract, and does nothing.

ghost use Rattle.std.specs.Prelude.{◌≡◌, ◌↔◌, ◌<◌, ◌≤◌, ◌+◌, ◌*◌, ◌/◌, suc, pos, ℕ, Some};
ghost use Rattle.aaf_format.specs.Aaf.{rate_of};
ghost use Rattle.iec61883_format.specs.Iec.{rate_of_fdf, syt_interval};
ghost use Rattle.clock_track.specs.PairLines.{Covers, IsOfRate, period};
ghost use Rattle.talk_plan.specs.Beats.{AreApart, Beat, HasSteadyPairs, IsBeat, IsNextStart, IsOnEvent, pair_from, point_at, stamped_at};
ghost use Rattle.talk_plan.specs.Plan.{fdf_of, interval_of, rate_code};

/// The code of each rate is the one that AAF or IEC 61883-6 gives that rate. The interval of a rate is the SYT_INTERVAL
/// that IEC 61883-6 gives the rate's code.
pub fn rates_are_named()
    ensures aaf { (rate code : ℕ) → rate_code rate ≡ Some code ↔ rate_of code ≡ Some rate }
    ensures iec { (rate fdf : ℕ) → fdf_of rate ≡ Some fdf ↔ rate_of_fdf fdf ≡ Some rate }
    ensures interval { (rate fdf : ℕ) → fdf_of rate ≡ Some fdf → syt_interval fdf ≡ Some (interval_of rate) }
{}

/// The arithmetic of a media clock and of a stream that is stamped with it, on plain numbers. The period between
/// adjacent points of a run is within 1/8 of its nominal value, and adjacent periods differ little. The time from the
/// last point of a run to the start of the next run is at least the run's last period. Take the pair that ends with the
/// last point up to an event. The pair covers the stamp of the event, and no other pair of any run covers that stamp.
/// If the clock's frequency is the stream's rate, the stamp is the instant of an event of the clock.
pub fn clocks_keep_time()
    ensures steady { (b : Beat) (start : ℕ) → IsBeat b → HasSteadyPairs b start }
    ensures renewed { (b : Beat) (start m next : ℕ) → IsBeat b → IsNextStart b start (suc (suc m) * b.spacing) next
        → point_at b start (suc m) + period (pair_from b start m) ≤ next }
    ensures one { (b : Beat) (start m e : ℕ) → IsBeat b → Covers (pair_from b start m) b.rate (pos (stamped_at b start e)) ↔ e / b.spacing ≡ suc m }
    ensures apart { (b : Beat) (start events next : ℕ) → IsBeat b → IsNextStart b start events next → AreApart b start events next }
    ensures exact { (b : Beat) (start m e : ℕ) → IsBeat b → IsOfRate (pair_from b start m) b.rate
        → Covers (pair_from b start m) b.rate (pos (stamped_at b start e)) → IsOnEvent (pair_from b start m) b.rate (stamped_at b start e) }
{}
