//! Laws of a clock's lines. Each call only states its contract, and does nothing.

ghost use Rattle.std.specs.Prelude.{Contains, ◌≢◌, ◌≡◌, ◌+◌, ◌*◌, ◌≤◌, ℕ, ℤ, List, All, None, Some, false, true, pos};
ghost use Rattle.clock_track.specs.declared.clock_row.ClockRow.{ClockRow};
ghost use Rattle.clock_track.specs.Examples.{second_pair, worked_rows};
ghost use Rattle.clock_track.specs.PairLines.{Covers, IsJoined, spot_by};
ghost use Rattle.clock_track.specs.Adjacent.{AreAcross, AreInside, followed_rows, pair_across, pair_inside};
ghost use Rattle.clock_track.specs.Rows.{IsLatest, clock_spot, joined_pairs, latest, window};

/// A sample's line comes from a joined pair that covers the sample's instant. No later pair in the list of joined pairs
/// covers the sample's instant. If no pair gives a line, no joined pair covers the instant.
pub fn last_covering_pair_counts()
    ensures joined { (shift : ℤ) (rows : List ClockRow) → All IsJoined (joined_pairs shift rows) }
    ensures latest { (shift instant : ℤ) (rate : ℕ) (rows : List ClockRow) → IsLatest rate instant (joined_pairs shift rows) (latest shift instant rate rows) }
{}

/// A clock of 44.1 kHz has a timestamp every 147 events, and a stream of 48 kHz has a packet every 125,000 ns. The
/// clock's second point is 3,333,333 ns after the first, so packets 0 to 26 have no line. Packets 27 to 53 have the
/// line of the first two points.
pub fn second_point_is_waited_for()
    ensures joined { IsJoined second_pair }
    ensures before { (n : ℕ) → n ≤ 26 → ¬ Covers second_pair 48000 (pos (1002000000 + n * 125000)) }
    ensures behind { (n : ℕ) → 27 ≤ n → n ≤ 53 → Covers second_pair 48000 (pos (1002000000 + n * 125000)) }
    ensures spot { (instant : ℤ) → spot_by second_pair 48000 instant ≡ record { line = record { base = instant; num = 146999985300; den = 7056000 }; from = pos 0 } }
{}

/// Two clock packets have one point each. The points are 2 ms apart, with an interval of 96 events. The stream's rate
/// is 48 kHz. If the clock's frequency is 48 kHz, the stamped sample is at the clock's event that is nearest to the
/// timestamp. If the clock's frequency is 44.1 kHz, the stamped sample is at the timestamp itself, and the spacing of
/// samples is 19,140.625 ns. An instant more than half a sample before the second point has no line. If the clock
/// restarted between the packets, there is no line.
pub fn worked_lines_are_so()
    ensures own { clock_spot (worked_rows 48000 false) (pos 0) (pos 1004125000) 48000 ≡ Some (record { line = record { base = pos 1004000000; num = 2000000; den = 96 }; from = pos 6 }) }
    ensures other { clock_spot (worked_rows 44100 false) (pos 0) (pos 1004125000) 48000 ≡ Some (record { line = record { base = pos 1004125000; num = 88200000000; den = 4608000 }; from = pos 0 }) }
    ensures before { clock_spot (worked_rows 48000 false) (pos 0) (pos 1003000000) 48000 ≡ None }
    ensures restarted { clock_spot (worked_rows 48000 true) (pos 0) (pos 1004125000) 48000 ≡ None }
{}

/// If two adjacent timestamps of a clock are joined and their packets are among the last 64, the clock has a line for
/// each instant that the pair covers. The two timestamps are in one packet, or are the last of one packet and the first
/// of the next.
pub fn covering_pairs_are_found()
    ensures inside { (shift instant : ℤ) (rate i : ℕ) (rows : List ClockRow) (row : ClockRow) → Contains (window rows) row → AreInside shift row i → Covers (pair_inside shift row i) rate instant → clock_spot rows shift instant rate ≢ None }
    ensures across { (shift instant : ℤ) (rate : ℕ) (rows : List ClockRow) (row before : ClockRow) → Contains (window rows) row → Contains (window rows) before → AreAcross shift row before → Covers (pair_across shift row before) rate instant → clock_spot rows shift instant rate ≢ None }
{}

/// The two packets of the worked example give a line while they are among the last 64 packets. The two packets are
/// among the last 64 if at most 62 other packets arrived after them.
pub fn last_64_packets_count()
    ensures last { clock_spot (followed_rows 62) (pos 0) (pos 1004125000) 48000 ≡ Some (record { line = record { base = pos 1004000000; num = 2000000; den = 96 }; from = pos 6 }) }
    ensures dropped { clock_spot (followed_rows 63) (pos 0) (pos 1004125000) 48000 ≡ None }
{}
