//! Laws of journals. Each call only states its contract, and does nothing.

ghost use Rattle.std.specs.Prelude.{Some, true, ◌≢◌, ◌↔◌, ◌+ℤ◌, ◌≡◌, ◌⊎◌, ◌+◌, ◌*◌, ◌%◌, ◌^◌, ◌<◌, ◌≤◌, ◌-◌, ℤ, Bool, All, IfSome, List, ℕ, None, false, pos};
ghost use Rattle.time_unfold.specs.declared.head_rule.Distance.{Distance};
ghost use Rattle.time_unfold.specs.declared.head_rule.Head.{Head};
ghost use Rattle.time_unfold.specs.declared.stamp.Stamp.{Stamp};
ghost use Rattle.time_unfold.specs.Lines.{instant_at};
ghost use Rattle.clock_track.specs.declared.clock_row.ClockRow.{ClockRow};
ghost use Rattle.clock_track.specs.PairLines.{Covers, Spot, spot_by};
ghost use Rattle.clock_track.specs.Rows.{clock_spot, joined_pairs, window};
ghost use Rattle.stream_journal.specs.ClockRows.{IsSpotAt, IsTruePair, IsTrueRow};
ghost use Rattle.time_unfold.specs.Heads.{distance};
ghost use Rattle.time_unfold.specs.Stamps.{candidate, found, is_near};
ghost use Rattle.time_unfold.specs.Time.{unfolded};
ghost use Rattle.stream_journal.specs.Clocks.{ClockJournal, IsJoinedAt, Place, SeemsJoined, pair_at};
ghost use Rattle.stream_journal.specs.Journal.{IsAt, IsAtByClock, Journal, head_of, rule_of};
ghost use Rattle.stream_journal.specs.Conforming.{AgreesWithClock, Conforms, HoldsEight, IsApart, IsAudio, IsClock};
ghost use Rattle.stream_journal.specs.Delivered.{Copy, IsAudioKind, IsDelivered};
ghost use Rattle.stream_journal.specs.Near.{IsNear};
ghost use Rattle.stream_journal.specs.Found.{IsAtHand, IsExpected};
ghost use Rattle.stream_journal.specs.FoundLines.{ArePointsAtHand};
ghost use Rattle.stream_journal.specs.Heads.{AreApart, FindsHead, IsOther, IsStampOf, IsTrue, IsUnstamped, behind, wanted};

/// A copy's timestamp is an instant modulo 2^32. Unfolding this timestamp gives the instant that the talker sent.
pub fn timestamps_are_true()
    ensures { (j : Journal) (lead : ℕ) (c : Copy) (instant : ℕ) → IsDelivered j lead c → j.stamp c.number ≡ Some instant → unfolded (instant % 2 ^ 32) (pos c.arrival) ≡ pos instant }
{}

/// If the numbers of two packets differ by m, the packets are due at least 3/4 of the time of m packets apart. Packets
/// are due in the order of their numbers.
pub fn packets_are_spaced()
    ensures rising { (j : Journal) (n m : ℕ) → IsAudio j → n < m → m < j.packets → j.due n < j.due m }
    ensures apart { (j : Journal) (n m : ℕ) → IsAudio j → n + m < j.packets → IsApart j (3 * m) (j.due n) (j.due (n + m)) }
{}

/// Let packet n be counted from the timestamp of packet m, and let packet k be another packet with the sequence number
/// of packet m. The numbers k and m then differ by at least 256. If an instant is counted from packet k's timestamp,
/// this instant and packet n's due instant are more than the time of 189 packets apart.
pub fn other_stamps_are_far()
    ensures numbers { (n k : ℕ) (far : Distance) → IsOther n k far → (k + far.packets + 256 ≤ n) ⊎ (n + 256 ≤ k + far.packets) }
    ensures instants { (j : Journal) (n k instant : ℕ) (far : Distance) → IsAudio j → n < j.packets → k < j.packets → j.stamp k ≡ Some instant → distance (rule_of j.kind n) n j.count ≡ Some far → IsOther n k far → AreApart j 189 (j.due n) (behind j instant far.samples) }
{}

/// A listener has a copy of a packet without a timestamp. If the stamp of another packet has the right sequence number,
/// the listener refuses this stamp. If the first instant is counted from the refused stamp, the instant is too far from
/// the copy's arrival plus `lead`.
pub fn other_stamps_are_refused()
    ensures candidate { (j : Journal) (lead : ℕ) (c : Copy) (far : Distance) (k : ℕ) (stamp : Stamp) (is : IsStampOf j k stamp) → candidate (wanted j lead c far) stamp ≡ pos (behind j is.instant far.samples) }
    ensures refused { (j : Journal) (lead : ℕ) (c : Copy) (far : Distance) (k : ℕ) (stamp : Stamp) → IsAudio j → IsUnstamped j lead c far → IsStampOf j k stamp → IsOther c.number k far → is_near (wanted j lead c far) stamp ≡ false }
{}

/// Let a packet have no timestamp, and let a copy of this packet be counted from another packet. For this copy, a
/// listener can find only the stamp of that other packet. No other stamp of the talker changes what the listener finds.
/// A listener finds no stamp if there is a restart between the copied packet and the stamped packet. If a listener
/// finds a head for a packet, this head is the packet's head in the journal. If the packet has no head in the journal,
/// a listener finds none.
pub fn heads_are_true()
    ensures { (j : Journal) (lead room : ℕ) (c : Copy) (far : Distance) (stamps : List Stamp) → IsAudio j → IsUnstamped j lead c far → All (IsTrue j) stamps → FindsHead j lead room c far stamps }
{}

/// A sample of a conforming talker has at most one instant with the clock, and at most one without it.
pub fn samples_have_one_instant()
    ensures { (j : Journal) (by_clock : Bool) (n k : ℕ) (x y : ℤ) → Conforms j → n < j.packets → IsAt by_clock j n k x → IsAt by_clock j n k y → x ≡ y }
{}

/// If a listener joins two points from copies of the clock's packets, these two points are a joined pair of the list of
/// all points. Packets whose numbers differ by 256 have the same sequence number, but their points are too far apart in
/// time to be joined.
pub fn joined_pairs_are_true()
    ensures { (c : ClockJournal) (p q : Place) → IsClock c → SeemsJoined c p q → IsJoinedAt c p q }
{}

/// A listener has copies of some or all of a clock's packets, in any order. If the listener joins a pair, the pair is a
/// joined pair of the list of all points. Each line that the listener finds comes from a joined pair that covers the
/// instant. If the stream agrees with the clock, the listener can find at most one line for the instant of a packet's
/// head. If a listener finds the line for a packet's head, the packet's samples are on that line at the instants that
/// the journal gives them by the clock.
pub fn clock_lines_are_true()
    ensures pairs { (c : ClockJournal) (shift : ℤ) (rows : List ClockRow) → IsClock c → All (IsTrueRow c shift) rows → All (IsTruePair c) (joined_pairs shift (window rows)) }
    ensures spot { (j : Journal) (shift instant : ℤ) (rows : List ClockRow) → IsClock j.clock → All (IsTrueRow j.clock shift) rows → IfSome (clock_spot rows shift instant j.rate) (IsSpotAt j instant) }
    ensures one { (j : Journal) (n : ℕ) (head : Head) (x y : Spot) → AgreesWithClock j → n < j.packets → head_of j n ≡ Some head → IsSpotAt j head.instant x → IsSpotAt j head.instant y → x ≡ y }
    ensures sample { (j : Journal) (n k : ℕ) (head : Head) (spot : Spot) → head_of j n ≡ Some head → IsSpotAt j head.instant spot → IsAtByClock j n k (instant_at spot.line ((spot.from +ℤ head.first) +ℤ pos k)) }
{}

/// With the clock, audio packets with equal sequence numbers and equal first instants are the same packet. If two
/// different packets have equal sequence numbers, their due instants are at least the time of 192 packets apart. The
/// clock moves a first instant by far less.
pub fn packets_by_clock_are_told_apart()
    ensures { (j : Journal) (n m : ℕ) (x : ℤ) → Conforms j → IsAudioKind j.kind → n < j.packets → m < j.packets → n % 256 ≡ m % 256 → IsAt true j n 0 x → IsAt true j m 0 x → n ≡ m }
{}

/// If two audio packets have equal sequence numbers, and their first instants differ by at most the time of 72 packets,
/// the two packets are the same packet. The law holds with the clock and without. If different packets have equal
/// sequence numbers, their due instants are at least the time of 192 packets apart. The clock moves a first instant by
/// less than the time of 18 packets.
pub fn near_packets_are_one()
    ensures { (j : Journal) (by_clock : Bool) (n m : ℕ) (x y : ℤ) → Conforms j → IsAudioKind j.kind → n < j.packets → m < j.packets → n % 256 ≡ m % 256 → IsAt by_clock j n 0 x → IsAt by_clock j m 0 y → IsNear j 72 x y → n ≡ m }
{}

/// For a copy of a packet without a timestamp, a listener finds a given stamp if and only if three conditions hold. The
/// stamp belongs to the packet that the copy's instants are counted from, and is among the last `room` stamps. There is
/// no restart between the copied packet and the stamped packet. The copy's arrival plus `lead` differs from the
/// packet's first instant by at most the time of 60 packets.
pub fn heads_are_found()
    ensures { (j : Journal) (lead room : ℕ) (c : Copy) (far : Distance) (stamps : List Stamp) (stamp : Stamp) → IsAudio j → HoldsEight j.packets j.mr → IsUnstamped j lead c far → All (IsTrue j) stamps → (found room (wanted j lead c far) stamps ≡ Some stamp) ↔ (IsExpected j lead c × IsAtHand j room c.number far stamps stamp) }
{}

/// If two adjacent points of one run cover a packet's timestamp, and the points' packets are among the clock's last 64,
/// a listener finds a line for the timestamp. If the stream agrees with the clock, the listener finds the line given by
/// the two points that cover the timestamp.
pub fn lines_are_found()
    ensures some { (c : ClockJournal) (shift instant : ℤ) (rate : ℕ) (rows : List ClockRow) (p q : Place) → IsClock c → ArePointsAtHand c shift rows p q → Covers (pair_at c p q) rate instant → clock_spot rows shift instant rate ≢ None }
    ensures found { (j : Journal) (shift : ℤ) (rows : List ClockRow) (n : ℕ) (head : Head) (p q : Place) → IsClock j.clock → AgreesWithClock j → All (IsTrueRow j.clock shift) rows → n < j.packets → head_of j n ≡ Some head → ArePointsAtHand j.clock shift rows p q → Covers (pair_at j.clock p q) j.rate head.instant
        → clock_spot rows shift head.instant j.rate ≡ Some (spot_by (pair_at j.clock p q) j.rate head.instant) }
{}
