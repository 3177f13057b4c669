//! Small journals, and whether they keep the rules. Each call only states its contract, and does nothing.

ghost use Rattle.std.specs.Prelude.{false, replicate, ◌≡◌, ◌↔◌, true, ◌≤◌, ℕ, neg_ℤ, pos, [], ◌∷◌, Some, None};
ghost use Rattle.time_unfold.specs.Stamps.{found};
ghost use Rattle.clock_track.specs.Rows.{clock_spot};
ghost use Rattle.stream_journal.specs.Conforming.{AgreesWithClock, Conforms};
ghost use Rattle.stream_journal.specs.Regular.{IsRegularClock};
ghost use Rattle.stream_journal.specs.Delivered.{AreDelivered};
ghost use Rattle.stream_journal.specs.Examples.{came, clocked, each_eighth, each_sixteenth, one_access_unit, overlapped, pulled, restarted, restarted_copies, sixteenth_copies, three_packets, unsteady, video};
ghost use Rattle.stream_journal.specs.FoundExamples.{HasHeadAtHand, HasPointsAtHand, HasRestartedHeads, followed_stamps, one_back, two_rows};
ghost use Rattle.stream_journal.specs.Known.{IsKnown};
ghost use Rattle.stream_journal.specs.Heads.{stamp_at, wanted};
ghost use Rattle.stream_journal.specs.Journal.{IsAt, head_of};

/// Three packets of 6 samples at 48 kHz take 125,000 ns each. The talker keeps the rules if and only if adjacent
/// packets are due at least 3/4 of 125,000 ns apart.
pub fn three_packets_conform()
    ensures { (spacing : ℕ) → Conforms (three_packets spacing) ↔ 93750 ≤ spacing }
{}

/// Of the packets of `restarted`, one was lost, one arrived twice, and two arrived in the wrong order. The copies are
/// delivered to a listener that expects packets 2 ms before their first instant.
pub fn restarted_copies_are_delivered()
    ensures { AreDelivered restarted 2000000 restarted_copies }
{}

/// A sparse talker that restarts at packet 10 keeps the rules. Packet 9 is counted from packet 8, and packet 17 from
/// packet 16. Packets 10 to 15 have no head, because the restart is between them and packet 8.
pub fn restarted_talker_conforms()
    ensures conforms { Conforms restarted }
    ensures heads { HasRestartedHeads }
{}

/// Talkers of AM824 with 6 blocks in a packet keep the rules. At 48 kHz, packet 2 is counted from its own block 4.
/// Packet 3 has no timestamp. Packet 3 is counted from block 4 of packet 2. Block 4 is 2 blocks before the first block
/// of packet 3. At 96 kHz, packet 4 is counted from a block two packets back.
pub fn block_talkers_conform()
    ensures eighth { Conforms each_eighth }
    ensures sixteenth { Conforms each_sixteenth }
    ensures own { head_of each_eighth 2 ≡ Some (record { instant = pos 1002333333; first = neg_ℤ (pos 4) }) }
    ensures before { head_of each_eighth 3 ≡ Some (record { instant = pos 1002333333; first = pos 2 }) }
    ensures two_before { head_of each_sixteenth 4 ≡ Some (record { instant = pos 1002166666; first = pos 8 }) }
{}

/// Of the packets of `each_sixteenth`, packet 2 was lost. The copies are delivered to a listener that expects packets 2
/// ms before their first instant. If a listener has the stamp of packet 2, the listener finds this stamp for packet 4.
/// If a listener lacks the stamp of packet 2, the listener finds no stamp for packet 4.
pub fn block_copies_are_delivered()
    ensures delivered { AreDelivered each_sixteenth 2000000 sixteenth_copies }
    ensures known { found 16 (wanted each_sixteenth 2000000 (came 4 1000250000) (record { packets = 2; samples = 8 })) (stamp_at each_sixteenth 0 1002000000 ∷ stamp_at each_sixteenth 2 1002166666 ∷ [])
        ≡ Some (stamp_at each_sixteenth 2 1002166666) }
    ensures lost { found 16 (wanted each_sixteenth 2000000 (came 4 1000250000) (record { packets = 2; samples = 8 })) (stamp_at each_sixteenth 0 1002000000 ∷ stamp_at each_sixteenth 5 1002333333 ∷ []) ≡ None }
{}

/// A talker sends a stream of 48 kHz and a clock whose timestamps are 2 ms apart, with an interval of 96 events. The
/// talker keeps the rules if and only if 2 ms is within 1/8 of the nominal time of 96 events.
pub fn clocked_talkers_conform()
    ensures { (base : ℕ) → Conforms (clocked base) ↔ (42000 ≤ base) × (base ≤ 54000) }
{}

/// If the second and third points cover a packet's timestamp, they give the packet's samples their instants. With a
/// clock of the stream's rate, samples are on the line of the clock's events. With a clock of 44.1 kHz, samples are
/// counted from the timestamp, and have the clock's spacing.
pub fn samples_are_clocked()
    ensures own { IsAt true (clocked 48000) 33 1 (pos 1006145833) }
    ensures other { IsAt true (clocked 44100) 33 1 (pos 1006144140) }
    ensures first { IsAt true (clocked 44100) 16 5 (pos 1004095703) }
    ensures next { IsAt true (clocked 44100) 17 5 (pos 1004220703) }
{}

/// The rules at their limits. Pull codes are 0 to 5. Adjacent periods differ by at most a quarter of the 20,833 ns
/// between two events of a 48 kHz clock. If a stream agrees with its clock, each timestamp of the stream is covered by
/// at most one joined pair. An access unit has at most 255 packets.
pub fn rules_have_limits()
    ensures pull { (pull : ℕ) → IsRegularClock (pulled pull) ↔ pull ≤ 5 }
    ensures steady { (late : ℕ) → IsRegularClock (unsteady late) ↔ late ≤ 5208 }
    ensures one { ¬ AgreesWithClock overlapped }
    ensures few { (packets : ℕ) → Conforms (one_access_unit packets) ↔ packets ≤ 255 }
{}

/// The talker of `video` stamps the last packet of each NAL unit, and keeps the rules.
pub fn video_talker_conforms()
    ensures { Conforms video }
{}

/// Packet 9 of the sparse talker has no timestamp, and is counted from packet 8. A listener finds the stamp of packet 8
/// while this stamp is among the last 16 stamps, that is, while at most 15 other stamps arrived after the stamp of
/// packet 8.
pub fn heads_are_at_hand()
    ensures at_hand { HasHeadAtHand }
    ensures last { found 16 (wanted restarted 2000000 (came 9 1001125000) one_back) (followed_stamps 15) ≡ Some (stamp_at restarted 8 1003000000) }
    ensures dropped { found 16 (wanted restarted 2000000 (came 9 1001125000) one_back) (followed_stamps 16) ≡ None }
{}

/// A talker sends a clock with a stream of 48 kHz. If a listener has both packets of the clock, the listener has the
/// points that cover packet 33.
pub fn points_are_at_hand()
    ensures at_hand { HasPointsAtHand }
    ensures found { clock_spot two_rows (pos 0) (pos 1006125000) 48000 ≡ Some (record { line = record { base = pos 1006000000; num = 2000000; den = 96 }; from = pos 6 }) }
{}

/// What is known from the packets that arrived. Packet 9 of the sparse talker is known while packet 8 is among the last
/// 16 packets with a timestamp. Packet 33 of the talker with a clock is known while both clock packets are among the
/// last 64.
pub fn packets_are_known()
    ensures counted { IsKnown false restarted (pos 0) 2000000 0 (came 9 1001125000) (8 ∷ replicate 15 16) [] }
    ensures covered { IsKnown true (clocked 48000) (pos 0) 2000000 0 (came 33 1004125000) [] (0 ∷ replicate 63 1) }
{}
