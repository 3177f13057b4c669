//! Laws of the pairs of two captures. Each law is a function whose contract states the law; a call does nothing.

ghost use Rattle.std.specs.Prelude.{◌≡◌, ◌<◌, ◌≤◌, ◌++◌, [], ℕ, ℤ, Bool, true, false, List, Some, length, take};
ghost use Rattle.std.specs.List.{AllByRecursion};
ghost use Rattle.pcap_frames.specs.Capture.{Record};
ghost use Rattle.packet_journal.specs.Packets.{IsConforming, PacketJournal};
ghost use Rattle.sample_schedule.specs.Batches.{Presented};
ghost use Rattle.listener.specs.declared.plan.ListenPlan.{ListenPlan};
ghost use Rattle.listener.specs.Heard.{due_of, shown_of};
ghost use Rattle.listener.specs.Laws.{HearsTalker, by_clock, presented_of};
ghost use Rattle.listener.specs.Listening.{is_closed};
ghost use Rattle.listener_pair.specs.declared.difference.Which.TheVariants.{A, B};
ghost use Rattle.listener_pair.specs.Differences.{differences};
ghost use Rattle.listener_pair.specs.Merged.{Sided, known, merged};
ghost use Rattle.capture_pair.specs.Pairing.{Continues, EndsAreClosed, HavePlan, PairState, StandsFor, known_by, wanted_by};
ghost use Rattle.pair_laws.specs.Agreeing.{IsPresentedOfTalker, KnownNeverDiffers, NeverDiffers, PairUp};
ghost use Rattle.pair_laws.specs.Beside.{IsPresentation, NeverDiffersFromItself};

/// A capture compared with itself never differs: each batch that a listener presents of the capture is paired with
/// itself. The capture can hold anything, as long as each sequence number is a byte.
pub fn a_capture_beside_itself_never_differs()
    ensures beside { (list : List Presented) → IsPresentation list → NeverDiffersFromItself list }
    ensures presented { (plan : ListenPlan) (records : List Record) → AllByRecursion (λ x. x.seq < 256) (presented_of (shown_of plan records)) → IsPresentation (presented_of (shown_of plan records)) }
{}

/// Let two captures be of one talker that keeps the rules. Each capture may lose, repeat or reorder any packets of the
/// talker and of its clock, and the talker and the clock may restart anywhere.
///
/// The captures never differ. Each pair is of one packet or unit of the talker, and no pair differs. If both captures
/// present the same packet or unit, the two batches are a pair. So a packet or unit is in a pair if and only if both
/// captures present it. The law requires that both listeners use the clock or neither does. The two listeners may have
/// different buffers, look-ahead and max transit times.
pub fn captures_of_one_talker_never_differ()
    ensures { (shift : ℤ) (p : PacketJournal) (plan other : ListenPlan) (records others : List Record) → HearsTalker shift p plan records → HearsTalker shift p other others → by_clock other ≡ by_clock plan
        → PairUp (by_clock plan) p (presented_of (shown_of plan records)) (presented_of (shown_of other others)) }
{}

/// If all batches of both sides are of one talker, no pair differs: each pair is of one packet or unit. The batches may
/// be all that listeners present, or the part that is known while the captures continue. If a capture is of the talker,
/// a listener that reads the capture presents only batches of the talker.
pub fn batches_of_one_talker_never_differ()
    ensures list { (shift : ℤ) (by : Bool) (p : PacketJournal) (list : List Sided) → IsConforming shift p → AllByRecursion (λ x. IsPresentedOfTalker by p x.batch) list → NeverDiffers by p list }
    ensures presented { (shift : ℤ) (p : PacketJournal) (plan : ListenPlan) (records : List Record) → HearsTalker shift p plan records → AllByRecursion (IsPresentedOfTalker (by_clock plan) p) (presented_of (shown_of plan records)) }
{}

/// The differences that a `RecordPair` has returned are the first known differences. A difference is known if no later
/// record can change it. However the two captures continue or end, the differences that were returned are still the
/// first known differences.
pub fn what_was_given_stays()
    ensures within { (records others : List Record) (given : ℕ) (pair : PairState) → StandsFor records others given pair → EndsAreClosed pair → given ≤ length (differences (known_by pair records others)) }
    ensures stays { (records others more more_others : List Record) (given : ℕ) (old new : PairState) → StandsFor records others given old → EndsAreClosed old → Continues more more_others old new
        → take given (differences (known_by new (records ++ more) (others ++ more_others))) ≡ take given (differences (known_by old records others)) }
{}

/// Let a `RecordPair` still want more of one capture, for example because that capture cannot be read any further. Then
/// the known part of the merged list depends on two lists only. One list has the batches of the wanted capture that are
/// certain to be presented, whatever follows. The second list has all batches of the capture that the pair does not
/// want. Reading more of the other capture does not change the known part. After both captures are closed, all that
/// both listeners show is known.
pub fn what_a_fault_leaves_is_known()
    ensures a { (plan : ListenPlan) (records others more : List Record) (given : ℕ) (pair : PairState) → StandsFor records others given pair → HavePlan plan pair → EndsAreClosed pair → wanted_by pair ≡ Some A → is_closed pair.a ≡ false → (is_closed pair.b ≡ true → more ≡ [])
        → known_by pair records others ≡ known false true (merged (presented_of (due_of plan records)) (presented_of (shown_of plan (others ++ more)))) }
    ensures b { (plan : ListenPlan) (records others more : List Record) (given : ℕ) (pair : PairState) → StandsFor records others given pair → HavePlan plan pair → EndsAreClosed pair → wanted_by pair ≡ Some B → is_closed pair.b ≡ false → (is_closed pair.a ≡ true → more ≡ [])
        → known_by pair records others ≡ known true false (merged (presented_of (shown_of plan (records ++ more))) (presented_of (due_of plan others))) }
    ensures both { (plan : ListenPlan) (records others : List Record) (pair : PairState) → HavePlan plan pair → is_closed pair.a ≡ true → is_closed pair.b ≡ true
        → known_by pair records others ≡ merged (presented_of (shown_of plan records)) (presented_of (shown_of plan others)) }
{}

/// If two captures are of one talker, the known part of their merged list has no differences, however far each capture
/// was read. For each capture, the batches can be all batches that are shown, or only the batches that are certain to
/// be presented, whatever follows.
pub fn what_is_known_of_one_talker_never_differs()
    ensures { (shift : ℤ) (p : PacketJournal) (plan : ListenPlan) (records others : List Record) → HearsTalker shift p plan records → HearsTalker shift p plan others → KnownNeverDiffers plan records others }
{}
