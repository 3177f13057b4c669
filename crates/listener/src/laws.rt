//! Laws of what a listener hears. Each call only states its contract, and does nothing.

ghost use Rattle.std.specs.Prelude.{Contains, ◌≡◌, ◌≤◌, ◌≤ℤ◌, ◌+◌, true, ◌∷◌, ◌++◌, [], All, AllPairs, Any, ℕ, ℤ, Bool, pos, List, None, Some, length, slice_get};
ghost use mathlib.Core.List.{IsPrefix};
ghost use Rattle.pcap_frames.specs.Capture.{Record};
ghost use Rattle.stream_journal.specs.Delivered.{AreNear, IsAudioKind};
ghost use Rattle.stream_journal.specs.Journal.{H264, Part};
ghost use Rattle.packet_journal.specs.Carried.{AllCarryFrom};
ghost use Rattle.packet_journal.specs.Deliveries.{Delivery};
ghost use Rattle.packet_journal.specs.Delivered.{Origin, stream_numbers};
ghost use Rattle.packet_journal.specs.Packets.{IsConforming, PacketJournal};
ghost use Rattle.packet_journal.specs.Units.{unit_bytes};
ghost use Rattle.sample_schedule.specs.declared.entry.Entry.{Entry};
ghost use Rattle.sample_schedule.specs.declared.item.Item.{Item};
ghost use Rattle.sample_schedule.specs.declared.item.Unit.{Unit};
ghost use Rattle.sample_schedule.specs.declared.shown.Reason.TheVariants.{Repeat};
ghost use Rattle.sample_schedule.specs.declared.shown.Shown.TheVariants.{Flag};
ghost use Rattle.sample_schedule.specs.Batches.{Presented};
ghost use Rattle.listener.specs.declared.plan.ListenPlan.{ListenPlan};
ghost use Rattle.listener.specs.Heard.{counts_of, deliveries_of, due_of, items_in, shown_of};
ghost use Rattle.listener.specs.Headline.{KeepsHeadline};
ghost use Rattle.listener.specs.Items.{MadeItem, unit_by};
ghost use Rattle.listener.specs.Laws.{Agree, AreOfUnit, AreOther, FollowsClock, HearsTalker, IsFurther, IsHeardFrom, IsInOneItem, IsOfJournal, IsOfPacket, IsPresentedOf, IsShownItem, IsUnitFrom, IsWelcome, ComesBefore, by_clock, fragments_in, presented_of, shown_by, shown_of_frame, verdict_of};
ghost use Rattle.listener.specs.Units.{in_stream};

use packet_journal::laws::records_of_both_are_delivered;

/// Each packet of the stream is shown once, or is a fragment of one unit that is shown. A packet of the clock is never
/// shown. Hence the number of stream packets is the sum of three numbers: the number of presented items, the number of
/// flagged items, and the number of fragments in whole units, not counting the last fragment of each unit.
pub fn each_packet_is_shown_once()
    ensures { (plan : ListenPlan) (records : List Record) → (counts_of plan records (shown_of plan records)).presented + (counts_of plan records (shown_of plan records)).flagged + fragments_in (items_in plan records) ≡ (counts_of plan records (shown_of plan records)).packets }
{}

/// Each packet of the stream, and each packet of its clock, is in exactly one item. The packet is the only packet of
/// the item, or is a fragment of one whole unit. A whole unit has the frame number of its last fragment. Each item of
/// the stream is shown once, as its verdict says: it is presented, or flagged with the first reason that applies.
/// Nothing else is shown. Hence, if a frame of the stream is not presented, the list says why.
pub fn each_delivery_is_shown()
    ensures in_one_item { (plan : ListenPlan) (records : List Record) → All (IsInOneItem (items_in plan records)) (deliveries_of plan records) }
    ensures shown { (plan : ListenPlan) (records : List Record) (place : ℕ) (made : MadeItem) (item : Item) → slice_get (items_in plan records) place ≡ Some made → made.entry ≡ Entry.Item item
        → shown_of_frame made.last.frame (shown_of plan records) ≡ shown_by made.last (verdict_of plan records place item) ∷ [] }
    ensures no_other { (plan : ListenPlan) (records : List Record) → All (IsShownItem plan records) (shown_of plan records) }
{}

/// Due items stay due: whatever records follow, the due items of all records begin with the items that were due before.
/// If no record follows, the shown items begin with the items that were due.
pub fn what_is_due_stays()
    ensures longer { (plan : ListenPlan) (records others : List Record) → IsPrefix (due_of plan records) (due_of plan (records ++ others)) }
    ensures first { (plan : ListenPlan) (records : List Record) → IsPrefix (due_of plan records) (shown_of plan records) }
{}

/// Records may carry any packets of a talker that keeps the rules, and any packets of the talker's clock, in any order.
/// Records of these packets meet all premises of the laws below, for listeners with the clock and without it. H.264 has
/// one condition. Suppose that two fragments of the stream arrive one right after the other, and that at least one of
/// the two has no timestamp. Then their packet numbers must differ by at most 254.
pub fn carried_packets_are_heard()
    ensures audio { (shift : ℤ) (p : PacketJournal) (plan : ListenPlan) (origins : List Origin) (records : List Record) → IsConforming shift p → IsAudioKind p.times.kind → plan.stream ≡ p.stream → FollowsClock shift p plan.shift plan.clock → AllCarryFrom p plan.lead origins records → HearsTalker shift p plan records }
    ensures h264 { (shift : ℤ) (p : PacketJournal) (plan : ListenPlan) (origins : List Origin) (records : List Record) → IsConforming shift p → plan.stream ≡ p.stream → FollowsClock shift p plan.shift plan.clock → AllCarryFrom p plan.lead origins records → AreNear p.times (stream_numbers origins) → HearsTalker shift p plan records }
{
    records_of_both_are_delivered();
}

/// A listener without a clock always follows the talker. If a listener with the talker's clock adds its shift to the
/// clock's timestamps and gets the timestamps of the journal, the listener follows the talker.
pub fn clocks_are_followed()
    ensures without { (shift added : ℤ) (p : PacketJournal) → FollowsClock shift p added None }
    ensures with_it { (shift : ℤ) (p : PacketJournal) → FollowsClock shift p shift (Some p.clock) }
{}

/// A capture may lose, repeat or reorder the H.264 packets of a talker that keeps the rules. Each whole unit still
/// consists of the packets of one unit of the talker: one copy of each packet, in order. The whole unit has the bytes
/// and the instant of the talker's unit. Sequence numbers alone do not distinguish packets whose numbers differ by 256,
/// but timestamps do. If two fragments arrive one right after the other, and at least one has no timestamp, their
/// packet numbers are assumed to differ by at most 254.
pub fn units_are_true()
    ensures { (shift : ℤ) (p : PacketJournal) (plan : ListenPlan) (records : List Record) (place : ℕ) (made : MadeItem) (unit : Unit) (part : ℕ → Part) → HearsTalker shift p plan records → p.times.kind ≡ H264 part → slice_get (items_in plan records) place ≡ Some made → made.entry ≡ Entry.Item (Item.Unit unit)
        → (n : ℕ) × IsUnitFrom p part plan.lead n made unit }
{}

/// A unit is made if all its packets came in order. Suppose that one copy of each packet of a talker's unit came, in
/// order and with no other packet of the stream between them. Then the unit is among the items, and is made of exactly
/// the copies that came. Each packet must carry the unit's first byte, and the unit must be within the limits of units.
pub fn units_are_whole()
    ensures made { (shift : ℤ) (p : PacketJournal) (plan : ListenPlan) (records : List Record) (part : ℕ → Part) (from n : ℕ) (before front earlier : List Delivery) (last : Delivery) (rest : List Delivery) → HearsTalker shift p plan records → p.times.kind ≡ H264 part
        → deliveries_of plan records ≡ before ++ last ∷ rest → in_stream before ≡ front ++ earlier → AreOfUnit p part plan.lead from n earlier last → Contains (items_in plan records) (unit_by before last) }
    ensures of_these { (shift : ℤ) (p : PacketJournal) (plan : ListenPlan) (records : List Record) (part : ℕ → Part) (from n : ℕ) (before front earlier : List Delivery) (last : Delivery) (rest : List Delivery) → HearsTalker shift p plan records → p.times.kind ≡ H264 part
        → deliveries_of plan records ≡ before ++ last ∷ rest → in_stream before ≡ front ++ earlier → AreOfUnit p part plan.lead from n earlier last → (unit_by before last).earlier ≡ earlier }
{}

/// What is presented is true. The talker must keep the rules. A capture may lose, repeat or reorder the packets of the
/// talker and of its clock, and the media clock may restart anywhere. Each presented batch comes from an item that was
/// made from a packet or unit of the talker. The batch presents this packet or unit, and has the bytes of this packet
/// or unit. Each sample is at the nanosecond of gPTP that follows from one timestamp of the talker. Without a clock,
/// audio samples are counted from the talker's timestamp at the nominal rate. With the clock, audio samples are on the
/// line through the two CRF timestamps that cover the talker's timestamp. A unit of H.264 is presented at its own
/// timestamp, with the clock or without it.
pub fn presented_are_true()
    ensures origin { (shift : ℤ) (p : PacketJournal) (plan : ListenPlan) (records : List Record) → HearsTalker shift p plan records → All (IsHeardFrom (by_clock plan) (items_in plan records) p plan.lead) (presented_of (shown_of plan records)) }
    ensures packet { (shift : ℤ) (p : PacketJournal) (plan : ListenPlan) (records : List Record) → HearsTalker shift p plan records → All (IsOfJournal (by_clock plan) p) (presented_of (shown_of plan records)) }
{}

/// No batch is two different packets of the talker: if a batch is packet n and is packet m, then n equals m. A unit of
/// H.264 has the number of its last packet.
pub fn batches_have_one_number()
    ensures { (shift : ℤ) (p : PacketJournal) (by : Bool) (n m : ℕ) (batch : Presented) → IsConforming shift p → IsOfPacket by p n batch → IsOfPacket by p m batch → n ≡ m }
{}

/// No packet of the talker is presented twice, however often copies of the packet arrive or its sequence number recurs.
pub fn no_packet_twice()
    ensures { (shift : ℤ) (p : PacketJournal) (plan : ListenPlan) (records : List Record) → HearsTalker shift p plan records → AllPairs (AreOther (by_clock plan) p) (presented_of (shown_of plan records)) }
{}

/// Batches of the talker's packets are presented in order: first instants never decrease, and batches with equal first
/// instants are in the order of the items.
pub fn first_instants_never_fall()
    ensures { (shift : ℤ) (p : PacketJournal) (plan : ListenPlan) (records : List Record) → HearsTalker shift p plan records → AllPairs ComesBefore (presented_of (shown_of plan records)) }
{}

/// Any two listeners agree if both have the talker's clock, or neither has. Each capture may lose, repeat and reorder a
/// talker's packets in its own way. The two plans may differ in buffer, look-ahead and max transit time. If both
/// listeners present a packet, they present the same bytes, and they present each sample at the same nanosecond.
pub fn listeners_agree()
    ensures { (shift : ℤ) (p : PacketJournal) (plan other : ListenPlan) (records others : List Record) → HearsTalker shift p plan records → HearsTalker shift p other others → by_clock other ≡ by_clock plan → All (λ a. All (Agree (by_clock plan) p a) (presented_of (shown_of other others))) (presented_of (shown_of plan records)) }
{}

/// A copy of a packet is presented if it came in time, it found room, and no copy of the packet was accepted before.
/// The packet's samples are counted from a timestamp, and this timestamp must be known. For audio with a clock, two CRF
/// timestamps that cover this AVTP timestamp must also be known. It does not matter how many other packets are late,
/// lost or untimed. The presented batch has the copy's frame number.
pub fn known_and_in_time_is_presented()
    ensures { (shift : ℤ) (p : PacketJournal) (plan : ListenPlan) (records : List Record) (place n : ℕ) (made : MadeItem) → HearsTalker shift p plan records → IsWelcome p plan records place n made → Any (IsPresentedOf (by_clock plan) p n made) (presented_of (shown_of plan records)) }
{}

/// Suppose that an H.264 stream's first deliveries are the packets of one unit of the talker: one copy of each packet,
/// in order. The last delivery of the unit must arrive no later than the unit's presentation time. Each packet must
/// carry the unit's first byte. The unit must be within the limits of units, and its bytes must fit into `room`. A unit
/// that meets these conditions must be presented.
pub fn first_fragments_are_welcome()
    ensures { (shift : ℤ) (p : PacketJournal) (plan : ListenPlan) (records : List Record) (from n : ℕ) (part : ℕ → Part) (earlier : List Delivery) (last : Delivery) (rest : List Delivery) → HearsTalker shift p plan records → p.times.kind ≡ H264 part → deliveries_of plan records ≡ earlier ++ last ∷ rest
        → AreOfUnit p part plan.lead from n earlier last → last.arrival ≤ℤ pos (p.times.due n) → 1 ≤ plan.buffer → length (unit_bytes p from n) ≤ plan.room → IsWelcome p plan records 0 n (unit_by earlier last) }
{}

/// If a packet was accepted before, a further copy of the packet is flagged as a repeat, whether the buffer has room
/// for the copy or not. The copy must have come in time, and the timestamps that give the copy's instants must be
/// known. The listener shows nothing but this flag for the copy's frame.
pub fn further_copies_are_repeats()
    ensures { (shift : ℤ) (p : PacketJournal) (plan : ListenPlan) (records : List Record) (place n : ℕ) (made : MadeItem) → HearsTalker shift p plan records → IsFurther p plan records place n made → shown_of_frame made.last.frame (shown_of plan records) ≡ Flag made.last.frame made.last.seq Repeat ∷ [] }
{}

/// All that is promised for a talker that keeps the rules, whatever packets a capture loses, repeats or reorders, and
/// wherever the talker's clock restarts. If a packet came in time, found room, and has a known timestamp or clock
/// reference, each of its samples is presented at the talker's own nanosecond. Hence any two listeners agree if both
/// have the talker's clock, or neither has. All remaining packets of the stream that came are flagged, each with one
/// reason. Samples are presented once and in order, and the buffers have fixed sizes.
pub fn headline_holds()
    ensures { (shift : ℤ) (p : PacketJournal) (plan : ListenPlan) (records : List Record) → HearsTalker shift p plan records → KeepsHeadline shift p plan records (shown_of plan records) }
{}
