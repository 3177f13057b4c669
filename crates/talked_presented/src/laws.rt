//! What a listener presents of a talker's captures. Each call only states its contract, and does nothing.

ghost use Rattle.std.specs.Prelude.{List, ℕ, Bool, false, true, pos, length, [], ◌≡◌, ◌-◌, ◌<◌, ◌≤◌, ◌∷◌, ◌++◌};
ghost use Rattle.std.specs.List.{range_with_len};
ghost use Rattle.capture_io.specs.Formats.{records_in};
ghost use Rattle.pcap_frames.specs.Capture.{Record, whole_records};
ghost use Rattle.packet_journal.specs.Packets.{PacketJournal};
ghost use Rattle.packet_journal.specs.Units.{AreUnit};
ghost use Rattle.listener.specs.declared.plan.ListenPlan.{ListenPlan};
ghost use Rattle.listener.specs.Heard.{counts_of, shown_of};
ghost use Rattle.listener.specs.Items.{MadeItem};
ghost use Rattle.listener.specs.Laws.{HearsTalker, IsFurther, IsWelcome, by_clock};
ghost use Rattle.talk_plan.specs.declared.plan.TalkPlan.{TalkPlan};
ghost use Rattle.talk_plan.specs.Plan.{most_input};
ghost use Rattle.talker.specs.Examples.{six_blocks};
ghost use Rattle.talker.specs.Frames.{capture};
ghost use Rattle.talker.specs.Journal.{journal};
ghost use Rattle.talked_headline.specs.Premises.{HasRoomForUnit, ListensToVideo, captured, part_sent};
ghost use Rattle.talked_presented.specs.Anywhere.{ComesInTime, MustBePresented, UnitMustBePresented};
ghost use Rattle.talked_presented.specs.Examples.{one_unit, plain, silence, thirty};
ghost use Rattle.talked_presented.specs.Whole.{ArePresented, HasDefaultLead, HearsAll, HearsUnits, IsDefaultVideo, default_listener, unit_ends};

use listener_laws::laws::{
    copies_anywhere_are_further, copies_anywhere_are_welcome, units_anywhere_are_welcome,
};
use packet_journal::laws::{carried_clock_packet_is_delivered, carried_packet_is_delivered};
use talked_headline::laws::{talked_is_heard, talked_video_is_heard, whole_capture_is_heard};
use talker::laws::{capture_delivers, capture_reads_back, journal_conforms, losses_are_delivered};

/// Files that `talk` makes with its default lead meet the whole premise of the headline, for listeners with the default
/// options of `listen`. Files of audio without a media clock meet the premise if each packet has a timestamp or is
/// counted from the timestamp of another packet. Files of H.264 always meet the premise of the headline.
pub fn files_are_heard()
    ensures audio { (plan : TalkPlan) (input : List ℕ) → HasDefaultLead plan input → HearsTalker (pos 0) (journal plan input) (default_listener plan.id) (records_in (capture plan input)) }
    ensures h264 { (plan : TalkPlan) (input : List ℕ) → IsDefaultVideo plan input → HearsTalker (pos 0) (journal plan input) (default_listener plan.id) (records_in (capture plan input)) }
{
    whole_capture_is_heard();
    journal_conforms();
    capture_delivers();
    capture_reads_back();
}

/// Assume that an audio plan has no clock. Assume that each packet of the plan has a timestamp, or that the packet's
/// samples are counted from the timestamp of another packet. Assume that the listener, like the plan, has no clock, and
/// that it has room for what is sent during the lead. If some packets have no timestamp, assume that the leads of the
/// plan and of the listener are close. Then each packet of a whole capture is presented, once and in order, and nothing
/// is flagged.
pub fn whole_capture_is_presented()
    ensures { (plan : TalkPlan) (input : List ℕ) (listen : ListenPlan) → HearsAll plan input listen
        → ArePresented false (journal plan input) (range_with_len 0 (journal plan input).times.packets) (shown_of listen (whole_records (capture plan input))) }
{
    whole_capture_is_heard();
    capture_reads_back();
    carried_packet_is_delivered();
    carried_clock_packet_is_delivered();
}

/// A listener with the default options of `listen` presents all packets of an audio plan that has the default lead of
/// `talk` and no clock. A plan of sparse PCM or of AM824 must have no restarts. The plan can have any rate, any number
/// of channels, and any number of sample frames in a packet.
pub fn defaults_present_all()
    ensures hears { (plan : TalkPlan) (input : List ℕ) → HasDefaultLead plan input → HearsAll plan input (default_listener plan.id) }
    ensures presented { (plan : TalkPlan) (input : List ℕ) → HasDefaultLead plan input
        → ArePresented false (journal plan input) (range_with_len 0 (journal plan input).times.packets) (shown_of (default_listener plan.id) (whole_records (capture plan input))) }
{
    whole_capture_is_presented();
}

/// If the listener has room for the waiting units, it presents each unit of a whole capture of an H.264 plan, once and
/// in order, and flags nothing. The law holds both for plans that stamp all packets and for plans that stamp only the
/// last packet of each unit.
pub fn whole_video_is_presented()
    ensures { (plan : TalkPlan) (input : List ℕ) (listen : ListenPlan) → HearsUnits plan input listen
        → ArePresented (by_clock listen) (journal plan input) (unit_ends plan input) (shown_of listen (whole_records (capture plan input))) }
{
    journal_conforms();
    capture_reads_back();
    carried_packet_is_delivered();
    carried_clock_packet_is_delivered();
}

/// If an H.264 plan has the default lead of `talk`, a listener with the default options of `listen` presents all units
/// of the plan.
pub fn defaults_present_all_units()
    ensures hears { (plan : TalkPlan) (input : List ℕ) → IsDefaultVideo plan input → HearsUnits plan input (default_listener plan.id) }
    ensures presented { (plan : TalkPlan) (input : List ℕ) → IsDefaultVideo plan input
        → ArePresented false (journal plan input) (unit_ends plan input) (shown_of (default_listener plan.id) (whole_records (capture plan input))) }
{
    whole_video_is_presented();
}

/// A listener with the default options of `listen` hears a whole capture of an H.264 plan with the default lead of
/// `talk`. If each packet has a timestamp, the listener also hears any capture that loses, repeats or reorders packets
/// of the plan. The listener has room for each unit of the plan.
pub fn defaults_hear_units()
    ensures whole { (plan : TalkPlan) (input : List ℕ) → IsDefaultVideo plan input → ListensToVideo plan input (range_with_len 0 (journal plan input).times.packets) (default_listener plan.id) }
    ensures stamped { (plan : TalkPlan) (input places : List ℕ) → (is : IsDefaultVideo plan input) → is.last_stamp ≡ false → ListensToVideo plan input places (default_listener plan.id) }
    ensures room { (plan : TalkPlan) (input : List ℕ) (from n : ℕ) → IsDefaultVideo plan input → n < (journal plan input).times.packets → AreUnit (part_sent input) from n → HasRoomForUnit plan input (default_listener plan.id) from n }
{
    journal_conforms();
}

/// Take a capture of an audio plan without a clock; it can lose, repeat or reorder packets. A copy of a packet can be
/// anywhere in the capture. The copy must be presented if four conditions hold. The packet has a timestamp or can be
/// counted from a timestamp that arrived. All packets before the copy were captured no later than the packet's due
/// instant. The copy is the first copy of the packet. The buffer has room for the copy.
pub fn talked_copy_is_welcome()
    ensures { (plan : TalkPlan) (input before after : List ℕ) (n : ℕ) (listen : ListenPlan) → MustBePresented plan input listen before n after
        → (made : MadeItem) × IsWelcome (journal plan input) listen (captured plan input (before ++ n ∷ after)) (length before) n made }
{
    talked_is_heard();
    losses_are_delivered();
    carried_packet_is_delivered();
    carried_clock_packet_is_delivered();
    copies_anywhere_are_welcome();
}

/// Assume that a copy of a packet must be presented, and that the packet is captured again anywhere later in the
/// capture. The later copy must be flagged as a repeat, if two conditions hold. The later copy can be timed. Every
/// packet before the later copy was captured no later than the instant when the copied packet is due.
pub fn talked_copy_is_further()
    ensures { (plan : TalkPlan) (input before between after : List ℕ) (n : ℕ) (listen : ListenPlan) → MustBePresented plan input listen before n (between ++ n ∷ after) → ComesInTime plan input listen (before ++ n ∷ between) n after
        → (made : MadeItem) × IsFurther (journal plan input) listen (captured plan input ((before ++ n ∷ between) ++ n ∷ after)) (length (before ++ n ∷ between)) n made }
{
    talked_is_heard();
    talked_copy_is_welcome();
    losses_are_delivered();
    carried_packet_is_delivered();
    carried_clock_packet_is_delivered();
    copies_anywhere_are_further();
}

/// Take a capture of an H.264 plan; it can lose, repeat or reorder packets. If four conditions hold, a unit must be
/// presented, wherever it is in the capture. All packets of the unit are captured in order, with no other packet of the
/// stream between them. All packets before the unit were captured no later than the unit is due. The unit's last packet
/// is not among the packets that were captured before the unit. The buffer has room for the unit.
pub fn talked_unit_anywhere_is_welcome()
    ensures { (plan : TalkPlan) (input front after : List ℕ) (from n : ℕ) (listen : ListenPlan) → UnitMustBePresented plan input listen front from n after
        → (place : ℕ) × ((made : MadeItem) × IsWelcome (journal plan input) listen (captured plan input (front ++ (range_with_len from (n - from) ++ n ∷ after))) place n made) }
{
    talked_video_is_heard();
    losses_are_delivered();
    carried_packet_is_delivered();
    carried_clock_packet_is_delivered();
    units_anywhere_are_welcome();
}

/// If exactly the packets in `packets` are presented and nothing is flagged, the listener counts one presented item for
/// each of these packets, and no flagged item.
pub fn presented_are_counted()
    ensures presented { (by : Bool) (p : PacketJournal) (packets : List ℕ) (plan : ListenPlan) (records : List Record) → ArePresented by p packets (shown_of plan records) → (counts_of plan records (shown_of plan records)).presented ≡ length packets }
    ensures flagged { (by : Bool) (p : PacketJournal) (packets : List ℕ) (plan : ListenPlan) (records : List Record) → ArePresented by p packets (shown_of plan records) → (counts_of plan records (shown_of plan records)).flagged ≡ 0 }
{}

/// Example plans of each kind, without a clock, meet the premises of the laws about default options, for any
/// input. If packets 0, 2, 1 and 1 of a plan are captured, in this order, the first copy of packet 1 must be presented.
/// If a unit that consists of one packet is captured twice, its first copy must be presented, too.
pub fn examples_are_so()
    ensures dense { (input : List ℕ) → length input ≤ most_input → HasDefaultLead (plain false) input }
    ensures sparse { (input : List ℕ) → length input ≤ most_input → HasDefaultLead (plain true) input }
    ensures am824 { (input : List ℕ) → length input ≤ most_input → HasDefaultLead (six_blocks 48000) input }
    ensures h264 { (input : List ℕ) (last_stamp : Bool) → length input ≤ most_input → IsDefaultVideo (thirty last_stamp) input }
    ensures repeated { MustBePresented (plain false) silence (default_listener 0x0200000000010001) (0 ∷ 2 ∷ []) 1 (1 ∷ []) }
    ensures unit { UnitMustBePresented (thirty false) one_unit (default_listener 0x0200000000010001) [] 0 0 (0 ∷ []) }
{}
