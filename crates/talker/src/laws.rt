//! Laws of plans and their frames. Each call only states its contract, and does nothing.

ghost use Rattle.std.specs.Prelude.{◌≡◌, ◌↔◌, ◌<◌, ◌≤◌, ◌≤ℤ◌, ◌+◌, ◌-◌, ◌*◌, ◌/◌, ◌%◌, ◌^◌, ◌==◌, Bool, length, map, nat_abs, pos, slice_get, List, ℕ, Option};
ghost use Rattle.std.specs.Prelude.{Some, None, IsSome, IsSomeAnd};
ghost use Rattle.aaf_format.specs.declared.aaf.AafFormat.{AafFormat};
ghost use Rattle.aaf_format.specs.Aaf.{SpellsAaf, aaf_spelling, frame_size};
ghost use Rattle.iec61883_format.specs.Iec.{SpellsIec, block_size, iec_spelling};
ghost use Rattle.std.specs.List.{range_with_len};
ghost use Rattle.cvf_format.specs.Cvf.{SpellsCvf, cvf_spelling};
ghost use Rattle.packet_journal.specs.Carried.{AllCarry};
ghost use Rattle.packet_journal.specs.Delivered.{Delivers};
ghost use Rattle.packet_journal.specs.Packets.{Am824Data, H264Data, IsConforming};
ghost use Rattle.pcap_frames.specs.Capture.{IsCapture, first_refusal, whole_records};
ghost use Rattle.pcap_frames.specs.Frame.{SpellsFrame};
ghost use Rattle.stream_journal.specs.Journal.{head_of};
ghost use Rattle.stream_journal.specs.Regular.{IsRegular};
ghost use Rattle.talk_plan.specs.declared.plan.TalkKind.TheVariants.{Aaf, Am824};
ghost use Rattle.talk_plan.specs.declared.plan.CrfPlan.{CrfPlan};
ghost use Rattle.talk_plan.specs.declared.plan.TalkPlan.{TalkPlan};
ghost use Rattle.talk_video.specs.Fragments.{access_unit_of, all_packets};
ghost use Rattle.talk_video.specs.Units.{sent_units};
ghost use Rattle.talk_video.specs.Video.{sent_packet, video_arrival};
ghost use Rattle.talk_clock.specs.Clock.{clock_mr, clock_point, points_for, run_points};
ghost use Rattle.talker.specs.Frames.{RiseByArrival, StaysNear, capture, capture_of, capture_style, frames, frames_at, record_of, records, stream_frames};
ghost use Rattle.talk_audio.specs.Packets.{aaf_bytes, aaf_packet, iec_packet};
ghost use Rattle.talk_plan.specs.Ethernet.{ethernet, packet_bytes};
ghost use Rattle.talker.specs.Journal.{journal};
ghost use Rattle.talk_plan.specs.Plan.{Expects, IsAhead, IsAudioPlan, IsPlan, spacing_of, most_input};
ghost use Rattle.talk_plan.specs.Timing.{arrival_of, nominal_offset, run_of, run_start};

use packet_journal::laws::records_of_both_are_delivered;
pub use talk_plan::laws::{clocks_keep_time, rates_are_named};
pub use talk_video::laws::{access_units_begin, units_are_carried};

/// Packet `n` of audio is sent at the plan's start plus the time that all earlier sample frames take, rounded down.
/// With restarts, the time of all earlier runs and the time within the run are rounded separately, and each restart
/// delays all later packets by the plan's jump. A packet of H.264 is sent at the plan's start plus the time that all
/// earlier access units take.
pub fn packets_are_paced()
    ensures steady { (plan : TalkPlan) (n : ℕ) → plan.restart ≡ None → arrival_of plan n ≡ nat_abs plan.start + n * plan.count * 1000000000 / plan.rate }
    ensures restarting { (plan : TalkPlan) (packets n : ℕ) → plan.restart ≡ Some packets
        → arrival_of plan n ≡ nat_abs plan.start + n / packets * plan.jump + n / packets * packets * plan.count * 1000000000 / plan.rate + n % packets * plan.count * 1000000000 / plan.rate }
    ensures video { (plan : TalkPlan) (input : List ℕ) (units : List (ℕ × ℕ)) (n : ℕ)
        → video_arrival plan input units n ≡ nat_abs plan.start + access_unit_of input units n * 1000000000 / plan.rate }
{}

/// The clock has a timestamp at the first sample frame of the stream, and at each later sample frame whose number is a
/// multiple of the spacing. The clock's timestamps and packets are numbered across all runs. If there are restarts, two
/// things hold: the instant of a timestamp is counted from the start of the timestamp's run, and a packet has the
/// restart bit of the packet's run.
pub fn clocks_are_paced()
    ensures points { (plan : TalkPlan) (crf : CrfPlan) (packets s : ℕ) → IsPlan plan → plan.crf ≡ Some crf
        → s < points_for crf plan packets ↔ s * spacing_of crf plan.rate < packets * plan.count }
    ensures steady { (plan : TalkPlan) (crf : CrfPlan) (s : ℕ) → IsPlan plan → plan.crf ≡ Some crf → plan.restart ≡ None
        → clock_point crf plan s ≡ run_start plan 0 + nominal_offset plan.rate (s * spacing_of crf plan.rate) }
    ensures restarting { (plan : TalkPlan) (crf : CrfPlan) (packets s : ℕ) → IsPlan plan → plan.crf ≡ Some crf → plan.restart ≡ Some packets
        → clock_point crf plan s
        ≡ run_start plan (s / run_points crf plan packets) + nominal_offset plan.rate (s % run_points crf plan packets * spacing_of crf plan.rate) }
    ensures bit { (plan : TalkPlan) (crf : CrfPlan) (packets m : ℕ) → IsPlan plan → plan.crf ≡ Some crf → plan.restart ≡ Some packets
        → clock_mr crf plan m ≡ (m / (run_points crf plan packets / crf.points) % 2 == 1) }
{}

/// No frame arrives before its predecessor.
pub fn frames_rise()
    ensures { (plan : TalkPlan) (input : List ℕ) → RiseByArrival (frames plan input) }
{}

/// No packet of the stream is sent after it is due. Without a clock, packet n is in frame n. With a clock, the lead
/// must be at least 3 nanoseconds, because a packet can be due up to 3 nanoseconds before its nominal first instant.
pub fn packets_are_sent_in_time()
    ensures alone { (plan : TalkPlan) (input : List ℕ) (n : ℕ) → IsPlan plan → plan.crf ≡ None → length input ≤ most_input
        → n < (journal plan input).times.packets → IsSomeAnd (slice_get (frames plan input) n) (λ f. f.arrival ≤ℤ pos ((journal plan input).times.due n)) }
    ensures stream { (plan : TalkPlan) (input : List ℕ) (n : ℕ) → IsPlan plan → IsAhead plan.crf plan.lead → length input ≤ most_input
        → n < (journal plan input).times.packets
        → IsSomeAnd (slice_get (stream_frames plan input) n) (λ f. f.arrival ≤ℤ pos ((journal plan input).times.due n)) }
{}

/// If no restart lies between packet n and the seventh packet before it, packet n has a head in the plan's journal. At
/// least one of the packets n - 7 to n is stamped, and the time of packet n is counted from one of these stamped
/// packets.
pub fn packets_have_heads()
    ensures { (plan : TalkPlan) (input : List ℕ) (n : ℕ) → IsAudioPlan plan → 7 ≤ n → run_of plan (n - 7) ≡ run_of plan n
        → IsSome (head_of (journal plan input).times n) }
{}

/// The bytes of a packet's frame encode an Ethernet frame, and the payload of this frame encodes the packet of PCM,
/// AM824 or H.264.
pub fn packets_read_back()
    ensures frame { (plan : TalkPlan) (format : AafFormat) (sparse : Bool) (n : ℕ) (samples : List ℕ)
        → SpellsFrame (aaf_bytes format sparse plan n samples) (ethernet (aaf_spelling (aaf_packet format sparse plan n samples))) }
    ensures packet { (plan : TalkPlan) (format : AafFormat) (sparse : Bool) (n : ℕ) (samples : List ℕ) → IsPlan plan → plan.kind ≡ Aaf format sparse
        → plan.id < 2 ^ 64
        → length samples ≡ plan.count * frame_size plan.channels format
        → SpellsAaf (aaf_spelling (aaf_packet format sparse plan n samples)) (aaf_packet format sparse plan n samples) }
    ensures blocks_frame { (plan : TalkPlan) (n : ℕ) (blocks : List ℕ)
        → SpellsFrame (packet_bytes (Am824Data (iec_packet plan n blocks))) (ethernet (iec_spelling (iec_packet plan n blocks))) }
    ensures blocks { (plan : TalkPlan) (n : ℕ) (blocks : List ℕ) → IsPlan plan → plan.kind ≡ Am824 → plan.id < 2 ^ 64
        → length blocks ≡ plan.count * block_size plan.channels → SpellsIec (iec_spelling (iec_packet plan n blocks)) (iec_packet plan n blocks) }
    ensures video_frame { (plan : TalkPlan) (input : List ℕ) (last_stamp : Bool) (n : ℕ)
        → SpellsFrame (packet_bytes (H264Data (sent_packet last_stamp plan input n))) (ethernet (cvf_spelling (sent_packet last_stamp plan input n))) }
    ensures video { (plan : TalkPlan) (input : List ℕ) (last_stamp : Bool) (n : ℕ) → plan.id < 2 ^ 64 → n < all_packets (sent_units input)
        → SpellsCvf (cvf_spelling (sent_packet last_stamp plan input n)) (sent_packet last_stamp plan input n) }
{
    cvf_format::laws::packet_again();
}

/// The capture of a plan holds exactly the records of its frames, and reads back as these records.
pub fn capture_reads_back()
    ensures capture { (plan : TalkPlan) (input : List ℕ) → IsPlan plan → length input ≤ most_input
        → IsCapture capture_style (records plan input) (capture plan input) }
    ensures records { (plan : TalkPlan) (input : List ℕ) → IsPlan plan → length input ≤ most_input → whole_records (capture plan input) ≡ records plan input }
    ensures refusal { (plan : TalkPlan) (input : List ℕ) → IsPlan plan → length input ≤ most_input → first_refusal (capture plan input) ≡ None }
{}

/// The journal of a plan conforms: its talker keeps every rule that a listener relies on, and also the further rules of
/// regular talkers.
pub fn journal_conforms()
    ensures conforms { (plan : TalkPlan) (input : List ℕ) → IsPlan plan → plan.id < 2 ^ 64 → length input ≤ most_input → IsConforming (pos 0) (journal plan input) }
    ensures regular { (plan : TalkPlan) (input : List ℕ) → IsPlan plan → length input ≤ most_input → IsRegular (journal plan input).times }
{}

/// The capture of a plan delivers its journal: its records carry each packet of the stream and of its clock once.
/// Without a clock, the records carry the packets of the stream in order. If the plan is sparse PCM, or AM824 with
/// fewer data blocks in a packet than the SYT interval, the capture delivers the journal to each listener whose lead is
/// near the plan's lead. For all other plans, the capture delivers the journal to every listener.
pub fn capture_delivers()
    ensures carries { (plan : TalkPlan) (input : List ℕ) (lead : ℕ) → IsPlan plan → plan.crf ≡ None → length input ≤ most_input → Expects plan lead
        → AllCarry (journal plan input) lead (range_with_len 0 (journal plan input).times.packets) (records plan input) }
    ensures delivers { (plan : TalkPlan) (input : List ℕ) (clock : Option ℕ) (lead : ℕ) → IsPlan plan → plan.id < 2 ^ 64 → length input ≤ most_input
        → Expects plan lead → Delivers (journal plan input) clock lead (records plan input) }
{
    records_of_both_are_delivered();
}

/// Assume that a capture loses, repeats or reorders a plan's frames, and that each captured frame is captured when it
/// is sent. The capture still reads back as exactly the records of the captured frames, and delivers the plan's journal
/// to the listeners that `capture_delivers` names. If NAL units of H.264 are stamped only on their last fragments,
/// there is a further condition for two adjacent captured packets. If at least one of the two is not stamped, their
/// numbers differ by at most 254.
pub fn losses_are_delivered()
    ensures records { (plan : TalkPlan) (input places : List ℕ) → IsPlan plan → length input ≤ most_input
        → whole_records (capture_of (frames_at plan input places)) ≡ map record_of (frames_at plan input places) }
    ensures delivers { (plan : TalkPlan) (input places : List ℕ) (clock : Option ℕ) (lead : ℕ) → IsAudioPlan plan → plan.id < 2 ^ 64
        → length input ≤ most_input → Expects plan lead → Delivers (journal plan input) clock lead (whole_records (capture_of (frames_at plan input places))) }
    ensures delivers_all { (plan : TalkPlan) (input places : List ℕ) (clock : Option ℕ) (lead : ℕ) → IsPlan plan → plan.id < 2 ^ 64 → length input ≤ most_input
        → Expects plan lead → StaysNear plan input (frames_at plan input places)
        → Delivers (journal plan input) clock lead (whole_records (capture_of (frames_at plan input places))) }
{
    records_of_both_are_delivered();
}
