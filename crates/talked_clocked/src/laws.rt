//! What a listener with the talker's clock presents of a whole capture. Each call only states its contract, and does
//! nothing.

ghost use Rattle.std.specs.Prelude.{List, ℕ, pos, length, ◌≤◌};
ghost use Rattle.capture_io.specs.Formats.{records_in};
ghost use Rattle.pcap_frames.specs.Capture.{whole_records};
ghost use Rattle.listener.specs.declared.plan.ListenPlan.{ListenPlan};
ghost use Rattle.listener.specs.Heard.{shown_of};
ghost use Rattle.listener.specs.Laws.{HearsTalker};
ghost use Rattle.talk_plan.specs.declared.plan.CrfPlan.{CrfPlan};
ghost use Rattle.talk_plan.specs.declared.plan.TalkPlan.{TalkPlan};
ghost use Rattle.talk_plan.specs.Plan.{most_input};
ghost use Rattle.talker.specs.Frames.{capture};
ghost use Rattle.talker.specs.Journal.{journal};
ghost use Rattle.talked_clocked.specs.Clocked.{ArePresentedFrom, HasDefaultClock, HearsClock, clocked_listener, first_covered};
ghost use Rattle.talked_clocked.specs.Examples.{blocking, six_points, with_clock};

use packet_journal::laws::{carried_clock_packet_is_delivered, carried_packet_is_delivered};
use talked_headline::laws::whole_capture_is_heard;
use talker::laws::capture_reads_back;

/// Files of audio with a media clock that `talk` makes with its default lead meet the whole premise of the headline, for
/// listeners with the default options of `listen`, if three conditions hold: each packet stamps its first sample, there
/// are no restarts, and the listener has that clock.
pub fn clocked_files_are_heard()
    ensures { (plan : TalkPlan) (crf : CrfPlan) (input : List ℕ) → HasDefaultClock plan crf input → HearsTalker (pos 0) (journal plan input) (clocked_listener plan.id crf.id) (records_in (capture plan input)) }
{
    whole_capture_is_heard();
    capture_reads_back();
}

/// Assume that each packet of an audio plan with a clock stamps its first sample. Assume that there are no restarts,
/// and that the lead is at least 3 ns. Assume that the listener has the talker's clock, no look-ahead, and room for
/// what is sent during the lead. Then, from the second timestamp of the clock on, each packet of a whole capture is
/// presented, once and in order. Any other shown item flags a packet with the reason `noclock`. That packet is before
/// the clock's second timestamp.
pub fn clocked_capture_is_presented()
    ensures { (plan : TalkPlan) (crf : CrfPlan) (input : List ℕ) (listen : ListenPlan) → HearsClock plan crf input listen
        → ArePresentedFrom (journal plan input) (first_covered crf plan) (shown_of listen (whole_records (capture plan input))) }
{
    whole_capture_is_heard();
    capture_reads_back();
    carried_packet_is_delivered();
    carried_clock_packet_is_delivered();
}

/// Take a plan that meets the assumptions of `clocked_capture_is_presented` and has the default lead of `talk`. Suppose
/// that a listener has the plan's clock, and otherwise the default options of `listen`. Then the listener presents the
/// plan's packets from the second timestamp of the clock on.
pub fn defaults_present_by_clock()
    ensures hears { (plan : TalkPlan) (crf : CrfPlan) (input : List ℕ) → HasDefaultClock plan crf input → HearsClock plan crf input (clocked_listener plan.id crf.id) }
    ensures presented { (plan : TalkPlan) (crf : CrfPlan) (input : List ℕ) → HasDefaultClock plan crf input
        → ArePresentedFrom (journal plan input) (first_covered crf plan) (shown_of (clocked_listener plan.id crf.id) (whole_records (capture plan input))) }
{
    clocked_capture_is_presented();
}

/// Example plans with a clock, of PCM and of AM824, meet the premises of the law about default options, for any input.
pub fn clocked_examples_are_so()
    ensures pcm { (input : List ℕ) → length input ≤ most_input → HasDefaultClock with_clock six_points input }
    ensures am824 { (input : List ℕ) → length input ≤ most_input → HasDefaultClock blocking six_points input }
{}
