//! The captures of a talker's plans meet every premise of the headline, which is the promise of listeners. Each call
//! only states its contract, and does nothing.

ghost use Rattle.std.specs.Prelude.{List, ℕ, pos, ◌-◌, ◌∷◌, ◌++◌};
ghost use Rattle.std.specs.List.{range_with_len};
ghost use Rattle.listener.specs.declared.plan.ListenPlan.{ListenPlan};
ghost use Rattle.listener.specs.Headline.{KeepsHeadline};
ghost use Rattle.listener.specs.Heard.{shown_of};
ghost use Rattle.listener.specs.Items.{MadeItem};
ghost use Rattle.listener.specs.Laws.{HearsTalker, IsWelcome};
ghost use Rattle.talk_plan.specs.declared.plan.TalkPlan.{TalkPlan};
ghost use Rattle.pcap_frames.specs.Capture.{whole_records};
ghost use Rattle.talker.specs.Frames.{capture};
ghost use Rattle.talker.specs.Journal.{journal};
ghost use Rattle.talked_headline.specs.Premises.{HasRoomForUnit, ListensTo, ListensToVideo, captured};

use listener::laws::{first_fragments_are_welcome, headline_holds};
use packet_journal::laws::carried_packet_is_delivered;
use talker::laws::{
    capture_delivers, capture_reads_back, journal_conforms, losses_are_delivered,
    packets_are_sent_in_time,
};

/// A capture of the frames of an audio plan and of its clock meets the whole premise of the headline, for listeners
/// with or without the clock. The premise is met even if the capture loses, repeats or reorders frames.
pub fn talked_is_heard()
    ensures { (plan : TalkPlan) (input places : List ℕ) (listen : ListenPlan) → ListensTo plan input listen → HearsTalker (pos 0) (journal plan input) listen (captured plan input places) }
{
    journal_conforms();
    losses_are_delivered();
}

/// The whole capture that `talk` makes of an audio plan meets the whole premise of the headline.
pub fn whole_capture_is_heard()
    ensures { (plan : TalkPlan) (input : List ℕ) (listen : ListenPlan) → ListensTo plan input listen → HearsTalker (pos 0) (journal plan input) listen (whole_records (capture plan input)) }
{
    journal_conforms();
    capture_delivers();
    capture_reads_back();
}

/// For a capture of an audio plan and of its clock, what a listener shows keeps the headline. The talker must accept
/// the plan, and the listener must listen to the plan's stream.
pub fn talked_keeps_headline()
    ensures { (plan : TalkPlan) (input places : List ℕ) (listen : ListenPlan) → ListensTo plan input listen
        → KeepsHeadline (pos 0) (journal plan input) listen (captured plan input places) (shown_of listen (captured plan input places)) }
{
    talked_is_heard();
    headline_holds();
}

/// A capture of an H.264 plan meets the whole premise of the headline. The law holds even if the capture loses, repeats
/// or reorders frames. If the plan stamps only the last fragments of units, there is a further condition: of two
/// adjacent captured packets, either both are stamped, or their numbers differ by at most 254.
pub fn talked_video_is_heard()
    ensures { (plan : TalkPlan) (input places : List ℕ) (listen : ListenPlan) → ListensToVideo plan input places listen → HearsTalker (pos 0) (journal plan input) listen (captured plan input places) }
{
    journal_conforms();
    losses_are_delivered();
}

/// Under the premises of `talked_video_is_heard`, what a listener shows for a capture of an H.264 plan keeps the
/// headline. Each unit that is presented is a whole unit of the plan, with its bytes and at its instant.
pub fn talked_video_keeps_headline()
    ensures { (plan : TalkPlan) (input places : List ℕ) (listen : ListenPlan) → ListensToVideo plan input places listen
        → KeepsHeadline (pos 0) (journal plan input) listen (captured plan input places) (shown_of listen (captured plan input places)) }
{
    talked_video_is_heard();
    headline_holds();
}

/// A unit of an H.264 plan must be presented if its packets are the first packets of the capture, in order, and there
/// is room for the unit. The capture can hold anything after the unit's packets. The unit can consist of a single
/// packet.
pub fn talked_unit_is_welcome()
    ensures { (plan : TalkPlan) (input places : List ℕ) (listen : ListenPlan) (from n : ℕ) → ListensToVideo plan input (range_with_len from (n - from) ++ n ∷ places) listen → HasRoomForUnit plan input listen from n
        → (made : MadeItem) × IsWelcome (journal plan input) listen (captured plan input (range_with_len from (n - from) ++ n ∷ places)) 0 n made }
{
    talked_video_is_heard();
    journal_conforms();
    capture_delivers();
    losses_are_delivered();
    packets_are_sent_in_time();
    carried_packet_is_delivered();
    first_fragments_are_welcome();
}
