//! Laws about what a gateway makes from a capture of a talker's plan. Each law is stated by the contract of a function.

ghost use Rattle.std.specs.Prelude.{◌≡◌, ◌≤◌, ◌<◌, ◌^◌, Bool, ℕ, IsSome, List, None, map};
ghost use Rattle.aaf_format.specs.declared.aaf.AafFormat.TheVariants.{Int24};
ghost use Rattle.am824_gateway.specs.declared.scan.To.{To as ToValue};
ghost use Rattle.am824_gateway.specs.declared.scan.To.TheVariants.{Am824};
ghost use Rattle.am824_gateway.specs.Scan.{first_fault, shape_in};
ghost use Rattle.gateway_laws.specs.Kept.{Hears, SkipsNone};
ghost use Rattle.gateway_laws.specs.Returned.{frames_made};
ghost use Rattle.gateway_laws.specs.Room.{HasDefaultRoom};
ghost use Rattle.listener.specs.declared.plan.ListenPlan.{ListenPlan};
ghost use Rattle.listener.specs.Heard.{due_of, shown_of};
ghost use Rattle.listener.specs.Laws.{presented_of};
ghost use Rattle.talk_plan.specs.declared.plan.TalkKind.TheVariants.{Aaf};
ghost use Rattle.talk_plan.specs.declared.plan.TalkPlan.{TalkPlan};
ghost use Rattle.talk_plan.specs.Plan.{fdf_of};
ghost use Rattle.talker.specs.Frames.{record_of};
ghost use Rattle.talked_headline.specs.Premises.{ListensTo, captured};

use talked_headline::laws::talked_keeps_headline;
use talker::laws::{journal_conforms, losses_are_delivered};

/// Let a listener without a clock hear a capture of an audio plan, and let a scan find no fault in this capture. It
/// does not matter whether the capture loses, repeats or reorders packets. Then a gateway skips nothing that the
/// listener presents. The reason: each packet begins after all earlier packets have ended, and arrives before 2^32
/// seconds. Some batches are already certain to be presented, whatever records follow. A gateway also skips none of
/// these batches.
///
/// Two kinds of streams have packets without a timestamp: sparse PCM, and AM824 with fewer blocks in a packet than
/// SYT_INTERVAL. For these streams, the max transit times of the listener and of the plan must differ by less than the
/// duration of 127 packets.
pub fn nothing_talked_is_skipped()
    ensures shown { (to : ToValue) (plan : TalkPlan) (input places : List ℕ) (listen : ListenPlan) → ListensTo plan input listen → listen.clock ≡ None → first_fault to listen.stream (captured plan input places) ≡ None
        → SkipsNone to (shape_in listen.stream (captured plan input places)) (presented_of (shown_of listen (captured plan input places))) }
    ensures due { (to : ToValue) (plan : TalkPlan) (input places : List ℕ) (listen : ListenPlan) → ListensTo plan input listen → listen.clock ≡ None → first_fault to listen.stream (captured plan input places) ≡ None
        → SkipsNone to (shape_in listen.stream (captured plan input places)) (presented_of (due_of listen (captured plan input places))) }
{
    journal_conforms();
    talked_keeps_headline();
}

/// Let a listener without a clock hear a capture of an audio plan, and let a scan find no fault in this capture. A
/// gateway converts what the listener presents, and sends it under any stream ID. A second listener, without a clock
/// and with at least the default buffer, hears the gateway's packets. Then the buffer of the listener that hears the
/// gateway's packets is never full. Hence the laws about what is presented from a gateway's packets apply to the second
/// listener.
pub fn default_listeners_hear_turned_captures()
    ensures { (to : ToValue) (plan : TalkPlan) (input places : List ℕ) (listen : ListenPlan) (id : ℕ) (hearing : ListenPlan) → ListensTo plan input listen → listen.clock ≡ None → first_fault to listen.stream (captured plan input places) ≡ None
        → id < 2 ^ 64 → HasDefaultRoom id hearing → Hears id hearing (map record_of (frames_made to listen id (captured plan input places))) }
{
    journal_conforms();
    talked_keeps_headline();
}

/// Let a plan without a media clock send PCM of 24 bits. Let the plan's rate be one that AM824 has, and let the plan
/// have at most 256 channels. Then a scan finds no fault in a capture of this plan, whatever packets the capture loses,
/// repeats or reorders. So a gateway converts all that is presented.
pub fn talked_pcm_can_be_turned()
    ensures { (plan : TalkPlan) (input places : List ℕ) (listen : ListenPlan) (sparse : Bool) → ListensTo plan input listen → plan.kind ≡ Aaf Int24 sparse → plan.crf ≡ None → IsSome (fdf_of plan.rate) → plan.channels ≤ 256
        → first_fault Am824 listen.stream (captured plan input places) ≡ None }
{
    journal_conforms();
    losses_are_delivered();
}
