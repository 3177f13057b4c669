//! Laws of the whole command. Each function only states its contract, and does nothing.

ghost use Rattle.std.specs.Prelude.{◌≡◌, ◌≢◌, ◌≤◌, ◌%◌, ℕ, Bool, List, Some, codes, false, length};
ghost use Rattle.avtp_base.specs.Files.{Files};
ghost use Rattle.talk_plan.specs.declared.plan.TalkPlan.{TalkPlan};
ghost use Rattle.talk_plan.specs.Plan.{most_input};
ghost use Rattle.talker.specs.Frames.{capture};
ghost use Rattle.talked_presented.specs.Examples.{plain};
ghost use Rattle.talked_presented.specs.Whole.{HasDefaultLead, IsDefaultVideo, default_listener, unit_ends};
ghost use Rattle.avtp_words.specs.Grammar.{IsCommandLine, listen, talk};
ghost use Rattle.option_words.specs.Word.{IsId, IsName};
ghost use Rattle.run_report.specs.declared.status.Status.{Status};
ghost use Rattle.run_report.specs.declared.status.Status.TheVariants.{Done, Memory, WriteFault};
ghost use Rattle.run_report.specs.Listener.{plan_of};
ghost use Rattle.talk_command.specs.Talk.{talk_plan};
ghost use Rattle.run_report.specs.Yield.{HandsOn};
ghost use Rattle.run_laws.specs.Defaults.{listen_default, listen_words, talk_default, talk_words};
ghost use Rattle.run_laws.specs.Runs.{GaveAll, Ran, each_packet};

use device_rack::Devices;
use talked_presented::laws::{
    defaults_present_all, defaults_present_all_units, examples_are_so, files_are_heard,
};
use talker::laws::capture_reads_back;

/// `listen STREAM FILE` is a complete command line if STREAM is a stream ID of 16 hexadecimal digits and FILE is a file
/// name. `talk IN OUT` is a complete command line if IN and OUT are two different file names. Each option then has its
/// default: `listen` asks for the listener `default_listener`, and `talk` for the plan `plain false`. The digits
/// 0200000000010001 are the stream ID of the plan `plain false`. Other laws say what the listener presents.
pub fn default_words_are_command_lines()
    ensures listen { (word name : List ℕ) (id : ℕ) → IsId word id → IsName name → IsCommandLine (listen_words word name) (listen (listen_default id name)) }
    ensures listener { (id : ℕ) (name : List ℕ) → plan_of (listen_default id name).listener ≡ default_listener id }
    ensures talk { (input output : List ℕ) → IsName input → IsName output → input ≢ output → IsCommandLine (talk_words input output) (talk (talk_default input output)) }
    ensures plan { (input output : List ℕ) → talk_plan (talk_default input output) ≡ plain false }
    ensures id { IsId (codes "0200000000010001") (plain false).id }
{}

/// Let a file hold a capture of a plan that has the default lead. Suppose that `listen` is run with the plan's stream
/// ID and this file, and that the run ends with `Done`. The devices then got the whole stream of the plan from the
/// capture (`GaveAll`): each packet or, for H.264, each NAL unit. The law follows from what `run` promises
/// (`HasRun.reports.headline`). For audio, the run of `listen` ends with `Done`, unless memory runs out, a write fails
/// or a device fails.
pub fn default_words_present_all<D: Devices>()
    ensures given { (plan : TalkPlan) (input word name : List ℕ) (files after : Files) (old new : D) (failed : Bool) → HasDefaultLead plan input → IsId word plan.id → IsName name
        → files name ≡ Some (capture plan input) → Ran (listen_words word name) (HandsOn D.handed old new) (new ≡ old) failed files after Done → GaveAll plan input (each_packet plan input) (HandsOn D.handed old new) }
    ensures units { (plan : TalkPlan) (input word name : List ℕ) (files after : Files) (old new : D) (failed : Bool) → IsDefaultVideo plan input → IsId word plan.id → IsName name
        → files name ≡ Some (capture plan input) → Ran (listen_words word name) (HandsOn D.handed old new) (new ≡ old) failed files after Done → GaveAll plan input (unit_ends plan input) (HandsOn D.handed old new) }
    ensures ends { (plan : TalkPlan) (input word name : List ℕ) (files after : Files) (old new : D) (ended : Status) → HasDefaultLead plan input → IsId word plan.id → IsName name
        → files name ≡ Some (capture plan input) → Ran (listen_words word name) (HandsOn D.handed old new) (new ≡ old) false files after ended → ended ≢ Memory → ended ≢ WriteFault → ended ≡ Done }
{
    files_are_heard();
    defaults_present_all();
    defaults_present_all_units();
    capture_reads_back();
}

/// Let `talk IN OUT` and then `listen 0200000000010001 OUT` both end with `Done`, and let OUT be unchanged in between.
/// The devices then got exactly the packets that `talk` makes of the bytes of IN: each once, in order and at its
/// instants. Let IN consist of whole sample frames and be at most `most_input` bytes long. `talk` then ends with `Done`
/// unless memory runs out or a write fails.
pub fn talk_and_listen_present_all<D: Devices>()
    ensures made { (bytes input output : List ℕ) (files after : Files) (old new : D) (failed : Bool) → IsName input → IsName output → input ≢ output → files input ≡ Some bytes
        → Ran (talk_words input output) (HandsOn D.handed old new) (new ≡ old) failed files after Done → HasDefaultLead (plain false) bytes × (after output ≡ Some (capture (plain false) bytes)) }
    ensures ends { (bytes input output : List ℕ) (files after : Files) (old new : D) (failed : Bool) (ended : Status) → IsName input → IsName output → input ≢ output → files input ≡ Some bytes
        → length bytes ≤ most_input → length bytes % 4 ≡ 0 → Ran (talk_words input output) (HandsOn D.handed old new) (new ≡ old) failed files after ended → ended ≢ Memory → ended ≢ WriteFault → ended ≡ Done }
    ensures given { (bytes input output : List ℕ) (files made kept after : Files) (a b old new : D) (failed other : Bool) → IsName input → IsName output → input ≢ output → files input ≡ Some bytes
        → Ran (talk_words input output) (HandsOn D.handed a b) (b ≡ a) failed files made Done → kept output ≡ made output
        → Ran (listen_words (codes "0200000000010001") output) (HandsOn D.handed old new) (new ≡ old) other kept after Done → GaveAll (plain false) bytes (each_packet (plain false) bytes) (HandsOn D.handed old new) }
{
    default_words_present_all::<D>();
    examples_are_so();
}
