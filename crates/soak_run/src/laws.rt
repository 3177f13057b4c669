//! Laws of what becomes of deliveries. Each law is a function whose contract states the law.

ghost use Rattle.std.specs.Prelude.{◌≡◌, ◌≤◌, ℕ, None, pos};
ghost use Rattle.listener.specs.Headline.{KeepsHeadline};
ghost use Rattle.listener.specs.Heard.{heard_of};
ghost use Rattle.listener.specs.Laws.{HearsTalker};
ghost use Rattle.pcap_frames.specs.Capture.{first_refusal, whole_records};
ghost use Rattle.soak_run.specs.Captured.{soak_capture, soak_listener, soak_records, soak_stream};
ghost use Rattle.soak_run.specs.Outcomes.{soak_counts, soak_shown, total};

use cvf_format::laws::packet_again;

/// Reading the capture of the deliveries gives exactly the records that were captured. So two listeners show the same
/// items: one that reads the capture's bytes, and one that is given the records.
pub fn capture_is_heard()
    ensures records { (packets : ℕ) → packets ≤ 1000000 → whole_records (soak_capture packets) ≡ soak_records packets }
    ensures refusal { (packets : ℕ) → packets ≤ 1000000 → first_refusal (soak_capture packets) ≡ None }
    ensures shown { (packets : ℕ) → packets ≤ 1000000 → (heard_of soak_listener (soak_capture packets)).shown ≡ soak_shown packets }
{}

/// `HearsTalker`, the premise of the headline, is true of the deliveries. In particular, no copy is so late that it
/// could be taken for another packet.
pub fn deliveries_are_heard()
    ensures { (packets : ℕ) → packets ≤ 1000000 → HearsTalker (pos 0) (soak_stream packets).journal soak_listener (soak_records packets) }
{
    packet_again();
}

/// `KeepsHeadline` is true of what is shown of the deliveries.
pub fn deliveries_keep_headline()
    ensures { (packets : ℕ) → packets ≤ 1000000 → KeepsHeadline (pos 0) (soak_stream packets).journal soak_listener (soak_records packets) (soak_shown packets) }
{
    packet_again();
}

/// Each delivery is shown once: it is presented, or flagged for one of the counted reasons. So the counts add up.
pub fn counts_add_up()
    ensures { (packets : ℕ) → packets ≤ 1000000 → total (soak_counts packets) ≡ (soak_counts packets).delivered }
{
    packet_again();
}
