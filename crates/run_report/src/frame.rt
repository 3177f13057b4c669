//! Refusals in a frame's payload.

ghost use Rattle.std.specs.Prelude.{◌≡◌, ◌+◌, ◌^◌, ◌<◌};
ghost use Rattle.run_report.specs.Frame.{inside};

use avtp_base::Refusal;
use pcap_frames::FrameView;

/// A refusal in a frame's payload, with the offset of the refused field counted from the start of the frame.
pub fn in_frame(frame: &FrameView<'_>, refusal: Refusal) -> Refusal
    requires { refusal.at + frame.now.start < 2 ^ 64 }
    ensures { result ≡ inside frame.now.start refusal }
{
    Refusal {
        at: refusal.at + frame.start as u64,
        ..refusal
    }
}
