//! The timestamps of a media clock.

ghost use Rattle.std.specs.Prelude.{◌≡◌};
ghost use Rattle.clock_track.specs.Limits.{IsNotable};
ghost use Rattle.clock_track.specs.Views.{row_of};
ghost use Rattle.crf_format.specs.Crf.{crf_of, crf_refusal, crf_shape};
ghost use Rattle.listener.specs.Items.{no_points as none_given, points_of as points_of_packet, points_or_none};

use clock_track::Points;
use crf_format::{CrfView, read_crf};

/// The CRF type of audio samples (IEEE 1722-2016, 10).
const AUDIO_SAMPLE: u8 = 1;

fn points_of<'a>(view: &CrfView<'a>) -> Points<'a>
    ensures { row_of result ≡ points_of_packet (crf_shape view.now) }
{
    Points {
        usable: view.kind == AUDIO_SAMPLE && !view.tu,
        seq: view.seq,
        mr: view.mr,
        base_frequency: view.base_frequency,
        pull: view.pull,
        interval: view.interval,
        payload: view.payload,
    }
}

fn no_points<'a>() -> Points<'a>
    ensures { row_of result ≡ none_given }
{
    Points {
        usable: false,
        seq: 0,
        mr: false,
        base_frequency: 0,
        pull: 0,
        interval: 0,
        payload: &[],
    }
}

/// Borrows the timestamps of a packet of a media clock (IEEE 1722-2016, 10). The timestamps are used only if the packet
/// is well formed and of the type for audio samples, and its times are certain.
pub fn clock_points(packet: &[u8]) -> Points<'_>
    ensures exact { row_of result ≡ points_or_none (crf_refusal packet.now) (crf_of packet.now) }
    ensures notable { IsNotable (row_of result) }
{
    match read_crf(packet) {
        Ok(view) => points_of(&view),
        Err(_) => no_points(),
    }
}
