//! The listener that the options of `listen`, `agree` and `gateway` ask for.

ghost use Rattle.avtp_words.specs.state.Answers.{ReadsListener};
ghost use Rattle.option_words.specs.Word.{texts};

use crate::limits::{
    BUFFER, BUFFER_DEFAULT, CLOCK, CRF_SHIFT, CRF_SHIFT_DEFAULT, LEAD_DEFAULT, LIMIT, LISTEN_LEAD,
    LOOK, LOOK_DEFAULT, MAX_LIMIT, ROOM, ROOM_DEFAULT,
};
use option_words::{id_if, number_after, signed_number_after, small_number_after};

/// A stream to listen to, and the bounds and the media clock of its listener.
#[derive(Clone, Copy, Debug, PartialEq, Eq)]
pub struct ListenerOptions {
    /// The stream ID.
    pub stream: u64,
    /// The maximum number of bytes that are read from each capture, 1 to 2^40.
    pub limit: u64,
    /// The maximum number of packets that are queued until their presentation time, 1 to 65,536.
    pub buffer: u32,
    /// The maximum number of bytes in the queued packets, 1 to 1,073,741,824.
    pub room: u32,
    /// How many later items are read before an item is judged, 0 to 64.
    pub look: u32,
    /// The max transit time in nanoseconds, 0 to 1,000,000,000. A packet is expected this long before its presentation
    /// time.
    pub lead: u32,
    /// If `--clock` is given, the stream ID of the media clock whose timestamps determine the presentation times.
    pub clock: Option<u64>,
    /// What is added to each timestamp of the clock, in nanoseconds, from -1,000,000,000 to 1,000,000,000.
    pub shift: i64,
}

/// The listener to `stream` that the options of a command ask for.
pub fn listener_after(options: &[String], stream: u64) -> ListenerOptions
    ensures { ReadsListener (texts options.now) stream result }
{
    ListenerOptions {
        stream,
        limit: number_after(options, LIMIT.name, MAX_LIMIT),
        buffer: small_number_after(options, BUFFER.name, BUFFER_DEFAULT),
        room: small_number_after(options, ROOM.name, ROOM_DEFAULT),
        look: small_number_after(options, LOOK.name, LOOK_DEFAULT),
        lead: small_number_after(options, LISTEN_LEAD.name, LEAD_DEFAULT),
        clock: id_if(options, CLOCK.name),
        shift: signed_number_after(options, CRF_SHIFT.name, CRF_SHIFT_DEFAULT),
    }
}
