//! A stream, and the state that is kept for it.

ghost use Rattle.std.specs.Prelude.{◌≡◌, ◌∷◌, [], List, Some};
ghost use Rattle.sequence_track.specs.Findings.{hold_after, step_after, stream_of, tracked_findings};
ghost use Rattle.sequence_track.specs.Tracking.{state_of};
ghost use Rattle.sequence_track.specs.declared.seen.Seen.{Seen as SeenValue};

use crate::seen::{Findings, Seen};

/// The media clock restart bit must keep its value for at least this many packets.
const LEAST_HOLD: u32 = 8;

/// What identifies a stream.
#[derive(Clone, Copy, Debug, PartialEq, Eq, Hash)]
pub struct StreamKey {
    pub subtype: u8,
    pub id: u64,
}

impl Seen {
    /// The stream of the packet.
    pub(crate) fn stream(&self) -> StreamKey
        ensures { result ≡ stream_of self.now }
    {
        StreamKey {
            subtype: self.subtype,
            id: self.id,
        }
    }
}

/// The state of a stream after at least one packet.
#[derive(Clone, Copy, Debug)]
pub struct StreamState {
    /// The sequence number of the newest packet.
    seq: u8,
    /// The media clock restart bit of the newest packet.
    mr: bool,
    /// The number of packets for which the media clock restart bit has kept its value, or 8 if the number is greater.
    /// `None` if the media clock restart bit has never changed.
    held: Option<u32>,
}

impl StreamState {
    /// The state of a stream after its first packet.
    pub fn first(seen: &Seen) -> Self
        ensures { Some result ≡ state_of (seen.now ∷ []) }
    {
        StreamState {
            seq: seen.seq,
            mr: seen.mr,
            held: None,
        }
    }

    /// The state after one more packet.
    pub fn after(&self, seen: &Seen) -> Self
        ensures { (recent : List SeenValue) → state_of recent ≡ Some self.now → state_of (seen.now ∷ recent) ≡ Some result }
    {
        let held = if seen.mr == self.mr {
            self.held
                .map(|packets| packets.saturating_add(1).min(LEAST_HOLD))
        } else {
            Some(1)
        };
        StreamState {
            seq: seen.seq,
            mr: seen.mr,
            held,
        }
    }

    /// The step from the newest packet's sequence number to that of the next packet, if the step is not 1.
    fn step(&self, seen: &Seen) -> Option<u8>
        ensures { (recent : List SeenValue) → state_of recent ≡ Some self.now → result ≡ step_after recent seen.now }
    {
        let step = seen.seq.wrapping_sub(self.seq);
        if step == 1 { None } else { Some(step) }
    }

    /// If the media clock restart bit changes again too early at the next packet, the result is how many packets in a
    /// row had the bit's previous value.
    fn hold(&self, seen: &Seen) -> Option<u32>
        ensures { (recent : List SeenValue) → state_of recent ≡ Some self.now → result ≡ hold_after recent seen.now }
    {
        if seen.mr == self.mr {
            return None;
        }
        match self.held {
            Some(packets) if packets < LEAST_HOLD => Some(packets),
            _ => None,
        }
    }

    /// The findings in the next packet.
    pub fn findings(&self, seen: &Seen) -> Findings
        ensures { (recent : List SeenValue) → state_of recent ≡ Some self.now → result ≡ tracked_findings recent seen.now }
    {
        Findings {
            reserved: seen.reserved,
            step: self.step(seen),
            hold: self.hold(seen),
            stamp: seen.stamp_wrong,
            untracked: false,
        }
    }
}

/// The findings in the first packet of a stream.
pub fn first_findings(seen: &Seen) -> Findings
    ensures { result ≡ tracked_findings [] seen.now }
{
    Findings {
        reserved: seen.reserved,
        step: None,
        hold: None,
        stamp: seen.stamp_wrong,
        untracked: false,
    }
}
