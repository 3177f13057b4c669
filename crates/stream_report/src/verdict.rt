//! What is wrong with a stream.

use crate::pace::Miss;
use crate::tally::Tally;

/// A guess at how the clocks of the capture and the talker differ.
#[derive(Clone, Copy)]
pub enum ClockGuess {
    /// Presentation times are 37 s after the packets' arrivals: the capture's clock is on UTC, and the talker's on TAI.
    CaptureBehind,
    /// Presentation times are 37 s before the packets' arrivals.
    CaptureAhead,
    /// The clocks differ by some other time.
    Apart,
}

/// A verdict. The kinds are in order, the worst first. Times are in nanoseconds.
#[derive(Clone, Copy)]
pub enum Verdict {
    /// Most timestamps do not advance by their packets' durations. `swapped` is true if swapping the bytes of the
    /// timestamps would help: at most one in `FEW` timestamps would then not advance by its packet's duration.
    NotInOrder {
        off: u64,
        compared: u64,
        first: Miss,
        swapped: bool,
    },
    /// Presentation times are far from the packets' arrivals. `lead` is the median distance. If `exact` is true, the
    /// distance is exact. If `exact` is false, the distance is known only modulo 2^32.
    Clocks {
        lead: i64,
        guess: ClockGuess,
        exact: bool,
    },
    /// Packets that were refused as malformed.
    Malformed {
        packets: Tally,
    },
    /// Packets from another sender, to another destination, or with another VLAN tag.
    Senders {
        packets: Tally,
    },
    /// Packets that are missing, and the number of packets missing in the longest gap, as counted when the packet after
    /// that gap arrived.
    Lost {
        packets: Tally,
        most: u64,
    },
    /// Packets that arrived after their presentation time, and the greatest delay.
    Late {
        packets: Tally,
        stamped: u64,
        most: u64,
    },
    /// The first timestamp does not fit the timestamps that follow.
    FirstStamp {
        found: i64,
        wanted: u64,
    },
    /// Timestamps that do not advance by their packets' durations.
    Steps {
        off: u64,
        compared: u64,
        first: Miss,
    },
    /// Block counts (DBC) that do not continue the block count of the previous packet.
    Blocks {
        packets: Tally,
    },
    /// Packets that arrived more than once.
    Repeated {
        packets: Tally,
    },
    /// Packets that arrived after packets with later numbers.
    Reordered {
        packets: Tally,
    },
    /// Restarts of the media clock that follow the previous restart after fewer than 8 packets.
    Flapping {
        restarts: Tally,
    },
    /// Packets that have no timestamp but should have one.
    Missing {
        packets: Tally,
    },
    /// Packets that have a timestamp but should have none.
    Unwanted {
        packets: Tally,
    },
    /// Timestamps drift against their arrivals, by `parts` parts of 10^9.
    Drift {
        parts: i64,
    },
    /// Uneven arrivals. If `bursts` is true, most packets arrive less than half a packet's duration after the previous
    /// packet.
    Jitter {
        packets: Tally,
        compared: u64,
        bursts: bool,
    },
    /// The format changes.
    Formats {
        packets: Tally,
    },
    /// Quadlets with a reserved label.
    Labels {
        quadlets: Tally,
        label: u8,
    },
    /// Packets with a reserved bit set.
    Reserved {
        packets: Tally,
    },
    /// Packets whose timestamp is uncertain.
    Uncertain {
        packets: Tally,
    },
}

impl Verdict {
    /// How bad the verdict is. 0 is the worst.
    pub fn rank(&self) -> u8 {
        match self {
            Verdict::NotInOrder { .. } => 0,
            Verdict::Clocks { .. } => 1,
            Verdict::Malformed { .. } => 2,
            Verdict::Senders { .. } => 3,
            Verdict::Lost { .. } => 4,
            Verdict::Late { .. } => 5,
            Verdict::FirstStamp { .. } => 6,
            Verdict::Steps { .. } => 7,
            Verdict::Blocks { .. } => 8,
            Verdict::Repeated { .. } => 9,
            Verdict::Reordered { .. } => 10,
            Verdict::Flapping { .. } => 11,
            Verdict::Missing { .. } => 12,
            Verdict::Unwanted { .. } => 13,
            Verdict::Drift { .. } => 14,
            Verdict::Jitter { .. } => 15,
            Verdict::Formats { .. } => 16,
            Verdict::Labels { .. } => 17,
            Verdict::Reserved { .. } => 18,
            Verdict::Uncertain { .. } => 19,
        }
    }
}
