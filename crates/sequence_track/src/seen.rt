//! What a tracker notes about a packet, and what it finds in the packet.

ghost use Rattle.std.specs.Prelude.{◌≡◌};
ghost use Rattle.sequence_track.specs.Findings.{untracked_findings};

/// What a tracker needs to know about a packet.
#[derive(Clone, Copy, Debug, PartialEq, Eq)]
pub struct Seen {
    /// The stream ID.
    pub id: u64,
    /// The subtype of the packet (IEEE 1722-2016, table 6).
    pub subtype: u8,
    /// The sequence number.
    pub seq: u8,
    /// The media clock restart bit.
    pub mr: bool,
    /// A reserved bit is set.
    pub reserved: bool,
    /// The packet has a timestamp that it must not have, or lacks one that it must have.
    pub stamp_wrong: bool,
}

/// The findings in a packet.
#[derive(Clone, Copy, Debug, PartialEq, Eq)]
pub struct Findings {
    /// A reserved bit is set.
    pub reserved: bool,
    /// The sequence number minus the sequence number of the stream's previous packet, modulo 256, if the difference is
    /// not 1.
    pub step: Option<u8>,
    /// For how many packets the media clock restart bit kept its previous value, if the bit changes again at this
    /// packet after fewer than 8 packets of the stream.
    pub hold: Option<u32>,
    /// The packet has a timestamp that it must not have, or lacks one that it must have.
    pub stamp: bool,
    /// The stream is not tracked, because 1,024 other streams are.
    pub untracked: bool,
}

impl Findings {
    /// The findings in a packet of a stream that is not tracked.
    pub(crate) fn of_untracked(seen: &Seen) -> Self
        ensures { result ≡ untracked_findings seen.now }
    {
        Findings {
            reserved: seen.reserved,
            step: None,
            hold: None,
            stamp: false,
            untracked: true,
        }
    }
}
