//! Packets of the clock reference format.

/// A packet of timestamps of a media clock.
#[derive(Clone, Copy, Debug)]
pub struct CrfView<'a> {
    /// The stream ID is valid.
    pub sv: bool,
    /// The media clock restart bit, which toggles when the source of the media clock changes.
    pub mr: bool,
    /// The frame synchronization bit (fs).
    pub fs: bool,
    /// The timestamps are uncertain.
    pub tu: bool,
    /// The sequence number.
    pub seq: u8,
    /// What the clock's events are: 0 means user-specified, 1 audio samples, 2 video frames, 3 video lines, 4 machine
    /// cycles.
    pub kind: u8,
    pub stream_id: u64,
    /// The code of a factor; `base_frequency` is multiplied by this factor. The codes 0 to 5 mean 1, 1000/1001,
    /// 1001/1000, 24/25, 25/24 and 1/8.
    pub pull: u8,
    /// The nominal frequency of the events in Hz, before it is multiplied by the factor: 1 to 2^29 - 1.
    pub base_frequency: u32,
    /// The number of events from each timestamp to the next, at least 1.
    pub interval: u16,
    /// The timestamps in order, each of 8 bytes, as `point` reads them. The payload has at least one timestamp.
    pub payload: &'a [u8],
    /// The reserved bit is set.
    pub reserved: bool,
}
