//! What a talker sends, and when.

use aaf_format::AafFormat;

/// The format of a stream.
#[derive(Clone, Copy, Debug, PartialEq, Eq)]
pub enum TalkKind {
    /// PCM in the AVTP audio format (IEEE 1722-2016, 7). A sparse stream stamps one packet in eight.
    Aaf { format: AafFormat, sparse: bool },
    /// AM824 (IEC 61883-6).
    Am824,
    /// H.264 (IEEE 1722-2016, 8; RFC 6184). With `last_stamp`, a NAL unit is stamped only on its last fragment.
    H264 { last_stamp: bool },
}

/// A media clock that is sent with the stream (IEEE 1722-2016, 10).
#[derive(Clone, Copy, Debug, PartialEq, Eq)]
pub struct CrfPlan {
    /// The stream ID of the clock.
    pub id: u64,
    /// The base frequency in Hz.
    pub rate: u32,
    /// The code of the factor by which the base frequency is multiplied.
    pub pull: u8,
    /// The number of the clock's events from one timestamp to the next.
    pub interval: u16,
    /// The number of timestamps in a packet.
    pub points: u8,
}

/// What a talker sends, and when.
#[derive(Clone, Copy, Debug, PartialEq, Eq)]
pub struct TalkPlan {
    pub kind: TalkKind,
    /// The sample rate in Hz; for H.264, the number of access units in a second.
    pub rate: u32,
    /// The number of channels in a sample frame.
    pub channels: u16,
    /// The number of sample frames in a packet.
    pub count: u32,
    /// The stream ID.
    pub id: u64,
    /// When the first packet is sent, in nanoseconds of gPTP.
    pub start: i64,
    /// The maximum transit time in nanoseconds: a packet is sent this long before the nominal instant of its first
    /// sample frame or, for H.264, of its access unit.
    pub lead: u32,
    /// The media clock restarts after each run of this many packets; with `None`, it never restarts.
    pub restart: Option<u32>,
    /// How far a restart sets presentation times forward, in nanoseconds.
    pub jump: u32,
    /// The media clock that is sent with the stream and that the stream's timestamps follow.
    pub crf: Option<CrfPlan>,
}
