//! Stamps, and what a packet without a timestamp looks for among them. The instants of samples are counted from stamps.

/// A packet's timestamp, as an instant.
#[derive(Clone, Copy, Debug, PartialEq, Eq)]
pub struct Stamp {
    /// The sequence number of the packet.
    pub seq: u8,
    /// The media clock restart bit.
    pub mr: bool,
    /// The block count, modulo 256, of the stamped data block (IEC 61883-6); none for AAF.
    pub block: Option<u8>,
    /// The nominal rate in Hz.
    pub rate: u32,
    /// The instant of the stamped sample, in nanoseconds of gPTP.
    pub instant: i64,
}

/// A search for a stamp: a packet without a timestamp is counted from that stamp.
#[derive(Clone, Copy, Debug, PartialEq, Eq)]
pub struct Want {
    /// The sequence number of the stamped packet.
    pub seq: u8,
    /// The media clock restart bit of the stamped packet.
    pub mr: bool,
    /// The block count, modulo 256, of the wanted stamped block (IEC 61883-6); none for AAF.
    pub block: Option<u8>,
    /// The nominal rate of the stamped packet, in Hz.
    pub rate: u32,
    /// When the packet without a timestamp was captured, in nanoseconds of gPTP.
    pub arrival: i64,
    /// The packet is expected to arrive this many nanoseconds before the instant of its first sample.
    pub lead: u32,
    /// The packet's first sample is this many samples after the stamped sample.
    pub back: u32,
    /// The number of samples of the packet without a timestamp.
    pub count: u32,
}
