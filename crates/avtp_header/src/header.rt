//! The 24-byte header of IEC 61883, AAF and CVF packets.

/// The EtherType of AVTP (IEEE 1722-2016, 4.2).
pub const ETHERTYPE: u16 = 0x22F0;

/// The fields that each AVTP packet of a stream begins with.
#[derive(Clone, Copy, Debug, PartialEq, Eq)]
pub struct Peeked {
    pub subtype: u8,
    /// Whether the stream ID is valid.
    pub sv: bool,
    /// The sequence number.
    pub seq: u8,
    pub stream_id: u64,
}

/// The common stream header.
#[derive(Clone, Copy, Debug, PartialEq, Eq)]
pub struct StreamHeader {
    pub subtype: u8,
    /// Whether the stream ID is valid.
    pub sv: bool,
    /// The media clock restart bit, which toggles when the source of the media clock changes.
    pub mr: bool,
    /// Two bits whose meaning each format defines, as a number from 0 to 3.
    pub format_bits: u8,
    /// Whether the timestamp is valid.
    pub tv: bool,
    /// The sequence number.
    pub seq: u8,
    /// Whether the timestamp is uncertain.
    pub tu: bool,
    pub stream_id: u64,
    /// The presentation time, in nanoseconds of gPTP modulo 2^32.
    pub timestamp: u32,
    /// The number of bytes of the packet that follow byte 23.
    pub data_length: u16,
}
