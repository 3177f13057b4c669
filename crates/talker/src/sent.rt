//! A frame as it is sent.

/// A frame as it is sent. The frame's bytes are borrowed.
#[derive(Clone, Copy, Debug)]
pub struct Sent<'a> {
    /// When the frame is sent, in nanoseconds of gPTP.
    pub arrival: i64,
    /// The number of the frame's packet in the stream or in the clock, counted from 0.
    pub number: u64,
    /// Whether the frame's packet belongs to the media clock.
    pub clock: bool,
    /// The bytes of the Ethernet frame.
    pub bytes: &'a [u8],
}
