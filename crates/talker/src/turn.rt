//! What is sent next.

/// What a talker sends next: a frame without its bytes.
#[derive(Clone, Copy, Debug)]
pub struct Turn {
    /// When the frame is sent, in nanoseconds of gPTP.
    pub arrival: i64,
    /// The number of the frame's packet in the stream or in the clock, counted from 0.
    pub number: u64,
    /// Whether the frame's packet belongs to the media clock.
    pub clock: bool,
    /// The number of bytes in the frame.
    pub size: usize,
}
