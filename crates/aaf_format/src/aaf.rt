//! PCM packets of the AVTP audio format.

use avtp_header::StreamHeader;

/// The format of a sample. The highest byte comes first.
#[derive(Clone, Copy, Debug, PartialEq, Eq)]
pub enum AafFormat {
    Float32,
    Int32,
    Int24,
    Int16,
}

/// A PCM packet.
#[derive(Clone, Copy, Debug)]
pub struct AafView<'a> {
    pub header: StreamHeader,
    pub format: AafFormat,
    /// The code of the nominal sample rate (nsr), 0 to 10; 0 means user-specified.
    pub nsr: u8,
    /// The number of channels in each sample frame, 1 to 1023.
    pub channels: u16,
    /// The number of used bits of a sample; 0 means all bits.
    pub depth: u8,
    /// Sparse timestamp mode: one packet in eight has a timestamp.
    pub sparse: bool,
    /// The event field (evt), 0 to 15, whose meaning the upper layer defines.
    pub evt: u8,
    /// The number of sample frames.
    pub count: u32,
    /// The samples. Each sample frame has one sample for each channel, in order.
    pub payload: &'a [u8],
    /// A reserved bit is set.
    pub reserved: bool,
}
