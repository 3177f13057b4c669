//! Why an input makes no stream.

use thiserror::Error;

/// The faults that prevent a plan and its input from making a stream, in the order of their tests.
#[derive(Clone, Copy, Debug, PartialEq, Eq, Error)]
pub enum TalkFault {
    /// The input is not a whole number of sample frames.
    #[error("the input is not whole sample frames")]
    Frames,
    /// The input has no start code of H.264 (ITU-T H.264, annex B).
    #[error("the input has no start code")]
    StartCode,
    /// A NAL unit of the input has a type other than 1 to 23.
    #[error("the input has a NAL unit of another type than 1 to 23")]
    NalType,
    /// An access unit needs more than 255 packets.
    #[error("an access unit needs more than 255 packets")]
    Packets,
    /// A packet would arrive later than a capture can record.
    #[error("a packet would arrive later than a capture can say")]
    Arrival,
    /// Memory ran out.
    #[error("out of memory")]
    Memory,
}
