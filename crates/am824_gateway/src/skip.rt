//! Batches that are skipped.

/// Why a batch is skipped.
#[derive(Clone, Copy, Debug, PartialEq, Eq)]
pub enum Skip {
    /// The stream has no shape, the batch is a unit of H.264, its bytes do not fit the stream's channels, or a quadlet
    /// has a label other than 0x40.
    ShapeOff,
    /// The batch begins at or before the last sample of the batches that were not skipped.
    Overlap,
    /// A packet of the batch would arrive at 2^32 seconds or later. A capture cannot state such an arrival.
    Range,
}
