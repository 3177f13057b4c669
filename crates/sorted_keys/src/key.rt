//! The keys of waiting batches.

/// The key of a batch: the instant of its first sample, its sequence number, and the slot of the batch.
#[derive(Clone, Copy)]
pub struct Key {
    pub instant: i64,
    pub seq: u8,
    pub slot: usize,
}
