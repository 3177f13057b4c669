//! What a schedule shows.

use crate::batch::Batch;
use avtp_base::Field;

/// Why an item is not presented.
#[derive(Clone, Copy, Debug, PartialEq, Eq)]
pub enum Reason {
    /// The packet was refused because of this field.
    Malformed(Field),
    /// The timestamp is uncertain.
    Uncertain,
    /// The packet has no samples.
    Empty,
    /// The packet names no rate.
    NoRate,
    /// The packet's samples must be counted from a timestamp, and no such timestamp is known.
    Untimed,
    /// The packet's samples are counted from a timestamp, and the clock has no line that covers this timestamp.
    NoClock,
    /// The item's first instant had passed when the item arrived.
    Late,
    /// An item with the same first instant and the same sequence number was accepted before.
    Repeat,
    /// The buffer had no room for one more batch, or for the item's bytes.
    Full,
    /// The packet is a fragment of a unit that was not completed.
    Broken,
    /// The packet is a fragment of a unit that was too long.
    Long,
}

/// An item as a listener shows it.
#[derive(Debug, Drop)]
pub enum Shown {
    /// The item is presented.
    Present(Batch),
    /// The item is not presented, for this reason.
    Flag { frame: u64, seq: u8, reason: Reason },
}
