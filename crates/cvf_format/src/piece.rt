//! What becomes of the fragments of NAL units.

/// The packet that a fragment arrived in: the number of the packet's frame in the capture, counted from 1; the packet's
/// sequence number; and its arrival in nanoseconds of gPTP.
#[derive(Clone, Copy, Debug, PartialEq, Eq)]
pub struct Mark {
    pub frame: u64,
    pub seq: u8,
    pub arrival: i64,
}

/// Why a fragment is in no unit.
#[derive(Clone, Copy, Debug, PartialEq, Eq)]
pub enum Lost {
    /// Fragments before or after the fragment are missing, or do not match it.
    Broken,
    /// The unit would have more than 4,194,304 bytes or 4,096 fragments.
    Long,
}

/// What becomes of a packet, as far as is known when the packet arrives.
#[derive(Clone, Copy, Debug, PartialEq, Eq)]
pub enum Piece {
    /// The packet completes its unit.
    Whole,
    /// The packet waits for the rest of its unit.
    Held,
    /// The packet is in no unit.
    Lost(Lost),
}

/// What happened when a packet was pushed.
#[derive(Clone, Copy, Debug, PartialEq, Eq)]
pub struct Pushed {
    /// The number of earlier fragments that the packet gave up.
    pub lost: u32,
    /// Why the packet gave up earlier fragments; `Broken` if it gave up none.
    pub why: Lost,
    /// What becomes of the packet itself.
    pub piece: Piece,
}
