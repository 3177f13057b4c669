//! Batches in merged order.

use crate::difference::{Difference, Which};
use crate::timed::Timed;

/// A batch of a side, and the position of the batch in the merged list. Positions are counted from 0.
#[derive(Drop)]
pub struct Placed {
    pub place: u64,
    pub side: Which,
    pub batch: Timed,
}

/// Whether a new batch was paired and, if the two batches of the pair differ, their difference.
#[derive(Clone, Copy)]
pub struct Entered {
    pub paired: bool,
    pub difference: Option<Difference>,
}
