//! Why bytes could not be read or written.

use crate::field::Field;

/// The first field that cannot be accepted, in the order of the format's checks.
#[derive(Clone, Copy, Debug, PartialEq, Eq)]
pub struct Refusal {
    pub field: Field,
    /// The offset of the field's first byte in the bytes that were read.
    pub at: u64,
    /// Whether the field is refused because it is cut off, and not because of its value.
    pub short: bool,
}

/// The refusal of a writer whose output slice is too short for the spelling. The slice is unchanged.
#[derive(Clone, Copy, Debug, PartialEq, Eq)]
pub struct Room {
    /// The length of the spelling in bytes.
    pub need: usize,
    /// The length of the output slice in bytes.
    pub found: usize,
}
