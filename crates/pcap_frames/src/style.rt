//! The records and the style of a capture.

/// The byte order of a capture's numbers.
#[derive(Clone, Copy, Debug, PartialEq, Eq)]
pub enum Order {
    Little,
    Big,
}

/// A capture counts the fraction of a second in this unit.
#[derive(Clone, Copy, Debug, PartialEq, Eq)]
pub enum Unit {
    Micro,
    Nano,
}

/// How a capture is encoded, according to its magic number: its byte order, and the unit of the fraction.
#[derive(Clone, Copy, Debug, PartialEq, Eq)]
pub struct Style {
    pub order: Order,
    pub unit: Unit,
}

/// A record of a capture.
#[derive(Clone, Copy, Debug)]
pub struct RecordView<'a> {
    /// When the frame was captured, in nanoseconds: the seconds plus the fraction, even if the fraction is one second
    /// or more.
    pub arrival: i64,
    /// The length in bytes of the frame on the wire.
    pub orig_len: u32,
    /// The captured bytes of the frame.
    pub bytes: &'a [u8],
}
