//! The answer of a clock for an instant.

use time_unfold::Line;

/// What a clock says of a sample with a given presentation time.
#[derive(Clone, Copy, Debug, PartialEq, Eq)]
pub enum ClockAnswer {
    /// The sample has the number `offset` on `line`.
    OnLine { line: Line, offset: u64 },
    /// No pair of points of the clock covers the presentation time.
    NoClock,
}
