//! The spread of values: the least, the greatest, and percentiles from a histogram.
#![tactic(auto)]

mod spread;

pub use spread::Spread;
