//! The time of a stream: instants from 32-bit timestamps, and the instants of evenly spaced samples.
#![tactic(auto)]

mod anchors;
mod head;
mod head_rule;
mod line;
mod stamp;
mod timestamp;

pub use anchors::Anchors;
pub use head::head_among;
pub use head_rule::{Distance, Head, HeadRule};
pub use line::Line;
pub use stamp::{Stamp, Want};
pub use timestamp::unfold;
