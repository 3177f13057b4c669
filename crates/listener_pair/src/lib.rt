//! Where two listeners present different samples of one stream.
#![tactic(auto)]

mod difference;
pub mod laws;
mod matching;
mod placed;
mod reach;
mod timed;
mod way;
mod window;

pub use difference::{Difference, PairCounts, Way, Which};
pub use matching::Matching;
