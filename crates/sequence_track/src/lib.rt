//! Tracks streams, and finds packets that break the rules of their stream.
#![tactic(auto)]

mod seen;
mod stream;
mod tracker;

pub use seen::{Findings, Seen};
pub use tracker::Tracker;
