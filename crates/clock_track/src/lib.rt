//! The media clock of a stream: packets of reference timestamps (IEEE 1722-2016, 10).
#![tactic(auto)]

mod answer;
mod bounds;
mod clock;
mod clock_row;
pub mod laws;
mod over;
mod pair;
mod pull;
mod query;
mod search;

pub use answer::ClockAnswer;
pub use clock::Clock;
pub use clock_row::{ClockRow, Points};
pub use over::line_over;
pub use pair::Pair;
pub use pull::{pull_down, pull_up};
