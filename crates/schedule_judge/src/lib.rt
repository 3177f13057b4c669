//! Shows the schedule of a stream from one entry at a time, in memory that is reserved once.
#![tactic(auto)]

mod judge;
mod pending;
mod verdicts;
mod waiting_room;
mod whole;

pub use judge::Judge;
pub use whole::schedule;
