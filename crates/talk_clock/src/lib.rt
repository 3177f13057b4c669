//! The media clock of a plan, as it is sent: its points, its packets and their frames.
#![tactic(auto)]

mod clock;

pub use clock::ClockStream;
