//! Sends a stream of many packets over a bad network, lets a listener hear it, and counts what becomes of the
//! deliveries.
#![tactic(auto)]

mod counts;
mod deliveries;
mod generator;
mod hearing;
pub mod laws;
mod run;
mod samples;

pub use counts::SoakCounts;
pub use deliveries::{SOAK_PLAN, soak_deliveries};
pub use generator::Noise;
pub use run::soak;
