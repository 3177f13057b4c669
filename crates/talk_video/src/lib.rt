//! The packets of a stream of H.264: the NAL units of a byte stream, their access units and fragments, and the frames that
//! carry them.
#![tactic(auto)]

pub mod laws;
mod units;
mod video;

pub use units::units_fault;
pub use video::VideoStream;
