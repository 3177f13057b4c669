//! Everything that a listener with the talker's clock presents of a whole capture.
#![tactic(auto)]

pub mod laws;
