//! The promise of listeners for conforming talkers, applied to the captures of a talker's plans.
#![tactic(auto)]

pub mod laws;
