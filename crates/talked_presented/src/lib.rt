//! Everything that a listener presents of a talker's captures.
#![tactic(auto)]

pub mod laws;
