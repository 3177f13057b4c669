//! What a listener promises before a capture has ended, and what it promises for captures that end early.
#![tactic(auto)]

pub mod examples;
pub mod laws;
