//! Laws of the pairs of two captures: two captures of one talker never differ, and a capture never differs from itself.
#![tactic(auto)]

pub mod laws;
