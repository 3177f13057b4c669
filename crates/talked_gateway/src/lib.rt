//! Laws about what a gateway makes from captures of talkers' plans.
#![tactic(auto)]

pub mod laws;
