//! Laws of the whole command, from its words to what it gives out.
#![tactic(auto)]

pub mod laws;
