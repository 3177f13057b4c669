//! Laws about what listeners present from the captures that a gateway makes.
#![tactic(auto)]

pub mod laws;
