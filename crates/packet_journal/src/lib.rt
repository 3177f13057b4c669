//! The packets of a talker's journal, and the records of a capture that are copies of these packets. The crate defines
//! these packets and copies. Each function states a law about the definitions, and does nothing.
#![tactic(auto)]

pub mod examples;
pub mod laws;
