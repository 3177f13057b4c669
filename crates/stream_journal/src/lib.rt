//! The journal of a talker: which packets it sent, with their true numbers and instants, and the rules that it keeps.
//! This crate holds the definitions. Each function states a law about the definitions, and does nothing.
#![tactic(auto)]

pub mod examples;
pub mod laws;
