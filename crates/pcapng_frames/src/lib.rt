//! Captures in the pcapng layout, in pieces of any length.
#![tactic(auto)]

mod cursor;
mod reader;
mod steps;

pub use reader::Ng;
