//! The command `talk`: a capture of a stream, made from raw samples or from a byte stream of H.264.
#![tactic(auto)]

mod command;

pub use command::talk;
