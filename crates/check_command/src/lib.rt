//! The command `check`: what breaks the rules of a stream.
#![tactic(auto)]

mod checked;
mod command;

pub use command::check;
