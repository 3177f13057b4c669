//! The command `agree`: what a listener presents of one stream in two captures, compared.
#![tactic(auto)]

mod command;
mod comparing;

pub use command::agree;
