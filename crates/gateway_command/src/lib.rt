//! The command `gateway`: a stream of a capture becomes a capture of the other audio format.
#![tactic(auto)]

mod command;
mod scanning;
mod turning;

pub use command::gateway;
