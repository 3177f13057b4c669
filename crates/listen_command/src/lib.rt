//! The command `listen`: when each sample of a stream is due.
#![tactic(auto)]

mod command;
mod presenting;
mod receiving;
mod rounds;

pub use command::listen;
