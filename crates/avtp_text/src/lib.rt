//! The exact lines that `avtp` prints, and the one bounded buffer that they go through.
#![tactic(auto)]

mod aaf_line;
mod agree;
mod buffer;
mod check;
mod gateway;
mod line;
mod listen;
mod notices;
mod overwrite;
mod pairs;
mod sample_line;
mod show;
mod soak;
mod talk;

pub use agree::PacketPair;
pub use buffer::{ROOM, Text};
