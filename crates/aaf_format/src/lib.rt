//! AVTP audio format, PCM (IEEE 1722-2016, 7).
#![tactic(auto)]

mod aaf;
pub mod laws;
mod reader;
mod writer;

pub use aaf::{AafFormat, AafView};
pub use reader::{rate_of, read_aaf, width_of};
pub use writer::write_aaf;
