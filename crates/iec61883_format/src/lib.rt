//! IEC 61883-6 audio in AVTP (IEEE 1722-2016, 5; IEC 61883-1 and 61883-6).
#![tactic(auto)]

mod blocks;
mod iec;
pub mod laws;
mod reader;
mod writer;

pub use blocks::{anchor_index, rate_of_fdf, syt_interval};
pub use iec::{Cip, IecView};
pub use reader::read_iec;
pub use writer::write_iec;
