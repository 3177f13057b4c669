//! AVTP clock reference format (IEEE 1722-2016, 10).
#![tactic(auto)]

mod crf;
pub mod laws;
mod reader;
mod writer;

pub use crf::CrfView;
pub use reader::{point, read_crf};
pub use writer::write_crf;
