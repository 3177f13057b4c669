//! H.264 in the AVTP compressed video format (IEEE 1722-2016, 8, and RFC 6184).
#![tactic(auto)]

mod annex_b;
mod assembler;
mod cvf;
pub mod laws;
mod packets;
mod piece;
mod reader;
pub mod unit_laws;
mod writer;

pub use annex_b::{next_unit, split_annex_b};
pub use assembler::Assembler;
pub use cvf::{CvfView, NalPart};
pub use packets::fragments;
pub use piece::{Lost, Mark, Piece, Pushed};
pub use reader::read_cvf;
pub use writer::write_cvf;
