//! What tests share: test vectors of AVTP packets and captures, the notation for bytes in the rows of tables, and
//! reproducible pseudo-random numbers.
#![tactic(auto)]

mod changes;
mod draws;
mod rows;
mod vectors;

pub use changes::changed;
pub use draws::Draws;
pub use rows::{bytes_of, check_rows, refusal_text, row_of, told_when_cut};
pub use vectors::vector;
