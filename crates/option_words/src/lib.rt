//! Reads the options and the operands of a command from the words after it, or finds the first wrong word.
#![tactic(auto)]

mod number;
mod operand;
mod option;
mod value;

pub use operand::{Operand, first_operand, id_of, packets_of};
pub use option::{OptionRow, Takes, contains, lacks_word, place_of, word_after, word_at};
pub use value::{
    byte_after, format_after, id_after, id_if, number_after, short_number_after,
    signed_number_after, small_number_after, small_number_if,
};
