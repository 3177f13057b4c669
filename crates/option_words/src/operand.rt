//! The operands of a command: the words after its options.

ghost use Rattle.std.specs.Prelude.{◌≡◌, ◌↔◌, IsTrue};
ghost use Rattle.option_words.specs.Lines.{FindsFirstOperand};
ghost use Rattle.option_words.specs.Number.{IsNumber};
ghost use Rattle.option_words.specs.Operands.{IsOperand, most_packets};
ghost use Rattle.option_words.specs.Values.{Finds};
ghost use Rattle.option_words.specs.state.Answers.{FindsUnnamed, FindsWrong};
ghost use Rattle.option_words.specs.state.Operands.{takes_all as takes_all_of};
ghost use Rattle.option_words.specs.Tables.{are_sound, rows_of};
ghost use Rattle.option_words.specs.Word.{IsName, IsId};

use crate::number::number_of;
use crate::option::{OptionRow, begins_with_dash, options_len};

/// The greatest number of packets that `soak` accepts.
const MAX_PACKETS: u64 = 1_000_000;

/// The type of an operand.
#[derive(Clone, Copy)]
pub enum Operand {
    /// A stream ID.
    Id,
    /// The name of a file.
    Name,
    /// The number of packets of `soak`. If the number is out of range, the offence is at the number.
    Packets,
    /// The names of files: all remaining words, at least one. No option can follow the first name. The same file can be
    /// named more than once.
    Names,
}

impl Operand {
    fn accepts(self, word: &str) -> bool
        ensures { IsTrue result ↔ IsOperand self word.now }
    {
        match self {
            Operand::Id => id_of(word).is_some(),
            Operand::Packets => packets_of(word).is_some(),
            Operand::Name | Operand::Names => is_name(word),
        }
    }

    /// Whether the operand takes all remaining words.
    fn takes_all(self) -> bool
        ensures { result ≡ takes_all_of self }
    {
        matches!(self, Operand::Names)
    }
}

/// The stream ID that `word` spells in sixteen hexadecimal digits, in lower or upper case.
pub fn id_of(word: &str) -> Option<u64>
    ensures { Finds (IsId word.now) result }
{
    let mut bytes = [0u8; 8];
    match hex::decode_to_slice(word.as_bytes(), &mut bytes) {
        Ok(()) => Some(u64::from_be_bytes(bytes)),
        Err(_) => None,
    }
}

/// The number of packets that `word` spells, 0 to 1,000,000.
pub fn packets_of(word: &str) -> Option<u32>
    ensures { Finds (IsNumber 0 most_packets word.now) result }
{
    let n = number_of(word)?;
    if n <= MAX_PACKETS {
        Some(n as u32)
    } else {
        None
    }
}

/// Whether a word can be the name of a file.
pub fn is_name(word: &str) -> bool
    ensures { IsTrue result ↔ IsName word.now }
{
    !word.is_empty() && !begins_with_dash(word)
}

/// The index of the first word that is not a name.
fn first_unnamed(words: &[String]) -> Option<usize>
    ensures { FindsUnnamed words.now result }
{
    for (place, word) in words.iter().enumerate() {
        if !is_name(word.as_str()) {
            return Some(place);
        }
    }
    None
}

/// The index of the first wrong word. A word is wrong in two cases: no operand takes the word, or the word is not valid
/// as the operand that takes it. A missing word is wrong, too.
fn first_wrong(operands: &[Operand], words: &[String]) -> Option<usize>
    ensures { FindsWrong operands.now words.now result }
{
    match (operands.split_first(), words.split_first()) {
        (None, None) => None,
        (Some((operand, operands)), Some((word, rest))) => {
            if operand.takes_all() {
                first_unnamed(words)
            } else if operand.accepts(word.as_str()) {
                match first_wrong(operands, rest) {
                    Some(place) => Some(place + 1),
                    None => None,
                }
            } else {
                Some(0)
            }
        }
        _ => Some(0),
    }
}

/// The index of the first operand in `words`, the words after a command. At `Err`, the index of the first wrong word. If
/// a word is missing, this index is the number of words.
pub fn first_operand(
    rows: &[OptionRow],
    operands: &[Operand],
    words: &[String],
) -> Result<usize, usize>
    requires { IsTrue (are_sound (rows_of rows.now)) }
    ensures { FindsFirstOperand (rows_of rows.now) operands.now words.now result }
{
    let place = options_len(rows, words)?;
    match first_wrong(operands, &words[place..]) {
        Some(wrong) => Err(place + wrong),
        None => Ok(place),
    }
}
