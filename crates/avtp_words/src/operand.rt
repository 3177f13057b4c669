//! The operands of a command: the words after its options.

ghost use Rattle.std.specs.Prelude.{IsTrue};
ghost use Rattle.avtp_words.specs.state.Answers.{FindsOperands};
ghost use Rattle.avtp_words.specs.state.Operands.{NameStreamAndTwo, stream_operands};
ghost use Rattle.option_words.specs.Operands.{AreOperands};
ghost use Rattle.option_words.specs.Tables.{are_sound, rows_of};
ghost use Rattle.option_words.specs.Word.{texts};

use crate::command::Offence;
use option_words::{Operand, OptionRow, first_operand, id_of};

/// The operands of `agree` and `gateway`: a stream ID and the names of two captures.
pub const STREAM_OPERANDS: [Operand; 3] = [Operand::Id, Operand::Name, Operand::Name];

/// The ID of a stream and the names of two captures.
pub struct StreamAndTwo<'a> {
    pub stream: u64,
    pub first: &'a str,
    pub second: &'a str,
}

/// The stream and the two captures that `operands` name.
pub fn stream_and_two(operands: &[String]) -> StreamAndTwo<'_>
    requires { AreOperands stream_operands (texts operands.now) }
    ensures { NameStreamAndTwo (texts operands.now) result.stream result.first.now result.second.now }
{
    let [id, first, second] = operands else {
        unreachable!()
    };
    let Some(stream) = id_of(id.as_str()) else {
        unreachable!()
    };
    StreamAndTwo {
        stream,
        first: first.as_str(),
        second: second.as_str(),
    }
}

/// The index of the first operand in `words`, the words after a command. The position of an offence is counted on the
/// whole command line; the command has position 1.
pub fn operands_at(
    rows: &[OptionRow],
    operands: &[Operand],
    words: &[String],
) -> Result<usize, Offence>
    requires { IsTrue (are_sound (rows_of rows.now)) }
    ensures { FindsOperands (rows_of rows.now) operands.now words.now result }
{
    match first_operand(rows, operands, words) {
        Ok(place) => Ok(place),
        Err(place) => Err(Offence {
            position: place + 2,
        }),
    }
}
