//! The command `agree`: which two captures to compare.

ghost use Rattle.std.specs.Prelude.{◌∷◌, codes};
ghost use Rattle.avtp_words.specs.state.Answers.{Asks, Reads};
ghost use Rattle.option_words.specs.Word.{texts};

use crate::command::{Command, Offence};
use crate::limits::AGREE_OPTIONS;
use crate::listener::{ListenerOptions, listener_after};
use crate::operand::{STREAM_OPERANDS, StreamAndTwo, operands_at, stream_and_two};

/// The stream to compare in two captures, and its listener.
#[derive(Clone, Copy, Debug, PartialEq, Eq)]
pub struct Agree<'a> {
    /// The stream, and the listener that presents it from each capture.
    pub listener: ListenerOptions,
    /// The name of the first capture.
    pub a: &'a str,
    /// The name of the second capture.
    pub b: &'a str,
}

/// Reads the words after `agree`.
pub fn read_agree(words: &[String]) -> Result<Command<'_>, Offence>
    ensures { Reads Asks (codes "agree" ∷ texts words.now) result }
{
    let place = operands_at(&AGREE_OPTIONS, &STREAM_OPERANDS, words)?;
    let StreamAndTwo {
        stream,
        first: a,
        second: b,
    } = stream_and_two(&words[place..]);
    let listener = listener_after(&words[..place], stream);
    Ok(Command::Agree(Agree { listener, a, b }))
}
