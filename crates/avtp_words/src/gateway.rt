//! The command `gateway`: which stream of a capture to convert to the other format.

ghost use Rattle.std.specs.Prelude.{◌≡◌, ◌∷◌, codes, Some};
ghost use Rattle.avtp_words.specs.Grammar.{gateway_format_name};
ghost use Rattle.avtp_words.specs.state.Answers.{Asks, Reads};
ghost use Rattle.option_words.specs.Values.{Finds, value_after};
ghost use Rattle.option_words.specs.Word.{texts};

use crate::command::{Command, Offence};
use crate::limits::{GATEWAY_OPTIONS, ID, TO};
use crate::listener::{ListenerOptions, listener_after};
use crate::operand::{STREAM_OPERANDS, StreamAndTwo, operands_at, stream_and_two};
use option_words::{id_after, word_after};

/// A format that `gateway` writes.
#[derive(Clone, Copy, Debug, PartialEq, Eq)]
pub enum GatewayFormat {
    /// AM824 (IEC 61883-6).
    Am824,
    /// PCM in the AVTP audio format (IEEE 1722-2016, 7).
    Aaf,
}

/// The stream of a capture to convert, its listener, and the format of the output.
#[derive(Clone, Copy, Debug, PartialEq, Eq)]
pub struct Gateway<'a> {
    /// The stream, and the listener that presents it.
    pub listener: ListenerOptions,
    /// The format of the capture that is written.
    pub to: GatewayFormat,
    /// The stream ID in the capture that is written.
    pub id: u64,
    /// The name of the capture to read.
    pub input: &'a str,
    /// The name of the capture to write.
    pub output: &'a str,
}

/// Reads the words after `gateway`. If each word is valid, but `--to` is not given or the output has the input's name,
/// the offence is at the command.
pub fn read_gateway(words: &[String]) -> Result<Command<'_>, Offence>
    ensures { Reads Asks (codes "gateway" ∷ texts words.now) result }
{
    let place = operands_at(&GATEWAY_OPTIONS, &STREAM_OPERANDS, words)?;
    let Some(to) = format_after(&words[..place]) else {
        return Err(Offence { position: 1 });
    };
    let StreamAndTwo {
        stream,
        first: input,
        second: output,
    } = stream_and_two(&words[place..]);
    let options = &words[..place];
    let listener = listener_after(options, stream);
    let id = id_after(options, ID.name, stream);
    if input == output {
        return Err(Offence { position: 1 });
    }
    Ok(Command::Gateway(Gateway {
        listener,
        to,
        id,
        input,
        output,
    }))
}

/// The format that `--to` gives, if `--to` is given.
fn format_after(options: &[String]) -> Option<GatewayFormat>
    ensures { Finds (λ to. value_after (codes "--to") (texts options.now) ≡ Some (gateway_format_name to)) result }
{
    match word_after(options, TO.name) {
        Some("am824") => Some(GatewayFormat::Am824),
        Some("aaf") => Some(GatewayFormat::Aaf),
        _ => None,
    }
}
