//! The commands, and how a command is read from words.

ghost use Rattle.std.specs.Prelude.{◌≡◌, ℕ, ◌∷◌, codes, IfOk, IfErr, IsOkAnd, IsErrAnd};
ghost use Rattle.avtp_words.specs.Grammar.{Request, request_of, IsCommandLine, IsOffence};
ghost use Rattle.avtp_words.specs.state.Answers.{Asks, Reads};
ghost use Rattle.option_words.specs.Word.{texts};

use crate::agree::{Agree, read_agree};
use crate::gateway::{Gateway, read_gateway};
use crate::limits::{CHECK_OPTIONS, LIMIT, MAX_LIMIT, SHOW_OPTIONS, SOAK_OPTIONS};
use crate::listen::{Listen, read_listen};
use crate::operand::operands_at;
use crate::talk::{Talk, read_talk};
use option_words::{Operand, number_after, packets_of, word_at};

/// The command that a command line asks for.
#[derive(Clone, Copy, Debug, PartialEq, Eq)]
pub enum Command<'a> {
    /// Print what each packet of the capture `file` holds. At most `limit` bytes of the capture are read.
    Show { limit: u64, file: &'a str },
    /// For each capture of `files`, print what breaks the rules of a stream. `files` has at least one name. At most
    /// `limit` bytes of each capture are read.
    Check { limit: u64, files: &'a [String] },
    /// Print the presentation time of each sample of a stream.
    Listen(Listen<'a>),
    /// Make a capture of raw samples or of an H.264 byte stream.
    Talk(Talk<'a>),
    /// Listen to a stream of `packets` packets, some of which are late, lost or repeated. `packets` is from 0 to
    /// 1,000,000. Print what became of the packets.
    Soak { packets: u32 },
    /// Listen to a stream in each of two captures. Print where the presented samples differ.
    Agree(Agree<'a>),
    /// Convert an audio stream of a capture to the other audio format, with the same samples at the same times, and
    /// write it as a capture.
    Gateway(Gateway<'a>),
}

/// What is wrong with words that are not a command line.
#[derive(Clone, Copy, Debug, PartialEq, Eq)]
pub struct Offence {
    /// The position, counted from 1, of the first wrong word. If a word is missing, the position is one past the last
    /// word. If no word by itself is wrong or missing, but the words are not a command line, the position is 1.
    pub position: usize,
}

const SHOW_OPERANDS: [Operand; 1] = [Operand::Name];

const CHECK_OPERANDS: [Operand; 1] = [Operand::Names];

const SOAK_OPERANDS: [Operand; 1] = [Operand::Packets];

/// The command that the words ask for.
pub fn parse(words: &[String]) -> Result<Command<'_>, Offence>
    // The words are a command line that asks for the result.
    ensures found { IfOk result (λ command. IsCommandLine (texts words.now) (request_of command)) }

    // If the words are a command line, the result is the command that they ask for. A command line therefore asks for
    // only one command.
    ensures only { (request : Request) → IsCommandLine (texts words.now) request →
        IsOkAnd result (λ command. request_of command ≡ request) }

    // If the words are not a command line, the result is the position of the first word that is wrong by itself or
    // missing. If there is no such word, the result is the position of the command. The words determine this position
    // uniquely.
    ensures offence { IfErr result (λ offence. IsOffence (texts words.now) offence.position) }
    ensures only_offence { (position : ℕ) → IsOffence (texts words.now) position →
        IsErrAnd result (λ offence. offence.position ≡ position) }
{
    let Some((command, rest)) = words.split_first() else {
        return Err(Offence { position: 1 });
    };
    match command.as_str() {
        "show" => read_show(rest),
        "check" => read_check(rest),
        "listen" => read_listen(rest),
        "talk" => read_talk(rest),
        "soak" => read_soak(rest),
        "agree" => read_agree(rest),
        "gateway" => read_gateway(rest),
        _ => Err(Offence { position: 1 }),
    }
}

fn read_show(words: &[String]) -> Result<Command<'_>, Offence>
    ensures { Reads Asks (codes "show" ∷ texts words.now) result }
{
    let place = operands_at(&SHOW_OPTIONS, &SHOW_OPERANDS, words)?;
    let Some(file) = word_at(words, place) else {
        unreachable!()
    };
    let limit = number_after(&words[..place], LIMIT.name, MAX_LIMIT);
    Ok(Command::Show { limit, file })
}

fn read_check(words: &[String]) -> Result<Command<'_>, Offence>
    ensures { Reads Asks (codes "check" ∷ texts words.now) result }
{
    let place = operands_at(&CHECK_OPTIONS, &CHECK_OPERANDS, words)?;
    let limit = number_after(&words[..place], LIMIT.name, MAX_LIMIT);
    let files = &words[place..];
    Ok(Command::Check { limit, files })
}

fn read_soak(words: &[String]) -> Result<Command<'_>, Offence>
    ensures { Reads Asks (codes "soak" ∷ texts words.now) result }
{
    let place = operands_at(&SOAK_OPTIONS, &SOAK_OPERANDS, words)?;
    let Some(number) = word_at(words, place) else {
        unreachable!()
    };
    let Some(packets) = packets_of(number) else {
        unreachable!()
    };
    Ok(Command::Soak { packets })
}
