//! The command `listen`: what to listen to.

ghost use Rattle.std.specs.Prelude.{◌∷◌, ◌↔◌, codes, IsTrue};
ghost use Rattle.avtp_words.specs.Grammar.{KeepsNames, SaysListen, listening_of};
ghost use Rattle.avtp_words.specs.state.Answers.{Asks, Reads, ReadsListen};
ghost use Rattle.option_words.specs.Word.{texts};

use crate::command::{Command, Offence};
use crate::device::{DeviceFile, RawFile, are_apart, file_after, is_new, is_new_raw, raw_after};
use crate::limits::{ANNEXB, LISTEN_OPTIONS, RAW, RAW_OPTIONS, RING, RING_DEFAULT};
use crate::listener::{ListenerOptions, listener_after};
use crate::operand::operands_at;
use crate::rule::have_needed;
use option_words::{Operand, id_of, small_number_after, word_at};

/// The stream to listen to, its listener, and the files to read and write.
#[derive(Clone, Copy, Debug, PartialEq, Eq)]
pub struct Listen<'a> {
    /// The stream, and the listener that presents it.
    pub listener: ListenerOptions,
    /// How many items fit into the queue between the thread that judges and the thread that presents, 1 to 256.
    pub ring: u32,
    /// The file that gets the presented samples as raw audio, if one is asked for.
    pub raw: Option<RawFile<'a>>,
    /// The file for the byte stream of presented H.264 units, if such a file is asked for.
    pub annexb: Option<DeviceFile<'a>>,
    /// The names of the captures, in order. There is at least one capture.
    pub files: &'a [String],
}

const LISTEN_OPERANDS: [Operand; 2] = [Operand::Id, Operand::Names];

/// Reads the words after `listen`. If each word is valid but the words contradict one another, the offence is at the
/// command.
pub fn read_listen(words: &[String]) -> Result<Command<'_>, Offence>
    ensures { Reads Asks (codes "listen" ∷ texts words.now) result }
{
    let asked = read_words(words)?;
    if asked.keeps_names(words) {
        Ok(Command::Listen(asked))
    } else {
        Err(Offence { position: 1 })
    }
}

/// What the words after `listen` ask for. Rules over several words are not checked.
fn read_words(words: &[String]) -> Result<Listen<'_>, Offence>
    ensures { Reads (λ line asked. SaysListen line (listening_of asked)) (codes "listen" ∷ texts words.now) result }
{
    let place = operands_at(&LISTEN_OPTIONS, &LISTEN_OPERANDS, words)?;
    let Some(id) = word_at(words, place) else {
        unreachable!()
    };
    let Some(stream) = id_of(id) else {
        unreachable!()
    };
    Ok(read_options(&words[..place], stream, &words[place + 1..]))
}

fn read_options<'a>(options: &'a [String], stream: u64, files: &'a [String]) -> Listen<'a>
    ensures { ReadsListen (texts options.now) stream files.now result }
{
    Listen {
        listener: listener_after(options, stream),
        ring: small_number_after(options, RING.name, RING_DEFAULT),
        raw: raw_after(options),
        annexb: file_after(options, ANNEXB.name),
        files,
    }
}

impl<'a> Listen<'a> {
    /// Whether `words`, the words after `listen`, keep the rules over several words. `self` is what these words ask
    /// for.
    fn keeps_names(&self, words: &[String]) -> bool
        ensures { IsTrue result ↔ KeepsNames (texts words.now) (listening_of self.now) }
    {
        have_needed(words, RAW.name, &RAW_OPTIONS)
            && is_new_raw(self.raw, self.files)
            && is_new(self.annexb, self.files)
            && are_apart(self.raw, self.annexb)
    }
}
