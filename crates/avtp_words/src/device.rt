//! The files that `listen` writes besides what it prints.

ghost use Rattle.std.specs.Prelude.{◌≢◌, ◌↔◌, codes, Contains, IfSome, IsTrue, option_map};
ghost use Rattle.avtp_words.specs.Grammar.{named_file, named_raw};
ghost use Rattle.avtp_words.specs.state.Reading.{IsReadFile, IsReadRaw, IsReadSilence};
ghost use Rattle.option_words.specs.Values.{value_after};
ghost use Rattle.option_words.specs.Word.{texts};

use crate::limits::{RAW, SILENCE};
use option_words::{lacks_word, place_of, word_after, word_at};

/// A file that is written.
#[derive(Clone, Copy, Debug, PartialEq, Eq)]
pub struct DeviceFile<'a> {
    /// The file's name.
    pub name: &'a str,
    /// The position of the name among the words of the command line, counted from 0.
    pub place: usize,
}

/// What silence is made of.
#[derive(Clone, Copy, Debug, PartialEq, Eq)]
pub enum Silence {
    /// Bytes of 0.
    Zero,
    /// Quadlets of AM824 without a sample: a label of 0x40, and three bytes of 0.
    Am824,
}

/// A file of raw audio that is written.
#[derive(Clone, Copy, Debug, PartialEq, Eq)]
pub struct RawFile<'a> {
    /// The file.
    pub file: DeviceFile<'a>,
    /// What is written as silence for missing packets.
    pub silence: Silence,
}

/// The file that the option `name` gives, if that option is given. The file's `place` is an index on the whole command
/// line; the command is word 0.
pub fn file_after<'a>(options: &'a [String], name: &str) -> Option<DeviceFile<'a>>
    ensures { IsReadFile name.now (texts options.now) (option_map named_file result) }
{
    let place = place_of(options, name)?;
    let word = word_at(options, place + 1)?;
    Some(DeviceFile {
        name: word,
        place: place + 2,
    })
}

/// Silence is made of what `--silence` names, or of zeros if `--silence` is not given.
fn silence_after(options: &[String]) -> Silence
    ensures { IsReadSilence (value_after (codes "--silence") (texts options.now)) result }
{
    match word_after(options, SILENCE.name) {
        Some("am824") => Silence::Am824,
        _ => Silence::Zero,
    }
}

/// The file of raw audio that the options of `listen` ask for, if any.
pub fn raw_after<'a>(options: &'a [String]) -> Option<RawFile<'a>>
    ensures { IsReadRaw (texts options.now) (option_map named_raw result) }
{
    let file = file_after(options, RAW.name)?;
    let silence = silence_after(options);
    Some(RawFile { file, silence })
}

/// Whether the name of `file` differs from each name in `files`. The command writes `file` and reads `files`. True if
/// there is no `file`.
pub fn is_new(file: Option<DeviceFile<'_>>, files: &[String]) -> bool
    ensures { IsTrue result ↔ IfSome (option_map named_file file.entry) (λ file. Contains (texts files.now) file.name → ⊥) }
{
    match file {
        Some(file) => lacks_word(files, file.name),
        None => true,
    }
}

/// Whether the name of the raw audio file differs from each of `files`. True if there is no raw audio file.
pub fn is_new_raw(raw: Option<RawFile<'_>>, files: &[String]) -> bool
    ensures { IsTrue result ↔ IfSome (option_map named_raw raw.entry) (λ raw. Contains (texts files.now) raw.file.name → ⊥) }
{
    match raw {
        Some(raw) => lacks_word(files, raw.file.name),
        None => true,
    }
}

/// Whether the two files that are written have different names. True if fewer than two files are written.
pub fn are_apart(raw: Option<RawFile<'_>>, annexb: Option<DeviceFile<'_>>) -> bool
    ensures { IsTrue result ↔ IfSome (option_map named_raw raw.entry) (λ raw. IfSome (option_map named_file annexb.entry) (λ file. raw.file.name ≢ file.name)) }
{
    match (raw, annexb) {
        (Some(raw), Some(annexb)) => raw.file.name != annexb.name,
        _ => true,
    }
}
