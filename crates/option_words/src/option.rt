//! The table of the options that a command knows, and how options are read.

ghost use Rattle.std.specs.Prelude.{◌≡◌, ◌↔◌, Contains, IsTrue, slice_get, string_bytes};
ghost use Rattle.std.specs.List.{find, list_any, position};
ghost use Rattle.std.specs.Option.{option_copied};
ghost use Rattle.std.specs.Str.{bytes_eq};
ghost use Rattle.option_words.specs.Options.{IsValue};
ghost use Rattle.option_words.specs.state.Answers.{EndsOrStops, FindsValue};
ghost use Rattle.option_words.specs.Tables.{are_sound, rows_of};
ghost use Rattle.option_words.specs.Values.{value_after};
ghost use Rattle.option_words.specs.Word.{texts, BeginsWithDash};

use crate::number::{is_number, is_signed};
use crate::operand::{id_of, is_name};
use crate::value::format_of;

/// The type of the value that an option takes.
#[derive(Clone, Copy)]
pub enum Takes {
    /// A number from `low` to `high`.
    Number { low: u64, high: u64 },
    /// A number from `-most` to `most`.
    Signed { most: u32 },
    /// A stream ID.
    Id,
    /// The kind of a stream: `aaf`, `am824` or `h264`.
    Kind,
    /// The format of samples, such as `int16`.
    Format,
    /// The name of a file.
    Name,
    /// What silence is made of: `zero` or `am824`.
    Silence,
    /// The format of the capture that `gateway` writes: `am824` or `aaf`.
    OutFormat,
    /// No value: the option is only its name.
    Nothing,
}

impl Takes {
    fn accepts(self, word: &str) -> bool
        ensures { IsTrue result ↔ IsValue self word.now }
    {
        match self {
            Takes::Number { low, high } => is_number(word, low, high),
            Takes::Signed { most } => is_signed(word, most),
            Takes::Id => id_of(word).is_some(),
            Takes::Kind => matches!(word, "aaf" | "am824" | "h264"),
            Takes::Format => format_of(word).is_some(),
            Takes::Name => is_name(word),
            Takes::Silence => matches!(word, "zero" | "am824"),
            Takes::OutFormat => matches!(word, "am824" | "aaf"),
            Takes::Nothing => false,
        }
    }
}

/// An option that a command knows.
#[derive(Clone, Copy)]
pub struct OptionRow {
    /// The word that names the option.
    pub name: &'static str,
    /// The values that the option takes.
    pub takes: Takes,
}

/// Whether a word begins with a dash, as options do and names do not.
pub fn begins_with_dash(word: &str) -> bool
    ensures { IsTrue result ↔ BeginsWithDash word.now }
{
    word.starts_with('-')
}

/// The word at index `place`, if any.
pub fn word_at(words: &[String], place: usize) -> Option<&str>
    ensures { option_copied result ≡ slice_get (texts words.now) place }
{
    match words.get(place) {
        Some(word) => Some(word.as_str()),
        None => None,
    }
}

fn find_row<'a>(rows: &'a [OptionRow], name: &str) -> Option<&'a OptionRow>
    ensures { option_copied result ≡ find (λ row. bytes_eq row.name.now name.now) rows.now }
{
    rows.iter().find(|row| row.name == name)
}

/// Whether `name` is one of `words`.
pub fn contains(words: &[String], name: &str) -> bool
    ensures { result ≡ list_any (λ word. bytes_eq (string_bytes word) name.now) words.now }
{
    words.iter().any(|word| word.as_str() == name)
}

/// Whether `name` is not one of `words`.
pub fn lacks_word(words: &[String], name: &str) -> bool
    ensures { IsTrue result ↔ (Contains (texts words.now) name.now → ⊥) }
{
    !contains(words, name)
}

/// The index of the first word that is `name`.
pub fn place_of(words: &[String], name: &str) -> Option<usize>
    ensures { result ≡ position (λ word. bytes_eq (string_bytes word) name.now) words.now }
{
    words.iter().position(|word| word.as_str() == name)
}

/// How many words the value of an option takes up at index `place`: 0 if the option takes no value, otherwise 1. `None`
/// if the word at `place` is missing or is not a value that the option takes.
fn value_len(words: &[String], place: usize, takes: Takes) -> Option<usize>
    ensures { FindsValue takes words.now place result }
{
    if matches!(takes, Takes::Nothing) {
        return Some(0);
    }
    match word_at(words, place) {
        Some(word) if takes.accepts(word) => Some(1),
        _ => None,
    }
}

/// How many of `words`, the words after a command, belong to options. The operands follow the options. If a word is not
/// accepted, the error is the word's index. If the words end where an option needs a value, the error is the number of
/// words.
pub fn options_len(rows: &[OptionRow], words: &[String]) -> Result<usize, usize>
    requires { IsTrue (are_sound (rows_of rows.now)) }
    ensures { EndsOrStops (rows_of rows.now) words.now result }
{
    let mut place = 0;
    while let Some(name) = word_at(words, place)
        && begins_with_dash(name)
    {
        let Some(row) = find_row(rows, name) else {
            return Err(place);
        };
        if contains(&words[..place], name) {
            return Err(place);
        }
        let Some(len) = value_len(words, place + 1, row.takes) else {
            return Err(place + 1);
        };
        place += 1 + len;
    }
    Ok(place)
}

/// The word directly after the first `name` in `words`, if any.
pub fn word_after<'a>(words: &'a [String], name: &str) -> Option<&'a str>
    ensures { option_copied result ≡ value_after name.now (texts words.now) }
{
    let mut left = words;
    while let Some((word, rest)) = left.split_first() {
        if word.as_str() == name {
            return word_at(rest, 0);
        }
        left = rest;
    }
    None
}
