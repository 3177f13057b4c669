//! Rules over several words: options that must be absent, and options that need another option.

ghost use Rattle.std.specs.Prelude.{◌≡◌, ◌↔◌, IsTrue, string_bytes};
ghost use Rattle.std.specs.List.{list_any};
ghost use Rattle.std.specs.Str.{bytes_eq};
ghost use Rattle.avtp_words.specs.Grammar.{Lacks, Need};
ghost use Rattle.avtp_words.specs.state.Reading.{names_of};
ghost use Rattle.option_words.specs.Word.{texts};

use option_words::{OptionRow, contains};

/// Whether none of `options` is among `words`.
pub fn lacks(words: &[String], options: &[OptionRow]) -> bool
    ensures { IsTrue result ↔ Lacks (texts words.now) (names_of options.now) }
{
    !has_one(words, options)
}

/// Whether at least one of `options` is among `words`.
fn has_one(words: &[String], options: &[OptionRow]) -> bool
    ensures { result ≡ list_any (λ row. list_any (λ word. bytes_eq (string_bytes word) row.name.now) words.now) options.now }
{
    options.iter().any(|option| contains(words, option.name))
}

/// Whether `words` contain the option `needed`, or else contain none of `options`.
pub fn have_needed(words: &[String], needed: &str, options: &[OptionRow]) -> bool
    ensures { IsTrue result ↔ Need (texts words.now) needed.now (names_of options.now) }
{
    contains(words, needed) || lacks(words, options)
}
