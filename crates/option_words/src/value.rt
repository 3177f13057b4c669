//! The values of a command's options, or their defaults.

ghost use Rattle.std.specs.Prelude.{◌≡◌, ◌^◌};
ghost use Rattle.option_words.specs.Options.{format_name};
ghost use Rattle.option_words.specs.Values.{Finds, IsRead, IsReadFormat, IsReadId, IsReadIdIf, IsReadIf, IsReadSigned, value_after};
ghost use Rattle.option_words.specs.Word.{texts};

use crate::number::{number_of, signed_number_of};
use crate::operand::id_of;
use crate::option::word_after;
use aaf_format::AafFormat;

/// The number after the option `name`, or `default` if the option is not given.
pub fn number_after(options: &[String], name: &str, default: u64) -> u64
    ensures { IsRead (2 ^ 64) default (value_after name.now (texts options.now)) result }
{
    match word_after(options, name) {
        Some(word) => number_of(word).unwrap_or(default),
        None => default,
    }
}

/// The 32-bit number after the option `name`, or `default` if the option is not given.
pub fn small_number_after(options: &[String], name: &str, default: u32) -> u32
    ensures { IsRead (2 ^ 32) default (value_after name.now (texts options.now)) result }
{
    u32::try_from(number_after(options, name, u64::from(default))).unwrap_or(default)
}

/// The 16-bit number after the option `name`, or `default` if the option is not given.
pub fn short_number_after(options: &[String], name: &str, default: u16) -> u16
    ensures { IsRead (2 ^ 16) default (value_after name.now (texts options.now)) result }
{
    u16::try_from(number_after(options, name, u64::from(default))).unwrap_or(default)
}

/// The 8-bit number after the option `name`, or `default` if the option is not given.
pub fn byte_after(options: &[String], name: &str, default: u8) -> u8
    ensures { IsRead (2 ^ 8) default (value_after name.now (texts options.now)) result }
{
    u8::try_from(number_after(options, name, u64::from(default))).unwrap_or(default)
}

/// The 32-bit number after the option `name`, if that option is given.
pub fn small_number_if(options: &[String], name: &str) -> Option<u32>
    ensures { IsReadIf (2 ^ 32) (value_after name.now (texts options.now)) result }
{
    let word = word_after(options, name)?;
    u32::try_from(number_of(word)?).ok()
}

/// The stream ID after the option `name`, or `default` if the option is not given.
pub fn id_after(options: &[String], name: &str, default: u64) -> u64
    ensures { IsReadId default (value_after name.now (texts options.now)) result }
{
    match word_after(options, name) {
        Some(word) => id_of(word).unwrap_or(default),
        None => default,
    }
}

/// The stream ID after the option `name`, if that option is given.
pub fn id_if(options: &[String], name: &str) -> Option<u64>
    ensures { IsReadIdIf (value_after name.now (texts options.now)) result }
{
    id_of(word_after(options, name)?)
}

/// The number, possibly negative, after the option `name`, or `default` if the option is not given.
pub fn signed_number_after(options: &[String], name: &str, default: i64) -> i64
    ensures { IsReadSigned default (value_after name.now (texts options.now)) result }
{
    match word_after(options, name) {
        Some(word) => signed_number_of(word).unwrap_or(default),
        None => default,
    }
}

/// The sample format that `word` names, if any.
pub fn format_of(word: &str) -> Option<AafFormat>
    ensures { Finds (λ format. word.now ≡ format_name format) result }
{
    match word {
        "int16" => Some(AafFormat::Int16),
        "int24" => Some(AafFormat::Int24),
        "int32" => Some(AafFormat::Int32),
        "float32" => Some(AafFormat::Float32),
        _ => None,
    }
}

/// The sample format after the option `name`, or `default` if the option is not given.
pub fn format_after(options: &[String], name: &str, default: AafFormat) -> AafFormat
    ensures { IsReadFormat default (value_after name.now (texts options.now)) result }
{
    match word_after(options, name) {
        Some(word) => format_of(word).unwrap_or(default),
        None => default,
    }
}
