//! Overwrites parts of a text that are at a known distance from the text's end.

ghost use Rattle.std.specs.Prelude.{◌+◌, ◌*◌, ◌≤◌, length, decimal};
ghost use Rattle.hex.specs.Hex.{encode_lower};
ghost use Rattle.avtp_text.specs.state.Overwrites.{HasEight, Overwrites, OverwritesDecimal};
ghost use Rattle.avtp_text.specs.state.Pairs.{eight_digits};

use crate::pairs::{write_bytes, write_eight_digits, write_hex};

/// Overwrites eight bytes of a text with the eight digits of `number`. `behind` is the number of bytes of the text
/// after the digits.
#[inline(always)]
pub fn overwrite_eight_digits(text: &mut [u8], number: u32, behind: usize)
    requires { HasEight text.old number behind }
    ensures { Overwrites text.old text.new (eight_digits number) behind }
{
    let end = text.len() - behind;
    write_eight_digits(number, &mut text[end - 8..end]);
}

/// Overwrites bytes of a text with the digits of `number`. `behind` is the number of bytes of the text after the
/// digits. Returns the number of digits. Most sample numbers have one digit.
#[tactic(auto, using(crate::proofs::Digits::one_digit))]
#[inline(always)]
pub fn overwrite_decimal(text: &mut [u8], number: u64, behind: usize) -> usize
    requires { length (decimal number) + behind ≤ length text.old }
    ensures { OverwritesDecimal text.old text.new number behind result }
{
    let end = text.len() - behind;
    if number < 10 {
        write_bytes(&[b'0' + number as u8], &mut text[end - 1..end]);
        return 1;
    }
    end - itoa::write_digits(number, text, end)
}

/// Overwrites bytes of a text with the hexadecimal digits of `bytes`. `behind` is the number of bytes of the text after
/// the digits.
#[inline(always)]
pub fn overwrite_hex(text: &mut [u8], bytes: &[u8], behind: usize)
    requires { 2 * length bytes.now + behind ≤ length text.old }
    ensures { Overwrites text.old text.new (encode_lower bytes.now) behind }
{
    let end = text.len() - behind;
    write_hex(bytes, &mut text[end - 2 * bytes.len()..end]);
}
