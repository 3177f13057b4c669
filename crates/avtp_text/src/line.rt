//! One line of text while it is built.

ghost use Rattle.std.specs.Prelude.{◌≡◌, ◌+◌, ◌-◌, ◌*◌, ◌<◌, ◌≤◌, [], ◌++◌, length, drop, decimal};
ghost use Rattle.std.specs.Fmt.{signed_decimal};
ghost use Rattle.hex.specs.Hex.{encode_lower};
ghost use Rattle.avtp_text.specs.Pieces.{newline, id_text, flag_text, refusal_text};
ghost use Rattle.avtp_text.specs.state.Lines.{IsTextOf, Prepends};

use crate::pairs::{write_bytes, write_hex};
use avtp_base::Refusal;
use std::marker::Model;

/// The maximum number of bytes in a line.
pub const LONGEST: usize = 256;

/// A line of bounded length. Contracts see the line as the list of its bytes. The line is built backwards from its end,
/// because the digits of a number are found from the last to the first.
#[derive(Drop)]
pub struct Line {
    scratch: [u8; LONGEST],
    start: usize,
}

impl Model for Line {
    ghost use Rattle.std.specs.Prelude.{List, ℕ, drop, ◌≤◌};

    ghost Value = { List ℕ };

    ghost view = { λ line. drop line.start line.scratch };

    ghost invariant = { λ line. line.start ≤ 256 };
}

impl Line {
    /// A line that is only a newline.
    #[inline(always)]
    pub fn new() -> Self
        ensures { result ≡ newline }
    {
        let mut scratch = [0; LONGEST];
        scratch[LONGEST - 1] = b'\n';
        Line {
            scratch,
            start: LONGEST - 1,
        }
    }

    /// An empty line, without a newline.
    #[inline(always)]
    pub fn blank() -> Self
        ensures { result ≡ [] }
    {
        Line {
            scratch: [0; LONGEST],
            start: LONGEST,
        }
    }

    /// Keeps at most the last `len` bytes of the line.
    #[inline(always)]
    pub fn keep_last(&mut self, len: usize)
        ensures { self.new ≡ drop (length self.old - len) self.old }
    {
        self.start += self.len().saturating_sub(len);
    }

    /// How many bytes the line has.
    #[inline(always)]
    pub fn len(&self) -> usize
        ensures { result ≡ length self.now }
    {
        LONGEST - self.start
    }

    /// The line's bytes.
    #[inline(always)]
    pub fn as_slice(&self) -> &[u8]
        ensures { IsTextOf self.now result.now }
    {
        &self.scratch[self.start..]
    }

    /// Prepends the bytes of a text to the line.
    #[inline(always)]
    pub fn prepend_bytes(&mut self, piece: &[u8])
        requires { length piece.now + length self.old ≤ LONGEST }
        ensures { Prepends self.old self.new piece.now (length piece.now) }
    {
        let start = self.start - piece.len();
        self.scratch[start..self.start].copy_from_slice(piece);
        self.start = start;
    }

    /// Prepends a text to the line. The call is fastest for a text that the compiler knows, such as a label.
    #[inline(always)]
    pub fn prepend(&mut self, piece: &str)
        requires { length piece.now + length self.old ≤ LONGEST }
        ensures { Prepends self.old self.new piece.now (length piece.now) }
    {
        let start = self.start - piece.len();
        write_bytes(piece.as_bytes(), &mut self.scratch[start..self.start]);
        self.start = start;
    }

    #[inline(always)]
    fn prepend_decimal(&mut self, number: u64)
        requires { length (decimal number) + length self.old ≤ LONGEST }
        ensures { Prepends self.old self.new (decimal number) (length (decimal number)) }
    {
        self.start = itoa::write_digits(number, &mut self.scratch, self.start);
    }

    /// Prepends `label` and, after it, `number` in decimal digits.
    #[tactic(auto, using(crate::proofs::Digits::digits_of_u64))]
    #[inline(always)]
    pub fn prepend_u64(&mut self, label: &str, number: u64)
        requires { length label.now + 20 + length self.old ≤ LONGEST }
        ensures { Prepends self.old self.new (label.now ++ decimal number) (length label.now + 20) }
    {
        self.prepend_decimal(number);
        self.prepend(label);
    }

    /// Prepends `label` and, after it, `number` in decimal digits.
    #[tactic(auto, using(crate::proofs::Digits::digits_of_u32))]
    #[inline(always)]
    pub fn prepend_u32(&mut self, label: &str, number: u32)
        requires { length label.now + 10 + length self.old ≤ LONGEST }
        ensures { Prepends self.old self.new (label.now ++ decimal number) (length label.now + 10) }
    {
        self.prepend_decimal(number as u64);
        self.prepend(label);
    }

    /// Prepends `label` and, after it, `number` in decimal digits, with a minus sign if the number is negative.
    #[tactic(auto, using(crate::proofs::Digits::digits_of_u64))]
    #[inline(always)]
    pub fn prepend_i64(&mut self, label: &str, number: i64)
        requires { length label.now + 21 + length self.old ≤ LONGEST }
        ensures { Prepends self.old self.new (label.now ++ signed_decimal number) (length label.now + 21) }
    {
        self.prepend_decimal(number.unsigned_abs());
        if number < 0 {
            self.prepend("-");
        }
        self.prepend(label);
    }

    /// Prepends `label` and, after it, a flag as 0 or 1.
    #[inline(always)]
    pub fn prepend_flag(&mut self, label: &str, flag: bool)
        requires { length label.now + 1 + length self.old ≤ LONGEST }
        ensures { Prepends self.old self.new (label.now ++ flag_text flag) (length label.now + 1) }
    {
        self.prepend(if flag { "1" } else { "0" });
        self.prepend(label);
    }

    /// Prepends `label` and, after it, a stream ID in 16 lower-case hexadecimal digits.
    #[tactic(auto, unfolding(crate::specs::Pieces::id_text))]
    #[inline(always)]
    pub fn prepend_id(&mut self, label: &str, id: u64)
        requires { length label.now + 16 + length self.old ≤ LONGEST }
        ensures { Prepends self.old self.new (label.now ++ id_text id) (length label.now + 16) }
    {
        self.prepend_hex(&id.to_be_bytes());
        self.prepend(label);
    }

    /// Prepends the lower-case hexadecimal digits of `bytes`.
    #[inline(always)]
    pub fn prepend_hex(&mut self, bytes: &[u8])
        requires { 2 * length bytes.now + length self.old ≤ LONGEST }
        ensures { Prepends self.old self.new (encode_lower bytes.now) (2 * length bytes.now) }
    {
        let start = self.start - 2 * bytes.len();
        write_hex(bytes, &mut self.scratch[start..self.start]);
        self.start = start;
    }

    /// Prepends a refusal: the field's name, its offset, and `short` if the part that should hold the field is too
    /// short.
    #[tactic(auto, using(crate::proofs::Names::name_fits), unfolding(crate::specs::Pieces::refusal_text))]
    pub fn prepend_refusal(&mut self, refusal: Refusal)
        requires { 48 + length self.old ≤ LONGEST }
        ensures { Prepends self.old self.new (refusal_text refusal) 48 }
    {
        if refusal.short {
            self.prepend(" short");
        }
        self.prepend_u64(" at ", refusal.at);
        self.prepend_bytes(refusal.field.name().as_bytes());
    }
}
