//! Writes digits two at a time, from tables.

ghost use Rattle.std.specs.Prelude.{◌≡◌, ◌+◌, ◌*◌, ◌/◌, ◌%◌, ◌<◌, ◌≤◌, length, set, slice_index};
ghost use Rattle.hex.specs.Hex.{encode_lower, lower_digits};
ghost use Rattle.avtp_text.specs.state.Pairs.{FitsEight, FitsPair, eight_digits};

/// The two decimal digits of each number below 100.
static DECIMAL: [u8; 200] =
    *b"00010203040506070809101112131415161718192021222324252627282930313233343536373839404142434445464748495051525354555657585960616263646566676869707172737475767778798081828384858687888990919293949596979899";

/// The two hexadecimal digits of each byte.
static HEXADECIMAL: [u8; 512] =
    *b"000102030405060708090a0b0c0d0e0f101112131415161718191a1b1c1d1e1f202122232425262728292a2b2c2d2e2f303132333435363738393a3b3c3d3e3f404142434445464748494a4b4c4d4e4f505152535455565758595a5b5c5d5e5f606162636465666768696a6b6c6d6e6f707172737475767778797a7b7c7d7e7f808182838485868788898a8b8c8d8e8f909192939495969798999a9b9c9d9e9fa0a1a2a3a4a5a6a7a8a9aaabacadaeafb0b1b2b3b4b5b6b7b8b9babbbcbdbebfc0c1c2c3c4c5c6c7c8c9cacbcccdcecfd0d1d2d3d4d5d6d7d8d9dadbdcdddedfe0e1e2e3e4e5e6e7e8e9eaebecedeeeff0f1f2f3f4f5f6f7f8f9fafbfcfdfeff";

#[tactic(auto, using(crate::proofs::Tables::decimal_at))]
#[inline(always)]
fn write_decimal_pair(pair: u32, out: &mut [u8], at: usize)
    requires { FitsPair pair out.old at }
    ensures { out.new ≡ set (set out.old at (48 + pair / 10)) (at + 1) (48 + pair % 10) }
{
    let from = 2 * pair as usize;
    let (tens, ones) = (DECIMAL[from], DECIMAL[from + 1]);
    out[at] = tens;
    out[at + 1] = ones;
}

/// Writes a number as eight decimal digits, with leading zeros.
#[inline(always)]
pub fn write_eight_digits(number: u32, out: &mut [u8])
    requires { FitsEight number out.old }
    ensures { out.new ≡ eight_digits number }
{
    let high = number / 10_000;
    let low = number % 10_000;
    write_decimal_pair(high / 100, out, 0);
    write_decimal_pair(high % 100, out, 2);
    write_decimal_pair(low / 100, out, 4);
    write_decimal_pair(low % 100, out, 6);
}

#[tactic(auto, using(crate::proofs::Tables::hexadecimal_at))]
#[inline(always)]
fn write_hexadecimal_pair(byte: u8, out: &mut [u8], at: usize)
    requires { at + 2 ≤ length out.old }
    ensures { out.new ≡ set (set out.old at (slice_index lower_digits (byte / 16))) (at + 1) (slice_index lower_digits (byte % 16)) }
{
    let from = 2 * byte as usize;
    let (high, low) = (HEXADECIMAL[from], HEXADECIMAL[from + 1]);
    out[at] = high;
    out[at + 1] = low;
}

/// Writes the lower-case hexadecimal digits of bytes. Most samples have two channels of two bytes; the digits of these
/// four bytes need no loop.
#[inline(always)]
pub fn write_hex(bytes: &[u8], out: &mut [u8])
    requires { length out.old ≡ 2 * length bytes.now }
    ensures { out.new ≡ encode_lower bytes.now }
{
    if bytes.len() == 4 {
        write_hexadecimal_pair(bytes[0], out, 0);
        write_hexadecimal_pair(bytes[1], out, 2);
        write_hexadecimal_pair(bytes[2], out, 4);
        write_hexadecimal_pair(bytes[3], out, 6);
        return;
    }
    for i in 0..bytes.len() {
        write_hexadecimal_pair(bytes[i], out, 2 * i);
    }
}

/// Writes a piece of text. If the compiler knows the piece's length, the loop becomes a few moves. A copy of slices
/// would test for an overlap first.
#[inline(always)]
pub fn write_bytes(piece: &[u8], out: &mut [u8])
    requires { length out.old ≡ length piece.now }
    ensures { out.new ≡ piece.now }
{
    for i in 0..piece.len() {
        out[i] = piece[i];
    }
}
