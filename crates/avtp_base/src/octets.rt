//! Reads big-endian numbers and single bits of a packet.

ghost use Rattle.std.specs.Prelude.{◌≡◌, ◌+◌, ◌-◌, ◌≤◌, ◌<◌, ◌++◌, length};
ghost use Rattle.avtp_base.specs.Octets.{bits, is_set};
ghost use Rattle.avtp_base.specs.Rows.{Writes};

use crate::refusal::Room;
use byteorder::{BigEndian, ByteOrder};

/// The number in `width` bits of the byte at `at`, from bit `first` on; bit 0 is the highest.
pub fn bits_at(bytes: &[u8], at: usize, first: u32, width: u32) -> u8
    requires inside { at < length bytes.now }
    requires some { 0 < width }
    requires one_byte { first + width ≤ 8 }
    ensures { result ≡ bits at first width bytes.now }
{
    (bytes[at] >> (8 - first - width)) & (u8::MAX >> (8 - width))
}

/// Whether the bit `bit` of the byte at `at` is set; bit 0 is the highest.
pub fn bit_at(bytes: &[u8], at: usize, bit: u32) -> bool
    requires inside { at < length bytes.now }
    requires one_byte { bit < 8 }
    ensures { result ≡ is_set at bit bytes.now }
{
    bits_at(bytes, at, bit, 1) == 1
}

/// The number in the two bytes from `at` on.
pub fn u16_at(bytes: &[u8], at: usize) -> u16
    requires { at + 2 ≤ length bytes.now }
    ensures { result ≡ bits at 0 16 bytes.now }
{
    BigEndian::read_u16(&bytes[at..])
}

/// The number in the lowest `width` bits of the two bytes from `at` on.
pub fn low_bits_at(bytes: &[u8], at: usize, width: u32) -> u16
    requires inside { at + 2 ≤ length bytes.now }
    requires two_bytes { 8 < width }
    requires within { width ≤ 16 }
    ensures { result ≡ bits at (16 - width) width bytes.now }
{
    u16_at(bytes, at) & (u16::MAX >> (16 - width))
}

/// The number in the four bytes from `at` on.
pub fn u32_at(bytes: &[u8], at: usize) -> u32
    requires { at + 4 ≤ length bytes.now }
    ensures { result ≡ bits at 0 32 bytes.now }
{
    BigEndian::read_u32(&bytes[at..])
}

/// The number in the six bytes from `at` on.
pub fn u48_at(bytes: &[u8], at: usize) -> u64
    requires { at + 6 ≤ length bytes.now }
    ensures { result ≡ bits at 0 48 bytes.now }
{
    BigEndian::read_u48(&bytes[at..])
}

/// The number in the eight bytes from `at` on.
pub fn u64_at(bytes: &[u8], at: usize) -> u64
    requires { at + 8 ≤ length bytes.now }
    ensures { result ≡ bits at 0 64 bytes.now }
{
    BigEndian::read_u64(&bytes[at..])
}

/// Writes a header and then the payload to the front of the slice, and returns their total length. If the slice is too
/// short, returns `Room` and leaves the slice unchanged.
pub fn write_front(out: &mut [u8], header: &[u8], payload: &[u8]) -> Result<usize, Room>
    ensures { Writes (header.now ++ payload.now) out.old out.new result }
{
    let found = out.len();
    let need = header.len() + payload.len();
    if found < need {
        return Err(Room { need, found });
    }
    out[..header.len()].copy_from_slice(header);
    out[header.len()..need].copy_from_slice(payload);
    Ok(need)
}
