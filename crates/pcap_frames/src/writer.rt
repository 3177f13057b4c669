//! Writes captures in their canonical spelling.

ghost use Rattle.std.specs.Prelude.{◌≡◌, ◌++◌, List, ℕ, length};
ghost use Rattle.avtp_base.specs.Rows.{Writes};
ghost use Rattle.pcap_frames.specs.Capture.{HasSpelling, IsArrival, header_spelling, record_spelling};

use crate::layout::{FILE_HEADER, MAGIC_MICRO, MAGIC_NANO, RECORD_HEADER, RECORD_LIMIT};
use crate::numbers::{put_u16, put_u32};
use crate::style::{Style, Unit};
use avtp_base::Room;
use avtp_base::octets::write_front;

/// Writes the file header of a capture of Ethernet frames (draft-ietf-opsawg-pcap, section 4), and returns its length.
/// The header has version 2.4, zone and accuracy 0, a snapshot length of 262,144 bytes, and link type 1.
///
/// The call returns `Room` if and only if `out` has fewer than 24 bytes. If the call returns `Room`, nothing is
/// written.
pub fn write_header(out: &mut [u8], style: Style) -> Result<usize, Room>
    ensures { Writes (header_spelling style) out.old out.new result }
{
    let found = out.len();
    if found < FILE_HEADER {
        return Err(Room {
            need: FILE_HEADER,
            found,
        });
    }
    let magic = match style.unit {
        Unit::Micro => MAGIC_MICRO,
        Unit::Nano => MAGIC_NANO,
    };
    put_u32(style.order, out, 0, magic);
    put_u16(style.order, out, 4, 2);
    put_u16(style.order, out, 6, 4);
    put_u32(style.order, out, 8, 0);
    put_u32(style.order, out, 12, 0);
    put_u32(style.order, out, 16, RECORD_LIMIT);
    put_u32(style.order, out, 20, 1);
    Ok(FILE_HEADER)
}

/// Writes a record (draft-ietf-opsawg-pcap, section 5): first its header, and then its captured bytes. The fraction in
/// the header is below one second. Returns the record's length.
///
/// `arrival` is in nanoseconds, from 0 to below 2^32 seconds. In a capture that counts microseconds, `arrival` is a
/// multiple of 1000. `orig_len` is the frame's length on the wire, and there are at most 262,144 `bytes`. The call
/// returns `Room` if and only if `out` is shorter than the 16-byte header and `bytes` together. If the call returns
/// `Room`, nothing is written.
pub fn write_record(
    out: &mut [u8],
    style: Style,
    arrival: i64,
    orig_len: u32,
    bytes: &[u8],
) -> Result<usize, Room>
    requires { HasSpelling style (record { arrival = arrival; orig_len = orig_len; bytes = bytes.now }) }
    ensures { Writes (record_spelling style (record { arrival = arrival; orig_len = orig_len; bytes = bytes.now })) out.old out.new result }
{
    let header = record_header(style, arrival, bytes.len() as u32, orig_len);
    write_front(out, &header, bytes)
}

/// The header of a record (draft-ietf-opsawg-pcap, section 5), with a fraction below one second. The whole record is
/// these 16 bytes followed by its `incl_len` captured bytes.
///
/// `arrival` is in nanoseconds, from 0 to below 2^32 seconds. In a capture that counts microseconds, it is a multiple
/// of 1000. `orig_len` is the frame's length on the wire.
#[inline(always)]
pub fn record_header(style: Style, arrival: i64, incl_len: u32, orig_len: u32) -> [u8; 16]
    requires { IsArrival style arrival }
    ensures { (bytes : List ℕ) → length bytes ≡ incl_len → result ++ bytes ≡ record_spelling style (record { arrival = arrival; orig_len = orig_len; bytes = bytes }) }
{
    let nanoseconds = arrival as u64;
    let scale = match style.unit {
        Unit::Micro => 1000,
        Unit::Nano => 1,
    };
    let seconds = (nanoseconds / 1_000_000_000) as u32;
    let fraction = (nanoseconds % 1_000_000_000 / scale) as u32;
    let mut header = [0; RECORD_HEADER];
    put_u32(style.order, &mut header, 0, seconds);
    put_u32(style.order, &mut header, 4, fraction);
    put_u32(style.order, &mut header, 8, incl_len);
    put_u32(style.order, &mut header, 12, orig_len);
    header
}
