//! Writes stream headers.

ghost use Rattle.std.specs.Prelude.{◌≡◌, ◌≤◌, ◌<◌, ◌++◌, ◌∷◌, List, ℕ, [], take, IfOk};
ghost use Rattle.avtp_base.specs.Layout.{Fits, spelling};
ghost use Rattle.avtp_base.specs.Rows.{Writes};
ghost use Rattle.avtp_header.specs.Header.{SpellsHeader, header_layout};
ghost use Rattle.avtp_header.specs.state.Header.{filled_layout};

use crate::header::StreamHeader;
use avtp_base::Room;
use avtp_base::octets::write_front;

/// The 24 bytes of a header, with these numbers in the bits whose meaning depends on the format.
pub fn header_bytes(
    header: &StreamHeader,
    format_bits: u8,
    format_data: u32,
    format_flags: u16,
) -> [u8; 24]
    requires { format_bits < 4 }
    ensures spelled { result ≡ spelling (filled_layout format_bits format_data format_flags) header.now }
    ensures fits { Fits (filled_layout format_bits format_data format_flags) header.now }
{
    let id = header.stream_id.to_be_bytes();
    let timestamp = header.timestamp.to_be_bytes();
    let data = format_data.to_be_bytes();
    let length = header.data_length.to_be_bytes();
    let flags = format_flags.to_be_bytes();
    let second = 128 * u8::from(header.sv)
        + 8 * u8::from(header.mr)
        + 2 * format_bits
        + u8::from(header.tv);
    [
        header.subtype,
        second,
        header.seq,
        u8::from(header.tu),
        id[0],
        id[1],
        id[2],
        id[3],
        id[4],
        id[5],
        id[6],
        id[7],
        timestamp[0],
        timestamp[1],
        timestamp[2],
        timestamp[3],
        data[0],
        data[1],
        data[2],
        data[3],
        length[0],
        length[1],
        flags[0],
        flags[1],
    ]
}

/// Writes a stream header, with zeros in bytes 16 to 19, 22 and 23, and returns its length, 24. If the slice is too
/// short, returns `Room` and leaves the slice unchanged. The format bits must be at most 3.
pub fn write_stream_header(out: &mut [u8], header: &StreamHeader) -> Result<usize, Room>
    requires { header.now.format_bits ≤ 3 }
    ensures written { Writes (spelling header_layout header.now) out.old out.new result }
    ensures read_back { IfOk result (λ n. (trail : List ℕ) → SpellsHeader (take n out.new ++ trail) header.now) }
{
    let bytes = header_bytes(header, header.format_bits, 0, 0);
    write_front(out, &bytes, &[])
}
