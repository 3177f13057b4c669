//! Writes H.264 packets.

ghost use Rattle.std.specs.Prelude.{◌≡◌, ◌+◌, ◌-◌, ◌*◌, ◌^◌, ◌≤◌, ◌<◌, ◌++◌, List, ℕ, take, IfOk};
ghost use Rattle.avtp_base.specs.Octets.{flag};
ghost use Rattle.avtp_base.specs.Layout.{spelling};
ghost use Rattle.avtp_base.specs.Rows.{Writes};
ghost use Rattle.cvf_format.specs.Cvf.{IsWritableCvf, SpellsCvf, cvf_shape, cvf_spelling, header_size as size_of_header, headers_of, plain_cvf};
ghost use Rattle.cvf_format.specs.state.Reading.{IsHead};

use crate::cvf::{CvfView, FU_A, NalPart, header_size};
use avtp_base::Room;
use avtp_base::octets::write_front;
use avtp_header::header_bytes;

/// Bytes 16 to 19: the format is the one of RFC payloads, and the format subtype is the one of H.264.
const FORMAT_DATA: u32 = 0x0201_0000;

/// Bytes 22 and 23: the bit `ptv`, the marker and the event field.
fn format_flags(view: &CvfView<'_>) -> u16
    requires { IsWritableCvf (cvf_shape view.now) }
    ensures { result ≡ flag view.now.ptv * 2 ^ 13 + flag view.now.marker * 2 ^ 12 + view.now.evt * 2 ^ 8 }
{
    let flags = u16::from(view.ptv) << 1 | u16::from(view.marker);
    (flags << 4 | u16::from(view.evt)) << 8
}

/// Bytes 28 and 29: the headers of the NAL unit. A whole unit has only the first header.
fn nal_headers(view: &CvfView<'_>) -> [u8; 2]
    ensures { take (size_of_header view.now.part - 28) result ≡ spelling (headers_of view.now.part) (cvf_shape view.now) }
{
    let indicator = view.nal >> 5 << 5 | FU_A;
    let kind = view.nal & 0x1f;
    match view.part {
        NalPart::Single => [view.nal, 0],
        NalPart::First => [indicator, 0x80 | kind],
        NalPart::Middle => [indicator, kind],
        NalPart::Last => [indicator, 0x40 | kind],
    }
}

/// The bytes before the body, and one unused byte if the NAL unit is whole.
fn packet_header(view: &CvfView<'_>) -> [u8; 30]
    requires { IsWritableCvf (cvf_shape view.now) }
    ensures { IsHead (cvf_shape view.now) result }
{
    let header = header_bytes(&view.header, 0, FORMAT_DATA, format_flags(view));
    let mut bytes = [0u8; 30];
    bytes[..24].copy_from_slice(&header);
    bytes[24..28].copy_from_slice(&view.h264_timestamp.to_be_bytes());
    bytes[28..].copy_from_slice(&nal_headers(view));
    bytes
}

/// Writes a packet, with every reserved bit 0, and returns its length. If the slice is shorter than the packet, the
/// function returns `Room` and leaves the slice unchanged.
///
/// The view must be one that `read_cvf` could return. In a view that `read_cvf` could return, the subtype is CVF, the
/// event field is at most 15, and the type of the NAL unit is 1 to 23. `data_length` must be the length of the body
/// plus 5 for a whole unit, or plus 6 for a fragment. The header's format bits and `reserved` are not read.
pub fn write_cvf(out: &mut [u8], view: &CvfView<'_>) -> Result<usize, Room>
    requires { IsWritableCvf (cvf_shape view.now) }
    ensures written { Writes (cvf_spelling (cvf_shape view.now)) out.old out.new result }
    ensures read_back { IfOk result (λ n. (trail : List ℕ) → SpellsCvf (take n out.new ++ trail) (plain_cvf (cvf_shape view.now))) }
{
    let header = packet_header(view);
    write_front(out, &header[..header_size(view.part)], view.body)
}
