//! Writes PCM packets.

ghost use Rattle.std.specs.Prelude.{◌≡◌, ◌+◌, ◌*◌, ◌^◌, ◌≤◌, ◌<◌, ◌++◌, List, ℕ, take, IfOk};
ghost use Rattle.avtp_base.specs.Octets.{flag};
ghost use Rattle.avtp_base.specs.Rows.{Writes};
ghost use Rattle.aaf_format.specs.Aaf.{IsWritableAaf, SpellsAaf, aaf_shape, aaf_spelling, code_of as code_of_format, plain_aaf};

use crate::aaf::{AafFormat, AafView};
use avtp_base::Room;
use avtp_base::octets::write_front;
use avtp_header::header_bytes;

fn code_of(format: AafFormat) -> u8
    ensures { result ≡ code_of_format format }
{
    match format {
        AafFormat::Float32 => 1,
        AafFormat::Int32 => 2,
        AafFormat::Int24 => 3,
        AafFormat::Int16 => 4,
    }
}

/// Bytes 16 to 19: the format, the code of the sample rate, the channels and the bit depth.
fn format_data(view: &AafView<'_>) -> u32
    requires { IsWritableAaf (aaf_shape view.now) }
    ensures { result ≡ code_of_format view.now.format * 2 ^ 24 + view.now.nsr * 2 ^ 20 + view.now.channels * 2 ^ 8 + view.now.depth }
{
    let samples = u32::from(code_of(view.format)) << 4 | u32::from(view.nsr);
    let frames = samples << 12 | u32::from(view.channels);
    frames << 8 | u32::from(view.depth)
}

/// Bytes 22 and 23: the sparse timestamp mode and the event field.
fn format_flags(view: &AafView<'_>) -> u16
    requires { IsWritableAaf (aaf_shape view.now) }
    ensures { result ≡ flag view.now.sparse * 2 ^ 12 + view.now.evt * 2 ^ 8 }
{
    u16::from(view.sparse) << 12 | u16::from(view.evt) << 8
}

/// Writes a PCM packet, with every reserved bit 0, and returns its length. If the slice is shorter than the packet, the
/// function returns `Room` and leaves the slice unchanged.
///
/// The view must be one that `read_aaf` could return. In a view that `read_aaf` can return, the subtype is AAF, the
/// rate code is at most 10, and there are 1 to 1023 channels. The depth is at most a sample's width, and the event
/// field is at most 15. `count` and `data_length` must match the payload. The header's format bits and `reserved` are
/// not read.
pub fn write_aaf(out: &mut [u8], view: &AafView<'_>) -> Result<usize, Room>
    requires { IsWritableAaf (aaf_shape view.now) }
    ensures written { Writes (aaf_spelling (aaf_shape view.now)) out.old out.new result }
    ensures read_back { IfOk result (λ n. (trail : List ℕ) → SpellsAaf (take n out.new ++ trail) (plain_aaf (aaf_shape view.now))) }
{
    let samples = format_data(view);
    let flags = format_flags(view);
    let header = header_bytes(&view.header, 0, samples, flags);
    write_front(out, &header, view.payload)
}
