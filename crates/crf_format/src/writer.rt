//! Writes packets of the clock reference format.

ghost use Rattle.std.specs.Prelude.{◌≡◌, ◌++◌, List, ℕ, take, IfOk};
ghost use Rattle.avtp_base.specs.Layout.{Fits, spelling};
ghost use Rattle.avtp_base.specs.Rows.{Writes};
ghost use Rattle.crf_format.specs.Crf.{IsWritableCrf, SpellsCrf, crf_layout, crf_shape, crf_spelling, plain_crf};

use crate::crf::CrfView;
use avtp_base::Room;
use avtp_base::octets::write_front;
use avtp_header::subtype;

/// The 20 bytes before the timestamps.
fn header_bytes(view: &CrfView<'_>) -> [u8; 20]
    requires { IsWritableCrf (crf_shape view.now) }
    ensures spelled { result ≡ spelling crf_layout (crf_shape view.now) }
    ensures fits { Fits crf_layout (crf_shape view.now) }
{
    let id = view.stream_id.to_be_bytes();
    let frequency = (u32::from(view.pull) << 29 | view.base_frequency).to_be_bytes();
    let length = (view.payload.len() as u16).to_be_bytes();
    let interval = view.interval.to_be_bytes();
    let second = 128 * u8::from(view.sv)
        + 8 * u8::from(view.mr)
        + 2 * u8::from(view.fs)
        + u8::from(view.tu);
    [
        subtype::CRF,
        second,
        view.seq,
        view.kind,
        id[0],
        id[1],
        id[2],
        id[3],
        id[4],
        id[5],
        id[6],
        id[7],
        frequency[0],
        frequency[1],
        frequency[2],
        frequency[3],
        length[0],
        length[1],
        interval[0],
        interval[1],
    ]
}

/// Writes a packet of the clock reference format, with the reserved bit 0, and returns its length. If the slice is
/// shorter than the packet, the function returns `Room` and leaves the slice unchanged.
///
/// The view must be one that `read_crf` could return. In a view that `read_crf` can return, the pull is at most 5, the
/// base frequency is 1 to 2^29 - 1, and the interval is at least 1. The payload is one or more whole timestamps, at
/// most 65,535 bytes in total. `reserved` is not read.
pub fn write_crf(out: &mut [u8], view: &CrfView<'_>) -> Result<usize, Room>
    requires { IsWritableCrf (crf_shape view.now) }
    ensures written { Writes (crf_spelling (crf_shape view.now)) out.old out.new result }
    ensures read_back { IfOk result (λ n. (trail : List ℕ) → SpellsCrf (take n out.new ++ trail) (plain_crf (crf_shape view.now))) }
{
    let header = header_bytes(view);
    write_front(out, &header, view.payload)
}
