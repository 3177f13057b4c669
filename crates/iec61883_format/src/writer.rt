//! Writes IEC 61883-6 packets.

ghost use Rattle.std.specs.Prelude.{◌≡◌, ◌+◌, ◌*◌, ◌^◌, ◌≤◌, ◌<◌, ◌++◌, List, ℕ, take, IfOk};
ghost use Rattle.avtp_base.specs.Layout.{Fits, spelling};
ghost use Rattle.avtp_base.specs.Rows.{Writes};
ghost use Rattle.iec61883_format.specs.declared.iec.Cip.{Cip as TheCip};
ghost use Rattle.iec61883_format.specs.Iec.{IsWritableIec, SpellsIec, cip_layout, cip_tag, dbs_byte as byte_of_quadlets, iec_layout, iec_shape, iec_spelling, plain_iec};
ghost use Rattle.iec61883_format.specs.state.Headers.{IsHeader};

use crate::iec::{Cip, IecView};
use avtp_base::Room;
use avtp_base::octets::write_front;
use avtp_header::header_bytes;

/// The DBS byte for data blocks of this many quadlets.
fn dbs_byte(dbs: u16) -> u8
    requires { dbs ≤ 256 }
    ensures { result ≡ byte_of_quadlets dbs }
{
    if dbs == 256 { 0 } else { dbs as u8 }
}

/// Bytes 22 and 23: the tag, the channel, the transaction code and the synchronization code.
fn format_flags(view: &IecView<'_>) -> u16
    requires { IsWritableIec (iec_shape view.now) }
    ensures { result ≡ cip_tag * 2 ^ 14 + view.now.channel * 2 ^ 8 + view.now.tcode * 2 ^ 4 + view.now.sy }
{
    let first = 1 << 6 | u16::from(view.channel);
    let second = u16::from(view.tcode) << 4 | u16::from(view.sy);
    first << 8 | second
}

/// The CIP header.
fn cip_bytes(cip: Cip) -> [u8; 8]
    requires sid { cip.sid < 2 ^ 6 }
    requires dbs { cip.dbs ≤ 256 }
    ensures spelled { result ≡ spelling (cip_layout (λ (c : TheCip). c)) cip }
    ensures fits { Fits (cip_layout (λ (c : TheCip). c)) cip }
{
    let syt = cip.syt.to_be_bytes();
    [
        cip.sid,
        dbs_byte(cip.dbs),
        0,
        cip.dbc,
        0x90,
        cip.fdf,
        syt[0],
        syt[1],
    ]
}

/// The 32 bytes before the data blocks.
fn whole_header(view: &IecView<'_>) -> [u8; 32]
    requires { IsWritableIec (iec_shape view.now) }
    ensures { IsHeader (iec_shape view.now) result }
{
    let flags = format_flags(view);
    let valid = view.header.format_bits % 2;
    let header = header_bytes(&view.header, valid, view.gateway_info, flags);
    let cip = cip_bytes(view.cip);
    let mut bytes = [0; 32];
    bytes[..24].copy_from_slice(&header);
    bytes[24..].copy_from_slice(&cip);
    bytes
}

/// Writes an IEC 61883-6 packet, with every reserved bit 0, and returns its length. If the slice is shorter than the
/// packet, the function returns `Room` and leaves the slice unchanged.
///
/// The view must be one that `read_iec` could return. In a view that `read_iec` can return, the subtype is IEC 61883,
/// the channel and the SID are at most 63, and `tcode` and `sy` are at most 15. Each data block has from 1 to 256
/// quadlets, and the FDF is at most 6, or
/// 255. `count` must be the number of data blocks in the payload, or 0 in a no-data packet. `data_length` must be the
/// payload's length plus the 8 bytes of the CIP header. The higher format bit of the header and `reserved` are not
/// read.
pub fn write_iec(out: &mut [u8], view: &IecView<'_>) -> Result<usize, Room>
    requires { IsWritableIec (iec_shape view.now) }
    ensures written { Writes (iec_spelling (iec_shape view.now)) out.old out.new result }
    ensures read_back { IfOk result (λ n. (trail : List ℕ) → SpellsIec (take n out.new ++ trail) (plain_iec (iec_shape view.now))) }
{
    let header = whole_header(view);
    write_front(out, &header, view.payload)
}
