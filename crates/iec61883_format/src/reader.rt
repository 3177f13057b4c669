//! Reads IEC 61883-6 packets.

ghost use Rattle.std.specs.Prelude.{◌≡◌, ◌≤◌, length, IfOk, IsOkAnd};
ghost use Rattle.avtp_base.specs.Octets.{bits};
ghost use Rattle.avtp_base.specs.Rows.{Reads, first_row};
ghost use Rattle.iec61883_format.specs.Iec.{Iec, IsWritableIec, SpellsIec, block_rows, cip_refusal, data_size as data_size_of, first_quadlet_rows, iec_of, iec_refusal, iec_shape, second_quadlet_rows, sets_reserved as is_reserved_set};
ghost use Rattle.iec61883_format.specs.state.Headers.{AreStated, IsCarrierRefusal, IsCipOf, IsDbs};

use crate::iec::{Cip, IecView};
use avtp_base::octets::{bits_at, u16_at, u32_at};
use avtp_base::rows::refused;
use avtp_base::{Field, Refusal};
use avtp_header::{exceeds, read_header_of, subtype};

/// The FDF of a no-data packet.
const NO_DATA: u8 = 255;

/// The number of quadlets in a data block, from the byte DBS.
fn dbs_of(byte: u8) -> u16
    ensures { IsDbs byte result }
{
    if byte == 0 { 256 } else { u16::from(byte) }
}

/// How many of the `size` bytes after the CIP header belong to data blocks: none in a no-data packet, and all in any
/// other packet.
fn data_size(fdf: u8, size: u32) -> u32
    ensures { result ≡ data_size_of fdf size }
{
    if fdf == NO_DATA { 0 } else { size }
}

/// The refusal of the tag or of the stated length. A stated length is refused if it is less than the length of a CIP
/// header, or if it exceeds the number of bytes after the stream header.
fn refused_by_carrier(pdu: &[u8], stated: u16) -> Option<Refusal>
    requires whole { 24 ≤ length pdu.now }
    requires stated { stated ≡ bits 20 0 16 pdu.now }
    ensures { IsCarrierRefusal pdu.now stated result }
{
    if bits_at(pdu, 22, 0, 2) != 1 {
        return Some(refused(Field::Tag, 22));
    }
    if stated < 8 || exceeds(24, stated, pdu.len()) {
        return Some(refused(Field::StreamDataLength, 20));
    }
    None
}

fn refused_by_first_quadlet(pdu: &[u8]) -> Option<Refusal>
    requires { 32 ≤ length pdu.now }
    ensures { result ≡ first_row (first_quadlet_rows pdu.now) }
{
    if bits_at(pdu, 24, 0, 2) != 0 {
        return Some(refused(Field::Qi1, 24));
    }
    if bits_at(pdu, 26, 0, 2) != 0 {
        return Some(refused(Field::FnBits, 26));
    }
    if bits_at(pdu, 26, 2, 3) != 0 {
        return Some(refused(Field::Qpc, 26));
    }
    if bits_at(pdu, 26, 5, 1) != 0 {
        return Some(refused(Field::Sph, 26));
    }
    None
}

fn refused_by_second_quadlet(pdu: &[u8]) -> Option<Refusal>
    requires { 32 ≤ length pdu.now }
    ensures { result ≡ first_row (second_quadlet_rows pdu.now) }
{
    if bits_at(pdu, 28, 0, 2) != 2 {
        return Some(refused(Field::Qi2, 28));
    }
    if bits_at(pdu, 28, 2, 6) != 0x10 {
        return Some(refused(Field::Fmt, 28));
    }
    let fdf = bits_at(pdu, 29, 0, 8);
    if fdf > 6 && fdf != NO_DATA {
        return Some(refused(Field::Fdf, 29));
    }
    None
}

/// The refusal of the stated length if `data_bytes` is not a whole number of data blocks of `block` bytes.
fn refused_by_blocks(pdu: &[u8], data_bytes: u32, block: u32) -> Option<Refusal>
    requires { AreStated pdu.now data_bytes block }
    ensures { result ≡ first_row (block_rows pdu.now) }
{
    if data_bytes % block != 0 {
        return Some(refused(Field::StreamDataLength, 20));
    }
    None
}

/// The refusal of the CIP header or of the data blocks.
fn refused_by_cip(pdu: &[u8], data_bytes: u32, block: u32) -> Option<Refusal>
    requires whole { 32 ≤ length pdu.now }
    requires stated { AreStated pdu.now data_bytes block }
    ensures { result ≡ cip_refusal pdu.now }
{
    if let Some(refusal) = refused_by_first_quadlet(pdu) {
        return Some(refusal);
    }
    if let Some(refusal) = refused_by_second_quadlet(pdu) {
        return Some(refusal);
    }
    refused_by_blocks(pdu, data_bytes, block)
}

fn cip(pdu: &[u8]) -> Cip
    requires { 32 ≤ length pdu.now }
    ensures { IsCipOf pdu.now result }
{
    Cip {
        sid: bits_at(pdu, 24, 2, 6),
        dbs: dbs_of(bits_at(pdu, 25, 0, 8)),
        dbc: bits_at(pdu, 27, 0, 8),
        fdf: bits_at(pdu, 29, 0, 8),
        syt: u16_at(pdu, 30),
    }
}

fn sets_reserved(pdu: &[u8]) -> bool
    requires { 32 ≤ length pdu.now }
    ensures { result ≡ is_reserved_set pdu.now }
{
    bits_at(pdu, 1, 5, 1) != 0 || bits_at(pdu, 3, 0, 7) != 0 || bits_at(pdu, 26, 6, 2) != 0
}

#[inline(always)]
fn read_packet(pdu: &[u8]) -> Result<IecView<'_>, Refusal>
    ensures { Reads iec_shape (iec_refusal pdu.now) (iec_of pdu.now) result }
{
    let header = read_header_of(subtype::IEC_61883, pdu)?;
    if let Some(refusal) = refused_by_carrier(pdu, header.data_length) {
        return Err(refusal);
    }
    let cip = cip(pdu);
    let size = header.data_length - 8;
    let data_bytes = data_size(cip.fdf, u32::from(size));
    let block = 4 * u32::from(cip.dbs);
    if let Some(refusal) = refused_by_cip(pdu, data_bytes, block) {
        return Err(refusal);
    }
    Ok(IecView {
        header,
        gateway_info: u32_at(pdu, 16),
        channel: bits_at(pdu, 22, 2, 6),
        tcode: bits_at(pdu, 23, 0, 4),
        sy: bits_at(pdu, 23, 4, 4),
        cip,
        count: data_bytes / block,
        payload: &pdu[32..32 + usize::from(size)],
        reserved: sets_reserved(pdu),
    })
}

/// Reads an IEC 61883-6 packet.
///
/// Checks the fields in the order given here, and refuses the packet at the first one that fails. The slice must hold
/// the whole stream header. The subtype must be IEC 61883, the version 0, and the tag 1. The stated length must be at
/// least the 8 bytes of a CIP header, and at most the number of bytes after the stream header. In the CIP header,
/// `qi_1`, `fn`, `qpc` and `sph` must be 0, `qi_2` must be 2, and the format must be audio. The FDF must be that of a
/// rate, or 255, which marks a no-data packet. In any other packet, the bytes between the CIP header and the end of the
/// stated length must be whole data blocks.
///
/// Reserved bits may be set, and bytes after the stated length are ignored.
#[inline(always)]
pub fn read_iec(pdu: &[u8]) -> Result<IecView<'_>, Refusal>
    ensures exact { Reads iec_shape (iec_refusal pdu.now) (iec_of pdu.now) result }
    ensures spelled { IfOk result (λ view. SpellsIec pdu.now (iec_shape view)) }
    ensures only { (v : Iec) → SpellsIec pdu.now v → IsOkAnd result (λ view. iec_shape view ≡ v) }
    ensures writable { IfOk result (λ view. IsWritableIec (iec_shape view)) }
{
    read_packet(pdu)
}
