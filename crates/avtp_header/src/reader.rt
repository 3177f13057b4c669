//! Reads stream headers.

ghost use Rattle.std.specs.Prelude.{◌≡◌, ◌↔◌, ◌+◌, ◌≤◌, ◌<◌, ◌∷◌, [], length, not, ◌==◌, IsSome, IsNone, IfOk, IfSome, IsOkAnd};
ghost use Rattle.avtp_base.specs.declared.field.Field.TheVariants.{Subtype};
ghost use Rattle.avtp_base.specs.Octets.{bits, is_set};
ghost use Rattle.avtp_base.specs.Rows.{Reads, first_row};
ghost use Rattle.avtp_base.specs.Layout.{first_short, holds, part};
ghost use Rattle.avtp_header.specs.declared.header.StreamHeader.{StreamHeader};
ghost use Rattle.avtp_header.specs.Header.{SpellsHeader, exceeds as is_exceeded, header_of, header_layout, header_refusal, kind_refusal, peeked_of, subtype_row, version_row};

use crate::header::{Peeked, StreamHeader};
use avtp_base::octets::{bit_at, bits_at, u16_at, u32_at, u64_at};
use avtp_base::rows::{cut_off, refused};
use avtp_base::{Field, Refusal};

/// Refuses a packet of `len` bytes at the first header field that is cut off, if any.
fn short_field(len: usize) -> Option<Refusal>
    ensures { result ≡ first_short header_layout len }
{
    let (field, at) = match len {
        0 => (Field::Subtype, 0),
        1 => (Field::Version, 1),
        2 => (Field::SequenceNum, 2),
        3 => (Field::Tu, 3),
        4..=11 => (Field::StreamId, 4),
        12..=15 => (Field::AvtpTimestamp, 12),
        16..=19 => (Field::FormatData, 16),
        20..=21 => (Field::StreamDataLength, 20),
        22..=23 => (Field::FormatFlags, 22),
        _ => return None,
    };
    Some(cut_off(field, at))
}

fn refused_by_version(pdu: &[u8]) -> Option<Refusal>
    requires { 1 < length pdu.now }
    ensures { result ≡ first_row (version_row pdu.now ∷ []) }
{
    if bits_at(pdu, 1, 1, 3) == 0 {
        return None;
    }
    Some(refused(Field::Version, 1))
}

fn fields(pdu: &[u8]) -> StreamHeader
    requires { 24 ≤ length pdu.now }
    ensures { result ≡ header_of pdu.now }
{
    StreamHeader {
        subtype: bits_at(pdu, 0, 0, 8),
        sv: bit_at(pdu, 1, 0),
        mr: bit_at(pdu, 1, 4),
        format_bits: bits_at(pdu, 1, 5, 2),
        tv: bit_at(pdu, 1, 7),
        seq: bits_at(pdu, 2, 0, 8),
        tu: bit_at(pdu, 3, 7),
        stream_id: u64_at(pdu, 4),
        timestamp: u32_at(pdu, 12),
        data_length: u16_at(pdu, 20),
    }
}

/// Whether a stated length exceeds the number of bytes after the header of a packet of `len` bytes.
pub fn exceeds(header: usize, stated: u16, len: usize) -> bool
    requires { header ≤ len }
    ensures { result ≡ is_exceeded header stated len }
{
    usize::from(stated) > len - header
}

/// Reads a stream header of any subtype. Refuses the first field that is cut off, or else a version other than 0.
#[inline(always)]
pub fn read_stream_header(pdu: &[u8]) -> Result<StreamHeader, Refusal>
    ensures exact { Reads (λ h. h) (header_refusal pdu.now) (header_of pdu.now) result }
    ensures spelled { IfOk result (λ h. SpellsHeader pdu.now h) }
    ensures only { (h : StreamHeader) → SpellsHeader pdu.now h → IsOkAnd result (λ found. found ≡ h) }
{
    read_any(pdu)
}

#[inline(always)]
fn read_any(pdu: &[u8]) -> Result<StreamHeader, Refusal>
    ensures { Reads (λ h. h) (header_refusal pdu.now) (header_of pdu.now) result }
{
    if let Some(refusal) = short_field(pdu.len()) {
        return Err(refusal);
    }
    if let Some(refusal) = refused_by_version(pdu) {
        return Err(refusal);
    }
    Ok(fields(pdu))
}

/// Reads a stream header of this subtype. Refuses the first field that is cut off, or else another subtype, or else a
/// version other than 0.
#[inline(always)]
pub fn read_header_of(subtype: u8, pdu: &[u8]) -> Result<StreamHeader, Refusal>
    ensures { Reads (λ h. h) (kind_refusal subtype pdu.now) (header_of pdu.now) result }
{
    if let Some(refusal) = short_field(pdu.len()) {
        return Err(refusal);
    }
    if bits_at(pdu, 0, 0, 8) != subtype {
        return Err(refused(Field::Subtype, 0));
    }
    if let Some(refusal) = refused_by_version(pdu) {
        return Err(refusal);
    }
    Ok(fields(pdu))
}

/// The first fields of a packet, which lie in the packet's first 12 bytes. `None` if the packet is shorter than 12
/// bytes.
pub fn peek(pdu: &[u8]) -> Option<Peeked>
    ensures none { IsNone result ↔ (length pdu.now < 12) }
    ensures fields { IfSome result (λ peeked. peeked ≡ peeked_of pdu.now) }
{
    if pdu.len() < 12 {
        return None;
    }
    Some(Peeked {
        subtype: bits_at(pdu, 0, 0, 8),
        sv: bit_at(pdu, 1, 0),
        seq: bits_at(pdu, 2, 0, 8),
        stream_id: u64_at(pdu, 4),
    })
}

/// The subtype of a packet. An empty slice is refused, because it cuts off the subtype.
#[inline(always)]
pub fn peek_subtype(pdu: &[u8]) -> Result<u8, Refusal>
    ensures { Reads (λ s. s) (first_short (part Subtype 0 (holds 8 (λ s. s) ∷ []) ∷ []) (length pdu.now)) (bits 0 0 8 pdu.now) result }
{
    if pdu.is_empty() {
        return Err(cut_off(Field::Subtype, 0));
    }
    Ok(bits_at(pdu, 0, 0, 8))
}
