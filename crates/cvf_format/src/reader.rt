//! Reads H.264 packets.

ghost use Rattle.std.specs.Prelude.{◌≡◌, ◌+◌, ◌≤◌, [], length, IsTrue, IfOk, IsOkAnd};
ghost use Rattle.avtp_base.specs.Octets.{any_set, bits};
ghost use Rattle.avtp_base.specs.Rows.{Reads, first_row};
ghost use Rattle.avtp_base.specs.Layout.{reserved_ranges};
ghost use Rattle.cvf_format.specs.Cvf.{Cvf, SpellsCvf, body_of, cvf_layout, cvf_of, cvf_refusal, cvf_shape, format_rows, fragment_of, header_size as size_of_header, is_fragment as is_fragment_of, is_single_type as is_single, nal_of, nal_rows, part_of, sets_reserved as is_reserved_set};
ghost use Rattle.cvf_format.specs.state.Reading.{IsStated, ReadsPart};

use crate::cvf::{CvfView, FU_A, NalPart, header_size};
use avtp_base::octets::{bit_at, bits_at, u16_at, u32_at};
use avtp_base::rows::{cut_off, refused};
use avtp_base::{Field, Refusal};
use avtp_header::{exceeds, read_header_of, subtype};

fn is_single_type(kind: u8) -> bool
    ensures { result ≡ is_single kind }
{
    0 < kind && kind < 24
}

/// Why the format, the format subtype or the stated length is refused; `None` if none of them is.
fn refused_by_format(pdu: &[u8], stated: u16) -> Option<Refusal>
    requires whole { 24 ≤ length pdu.now }
    requires length { stated ≡ bits 20 0 16 pdu.now }
    ensures { result ≡ first_row (format_rows pdu.now) }
{
    if bits_at(pdu, 16, 0, 8) != 2 {
        return Some(refused(Field::CvfFormat, 16));
    }
    if bits_at(pdu, 17, 0, 8) != 1 {
        return Some(refused(Field::FormatSubtype, 17));
    }
    if stated < 5 || exceeds(24, stated, pdu.len()) {
        return Some(refused(Field::StreamDataLength, 20));
    }
    None
}

/// Which fragment a packet carries, if its FU header is accepted.
fn fragment_part(pdu: &[u8], stated: u16) -> Result<NalPart, Refusal>
    requires stated { IsStated pdu.now stated }
    requires fragment { IsTrue (is_fragment_of pdu.now) }
    ensures { ReadsPart pdu.now stated result }
{
    if stated == 5 {
        return Err(cut_off(Field::FuHeader, 29));
    }
    let (start, end) = (bit_at(pdu, 29, 0), bit_at(pdu, 29, 1));
    if start && end || !is_single_type(bits_at(pdu, 29, 3, 5)) {
        return Err(refused(Field::FuHeader, 29));
    }
    Ok(match (start, end) {
        (true, _) => NalPart::First,
        (false, true) => NalPart::Last,
        (false, false) => NalPart::Middle,
    })
}

/// What a packet carries of a NAL unit, if the headers of the unit are accepted.
fn nal_part(pdu: &[u8], stated: u16) -> Result<NalPart, Refusal>
    requires { IsStated pdu.now stated }
    ensures { ReadsPart pdu.now stated result }
{
    if bits_at(pdu, 28, 3, 5) == FU_A {
        return fragment_part(pdu, stated);
    }
    if is_single_type(bits_at(pdu, 28, 3, 5)) {
        return Ok(NalPart::Single);
    }
    Err(refused(Field::NalType, 28))
}

/// The first byte of the NAL unit, which a fragment carries in two parts.
#[tactic(auto, using(crate::proofs::NalLemmas::joined))]
fn nal_at(pdu: &[u8], part: NalPart) -> u8
    requires inside { size_of_header part ≤ length pdu.now }
    requires same { part ≡ part_of pdu.now }
    ensures { result ≡ nal_of pdu.now }
{
    let reference = bits_at(pdu, 28, 0, 3);
    match part {
        NalPart::Single => reference << 5 | bits_at(pdu, 28, 3, 5),
        NalPart::First | NalPart::Middle | NalPart::Last => reference << 5 | bits_at(pdu, 29, 3, 5),
    }
}

/// Whether a reserved bit before the NAL unit is set.
fn sets_shared_reserved(pdu: &[u8]) -> bool
    requires { 24 ≤ length pdu.now }
    ensures { result ≡ any_set (reserved_ranges (cvf_layout [])) pdu.now }
{
    bits_at(pdu, 1, 5, 2) != 0
        || bits_at(pdu, 3, 0, 7) != 0
        || u16_at(pdu, 18) != 0
        || bits_at(pdu, 22, 0, 2) != 0
        || bits_at(pdu, 23, 0, 8) != 0
}

fn sets_reserved(pdu: &[u8], part: NalPart) -> bool
    requires { size_of_header part ≤ length pdu.now }
    ensures { result ≡ is_reserved_set part pdu.now }
{
    match part {
        NalPart::Single => sets_shared_reserved(pdu),
        NalPart::First | NalPart::Middle | NalPart::Last => {
            sets_shared_reserved(pdu) || bits_at(pdu, 29, 2, 1) != 0
        }
    }
}

#[inline(always)]
fn read_packet(pdu: &[u8]) -> Result<CvfView<'_>, Refusal>
    ensures { Reads cvf_shape (cvf_refusal pdu.now) (cvf_of pdu.now) result }
{
    let header = read_header_of(subtype::CVF, pdu)?;
    if let Some(refusal) = refused_by_format(pdu, header.data_length) {
        return Err(refusal);
    }
    let part = nal_part(pdu, header.data_length)?;
    Ok(CvfView {
        header,
        ptv: bit_at(pdu, 22, 2),
        marker: bit_at(pdu, 22, 3),
        evt: bits_at(pdu, 22, 4, 4),
        h264_timestamp: u32_at(pdu, 24),
        nal: nal_at(pdu, part),
        part,
        body: &pdu[header_size(part)..24 + usize::from(header.data_length)],
        reserved: sets_reserved(pdu, part),
    })
}

/// Reads a packet.
///
/// Checks the fields in the order below, and refuses the packet at the first field that is not accepted. The slice must
/// hold the whole stream header. The subtype must be CVF, and the version must be 0. The format must be that of RFC
/// payloads, and the format subtype must be that of H.264. The stated length must be at least 5, and at most the number
/// of bytes after the stream header. The NAL type must be FU-A or that of a single unit, 1 to 23. A fragment must have
/// an FU header, must not be both first and last, and must be of a unit with a type from 1 to 23.
///
/// An empty body is accepted. A packet with a reserved bit set is accepted, and bytes after the stated length are
/// ignored.
#[inline(always)]
pub fn read_cvf(pdu: &[u8]) -> Result<CvfView<'_>, Refusal>
    ensures exact { Reads cvf_shape (cvf_refusal pdu.now) (cvf_of pdu.now) result }
    ensures spelled { IfOk result (λ view. SpellsCvf pdu.now (cvf_shape view)) }
    ensures only { (v : Cvf) → SpellsCvf pdu.now v → IsOkAnd result (λ view. cvf_shape view ≡ v) }
{
    read_packet(pdu)
}
