//! Reads packets of the clock reference format.

ghost use Rattle.std.specs.Prelude.{◌≡◌, ◌+◌, ◌*◌, ◌≤◌, ◌<◌, length, Option, Some, None, IfNone, IfOk, IsOkAnd};
ghost use Rattle.avtp_base.specs.Octets.{bits};
ghost use Rattle.avtp_base.specs.Rows.{Reads, first_row};
ghost use Rattle.avtp_base.specs.Layout.{first_short};
ghost use Rattle.crf_format.specs.Crf.{Crf, IsWritableCrf, SpellsCrf, clock_rows, crf_layout, crf_of, crf_refusal, crf_shape, misses_timestamps as is_missed, point_at, shared_rows};

use crate::crf::CrfView;
use avtp_base::octets::{bit_at, bits_at, u16_at, u32_at, u64_at};
use avtp_base::rows::{cut_off, refused};
use avtp_base::{Field, Refusal};
use avtp_header::{exceeds, subtype};

/// The refusal of a packet of `len` bytes for the first header field that is cut off.
fn short_field(len: usize) -> Option<Refusal>
    ensures exact { result ≡ first_short crf_layout len }
    ensures whole { IfNone result (20 ≤ len) }
{
    let (field, at) = match len {
        0 => (Field::Subtype, 0),
        1 => (Field::Version, 1),
        2 => (Field::SequenceNum, 2),
        3 => (Field::CrfType, 3),
        4..=11 => (Field::StreamId, 4),
        12..=15 => (Field::BaseFrequency, 12),
        16..=17 => (Field::CrfDataLength, 16),
        18..=19 => (Field::TimestampInterval, 18),
        _ => return None,
    };
    Some(cut_off(field, at))
}

fn refused_by_kind(pdu: &[u8]) -> Option<Refusal>
    requires { 20 ≤ length pdu.now }
    ensures { result ≡ first_row (shared_rows pdu.now) }
{
    if bits_at(pdu, 0, 0, 8) != subtype::CRF {
        return Some(refused(Field::Subtype, 0));
    }
    if bits_at(pdu, 1, 1, 3) != 0 {
        return Some(refused(Field::Version, 1));
    }
    None
}

/// The base frequency, which follows the three bits of the pull.
#[tactic(auto, unfolding(avtp_base::specs::Octets::bits))]
fn base_frequency(pdu: &[u8]) -> u32
    requires { 20 ≤ length pdu.now }
    ensures { result ≡ bits 12 3 29 pdu.now }
{
    u32_at(pdu, 12) % (1 << 29)
}

/// Whether one of three things holds: the stated length is 0, the stated length is not a multiple of 8 bytes, or a
/// packet of `len` bytes has fewer bytes after its header than the stated length.
fn misses_timestamps(stated: u16, len: usize) -> bool
    requires { 20 ≤ len }
    ensures { result ≡ is_missed stated len }
{
    stated == 0 || stated % 8 != 0 || exceeds(20, stated, len)
}

/// The refusal of the fields that describe the clock, or of the stated length.
fn refused_by_clock(pdu: &[u8]) -> Option<Refusal>
    requires { 20 ≤ length pdu.now }
    ensures exact { result ≡ first_row (clock_rows pdu.now) }
    ensures fits { IfNone result (20 + bits 16 0 16 pdu.now ≤ length pdu.now) }
{
    if bits_at(pdu, 12, 0, 3) > 5 {
        return Some(refused(Field::Pull, 12));
    }
    if base_frequency(pdu) == 0 {
        return Some(refused(Field::BaseFrequency, 12));
    }
    if misses_timestamps(u16_at(pdu, 16), pdu.len()) {
        return Some(refused(Field::CrfDataLength, 16));
    }
    if u16_at(pdu, 18) == 0 {
        return Some(refused(Field::TimestampInterval, 18));
    }
    None
}

fn view(pdu: &[u8]) -> CrfView<'_>
    requires { 20 + bits 16 0 16 pdu.now ≤ length pdu.now }
    ensures { crf_shape result ≡ crf_of pdu.now }
{
    CrfView {
        sv: bit_at(pdu, 1, 0),
        mr: bit_at(pdu, 1, 4),
        fs: bit_at(pdu, 1, 6),
        tu: bit_at(pdu, 1, 7),
        seq: bits_at(pdu, 2, 0, 8),
        kind: bits_at(pdu, 3, 0, 8),
        stream_id: u64_at(pdu, 4),
        pull: bits_at(pdu, 12, 0, 3),
        base_frequency: base_frequency(pdu),
        interval: u16_at(pdu, 18),
        payload: &pdu[20..20 + usize::from(u16_at(pdu, 16))],
        reserved: bits_at(pdu, 1, 5, 1) != 0,
    }
}

#[inline(always)]
fn read_packet(pdu: &[u8]) -> Result<CrfView<'_>, Refusal>
    ensures { Reads crf_shape (crf_refusal pdu.now) (crf_of pdu.now) result }
{
    if let Some(refusal) = short_field(pdu.len()) {
        return Err(refusal);
    }
    if let Some(refusal) = refused_by_kind(pdu) {
        return Err(refusal);
    }
    if let Some(refusal) = refused_by_clock(pdu) {
        return Err(refusal);
    }
    Ok(view(pdu))
}

/// Reads a packet of the clock reference format, of any type.
///
/// Checks the fields in the order given here, and refuses the packet at the first one that fails. The slice must hold
/// the whole header. The subtype must be CRF, and the version 0. The pull code must be at most 5, and the base
/// frequency at least 1. The stated length must be a multiple of 8, at least 8, and at most the number of bytes after
/// the header. The interval must be at least 1.
///
/// The reserved bit may be set, and bytes after the stated length are ignored.
#[inline(always)]
pub fn read_crf(pdu: &[u8]) -> Result<CrfView<'_>, Refusal>
    ensures exact { Reads crf_shape (crf_refusal pdu.now) (crf_of pdu.now) result }
    ensures spelled { IfOk result (λ view. SpellsCrf pdu.now (crf_shape view)) }
    ensures only { (v : Crf) → SpellsCrf pdu.now v → IsOkAnd result (λ view. crf_shape view ≡ v) }
    ensures writable { IfOk result (λ view. IsWritableCrf (crf_shape view)) }
{
    read_packet(pdu)
}

/// Timestamp `i` of the packet, counted from 0, in nanoseconds of gPTP. The payload must have at least `8 * i + 8`
/// bytes.
pub fn point(view: &CrfView<'_>, i: usize) -> u64
    requires { 8 * i + 8 ≤ length view.now.payload.now }
    ensures { result ≡ point_at i view.now.payload.now }
{
    u64_at(view.payload, 8 * i)
}
