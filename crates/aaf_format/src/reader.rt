//! Reads PCM packets.

ghost use Rattle.std.specs.Prelude.{◌≡◌, ◌+◌, ◌*◌, ◌≤◌, ◌<◌, ◌==◌, length, Option, Some, None, IfOk, IsOkAnd};
ghost use Rattle.avtp_base.specs.Octets.{bits, is_set};
ghost use Rattle.avtp_base.specs.Rows.{Reads, first_row};
ghost use Rattle.avtp_header.specs.Header.{header_of, kind_refusal};
ghost use Rattle.aaf_format.specs.Aaf.{Aaf, SpellsAaf, aaf_of, aaf_refusal, aaf_shape, format_of, frame_size, length_rows, named_format, rate_of as rate_of_code, sample_rows, sets_reserved as is_reserved_set, width_of as width_of_format};

use crate::aaf::{AafFormat, AafView};
use avtp_base::octets::{bit_at, bits_at, low_bits_at, u16_at};
use avtp_base::rows::refused;
use avtp_base::{Field, Refusal};
use avtp_header::{StreamHeader, exceeds, read_header_of, subtype};

/// The sample rate in Hz that the code `nsr` names. `None` for 0, which means user-specified, and for codes above 10,
/// which are reserved.
pub fn rate_of(nsr: u8) -> Option<u32>
    ensures { result ≡ rate_of_code nsr }
{
    Some(match nsr {
        1 => 8_000,
        2 => 16_000,
        3 => 32_000,
        4 => 44_100,
        5 => 48_000,
        6 => 88_200,
        7 => 96_000,
        8 => 176_400,
        9 => 192_000,
        10 => 24_000,
        _ => return None,
    })
}

/// The size of a sample in bytes.
pub fn width_of(format: AafFormat) -> u32
    ensures { result ≡ width_of_format format }
{
    match format {
        AafFormat::Float32 | AafFormat::Int32 => 4,
        AafFormat::Int24 => 3,
        AafFormat::Int16 => 2,
    }
}

fn format_named(code: u8) -> Option<AafFormat>
    ensures { result ≡ named_format code }
{
    match code {
        1 => Some(AafFormat::Float32),
        2 => Some(AafFormat::Int32),
        3 => Some(AafFormat::Int24),
        4 => Some(AafFormat::Int16),
        _ => None,
    }
}

/// The format of the samples, if the fields that describe them are accepted.
fn sample_format(pdu: &[u8]) -> Result<AafFormat, Refusal>
    requires { 24 ≤ length pdu.now }
    ensures { Reads (λ f. f) (first_row (sample_rows pdu.now)) (format_of pdu.now) result }
{
    let Some(format) = format_named(bits_at(pdu, 16, 0, 8)) else {
        return Err(refused(Field::Format, 16));
    };
    if bits_at(pdu, 17, 0, 4) > 10 {
        return Err(refused(Field::Nsr, 17));
    }
    if low_bits_at(pdu, 17, 10) == 0 {
        return Err(refused(Field::ChannelsPerFrame, 17));
    }
    if u32::from(bits_at(pdu, 19, 0, 8)) > 8 * width_of(format) {
        return Err(refused(Field::BitDepth, 19));
    }
    Ok(format)
}

/// The refusal of the stated length, for sample frames of `frame` bytes.
fn refused_by_length(pdu: &[u8], stated: u16, frame: u32) -> Option<Refusal>
    requires whole { 24 ≤ length pdu.now }
    requires length { stated ≡ bits 20 0 16 pdu.now }
    requires some { 0 < frame }
    requires sized { frame ≡ frame_size (bits 17 6 10 pdu.now) (format_of pdu.now) }
    ensures { result ≡ first_row (length_rows pdu.now) }
{
    if exceeds(24, stated, pdu.len()) || u32::from(stated) % frame != 0 {
        return Some(refused(Field::StreamDataLength, 20));
    }
    None
}

fn sets_reserved(pdu: &[u8]) -> bool
    requires { 24 ≤ length pdu.now }
    ensures { result ≡ is_reserved_set pdu.now }
{
    bits_at(pdu, 1, 5, 2) != 0
        || bits_at(pdu, 3, 0, 7) != 0
        || bits_at(pdu, 17, 4, 2) != 0
        || bits_at(pdu, 22, 0, 3) != 0
        || bits_at(pdu, 23, 0, 8) != 0
}

#[inline(always)]
fn read_packet(pdu: &[u8]) -> Result<AafView<'_>, Refusal>
    ensures { Reads aaf_shape (aaf_refusal pdu.now) (aaf_of pdu.now) result }
{
    let header = read_header_of(subtype::AAF, pdu)?;
    let format = sample_format(pdu)?;
    let channels = low_bits_at(pdu, 17, 10);
    let frame = u32::from(channels) * width_of(format);
    if let Some(refusal) = refused_by_length(pdu, header.data_length, frame) {
        return Err(refusal);
    }
    Ok(AafView {
        header,
        format,
        nsr: bits_at(pdu, 17, 0, 4),
        channels,
        depth: bits_at(pdu, 19, 0, 8),
        sparse: bit_at(pdu, 22, 3),
        evt: bits_at(pdu, 22, 4, 4),
        count: u32::from(header.data_length) / frame,
        payload: &pdu[24..24 + usize::from(header.data_length)],
        reserved: sets_reserved(pdu),
    })
}

/// Reads a PCM packet.
///
/// Checks the fields in the order below, and refuses the packet at the first field that is not accepted. The slice must
/// hold the whole stream header. The subtype must be AAF, the version 0, and the format PCM. The sample rate code must
/// not be a reserved one. There must be at least one channel, and the bit depth must be at most the width of a sample.
/// The stated length must be at most the number of bytes after the stream header, and must be a whole number of sample
/// frames.
///
/// Reserved bits may be set, and bytes after the stated length are ignored.
#[inline(always)]
pub fn read_aaf(pdu: &[u8]) -> Result<AafView<'_>, Refusal>
    ensures exact { Reads aaf_shape (aaf_refusal pdu.now) (aaf_of pdu.now) result }
    ensures spelled { IfOk result (λ view. SpellsAaf pdu.now (aaf_shape view)) }
    ensures only { (v : Aaf) → SpellsAaf pdu.now v → IsOkAnd result (λ view. aaf_shape view ≡ v) }
{
    read_packet(pdu)
}
