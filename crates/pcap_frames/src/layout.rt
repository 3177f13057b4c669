//! The fields of a capture: their offsets, how their numbers are encoded, and which values are refused (draft-ietf-opsawg-pcap,
//! "PCAP Capture File Format", sections 4 and 5).

ghost use Rattle.std.specs.Prelude.{◌≡◌, ◌+◌, ◌<◌, ◌≤◌, ◌^◌, ℕ, length, pos, true, false, None, Some, IfSome, IsSome};
ghost use Rattle.pcap_frames.specs.Capture.{record_of};
ghost use Rattle.pcap_frames.specs.state.Reading.{IsRecordSize};
ghost use Rattle.pcap_frames.specs.Readers.{Views};
ghost use Rattle.pcap_frames.specs.Layout.{number_at, style_at as style_of_bytes, file_header, first_refused, certain as certain_of, file_refusal as refusal_of_file, record_refusal as refusal_of_record, instant, IsRecordTime};

use crate::numbers::{u16_at, u32_at};
use crate::style::{Order, RecordView, Style, Unit};
use avtp_base::rows::{cut_off, refused};
use avtp_base::{Field, Refusal};

/// The length in bytes of a capture's file header.
pub const FILE_HEADER: usize = 24;

/// The length in bytes of a record's header.
pub const RECORD_HEADER: usize = 16;

/// The greatest number of captured bytes in a record, not counting the record's header.
pub const RECORD_LIMIT: u32 = 262_144;

/// The magic number of a capture that counts microseconds.
pub const MAGIC_MICRO: u32 = 0xA1B2_C3D4;

/// The magic number of a capture that counts nanoseconds.
pub const MAGIC_NANO: u32 = 0xA1B2_3C4D;

/// The two magic numbers of a big-endian capture, read as little-endian: their bytes are swapped.
const SWAPPED_MICRO: u32 = 0xD4C3_B2A1;

const SWAPPED_NANO: u32 = 0x4D3C_B2A1;

/// The style of the magic number at the front.
#[tactic(auto, unfolding(crate::specs::Layout::style_at))]
pub fn style_at(header: &[u8]) -> Option<Style>
    requires { 4 ≤ length header.now }
    ensures { result ≡ style_of_bytes header.now }
{
    // The number is read as little-endian and compared with all four magic numbers. The effect is the same as reading
    // the number in each byte order.
    let (order, unit) = match u32_at(Order::Little, header, 0) {
        MAGIC_MICRO => (Order::Little, Unit::Micro),
        MAGIC_NANO => (Order::Little, Unit::Nano),
        SWAPPED_MICRO => (Order::Big, Unit::Micro),
        SWAPPED_NANO => (Order::Big, Unit::Nano),
        _ => return None,
    };
    Some(Style { order, unit })
}

/// The first refused field of the file header. A field is refused if these bytes cut it off, or if its value is not
/// accepted.
#[tactic(auto, unfolding(crate::specs::Layout::file_refusal, crate::specs::Layout::style_at))]
pub fn file_refusal(header: &[u8]) -> Option<Refusal>
    ensures { result ≡ refusal_of_file header.now }
{
    if header.len() < 4 {
        return Some(cut_off(Field::Magic, 0));
    }
    match style_at(header) {
        None => Some(refused(Field::Magic, 0)),
        Some(style) => rest_refusal(style.order, header),
    }
}

/// The first refused field of the file header after the magic number. A field is refused if these bytes cut it off, or
/// if its value is not accepted.
fn rest_refusal(order: Order, header: &[u8]) -> Option<Refusal>
    ensures { result ≡ first_refused order 0 file_header header.now }
{
    let len = header.len();
    if len < 6 {
        Some(cut_off(Field::VersionMajor, 4))
    } else if u16_at(order, header, 4) != 2 {
        Some(refused(Field::VersionMajor, 4))
    } else if len < 8 {
        Some(cut_off(Field::VersionMinor, 6))
    } else if len < 12 {
        Some(cut_off(Field::Thiszone, 8))
    } else if len < 16 {
        Some(cut_off(Field::Sigfigs, 12))
    } else if len < 20 {
        Some(cut_off(Field::Snaplen, 16))
    } else if len < FILE_HEADER {
        Some(cut_off(Field::Network, 20))
    } else if u32_at(order, header, 20) % 65536 != 1 {
        Some(refused(Field::Network, 20))
    } else {
        None
    }
}

/// The first refused field of a record. A field is refused if these bytes cut it off, or if its value is not accepted.
/// The record begins at offset `start` of the capture.
#[tactic(auto, unfolding(crate::specs::Layout::record_refusal))]
pub fn record_refusal(order: Order, start: u64, bytes: &[u8]) -> Option<Refusal>
    requires { start < 2 ^ 63 }
    ensures { result ≡ refusal_of_record order start bytes.now }
{
    let len = bytes.len();
    if len < 4 {
        return Some(cut_off(Field::TsSec, start));
    }
    if len < 8 {
        return Some(cut_off(Field::TsFraction, start + 4));
    }
    if len < 12 {
        return Some(cut_off(Field::InclLen, start + 8));
    }
    let captured = u32_at(order, bytes, 8);
    if captured > RECORD_LIMIT {
        return Some(refused(Field::InclLen, start + 8));
    }
    if len < RECORD_HEADER {
        return Some(cut_off(Field::OrigLen, start + 12));
    }
    if len < RECORD_HEADER + captured as usize {
        return Some(cut_off(Field::PacketBytes, start + 16));
    }
    None
}

/// The size of the record at the front of the bytes, if the bytes contain the whole record and nothing in the record is
/// refused.
#[tactic(auto, unfolding(crate::specs::Layout::record_refusal))]
pub fn whole_size(order: Order, bytes: &[u8]) -> Option<usize>
    ensures { IsRecordSize order bytes.now result }
{
    if bytes.len() < RECORD_HEADER {
        return None;
    }
    let captured = u32_at(order, bytes, 8);
    let size = RECORD_HEADER + captured as usize;
    if captured > RECORD_LIMIT || bytes.len() < size {
        return None;
    }
    Some(size)
}

/// The refusal, if its field is complete, so that no later bytes can change the refusal.
pub fn certain(refusal: Option<Refusal>) -> Option<Refusal>
    ensures { result ≡ certain_of refusal }
{
    match refusal {
        Some(refusal) if !refusal.short => Some(refusal),
        _ => None,
    }
}

/// The instant of a record in nanoseconds: the seconds plus the fraction, even if the fraction is one second or more.
pub fn arrival_of(unit: Unit, seconds: u32, fraction: u32) -> i64
    ensures { result ≡ pos (instant unit seconds fraction) }
{
    let scale = match unit {
        Unit::Micro => 1000,
        Unit::Nano => 1,
    };
    let nanoseconds = u64::from(seconds) * 1_000_000_000 + u64::from(fraction) * scale;
    nanoseconds as i64
}

/// The record that these bytes encode. The bytes begin with the record's header.
pub fn view(style: Style, bytes: &[u8]) -> RecordView<'_>
    requires { 16 ≤ length bytes.now }
    ensures { Views (Some (record_of style bytes.now)) (Some result) }
{
    let seconds = u32_at(style.order, bytes, 0);
    let fraction = u32_at(style.order, bytes, 4);
    RecordView {
        arrival: arrival_of(style.unit, seconds, fraction),
        orig_len: u32_at(style.order, bytes, 12),
        bytes: &bytes[RECORD_HEADER..],
    }
}
