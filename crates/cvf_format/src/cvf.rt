//! H.264 packets of the AVTP compressed video format.

ghost use Rattle.std.specs.Prelude.{◌≡◌};
ghost use Rattle.cvf_format.specs.Cvf.{header_size as size_of_header};

use avtp_header::StreamHeader;

/// The type of a packet that carries a fragment of a NAL unit (FU-A).
pub const FU_A: u8 = 28;

/// What a packet carries of a NAL unit (RFC 6184, 5.6 and 5.8).
#[derive(Clone, Copy, Debug, PartialEq, Eq)]
pub enum NalPart {
    /// The whole unit.
    Single,
    /// The first fragment.
    First,
    /// A fragment between the first and the last.
    Middle,
    /// The last fragment.
    Last,
}

/// A packet that carries one H.264 NAL unit, or a fragment of one.
#[derive(Clone, Copy, Debug)]
pub struct CvfView<'a> {
    pub header: StreamHeader,
    /// The H.264 timestamp is valid.
    pub ptv: bool,
    /// The packet is the last of its access unit.
    pub marker: bool,
    /// The event field (evt), 0 to 15, whose meaning the upper layer defines.
    pub evt: u8,
    /// The H.264 timestamp, in nanoseconds of gPTP modulo 2^32.
    pub h264_timestamp: u32,
    /// The first byte of the NAL unit: F in one bit, NRI in two, and the type, 1 to 23, in five. Each fragment of a
    /// unit carries this byte, split between the fragment's two headers.
    pub nal: u8,
    pub part: NalPart,
    /// The part of the NAL unit that this packet carries, without the unit's first byte.
    pub body: &'a [u8],
    /// A reserved bit is set.
    pub reserved: bool,
}

/// The size in bytes of a packet's headers, which come before its body.
pub fn header_size(part: NalPart) -> usize
    ensures { result ≡ size_of_header part }
{
    match part {
        NalPart::Single => 29,
        NalPart::First | NalPart::Middle | NalPart::Last => 30,
    }
}
