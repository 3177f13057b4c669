//! The frames of a capture that are not packets of supported streams: the names of their kinds, and how often each kind
//! was seen.

use crate::facts::subtype_name;
use avtp_base::{Field, NoMemory};
use pcap_frames::FrameView;
use std::alloc::Global;
use std::fmt;

/// A kind of frame other than a packet of a supported stream.
#[derive(Clone, Copy, PartialEq, Eq)]
pub enum Other {
    /// A frame with an EtherType other than AVTP's.
    Ethertype(u16),
    /// AVTP in UDP over IPv4 or IPv6 (IEEE 1722-2016, annex J).
    Udp,
    /// A frame with two VLAN tags; only the outer tag was read.
    TwoTags,
    /// An AVTP packet of an unsupported subtype.
    Subtype(u8),
    /// An AAF packet of AES3 or of a user-specified format.
    AafFormat(u8),
    /// A CVF packet of a format other than H.264, with the two codes of its format.
    CvfFormat { format: u8, subtype: u8 },
    /// An IEC 61883 packet of a part other than IEC 61883-6, with its code FMT.
    IecFormat(u8),
    /// A stream packet whose stream ID is not valid, with the packet's subtype.
    NoStream(u8),
    /// A frame that is cut off, or an AVTP packet that is refused and whose stream is not known.
    Malformed(Field),
    /// A packet of a stream that is not tracked, because 1,024 other streams are tracked already.
    Untracked,
}

/// How often a kind of frame was seen.
#[derive(Clone, Copy)]
pub struct OtherCount {
    pub other: Other,
    pub count: u64,
}

/// How often each kind of frame was seen. At most 256 kinds are counted separately.
#[derive(Drop)]
pub struct Others {
    pub counts: Vec<OtherCount>,
    /// The number of frames of all further kinds.
    pub further: u64,
}

/// The maximum number of kinds that are counted separately.
const MOST_KINDS: usize = 256;

impl Others {
    pub fn new(alloc: Global) -> Self {
        Others {
            counts: Vec::new(alloc),
            further: 0,
        }
    }

    pub fn note(&mut self, other: Other) -> Result<(), NoMemory> {
        for known in self.counts.iter_mut() {
            if known.other == other {
                known.count = known.count.saturating_add(1);
                return Ok(());
            }
        }
        if self.counts.len() >= MOST_KINDS {
            self.further = self.further.saturating_add(1);
            return Ok(());
        }
        self.counts.push(OtherCount { other, count: 1 })?;
        Ok(())
    }
}

/// The EtherTypes of IPv4 and IPv6, and of VLAN tags.
const IPV4: u16 = 0x0800;

const IPV6: u16 = 0x86dd;

const SERVICE_TAG: u16 = 0x88a8;

const OLD_SERVICE_TAG: u16 = 0x9100;

const CUSTOMER_TAG: u16 = 0x8100;

/// The UDP ports of AVTP streams and of AVTP control (IEEE 1722-2016, annex J).
const STREAM_PORT: u16 = 17220;

const CONTROL_PORT: u16 = 17221;

/// The protocol number of UDP in IP.
const UDP: u8 = 17;

/// The kind of a frame in which no AVTP packet directly follows the header.
pub fn other_frame(frame: &FrameView<'_>) -> Other {
    match frame.ethertype {
        SERVICE_TAG | OLD_SERVICE_TAG | CUSTOMER_TAG => Other::TwoTags,
        IPV4 if is_avtp_in_ipv4(frame.payload) => Other::Udp,
        IPV6 if is_avtp_in_ipv6(frame.payload) => Other::Udp,
        ethertype => Other::Ethertype(ethertype),
    }
}

fn byte_at(bytes: &[u8], at: usize) -> u8 {
    bytes.get(at).copied().unwrap_or(0)
}

fn number_at(bytes: &[u8], at: usize) -> u16 {
    u16::from_be_bytes([byte_at(bytes, at), byte_at(bytes, at.saturating_add(1))])
}

fn is_avtp_in_ipv4(payload: &[u8]) -> bool {
    let header = usize::from(byte_at(payload, 0) % 16).saturating_mul(4);
    byte_at(payload, 9) == UDP && is_avtp_port(number_at(payload, header.saturating_add(2)))
}

fn is_avtp_in_ipv6(payload: &[u8]) -> bool {
    byte_at(payload, 6) == UDP && is_avtp_port(number_at(payload, 42))
}

fn is_avtp_port(port: u16) -> bool {
    port == STREAM_PORT || port == CONTROL_PORT
}

/// The code FMT of IEC 61883-6.
const AM824: u8 = 0x10;

/// The kind of a refused packet of this subtype, if the packet's format is not supported. `None` if the packet is
/// malformed.
pub fn unread_format(subtype: u8, field: Field, pdu: &[u8]) -> Option<Other> {
    match field {
        Field::Format => Some(Other::AafFormat(byte_at(pdu, 16))),
        Field::CvfFormat | Field::FormatSubtype => Some(Other::CvfFormat {
            format: byte_at(pdu, 16),
            subtype: byte_at(pdu, 17),
        }),
        _ if subtype == avtp_header::subtype::IEC_61883 && is_other_part(field, pdu) => {
            Some(Other::IecFormat(byte_at(pdu, 28) % 64))
        }
        _ => None,
    }
}

/// Whether an IEC 61883 packet is of a part other than IEC 61883-6. A refused packet is of another part if three things
/// hold: its header is whole, its FMT is not that of IEC 61883-6, and it was refused at a field that differs between
/// the parts.
fn is_other_part(field: Field, pdu: &[u8]) -> bool {
    let differs = matches!(field, Field::FnBits | Field::Qpc | Field::Sph | Field::Fmt);
    differs && pdu.len() >= 32 && byte_at(pdu, 28) % 64 != AM824
}

impl fmt::Display for Other {
    fn fmt<W: fmt::Write>(&self, f: &mut fmt::Formatter<W>) -> fmt::Result {
        match self {
            Other::Ethertype(ethertype) => write_ethertype(*ethertype, f),
            Other::Udp => write!(f, "AVTP over UDP (ports 17220 and 17221)"),
            Other::TwoTags => write!(f, "two VLAN tags"),
            Other::Subtype(code) => match subtype_name(*code) {
                Some(name) => write!(f, "AVTP {name}"),
                None => write!(f, "AVTP subtype {code:#04x}"),
            },
            Other::AafFormat(5) => write!(f, "AAF AES3"),
            Other::AafFormat(code) => write!(f, "AAF format {code}"),
            Other::CvfFormat { format, subtype } => write_cvf(*format, *subtype, f),
            Other::IecFormat(code) => write_iec(*code, f),
            Other::NoStream(code) => match subtype_name(*code) {
                Some(name) => write!(f, "{name} without a valid stream id"),
                None => write!(f, "packets without a valid stream id"),
            },
            Other::Malformed(field) => {
                let name = field.name();
                write!(f, "malformed {name}")
            }
            Other::Untracked => write!(f, "packets of further streams"),
        }
    }
}

fn write_ethertype<W: fmt::Write>(ethertype: u16, f: &mut fmt::Formatter<W>) -> fmt::Result {
    let name = match ethertype {
        IPV4 => "IPv4",
        IPV6 => "IPv6",
        0x0806 => "ARP",
        0x22ea => "SRP: MSRP",
        0x88f5 => "SRP: MVRP",
        0x88f6 => "SRP: MMRP",
        0x88f7 => "gPTP",
        0x88cc => "LLDP",
        0xf1c1 => "R-TAG (IEEE 802.1CB)",
        0..=1535 => "IEEE 802.3 with a length",
        _ => return write!(f, "EtherType {ethertype:#06x}"),
    };
    write!(f, "{name}")
}

fn write_cvf<W: fmt::Write>(format: u8, subtype: u8, f: &mut fmt::Formatter<W>) -> fmt::Result {
    match (format, subtype) {
        (2, 0) => write!(f, "CVF MJPEG"),
        (2, 2) => write!(f, "CVF JPEG 2000"),
        _ => write!(f, "CVF format {format} subtype {subtype}"),
    }
}

fn write_iec<W: fmt::Write>(code: u8, f: &mut fmt::Formatter<W>) -> fmt::Result {
    match code {
        0x00 => write!(f, "IEC 61883-2 (SD-DVCR)"),
        0x01 => write!(f, "IEC 61883-8 (BT.601)"),
        0x20 => write!(f, "IEC 61883-4 (MPEG2-TS)"),
        0x21 => write!(f, "IEC 61883-7 (BO1294)"),
        _ => write!(f, "IEC 61883 FMT {code:#04x}"),
    }
}
