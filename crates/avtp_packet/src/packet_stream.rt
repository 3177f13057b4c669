//! The stream that a packet belongs to.

ghost use Rattle.std.specs.Prelude.{◌≡◌};
ghost use Rattle.avtp_packet.specs.Packet.{packet_shape};
ghost use Rattle.avtp_packet.specs.PacketStream.{has_reserved, header_stream, stream_of as stream_of_packet};

use crate::packet::Packet;
use avtp_header::{StreamHeader, subtype};

/// The stream that a packet belongs to, with the packet's sequence number and media clock restart bit.
#[derive(Clone, Copy, Debug, PartialEq, Eq)]
pub struct PacketStream {
    /// The subtype of the packet (IEEE 1722-2016, table 6).
    pub subtype: u8,
    /// The stream ID.
    pub id: u64,
    /// Whether the stream ID is valid.
    pub sv: bool,
    /// The sequence number.
    pub seq: u8,
    /// The media clock restart bit.
    pub mr: bool,
}

fn stream_by(subtype: u8, header: &StreamHeader) -> PacketStream
    ensures { result ≡ header_stream subtype header.now }
{
    PacketStream {
        subtype,
        id: header.stream_id,
        sv: header.sv,
        seq: header.seq,
        mr: header.mr,
    }
}

/// The stream of a packet. `None` if and only if the packet's format is not supported.
pub fn stream_of(packet: &Packet<'_>) -> Option<PacketStream>
    ensures { result ≡ stream_of_packet (packet_shape packet.now) }
{
    Some(match packet {
        Packet::Iec(view) => stream_by(subtype::IEC_61883, &view.header),
        Packet::Aaf(view) => stream_by(subtype::AAF, &view.header),
        Packet::H264(view) => stream_by(subtype::CVF, &view.header),
        Packet::Crf(view) => PacketStream {
            subtype: subtype::CRF,
            id: view.stream_id,
            sv: view.sv,
            seq: view.seq,
            mr: view.mr,
        },
        Packet::Other(_) => return None,
    })
}

/// Whether a reserved bit of the packet is set. `false` for a packet of an unsupported format, whose reserved bits are
/// not known.
pub fn reserved(packet: &Packet<'_>) -> bool
    ensures { result ≡ has_reserved (packet_shape packet.now) }
{
    match packet {
        Packet::Iec(view) => view.reserved,
        Packet::Aaf(view) => view.reserved,
        Packet::H264(view) => view.reserved,
        Packet::Crf(view) => view.reserved,
        Packet::Other(_) => false,
    }
}
