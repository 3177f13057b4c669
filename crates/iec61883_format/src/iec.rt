//! IEC 61883-6 packets.

use avtp_header::StreamHeader;

/// The header of a common isochronous packet (IEC 61883-1), without the bits that have the same value in all accepted
/// packets.
#[derive(Clone, Copy, Debug, PartialEq, Eq)]
pub struct Cip {
    /// The node ID of the source on its bus, 0 to 63.
    pub sid: u8,
    /// The number of quadlets in each data block, 1 to 256.
    pub dbs: u16,
    /// The block count, modulo 256, of the first data block.
    pub dbc: u8,
    /// The code of the sample rate, 0 to 6, or 255 in a no-data packet.
    pub fdf: u8,
    /// The timestamp that is used on an IEEE 1394 bus, but not in AVTP.
    pub syt: u16,
}

/// An IEC 61883-6 packet.
#[derive(Clone, Copy, Debug)]
pub struct IecView<'a> {
    /// The stream header. The higher of the header's two format bits is reserved. The lower of the two bits means that
    /// `gateway_info` is valid.
    pub header: StreamHeader,
    pub gateway_info: u32,
    /// The channel on the IEEE 1394 bus, 0 to 63; 31 for a stream that originates on no such bus.
    pub channel: u8,
    /// The transaction code of the bus, 0 to 15.
    pub tcode: u8,
    /// The synchronization code of the upper layer, 0 to 15.
    pub sy: u8,
    pub cip: Cip,
    /// The number of data blocks; 0 in a no-data packet, whatever follows the CIP header.
    pub count: u32,
    /// The bytes after the CIP header. If the packet is not a no-data packet, the payload consists of the data blocks,
    /// and each block has `cip.dbs` quadlets. A quadlet is a label byte and 24 bits.
    pub payload: &'a [u8],
    /// A reserved bit is set.
    pub reserved: bool,
}
