//! Where a reader is in a pcapng capture.

use pcap_frames::Order;
use pcapng_blocks::{Interface, Stage};

/// The fixed fields of an enhanced packet.
#[derive(Clone, Copy, Debug, PartialEq, Eq)]
pub struct PacketHead {
    /// When the frame was captured, in nanoseconds since the epoch.
    pub arrival: i64,
    /// The length in bytes of the frame on the wire.
    pub orig_len: u32,
}

/// Where a reader is in a capture.
#[derive(Clone, Copy, Debug, PartialEq, Eq)]
pub struct Cursor {
    /// What follows next.
    pub stage: Stage,
    /// The byte order of the section; `None` before the first section.
    pub order: Option<Order>,
    /// The interface that is being described.
    pub interface: Option<Interface>,
    /// The offset of the block in the capture.
    pub start: u64,
    /// The block's total length.
    pub total: u32,
    /// How many bytes of options remain.
    pub left: u32,
    /// How many bytes are to be skipped first.
    pub skip: u32,
    /// The fixed fields of the packet, if the block is a packet's block.
    pub packet: Option<PacketHead>,
}

impl Cursor {
    /// The start of a capture.
    pub const START: Cursor = Cursor {
        stage: Stage::Block,
        order: None,
        interface: None,
        start: 0,
        total: 0,
        left: 0,
        skip: 0,
        packet: None,
    };
}
