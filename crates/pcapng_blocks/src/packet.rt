//! Packets in enhanced packet blocks (draft-ietf-opsawg-pcapng, section 4.3).

ghost use Rattle.std.specs.Prelude.{◌≡◌, ◌≤◌, is_none, length, Some};
ghost use Rattle.pcap_frames.specs.Readers.{FindsNext, Views};
ghost use Rattle.pcapng_blocks.specs.Fields.{first_refused, packet_arrival as arrival_in, packet_rows};
ghost use Rattle.pcapng_blocks.specs.Blocks.{record_by};
ghost use Rattle.pcapng_blocks.specs.Packets.{HasTime, IsPacketBlock};

use crate::interfaces::Interfaces;
use crate::layout::{ENHANCED_PACKET, PACKET_HEAD, PACKET_LIMIT, padded};
use pcap_frames::numbers::u32_at;
use pcap_frames::{Order, RecordView};

/// The arrival of a packet, if its timestamp is in range.
#[tactic(auto, unfolding(crate::specs::Fields::packet_arrival, crate::specs::Fields::timestamp))]
#[inline(always)]
pub fn packet_arrival(order: Order, interfaces: &Interfaces, bytes: &[u8]) -> Option<i64>
    requires { HasTime order interfaces.now bytes.now }
    ensures { result ≡ arrival_in order interfaces.now bytes.now }
{
    // The high half of the timestamp is stored first, in either byte order.
    let high = u64::from(u32_at(order, bytes, 12));
    let low = u64::from(u32_at(order, bytes, 16));
    interfaces.arrival(u32_at(order, bytes, 8) as usize, high * (1 << 32) + low)
}

/// The packet in this block. If the compiler knows the byte order of a call, the call is faster.
#[inline(always)]
pub fn packet_view<'a>(order: Order, interfaces: &Interfaces, block: &'a [u8]) -> RecordView<'a>
    requires { IsPacketBlock order interfaces.now block.now }
    ensures { Views (record_by (arrival_in order interfaces.now block.now) order block.now) (Some result) }
{
    let Some(arrival) = packet_arrival(order, interfaces, block) else {
        unreachable!()
    };
    let captured = u32_at(order, block, 20) as usize;
    RecordView {
        arrival,
        orig_len: u32_at(order, block, 24),
        bytes: &block[PACKET_HEAD..PACKET_HEAD + captured],
    }
}

/// Whether no fixed field of an enhanced packet is refused.
#[inline(always)]
fn accepts_packet(order: Order, interfaces: &Interfaces, bytes: &[u8]) -> bool
    requires { 28 ≤ length bytes.now }
    ensures { result ≡ is_none (first_refused 0 (length bytes.now) (packet_rows order interfaces.now bytes.now)) }
{
    let total = u32_at(order, bytes, 4);
    let captured = u32_at(order, bytes, 20);
    total % 4 == 0
        && (u32_at(order, bytes, 8) as usize) < interfaces.len()
        && captured <= PACKET_LIMIT
        && 32 + padded(captured) <= u64::from(total)
        && packet_arrival(order, interfaces, bytes).is_some()
}

/// The size of the enhanced packet block that the bytes begin with, if the bytes contain the whole block and nothing in
/// the block is refused. If the compiler knows the byte order of a call, the call is faster.
#[inline(always)]
pub fn packet_size(order: Order, interfaces: &Interfaces, bytes: &[u8]) -> Option<usize>
    ensures { FindsNext (IsPacketBlock order interfaces.now) bytes.now result }
{
    if bytes.len() < PACKET_HEAD {
        return None;
    }
    if u32_at(order, bytes, 0) != ENHANCED_PACKET {
        return None;
    }
    if !accepts_packet(order, interfaces, bytes) {
        return None;
    }
    let total = u32_at(order, bytes, 4);
    let size = total as usize;
    if bytes.len() < size {
        return None;
    }
    if u32_at(order, &bytes[size - 4..], 0) != total {
        return None;
    }
    Some(size)
}
