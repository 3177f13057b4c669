//! How a cursor moves on: how many bytes are read of a block, an option or a trailer, and the cursor after them.

ghost use Rattle.std.specs.Prelude.{ℕ, List, [], ◌≡◌, ◌<◌, ◌≤◌, ◌^◌, false, length, IfSome, Some};
ghost use Rattle.pcap_frames.specs.Layout.{IsRecordTime};
ghost use Rattle.pcap_frames.specs.Readers.{Views};
ghost use Rattle.pcapng_blocks.specs.state.Needs.{IsHead, block_need as need_of_block, option_need as need_of_option, head_need};
ghost use Rattle.pcapng_frames.specs.state.Reading.{HasPacket, HeadsPacket, IsAfterHead, IsAfterOption, IsOption, IsOptionSize, IsPast, lacks_by, packet_with, place_of};
ghost use Rattle.pcapng_blocks.specs.declared.interface.Interface.{Interface};
ghost use Rattle.pcapng_blocks.specs.Fields.{option_code};
ghost use Rattle.pcapng_blocks.specs.Blocks.{Place, described as interface_described, kind_at as kind_in, order_or_little as order_or, trailer_refused as refused_in_trailer};
ghost use Rattle.pcapng_blocks.specs.declared.block.Kind.TheVariants as kind;
ghost use Rattle.pcapng_blocks.specs.declared.block.Stage.TheVariants as stage;

use crate::cursor::{Cursor, PacketHead};
use avtp_base::rows::{cut_off, refused};
use avtp_base::{Field, Refusal};
use pcap_frames::numbers::{u16_at, u32_at};
use pcap_frames::{Order, RecordView};
use pcapng_blocks::layout::{
    END_OF_OPTIONS, IF_TSOFFSET, IF_TSRESOL, PACKET_HEAD, i64_at, kind_at, order_of_magic,
    order_or_little, padded,
};
use pcapng_blocks::packet::packet_arrival;
use pcapng_blocks::{INTERFACE_LIMIT, Interface, Interfaces, Kind, MICROSECONDS, Stage};

/// How many bytes of a block must be taken before more is known of it.
#[tactic(auto, unfolding(pcapng_blocks::specs::state::Needs::block_need))]
pub fn block_need(order: Option<Order>, part: &[u8]) -> usize
    ensures { result ≡ need_of_block order part.now }
{
    if part.len() < 8 {
        return 8;
    }
    match kind_at(order, part) {
        Kind::Section => 16,
        Kind::Interface => 16,
        Kind::Packet => packet_need(order_or_little(order), part),
        Kind::Other => 8,
    }
}

/// The number of bytes of an enhanced packet block that are needed: the fixed fields or, if these are present, also the
/// captured bytes.
fn packet_need(order: Order, part: &[u8]) -> usize
    ensures { result ≡ head_need kind.Packet order part.now }
{
    if part.len() < PACKET_HEAD {
        return PACKET_HEAD;
    }
    PACKET_HEAD + u32_at(order, part, 20) as usize
}

/// The cursor after the fixed fields of a section header.
fn after_section(cursor: Cursor, part: &[u8]) -> Cursor
    requires { IsHead kind.Section cursor.order [] cursor.start part.now }
    ensures { IsAfterHead kind.Section (place_of cursor [] part.now) part.now result }
{
    let order = order_or_little(order_of_magic(u32_at(Order::Little, part, 8)));
    let total = u32_at(order, part, 4);
    Cursor {
        stage: Stage::Trailer,
        order: Some(order),
        interface: None,
        start: cursor.start,
        total,
        left: 0,
        skip: total - 20,
        packet: None,
    }
}

/// The cursor after the fixed fields of an interface description.
fn after_interface(cursor: Cursor, interfaces: &Interfaces, part: &[u8]) -> Cursor
    requires { IsHead kind.Interface cursor.order interfaces.now cursor.start part.now }
    ensures { IsAfterHead kind.Interface (place_of cursor interfaces.now part.now) part.now result }
{
    let total = u32_at(order_or_little(cursor.order), part, 4);
    let left = total - 20;
    Cursor {
        stage: if left == 0 {
            Stage::Trailer
        } else {
            Stage::Option
        },
        order: cursor.order,
        interface: Some(MICROSECONDS),
        start: cursor.start,
        total,
        left,
        skip: 0,
        packet: None,
    }
}

/// The cursor after the fixed fields of a skipped block.
fn after_other(cursor: Cursor, part: &[u8]) -> Cursor
    requires { IsHead kind.Other cursor.order [] cursor.start part.now }
    ensures { (xs : List Interface) → IsAfterHead kind.Other (place_of cursor xs part.now) part.now result }
{
    let total = u32_at(order_or_little(cursor.order), part, 4);
    Cursor {
        stage: Stage::Trailer,
        order: cursor.order,
        interface: None,
        start: cursor.start,
        total,
        left: 0,
        skip: total - 12,
        packet: None,
    }
}

/// The cursor after the fixed fields and the captured bytes of an enhanced packet.
fn after_packet(cursor: Cursor, interfaces: &Interfaces, part: &[u8]) -> Cursor
    requires { IsHead kind.Packet cursor.order interfaces.now cursor.start part.now }
    ensures { IsAfterHead kind.Packet (place_of cursor interfaces.now part.now) part.now result }
{
    let order = order_or_little(cursor.order);
    let total = u32_at(order, part, 4);
    let captured = u32_at(order, part, 20);
    Cursor {
        stage: Stage::Trailer,
        order: cursor.order,
        interface: None,
        start: cursor.start,
        total,
        left: 0,
        skip: total - 32 - captured,
        packet: packet_head(order, interfaces, part),
    }
}

/// The fixed fields of an enhanced packet, if its timestamp is in range.
fn packet_head(order: Order, interfaces: &Interfaces, part: &[u8]) -> Option<PacketHead>
    requires { HasPacket order interfaces.now part.now }
    ensures { HeadsPacket order interfaces.now part.now result }
{
    let arrival = packet_arrival(order, interfaces, part)?;
    Some(PacketHead {
        arrival,
        orig_len: u32_at(order, part, 24),
    })
}

/// The cursor after the bytes that are read at the start of a block.
pub fn after_block(cursor: Cursor, interfaces: &Interfaces, part: &[u8]) -> Cursor
    requires { IsHead (kind_in cursor.order part.now) cursor.order interfaces.now cursor.start part.now }
    ensures { IsAfterHead (kind_in cursor.order part.now) (place_of cursor interfaces.now part.now) part.now result }
{
    match kind_at(cursor.order, part) {
        Kind::Section => after_section(cursor, part),
        Kind::Interface => after_interface(cursor, interfaces, part),
        Kind::Packet => after_packet(cursor, interfaces, part),
        Kind::Other => after_other(cursor, part),
    }
}

/// How many bytes of an option must be taken before more is known of it.
#[tactic(auto, unfolding(pcapng_blocks::specs::state::Needs::option_need))]
pub fn option_need(order: Order, tail: &[u8]) -> usize
    ensures { result ≡ need_of_option order tail.now }
{
    if tail.len() < 4 {
        return 4;
    }
    match u16_at(order, tail, 0) {
        IF_TSRESOL => 8,
        IF_TSOFFSET => 12,
        _ => 4,
    }
}

/// The length of an option, with its header and the padding of its value. An option with code 0 ends the options. The
/// length of an option with code 0 is the number of all remaining bytes of options.
#[tactic(auto, unfolding(pcapng_blocks::specs::Blocks::option_refused))]
fn option_size(cursor: Cursor, tail: &[u8]) -> u32
    requires { IsOption cursor tail.now }
    ensures { IsOptionSize (order_or cursor.order) cursor.left tail.now result }
{
    let order = order_or_little(cursor.order);
    if u16_at(order, tail, 0) == END_OF_OPTIONS {
        return cursor.left;
    }
    4 + padded(u32::from(u16_at(order, tail, 2))) as u32
}

/// The interface that is being described, if there is one, after one more of its options.
#[tactic(auto, unfolding(pcapng_blocks::specs::state::Needs::option_need))]
fn with_option(cursor: Cursor, tail: &[u8]) -> Option<Interface>
    requires { IsOption cursor tail.now }
    ensures { let order = order_or cursor.order in result ≡ interface_described order (option_code order tail.now) cursor.interface tail.now }
{
    let interface = cursor.interface?;
    let order = order_or_little(cursor.order);
    match u16_at(order, tail, 0) {
        IF_TSRESOL => Some(Interface {
            resolution: tail[4],
            ..interface
        }),
        IF_TSOFFSET => Some(Interface {
            offset: i64_at(order, tail, 4),
            ..interface
        }),
        _ => Some(interface),
    }
}

/// The cursor after an option.
#[tactic(auto, using(pcapng_blocks::proofs::Options::option_fits, pcapng_blocks::proofs::Options::option_small, pcapng_blocks::proofs::Options::option_resolved, pcapng_blocks::proofs::Options::described_room))]
pub fn after_option(cursor: Cursor, tail: &[u8]) -> Cursor
    requires { IsOption cursor tail.now }
    ensures { (front : List ℕ) (xs : List Interface) → IfSome cursor.interface (λ i. length xs < 256) → IsAfterOption (place_of cursor xs front) tail.now result front }
{
    let size = option_size(cursor, tail);
    let left = cursor.left - size;
    Cursor {
        stage: if left == 0 {
            Stage::Trailer
        } else {
            Stage::Option
        },
        order: cursor.order,
        interface: with_option(cursor, tail),
        start: cursor.start,
        total: cursor.total,
        left,
        skip: size - tail.len() as u32,
        packet: None,
    }
}

/// The cursor after a block's trailer.
pub fn after_trailer(cursor: Cursor) -> Cursor
    requires { cursor.start ≤ 2 ^ 62 }
    ensures { IsPast cursor result }
{
    Cursor {
        stage: Stage::Block,
        order: cursor.order,
        interface: None,
        start: cursor.start + u64::from(cursor.total),
        total: 0,
        left: 0,
        skip: 0,
        packet: None,
    }
}

/// The packet that has these fixed fields; its captured bytes follow the first 28 bytes of `part`.
pub fn view(packet: PacketHead, part: &[u8]) -> RecordView<'_>
    requires whole { 28 ≤ length part.now }
    requires time { IsRecordTime packet.arrival }
    ensures { Views (Some (packet_with packet part.now)) (Some result) }
{
    RecordView {
        arrival: packet.arrival,
        orig_len: packet.orig_len,
        bytes: &part[PACKET_HEAD..],
    }
}

/// The refusal of a trailer, if the trailer is complete and differs from the total length.
#[tactic(auto, unfolding(pcapng_blocks::specs::Blocks::trailer_refused))]
pub fn trailer_refusal(order: Order, at: u64, total: u32, tail: &[u8]) -> Option<Refusal>
    ensures { result ≡ refused_in_trailer order at total tail.now }
{
    if tail.len() >= 4 && u32_at(order, tail, 0) != total {
        return Some(refused(Field::BlockTrailer, at));
    }
    None
}

/// What is missing of a block that is cut off at the end of the bytes, in a section with `count` interfaces. After the
/// first section header, an empty `part` lacks nothing: a capture that ends there is whole.
pub fn missing_of_block(
    order: Option<Order>,
    count: usize,
    start: u64,
    part: &[u8],
) -> Option<Refusal>
    requires { start < 2 ^ 63 }
    ensures { (p : Place) → p.order ≡ order → length p.interfaces ≡ count → p.start ≡ start → p.stage ≡ stage.Block → result ≡ lacks_by false p part.now }
{
    if part.is_empty() && order.is_some() {
        return None;
    }
    if part.len() < 4 {
        return Some(cut_off(Field::BlockType, start));
    }
    if part.len() >= 8 {
        return Some(cut_off(Field::BlockBody, start + 8));
    }
    match kind_at(order, part) {
        Kind::Interface if count >= INTERFACE_LIMIT => Some(refused(Field::Interfaces, start)),
        _ => Some(cut_off(Field::BlockLength, start + 4)),
    }
}
