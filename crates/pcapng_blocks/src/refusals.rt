//! Which fields of blocks are refused, row by row (draft-ietf-opsawg-pcapng, sections 3 and 4).

ghost use Rattle.std.specs.Prelude.{[], ◌≡◌, ◌<◌, ◌^◌, length, None};
ghost use Rattle.pcapng_blocks.specs.Fields.{bad_length as is_bad_length, first_refused, interface_rows, packet_rows};
ghost use Rattle.pcapng_blocks.specs.Blocks.{block_refused as refused_in_block, option_refused as refused_in_option, is_misplaced, kind_rows, order_at as order_in};
ghost use Rattle.pcapng_blocks.specs.declared.block.Kind.TheVariants as kind;

use crate::block::Kind;
use crate::interface;
use crate::interfaces::{INTERFACE_LIMIT, Interfaces};
use crate::layout::{
    END_OF_OPTIONS, IF_TSOFFSET, IF_TSRESOL, PACKET_LIMIT, kind_at, order_of_magic,
    order_or_little, padded,
};
use crate::packet::packet_arrival;
use avtp_base::rows::refused;
use avtp_base::{Field, Refusal};
use pcap_frames::Order;
use pcap_frames::numbers::{u16_at, u32_at};

/// Whether a total length is too small for this kind of block, or is not a multiple of 4.
fn bad_length(kind: Kind, total: u32) -> bool
    ensures { result ≡ is_bad_length kind total }
{
    let least = match kind {
        Kind::Section => 28,
        Kind::Interface => 20,
        Kind::Packet => 32,
        Kind::Other => 12,
    };
    total < least || total % 4 != 0
}

/// The first refused field of a section header, among the fields that these bytes contain.
fn section_refusal(start: u64, bytes: &[u8]) -> Option<Refusal>
    requires { start < 2 ^ 63 }
    ensures { result ≡ first_refused start (length bytes.now) (kind_rows kind.Section (order_in kind.Section None bytes.now) [] bytes.now) }
{
    if bytes.len() < 12 {
        return None;
    }
    let Some(order) = order_of_magic(u32_at(Order::Little, bytes, 8)) else {
        return Some(refused(Field::ByteOrderMagic, start + 8));
    };
    if bad_length(Kind::Section, u32_at(order, bytes, 4)) {
        return Some(refused(Field::BlockLength, start + 4));
    }
    if bytes.len() >= 14 && u16_at(order, bytes, 12) != 1 {
        return Some(refused(Field::SectionVersion, start + 12));
    }
    None
}

/// The first refused field of an interface description, among the fields that these bytes contain. `count` other
/// interface descriptions precede this one in its section.
fn interface_refusal(order: Order, count: usize, start: u64, bytes: &[u8]) -> Option<Refusal>
    requires { start < 2 ^ 63 }
    ensures { result ≡ first_refused start (length bytes.now) (interface_rows order count bytes.now) }
{
    if bytes.len() < 8 {
        return None;
    }
    if bad_length(Kind::Interface, u32_at(order, bytes, 4)) {
        return Some(refused(Field::BlockLength, start + 4));
    }
    if count >= INTERFACE_LIMIT {
        return Some(refused(Field::Interfaces, start));
    }
    if bytes.len() >= 10 && u16_at(order, bytes, 8) != 1 {
        return Some(refused(Field::LinkType, start + 8));
    }
    None
}

/// The first refused field of an enhanced packet block in a section with these interfaces, among the fields that these
/// bytes contain.
fn packet_refusal(
    order: Order,
    interfaces: &Interfaces,
    start: u64,
    bytes: &[u8],
) -> Option<Refusal>
    requires { start < 2 ^ 63 }
    ensures { result ≡ first_refused start (length bytes.now) (packet_rows order interfaces.now bytes.now) }
{
    let len = bytes.len();
    if len < 8 {
        return None;
    }
    let total = u32_at(order, bytes, 4);
    if bad_length(Kind::Packet, total) {
        return Some(refused(Field::BlockLength, start + 4));
    }
    if len < 12 {
        return None;
    }
    if u32_at(order, bytes, 8) as usize >= interfaces.len() {
        return Some(refused(Field::InterfaceId, start + 8));
    }
    if len < 20 {
        return None;
    }
    if packet_arrival(order, interfaces, bytes).is_none() {
        return Some(refused(Field::TimestampRange, start + 12));
    }
    if len < 24 {
        return None;
    }
    let captured = u32_at(order, bytes, 20);
    if captured > PACKET_LIMIT || u64::from(total) < 32 + padded(captured) {
        return Some(refused(Field::CapturedLength, start + 20));
    }
    None
}

/// The first refused field of an option, among the fields that these bytes contain. The option begins at offset `at` of
/// the capture, and `left` bytes of options remain before the trailer.
#[tactic(auto, unfolding(crate::specs::Blocks::option_refused))]
pub fn option_refusal(order: Order, at: u64, left: u32, bytes: &[u8]) -> Option<Refusal>
    ensures { result ≡ refused_in_option order at left bytes.now }
{
    if bytes.len() < 4 {
        return None;
    }
    let code = u16_at(order, bytes, 0);
    if code == END_OF_OPTIONS {
        return None;
    }
    let len = u16_at(order, bytes, 2);
    if u64::from(left) < 4 + padded(u32::from(len)) {
        return Some(refused(Field::OptionLength, at));
    }
    match code {
        IF_TSRESOL if len != 1 => Some(refused(Field::IfTsresol, at)),
        IF_TSRESOL if bytes.len() >= 5 && !interface::resolved(bytes[4]) => {
            Some(refused(Field::IfTsresol, at))
        }
        IF_TSOFFSET if len != 8 => Some(refused(Field::IfTsoffset, at)),
        _ => None,
    }
}

/// Whether no section was begun yet, and a block of this kind is not a section header.
fn misplaced(kind: Kind, order: Option<Order>) -> bool
    ensures { result ≡ is_misplaced order kind }
{
    match (kind, order) {
        (Kind::Section, _) => false,
        (_, order) => order.is_none(),
    }
}

/// The first refused field of a block, among the fields that these bytes contain.
#[tactic(auto, unfolding(crate::specs::Blocks::block_refused))]
pub fn block_refusal(
    order: Option<Order>,
    interfaces: &Interfaces,
    start: u64,
    bytes: &[u8],
) -> Option<Refusal>
    requires { start < 2 ^ 63 }
    ensures { result ≡ refused_in_block order interfaces.now start bytes.now }
{
    if bytes.len() < 4 {
        return None;
    }
    let kind = kind_at(order, bytes);
    if misplaced(kind, order) {
        return Some(refused(Field::BlockType, start));
    }
    match kind {
        Kind::Section => section_refusal(start, bytes),
        Kind::Interface => {
            interface_refusal(order_or_little(order), interfaces.len(), start, bytes)
        }
        Kind::Packet => packet_refusal(order_or_little(order), interfaces, start, bytes),
        Kind::Other => {
            if bytes.len() >= 8
                && bad_length(Kind::Other, u32_at(order_or_little(order), bytes, 4))
            {
                Some(refused(Field::BlockLength, start + 4))
            } else {
                None
            }
        }
    }
}
