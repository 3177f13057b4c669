//! The offsets of the fields of blocks (draft-ietf-opsawg-pcapng, sections 3 and 4).

ghost use Rattle.std.specs.Prelude.{◌≡◌, ◌+◌, ◌≤◌, length};
ghost use Rattle.std.specs.Int.{cast_signed, w64};
ghost use Rattle.pcap_frames.specs.Layout.{number_at};
ghost use Rattle.pcapng_blocks.specs.Fields.{order_of_magic as order_of_number, padded as padded_length};
ghost use Rattle.pcapng_blocks.specs.Blocks.{kind_at as kind_in, order_or_little as order_or};

use crate::block::Kind;
use byteorder::{BigEndian, ByteOrder, LittleEndian};
use pcap_frames::Order;
use pcap_frames::numbers::u32_at;

/// The types of the blocks that are read.
pub const SECTION_HEADER: u32 = 0x0A0D_0D0A;

pub const INTERFACE_DESCRIPTION: u32 = 1;

pub const ENHANCED_PACKET: u32 = 6;

/// The magic number of a section. `SWAPPED_MAGIC` is the value that is read if the magic number was written in the
/// other byte order.
const MAGIC: u32 = 0x1A2B_3C4D;

const SWAPPED_MAGIC: u32 = 0x4D3C_2B1A;

/// The greatest number of bytes that a packet may have.
pub const PACKET_LIMIT: u32 = 262_144;

/// The number of bytes of a packet's fixed fields.
pub const PACKET_HEAD: usize = 28;

/// The codes of options.
pub const END_OF_OPTIONS: u16 = 0;

pub const IF_TSRESOL: u16 = 9;

pub const IF_TSOFFSET: u16 = 14;

/// The signed 64-bit number at an offset.
#[tactic(auto, unfolding(crate::specs::Fields::number_at))]
pub fn i64_at(order: Order, bytes: &[u8], offset: usize) -> i64
    requires { offset + 8 ≤ length bytes.now }
    ensures { result ≡ cast_signed w64 (number_at order offset 8 bytes.now) }
{
    match order {
        Order::Little => LittleEndian::read_i64(&bytes[offset..]),
        Order::Big => BigEndian::read_i64(&bytes[offset..]),
    }
}

/// The byte order of a section whose magic number, read as little-endian, is `magic`.
pub fn order_of_magic(magic: u32) -> Option<Order>
    ensures { result ≡ order_of_number magic }
{
    match magic {
        MAGIC => Some(Order::Little),
        SWAPPED_MAGIC => Some(Order::Big),
        _ => None,
    }
}

/// The length of a value with its padding.
pub fn padded(len: u32) -> u64
    ensures { result ≡ padded_length len }
{
    (u64::from(len) + 3) / 4 * 4
}

/// The byte order of the section; before the first section, little-endian.
pub fn order_or_little(order: Option<Order>) -> Order
    ensures { result ≡ order_or order }
{
    match order {
        Some(order) => order,
        None => Order::Little,
    }
}

/// The kind of the block that the bytes begin with.
pub fn kind_at(order: Option<Order>, bytes: &[u8]) -> Kind
    requires { 4 ≤ length bytes.now }
    ensures { result ≡ kind_in order bytes.now }
{
    match u32_at(order_or_little(order), bytes, 0) {
        SECTION_HEADER => Kind::Section,
        INTERFACE_DESCRIPTION => Kind::Interface,
        ENHANCED_PACKET => Kind::Packet,
        _ => Kind::Other,
    }
}
