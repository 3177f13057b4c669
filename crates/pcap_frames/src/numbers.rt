//! Numbers of a capture, in its byte order.

ghost use Rattle.std.specs.Prelude.{◌≡◌, ◌+◌, ◌≤◌, length};
ghost use Rattle.pcap_frames.specs.Layout.{number_at};
ghost use Rattle.pcap_frames.specs.state.Layout.{Puts};

use crate::style::Order;
use byteorder::{BigEndian, ByteOrder, LittleEndian};

/// The 16-bit number at an offset.
#[tactic(auto, unfolding(crate::specs::Layout::number_at))]
pub fn u16_at(order: Order, bytes: &[u8], offset: usize) -> u16
    requires { offset + 2 ≤ length bytes.now }
    ensures { result ≡ number_at order offset 2 bytes.now }
{
    match order {
        Order::Little => LittleEndian::read_u16(&bytes[offset..]),
        Order::Big => BigEndian::read_u16(&bytes[offset..]),
    }
}

/// The 32-bit number at an offset.
#[tactic(auto, unfolding(crate::specs::Layout::number_at))]
pub fn u32_at(order: Order, bytes: &[u8], offset: usize) -> u32
    requires { offset + 4 ≤ length bytes.now }
    ensures { result ≡ number_at order offset 4 bytes.now }
{
    match order {
        Order::Little => LittleEndian::read_u32(&bytes[offset..]),
        Order::Big => BigEndian::read_u32(&bytes[offset..]),
    }
}

/// Writes a 16-bit number at an offset.
#[tactic(auto, using(std::proofs::lemmas::Slice::overwrites), unfolding(crate::specs::Layout::number_bytes))]
pub(crate) fn put_u16(order: Order, out: &mut [u8], offset: usize, number: u16)
    requires { offset + 2 ≤ length out.old }
    ensures { Puts order offset 2 number out.old out.new }
{
    match order {
        Order::Little => LittleEndian::write_u16(&mut out[offset..offset + 2], number),
        Order::Big => BigEndian::write_u16(&mut out[offset..offset + 2], number),
    }
}

/// Writes a 32-bit number at an offset.
#[tactic(auto, using(std::proofs::lemmas::Slice::overwrites), unfolding(crate::specs::Layout::number_bytes))]
pub(crate) fn put_u32(order: Order, out: &mut [u8], offset: usize, number: u32)
    requires { offset + 4 ≤ length out.old }
    ensures { Puts order offset 4 number out.old out.new }
{
    match order {
        Order::Little => LittleEndian::write_u32(&mut out[offset..offset + 4], number),
        Order::Big => BigEndian::write_u32(&mut out[offset..offset + 4], number),
    }
}
